//! What is put as a footer is read back.
ghost use Rattle.std.specs.Prelude.{◌≡◌, true, false, Ok, Err};
ghost use Rattle.sst_meta.specs.Footer.{footer_spelling, IsWritable, IsInRange};
ghost use Rattle.sst_meta.specs.FooterReading.{footer_read, takes_version};
ghost use Rattle.sst_meta.specs.declared.footer.Footer.{Footer};
ghost use Rattle.sst_meta.specs.declared.meta_fault.MetaFault.TheVariants.{Version};

/// What is put as a footer is read back, if its version is one that is read.
///
/// The one that isn't is version 0 of block-based files, which answers so.
/// RocksDB: `FooterBuilder::Build` and `Footer::DecodeFrom` in table/format.cc.
pub fn a_footer_reads_back()
    ensures read { (f : Footer) → IsWritable f.format f.legacy f.version f.checksum → IsInRange f
        → takes_version f.format f.version ≡ true → footer_read (footer_spelling f) ≡ Ok f }
    ensures other_version { (f : Footer) → IsWritable f.format f.legacy f.version f.checksum → IsInRange f
        → takes_version f.format f.version ≡ false → footer_read (footer_spelling f) ≡ Err (Version f.version) }
{}
