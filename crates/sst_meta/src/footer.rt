//! The footer, which ends a table file and says where the metaindex and the index stand.
ghost use Rattle.std.specs.Prelude.{◌≡◌, ℕ, ◌≤◌, ◌==◌, ◌&&◌, nat_le, Bool, true, false, List, ◌++◌, length, Some, OnOk, OnErr};
ghost use Rattle.sst_num.specs.Spelling.{fixed};
ghost use Rattle.sst_meta.specs.Footer as spelling;
ghost use Rattle.sst_meta.specs.Footer.{two_handles, handle_zeros, footer_spelling, legacy_spelling, later_spelling, IsWritable, footer_length};
ghost use Rattle.sst_meta.specs.FooterReading as reading;
ghost use Rattle.sst_meta.specs.FooterReading.{footer_read, handles_read, fields_read, format_at, last_bytes};

use crate::meta_fault::MetaFault;
use sst_key::Format;
use sst_num::{
    Handle, Memory, fixed32, fixed64, put_fixed32, put_fixed64, put_handle, take_handle,
};

/// What the footer of a table file says.
///
/// RocksDB: `Footer` in table/format.h.
#[derive(Clone, Copy, Debug, PartialEq, Eq)]
pub struct Footer {
    /// The format of the file.
    pub format: Format,
    /// Whether it is a footer of 48 bytes, which is the one of version 0. Others have 53 bytes.
    pub legacy: bool,
    /// The version of the format. A legacy footer has version 0.
    pub version: u32,
    /// The type of the checksums of the blocks. A legacy footer has 1 in a block-based file and 0 in a plain table.
    pub checksum: u8,
    /// Where the metaindex block stands.
    pub meta: Handle,
    /// Where the index block stands.
    pub index: Handle,
}

/// The checksum type of a file whose blocks have a masked CRC32C.
///
/// RocksDB: `kCRC32c` in include/rocksdb/table.h.
pub const CHECKSUM_TYPE: u8 = 1;

/// The first version of block-based files that is read.
const FIRST_VERSION: u32 = 2;

/// The last version of block-based files that is read.
const LAST_VERSION: u32 = 4;

/// The last eight bytes of a block-based file.
///
/// RocksDB: `kBlockBasedTableMagicNumber` in table/block_based/block_based_table_builder.cc.
const MAGIC: u64 = 0x88e2_41b7_85f4_cff7;

/// The last eight bytes of a block-based file of version 0.
///
/// RocksDB: `kLegacyBlockBasedTableMagicNumber` in table/block_based/block_based_table_builder.cc.
const LEGACY_MAGIC: u64 = 0xdb47_7524_8b80_fb57;

/// The last eight bytes of a plain table.
///
/// RocksDB: `kPlainTableMagicNumber` in table/plain/plain_table_builder.cc.
const PLAIN_MAGIC: u64 = 0x8242_2296_63bf_9564;

/// The last eight bytes of a plain table of version 0.
///
/// RocksDB: `kLegacyPlainTableMagicNumber` in table/plain/plain_table_builder.cc.
const LEGACY_PLAIN_MAGIC: u64 = 0x4f34_18eb_7a8f_13b8;

/// The last eight bytes of a cuckoo table.
///
/// RocksDB: `kCuckooTableMagicNumber` in table/cuckoo/cuckoo_table_builder.cc.
const CUCKOO_MAGIC: u64 = 0x9267_89d0_c5f1_7873;

/// How many bytes a magic number takes.
const MAGIC_LENGTH: usize = 8;

/// How many bytes a footer takes that isn't legacy.
///
/// RocksDB: `Footer::kNewVersionsEncodedLength` in table/format.h.
pub const FOOTER_LENGTH: usize = 53;

/// How many bytes a footer of version 0 takes.
///
/// RocksDB: `Footer::kVersion0EncodedLength` in table/format.h.
const LEGACY_FOOTER_LENGTH: usize = 48;

/// How many bytes of a footer are for the two handles.
const HANDLES_LENGTH: usize = 40;

/// Appends a footer: 48 bytes if it is legacy, 53 bytes if it isn't.
///
/// A legacy footer isn't of a cuckoo table, and has version 0 and the checksum type 1 in a block-based file, 0 in a
/// plain table. Else a block-based footer has version 2, 3 or 4 and the checksum type 1, a plain or cuckoo footer the
/// checksum type 0. Where memory runs out, `out` holds its old bytes followed by any.
/// RocksDB: `FooterBuilder::Build` in table/format.cc.
#[tactic(auto, unfolding(crate::specs::Footer::footer_spelling))]
pub fn put_footer(out: &mut Vec<u8>, f: &Footer) -> Result<(), Memory>
    requires { IsWritable f.now.format f.now.legacy f.now.version f.now.checksum }
    ensures ok { OnOk result (out.new.items ≡ out.old.items ++ footer_spelling f.now) }
    ensures err { OnErr result ((rest : List ℕ) × (out.new.items ≡ out.old.items ++ rest)) }
{
    match f.legacy {
        true => put_legacy(out, *f),
        false => put_later(out, *f),
    }
}

/// The magic number of a kind of file.
fn magic_of(format: Format, legacy: bool) -> u64
    ensures { result ≡ spelling.magic_of format legacy }
{
    match (format, legacy) {
        (Format::Block, true) => LEGACY_MAGIC,
        (Format::Block, false) => MAGIC,
        (Format::Plain, true) => LEGACY_PLAIN_MAGIC,
        (Format::Plain, false) => PLAIN_MAGIC,
        (Format::Cuckoo, _) => CUCKOO_MAGIC,
    }
}

/// Appends the two handles and zeros up to 40 bytes.
fn put_handles(out: &mut Vec<u8>, meta: Handle, index: Handle) -> Result<(), Memory>
    ensures ok { OnOk result (out.new.items ≡ out.old.items ++ (two_handles meta index ++ handle_zeros meta index)) }
    ensures err { OnErr result ((rest : List ℕ) × (out.new.items ≡ out.old.items ++ rest)) }
{
    let start = out.len();
    put_handle(out, meta)?;
    put_handle(out, index)?;
    out.resize(start + HANDLES_LENGTH, 0)?;
    Ok(())
}

/// Appends a footer of 48 bytes.
fn put_legacy(out: &mut Vec<u8>, f: Footer) -> Result<(), Memory>
    ensures ok { OnOk result (out.new.items ≡ out.old.items ++ legacy_spelling f) }
    ensures err { OnErr result ((rest : List ℕ) × (out.new.items ≡ out.old.items ++ rest)) }
{
    put_handles(out, f.meta, f.index)?;
    put_fixed64(out, magic_of(f.format, true))
}

/// Appends a footer of 53 bytes.
fn put_later(out: &mut Vec<u8>, f: Footer) -> Result<(), Memory>
    ensures ok { OnOk result (out.new.items ≡ out.old.items ++ later_spelling f) }
    ensures err { OnErr result ((rest : List ℕ) × (out.new.items ≡ out.old.items ++ rest)) }
{
    out.push(f.checksum)?;
    put_handles(out, f.meta, f.index)?;
    put_fixed32(out, f.version)?;
    put_fixed64(out, magic_of(f.format, false))
}

/// What the last 53 bytes of a file say, or all bytes of a shorter file. Takes no memory.
///
/// The first of `NotTable`, `Version`, `ChecksumType` and `BadFooter` that the bytes give reason for is answered. Of
/// block-based files the versions 2, 3 and 4 and the checksum type 1 are read, so that one of version 0, whose footer has
/// 48 bytes, answers `Version(0)`. Of plain and cuckoo tables any version and any checksum type are read.
/// RocksDB: `Footer::DecodeFrom` in table/format.cc.
#[tactic(auto, unfolding(crate::specs::FooterReading::footer_read))]
pub fn read_footer(tail: &[u8]) -> Result<Footer, MetaFault>
    ensures exact { result ≡ footer_read tail.now }
{
    match kind_at(tail) {
        None => Err(MetaFault::NotTable),
        Some((format, true)) => read_legacy(format, tail),
        Some((format, false)) => read_later(format, tail),
    }
}

/// The format of the file that ends in these bytes, which are its last 53 or all of a shorter file. None is answered
/// where it doesn't end with the number of a kind of table, or is shorter than the footer of that kind.
///
/// RocksDB: `Footer::DecodeFrom` in table/format.cc.
pub fn format_of(tail: &[u8]) -> Option<Format>
    ensures exact { result ≡ format_at tail.now }
{
    match kind_at(tail) {
        None => None,
        Some((format, _)) => Some(format),
    }
}

/// The format of the file that ends in these bytes, and whether its footer is legacy.
#[tactic(auto, unfolding(crate::specs::FooterReading::kind_at, crate::specs::FooterReading::number_at_end))]
fn kind_at(tail: &[u8]) -> Option<(Format, bool)>
    ensures { result ≡ reading.kind_at tail.now }
{
    if tail.len() < MAGIC_LENGTH {
        return None;
    }
    let (_, last) = tail.split_at(tail.len() - MAGIC_LENGTH);
    kind_of(fixed64(last), tail.len())
}

/// Whether the number at the end is that of a kind of table, and the bytes are as many as the footer of that kind has.
fn ends_in(magic: u64, kind: u64, footer_length: usize, len: usize) -> bool
    ensures { result ≡ (magic == kind && nat_le footer_length len) }
{
    magic == kind && footer_length <= len
}

/// The kind of table with this magic number, if the bytes are as many as its footer has.
fn kind_of(magic: u64, len: usize) -> Option<(Format, bool)>
    ensures { result ≡ reading.kind_of magic len }
{
    if ends_in(magic, MAGIC, FOOTER_LENGTH, len) {
        return Some((Format::Block, false));
    }
    if ends_in(magic, LEGACY_MAGIC, LEGACY_FOOTER_LENGTH, len) {
        return Some((Format::Block, true));
    }
    other_kind_of(magic, len)
}

/// The same of tables that aren't block-based.
fn other_kind_of(magic: u64, len: usize) -> Option<(Format, bool)>
    ensures { result ≡ reading.other_kind_of magic len }
{
    if ends_in(magic, PLAIN_MAGIC, FOOTER_LENGTH, len) {
        return Some((Format::Plain, false));
    }
    if ends_in(magic, LEGACY_PLAIN_MAGIC, LEGACY_FOOTER_LENGTH, len) {
        return Some((Format::Plain, true));
    }
    if ends_in(magic, CUCKOO_MAGIC, FOOTER_LENGTH, len) {
        return Some((Format::Cuckoo, false));
    }
    None
}

/// What a legacy footer says: the two handles.
fn read_legacy(format: Format, tail: &[u8]) -> Result<Footer, MetaFault>
    requires { 48 ≤ length tail.now }
    ensures { result ≡ reading.legacy_read format (last_bytes 48 tail.now) }
{
    let (_, last) = tail.split_at(tail.len() - LEGACY_FOOTER_LENGTH);
    let (handles, _) = last.split_at(HANDLES_LENGTH);
    read_fields(format, true, 0, legacy_checksum(format), handles)
}

/// The checksum type of a file with a legacy footer.
fn legacy_checksum(format: Format) -> u8
    ensures { result ≡ reading.legacy_checksum format }
{
    match format {
        Format::Block => CHECKSUM_TYPE,
        _ => 0,
    }
}

/// What a footer of 53 bytes says: the checksum type, the handles, the version.
fn read_later(format: Format, tail: &[u8]) -> Result<Footer, MetaFault>
    requires { 53 ≤ length tail.now }
    ensures { result ≡ reading.later_read format (last_bytes 53 tail.now) }
{
    let (_, last) = tail.split_at(tail.len() - FOOTER_LENGTH);
    match last.split_first() {
        None => Err(MetaFault::NotTable),
        Some((&checksum, rest)) => {
            let (handles, version) = rest.split_at(HANDLES_LENGTH);
            read_fields(format, false, fixed32(version), checksum, handles)
        }
    }
}

/// Whether files of this version are read.
fn takes_version(format: Format, version: u32) -> bool
    ensures { result ≡ reading.takes_version format version }
{
    match format {
        Format::Block => FIRST_VERSION <= version && version <= LAST_VERSION,
        _ => true,
    }
}

/// Whether files of this checksum type are read.
fn takes_checksum(format: Format, checksum: u8) -> bool
    ensures { result ≡ reading.takes_checksum format checksum }
{
    match format {
        Format::Block => checksum == CHECKSUM_TYPE,
        _ => true,
    }
}

/// The version is looked at first, then the checksum type, then the handles.
fn read_fields(
    format: Format,
    legacy: bool,
    version: u32,
    checksum: u8,
    between: &[u8],
) -> Result<Footer, MetaFault>
    ensures { result ≡ fields_read format legacy version checksum between.now }
{
    if !takes_version(format, version) {
        return Err(MetaFault::Version(version));
    }
    if !takes_checksum(format, checksum) {
        return Err(MetaFault::ChecksumType(checksum));
    }
    match read_handles(between) {
        None => Err(MetaFault::BadFooter),
        Some((meta, index)) => Ok(Footer {
            format,
            legacy,
            version,
            checksum,
            meta,
            index,
        }),
    }
}

/// The two handles at the front, whatever follows them.
#[tactic(auto, unfolding(crate::specs::FooterReading::handles_read))]
fn read_handles(bytes: &[u8]) -> Option<(Handle, Handle)>
    ensures { result ≡ handles_read bytes.now }
{
    match take_handle(bytes) {
        None => None,
        Some((meta, used)) => {
            let (_, rest) = bytes.split_at(used);
            match take_handle(rest) {
                None => None,
                Some((index, _)) => Some((meta, index)),
            }
        }
    }
}
