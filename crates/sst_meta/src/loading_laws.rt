//! What is loaded of a file is what the file says of itself.
ghost use Rattle.std.specs.Prelude.{◌≡◌, ◌⊎◌, ℕ, ◌-◌, ◌^◌, ◌<◌, ◌≤◌, List, length, Ok, Err};
ghost use Rattle.sst_num.specs.declared.block_handle.Handle.{Handle};
ghost use Rattle.sst_block.specs.Block.{Row};
ghost use Rattle.hex.specs.Hex.{IsBytes};
ghost use Rattle.sst_meta.specs.BlockFooter.{FooterLeads, IsBuilt, block_footer, footer_start};
ghost use Rattle.sst_meta.specs.FooterReading.{last_bytes};
ghost use Rattle.sst_meta.specs.LoadReading.{end_read, load_read};
ghost use Rattle.sst_meta.specs.LoadSteps.{LoadStep, number_of, FailsAt, FailsFirst};
ghost use Rattle.sst_meta.specs.Meta.{Meta};
ghost use Rattle.sst_meta.specs.MetaFaults.{ShowsMeta};
ghost use Rattle.sst_meta.specs.Put.{AreProps, file_with, loaded_with};
ghost use Rattle.sst_meta.specs.declared.footer.Footer.{Footer};
ghost use Rattle.sst_meta.specs.declared.loading.Loaded.{Loaded};
ghost use Rattle.sst_meta.specs.declared.meta_fault.MetaFault.{MetaFault};

/// What the last 53 bytes of a file read as is what its footer says, or a fault that the file shows.
///
/// `complete`: a footer that leads to two handles is read. `sound`: one that is read leads to its handles. `faults`
/// holds where the last 53 numbers of the list are bytes, as those of a real file are.
/// RocksDB: `Footer::DecodeFrom` in table/format.cc.
pub fn a_footer_is_read()
    ensures complete { (file : List ℕ) (metaindex index : Handle) (leads : FooterLeads file (footer_start file) metaindex index)
        → end_read (last_bytes 53 file) ≡ Ok (block_footer leads.version metaindex index) }
    ensures sound { (file : List ℕ) (footer : Footer) → end_read (last_bytes 53 file) ≡ Ok footer
        → (leads : FooterLeads file (footer_start file) footer.meta footer.index)
        × (footer ≡ block_footer leads.version footer.meta footer.index) }
    ensures faults { (file : List ℕ) (fault : MetaFault) → IsBytes (last_bytes 53 file)
        → end_read (last_bytes 53 file) ≡ Err fault → ShowsMeta file fault }
{}

/// What is loaded of a file is exactly what it says of itself.
///
/// What a file says of itself is told by its footer, its blocks and their rows, and never by reading. `complete`: what a
/// file says of itself is loaded. `sound`: a file says of itself what is loaded. So it says one thing at most.
/// RocksDB: `BlockBasedTable::Open` in table/block_based/block_based_table_reader.cc.
pub fn a_file_loads_as_it_says()
    ensures complete { (file : List ℕ) (loaded : Loaded) → Meta file loaded → load_read file ≡ Ok loaded }
    ensures sound { (file : List ℕ) (loaded : Loaded) → load_read file ≡ Ok loaded → Meta file loaded }
    ensures one { (file : List ℕ) (a b : Loaded) → Meta file a → Meta file b → a ≡ b }
{}

/// A fault that loading a file answers is one that the file shows, and a file that loads shows none.
///
/// `shown` and `either` hold where the last 53 numbers of the list are bytes, as those of a real file are.
/// RocksDB: `BlockBasedTable::Open` in table/block_based/block_based_table_reader.cc.
pub fn a_meta_fault_is_shown()
    ensures shown { (file : List ℕ) (fault : MetaFault) → IsBytes (last_bytes 53 file) → load_read file ≡ Err fault
        → ShowsMeta file fault }
    ensures none { (file : List ℕ) (loaded : Loaded) (fault : MetaFault) → Meta file loaded → ShowsMeta file fault → ⊥ }
    ensures either { (file : List ℕ) → IsBytes (last_bytes 53 file)
        → ((loaded : Loaded) × Meta file loaded) ⊎ ((fault : MetaFault) × ShowsMeta file fault) }
{}

/// Of several things that are wrong with a file, loading answers the one whose step comes first.
///
/// The steps have one order (`number_of`, specs/LoadSteps.antt), and what fails at a step is told by what stands in the file,
/// whatever fails at other steps. `first`: a fault that is read fails at a step, and no earlier step fails. `read`: the fault
/// of the first step that fails is read. `loads` and `all`: a file is loaded exactly where no step fails. `one`: a step fails
/// with one fault at most. `shown`: each fault that a file shows fails at a step, and at none before the first that fails.
///
/// All but `loads` and `shown` hold where the last 53 numbers of the list are bytes, as those of a real file are.
/// RocksDB: `BlockBasedTable::Open` in table/block_based/block_based_table_reader.cc.
pub fn the_fault_of_loading_is_the_first()
    ensures first { (file : List ℕ) (fault : MetaFault) → IsBytes (last_bytes 53 file) → load_read file ≡ Err fault
        → (step : LoadStep) × FailsFirst file step fault }
    ensures read { (file : List ℕ) (step : LoadStep) (fault : MetaFault) → IsBytes (last_bytes 53 file) → FailsFirst file step fault
        → load_read file ≡ Err fault }
    ensures loads { (file : List ℕ) (loaded : Loaded) (step : LoadStep) (fault : MetaFault) → load_read file ≡ Ok loaded
        → FailsAt file step fault → ⊥ }
    ensures all { (file : List ℕ) → IsBytes (last_bytes 53 file)
        → ((step : LoadStep) (fault : MetaFault) → FailsAt file step fault → ⊥) → (loaded : Loaded) × (load_read file ≡ Ok loaded) }
    ensures one { (file : List ℕ) (step : LoadStep) (a b : MetaFault) → IsBytes (last_bytes 53 file) → FailsAt file step a
        → FailsAt file step b → a ≡ b }
    ensures shown { (file : List ℕ) (step : LoadStep) (fault other : MetaFault) → FailsFirst file step fault → ShowsMeta file other
        → (later : LoadStep) × FailsAt file later other × (number_of step ≤ number_of later) }
{}

/// What is put at the end of a file is loaded again: the properties block of a `PropsBuilder`, the metaindex that leads to
/// it, and the footer of `put_footer`.
///
/// It is so whatever stands before them in the file, and whatever the handle of the index is. The version is 2, 3 or 4, and
/// the file is shorter than 2^40 bytes.
/// RocksDB: `BlockBasedTableBuilder::Finish` in table/block_based/block_based_table_builder.cc, and
/// `BlockBasedTable::Open` in table/block_based/block_based_table_reader.cc.
pub fn what_is_put_is_loaded()
    ensures { (front : List ℕ) (version : ℕ) (index : Handle) (pairs : List Row) → IsBuilt version
        → index.offset < 2 ^ 64 → index.size < 2 ^ 64 → AreProps pairs → length (file_with front version index pairs) < 2 ^ 40
        → load_read (file_with front version index pairs) ≡ Ok (loaded_with front version index pairs) }
{}
