//! Laws: the file that is written for a list stands for it, and where its data blocks end.
ghost use Rattle.std.specs.Prelude.{◌≡◌, ℕ, List};
ghost use Rattle.sst_key.specs.declared.entries.Entry.{Entry};
ghost use Rattle.sst_bbt_write.specs.Written.{Fits, MayBeChosen, Written, table_of};
ghost use Rattle.sst_bbt_write.specs.Cut.{AreBlocks, blocks_for, entries_in};
ghost use Rattle.sst_bbt_write.specs.declared.bbt_options.BbtOptions.{BbtOptions};

/// The file that is written for a list stands for that list.
///
/// It holds of all options that may be chosen, and of each list that is written: one that increases, whose entries are within their limits, and
/// whose weight is at most 2^28. The list with no entry is one.
/// RocksDB: `BlockBasedTableBuilder::Add` and `Finish` in
/// table/block_based/block_based_table_builder.cc.
pub fn written_file_stands_for_its_list()
    ensures { (options : BbtOptions) (entries : List Entry) → MayBeChosen options → Fits entries → Written options (table_of options entries) entries }
{}

/// The data blocks into which a list is cut are its entries, each block ends where it is full, and no sooner.
///
/// `entries`: joined they are the list. `full`: each has an entry; each but the last is full, and without its last entry none is.
/// `one`: so no other blocks are those of the list.
/// RocksDB: `FlushBlockBySizePolicy` in table/block_based/flush_block_policy.cc.
pub fn a_list_is_cut_where_blocks_are_full()
    ensures entries { (options : BbtOptions) (entries : List Entry) → entries_in (blocks_for options entries) ≡ entries }
    ensures full { (options : BbtOptions) (entries : List Entry) → AreBlocks options (blocks_for options entries) }
    ensures one { (options : BbtOptions) (a b : List (List Entry)) → AreBlocks options a → AreBlocks options b → entries_in a ≡ entries_in b → a ≡ b }
{}
