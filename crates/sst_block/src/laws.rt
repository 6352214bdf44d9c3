//! Laws: what a block stands for, what it reads as, and its first fault.
ghost use Rattle.std.specs.Prelude.{◌≡◌, ℕ, ◌+◌, ◌%◌, ◌<◌, ◌≤◌, ◌^◌, Bool, true, false, List, [], length, map, slice_get, All, Some, Err};
ghost use Rattle.sst_block.specs.Block.{Row, Spelled, Block, IsRow, AreOrdered, SayHandles, no_handle, common};
ghost use Rattle.sst_block.specs.Chosen.{block_of, chosen};
ghost use Rattle.sst_block.specs.Seek.{is_row_before, rows_before};
ghost use Rattle.sst_block.specs.FirstFault.{IsFirstFault};
ghost use Rattle.sst_block.specs.BlockReading.{block_read, Reads};
ghost use Rattle.sst_block.specs.IndexRows.{IndexPair, IndexRows};
ghost use Rattle.sst_block.specs.declared.fault.BlockFault.{BlockFault};
ghost use Rattle.sst_block.specs.declared.row_form.RowForm.{RowForm};
ghost use Rattle.sst_block.specs.declared.row_form.RowForm.TheVariants.{Index};

/// The rows before a target come first in a block.
///
/// `before`: a row whose key is before the target has a number below that of all such rows. `not`: each other row doesn't. So a
/// seek lands on the first row that isn't before the target. RocksDB: `Seek` of `DataBlockIter` and `IndexBlockIter` in
/// table/block_based/block.cc.
pub fn a_seek_passes_the_rows_before()
    ensures before { (form : RowForm) (target : List ℕ) (rows : List Row) (i : ℕ) (row : Row) → AreOrdered form rows → slice_get rows i ≡ Some row
        → is_row_before form target row ≡ true → i < rows_before form target rows }
    ensures not { (form : RowForm) (target : List ℕ) (rows : List Row) (i : ℕ) (row : Row) → AreOrdered form rows → slice_get rows i ≡ Some row
        → is_row_before form target row ≡ false → rows_before form target rows ≤ i }
{}

/// The block that a builder makes of some rows stands for these rows.
///
/// It holds of ordered rows of one form that say handles where these are differences, of any restart interval but 0, and of
/// blocks of at most 2^29 bytes.
/// RocksDB: `BlockBuilder::Add` and `Finish` in table/block_based/block_builder.cc.
pub fn chosen_block_stands_for_its_rows()
    ensures { (form : RowForm) (interval : ℕ) (rows : List Row) → 0 < interval → All (IsRow form) rows
        → AreOrdered form rows → SayHandles form no_handle (chosen interval 0 [] rows) → length (block_of form interval rows) ≤ 2 ^ 29
        → Block form (block_of form interval rows) rows }
{}

/// Which rows of a chosen block are spelled whole.
///
/// `rows`: the rows are spelled in their order. `whole`: each `interval`-th row shares nothing, the first of all too.
/// `shared`: each other row leaves to the row before all that the two keys have in common.
/// RocksDB: `BlockBuilder::Add` in table/block_based/block_builder.cc.
pub fn each_group_begins_whole()
    ensures rows { (interval : ℕ) (rows : List Row) → map (λ (s : Spelled). s.row) (chosen interval 0 [] rows) ≡ rows }
    ensures whole { (interval i : ℕ) (rows : List Row) (s : Spelled) → slice_get (chosen interval 0 [] rows) i ≡ Some s
        → i % interval ≡ 0 → s.shared ≡ 0 }
    ensures shared { (interval i : ℕ) (rows : List Row) (before : Row) (s : Spelled) → slice_get rows i ≡ Some before
        → slice_get (chosen interval 0 [] rows) (i + 1) ≡ Some s → ((i + 1) % interval ≡ 0 → ⊥)
        → s.shared ≡ common before.key s.row.key }
{}

/// Reading a block finds exactly the rows that its bytes stand for.
///
/// What a block says is told by joined spellings and never by reading. `complete`: rows that the bytes stand for are
/// read. `sound`: the bytes stand for rows that are read, if they are at most 2^29. RocksDB: `DecodeEntry` and
/// `Block::NumRestarts` in table/block_based/block.cc.
pub fn reading_finds_exactly_the_rows()
    ensures complete { (form : RowForm) (bytes : List ℕ) (rows : List Row)
        → Block form bytes rows → Reads form bytes rows }
    ensures sound { (form : RowForm) (bytes : List ℕ) (rows : List Row) → length bytes ≤ 2 ^ 29
        → Reads form bytes rows → Block form bytes rows }
{}

/// A block has one list of rows at most, whatever its form, and has none exactly where it reads as a fault.
///
/// `one`: the same bytes don't stand for two lists of rows. `short`: they are at most 2^29. `none`: bytes that read as a fault stand for no rows.
/// `fault`: bytes that stand for no rows read as a fault, if they are at most 2^29. RocksDB: the layout at the top of
/// table/block_based/block_builder.cc, and `DecodeEntry` in table/block_based/block.cc.
pub fn a_block_has_one_list_of_rows()
    ensures one { (form : RowForm) (bytes : List ℕ) (a b : List Row) → Block form bytes a → Block form bytes b → a ≡ b }
    ensures short { (form : RowForm) (bytes : List ℕ) (rows : List Row) → Block form bytes rows → length bytes ≤ 2 ^ 29 }
    ensures none { (form : RowForm) (bytes : List ℕ) (fault : BlockFault) (rows : List Row)
        → block_read form bytes ≡ Err fault → Block form bytes rows → ⊥ }
    ensures fault { (form : RowForm) (bytes : List ℕ) → length bytes ≤ 2 ^ 29
        → ((rows : List Row) → Block form bytes rows → ⊥) → (fault : BlockFault) × (block_read form bytes ≡ Err fault) }
{}

/// The fault that a block reads as is the first that its bytes have.
///
/// What the first fault is, is told by the rows and restarts that the bytes spell: before a faulty row stand sound
/// rows alone, and before a faulty restart sound rows and restarts. `found`: a fault that is read is the first.
/// `read`: the first fault is the one that is read, in bytes of at most 2^29. So bytes have one first fault at most.
/// RocksDB: `DecodeEntry` in table/block_based/block.cc, which stops at the first row that it can't decode.
pub fn first_fault_is_first()
    ensures found { (form : RowForm) (bytes : List ℕ) (fault : BlockFault)
        → block_read form bytes ≡ Err fault → IsFirstFault form bytes fault }
    ensures read { (form : RowForm) (bytes : List ℕ) (fault : BlockFault) → length bytes ≤ 2 ^ 29
        → IsFirstFault form bytes fault → block_read form bytes ≡ Err fault }
{}

/// The bytes of an index block say one list of pairs, of a separator and a handle each.
///
/// `one`: the same bytes don't say two lists. `some`: each index block says one. It holds whether handles stand whole or as differences. RocksDB: `IndexBlockIter::DecodeCurrentValue` in
/// table/block_based/block.cc.
pub fn index_rows_are_one()
    ensures one { (user_key delta : Bool) (bytes : List ℕ) (a b : List IndexPair) → IndexRows user_key delta bytes a
        → IndexRows user_key delta bytes b → a ≡ b }
    ensures some { (user_key delta : Bool) (bytes : List ℕ) (rows : List Row) → Block (Index user_key delta) bytes rows
        → (pairs : List IndexPair) × IndexRows user_key delta bytes pairs }
{}
