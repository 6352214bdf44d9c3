ghost use Rattle.std.specs.Prelude.{◌≡◌, ◌≢◌, ℕ, List, [], ◌∷◌, ◌++◌, All, Option};
ghost use Rattle.std.specs.declared.cmp.Ordering.TheVariants.{Less, Greater};
ghost use Rattle.sst_key.specs.declared.entries.Entry.{Entry};
ghost use Rattle.sst_key.specs.declared.calls.Call.{Call};
ghost use Rattle.sst_key.specs.declared.calls.Format.TheVariants.{Block};
ghost use Rattle.sst_key.specs.Entry.{IsOrdered, key_of};
ghost use Rattle.sst_key.specs.InternalKey.{internal_cmp};
ghost use Rattle.sst_key.specs.ListMachine.{answer_of, replies};
ghost use Rattle.sst_bbt_spec.specs.Rows.{HasSeq};
ghost use Rattle.sst_bbt_spec.specs.Way.{IndexedBlock, IsUpToSeparator, Separate, joined, way_answer, way_replies};

/// Where the separators separate the blocks of a table, each call is answered as the list of its entries answers.
///
/// It holds of a table of any number of blocks whose sequence numbers are below 2^56. Where a separator is before a key
/// of its own block, the way of the index may answer otherwise than the list.
/// RocksDB: `BlockBasedTableIterator` in table/block_based/block_based_table_iterator.cc, and `BlockBasedTable::Get` in
/// table/block_based/block_based_table_reader.cc.
pub fn the_way_is_the_lists()
    ensures answers { (blocks : List IndexedBlock) (position : Option ℕ) (call : Call) → Separate blocks
        → All HasSeq (joined blocks) → way_answer blocks position call ≡ answer_of Block 0 (joined blocks) position call }
    ensures replies { (blocks : List IndexedBlock) (calls : List Call) → Separate blocks → All HasSeq (joined blocks)
        → way_replies blocks calls ≡ replies Block 0 (joined blocks) calls }
{}

/// A key that isn't before the last key of one block, and is before the first of the next, separates the two.
///
/// It may be the key of no entry. It holds of two blocks whose entries are in order, with sequence numbers below 2^56,
/// where no entry of the second is after that block's own separator.
/// RocksDB: `IndexBuilder` in table/block_based/index_builder.h.
pub fn a_key_between_separates()
    ensures { (front back : List Entry) (last first : Entry) (separator end : List ℕ)
        → IsOrdered (front ++ last ∷ first ∷ back) → All HasSeq (front ++ last ∷ first ∷ back)
        → internal_cmp (key_of last) separator ≢ Greater → internal_cmp separator (key_of first) ≡ Less
        → All (IsUpToSeparator end) (first ∷ back)
        → Separate (record { separator = separator; entries = front ++ last ∷ [] } ∷ record { separator = end; entries = first ∷ back } ∷ []) }
{}
