//! Laws: where a separator stands, and what an index block says.
ghost use Rattle.std.specs.Prelude.{◌≡◌, ◌≢◌, ◌↔◌, ℕ, ◌+◌, ◌^◌, ◌<◌, ◌≤◌, Bool, true, false, List, ◌++◌, length, slice_get, All, Some};
ghost use Rattle.std.specs.List.{flat_map};
ghost use Rattle.std.specs.Ordering.{nat_cmp};
ghost use Rattle.std.specs.Cmp.Lexicographic.{slice_cmp};
ghost use Rattle.std.specs.declared.cmp.Ordering.TheVariants.{Less, Greater};
ghost use Rattle.sst_key.specs.InternalKey.{user_of, internal_cmp};
ghost use Rattle.sst_block.specs.Block.{AreOrdered};
ghost use Rattle.sst_block.specs.IndexRows.{IndexPair, IndexRows};
ghost use Rattle.sst_device.specs.Framed.{Framed};
ghost use Rattle.sst_index.specs.declared.flags.IndexFlags.{IndexFlags};
ghost use Rattle.sst_index.specs.declared.pick.Pick.TheVariants.{Part, Unsure, Beyond};
ghost use Rattle.sst_num.specs.declared.block_handle.Handle.{Handle};
ghost use Rattle.sst_index.specs.Behind.{AreBehind};
ghost use Rattle.sst_index.specs.Ends.{AreEnds, BlockEnd, flags_of, pairs_of};
ghost use Rattle.sst_index.specs.Index.{AreOptions};
ghost use Rattle.sst_index.specs.IndexBytes.{IndexOptions, index_bytes, parts_of, top_block, top_handle, top_pairs};
ghost use Rattle.sst_index.specs.IndexBlock.{form_of, index_block, rows_of_pairs};
ghost use Rattle.sst_index.specs.Partitions.{LeadToPartitions};
ghost use Rattle.sst_index.specs.Pick.{AreBeforeUser, IsFirstNotBefore, part_of};
ghost use Rattle.sst_index.specs.Separators.{separator_between, separator_after};
ghost use Rattle.sst_index.specs.Top.{IsPair};
ghost use Rattle.sst_index.specs.Walk.{is_pair_before, pairs_before};

/// A separator stands between the last key of its block and the first key of the next.
///
/// Both are stored keys, and `last` and `next` are where the separator stands among stored keys: not before the one, and
/// before the other. `last_user` and `next_user` say the same of user keys alone, where the two user keys differ. `short`:
/// it is no longer than the last key. `long`: it has room for a tag, if the last key has.
/// RocksDB: `Comparator::FindShortestSeparator` in include/rocksdb/comparator.h.
pub fn a_separator_separates()
    ensures last { (a b : List ℕ) → internal_cmp a (separator_between a b) ≢ Greater }
    ensures next { (a b : List ℕ) → internal_cmp a b ≡ Less → internal_cmp (separator_between a b) b ≡ Less }
    ensures last_user { (a b : List ℕ) → slice_cmp nat_cmp (user_of a) (user_of (separator_between a b)) ≢ Greater }
    ensures next_user { (a b : List ℕ) → internal_cmp a b ≡ Less → user_of a ≢ user_of b
        → slice_cmp nat_cmp (user_of (separator_between a b)) (user_of b) ≡ Less }
    ensures short { (a b : List ℕ) → length (separator_between a b) ≤ length a }
    ensures long { (a b : List ℕ) → 8 ≤ length a → 8 ≤ length (separator_between a b) }
{}

/// The separator of the last block isn't before the last key, among stored keys and by the user keys alone.
///
/// `short`: it is no longer than that key. `long`: it has room for a tag, if that key has.
/// RocksDB: `Comparator::FindShortSuccessor` in include/rocksdb/comparator.h.
pub fn a_separator_ends()
    ensures last { (a : List ℕ) → internal_cmp a (separator_after a) ≢ Greater }
    ensures last_user { (a : List ℕ) → slice_cmp nat_cmp (user_of a) (user_of (separator_after a)) ≢ Greater }
    ensures short { (a : List ℕ) → length (separator_after a) ≤ length a }
    ensures long { (a : List ℕ) → 8 ≤ length a → 8 ≤ length (separator_after a) }
{}

/// The index block that is made of some pairs says these pairs.
///
/// It holds of pairs whose separators are in the order of the form, of any restart interval but 0, and of blocks of at most
/// 2^29 bytes. Where handles are differences, each block to which a pair leads begins behind the one before.
/// RocksDB: `IndexValue::EncodeTo` and `DecodeFrom` in table/format.cc.
pub fn an_index_block_says_its_pairs()
    ensures { (flags : IndexFlags) (interval : ℕ) (pairs : List IndexPair) → (flags.delta ≡ true → AreBehind pairs) → 0 < interval
        → All (IsPair flags.user_key) pairs → AreOrdered (form_of flags) (rows_of_pairs flags interval pairs)
        → length (index_block flags interval pairs) ≤ 2 ^ 29
        → IndexRows flags.user_key flags.delta (index_block flags interval pairs) pairs }
{}

/// The blocks of an index say the pairs that lead to its data blocks.
///
/// `partitions`: each partition says its part of the pairs. `top`: the top block says all of them where there are no
/// partitions, and else the last separator of each partition, and where that stands, one behind the other from `base` on.
/// It holds of data blocks that a builder takes, in each version of the format that it takes.
/// RocksDB: `PartitionedIndexBuilder::Finish` in table/block_based/index_builder.cc.
pub fn an_index_says_its_pairs()
    ensures partitions { (o : IndexOptions) (blocks : List BlockEnd) → AreOptions o → AreEnds blocks
        → All (λ (part : List IndexPair). IndexRows (flags_of o.version blocks).user_key (flags_of o.version blocks).delta
        (index_block (flags_of o.version blocks) o.interval part) part)
        (parts_of o.parts (pairs_of o.version blocks)) }
    ensures top { (o : IndexOptions) (base : ℕ) (blocks : List BlockEnd) → AreOptions o → AreEnds blocks → base < 2 ^ 40
        → IndexRows (flags_of o.version blocks).user_key (flags_of o.version blocks).delta
        (top_block (flags_of o.version blocks) o.interval o.parts base (pairs_of o.version blocks))
        (top_pairs (flags_of o.version blocks) o.interval o.parts base (pairs_of o.version blocks)) }
{}

/// The blocks of an index stand in a file at their handles, whatever stands before and behind it.
///
/// `partitions`: where there are partitions, each row of the top block leads to its own: this one's last separator is that of
/// the row, it stands at the handle of the row, with its trailer, and says its part of the pairs, of which there is one at
/// least. `top`: the top block stands at its handle. `end` is the file's length without its footer, or any number that the
/// index doesn't pass.
/// RocksDB: `PartitionedIndexBuilder::Finish` in table/block_based/index_builder.cc, and
/// `BlockBasedTableBuilder::WriteIndexBlock` in table/block_based/block_based_table_builder.cc.
pub fn an_index_stands_in_a_file()
    ensures partitions { (o : IndexOptions) (front rest : List ℕ) (end : ℕ) (blocks : List BlockEnd) → AreOptions o → AreEnds blocks → 0 < o.parts
        → length front + length (index_bytes o (length front) blocks) ≤ end
        → LeadToPartitions (front ++ (index_bytes o (length front) blocks ++ rest)) end (flags_of o.version blocks) o.interval
        (top_pairs (flags_of o.version blocks) o.interval o.parts (length front) (pairs_of o.version blocks))
        (parts_of o.parts (pairs_of o.version blocks)) }
    ensures top { (o : IndexOptions) (front rest : List ℕ) (end : ℕ) (blocks : List BlockEnd) → AreEnds blocks
        → length front + length (index_bytes o (length front) blocks) ≤ end
        → Framed (front ++ (index_bytes o (length front) blocks ++ rest)) end (top_handle o (length front) blocks)
        (top_block (flags_of o.version blocks) o.interval o.parts (length front) (pairs_of o.version blocks)) }
{}

/// The pairs before a target come first in an index block, so a seek goes to the first pair that isn't before it.
///
/// The target is a user key and a tag. `before`: a pair whose separator is before it has a number below that of all such
/// pairs. `not`: each other pair doesn't. RocksDB: `IndexBlockIter::SeekImpl` in table/block_based/block.cc.
pub fn a_seek_passes_the_pairs_before()
    ensures before { (flags : IndexFlags) (bytes : List ℕ) (pairs : List IndexPair) (user : List ℕ) (tag i : ℕ) (pair : IndexPair)
        → IndexRows flags.user_key flags.delta bytes pairs → tag < 2 ^ 64 → slice_get pairs i ≡ Some pair
        → is_pair_before flags.user_key user tag pair ≡ true → i < pairs_before flags.user_key user tag pairs }
    ensures not { (flags : IndexFlags) (bytes : List ℕ) (pairs : List IndexPair) (user : List ℕ) (tag i : ℕ) (pair : IndexPair)
        → IndexRows flags.user_key flags.delta bytes pairs → tag < 2 ^ 64 → slice_get pairs i ≡ Some pair
        → is_pair_before flags.user_key user tag pair ≡ false → pairs_before flags.user_key user tag pairs ≤ i }
{}

/// The part of a user key is that of the first pair whose separator isn't before the key, and no other.
///
/// `part`: the answer is a part exactly where the first such pair leads to it, and its separator isn't a stored key of this
/// user key. `unsure`: the part is open exactly where the first such pair has a stored key of this user key. `beyond`: the key is
/// beyond all parts exactly where each separator is before it. Of any list of pairs.
/// RocksDB: `PartitionedFilterBlockReader::GetFilterPartitionHandle` in table/block_based/partitioned_filter_block.cc.
pub fn a_part_is_the_first_not_before()
    ensures part { (user_key : Bool) (user : List ℕ) (pairs : List IndexPair) (handle : Handle)
        → (part_of user_key user pairs ≡ Part handle) ↔ ((pair : IndexPair) × IsFirstNotBefore user_key user pairs pair
        × (pair.handle ≡ handle) × (user_key ≡ false → user_of pair.separator ≢ user)) }
    ensures unsure { (user_key : Bool) (user : List ℕ) (pairs : List IndexPair)
        → (part_of user_key user pairs ≡ Unsure) ↔ ((pair : IndexPair) × IsFirstNotBefore user_key user pairs pair
        × (user_key ≡ false) × (user_of pair.separator ≡ user)) }
    ensures beyond { (user_key : Bool) (user : List ℕ) (pairs : List IndexPair)
        → (part_of user_key user pairs ≡ Beyond) ↔ AreBeforeUser user_key user pairs }
{}

/// The partitions have all pairs, in their order.
///
/// `each`: a partition has a row, and no more than so many.
/// RocksDB: `PartitionedIndexBuilder::AddIndexEntry` in table/block_based/index_builder.h.
pub fn partitions_are_the_pairs()
    ensures joined { (k : ℕ) (pairs : List IndexPair) → 0 < k → flat_map (λ (part : List IndexPair). part) (parts_of k pairs) ≡ pairs }
    ensures each { (k : ℕ) (pairs : List IndexPair) → 0 < k
        → All (λ (part : List IndexPair). (0 < length part) × (length part ≤ k)) (parts_of k pairs) }
{}
