//! Laws over files, whatever the form of their index: what they open to, and what they stand for.
ghost use Rattle.std.specs.Prelude.{◌≡◌, ℕ, false, List, All, Option, None, map};
ghost use Rattle.sst_key.specs.declared.entries.Entry.{Entry};
ghost use Rattle.sst_key.specs.declared.calls.Call.{Call};
ghost use Rattle.sst_key.specs.declared.calls.Format.TheVariants.{Block};
ghost use Rattle.sst_key.specs.Entry.{IsOrdered};
ghost use Rattle.sst_key.specs.ListMachine.{replies};
ghost use Rattle.sst_meta.specs.IndexForms.{index_form};
ghost use Rattle.sst_bbt_spec.specs.Rows.{HasSeq};
ghost use Rattle.sst_bbt_spec.specs.Way.{IndexedBlock, way_answer, way_replies};
ghost use Rattle.sst_bbt_spec.specs.Runs.{AreSeparated};
ghost use Rattle.sst_bbt_spec.specs.BlockBased.{BlockBased, Opens};
ghost use Rattle.sst_bbt_spec.specs.Parts.{Part, alone, stored_in};
ghost use Rattle.sst_bbt_spec.specs.PartWay.{answer_in_parts, replies_in_parts};
ghost use Rattle.sst_bbt_spec.specs.PartRuns.{IsWithinTop, ArePartsSeparated, SeparateParts};

/// The list that a file stands for is in order, and the separators of the file separate.
///
/// `ordered`: the list is in order. `seqs`: the sequence numbers of each file that opens are below 2^56. `separate`:
/// the separators of each part separate its blocks, and those of the top block the parts. `replies`: so what the
/// calls answer by the way over the parts is what they answer of the list.
/// RocksDB: `InternalKeyComparator::Compare` and `kMaxSequenceNumber` in db/dbformat.h; wiki pages "Rocksdb
/// BlockBasedTable Format" and "Partitioned Index Filters".
pub fn what_a_file_stands_for_is_ordered()
    ensures ordered { (file : List ℕ) (entries : List Entry) → BlockBased file entries → IsOrdered entries }
    ensures seqs { (file : List ℕ) (parts : List Part) → Opens file parts → All HasSeq (stored_in parts) }
    ensures separate { (file : List ℕ) (entries : List Entry) (stands : BlockBased file entries) → SeparateParts stands.parts }
    ensures replies { (file : List ℕ) (entries : List Entry) (stands : BlockBased file entries) (calls : List Call)
        → replies_in_parts None stands.parts calls ≡ replies Block 0 entries calls }
{}

/// A file that opens to parts which its separators separate stands for the entries of these parts.
///
/// No more is asked of the separators than that they separate, and that the last one of each part isn't after the
/// part's own separator in the top block. RocksDB: wiki page "Partitioned Index Filters".
pub fn a_separated_file_stands()
    ensures { (file : List ℕ) (parts : List Part) → Opens file parts → All IsWithinTop parts → SeparateParts parts
        → BlockBased file (stored_in parts) }
{}

/// A file opens to one list of parts at most, and so stands for one list of entries at most, over all forms of its index.
///
/// RocksDB: wiki pages "Rocksdb BlockBasedTable Format" and "Partitioned Index Filters".
pub fn a_file_stands_for_one_list()
    ensures opens { (file : List ℕ) (a b : List Part) → Opens file a → Opens file b → a ≡ b }
    ensures stands { (file : List ℕ) (a b : List Entry) → BlockBased file a → BlockBased file b → a ≡ b }
{}

/// A whole index is parts of one block each.
///
/// `answers` and `replies`: a call answers over such parts as over the blocks, by the index alone. `parts`: the parts
/// of each file with a whole index have one block each. `separated` and `apart`: separators separate such parts exactly
/// where they separate the blocks.
/// RocksDB: `BlockBasedTableOptions::IndexType` in include/rocksdb/table.h.
pub fn a_whole_index_is_parts_of_one_block()
    ensures answers { (blocks : List IndexedBlock) (position : Option ℕ) (call : Call)
        → answer_in_parts None (map alone blocks) position call ≡ way_answer blocks position call }
    ensures replies { (blocks : List IndexedBlock) (calls : List Call) → replies_in_parts None (map alone blocks) calls ≡ way_replies blocks calls }
    ensures parts { (file : List ℕ) (parts : List Part) (opens : Opens file parts) → (index_form opens.loaded.props).parted ≡ false
        → (blocks : List IndexedBlock) × (parts ≡ map alone blocks) }
    ensures separated { (blocks : List IndexedBlock) → AreSeparated blocks → ArePartsSeparated (map alone blocks) }
    ensures apart { (blocks : List IndexedBlock) → ArePartsSeparated (map alone blocks) → AreSeparated blocks }
{}
