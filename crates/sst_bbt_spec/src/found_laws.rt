//! Laws over the tree of an index as it is found in a file: the way of each call, step by step, and the faults that
//! end it. The faults here are told apart by numbers.
ghost use Rattle.std.specs.Prelude.{◌≡◌, ℕ, ◌<◌, length, List, [], ◌∷◌, slice_get, All, Option, None, Some, Result, Ok, Err};
ghost use Rattle.sst_num.specs.declared.block_handle.Handle.{Handle};
ghost use Rattle.sst_key.specs.declared.entries.Entry.{Entry};
ghost use Rattle.sst_key.specs.declared.calls.Call.{Call};
ghost use Rattle.sst_key.specs.declared.calls.Call.TheVariants.{First, Last, Next, Prev};
ghost use Rattle.sst_key.specs.declared.calls.Format.TheVariants.{Block};
ghost use Rattle.sst_key.specs.ListMachine.{answer_of};
ghost use Rattle.sst_block.specs.IndexRows.{IndexPair};
ghost use Rattle.sst_meta.specs.BlockFooter.{footer_start};
ghost use Rattle.sst_meta.specs.IndexForms.{index_form};
ghost use Rattle.sst_meta.specs.declared.index_form.IndexForm.{IndexForm};
ghost use Rattle.sst_bbt_spec.specs.Rows.{HasSeq};
ghost use Rattle.sst_bbt_spec.specs.Parts.{Part, stored_in};
ghost use Rattle.sst_bbt_spec.specs.Mark.{shown_in};
ghost use Rattle.sst_bbt_spec.specs.PartWay.{answer_in_parts};
ghost use Rattle.sst_bbt_spec.specs.PartRuns.{SeparateParts};
ghost use Rattle.sst_bbt_spec.specs.BlockBased.{BlockBased};
ghost use Rattle.sst_bbt_spec.specs.IndexLeads.{LeadToParts};
ghost use Rattle.sst_bbt_spec.specs.FoundParts.{FoundPart, Place, AllFound, IsNumbered, AreNumbered, LandsAt, entry_in};
ghost use Rattle.sst_bbt_spec.specs.FoundTree.{Reading, IsExact, found_parts};
ghost use Rattle.sst_bbt_spec.specs.Landings.{landing_of, seek_landing, seek_for_prev_landing};
ghost use Rattle.sst_bbt_spec.specs.WorkedTrees.{broken_part, broken_block};

/// On a tree that is found without a fault, the way of each call ends where the counted way does, whatever the
/// separators.
///
/// `lands`: it ends at the place of the entry that is shown by number, or nowhere where none is. `no_fault`: so no
/// fault ends it. `shows`: the entry at a place is the one of its number in the list of all.
/// RocksDB: `PartitionedIndexIterator` in table/block_based/partitioned_index_iterator.cc and
/// `BlockBasedTableIterator` in table/block_based/block_based_table_iterator.cc.
pub fn a_way_without_a_fault_is_counted()
    ensures lands { (mark : Option ℕ) (found : List (FoundPart ℕ)) (parts : List Part) (position : Option Place) (number : Option ℕ) (call : Call)
        → AllFound found parts → AreNumbered parts position number
        → LandsAt parts (landing_of mark found position call) (answer_in_parts mark parts number call).shown }
    ensures no_fault { (mark : Option ℕ) (found : List (FoundPart ℕ)) (parts : List Part) (position : Option Place) (number : Option ℕ) (call : Call) (fault : ℕ)
        → AllFound found parts → AreNumbered parts position number → landing_of mark found position call ≡ Err fault → ⊥ }
    ensures shows { (found : List (FoundPart ℕ)) (parts : List Part) (place : Place) (number : ℕ) → AllFound found parts
        → IsNumbered parts place number → (e : Entry) × (entry_in found place ≡ Some e) × (slice_get (stored_in parts) number ≡ Some e) }
{}

/// The places of a tree and the numbers of its entries tell each other.
///
/// `number`: a place has one number at most. `place`: no two places have the same. `each`: each number of the list
/// has a place. RocksDB: include/rocksdb/iterator.h, whose positions are entries.
pub fn places_and_numbers_tell_each_other()
    ensures number { (parts : List Part) (place : Place) (m n : ℕ) → IsNumbered parts place m → IsNumbered parts place n → m ≡ n }
    ensures place { (parts : List Part) (a b : Place) (number : ℕ) → IsNumbered parts a number → IsNumbered parts b number → a ≡ b }
    ensures each { (parts : List Part) (number : ℕ) → number < length (stored_in parts) → (place : Place) × IsNumbered parts place number }
{}

/// Where the tree stands for a list, the way of each call ends at the entry that the list shows, Get included.
///
/// `apart`: where the separators separate, with any mark. `stands`: on a file that stands for a list, where its
/// parts are found without a fault.
/// RocksDB: as above, and `BlockBasedTable::Get` in table/block_based/block_based_table_reader.cc.
pub fn each_way_ends_at_the_entry_of_the_list()
    ensures apart { (mark : Option ℕ) (found : List (FoundPart ℕ)) (parts : List Part) (position : Option Place) (number : Option ℕ) (call : Call)
        → AllFound found parts → AreNumbered parts position number → SeparateParts parts → All HasSeq (stored_in parts)
        → LandsAt parts (landing_of mark found position call) (answer_of Block 0 (shown_in mark parts) number call).shown }
    ensures stands { (file : List ℕ) (entries : List Entry) (stands : BlockBased file entries)
        (found : List (FoundPart ℕ)) (position : Option Place) (number : Option ℕ) (call : Call)
        → AllFound found stands.parts → AreNumbered stands.parts position number
        → LandsAt stands.parts (landing_of None found position call) (answer_of Block 0 entries number call).shown }
{}

/// A fault ends each way that comes to it, and no other: two trees that were worked out by hand.
///
/// In the first tree stand the row 61 under the top separator 61, and under 6d a part with fault 7. `part_first`,
/// `part_seek` and `part_prev`: First, Seek to 61 at 1 and SeekForPrev to 61 at 1 land on 61; `part_before`: Prev
/// from there ends nowhere; `part_next`, `part_last` and `part_beyond`: Next from there, Last, and Seek to 61 at 0,
/// which passes 61, end in the fault. `part_past`: Seek to 7a passes the separator 6d, and so doesn't come to the
/// part.
///
/// In the second tree one part has a data block with fault 8 and a sound one of 62. `block_first`: First ends in the
/// fault. `block_last`: Last lands on 62, and `block_prev`: Prev from there ends in the fault.
/// RocksDB: `BlockBasedTableIterator::FindKeyForward`, whose status is that of the block that it can't read.
pub fn a_fault_ends_the_way()
    ensures part_first { landing_of None broken_part None First ≡ Ok (Some (record { part = 0; block = 0; row = 0 })) }
    ensures part_seek { seek_landing None broken_part (97 ∷ []) 1 ≡ Ok (Some (record { part = 0; block = 0; row = 0 })) }
    ensures part_prev { seek_for_prev_landing None broken_part (97 ∷ []) 1 ≡ Ok (Some (record { part = 0; block = 0; row = 0 })) }
    ensures part_before { landing_of None broken_part (Some (record { part = 0; block = 0; row = 0 })) Prev ≡ Ok None }
    ensures part_next { landing_of None broken_part (Some (record { part = 0; block = 0; row = 0 })) Next ≡ Err 7 }
    ensures part_last { landing_of None broken_part None Last ≡ Err 7 }
    ensures part_beyond { seek_landing None broken_part (97 ∷ []) 0 ≡ Err 7 }
    ensures part_past { seek_landing None broken_part (122 ∷ []) 0 ≡ Ok None }
    ensures block_first { landing_of None broken_block None First ≡ Err 8 }
    ensures block_last { landing_of None broken_block None Last ≡ Ok (Some (record { part = 0; block = 1; row = 0 })) }
    ensures block_prev { landing_of None broken_block (Some (record { part = 0; block = 1; row = 0 })) Prev ≡ Err 8 }
{}

/// Where reading is exact, the parts of an index are found without a fault exactly where its rows lead to them.
///
/// `found`: what the rows lead to is found. `lead`: and what is found without a fault is what they lead to. `way`: so
/// on a file that stands for a list, the way of each call through what is read ends at the entry that the list shows. RocksDB: `BlockBasedTable::NewDataBlockIterator` in
/// table/block_based/block_based_table_reader_impl.h.
pub fn parts_are_found_where_they_lead()
    ensures found { (reading : Reading ℕ) (file : List ℕ) (end : ℕ) (form : IndexForm) (top : Handle) (row : ℕ) (pairs : List IndexPair) (parts : List Part)
        → IsExact reading file end form → LeadToParts file end form pairs parts → AllFound (found_parts reading form top row pairs) parts }
    ensures lead { (reading : Reading ℕ) (file : List ℕ) (end : ℕ) (form : IndexForm) (top : Handle) (row : ℕ) (pairs : List IndexPair) (parts : List Part)
        → IsExact reading file end form → AllFound (found_parts reading form top row pairs) parts → LeadToParts file end form pairs parts }
    ensures way { (reading : Reading ℕ) (file : List ℕ) (entries : List Entry) (stands : BlockBased file entries)
        (position : Option Place) (number : Option ℕ) (call : Call) → IsExact reading file (footer_start file) (index_form stands.opens.loaded.props)
        → AreNumbered stands.parts position number
        → LandsAt stands.parts (landing_of None
        (found_parts reading (index_form stands.opens.loaded.props) stands.opens.loaded.footer.index 0 stands.opens.pairs) position call)
        (answer_of Block 0 entries number call).shown }
{}
