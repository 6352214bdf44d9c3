//! Laws: what the calls over a list come to, in the words of their callers.
ghost use Rattle.std.specs.Prelude.{◌≡◌, ℕ, ◌<◌, ◌≤◌, ◌↔◌, Option, Some, None, List, [], ◌∷◌, ◌++◌, length, map, replicate, reverse, false, slice_get, IsTrue, Contains, AllPairs};
ghost use Rattle.sst_key.specs.Entry.{IsOrdered, tag};
ghost use Rattle.sst_key.specs.ListMachine.{is_before_target, is_up_to_target, seek_of, seek_for_prev_of, seek_in, get_of, lacks, lands, replies_from, visible};
ghost use Rattle.sst_key.specs.ListLaws.{IsBeforeTarget, IsUpToTarget, IsSeen, SharesPrefix, StandsAt, IsFirstPlace, Each, EachAhead, EachBehind};
ghost use Rattle.sst_key.specs.declared.entries.Entry.{Entry};
ghost use Rattle.sst_key.specs.declared.calls.Format.{Format};
ghost use Rattle.sst_key.specs.declared.calls.Format.TheVariants.{Plain};
ghost use Rattle.sst_key.specs.declared.calls.Call.TheVariants.{First, Last, Next, Prev};
ghost use Rattle.std.specs.List.{range_with_len};

/// What stands before a target: the entries of lesser user keys, and of the target's own user key the newer ones.
///
/// An entry at the target has its user key and its sequence number. RocksDB: `InternalKeyComparator::Compare` in
/// db/dbformat.h.
pub fn targets_compare_as_said()
    ensures before { (user : List ℕ) (seq : ℕ) (e : Entry) → IsTrue (is_before_target user seq e) ↔ IsBeforeTarget user seq e }
    ensures up_to { (user : List ℕ) (seq : ℕ) (e : Entry) → IsTrue (is_up_to_target user seq e) ↔ IsUpToTarget user seq e }
{}

/// Seek lands at the first entry that isn't before the target, and nowhere exactly where every entry is before it.
///
/// RocksDB: `Iterator::Seek` in include/rocksdb/iterator.h.
pub fn seek_lands_on_the_first_not_before()
    ensures lands { (entries : List Entry) (user : List ℕ) (seq i : ℕ) → IsOrdered entries
        → (seek_of entries user seq ≡ Some i)
        ↔ (StandsAt (λ e. IsBeforeTarget user seq e → ⊥) entries i × EachAhead (IsBeforeTarget user seq) entries i) }
    ensures nowhere { (entries : List Entry) (user : List ℕ) (seq : ℕ) → IsOrdered entries
        → (seek_of entries user seq ≡ None) ↔ Each (IsBeforeTarget user seq) entries }
{}

/// SeekForPrev lands at the last entry that is before the target or at it, and nowhere exactly where none is.
///
/// RocksDB: `Iterator::SeekForPrev` in include/rocksdb/iterator.h.
pub fn seek_for_prev_lands_on_the_last_up_to()
    ensures lands { (entries : List Entry) (user : List ℕ) (seq i : ℕ) → IsOrdered entries
        → (seek_for_prev_of entries user seq ≡ Some i)
        ↔ (StandsAt (IsUpToTarget user seq) entries i × EachBehind (λ e. IsUpToTarget user seq e → ⊥) entries i) }
    ensures nowhere { (entries : List Entry) (user : List ℕ) (seq : ℕ) → IsOrdered entries
        → (seek_for_prev_of entries user seq ≡ None) ↔ Each (λ e. IsUpToTarget user seq e → ⊥) entries }
{}

/// Get shows the newest entry of the user key that the snapshot sees, and none exactly where it sees none.
///
/// No entry of this user key that the snapshot sees stands before the one that is shown, and none has a greater
/// tag. RocksDB: `DB::Get` in include/rocksdb/db.h, `ReadOptions::snapshot` in include/rocksdb/options.h.
pub fn get_shows_the_newest()
    ensures shows { (entries : List Entry) (user : List ℕ) (snapshot i : ℕ) → IsOrdered entries
        → (get_of entries user snapshot ≡ Some i) ↔ IsFirstPlace (IsSeen user snapshot) entries i }
    ensures none { (entries : List Entry) (user : List ℕ) (snapshot : ℕ) → IsOrdered entries
        → (get_of entries user snapshot ≡ None) ↔ Each (λ e. IsSeen user snapshot e → ⊥) entries }
    ensures newest { (entries : List Entry) (user : List ℕ) (snapshot i : ℕ) (e : Entry) → IsOrdered entries
        → get_of entries user snapshot ≡ Some i → slice_get entries i ≡ Some e
        → Each (λ f. IsSeen user snapshot f → tag f.seq f.kind ≤ tag e.seq e.kind) entries }
{}

/// First and then Next go through the whole list: as many calls as it has entries show them all in order, and the
/// next call shows none and leaves the position nowhere.
///
/// It holds of each format, from any position. RocksDB: `Iterator::SeekToFirst` and `Iterator::Next` in
/// include/rocksdb/iterator.h.
pub fn first_and_next_go_through()
    ensures { (format : Format) (prefix : ℕ) (entries : List Entry) (position : Option ℕ)
        → replies_from format prefix entries position (First ∷ replicate (length entries) Next)
        ≡ map (λ i. lands (Some i)) (range_with_len 0 (length entries)) ++ lands None ∷ [] }
{}

/// Last and then Prev go back through the whole list, in each format that has them: as many calls as it has entries
/// show them all from the last to the first, and the next call shows none and leaves the position nowhere.
///
/// RocksDB: `Iterator::SeekToLast` and `Iterator::Prev` in include/rocksdb/iterator.h.
pub fn last_and_prev_go_back()
    ensures { (format : Format) (prefix : ℕ) (entries : List Entry) (position : Option ℕ) → lacks format Prev ≡ false
        → replies_from format prefix entries position (Last ∷ replicate (length entries) Prev)
        ≡ reverse (map (λ i. lands (Some i)) (range_with_len 0 (length entries))) ++ lands None ∷ [] }
{}

/// What a snapshot sees of a list is what the Gets at it show, in order, and of each user key it is one entry at most.
///
/// RocksDB: `ReadOptions::snapshot` in include/rocksdb/options.h.
pub fn visible_is_what_gets_show()
    ensures shown { (entries : List Entry) (snapshot : ℕ) (e : Entry) → IsOrdered entries
        → Contains (visible entries snapshot) e
        ↔ ((user : List ℕ) × (i : ℕ) × (get_of entries user snapshot ≡ Some i) × (slice_get entries i ≡ Some e)) }
    ensures once { (entries : List Entry) (snapshot : ℕ) → AllPairs (λ a b. a.user ≡ b.user → ⊥) (visible entries snapshot) }
    ensures ordered { (entries : List Entry) (snapshot : ℕ) → IsOrdered entries → IsOrdered (visible entries snapshot) }
{}

/// In a plain table whose prefixes have a length, Seek lands where it would in any other table, if the entry there has
/// the target's prefix; else nowhere. Where prefixes have no length, and in the other formats, it lands as ever.
///
/// RocksDB: `PlainTableIterator::Seek` in table/plain/plain_table_reader.cc.
pub fn seek_stays_within_a_prefix()
    ensures within { (prefix : ℕ) (entries : List Entry) (user : List ℕ) (seq i : ℕ) → 0 < prefix
        → (seek_in Plain prefix entries user seq ≡ Some i)
        ↔ ((seek_of entries user seq ≡ Some i) × StandsAt (SharesPrefix prefix user) entries i) }
    ensures without { (entries : List Entry) (user : List ℕ) (seq : ℕ) → seek_in Plain 0 entries user seq ≡ seek_of entries user seq }
    ensures others { (format : Format) (prefix : ℕ) (entries : List Entry) (user : List ℕ) (seq : ℕ)
        → (format ≡ Plain → ⊥) → seek_in format prefix entries user seq ≡ seek_of entries user seq }
{}
