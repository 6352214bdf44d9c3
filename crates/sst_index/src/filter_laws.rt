//! Laws of filters in parts.
ghost use Rattle.std.specs.Prelude.{◌≡◌, ◌≢◌, ℕ, ◌≤◌, Bool, false, None, Some, List, Contains, slice_get};
ghost use Rattle.sst_num.specs.declared.block_handle.Handle.{Handle};
ghost use Rattle.sst_bloom.specs.Filter.{bloom_filter};
ghost use Rattle.sst_bloom.specs.Reading.{denies};
ghost use Rattle.sst_block.specs.IndexRows.{IndexPair};
ghost use Rattle.sst_index.specs.declared.pick.Pick.TheVariants.{Part, Beyond};
ghost use Rattle.sst_index.specs.FilterBytes.{filter_pairs};
ghost use Rattle.sst_index.specs.FilterKeys.{FitParts};
ghost use Rattle.sst_index.specs.Pick.{part_of};

/// No user key of a filter in parts is denied: the part that is picked for it is the one to which it was added, whose filter
/// doesn't deny it, and it isn't beyond all parts.
///
/// The user keys of each part stand between the separator of the part in front and its own (`FitParts`). `part`: where a part is
/// picked. `some`: one is picked, or it is left open. Of parts at any base, and of at most 100 bits a user key.
/// RocksDB: wiki page "Partitioned Index Filters".
pub fn no_key_of_a_part_is_denied()
    ensures part { (user_key : Bool) (bits base : ℕ) (separators : List (List ℕ)) (parts : List (List (List ℕ))) (i : ℕ) (part : List (List ℕ)) (user : List ℕ) (handle : Handle)
        → bits ≤ 100 → FitParts user_key None separators parts → slice_get parts i ≡ Some part → Contains part user
        → part_of user_key user (filter_pairs bits base separators parts) ≡ Part handle
        → ((pair : IndexPair) × (slice_get (filter_pairs bits base separators parts) i ≡ Some pair) × (pair.handle ≡ handle))
        × (denies (bloom_filter bits part) user ≡ false) }
    ensures some { (user_key : Bool) (bits base : ℕ) (separators : List (List ℕ)) (parts : List (List (List ℕ))) (i : ℕ) (part : List (List ℕ)) (user : List ℕ)
        → FitParts user_key None separators parts → slice_get parts i ≡ Some part → Contains part user
        → part_of user_key user (filter_pairs bits base separators parts) ≢ Beyond }
{}
