//! Laws: what a filter is, and that it denies no key of its own.
ghost use Rattle.std.specs.Prelude.{◌≡◌, ℕ, ◌≤◌, false, List, length, Contains};
ghost use Rattle.sst_bloom.specs.Builder.{key_limit};
ghost use Rattle.sst_bloom.specs.Filter.{IsFilter, bloom_filter};
ghost use Rattle.sst_bloom.specs.Reading.{denies};

/// No user key that was added is denied by the filter.
///
/// RocksDB: wiki page "RocksDB Bloom Filter".
pub fn an_added_key_is_not_denied()
    ensures { (bits : ℕ) (users : List (List ℕ)) (user : List ℕ) → bits ≤ 100 → length users ≤ key_limit
        → Contains users user → denies (bloom_filter bits users) user ≡ false }
{}

/// A filter is told by its bits: of some user keys at so many bits each there is one filter, and no other.
///
/// RocksDB: `LegacyBloomBitsBuilder::Finish` in table/block_based/filter_policy.cc.
pub fn a_filter_is_the_only_one()
    ensures one { (bits : ℕ) (users : List (List ℕ)) → IsFilter bits users (bloom_filter bits users) }
    ensures only { (bits : ℕ) (users : List (List ℕ)) (a b : List ℕ) → IsFilter bits users a → IsFilter bits users b → a ≡ b }
{}
