//! The builder of one filter.
ghost use Rattle.std.specs.Prelude.{◌≡◌, ℕ, ◌+◌, ◌*◌, ◌<◌, ◌≤◌, List, [], ◌∷◌, ◌++◌, length, map, IfOk, OnOk, OnErr};
ghost use Rattle.std.specs.List.{range_with_len};
ghost use Rattle.std.specs.Result.{IsErr};
ghost use Rattle.sst_bloom.specs.Builder.{CanAddKey, CanFinish, HasFailed, HoldsKeys};
ghost use Rattle.sst_bloom.specs.Lines.{some_takes};
ghost use Rattle.sst_bloom.specs.Filter.{bloom_filter, byte_of, filter_of_hashes, lines_of, probes_of};

use crate::lines::{LINE_BYTES, SEED, set_all};
use sst_num::{Bytes, Memory, put_fixed32};
use sst_sums::hash32;
use std::alloc::Global;

/// Makes the filter of some user keys. It keeps four bytes of each.
///
/// After an error the builder is of no more use: `add` and `finish` answer the error again.
/// RocksDB: `LegacyBloomBitsBuilder` in table/block_based/filter_policy.cc.
#[derive(Drop)]
pub struct BloomBuilder {
    /// Where the filter gets its memory.
    alloc: Global,
    /// How many bits a key has.
    bits: u32,
    /// The hash of each key so far.
    hashes: Vec<u32>,
    /// Memory ran out in an earlier call.
    failed: bool,
}

impl BloomBuilder {
    /// A builder with no key. Takes no memory.
    ///
    /// `bits`, from 1 to 100, is how many bits of the filter a key has. RocksDB: the constructor of `LegacyBloomBitsBuilder` in
    /// table/block_based/filter_policy.cc.
    pub fn new(alloc: Global, bits: u32) -> BloomBuilder
        requires least { 1 ≤ bits }
        requires most { bits ≤ 100 }
        ensures { HoldsKeys result bits [] }
    {
        BloomBuilder {
            alloc,
            bits,
            hashes: Vec::new(alloc),
            failed: false,
        }
    }

    /// Adds a user key.
    ///
    /// Each is added once, and at most 4,194,304 are. Fails where memory runs out now or did in an earlier call.
    /// RocksDB: `LegacyBloomBitsBuilder::AddKey` in table/block_based/filter_policy.cc.
    pub fn add(&mut self, user: &[u8]) -> Result<(), Memory>
        requires { CanAddKey self.old }
        ensures ok { OnOk result ((bits : ℕ) (users : List (List ℕ))
            → HoldsKeys self.old bits users → HoldsKeys self.new bits (users ++ user.now ∷ [])) }
        ensures err { OnErr result (HasFailed self.new) }
        ensures later { HasFailed self.old → IsErr result }
    {
        if self.failed {
            return Err(Memory);
        }
        match self.hashes.push(hash32(user, SEED)) {
            Ok(()) => Ok(()),
            Err(_) => {
                self.failed = true;
                Err(Memory)
            }
        }
    }

    /// The filter of the user keys that were added, of which there is at least one.
    ///
    /// Fails where memory runs out now or did in an earlier call.
    /// RocksDB: `LegacyBloomBitsBuilder::Finish` in table/block_based/filter_policy.cc.
    pub fn finish(self) -> Result<Bytes, Memory>
        requires { CanFinish self }
        ensures exact { IfOk result (λ filter. (bits : ℕ) (users : List (List ℕ)) → HoldsKeys self bits users → filter ≡ bloom_filter bits users) }
        ensures later { HasFailed self → IsErr result }
    {
        if self.failed {
            return Err(Memory);
        }
        filter_of(self.alloc, self.bits, &self.hashes)
    }
}

/// The filter of the keys that have these hashes.
fn filter_of(alloc: Global, bits: u32, hashes: &[u32]) -> Result<Bytes, Memory>
    requires bits_least { 1 ≤ bits }
    requires bits_most { bits ≤ 100 }
    requires some { 1 ≤ length hashes.now }
    requires few { length hashes.now ≤ 4194304 }
    ensures { IfOk result (λ filter. filter ≡ filter_of_hashes bits hashes.now) }
{
    let lines = line_count(hashes.len() as u32, bits);
    let probes = probe_count(bits);
    let mut filter = lines_with(alloc, lines, probes, hashes)?;
    filter.push(probes)?;
    put_fixed32(&mut filter, lines)?;
    Ok(Bytes::from(filter))
}

/// Lines in which the bits of these hashes are set, with room for what stands after them.
fn lines_with(alloc: Global, lines: u32, probes: u8, hashes: &[u32]) -> Result<Vec<u8>, Memory>
    requires { 1 ≤ lines }
    ensures { IfOk result (λ body. body.items ≡ map (byte_of (some_takes lines 64 hashes.now probes)) (range_with_len 0 (64 * lines))) }
{
    let bytes = lines as usize * LINE_BYTES;
    let mut body = Vec::with_capacity(alloc, bytes + 5)?;
    body.resize(bytes, 0)?;
    set_all(body.as_mut_slice(), lines, probes, hashes);
    Ok(body)
}

/// How many lines so many keys take.
///
/// RocksDB: `LegacyBloomBitsBuilder::CalculateSpace` in table/block_based/filter_policy.cc.
fn line_count(keys: u32, bits: u32) -> u32
    requires bits_least { 1 ≤ bits }
    requires bits_most { bits ≤ 100 }
    requires some { 1 ≤ keys }
    requires few { keys ≤ 4194304 }
    ensures exact { result ≡ lines_of keys bits }
    ensures some { 1 ≤ result }
    ensures few { result ≤ 819201 }
{
    let lines = (keys * bits + 511) / 512;
    if lines % 2 == 0 { lines + 1 } else { lines }
}

/// How many probes a key has.
///
/// RocksDB: `LegacyNoLocalityBloomImpl::ChooseNumProbes` in util/bloom_impl.h.
fn probe_count(bits: u32) -> u8
    requires { bits ≤ 100 }
    ensures { result ≡ probes_of bits }
{
    (bits * 69 / 100).min(30).max(1) as u8
}
