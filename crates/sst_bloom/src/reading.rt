//! A filter, read.
ghost use Rattle.std.specs.Prelude.{◌≡◌, ℕ, ◌+◌, ◌*◌, ◌/◌, ◌%◌, ◌^◌, ◌<◌, ◌≤◌, List, length, not, ◌==◌, slice_index};
ghost use Rattle.std.specs.Int.{IsPowerOfTwo};
ghost use Rattle.sst_bloom.specs.Lines.{is_set, position_of};
ghost use Rattle.sst_bloom.specs.Reading as reading;

use crate::lines::{SEED, step_between};
use sst_num::fixed32;
use sst_sums::hash32;
use std::marker::Model;

/// How many bytes stand after the lines.
const END: usize = 5;

/// The filter of a table, or a part of it: any bytes are one. Contracts see it as these bytes.
///
/// RocksDB: `LegacyBloomBitsReader` in table/block_based/filter_policy.cc.
#[derive(Drop)]
pub struct Bloom<'b> {
    filter: &'b [u8],
}

impl<'b> Model for Bloom<'b> {
    ghost Value = { List ℕ };

    ghost view = { λ b. b.filter.now };
}

impl<'b> Bloom<'b> {
    /// The filter that these bytes are. Takes no memory.
    ///
    /// RocksDB: `BuiltinFilterPolicy::GetBuiltinFilterBitsReader` in table/block_based/filter_policy.cc.
    pub fn of(filter: &'b [u8]) -> Bloom<'b>
        ensures { result ≡ filter.now }
    {
        Bloom { filter }
    }

    /// Whether the filter denies the user key: then it isn't among the keys that were added. Takes no memory.
    ///
    /// RocksDB: `MayMatch` of the readers in table/block_based/filter_policy.cc, which answers the contrary.
    pub fn denies(&self, user: &[u8]) -> bool
        ensures { result ≡ reading.denies self.now user.now }
    {
        denied(self.filter, hash32(user, SEED))
    }
}

/// Whether a filter denies a hash.
#[tactic(auto, using(crate::proofs::Looking::denied_short, crate::proofs::Looking::denied_long))]
fn denied(filter: &[u8], hash: u32) -> bool
    ensures { result ≡ reading.denied filter.now hash }
{
    match filter.len().checked_sub(END) {
        None | Some(0) => true,
        Some(at) => {
            let (body, end) = filter.split_at(at);
            denied_by(body, end, hash)
        }
    }
}

/// Whether lines and the bytes after them deny a hash.
fn denied_by(body: &[u8], end: &[u8], hash: u32) -> bool
    requires { length end.now ≡ 5 }
    ensures { result ≡ reading.denied_by body.now end.now hash }
{
    let probes = end[0];
    if probes == 0 {
        return false;
    }
    if probes >= 128 {
        return false;
    }
    let (_, lines) = end.split_at(1);
    let lines = fixed32(lines);
    match line_size(lines, body.len()) {
        None => false,
        Some(size) => misses(body, lines, size, hash, probes),
    }
}

/// How many bytes each of the lines has.
fn line_size(lines: u32, bytes: usize) -> Option<usize>
    ensures { result ≡ reading.line_size lines bytes }
{
    if lines == 0 {
        return None;
    }
    let lines = lines as usize;
    if bytes % lines != 0 {
        return None;
    }
    let size = bytes / lines;
    if size.is_power_of_two() {
        Some(size)
    } else {
        None
    }
}

/// Whether one of the probes of a hash takes a bit that isn't set.
///
/// RocksDB: `LegacyLocalityBloomImpl::HashMayMatchPrepared` in util/bloom_impl.h, which answers the contrary.
fn misses(body: &[u8], lines: u32, size: usize, hash: u32, probes: u8) -> bool
    requires some { 1 ≤ lines }
    requires whole { length body.now ≡ lines * size }
    requires power { IsPowerOfTwo size }
    ensures { result ≡ reading.misses body.now lines size hash probes }
{
    let line = (hash % lines) as usize * size;
    let step = step_between(hash);
    let mut h = hash;
    for _ in 0..probes {
        let byte = body[line + byte_in_line(h, size)];
        if byte >> (h % 8) & 1 == 0 {
            return true;
        }
        h = h.wrapping_add(step);
    }
    false
}

/// Which byte of a line a probe looks at.
fn byte_in_line(h: u32, size: usize) -> usize
    requires { IsPowerOfTwo size }
    ensures exact { result ≡ h / 8 % size }
    ensures within { result < size }
{
    (h >> 3) as usize & (size - 1)
}
