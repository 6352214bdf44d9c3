//! The bits of a filter's lines.
ghost use Rattle.std.specs.Prelude.{◌≡◌, ℕ, ◌+◌, ◌*◌, ◌/◌, ◌%◌, ◌<◌, ◌≤◌, ◌==◌, ◌||◌, length};
ghost use Rattle.sst_bloom.specs.Lines as lines;
ghost use Rattle.sst_bloom.specs.Lines.{AreBytes, is_set, step_of, takes, some_takes};

/// What the hash of each key begins with: `BloomHash` of RocksDB's util/hash.h.
pub const SEED: u32 = 0xbc9f_1d34;

/// How many bytes a line has that is written: `CACHE_LINE_SIZE` of RocksDB's port/port_posix.h.
pub const LINE_BYTES: usize = 64;

/// How many bits a line has that is written.
const LINE_BITS: u32 = 512;

/// Sets the bits that the keys of these hashes take.
///
/// RocksDB: `LegacyBloomBitsBuilder::Finish` in table/block_based/filter_policy.cc.
pub fn set_all(body: &mut [u8], lines: u32, probes: u8, hashes: &[u32])
    requires some { 1 ≤ lines }
    requires whole { length body.old ≡ 64 * lines }
    ensures bits { (p : ℕ) → is_set body.new p ≡ (is_set body.old p || some_takes lines 64 hashes.now probes p) }
    ensures bytes { AreBytes body.old → AreBytes body.new }
{
    for hash in hashes {
        set_probes(body, lines, probes, *hash);
    }
}

/// Sets the bits that the key of this hash takes.
///
/// RocksDB: `LegacyLocalityBloomImpl::AddHash` in util/bloom_impl.h.
fn set_probes(body: &mut [u8], lines: u32, probes: u8, hash: u32)
    requires some { 1 ≤ lines }
    requires whole { length body.old ≡ 64 * lines }
    ensures bits { (p : ℕ) → is_set body.new p ≡ (is_set body.old p || takes lines 64 hash probes p) }
    ensures bytes { AreBytes body.old → AreBytes body.new }
{
    let line = (hash % lines) as usize * LINE_BITS as usize;
    let step = step_between(hash);
    let mut h = hash;
    for _ in 0..probes {
        set_bit(body, line + (h % LINE_BITS) as usize);
        h = h.wrapping_add(step);
    }
}

/// Sets the bit at a position.
fn set_bit(body: &mut [u8], at: usize)
    requires { at < 8 * length body.old }
    ensures bits { (p : ℕ) → is_set body.new p ≡ (is_set body.old p || (at == p)) }
    ensures bytes { AreBytes body.old → AreBytes body.new }
{
    body[at / 8] |= 1 << (at % 8);
}

/// How far apart the probes of a hash are: it turned right by 17 bits.
///
/// RocksDB: `delta` of `LegacyLocalityBloomImpl` in util/bloom_impl.h.
pub fn step_between(hash: u32) -> u32
    ensures { result ≡ step_of hash }
{
    hash.rotate_right(17)
}
