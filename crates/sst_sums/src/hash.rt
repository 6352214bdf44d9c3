//! The hash of a key, four bytes a step.

ghost use Rattle.std.specs.Prelude.{◌≡◌, ◌+◌, ◌*◌, ◌%◌, ◌^◌, ◌<◌, length, bit_xor};
ghost use Rattle.sst_sums.specs.Hash as hashes;

use byteorder::{ByteOrder, LittleEndian};

/// What each step multiplies by: `m` of RocksDB's util/hash.cc.
const MULTIPLIER: u32 = 0xc6a4_a793;

/// The hash of the bytes `bytes`, begun with `seed`.
///
/// RocksDB: util/hash.cc, `Hash`.
pub fn hash32(bytes: &[u8], seed: u32) -> u32
    ensures { result ≡ hashes.hash32 bytes.now seed }
{
    let length = (bytes.len() & 0xffff_ffff) as u32;
    after_bytes(seed ^ length.wrapping_mul(MULTIPLIER), bytes)
}

/// `h` after the bytes `bytes`: four a step, and one to three of them at the end.
fn after_bytes(h: u32, bytes: &[u8]) -> u32
    ensures { result ≡ hashes.after_bytes h bytes.now }
{
    let mut h = h;
    let mut left = bytes;
    while left.len() >= 4 {
        let (four, rest) = left.split_at(4);
        h = after_word(h, LittleEndian::read_u32(four));
        left = rest;
    }
    after_last(h, left)
}

/// `h` after one more number.
fn after_word(h: u32, word: u32) -> u32
    ensures { result ≡ hashes.after_word h word }
{
    let product = h.wrapping_add(word).wrapping_mul(MULTIPLIER);
    product ^ (product >> 16)
}

/// `h` after the last bytes, of which there are at most three.
fn after_last(h: u32, last: &[u8]) -> u32
    requires { length last.now < 4 }
    ensures { result ≡ hashes.after_bytes h last.now }
{
    match last {
        [] => h,
        [a] => after_sum(h, as_signed(*a)),
        [a, b] => after_sum(h, as_signed(*a).wrapping_add(as_signed(*b) << 8)),
        [a, b, c] => after_sum(
            h,
            as_signed(*a)
                .wrapping_add(as_signed(*b) << 8)
                .wrapping_add(as_signed(*c) << 16),
        ),
        _ => unreachable!(),
    }
}

/// `h` after the sum of the last bytes.
fn after_sum(h: u32, sum: u32) -> u32
    ensures { result ≡ hashes.after_sum h sum }
{
    let product = h.wrapping_add(sum).wrapping_mul(MULTIPLIER);
    product ^ (product >> 24)
}

/// A byte as a number that has a sign, in 32 bits.
fn as_signed(byte: u8) -> u32
    ensures { result ≡ hashes.as_signed byte }
{
    if byte < 128 {
        u32::from(byte)
    } else {
        u32::from(byte) + 0xffff_ff00
    }
}
