//! The CRC32C of some bytes, thirty-two bytes a step.
//!
//! The wider the step, the fewer times a remainder is waited for: thirty-two bytes a step take two
//! thirds of the time of eight a step. Each byte of a step has a table of its own, one kilobyte long.

ghost use Rattle.std.specs.Prelude.{◌≡◌, ◌<◌, ◌≤◌, ◌+◌, ◌%◌, length, fold};
ghost use Rattle.sst_sums.specs.Slices.{octets};
ghost use Rattle.sst_sums.specs.Sums as sums;

use crate::tables::TABLES;
use byteorder::{ByteOrder, LittleEndian};

/// The CRC32C of the bytes `b`; of no byte it is 0.
///
/// RocksDB: util/crc32c.h, `Value`.
pub fn crc32c(b: &[u8]) -> u32
    ensures { result ≡ sums.crc32c b.now }
{
    after_all(u32::MAX, b) ^ u32::MAX
}

/// The remainder `remainder` after the bytes `b`: thirty-two a step as far as they go.
fn after_all(remainder: u32, b: &[u8]) -> u32
    ensures { result ≡ fold sums.crc_byte remainder b.now }
{
    let mut remainder = remainder;
    let mut left = b;
    while left.len() >= 32 {
        let (wide, rest) = left.split_at(32);
        remainder = after_thirty_two(remainder, wide);
        left = rest;
    }
    after_rest(remainder, left)
}

/// The remainder `remainder` after the bytes `b`: eight a step, and one a step at the end.
fn after_rest(remainder: u32, b: &[u8]) -> u32
    ensures { result ≡ fold sums.crc_byte remainder b.now }
{
    let mut remainder = remainder;
    let mut left = b;
    while left.len() >= 8 {
        let (eight, rest) = left.split_at(8);
        remainder = after_eight(remainder, eight);
        left = rest;
    }
    after_few(remainder, left)
}

/// The remainder `remainder` after the bytes `few`, one a step.
fn after_few(remainder: u32, few: &[u8]) -> u32
    ensures { result ≡ fold sums.crc_byte remainder few.now }
{
    let mut remainder = remainder;
    for byte in few {
        remainder = after_byte(remainder, *byte);
    }
    remainder
}

/// The remainder `remainder` after one more byte.
fn after_byte(remainder: u32, byte: u8) -> u32
    ensures { result ≡ sums.crc_byte remainder byte }
{
    let mixed = remainder ^ u32::from(byte);
    with_zeros(0, u64::from(mixed)) ^ (mixed >> 8)
}

/// The remainder `remainder` after the eight bytes `eight`.
fn after_eight(remainder: u32, eight: &[u8]) -> u32
    requires { length eight.now ≡ 8 }
    ensures { result ≡ fold sums.crc_byte remainder eight.now }
{
    word_with_zeros(0, u64::from(remainder) ^ LittleEndian::read_u64(eight))
}

/// The remainder `remainder` after the thirty-two bytes `wide`: it is mixed into the first word of
/// eight, which still has twenty-four bytes to follow it, and the last word has none.
fn after_thirty_two(remainder: u32, wide: &[u8]) -> u32
    requires { length wide.now ≡ 32 }
    ensures { result ≡ fold sums.crc_byte remainder wide.now }
{
    let (first, rest) = wide.split_at(8);
    let (second, rest) = rest.split_at(8);
    let (third, fourth) = rest.split_at(8);
    word_with_zeros(24, u64::from(remainder) ^ LittleEndian::read_u64(first))
        ^ word_with_zeros(16, LittleEndian::read_u64(second))
        ^ word_with_zeros(8, LittleEndian::read_u64(third))
        ^ word_with_zeros(0, LittleEndian::read_u64(fourth))
}

/// The remainder that the eight bytes of `word`, the lowest first, leave once `after` bytes of zero
/// follow them.
fn word_with_zeros(after: usize, word: u64) -> u32
    requires { after ≤ 24 }
    ensures { result ≡ octets (after + 8) word }
{
    with_zeros(after + 7, word)
        ^ with_zeros(after + 6, word >> 8)
        ^ with_zeros(after + 5, word >> 16)
        ^ with_zeros(after + 4, word >> 24)
        ^ with_zeros(after + 3, word >> 32)
        ^ with_zeros(after + 2, word >> 40)
        ^ with_zeros(after + 1, word >> 48)
        ^ with_zeros(after, word >> 56)
}

/// The remainder that the lowest byte of `mixed` leaves once `zeros` bytes of zero follow it.
fn with_zeros(zeros: usize, mixed: u64) -> u32
    requires { zeros < 32 }
    ensures { result ≡ octets (zeros + 1) (mixed % 256) }
{
    TABLES[zeros][(mixed & 0xff) as usize]
}
