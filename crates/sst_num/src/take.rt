//! Numbers and handles, read from the front of bytes.
ghost use Rattle.std.specs.Prelude.{◌≡◌, ℕ, ◌<◌, ◌≤◌, ◌^◌, ℤ, List, ◌++◌, length, take, IfSome, IfNone};
ghost use Rattle.sst_num.specs.Spelling.{varint, IsSigned64, signed_varint, fixed_value, handle_spelling};
ghost use Rattle.sst_num.specs.NumberReading.{with_group, groups_at, fixed_at, varint_at, varint32_at, signed_at, handle_at, StartsWithVarint, StartsWithSigned, StartsWithHandle};
ghost use Rattle.sst_num.specs.declared.block_handle.Handle.{Handle as handle_type};

use crate::block_handle::Handle;
use crate::zigzag::from_zigzag;

/// The most groups that a varint has.
const MOST_GROUPS: usize = 10;

/// Puts a group before the groups of `high`. None where `high` is 0, or both are 2^64 and more.
fn join_group(first: u8, high: u64, used: usize) -> Option<(u64, usize)>
    requires some { 128 ≤ first }
    requires room { used < 2 ^ 63 }
    ensures { result ≡ with_group first (high, used) }
{
    if high == 0 {
        return None;
    }
    let v = high.checked_mul(128)?.checked_add(u64::from(first - 128))?;
    Some((v, used + 1))
}

/// Reads at most `most` groups from the front.
fn take_groups(b: &[u8], most: usize) -> Option<(u64, usize)>
    ensures exact { result ≡ groups_at most b.now }
    ensures within { IfSome result (λ f. f.1 ≤ length b.now) }
{
    if most == 0 {
        return None;
    }
    let (&first, rest) = b.split_first()?;
    if first < 128 {
        return Some((u64::from(first), 1));
    }
    let (high, used) = take_groups(rest, most - 1)?;
    join_group(first, high, used)
}

/// Reads a varint from the front: the number, and how many bytes it takes.
///
/// None comes exactly where no number below 2^64 has its one spelling there: the bytes end too soon,
/// the spelling is longer than it need be, or the number is too large. RocksDB: `GetVarint64Ptr` in
/// util/coding.h, which also takes the longer spellings, and drops the bits of a tenth byte that are past 64.
#[tactic(auto, unfolding(crate::specs::NumberReading::varint_at))]
pub fn take_varint64(b: &[u8]) -> Option<(u64, usize)>
    ensures exact { result ≡ varint_at b.now }
    ensures found { IfSome result (λ f. StartsWithVarint b.now f.0 f.1 × (0 < f.1) × (f.1 ≤ length b.now)) }
    ensures none { IfNone result ((v : ℕ) (rest : List ℕ) → v < 2 ^ 64 → b.now ≡ varint v ++ rest → ⊥) }
{
    take_groups(b, MOST_GROUPS)
}

/// Reads a varint of 32 bits from the front: the number, and how many bytes it takes.
///
/// None comes exactly where no number below 2^32 has its one spelling there. RocksDB: `GetVarint32Ptr`
/// in util/coding.h, which also takes spellings that are longer than they need be, and drops the bits of a fifth byte
/// that are past 32.
#[tactic(auto, unfolding(crate::specs::NumberReading::varint32_at))]
pub fn take_varint32(b: &[u8]) -> Option<(u32, usize)>
    ensures exact { result ≡ varint32_at b.now }
    ensures found { IfSome result (λ f. StartsWithVarint b.now f.0 f.1 × (0 < f.1) × (f.1 ≤ length b.now)) }
    ensures none { IfNone result ((v : ℕ) (rest : List ℕ) → v < 2 ^ 32 → b.now ≡ varint v ++ rest → ⊥) }
{
    let (v, used) = take_varint64(b)?;
    if v < 1 << 32 {
        Some((v as u32, used))
    } else {
        None
    }
}

/// Reads a number that has a sign from the front: the number, and how many bytes it takes.
///
/// None comes exactly where no number from -2^63 up to 2^63 - 1 has its one spelling there: as of
/// [`take_varint64`], which reads the zigzag number. RocksDB: `GetVarsignedint64` in util/coding.h.
#[tactic(auto, unfolding(crate::specs::NumberReading::signed_at))]
pub fn take_signed64(b: &[u8]) -> Option<(i64, usize)>
    ensures exact { result ≡ signed_at b.now }
    ensures found { IfSome result (λ f. StartsWithSigned b.now f.0 f.1 × (0 < f.1) × (f.1 ≤ length b.now)) }
    ensures none { IfNone result ((v : ℤ) (rest : List ℕ) → IsSigned64 v → b.now ≡ signed_varint v ++ rest → ⊥) }
{
    let (zigzag, used) = take_varint64(b)?;
    Some((from_zigzag(zigzag), used))
}

/// Reads a block handle from the front: the handle, and how many bytes it takes.
///
/// None comes exactly where no handle has its one spelling there. RocksDB: `BlockHandle::DecodeFrom` in
/// table/format.cc.
#[tactic(auto, unfolding(crate::specs::NumberReading::handle_at))]
pub fn take_handle(b: &[u8]) -> Option<(Handle, usize)>
    ensures exact { result ≡ handle_at b.now }
    ensures found { IfSome result (λ f. StartsWithHandle b.now f.0 f.1 × (0 < f.1) × (f.1 ≤ length b.now)) }
    ensures none { IfNone result ((v : handle_type) (rest : List ℕ) → v.offset < 2 ^ 64 → v.size < 2 ^ 64 → b.now ≡ handle_spelling v ++ rest → ⊥) }
{
    let (offset, offset_used) = take_varint64(b)?;
    let (_, rest) = b.split_at(offset_used);
    let (size, size_used) = take_varint64(rest)?;
    Some((Handle { offset, size }, offset_used + size_used))
}

/// The number in the first two bytes, the low one first. The slice has at least two.
///
/// RocksDB: `DecodeFixed16` in util/coding_lean.h.
pub fn fixed16(b: &[u8]) -> u16
    requires { 2 ≤ length b.now }
    ensures value { result ≡ fixed_value (take 2 b.now) }
    ensures exact { fixed_at 2 b.now ≡ Some result }
{
    u16::from_le_bytes([b[0], b[1]])
}

/// The number in the first four bytes, the lowest first. The slice has at least four.
///
/// RocksDB: `DecodeFixed32` in util/coding_lean.h.
pub fn fixed32(b: &[u8]) -> u32
    requires { 4 ≤ length b.now }
    ensures value { result ≡ fixed_value (take 4 b.now) }
    ensures exact { fixed_at 4 b.now ≡ Some result }
{
    u32::from_le_bytes([b[0], b[1], b[2], b[3]])
}

/// The number in the first eight bytes, the lowest first. The slice has at least eight.
///
/// RocksDB: `DecodeFixed64` in util/coding_lean.h.
pub fn fixed64(b: &[u8]) -> u64
    requires { 8 ≤ length b.now }
    ensures value { result ≡ fixed_value (take 8 b.now) }
    ensures exact { fixed_at 8 b.now ≡ Some result }
{
    u64::from_le_bytes([b[0], b[1], b[2], b[3], b[4], b[5], b[6], b[7]])
}
