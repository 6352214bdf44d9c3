//! Laws: what is spelled reads back, and a number has one spelling.
ghost use Rattle.std.specs.Prelude.{◌≡◌, ℕ, ◌<◌, ◌≤◌, ◌↔◌, ◌^◌, ℤ, List, ◌++◌, length, Some};
ghost use Rattle.sst_num.specs.Spelling.{varint, IsSigned64, zigzag, signed_varint, fixed, fixed_value, handle_spelling, IsVarint};
ghost use Rattle.sst_num.specs.NumberReading.{varint_at, varint32_at, signed_at, handle_at, fixed_at, StartsWithVarint, StartsWithSigned, StartsWithHandle};
ghost use Rattle.sst_num.specs.declared.block_handle.Handle.{Handle};

/// What is written for a number below 2^64 is a spelling of it, of at most ten bytes.
///
/// RocksDB: `EncodeVarint64` in util/coding.h.
pub fn varint_is_the_spelling()
    ensures { (v : ℕ) → v < 2 ^ 64 → IsVarint (varint v) v × (length (varint v) ≤ 10) }
{}

/// A number below 2^64 has no other spelling than the one written, so none is shorter.
///
/// A last byte of 0 behind others isn't one: it would say nothing.
///
/// RocksDB: `EncodeVarint64` in util/coding.h.
pub fn varint_is_the_only_spelling()
    ensures { (v : ℕ) (bytes : List ℕ) → v < 2 ^ 64 → IsVarint bytes v → bytes ≡ varint v }
{}

/// No spelling begins another: what a list of bytes begins with is one number at most.
///
/// RocksDB: `GetVarint64Ptr` in util/coding.h.
pub fn no_varint_begins_another()
    ensures { (a b x y : List ℕ) (m n : ℕ) → IsVarint a m → IsVarint b n → a ++ x ≡ b ++ y → (a ≡ b) × (m ≡ n) }
{}

/// A number that has a sign has one spelling, as one that has none, and no other number has it.
///
/// What is written for it is a varint of its zigzag number, of at most ten bytes, and nothing else is one. Two numbers
/// have two zigzag numbers, and each number below 2^64 is the zigzag number of one. No spelling begins another.
///
/// RocksDB: `i64ToZigzag`, `zigzagToI64` and `PutVarsignedint64` in util/coding.h.
pub fn signed_has_one_spelling()
    ensures spelling { (v : ℤ) → IsSigned64 v → IsVarint (signed_varint v) (zigzag v) × (length (signed_varint v) ≤ 10) }
    ensures only { (v : ℤ) (bytes : List ℕ) → IsSigned64 v → IsVarint bytes (zigzag v) → bytes ≡ signed_varint v }
    ensures one { (u v : ℤ) → zigzag u ≡ zigzag v → u ≡ v }
    ensures each { (n : ℕ) → n < 2 ^ 64 → (v : ℤ) × IsSigned64 v × (zigzag v ≡ n) }
    ensures begins_none { (u v : ℤ) (x y : List ℕ) → IsSigned64 u → IsSigned64 v → signed_varint u ++ x ≡ signed_varint v ++ y → u ≡ v }
{}

/// A number that fits n bytes is read back from them.
///
/// RocksDB: `EncodeFixed64` and `DecodeFixed64` in util/coding_lean.h.
pub fn fixed_reads_back()
    ensures { (n v : ℕ) → v < 256 ^ n → fixed_value (fixed n v) ≡ v }
{}

/// What is written in `n` bytes for a number that fits them is read again, whatever follows.
///
/// RocksDB: `PutFixed32` and `DecodeFixed32`, and their kin, in util/coding.h and util/coding_lean.h.
pub fn fixed_is_taken_again()
    ensures { (n v : ℕ) (rest : List ℕ) → v < 256 ^ n → fixed_at n (fixed n v ++ rest) ≡ Some v }
{}

/// What is written for a number below 2^64 is taken again, whatever follows.
///
/// RocksDB: `PutVarint64` and `GetVarint64` in util/coding.h.
pub fn varint_is_taken_again()
    ensures { (v : ℕ) (rest : List ℕ) → v < 2 ^ 64 → varint_at (varint v ++ rest) ≡ Some (v, length (varint v)) }
{}

/// What is written for a number below 2^32 is taken again as one of 32 bits, whatever follows.
///
/// RocksDB: `PutVarint32` and `GetVarint32` in util/coding.h.
pub fn varint32_is_taken_again()
    ensures { (v : ℕ) (rest : List ℕ) → v < 2 ^ 32 → varint32_at (varint v ++ rest) ≡ Some (v, length (varint v)) }
{}

/// What is written for a number that has a sign, of 64 bits, is taken again, whatever follows.
///
/// RocksDB: `PutVarsignedint64` and `GetVarsignedint64` in util/coding.h.
pub fn signed_is_taken_again()
    ensures { (v : ℤ) (rest : List ℕ) → IsSigned64 v → signed_at (signed_varint v ++ rest) ≡ Some (v, length (signed_varint v)) }
{}

/// What is written for a block handle is taken again, whatever follows.
///
/// RocksDB: `BlockHandle::EncodeTo` and `BlockHandle::DecodeFrom` in table/format.cc.
pub fn handle_is_taken_again()
    ensures { (h : Handle) (rest : List ℕ) → h.offset < 2 ^ 64 → h.size < 2 ^ 64 → handle_at (handle_spelling h ++ rest) ≡ Some (h, length (handle_spelling h)) }
{}

/// What is read at the front stands there, and is in range; and what stands there in range is read.
///
/// RocksDB: `GetVarint64`, `GetVarint32` and `GetVarsignedint64` in util/coding.h, `BlockHandle::DecodeFrom` in
/// table/format.cc, and `DecodeFixed64` and its kin in util/coding_lean.h.
pub fn what_is_read_stands_there()
    ensures varint { (bytes : List ℕ) (v used : ℕ) → (varint_at bytes ≡ Some (v, used)) ↔ ((v < 2 ^ 64) × StartsWithVarint bytes v used) }
    ensures varint32 { (bytes : List ℕ) (v used : ℕ) → (varint32_at bytes ≡ Some (v, used)) ↔ ((v < 2 ^ 32) × StartsWithVarint bytes v used) }
    ensures signed { (bytes : List ℕ) (v : ℤ) (used : ℕ) → (signed_at bytes ≡ Some (v, used)) ↔ (IsSigned64 v × StartsWithSigned bytes v used) }
    ensures handle { (bytes : List ℕ) (h : Handle) (used : ℕ)
        → (handle_at bytes ≡ Some (h, used)) ↔ ((h.offset < 2 ^ 64) × (h.size < 2 ^ 64) × StartsWithHandle bytes h used) }
    ensures fixed { (n v : ℕ) (bytes : List ℕ) → (fixed_at n bytes ≡ Some v) ↔ ((v < 256 ^ n) × ((rest : List ℕ) × (bytes ≡ fixed n v ++ rest))) }
{}
