//! The form in which a file keeps a checksum.

ghost use Rattle.std.specs.Prelude.{◌≡◌, ℕ, ◌^◌, ◌<◌};
ghost use Rattle.sst_sums.specs.Sums as sums;

/// What masking adds, once the checksum is turned: `kMaskDelta` of RocksDB's util/crc32c.h.
const MASK_DELTA: u32 = 0xa282_ead8;

/// The stored form of the checksum `c`: turned right by 15 bits, plus a constant, in 32 bits.
///
/// RocksDB: util/crc32c.h, `Mask`.
pub fn mask(c: u32) -> u32
    ensures { result ≡ sums.mask c }
{
    c.rotate_right(15).wrapping_add(MASK_DELTA)
}

/// The checksum whose stored form is `m`. Each number of 32 bits is one.
///
/// RocksDB: util/crc32c.h, `Unmask`.
pub fn unmask(m: u32) -> u32
    ensures value { result ≡ sums.unmask m }
    ensures undoes { (c : ℕ) → c < 2 ^ 32 → m ≡ sums.mask c → result ≡ c }
{
    m.wrapping_sub(MASK_DELTA).rotate_right(17)
}
