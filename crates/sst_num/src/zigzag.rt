//! Zigzag numbers: a number that has a sign, as one that has none.
ghost use Rattle.std.specs.Prelude.{◌≡◌};
ghost use Rattle.sst_num.specs.Spelling.{zigzag as zigzag_of};
ghost use Rattle.sst_num.specs.NumberReading.{from_zigzag as signed_of};

/// The zigzag number: 0 for 0, 1 for -1, 2 for 1, 3 for -2, and so on.
///
/// RocksDB: `i64ToZigzag` in util/coding.h.
pub fn to_zigzag(v: i64) -> u64
    ensures { result ≡ zigzag_of v }
{
    if v < 0 {
        2 * (-1 - v) as u64 + 1
    } else {
        2 * v as u64
    }
}

/// The number whose zigzag number is `n`.
///
/// RocksDB: `zigzagToI64` in util/coding.h.
pub fn from_zigzag(n: u64) -> i64
    ensures { result ≡ signed_of n }
{
    let half = (n / 2) as i64;
    if n % 2 == 0 { half } else { -1 - half }
}
