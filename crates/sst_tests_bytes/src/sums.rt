//! Tests of checksums, and of the form in which files store them.
//!
//! RocksDB: util/crc32c.h.
use sst_sums::{crc32c, mask, unmask};

/// The bytes 0 to 31.
static RISING: [u8; 32] = [
    0, 1, 2, 3, 4, 5, 6, 7, 8, 9, 10, 11, 12, 13, 14, 15, 16, 17, 18, 19, 20, 21, 22, 23, 24, 25,
    26, 27, 28, 29, 30, 31,
];

// The sum of ASCII digits that catalogues of CRCs give as the check, RFC 3720's examples (B.4), and
// that of no byte.
#[test]
fn known_sums(rt: HostRuntime) {
    for (bytes, sum) in [
        (&b""[..], 0u32),
        (b"123456789", 0xe306_9283),
        (&[0u8; 32], 0x8a91_36aa),
        (&[0xffu8; 32], 0x62a8_ab43),
        (RISING.as_slice(), 0x46dd_794e),
    ] {
        assert_eq!(rt; crc32c(bytes), sum);
    }
}

#[test]
fn known_stored_forms(rt: HostRuntime) {
    for (sum, stored) in [
        (0u32, 0xa282_ead8u32),
        (0xe306_9283, 0xc78a_b0e5),
        (0x8cd3_2895, 0xf3ae_047e),
        (0xffff_ffff, 0xa282_ead7),
    ] {
        assert_eq!(rt; mask(sum), stored);
        assert_eq!(rt; unmask(stored), sum);
    }
}
