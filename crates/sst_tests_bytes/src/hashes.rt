//! Tests of the hash of keys in legacy Bloom filters.
//!
//! RocksDB: util/hash.cc.
use sst_sums::hash32;

/// The seed of the filters.
const SEED: u32 = 0xbc9f_1d34;

/// Keys of no byte to eight, and their hashes at a seed. Of the last bytes some have the top bit. An independent program gave the
/// hashes.
static KNOWN: [(&[u8], u32, u32); 12] = [
    (b"", 397, 397),
    (b"", SEED, 0xbc9f_1d34),
    (b"k", SEED, 0xeadd_29bc),
    (b"\x9a", SEED, 0xbe70_5aed),
    (b"k\xff", SEED, 0x4f4d_5588),
    (b"\x80k", SEED, 0x6cd9_85ba),
    (b"key", SEED, 0x9c64_46f4),
    (b"k\x80\xff", SEED, 0x766f_c71e),
    (b"keys", SEED, 0x6dcf_a296),
    (b"\xff\xfe\xfd\xfc", SEED, 0xbff3_34a6),
    (b"block\x9a", 397, 0xb366_34e3),
    (b"user key", SEED, 0x78f6_2b62),
];

#[test]
fn known_hashes(rt: HostRuntime) {
    for (key, seed, hash) in KNOWN {
        assert_eq!(rt; hash32(key, seed), hash);
    }
}
