//! Tests of legacy Bloom filters: what is written, and what is read of any bytes.
//!
//! RocksDB: table/block_based/filter_policy.cc, util/bloom_impl.h. The bytes are those of an independent program.
ghost use Rattle.std.specs.Prelude.{◌≤◌};

use sst_bloom::{Bloom, BloomBuilder, a_filter_is_the_only_one, an_added_key_is_not_denied};
use sst_num::{Bytes, Memory, put_fixed32};
use std::alloc::Global;
use std::test::Fail;

/// The one key of the worked filter.
const KEY: &[u8] = b"\x9a";

/// A key that no filter here has.
const OTHER: &[u8] = b"\x9b";

/// The filter of the one key at 10 bits: 64 bytes, six probes, one line.
static OF_ONE_KEY: [u8; 69] = [
    0x00, 0x00, 0x00, 0x00, 0x20, 0x00, 0x00, 0x00, 0x00, 0x00, 0x00, 0x00, 0x00, 0x00, 0x00, 0x00,
    0x00, 0x00, 0x20, 0x00, 0x00, 0x00, 0x00, 0x00, 0x00, 0x00, 0x00, 0x00, 0x00, 0x20, 0x00, 0x00,
    0x20, 0x00, 0x00, 0x00, 0x00, 0x00, 0x00, 0x00, 0x00, 0x00, 0x00, 0x20, 0x00, 0x00, 0x00, 0x00,
    0x00, 0x00, 0x00, 0x00, 0x00, 0x00, 0x00, 0x00, 0x00, 0x20, 0x00, 0x00, 0x00, 0x00, 0x00, 0x00,
    0x06, 0x01, 0x00, 0x00, 0x00,
];

/// Filters of the one key whose lines have one byte, 2, 4, 8 and 16.
static FOREIGN: [&[u8]; 5] = [
    b"\x00\x00\x00\x00\x20\x02\x05\x00\x00\x00",
    b"\x00\x00\x00\x00\x20\x20\x03\x03\x00\x00\x00",
    b"\x00\x00\x00\x00\x00\x00\x00\x00\x20\x20\x20\x20\x04\x03\x00\x00\x00",
    b"\x00\x00\x00\x00\x00\x00\x00\x00\x20\x20\x20\x20\x20\x20\x00\x00\x06\x02\x00\x00\x00",
    b"\x20\x00\x20\x00\x20\x00\x00\x00\x00\x20\x00\x20\x00\x20\x00\x00\x06\x01\x00\x00\x00",
];

#[test]
fn filter_of_one_key(rt: HostRuntime) -> Result<(), Fail> {
    an_added_key_is_not_denied();
    a_filter_is_the_only_one();
    let mut builder = BloomBuilder::new(rt.alloc(), 10);
    builder.add(KEY)?;
    let filter = builder.finish()?;
    assert_eq!(rt; filter.as_slice(), OF_ONE_KEY.as_slice());
    assert!(rt; !Bloom::of(filter.as_slice()).denies(KEY));
    assert!(rt; Bloom::of(filter.as_slice()).denies(OTHER));
    Ok(())
}

/// The filter of the keys of one byte below `keys`, at so many bits each.
fn filter_of(alloc: Global, keys: u8, bits: u32) -> Result<Bytes, Memory>
    requires some { 1 ≤ keys }
    requires least { 1 ≤ bits }
    requires most { bits ≤ 100 }
{
    let mut builder = BloomBuilder::new(alloc, bits);
    for key in 0..keys {
        builder.add(&[key])?;
    }
    builder.finish()
}

/// Numbers of keys and of bits, and the length and the last five bytes of the filter: 512 bits fill a line, and two lines are
/// made three; there are from one probe to 30.
static SIZES: [(u8, u32, usize, &[u8]); 6] = [
    (51, 10, 69, b"\x06\x01\x00\x00\x00"),
    (52, 10, 197, b"\x06\x03\x00\x00\x00"),
    (154, 10, 325, b"\x06\x05\x00\x00\x00"),
    (1, 1, 69, b"\x01\x01\x00\x00\x00"),
    (1, 43, 69, b"\x1d\x01\x00\x00\x00"),
    (1, 100, 69, b"\x1e\x01\x00\x00\x00"),
];

#[test]
fn sizes(rt: HostRuntime) -> Result<(), Fail> {
    for (keys, bits, length, end) in SIZES {
        let filter = filter_of(rt.alloc(), keys, bits)?;
        assert_eq!(rt; filter.len(), length, "of {keys}");
        let (_, last) = filter.as_slice().split_at(length - 5);
        assert_eq!(rt; last, end, "of {keys}");
        let read = Bloom::of(filter.as_slice());
        for key in 0..keys {
            assert!(rt; !read.denies(&[key]));
        }
    }
    Ok(())
}

/// Lines of zeros: how many bytes they are, the number of probes and that of the lines; and whether a filter of these, none of
/// whose bits is set, denies a key. It does where it can be read.
static READ: [(usize, u8, u32, bool); 12] = [
    (64, 6, 1, true),
    (64, 0xff, 1, false),
    (64, 0x80, 1, false),
    (64, 0x7f, 1, true),
    (64, 0, 1, false),
    (64, 6, 0, false),
    (64, 6, 3, false),
    (63, 6, 1, false),
    (192, 6, 3, true),
    (192, 6, 2, false),
    (0, 0, 0, true),
    (0, 0xff, 1, true),
];

// A filter of five bytes or fewer denies each key, whatever they are.
#[test]
fn filters_read(rt: HostRuntime) -> Result<(), Fail> {
    for (bytes, probes, lines, denied) in READ {
        let mut filter = vec![in rt.alloc(); 0u8; bytes]?;
        filter.push(probes)?;
        put_fixed32(&mut filter, lines)?;
        assert_eq!(rt; Bloom::of(&filter).denies(KEY), denied, "of {bytes}");
    }
    assert!(rt; Bloom::of(b"").denies(KEY));
    assert!(rt; Bloom::of(b"\x06\x01\x00\x00").denies(KEY));
    Ok(())
}

#[test]
fn foreign_lines(rt: HostRuntime) {
    for filter in FOREIGN {
        assert!(rt; !Bloom::of(filter).denies(KEY));
        assert!(rt; Bloom::of(filter).denies(OTHER));
    }
}
