//! Tests of the index: the keys that stand between blocks, and the bytes of some indexes.
//!
//! RocksDB: `FindShortestSeparator` and `FindShortSuccessor` in util/comparator.cc, `ShortenedIndexBuilder` and
//! `PartitionedIndexBuilder` in table/block_based/index_builder.h.
ghost use Rattle.std.specs.Prelude.{◌≤◌, [], length, IfOk, OnOk};
ghost use Rattle.sst_index.specs.Ends.{AreEnds};
ghost use Rattle.sst_index.specs.Index.{Holds};
ghost use Rattle.sst_index.specs.IndexBytes.{IndexOptions};
ghost use Rattle.sst_tests_blocks.specs.LedBlocks.{ends_of};

use sst_index::{IndexBuilder, put_separator};
use sst_key::{Kind, pack};
use sst_num::{Handle, Memory};
use std::alloc::Global;
use std::test::Fail;

/// The stored key of a user key at sequence number 5.
fn stored(alloc: Global, user: &[u8]) -> Result<Vec<u8>, Memory>
    ensures { IfOk result (λ key. 8 ≤ length key.items) }
{
    let mut key = Vec::new(alloc);
    pack(&mut key, user, 5, Kind::Value)?;
    Ok(key)
}

/// The tag of a short separator.
const FIRST_TAG: &[u8] = b"\xff\xff\xff\xff\xff\xff\xff\xff";

/// The last user key of a block, the first of the next block if there is one, and the user key of a short separator. None:
/// the separator is the last key.
static SEPARATORS: [(&[u8], Option<&[u8]>, Option<&[u8]>); 13] = [
    (b"aaa", Some(b"ca"), Some(b"b")),
    // The byte that is raised would be that of the next key.
    (b"aaa", Some(b"baa"), None),
    (b"aaa", Some(b"aca"), Some(b"ab")),
    // Only the first byte that differs is raised.
    (b"a\xffa", Some(b"ba"), None),
    // It is the last byte of the key.
    (b"a", Some(b"ca"), None),
    (b"ab", Some(b"aq"), None),
    // The next key goes on where this one ends, and the same user key.
    (b"ab", Some(b"abc"), None),
    (b"ab", Some(b"ab"), None),
    (b"", Some(b"c"), None),
    // No block follows.
    (b"aa", None, Some(b"b")),
    (b"\xffaa", None, Some(b"\xffb")),
    (b"a", None, None),
    (b"\xff\xff", None, None),
];

#[test]
fn separators(rt: HostRuntime) -> Result<(), Fail> {
    for (last, next, short) in SEPARATORS {
        let last = stored(rt.alloc(), last)?;
        let mut found = Vec::new(rt.alloc());
        match next {
            None => put_separator(&mut found, &last, None)?,
            Some(next) => {
                let next = stored(rt.alloc(), next)?;
                put_separator(&mut found, &last, Some(&next))?;
            }
        }
        let mut expected = Vec::new(rt.alloc());
        match short {
            None => expected.extend_from_slice(&last)?,
            Some(user) => {
                expected.extend_from_slice(user)?;
                expected.extend_from_slice(FIRST_TAG)?;
            }
        }
        assert_eq!(rt; found, expected);
    }
    Ok(())
}

/// Adds data blocks: the last key of each, the first key of the next, and where it stands.
pub fn add_blocks(
    builder: &mut IndexBuilder,
    blocks: &[(&[u8], Option<&[u8]>, Handle)],
) -> Result<(), Memory>
    requires state { (options : IndexOptions) × Holds builder.old options [] }
    requires ends { AreEnds (ends_of blocks.now) }
    ensures { OnOk result ((options : IndexOptions) → Holds builder.old options [] → Holds builder.new options (ends_of blocks.now)) }
{
    for &(last, next_first, handle) in blocks {
        builder.add(last, next_first, handle)?;
    }
    Ok(())
}

/// Three blocks of one entry each, whose user key is k, at the sequence numbers 9, 5 and 2.
const SHARING: [(&[u8], Option<&[u8]>, Handle); 3] = [
    (
        b"k\x01\x09\0\0\0\0\0\0",
        Some(b"k\x01\x05\0\0\0\0\0\0"),
        Handle {
            offset: 0,
            size: 80,
        },
    ),
    (
        b"k\x01\x05\0\0\0\0\0\0",
        Some(b"k\x01\x02\0\0\0\0\0\0"),
        Handle {
            offset: 85,
            size: 80,
        },
    ),
    (
        b"k\x01\x02\0\0\0\0\0\0",
        None,
        Handle {
            offset: 170,
            size: 80,
        },
    ),
];

/// Two partitions of two rows and of one, each row a restart, and the top block; they stand from 255 on.
const IN_PARTS: &[u8] =
    b"\0\x09\x02k\x01\x09\0\0\0\0\0\0\0\x50\0\x09\x02k\x01\x05\0\0\0\0\0\0\x55\x50\
\0\0\0\0\x0e\0\0\0\x02\0\0\0\0\xc8\x12\xb4r\
\0\x09\x03k\x01\x02\0\0\0\0\0\0\xaa\x01\x50\0\0\0\0\x01\0\0\0\0\xa7\xbf\x17\xd9\
\0\x09\x03k\x01\x05\0\0\0\0\0\0\xff\x01\x28\0\x09\x03k\x01\x02\0\0\0\0\0\0\xac\x02\x17\
\0\0\0\0\x0f\0\0\0\x02\0\0\0\0\x5d\xd7\x43\x9c";

/// The index of the same blocks as one block.
const WHOLE: &[u8] = b"\0\x09\x02k\x01\x09\0\0\0\0\0\0\0\x50\0\x09\x02k\x01\x05\0\0\0\0\0\0\x55\x50\
\0\x09\x03k\x01\x02\0\0\0\0\0\0\xaa\x01\x50\
\0\0\0\0\x0e\0\0\0\x1c\0\0\0\x03\0\0\0\0\x86\x0d\x29\x56";

// In version 2, two rows a partition; and in version 3, where the blocks share a user key, so separators are stored keys.
#[test]
fn index_of_blocks_that_share(rt: HostRuntime) -> Result<(), Fail> {
    let mut builder = IndexBuilder::new(rt.alloc(), 2, 1, 2)?;
    add_blocks(&mut builder, &SHARING)?;
    assert_eq!(rt; builder.separator(0), b"k\x01\x05\0\0\0\0\0\0".as_slice());
    assert_eq!(rt; builder.separator(1), b"k\x01\x02\0\0\0\0\0\0".as_slice());
    let mut out = Vec::new(rt.alloc());
    let top = builder.finish(255, &mut out)?;
    assert_eq!(rt; out.as_slice(), IN_PARTS);
    assert_eq!(rt; (top.offset, top.size), (328, 42));
    let mut builder = IndexBuilder::new(rt.alloc(), 3, 1, 0)?;
    add_blocks(&mut builder, &SHARING)?;
    assert!(rt; !builder.flags().user_key);
    let mut out = Vec::new(rt.alloc());
    let top = builder.finish(255, &mut out)?;
    assert_eq!(rt; out.as_slice(), WHOLE);
    assert_eq!(rt; (top.offset, top.size), (255, 59));
    Ok(())
}

/// Two blocks of one entry each, whose user keys are ab and aq, at the sequence number 3.
const APART: [(&[u8], Option<&[u8]>, Handle); 2] = [
    (
        b"ab\x01\x03\0\0\0\0\0\0",
        Some(b"aq\x01\x03\0\0\0\0\0\0"),
        Handle {
            offset: 0,
            size: 81,
        },
    ),
    (
        b"aq\x01\x03\0\0\0\0\0\0",
        None,
        Handle {
            offset: 86,
            size: 81,
        },
    ),
];

/// Their index in version 3: the separators are user keys, of which the first stays and the last is short.
const USER_KEYS: &[u8] =
    b"\0\x02\x02ab\0\x51\0\x01\x02b\x56\x51\0\0\0\0\x07\0\0\0\x02\0\0\0\0a\x0d\x1a\xbd";

#[test]
fn index_of_user_keys(rt: HostRuntime) -> Result<(), Fail> {
    let mut builder = IndexBuilder::new(rt.alloc(), 3, 1, 0)?;
    add_blocks(&mut builder, &APART)?;
    assert!(rt; builder.flags().user_key);
    assert_eq!(rt; builder.separator(0), b"ab".as_slice());
    let mut out = Vec::new(rt.alloc());
    builder.finish(172, &mut out)?;
    assert_eq!(rt; out.as_slice(), USER_KEYS);
    Ok(())
}

/// No row, the one restart 0, that there is one restart, and the trailer.
const EMPTY: &[u8] = b"\0\0\0\0\x01\0\0\0\0\xc0\xf2\xa1\xb0";

// An index of no block has a top block with no row, and its separators are user keys.
#[test]
fn index_of_no_block(rt: HostRuntime) -> Result<(), Fail> {
    let builder = IndexBuilder::new(rt.alloc(), 3, 1, 2)?;
    assert!(rt; builder.flags().user_key);
    let mut out = Vec::new(rt.alloc());
    let top = builder.finish(0, &mut out)?;
    assert_eq!(rt; out.as_slice(), EMPTY);
    assert_eq!(rt; (top.offset, top.size), (0, 8));
    Ok(())
}

/// Three blocks of the user key k, at the sequence numbers 9, 5 and 2, which differ in size.
const DIFFERING: [(&[u8], Option<&[u8]>, Handle); 3] = [
    (
        b"k\x01\x09\0\0\0\0\0\0",
        Some(b"k\x01\x05\0\0\0\0\0\0"),
        Handle {
            offset: 0,
            size: 100,
        },
    ),
    (
        b"k\x01\x05\0\0\0\0\0\0",
        Some(b"k\x01\x02\0\0\0\0\0\0"),
        Handle {
            offset: 105,
            size: 200,
        },
    ),
    (
        b"k\x01\x02\0\0\0\0\0\0",
        None,
        Handle {
            offset: 310,
            size: 120,
        },
    ),
];

/// Their index in version 4 as one block: the first handle is whole, and the sizes go up by 100 and down by 80.
const DIFFERENCES: &[u8] =
    b"\0\x09k\x01\x09\0\0\0\0\0\0\0\x64\x02\x07\x05\0\0\0\0\0\0\xc8\x01\x02\x07\x02\0\0\0\0\0\0\x9f\x01\
\0\0\0\0\x01\0\0\0\0\xab\xf2\x1d\x8d";

/// One row a partition, of 21, 22 and 22 bytes from 435 on, and the top block: its sizes go up by 1 and by none.
const DIFFERENCES_IN_PARTS: &[u8] =
    b"\0\x09k\x01\x09\0\0\0\0\0\0\0\x64\0\0\0\0\x01\0\0\0\0\x20\xa5\x45\xf6\
\0\x09k\x01\x05\0\0\0\0\0\0\x69\xc8\x01\0\0\0\0\x01\0\0\0\0\xe1\x32\x79\x41\
\0\x09k\x01\x02\0\0\0\0\0\0\xb6\x02\x78\0\0\0\0\x01\0\0\0\0\0\x1d\x32\x65\
\0\x09k\x01\x09\0\0\0\0\0\0\xb3\x03\x15\x02\x07\x05\0\0\0\0\0\0\x02\x02\x07\x02\0\0\0\0\0\0\0\
\0\0\0\0\x01\0\0\0\0\x72\xfb\x99\xde";

/// How many rows a partition has, the bytes of the index, and where its top block stands.
static WITH_DIFFERENCES: [(u32, &[u8], (u64, u64)); 2] = [
    (0, DIFFERENCES, (435, 43)),
    (1, DIFFERENCES_IN_PARTS, (515, 42)),
];

#[test]
fn index_of_differences(rt: HostRuntime) -> Result<(), Fail> {
    for (parts, bytes, place) in WITH_DIFFERENCES {
        let mut builder = IndexBuilder::new(rt.alloc(), 4, 3, parts)?;
        add_blocks(&mut builder, &DIFFERING)?;
        assert!(rt; builder.flags().delta);
        let mut out = Vec::new(rt.alloc());
        let top = builder.finish(435, &mut out)?;
        assert_eq!(rt; out.as_slice(), bytes);
        assert_eq!(rt; (top.offset, top.size), place);
    }
    Ok(())
}
