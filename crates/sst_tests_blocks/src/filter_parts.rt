//! Tests of filters in parts: which part has a user key, and the bytes of some.
//!
//! RocksDB: `PartitionedFilterBlockReader` and `PartitionedFilterBlockBuilder` in table/block_based/partitioned_filter_block.cc.
//! The bits and checksums come from an independent program.
ghost use Rattle.std.specs.Prelude.{◌≡◌, ◌≤◌, ◌<◌, ◌^◌, List, length};
ghost use Rattle.sst_index.specs.Ends.{BlockEnd};
ghost use Rattle.sst_index.specs.FilterBytes.{part_separators};
ghost use Rattle.sst_index.specs.Index.{Holds};
ghost use Rattle.sst_index.specs.IndexBytes.{IndexOptions};

use crate::index::add_blocks;
use sst_block::{RowForm, check_block};
use sst_index::{IndexBuilder, IndexFlags, PartFilterBuilder, Pick, pick_part};
use sst_key::KeyRoom;
use sst_num::{Handle, Memory};
use std::alloc::Global;
use std::process::Abort;
use std::test::Fail;

/// A top block whose separators are stored keys: a short one of b with the greatest tag, and k and m at the sequence numbers 5
/// and 2. Its handles stand whole, and each row is a restart.
const STORED: &[u8] = b"\0\x09\x02b\xff\xff\xff\xff\xff\xff\xff\xff\0\x45\
\0\x09\x02k\x01\x05\0\0\0\0\0\0\x4a\x45\
\0\x09\x03m\x01\x02\0\0\0\0\0\0\x94\x01\x45\
\0\0\0\0\x0e\0\0\0\x1c\0\0\0\x03\0\0\0";

/// A top block whose separators are the user keys ab and ad, of which the second leads to 64 bytes more.
const USER_KEYS: &[u8] = b"\0\x02ab\0\x45\x01\x01d\x80\x01\0\0\0\0\x01\0\0\0";

/// A top block with no row.
const EMPTY: &[u8] = b"\0\0\0\0\x01\0\0\0";

/// The first part, in both.
const FIRST: Pick = Pick::Part(Handle {
    offset: 0,
    size: 69,
});

/// The other parts of stored separators.
const UP_TO_K: Pick = Pick::Part(Handle {
    offset: 74,
    size: 69,
});

const UP_TO_M: Pick = Pick::Part(Handle {
    offset: 148,
    size: 69,
});

/// The other part of user keys.
const UP_TO_AD: Pick = Pick::Part(Handle {
    offset: 74,
    size: 133,
});

/// A top block, and whether its separators are user keys and its handles differences; a user key, and what is picked for it.
type Picked = (&'static [u8], bool, &'static [u8], Pick);

static PICKED: [Picked; 15] = [
    (STORED, false, b"", FIRST),
    (STORED, false, b"a", FIRST),
    // The next part may have b too.
    (STORED, false, b"b", Pick::Unsure),
    (STORED, false, b"ba", UP_TO_K),
    (STORED, false, b"k", Pick::Unsure),
    (STORED, false, b"ka", UP_TO_M),
    (STORED, false, b"m", Pick::Unsure),
    (STORED, false, b"ma", Pick::Beyond),
    (USER_KEYS, true, b"", FIRST),
    // No other part has entries of the user key.
    (USER_KEYS, true, b"ab", FIRST),
    (USER_KEYS, true, b"abc", UP_TO_AD),
    (USER_KEYS, true, b"ad", UP_TO_AD),
    (USER_KEYS, true, b"ae", Pick::Beyond),
    (EMPTY, false, b"a", Pick::Beyond),
    (EMPTY, true, b"", Pick::Beyond),
];

/// The part that is picked for a user key.
fn assert_picked(rt: &impl Abort, alloc: Global, picked: Picked) -> Result<(), Fail>
    requires short { length picked.0.now ≤ 2 ^ 29 }
    requires user { length picked.2.now ≤ 65536 }
{
    let (top, user_key, user, pick) = picked;
    let flags = IndexFlags {
        user_key,
        delta: user_key,
    };
    let form = RowForm::Index {
        user_key,
        delta: user_key,
    };
    let room = KeyRoom::new(alloc)?;
    match check_block(alloc, top, form) {
        Ok(_) => {
            let (found, _) = pick_part(top, flags, user, room);
            assert_eq!(rt; found, pick);
        }
        Err(refused) => panic!(rt; "refused: {refused:?}"),
    }
    Ok(())
}

#[test]
fn parts_of_a_filter(rt: HostRuntime) -> Result<(), Fail> {
    for picked in PICKED {
        assert!(rt; picked.0.len() <= 1 << 29);
        assert!(rt; picked.2.len() <= 65_536);
        assert_picked(&rt, rt.alloc(), picked)?;
    }
    Ok(())
}

/// Two blocks of one entry each, whose user key is 9A, at the sequence numbers 9 and 5.
const SHARING: [(&[u8], Option<&[u8]>, Handle); 2] = [
    (
        b"\x9a\x01\x09\0\0\0\0\0\0",
        Some(b"\x9a\x01\x05\0\0\0\0\0\0"),
        Handle {
            offset: 0,
            size: 80,
        },
    ),
    (
        b"\x9a\x01\x05\0\0\0\0\0\0",
        None,
        Handle {
            offset: 85,
            size: 80,
        },
    ),
];

/// Two blocks of one entry each, whose user keys are 9A and 9C, at the sequence number 3.
const APART: [(&[u8], Option<&[u8]>, Handle); 2] = [
    (
        b"\x9a\x01\x03\0\0\0\0\0\0",
        Some(b"\x9c\x01\x03\0\0\0\0\0\0"),
        Handle {
            offset: 0,
            size: 80,
        },
    ),
    (
        b"\x9c\x01\x03\0\0\0\0\0\0",
        None,
        Handle {
            offset: 85,
            size: 80,
        },
    ),
];

/// The filter of the user key 9A at 10 bits: six bits of one line, six probes, one line, and the trailer.
const FILTER_9A: &[u8] = b"\0\0\0\0\x20\0\0\0\0\0\0\0\0\0\0\0\
\0\0\x20\0\0\0\0\0\0\0\0\0\0\x20\0\0\
\x20\0\0\0\0\0\0\0\0\0\0\x20\0\0\0\0\
\0\0\0\0\0\0\0\0\0\x20\0\0\0\0\0\0\
\x06\x01\0\0\0\
\0\x8e\x65\x25\xe2";

/// That of 9C.
const FILTER_9C: &[u8] = b"\0\0\0\0\0\0\0\0\0\0\0\0\0\0\0\x40\
\0\0\0\0\x04\0\0\0\x40\0\0\0\0\x04\0\0\
\0\x40\0\0\0\0\x04\0\0\0\0\0\0\0\0\0\
\0\0\0\0\0\0\0\0\0\0\0\0\0\0\0\0\
\x06\x01\0\0\0\
\0\x87\x39\x8c\xa3";

/// The top block of version 4, which leads to 69 bytes at 255 and, with no byte more, at 329; both rows are of one restart.
const TOP_OF_SHARING: &[u8] =
    b"\0\x09\x9a\x01\x09\0\0\0\0\0\0\xff\x01\x45\x02\x07\x05\0\0\0\0\0\0\0\
\0\0\0\0\x01\0\0\0\0\x8f\x3f\x8a\x35";

/// That of version 3, whose separators are user keys; it leads to 69 bytes at 172 and at 246, and each row is a restart.
const TOP_OF_APART: &[u8] = b"\0\x01\x03\x9a\xac\x01\x45\0\x01\x03\x9c\xf6\x01\x45\
\0\0\0\0\x07\0\0\0\x02\0\0\0\0\xd7\x0c\x0e\xca";

/// The bytes of a filter of two parts with a user key each, and where its top block stands.
fn two_parts(
    alloc: Global,
    index: &IndexBuilder,
    first: &[u8],
    second: &[u8],
    base: u64,
    interval: u32,
) -> Result<(Vec<u8>, Handle), Memory>
    requires index { (options : IndexOptions) × (blocks : List BlockEnd) × Holds index.now options blocks × (length (part_separators options blocks) ≡ 2) }
    requires base { base < 2 ^ 40 }
    requires least { 1 ≤ interval }
    requires most { interval ≤ 65536 }
{
    let mut filter = PartFilterBuilder::new(alloc, 10);
    filter.add(first)?;
    filter.cut()?;
    filter.add(second)?;
    filter.cut()?;
    let mut out = Vec::new(alloc);
    let top = filter.finish(base, index, interval, &mut out)?;
    Ok((out, top))
}

/// Three pieces, one behind the other.
fn joined(alloc: Global, pieces: [&[u8]; 3]) -> Result<Vec<u8>, Memory> {
    let mut out = Vec::new(alloc);
    for piece in pieces {
        out.extend_from_slice(piece)?;
    }
    Ok(out)
}

#[test]
fn filter_of_two_parts(rt: HostRuntime) -> Result<(), Fail> {
    let mut index = IndexBuilder::new(rt.alloc(), 4, 2, 1)?;
    add_blocks(&mut index, &SHARING)?;
    let (found, top) = two_parts(rt.alloc(), &index, b"\x9a", b"\x9a", 255, 2)?;
    assert_eq!(rt;
        found,
        joined(rt.alloc(), [FILTER_9A, FILTER_9A, TOP_OF_SHARING])?
    );
    assert_eq!(rt; (top.offset, top.size), (403, 32));
    let mut index = IndexBuilder::new(rt.alloc(), 3, 1, 0)?;
    add_blocks(&mut index, &APART)?;
    let (found, top) = two_parts(rt.alloc(), &index, b"\x9a", b"\x9c", 172, 1)?;
    assert_eq!(rt;
        found,
        joined(rt.alloc(), [FILTER_9A, FILTER_9C, TOP_OF_APART])?
    );
    assert_eq!(rt; (top.offset, top.size), (320, 26));
    Ok(())
}
