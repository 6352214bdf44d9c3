//! Tests of walks over the pairs of an index block, which are paused and go on over a copy of it.
//!
//! RocksDB: `IndexBlockIter` in table/block_based/block.cc.
ghost use Rattle.std.specs.Prelude.{◌≤◌, ◌^◌, length};
ghost use Rattle.sst_tests_blocks.specs.IndexWalks.{Goes};

use sst_block::{RowForm, check_block};
use sst_index::{IndexFlags, IndexIter};
use sst_key::KeyRoom;
use sst_num::Bytes;
use std::alloc::Global;
use std::process::Abort;
use std::test::Fail;

/// A pair: its separator, the offset and the size of its handle, and where its row begins.
type Pair = (&'static [u8], u64, u64, u32);

/// The stored keys of k at the sequence numbers 9, 5 and 2, of which the second leads to 100 bytes more than the first, and the
/// third to 80 fewer than the second.
const STORED: &[u8] =
    b"\0\x09k\x01\x09\0\0\0\0\0\0\0\x64\x02\x07\x05\0\0\0\0\0\0\xc8\x01\x02\x07\x02\0\0\0\0\0\0\x9f\x01\
\0\0\0\0\x01\0\0\0";

const AT_9: Pair = (b"k\x01\x09\0\0\0\0\0\0", 0, 100, 0);

const AT_5: Pair = (b"k\x01\x05\0\0\0\0\0\0", 105, 200, 13);

const AT_2: Pair = (b"k\x01\x02\0\0\0\0\0\0", 310, 120, 24);

/// The user keys ab and ad, of which the second leads to 10 bytes fewer.
const USER_KEYS: &[u8] = b"\x00\x02ab\x00\x64\x01\x01d\x13\0\0\0\0\x01\0\0\0";

const AB: Pair = (b"ab", 0, 100, 0);

const AD: Pair = (b"ad", 105, 90, 6);

/// User keys of targets that are long, before k and after it.
const LONG_BEFORE: &[u8] = &[b'j'; 300];

const LONG_AFTER: &[u8] = &[b'k'; 300];

/// A block, and whether its separators are user keys; a user key and a tag; the first pair that isn't before this target; and the
/// pair behind it, or from nowhere the first of all.
type Sought = (
    &'static [u8],
    bool,
    &'static [u8],
    u64,
    Option<Pair>,
    Option<Pair>,
);

static SOUGHT: [Sought; 14] = [
    (STORED, false, b"j", 0, Some(AT_9), Some(AT_5)),
    (STORED, false, b"k", 0xaff, Some(AT_9), Some(AT_5)),
    (STORED, false, b"k", 0x901, Some(AT_9), Some(AT_5)),
    // The greater tag comes first.
    (STORED, false, b"k", 0x900, Some(AT_5), Some(AT_2)),
    (STORED, false, b"k", 0x501, Some(AT_5), Some(AT_2)),
    (STORED, false, b"k", 0x201, Some(AT_2), None),
    (STORED, false, b"k", 0x200, None, Some(AT_9)),
    (STORED, false, LONG_BEFORE, 0, Some(AT_9), Some(AT_5)),
    (STORED, false, LONG_AFTER, 0xaff, None, Some(AT_9)),
    // No tag is looked at.
    (USER_KEYS, true, b"ab", 0, Some(AB), Some(AD)),
    (USER_KEYS, true, b"ab", 0xaff, Some(AB), Some(AD)),
    (USER_KEYS, true, b"abc", 0xaff, Some(AD), None),
    (USER_KEYS, true, b"ad", 0, Some(AD), None),
    (USER_KEYS, true, b"ae", 0xaff, None, Some(AB)),
];

/// The walk stands at this pair, if it stands at one.
fn assert_at(rt: &impl Abort, walk: &IndexIter, there: bool, pair: Option<Pair>)
    requires { Goes walk.now there }
{
    assert_eq!(rt; there, pair.is_some());
    if !there {
        return;
    }
    let handle = walk.handle();
    let found = (
        walk.separator(),
        handle.offset,
        handle.size,
        walk.row_start(),
    );
    assert_eq!(rt; Some(found), pair);
}

/// A walk over the block goes to this target: to the pair, or to nowhere. It is paused there, and goes on over a copy of the block.
fn assert_sought(rt: &impl Abort, alloc: Global, sought: Sought) -> Result<(), Fail>
    requires short { length sought.0.now ≤ 2 ^ 29 }
    requires user { length sought.2.now ≤ 65536 }
{
    let (block, user_key, user, tag, pair, after) = sought;
    let copy = Bytes::from_slice(alloc, block)?;
    let same = copy.as_slice();
    let flags = IndexFlags {
        user_key,
        delta: true,
    };
    let form = RowForm::Index {
        user_key,
        delta: true,
    };
    let room = KeyRoom::new(alloc)?;
    match check_block(alloc, block, form) {
        Ok(_) => {
            let mut walk = IndexIter::start(block, flags, room);
            let there = walk.seek(user, tag);
            assert_at(rt, &walk, there, pair);
            let place = walk.pause();
            let mut again = IndexIter::resume(same, flags, place);
            assert_at(rt, &again, there, pair);
            let more = moved(&mut again, there, Step::Next);
            assert_at(rt, &again, more, after);
        }
        Err(refused) => panic!(rt; "refused: {refused:?}"),
    }
    Ok(())
}

#[test]
fn seeks_in_an_index(rt: HostRuntime) -> Result<(), Fail> {
    for sought in SOUGHT {
        assert!(rt; sought.0.len() <= 1 << 29);
        assert!(rt; sought.2.len() <= 65_536);
        assert_sought(&rt, rt.alloc(), sought)?;
    }
    Ok(())
}

/// A move of a walk.
#[derive(Clone, Copy)]
enum Step {
    First,
    Last,
    Next,
    Prev,
}

/// Moves of one walk, and the pair to which each goes.
static STEPS: [(Step, Option<Pair>); 9] = [
    (Step::First, Some(AT_9)),
    (Step::Next, Some(AT_5)),
    (Step::Prev, Some(AT_9)),
    (Step::Prev, None),
    (Step::Last, Some(AT_2)),
    (Step::Prev, Some(AT_5)),
    (Step::Next, Some(AT_2)),
    (Step::Next, None),
    (Step::Last, Some(AT_2)),
];

/// Moves the walk, which stands at a pair or not. A walk that stands nowhere goes to the first pair.
fn moved(walk: &mut IndexIter, stands: bool, step: Step) -> bool
    requires { Goes walk.old stands }
    ensures { Goes walk.new result }
{
    if !stands {
        return match step {
            Step::Last => walk.last(),
            _ => walk.first(),
        };
    }
    match step {
        Step::First => walk.first(),
        Step::Last => walk.last(),
        Step::Next => walk.next(),
        Step::Prev => walk.prev(),
    }
}

#[test]
fn walks_of_an_index(rt: HostRuntime) -> Result<(), Fail> {
    let room = KeyRoom::new(rt.alloc())?;
    let flags = IndexFlags {
        user_key: false,
        delta: true,
    };
    let form = RowForm::Index {
        user_key: false,
        delta: true,
    };
    match check_block(rt.alloc(), STORED, form) {
        Ok(_) => {
            let mut walk = IndexIter::start(STORED, flags, room);
            let mut stands = false;
            for (step, pair) in STEPS {
                stands = moved(&mut walk, stands, step);
                assert_at(&rt, &walk, stands, pair);
            }
        }
        Err(refused) => panic!(rt; "refused: {refused:?}"),
    }
    Ok(())
}
