//! Tests of walks that go to a target, are paused there and go on over a copy of the block; and of walks to a restart.
//!
//! RocksDB: `Seek` and `SeekToRestartPoint` in table/block_based/block.cc.
ghost use Rattle.std.specs.Prelude.{◌≡◌, ◌≤◌, ◌^◌, true, length};
ghost use Rattle.sst_block.specs.Seek.{IsTarget};
ghost use Rattle.sst_tests_blocks.specs.BlockWalks.{GoesOver, PausedAtRow, StandsAtRow};

use sst_block::{BlockIter, Place, RowForm, check_block};
use sst_key::KeyRoom;
use sst_num::Bytes;
use std::alloc::Global;
use std::process::Abort;
use std::test::Fail;

/// What a walk shows of a row: its key and its value.
type Shown = (&'static [u8], &'static [u8]);

/// The rows a, ab and b, which begin at 0, 5 and 11, and of which the second shares a; the restarts are 0 and 11.
const NAMES: &[u8] = b"\x00\x01\x01a1\x01\x01\x02b22\x00\x01\x00b\0\0\0\0\x0b\0\0\0\x02\0\0\0";

const A: Shown = (b"a", b"1");

const AB: Shown = (b"ab", b"22");

const B: Shown = (b"b", b"");

/// The entries of a at the sequence numbers 2 and 1.
const ENTRIES: &[u8] =
    b"\x00\x09\x01a\x01\x02\0\0\0\0\0\0x\x02\x07\x00\x01\0\0\0\0\0\0\0\0\0\0\x01\0\0\0";

const AT_2: Shown = (b"a\x01\x02\0\0\0\0\0\0", b"x");

const AT_1: Shown = (b"a\x01\x01\0\0\0\0\0\0", b"");

/// No row, and the one restart 0.
const EMPTY: &[u8] = b"\0\0\0\0\x01\0\0\0";

/// A block; a target; the first row that isn't before it; and the row behind that one, or from nowhere the first of all.
type Sought = (&'static [u8], &'static [u8], Option<Shown>, Option<Shown>);

static NAMES_SOUGHT: [Sought; 8] = [
    (NAMES, b"", Some(A), Some(AB)),
    (NAMES, b"a", Some(A), Some(AB)),
    (NAMES, b"aa", Some(AB), Some(B)),
    (NAMES, b"ab", Some(AB), Some(B)),
    (NAMES, b"ac", Some(B), None),
    (NAMES, b"b", Some(B), None),
    (NAMES, b"ba", None, Some(A)),
    (EMPTY, b"a", None, None),
];

/// The tag of a target has the greatest kind, 255: a at 3, 2, 1 and 0, and b at 9.
static ENTRIES_SOUGHT: [Sought; 5] = [
    (ENTRIES, b"a\xff\x03\0\0\0\0\0\0", Some(AT_2), Some(AT_1)),
    (ENTRIES, b"a\xff\x02\0\0\0\0\0\0", Some(AT_2), Some(AT_1)),
    (ENTRIES, b"a\xff\x01\0\0\0\0\0\0", Some(AT_1), None),
    (ENTRIES, b"a\xff\0\0\0\0\0\0\0", None, Some(AT_2)),
    (ENTRIES, b"b\xff\x09\0\0\0\0\0\0", None, Some(AT_2)),
];

/// The walk stands at this row, or nowhere.
fn assert_row(rt: &impl Abort, walk: &BlockIter, there: bool, row: Option<Shown>)
    requires { there ≡ true → StandsAtRow walk.now }
{
    assert_eq!(rt; there, row.is_some());
    if there {
        assert_eq!(rt; Some((walk.key(), walk.value())), row);
    }
}

/// The walk was paused at this row, or nowhere.
fn assert_place(rt: &impl Abort, place: &Place, block: &[u8], there: bool, row: Option<Shown>)
    requires { there ≡ true → PausedAtRow place.now block.now }
{
    assert_eq!(rt; place.stands(), there);
    if there {
        assert_eq!(rt; Some((place.key(), place.value(block))), row);
    }
}

/// Goes to the next row, or from nowhere to the first.
fn goes_on(walk: &mut BlockIter, there: bool) -> bool
    requires { GoesOver walk.old there }
    ensures { GoesOver walk.new result }
{
    if !there {
        return walk.first();
    }
    walk.next()
}

/// A walk over the block goes from its restarts to this target: to the row, or to nowhere. It is paused there, and goes on over a
/// copy of the block.
fn assert_sought(rt: &impl Abort, alloc: Global, form: RowForm, sought: Sought) -> Result<(), Fail>
    requires short { length sought.0.now ≤ 2 ^ 29 }
    requires target { IsTarget form sought.1.now }
{
    let (block, target, row, after) = sought;
    let copy = Bytes::from_slice(alloc, block)?;
    let same = copy.as_slice();
    let room = KeyRoom::new(alloc)?;
    match check_block(alloc, block, form) {
        Ok(_) => {
            let mut walk = BlockIter::start(block, form, room);
            let there = walk.seek(target);
            assert_row(rt, &walk, there, row);
            let place = walk.pause();
            assert_place(rt, &place, same, there, row);
            let mut again = BlockIter::resume(same, form, place);
            assert_row(rt, &again, there, row);
            let more = goes_on(&mut again, there);
            assert_row(rt, &again, more, after);
        }
        Err(refused) => panic!(rt; "refused: {refused:?}"),
    }
    Ok(())
}

#[test]
fn seeks(rt: HostRuntime) -> Result<(), Fail> {
    for sought in NAMES_SOUGHT {
        assert!(rt; sought.0.len() <= 1 << 29);
        assert_sought(&rt, rt.alloc(), RowForm::Names, sought)?;
    }
    for sought in ENTRIES_SOUGHT {
        assert!(rt; sought.0.len() <= 1 << 29);
        assert!(rt; sought.1.len() >= 8);
        assert_sought(&rt, rt.alloc(), RowForm::Entries, sought)?;
    }
    Ok(())
}

/// The walk stands at the row with this key, which begins at this place.
fn assert_at(rt: &impl Abort, walk: &BlockIter, there: bool, key: &[u8], start: u32)
    requires { there ≡ true → StandsAtRow walk.now }
{
    if there {
        assert_eq!(rt; walk.key(), key);
        assert_eq!(rt; walk.row_start(), start);
    } else {
        panic!(rt; "no row");
    }
}

#[test]
fn restarts_of_a_block(rt: HostRuntime) -> Result<(), Fail> {
    let room = KeyRoom::new(rt.alloc())?;
    match check_block(rt.alloc(), NAMES, RowForm::Names) {
        Ok(_) => {
            let mut walk = BlockIter::start(NAMES, RowForm::Names, room);
            let count = walk.restarts();
            assert_eq!(rt; count, 2);
            let last = walk.at_restart(count - 1);
            assert_at(&rt, &walk, last, b"b", 11);
            let first = walk.at_restart(0);
            assert_at(&rt, &walk, first, b"a", 0);
        }
        Err(refused) => panic!(rt; "refused: {refused:?}"),
    }
    Ok(())
}
