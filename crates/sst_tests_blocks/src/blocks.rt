//! Tests of blocks: one that is built, those that are checked and walked, and those that are refused.
//!
//! RocksDB: `BlockBuilder` in table/block_based/block_builder.cc, `Block` and `DecodeEntry` in
//! table/block_based/block.cc.
ghost use Rattle.std.specs.Prelude.{ℕ, ◌≤◌, ◌^◌, List, Option, length};
ghost use Rattle.sst_block.specs.Block.{Row};
ghost use Rattle.sst_block.specs.Iter.{Walks};

use sst_block::{BlockBuilder, BlockFault, BlockIter, RowForm, check_block};
use sst_key::KeyRoom;
use sst_num::{Handle, Refused};
use std::alloc::Global;
use std::process::Abort;
use std::test::Fail;

/// What the rows of a block are.
#[derive(Clone, Copy)]
enum Kind {
    Names,
    Entries,
    Index,
    UserKeys,
    Differences,
    UserDifferences,
}

/// The form of such rows. An index has stored keys or user keys, and whole handles or differences.
fn form_of(kind: Kind) -> RowForm {
    match kind {
        Kind::Names => RowForm::Names,
        Kind::Entries => RowForm::Entries,
        Kind::Index => RowForm::Index {
            user_key: false,
            delta: false,
        },
        Kind::UserKeys => RowForm::Index {
            user_key: true,
            delta: false,
        },
        Kind::Differences => RowForm::Index {
            user_key: false,
            delta: true,
        },
        Kind::UserDifferences => RowForm::Index {
            user_key: true,
            delta: true,
        },
    }
}

/// Keys and values of rows.
type Rows = &'static [(&'static [u8], &'static [u8])];

/// Sound blocks, and their rows.
static SOUND: [(&[u8], Kind, Rows); 12] = [
    // No row, the one restart 0, and that there is one restart.
    (b"\0\0\0\0\x01\0\0\0", Kind::Names, &[]),
    (b"\0\0\0\0\x01\0\0\0", Kind::Entries, &[]),
    (b"\0\0\0\0\x01\0\0\0", Kind::Index, &[]),
    // The entry of the user key a (61) at sequence number 1, whose value is x.
    (
        b"\x00\x09\x01a\x01\x01\0\0\0\0\0\0x\0\0\0\0\x01\0\0\0",
        Kind::Entries,
        &[(b"a\x01\x01\0\0\0\0\0\0", b"x")],
    ),
    // The entries of a at the sequence numbers 2 and 1. The second shares the user key and the kind.
    (
        b"\x00\x09\x00a\x01\x02\0\0\0\0\0\0\x02\x07\x00\x01\0\0\0\0\0\0\0\0\0\0\x01\0\0\0",
        Kind::Entries,
        &[
            (b"a\x01\x02\0\0\0\0\0\0", b""),
            (b"a\x01\x01\0\0\0\0\0\0", b""),
        ],
    ),
    // The handle of offset 0 and size 21.
    (
        b"\x00\x08\x02\x01\0\0\0\0\0\0\0\x00\x15\0\0\0\0\x01\0\0\0",
        Kind::Index,
        &[(b"\x01\0\0\0\0\0\0\0", b"\x00\x15")],
    ),
    // The user keys a and ab, and the handles of offset 0 and size 21, and of offset 26 and size 200.
    (
        b"\x00\x01\x02a\x00\x15\x01\x01\x03b\x1a\xc8\x01\0\0\0\0\x01\0\0\0",
        Kind::UserKeys,
        &[(b"a", b"\x00\x15"), (b"ab", b"\x1a\xc8\x01")],
    ),
    // The user keys ab and ad, and the handles of offset 0 and size 100, and of offset 105 and size 90. The second stands as
    // the difference -10.
    (
        b"\x00\x02ab\x00\x64\x01\x01d\x13\0\0\0\0\x01\0\0\0",
        Kind::UserDifferences,
        &[(b"ab", b"\x00\x64"), (b"ad", b"\x13")],
    ),
    // The same with stored keys, and the key of c, which shares nothing, so that its handle is whole: offset 200, size 300.
    (
        b"\x00\x0aab\x01\x05\0\0\0\0\0\0\x00\x64\x01\x09d\x01\x03\0\0\0\0\0\0\x13\x00\x09c\x01\x03\0\0\0\0\0\0\xc8\x01\xac\x02\0\0\0\0\x01\0\0\0",
        Kind::Differences,
        &[
            (b"ab\x01\x05\0\0\0\0\0\0", b"\x00\x64"),
            (b"ad\x01\x03\0\0\0\0\0\0", b"\x13"),
            (b"c\x01\x03\0\0\0\0\0\0", b"\xc8\x01\xac\x02"),
        ],
    ),
    // The rows a, ab and b, which begin at 0, 4 and 8, and of which the second shares a; the restarts are 0 and 8.
    (
        b"\x00\x01\x00a\x01\x01\x00b\x00\x01\x00b\0\0\0\0\x08\0\0\0\x02\0\0\0",
        Kind::Names,
        &[(b"a", b""), (b"ab", b""), (b"b", b"")],
    ),
    // The rows app, apple and apply, which begin at 0, 6 and 12. The second shares two bytes where it could share three,
    // and the third none; it is a restart, or not.
    (
        b"\x00\x03\x00app\x02\x03\x00ple\x00\x05\x00apply\0\0\0\0\x0c\0\0\0\x02\0\0\0",
        Kind::Names,
        &[(b"app", b""), (b"apple", b""), (b"apply", b"")],
    ),
    (
        b"\x00\x03\x00app\x02\x03\x00ple\x00\x05\x00apply\0\0\0\0\x01\0\0\0",
        Kind::Names,
        &[(b"app", b""), (b"apple", b""), (b"apply", b"")],
    ),
];

/// The block is sound, and has these rows. A value is compared behind the next move.
fn assert_rows(
    rt: &impl Abort,
    alloc: Global,
    block: &[u8],
    form: RowForm,
    rows: &[(&[u8], &[u8])],
) -> Result<(), Fail>
    requires short { length block.now ≤ 2 ^ 29 }
{
    let room = KeyRoom::new(alloc)?;
    let other = KeyRoom::new(alloc)?;
    match check_block(alloc, block, form) {
        Ok(count) => {
            assert_eq!(rt; count as usize, rows.len());
            assert_walk(rt, BlockIter::start(block, form, room), rows);
            assert_walk_back(rt, BlockIter::start(block, form, other), rows);
        }
        Err(refused) => panic!(rt; "refused: {refused:?}"),
    }
    Ok(())
}

/// The walk goes over these rows, and then stands nowhere.
fn assert_walk(rt: &impl Abort, mut walk: BlockIter, rows: &[(&[u8], &[u8])])
    requires { (has : List Row) × (place : Option ℕ) × Walks walk has place }
{
    let mut there = walk.first();
    for &(key, value) in rows {
        if !there {
            panic!(rt; "no row for {key:?}");
        }
        assert_eq!(rt; walk.key(), key);
        let shown = walk.value();
        there = walk.next();
        assert_eq!(rt; shown, value);
    }
    assert!(rt; !there);
}

/// The walk goes back over these rows from the last, and then stands nowhere.
fn assert_walk_back(rt: &impl Abort, mut walk: BlockIter, rows: &[(&[u8], &[u8])])
    requires { (has : List Row) × (place : Option ℕ) × Walks walk has place }
{
    let mut there = walk.last();
    for &(key, value) in rows.iter().rev() {
        if !there {
            panic!(rt; "no row for {key:?}");
        }
        assert_eq!(rt; walk.key(), key);
        let shown = walk.value();
        there = walk.prev();
        assert_eq!(rt; shown, value);
    }
    assert!(rt; !there);
}

// Of the blocks whose restarts are 0 and 8, or 0 and 12, the way back goes over a restart.
#[test]
fn sound_blocks(rt: HostRuntime) -> Result<(), Fail> {
    for (block, kind, rows) in SOUND {
        assert!(rt; block.len() <= 1 << 29);
        assert_rows(&rt, rt.alloc(), block, form_of(kind), rows)?;
    }
    Ok(())
}

// No row; and three names, of which the second shares `app` with the first, and the third is a restart, so it stands
// whole, at 7 + 6 = 13.
#[test]
fn blocks_that_are_built(rt: HostRuntime) -> Result<(), Fail> {
    let none = BlockBuilder::new(rt.alloc(), RowForm::Names, 16, false)?;
    assert_eq!(rt; none.size_now(), 8);
    assert_eq!(rt; none.finish()?.as_slice(), b"\0\0\0\0\x01\0\0\0".as_slice());
    let mut builder = BlockBuilder::new(rt.alloc(), RowForm::Names, 2, false)?;
    builder.add(b"app", b"1", &[])?;
    builder.add(b"apple", b"2", &[])?;
    builder.add(b"apply", b"3", &[])?;
    let block = builder.finish()?;
    let bytes = b"\x00\x03\x01app1\x03\x02\x01le2\x00\x05\x01apply3\0\0\0\0\x0d\0\0\0\x02\0\0\0";
    assert_eq!(rt; block.as_slice(), bytes.as_slice());
    assert!(rt; block.len() <= 1 << 29);
    let rows: [(&[u8], &[u8]); 3] = [(b"app", b"1"), (b"apple", b"2"), (b"apply", b"3")];
    assert_rows(&rt, rt.alloc(), block.as_slice(), RowForm::Names, &rows)
}

/// Blocks that are refused, and their first faults.
static FAULTY: [(&[u8], Kind, BlockFault); 34] = [
    // Seven bytes; no restart; two restarts, which take 12 bytes; and bit 31, which says that there is a hash part.
    (b"\0\0\0\x01\0\0\0", Kind::Names, BlockFault::BadFooter),
    (b"\0\0\0\0\0\0\0\0", Kind::Names, BlockFault::BadFooter),
    (b"\0\0\0\0\x02\0\0\0", Kind::Names, BlockFault::BadFooter),
    (b"\0\0\0\0\x01\0\0\x80", Kind::Names, BlockFault::BadFooter),
    // A length that is spelled longer than it need be; a key of five bytes where there are two; a row that shares a byte
    // with none before it; two shared bytes where the key before has one; and stored keys of seven bytes.
    (
        b"\x80\x00\x01\x00a\0\0\0\0\x01\0\0\0",
        Kind::Names,
        BlockFault::BadRow(0),
    ),
    (
        b"\x00\x05\x00ab\0\0\0\0\x01\0\0\0",
        Kind::Names,
        BlockFault::BadRow(0),
    ),
    (
        b"\x01\x01\x00a\0\0\0\0\x01\0\0\0",
        Kind::Names,
        BlockFault::BadRow(0),
    ),
    (
        b"\x00\x01\x00a\x02\x01\x00b\0\0\0\0\x01\0\0\0",
        Kind::Names,
        BlockFault::BadRow(4),
    ),
    (
        b"\x00\x07\x00\x01\0\0\0\0\0\0\0\0\0\0\x01\0\0\0",
        Kind::Entries,
        BlockFault::BadRow(0),
    ),
    (
        b"\x00\x07\x02\x01\0\0\0\0\0\0\x00\x15\0\0\0\0\x01\0\0\0",
        Kind::Index,
        BlockFault::BadRow(0),
    ),
    // A tag of the kind 3; and the same in a block whose one restart is 1.
    (
        b"\x00\x08\x00\x03\0\0\0\0\0\0\0\0\0\0\0\x01\0\0\0",
        Kind::Entries,
        BlockFault::BadKind(0),
    ),
    (
        b"\x00\x08\x00\x03\0\0\0\0\0\0\0\x01\0\0\0\x01\0\0\0",
        Kind::Entries,
        BlockFault::BadKind(0),
    ),
    // A varint that doesn't end; and the handle and one more byte.
    (
        b"\x00\x08\x02\x01\0\0\0\0\0\0\0\x80\x00\0\0\0\0\x01\0\0\0",
        Kind::Index,
        BlockFault::BadHandle(0),
    ),
    (
        b"\x00\x08\x03\x01\0\0\0\0\0\0\0\x00\x15\x00\0\0\0\0\x01\0\0\0",
        Kind::Index,
        BlockFault::BadHandle(0),
    ),
    // Behind the user key a, a handle without its size; and behind b, the user key a.
    (
        b"\x00\x01\x02a\x00\x15\x01\x01\x01b\x1a\0\0\0\0\x01\0\0\0",
        Kind::UserKeys,
        BlockFault::BadHandle(6),
    ),
    (
        b"\x00\x01\x02b\x00\x15\x00\x01\x02a\x1a\x0a\0\0\0\0\x01\0\0\0",
        Kind::UserKeys,
        BlockFault::Disorder(6),
    ),
    // With differences: no handle, and one without its size; behind the handle of offset 0 and size 100 no difference, one
    // that doesn't end, and -101.
    (
        b"\x00\x02ab\0\0\0\0\x01\0\0\0",
        Kind::UserDifferences,
        BlockFault::BadHandle(0),
    ),
    (
        b"\x00\x02ab\x00\0\0\0\0\x01\0\0\0",
        Kind::UserDifferences,
        BlockFault::BadHandle(0),
    ),
    (
        b"\x00\x02ab\x00\x64\x01\x01d\0\0\0\0\x01\0\0\0",
        Kind::UserDifferences,
        BlockFault::BadHandle(6),
    ),
    (
        b"\x00\x02ab\x00\x64\x01\x01d\x80\0\0\0\0\x01\0\0\0",
        Kind::UserDifferences,
        BlockFault::BadHandle(6),
    ),
    (
        b"\x00\x02ab\x00\x64\x01\x01d\xc9\x01\0\0\0\0\x01\0\0\0",
        Kind::UserDifferences,
        BlockFault::BadHandle(6),
    ),
    // The offset 2^64 - 6 and the size 1, behind which no block begins; and the size 2^63 + 1 with the difference 2^63 - 1.
    (
        b"\x00\x02ab\xfa\xff\xff\xff\xff\xff\xff\xff\xff\x01\x01\x01\x01d\x00\0\0\0\0\x01\0\0\0",
        Kind::UserDifferences,
        BlockFault::BadHandle(15),
    ),
    (
        b"\x00\x02ab\x00\x81\x80\x80\x80\x80\x80\x80\x80\x80\x01\x01\x01d\xfe\xff\xff\xff\xff\xff\xff\xff\xff\x01\0\0\0\0\x01\0\0\0",
        Kind::UserDifferences,
        BlockFault::BadHandle(15),
    ),
    // A key without a tag comes before its handle, and a handle before the order.
    (
        b"\x00\x07\x01\0\0\0\0\0\0\x80\0\0\0\0\x01\0\0\0",
        Kind::Differences,
        BlockFault::BadRow(0),
    ),
    (
        b"\x00\x02ab\x00\x64\x00\x01a\x80\0\0\0\0\x01\0\0\0",
        Kind::UserDifferences,
        BlockFault::BadHandle(6),
    ),
    // A key twice, and b before a; the second row begins at 4.
    (
        b"\x00\x01\x00a\x00\x01\x00a\0\0\0\0\x01\0\0\0",
        Kind::Names,
        BlockFault::Disorder(4),
    ),
    (
        b"\x00\x01\x00b\x00\x01\x00a\0\0\0\0\x01\0\0\0",
        Kind::Names,
        BlockFault::Disorder(4),
    ),
    // The entries of a at the sequence numbers 1 and 2, of which the newer comes first. The second begins at 12.
    (
        b"\x00\x09\x00a\x01\x01\0\0\0\0\0\0\x02\x07\x00\x02\0\0\0\0\0\0\0\0\0\0\x01\0\0\0",
        Kind::Entries,
        BlockFault::Disorder(12),
    ),
    // The restart 1 in a block without rows, and before the rows a, ab and b; the restart 0 twice.
    (
        b"\x01\0\0\0\x01\0\0\0",
        Kind::Entries,
        BlockFault::BadRestart(0),
    ),
    (
        b"\x00\x01\x00a\x01\x01\x00b\x00\x01\x00b\x01\0\0\0\x01\0\0\0",
        Kind::Names,
        BlockFault::BadRestart(0),
    ),
    (
        b"\0\0\0\0\0\0\0\0\x02\0\0\0",
        Kind::Names,
        BlockFault::BadRestart(1),
    ),
    // A second restart that is 0 again, that is within a row, and that is at a row that shares.
    (
        b"\x00\x01\x00a\x01\x01\x00b\x00\x01\x00b\0\0\0\0\0\0\0\0\x02\0\0\0",
        Kind::Names,
        BlockFault::BadRestart(1),
    ),
    (
        b"\x00\x01\x00a\x01\x01\x00b\x00\x01\x00b\0\0\0\0\x02\0\0\0\x02\0\0\0",
        Kind::Names,
        BlockFault::BadRestart(1),
    ),
    (
        b"\x00\x01\x00a\x01\x01\x00b\x00\x01\x00b\0\0\0\0\x04\0\0\0\x02\0\0\0",
        Kind::Names,
        BlockFault::BadRestart(1),
    ),
];

#[test]
fn faulty_blocks(rt: HostRuntime) {
    for (block, kind, fault) in FAULTY {
        assert!(rt; block.len() <= 1 << 29);
        let found = check_block(rt.alloc(), block, form_of(kind));
        assert_eq!(rt; found, Err(Refused::Cause(fault)), "at {block:?}");
    }
}

/// The user keys ab and ad with differences of handles, as among the sound blocks.
const INDEX: &[u8] = b"\x00\x02ab\x00\x64\x01\x01d\x13\0\0\0\0\x01\0\0\0";

// The offset 105 is 0 + 100 + 5, and the size 90 is 100 - 10.
#[test]
fn index_blocks(rt: HostRuntime) -> Result<(), Fail> {
    let room = KeyRoom::new(rt.alloc())?;
    let form = RowForm::Index {
        user_key: true,
        delta: true,
    };
    match check_block(rt.alloc(), INDEX, form) {
        Ok(_) => {
            let mut walk = BlockIter::start(INDEX, form, room);
            let there = walk.first();
            if there {
                assert_eq!(rt;
                    walk.handle(),
                    Handle {
                        offset: 0,
                        size: 100
                    }
                );
                let next = walk.next();
                if next {
                    assert_eq!(rt;
                        walk.handle(),
                        Handle {
                            offset: 105,
                            size: 90
                        }
                    );
                } else {
                    panic!(rt; "one row");
                }
            } else {
                panic!(rt; "no row");
            }
        }
        Err(refused) => panic!(rt; "refused: {refused:?}"),
    }
    Ok(())
}
