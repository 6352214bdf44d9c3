//! Each use called once: a table of two entries is written into memory, opened, asked and walked, by one cursor and by two.
ghost use Rattle.std.specs.Prelude.{◌≡◌, IfOk};
ghost use Rattle.sst_bbt_read.specs.Seats.{seats_of, open_of};

use crate::{all_entries, ends, look_up, write_table};
use sst_bbt_read::{BbtReader, CursorStop};
use sst_bbt_write::BbtOptions;
use sst_device::MemFolder;
use sst_key::{Entry, Kind, WriteFault};
use sst_num::{Bytes, Memory, Refused};
use std::alloc::Global;
use std::test::Fail;

/// The name of the file.
const NAME: &str = "table";

/// The size of data blocks and the restart intervals that RocksDB takes where no others are chosen, and an index of one block.
const OPTIONS: BbtOptions = BbtOptions {
    version: 2,
    block_size: 4096,
    restart: 16,
    index_restart: 1,
    parts: 0,
};

/// The key `a`, which has the value `x` since 2.
fn put_of_a(alloc: Global) -> Result<Entry, Memory>
    ensures { IfOk result (λ entry. entry.seq ≡ 2) }
{
    Ok(Entry {
        user: Bytes::from_slice(alloc, b"a")?,
        seq: 2,
        kind: Kind::Value,
        value: Bytes::from_slice(alloc, b"x")?,
    })
}

/// The key `b`, which was deleted at 1.
fn deletion_of_b(alloc: Global) -> Result<Entry, Memory>
    ensures { IfOk result (λ entry. entry.seq ≡ 1) }
{
    Ok(Entry {
        user: Bytes::from_slice(alloc, b"b")?,
        seq: 1,
        kind: Kind::Deletion,
        value: Bytes::new(alloc),
    })
}

/// A folder with the table of the two entries.
fn folder(alloc: Global) -> Result<MemFolder, Fail> {
    let entries = [put_of_a(alloc)?, deletion_of_b(alloc)?];
    let mut folder = MemFolder::new(alloc, &[])?;
    match write_table(alloc, OPTIONS, &entries) {
        Ok(file) => folder.put_file(NAME, &file)?,
        Err(_) => {}
    }
    Ok(folder)
}

#[test]
fn a_table_is_asked_at_snapshots(rt: HostRuntime) -> Result<(), Fail> {
    let mut folder = folder(rt.alloc())?;
    for (user, seq, kind) in [
        (&b"a"[..], 5, Some(Kind::Value)),
        (&b"a"[..], 2, Some(Kind::Value)),
        (&b"a"[..], 1, None),
        (&b"b"[..], 1, Some(Kind::Deletion)),
        (&b"c"[..], 5, None),
    ] {
        match look_up(rt.alloc(), &mut folder, NAME, user, seq) {
            Ok(found) => assert_eq!(rt; found.map(|entry| entry.kind), kind),
            Err(_) => assert!(rt; false),
        }
    }
    Ok(())
}

#[test]
fn a_table_is_walked(rt: HostRuntime) -> Result<(), Fail> {
    let mut folder = folder(rt.alloc())?;
    match all_entries(rt.alloc(), &mut folder, NAME) {
        Ok(entries) => match entries.as_slice() {
            [a, b] => {
                assert_eq!(rt; a.user.as_slice(), b"a".as_slice());
                assert_eq!(rt; a.value.as_slice(), b"x".as_slice());
                assert_eq!(rt; b.user.as_slice(), b"b".as_slice());
            }
            _ => assert!(rt; false),
        },
        Err(_) => assert!(rt; false),
    }
    Ok(())
}

#[test]
fn a_table_shows_both_ends(rt: HostRuntime) -> Result<(), Fail> {
    let mut folder = folder(rt.alloc())?;
    match ends(rt.alloc(), &mut folder, NAME) {
        Ok(Some((first, last))) => {
            assert_eq!(rt; first.user.as_slice(), b"a".as_slice());
            assert_eq!(rt; last.user.as_slice(), b"b".as_slice());
        }
        _ => assert!(rt; false),
    }
    Ok(())
}

/// Whether a second cursor is refused, because each seat has one.
fn is_full(table: &mut BbtReader) -> bool
    requires { open_of table.old ≡ seats_of table.old }
    ensures { table.new ≡ table.old }
{
    match table.cursor() {
        Ok(_second) => unreachable!(),
        Err(CursorStop::Full) => true,
        Err(CursorStop::Memory) => false,
    }
}

/// Whether a cursor is opened, and takes the one seat until it is closed.
fn takes_the_seat(table: &mut BbtReader) -> bool
    requires { (seats_of table.old ≡ 1) × (open_of table.old ≡ 0) }
    ensures { (seats_of table.new ≡ 1) × (open_of table.new ≡ 0) }
{
    match table.cursor() {
        Ok(first) => {
            let full = is_full(table);
            table.close(first);
            full
        }
        Err(_) => false,
    }
}

#[test]
fn a_seat_is_given_again(rt: HostRuntime) -> Result<(), Fail> {
    let mut folder = folder(rt.alloc())?;
    match BbtReader::open(rt.alloc(), &mut folder, NAME, 1, 0) {
        Ok(mut table) => {
            let once = takes_the_seat(&mut table);
            let again = takes_the_seat(&mut table);
            table.shut();
            assert!(rt; once);
            assert!(rt; again);
        }
        Err(_) => assert!(rt; false),
    }
    Ok(())
}

#[test]
fn entries_out_of_order_are_refused(rt: HostRuntime) -> Result<(), Fail> {
    let entries = [deletion_of_b(rt.alloc())?, put_of_a(rt.alloc())?];
    match write_table(rt.alloc(), OPTIONS, &entries) {
        Err(Refused::Cause(fault)) => assert_eq!(rt; fault, WriteFault::NotIncreasing),
        _ => assert!(rt; false),
    }
    Ok(())
}
