//! The entries of a file, line by line: a walk from the front that prints all of them, or those that a snapshot sees.
ghost use Rattle.std.specs.Prelude.{◌≡◌, ℕ, ◌<◌, List, ◌∷◌, ◌++◌, take, Option, Some, None, Err, OnOk, OnErr};
ghost use Rattle.std.specs.Io.KnownBytes.{append_known};
ghost use Rattle.std.specs.Option.{is_some};
ghost use Rattle.sst_key.specs.Entry.{entry_of};
ghost use Rattle.sst_key.specs.ListMachine.{first_of, next_of};
ghost use Rattle.sst_key.specs.declared.entries.Entry.{Entry};
ghost use Rattle.sst_device.specs.Outside.{CountsFaults};
ghost use Rattle.sst_text.specs.EntryText.{lines_text};
ghost use Rattle.sst_bbt_read.specs.Kept.{Keeps, StandsOn};
ghost use Rattle.sst_bbt_read.specs.Positions.{Belongs, rest};
ghost use Rattle.sst_bbt_read.specs.Seats.{SameSeats, open_of, seats_of};
ghost use Rattle.sst_bbt_spec.specs.Parts.{Part, stored_in};
ghost use Rattle.sst_cli.specs.Answering.{IsQuiet};
ghost use Rattle.sst_cli.specs.ScanCommand.{is_of_last, is_passed, scan_text, scanned_after};

use crate::output::answers::{PIECE, print_waiting};
use crate::output::entry_text::put_ended_line;
use sst_bbt_read::{BbtReader, Cursor, CursorStop};
use sst_device::{DevStop, Folder, Sink};
use sst_key::EntryView;
use sst_num::Memory;
use std::alloc::Global;
use std::marker::Model;

/// The user key of the entry that was printed last. Contracts see it, or None where there is none.
#[derive(Drop)]
struct LastUser {
    is_there: bool,
    key: Vec<u8>,
}

impl Model for LastUser {
    ghost use Rattle.std.specs.Prelude.{ℕ, List, Option, Some, None, if◌then◌else◌};

    ghost Value = { Option (List ℕ) };

    ghost view = { λ l. if l.is_there then Some l.key.items else None };
}

impl LastUser {
    /// Nothing was printed yet.
    fn new(alloc: Global) -> LastUser
        ensures { result ≡ None }
    {
        LastUser {
            is_there: false,
            key: Vec::new(alloc),
        }
    }

    /// Whether the entry has this user key.
    fn is_of(&self, entry: EntryView<'_>) -> bool
        ensures { result ≡ is_of_last self.now (entry_of entry.entry) }
    {
        if self.is_there {
            self.key.as_slice() == entry.user
        } else {
            false
        }
    }

    /// Keeps the user key of an entry. Takes memory only where there is too little room for it; where it runs out, nothing is
    /// said of what is kept.
    fn keep(&mut self, entry: EntryView<'_>) -> Result<(), Memory>
        ensures { OnOk result (self.new ≡ Some entry.entry.user.now) }
    {
        self.is_there = true;
        self.key.truncate(0);
        self.key.extend_from_slice(entry.user)?;
        Ok(())
    }
}

/// Goes to the first entry, and answers whether there is one.
fn begin<F: Folder>(reader: &mut BbtReader, files: &mut F, position: &mut Cursor) -> bool
    requires { (parts : List Part) × (place : Option ℕ) × StandsOn reader.old position.old parts place }
    ensures stands { (parts : List Part) (place : Option ℕ) → StandsOn reader.old position.old parts place
        → StandsOn reader.new position.new parts (first_of (stored_in parts)) × (result ≡ is_some (first_of (stored_in parts))) }
    ensures seats { SameSeats reader.old reader.new }
    ensures folder { IsQuiet (F.held files.old) (F.held files.new) (F.faults files.old) (F.faults files.new) }
{
    match reader.first(files, position) {
        Ok(_) => reader.stands(position),
        Err(_) => unreachable!(),
    }
}

/// Goes from an entry to the next, and answers whether there is one.
fn go_on<F: Folder>(reader: &mut BbtReader, files: &mut F, position: &mut Cursor) -> bool
    requires { (parts : List Part) × (i : ℕ) × StandsOn reader.old position.old parts (Some i) }
    ensures stands { (parts : List Part) (i : ℕ) → StandsOn reader.old position.old parts (Some i)
        → StandsOn reader.new position.new parts (next_of (stored_in parts) i) × (result ≡ is_some (next_of (stored_in parts) i)) }
    ensures lowers { rest reader.new position.new < rest reader.old position.old }
    ensures seats { SameSeats reader.old reader.new }
    ensures folder { IsQuiet (F.held files.old) (F.held files.new) (F.faults files.old) (F.faults files.new) }
{
    match reader.next(files, position) {
        Ok(_) => reader.stands(position),
        Err(_) => unreachable!(),
    }
}

/// Whether the walk passes an entry over at the snapshot.
fn is_passed(snapshot: u64, last: &LastUser, entry: EntryView<'_>) -> bool
    ensures { result ≡ is_passed snapshot last.now (entry_of entry.entry) }
{
    if entry.seq > snapshot {
        return true;
    }
    last.is_of(entry)
}

/// Appends the line of an entry, if it is printed. Where memory runs out, nothing is said of the text.
fn put_chosen(
    snapshot: Option<u64>,
    last: &mut LastUser,
    entry: EntryView<'_>,
    text: &mut Vec<u8>,
) -> Result<(), Memory>
    ensures { OnOk result ((rest : List Entry) → text.old.items ++ lines_text (scanned_after snapshot last.old (entry_of entry.entry ∷ rest))
        ≡ text.new.items ++ lines_text (scanned_after snapshot last.new rest)) }
{
    if let Some(snapshot) = snapshot {
        if is_passed(snapshot, last, entry) {
            return Ok(());
        }
        last.keep(entry)?;
    }
    put_ended_line(text, entry)
}

/// Prints the line of each entry, or of those that the snapshot sees, in order. After an error a prefix of the text stands in
/// the sink.
///
/// The reader has one seat, which no cursor has. The walk goes from the first entry to the last and never back. The lines are
/// put in pieces of some tens of kilobytes, and no more than one is kept beside the longest line and a user key.
pub fn print_entries<F: Folder, O: Sink>(
    alloc: Global,
    reader: &mut BbtReader,
    files: &mut F,
    snapshot: Option<u64>,
    out: &mut O,
) -> Result<(), DevStop>
    requires seats { (seats_of reader.old ≡ 1) × (open_of reader.old ≡ 0) }
    requires kept { (parts : List Part) × Keeps reader.old parts }
    ensures shut { open_of reader.new ≡ 0 }
    ensures folder { IsQuiet (F.held files.old) (F.held files.new) (F.faults files.old) (F.faults files.new) }
    ensures all { (parts : List Part) → Keeps reader.old parts
        → OnOk result (O.written out.new ≡ append_known (O.written out.old) (scan_text snapshot parts)) }
    ensures err { (parts : List Part) → Keeps reader.old parts
        → OnErr result ((n : ℕ) × (O.written out.new ≡ append_known (O.written out.old) (take n (scan_text snapshot parts)))) }
    ensures faults { CountsFaults (result ≡ Err DevStop.Failed) (O.faults out.old) (O.faults out.new) }
{
    match reader.cursor() {
        Ok(mut position) => {
            let printed = print_walk(alloc, reader, files, &mut position, snapshot, out);
            reader.close(position);
            printed
        }
        Err(CursorStop::Full) => unreachable!(),
        Err(CursorStop::Memory) => Err(DevStop::Memory),
    }
}

/// Prints the lines by a cursor.
fn print_walk<F: Folder, O: Sink>(
    alloc: Global,
    reader: &mut BbtReader,
    files: &mut F,
    position: &mut Cursor,
    snapshot: Option<u64>,
    out: &mut O,
) -> Result<(), DevStop>
    requires kept { (parts : List Part) × StandsOn reader.old position.old parts None }
    ensures belongs { Belongs reader.new position.new }
    ensures seats { SameSeats reader.old reader.new }
    ensures folder { IsQuiet (F.held files.old) (F.held files.new) (F.faults files.old) (F.faults files.new) }
    ensures all { (parts : List Part) → StandsOn reader.old position.old parts None
        → OnOk result (O.written out.new ≡ append_known (O.written out.old) (scan_text snapshot parts)) }
    ensures err { (parts : List Part) → StandsOn reader.old position.old parts None
        → OnErr result ((n : ℕ) × (O.written out.new ≡ append_known (O.written out.old) (take n (scan_text snapshot parts)))) }
    ensures faults { CountsFaults (result ≡ Err DevStop.Failed) (O.faults out.old) (O.faults out.new) }
{
    let mut last = LastUser::new(alloc);
    let mut text = Vec::new(alloc);
    let mut there = begin(reader, files, position);
    while there {
        put_chosen(snapshot, &mut last, reader.entry(position), &mut text)?;
        print_waiting(out, &mut text, PIECE)?;
        there = go_on(reader, files, position);
    }
    print_waiting(out, &mut text, 0)
}
