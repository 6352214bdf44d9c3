//! The command that shows one entry of a file: the newest of a user key that a snapshot sees.
ghost use Rattle.std.specs.Prelude.{◌≡◌, ℕ, List, ◌++◌, Option, None, OnOk, IfOk};
ghost use Rattle.sst_bbt_read.specs.Cursors.{lent};
ghost use Rattle.sst_bbt_read.specs.Kept.{Keeps, StandsOn};
ghost use Rattle.sst_bbt_read.specs.Positions.{Belongs};
ghost use Rattle.sst_bbt_read.specs.Seats.{SameSeats, open_of, seats_of};
ghost use Rattle.sst_bbt_spec.specs.Parts.{Part};
ghost use Rattle.sst_cli.specs.Answering.{IsQuiet};
ghost use Rattle.sst_cli.specs.Behaviour.{Carries, world};
ghost use Rattle.sst_cli.specs.GetCommand.{found_text, get_command, way_got_text};
ghost use Rattle.sst_cli.specs.OpenFile.{done_with};
ghost use Rattle.sst_cli.specs.Printed.{IsPrinted};

use crate::command::GetLine;
use crate::commands::calls::print_fault;
use crate::output::answers::shown;
use crate::output::entry_text::put_ended_line;
use crate::output::printing::print;
use crate::status::Status;
use sst_bbt_read::{BbtReader, Cursor, CursorStop};
use sst_device::{Folder, Sink};
use sst_key::{EntryView, Target};
use sst_num::{Memory, Stop};
use std::alloc::Global;

/// Answers one Get from the named file, and prints the line of the entry or `none`, or what is wrong with the file.
pub fn get<F: Folder, O: Sink>(
    alloc: Global,
    line: GetLine<'_>,
    files: &mut F,
    out: &mut O,
) -> Status
    ensures { (left : Option (List ℕ)) (intake : ℕ) → Carries (get_command (record { name = line.entry.name.now; target = line.entry.target }))
        (world (F.held files.old) left (O.written out.old) (F.faults files.old) intake (O.faults out.old))
        (world (F.held files.new) left (O.written out.new) (F.faults files.new) intake (O.faults out.new))
        result (files.new ≡ files.old) (Unit {0}) }
{
    match BbtReader::open(alloc, files, line.name, 1, 0) {
        Ok(reader) => print_found(alloc, reader, files, &line.target, out),
        Err(Stop::Damage(fault)) => print_fault(alloc, out, fault),
        Err(Stop::Device) => Status::Device,
        Err(Stop::Memory) => Status::Memory,
    }
}

/// Prints what a Get on an open file shows.
fn print_found<F: Folder, O: Sink>(
    alloc: Global,
    reader: BbtReader,
    files: &mut F,
    target: &Target,
    out: &mut O,
) -> Status
    requires seats { (seats_of reader ≡ 1) × (open_of reader ≡ 0) }
    requires kept { (parts : List Part) × Keeps reader parts }
    ensures printed { (parts : List Part) → Keeps reader parts
        → IsPrinted result (done_with (way_got_text target.now parts)) (O.written out.old) (O.written out.new) (O.faults out.old) (O.faults out.new) }
    ensures folder { IsQuiet (F.held files.old) (F.held files.new) (F.faults files.old) (F.faults files.new) }
{
    let mut table = reader;
    let found = found_text(alloc, &mut table, files, target);
    table.shut();
    match found {
        Ok(text) => print(out, text.as_slice(), Status::Done),
        Err(Memory) => Status::Memory,
    }
}

/// The text of what a Get on an open file shows, by a cursor of its own. The reader has one seat, which no cursor has.
fn found_text<F: Folder>(
    alloc: Global,
    reader: &mut BbtReader,
    files: &mut F,
    target: &Target,
) -> Result<Vec<u8>, Memory>
    requires seats { (seats_of reader.old ≡ 1) × (open_of reader.old ≡ 0) }
    requires kept { (parts : List Part) × Keeps reader.old parts }
    ensures shut { open_of reader.new ≡ 0 }
    ensures folder { IsQuiet (F.held files.old) (F.held files.new) (F.faults files.old) (F.faults files.new) }
    ensures text { (parts : List Part) → Keeps reader.old parts → IfOk result (λ text. text.items ≡ way_got_text target.now parts) }
{
    match reader.cursor() {
        Ok(mut found) => {
            let mut text = Vec::new(alloc);
            let put = put_found(reader, files, &mut found, target, &mut text);
            reader.close(found);
            match put {
                Ok(()) => Ok(text),
                Err(Memory) => Err(Memory),
            }
        }
        Err(CursorStop::Full) => unreachable!(),
        Err(CursorStop::Memory) => Err(Memory),
    }
}

/// Answers the Get and appends what it shows. Where memory runs out, nothing is said of the text.
fn put_found<F: Folder>(
    reader: &mut BbtReader,
    files: &mut F,
    found: &mut Cursor,
    target: &Target,
    text: &mut Vec<u8>,
) -> Result<(), Memory>
    requires kept { (parts : List Part) × StandsOn reader.old found.old parts None }
    ensures belongs { Belongs reader.new found.new }
    ensures seats { SameSeats reader.old reader.new }
    ensures folder { IsQuiet (F.held files.old) (F.held files.new) (F.faults files.old) (F.faults files.new) }
    ensures text { (parts : List Part) → StandsOn reader.old found.old parts None
        → OnOk result (text.new.items ≡ text.old.items ++ way_got_text target.now parts) }
{
    match reader.get(files, found, target.user.as_slice(), target.seq) {
        Ok(_) => put_shown(text, shown(reader, found)),
        Err(_) => unreachable!(),
    }
}

/// Appends the line of an entry that is shown, or `none`.
fn put_shown(text: &mut Vec<u8>, shown: Option<EntryView<'_>>) -> Result<(), Memory>
    ensures { OnOk result (text.new.items ≡ text.old.items ++ found_text (lent shown.entry)) }
{
    match shown {
        None => {
            text.extend_from_slice(b"none\n")?;
            Ok(())
        }
        Some(entry) => put_ended_line(text, entry),
    }
}
