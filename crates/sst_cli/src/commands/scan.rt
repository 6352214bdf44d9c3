//! The command that lists the entries of a file: all of them, or those that a snapshot sees.
ghost use Rattle.std.specs.Prelude.{◌≡◌, ℕ, List, Option};
ghost use Rattle.sst_bbt_read.specs.Kept.{Keeps};
ghost use Rattle.sst_bbt_read.specs.Seats.{open_of, seats_of};
ghost use Rattle.sst_bbt_spec.specs.Parts.{Part};
ghost use Rattle.sst_cli.specs.Answering.{IsQuiet};
ghost use Rattle.sst_cli.specs.Behaviour.{Carries, world};
ghost use Rattle.sst_cli.specs.OpenFile.{done_with};
ghost use Rattle.sst_cli.specs.Printed.{IsPrinted};
ghost use Rattle.sst_cli.specs.ScanCommand.{scan_command, scan_text};

use crate::command::ScanLine;
use crate::commands::calls::print_fault;
use crate::output::listing::print_entries;
use crate::output::printing::status_of;
use crate::status::Status;
use sst_bbt_read::BbtReader;
use sst_device::{Folder, Sink};
use sst_num::Stop;
use std::alloc::Global;

/// Prints the line of each entry of the named file, or of those that the snapshot sees, or what is wrong with the file.
pub fn scan<F: Folder, O: Sink>(
    alloc: Global,
    line: ScanLine<'_>,
    files: &mut F,
    out: &mut O,
) -> Status
    ensures { (left : Option (List ℕ)) (intake : ℕ) → Carries (scan_command (record { name = line.entry.name.now; snapshot = line.entry.snapshot }))
        (world (F.held files.old) left (O.written out.old) (F.faults files.old) intake (O.faults out.old))
        (world (F.held files.new) left (O.written out.new) (F.faults files.new) intake (O.faults out.new))
        result (files.new ≡ files.old) (Unit {0}) }
{
    match BbtReader::open(alloc, files, line.name, 1, 0) {
        Ok(reader) => print_all(alloc, reader, files, line.snapshot, out),
        Err(Stop::Damage(fault)) => print_fault(alloc, out, fault),
        Err(Stop::Device) => Status::Device,
        Err(Stop::Memory) => Status::Memory,
    }
}

/// Prints the entries of an open file.
fn print_all<F: Folder, O: Sink>(
    alloc: Global,
    reader: BbtReader,
    files: &mut F,
    snapshot: Option<u64>,
    out: &mut O,
) -> Status
    requires seats { (seats_of reader ≡ 1) × (open_of reader ≡ 0) }
    requires kept { (parts : List Part) × Keeps reader parts }
    ensures printed { (parts : List Part) → Keeps reader parts
        → IsPrinted result (done_with (scan_text snapshot parts)) (O.written out.old) (O.written out.new) (O.faults out.old) (O.faults out.new) }
    ensures folder { IsQuiet (F.held files.old) (F.held files.new) (F.faults files.old) (F.faults files.new) }
{
    let mut table = reader;
    let printed = print_entries(alloc, &mut table, files, snapshot, out);
    table.shut();
    match printed {
        Ok(()) => Status::Done,
        Err(stop) => status_of(stop),
    }
}
