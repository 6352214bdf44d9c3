//! The command that answers calls from a file: the input is read and checked as a whole before the file is opened.
ghost use Rattle.std.specs.Prelude.{◌≡◌, ℕ, List, [], Option};
ghost use Rattle.sst_bbt_read.specs.Kept.{Keeps};
ghost use Rattle.sst_bbt_read.specs.Seats.{seats_of, open_of};
ghost use Rattle.sst_bbt_spec.specs.Parts.{Part};
ghost use Rattle.sst_cli.specs.Answering.{IsQuiet};
ghost use Rattle.sst_cli.specs.Behaviour.{Carries, world};
ghost use Rattle.sst_cli.specs.CallsCommand.{answers_of, calls_command};
ghost use Rattle.sst_cli.specs.OpenFile.{cut_by, on_file};
ghost use Rattle.sst_cli.specs.Printed.{IsPrinted};

use crate::input::calls::read_calls;
use crate::input::entries::InputStop;
use crate::output::answers::print_answers;
use crate::output::damage::fault_line;
use crate::output::printing::{print, print_refusal, status_of};
use crate::status::Status;
use sst_bbt_read::{BbtFault, BbtReader};
use sst_device::{Folder, Intake, Sink};
use sst_key::Call;
use sst_num::{Memory, Stop};
use std::alloc::Global;

/// Answers the calls of the input from the named file, and prints a line for each, or why the input is refused, or what
/// is wrong with the file.
pub fn calls<F: Folder, I: Intake, O: Sink>(
    alloc: Global,
    name: &str,
    files: &mut F,
    input: &mut I,
    out: &mut O,
) -> Status
    ensures { Carries (calls_command name.now)
        (world (F.held files.old) (I.left input.old) (O.written out.old) (F.faults files.old) (I.faults input.old) (O.faults out.old))
        (world (F.held files.new) (I.left input.new) (O.written out.new) (F.faults files.new) (I.faults input.new) (O.faults out.new))
        result (files.new ≡ files.old) (input.new ≡ input.old) }
{
    match read_calls(alloc, input) {
        Ok(calls) => answer_calls(alloc, name, calls.as_slice(), files, out),
        Err(InputStop::Refused(refusal)) => print_refusal(alloc, out, refusal),
        Err(InputStop::Device(stop)) => status_of(stop),
    }
}

/// Answers calls from the named file.
fn answer_calls<F: Folder, O: Sink>(
    alloc: Global,
    name: &str,
    calls: &[Call],
    files: &mut F,
    out: &mut O,
) -> Status
    ensures { (left : Option (List ℕ)) (intake : ℕ) → Carries (on_file name.now (answers_of calls.now))
        (world (F.held files.old) left (O.written out.old) (F.faults files.old) intake (O.faults out.old))
        (world (F.held files.new) left (O.written out.new) (F.faults files.new) intake (O.faults out.new))
        result (files.new ≡ files.old) (Unit {0}) }
{
    match BbtReader::open(alloc, files, name, 2, 0) {
        Ok(reader) => print_all(alloc, reader, files, calls, out),
        Err(Stop::Damage(fault)) => print_fault(alloc, out, fault),
        Err(Stop::Device) => Status::Device,
        Err(Stop::Memory) => Status::Memory,
    }
}

/// Prints the answers of an open file, by two cursors: one has the position, the other is for each Get.
fn print_all<F: Folder, O: Sink>(
    alloc: Global,
    reader: BbtReader,
    files: &mut F,
    calls: &[Call],
    out: &mut O,
) -> Status
    requires seats { (seats_of reader ≡ 2) × (open_of reader ≡ 0) }
    requires kept { (parts : List Part) × Keeps reader parts }
    ensures printed { (parts : List Part) → Keeps reader parts
        → IsPrinted result (answers_of calls.now parts) (O.written out.old) (O.written out.new) (O.faults out.old) (O.faults out.new) }
    ensures folder { IsQuiet (F.held files.old) (F.held files.new) (F.faults files.old) (F.faults files.new) }
{
    let mut table = reader;
    let printed = print_answers(alloc, &mut table, files, calls, out);
    table.shut();
    match printed {
        Ok(()) => Status::Done,
        Err(stop) => status_of(stop),
    }
}

/// Prints what is wrong with a file.
pub fn print_fault<O: Sink>(alloc: Global, out: &mut O, fault: BbtFault) -> Status
    ensures { IsPrinted result (cut_by [] fault) (O.written out.old) (O.written out.new) (O.faults out.old) (O.faults out.new) }
{
    match fault_line(alloc, fault) {
        Ok(text) => print(out, text.as_bytes(), Status::File),
        Err(Memory) => Status::Memory,
    }
}
