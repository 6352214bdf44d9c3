//! The command that writes a file of the entries of its input.
ghost use Rattle.std.specs.Prelude.{◌≡◌};
ghost use Rattle.sst_bbt_write.specs.Written.{MayBeChosen};
ghost use Rattle.sst_cli.specs.Behaviour.{Carries, world};
ghost use Rattle.sst_cli.specs.Printed.{IsPrinted};
ghost use Rattle.sst_cli.specs.WriteCommand.{done_text, write_command};

use crate::command::WriteLine;
use crate::commands::produce::produce;
use crate::input::entries::InputStop;
use crate::output::printing::{print, print_refusal, status_of};
use crate::status::Status;
use sst_device::{Folder, Intake, Sink};
use std::alloc::Global;

/// Writes the file of the entries of the input, and prints how many there are or why the input is refused.
pub fn write<F: Folder, I: Intake, O: Sink>(
    alloc: Global,
    line: WriteLine<'_>,
    files: &mut F,
    input: &mut I,
    out: &mut O,
) -> Status
    requires { MayBeChosen line.options }
    ensures { Carries (write_command (record { name = line.entry.name.now; options = line.entry.options }))
        (world (F.held files.old) (I.left input.old) (O.written out.old) (F.faults files.old) (I.faults input.old) (O.faults out.old))
        (world (F.held files.new) (I.left input.new) (O.written out.new) (F.faults files.new) (I.faults input.new) (O.faults out.new))
        result (files.new ≡ files.old) (input.new ≡ input.old) }
{
    match produce(alloc, line, files, input) {
        Ok(count) => print_done(alloc, out, count),
        Err(InputStop::Refused(refusal)) => print_refusal(alloc, out, refusal),
        Err(InputStop::Device(stop)) => status_of(stop),
    }
}

/// Prints how many entries were written.
fn print_done<O: Sink>(alloc: Global, out: &mut O, count: u64) -> Status
    ensures { IsPrinted result (record { status = Status.Done; text = done_text count }) (O.written out.old) (O.written out.new)
        (O.faults out.old) (O.faults out.new) }
{
    match format!(in alloc; "wrote {count}\n") {
        Ok(text) => print(out, text.as_bytes(), Status::Done),
        Err(_) => Status::Memory,
    }
}
