//! What a command prints, and the status that goes with it.
ghost use Rattle.std.specs.Prelude.{◌≡◌};
ghost use Rattle.sst_cli.specs.Behaviour.{IsFault};
ghost use Rattle.sst_cli.specs.Printed.{IsPrinted};
ghost use Rattle.sst_cli.specs.Refusals.{refusal_text};

use crate::input::refusal::{Refusal, refusal_line};
use crate::status::Status;
use sst_device::{DevStop, Sink, put_all};
use sst_num::Memory;
use std::alloc::Global;

/// The status of a call outside that stopped.
pub fn status_of(stop: DevStop) -> Status
    ensures fault { IsFault result }
    ensures device { result ≡ Status.Device → stop ≡ DevStop.Failed }
    ensures failed { stop ≡ DevStop.Failed → result ≡ Status.Device }
{
    match stop {
        DevStop::Failed => Status::Device,
        DevStop::Memory => Status::Memory,
    }
}

/// Prints a text, and answers the status that goes with it.
pub fn print<O: Sink>(out: &mut O, text: &[u8], status: Status) -> Status
    ensures { IsPrinted result (record { status = status; text = text.now }) (O.written out.old) (O.written out.new)
        (O.faults out.old) (O.faults out.new) }
{
    match put_all(out, text) {
        Ok(()) => status,
        Err(stop) => status_of(stop),
    }
}

/// Prints why the input is refused.
pub fn print_refusal<O: Sink>(alloc: Global, out: &mut O, refusal: Refusal) -> Status
    ensures { IsPrinted result (record { status = Status.Input; text = refusal_text refusal }) (O.written out.old) (O.written out.new)
        (O.faults out.old) (O.faults out.new) }
{
    match refusal_line(alloc, refusal) {
        Ok(text) => print(out, text.as_bytes(), Status::Input),
        Err(Memory) => Status::Memory,
    }
}
