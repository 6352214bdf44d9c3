//! The lines of an input read as calls, one by one, up to the first that is refused.
//!
//! Of the input no more than one line and the piece around it is held at a time. The line's number is one
//! more than the count of the calls before it.
ghost use Rattle.std.specs.Prelude.{◌≡◌, ◌≢◌, ℕ, ◌+◌, ◌<◌, ◌≤◌, List, [], length, Some, Ok, Err, IfOk, OnOk};
ghost use Rattle.sst_key.specs.declared.calls.Call.{Call};
ghost use Rattle.sst_text.specs.CallText.{IsInLimits, AreInLimits};
ghost use Rattle.sst_cli.specs.InputReading as reading;
ghost use Rattle.sst_cli.specs.ReadingResult.{IsRefused};
ghost use Rattle.sst_text.specs.Taken.{IsTakenTo};
ghost use Rattle.sst_device.specs.Outside.{CountsFaults};
ghost use Rattle.sst_cli.specs.declared.input.refusal.Refusal.{Refusal};

use crate::input::call_list::Calls;
use crate::input::entries::{InputStop, next_line, refused};
use crate::input::refusal::Reason;
use sst_device::{DevStop, Intake};
use sst_key::Call;
use sst_text::{LineReader, call_of_line};
use std::alloc::Global;

/// The most calls that an input has.
const CALL_LIMIT: usize = 1_048_576;

/// The call of a line, which comes after so many calls.
fn call_after(alloc: Global, line: &[u8], count: usize) -> Result<Call, InputStop>
    requires short { length line.now ≤ 40000000 }
    requires few { count ≤ 1048576 }
    ensures ok { IfOk result (λ call. (calls : List Call) → count ≡ length calls
        → reading.read_call calls line.now ≡ Ok call) }
    ensures limits { IfOk result IsInLimits }
    ensures few { OnOk result (count < 1048576) }
    ensures refused { (refusal : Refusal) → result ≡ Err (InputStop.Refused refusal)
        → (calls : List Call) → count ≡ length calls → IsRefused (reading.read_call calls line.now) (count + 1) refusal }
    ensures failed { result ≢ Err (InputStop.Device DevStop.Failed) }
{
    let number = count as u64 + 1;
    match call_of_line(alloc, line)? {
        None => Err(refused(number, Reason::Line)),
        Some(call) => {
            if count < CALL_LIMIT {
                Ok(call)
            } else {
                Err(refused(number, Reason::Many))
            }
        }
    }
}

/// Reads all lines of the input, which it reads to its end, as calls.
///
/// The first line that isn't a call line, is too long or is one too many is refused, and at most one piece past it is
/// taken.
pub fn read_calls<I: Intake>(alloc: Global, input: &mut I) -> Result<Calls, InputStop>
    ensures ok { IfOk result (λ calls. (text : List ℕ) → I.left input.old ≡ Some text
        → (reading.read_calls text ≡ Ok calls) × (I.left input.new ≡ Some [])) }
    ensures limits { IfOk result AreInLimits }
    ensures refused { (refusal : Refusal) → result ≡ Err (InputStop.Refused refusal)
        → (text : List ℕ) → I.left input.old ≡ Some text → reading.read_calls text ≡ Err refusal }
    ensures near { (refusal : Refusal) → result ≡ Err (InputStop.Refused refusal)
        → (text : List ℕ) → I.left input.old ≡ Some text → IsTakenTo refusal.line text (I.left input.new) }
    ensures faults { CountsFaults (result ≡ Err (InputStop.Device DevStop.Failed)) (I.faults input.old) (I.faults input.new) }
{
    let mut lines = LineReader::new(alloc);
    let mut calls = Calls::new(alloc);
    loop {
        let count = calls.len();
        match next_line(&mut lines, input, count as u64 + 1)? {
            None => return Ok(calls),
            Some(n) => {
                let call = call_after(alloc, lines.front(n), count)?;
                calls.push(call)?;
                lines.pass(n);
            }
        }
    }
}
