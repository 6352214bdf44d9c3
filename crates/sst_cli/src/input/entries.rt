//! The lines of an input added to a writer, one by one, up to the first that is refused.
//!
//! Of the input no more than one line and the piece around it is held at a time, and no memory is taken for an entry but
//! where it is longer than those before it. The line's number is one
//! more than the count of the writer.
ghost use Rattle.std.specs.Prelude.{◌≡◌, ◌≢◌, ℕ, ◌<◌, ◌≤◌, ◌^◌, List, [], length, Some, Ok, Err, IfOk, OnOk};
ghost use Rattle.std.specs.Io.KnownBytes.{prepend_known};
ghost use Rattle.sst_key.specs.Entry.{entry_of};
ghost use Rattle.sst_key.specs.declared.entries.Entry.{Entry};
ghost use Rattle.sst_bbt_write.specs.After.{After};
ghost use Rattle.sst_cli.specs.InputReading as reading;
ghost use Rattle.sst_cli.specs.InputReading.{refused_at};
ghost use Rattle.sst_cli.specs.NextLine.{IsNext, HasNoLine};
ghost use Rattle.sst_text.specs.Taken.{past_line, IsTakenTo};
ghost use Rattle.sst_cli.specs.ReadingResult.{HasAdded, IsRefused, HoldsInput};
ghost use Rattle.sst_device.specs.Outside.{CountsFaults};
ghost use Rattle.sst_bbt_write.specs.declared.bbt_options.BbtOptions.{BbtOptions};
ghost use Rattle.sst_cli.specs.declared.input.refusal.Refusal.{Refusal};
ghost use Rattle.sst_cli.specs.declared.input.entries.InputStop.TheVariants as stop;
ghost use Rattle.sst_device.specs.declared.folder.DevStop.TheVariants as device;

use crate::input::refusal::{Reason, Refusal};
use sst_bbt_write::BbtWriter;
use sst_device::{DevStop, Intake};
use sst_key::EntryView;
use sst_num::{Memory, Refused};
use sst_text::{EntryRoom, Found, LineReader};
use std::alloc::Global;

/// Why the input of a command gave nothing.
#[derive(Clone, Copy, Debug, PartialEq, Eq)]
pub enum InputStop {
    /// The input is refused.
    Refused(Refusal),
    /// An object outside failed, or memory ran out.
    Device(DevStop),
}

impl From<DevStop> for InputStop {
    ghost from_gives = { λ d s. s ≡ stop.Device d };

    fn from(d: DevStop) -> InputStop {
        InputStop::Device(d)
    }
}

impl From<Memory> for InputStop {
    ghost from_gives = { λ _ s. s ≡ stop.Device device.Memory };

    fn from(_memory: Memory) -> InputStop {
        InputStop::Device(DevStop::Memory)
    }
}

/// A refusal as the answer of a reading call.
pub fn refused(line: u64, reason: Reason) -> InputStop
    ensures { result ≡ stop.Refused (refused_at line reason) }
{
    InputStop::Refused(Refusal { line, reason })
}

/// Reads on to the end of the next line, which has this number, and answers how many bytes stand before its end:
/// None where the input has ended.
pub fn next_line<I: Intake>(
    lines: &mut LineReader,
    input: &mut I,
    number: u64,
) -> Result<Option<usize>, InputStop>
    ensures told { IfOk result (λ _. prepend_known lines.old (I.left input.old) ≡ prepend_known lines.new (I.left input.new)) }
    ensures next { IfOk result (λ next. IsNext next lines.new (I.left input.new)) }
    ensures refused { (refusal : Refusal) → result ≡ Err (InputStop.Refused refusal)
        → (text : List ℕ) → prepend_known lines.old (I.left input.old) ≡ Some text → HasNoLine number text refusal }
    ensures close { length lines.old ≤ 65536 → IfOk result (λ _. length (past_line lines.new) ≤ 65536) }
    ensures near { length lines.old ≤ 65536 → (refusal : Refusal) → result ≡ Err (InputStop.Refused refusal)
        → (text : List ℕ) → prepend_known lines.old (I.left input.old) ≡ Some text → IsTakenTo 1 text (I.left input.new) }
    ensures faults { CountsFaults (result ≡ Err (InputStop.Device DevStop.Failed)) (I.faults input.old) (I.faults input.new) }
{
    match lines.read_line(input)? {
        Found::Line(n) => Ok(Some(n)),
        Found::End => Ok(None),
        Found::Long => Err(refused(number, Reason::LineLong)),
        Found::Unended => Err(refused(number, Reason::Line)),
    }
}

/// Adds an entry, which stands in the line of this number, to the writer.
fn add_entry(
    writer: &mut BbtWriter,
    e: EntryView<'_>,
    number: u64,
    file: &mut Vec<u8>,
) -> Result<(), InputStop>
    requires seq { e.seq < 2 ^ 56 }
    requires writer { (options : BbtOptions) × (entries : List Entry) × (bytes : List ℕ) × After writer.old options entries bytes }
    ensures ok { OnOk result ((options : BbtOptions) (entries : List Entry) (bytes line : List ℕ) → After writer.old options entries bytes
        → reading.read_line entries line ≡ reading.by_entry entries (Some (entry_of e.entry))
        → HasAdded options entries bytes line writer.new file.old.items file.new.items) }
    ensures refused { (refusal : Refusal) → result ≡ Err (InputStop.Refused refusal)
        → (options : BbtOptions) (entries : List Entry) (bytes line : List ℕ) → After writer.old options entries bytes
        → reading.read_line entries line ≡ reading.by_entry entries (Some (entry_of e.entry))
        → IsRefused (reading.read_line entries line) number refusal }
    ensures failed { result ≢ Err (InputStop.Device DevStop.Failed) }
{
    match writer.add(e, file) {
        Ok(()) => Ok(()),
        Err(Refused::Cause(fault)) => Err(refused(number, Reason::Refused(fault))),
        Err(Refused::Memory) => Err(InputStop::Device(DevStop::Memory)),
    }
}

/// Adds the entry of a line, which has this number, to the writer. `room` is room for it.
pub fn add_line(
    writer: &mut BbtWriter,
    room: &mut EntryRoom,
    line: &[u8],
    number: u64,
    file: &mut Vec<u8>,
) -> Result<(), InputStop>
    requires short { length line.now ≤ 40000000 }
    requires writer { (options : BbtOptions) × (entries : List Entry) × (bytes : List ℕ) × After writer.old options entries bytes }
    ensures ok { OnOk result ((options : BbtOptions) (entries : List Entry) (bytes : List ℕ) → After writer.old options entries bytes
        → HasAdded options entries bytes line.now writer.new file.old.items file.new.items) }
    ensures refused { (refusal : Refusal) → result ≡ Err (InputStop.Refused refusal)
        → (options : BbtOptions) (entries : List Entry) (bytes : List ℕ) → After writer.old options entries bytes
        → IsRefused (reading.read_line entries line.now) number refusal }
    ensures failed { result ≢ Err (InputStop.Device DevStop.Failed) }
{
    if room.read(line)? {
        add_entry(writer, room.entry(), number, file)
    } else {
        Err(refused(number, Reason::Line))
    }
}

/// Adds the entries of all lines of the input, which it reads to its end, to a writer of no entry.
///
/// At most one piece past a line that is refused is taken. `file` takes what the writer appends; it is empty before.
pub fn add_lines<I: Intake>(
    alloc: Global,
    writer: &mut BbtWriter,
    input: &mut I,
    file: &mut Vec<u8>,
) -> Result<(), InputStop>
    requires writer { (options : BbtOptions) × After writer.old options [] [] }
    requires empty { file.old.items ≡ [] }
    ensures ok { OnOk result ((options : BbtOptions) → After writer.old options [] []
        → HoldsInput writer.new options file.new.items (I.left input.old) (I.left input.new)) }
    ensures refused { (refusal : Refusal) → result ≡ Err (InputStop.Refused refusal)
        → (text : List ℕ) → I.left input.old ≡ Some text → reading.read_input text ≡ Err refusal }
    ensures near { (refusal : Refusal) → result ≡ Err (InputStop.Refused refusal)
        → (text : List ℕ) → I.left input.old ≡ Some text → IsTakenTo refusal.line text (I.left input.new) }
    ensures faults { CountsFaults (result ≡ Err (InputStop.Device DevStop.Failed)) (I.faults input.old) (I.faults input.new) }
{
    let mut room = EntryRoom::new(alloc);
    let mut lines = LineReader::new(alloc);
    loop {
        let number = writer.count() + 1;
        match next_line(&mut lines, input, number)? {
            None => return Ok(()),
            Some(n) => {
                add_line(writer, &mut room, lines.front(n), number, file)?;
                lines.pass(n);
            }
        }
    }
}
