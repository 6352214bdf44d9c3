//! The answers to a list of calls.
ghost use Rattle.std.specs.Prelude.{◌≡◌, ℕ, List, [], ◌++◌, take, Option, None, Some, Ok, Err, IfSome, IfNone, OnOk, OnErr, slice_get, option_and_then};
ghost use Rattle.std.specs.Io.KnownBytes.{append_known};
ghost use Rattle.sst_key.specs.declared.calls.Answer.{Answer as answer_type};
ghost use Rattle.sst_device.specs.Outside.{CountsFaults, OnlyReads};
ghost use Rattle.sst_key.specs.declared.calls.Call.TheVariants as calls;
ghost use Rattle.sst_cli.specs.Answering.{IsMove, IsQuiet, StandBoth, replied, reply_text};
ghost use Rattle.sst_cli.specs.Replies.{answer_line, way_text};
ghost use Rattle.sst_bbt_read.specs.Cursors.{lent};
ghost use Rattle.sst_bbt_read.specs.Kept.{Answers, Keeps, KeptMove, OthersStand, StandsOn};
ghost use Rattle.sst_bbt_read.specs.Positions.{AreTwo, Belongs, IsLost, IsSame};
ghost use Rattle.sst_bbt_read.specs.Seats.{SameSeats, seats_of, open_of};
ghost use Rattle.sst_bbt_spec.specs.Parts.{Part, stored_in};
ghost use Rattle.sst_bbt_spec.specs.PartWay.{answer_in_parts};

use sst_bbt_read::{BbtFault, BbtReader, Cursor, CursorStop};
use sst_device::{DevStop, Folder, Sink, put_all};
use sst_key::{Call, EntryView, Reply, Target};
use sst_num::{Memory, Stop};
use sst_text::put_reply_line;
use std::alloc::Global;

/// How many bytes of text wait before they are put.
pub const PIECE: usize = 65_536;

/// The target of a Get; none for each other call, which moves the position.
fn target_of(call: &Call) -> Option<&Target>
    ensures get { IfSome result (λ target. call.now ≡ calls.Get target.now) }
    ensures move_ { IfNone result (IsMove call.now) }
{
    match call {
        Call::Get(target) => Some(target),
        Call::First => None,
        Call::Last => None,
        Call::Seek(_) => None,
        Call::SeekForPrev(_) => None,
        Call::Next => None,
        Call::Prev => None,
    }
}

/// Moves the position by a call that isn't Get.
fn move_by<F: Folder>(
    reader: &mut BbtReader,
    files: &mut F,
    position: &mut Cursor,
    call: &Call,
) -> Result<Reply, Stop<BbtFault>>
    requires belongs { Belongs reader.old position.old }
    requires move_ { IsMove call.now }
    ensures same { IsSame position.old position.new }
    ensures seats { SameSeats reader.old reader.new }
    ensures folder { OnlyReads (result ≡ Err Stop.Device) (IsLost (F.held files.old) reader.old)
        (F.held files.old) (F.held files.new) (F.faults files.old) (F.faults files.new) }
    ensures kept { KeptMove result reader.old reader.new position.old position.new call.now }
{
    match call {
        Call::Get(_) => unreachable!(),
        Call::First => reader.first(files, position),
        Call::Last => reader.last(files, position),
        Call::Seek(target) => reader.seek(files, position, target.user.as_slice(), target.seq),
        Call::SeekForPrev(target) => {
            reader.seek_for_prev(files, position, target.user.as_slice(), target.seq)
        }
        Call::Next => reader.next(files, position),
        Call::Prev => reader.prev(files, position),
    }
}

/// The reply of a Get, which stops as it stops.
fn reply_of(found: Result<bool, Stop<BbtFault>>) -> Result<Reply, Stop<BbtFault>>
    ensures { result ≡ replied found }
{
    match found {
        Ok(true) => Ok(Reply::Shown),
        Ok(false) => Ok(Reply::None),
        Err(stop) => Err(stop),
    }
}

/// The entry on which a cursor stands, if it stands on one.
pub fn shown<'a>(reader: &'a BbtReader, cursor: &'a Cursor) -> Option<EntryView<'a>>
    requires { Belongs reader.now cursor.now }
    ensures { (parts : List Part) (place : Option ℕ) → StandsOn reader.now cursor.now parts place
        → lent result ≡ option_and_then (λ i. slice_get (stored_in parts) i) place }
{
    if reader.stands(cursor) {
        Some(reader.entry(cursor))
    } else {
        None
    }
}

/// Appends the line of an answer; it shows the entry on which the cursor stands. Where memory runs out, `text` holds its old
/// bytes followed by any.
fn put_line(
    text: &mut Vec<u8>,
    reader: &BbtReader,
    cursor: &Cursor,
    replied: Result<Reply, Stop<BbtFault>>,
    call: &Call,
) -> Result<(), Memory>
    requires { (parts : List Part) × (answer : answer_type) × Answers replied reader.now cursor.now parts answer }
    ensures { (parts : List Part) (answer : answer_type) → Answers replied reader.now cursor.now parts answer
        → OnOk result (text.new.items ≡ text.old.items
        ++ reply_text answer.reply (option_and_then (λ i. slice_get (stored_in parts) i) answer.position) call.now) }
{
    match replied {
        Ok(reply) => put_reply_line(text, reply, shown(reader, cursor), call),
        Err(_) => unreachable!(),
    }
}

/// Answers a call and appends its line. Get leaves the position and moves `found`, every other call moves the position. Where
/// memory runs out, `text` holds its old bytes followed by any.
fn put_answer<F: Folder>(
    reader: &mut BbtReader,
    files: &mut F,
    position: &mut Cursor,
    found: &mut Cursor,
    call: &Call,
    text: &mut Vec<u8>,
) -> Result<(), Memory>
    requires two { AreTwo position.old found.old }
    requires kept { (parts : List Part) × StandBoth reader.old position.old found.old parts }
    ensures line { (parts : List Part) (place : Option ℕ) → StandsOn reader.old position.old parts place
        → OnOk result (text.new.items ≡ text.old.items ++ answer_line (stored_in parts) call.now (answer_in_parts None parts place call.now)) }
    ensures stands { (parts : List Part) (place : Option ℕ) → StandsOn reader.old position.old parts place
        → StandsOn reader.new position.new parts (answer_in_parts None parts place call.now).position }
    ensures both { (parts : List Part) → StandBoth reader.old position.old found.old parts
        → StandBoth reader.new position.new found.new parts }
    ensures same { IsSame position.old position.new × IsSame found.old found.new }
    ensures seats { SameSeats reader.old reader.new }
    ensures folder { IsQuiet (F.held files.old) (F.held files.new) (F.faults files.old) (F.faults files.new) }
{
    match target_of(call) {
        Some(target) => {
            let found_one = reader.get(files, found, target.user.as_slice(), target.seq);
            put_line(text, reader, found, reply_of(found_one), call)
        }
        None => {
            let replied = move_by(reader, files, position, call);
            put_line(text, reader, position, replied, call)
        }
    }
}

/// Prints the text that waits, if it has so many bytes. After an error a prefix of it stands in the sink.
pub fn print_waiting<O: Sink>(out: &mut O, text: &mut Vec<u8>, least: usize) -> Result<(), DevStop>
    ensures ok { OnOk result ((piece : List ℕ) × (text.old.items ≡ piece ++ text.new.items)
        × (O.written out.new ≡ append_known (O.written out.old) piece)) }
    ensures err { OnErr result ((n : ℕ)
        × (O.written out.new ≡ append_known (O.written out.old) (take n text.old.items))) }
    ensures all { OnOk result (least ≡ 0 → text.new.items ≡ []) }
    ensures faults { CountsFaults (result ≡ Err DevStop.Failed) (O.faults out.old) (O.faults out.new) }
{
    if text.len() < least {
        return Ok(());
    }
    put_all(out, text.as_slice())?;
    text.truncate(0);
    Ok(())
}

/// Prints the line of the answer to each call, in order. After an error a prefix of the text stands in the sink.
///
/// The reader has two seats, which no cursor has. The lines are put in pieces of some tens of kilobytes.
pub fn print_answers<F: Folder, O: Sink>(
    alloc: Global,
    reader: &mut BbtReader,
    files: &mut F,
    calls: &[Call],
    out: &mut O,
) -> Result<(), DevStop>
    requires seats { (seats_of reader.old ≡ 2) × (open_of reader.old ≡ 0) }
    requires kept { (parts : List Part) × Keeps reader.old parts }
    ensures shut { open_of reader.new ≡ 0 }
    ensures folder { IsQuiet (F.held files.old) (F.held files.new) (F.faults files.old) (F.faults files.new) }
    ensures all { (parts : List Part) → Keeps reader.old parts
        → OnOk result (O.written out.new ≡ append_known (O.written out.old) (way_text parts calls.now)) }
    ensures err { (parts : List Part) → Keeps reader.old parts
        → OnErr result ((n : ℕ) × (O.written out.new ≡ append_known (O.written out.old) (take n (way_text parts calls.now)))) }
    ensures faults { CountsFaults (result ≡ Err DevStop.Failed) (O.faults out.old) (O.faults out.new) }
{
    match reader.cursor() {
        Ok(mut position) => {
            let printed = print_from(alloc, reader, files, &mut position, calls, out);
            reader.close(position);
            printed
        }
        Err(CursorStop::Full) => unreachable!(),
        Err(CursorStop::Memory) => Err(DevStop::Memory),
    }
}

/// Prints the lines with a cursor for the position, and one more for each Get.
fn print_from<F: Folder, O: Sink>(
    alloc: Global,
    reader: &mut BbtReader,
    files: &mut F,
    position: &mut Cursor,
    calls: &[Call],
    out: &mut O,
) -> Result<(), DevStop>
    requires seats { (seats_of reader.old ≡ 2) × (open_of reader.old ≡ 1) }
    requires kept { (parts : List Part) × StandsOn reader.old position.old parts None }
    ensures belongs { Belongs reader.new position.new }
    ensures seats { open_of reader.new ≡ 1 }
    ensures folder { IsQuiet (F.held files.old) (F.held files.new) (F.faults files.old) (F.faults files.new) }
    ensures all { (parts : List Part) → StandsOn reader.old position.old parts None
        → OnOk result (O.written out.new ≡ append_known (O.written out.old) (way_text parts calls.now)) }
    ensures err { (parts : List Part) → StandsOn reader.old position.old parts None
        → OnErr result ((n : ℕ) × (O.written out.new ≡ append_known (O.written out.old) (take n (way_text parts calls.now)))) }
    ensures faults { CountsFaults (result ≡ Err DevStop.Failed) (O.faults out.old) (O.faults out.new) }
{
    match reader.cursor() {
        Ok(mut found) => {
            let printed = print_lines(alloc, reader, files, position, &mut found, calls, out);
            reader.close(found);
            printed
        }
        Err(CursorStop::Full) => unreachable!(),
        Err(CursorStop::Memory) => Err(DevStop::Memory),
    }
}

/// Prints the lines by two cursors: one has the position, the other is for each Get.
fn print_lines<F: Folder, O: Sink>(
    alloc: Global,
    reader: &mut BbtReader,
    files: &mut F,
    position: &mut Cursor,
    found: &mut Cursor,
    calls: &[Call],
    out: &mut O,
) -> Result<(), DevStop>
    requires two { AreTwo position.old found.old }
    requires kept { (parts : List Part) × StandBoth reader.old position.old found.old parts }
    ensures both { (parts : List Part) × StandBoth reader.new position.new found.new parts }
    ensures same { IsSame position.old position.new × IsSame found.old found.new }
    ensures seats { SameSeats reader.old reader.new }
    ensures folder { IsQuiet (F.held files.old) (F.held files.new) (F.faults files.old) (F.faults files.new) }
    ensures all { (parts : List Part) → StandsOn reader.old position.old parts None
        → OnOk result (O.written out.new ≡ append_known (O.written out.old) (way_text parts calls.now)) }
    ensures err { (parts : List Part) → StandsOn reader.old position.old parts None
        → OnErr result ((n : ℕ) × (O.written out.new ≡ append_known (O.written out.old) (take n (way_text parts calls.now)))) }
    ensures faults { CountsFaults (result ≡ Err DevStop.Failed) (O.faults out.old) (O.faults out.new) }
{
    let mut text = Vec::new(alloc);
    let mut done = 0;
    while done < calls.len() {
        put_answer(reader, files, position, found, &calls[done], &mut text)?;
        print_waiting(out, &mut text, PIECE)?;
        done += 1;
    }
    print_waiting(out, &mut text, 0)
}
