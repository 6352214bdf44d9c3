//! The program: from words to a status.
ghost use Rattle.std.specs.Prelude.{◌≡◌, ◌⊎◌, ℕ, ◌≤◌, List, length, map, Option, Some};
ghost use Rattle.std.specs.Option.{option_map};
ghost use Rattle.std.specs.String.{string_bytes};
ghost use Rattle.sst_key.specs.declared.calls.Call.{Call};
ghost use Rattle.sst_key.specs.declared.entries.Entry.{Entry};
ghost use Rattle.sst_device.specs.Folder.{Files, file_of};
ghost use Rattle.sst_text.specs.CallText.{calls_text, AreInLimits, AreOfBytes};
ghost use Rattle.sst_text.specs.EntryText.{lines_text, AreBytes};
ghost use Rattle.sst_bbt_spec.specs.BlockBased.{BlockBased};
ghost use Rattle.sst_bbt_write.specs.Written.{Fits, MayBeChosen};
ghost use Rattle.sst_cli.specs.Behaviour.{CallsFor, Carries, Ends, HasFailed, IsFault, MayPrint, tells, world};
ghost use Rattle.sst_cli.specs.CallsCommand.{Answered};
ghost use Rattle.sst_cli.specs.Command as commands;
ghost use Rattle.sst_cli.specs.Command.{behaviour, command_of, seen};
ghost use Rattle.sst_cli.specs.NoCommand.{no_command};
ghost use Rattle.sst_cli.specs.Printed.{Prints};
ghost use Rattle.sst_cli.specs.Words as line;
ghost use Rattle.sst_cli.specs.Words.{WriteLine};
ghost use Rattle.sst_cli.specs.WriteCommand.{Wrote};

use crate::command::{Command, command_of};
use crate::commands::calls::calls;
use crate::commands::get::get;
use crate::commands::scan::scan;
use crate::commands::write::write;
use crate::output::printing::print;
use crate::status::Status;
use sst_device::{Folder, Intake, Sink};
use sst_num::Memory;
use std::alloc::Global;

/// What is printed for words that are no command.
const USAGE: &str = "usage\n";

/// Runs the program on its words, which are those after its name, over a folder, an input and an output.
///
/// There are four commands, and neither OUT nor FILE is empty:
///
/// - `write block OUT`, perhaps with options, `version=N`, `block=N`, `restart=N`, `index-restart=N` and `parts=N`: the input is a
///   list of entry lines; OUT is begun, and holds the block-based file of the list at the end, as the options say
///   (docs/USAGE.md). No line after the first that is refused is looked at.
/// - `calls FILE`: the input is a list of call lines; each is answered from the list that FILE stands for, in order, as
///   from one position. The whole input is read and checked before FILE is opened. No file changes. Where the
///   separators in the index of FILE don't separate its data blocks, FILE stands for no list; then Get, Seek and
///   SeekForPrev go by the index, and may miss entries that First and Next show (`answer_in_parts`, sst_bbt_spec).
/// - `get FILE USER SEQ`: one Get is answered from the list that FILE stands for, of a user key and a snapshot as a call line
///   has them. The input isn't touched, and no file changes.
///
/// Lines of text are printed, each with LF at its end. The status that is answered stands for a number:
///
/// ```text
/// number  status     when                                        printed
/// 0       Done       the list was written                        wrote N, how many entries
///                    the calls were answered                     a line for each call
///                    the Get was answered                        the entry's line, or none
///                    the entries were listed                     a line for each entry
/// 1       Usage      the words are no command                    usage
/// 2       Input      a line is refused                           input N REASON, N from 1
/// 3       File       FILE is damaged, or not of a form that is   damage FAULT
///                    read yet
/// 4       Exhausted  never, for now
/// 5       Device     the folder, the input or the output failed, a prefix of the text, or nothing
///                    or FILE isn't there
/// 6       Memory     memory ran out                              a prefix of the text, or nothing
/// ```
///
/// REASON is the first of: `line-long`, more than 40,000,000 bytes before the line's LF; `line`, no entry
/// line or call line, or without LF; `many`, 1,048,576 call lines before it; `not-increasing`, not after the entry
/// before; `key-long`, a user key of more than 65,536 bytes; `value-long`, a value of more than 16,777,216 bytes;
/// `heavy`, a list of more than 2^28, where each entry counts its key, its value and 64.
///
/// FAULT is the first thing that is wrong with FILE, in this order: its length, its footer, the metaindex, the properties,
/// a form that isn't read yet, the top block of the index, each part of it with its data blocks. docs/USAGE.md lists them.
///
/// The words, the texts and the limits are this project's own.
pub fn run<F: Folder, I: Intake, O: Sink>(
    alloc: Global,
    words: &[String],
    files: &mut F,
    input: &mut I,
    out: &mut O,
) -> Status
    // The write clause of the headline: each list that fits is written, from the text of its entries.
    ensures headline_write { (write : WriteLine) (entries : List Entry) → line.write_line (map string_bytes words.now) ≡ Some write
        → Fits entries → AreBytes entries → I.left input.old ≡ Some (lines_text entries)
        → IsFault result ⊎ Wrote result write entries (F.held files.old) (F.held files.new) (I.left input.new)
        (O.written out.old) (O.written out.new) }

    // The calls clause of the headline: on each file that stands for a list, each list of calls is answered as the list
    // answers, from the text of the calls.
    ensures headline_calls { (name file : List ℕ) (entries : List Entry) (calls : List Call)
        → line.calls_name (map string_bytes words.now) ≡ Some name
        → file_of (F.held files.old) name ≡ Some file → BlockBased file entries
        → length calls ≤ 1048576 → AreInLimits calls → AreOfBytes calls → I.left input.old ≡ Some (calls_text calls)
        → IsFault result ⊎ Answered result entries calls (F.held files.old) (F.held files.new) (I.left input.new)
        (O.written out.old) (O.written out.new) }

    // The rest speaks of the behaviour of the command that the words are, whichever it is. The run finds what that says, and
    // comes to its end so; or it is stopped, with a prefix of the text printed, or nothing.
    ensures ends { Ends (behaviour (command_of (map string_bytes words.now)))
        (world (F.held files.old) (I.left input.old) (O.written out.old) (F.faults files.old) (I.faults input.old) (O.faults out.old))
        (world (F.held files.new) (I.left input.new) (O.written out.new) (F.faults files.new) (I.faults input.new) (O.faults out.new)) result }

    // The status, but for a fault and for out of memory, goes with something that the command may find.
    ensures called { IsFault result ⊎ CallsFor (behaviour (command_of (map string_bytes words.now))) (tells (F.held files.old) (I.left input.old)) result }

    // Device goes with something that the command may find, or with a counted fault.
    ensures device { result ≡ Status.Device → CallsFor (behaviour (command_of (map string_bytes words.now))) (tells (F.held files.old) (I.left input.old)) Status.Device
        ⊎ HasFailed (world (F.held files.old) (I.left input.old) (O.written out.old) (F.faults files.old) (I.faults input.old) (O.faults out.old))
        (world (F.held files.new) (I.left input.new) (O.written out.new) (F.faults files.new) (I.faults input.new) (O.faults out.new)) }

    // What is printed: nothing, or a text that goes with something that the command may find, whole or cut short by a fault.
    ensures printed { (O.written out.new ≡ O.written out.old) ⊎ ((text : List ℕ)
        × MayPrint (behaviour (command_of (map string_bytes words.now))) (tells (F.held files.old) (I.left input.old)) text
        × Prints result text (O.written out.old) (O.written out.new)) }

    // What may become of the files, whatever the status.
    ensures changes { (behaviour (command_of (map string_bytes words.now))).MayChange (F.held files.old) (F.held files.new) }

    // Each fault that was counted is told as one.
    ensures hides_none { (result ≡ Status.Device)
        ⊎ ((F.faults files.new ≡ F.faults files.old) × ((I.faults input.new ≡ I.faults input.old) × (O.faults out.new ≡ O.faults out.old))) }

    // When the folder isn't touched, and when the input isn't.
    ensures spares_folder { (behaviour (command_of (map string_bytes words.now))).SparesFolder (tells (F.held files.old) (I.left input.old)) result → files.new ≡ files.old }
    ensures spares_input { (behaviour (command_of (map string_bytes words.now))).SparesInput (tells (F.held files.old) (I.left input.old)) result → input.new ≡ input.old }
{
    carry_out_words(alloc, words, files, input, out)
}

/// Carries out the command that the words are.
fn carry_out_words<F: Folder, I: Intake, O: Sink>(
    alloc: Global,
    words: &[String],
    files: &mut F,
    input: &mut I,
    out: &mut O,
) -> Status
    ensures { Carries (behaviour (command_of (map string_bytes words.now)))
        (world (F.held files.old) (I.left input.old) (O.written out.old) (F.faults files.old) (I.faults input.old) (O.faults out.old))
        (world (F.held files.new) (I.left input.new) (O.written out.new) (F.faults files.new) (I.faults input.new) (O.faults out.new))
        result (files.new ≡ files.old) (input.new ≡ input.old) }
{
    match command_of(alloc, words) {
        Ok(command) => carry_out(alloc, command, files, input, out),
        Err(Memory) => Status::Memory,
    }
}

/// Carries out a command, or says that the words are none.
fn carry_out<F: Folder, I: Intake, O: Sink>(
    alloc: Global,
    command: Option<Command<'_>>,
    files: &mut F,
    input: &mut I,
    out: &mut O,
) -> Status
    requires { (write : WriteLine) → option_map seen command ≡ Some (commands.Write write) → MayBeChosen write.options }
    ensures { Carries (behaviour (option_map seen command.entry))
        (world (F.held files.old) (I.left input.old) (O.written out.old) (F.faults files.old) (I.faults input.old) (O.faults out.old))
        (world (F.held files.new) (I.left input.new) (O.written out.new) (F.faults files.new) (I.faults input.new) (O.faults out.new))
        result (files.new ≡ files.old) (input.new ≡ input.old) }
{
    match command {
        Some(Command::Write(line)) => write(alloc, line, files, input, out),
        Some(Command::Calls(name)) => calls(alloc, name, files, input, out),
        Some(Command::Get(line)) => get(alloc, line, files, out),
        Some(Command::Scan(line)) => scan(alloc, line, files, out),
        None => print_usage(out),
    }
}

/// Says that the words are no command.
fn print_usage<O: Sink>(out: &mut O) -> Status
    ensures { (held : Option Files) (left : Option (List ℕ)) (folder intake : ℕ) → Carries no_command
        (world held left (O.written out.old) folder intake (O.faults out.old))
        (world held left (O.written out.new) folder intake (O.faults out.new)) result (Unit {0}) (Unit {0}) }
{
    print(out, USAGE.as_bytes(), Status::Usage)
}
