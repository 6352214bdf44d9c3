//! A run of the program over a folder, an input and an output in memory.
use sst_cli::{Status, run};
use sst_device::{Intake, MemFolder, MemIntake, MemSink};
use std::alloc::Global;
use std::test::Fail;

/// The file that is written.
pub const NAME: &str = "one.sst";

/// The words that write it.
pub const WORDS: [&str; 3] = ["write", "block", NAME];

/// The words that answer calls from it.
pub const CALLS: [&str; 2] = ["calls", NAME];

/// An input that isn't taken.
pub const UNTAKEN: &str = "61 1 P 78\n";

/// The file that stands in the folder before each run.
const OTHER: &str = "other.sst";

/// What that file holds.
const OTHER_BYTES: &str = "12345678";

/// The numbers of the calls that fail, counted from 1 for each object.
#[derive(Clone, Copy, Debug)]
pub struct Failing<'a> {
    pub folder: &'a [u64],
    pub intake: &'a [u64],
    pub sink: &'a [u64],
}

/// No call fails.
pub const NONE_FAILS: Failing<'static> = Failing {
    folder: &[],
    intake: &[],
    sink: &[],
};

/// The objects whose calls fail.
#[derive(Clone, Copy, Debug, PartialEq, Eq)]
pub enum Object {
    Folder,
    Intake,
    Sink,
}

/// The calls of one object with these numbers fail.
pub fn failing_at(object: Object, numbers: &[u64]) -> Failing<'_> {
    let mut failing = NONE_FAILS;
    match object {
        Object::Folder => failing.folder = numbers,
        Object::Intake => failing.intake = numbers,
        Object::Sink => failing.sink = numbers,
    }
    failing
}

/// How a run ended, and what it left.
#[derive(Debug, Drop)]
pub struct Ran {
    pub status: Status,
    pub folder: MemFolder,
    pub intake: MemIntake,
    pub sink: MemSink,
}

/// The words as the program is handed them.
pub fn owned(alloc: Global, words: &[&str]) -> Result<Vec<String>, Fail> {
    let mut strings = Vec::new(alloc);
    for word in words {
        strings.push(String::from_str(alloc, word)?)?;
    }
    Ok(strings)
}

/// Runs the program on these words and this input, beside the other file.
pub fn run_on(
    alloc: Global,
    words: &[&str],
    input: &[u8],
    failing: Failing<'_>,
) -> Result<Ran, Fail> {
    let folder = MemFolder::new(alloc, failing.folder)?;
    let intake = MemIntake::new(alloc, input, failing.intake)?;
    let sink = MemSink::new(alloc, failing.sink)?;
    run_over(alloc, words, folder, intake, sink)
}

/// Runs the command that writes a file on an input, with no call outside that fails.
pub fn written(alloc: Global, input: &[u8]) -> Result<Ran, Fail> {
    run_on(alloc, &WORDS, input, NONE_FAILS)
}

/// Runs the command that writes a file with these options.
pub fn written_with(alloc: Global, options: &[&str], input: &[u8]) -> Result<Ran, Fail> {
    let mut words = Vec::new(alloc);
    words.extend_from_slice(&WORDS)?;
    words.extend_from_slice(options)?;
    run_on(alloc, &words, input, NONE_FAILS)
}

/// The file that a run left, or no byte where it left none.
fn file_left(alloc: Global, ran: &Ran) -> Result<Vec<u8>, Fail> {
    match ran.folder.file(NAME) {
        Some(file) => Ok(Vec::from_slice(alloc, file)?),
        None => Ok(Vec::new(alloc)),
    }
}

/// The file that is written for these lines.
pub fn file_of_lines(alloc: Global, lines: &str) -> Result<Vec<u8>, Fail> {
    let ran = written(alloc, lines.as_bytes())?;
    file_left(alloc, &ran)
}

/// The file that is written for these lines with these options.
pub fn file_with_options(alloc: Global, options: &[&str], lines: &str) -> Result<Vec<u8>, Fail> {
    let ran = written_with(alloc, options, lines.as_bytes())?;
    file_left(alloc, &ran)
}

/// Runs the command that answers calls from a file of these bytes.
pub fn answered_with(
    alloc: Global,
    file: &[u8],
    input: &[u8],
    failing: Failing<'_>,
) -> Result<Ran, Fail> {
    let mut folder = MemFolder::new(alloc, failing.folder)?;
    folder.put_file(NAME, file)?;
    let intake = MemIntake::new(alloc, input, failing.intake)?;
    let sink = MemSink::new(alloc, failing.sink)?;
    run_over(alloc, &CALLS, folder, intake, sink)
}

/// Runs the command that answers calls from a file of these bytes, with no call outside that fails.
pub fn answered(alloc: Global, file: &[u8], input: &[u8]) -> Result<Ran, Fail> {
    answered_with(alloc, file, input, NONE_FAILS)
}

/// Runs the program on these words, which ask something of a file of these bytes, beside an input that isn't for them.
pub fn asked(alloc: Global, file: &[u8], words: &[&str]) -> Result<Ran, Fail> {
    let mut folder = MemFolder::new(alloc, &[])?;
    folder.put_file(NAME, file)?;
    let intake = MemIntake::new(alloc, UNTAKEN.as_bytes(), &[])?;
    let sink = MemSink::new(alloc, &[])?;
    run_over(alloc, words, folder, intake, sink)
}

/// Runs the program over an output whose first call takes nothing.
pub fn run_with_stuck_sink(alloc: Global, words: &[&str], input: &[u8]) -> Result<Ran, Fail> {
    let folder = MemFolder::new(alloc, &[])?;
    let intake = MemIntake::new(alloc, input, &[])?;
    let sink = MemSink::stuck(alloc, &[1])?;
    run_over(alloc, words, folder, intake, sink)
}

/// Runs the command that answers calls from a file of these bytes, over an output whose first call takes nothing.
pub fn answered_with_stuck_sink(alloc: Global, file: &[u8], input: &[u8]) -> Result<Ran, Fail> {
    let mut folder = MemFolder::new(alloc, &[])?;
    folder.put_file(NAME, file)?;
    let intake = MemIntake::new(alloc, input, &[])?;
    let sink = MemSink::stuck(alloc, &[1])?;
    run_over(alloc, &CALLS, folder, intake, sink)
}

/// Runs the program over these objects, with the other file in the folder.
fn run_over(
    alloc: Global,
    words: &[&str],
    mut folder: MemFolder,
    mut intake: MemIntake,
    mut sink: MemSink,
) -> Result<Ran, Fail> {
    let words = owned(alloc, words)?;
    folder.put_file(OTHER, OTHER_BYTES.as_bytes())?;
    let status = run(alloc, &words, &mut folder, &mut intake, &mut sink);
    Ok(Ran {
        status,
        folder,
        intake,
        sink,
    })
}

/// The pieces as one text.
pub fn text_of(alloc: Global, pieces: &[&str]) -> Result<String, Fail> {
    let mut text = String::new(alloc);
    for piece in pieces {
        text.push_str(piece)?;
    }
    Ok(text)
}

/// Appends the bytes that hex digits spell.
pub fn put_hex(alloc: Global, bytes: &mut Vec<u8>, digits: &[&str]) -> Result<(), Fail> {
    for piece in digits {
        let piece = hex::decode(alloc, piece.as_bytes())?;
        bytes.extend_from_slice(&piece)?;
    }
    Ok(())
}

/// Whether the named file holds these bytes.
pub fn holds(ran: &Ran, name: &str, bytes: &[u8]) -> bool {
    match ran.folder.file(name) {
        Some(found) => found == bytes,
        None => false,
    }
}

/// Whether this was printed, and nothing else.
pub fn printed(ran: &Ran, text: &str) -> bool {
    ran.sink.bytes() == text.as_bytes()
}

/// Whether this is what the input still has to give.
pub fn still_to_come(ran: &mut Ran, text: &str) -> bool {
    let mut room = [0; 64];
    match ran.intake.take(&mut room) {
        Ok(n) => room.get(..n) == Some(text.as_bytes()),
        Err(_) => false,
    }
}

/// Whether the input was refused with this text, and the other file is as it was.
pub fn refused(ran: &Ran, text: &str) -> bool {
    if ran.status != Status::Input {
        return false;
    }
    if !printed(ran, text) {
        return false;
    }
    other_is_as_it_was(ran)
}

/// Whether the other file is as it was.
pub fn other_is_as_it_was(ran: &Ran) -> bool {
    holds(ran, OTHER, OTHER_BYTES.as_bytes())
}
