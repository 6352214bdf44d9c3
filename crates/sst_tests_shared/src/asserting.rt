//! What a run has to come to. Each of these fails with a text that says what is otherwise, and on which input.
//!
//! They are functions of a library, which may not stop the program, so that a test hands their failure on by `?`.
use crate::worked_run::{
    NAME, NONE_FAILS, Ran, UNTAKEN, answered, asked, holds, other_is_as_it_was, printed, run_on,
    still_to_come,
};
use sst_cli::Status;
use std::alloc::Global;
use std::test::Fail;

/// What a run left otherwise than as told, if there is such a thing: how it ended, what it printed, what of the input
/// is still to come, or the other file.
fn otherwise(ran: &mut Ran, status: Status, text: &str, to_come: &str) -> Option<&'static str> {
    if ran.status != status {
        return Some("the status");
    }
    if !printed(ran, text) {
        return Some("what is printed");
    }
    if !other_is_as_it_was(ran) {
        return Some("the other file");
    }
    if !still_to_come(ran, to_come) {
        return Some("what of the input is still to come");
    }
    None
}

/// The same, and whether the file that is answered from is as it was.
fn otherwise_after_calls(ran: &mut Ran, file: &[u8], text: &str) -> Option<&'static str> {
    if !holds(ran, NAME, file) {
        return Some("the file");
    }
    otherwise(ran, Status::Done, text, "")
}

/// The same, whatever the status, and where nothing of the input was taken.
fn otherwise_after_question(
    ran: &mut Ran,
    file: &[u8],
    status: Status,
    text: &str,
) -> Option<&'static str> {
    if !holds(ran, NAME, file) {
        return Some("the file");
    }
    otherwise(ran, status, text, UNTAKEN)
}

/// The same, and whether there is no file.
fn otherwise_after_usage(ran: &mut Ran, input: &str) -> Option<&'static str> {
    if ran.folder.file(NAME).is_some() {
        return Some("the file");
    }
    otherwise(ran, Status::Usage, "usage\n", input)
}

/// Asserts that the calls are answered from the file with this text, that the input is read to its end, and that no
/// file changes.
pub fn assert_answered(alloc: Global, file: &[u8], calls: &str, text: &str) -> Result<(), Fail> {
    let mut ran = answered(alloc, file, calls.as_bytes())?;
    match otherwise_after_calls(&mut ran, file, text) {
        None => Ok(()),
        Some(what) => Err(Fail::new(format_args!("{what} is otherwise on {calls}"))),
    }
}

/// Asserts what is told where the words are run on the file, that the input isn't touched, and that no file changes.
pub fn assert_told(
    alloc: Global,
    file: &[u8],
    words: &[&str],
    status: Status,
    text: &str,
) -> Result<(), Fail> {
    let mut ran = asked(alloc, file, words)?;
    match otherwise_after_question(&mut ran, file, status, text) {
        None => Ok(()),
        Some(what) => Err(Fail::new(format_args!("{what} is otherwise on {words:?}"))),
    }
}

/// Asserts that the words are no command: nothing is touched but the output.
pub fn assert_no_command(alloc: Global, words: &[&str], input: &str) -> Result<(), Fail> {
    let mut ran = run_on(alloc, words, input.as_bytes(), NONE_FAILS)?;
    match otherwise_after_usage(&mut ran, input) {
        None => Ok(()),
        Some(what) => Err(Fail::new(format_args!("{what} is otherwise on {words:?}"))),
    }
}
