//! Calls that aren't answered: inputs that are refused, a file that isn't there, and calls outside that fail.
//!
//! The texts are worked by hand. They are this project's own.
use sst_cli::Status;
use sst_tests_shared::small_file::bare_file;
use sst_tests_shared::worked_run::{
    CALLS, NAME, NONE_FAILS, Object, Ran, answered, answered_with, answered_with_stuck_sink,
    failing_at, file_of_lines, holds, other_is_as_it_was, printed, refused, run_on, still_to_come,
};
use std::alloc::Global;
use std::process::Abort;
use std::test::Fail;

/// A good input.
const LINE: &str = "get 61 1\n";

/// Lines that are no call lines.
static NO_CALL_LINES: [&str; 40] = [
    // No line end.
    "first",
    "get 61 1",
    // Names.
    "\n",
    "First\n",
    "GET 61 1\n",
    "put 61 1\n",
    "seek-for-prev 61 1\n",
    "seekforprev 61 1\n",
    "61 1 P 78\n",
    // Blanks and line ends.
    " first\n",
    "first \n",
    "first\r\n",
    "\tfirst\n",
    " get 61 1\n",
    "get 61 1 \n",
    "get  61 1\n",
    "get 61  1\n",
    "get\t61\t1\n",
    "get 61 1\r\n",
    // Too few fields and too many.
    "get\n",
    "get \n",
    "get 61\n",
    "get 61 \n",
    "get  1\n",
    "get 61 1 P\n",
    "seek 61\n",
    "seek_for_prev 61\n",
    "next 61 1\n",
    "last -\n",
    // Keys.
    "get 6 1\n",
    "get 611 1\n",
    "get 6g 1\n",
    "get -- 1\n",
    "get 61- 1\n",
    // Sequence numbers.
    "get 61 -\n",
    "get 61 01\n",
    "get 61 +1\n",
    "get 61 0x1\n",
    "get 61 72057594037927936\n",
    "get 61 18446744073709551617\n",
];

/// Asserts that the input is refused with this text, where the file is there and where it isn't, and that no file
/// changes.
fn assert_refused_input(
    rt: &impl Abort,
    alloc: Global,
    input: &[u8],
    text: &str,
) -> Result<(), Fail> {
    let file = bare_file(alloc)?;
    let ran = answered(alloc, &file, input)?;
    assert!(rt; refused(&ran, text), "with {text}");
    assert!(rt; holds(&ran, NAME, &file), "with {text}");
    let ran = run_on(alloc, &CALLS, input, NONE_FAILS)?;
    assert!(rt; refused(&ran, text), "with {text} and no file");
    assert!(rt; ran.folder.file(NAME).is_none(), "with {text} and no file");
    Ok(())
}

/// Inputs with a later line that is none, and what is told.
static LATER: [(&str, &str); 4] = [
    ("get 61 1\nget 61 01\n", "input 2 line\n"),
    ("first\nnext\n\nput\n", "input 3 line\n"),
    ("first\nnext\nlast\nprev", "input 4 line\n"),
    ("first\n\n", "input 2 line\n"),
];

#[test]
fn lines_that_are_no_call_lines(rt: HostRuntime) -> Result<(), Fail> {
    for line in NO_CALL_LINES {
        assert_refused_input(&rt, rt.alloc(), line.as_bytes(), "input 1 line\n")?;
    }
    for (input, text) in LATER {
        assert_refused_input(&rt, rt.alloc(), input.as_bytes(), text)?;
    }
    Ok(())
}

/// A good line, and one of so many bytes and its line end.
fn before_long_line(alloc: Global, length: usize) -> Result<Vec<u8>, Fail> {
    let line = vec![in alloc; b'6'; length]?;
    let mut text = Vec::new(alloc);
    text.extend_from_slice(LINE.as_bytes())?;
    text.extend_from_slice(&line)?;
    text.push(b'\n')?;
    Ok(text)
}

#[test]
fn long_lines(rt: HostRuntime) -> Result<(), Fail> {
    for (length, text) in [
        (40_000_000, "input 2 line\n"),
        (40_000_001, "input 2 line-long\n"),
    ] {
        let input = before_long_line(rt.alloc(), length)?;
        assert_refused_input(&rt, rt.alloc(), &input, text)?;
    }
    Ok(())
}

/// A call whose target's user key has so many hex digits.
fn long_target(alloc: Global, digits: usize) -> Result<Vec<u8>, Fail> {
    let key = vec![in alloc; b'6'; digits]?;
    let mut text = Vec::new(alloc);
    text.extend_from_slice(b"get ")?;
    text.extend_from_slice(&key)?;
    text.extend_from_slice(b" 1\n")?;
    Ok(text)
}

#[test]
fn long_targets(rt: HostRuntime) -> Result<(), Fail> {
    let file = bare_file(rt.alloc())?;
    let longest = long_target(rt.alloc(), 131_072)?;
    let ran = answered(rt.alloc(), &file, &longest)?;
    assert_eq!(rt; ran.status, Status::Done);
    assert!(rt; printed(&ran, "none\n"));
    let longer = long_target(rt.alloc(), 131_074)?;
    assert_refused_input(&rt, rt.alloc(), &longer, "input 1 line\n")
}

/// As many lines `next` as an input may have, and what follows them.
fn most_calls_and(alloc: Global, rest: &str) -> Result<Vec<u8>, Fail> {
    let mut text = Vec::new(alloc);
    for _ in 0..1_048_576u32 {
        text.extend_from_slice(b"next\n")?;
    }
    text.extend_from_slice(rest.as_bytes())?;
    Ok(text)
}

// A line after them that is no call line is told as that, and not as one too many.
#[test]
fn as_many_calls_as_there_may_be(rt: HostRuntime) -> Result<(), Fail> {
    let file = bare_file(rt.alloc())?;
    let ran = answered(rt.alloc(), &file, &most_calls_and(rt.alloc(), "")?)?;
    assert_eq!(rt; ran.status, Status::Done);
    for (rest, text) in [
        ("next\n", "input 1048577 many\n"),
        ("next", "input 1048577 line\n"),
        ("put\n", "input 1048577 line\n"),
    ] {
        let input = most_calls_and(rt.alloc(), rest)?;
        assert_refused_input(&rt, rt.alloc(), &input, text)?;
    }
    Ok(())
}

#[test]
fn an_absent_file(rt: HostRuntime) -> Result<(), Fail> {
    for input in ["", LINE, "first\nnext\n"] {
        let mut ran = run_on(rt.alloc(), &CALLS, input.as_bytes(), NONE_FAILS)?;
        assert_eq!(rt; ran.status, Status::Device, "on {input}");
        assert!(rt; printed(&ran, ""), "on {input}");
        assert!(rt; ran.folder.file(NAME).is_none(), "on {input}");
        assert!(rt; other_is_as_it_was(&ran), "on {input}");
        assert!(rt; still_to_come(&mut ran, ""), "on {input}");
    }
    Ok(())
}

// One byte is missing. The input is refused before the file is opened.
#[test]
fn a_file_cut_short(rt: HostRuntime) -> Result<(), Fail> {
    let mut file = bare_file(rt.alloc())?;
    file.truncate(118);
    for (input, status, text) in [
        ("", Status::File, "damage not-table\n"),
        (LINE, Status::File, "damage not-table\n"),
        ("first\nput\n", Status::Input, "input 2 line\n"),
    ] {
        let ran = answered(rt.alloc(), &file, input.as_bytes())?;
        assert_eq!(rt; ran.status, status, "on {input}");
        assert!(rt; printed(&ran, text), "on {input}");
        assert!(rt; holds(&ran, NAME, &file), "on {input}");
    }
    Ok(())
}

/// The lines of one entry whose value has so many hex digits, and the line of the entry `count` times.
fn lines_of_value(alloc: Global, digits: usize, count: usize) -> Result<String, Fail> {
    let value = vec![in alloc; b'7'; digits]?;
    let mut text = Vec::new(alloc);
    for _ in 0..count {
        text.extend_from_slice(b"61 1 P ")?;
        text.extend_from_slice(&value)?;
        text.push(b'\n')?;
    }
    match String::from_utf8(text) {
        Ok(text) => Ok(text),
        Err(_) => Ok(String::new(alloc)),
    }
}

/// Asserts that a run in which one call was to fail ended as it has to, and answers whether one did.
fn failed(rt: &impl Abort, ran: &Ran, file: &[u8], text: &str) -> bool {
    assert!(rt; holds(ran, NAME, file));
    assert!(rt; other_is_as_it_was(ran));
    if ran.status == Status::Done {
        assert!(rt; printed(ran, text));
        return false;
    }
    assert_eq!(rt; ran.status, Status::Device);
    assert!(rt; text.as_bytes().starts_with(ran.sink.bytes()));
    true
}

#[test]
fn each_failing_call(rt: HostRuntime) -> Result<(), Fail> {
    let line = lines_of_value(rt.alloc(), 60_000, 1)?;
    let file = file_of_lines(rt.alloc(), line.as_str())?;
    let calls = b"first\nlast\nget 61 1\nseek 61 1\nseek_for_prev 61 1\n";
    let text = lines_of_value(rt.alloc(), 60_000, 5)?;
    // The folder tells the length, and gives the footer and four blocks; the input gives its lines and its end; the
    // output is put five lines in three pieces.
    for (object, count) in [(Object::Folder, 6), (Object::Intake, 2), (Object::Sink, 3)] {
        for number in 1..=count {
            let ran = answered_with(rt.alloc(), &file, calls, failing_at(object, &[number]))?;
            assert!(rt;
                failed(&rt, &ran, &file, text.as_str()),
                "{object:?} {number}"
            );
        }
        let ran = answered_with(rt.alloc(), &file, calls, failing_at(object, &[count + 1]))?;
        assert!(rt; !failed(&rt, &ran, &file, text.as_str()), "{object:?}");
    }
    Ok(())
}

/// Inputs, what is cut off from the file's end, and the statuses that they call for.
static ENDS: [(&str, usize, Status); 3] = [
    (LINE, 0, Status::Done),
    (LINE, 1, Status::File),
    ("put\n", 0, Status::Input),
];

#[test]
fn an_output_that_fails(rt: HostRuntime) -> Result<(), Fail> {
    for (input, cut, status) in ENDS {
        let mut file = bare_file(rt.alloc())?;
        file.truncate(file.len().saturating_sub(cut));
        let ran = answered(rt.alloc(), &file, input.as_bytes())?;
        assert_eq!(rt; ran.status, status, "on {input} and {cut}");
        let ran = answered_with(
            rt.alloc(),
            &file,
            input.as_bytes(),
            failing_at(Object::Sink, &[1]),
        )?;
        assert_eq!(rt; ran.status, Status::Device, "on {input} and {cut}");
        assert!(rt; printed(&ran, ""), "on {input} and {cut}");
        let ran = answered_with_stuck_sink(rt.alloc(), &file, input.as_bytes())?;
        assert_eq!(rt; ran.status, Status::Device, "on {input} and {cut}");
        assert!(rt; printed(&ran, ""), "on {input} and {cut}");
    }
    Ok(())
}
