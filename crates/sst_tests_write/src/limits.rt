//! Lines, keys, values and lists at their limits and past them.
//!
//! The limits are this project's own.
use sst_cli::Status;
use sst_tests_shared::worked_run::{NAME, Ran, refused, written};
use std::alloc::Global;
use std::test::Fail;

/// Two good lines, whose keys are before those of `line_of`.
const TWO_LINES: &str = "61 2 P 78\n66 2 P 78\n";

/// What stands before a line of so many digits, and after it, and what is told.
static LONG_LINES: [(&str, usize, &str, &str); 5] = [
    ("", 40_000_000, "", "input 1 line\n"),
    ("", 40_000_001, "", "input 1 line-long\n"),
    ("", 40_000_001, "\n", "input 1 line-long\n"),
    (TWO_LINES, 40_000_000, "\n67 1 P 78\n", "input 3 line\n"),
    (
        TWO_LINES,
        40_000_001,
        "\n67 1 P 78\n",
        "input 3 line-long\n",
    ),
];

#[test]
fn long_lines(rt: HostRuntime) -> Result<(), Fail> {
    for (before, length, after, text) in LONG_LINES {
        let line = vec![in rt.alloc(); b'6'; length]?;
        let mut input = Vec::from_slice(rt.alloc(), before.as_bytes())?;
        input.extend_from_slice(&line)?;
        input.extend_from_slice(after.as_bytes())?;
        let ran = written(rt.alloc(), &input)?;
        assert!(rt; refused(&ran, text), "{text} of {length} bytes");
    }
    Ok(())
}

/// These lines, and an entry line whose key and value have so many hex digits.
fn line_of(
    alloc: Global,
    before: &str,
    key_digits: usize,
    value_digits: usize,
) -> Result<Vec<u8>, Fail> {
    let mut lines = Vec::from_slice(alloc, before.as_bytes())?;
    let key = vec![in alloc; b'6'; key_digits]?;
    let value = vec![in alloc; b'7'; value_digits]?;
    lines.extend_from_slice(&key)?;
    lines.extend_from_slice(b" 1 P ")?;
    lines.extend_from_slice(&value)?;
    lines.push(b'\n')?;
    Ok(lines)
}

/// The length of the file that is written, where one is.
fn length_of(ran: &Ran) -> Option<usize> {
    let file = ran.folder.file(NAME)?;
    Some(file.len())
}

// The long key isn't in the index, since the key after the list is its first byte raised by one. The lengths are those of an
// independent program.
#[test]
fn keys_and_values_at_their_limits(rt: HostRuntime) -> Result<(), Fail> {
    for (key_digits, value_digits, length) in [(131_072, 2, 65_947), (2, 33_554_432, 16_777_632)] {
        let ran = written(
            rt.alloc(),
            &line_of(rt.alloc(), "", key_digits, value_digits)?,
        )?;
        assert_eq!(rt; ran.status, Status::Done, "{key_digits} {value_digits}");
        assert_eq!(rt;
            length_of(&ran),
            Some(length),
            "{key_digits} {value_digits}"
        );
    }
    Ok(())
}

/// What stands before a line, the digits of its key and its value, and what is told.
static PAST_LIMITS: [(&str, usize, usize, &str); 6] = [
    ("", 131_074, 2, "input 1 key-long\n"),
    ("", 2, 33_554_434, "input 1 value-long\n"),
    (TWO_LINES, 131_074, 2, "input 3 key-long\n"),
    (TWO_LINES, 4, 33_554_434, "input 3 value-long\n"),
    // Key and value both: the first reason is the key's. The order comes before both.
    (TWO_LINES, 131_074, 33_554_434, "input 3 key-long\n"),
    ("67 1 P 78\n", 131_074, 2, "input 2 not-increasing\n"),
];

#[test]
fn keys_and_values_past_their_limits(rt: HostRuntime) -> Result<(), Fail> {
    for (before, key_digits, value_digits, text) in PAST_LIMITS {
        let ran = written(
            rt.alloc(),
            &line_of(rt.alloc(), before, key_digits, value_digits)?,
        )?;
        assert!(rt; refused(&ran, text), "{key_digits} {value_digits}");
    }
    Ok(())
}

/// The lines of so many entries with keys of four bytes, in order, and no value. Each weighs 68.
fn light_lines(alloc: Global, count: u32) -> Result<Vec<u8>, Fail> {
    let mut text = Vec::new(alloc);
    for number in 0..count {
        let line = format!(in alloc; "{number:08x} 1 P -\n")?;
        text.extend_from_slice(line.as_bytes())?;
    }
    Ok(text)
}

// 3,947,580 times 68 is 268,435,440, and 2^28 is 268,435,456.
#[test]
fn a_list_too_heavy(rt: HostRuntime) -> Result<(), Fail> {
    let text = light_lines(rt.alloc(), 3_947_581)?;
    let ran = written(rt.alloc(), &text)?;
    assert!(rt; refused(&ran, "input 3947581 heavy\n"));
    Ok(())
}
