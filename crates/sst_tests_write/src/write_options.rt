//! The options of `sst write block OUT`: `version=N`, where N is 2 to 4, `block=N`, where N is 64 to 16,777,216, `restart=N` and
//! `index-restart=N`, where N is 1 to 65,536, and `parts=N`, where N is 0 to 65,536, in any order.
//!
//! The words, and a part of so many rows, are this project's own. RocksDB: `BlockBasedTableOptions::format_version`,
//! `block_size`, `block_restart_interval` and `index_block_restart_interval` in include/rocksdb/table.h.
use crate::files::written_file;
use crate::index_forms::THREE_LINES;
use crate::many_blocks::version_lines;
use sst_cli::Status;
use sst_tests_shared::worked_run::{
    NAME, NONE_FAILS, file_with_options, holds, other_is_as_it_was, printed, put_hex, run_on,
    still_to_come, text_of,
};
use std::alloc::Global;
use std::process::Abort;
use std::test::Fail;

/// A good input.
const LINE: &str = "61 1 P 78\n";

/// Options that make the same file of one entry.
static GOOD: [&[&str]; 17] = [
    &["block=64"],
    &["block=65"],
    &["block=4096"],
    &["block=16777215"],
    &["block=16777216"],
    &["restart=1"],
    &["restart=65536"],
    &["index-restart=1"],
    &["index-restart=65536"],
    &["restart=2", "index-restart=3"],
    &["block=64", "restart=2", "index-restart=3"],
    &["index-restart=3", "restart=2", "block=64"],
    &["restart=2", "block=64", "index-restart=3"],
    &["version=2"],
    &["parts=0"],
    &[
        "version=2",
        "block=64",
        "restart=2",
        "index-restart=3",
        "parts=0",
    ],
    &[
        "parts=0",
        "index-restart=3",
        "restart=2",
        "block=64",
        "version=2",
    ],
];

// One row makes one block with one restart, whatever the options are.
#[test]
fn good_options(rt: HostRuntime) -> Result<(), Fail> {
    let file = written_file(rt.alloc())?;
    for options in GOOD {
        let mut words = Vec::new(rt.alloc());
        words.extend_from_slice(&["write", "block", NAME])?;
        words.extend_from_slice(options)?;
        let mut ran = run_on(rt.alloc(), &words, LINE.as_bytes(), NONE_FAILS)?;
        assert_eq!(rt; ran.status, Status::Done, "with {options:?}");
        assert!(rt; printed(&ran, "wrote 1\n"), "with {options:?}");
        assert!(rt; holds(&ran, NAME, &file), "with {options:?}");
        assert!(rt; other_is_as_it_was(&ran), "with {options:?}");
        assert!(rt; still_to_come(&mut ran, ""), "with {options:?}");
    }
    Ok(())
}

/// The words of a `write`, where a part of its file begins, and the part in hex digits.
type Part = (&'static [&'static str], usize, &'static [&'static str]);

/// Three keys, of which each begins with the one before.
const NESTED: &str = "61 1 P 78\n6161 1 P 78\n616161 1 P 78\n";

/// The data block of the three keys: with a restart at each row, and at each second.
static NESTED_PARTS: [Part; 2] = [
    (
        &["write", "block", NAME, "restart=1"],
        0,
        &[
            "00090161010100000000000078000a016161010100000000000078000b01616161010100000000000078",
            "000000000d0000001b00000003000000",
            "001b182acc",
        ],
    ),
    (
        &["write", "block", NAME, "restart=2"],
        0,
        &[
            "0009016101010000000000007801090161010100000000000078000b01616161010100000000000078",
            "000000001a00000002000000",
            "00647c1ac9",
        ],
    ),
];

/// The index of three versions of the key 6b, each in a block of its own: one block whose rows share what their keys have in
/// common; and parts of one row, and the top block at 337.
static VERSIONS_PARTS: [Part; 2] = [
    (
        &["write", "block", NAME, "block=64", "index-restart=16"],
        255,
        &[
            "0009026b0109000000000000005002070205000000000000555002070302000000000000aa0150",
            "0000000001000000",
            "00bdb1b67f",
        ],
    ),
    (
        &["write", "block", NAME, "block=64", "parts=1"],
        255,
        &[
            "0009026b01090000000000000050000000000100000000278b37a4",
            "0009026b010500000000000055500000000001000000000edeee66",
            "0009036b0102000000000000aa0150000000000100000000a7bf17d9",
            "0009036b0109000000000000ff0116",
            "0009036b01050000000000009a0216",
            "0009036b0102000000000000b50217",
            "000000000f0000001e00000003000000",
            "00bcd4df38",
        ],
    ),
];

/// The index of the user keys 6162, 6164 and 6166 with one restart: the separator behind the last is 62. Stored keys, and user
/// keys.
static THREE_PARTS: [Part; 2] = [
    (
        &["write", "block", NAME, "block=64", "index-restart=16"],
        226,
        &[
            "000a02616201010000000000000064010902640101000000000000695a",
            "00090362ffffffffffffffffc80115",
            "0000000001000000",
            "004f6b18cd",
        ],
    ),
    (
        &[
            "write",
            "block",
            NAME,
            "block=64",
            "version=3",
            "index-restart=16",
        ],
        226,
        &[
            "0002026162006401010264695a",
            "00010362c80115",
            "0000000001000000",
            "002238b386",
        ],
    ),
];

/// The files that are written for the lines have these parts.
fn assert_parts(rt: &impl Abort, alloc: Global, lines: &[u8], parts: &[Part]) -> Result<(), Fail> {
    for &(words, start, digits) in parts {
        let ran = run_on(alloc, words, lines, NONE_FAILS)?;
        let mut part = Vec::new(alloc);
        put_hex(alloc, &mut part, digits)?;
        match ran.folder.file(NAME) {
            Some(file) => {
                let there = file.get(start..).and_then(|rest| rest.get(..part.len()));
                assert_eq!(rt; there, Some(part.as_slice()), "by {words:?}");
            }
            None => panic!(rt; "no file by {words:?}"),
        }
    }
    Ok(())
}

// The bytes are those of an independent program.
#[test]
fn files_of_other_intervals(rt: HostRuntime) -> Result<(), Fail> {
    assert_parts(&rt, rt.alloc(), NESTED.as_bytes(), &NESTED_PARTS)?;
    let lines = version_lines(rt.alloc())?;
    assert_parts(&rt, rt.alloc(), lines.as_str().as_bytes(), &VERSIONS_PARTS)?;
    let lines = text_of(rt.alloc(), THREE_LINES)?;
    assert_parts(&rt, rt.alloc(), lines.as_str().as_bytes(), &THREE_PARTS)
}

// Three blocks make one part.
#[test]
fn parts_of_more_rows_than_there_are(rt: HostRuntime) -> Result<(), Fail> {
    let lines = version_lines(rt.alloc())?;
    let three = file_with_options(rt.alloc(), &["block=64", "parts=3"], &lines)?;
    assert_eq!(rt; three.len(), 699);
    for option in ["parts=4", "parts=65536"] {
        let file = file_with_options(rt.alloc(), &["block=64", option], &lines)?;
        assert_eq!(rt; file.as_slice(), three.as_slice(), "with {option}");
    }
    Ok(())
}

/// Words that name OUT as an option is spelled.
static NAMED: [&[&str]; 2] = [
    &["write", "block", "block=64"],
    &["write", "block", "block=64", "block=64"],
];

// The third word is the name of OUT, whatever it spells.
#[test]
fn a_file_with_the_name_of_an_option(rt: HostRuntime) -> Result<(), Fail> {
    let file = written_file(rt.alloc())?;
    for words in NAMED {
        let ran = run_on(rt.alloc(), words, LINE.as_bytes(), NONE_FAILS)?;
        assert_eq!(rt; ran.status, Status::Done, "on {words:?}");
        assert!(rt; printed(&ran, "wrote 1\n"), "on {words:?}");
        assert!(rt; holds(&ran, "block=64", &file), "on {words:?}");
        assert!(rt; ran.folder.file(NAME).is_none(), "on {words:?}");
        assert!(rt; other_is_as_it_was(&ran), "on {words:?}");
    }
    Ok(())
}

/// The length of the file of an entry with a value of so many hex digits and one more entry, by these words.
fn length_with(alloc: Global, digits: usize, words: &[&str]) -> Result<Option<usize>, Fail> {
    let value = vec![in alloc; b'7'; digits]?;
    let mut lines = Vec::new(alloc);
    lines.extend_from_slice(b"61 1 P ")?;
    lines.extend_from_slice(&value)?;
    lines.extend_from_slice(b"\n62 1 P 79\n")?;
    let ran = run_on(alloc, words, &lines, NONE_FAILS)?;
    match ran.folder.file(NAME) {
        Some(file) => Ok(Some(file.len())),
        None => Ok(None),
    }
}

// The first block has 4095 bytes, or 4096: without the option it is ended by the second alone. The lengths are those of
// an independent program.
#[test]
fn the_size_without_an_option(rt: HostRuntime) -> Result<(), Fail> {
    let plain = ["write", "block", NAME];
    let less = ["write", "block", NAME, "block=4095"];
    let more = ["write", "block", NAME, "block=4097"];
    assert_eq!(rt; length_with(rt.alloc(), 8148, &less)?, Some(4525));
    assert_eq!(rt; length_with(rt.alloc(), 8148, &plain)?, Some(4493));
    assert_eq!(rt; length_with(rt.alloc(), 8150, &more)?, Some(4494));
    assert_eq!(rt; length_with(rt.alloc(), 8150, &plain)?, Some(4526));
    Ok(())
}
