//! What is asked of a file by words: one Get, all entries, or those that a snapshot sees.
//!
//! The texts are worked by hand from the lists. They are this project's own.
//!
//! RocksDB: `DB::Get` in include/rocksdb/db.h, `ReadOptions::snapshot` in include/rocksdb/options.h, and `Iterator` in
//! include/rocksdb/iterator.h.
use crate::separators::ONE_BLOCK_TWICE;
use sst_cli::Status;
use sst_tests_shared::asserting::assert_told;
use sst_tests_shared::worked_run::{NAME, file_of_lines, file_with_options, put_hex, text_of};
use std::alloc::Global;
use std::test::Fail;

/// The lines of three versions of one key, whose values have 60 bytes: each in a data block of its own.
const NEWEST: &str =
    "6b 9 P 393939393939393939393939393939393939393939393939393939393939393939393939393939393939393939393939393939393939393939393939\n";

const MIDDLE: &str =
    "6b 5 P 353535353535353535353535353535353535353535353535353535353535353535353535353535353535353535353535353535353535353535353535\n";

const OLDEST: &str =
    "6b 2 P 323232323232323232323232323232323232323232323232323232323232323232323232323232323232323232323232323232323232323232323232\n";

/// Options by which the file of the versions is written: with an index of one block, and with one in parts.
static FORMS: [&[&str]; 2] = [
    &["block=64"],
    &["block=64", "version=4", "parts=2", "index-restart=16"],
];

/// What is asked of the file of the versions, and the lines that are printed.
static OF_VERSIONS: [(&[&str], &[&str]); 13] = [
    (&["get", NAME, "6b", "9"], &[NEWEST]),
    (&["get", NAME, "6b", "8"], &[MIDDLE]),
    (&["get", NAME, "6b", "5"], &[MIDDLE]),
    (&["get", NAME, "6b", "4"], &[OLDEST]),
    (&["get", NAME, "6B", "4"], &[OLDEST]),
    (&["get", NAME, "6b", "1"], &["none\n"]),
    (&["scan", NAME], &[NEWEST, MIDDLE, OLDEST]),
    // A snapshot sees one version of a user key.
    (&["scan", NAME, "72057594037927935"], &[NEWEST]),
    (&["scan", NAME, "9"], &[NEWEST]),
    (&["scan", NAME, "8"], &[MIDDLE]),
    (&["scan", NAME, "5"], &[MIDDLE]),
    (&["scan", NAME, "4"], &[OLDEST]),
    (&["scan", NAME, "1"], &[]),
];

/// The lines of a list, what is asked of its file, the status, and the text.
static OF_LISTS: [(&str, &[&str], Status, &str); 37] = [
    (
        "61 1 P 78\n",
        &["get", NAME, "61", "1"],
        Status::Done,
        "61 1 P 78\n",
    ),
    (
        "61 1 P 78\n",
        &["get", NAME, "61", "0"],
        Status::Done,
        "none\n",
    ),
    (
        "61 1 P 78\n",
        &["get", NAME, "-", "1"],
        Status::Done,
        "none\n",
    ),
    ("61 1 P 78\n", &["scan", NAME], Status::Done, "61 1 P 78\n"),
    ("61 1 P 78\n", &["scan", NAME, "0"], Status::Done, ""),
    // The empty list.
    ("", &["get", NAME, "61", "1"], Status::Done, "none\n"),
    ("", &["scan", NAME], Status::Done, ""),
    ("", &["scan", NAME, "1"], Status::Done, ""),
    // Each kind, the empty key and the empty value, the last sequence number. What was deleted is shown, and of two entries
    // with one key and sequence number the first is the newest.
    (
        "- 9 S -\n- 5 M AB\n- 5 P -\n- 0 D -\nfF 72057594037927935 P aBcD\n",
        &["scan", NAME],
        Status::Done,
        "- 9 S -\n- 5 M ab\n- 5 P -\n- 0 D -\nff 72057594037927935 P abcd\n",
    ),
    (
        "- 9 S -\n- 5 M AB\n- 5 P -\n- 0 D -\nfF 72057594037927935 P aBcD\n",
        &["scan", NAME, "72057594037927935"],
        Status::Done,
        "- 9 S -\nff 72057594037927935 P abcd\n",
    ),
    (
        "- 9 S -\n- 5 M AB\n- 5 P -\n- 0 D -\nfF 72057594037927935 P aBcD\n",
        &["scan", NAME, "5"],
        Status::Done,
        "- 5 M ab\n",
    ),
    (
        "- 9 S -\n- 5 M AB\n- 5 P -\n- 0 D -\nfF 72057594037927935 P aBcD\n",
        &["get", NAME, "-", "4"],
        Status::Done,
        "- 0 D -\n",
    ),
    // One version of each of several keys.
    (
        "61 3 P 78\n61 1 P 79\n62 9 P 7a\n63 2 D -\n63 1 P 78\n",
        &["scan", NAME, "2"],
        Status::Done,
        "61 1 P 79\n63 2 D -\n",
    ),
    // A file that isn't there.
    (
        "61 1 P 78\n",
        &["get", "absent.sst", "61", "1"],
        Status::Device,
        "",
    ),
    ("61 1 P 78\n", &["scan", "absent.sst"], Status::Device, ""),
    (
        "61 1 P 78\n",
        &["scan", "absent.sst", "1"],
        Status::Device,
        "",
    ),
    // Words that ask nothing: too few and too many.
    ("61 1 P 78\n", &["get"], Status::Usage, "usage\n"),
    ("61 1 P 78\n", &["get", NAME], Status::Usage, "usage\n"),
    (
        "61 1 P 78\n",
        &["get", NAME, "61"],
        Status::Usage,
        "usage\n",
    ),
    (
        "61 1 P 78\n",
        &["get", NAME, "61", "1", "1"],
        Status::Usage,
        "usage\n",
    ),
    ("61 1 P 78\n", &["scan"], Status::Usage, "usage\n"),
    (
        "61 1 P 78\n",
        &["scan", NAME, "1", "1"],
        Status::Usage,
        "usage\n",
    ),
    // No name, no key.
    (
        "61 1 P 78\n",
        &["get", "", "61", "1"],
        Status::Usage,
        "usage\n",
    ),
    ("61 1 P 78\n", &["scan", ""], Status::Usage, "usage\n"),
    (
        "61 1 P 78\n",
        &["get", NAME, "", "1"],
        Status::Usage,
        "usage\n",
    ),
    (
        "61 1 P 78\n",
        &["get", NAME, "6g", "1"],
        Status::Usage,
        "usage\n",
    ),
    (
        "61 1 P 78\n",
        &["get", NAME, "611", "1"],
        Status::Usage,
        "usage\n",
    ),
    (
        "61 1 P 78\n",
        &["get", NAME, "--", "1"],
        Status::Usage,
        "usage\n",
    ),
    // No sequence number.
    (
        "61 1 P 78\n",
        &["get", NAME, "61", ""],
        Status::Usage,
        "usage\n",
    ),
    (
        "61 1 P 78\n",
        &["get", NAME, "61", "01"],
        Status::Usage,
        "usage\n",
    ),
    (
        "61 1 P 78\n",
        &["get", NAME, "61", "+1"],
        Status::Usage,
        "usage\n",
    ),
    (
        "61 1 P 78\n",
        &["get", NAME, "61", "72057594037927936"],
        Status::Usage,
        "usage\n",
    ),
    ("61 1 P 78\n", &["scan", NAME, ""], Status::Usage, "usage\n"),
    (
        "61 1 P 78\n",
        &["scan", NAME, "-"],
        Status::Usage,
        "usage\n",
    ),
    (
        "61 1 P 78\n",
        &["scan", NAME, "01"],
        Status::Usage,
        "usage\n",
    ),
    (
        "61 1 P 78\n",
        &["scan", NAME, "1 "],
        Status::Usage,
        "usage\n",
    ),
    (
        "61 1 P 78\n",
        &["scan", NAME, "72057594037927936"],
        Status::Usage,
        "usage\n",
    ),
];

/// What is asked of a file of one block to which the index leads twice: how many bytes are missing at its end, the words, the
/// status, and the text. Of a walk that shows an entry twice a snapshot sees it once.
static OF_ONE_BLOCK_TWICE: [(usize, &[&str], Status, &str); 6] = [
    (0, &["scan", NAME], Status::Done, "61 1 P 78\n61 1 P 78\n"),
    (0, &["scan", NAME, "1"], Status::Done, "61 1 P 78\n"),
    (0, &["get", NAME, "61", "0"], Status::Done, "61 1 P 78\n"),
    // A damaged file.
    (
        1,
        &["get", NAME, "61", "1"],
        Status::File,
        "damage not-table\n",
    ),
    (1, &["scan", NAME], Status::File, "damage not-table\n"),
    (1, &["scan", NAME, "1"], Status::File, "damage not-table\n"),
];

#[test]
fn questions_on_versions(rt: HostRuntime) -> Result<(), Fail> {
    let lines = text_of(rt.alloc(), &[NEWEST, MIDDLE, OLDEST])?;
    for options in FORMS {
        let file = file_with_options(rt.alloc(), options, &lines)?;
        for (words, pieces) in OF_VERSIONS {
            let text = text_of(rt.alloc(), pieces)?;
            assert_told(rt.alloc(), &file, words, Status::Done, &text)?;
        }
    }
    Ok(())
}

#[test]
fn questions(rt: HostRuntime) -> Result<(), Fail> {
    for (lines, words, status, text) in OF_LISTS {
        let file = file_of_lines(rt.alloc(), lines)?;
        assert_told(rt.alloc(), &file, words, status, text)?;
    }
    Ok(())
}

#[test]
fn questions_on_one_block_twice(rt: HostRuntime) -> Result<(), Fail> {
    for (missing, words, status, text) in OF_ONE_BLOCK_TWICE {
        let mut file = Vec::new(rt.alloc());
        put_hex(rt.alloc(), &mut file, &ONE_BLOCK_TWICE)?;
        file.truncate(file.len().saturating_sub(missing));
        assert_told(rt.alloc(), &file, words, status, text)?;
    }
    Ok(())
}

/// So many bytes in hex digits.
fn digits(alloc: Global, bytes: usize) -> Result<String, Fail> {
    let mut text = String::new(alloc);
    for _ in 0..bytes {
        text.push_str("61")?;
    }
    Ok(text)
}

#[test]
fn questions_with_long_keys(rt: HostRuntime) -> Result<(), Fail> {
    let file = file_of_lines(rt.alloc(), "61 1 P 78\n")?;
    for (bytes, status, text) in [
        (65_536, Status::Done, "none\n"),
        (65_537, Status::Usage, "usage\n"),
    ] {
        let user = digits(rt.alloc(), bytes)?;
        assert_told(rt.alloc(), &file, &["get", NAME, &user, "1"], status, text)?;
    }
    Ok(())
}
