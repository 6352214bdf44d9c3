//! Calls answered from written files, of one data block and of many, with each form of the index, as a plain count over their
//! list answers them.
//!
//! The count is [`sst_key::answer`], which goes through the whole list at each call. One list has several versions of most
//! user keys, and one has one version of each; the calls have every target around them.
//!
//! RocksDB: `DB::Get` in include/rocksdb/db.h and `Iterator` in include/rocksdb/iterator.h.
use sst_key::{Answer, Call, Entry, Format, Kind, Reply, Target, answer};
use sst_num::Bytes;
use sst_tests_shared::asserting::assert_answered;
use sst_tests_shared::worked_run::file_with_options;
use std::alloc::Global;
use std::test::Fail;

/// User keys in order: the digits and the bytes of each. The lists have none of the last but one.
static USERS: [(&str, &[u8]); 13] = [
    ("-", &[]),
    ("00", &[0x00]),
    ("0000", &[0x00, 0x00]),
    ("61", &[0x61]),
    ("6100", &[0x61, 0x00]),
    ("6161", &[0x61, 0x61]),
    ("61ff", &[0x61, 0xff]),
    ("7f", &[0x7f]),
    ("7f00", &[0x7f, 0x00]),
    ("80", &[0x80]),
    ("8000", &[0x80, 0x00]),
    ("ff", &[0xff]),
    ("ffff", &[0xff, 0xff]),
];

/// The user key of which the lists have no entry.
const ABSENT: usize = 11;

/// Versions of a user key, the newest first: the sequence number, the kind and its letter.
static VERSIONS: [(u64, Kind, char); 5] = [
    (9, Kind::Value, 'P'),
    (7, Kind::Deletion, 'D'),
    (5, Kind::Merge, 'M'),
    (5, Kind::Value, 'P'),
    (2, Kind::SingleDeletion, 'S'),
];

/// The sequence numbers of targets: those of the entries, those around them, and the last of all.
static SNAPSHOTS: [u64; 11] = [0, 1, 2, 3, 4, 5, 6, 7, 8, 9, 72_057_594_037_927_935];

/// A list of entries, and the line of each.
#[derive(Drop)]
struct Listed {
    entries: Vec<Entry>,
    lines: Vec<String>,
}

/// The digits of a value of so many equal bytes.
fn digits_of(alloc: Global, byte: u8, length: usize) -> Result<String, Fail> {
    let pair = format!(in alloc; "{byte:02x}")?;
    let mut digits = String::new(alloc);
    for _ in 0..length {
        digits.push_str(&pair)?;
    }
    Ok(digits)
}

/// Appends an entry whose value is so many equal bytes.
fn add(
    alloc: Global,
    listed: &mut Listed,
    user: (&str, &[u8]),
    version: (u64, Kind, char),
    value: (u8, usize),
) -> Result<(), Fail> {
    let (user_digits, user) = user;
    let (seq, kind, letter) = version;
    let (byte, length) = value;
    let value_digits = digits_of(alloc, byte, length)?;
    let line = format!(in alloc; "{user_digits} {seq} {letter} {value_digits}\n")?;
    listed.lines.push(line)?;
    let value = vec![in alloc; byte; length]?;
    listed.entries.push(Entry {
        user: Bytes::from_slice(alloc, user)?,
        seq,
        kind,
        value: Bytes::from_slice(alloc, &value)?,
    })?;
    Ok(())
}

/// A list: of each user key but one, two in three of these versions, in turn, with values of so many bytes.
fn mixed_list(
    alloc: Global,
    versions: &[(u64, Kind, char)],
    length: usize,
) -> Result<Listed, Fail> {
    let mut listed = Listed {
        entries: Vec::new(alloc),
        lines: Vec::new(alloc),
    };
    let mut value = 0u8;
    for (i, user) in USERS.iter().enumerate() {
        for version in versions {
            value = value.wrapping_add(1);
            if i != ABSENT && value % 3 != 0 {
                add(alloc, &mut listed, *user, *version, (value, length))?;
            }
        }
    }
    Ok(listed)
}

/// A target.
fn target(alloc: Global, user: &[u8], seq: u64) -> Result<Target, Fail> {
    Ok(Target {
        user: Bytes::from_slice(alloc, user)?,
        seq,
    })
}

/// The calls at a target.
fn calls_at(alloc: Global, user: &[u8], seq: u64) -> Result<Vec<Call>, Fail> {
    let mut calls = Vec::new(alloc);
    calls.push(Call::Get(target(alloc, user, seq)?))?;
    calls.push(Call::Seek(target(alloc, user, seq)?))?;
    calls.push(Call::Next)?;
    calls.push(Call::SeekForPrev(target(alloc, user, seq)?))?;
    calls.push(Call::Prev)?;
    Ok(calls)
}

/// Appends the lines of the calls at a target.
fn put_calls(alloc: Global, text: &mut String, digits: &str, seq: u64) -> Result<(), Fail> {
    let get_and_seek = format!(in alloc; "get {digits} {seq}\nseek {digits} {seq}\nnext\n")?;
    text.push_str(get_and_seek.as_str())?;
    let back = format!(in alloc; "seek_for_prev {digits} {seq}\nprev\n")?;
    text.push_str(back.as_str())?;
    Ok(())
}

/// Appends the line of an answer.
fn put_answer(text: &mut String, lines: &[String], answer: &Answer) -> Result<(), Fail> {
    match answer.shown {
        Some(i) => match lines.get(i) {
            Some(line) => text.push_str(line.as_str())?,
            None => {}
        },
        None => text.push_str(match answer.reply {
            Reply::NotPositioned => "not-positioned\n",
            _ => "none\n",
        })?,
    }
    Ok(())
}

/// Appends the lines of what the list answers to the calls, and answers the position after them.
fn put_answers(
    text: &mut String,
    listed: &Listed,
    calls: &[Call],
    before: Option<usize>,
) -> Result<Option<usize>, Fail> {
    let mut position = before;
    for call in calls {
        let answer = answer(&listed.entries, Format::Block, 0, position, call);
        put_answer(text, &listed.lines, &answer)?;
        position = answer.position;
    }
    Ok(position)
}

/// The lines as one text.
fn joined(alloc: Global, lines: &[String]) -> Result<String, Fail> {
    let mut text = String::new(alloc);
    for line in lines {
        text.push_str(line.as_str())?;
    }
    Ok(text)
}

/// Appends the steps over the whole list, there and back, and their lines.
fn put_steps(calls: &mut String, steps: &mut Vec<Call>) -> Result<(), Fail> {
    calls.push_str("first\n")?;
    steps.push(Call::First)?;
    for _ in 0..42 {
        calls.push_str("next\n")?;
        steps.push(Call::Next)?;
    }
    calls.push_str("last\n")?;
    steps.push(Call::Last)?;
    for _ in 0..42 {
        calls.push_str("prev\n")?;
        steps.push(Call::Prev)?;
    }
    Ok(())
}

/// Asserts that the calls are answered as by a count from the files of the list that are written with these options.
fn assert_counted(alloc: Global, listed: &Listed, forms: &[&[&str]]) -> Result<(), Fail> {
    let lines = joined(alloc, &listed.lines)?;
    let mut calls = String::new(alloc);
    let mut text = String::new(alloc);
    let mut steps = Vec::new(alloc);
    put_steps(&mut calls, &mut steps)?;
    let mut position = put_answers(&mut text, listed, &steps, None)?;
    for (digits, user) in USERS {
        for seq in SNAPSHOTS {
            put_calls(alloc, &mut calls, digits, seq)?;
            let at_target = calls_at(alloc, user, seq)?;
            position = put_answers(&mut text, listed, &at_target, position)?;
        }
    }
    for options in forms {
        let file = file_with_options(alloc, options, &lines)?;
        assert_answered(alloc, &file, &calls, &text)?;
    }
    Ok(())
}

/// Options by which a list is written whose blocks share user keys: in one data block and in many, in each version, with an
/// index of one block and with parts.
static SHARING: [&[&str]; 10] = [
    &["block=64"],
    &["block=65"],
    &["block=100"],
    &["block=200"],
    &["block=4096"],
    &["block=64", "version=3"],
    &["block=64", "version=4", "index-restart=16"],
    &["block=64", "parts=1"],
    &["block=65", "parts=3", "version=4", "index-restart=16"],
    &["block=100", "parts=2", "version=3"],
];

#[test]
fn every_target_and_every_step(rt: HostRuntime) -> Result<(), Fail> {
    let listed = mixed_list(rt.alloc(), &VERSIONS, 1)?;
    assert_eq!(rt; listed.entries.len(), 41);
    assert_counted(rt.alloc(), &listed, &SHARING)
}

/// Options by which a list is written of which no user key has two versions. Two entries make a data block, so that there are
/// five.
static APART: [&[&str]; 6] = [
    &["block=64"],
    &["block=64", "version=3"],
    &["block=64", "version=4", "index-restart=16"],
    &["block=64", "parts=2", "version=3"],
    &["block=64", "parts=1", "version=4"],
    &["block=64", "parts=2", "version=4", "index-restart=16"],
];

// From version 3 on the separators are user keys.
#[test]
fn every_target_among_user_keys(rt: HostRuntime) -> Result<(), Fail> {
    let listed = mixed_list(rt.alloc(), &[VERSIONS[2]], 30)?;
    assert_eq!(rt; listed.entries.len(), 9);
    assert_counted(rt.alloc(), &listed, &APART)
}
