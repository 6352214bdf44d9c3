//! Tests of what calls answer over lists of entries: each row of a table is a call at a position, worked by hand.
//!
//! RocksDB: `DB::Get` in include/rocksdb/db.h and `Iterator` in include/rocksdb/iterator.h; what plain and cuckoo tables
//! lack is in table/plain/plain_table_reader.cc and table/cuckoo/cuckoo_table_reader.cc.
use sst_key::{
    Answer, Call, Entry, Format, Kind, Reply, Target, answer, first_and_next_go_through,
    get_shows_the_newest, last_and_prev_go_back, seek_for_prev_lands_on_the_last_up_to,
    seek_lands_on_the_first_not_before, seek_stays_within_a_prefix, target_cmp,
    targets_compare_as_said, visible_is_what_gets_show,
};
use sst_num::{Bytes, Memory};
use std::alloc::Global;
use std::cmp::Ordering;
use std::process::Abort;
use std::test::Fail;

/// A call, with its target's user key and sequence number where it has one.
#[derive(Clone, Copy, Debug)]
enum Asked {
    Get(&'static [u8], u64),
    First,
    Last,
    Seek(&'static [u8], u64),
    SeekForPrev(&'static [u8], u64),
    Next,
    Prev,
}

/// What a call answers.
#[derive(Clone, Copy, Debug)]
enum Said {
    /// It lands at an entry, and shows it.
    At(usize),
    /// It shows an entry, and the position stays.
    Shows(usize),
    /// It shows nothing, and the position is this.
    Nothing(Reply, Option<usize>),
}

/// The position before a call, the call, and what it answers.
type Step = (Option<usize>, Asked, Said);

/// User keys and sequence numbers.
type Keys = &'static [(&'static [u8], u64)];

/// Lists, the format of the table, the length of its prefixes, and calls.
static CALLS: [(Keys, Format, usize, &[Step]); 7] = [
    // Three entries of one user key: a Get shows the newest that the snapshot sees, and leaves the position.
    (
        &[(b"k", 9), (b"k", 5), (b"k", 2)],
        Format::Block,
        0,
        &[
            (Some(1), Asked::Get(b"k", 9), Said::Shows(0)),
            (Some(1), Asked::Get(b"k", 8), Said::Shows(1)),
            (Some(1), Asked::Get(b"k", 5), Said::Shows(1)),
            (Some(1), Asked::Get(b"k", 4), Said::Shows(2)),
            (
                Some(1),
                Asked::Get(b"k", 1),
                Said::Nothing(Reply::None, Some(1)),
            ),
            (None, Asked::SeekForPrev(b"k", 5), Said::At(1)),
            (
                Some(2),
                Asked::SeekForPrev(b"k", 10),
                Said::Nothing(Reply::None, None),
            ),
            (None, Asked::Seek(b"k", 4), Said::At(2)),
        ],
    ),
    // A key comes before what it begins. Behind the last entry and before the first there is nowhere.
    (
        &[(b"\xff", 1), (b"\xff\xff", 1)],
        Format::Block,
        0,
        &[
            (
                Some(0),
                Asked::Seek(b"\xff\xff", 0),
                Said::Nothing(Reply::None, None),
            ),
            (None, Asked::Prev, Said::Nothing(Reply::NotPositioned, None)),
            (None, Asked::Last, Said::At(1)),
            (Some(1), Asked::Next, Said::Nothing(Reply::None, None)),
            (Some(0), Asked::Prev, Said::Nothing(Reply::None, None)),
        ],
    ),
    // No entries.
    (
        &[],
        Format::Block,
        0,
        &[
            (None, Asked::First, Said::Nothing(Reply::None, None)),
            (None, Asked::Next, Said::Nothing(Reply::NotPositioned, None)),
            (None, Asked::Last, Said::Nothing(Reply::None, None)),
            (None, Asked::Prev, Said::Nothing(Reply::NotPositioned, None)),
        ],
    ),
    // A plain table lacks Last, SeekForPrev and Prev; Seek stays within the prefix of the target.
    (
        &[(b"abX", 0), (b"abY", 0), (b"abZ", 0)],
        Format::Plain,
        2,
        &[
            (None, Asked::First, Said::At(0)),
            (Some(0), Asked::Prev, Said::Nothing(Reply::Lacks, Some(0))),
            (None, Asked::Last, Said::Nothing(Reply::Lacks, None)),
            (Some(0), Asked::Next, Said::At(1)),
            (
                Some(0),
                Asked::Seek(b"aa", 9),
                Said::Nothing(Reply::None, None),
            ),
            (None, Asked::Seek(b"abXa", 9), Said::At(1)),
            (None, Asked::Seek(b"a", 9), Said::Nothing(Reply::None, None)),
            (None, Asked::Seek(b"ab", 9), Said::At(0)),
            // What is lacking is told also from nowhere, before a step from nowhere is.
            (None, Asked::Prev, Said::Nothing(Reply::Lacks, None)),
            (None, Asked::Next, Said::Nothing(Reply::NotPositioned, None)),
            (Some(0), Asked::Get(b"abY", 0), Said::Shows(1)),
        ],
    ),
    // Without prefixes it seeks as the others do.
    (
        &[(b"abX", 0), (b"abY", 0), (b"abZ", 0)],
        Format::Plain,
        0,
        &[
            (Some(0), Asked::Seek(b"aa", 9), Said::At(0)),
            (
                Some(0),
                Asked::SeekForPrev(b"abY", 0),
                Said::Nothing(Reply::Lacks, Some(0)),
            ),
        ],
    ),
    // The length of prefixes is a plain table's alone.
    (
        &[(b"abX", 0), (b"abY", 0)],
        Format::Block,
        2,
        &[(None, Asked::Seek(b"aa", 9), Said::At(0))],
    ),
    // A cuckoo table lacks SeekForPrev alone.
    (
        &[(b"abX", 0), (b"abY", 0)],
        Format::Cuckoo,
        2,
        &[
            (None, Asked::Seek(b"aa", 9), Said::At(0)),
            (None, Asked::Get(b"abY", 0), Said::Shows(1)),
            (None, Asked::Prev, Said::Nothing(Reply::NotPositioned, None)),
            (None, Asked::Last, Said::At(1)),
            (
                Some(1),
                Asked::SeekForPrev(b"a", 0),
                Said::Nothing(Reply::Lacks, Some(1)),
            ),
            (Some(1), Asked::Prev, Said::At(0)),
        ],
    ),
];

/// The entry of a user key at a sequence number, with no value.
fn entry(alloc: Global, user: &[u8], seq: u64) -> Result<Entry, Memory> {
    Ok(Entry {
        user: Bytes::from_slice(alloc, user)?,
        seq,
        kind: Kind::Value,
        value: Bytes::new(alloc),
    })
}

/// The entries of these user keys and sequence numbers.
fn entries(alloc: Global, keys: &[(&[u8], u64)]) -> Result<Vec<Entry>, Fail> {
    let mut list = Vec::new(alloc);
    for &(user, seq) in keys {
        list.push(entry(alloc, user, seq)?)?;
    }
    Ok(list)
}

/// The target of a user key and a sequence number.
fn target(alloc: Global, user: &[u8], seq: u64) -> Result<Target, Memory> {
    Ok(Target {
        user: Bytes::from_slice(alloc, user)?,
        seq,
    })
}

/// The call.
fn call(alloc: Global, asked: Asked) -> Result<Call, Memory> {
    Ok(match asked {
        Asked::Get(user, seq) => Call::Get(target(alloc, user, seq)?),
        Asked::First => Call::First,
        Asked::Last => Call::Last,
        Asked::Seek(user, seq) => Call::Seek(target(alloc, user, seq)?),
        Asked::SeekForPrev(user, seq) => Call::SeekForPrev(target(alloc, user, seq)?),
        Asked::Next => Call::Next,
        Asked::Prev => Call::Prev,
    })
}

/// The answer to a call at a position.
fn answer_as(said: Said, from: Option<usize>) -> Answer {
    let (reply, shown, position) = match said {
        Said::At(at) => (Reply::Shown, Some(at), Some(at)),
        Said::Shows(at) => (Reply::Shown, Some(at), from),
        Said::Nothing(reply, position) => (reply, None, position),
    };
    Answer {
        reply,
        shown,
        position,
    }
}

/// Asserts that the calls are answered so over the entries.
fn assert_said(
    rt: &impl Abort,
    alloc: Global,
    list: &[Entry],
    format: Format,
    prefix: usize,
    steps: &[Step],
) -> Result<(), Fail> {
    for &(from, asked, wanted) in steps {
        let found = answer(list, format, prefix, from, &call(alloc, asked)?);
        assert_eq!(rt; found, answer_as(wanted, from), "{asked:?} at {from:?}");
    }
    Ok(())
}

#[test]
fn calls_over_lists(rt: HostRuntime) -> Result<(), Fail> {
    for (keys, format, prefix, steps) in CALLS {
        let list = entries(rt.alloc(), keys)?;
        assert_said(&rt, rt.alloc(), &list, format, prefix, steps)?;
    }
    Ok(())
}

// User keys bytewise, a key before what it begins; and of one user key the greater sequence number first.
#[test]
fn an_entry_and_targets(rt: HostRuntime) -> Result<(), Fail> {
    let entry = entry(rt.alloc(), b"k", 5)?;
    for (user, seq, stands) in [
        (&b"k"[..], 5u64, Ordering::Equal),
        (b"k", 6, Ordering::Greater),
        (b"k", 4, Ordering::Less),
        (b"j", 4, Ordering::Greater),
        (b"l", 6, Ordering::Less),
        (b"k\x00", 6, Ordering::Less),
        (b"", 4, Ordering::Greater),
    ] {
        let found = target_cmp(&entry, user, seq);
        assert_eq!(rt; found, stands, "to {user:?} at {seq}");
    }
    Ok(())
}

// The laws take no value and answer none: that they can be called is all that a test can show.
#[test]
fn laws(_rt: HostRuntime) {
    targets_compare_as_said();
    get_shows_the_newest();
    visible_is_what_gets_show();
    seek_lands_on_the_first_not_before();
    seek_for_prev_lands_on_the_last_up_to();
    seek_stays_within_a_prefix();
    first_and_next_go_through();
    last_and_prev_go_back();
}
