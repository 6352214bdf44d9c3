//! What calls answer over a list of entries, by counting.
ghost use Rattle.std.specs.Prelude.{◌≡◌};
ghost use Rattle.sst_key.specs.ListMachine as machine;
ghost use Rattle.sst_key.specs.ListMachine.{answer_of};

use crate::calls::{Answer, Call, Format, Reply, Target};
use crate::entries::Entry;
use std::cmp::Ordering;

/// How an entry stands to a target, a user key and a sequence number: the user keys bytewise, and among equal ones the
/// greater sequence number first. Takes no memory.
///
/// Less says that the entry is before the target; then a Seek to the target passes it.
pub fn target_cmp(entry: &Entry, user: &[u8], seq: u64) -> Ordering
    ensures { result ≡ machine.target_cmp user.now seq entry.now }
{
    match entry.user.as_slice().cmp(user) {
        Ordering::Equal => seq.cmp(&entry.seq),
        other => other,
    }
}

/// How many entries are before the target.
fn below(entries: &[Entry], target: &Target) -> usize
    ensures { result ≡ machine.below entries.now target.now.user target.now.seq }
{
    entries
        .iter()
        .filter(|entry| target_cmp(*entry, target.user.as_slice(), target.seq).is_lt())
        .count()
}

/// How many entries are before the target or at it.
fn up_to(entries: &[Entry], target: &Target) -> usize
    ensures { result ≡ machine.up_to entries.now target.now.user target.now.seq }
{
    entries
        .iter()
        .filter(|entry| target_cmp(*entry, target.user.as_slice(), target.seq).is_le())
        .count()
}

/// The place, if it is one of the list.
fn place_in(entries: &[Entry], i: usize) -> Option<usize>
    ensures { result ≡ machine.place_in entries.now i }
{
    if i < entries.len() { Some(i) } else { None }
}

/// The place before, if there is one.
fn place_before(i: usize) -> Option<usize>
    ensures { result ≡ machine.place_before i }
{
    i.checked_sub(1)
}

/// Where Next lands.
fn next(entries: &[Entry], i: usize) -> Option<usize>
    ensures { result ≡ machine.next_of entries.now i }
{
    if i < entries.len() {
        place_in(entries, i + 1)
    } else {
        None
    }
}

/// What Get shows.
fn get(entries: &[Entry], target: &Target) -> Option<usize>
    ensures { result ≡ machine.get_of entries.now target.now.user target.now.seq }
{
    let newest = below(entries, target);
    match entries.get(newest) {
        Some(entry) => {
            if entry.user.as_slice() == target.user.as_slice() {
                Some(newest)
            } else {
                None
            }
        }
        None => None,
    }
}

/// The user key has a whole prefix, and the entry's begins with it.
fn begins_alike(entry: &Entry, prefix: usize, user: &[u8]) -> bool
    ensures { result ≡ machine.begins_alike prefix user.now entry.now }
{
    if user.len() < prefix {
        return false;
    }
    let (front, _) = user.split_at(prefix);
    entry.user.as_slice().starts_with(front)
}

/// A plain table whose prefixes have a length seeks within the prefix of the target alone.
fn is_prefix_mode(format: Format, prefix: usize) -> bool
    ensures { result ≡ machine.is_prefix_mode format prefix }
{
    match format {
        Format::Plain => prefix > 0,
        Format::Block => false,
        Format::Cuckoo => false,
    }
}

/// Where Seek lands in a format.
fn seek(entries: &[Entry], format: Format, prefix: usize, target: &Target) -> Option<usize>
    ensures { result ≡ machine.seek_in format prefix entries.now target.now.user target.now.seq }
{
    let first = below(entries, target);
    if !is_prefix_mode(format, prefix) {
        return place_in(entries, first);
    }
    match entries.get(first) {
        Some(entry) => {
            if begins_alike(entry, prefix, target.user.as_slice()) {
                Some(first)
            } else {
                None
            }
        }
        None => None,
    }
}

/// The format lacks the call.
fn lacks(format: Format, call: &Call) -> bool
    ensures { result ≡ machine.lacks format call.now }
{
    match (format, call) {
        (Format::Plain, Call::Last) => true,
        (Format::Plain, Call::SeekForPrev(_)) => true,
        (Format::Plain, Call::Prev) => true,
        (Format::Cuckoo, Call::SeekForPrev(_)) => true,
        _ => false,
    }
}

/// An entry is shown, or none, and the position is the one given.
fn shows(position: Option<usize>, shown: Option<usize>) -> Answer
    ensures { result ≡ machine.shows position shown }
{
    let reply = match shown {
        Some(_) => Reply::Shown,
        None => Reply::None,
    };
    Answer {
        reply,
        shown,
        position,
    }
}

/// A move shows where it landed, and that is the position.
fn lands(place: Option<usize>) -> Answer
    ensures { result ≡ machine.lands place }
{
    shows(place, place)
}

/// A call that the format lacks.
fn lacking(position: Option<usize>) -> Answer
    ensures { result ≡ machine.lacking position }
{
    Answer {
        reply: Reply::Lacks,
        shown: None,
        position,
    }
}

/// A step from nowhere.
fn not_positioned() -> Answer
    ensures { result ≡ machine.not_positioned }
{
    Answer {
        reply: Reply::NotPositioned,
        shown: None,
        position: None,
    }
}

/// What a call answers that the format has.
fn answer_to(
    entries: &[Entry],
    format: Format,
    prefix: usize,
    position: Option<usize>,
    call: &Call,
) -> Answer
    ensures { result ≡ machine.answer_to format prefix entries.now position call.now }
{
    match call {
        Call::Get(target) => shows(position, get(entries, target)),
        Call::First => lands(place_in(entries, 0)),
        Call::Last => lands(place_before(entries.len())),
        Call::Seek(target) => lands(seek(entries, format, prefix, target)),
        Call::SeekForPrev(target) => lands(place_before(up_to(entries, target))),
        Call::Next => match position {
            Some(i) => lands(next(entries, i)),
            None => not_positioned(),
        },
        Call::Prev => match position {
            Some(i) => lands(place_before(i)),
            None => not_positioned(),
        },
    }
}

/// What a call answers over the list of a table's entries, at a position.
///
/// It is the yardstick of the readers: it counts through the whole list, where a reader searches. It takes no
/// memory. `prefix` is the length of a plain table's prefixes, in bytes, and 0 where it has none; the other
/// formats pass it by. `position` is the number of an entry, or None where it is nowhere.
///
/// RocksDB: `DB::Get` and `Iterator` in include/rocksdb.
pub fn answer(
    entries: &[Entry],
    format: Format,
    prefix: usize,
    position: Option<usize>,
    call: &Call,
) -> Answer
    ensures exact { result ≡ answer_of format prefix entries.now position call.now }
{
    if lacks(format, call) {
        lacking(position)
    } else {
        answer_to(entries, format, prefix, position, call)
    }
}
