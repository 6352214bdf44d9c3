//! Entries of a table, and the keys that a file keeps of them; and the calls, replies and refusals that
//! all formats of table files share.
//!
//! # Layout
//!
//! An entry is a user key, a sequence number below 2^56, a kind and a value. A file keeps the first three
//! as one internal key, the user key and behind it the tag:
//!
//! ```text
//! +---------------------+--------------------------------------------------+
//! | user key            | tag: sequence number * 256 + the kind's number   |
//! | any number of bytes | fixed64, low first: the kind, then the sequence  |
//! +---------------------+--------------------------------------------------+
//! ```
//!
//! The kinds' numbers are 0 (Deletion), 1 (Value), 2 (Merge) and 7 (SingleDeletion).
//!
//! A stored key is any key of at least eight bytes in such a place: its last eight are its tag, whatever kind they say.
//! Data blocks have stored keys that are internal keys; the separators of an index need not be.
//!
//! Entries are ordered by their user keys, bytewise. Among equal user keys the greater tag comes first, and so
//! the newer entry before the older.
//!
//! # The list machine
//!
//! A table is a list of entries in this order, and a position in it: the number of an entry, or nowhere. That alone
//! says what the seven calls answer. Get shows the newest entry of a user key that a snapshot sees, and the position
//! stays. The other six move: First, Last, Seek and SeekForPrev from anywhere, Next and Prev from an entry. A move
//! shows the entry where it lands; one that lands nowhere shows none.
//!
//! Plain tables lack Last, SeekForPrev and Prev, and cuckoo tables SeekForPrev; a call that is lacking leaves the
//! position. A plain table whose prefixes have a length shows no entry of another prefix at a Seek
//! ([`seek_stays_within_a_prefix`]).
//!
//! # Example
//!
//! A value of the user key `a` (61) at sequence number 1 has the tag 257, and its internal key is:
//!
//! ```text
//! 61                        the user key
//! 01 01 00 00 00 00 00 00   the tag: kind 1, sequence number 1
//! ```
//!
//! The same at sequence number 2, `61 01 02 00 00 00 00 00 00`, comes before it, though it is greater
//! bytewise.
//!
//! # Promises
//!
//! - [`pack`] appends the internal key of what it is given; where memory runs out the list keeps its old bytes, with others
//!   after them.
//! - [`unpack`] reads an internal key, or answers None where it is none. What was packed is unpacked
//!   ([`packed_is_unpacked`]).
//! - A [`KeyRoom`] holds one internal key after another. It takes memory when it is made, and none later.
//! - [`cmp_internal`] compares internal keys as their entries are ordered ([`internal_order_is_entry_order`]).
//! - [`answer`] answers a call as the list machine does. It counts through the whole list, where a reader is to search.
//! - Where Seek and SeekForPrev land in an ordered list, and what Get shows, is said without a count
//!   ([`targets_compare_as_said`], [`seek_lands_on_the_first_not_before`], [`seek_for_prev_lands_on_the_last_up_to`],
//!   [`get_shows_the_newest`]); what a snapshot sees is what the Gets at it show ([`visible_is_what_gets_show`]).
//! - First and then Next go through the whole list ([`first_and_next_go_through`]), and Last and then Prev back
//!   ([`last_and_prev_go_back`]).
//!
//! RocksDB: db/dbformat.h (`ValueType`, `PackSequenceAndType`, `ParseInternalKey`,
//! `InternalKeyComparator`), db/dbformat.cc (`AppendInternalKey`), include/rocksdb/iterator.h (`Iterator`) and
//! include/rocksdb/db.h (`DB::Get`).
#![tactic(auto)]

mod calls;
mod entries;
mod faults;
mod keys;
mod list_laws;
mod list_machine;
mod reading;
mod room;

pub use calls::{Answer, Call, Format, Reply, Target};
pub use entries::{Entry, EntryView, Kind};
pub use faults::WriteFault;
pub use keys::{TAG_LENGTH, cmp_internal, internal_order_is_entry_order, pack};
pub use list_laws::{
    first_and_next_go_through, get_shows_the_newest, last_and_prev_go_back,
    seek_for_prev_lands_on_the_last_up_to, seek_lands_on_the_first_not_before,
    seek_stays_within_a_prefix, targets_compare_as_said, visible_is_what_gets_show,
};
pub use list_machine::{answer, target_cmp};
pub use reading::{packed_is_unpacked, unpack};
pub use room::{KeyRoom, LONGEST_KEY};
