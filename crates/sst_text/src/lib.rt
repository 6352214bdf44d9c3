//! Lines of text: the lines of an input, and the entries, calls and replies that a line spells.
//!
//! This layer stands beside the file formats: it knows entries and calls, and an input that is read in pieces, and nothing
//! of a block or a table. All texts are this project's own.
//!
//! # Layout of a line
//!
//! Each line ends with LF. Fields are parted by one blank. Bytes are hex digits in any case, or `-` where there are
//! none; a number is decimal digits without sign or leading zeros, and below 2^56.
//!
//! ```text
//! entry line   USER SEQ KIND VALUE        KIND is D, P, M or S
//! call line    get USER SEQ  |  seek USER SEQ  |  seek_for_prev USER SEQ  |  first  |  last  |  next  |  prev
//! reply line   an entry line  |  none  |  not-positioned
//! ```
//!
//! # Example
//!
//! ```text
//! at  bytes                      what they are
//!  0  36 31                      `61`: the user key is the one byte 61, the letter a
//!  2  20 31                      ` 1`: the sequence number
//!  4  20 50                      ` P`: the kind, a value that was put
//!  6  20 37 38                   ` 78`: the value is the one byte 78, the letter x
//!  9  0a                         the line's end
//! ```
//!
//! # Promises
//!
//! - [`LineReader`] takes an input in pieces and finds each line, the first that is too long or has no end, or the end of
//!   the input. Each byte is searched once, and past a line at most one piece is taken.
//! - [`EntryRoom::read`] and [`call_of_line`] read exactly the lines that spell an entry or a call. What is written reads
//!   back ([`an_entry_line_reads_back`], [`a_call_line_reads_back`]), and a line that reads is the one that is written, but
//!   for the case of its hex digits ([`an_entry_line_is_that_of_its_entry`], [`a_call_line_is_that_of_its_call`]).
//! - [`put_reply_line`] appends the one line of a reply.
//!
//! RocksDB has no such texts; the calls are those of `Iterator` in include/rocksdb/iterator.h.
#![tactic(auto)]

mod call_line;
mod cuts;
mod entry_line;
mod fields;
mod laws;
mod lines;
mod reply_line;

pub use call_line::{call_name, call_of_line, target_of_fields};
pub use entry_line::EntryRoom;
pub use fields::seq_field;
pub use laws::{
    a_call_line_is_that_of_its_call, a_call_line_reads_back, an_entry_line_is_that_of_its_entry,
    an_entry_line_reads_back,
};
pub use lines::{Found, LineReader};
pub use reply_line::{put_entry_line, put_reply_line};
