//! Numbers and block handles of table files; and the bytes and the causes of stopping that all crates
//! above share.
//!
//! # Layout
//!
//! A varint has seven bits of the number in each byte, the lowest seven first. The top bit of a byte
//! says whether another byte follows:
//!
//! ```text
//!        byte 1                       byte 2
//! +---+-------------------+    +---+--------------------+
//! | 1 | bits 0 to 6 of v  |    | 0 | bits 7 to 13 of v  |
//! +---+-------------------+    +---+--------------------+
//!   another byte follows         this is the last
//! ```
//!
//! A signed varint is the varint of the zigzag number of a number that has a sign: 0, 2, 4 for 0, 1, 2 and 1, 3, 5 for
//! -1, -2, -3, so what is near to 0 is short.
//!
//! A fixed number has two, four or eight bytes, the lowest first. A block handle says where a block
//! stands in the file, by two varints:
//!
//! ```text
//! +----------------------------------+-------------------------------------+
//! | offset of the block's first byte | size of the block, with no trailer  |
//! | varint, 1 to 10 bytes            | varint, 1 to 10 bytes               |
//! +----------------------------------+-------------------------------------+
//! ```
//!
//! # Example
//!
//! 300 is 2 * 128 + 44. Its low seven bits, 44 or `2c`, come first, with the top bit set:
//!
//! ```text
//! ac 02                 300 as a varint
//! 01                    -1 as a signed varint
//! 2c 01                 300 as a fixed number of two bytes
//! 2c 01 00 00           300 as a fixed number of four bytes
//! 35 08                 the handle of the block of 8 bytes at 53
//! ```
//!
//! # Promises
//!
//! - Each `put_` call appends the one spelling of its number, or leaves the list as it was where memory runs out.
//! - Each `take_` call answers the value whose one spelling is at the front and how many bytes that takes, or None exactly
//!   where there is none in range. What was put is taken again ([`varint_is_taken_again`], [`varint32_is_taken_again`],
//!   [`signed_is_taken_again`], [`handle_is_taken_again`], [`fixed_is_taken_again`]), and nothing else is taken
//!   ([`what_is_read_stands_there`]).
//! - A varint is the only spelling of its number ([`varint_is_the_spelling`], [`varint_is_the_only_spelling`]) and begins no
//!   other ([`no_varint_begins_another`]). So varints that follow one another need no mark between them.
//!   A signed varint likewise ([`signed_has_one_spelling`]).
//! - [`fixed16`], [`fixed32`] and [`fixed64`] read a number from the front of a slice that is long enough
//!   ([`fixed_reads_back`]).
//! - [`Bytes`] is a list of bytes that owns its memory. [`Memory`] says that memory ran out; [`Refused`] that, or for which
//!   cause the arguments were refused; [`Stop`] that, or what is wrong with a file, or that the device failed.
//!
//! RocksDB also takes a varint that is longer than it need be, and one of ten bytes (five where 32 bits are
//! read) whose number is too large: it drops the high bits. Here both are refused.
//!
//! RocksDB: util/coding.h and util/coding_lean.h; table/format.h (`BlockHandle`); the wiki page "Rocksdb
//! BlockBasedTable Format".
#![tactic(auto)]

mod block_handle;
mod byte_list;
mod laws;
mod put;
mod stops;
mod take;
mod zigzag;

pub use block_handle::Handle;
pub use byte_list::Bytes;
pub use laws::{
    fixed_is_taken_again, fixed_reads_back, handle_is_taken_again, no_varint_begins_another,
    signed_has_one_spelling, signed_is_taken_again, varint_is_taken_again,
    varint_is_the_only_spelling, varint_is_the_spelling, varint32_is_taken_again,
    what_is_read_stands_there,
};
pub use put::{
    put_fixed16, put_fixed32, put_fixed64, put_handle, put_signed64, put_varint32, put_varint64,
};
pub use stops::{Memory, Refused, Stop};
pub use take::{
    fixed16, fixed32, fixed64, take_handle, take_signed64, take_varint32, take_varint64,
};
