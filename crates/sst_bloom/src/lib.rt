//! The filter of a table: bits by which a reader tells that a user key isn't there, without a look at the data.
//!
//! A legacy Bloom filter keeps a few bits of each user key that was added. Where one of the bits of a key isn't set, the key was
//! not added, and the filter denies it. Where all are set it may have been, or others have set them. So a filter may fail to
//! deny a key that isn't there, and never denies one that is.
//!
//! # Layout
//!
//! The bits stand in lines of 64 bytes, all bits of a key in one line, so that one look into memory reads them. The number of
//! lines is odd.
//!
//! ```text
//! +----------+----------+----+----------+------------------+-------------------------------+
//! | line 0   | line 1   | .. | line n-1 | number of probes | n, fixed32, low first         |
//! | 64 bytes | 64 bytes |    | 64 bytes | 1 byte           | 4 bytes                       |
//! +----------+----------+----+----------+------------------+-------------------------------+
//! ```
//!
//! Bit b of a line is bit b mod 8 of its byte b / 8, the lowest bit of a byte first. The hash h of a user key tells its bits
//! (`hash32` of `sst_sums`, with the seed bc9f1d34). They are in the line h mod n. Probe i takes the bit h + i * s, in 32 bits,
//! mod 512, where the step s is h turned right by 17 bits.
//!
//! Of k user keys at b bits each, there are k * b / 512 lines, rounded up and then made odd; and b * 69 / 100 probes, rounded
//! down, but one at least and 30 at most.
//!
//! # Example
//!
//! The one user key 9A at 10 bits: its hash is be705aed. There is one line, and 6 probes. The step is 2d76df38, so the probes
//! are be705aed, ebe73a25, 195e195d, 46d4f895, 744bd7cd and a1c2b705; modulo 512 they are 237, 37, 349, 149, 461 and 261. Each is
//! bit 5 of a byte, of the bytes 29, 4, 43, 18, 57 and 32:
//!
//! ```text
//! at bytes                                             what they are
//!  0 00 00 00 00 20 00 00 00 00 00 00 00 00 00 00 00   the line
//! 16 00 00 20 00 00 00 00 00 00 00 00 00 00 20 00 00
//! 32 20 00 00 00 00 00 00 00 00 00 00 20 00 00 00 00
//! 48 00 00 00 00 00 00 00 00 00 20 00 00 00 00 00 00
//! 64 06                                                six probes
//! 65 01 00 00 00                                       one line
//! ```
//!
//! # What is read
//!
//! A reader takes any bytes for a filter, by these rules in order:
//!
//! 1. Five bytes or fewer deny each key: nothing was added.
//! 2. Where the number of probes is 0, or 128 and more, as newer filters have it, no key is denied.
//! 3. Where there is no line, or the bytes before the last five aren't so many lines of a power of two bytes each, none is.
//! 4. Else each line has that power of two bytes, and a key is denied where one of its bits isn't set.
//!
//! # Promises
//!
//! - [`BloomBuilder`] makes the one filter of its user keys (`bloom_filter`, specs/Filter.antt). It keeps four bytes of each key.
//!   Each is added once: the number of keys decides how long the filter is.
//! - A filter is the only list of bytes whose length, bits and last bytes are those of its keys ([`a_filter_is_the_only_one`]).
//! - [`Bloom`] denies exactly what its bytes deny by the rules above (`denies`, specs/Reading.antt). It takes no memory.
//! - No key is denied by the filter to which it was added ([`an_added_key_is_not_denied`]).
//! - Where memory runs out a call answers so, and so does each later call of that builder.
//!
//! RocksDB: table/block_based/filter_policy.cc and util/bloom_impl.h; the wiki page "RocksDB Bloom Filter". RocksDB's builder
//! counts two keys once where they come one after the other and have one hash; here each key counts.
#![tactic(auto)]

mod builder;
mod laws;
mod lines;
mod reading;

pub use builder::BloomBuilder;
pub use laws::{a_filter_is_the_only_one, an_added_key_is_not_denied};
pub use reading::Bloom;
