//! The checksum of a stored block, a masked CRC32C; and the hash of a key in a legacy Bloom filter.
//!
//! # Layout
//!
//! Each block of a block-based file is followed by a trailer of five bytes. The first says how the
//! block is compressed. The other four hold the checksum, over the block and that byte together:
//!
//! ```text
//! +---------------------+-----------+--------------------------------------+
//! | block               | type byte | masked checksum, fixed32, low first  |
//! | any number of bytes | 1 byte    | 4 bytes                              |
//! +---------------------+-----------+--------------------------------------+
//! |<-------- crc32c over these ---->|
//! ```
//!
//! The CRC32C is the remainder by the polynomial 0x1EDC6F41 (Castagnoli), bits of a byte lowest
//! first, started as all ones and inverted at the end. With the lowest bit first the polynomial is
//! turned round too: the definition has it as 0x82F63B78. A file never keeps the CRC as it is, since the
//! CRC of bytes that have their own CRC among them tells little. It keeps the masked form: turned
//! right by 15 bits, plus 0xa282ead8, in 32 bits.
//!
//! # Example
//!
//! The block `6b 65 79` (the text `key`), not compressed, is stored as eight bytes:
//!
//! ```text
//! 6b 65 79              the block
//! 00                    the type byte: not compressed
//! 7e 04 ae f3           0xf3ae047e, which is 0x8cd32895 masked
//! ```
//!
//! # The hash
//!
//! [`hash32`] takes a key four bytes at a time, as a number whose lowest byte is first, all in 32 bits: the number is added to
//! the hash, the sum is multiplied by c6a4a793, and its upper half is mixed into the lower. The last one to three bytes are added
//! in their places, each as a number that has a sign; that sum is multiplied too, and its top byte mixed into the lowest. It begins
//! with a seed, mixed with the length times the multiplier. At the seed 397 no byte gives 397; at bc9f1d34, that of filters, the one
//! byte `9a` gives be705aed.
//!
//! # Promises
//!
//! - [`crc32c`] is the CRC32C of its bytes, as the definition says it bit by bit, at any length.
//! - [`mask`] is the stored form of a checksum, and [`unmask`] gives back what was masked: no two
//!   checksums have one stored form.
//! - [`hash32`] is the hash of its bytes, as the definition says it by groups of four, at any length.
//! - No call fails, allocates or changes its argument.
//!
//! RocksDB: util/crc32c.h (`Value`, `Mask`, `Unmask`) and util/crc32c.cc; util/hash.cc (`Hash`). For the trailer: the wiki
//! page "Rocksdb BlockBasedTable Format", and table/format.cc (`ComputeBuiltinChecksum`).
#![tactic(auto)]

mod checksum;
mod hash;
mod masking;
mod tables;

pub use checksum::crc32c;
pub use hash::hash32;
pub use masking::{mask, unmask};
