//! The writer of block-based files: entries are added in order, and the bytes of the file come out.
//!
//! # Layout of a file
//!
//! ```text
//! +------------+-----+------------+-------+------------------+-----------------+--------+
//! | data block | ..  | data block | index | properties block | metaindex block | footer |
//! +------------+-----+------------+-------+------------------+-----------------+--------+
//! |<-- add, as blocks end ------->|<-- finish ------------------------------------------>|
//!
//! the index, whole or in parts:
//! +-------------+      +-----------+-----+-----------+-----------+
//! | index block |  or  | partition | ..  | partition | top block |
//! +-------------+      +-----------+-----+-----------+-----------+
//! ```
//!
//! Each block has a trailer of five bytes: a type byte and its masked CRC32C. A data block is ended where it has as many
//! bytes as the option says. Each row of the index block or of a partition leads to a data block; its key, the separator,
//! isn't before the block's last key, and is before the first key of the next. Each row of the top block leads to a
//! partition by its last separator. The crate `sst_index` makes the index.
//!
//! From version 3 of the format on separators are user keys, where no two neighbouring data blocks share one; in version 4
//! handles are differences where their rows share bytes. The properties say which it is, and whether the index has parts.
//!
//! # Example
//!
//! The file of the one entry with user key `a`, sequence number 1 and value `x`, of version 2 and with a whole index, has
//! 402 bytes. A user key of one byte gets no shorter separator:
//!
//! ```text
//!  at  bytes                                       what they are
//!   0  00 09 01 61 01 01 00 00 00 00 00 00 78      the data block: the row of the entry,
//!  13  00 00 00 00 01 00 00 00                     and one restart
//!  21  00 84 dd 88 74                              its trailer: type byte, checksum
//!  26  00 09 02 61 01 01 00 00 00 00 00 00 00 15   the index block: the separator, which is the last key,
//!                                                  leads to the block of 21 bytes at 0,
//!  40  00 00 00 00 01 00 00 00                     and one restart
//!  48  00 36 49 25 bf                              its trailer
//!  53  00 24 04 72 6f .. 70 65 00 00 00 00         the properties block: `rocksdb.block.based.table.index.type`
//!                                                  is 0,
//!  96  08 0a 1a 63 6f .. 74 6f 72                  and of `rocksdb.comparator` the first 8 bytes are shared;
//!                                                  ten more, up to
//! 285  0c 0a 01 76 61 6c 75 65 2e 73 69 7a 65 01   `rocksdb.raw.value.size`, which is 1,
//! 299  00 00 00 00 01 00 00 00                     and one restart
//! 307  00 b9 6d 74 e7                              its trailer
//! 312  00 12 03 72 6f .. 65 73 35 fe 01            the metaindex block: `rocksdb.properties` leads to the block
//!                                                  of 254 bytes at 53,
//! 336  00 00 00 00 01 00 00 00                     and one restart
//! 344  00 af b0 0b d0                              its trailer
//! 349  01 b8 02 20 1a 16                           the footer: the checksum type, the metaindex of 32 bytes
//!                                                  at 312, the index of 22 bytes at 26,
//! 355  00 .. 00                                    35 zeros,
//! 390  02 00 00 00 f7 cf f4 85 b7 41 e2 88         the version and the magic number
//! ```
//!
//! # Promises
//!
//! - [`BbtWriter::add`] takes an entry or refuses it for the first reason in a fixed order, and a refused entry leaves the
//!   writer as it was. [`BbtWriter::finish`] appends the rest: the file that was appended is then what is `Written` for the
//!   list (specs/Written.antt), to the byte.
//! - What is `Written` for a list stands for it ([`written_file_stands_for_its_list`]), for every list within the limits, and
//!   all options that may be chosen.
//! - Data blocks end where they are full, and no sooner; no other blocks of the list do
//!   ([`a_list_is_cut_where_blocks_are_full`]).
//!
//! RocksDB: wiki pages "Rocksdb BlockBasedTable Format" and "Partitioned Index Filters"; `BlockBasedTableBuilder` in
//! table/block_based/block_based_table_builder.cc.
#![tactic(auto)]

mod bbt_options;
mod bbt_writer;
mod laws;
mod properties;
mod table_parts;

pub use bbt_options::BbtOptions;
pub use bbt_writer::BbtWriter;
pub use laws::{a_list_is_cut_where_blocks_are_full, written_file_stands_for_its_list};
