//! Blocks: the unit in which a block-based table file is read and written.
//!
//! A block is a list of rows whose keys increase, each with a value. The entries of a table, its index and its
//! meta blocks are all such lists; what a key and a value are there is the block's [`RowForm`].
//!
//! # Layout
//!
//! ```text
//! | row | row | .. | row | restart | .. | restart | number of restarts |
//!                          4 bytes        4 bytes   4 bytes
//!
//! row:  | shared | rest | value length | last bytes of the key | value       |
//!         varint   varint varint         `rest` bytes            value length
//! ```
//!
//! - The key of a row is the first `shared` bytes of the key of the row before it, and then the `rest` bytes
//!   that stand in the row.
//! - A restart is the place in the block, in four bytes, the lowest first, where a row begins that shares
//!   nothing. A reader can begin there. The first restart is 0, also where the block has no row, and the
//!   restarts increase.
//! - The three lengths are varints, in the shortest spelling. Rows of an index whose handles are differences have no
//!   value length; their values are handles, which tell their own. The number of restarts takes four bytes, the
//!   lowest first.
//!
//! RocksDB: table/block_based/block_builder.cc (the layout at its top), and the wiki page "Rocksdb
//! BlockBasedTable Format".
//!
//! # Example
//!
//! The data block of one entry, whose user key is `a`, whose sequence number is 1, and which sets the value `x`:
//!
//! ```text
//! at  bytes                       what they are
//!  0  00                          the key shares nothing with a row before it
//!  1  09                          nine bytes of the key follow
//!  2  01                          the value has one byte
//!  3  61                          the user key, a
//!  4  01 01 00 00 00 00 00 00     the tag, sequence number * 256 + 1
//! 12  78                          the value, x
//! 13  00 00 00 00                 the one restart, at 0
//! 17  01 00 00 00                 there is one restart
//! ```
//!
//! # Promises
//!
//! - [`BlockBuilder`] makes the one block of given rows (`block_of`, specs/Chosen.antt), as RocksDB's own builder has it, and
//!   that block stands for them ([`chosen_block_stands_for_its_rows`], [`each_group_begins_whole`]). It knows the length of the
//!   block that it would make now ([`BlockBuilder::size_now`]). Once memory ran out, each later call that can fail answers so.
//! - [`check_block`] says of any bytes how many rows they have as a block of some form, or their first damage (`block_read`,
//!   specs/BlockReading.antt, which has the order). Nothing of a block is taken on trust. How much of a common front a row shares,
//!   and which of the rows that share nothing are restarts, is free.
//! - What is read is what the bytes stand for (`Block`, specs/Block.antt), whoever made them
//!   ([`reading_finds_exactly_the_rows`], [`a_block_has_one_list_of_rows`], [`first_fault_is_first`]). An index block says one list
//!   of separators and handles (`IndexRows`, specs/IndexRows.antt, [`index_rows_are_one`]).
//! - [`BlockIter`] goes over the rows of a block that was checked, forward and back, to the row at any restart, and to the first
//!   row that isn't before a target ([`a_seek_passes_the_rows_before`]): there it halves the restarts and decodes the rows of one.
//!   It says where its row begins. A key stays until the next move, and a value as long as the block. It takes no memory, and no
//!   move fails. A walk that is paused keeps a [`Place`] and no bytes of the block, and goes on over the same bytes later.
//!
//! A block with a hash part is neither made nor read yet.
#![tactic(auto)]

mod builder;
mod check;
mod fault;
mod iter;
mod laws;
mod place;
mod row;
mod row_form;

pub use builder::{BlockBuilder, common_front};
pub use check::check_block;
pub use fault::BlockFault;
pub use iter::BlockIter;
pub use laws::{
    a_block_has_one_list_of_rows, a_seek_passes_the_rows_before, chosen_block_stands_for_its_rows,
    each_group_begins_whole, first_fault_is_first, index_rows_are_one,
    reading_finds_exactly_the_rows,
};
pub use place::Place;
pub use row_form::RowForm;
