//! The reader of block-based files: a file is opened and answers calls, or the first thing that is wrong with it is named.
//!
//! # The way of a call
//!
//! The index of a file is a tree: the rows of its top block lead to the parts of the index, and the rows of a part to data
//! blocks. A whole index is the tree in which each row of the top block is itself the one row of a part.
//!
//! ```text
//!          load            draw_framed, check_block                 search
//! file ----------> footer --------------------------> top block ----------> part ----> data block ----> row
//!        (sst_meta)        each block is checked before a row of it is shown
//!
//! top block             m                 z        the first separator that isn't before the target leads to a part,
//!                       |                 |
//! parts          [ d         k ]   [ r         z ]   the first such row of the part to a data block,
//!                  |         |       |         |
//! data blocks   [ a b d ] [ e k ] [ n r ]   [ s z ]   and there the rows before the target are passed
//! ```
//!
//! - Seek lands on the first row behind those that it passed, be it in the next data block or part, SeekForPrev on the last
//!   row that it passed. Where every row of the part is before the target, all data blocks of the part are passed.
//! - Where every separator of the top block is before the target, Seek goes nowhere, and SeekForPrev to the last row.
//! - A separator that is a user key is kept as its stored key with tag 0, so that all compare alike (`separator_of`,
//!   sst_bbt_spec).
//!
//! For now a reader keeps the tree in three lists (`OpenTable`, specs/TableBlocks.antt). Each part and each data block is kept
//! by its separator and where it ends in the next list, and a cursor is a number in the last:
//!
//! ```text
//! parts            m 2              z 4
//! data blocks      d 3     k 5      r 7    z 9
//! entries          a b d   e k      n r    s z
//! ```
//!
//! # Examples
//!
//! In the tree above a Seek to `l` is led by `m` to the first part, where `d` and `k` are both before it. So all five entries
//! of this part are passed, and Seek lands on `n`, the first entry of the next part. SeekForPrev to `l` lands on `k`.
//!
//! In a file with a whole index of three data blocks of one user key, `6b 9`, `6b 5` and `6b 2`, each separator is the one key of
//! its block. A Get of `6b` at the snapshot 8 passes the separator `6b 9`, which is before the target, comes to the block of
//! `6b 5` and answers its row:
//!
//! ```text
//! separator   bytes                        before the target 6b 8?
//! 6b 9        6b 01 09 00 00 00 00 00 00   yes: a greater number comes first
//! 6b 5        6b 01 05 00 00 00 00 00 00   no: this block is looked into
//! ```
//!
//! # Promises
//!
//! - [`BbtReader::open`] answers the parts to which the file opens (`Opens`, sst_bbt_spec), or the first thing that is wrong, in
//!   the order of loading, top block, and each part with its data blocks (`FailsToOpen`, specs/OpeningFaults.antt); a checksum
//!   that differs is named before a row of its block is read. No file changes, and a fault of the folder is answered as one.
//! - Each file opens to parts or fails to open with one fault, and not both ([`a_file_opens_or_fails`]); that fault is one
//!   that the file shows, and a file that opens shows none ([`a_file_that_opens_shows_no_fault`]).
//! - Of several things that are wrong with a file, the one whose step comes first is named: the steps of loading, the top block
//!   of the index, and each part with its data blocks (`OpenStep`, specs/OpeningSteps.antt; [`the_fault_of_opening_is_the_first`]).
//! - A [`BbtReader`] has one seat for each [`Cursor`] that may be open at a time. On a file that opens, each call moves its cursor
//!   as the way over the parts says (`answer_in_parts`, sst_bbt_spec), whatever the form of the index; on one that stands for a
//!   list, as the list machine says. Every other cursor stays where it stood (`OthersStay`, specs/Positions.antt). So each
//!   cursor answers as if it were alone.
//! - These facts are relations between a reader, its cursors and a file: `Of`, `On` and `At` (specs/Positions.antt). `open` and
//!   `cursor` give them and each call gives them again, so a caller chains them and looks into none. They need that the folder
//!   tells, under the reader's name, the file that was opened (`Tells`).
//! - Whatever the folder tells, a number falls with each Next from an entry, and is 0 where a cursor stands nowhere (`rest`,
//!   specs/Positions.antt). So a walk ends.
//! - Each cursor must be closed, and the reader shut: a program that leaves one open doesn't compile. An entry is lent, and a
//!   program that holds it over a move of any cursor doesn't compile either.
//!
//! For now all entries of a file are kept in memory, so the calls of a cursor don't touch the folder, and answer even where it
//! tells nothing (`KeptMove`, specs/Kept.antt).
//!
//! RocksDB: wiki pages "Rocksdb BlockBasedTable Format" and "Partitioned Index Filters"; `BlockBasedTable` in
//! table/block_based/block_based_table_reader.cc, `PartitionedIndexIterator` in
//! table/block_based/partitioned_index_iterator.cc.
#![tactic(auto)]

mod bbt_fault;
mod bbt_reader;
mod block_rows;
mod cursor;
mod fault_text;
mod kept_table;
mod opening_laws;
mod search;

pub use bbt_fault::BbtFault;
pub use bbt_reader::BbtReader;
pub use cursor::{Cursor, CursorStop};
pub use opening_laws::{
    a_file_opens_or_fails, a_file_that_opens_shows_no_fault, the_fault_of_opening_is_the_first,
};
