//! The index of a table: which keys stand between its data blocks, and the index blocks that lead from them to the data
//! blocks.
//!
//! The key that stands for a data block is its separator: it isn't before the last key of the block, and is before the first
//! key of the next one. So a target is in the first block whose separator isn't before it, or nowhere. A separator need not be a
//! key of the table, and a short one keeps the index small. An index block is a block of `sst_block` whose rows are pairs of a
//! separator and the handle of the block to which it leads.
//!
//! # Separators
//!
//! A separator is made of the last key of its block and of the first key of the next block, which are stored keys. At the
//! first byte in which their user keys differ, that of the last key is raised by one, and what follows is left out, if
//! something follows and the raised byte is still below that of the next key. Behind it stands the greatest tag, eight bytes
//! FF. Else the separator is the last key itself. Behind the last block there is no next key; there the first byte that isn't
//! FF is raised, if something follows.
//!
//! ```text
//! last user key   first of the next   user key of the separator
//! 61 61 61        63 61               62
//! 61 61 61        61 63 61            61 62
//! 61 61 61        62 61 61            61 61 61    the raised byte would be 62 too
//! 61 ff 61        62 61               61 FF 61
//! 61 61                               62
//! 61                                  61          nothing follows
//! FF FF                               FF FF
//! ```
//!
//! From version 3 of the format on, the separators of a table are user keys, with no tag, exactly where no two neighbouring
//! blocks share a user key.
//!
//! # Layout
//!
//! An index is one block that leads to all data blocks, or it has two levels: partitions of so many rows, the last perhaps
//! with fewer, and behind them the top block, which leads to each partition by its last separator. An index of no data block has
//! a top block with no row. Each block is stored with its trailer.
//!
//! ```text
//! | partition | trailer | .. | partition | trailer | top block | trailer |
//! ```
//!
//! # Example
//!
//! The index of the three data blocks of 80 bytes at 0, 85 and 170, each with an entry of the user key k, at the sequence
//! numbers 9, 5 and 2. It begins at 255, and a partition has two rows, each of which is a restart. As the blocks share a user
//! key, the separators are their last keys:
//!
//! ```text
//! at  bytes                                        what they are
//! 255 00 09 02 6b 01 09 00 00 00 00 00 00 00 50    k at 9 leads to 0, 80 bytes
//! 269 00 09 02 6b 01 05 00 00 00 00 00 00 55 50    k at 5 leads to 85, 80 bytes
//! 283 00 00 00 00 0e 00 00 00 02 00 00 00          two restarts, at 0 and 14
//! 295 00 c8 12 b4 72                               the trailer
//! 300 00 09 03 6b 01 02 00 00 00 00 00 00 aa 01 50 k at 2 leads to 170, 80 bytes
//! 315 00 00 00 00 01 00 00 00                      the one restart
//! 323 00 a7 bf 17 d9                               the trailer
//! 328 00 09 03 6b 01 05 00 00 00 00 00 00 ff 01 28 k at 5 leads to 255, 40 bytes
//! 343 00 09 03 6b 01 02 00 00 00 00 00 00 ac 02 17 k at 2 leads to 300, 23 bytes
//! 358 00 00 00 00 0f 00 00 00 02 00 00 00          two restarts
//! 370 00 5d d7 43 9c                               the trailer
//! ```
//!
//! # Handles as differences
//!
//! From version 4 on a row has no length of its value, and a row that shares bytes with the one before tells its handle by
//! that one: its block begins behind the other's trailer, so the value is only the size less the size before, as a signed
//! varint. Data blocks stand so, and partitions. Each block of an index begins with a row that shares nothing and tells its
//! handle whole.
//!
//! The same three data blocks with 100, 200 and 120 bytes, at 0, 105 and 310, in version 4, as one block whose one restart
//! begins all rows:
//!
//! ```text
//! at bytes                                     what they are
//!  0 00 09 6b 01 09 00 00 00 00 00 00 00 64    k at 9 leads to 0, 100 bytes
//! 13 02 07 05 00 00 00 00 00 00 c8 01          k at 5, 100 bytes more: it leads to 0 + 100 + 5 = 105, 200 bytes
//! 24 02 07 02 00 00 00 00 00 00 9f 01          k at 2, 80 bytes fewer: it leads to 105 + 200 + 5 = 310, 120 bytes
//! 35 00 00 00 00 01 00 00 00                   the one restart
//! ```
//!
//! # Filters in parts
//!
//! A table may have one filter for the user keys of each row of its index's top block. They stand one behind the other, and
//! behind them a top block of their own, which leads to the i-th filter from the i-th key of the index's top block, in the
//! form of the index. Each is stored with its trailer.
//!
//! ```text
//! | filter | trailer | .. | filter | trailer | top block | trailer |
//! ```
//!
//! A user key is sought in the filter of the first separator that isn't before it. A stored separator of this very user key leaves
//! that open, because entries of the user key may stand on both sides of it; then no filter is asked. Behind all separators the
//! table has no key.
//!
//! The filter of two data blocks with an entry each, of the user keys 9A and 9C, at 10 bits a key; it begins at 172, and the
//! separators are the user keys:
//!
//! ```text
//! at  bytes                                        what they are
//! 172 64 bytes, 06, 01 00 00 00                    the filter of 9A
//! 241 00 8e 65 25 e2                               the trailer
//! 246 64 bytes, 06, 01 00 00 00                    the filter of 9C
//! 315 00 87 39 8c a3                               the trailer
//! 320 00 01 03 9a ac 01 45 00 01 03 9c f6 01 45    9A leads to 172, 69 bytes; 9C leads to 246, 69 bytes
//! 334 00 00 00 00 07 00 00 00 02 00 00 00          two restarts, at 0 and 7
//! 346 00 d7 0c 0e ca                               the trailer
//! ```
//!
//! # Promises
//!
//! - [`put_separator`] appends the separator (`separator_of`, specs/Separators.antt), and takes no other memory.
//! - A separator separates, among stored keys, and also by user keys alone where the two user keys differ; and it is no longer
//!   than the last key ([`a_separator_separates`], [`a_separator_ends`]).
//! - [`TopBuilder`] makes the one index block of its pairs (`index_block`, specs/IndexBlock.antt), and that block says these pairs
//!   (`IndexRows` of `sst_block`; [`an_index_block_says_its_pairs`]). Where handles are differences, it asks that each block
//!   begins behind the one before (`AreBehind`, specs/Behind.antt).
//! - [`IndexBuilder`] takes where the data blocks end, and appends the bytes of their index (`index_bytes`,
//!   specs/IndexBytes.antt). It tells the flags of the index, and the keys of its top block. It keeps each separator once.
//! - Each partition says its part of the pairs, and the top block says where each partition stands, by its last separator
//!   ([`an_index_says_its_pairs`]); the partitions have all pairs ([`partitions_are_the_pairs`]). In a file each stands at its
//!   handle ([`an_index_stands_in_a_file`]).
//! - [`IndexIter`] goes over the pairs of an index block that was checked: each move is one move on their list (`WalksPairs`,
//!   specs/Walk.antt), and a seek goes to the first pair whose separator isn't before the target
//!   ([`a_seek_passes_the_pairs_before`]). A walk that is paused keeps an [`IndexPlace`], and goes on over the same bytes later.
//!   It takes no memory.
//! - [`pick_part`] picks the part of a filter that has a user key, by the top block of the parts: that of the first separator
//!   that isn't before the key (`part_of`, specs/Pick.antt; [`a_part_is_the_first_not_before`]). A stored separator of this very
//!   user key leaves the part open. It takes no memory.
//! - [`PartFilterBuilder`] takes the user keys of each part, and appends the bytes of the filter (`filter_bytes`,
//!   specs/FilterBytes.antt). Where the user keys of each part stand between the separators (`FitParts`, specs/FilterKeys.antt), the
//!   part that is picked for one of them is the one that has it, and doesn't deny it ([`no_key_of_a_part_is_denied`]).
//! - Where memory runs out a call answers so, and so does each later call of that builder that can fail.
//!
//! RocksDB: table/block_based/index_builder.h and index_builder.cc, and util/comparator.cc. RocksDB shortens separators in more
//! cases, and ends a partition by its size; which keys are shortened and how many rows a partition has is this project's own.
#![tactic(auto)]

mod builder;
mod filter_laws;
mod filter_parts;
mod flags;
mod laws;
mod pick;
mod separators;
mod top;
mod walk;
mod writing;

pub use builder::IndexBuilder;
pub use filter_laws::no_key_of_a_part_is_denied;
pub use filter_parts::PartFilterBuilder;
pub use flags::IndexFlags;
pub use laws::{
    a_part_is_the_first_not_before, a_seek_passes_the_pairs_before, a_separator_ends,
    a_separator_separates, an_index_block_says_its_pairs, an_index_says_its_pairs,
    an_index_stands_in_a_file, partitions_are_the_pairs,
};
pub use pick::{Pick, pick_part};
pub use separators::put_separator;
pub use top::TopBuilder;
pub use walk::{IndexIter, IndexPlace};
