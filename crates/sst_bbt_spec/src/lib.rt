//! Block-based files: what the bytes of one stand for. Here stand definitions and the laws that join them, and no
//! code: the writer and the reader of such files cite them side by side.
//!
//! # Layout of a file
//!
//! ```text
//! | data block | data block | .. | index block | properties block | metaindex block | footer |
//!   ^            ^                 |                ^                 |    ^              | |
//!   |            |                 | separator      |                 |    |              | |
//!   +------------+------ handles --+ of each        +----- handle ----+    +--- handles --+ |
//!                                    ^                                                      |
//!                                    +------------------------------------------ handle ----+
//! ```
//!
//! - A block is framed: behind it stand a type byte and the checksum of both (`Framed`, `sst_device`).
//! - What the file says of itself is `Meta` (`sst_meta`): the footer, the metaindex, the properties.
//! - Each row of a whole index leads to a data block: its key is the separator of the block, its value the block's
//!   handle (`LeadToBlocks`, specs/IndexLeads.antt).
//! - The entries of all data blocks, in the order of the index, are the list. No key of a block is after its separator,
//!   and each key of the blocks behind it is (`AreSeparated`, specs/Runs.antt; `BlockBased`, specs/BlockBased.antt).
//!
//! # Example
//!
//! A file of two data blocks: the first has the entry with user key 61, sequence number 1 and value 78, the second
//! the one with user key 62, sequence number 1 and value 79. Each separator is the last key of its block. The file
//! begins so:
//!
//! ```text
//! at  bytes                                      what they are
//!  0  00 09 01 61 01 01 00 00 00 00 00 00 78     the first data block: its row,
//! 13  00 00 00 00 01 00 00 00                    and one restart
//! 21                                             its trailer, 5 bytes
//! 26  00 09 01 62 01 01 00 00 00 00 00 00 79     the second: its row,
//! 39  00 00 00 00 01 00 00 00                    and one restart
//! 47                                             its trailer, 5 bytes
//! 52  00 09 02 61 01 01 00 00 00 00 00 00 00 15  the index: separator 61 1, and the handle of the 21 bytes at 0,
//! 66  00 09 02 62 01 01 00 00 00 00 00 00 1a 15  separator 62 1, and the handle of the 21 bytes at 26,
//! 80  00 00 00 00 0e 00 00 00 02 00 00 00        and two restarts
//! ```
//!
//! Seek to `61 0` passes the first block, since its separator is before the target, and lands on the entry of `62`.
//!
//! # An index in parts
//!
//! A large index is cut into parts, which are index blocks themselves. The footer then leads to the top block, whose
//! rows lead to the parts, whose rows lead to the data blocks: a tree (`Part`, specs/Parts.antt; `LeadToParts`,
//! specs/IndexLeads.antt). Whether an index has parts, and what its separators and handles are, the properties tell
//! (`index_form`, `sst_meta`), whatever the version of the file.
//!
//! ```text
//! | data | data | data | data | part | part | top block | properties | metaindex | footer |
//!    ^      ^      ^      ^      | ^    | ^     |    ^                                |
//!    |      |      |      |      | |    | |     |    +------------ handle -------------+
//!    |      |      |      |      | +----|-+-----+ separator and handle of each part
//!    +------+------|------|------+      |
//!                  +------+-------------+ separator and handle of each data block
//! ```
//!
//! - A whole index is the tree in which each row of the top block is itself the one row of a part (`alone`).
//! - The separator of a part in the top block isn't before the last separator in the part, and each key of the parts
//!   behind it is after it (`ArePartsSeparated`, specs/PartRuns.antt).
//! - Separators may be user keys alone, and a handle may stand as the difference from the one before. What an index
//!   block says is the same in all these forms: pairs of a separator and a handle (`IndexRows`, `sst_block`). A user
//!   key stands as its stored key with tag 0 (`separator_of`), so that all forms compare alike.
//! - Seek goes by the top block to the first part whose separator isn't before the target, and in the part to the
//!   first such row. Where the part has none, it lands on the first row of the next part: the tree decides, and not
//!   the row of all separators side by side ([`the_tree_decides`]).
//!
//! The file above with one part for each data block, whose separators are user keys, goes on so behind the data blocks:
//!
//! ```text
//! at  bytes                                what they are
//! 52  00 01 02 61 00 15                    the first part: separator 61, and the handle of the 21 bytes at 0,
//! 58  00 00 00 00 01 00 00 00              and one restart
//! 66                                       its trailer, 5 bytes
//! 71  00 01 02 62 1a 15                    the second: separator 62, and the handle of the 21 bytes at 26,
//! 77  00 00 00 00 01 00 00 00              and one restart
//! 85                                       its trailer, 5 bytes
//! 90  00 01 02 61 34 0e                    the top block: separator 61, and the handle of the 14 bytes at 52,
//! 96  00 01 02 62 47 0e                    separator 62, and the handle of the 14 bytes at 71,
//! 102 00 00 00 00 06 00 00 00 02 00 00 00  and two restarts
//! ```
//!
//! # Promises
//!
//! - A file opens to one list of parts at most, and stands for one list of entries at most, over all forms of its index
//!   ([`a_file_stands_for_one_list`]). This list is in order, the separators separate, and so calls are answered on the file as
//!   the list answers ([`what_a_file_stands_for_is_ordered`]).
//! - A file that opens to parts which its separators separate stands for their entries ([`a_separated_file_stands`]); each key
//!   between the last key of a block and the first of the next separates the two ([`a_key_between_separates`]).
//! - A whole index is parts of one block each ([`a_whole_index_is_parts_of_one_block`]). What the seven calls answer by its rows
//!   (`way_answer`, specs/Way.antt) is what they answer of the list, where the separators separate the blocks
//!   ([`the_way_is_the_lists`]).
//! - What the seven calls answer by the tree (`answer_in_parts`, specs/PartWay.antt) is what they answer of the list,
//!   where the separators separate; with a mark, one sequence number for all entries, too
//!   ([`the_way_over_parts_is_the_lists`]).
//! - Separators that are user keys are compared by user keys alone ([`user_keys_are_compared_alone`]). Those that are
//!   before a target come first in their block, so the way is found by halving
//!   ([`separators_before_a_target_come_first`]).
//! - The way of a call step by step, with the fault that ends it (`landing_of`, specs/Landings.antt), ends on a tree
//!   without a fault where the counted way does, whatever the separators ([`a_way_without_a_fault_is_counted`]); so
//!   where the tree stands for a list, it ends at the entry that the list shows
//!   ([`each_way_ends_at_the_entry_of_the_list`]). A fault ends each way that comes to it, and no other
//!   ([`a_fault_ends_the_way`]). Places and numbers tell each other ([`places_and_numbers_tell_each_other`]).
//! - A tree is found by reading block after block (`found_parts`, specs/FoundTree.antt). Where reading is exact, it
//!   is found without a fault exactly where the rows of the index lead to good blocks
//!   ([`parts_are_found_where_they_lead`]).
//!
//! RocksDB: the wiki pages "Rocksdb BlockBasedTable Format" and "Partitioned Index Filters";
//! table/block_based/block_based_table_reader.cc, table/block_based/partitioned_index_reader.h and
//! table/block_based/index_builder.h.
#![tactic(auto)]

mod form_laws;
mod found_laws;
mod laws;
mod part_laws;

pub use form_laws::{
    a_file_stands_for_one_list, a_separated_file_stands, a_whole_index_is_parts_of_one_block,
    what_a_file_stands_for_is_ordered,
};
pub use found_laws::{
    a_fault_ends_the_way, a_way_without_a_fault_is_counted, each_way_ends_at_the_entry_of_the_list,
    parts_are_found_where_they_lead, places_and_numbers_tell_each_other,
};
pub use laws::{a_key_between_separates, the_way_is_the_lists};
pub use part_laws::{
    separators_before_a_target_come_first, the_tree_decides, the_way_over_parts_is_the_lists,
    user_keys_are_compared_alone,
};
