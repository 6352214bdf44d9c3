//! Footers and meta blocks: what a table file says of itself.
//!
//! A meta block is a block of names and values, in bytewise order of the names. One of them holds the properties of the
//! table: how many entries it has, how they are ordered, what its format is. The metaindex, which says where the other
//! meta blocks stand, is such a block too. The footer, which ends the file, says where the metaindex and the index
//! stand, and of which format and version the file is. This crate stands on the blocks of `sst_block`; the readers and
//! writers of tables stand on it.
//!
//! # Layout of a footer
//!
//! ```text
//! | checksum type | metaindex handle | index handle | zeros | version | magic number |   53 bytes
//!   1 byte          up to byte 41                             4 bytes   8 bytes
//!
//!                 | metaindex handle | index handle | zeros | magic number |             48 bytes, version 0
//!                   up to byte 40                             8 bytes
//! ```
//!
//! The magic number says whether the file is block-based, a plain table or a cuckoo table, and which of the two footers
//! it has. RocksDB: `FooterBuilder::Build` and `Footer::DecodeFrom` in table/format.cc.
//!
//! # Layout of a block of properties
//!
//! ```text
//! | row | row | .. | row | restart | number of restarts |
//!                          4 bytes   4 bytes
//!
//! row:  | shared | rest | value length | last bytes of the name | value       |
//!         varint   varint varint         `rest` bytes             value length
//! ```
//!
//! - A row is that of any block, and its key is the name. The first `shared` bytes of a name are those of the name before
//!   it.
//! - There is one restart, at 0, so each name but the first shares all that it can.
//! - A value is bytes. That of a number is its varint, or its four or eight bytes, as [`names`] says of each name.
//!
//! RocksDB: `PropertyBlockBuilder` in table/meta_blocks.cc, and the wiki page "Rocksdb BlockBasedTable Format".
//!
//! # Example
//!
//! The footer of a file whose metaindex of 32 bytes stands at 312, and whose index of 22 bytes at 26:
//!
//! ```text
//! at  bytes                                   what they are
//!  0  01                                      the checksum type: masked CRC32C
//!  1  B8 02 20                                the metaindex: at 312, which is 56 + 2 * 128, 32 bytes
//!  4  1A 16                                   the index: at 26, 22 bytes
//!  6  00 .. 00                                35 zeros, up to byte 41
//! 41  02 00 00 00                             version 2
//! 45  F7 CF F4 85 B7 41 E2 88                 the magic number
//! ```
//!
//! The block that says of a table that it has one data block and 17 entries:
//!
//! ```text
//! at  bytes                                   what they are
//!  0  00                                      the name shares nothing with a name before it
//!  1  17                                      23 bytes of the name follow
//!  2  01                                      the value has one byte
//!  3  72 6F 63 6B 73 64 62 2E 6E 75 6D 2E     rocksdb.num.
//! 15  64 61 74 61 2E 62 6C 6F 63 6B 73        data.blocks
//! 26  01                                      the value, the varint of 1
//! 27  0C                                      the name shares 12 bytes, rocksdb.num.
//! 28  07                                      7 bytes of it follow
//! 29  01                                      the value has one byte
//! 30  65 6E 74 72 69 65 73                    entries
//! 37  11                                      the value, the varint of 17
//! 38  00 00 00 00                             the one restart, at 0
//! 42  01 00 00 00                             there is one restart
//! ```
//!
//! # Promises
//!
//! [`read_footer`] answers what the end of a file says, exactly, or the first thing that is wrong with it (`footer_read`,
//! specs/FooterReading.antt); [`put_footer`] appends the bytes of a footer (`footer_spelling`, specs/Footer.antt); and
//! what is put is read back ([`a_footer_reads_back`]).
//!
//! [`PropsBuilder`] takes names in bytewise order, and makes the one block of them: `block_of Names 65536` of the pairs
//! (specs/Chosen.antt of `sst_block`), which is `properties_block` (specs/PropsBlock.antt). Where memory runs out a call
//! answers so, and so does each later call of that builder.
//!
//! [`Props::read`] takes exactly the blocks of names, at most 2^29 bytes long, and answers the first fault of any other,
//! as `check_block` does. It has the pairs of the block, all of them and in order; so a block that was made of some pairs
//! is read as these. [`Props::get`] answers the value of a name exactly where there is such a name. Each name and value
//! is copied once, when the block is read; no later call takes memory.
//!
//! [`load`] answers what a file says of itself, exactly, or the first thing that is wrong with it (`load_read`,
//! specs/LoadReading.antt), or that the device failed or memory ran out. What a file says is told by its footer, its
//! blocks and their rows, and never by reading (`Meta`, specs/Meta.antt); what is loaded is exactly that
//! ([`a_file_loads_as_it_says`], [`a_footer_is_read`]). A fault is one that the file shows (`ShowsMeta`,
//! specs/MetaFaults.antt), and a file that loads shows none ([`a_meta_fault_is_shown`]). Of several faults it is the one
//! whose step comes first (`LoadStep`, specs/LoadSteps.antt; [`the_fault_of_loading_is_the_first`]).
//!
//! [`Loaded::index_form`] answers the form of the file's index, which its properties tell (`index_form`,
//! specs/IndexForms.antt): in parts or whole, of user keys or stored keys, with handles that are differences or whole.
//!
//! [`put_ending`] ends a file: it takes the properties as a list, and appends the properties block, the metaindex block
//! that leads to it, and the footer (`ending_of`, specs/Put.antt). A file with this end (`file_with`) is loaded as these
//! ([`what_is_put_is_loaded`]).
#![tactic(auto)]

mod builder;
mod ending;
mod footer;
mod footer_laws;
mod index_form;
mod known_properties;
mod laws;
mod loading;
mod loading_laws;
mod meta_fault;
mod meta_row;
mod name;
pub mod names;
mod pair;
mod property_values;
mod props;

pub use builder::PropsBuilder;
pub use ending::put_ending;
pub use footer::{FOOTER_LENGTH, Footer, format_of, put_footer, read_footer};
pub use footer_laws::a_footer_reads_back;
pub use index_form::IndexForm;
pub use laws::{a_name_has_one_value, properties_have_one_restart};
pub use loading::{Loaded, load};
pub use loading_laws::{
    a_file_loads_as_it_says, a_footer_is_read, a_meta_fault_is_shown,
    the_fault_of_loading_is_the_first, what_is_put_is_loaded,
};
pub use meta_fault::MetaFault;
pub use meta_row::{MetaRow, MetaValue};
pub use name::Name;
pub use props::Props;
