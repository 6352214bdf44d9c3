//! Files of the line `61 1 P 78` with chosen properties, or with chosen names in the metaindex; and files of any blocks with
//! chosen properties.
//!
//! Each of the first begins with the data block of 21 bytes at 0 and the index of 22 at 26. The block of properties stands at 53, the
//! metaindex behind it, and then the footer. No name shares bytes with the one before it, and the first alone stands at
//! a restart point, as another writer than this library's may make them. Blocks are stored by [`sst_device::put_frame`]
//! and footers put by [`sst_meta::put_footer`], whose bytes the tests of blocks hold against worked ones.
//!
//! RocksDB: `PropertyBlockBuilder` and `MetaIndexBuilder` in table/meta_blocks.cc.
use crate::small_file::{DATA, INDEX, ONE_RESTART};
use crate::worked_run::put_hex;
use sst_device::put_frame;
use sst_key::Format;
use sst_meta::{Footer, put_footer};
use sst_num::{Handle, put_handle};
use std::alloc::Global;
use std::test::Fail;

/// The name in the metaindex of the properties.
pub const PROPERTIES: &str = "rocksdb.properties";

/// The name in the metaindex of the tombstones of ranges.
pub const RANGE_DEL: &str = "rocksdb.range_del";

/// The property that tells the type of the index.
pub const INDEX_TYPE: &str = "rocksdb.block.based.table.index.type";

/// That of the order of user keys.
pub const COMPARATOR: &str = "rocksdb.comparator";

/// That of the sequence number of all entries.
pub const GLOBAL: &str = "rocksdb.external_sst_file.global_seqno";

/// That of the version of a file made outside a database.
pub const EXTERNAL: &str = "rocksdb.external_sst_file.version";

/// That of the flag for user keys in the index.
pub const USER_KEY: &str = "rocksdb.index.key.is.user.key";

/// That of the flag for differences of handles in the index.
pub const DELTA: &str = "rocksdb.index.value.is.delta.encoded";

/// The handle of the index.
const INDEX_HANDLE: Handle = Handle {
    offset: 26,
    size: 22,
};

/// Appends a row: the name, and the value, which is told in hex digits.
fn put_row(alloc: Global, block: &mut Vec<u8>, name: &str, value: &str) -> Result<(), Fail> {
    let rest = name.len();
    let length = value.len() / 2;
    let lengths = format!(in alloc; "00{rest:02x}{length:02x}")?;
    put_hex(alloc, block, &[lengths.as_str()])?;
    block.extend_from_slice(name.as_bytes())?;
    put_hex(alloc, block, &[value])
}

/// The block of these names and values, which are told in hex digits.
pub fn names_block(alloc: Global, pairs: &[(&str, &str)]) -> Result<Vec<u8>, Fail> {
    let mut block = Vec::new(alloc);
    for (name, value) in pairs {
        put_row(alloc, &mut block, name, value)?;
    }
    put_hex(alloc, &mut block, &[ONE_RESTART])?;
    Ok(block)
}

/// Appends a footer of version 2 that leads to this metaindex and this index.
fn put_end(file: &mut Vec<u8>, metaindex: Handle, index: Handle) -> Result<(), Fail> {
    let footer = Footer {
        format: Format::Block,
        legacy: false,
        version: 2,
        checksum: 1,
        meta: metaindex,
        index,
    };
    put_footer(file, &footer)?;
    Ok(())
}

/// Appends a metaindex with these rows, told as a block, and a footer that leads to it and to this index.
fn put_metaindex(file: &mut Vec<u8>, block: &[u8], index: Handle) -> Result<(), Fail> {
    let metaindex = Handle {
        offset: file.len() as u64,
        size: block.len() as u64,
    };
    put_frame(file, block)?;
    put_end(file, metaindex, index)
}

/// Appends a block of properties, the metaindex that leads to it, and the footer, which leads to this index.
fn put_named(alloc: Global, file: &mut Vec<u8>, block: &[u8], index: Handle) -> Result<(), Fail> {
    let properties = Handle {
        offset: file.len() as u64,
        size: block.len() as u64,
    };
    put_frame(file, block)?;
    let mut value = Vec::new(alloc);
    put_handle(&mut value, properties)?;
    let length = value.len();
    let lengths = format!(in alloc; "0012{length:02x}")?;
    let mut metaindex = Vec::new(alloc);
    put_hex(alloc, &mut metaindex, &[lengths.as_str()])?;
    metaindex.extend_from_slice(PROPERTIES.as_bytes())?;
    metaindex.extend_from_slice(&value)?;
    put_hex(alloc, &mut metaindex, &[ONE_RESTART])?;
    put_metaindex(file, &metaindex, index)
}

/// The file with these properties.
fn file_with(alloc: Global, pairs: &[(&str, &str)]) -> Result<Vec<u8>, Fail> {
    file_with_index(alloc, &[INDEX], pairs)
}

/// The same with other bytes for the index and its trailer.
fn file_with_index(alloc: Global, index: &[&str], pairs: &[(&str, &str)]) -> Result<Vec<u8>, Fail> {
    let mut file = Vec::new(alloc);
    put_hex(alloc, &mut file, &[DATA])?;
    put_hex(alloc, &mut file, index)?;
    let block = names_block(alloc, pairs)?;
    put_named(alloc, &mut file, &block, INDEX_HANDLE)?;
    Ok(file)
}

/// The file of these blocks and their trailers, with these properties; the index stands at an offset and has a size.
fn file_of_blocks(
    alloc: Global,
    blocks: &[&str],
    index: (u64, u64),
    pairs: &[(&str, &str)],
) -> Result<Vec<u8>, Fail> {
    let mut file = Vec::new(alloc);
    put_hex(alloc, &mut file, blocks)?;
    let block = names_block(alloc, pairs)?;
    let (offset, size) = index;
    put_named(alloc, &mut file, &block, Handle { offset, size })?;
    Ok(file)
}

/// The file whose block of properties has these bytes.
fn file_with_block(alloc: Global, pieces: &[&str]) -> Result<Vec<u8>, Fail> {
    let mut file = Vec::new(alloc);
    put_hex(alloc, &mut file, &[DATA, INDEX])?;
    let mut block = Vec::new(alloc);
    put_hex(alloc, &mut block, pieces)?;
    put_named(alloc, &mut file, &block, INDEX_HANDLE)?;
    Ok(file)
}

/// The file whose metaindex has these names. A block without properties, of 8 bytes, stands at 53.
fn file_with_names(alloc: Global, pairs: &[(&str, &str)]) -> Result<Vec<u8>, Fail> {
    let mut file = Vec::new(alloc);
    put_hex(alloc, &mut file, &[DATA, INDEX])?;
    put_frame(&mut file, &names_block(alloc, &[])?)?;
    put_metaindex(&mut file, &names_block(alloc, pairs)?, INDEX_HANDLE)?;
    Ok(file)
}

/// A file by what it says of itself; of the line `61 1 P 78` but for the last.
#[derive(Clone, Copy)]
pub enum Named {
    /// With these properties.
    Properties(&'static [(&'static str, &'static str)]),
    /// The same with other bytes for the index and its trailer.
    Index(&'static [&'static str], &'static [(&'static str, &'static str)]),
    /// Whose block of properties has these bytes.
    Block(&'static [&'static str]),
    /// Whose metaindex has these names.
    Names(&'static [(&'static str, &'static str)]),
    /// Of these blocks and their trailers, whose index stands at this offset and has this size, with these properties.
    Blocks(&'static [&'static str], (u64, u64), &'static [(&'static str, &'static str)]),
}

/// The bytes of the file.
pub fn file_named(alloc: Global, named: Named) -> Result<Vec<u8>, Fail> {
    match named {
        Named::Properties(pairs) => file_with(alloc, pairs),
        Named::Index(index, pairs) => file_with_index(alloc, index, pairs),
        Named::Block(pieces) => file_with_block(alloc, pieces),
        Named::Names(pairs) => file_with_names(alloc, pairs),
        Named::Blocks(blocks, index, pairs) => file_of_blocks(alloc, blocks, index, pairs),
    }
}
