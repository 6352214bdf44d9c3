//! The bytes of written files behind their index: the properties, the metaindex and the footer.
//!
//! The names, and how many bytes each shares with the one before it, are worked by hand and stand here once. What
//! differs from file to file is told by each test, in hex digits.
//!
//! RocksDB: `PropertyBlockBuilder` in table/meta_blocks.cc, `TablePropertiesNames` in table/table_properties.cc; the type of
//! the index is `BlockBasedTableOptions::IndexType` in include/rocksdb/table.h.
use sst_tests_shared::worked_run::put_hex;
use std::alloc::Global;
use std::test::Fail;

/// The end of a block whose one restart point is 0, and the type byte of a stored block: no compression.
const END: &str = "000000000100000000";

/// `leveldb.BytewiseComparator`.
const COMPARATOR: &str = "6c6576656c64622e4279746577697365436f6d70617261746f72";

/// The version of a file and the form of its index, as its properties tell them.
#[derive(Clone, Copy)]
pub(crate) struct Form {
    /// The version.
    pub(crate) version: &'static str,
    /// The type of the index: 0 for one block, 2 for two levels.
    pub(crate) index_type: &'static str,
    /// Whether its separators are user keys.
    pub(crate) user_key: &'static str,
    /// Whether its handles are differences.
    pub(crate) delta: &'static str,
}

/// That of a file that is written without options: version 2, and an index of one block, of stored keys and whole handles.
pub(crate) const PLAIN: Form = Form {
    version: "02",
    index_type: "00000000",
    user_key: "00",
    delta: "00",
};

/// What stands behind the index in a written file, as far as it isn't the same in each, in hex digits.
#[derive(Clone, Copy)]
pub(crate) struct Behind {
    /// The version and the form of the index.
    pub(crate) form: Form,
    /// The bytes of the data blocks with their trailers.
    pub(crate) data_size: &'static str,
    /// The bytes of the index with its trailer.
    pub(crate) index_size: &'static str,
    /// How many data blocks there are.
    pub(crate) blocks: &'static str,
    /// How many entries there are.
    pub(crate) entries: &'static str,
    /// The bytes of all keys: user keys and tags.
    pub(crate) key_size: &'static str,
    /// The bytes of all values.
    pub(crate) value_size: &'static str,
    /// The checksum of the properties.
    pub(crate) checksum: &'static str,
    /// The handle of the properties.
    pub(crate) handle: &'static str,
    /// The checksum of the metaindex.
    pub(crate) metaindex_checksum: &'static str,
    /// The front of the footer: the type of checksum, and the handles of the metaindex and the index.
    pub(crate) footer: &'static str,
}

/// Appends a row of names: how many bytes it shares and how many of the name follow, these, and the value.
fn put_row(
    alloc: Global,
    file: &mut Vec<u8>,
    lengths: &str,
    name: &str,
    value: &str,
) -> Result<(), Fail> {
    let length = value.len() / 2;
    let length = format!(in alloc; "{length:02x}")?;
    put_hex(alloc, file, &[lengths, length.as_str()])?;
    file.extend_from_slice(name.as_bytes())?;
    put_hex(alloc, file, &[value])
}

/// Appends the rows of the properties.
fn put_properties(alloc: Global, file: &mut Vec<u8>, behind: &Behind) -> Result<(), Fail> {
    for (lengths, name, value) in [
        (
            "0024",
            "rocksdb.block.based.table.index.type",
            behind.form.index_type,
        ),
        ("080a", "comparator", COMPARATOR),
        ("0809", "data.size", behind.data_size),
        ("080b", "filter.size", "00"),
        ("090d", "ormat.version", behind.form.version),
        ("0815", "index.key.is.user.key", behind.form.user_key),
        ("0e04", "size", behind.index_size),
        ("0e16", "value.is.delta.encoded", behind.form.delta),
        ("080f", "num.data.blocks", behind.blocks),
        ("0c07", "entries", behind.entries),
        ("080c", "raw.key.size", behind.key_size),
        ("0c0a", "value.size", behind.value_size),
    ] {
        put_row(alloc, file, lengths, name, value)?;
    }
    Ok(())
}

/// Appends what stands behind the index in a written file.
pub(crate) fn put_behind(alloc: Global, file: &mut Vec<u8>, behind: &Behind) -> Result<(), Fail> {
    put_properties(alloc, file, behind)?;
    put_hex(alloc, file, &[END, behind.checksum])?;
    put_row(alloc, file, "0012", "rocksdb.properties", behind.handle)?;
    put_hex(
        alloc,
        file,
        &[END, behind.metaindex_checksum, behind.footer],
    )?;
    // The front of the footer is filled with zeros up to 41 bytes; then come the version and the magic number.
    let filled = behind.footer.len() / 2;
    let zeros = vec![in alloc; 0; 41usize.saturating_sub(filled)]?;
    file.extend_from_slice(&zeros)?;
    put_hex(
        alloc,
        file,
        &[behind.form.version, "000000", "f7cff485b741e288"],
    )
}
