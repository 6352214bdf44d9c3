//! Block handles.

/// Where a block stands in a file, in bytes.
///
/// RocksDB: `BlockHandle` in table/format.h.
#[derive(Clone, Copy, Debug, PartialEq, Eq)]
pub struct Handle {
    /// Where the block begins.
    pub offset: u64,
    /// How long the block is, without its trailer.
    pub size: u64,
}
