//! The choices of a writer.
/// The choices of a writer of block-based files.
///
/// RocksDB: `BlockBasedTableOptions` in include/rocksdb/table.h.
#[derive(Clone, Copy, Debug, PartialEq, Eq)]
pub struct BbtOptions {
    /// The version of the format: 2, 3 or 4. From 3 on the separators of the index are user keys, where no two neighbouring
    /// data blocks share one; in 4 its handles are differences.
    ///
    /// RocksDB: `BlockBasedTableOptions::format_version`.
    pub version: u32,
    /// A data block of so many bytes or more is ended before the next entry is added: 64 to 16,777,216.
    ///
    /// RocksDB: `BlockBasedTableOptions::block_size`.
    pub block_size: u32,
    /// A restart stands at each so many entries of a data block: 1 to 65,536.
    ///
    /// RocksDB: `BlockBasedTableOptions::block_restart_interval`.
    pub restart: u32,
    /// A restart stands at each so many rows of an index block: 1 to 65,536.
    ///
    /// RocksDB: `BlockBasedTableOptions::index_block_restart_interval`.
    pub index_restart: u32,
    /// How many rows a part of the index has, up to 65,536; 0 where the index is whole.
    ///
    /// RocksDB: `BlockBasedTableOptions::metadata_block_size`, which counts bytes.
    pub parts: u32,
}
