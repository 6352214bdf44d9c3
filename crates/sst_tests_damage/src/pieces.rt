//! The pieces of which the damaged files are made, in hex digits: those that [`sst_tests_shared::small_file`] doesn't have.
//!
//! They are of the file of two entries, whose rows stand each at a restart (the data block of 38 bytes at 0, the index of 22 at
//! 43, the metaindex at 70), and of the file of two data blocks of 21 bytes at 0 and 26 (the index of 40 bytes at 52, the
//! metaindex at 97). The checksums are those of an independent program.
//!
//! RocksDB: the magic numbers stand in table/block_based/block_based_table_builder.cc, table/plain/plain_table_builder.cc and
//! table/cuckoo/cuckoo_table_builder.cc.

/// The magic numbers of files that aren't read: block-based tables of version 0,
pub(crate) const LEGACY_MAGIC: &str = "57fb808b247547db";
/// plain tables,
pub(crate) const PLAIN_MAGIC: &str = "6495bf6396224282";
/// plain tables with a legacy footer,
pub(crate) const LEGACY_PLAIN_MAGIC: &str = "b8138f7aeb18344f";
/// and cuckoo tables.
pub(crate) const CUCKOO_MAGIC: &str = "7378f1c5d0896792";

/// The first row of the data block of two entries: 61 2 P 78.
pub(crate) const FIRST: &str = "00090161010200000000000078";

/// The second row: 62 1 P 79.
pub(crate) const SECOND: &str = "00090162010100000000000079";

/// Its end: restarts at 0 and 13.
pub(crate) const RESTARTS: &str = "000000000d00000002000000";

/// The index of that file and its trailer.
pub(crate) const INDEX_OF_TWO: &str = "000902620101000000000000002600000000010000000077663e63";

/// The front of its footer.
pub(crate) const FRONT_OF_TWO: &str = "0146082b16";

/// The row of the second of two data blocks.
pub(crate) const SECOND_ROW: &str = "00090162010100000000000079";

/// The second data block and its trailer.
pub(crate) const SECOND_DATA: &str = "000901620101000000000000790000000001000000001be48205";

/// The second row of the index: the key of the second data block's row, and its handle.
pub(crate) const SECOND_INDEX_ROW: &str = "0009026201010000000000001a15";

/// The restarts of the index, at 0 and 14.
pub(crate) const INDEX_RESTARTS: &str = "000000000e00000002000000";

/// The index and its trailer.
pub(crate) const TWO_BLOCKS_INDEX: &str =
    "00090261010100000000000000150009026201010000000000001a15000000000e00000002000000005be1c538";
