//! The names of the blocks and properties that are written or looked at, now or later, as RocksDB has them.
//!
//! A varint64 and a fixed32 are numbers as `sst_num` puts them.

/// In the metaindex: the block of properties. RocksDB: `kPropertiesBlockName` in table/meta_blocks.cc.
pub const PROPERTIES: &[u8] = b"rocksdb.properties";

/// In the metaindex: the block of range tombstones. RocksDB: `kRangeDelBlockName` in table/meta_blocks.cc.
pub const RANGE_DEL: &[u8] = b"rocksdb.range_del";

/// The kind of the index, a fixed32; 0 is the binary search index, 2 that of two levels. RocksDB:
/// `BlockBasedTablePropertyNames::kIndexType` in table/block_based/block_based_table_factory.cc.
pub const INDEX_TYPE: &[u8] = b"rocksdb.block.based.table.index.type";

/// The name of the order of user keys. RocksDB: `TablePropertiesNames::kComparator` in table/table_properties.cc, as of
/// all that follow and name no other file.
pub const COMPARATOR: &[u8] = b"rocksdb.comparator";

/// The bytes of all data blocks with their trailers, a varint64. RocksDB: `kDataSize`.
pub const DATA_SIZE: &[u8] = b"rocksdb.data.size";

/// The sequence number of each entry of a file that was made outside a database, a fixed64. RocksDB:
/// `ExternalSstFilePropertyNames::kGlobalSeqno` in table/sst_file_writer_collectors.h.
pub const GLOBAL_SEQUENCE: &[u8] = b"rocksdb.external_sst_file.global_seqno";

/// The version of such a file, a fixed32; 2 says that it has a global sequence number. RocksDB:
/// `ExternalSstFilePropertyNames::kVersion` in table/sst_file_writer_collectors.h.
pub const EXTERNAL_VERSION: &[u8] = b"rocksdb.external_sst_file.version";

/// The bytes of all filter blocks with their trailers, a varint64. RocksDB: `kFilterSize`.
pub const FILTER_SIZE: &[u8] = b"rocksdb.filter.size";

/// The length of each key in a table whose keys have one length, else 0, a varint64. Not used yet. RocksDB:
/// `kFixedKeyLen`.
pub const FIXED_KEY_LENGTH: &[u8] = b"rocksdb.fixed.key.length";

/// The version of the table's format, a varint64. RocksDB: `kFormatVersion`.
pub const FORMAT_VERSION: &[u8] = b"rocksdb.format.version";

/// 1 where the keys of the index are user keys, else 0, a varint64. RocksDB: `kIndexKeyIsUserKey`.
pub const INDEX_KEY_IS_USER_KEY: &[u8] = b"rocksdb.index.key.is.user.key";

/// The bytes of all index blocks with their trailers, a varint64. RocksDB: `kIndexSize`.
pub const INDEX_SIZE: &[u8] = b"rocksdb.index.size";

/// 1 where the handles of the index are differences, else 0, a varint64. RocksDB: `kIndexValueIsDeltaEncoded`.
pub const INDEX_VALUE_IS_DELTA_ENCODED: &[u8] = b"rocksdb.index.value.is.delta.encoded";

/// How many data blocks there are, a varint64. RocksDB: `kNumDataBlocks`.
pub const NUM_DATA_BLOCKS: &[u8] = b"rocksdb.num.data.blocks";

/// How many entries there are, a varint64. RocksDB: `kNumEntries`.
pub const NUM_ENTRIES: &[u8] = b"rocksdb.num.entries";

/// The bytes of all internal keys, a varint64. RocksDB: `kRawKeySize`.
pub const RAW_KEY_SIZE: &[u8] = b"rocksdb.raw.key.size";

/// The bytes of all values, a varint64. RocksDB: `kRawValueSize`.
pub const RAW_VALUE_SIZE: &[u8] = b"rocksdb.raw.value.size";

/// The value of [`COMPARATOR`] where user keys are in bytewise order. RocksDB: `BytewiseComparatorImpl::Name` in
/// util/comparator.cc.
pub const BYTEWISE_COMPARATOR: &[u8] = b"leveldb.BytewiseComparator";
