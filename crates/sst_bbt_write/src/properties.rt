//! The properties that are written: what a file says of itself.
ghost use Rattle.std.specs.Prelude.{◌≡◌};
ghost use Rattle.sst_meta.specs.MetaRows.{rows_given};
ghost use Rattle.sst_bbt_write.specs.Written as written;

use crate::bbt_options::BbtOptions;
use sst_index::IndexFlags;
use sst_meta::{MetaRow, MetaValue, names};

/// The type of an index that is searched by halving. RocksDB: `kBinarySearch` in include/rocksdb/table.h.
const BINARY_SEARCH: u32 = 0;

/// The type of an index that has parts. RocksDB: `kTwoLevelIndexSearch` in include/rocksdb/table.h.
const TWO_LEVELS: u32 = 2;

/// How many properties a file has.
const COUNT: usize = 12;

/// The numbers that the properties of a file say.
///
/// RocksDB: `TableProperties` in include/rocksdb/table_properties.h.
#[derive(Clone, Copy, Debug, PartialEq, Eq)]
pub struct Sizes {
    /// The bytes of the data blocks with their trailers.
    pub data_size: u64,
    /// The bytes of the index blocks with their trailers.
    pub index_size: u64,
    /// How many data blocks there are.
    pub blocks: u64,
    /// How many entries there are.
    pub entries: u64,
    /// The bytes of all internal keys.
    pub keys: u64,
    /// The bytes of all values.
    pub values: u64,
}

/// The type of an index whose parts have so many rows, or which is whole where these are 0.
fn index_type(parts: u32) -> u32
    ensures { result ≡ written.index_type parts }
{
    match parts {
        0 => BINARY_SEARCH,
        _ => TWO_LEVELS,
    }
}

/// A flag as a number.
fn flag_number(flag: bool) -> u64
    ensures { result ≡ written.flag_number flag }
{
    match flag {
        true => 1,
        false => 0,
    }
}

/// The properties of a file with these options, flags of its index and numbers, in bytewise order of their names.
///
/// RocksDB: `BlockBasedTableBuilder::WritePropertiesBlock` in table/block_based/block_based_table_builder.cc, and
/// `PropertyBlockBuilder::AddTableProperty` in table/meta_blocks.cc.
pub fn properties_of(
    options: BbtOptions,
    flags: IndexFlags,
    sizes: Sizes,
) -> [MetaRow<'static>; COUNT]
    ensures { rows_given result ≡ written.properties options flags sizes }
{
    [
        MetaRow {
            name: names::INDEX_TYPE,
            value: MetaValue::Fixed32(index_type(options.parts)),
        },
        MetaRow {
            name: names::COMPARATOR,
            value: MetaValue::Bytes(names::BYTEWISE_COMPARATOR),
        },
        MetaRow {
            name: names::DATA_SIZE,
            value: MetaValue::Varint(sizes.data_size),
        },
        MetaRow {
            name: names::FILTER_SIZE,
            value: MetaValue::Varint(0),
        },
        MetaRow {
            name: names::FORMAT_VERSION,
            value: MetaValue::Varint(options.version as u64),
        },
        MetaRow {
            name: names::INDEX_KEY_IS_USER_KEY,
            value: MetaValue::Varint(flag_number(flags.user_key)),
        },
        MetaRow {
            name: names::INDEX_SIZE,
            value: MetaValue::Varint(sizes.index_size),
        },
        MetaRow {
            name: names::INDEX_VALUE_IS_DELTA_ENCODED,
            value: MetaValue::Varint(flag_number(flags.delta)),
        },
        MetaRow {
            name: names::NUM_DATA_BLOCKS,
            value: MetaValue::Varint(sizes.blocks),
        },
        MetaRow {
            name: names::NUM_ENTRIES,
            value: MetaValue::Varint(sizes.entries),
        },
        MetaRow {
            name: names::RAW_KEY_SIZE,
            value: MetaValue::Varint(sizes.keys),
        },
        MetaRow {
            name: names::RAW_VALUE_SIZE,
            value: MetaValue::Varint(sizes.values),
        },
    ]
}
