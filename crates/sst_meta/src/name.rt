//! The names that damage may be told of.
ghost use Rattle.std.specs.Prelude.{◌≡◌};
ghost use Rattle.sst_meta.specs.Names.{name_bytes};

use crate::names;

/// A name that a reader looks at in the metaindex or among the properties, as a fault names it.
///
/// It takes no memory. The bytes of each stand in [`crate::names`], with the place in RocksDB's sources.
#[derive(Clone, Copy, Debug, PartialEq, Eq)]
pub enum Name {
    /// `rocksdb.properties`, in the metaindex.
    Properties,
    /// `rocksdb.block.based.table.index.type`.
    IndexType,
    /// `rocksdb.external_sst_file.global_seqno`.
    GlobalSequence,
    /// `rocksdb.external_sst_file.version`.
    ExternalVersion,
    /// `rocksdb.index.key.is.user.key`.
    IndexKeyIsUserKey,
    /// `rocksdb.index.value.is.delta.encoded`.
    IndexValueIsDeltaEncoded,
}

impl Name {
    /// The bytes of the name, as a file has them.
    pub fn as_slice(self) -> &'static [u8]
        ensures { result.now ≡ name_bytes self }
    {
        match self {
            Name::Properties => names::PROPERTIES,
            Name::IndexType => names::INDEX_TYPE,
            Name::GlobalSequence => names::GLOBAL_SEQUENCE,
            Name::ExternalVersion => names::EXTERNAL_VERSION,
            Name::IndexKeyIsUserKey => names::INDEX_KEY_IS_USER_KEY,
            Name::IndexValueIsDeltaEncoded => names::INDEX_VALUE_IS_DELTA_ENCODED,
        }
    }
}
