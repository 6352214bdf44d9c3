//! What the rows of an index are.

/// What the separators and the handles of an index are.
///
/// RocksDB: the properties `rocksdb.index.key.is.user.key` and `rocksdb.index.value.is.delta.encoded`,
/// table/table_properties.cc.
#[derive(Clone, Copy, Debug, PartialEq, Eq)]
pub struct IndexFlags {
    /// Separators are user keys, with no tag.
    pub user_key: bool,
    /// A handle is the difference from the one before, where its row shares bytes.
    pub delta: bool,
}
