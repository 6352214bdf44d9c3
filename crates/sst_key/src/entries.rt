//! Entries of a table, owned and lent.
use sst_num::Bytes;

/// What an entry says of its user key.
///
/// RocksDB: `ValueType` in db/dbformat.h, of which a table file of this library has these four.
#[derive(Clone, Copy, Debug, PartialEq, Eq)]
pub enum Kind {
    /// The key was deleted.
    Deletion,
    /// The key was given a value.
    Value,
    /// An operand of a merge operator.
    Merge,
    /// The key was deleted, after one value alone.
    SingleDeletion,
}

/// One entry of a table: a user key, a sequence number, a kind and a value.
#[derive(Debug, Drop)]
pub struct Entry {
    /// The user key, of at most 65,536 bytes where it is written.
    pub user: Bytes,
    /// The sequence number, below 2^56.
    pub seq: u64,
    /// The kind.
    pub kind: Kind,
    /// The value, of at most 16,777,216 bytes where it is written.
    pub value: Bytes,
}

/// An entry whose user key and value are lent.
#[derive(Clone, Copy, Debug)]
pub struct EntryView<'a> {
    /// The user key.
    pub user: &'a [u8],
    /// The sequence number, below 2^56.
    pub seq: u64,
    /// The kind.
    pub kind: Kind,
    /// The value.
    pub value: &'a [u8],
}
