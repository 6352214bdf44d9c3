//! Calls, and what they are answered.
use sst_num::Bytes;

/// A user key and the sequence number of a snapshot.
#[derive(Debug, Drop)]
pub struct Target {
    /// The user key.
    pub user: Bytes,
    /// The snapshot: entries with a greater sequence number aren't seen.
    pub seq: u64,
}

/// A call on a table. RocksDB: `DB::Get` and `Iterator` in include/rocksdb.
#[derive(Debug, Drop)]
pub enum Call {
    /// Shows the newest entry of the user key at the snapshot; the position stays.
    Get(Target),
    /// Goes to the first entry.
    First,
    /// Goes to the last entry.
    Last,
    /// Goes to the first entry at or after the target.
    Seek(Target),
    /// Goes to the last entry at or before the target.
    SeekForPrev(Target),
    /// Goes one entry on.
    Next,
    /// Goes one entry back.
    Prev,
}

/// What a call answers.
#[derive(Clone, Copy, Debug, PartialEq, Eq)]
pub enum Reply {
    /// An entry is shown.
    Shown,
    /// There is no such entry.
    None,
    /// The format lacks the call.
    Lacks,
    /// The call is one from a position, and there was none.
    NotPositioned,
}

/// A format of table files.
#[derive(Clone, Copy, Debug, PartialEq, Eq)]
pub enum Format {
    /// BlockBasedTable.
    Block,
    /// PlainTable.
    Plain,
    /// CuckooTable.
    Cuckoo,
}

/// What a call answers over a list of entries.
#[derive(Clone, Copy, Debug, PartialEq, Eq)]
pub struct Answer {
    /// What the call says.
    pub reply: Reply,
    /// The number in the list of the entry that is shown, from 0 on.
    pub shown: Option<usize>,
    /// The position after the call: the number of an entry, or None where it is nowhere.
    pub position: Option<usize>,
}
