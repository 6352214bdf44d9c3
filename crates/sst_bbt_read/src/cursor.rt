//! A cursor of a reader, and how opening one stops.

/// Where one walk over a reader stands: on an entry, or nowhere.
///
/// It belongs to the reader that opened it, and must be closed by it. RocksDB: `Iterator` in include/rocksdb/iterator.h.
#[derive(Debug)]
pub struct Cursor {
    /// The number of its seat.
    pub(crate) number: usize,
    /// The number of the entry, or None for nowhere.
    pub(crate) place: Option<usize>,
}

/// Why no cursor is opened.
#[derive(Clone, Copy, Debug, PartialEq, Eq)]
pub enum CursorStop {
    /// Each seat has a cursor.
    Full,
    /// Memory ran out.
    Memory,
}
