//! What the rows of a block are.

/// What the rows of a block are.
#[derive(Clone, Copy, Debug, PartialEq, Eq)]
pub enum RowForm {
    /// Entries of a data block: a key is an internal key.
    Entries,
    /// Rows of a meta block: a key is a name.
    Names,
    /// Rows of an index block: a key is a separator, a value a block handle.
    Index {
        /// Separators are user keys, with no tag.
        user_key: bool,
        /// A handle after the first is the difference from the one before.
        delta: bool,
    },
}
