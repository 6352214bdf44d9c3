//! What can be wrong with the bytes of a block.

/// What is wrong with the bytes of a block.
///
/// A place is where the row begins in the block, in bytes; of a restart it is the restart's number, from 0.
/// RocksDB answers `Status::Corruption` for what it finds of these (table/block_based/block.cc).
#[derive(Clone, Copy, Debug, PartialEq, Eq)]
pub enum BlockFault {
    /// A row whose lengths aren't spelled right or don't fit, or whose key is too short or too long.
    BadRow(u32),
    /// A restart that isn't 0 where it is the first, or isn't after the one before, or where no row begins that
    /// shares nothing.
    BadRestart(u32),
    /// Too few bytes, no restart, or more restarts than there is room for.
    BadFooter,
    /// A row whose key isn't after the key of the row before.
    Disorder(u32),
    /// A row of a data block whose key has no known kind.
    BadKind(u32),
    /// A row of a data block whose bucket in the hash part doesn't lead to it. Not answered for now.
    BadHash(u32),
    /// A row of an index block whose value isn't a block handle; where handles are differences, one that says none, or
    /// one whose numbers aren't of 64 bits.
    BadHandle(u32),
}
