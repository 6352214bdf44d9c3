//! What may be wrong with what a file says of itself.
use crate::name::Name;
use sst_block::BlockFault;
use sst_device::FrameFault;
use sst_num::Handle;

/// What is wrong with what a table file says of itself: its footer, its metaindex, its properties.
///
/// RocksDB answers `Status::Corruption`, `Status::NotSupported` or `Status::InvalidArgument` for most of these
/// (table/format.cc, table/meta_blocks.cc, table/block_based/block_based_table_reader.cc).
#[derive(Clone, Copy, Debug, PartialEq, Eq)]
pub enum MetaFault {
    /// The file doesn't end with the number of a kind of table, or is shorter than the footer of that kind.
    NotTable,
    /// A version of the format that isn't read.
    Version(u32),
    /// A type of checksum that isn't read.
    ChecksumType(u8),
    /// The user keys are in another order than the bytewise one.
    Comparator,
    /// A type of index that isn't read.
    IndexType(u32),
    /// The file has a block of range tombstones.
    RangeTombstones,
    /// The value of this name has another form than it must have.
    BadProperty(Name),
    /// This name must be there, and isn't.
    MissingProperty(Name),
    /// The footer doesn't have the two handles.
    BadFooter,
    /// The file has 2^40 bytes or more.
    FileLong,
    /// The metaindex block or the properties block isn't framed.
    Frame(FrameFault),
    /// The metaindex block or the properties block, which stands at the handle, is no block.
    Block(Handle, BlockFault),
    /// The file is of a form that isn't read yet.
    NotYet,
}
