//! What is wrong with a block-based file.
use sst_block::BlockFault;
use sst_device::FrameFault;
use sst_meta::MetaFault;
use sst_num::Handle;

/// What is wrong with a block-based file.
///
/// RocksDB answers `Status::Corruption` or `Status::NotSupported` for these
/// (table/block_based/block_based_table_reader.cc).
#[derive(Clone, Copy, Debug, PartialEq, Eq)]
pub enum BbtFault {
    /// What it says of itself: its footer, its metaindex or its properties.
    Meta(MetaFault),
    /// An index or data block isn't framed.
    Frame(FrameFault),
    /// The index or data block that stands at the handle is no block.
    Block(Handle, BlockFault),
    /// The data block at the handle has no row.
    EmptyBlock(Handle),
}
