//! Stored blocks.
ghost use Rattle.std.specs.Prelude.{◌≡◌, ℕ, List, ◌++◌, OnOk, OnErr};
ghost use Rattle.sst_device.specs.Framed.{frame_of};

use sst_num::{Handle, Memory, put_fixed32};
use sst_sums::{crc32c, mask};

/// The type byte of a block that isn't compressed.
///
/// RocksDB: `kNoCompression` in include/rocksdb/compression_type.h.
pub(crate) const UNCOMPRESSED: u8 = 0;

/// How many bytes follow a stored block: its type byte, and its checksum.
///
/// RocksDB: `kBlockTrailerSize` in table/block_based/block_based_table_reader.h.
pub const TRAILER_LENGTH: u64 = 5;

/// Why the block at a handle can't be had.
///
/// RocksDB: `BlockFetcher` in table/block_fetcher.cc answers `Status::Corruption` or decompresses.
#[derive(Clone, Copy, Debug, PartialEq, Eq)]
pub enum FrameFault {
    /// The block or its trailer passes the end of the file without its footer.
    OutOfFile(Handle),
    /// The block has more than 2^29 bytes.
    TooLarge(Handle),
    /// The checksum isn't that of the block and its type byte.
    Checksum(Handle),
    /// The type byte says that the block is compressed.
    Compressed(Handle, u8),
}

/// Appends a block as a file stores it: the block, the type byte 0, and the masked CRC32C over both as a number
/// of four bytes.
///
/// Where memory runs out, `out` holds its old bytes followed by any.
/// RocksDB: `BlockBasedTableBuilder::WriteMaybeCompressedBlock` in
/// table/block_based/block_based_table_builder.cc.
pub fn put_frame(out: &mut Vec<u8>, block: &[u8]) -> Result<(), Memory>
    ensures ok { OnOk result (out.new.items ≡ out.old.items ++ frame_of block.now) }
    ensures err { OnErr result ((rest : List ℕ) × (out.new.items ≡ out.old.items ++ rest)) }
{
    let start = out.len();
    out.extend_from_slice(block)?;
    out.push(UNCOMPRESSED)?;
    let (_, framed) = out.split_at(start);
    let checksum = mask(crc32c(framed));
    put_fixed32(out, checksum)
}
