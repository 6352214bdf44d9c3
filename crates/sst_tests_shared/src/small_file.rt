//! The file of the line `61 1 P 78` without properties, and its parts, in hex digits.
//!
//! It has 119 bytes: the data block of 21 bytes is at 0, the index of 22 at 26, the metaindex of 8 at 53, each with a
//! trailer of 5, and the footer is at 66. The bytes are those of an independent program.
//!
//! RocksDB: `BlockBuilder` in table/block_based/block_builder.cc, `FooterBuilder::Build` in table/format.cc.
use crate::worked_run::put_hex;
use std::alloc::Global;
use std::test::Fail;

/// The row of the data block.
pub const ROW: &str = "00090161010100000000000078";

/// The end of a block whose one restart is 0.
pub const ONE_RESTART: &str = "0000000001000000";

/// The data block and its trailer.
pub const DATA: &str = "0009016101010000000000007800000000010000000084dd8874";

/// The row of the index: the key of the data block's row, and the handle of the data block.
pub const INDEX_ROW: &str = "0009026101010000000000000015";

/// The index and its trailer.
pub const INDEX: &str = "0009026101010000000000000015000000000100000000364925bf";

/// The metaindex, which has no row, and its trailer.
pub const METAINDEX: &str = "000000000100000000c0f2a1b0";

/// The front of the footer: the type of checksum, and the handles of the metaindex and the index.
pub const FRONT: &str = "0135081a16";

/// The zeros behind handles of four bytes.
pub const ZEROS: &str = "000000000000000000000000000000000000000000000000000000000000000000000000";

/// The version, 2.
pub const VERSION: &str = "02000000";

/// The magic number of block-based tables.
pub const MAGIC: &str = "f7cff485b741e288";

/// What follows handles of four bytes in the footer: zeros, the version and the magic number.
pub const TAIL: &str =
    "00000000000000000000000000000000000000000000000000000000000000000000000002000000f7cff485b741e288";

/// The file of the line `61 1 P 78` without properties, as it was written before there were any.
pub fn bare_file(alloc: Global) -> Result<Vec<u8>, Fail> {
    let mut file = Vec::new(alloc);
    put_hex(alloc, &mut file, &[DATA, INDEX, METAINDEX, FRONT, TAIL])?;
    Ok(file)
}
