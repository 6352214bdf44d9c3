//! What stands behind the stored index of a block-based file: the end of the file.
ghost use Rattle.std.specs.Prelude.{◌≡◌, ◌+◌, ◌<◌, ◌^◌, ℕ, List, ◌++◌, OnOk, OnErr};
ghost use Rattle.sst_meta.specs.Put.{ending_of};
ghost use Rattle.sst_bbt_write.specs.Written.{MayBeChosen, properties};

use crate::bbt_options::BbtOptions;
use crate::properties::{Sizes, properties_of};
use sst_index::IndexFlags;
use sst_meta::put_ending;
use sst_num::{Handle, Memory};
use std::alloc::Global;

/// How many bytes follow a stored block.
///
/// RocksDB: `kBlockTrailerSize` in table/block_based/block_based_table_reader.h.
pub const TRAILER_LENGTH: u64 = 5;

/// Appends the end of a file behind its stored index, whose top block stands at `index` and which is as the flags say.
///
/// Where memory runs out, `out` holds its old bytes followed by any.
/// RocksDB: `BlockBasedTableBuilder::Finish` in table/block_based/block_based_table_builder.cc.
pub fn put_end(
    alloc: Global,
    out: &mut Vec<u8>,
    options: BbtOptions,
    flags: IndexFlags,
    index: Handle,
    sizes: Sizes,
) -> Result<(), Memory>
    requires chosen { MayBeChosen options }
    requires room { sizes.data_size + sizes.index_size < 2 ^ 60 }
    ensures ok { OnOk result (out.new.items ≡ out.old.items ++ ending_of (sizes.data_size + sizes.index_size) options.version index (properties options flags sizes)) }
    ensures err { OnErr result ((rest : List ℕ) × (out.new.items ≡ out.old.items ++ rest)) }
{
    let at = sizes.data_size + sizes.index_size;
    let properties = properties_of(options, flags, sizes);
    put_ending(alloc, out, at, options.version, index, &properties)
}
