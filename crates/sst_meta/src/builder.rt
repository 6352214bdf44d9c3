//! The builder of a block of properties: names with their values come in order, and the block comes out.
ghost use Rattle.std.specs.Prelude.{◌≡◌, List, [], ◌∷◌, ◌++◌, IfOk, OnOk, OnErr};
ghost use Rattle.std.specs.Result.{IsErr};
ghost use Rattle.sst_block.specs.declared.row_form.RowForm.TheVariants.{Names};
ghost use Rattle.sst_block.specs.Block.{Row, Block};
ghost use Rattle.sst_block.specs.Chosen.{block_of};
ghost use Rattle.sst_meta.specs.Builder.{Holds, HasFailed, CanSet};

use sst_block::{BlockBuilder, RowForm};
use sst_num::{Bytes, Memory};
use std::alloc::Global;

/// How many rows a restart begins: so many that a block has one restart alone.
pub const ROWS_PER_RESTART: u32 = 65_536;

/// Makes the block of the properties of a table file, from names that come in bytewise order.
///
/// The block has one restart, so each name leaves to the name before it the bytes that they have in common at their
/// fronts. After an error the builder is of no more use: `set` and `finish` answer the error again.
///
/// RocksDB: `PropertyBlockBuilder` in table/meta_blocks.h, which sorts the names itself.
#[derive(Drop)]
pub struct PropsBuilder {
    /// The block of the pairs so far.
    rows: BlockBuilder,
}

impl PropsBuilder {
    /// A builder with no name.
    ///
    /// Fails where memory runs out. RocksDB: the constructor of `PropertyBlockBuilder` in table/meta_blocks.cc, whose
    /// restart interval is the largest number.
    pub fn new(alloc: Global) -> Result<PropsBuilder, Memory>
        ensures { IfOk result (λ b. Holds b []) }
    {
        let rows = BlockBuilder::new(alloc, RowForm::Names, ROWS_PER_RESTART, false)?;
        Ok(PropsBuilder { rows })
    }

    /// Sets the value of a name that is after all others.
    ///
    /// The name has at most 65,544 bytes and is bytewise after the last one, at most 65,536 names are set, and the
    /// block stays below 2^29 bytes. Fails where memory runs out now or did in an earlier call. RocksDB:
    /// `PropertyBlockBuilder::Add` in table/meta_blocks.cc.
    pub fn set(&mut self, name: &[u8], value: &[u8]) -> Result<(), Memory>
        requires { CanSet self.old (record { key = name.now; value = value.now }) }
        ensures ok { OnOk result ((pairs : List Row) → Holds self.old pairs
            → Holds self.new (pairs ++ record { key = name.now; value = value.now } ∷ [])) }
        ensures err { OnErr result (HasFailed self.new) }
        ensures later { HasFailed self.old → IsErr result }
    {
        self.rows.add(name, value, &[])
    }

    /// The block of the names and values that were set.
    ///
    /// Fails where memory runs out now or did in an earlier call. RocksDB: `PropertyBlockBuilder::Finish` in
    /// table/meta_blocks.cc.
    pub fn finish(self) -> Result<Bytes, Memory>
        ensures exact { IfOk result (λ b. (pairs : List Row) → Holds self pairs → b ≡ block_of Names 65536 pairs) }
        ensures block { IfOk result (λ b. (pairs : List Row) → Holds self pairs → Block Names b pairs) }
        ensures later { HasFailed self → IsErr result }
    {
        self.rows.finish()
    }
}
