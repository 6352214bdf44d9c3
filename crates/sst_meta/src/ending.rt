//! The end of a table file, as every writer puts it: the properties block, the metaindex block that leads to it, and
//! the footer.
ghost use Rattle.std.specs.Prelude.{◌≡◌, ℕ, ◌<◌, ◌≤◌, ◌^◌, List, [], ◌∷◌, ◌++◌, length, IfOk, OnOk, OnErr};
ghost use Rattle.sst_block.specs.declared.row_form.RowForm.TheVariants.{Names};
ghost use Rattle.sst_block.specs.Block.{Row};
ghost use Rattle.sst_block.specs.Builder.{CanAdd, Holds};
ghost use Rattle.sst_block.specs.Chosen.{block_of};
ghost use Rattle.sst_meta.specs.BlockFooter.{IsBuilt, block_footer};
ghost use Rattle.sst_meta.specs.Footer.{footer_spelling};
ghost use Rattle.sst_meta.specs.MetaRows.{AreMetaRows, row_given, rows_given};
ghost use Rattle.sst_meta.specs.Put.{ending_of, metaindex_block, props_for};

use crate::builder::ROWS_PER_RESTART;
use crate::footer::{CHECKSUM_TYPE, Footer, put_footer};
use crate::meta_row::{MetaRow, MetaValue, put_value};
use crate::names;
use sst_block::{BlockBuilder, RowForm};
use sst_device::put_frame;
use sst_key::Format;
use sst_num::{Bytes, Handle, Memory};
use std::alloc::Global;

/// A restart stands at each row of a metaindex block.
const EACH_ROW: u32 = 1;

/// Ends a block-based file: appends the properties block, which stands at `at` in the file, the metaindex block that
/// leads to it, and the footer, which has this version, 2, 3 or 4, and leads to the index.
///
/// The properties come in bytewise order of their names. What is appended is `ending_of` (specs/Put.antt). Where memory
/// runs out, `out` holds its old bytes followed by any.
/// RocksDB: `BlockBasedTableBuilder::WritePropertiesBlock`, `Finish` and `WriteFooter` in
/// table/block_based/block_based_table_builder.cc.
pub fn put_ending(
    alloc: Global,
    out: &mut Vec<u8>,
    at: u64,
    version: u32,
    index: Handle,
    properties: &[MetaRow<'_>],
) -> Result<(), Memory>
    requires place { at < 2 ^ 60 }
    requires version { IsBuilt version }
    requires rows { AreMetaRows (rows_given properties.now) }
    ensures ok { OnOk result (out.new.items ≡ out.old.items ++ ending_of at version index (rows_given properties.now)) }
    ensures err { OnErr result ((rest : List ℕ) × (out.new.items ≡ out.old.items ++ rest)) }
{
    let block = block_of_rows(alloc, ROWS_PER_RESTART, properties)?;
    let place = Handle {
        offset: at,
        size: block.len() as u64,
    };
    let start = out.len();
    put_frame(out, block.as_slice())?;
    let stored = (out.len() - start) as u64;
    let block = metaindex_of(alloc, place)?;
    let metaindex = Handle {
        offset: at + stored,
        size: block.len() as u64,
    };
    put_frame(out, block.as_slice())?;
    put_block_footer(out, version, metaindex, index)
}

/// The metaindex block, whose one row leads to the properties block. A later name takes a row more.
///
/// RocksDB: `MetaIndexBuilder` in table/meta_blocks.h.
fn metaindex_of(alloc: Global, properties: Handle) -> Result<Bytes, Memory>
    ensures { (at : ℕ) (pairs : List Row) → properties ≡ record { offset = at; size = length (props_for pairs) }
        → IfOk result (λ block. block ≡ metaindex_block at pairs) }
{
    let rows = [MetaRow {
        name: names::PROPERTIES,
        value: MetaValue::BlockHandle(properties),
    }];
    block_of_rows(alloc, EACH_ROW, &rows)
}

/// The block of names with these rows, and a restart at each so many of them.
fn block_of_rows(alloc: Global, interval: u32, rows: &[MetaRow<'_>]) -> Result<Bytes, Memory>
    requires least { 1 ≤ interval }
    requires most { interval ≤ 65536 }
    requires rows { AreMetaRows (rows_given rows.now) }
    ensures { IfOk result (λ block. block ≡ block_of Names interval (rows_given rows.now)) }
{
    let mut block = BlockBuilder::new(alloc, RowForm::Names, interval, false)?;
    for row in rows {
        add_row(alloc, &mut block, row)?;
    }
    block.finish()
}

/// Adds a row after the others.
fn add_row(alloc: Global, block: &mut BlockBuilder, row: &MetaRow<'_>) -> Result<(), Memory>
    requires { CanAdd block.old (row_given row.now) [] }
    ensures { OnOk result ((interval : ℕ) (rows : List Row) → Holds block.old Names interval rows
        → Holds block.new Names interval (rows ++ row_given row.now ∷ [])) }
{
    let mut value = Vec::new(alloc);
    put_value(&mut value, &row.value)?;
    block.add(row.name, &value, &[])
}

/// Appends the footer of 53 bytes that ends a block-based file.
///
/// Where memory runs out, `out` holds its old bytes followed by any.
/// RocksDB: `FooterBuilder::Build` in table/format.cc.
fn put_block_footer(
    out: &mut Vec<u8>,
    version: u32,
    metaindex: Handle,
    index: Handle,
) -> Result<(), Memory>
    requires { IsBuilt version }
    ensures ok { OnOk result (out.new.items ≡ out.old.items ++ footer_spelling (block_footer version metaindex index)) }
    ensures err { OnErr result ((rest : List ℕ) × (out.new.items ≡ out.old.items ++ rest)) }
{
    let footer = Footer {
        format: Format::Block,
        legacy: false,
        version,
        checksum: CHECKSUM_TYPE,
        meta: metaindex,
        index,
    };
    put_footer(out, &footer)
}
