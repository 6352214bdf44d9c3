//! The rows of data blocks that were checked, as the entries that they stand for.
ghost use Rattle.std.specs.Prelude.{◌≡◌, List, ◌++◌, length, IfOk, OnOk};
ghost use Rattle.sst_block.specs.Block.{Row, Block, IsInternalKey};
ghost use Rattle.sst_block.specs.declared.row_form.RowForm.TheVariants.{Entries};
ghost use Rattle.sst_key.specs.declared.entries.Entry.{Entry};
ghost use Rattle.sst_bbt_spec.specs.Rows.{rows_of, row_of, HasSeq};
ghost use Rattle.sst_bbt_read.specs.TableBlocks.{AreEntries};

use sst_block::{BlockIter, RowForm};
use sst_key::{Entry, KeyRoom, unpack};
use sst_num::{Bytes, Memory};
use std::alloc::Global;

/// The entry of a row: its user key and its value are copied.
fn entry_of(alloc: Global, key: &[u8], value: &[u8]) -> Result<Entry, Memory>
    requires { IsInternalKey key.now }
    ensures row { IfOk result (λ e. row_of e ≡ record { key = key.now; value = value.now }) }
    ensures seq { IfOk result (λ e. HasSeq e) }
{
    match unpack(key) {
        None => unreachable!(),
        Some((length, seq, kind)) => {
            let (user, _) = key.split_at(length);
            let user = Bytes::from_slice(alloc, user)?;
            let value = Bytes::from_slice(alloc, value)?;
            Ok(Entry {
                user,
                seq,
                kind,
                value,
            })
        }
    }
}

/// Appends the entries of a data block, of which there are `count`.
pub fn add_entries(
    alloc: Global,
    block: &[u8],
    count: u32,
    entries: &mut Vec<Entry>,
) -> Result<(), Memory>
    requires { (rows : List Row) × Block Entries block.now rows × (length rows ≡ count) }
    ensures rows { OnOk result ((rows : List Row) → Block Entries block.now rows → length rows ≡ count
        → (added : List Entry) × (entries.new.items ≡ entries.old.items ++ added) × (rows ≡ rows_of added) × AreEntries added) }
{
    let room = KeyRoom::new(alloc)?;
    let mut rows = BlockIter::start(block, RowForm::Entries, room);
    rows.first();
    for _row in 0..count {
        let entry = entry_of(alloc, rows.key(), rows.value())?;
        entries.push(entry)?;
        rows.next();
    }
    Ok(())
}
