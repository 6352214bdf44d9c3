//! The data blocks of a file that is opened.
ghost use Rattle.std.specs.Prelude.{◌≡◌, ℕ, false, List, [], ◌∷◌, ◌++◌, length, Some, Err, IsTrue, OnOk, IfOk};
ghost use Rattle.sst_block.specs.declared.row_form.RowForm.TheVariants.{Entries};
ghost use Rattle.sst_device.specs.Folder.{file_of, misses};
ghost use Rattle.sst_device.specs.Outside.{OnlyReads};
ghost use Rattle.sst_bbt_spec.specs.IndexLeads.{HoldsEntries, LeadToBlocks};
ghost use Rattle.sst_bbt_read.specs.GrownTable.{BlocksAdded};
ghost use Rattle.sst_bbt_read.specs.KeptLeads.{pairs_of};
ghost use Rattle.sst_bbt_read.specs.OpeningFaults.{SomeBlockFails, BlocksFail};
ghost use Rattle.sst_bbt_read.specs.Reader.{BlockAdded, Stopped};

use crate::bbt_fault::BbtFault;
use crate::block_rows::add_entries;
use crate::kept_table::RunEnd;
use crate::kept_table::checked::draw_checked;
use crate::kept_table::index_leads::IndexLead;
use sst_block::RowForm;
use sst_device::Folder;
use sst_key::Entry;
use sst_num::{Bytes, Handle, Memory, Stop};
use std::alloc::Global;

/// The data blocks that were read so far.
#[derive(Debug, Drop)]
pub struct DataBlocks {
    /// The data blocks, in order: the separator of each, and where its entries end.
    pub ends: Vec<RunEnd>,
    /// The entries of all blocks, in order.
    pub entries: Vec<Entry>,
}

/// Appends a run by its separator and where it ends.
pub fn add_end(ends: &mut Vec<RunEnd>, separator: Bytes, end: usize) -> Result<(), Memory>
    ensures { OnOk result (ends.new.items ≡ ends.old.items ++ record { separator = separator; end = end } ∷ []) }
{
    ends.push(RunEnd { separator, end })?;
    Ok(())
}

/// Reads the data block at the handle, appends its entries, and answers how many there are then.
fn read_block<F: Folder>(
    alloc: Global,
    files: &mut F,
    name: &str,
    end: u64,
    handle: Handle,
    entries: &mut Vec<Entry>,
) -> Result<usize, Stop<BbtFault>>
    ensures added { IfOk result (λ place. (block : BlockAdded entries.old.items entries.new.items place)
        × ((file : List ℕ) → file_of (F.held files.old) name.now ≡ Some file → HoldsEntries file end handle block.entries)) }
    ensures told { (file : List ℕ) → file_of (F.held files.old) name.now ≡ Some file
        → Stopped result (SomeBlockFails Entries file end handle) }
    ensures folder { OnlyReads (result ≡ Err Stop.Device) (IsTrue (misses (F.held files.old) name.now end))
        (F.held files.old) (F.held files.new) (F.faults files.old) (F.faults files.new) }
{
    let block = draw_checked(alloc, files, name, end, handle, RowForm::Entries)?;
    if block.count == 0 {
        return Err(Stop::Damage(BbtFault::EmptyBlock(handle)));
    }
    add_entries(alloc, block.bytes.as_slice(), block.count, entries)?;
    Ok(entries.len())
}

/// Reads the data block to which a row of an index leads: appends where it ends, and its entries.
pub fn add_block<F: Folder>(
    alloc: Global,
    files: &mut F,
    name: &str,
    end: u64,
    lead: IndexLead,
    blocks: &mut DataBlocks,
) -> Result<(), Stop<BbtFault>>
    ensures added { OnOk result ((block : BlockAdded blocks.old.entries.items blocks.new.entries.items (length blocks.new.entries.items))
        × (blocks.new.ends.items ≡ blocks.old.ends.items ++ record { separator = lead.separator; end = length blocks.new.entries.items } ∷ [])
        × ((file : List ℕ) → file_of (F.held files.old) name.now ≡ Some file → HoldsEntries file end lead.handle block.entries)) }
    ensures told { (file : List ℕ) → file_of (F.held files.old) name.now ≡ Some file
        → Stopped result (SomeBlockFails Entries file end lead.handle) }
    ensures folder { OnlyReads (result ≡ Err Stop.Device) (IsTrue (misses (F.held files.old) name.now end))
        (F.held files.old) (F.held files.new) (F.faults files.old) (F.faults files.new) }
{
    let place = read_block(alloc, files, name, end, lead.handle, &mut blocks.entries)?;
    add_end(&mut blocks.ends, lead.separator, place)?;
    Ok(())
}

/// Reads the data blocks to which the rows of an index block lead, one after the other.
pub fn read_blocks<F: Folder>(
    alloc: Global,
    files: &mut F,
    name: &str,
    end: u64,
    leads: Vec<IndexLead>,
    blocks: &mut DataBlocks,
) -> Result<(), Stop<BbtFault>>
    ensures added { OnOk result ((added : BlocksAdded leads.items blocks.old blocks.new)
        × ((file : List ℕ) → file_of (F.held files.old) name.now ≡ Some file → LeadToBlocks file end false (pairs_of leads.items) added.blocks)) }
    ensures told { (file : List ℕ) → file_of (F.held files.old) name.now ≡ Some file
        → Stopped result (BlocksFail file end (pairs_of leads.items)) }
    ensures folder { OnlyReads (result ≡ Err Stop.Device) (IsTrue (misses (F.held files.old) name.now end))
        (F.held files.old) (F.held files.new) (F.faults files.old) (F.faults files.new) }
{
    for lead in leads {
        add_block(alloc, files, name, end, lead, blocks)?;
    }
    Ok(())
}
