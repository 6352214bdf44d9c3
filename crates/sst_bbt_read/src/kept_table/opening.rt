//! The tree of a file that is opened: the top block of its index, the parts of the index, and behind each its data blocks.
ghost use Rattle.std.specs.Prelude.{◌≡◌, ℕ, ◌≤◌, true, false, List, [], ◌∷◌, length, Some, Err, IsTrue, OnOk, IfOk};
ghost use Rattle.sst_block.specs.IndexRows.{IndexPair};
ghost use Rattle.sst_device.specs.Folder.{file_of, misses};
ghost use Rattle.sst_device.specs.Outside.{OnlyReads};
ghost use Rattle.sst_bbt_spec.specs.IndexLeads.{SaysPairs, LeadsWithin, LeadToParts};
ghost use Rattle.sst_bbt_read.specs.GrownTable.{PartAdded};
ghost use Rattle.sst_bbt_read.specs.KeptLeads.{AreLeads, lead_of, leads_of};
ghost use Rattle.sst_bbt_read.specs.OpeningFaults.{WithinFails, PartsFail, TreeFails};
ghost use Rattle.sst_bbt_read.specs.Reader.{Stopped};
ghost use Rattle.sst_bbt_read.specs.TableBlocks.{IsOpenTable, parts_of};

use crate::bbt_fault::BbtFault;
use crate::kept_table::KeptTable;
use crate::kept_table::data_blocks::{DataBlocks, add_block, add_end, read_blocks};
use crate::kept_table::index_leads::{IndexLead, read_leads};
use sst_device::Folder;
use sst_meta::IndexForm;
use sst_num::{Bytes, Handle, Stop};
use std::alloc::Global;

/// Opens a file by the handle of the top block of its index. `end` is the file's length without its footer.
///
/// RocksDB: `BlockBasedTable::CreateIndexReader` in table/block_based/block_based_table_reader.cc.
pub fn open_tree<F: Folder>(
    alloc: Global,
    files: &mut F,
    name: &str,
    end: u64,
    form: IndexForm,
    handle: Handle,
) -> Result<KeptTable, Stop<BbtFault>>
    ensures table { IfOk result IsOpenTable }
    ensures opens { (file : List ℕ) → file_of (F.held files.old) name.now ≡ Some file
        → IfOk result (λ table. (pairs : List IndexPair) × SaysPairs file end form handle pairs × LeadToParts file end form pairs (parts_of table)) }
    ensures told { (file : List ℕ) → file_of (F.held files.old) name.now ≡ Some file → Stopped result (TreeFails file end form handle) }
    ensures folder { OnlyReads (result ≡ Err Stop.Device) (IsTrue (misses (F.held files.old) name.now end))
        (F.held files.old) (F.held files.new) (F.faults files.old) (F.faults files.new) }
{
    let leads = read_leads(alloc, files, name, end, form, handle)?;
    read_parts(alloc, files, name, end, form, leads)
}

/// Reads what the rows of the top block lead to, one after the other.
fn read_parts<F: Folder>(
    alloc: Global,
    files: &mut F,
    name: &str,
    end: u64,
    form: IndexForm,
    leads: Vec<IndexLead>,
) -> Result<KeptTable, Stop<BbtFault>>
    requires { AreLeads leads.items }
    ensures table { IfOk result IsOpenTable }
    ensures opens { (file : List ℕ) → file_of (F.held files.old) name.now ≡ Some file → (pairs : List IndexPair) → leads.items ≡ leads_of form.user_key pairs
        → IfOk result (λ table. LeadToParts file end form pairs (parts_of table)) }
    ensures told { (file : List ℕ) → file_of (F.held files.old) name.now ≡ Some file → (pairs : List IndexPair) → leads.items ≡ leads_of form.user_key pairs
        → Stopped result (PartsFail file end form pairs) }
    ensures folder { OnlyReads (result ≡ Err Stop.Device) (IsTrue (misses (F.held files.old) name.now end))
        (F.held files.old) (F.held files.new) (F.faults files.old) (F.faults files.new) }
{
    let mut tops = Vec::new(alloc);
    let mut blocks = DataBlocks {
        ends: Vec::new(alloc),
        entries: Vec::new(alloc),
    };
    for lead in leads {
        read_within(alloc, files, name, end, form, &lead, &mut blocks)?;
        add_end(&mut tops, lead.separator, blocks.ends.len())?;
    }
    let DataBlocks { ends, entries } = blocks;
    Ok(KeptTable {
        whole: !form.parted,
        tops,
        ends,
        entries,
    })
}

/// Reads what a row of the top block leads to: in an index of parts the part and its data blocks, in a whole index the one
/// data block.
fn read_within<F: Folder>(
    alloc: Global,
    files: &mut F,
    name: &str,
    end: u64,
    form: IndexForm,
    lead: &IndexLead,
    blocks: &mut DataBlocks,
) -> Result<(), Stop<BbtFault>>
    requires { 8 ≤ length lead.now.separator }
    ensures added { OnOk result ((part : PartAdded blocks.old blocks.new)
        × ((file : List ℕ) → file_of (F.held files.old) name.now ≡ Some file → (pair : IndexPair) → lead.now ≡ lead_of form.user_key pair
        → LeadsWithin form.parted file end form pair part.added.blocks)
        × (form.parted ≡ false → part.leads ≡ lead.now ∷ [])) }
    ensures told { (file : List ℕ) → file_of (F.held files.old) name.now ≡ Some file → (pair : IndexPair) → lead.now ≡ lead_of form.user_key pair
        → Stopped result (WithinFails form.parted file end form pair) }
    ensures folder { OnlyReads (result ≡ Err Stop.Device) (IsTrue (misses (F.held files.old) name.now end))
        (F.held files.old) (F.held files.new) (F.faults files.old) (F.faults files.new) }
{
    if form.parted {
        read_part(alloc, files, name, end, form, lead.handle, blocks)
    } else {
        let separator = Bytes::from_slice(alloc, lead.separator.as_slice())?;
        let copy = IndexLead {
            separator,
            handle: lead.handle,
        };
        add_block(alloc, files, name, end, copy, blocks)
    }
}

/// Reads the part of the index at the handle, and its data blocks.
fn read_part<F: Folder>(
    alloc: Global,
    files: &mut F,
    name: &str,
    end: u64,
    form: IndexForm,
    handle: Handle,
    blocks: &mut DataBlocks,
) -> Result<(), Stop<BbtFault>>
    ensures added { OnOk result ((part : PartAdded blocks.old blocks.new)
        × ((file : List ℕ) → file_of (F.held files.old) name.now ≡ Some file → (pair : IndexPair) → pair.handle ≡ handle
        → LeadsWithin true file end form pair part.added.blocks)) }
    ensures told { (file : List ℕ) → file_of (F.held files.old) name.now ≡ Some file → (pair : IndexPair) → pair.handle ≡ handle
        → Stopped result (WithinFails true file end form pair) }
    ensures folder { OnlyReads (result ≡ Err Stop.Device) (IsTrue (misses (F.held files.old) name.now end))
        (F.held files.old) (F.held files.new) (F.faults files.old) (F.faults files.new) }
{
    let leads = read_leads(alloc, files, name, end, form, handle)?;
    if leads.is_empty() {
        return Err(Stop::Damage(BbtFault::EmptyBlock(handle)));
    }
    read_blocks(alloc, files, name, end, leads, blocks)
}
