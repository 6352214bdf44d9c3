//! The rows of an index block as they are kept while a file is opened.
ghost use Rattle.std.specs.Prelude.{◌≡◌, ℕ, ◌^◌, ◌≤◌, List, ◌++◌, length, Some, Err, IsTrue, IfOk};
ghost use Rattle.sst_block.specs.Block.{Row, Block};
ghost use Rattle.sst_block.specs.IndexRows.{IndexPair, IndexRows};
ghost use Rattle.sst_block.specs.declared.row_form.RowForm.TheVariants.{Index};
ghost use Rattle.sst_device.specs.Folder.{file_of, misses};
ghost use Rattle.sst_device.specs.Outside.{OnlyReads};
ghost use Rattle.sst_bbt_spec.specs.IndexLeads.{SaysPairs};
ghost use Rattle.sst_bbt_spec.specs.Parts.{separator_of};
ghost use Rattle.sst_bbt_read.specs.KeptLeads.{AreLeads, leads_of};
ghost use Rattle.sst_bbt_read.specs.OpeningFaults.{BlockFails};
ghost use Rattle.sst_bbt_read.specs.Reader.{Stopped};

use crate::bbt_fault::BbtFault;
use crate::kept_table::checked::draw_checked;
use sst_block::{BlockIter, RowForm};
use sst_device::Folder;
use sst_key::KeyRoom;
use sst_meta::IndexForm;
use sst_num::{Bytes, Handle, Memory, Stop, put_fixed64};
use std::alloc::Global;

/// A row of an index block: a separator leads to the block at a handle.
#[derive(Debug, Drop)]
pub struct IndexLead {
    /// The separator: a stored key of at least eight bytes.
    pub separator: Bytes,
    /// Where the block stands.
    pub handle: Handle,
}

/// A separator as a stored key: one that is a user key takes the tag 0 behind.
fn stored_separator(alloc: Global, user_key: bool, key: &[u8]) -> Result<Bytes, Memory>
    ensures { IfOk result (λ b. b ≡ separator_of user_key key.now) }
{
    let mut stored = Vec::from_slice(alloc, key)?;
    if user_key {
        put_fixed64(&mut stored, 0)?;
    }
    Ok(Bytes::from(stored))
}

/// The rows of an index block of the form, of which there are `count`.
fn copy_leads(
    alloc: Global,
    block: &[u8],
    form: IndexForm,
    count: u32,
) -> Result<Vec<IndexLead>, Memory>
    requires { (rows : List Row) × Block (Index form.user_key form.delta) block.now rows × (length rows ≡ count) }
    ensures { IfOk result (λ leads. (pairs : List IndexPair) → IndexRows form.user_key form.delta block.now pairs
        → leads.items ≡ leads_of form.user_key pairs) }
{
    let room = KeyRoom::new(alloc)?;
    let row_form = RowForm::Index {
        user_key: form.user_key,
        delta: form.delta,
    };
    let mut rows = BlockIter::start(block, row_form, room);
    let mut leads = Vec::new(alloc);
    rows.first();
    for _row in 0..count {
        let separator = stored_separator(alloc, form.user_key, rows.key())?;
        let handle = rows.handle();
        leads.push(IndexLead { separator, handle })?;
        rows.next();
    }
    Ok(leads)
}

/// Reads the index block at the handle: its rows, in order. `end` is the file's length without its footer.
///
/// RocksDB: `IndexReaderCommon::ReadIndexBlock` in table/block_based/index_reader_common.cc.
pub fn read_leads<F: Folder>(
    alloc: Global,
    files: &mut F,
    name: &str,
    end: u64,
    form: IndexForm,
    handle: Handle,
) -> Result<Vec<IndexLead>, Stop<BbtFault>>
    ensures are { IfOk result (λ leads. AreLeads leads.items) }
    ensures says { (file : List ℕ) → file_of (F.held files.old) name.now ≡ Some file
        → IfOk result (λ leads. (pairs : List IndexPair) × SaysPairs file end form handle pairs × (leads.items ≡ leads_of form.user_key pairs)) }
    ensures told { (file : List ℕ) → file_of (F.held files.old) name.now ≡ Some file
        → Stopped result (BlockFails (Index form.user_key form.delta) file end handle) }
    ensures folder { OnlyReads (result ≡ Err Stop.Device) (IsTrue (misses (F.held files.old) name.now end))
        (F.held files.old) (F.held files.new) (F.faults files.old) (F.faults files.new) }
{
    let row_form = RowForm::Index {
        user_key: form.user_key,
        delta: form.delta,
    };
    let block = draw_checked(alloc, files, name, end, handle, row_form)?;
    let leads = copy_leads(alloc, block.bytes.as_slice(), form, block.count)?;
    Ok(leads)
}
