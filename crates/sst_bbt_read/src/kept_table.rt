//! What a reader keeps of a block-based file: for now all its entries, in memory, and the tree of its index.
ghost use Rattle.std.specs.Prelude.{◌≡◌, ℕ, ◌⊎◌, List, Some, Err, IsTrue, IfOk};
ghost use Rattle.sst_device.specs.Folder.{file_of, misses};
ghost use Rattle.sst_device.specs.Outside.{OnlyReads};
ghost use Rattle.sst_device.specs.Stops.{stop_as};
ghost use Rattle.sst_bbt_read.specs.Reader.{Opened, OpensTo};
ghost use Rattle.sst_bbt_read.specs.TableBlocks.{IsOpenTable};
ghost use Rattle.sst_bbt_spec.specs.BlockBased.{BlockBased};
ghost use Rattle.sst_key.specs.declared.entries.Entry.{Entry as entry_type};
ghost use Rattle.sst_bbt_read.specs.declared.bbt_fault.BbtFault.TheVariants as bbt;

mod checked;
mod data_blocks;
mod index_leads;
mod moves;
mod opening;

use crate::bbt_fault::BbtFault;
use opening::open_tree;
use sst_device::Folder;
use sst_key::Entry;
use sst_meta::{MetaFault, load};
use sst_num::{Bytes, Stop};
use std::alloc::Global;
use std::marker::Model;

/// A run of a table that is open: a data block by its separator and where its entries end, or a part of the index by its
/// separator and where its data blocks end.
#[derive(Debug, Drop)]
pub struct RunEnd {
    /// The separator: a stored key of at least eight bytes.
    pub separator: Bytes,
    /// How many entries, or data blocks, there are up to the last one of this run.
    pub end: usize,
}

/// What is kept of a block-based file that is open.
///
/// Contracts see it as the parts of its index, each by its separator and where its data blocks end; its data blocks, each by
/// its separator and where its entries end; the entries of all; and whether the index is whole. A whole index has a part
/// for each data block, of the same separator. The entries of a block increase, their sequence numbers are below 2^56, and their user keys have at most 65,536 bytes. For
/// now all entries are kept in memory.
/// RocksDB: `BlockBasedTable` in table/block_based/block_based_table_reader.h.
#[derive(Debug, Drop)]
pub struct KeptTable {
    /// The index is whole: each part is one data block.
    whole: bool,
    /// The parts of the index, in order.
    tops: Vec<RunEnd>,
    /// The data blocks of all parts, in order.
    ends: Vec<RunEnd>,
    /// The entries of all blocks, in order.
    entries: Vec<Entry>,
}

impl Model for KeptTable {
    ghost use Rattle.sst_bbt_read.specs.TableBlocks.{IsOpenTable, OpenTable};

    ghost Value = { OpenTable };

    ghost view = { λ r. record { whole = r.whole; tops = r.tops.items; ends = r.ends.items; entries = r.entries.items } };

    ghost invariant = { λ r. IsOpenTable (record { whole = r.whole; tops = r.tops.items; ends = r.ends.items; entries = r.entries.items }) };
}

impl KeptTable {
    /// Opens the named file: reads what it says of itself, its index, and its data blocks.
    ///
    /// The first thing that is wrong is answered, in this order: what `load` of `sst_meta` answers; the top block of the
    /// index; then each part of the index, and behind it its data blocks.
    /// RocksDB: `BlockBasedTable::Open` in table/block_based/block_based_table_reader.cc.
    pub fn open<F: Folder>(
        alloc: Global,
        files: &mut F,
        name: &str,
    ) -> Result<KeptTable, Stop<BbtFault>>
        ensures table { IfOk result IsOpenTable }
        ensures told { (file : List ℕ) → file_of (F.held files.old) name.now ≡ Some file → Opened result file }
        ensures stands { (file : List ℕ) (entries : List entry_type) → file_of (F.held files.old) name.now ≡ Some file
            → (stands : BlockBased file entries) → OpensTo result stands.parts }
        ensures folder { OnlyReads (result ≡ Err Stop.Device) (IsTrue (misses (F.held files.old) name.now 0))
            (F.held files.old) (F.held files.new) (F.faults files.old) (F.faults files.new) }
        ensures absent { IsTrue (misses (F.held files.old) name.now 0) → (result ≡ Err Stop.Device) ⊎ (result ≡ Err Stop.Memory) }
    {
        match load(alloc, files, name) {
            Err(stop) => Err(meta_stop(stop)),
            Ok(loaded) => {
                let end = loaded.end();
                let form = loaded.index_form();
                open_tree(alloc, files, name, end, form, loaded.footer.index)
            }
        }
    }
}

/// The stop of a file that doesn't say of itself what it must.
fn meta_stop(stop: Stop<MetaFault>) -> Stop<BbtFault>
    ensures { result ≡ stop_as bbt.Meta stop }
{
    match stop {
        Stop::Damage(fault) => Stop::Damage(BbtFault::Meta(fault)),
        Stop::Device => Stop::Device,
        Stop::Memory => Stop::Memory,
    }
}
