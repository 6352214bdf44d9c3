//! The reader of block-based files. A file is opened, or the first thing that is wrong with it is answered.
ghost use Rattle.std.specs.Prelude.{◌≡◌, ℕ, ◌≤◌, ◌⊎◌, false, List, Some, Err, IsTrue, IfOk, replicate};
ghost use Rattle.std.specs.String.{string_bytes};
ghost use Rattle.sst_device.specs.Folder.{file_of, misses};
ghost use Rattle.sst_device.specs.Outside.{OnlyReads};
ghost use Rattle.sst_key.specs.declared.entries.Entry.{Entry as entry_type};
ghost use Rattle.sst_bbt_spec.specs.BlockBased.{BlockBased, Opens};
ghost use Rattle.sst_bbt_spec.specs.Parts.{Part};
ghost use Rattle.sst_bbt_read.specs.Kept.{Keeps};
ghost use Rattle.sst_bbt_read.specs.Positions.{Belongs, OpensAs};
ghost use Rattle.sst_bbt_read.specs.Seats.{OpenReader, seats_of, open_of};
ghost use Rattle.sst_bbt_read.specs.TableBlocks.{IsOpenTable};
ghost use Rattle.sst_bbt_read.specs.declared.bbt_fault.BbtFault.{BbtFault as fault_type};
ghost use Rattle.sst_bbt_read.specs.declared.cursor.Cursor.{Cursor as cursor_type};

mod calls;
mod seating;

use crate::bbt_fault::BbtFault;
use crate::kept_table::KeptTable;
use sst_device::Folder;
use sst_num::{Memory, Stop};
use std::alloc::Global;
use std::marker::Model;

/// A block-based file that is open, and its cursors.
///
/// It must be ended by [`BbtReader::shut`], and each of its cursors by [`BbtReader::close`]. Contracts see its name; how it and its
/// cursors stand to the file is said by relations (specs/Positions.antt). For now all entries are kept in memory.
/// RocksDB: `BlockBasedTable` in table/block_based/block_based_table_reader.h.
#[derive(Debug)]
pub struct BbtReader {
    /// The name of the file.
    name: String,
    /// What is kept of the file.
    table: KeptTable,
    /// For each seat whether a cursor has it.
    seats: Vec<bool>,
}

impl Model for BbtReader {
    ghost use Rattle.std.specs.String.{string_bytes};
    ghost use Rattle.sst_bbt_read.specs.Seats.{OpenReader};
    ghost use Rattle.sst_bbt_read.specs.TableBlocks.{IsOpenTable};

    ghost Value = { OpenReader };

    ghost view = { λ r. record { name = string_bytes r.name; table = r.table; seats = r.seats.items } };

    ghost invariant = { λ r. IsOpenTable r.table };
}

impl BbtReader {
    /// Opens the named file: reads what it says of itself, its index, and its data blocks. At most `seats` cursors may be
    /// open at a time; `cached` is how many blocks may be kept beside those that cursors need, and has no effect yet.
    ///
    /// The first thing that is wrong is answered, in this order: what `load` of `sst_meta` answers; the top block of the
    /// index; then each part of the index, and behind it its data blocks.
    /// RocksDB: `BlockBasedTable::Open` in table/block_based/block_based_table_reader.cc.
    pub fn open<F: Folder>(
        alloc: Global,
        files: &mut F,
        name: &str,
        seats: usize,
        cached: usize,
    ) -> Result<BbtReader, Stop<BbtFault>>
        requires seats { (1 ≤ seats) × (seats ≤ 64) }
        requires cached { cached ≤ 1024 }
        ensures told { (file : List ℕ) → file_of (F.held files.old) name.now ≡ Some file → OpensAs result file }
        ensures stands { (file : List ℕ) (entries : List entry_type) → file_of (F.held files.old) name.now ≡ Some file → BlockBased file entries
            → (fault : fault_type) → result ≡ Err (Stop.Damage fault) → ⊥ }
        ensures name { IfOk result (λ r. r.name ≡ name.now) }
        ensures seats { IfOk result (λ r. (seats_of r ≡ seats) × (open_of r ≡ 0)) }
        ensures none { IfOk result (λ r. (c : cursor_type) → Belongs r c → ⊥) }
        ensures kept { IfOk result (λ r. (parts : List Part) × Keeps r parts
            × ((file : List ℕ) → file_of (F.held files.old) name.now ≡ Some file → Opens file parts)) }
        ensures folder { OnlyReads (result ≡ Err Stop.Device) (IsTrue (misses (F.held files.old) name.now 0))
            (F.held files.old) (F.held files.new) (F.faults files.old) (F.faults files.new) }
        ensures absent { IsTrue (misses (F.held files.old) name.now 0) → (result ≡ Err Stop.Device) ⊎ (result ≡ Err Stop.Memory) }
    {
        let _later = cached;
        match KeptTable::open(alloc, files, name) {
            Err(stop) => Err(stop),
            Ok(table) => {
                let reader = seated(alloc, name, table, seats)?;
                Ok(reader)
            }
        }
    }
}

/// A reader of what is kept of the named file, with so many seats, which no cursor has.
fn seated(alloc: Global, name: &str, table: KeptTable, seats: usize) -> Result<BbtReader, Memory>
    requires { IsOpenTable table }
    ensures { IfOk result (λ r. r ≡ record { name = name.now; table = table; seats = replicate seats false }) }
{
    let name = String::from_str(alloc, name)?;
    let seats = vec![in alloc; false; seats]?;
    Ok(BbtReader { name, table, seats })
}
