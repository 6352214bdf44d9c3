//! A block that is drawn from a file and checked.
ghost use Rattle.std.specs.Prelude.{◌≡◌, ℕ, ◌^◌, ◌≤◌, List, length, Some, Err, IsTrue, IfOk};
ghost use Rattle.sst_block.specs.Block.{Row, Block};
ghost use Rattle.sst_device.specs.Folder.{file_of, misses};
ghost use Rattle.sst_device.specs.Framed.{Framed};
ghost use Rattle.sst_device.specs.Outside.{OnlyReads};
ghost use Rattle.sst_device.specs.Stops.{stop_as};
ghost use Rattle.sst_bbt_read.specs.OpeningFaults.{BlockFails};
ghost use Rattle.sst_bbt_read.specs.Reader.{Stopped};
ghost use Rattle.sst_bbt_read.specs.declared.bbt_fault.BbtFault.TheVariants as bbt;

use crate::bbt_fault::BbtFault;
use sst_block::{BlockFault, RowForm, check_block};
use sst_device::{Folder, FrameFault, draw_framed};
use sst_num::{Bytes, Handle, Refused, Stop};
use std::alloc::Global;

/// A block that was drawn and checked.
#[derive(Debug, Drop)]
pub struct Checked {
    /// The block, without its trailer.
    pub bytes: Bytes,
    /// How many rows it has.
    pub count: u32,
}

/// The stop of a block that isn't had.
fn frame_stop(stop: Stop<FrameFault>) -> Stop<BbtFault>
    ensures { result ≡ stop_as bbt.Frame stop }
{
    match stop {
        Stop::Damage(fault) => Stop::Damage(BbtFault::Frame(fault)),
        Stop::Device => Stop::Device,
        Stop::Memory => Stop::Memory,
    }
}

/// Draws the block at the handle, and checks it as one of the form. `end` is the file's length without its footer.
///
/// RocksDB: `BlockFetcher::ReadBlockContents` in table/block_fetcher.cc.
pub fn draw_checked<F: Folder>(
    alloc: Global,
    files: &mut F,
    name: &str,
    end: u64,
    handle: Handle,
    form: RowForm,
) -> Result<Checked, Stop<BbtFault>>
    ensures short { IfOk result (λ c. length c.bytes ≤ 2 ^ 29) }
    ensures block { IfOk result (λ c. (rows : List Row) × Block form c.bytes rows × (length rows ≡ c.count)) }
    ensures framed { (file : List ℕ) → file_of (F.held files.old) name.now ≡ Some file → IfOk result (λ c. Framed file end handle c.bytes) }
    ensures told { (file : List ℕ) → file_of (F.held files.old) name.now ≡ Some file → Stopped result (BlockFails form file end handle) }
    ensures folder { OnlyReads (result ≡ Err Stop.Device) (IsTrue (misses (F.held files.old) name.now end))
        (F.held files.old) (F.held files.new) (F.faults files.old) (F.faults files.new) }
{
    match draw_framed(alloc, files, name, end, handle) {
        Err(stop) => Err(frame_stop(stop)),
        Ok(bytes) => match check_block(alloc, bytes.as_slice(), form) {
            Err(Refused::Cause(fault)) => Err(Stop::Damage(BbtFault::Block(handle, fault))),
            Err(Refused::Memory) => Err(Stop::Memory),
            Ok(count) => Ok(Checked { bytes, count }),
        },
    }
}
