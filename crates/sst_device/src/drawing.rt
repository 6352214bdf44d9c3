//! Bytes of a file, and the blocks that are stored in it, as new lists of bytes.
ghost use Rattle.std.specs.Prelude.{◌≡◌, ℕ, ◌+◌, ◌^◌, ◌≤◌, ◌⊎◌, List, length, nat_lt, Some, Err, IsTrue, IsErr, IfSome, IfNone, IfOk, OnOk};
ghost use Rattle.sst_device.specs.Folder.{file_of, misses};
ghost use Rattle.sst_device.specs.Faults.{counted};
ghost use Rattle.sst_device.specs.Outside.{OnlyReads};
ghost use Rattle.sst_device.specs.Drawn.{block_drawn};
ghost use Rattle.sst_device.specs.Framed.{bytes_at};
ghost use Rattle.sst_device.specs.FrameReading as reading;
ghost use Rattle.sst_device.specs.FrameReading.{frame_read, opened};
ghost use Rattle.sst_device.specs.Stops.{Answers, stop_of};
ghost use Rattle.sst_device.specs.declared.frame.FrameFault.{FrameFault};
ghost use Rattle.sst_num.specs.declared.stops.Stop.TheVariants as stop;

use crate::folder::{DevStop, Folder};
use crate::frame::{FrameFault, TRAILER_LENGTH, UNCOMPRESSED};
use sst_num::{Bytes, Handle, Stop, fixed32};
use sst_sums::{crc32c, mask};
use std::alloc::Global;

/// The most bytes of a block that is read.
const BLOCK_LIMIT: u64 = 1 << 29;

impl<X> From<DevStop> for Stop<X> {
    ghost from_gives = { λ d s. s ≡ stop_of d };

    fn from(d: DevStop) -> Stop<X> {
        match d {
            DevStop::Failed => Stop::Device,
            DevStop::Memory => Stop::Memory,
        }
    }
}

/// The `len` bytes of the named file from `at` on.
///
/// Fails at a miss, where the folder fails, and where memory runs out.
pub fn draw<F: Folder>(
    alloc: Global,
    files: &mut F,
    name: &str,
    at: u64,
    len: usize,
) -> Result<Bytes, DevStop>
    ensures bytes { IfOk result (λ b. IfSome (file_of (F.held files.old) name.now) (λ file. b ≡ bytes_at file at len)) }
    ensures sized { IfOk result (λ b. length b ≡ len) }
    ensures miss { IsTrue (misses (F.held files.old) name.now (at + len)) → IsErr result }
    ensures folder { OnlyReads (result ≡ Err DevStop.Failed) (IsTrue (misses (F.held files.old) name.now (at + len)))
        (F.held files.old) (F.held files.new) (F.faults files.old) (F.faults files.new) }
    ensures drew { OnOk result (F.drawn files.new ≡ counted (F.drawn files.old) len) }
    ensures drew_some { F.drawn files.new ≤ F.drawn files.old + len }
    ensures never_falls { F.drawn files.old ≤ F.drawn files.new }
{
    let mut bytes = Vec::new(alloc);
    if bytes.resize(len, 0).is_err() {
        return Err(DevStop::Memory);
    }
    files.read_at(name, at, bytes.as_mut_slice())?;
    Ok(Bytes::from(bytes))
}

/// The block at the handle, without its trailer. `end` is the file's length without its footer.
///
/// Nothing is read where the handle itself is a fault. Else the block and its trailer are read in one call, and the
/// block isn't copied. Of a folder that tells nothing the fault is that of the bytes that were read.
/// RocksDB: `BlockFetcher::ReadBlockContents` in table/block_fetcher.cc.
pub fn draw_framed<F: Folder>(
    alloc: Global,
    files: &mut F,
    name: &str,
    end: u64,
    handle: Handle,
) -> Result<Bytes, Stop<FrameFault>>
    ensures early { (fault : FrameFault) → reading.early_fault end handle ≡ Some fault → result ≡ Err (Stop.Damage fault) }
    ensures exact { (file : List ℕ) → file_of (F.held files.old) name.now ≡ Some file → Answers result (frame_read file end handle) }
    ensures sized { IfOk result (λ b. (length b ≡ handle.size) × (handle.size ≤ 2 ^ 29)) }
    ensures folder { OnlyReads (result ≡ Err Stop.Device) (IsTrue (misses (F.held files.old) name.now end))
        (F.held files.old) (F.held files.new) (F.faults files.old) (F.faults files.new) }
    ensures unread { (fault : FrameFault) → reading.early_fault end handle ≡ Some fault → files.new ≡ files.old }
    ensures drew_some { F.drawn files.new ≤ F.drawn files.old + block_drawn handle }
    ensures never_falls { F.drawn files.old ≤ F.drawn files.new }
{
    match early_fault(end, handle) {
        Some(fault) => Err(Stop::Damage(fault)),
        None => {
            let len = handle.size as usize + TRAILER_LENGTH as usize;
            let stored = draw(alloc, files, name, handle.offset, len)?;
            match open_frame(stored, handle) {
                Ok(block) => Ok(block),
                Err(fault) => Err(Stop::Damage(fault)),
            }
        }
    }
}

/// Where the trailer of the block ends. None where that is 2^64 or more.
fn frame_end(handle: Handle) -> Option<u64>
    ensures some { IfSome result (λ n. n ≡ handle.offset + handle.size + 5) }
    ensures none { IfNone result (2 ^ 64 ≤ handle.offset + handle.size + 5) }
{
    handle
        .offset
        .checked_add(handle.size)?
        .checked_add(TRAILER_LENGTH)
}

/// Whether the block or its trailer passes the end.
fn is_out_of_file(end: u64, handle: Handle) -> bool
    ensures { result ≡ nat_lt end (handle.offset + handle.size + 5) }
{
    match frame_end(handle) {
        Some(last) => end < last,
        None => true,
    }
}

/// What is wrong before anything is read, where something is.
fn early_fault(end: u64, handle: Handle) -> Option<FrameFault>
    ensures { result ≡ reading.early_fault end handle }
{
    if is_out_of_file(end, handle) {
        return Some(FrameFault::OutOfFile(handle));
    }
    if handle.size > BLOCK_LIMIT {
        return Some(FrameFault::TooLarge(handle));
    }
    None
}

/// Whether the checksum behind a block of `size` bytes and its type byte is theirs.
///
/// RocksDB: `VerifyBlockChecksum` in table/block_based/reader_common.cc.
fn has_checksum(size: usize, stored: &[u8]) -> bool
    requires { length stored.now ≡ size + 5 }
    ensures { result ≡ reading.has_checksum size stored.now }
{
    let (framed, checksum) = stored.split_at(size + 1);
    fixed32(checksum) == mask(crc32c(framed))
}

/// The block of a handle in its stored bytes, which are the block and its trailer; it isn't copied.
#[tactic(auto, unfolding(crate::specs::FrameReading::opened))]
fn open_frame(stored: Bytes, handle: Handle) -> Result<Bytes, FrameFault>
    requires sized { length stored ≡ handle.size + 5 }
    requires limited { handle.size ≤ 2 ^ 29 }
    ensures exact { result ≡ opened handle stored }
    ensures sized { IfOk result (λ b. length b ≡ handle.size) }
{
    let size = handle.size as usize;
    if !has_checksum(size, stored.as_slice()) {
        return Err(FrameFault::Checksum(handle));
    }
    let kind = stored.as_slice()[size];
    if kind != UNCOMPRESSED {
        return Err(FrameFault::Compressed(handle, kind));
    }
    let mut block = stored.into_vec();
    block.truncate(size);
    Ok(Bytes::from(block))
}
