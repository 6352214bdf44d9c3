//! The files of a folder in memory.
ghost use Rattle.std.specs.Prelude.{◌≡◌, ◌≢◌, ◌+◌, ◌<◌, ◌≤◌, List, ◌++◌, position, length, take, slice_range, IfSome, Some, None, MatchOption, Err, OnOk, OnErr};
ghost use Rattle.std.specs.FinMap.{get, insert};
ghost use Rattle.sst_device.specs.Folder.{edit_file, misses, written_over};
ghost use Rattle.sst_device.specs.MemFiles.{files_of, is_named};
ghost use Rattle.sst_device.specs.Plans.{FailsWhere};

use crate::folder::DevStop;
use sst_num::Memory;
use std::alloc::Global;

/// A file in memory.
#[derive(Debug, Drop)]
pub(crate) struct MemFile {
    pub(crate) name: String,
    pub(crate) bytes: Vec<u8>,
}

/// The place of the first file of this name.
pub(crate) fn place(files: &[MemFile], name: &str) -> Option<usize>
    ensures { result ≡ position (is_named name.now) files.now }
{
    files.iter().position(|file| name == file.name.as_str())
}

/// The bytes of the named file.
pub(crate) fn bytes_of<'a>(files: &'a [MemFile], name: &str) -> Option<&'a [u8]>
    ensures { MatchOption result (get (files_of files.now) name.now ≡ None)
        (λ bytes. get (files_of files.now) name.now ≡ Some bytes.now) }
{
    match place(files, name) {
        None => None,
        Some(i) => Some(files[i].bytes.as_slice()),
    }
}

/// Has the named file hold these bytes, whatever it held before. Where memory runs out the files stay.
pub(crate) fn put(
    files: &mut Vec<MemFile>,
    alloc: Global,
    name: &str,
    bytes: &[u8],
) -> Result<(), Memory>
    ensures ok { OnOk result (files_of files.new.items ≡ insert (files_of files.old.items) name.now bytes.now) }
    ensures err { OnErr result (files_of files.new.items ≡ files_of files.old.items) }
{
    let bytes = Vec::from_slice(alloc, bytes)?;
    match place(files, name) {
        Some(i) => files[i].bytes = bytes,
        None => {
            let name = String::from_str(alloc, name)?;
            files.push(MemFile { name, bytes })?;
        }
    }
    Ok(())
}

/// Appends the first `count` bytes of the piece to the named file. Where memory runs out the file stays.
pub(crate) fn append(
    files: &mut Vec<MemFile>,
    name: &str,
    piece: &[u8],
    count: usize,
) -> Result<(), DevStop>
    requires { count ≤ length piece.now }
    ensures added { OnOk result (Some (files_of files.new.items)
        ≡ edit_file (Some (files_of files.old.items)) name.now (λ bytes. bytes ++ take count piece.now)) }
    ensures fails { FailsWhere (misses (Some (files_of files.old.items)) name.now 0) result }
    ensures kept { OnErr result (files_of files.new.items ≡ files_of files.old.items) }
{
    match place(files, name) {
        None => Err(DevStop::Failed),
        Some(i) => match files[i].bytes.extend_from_slice(piece.split_at(count).0) {
            Ok(()) => Ok(()),
            Err(_) => Err(DevStop::Memory),
        },
    }
}

/// Where a range of `more` bytes from `at` on begins, if it ends within `len` bytes.
pub(crate) fn range_start(len: usize, at: u64, more: usize) -> Option<usize>
    ensures { MatchOption result (len < at + more) (λ start. (start ≡ at) × (at + more ≤ len)) }
{
    let start = usize::try_from(at).ok()?;
    let end = start.checked_add(more)?;
    if end <= len { Some(start) } else { None }
}

/// Writes the piece over the bytes from `start` on.
pub(crate) fn copy_over(bytes: &mut [u8], start: usize, piece: &[u8])
    requires { start + length piece.now ≤ length bytes.old }
    ensures { bytes.new ≡ written_over start piece.now bytes.old }
{
    bytes[start..start + piece.len()].copy_from_slice(piece);
}

/// Writes the first `count` bytes of the piece over those of the named file from `at` on, where the file has
/// room for the whole piece there.
pub(crate) fn write_over(
    files: &mut Vec<MemFile>,
    name: &str,
    at: u64,
    piece: &[u8],
    count: usize,
) -> Result<(), DevStop>
    requires { count ≤ length piece.now }
    ensures patched { OnOk result (Some (files_of files.new.items)
        ≡ edit_file (Some (files_of files.old.items)) name.now (written_over at (take count piece.now))) }
    ensures fails { FailsWhere (misses (Some (files_of files.old.items)) name.now (at + length piece.now)) result }
    ensures never { result ≢ Err DevStop.Memory }
    ensures kept { OnErr result (files_of files.new.items ≡ files_of files.old.items) }
{
    match place(files, name) {
        None => Err(DevStop::Failed),
        Some(i) => match range_start(files[i].bytes.len(), at, piece.len()) {
            None => Err(DevStop::Failed),
            Some(start) => {
                copy_over(&mut files[i].bytes, start, piece.split_at(count).0);
                Ok(())
            }
        },
    }
}

/// Fills the buffer with the bytes from `start` on.
pub(crate) fn copy_from(bytes: &[u8], start: usize, buf: &mut [u8])
    requires { start + length buf.old ≤ length bytes.now }
    ensures { buf.new ≡ slice_range bytes.now start (start + length buf.old) }
{
    let end = start + buf.len();
    buf.copy_from_slice(&bytes[start..end]);
}

/// Fills the buffer with the bytes of the named file from `at` on.
pub(crate) fn read(files: &[MemFile], name: &str, at: u64, buf: &mut [u8]) -> Result<(), DevStop>
    ensures filled { OnOk result (IfSome (get (files_of files.now) name.now)
        (λ bytes. buf.new ≡ slice_range bytes at (at + length buf.old))) }
    ensures fails { FailsWhere (misses (Some (files_of files.now)) name.now (at + length buf.old)) result }
    ensures never { result ≢ Err DevStop.Memory }
{
    match bytes_of(files, name) {
        None => Err(DevStop::Failed),
        Some(bytes) => match range_start(bytes.len(), at, buf.len()) {
            None => Err(DevStop::Failed),
            Some(start) => {
                copy_from(bytes, start, buf);
                Ok(())
            }
        },
    }
}
