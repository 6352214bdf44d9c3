//! Open files that are read and written at places.
use crate::real::failure::Failure;
use std::fs::{Metadata, OpenFile, OpenOptions};
use std::io;
use std::io::{ErrorKind, Read, Seek, SeekFrom, Write};
use std::os::unix::fs::FileTypeExt;
use std::rt::Files;

/// Opens the named file to read, and perhaps to write.
///
/// A directory, a pipe, a socket and a character device are refused before they are opened: they have no places,
/// and opening a pipe waits for its other end.
pub(crate) fn open_at_places<R: Files>(
    rt: &R,
    name: &str,
    is_writable: bool,
) -> Result<R::File, Failure> {
    refuse_without_places(&rt.metadata(name)?)?;
    let mut options = OpenOptions::new();
    let _ = options.read(true).write(is_writable);
    Ok(options.open(rt, name)?)
}

/// Refuses what isn't a regular file or a block device.
fn refuse_without_places(metadata: &Metadata) -> io::Result<()> {
    let kind = metadata.file_type();
    if kind.is_file() || kind.is_block_device() {
        Ok(())
    } else if kind.is_dir() {
        Err(io::Error::from(ErrorKind::IsADirectory))
    } else {
        Err(io::Error::from(ErrorKind::NotSeekable))
    }
}

/// How many bytes the file has.
pub(crate) fn size_of<F: Seek>(file: &mut F) -> Result<u64, Failure> {
    Ok(file.seek(SeekFrom::End(0))?)
}

/// Fills the buffer with the file's bytes from `at` on.
pub(crate) fn read_range<F: Read + Seek>(
    file: &mut F,
    at: u64,
    buf: &mut [u8],
) -> Result<(), Failure> {
    file.seek(SeekFrom::Start(at))?;
    Ok(file.read_exact(buf)?)
}

/// Writes the piece after the file's last byte.
pub(crate) fn append<F: Write + Seek>(file: &mut F, piece: &[u8]) -> Result<(), Failure> {
    file.seek(SeekFrom::End(0))?;
    Ok(file.write_all(piece)?)
}

/// Writes the piece over the file's bytes from `at` on, which are there.
pub(crate) fn write_over<F: Write + Seek>(
    file: &mut F,
    at: u64,
    piece: &[u8],
) -> Result<(), Failure> {
    let size = file.seek(SeekFrom::End(0))?;
    if !is_within(size, at, piece.len()) {
        return Err(Failure::from(io::Error::from(ErrorKind::UnexpectedEof)));
    }
    file.seek(SeekFrom::Start(at))?;
    Ok(file.write_all(piece)?)
}

/// Waits until the disk has what was written, where the system has such a call: not for a pipe and many devices, and in some file
/// systems not for a folder.
pub(crate) fn sync_if_it_can<F: OpenFile>(file: &F) -> io::Result<()> {
    match file.sync_all() {
        Err(error) if error.kind() == ErrorKind::InvalidInput => Ok(()),
        other => other,
    }
}

/// Whether a range of `more` bytes from `at` on ends within `size` bytes.
fn is_within(size: u64, at: u64, more: usize) -> bool {
    match at.checked_add(more as u64) {
        Some(end) => end <= size,
        None => false,
    }
}
