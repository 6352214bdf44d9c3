//! A new file beside the one whose place it takes in the end.
//!
//! Its path is that of the old file with `.sst-new` after it. So what a killed run left there is found and removed by the
//! next one that writes the same file. Nothing but a regular file is ever removed there, and no link is followed.
use crate::real::failure::Failure;
use crate::real::places::sync_if_it_can;
use std::alloc::AllocGlobal;
use std::fs::{Metadata, OpenFile, OpenOptions, Permissions};
use std::io;
use std::io::ErrorKind;
use std::os::unix::fs::{MetadataExt, OpenOptionsExt, PermissionsExt};
use std::path::{Path, PathBuf};
use std::rt::Files;

/// What is after the old file's path in the new one's.
const SUFFIX: &str = ".sst-new";

/// How many symbolic links are followed one after another, as the system has it.
const MOST_LINKS: u32 = 40;

/// A file and the place that it takes in the end.
#[derive(Drop)]
pub(crate) struct Beside<F: Drop> {
    pub(crate) file: F,
    /// Where the file is.
    path: String,
    /// Where it is to be.
    target: String,
    /// The folder of both.
    folder: F,
}

/// Makes a new file beside the named one, which is absent, or is a regular file and has this metadata.
///
/// A link is followed, so the new file stands beside the file that the name leads to. It has the mode of the old one, but
/// for bits beyond reading, writing and running. An old one that may not be written is refused.
pub(crate) fn begin_beside<R: Files + AllocGlobal>(
    rt: &R,
    name: &str,
    old: Option<&Metadata>,
) -> Result<Beside<R::File>, Failure> {
    let target = followed(rt, name)?;
    if let Some(old) = old {
        refuse_unwritable(rt, target.as_str(), old)?;
    }
    let folder = open_folder(rt, target.as_str())?;
    let mut path = String::from_str(rt.alloc(), target.as_str())?;
    path.push_str(SUFFIX)?;
    match make(rt, path.as_str(), old) {
        Ok(file) => Ok(Beside {
            file,
            path,
            target: target.into_string(),
            folder,
        }),
        Err(error) => Err(Failure::at(rt.alloc(), path.as_str(), error)),
    }
}

/// The path that a name leads to: it is no symbolic link, or isn't there.
fn followed<R: Files + AllocGlobal>(rt: &R, name: &str) -> Result<PathBuf, Failure> {
    let mut path = PathBuf::from_str(rt.alloc(), name)?;
    for _ in 0..MOST_LINKS {
        if !is_link(rt, path.as_str())? {
            return Ok(path);
        }
        let link = rt.read_link(rt.alloc(), path.as_str())?;
        path.set_file_name(link.as_str())?;
    }
    Err(Failure::from(io::Error::from(ErrorKind::FilesystemLoop)))
}

/// Whether a path is that of a symbolic link. What isn't there is none.
fn is_link<R: Files>(rt: &R, path: &str) -> io::Result<bool> {
    match rt.symlink_metadata(path) {
        Ok(metadata) => Ok(metadata.is_symlink()),
        Err(error) if error.kind() == ErrorKind::NotFound => Ok(false),
        Err(error) => Err(error),
    }
}

/// Refuses a file that may not be written, and one that a path no longer leads to.
fn refuse_unwritable<R: Files>(rt: &R, path: &str, old: &Metadata) -> io::Result<()> {
    let mut options = OpenOptions::new();
    let _ = options.write(true);
    let file = options.open(rt, path)?;
    if is_same(&file.metadata()?, old) {
        Ok(())
    } else {
        Err(io::Error::other("its links lead elsewhere"))
    }
}

/// Opens the folder of a path, so that it can be synced.
fn open_folder<R: Files + AllocGlobal>(rt: &R, path: &str) -> Result<R::File, Failure> {
    let folder = match Path::new(path).parent() {
        Some(folder) => folder.as_str(),
        None => "",
    };
    let folder = if folder.is_empty() { "." } else { folder };
    let mut options = OpenOptions::new();
    let _ = options.read(true);
    match options.open(rt, folder) {
        Ok(file) => Ok(file),
        Err(error) => Err(Failure::at(rt.alloc(), folder, error)),
    }
}

/// Makes a file that wasn't there. One that a killed run left is removed before; anything else at its path is refused.
fn make<R: Files>(rt: &R, path: &str, old: Option<&Metadata>) -> io::Result<R::File> {
    if is_file(rt, path) {
        rt.remove_file(path)?;
    }
    let mut options = OpenOptions::new();
    let _ = options.read(true).write(true).create_new(true);
    let Some(old) = old else {
        return options.open(rt, path);
    };
    // Until it has the old file's mode nobody else may open it.
    let _ = options.mode(0o600);
    let file = options.open(rt, path)?;
    let mode = Permissions::from_mode(old.mode() & 0o777);
    match file.set_permissions(mode) {
        Ok(()) => Ok(file),
        Err(error) => {
            let _ = rt.remove_file(path);
            Err(error)
        }
    }
}

/// Whether a path is that of a regular file, with no link followed.
fn is_file<R: Files>(rt: &R, path: &str) -> bool {
    match rt.symlink_metadata(path) {
        Ok(metadata) => metadata.is_file(),
        Err(_) => false,
    }
}

/// Whether two metadata are of one file.
fn is_same(one: &Metadata, other: &Metadata) -> bool {
    one.dev() == other.dev() && one.ino() == other.ino()
}

/// Whether the new file still is at its path. Another run that writes the same file has removed it, and has its own there
/// or in its place.
fn is_at_its_path<R: Files>(rt: &R, beside: &Beside<R::File>) -> io::Result<bool> {
    match rt.symlink_metadata(beside.path.as_str()) {
        Ok(found) => Ok(is_same(&found, &beside.file.metadata()?)),
        Err(error) if error.kind() == ErrorKind::NotFound => Ok(false),
        Err(error) => Err(error),
    }
}

/// Puts the new file into the place of the old one, and syncs their folder.
pub(crate) fn put_in_place<R: Files>(rt: &R, beside: &Beside<R::File>) -> io::Result<()> {
    if !is_at_its_path(rt, beside)? {
        return Err(io::Error::other("another run writes this file"));
    }
    rt.rename(beside.path.as_str(), beside.target.as_str())?;
    sync_if_it_can(&beside.folder)
}

/// Removes the new file, if it is at its path. Where that fails it stays there.
pub(crate) fn remove<R: Files>(rt: &R, beside: &Beside<R::File>) {
    let is_there = match is_at_its_path(rt, beside) {
        Ok(is_there) => is_there,
        Err(_) => false,
    };
    if is_there {
        let _ = rt.remove_file(beside.path.as_str());
    }
}
