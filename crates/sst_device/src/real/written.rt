//! The files that a run writes. They stay open to its end.
ghost use Rattle.std.specs.Prelude.{◌<◌, length, IfSome};

use crate::real::beside::{Beside, begin_beside, put_in_place, remove};
use crate::real::failure::Failure;
use crate::real::places::{append, open_at_places, sync_if_it_can};
use std::alloc::AllocGlobal;
use std::fs::{OpenFile, OpenOptions};
use std::io;
use std::io::{ErrorKind, Write};
use std::rt::Files;

/// A file that is written.
#[derive(Drop)]
pub(crate) struct Written<F: Drop> {
    /// The name by which it was called for.
    name: String,
    way: Way<F>,
}

/// How a file is written.
#[derive(Drop)]
enum Way<F: Drop> {
    /// It was begun: a new file takes its place in the end.
    Anew(Beside<F>),
    /// It was begun and is no regular file: it is written from its front on.
    Straight(F),
    /// It wasn't begun: its bytes are written over, and added to.
    InPlace(F),
}

impl<F: Drop> Written<F> {
    /// The open file.
    pub(crate) fn file(&mut self) -> &mut F {
        match &mut self.way {
            Way::Anew(beside) => &mut beside.file,
            Way::Straight(file) => file,
            Way::InPlace(file) => file,
        }
    }
}

/// The place of the named file among those that are written.
pub(crate) fn place_of<F: Drop>(all: &[Written<F>], name: &str) -> Option<usize>
    ensures within { IfSome result (λ at. at < length all.now) }
{
    for at in 0..all.len() {
        if all[at].name.as_str() == name {
            return Some(at);
        }
    }
    None
}

/// Begins the named file: a regular one, and one that is absent, beside its place. If it was begun before it is begun anew.
pub(crate) fn begin<R: Files + AllocGlobal>(
    rt: &R,
    all: &mut Vec<Written<R::File>>,
    name: &str,
) -> Result<(), Failure> {
    if let Some(at) = place_of(all, name) {
        let _ = all.remove(at);
    }
    all.reserve(1)?;
    let copy = String::from_str(rt.alloc(), name)?;
    let way = way_of(rt, name)?;
    all.push(Written { name: copy, way })?;
    Ok(())
}

/// Begins the named file in the way that what stands there asks for.
fn way_of<R: Files + AllocGlobal>(rt: &R, name: &str) -> Result<Way<R::File>, Failure> {
    match rt.metadata(name) {
        Ok(old) => {
            if old.is_file() {
                Ok(Way::Anew(begin_beside(rt, name, Some(&old))?))
            } else {
                let mut options = OpenOptions::new();
                let _ = options.write(true);
                Ok(Way::Straight(options.open(rt, name)?))
            }
        }
        Err(error) if error.kind() == ErrorKind::NotFound => {
            Ok(Way::Anew(begin_beside(rt, name, None)?))
        }
        Err(error) => Err(Failure::from(error)),
    }
}

/// The named file among those that are written. One that wasn't begun is opened in place.
pub(crate) fn writing<'a, R: Files + AllocGlobal>(
    rt: &R,
    all: &'a mut Vec<Written<R::File>>,
    name: &str,
) -> Result<&'a mut Written<R::File>, Failure> {
    let at = match place_of(all, name) {
        Some(at) => at,
        None => open_in_place(rt, all, name)?,
    };
    match all.get_mut(at) {
        Some(written) => Ok(written),
        None => Err(Failure::from(io::Error::from(ErrorKind::NotFound))),
    }
}

/// Opens the named file in place, and answers its place among those that are written.
fn open_in_place<R: Files + AllocGlobal>(
    rt: &R,
    all: &mut Vec<Written<R::File>>,
    name: &str,
) -> Result<usize, Failure> {
    let copy = String::from_str(rt.alloc(), name)?;
    let way = Way::InPlace(open_at_places(rt, name, true)?);
    let at = all.len();
    all.push(Written { name: copy, way })?;
    Ok(at)
}

/// Appends the piece to a file. What has no places is written on from where it is.
pub(crate) fn add<R: Files>(written: &mut Written<R::File>, piece: &[u8]) -> Result<(), Failure> {
    match &mut written.way {
        Way::Anew(beside) => append(&mut beside.file, piece),
        Way::Straight(file) => Ok(file.write_all(piece)?),
        Way::InPlace(file) => append(file, piece),
    }
}

/// Syncs each file, and then puts each new one into its place. It stops at the first failure: then a new one is in its
/// place or beside it.
pub(crate) fn keep_all<R: Files + AllocGlobal>(
    rt: &R,
    all: &[Written<R::File>],
) -> Result<(), Failure> {
    for written in all {
        if let Err(error) = sync::<R>(written) {
            return Err(Failure::at(rt.alloc(), written.name.as_str(), error));
        }
    }
    for written in all {
        if let Err(error) = place(rt, written) {
            return Err(Failure::at(rt.alloc(), written.name.as_str(), error));
        }
    }
    Ok(())
}

/// Waits until the disk has the file's bytes.
fn sync<R: Files>(written: &Written<R::File>) -> io::Result<()> {
    match &written.way {
        Way::Anew(beside) => beside.file.sync_all(),
        Way::Straight(file) => sync_if_it_can(file),
        Way::InPlace(file) => file.sync_all(),
    }
}

/// Puts a new file into its place.
fn place<R: Files>(rt: &R, written: &Written<R::File>) -> io::Result<()> {
    match &written.way {
        Way::Anew(beside) => put_in_place(rt, beside),
        Way::Straight(_) => Ok(()),
        Way::InPlace(_) => Ok(()),
    }
}

/// Removes each new file that isn't in its place.
pub(crate) fn remove_all<R: Files>(rt: &R, all: &[Written<R::File>]) {
    for written in all {
        if let Way::Anew(beside) = &written.way {
            remove(rt, beside);
        }
    }
}
