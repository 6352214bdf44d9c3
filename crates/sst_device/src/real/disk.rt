//! A folder of real files.
ghost use Rattle.std.specs.Prelude.{◌⊎◌, ◌≡◌, ◌≤◌, None};
ghost use Rattle.sst_device.specs.Faults.{Rose};
ghost use Rattle.sst_device.specs.Outside.{CountsFaults};

use crate::counts::{count_on, raise};
use crate::folder::{DevStop, Folder};
use crate::real::failure::Failure;
use crate::real::places::{open_at_places, read_range, size_of, write_over};
use crate::real::written::{Written, add, begin, keep_all, place_of, remove_all, writing};
use std::alloc::{AllocGlobal, Global};
use std::io;
use std::io::ErrorKind;
use std::rt::Files;

/// The file that was read last.
#[derive(Drop)]
struct Opened<F: Drop> {
    name: String,
    file: F,
}

/// The real files, named by their paths. It tells nothing of what they hold.
///
/// A name may be any path. A regular file that is begun, or one that is absent, keeps what it holds: a new file is made
/// beside it, and every later call of that name goes to the new one. [`DiskFolder::keep`] puts it into its place, and
/// [`DiskFolder::discard`] removes it; one of them ends a run, and without either the new file stays beside the old one.
/// Any number of names may be begun. Names are compared as text: by another spelling the old file is read.
///
/// What is begun and is no regular file, a device or a pipe, is written straight. A file that is patched or added to and
/// wasn't begun is written in place. What has no places, as a directory or a pipe, isn't read.
///
/// Files that are written stay open until `keep` or `discard`, and so does the one that was read last. The count of faults
/// rises at each `Failed`. It stands still at the last value of a `u64`, and so does the count of the bytes drawn.
#[derive(Drop)]
pub struct DiskFolder<R: Files + AllocGlobal + Drop> {
    rt: R,
    written: Vec<Written<R::File>>,
    opened: Option<Opened<R::File>>,
    failure: Option<Failure>,
    faults: u64,
    drawn_bytes: u64,
}

impl<R: Files + AllocGlobal + Drop> DiskFolder<R> {
    /// The files of a runtime, or of a reference to one. No call has failed yet, and no byte was drawn.
    pub fn new(rt: R) -> DiskFolder<R>
        ensures faults { ⟦<DiskFolder<R> as Folder>⟧.faults result ≡ 0 }
        ensures drawn { ⟦<DiskFolder<R> as Folder>⟧.drawn result ≡ 0 }
    {
        let written = Vec::new(rt.alloc());
        DiskFolder {
            rt,
            written,
            opened: None,
            failure: None,
            faults: 0,
            drawn_bytes: 0,
        }
    }

    /// Syncs each file that was written, puts each that was begun into its place, and syncs its folder. An Ok says that the
    /// system answered so; that the disk has the bytes is outside of every proof.
    ///
    /// After an error `discard` removes what isn't in its place.
    pub fn keep(&mut self) -> Result<(), DevStop>
        ensures folder { CountsFaults (result ≡ Err DevStop.Failed) (⟦<DiskFolder<R> as Folder>⟧.faults self.old) (⟦<DiskFolder<R> as Folder>⟧.faults self.new) }
        ensures same_drawn { ⟦<DiskFolder<R> as Folder>⟧.drawn self.new ≡ ⟦<DiskFolder<R> as Folder>⟧.drawn self.old }
    {
        self.opened = None;
        let answer = keep_all(&self.rt, self.written.as_slice());
        settle(&mut self.faults, &mut self.failure, answer)?;
        self.written.clear();
        Ok(())
    }

    /// Removes each file that was begun and isn't in its place: its name leads to what it led to. Where the system doesn't
    /// let it, that file stays beside, and the next one that is begun by the same name removes it.
    pub fn discard(&mut self)
        ensures same_faults { ⟦<DiskFolder<R> as Folder>⟧.faults self.new ≡ ⟦<DiskFolder<R> as Folder>⟧.faults self.old }
        ensures same_drawn { ⟦<DiskFolder<R> as Folder>⟧.drawn self.new ≡ ⟦<DiskFolder<R> as Folder>⟧.drawn self.old }
    {
        self.opened = None;
        remove_all(&self.rt, self.written.as_slice());
        self.written.clear();
    }

    /// The first failure that was counted, for a message.
    pub fn failure(&self) -> Option<&Failure> {
        self.failure.as_ref()
    }
}

/// The named file, to read: the one that is written, or else the one that stands there.
fn reading<'a, R: Files + AllocGlobal>(
    rt: &R,
    written: &'a mut Vec<Written<R::File>>,
    opened: &'a mut Option<Opened<R::File>>,
    name: &str,
) -> Result<&'a mut R::File, Failure> {
    if let Some(at) = place_of(written, name) {
        if let Some(found) = written.get_mut(at) {
            return Ok(found.file());
        }
    }
    if !is_open(opened, name) {
        let copy = String::from_str(rt.alloc(), name)?;
        let file = open_at_places(rt, name, false)?;
        *opened = Some(Opened { name: copy, file });
    }
    match opened {
        Some(found) => Ok(&mut found.file),
        None => Err(Failure::from(io::Error::from(ErrorKind::NotFound))),
    }
}

/// Whether the file that was read last has this name.
fn is_open<F: Drop>(opened: &Option<Opened<F>>, name: &str) -> bool {
    match opened {
        Some(found) => found.name.as_str() == name,
        None => false,
    }
}

/// Counts an error as a fault, unless it is want of memory. The first is kept for a message.
fn settle<T>(
    faults: &mut u64,
    first: &mut Option<Failure>,
    answer: Result<T, Failure>,
) -> Result<T, DevStop>
    ensures failed { result ≡ Err DevStop.Failed → Rose faults.old faults.new }
    ensures counts { faults.old ≤ faults.new }
    ensures hides_none { (result ≡ Err DevStop.Failed) ⊎ (faults.new ≡ faults.old) }
{
    match answer {
        Ok(value) => Ok(value),
        Err(failure) => {
            if failure.error.kind() == ErrorKind::OutOfMemory {
                return Err(DevStop::Memory);
            }
            *faults = raise(*faults);
            if first.is_none() {
                *first = Some(failure);
            }
            Err(DevStop::Failed)
        }
    }
}

/// The answer of a call, whose failure is at the named file if it isn't at another.
fn named<T>(alloc: Global, name: &str, answer: Result<T, Failure>) -> Result<T, Failure> {
    match answer {
        Ok(value) => Ok(value),
        Err(failure) => Err(failure.or_at(alloc, name)),
    }
}

impl<R: Files + AllocGlobal + Drop> Folder for DiskFolder<R> {
    ghost held = { λ _. None };

    ghost faults = { λ folder. folder.faults };

    ghost drawn = { λ folder. folder.drawn_bytes };

    fn size(&mut self, name: &str) -> Result<u64, DevStop> {
        let answer = match reading(&self.rt, &mut self.written, &mut self.opened, name) {
            Ok(file) => size_of(file),
            Err(failure) => Err(failure),
        };
        settle(
            &mut self.faults,
            &mut self.failure,
            named(self.rt.alloc(), name, answer),
        )
    }

    fn read_at(&mut self, name: &str, at: u64, buf: &mut [u8]) -> Result<(), DevStop> {
        let drawn = count_on(self.drawn_bytes, buf.len());
        let answer = match reading(&self.rt, &mut self.written, &mut self.opened, name) {
            Ok(file) => read_range(file, at, buf),
            Err(failure) => Err(failure),
        };
        settle(
            &mut self.faults,
            &mut self.failure,
            named(self.rt.alloc(), name, answer),
        )?;
        self.drawn_bytes = drawn;
        Ok(())
    }

    fn begin(&mut self, name: &str) -> Result<(), DevStop> {
        let answer = begin(&self.rt, &mut self.written, name);
        settle(
            &mut self.faults,
            &mut self.failure,
            named(self.rt.alloc(), name, answer),
        )
    }

    fn add(&mut self, name: &str, piece: &[u8]) -> Result<(), DevStop> {
        let answer = match writing(&self.rt, &mut self.written, name) {
            Ok(written) => add::<R>(written, piece),
            Err(failure) => Err(failure),
        };
        settle(
            &mut self.faults,
            &mut self.failure,
            named(self.rt.alloc(), name, answer),
        )
    }

    fn patch(&mut self, name: &str, at: u64, piece: &[u8]) -> Result<(), DevStop> {
        let answer = match writing(&self.rt, &mut self.written, name) {
            Ok(written) => write_over(written.file(), at, piece),
            Err(failure) => Err(failure),
        };
        settle(
            &mut self.faults,
            &mut self.failure,
            named(self.rt.alloc(), name, answer),
        )
    }
}
