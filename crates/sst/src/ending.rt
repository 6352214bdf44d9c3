//! What follows a run: the files that it wrote are kept or discarded, and a person is told what failed.
ghost use Rattle.std.specs.Prelude.{◌≡◌, ◌⊎◌};
ghost use Rattle.sst_device.specs.Faults.{Rose};
ghost use Rattle.sst_cli.specs.declared.status.Status.{Status};

use sst_cli::Status;
use sst_device::{DevStop, DiskFolder, Folder, StdIntake, StdSink};
use std::alloc::AllocGlobal;
use std::io::{Eprint, ErrorKind, Input, Print};
use std::rt::Files;

/// The commands and their options, which standard error shows where the words are none of them.
const PAGE: &str = "\
usage: sst write block OUT [version=N] [block=N] [restart=N] [index-restart=N] [parts=N] < INPUT
       sst calls FILE < INPUT
       sst get FILE USER SEQ
       sst scan FILE [SEQ]

write  reads entry lines, USER SEQ KIND VALUE, and writes the block-based table file of their list as OUT
       version=N        the version of the format: 2, 3 or 4, else 2
       block=N          a data block with N bytes or more is ended before the next entry;
                        N is 64 to 16777216, and 4096 without the option
       restart=N        each N-th entry of a data block has its whole key; 1 to 65536, else 16
       index-restart=N  the same of the rows of the index; 1 to 65536, else 1
       parts=N          the index is cut into parts of N rows; 0 to 65536; with 0, or without it, it is whole
calls  reads call lines, and answers each from FILE: get USER SEQ, first, last, seek USER SEQ,
       seek_for_prev USER SEQ, next, prev
get    prints the newest entry of the user key in FILE that the snapshot SEQ sees, or none;
       USER is hex digits, two a byte, or - for the empty key
scan   prints the entries of FILE, or those of them that the snapshot SEQ sees

docs/USAGE.md says what a line is, what is printed, and what each status stands for.";

/// Ends the files of a run: where it ended as Done they are kept, else discarded. A failure to keep them is the run's.
pub fn finish<R: Files + AllocGlobal + Drop>(status: Status, files: &mut DiskFolder<R>) -> Status
    ensures done { result ≡ Status.Done → status ≡ Status.Done }
    ensures others { (status ≡ Status.Done → ⊥) → result ≡ status }
    ensures device { result ≡ Status.Device → (status ≡ Status.Device) ⊎ Rose (⟦<DiskFolder<R> as Folder>⟧.faults files.old) (⟦<DiskFolder<R> as Folder>⟧.faults files.new) }
    ensures hides_none { (result ≡ Status.Device) ⊎ (⟦<DiskFolder<R> as Folder>⟧.faults files.new ≡ ⟦<DiskFolder<R> as Folder>⟧.faults files.old) }
{
    let ended = match status {
        Status::Done => kept(files),
        other => other,
    };
    if ended != Status::Done {
        files.discard();
    }
    ended
}

/// Keeps the files, and answers how that ended.
fn kept<R: Files + AllocGlobal + Drop>(files: &mut DiskFolder<R>) -> Status
    ensures device { result ≡ Status.Device → Rose (⟦<DiskFolder<R> as Folder>⟧.faults files.old) (⟦<DiskFolder<R> as Folder>⟧.faults files.new) }
    ensures hides_none { (result ≡ Status.Device) ⊎ (⟦<DiskFolder<R> as Folder>⟧.faults files.new ≡ ⟦<DiskFolder<R> as Folder>⟧.faults files.old) }
{
    match files.keep() {
        Ok(()) => Status::Done,
        Err(DevStop::Failed) => Status::Device,
        Err(DevStop::Memory) => Status::Memory,
    }
}

/// Tells on standard error why a run ended without a text of its own, or the commands where the words were none.
///
/// A reader of the output that has gone away is no failure to tell of.
pub fn report<R: Eprint, F: Files + AllocGlobal + Drop, I: Input, O: Print>(
    rt: &R,
    status: Status,
    files: &DiskFolder<F>,
    input: &StdIntake<I>,
    out: &StdSink<O>,
) {
    match status {
        Status::Usage => tell(rt, PAGE),
        Status::Device => report_failures(rt, files, input, out),
        Status::Memory => tell(rt, "sst: memory ran out"),
        Status::Done | Status::Input | Status::File | Status::Exhausted => {}
    }
}

/// Tells of the first failure of each object that has one.
fn report_failures<R: Eprint, F: Files + AllocGlobal + Drop, I: Input, O: Print>(
    rt: &R,
    files: &DiskFolder<F>,
    input: &StdIntake<I>,
    out: &StdSink<O>,
) {
    if let Some(failure) = files.failure() {
        let _ = eprintln!(rt; "sst: {failure}");
    }
    if let Some(error) = input.failure() {
        let _ = eprintln!(rt; "sst: standard input: {error}");
    }
    if let Some(error) = out.failure() {
        if error.kind() != ErrorKind::BrokenPipe {
            let _ = eprintln!(rt; "sst: standard output: {error}");
        }
    }
}

/// Tells that the words aren't text.
pub fn report_words<R: Eprint>(rt: &R) {
    tell(rt, "sst: a word is not UTF-8 text");
}

/// Puts a line on standard error. Where that fails there is nobody to tell.
fn tell<R: Eprint>(rt: &R, line: &str) {
    let _ = rt.eprintln(line);
}
