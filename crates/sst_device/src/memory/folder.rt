//! A folder in memory.
ghost use Rattle.std.specs.Prelude.{◌≡◌, ◌≢◌, ◌⊎◌, ℕ, ◌+◌, ◌≤◌, [], ◌++◌, length, take, min, slice_range, Some, None, IfOk, IfSome, IsTrue, IsFalse, OnOk, OnErr, MatchOption};
ghost use Rattle.std.specs.FinMap.{empty};
ghost use Rattle.sst_device.specs.Faults.{counted};
ghost use Rattle.sst_device.specs.Folder.{file_of, put_file, edit_file, misses, written_over};
ghost use Rattle.sst_device.specs.MemFiles.{files_of};
ghost use Rattle.sst_device.specs.MemPlans.{plan_of};
ghost use Rattle.sst_device.specs.Plans.{planned, after_call, fails_next, fails_or_misses, faults_after, FailsWhere};

use crate::counts::count_on;
use crate::folder::{DevStop, Folder};
use crate::memory::files;
use crate::memory::files::MemFile;
use crate::memory::plan::FailPlan;
use crate::memory::planned::Planned;
use sst_num::Memory;
use std::alloc::Global;

/// How many bytes of its piece a failing `add` or `patch` still writes.
const WRITTEN_IN_FAILURE: usize = 3;

/// A folder in memory, which tells what its files hold, and whose calls fail where it is told so.
///
/// Its calls are numbered from 1. Each call whose number is in the list that it was made with fails and is
/// counted as a fault; then an `add`, and a `patch` whose range is there, still writes the first three bytes of
/// its piece, or the whole of a shorter piece, and every other call changes nothing. Where memory runs out such an
/// `add` writes nothing. A miss that isn't in the list isn't counted. With an empty list nothing fails but a miss and want of memory. The count of faults
/// stands still at the last value of a `u64`, and so does that of the bytes drawn.
#[derive(Debug, Drop)]
pub struct MemFolder {
    alloc: Global,
    files: Vec<MemFile>,
    plan: FailPlan,
    drawn_bytes: u64,
}

impl MemFolder {
    /// An empty folder, whose calls with the numbers of the list fail.
    pub fn new(alloc: Global, fail_at: &[u64]) -> Result<MemFolder, Memory>
        ensures held { IfOk result (λ folder. ⟦<MemFolder as Folder>⟧.held folder ≡ Some empty) }
        ensures faults { IfOk result (λ folder. ⟦<MemFolder as Folder>⟧.faults folder ≡ 0) }
        ensures drawn { IfOk result (λ folder. ⟦<MemFolder as Folder>⟧.drawn folder ≡ 0) }
        ensures plan { IfOk result (λ folder. ⟦<MemFolder as Planned>⟧.plan folder ≡ planned fail_at.now) }
    {
        Ok(MemFolder {
            alloc,
            files: Vec::new(alloc),
            plan: FailPlan::new(alloc, fail_at)?,
            drawn_bytes: 0,
        })
    }

    /// Has the named file hold these bytes, whatever it held before. This isn't one of the numbered calls. Where
    /// memory runs out the folder stays as it was.
    pub fn put_file(&mut self, name: &str, bytes: &[u8]) -> Result<(), Memory>
        ensures ok { OnOk result (⟦<MemFolder as Folder>⟧.held self.new
            ≡ put_file (⟦<MemFolder as Folder>⟧.held self.old) name.now bytes.now) }
        ensures err { OnErr result (⟦<MemFolder as Folder>⟧.held self.new ≡ ⟦<MemFolder as Folder>⟧.held self.old) }
        ensures faults { ⟦<MemFolder as Folder>⟧.faults self.new ≡ ⟦<MemFolder as Folder>⟧.faults self.old }
        ensures drawn { ⟦<MemFolder as Folder>⟧.drawn self.new ≡ ⟦<MemFolder as Folder>⟧.drawn self.old }
        ensures plan { ⟦<MemFolder as Planned>⟧.plan self.new ≡ ⟦<MemFolder as Planned>⟧.plan self.old }
    {
        files::put(&mut self.files, self.alloc, name, bytes)
    }

    /// The bytes of the named file.
    pub fn file(&self, name: &str) -> Option<&[u8]>
        ensures { MatchOption result (file_of (⟦<MemFolder as Folder>⟧.held self.now) name.now ≡ None)
            (λ bytes. file_of (⟦<MemFolder as Folder>⟧.held self.now) name.now ≡ Some bytes.now) }
    {
        files::bytes_of(&self.files, name)
    }

    /// How many bytes `read_at` handed out so far.
    pub fn drawn(&self) -> u64
        ensures { result ≡ ⟦<MemFolder as Folder>⟧.drawn self.now }
    {
        self.drawn_bytes
    }
}

/// How many bytes of its piece a failing call still writes.
fn written_in_failure(piece: &[u8]) -> usize
    ensures count { result ≡ min 3 (length piece.now) }
    ensures part { take result piece.now ≡ take 3 piece.now }
{
    piece.len().min(WRITTEN_IN_FAILURE)
}

impl Planned for MemFolder {
    ghost plan = { λ folder. plan_of folder.plan };
}

impl Folder for MemFolder {
    ghost held = { λ folder. Some (files_of folder.files.items) };

    ghost faults = { λ folder. folder.plan.faults };

    ghost drawn = { λ folder. folder.drawn_bytes };

    fn size(&mut self, name: &str) -> Result<u64, DevStop>
        ensures call { ⟦<MemFolder as Planned>⟧.plan self.new ≡ after_call (⟦<MemFolder as Planned>⟧.plan self.old) }
        ensures faulted { ⟦<MemFolder as Folder>⟧.faults self.new
            ≡ faults_after (⟦<MemFolder as Planned>⟧.plan self.old) (⟦<MemFolder as Folder>⟧.faults self.old) }
        ensures counts { ⟦<MemFolder as Folder>⟧.faults self.old ≤ ⟦<MemFolder as Folder>⟧.faults self.new }
        ensures fails { FailsWhere
            (fails_or_misses (⟦<MemFolder as Planned>⟧.plan self.old) (⟦<MemFolder as Folder>⟧.held self.old) name.now 0) result }
        ensures never { result ≢ Err DevStop.Memory }
        ensures length { IfOk result (λ n.
            IfSome (file_of (⟦<MemFolder as Folder>⟧.held self.old) name.now) (λ bytes. n ≡ length bytes)) }
        ensures same_files { ⟦<MemFolder as Folder>⟧.held self.new ≡ ⟦<MemFolder as Folder>⟧.held self.old }
        ensures same_drawn { ⟦<MemFolder as Folder>⟧.drawn self.new ≡ ⟦<MemFolder as Folder>⟧.drawn self.old }
    {
        if self.plan.fails() {
            return Err(DevStop::Failed);
        }
        match files::bytes_of(&self.files, name) {
            Some(bytes) => Ok(bytes.len() as u64),
            None => Err(DevStop::Failed),
        }
    }

    fn read_at(&mut self, name: &str, at: u64, buf: &mut [u8]) -> Result<(), DevStop>
        ensures call { ⟦<MemFolder as Planned>⟧.plan self.new ≡ after_call (⟦<MemFolder as Planned>⟧.plan self.old) }
        ensures faulted { ⟦<MemFolder as Folder>⟧.faults self.new
            ≡ faults_after (⟦<MemFolder as Planned>⟧.plan self.old) (⟦<MemFolder as Folder>⟧.faults self.old) }
        ensures counts { ⟦<MemFolder as Folder>⟧.faults self.old ≤ ⟦<MemFolder as Folder>⟧.faults self.new }
        ensures fails { FailsWhere
            (fails_or_misses (⟦<MemFolder as Planned>⟧.plan self.old) (⟦<MemFolder as Folder>⟧.held self.old) name.now (at + length buf.old)) result }
        ensures never { result ≢ Err DevStop.Memory }
        ensures filled { OnOk result (IfSome (file_of (⟦<MemFolder as Folder>⟧.held self.old) name.now)
            (λ bytes. buf.new ≡ slice_range bytes at (at + length buf.old))) }
        ensures same_files { ⟦<MemFolder as Folder>⟧.held self.new ≡ ⟦<MemFolder as Folder>⟧.held self.old }
        ensures drew { OnOk result (⟦<MemFolder as Folder>⟧.drawn self.new
            ≡ counted (⟦<MemFolder as Folder>⟧.drawn self.old) (length buf.old)) }
        ensures drew_none { OnErr result (⟦<MemFolder as Folder>⟧.drawn self.new ≡ ⟦<MemFolder as Folder>⟧.drawn self.old) }
        ensures drew_some { ⟦<MemFolder as Folder>⟧.drawn self.new ≤ counted (⟦<MemFolder as Folder>⟧.drawn self.old) (length buf.old) }
        ensures never_falls { ⟦<MemFolder as Folder>⟧.drawn self.old ≤ ⟦<MemFolder as Folder>⟧.drawn self.new }
    {
        let drawn = count_on(self.drawn_bytes, buf.len());
        if self.plan.fails() {
            return Err(DevStop::Failed);
        }
        files::read(&self.files, name, at, buf)?;
        self.drawn_bytes = drawn;
        Ok(())
    }

    fn begin(&mut self, name: &str) -> Result<(), DevStop>
        ensures call { ⟦<MemFolder as Planned>⟧.plan self.new ≡ after_call (⟦<MemFolder as Planned>⟧.plan self.old) }
        ensures faulted { ⟦<MemFolder as Folder>⟧.faults self.new
            ≡ faults_after (⟦<MemFolder as Planned>⟧.plan self.old) (⟦<MemFolder as Folder>⟧.faults self.old) }
        ensures counts { ⟦<MemFolder as Folder>⟧.faults self.old ≤ ⟦<MemFolder as Folder>⟧.faults self.new }
        ensures fails { FailsWhere (fails_next (⟦<MemFolder as Planned>⟧.plan self.old)) result }
        ensures begun { OnOk result (⟦<MemFolder as Folder>⟧.held self.new
            ≡ put_file (⟦<MemFolder as Folder>⟧.held self.old) name.now []) }
        ensures kept { OnErr result (⟦<MemFolder as Folder>⟧.held self.new ≡ ⟦<MemFolder as Folder>⟧.held self.old) }
        ensures same_drawn { ⟦<MemFolder as Folder>⟧.drawn self.new ≡ ⟦<MemFolder as Folder>⟧.drawn self.old }
    {
        if self.plan.fails() {
            return Err(DevStop::Failed);
        }
        match files::put(&mut self.files, self.alloc, name, &[]) {
            Ok(()) => Ok(()),
            Err(_) => Err(DevStop::Memory),
        }
    }

    fn add(&mut self, name: &str, piece: &[u8]) -> Result<(), DevStop>
        ensures call { ⟦<MemFolder as Planned>⟧.plan self.new ≡ after_call (⟦<MemFolder as Planned>⟧.plan self.old) }
        ensures faulted { ⟦<MemFolder as Folder>⟧.faults self.new
            ≡ faults_after (⟦<MemFolder as Planned>⟧.plan self.old) (⟦<MemFolder as Folder>⟧.faults self.old) }
        ensures counts { ⟦<MemFolder as Folder>⟧.faults self.old ≤ ⟦<MemFolder as Folder>⟧.faults self.new }
        ensures fails { FailsWhere
            (fails_or_misses (⟦<MemFolder as Planned>⟧.plan self.old) (⟦<MemFolder as Folder>⟧.held self.old) name.now 0) result }
        ensures added { OnOk result (⟦<MemFolder as Folder>⟧.held self.new
            ≡ edit_file (⟦<MemFolder as Folder>⟧.held self.old) name.now (λ bytes. bytes ++ piece.now)) }
        ensures err { OnErr result ((n : ℕ)
            × (⟦<MemFolder as Folder>⟧.held self.new
            ≡ edit_file (⟦<MemFolder as Folder>⟧.held self.old) name.now (λ bytes. bytes ++ take n piece.now))) }
        ensures cut_short { IsTrue (fails_next (⟦<MemFolder as Planned>⟧.plan self.old))
            → (⟦<MemFolder as Folder>⟧.held self.new
            ≡ edit_file (⟦<MemFolder as Folder>⟧.held self.old) name.now (λ bytes. bytes ++ take 3 piece.now))
            ⊎ (⟦<MemFolder as Folder>⟧.held self.new ≡ ⟦<MemFolder as Folder>⟧.held self.old) }
        ensures kept { IsFalse (fails_next (⟦<MemFolder as Planned>⟧.plan self.old))
            → OnErr result (⟦<MemFolder as Folder>⟧.held self.new ≡ ⟦<MemFolder as Folder>⟧.held self.old) }
        ensures same_drawn { ⟦<MemFolder as Folder>⟧.drawn self.new ≡ ⟦<MemFolder as Folder>⟧.drawn self.old }
    {
        if self.plan.fails() {
            let count = written_in_failure(piece);
            let _ = files::append(&mut self.files, name, piece, count);
            return Err(DevStop::Failed);
        }
        files::append(&mut self.files, name, piece, piece.len())
    }

    fn patch(&mut self, name: &str, at: u64, piece: &[u8]) -> Result<(), DevStop>
        ensures call { ⟦<MemFolder as Planned>⟧.plan self.new ≡ after_call (⟦<MemFolder as Planned>⟧.plan self.old) }
        ensures faulted { ⟦<MemFolder as Folder>⟧.faults self.new
            ≡ faults_after (⟦<MemFolder as Planned>⟧.plan self.old) (⟦<MemFolder as Folder>⟧.faults self.old) }
        ensures counts { ⟦<MemFolder as Folder>⟧.faults self.old ≤ ⟦<MemFolder as Folder>⟧.faults self.new }
        ensures fails { FailsWhere
            (fails_or_misses (⟦<MemFolder as Planned>⟧.plan self.old) (⟦<MemFolder as Folder>⟧.held self.old) name.now (at + length piece.now)) result }
        ensures never { result ≢ Err DevStop.Memory }
        ensures patched { OnOk result (⟦<MemFolder as Folder>⟧.held self.new
            ≡ edit_file (⟦<MemFolder as Folder>⟧.held self.old) name.now (written_over at piece.now)) }
        ensures err { OnErr result ((n : ℕ)
            × ((n ≡ 0) ⊎ IsFalse (misses (⟦<MemFolder as Folder>⟧.held self.old) name.now (at + n)))
            × (⟦<MemFolder as Folder>⟧.held self.new
            ≡ edit_file (⟦<MemFolder as Folder>⟧.held self.old) name.now (written_over at (take n piece.now)))) }
        ensures cut_short { OnErr result (IsFalse (misses (⟦<MemFolder as Folder>⟧.held self.old) name.now (at + length piece.now))
            → ⟦<MemFolder as Folder>⟧.held self.new
            ≡ edit_file (⟦<MemFolder as Folder>⟧.held self.old) name.now (written_over at (take 3 piece.now))) }
        ensures missed { IsTrue (misses (⟦<MemFolder as Folder>⟧.held self.old) name.now (at + length piece.now))
            → ⟦<MemFolder as Folder>⟧.held self.new ≡ ⟦<MemFolder as Folder>⟧.held self.old }
        ensures same_drawn { ⟦<MemFolder as Folder>⟧.drawn self.new ≡ ⟦<MemFolder as Folder>⟧.drawn self.old }
    {
        if self.plan.fails() {
            let count = written_in_failure(piece);
            let _ = files::write_over(&mut self.files, name, at, piece, count);
            return Err(DevStop::Failed);
        }
        files::write_over(&mut self.files, name, at, piece, piece.len())
    }
}
