//! Streams in memory.
ghost use Rattle.std.specs.Prelude.{◌≡◌, ℕ, ◌+◌, ◌<◌, ◌≤◌, ◌⊎◌, [], ◌++◌, length, take, drop, min, Some, IfOk, IfSome, IsTrue, IsFalse, IsErr, OnErr, true, false, if◌then◌else◌};
ghost use Rattle.std.specs.Io.KnownBytes.{prepend_known, append_known};
ghost use Rattle.sst_device.specs.Plans.{planned, after_call, fails_next, faults_after, FailsWhere};
ghost use Rattle.sst_device.specs.MemPlans.{plan_of};

use crate::folder::{DevStop, Failed};
use crate::memory::files::copy_over;
use crate::memory::plan::FailPlan;
use crate::memory::planned::Planned;
use crate::stream::{Intake, Sink};
use sst_num::Memory;
use std::alloc::Global;

/// Bytes in memory that come in, and are told.
///
/// The calls are numbered from 1. Each call whose number is in the list that the intake was made with fails, is
/// counted as a fault, and moves nothing; no other call fails. The count stands still at the last value of a
/// `u64`.
#[derive(Debug, Drop)]
pub struct MemIntake {
    bytes: Vec<u8>,
    at: usize,
    plan: FailPlan,
}

impl MemIntake {
    /// An intake of a copy of these bytes, whose calls with the numbers of the list fail.
    pub fn new(alloc: Global, bytes: &[u8], fail_at: &[u64]) -> Result<MemIntake, Memory>
        ensures left { IfOk result (λ intake. ⟦<MemIntake as Intake>⟧.left intake ≡ Some bytes.now) }
        ensures faults { IfOk result (λ intake. ⟦<MemIntake as Intake>⟧.faults intake ≡ 0) }
        ensures plan { IfOk result (λ intake. ⟦<MemIntake as Planned>⟧.plan intake ≡ planned fail_at.now) }
    {
        Ok(MemIntake {
            bytes: Vec::from_slice(alloc, bytes)?,
            at: 0,
            plan: FailPlan::new(alloc, fail_at)?,
        })
    }
}

/// Moves as many bytes as fit from `at` on into the buffer, and answers how many.
fn move_from(bytes: &[u8], at: usize, buf: &mut [u8]) -> usize
    ensures within { result ≤ length buf.new }
    ensures moved { drop at bytes.now ≡ take result buf.new ++ drop (at + result) bytes.now }
    ensures end { result ≡ 0 → 0 < length buf.old → drop (at + result) bytes.now ≡ [] }
    ensures fits { result ≤ length bytes.now }
    ensures count { result ≡ min (length (drop at bytes.now)) (length buf.old) }
{
    let start = at.min(bytes.len());
    let (_, rest) = bytes.split_at(start);
    let count = rest.len().min(buf.len());
    let (part, _) = rest.split_at(count);
    copy_over(buf, 0, part);
    count
}

impl Planned for MemIntake {
    ghost plan = { λ intake. plan_of intake.plan };
}

impl Intake for MemIntake {
    ghost left = { λ intake. Some (drop intake.at intake.bytes.items) };

    ghost faults = { λ intake. intake.plan.faults };

    fn take(&mut self, buf: &mut [u8]) -> Result<usize, Failed>
        ensures call { ⟦<MemIntake as Planned>⟧.plan self.new ≡ after_call (⟦<MemIntake as Planned>⟧.plan self.old) }
        ensures faulted { ⟦<MemIntake as Intake>⟧.faults self.new
            ≡ faults_after (⟦<MemIntake as Planned>⟧.plan self.old) (⟦<MemIntake as Intake>⟧.faults self.old) }
        ensures counts { ⟦<MemIntake as Intake>⟧.faults self.old ≤ ⟦<MemIntake as Intake>⟧.faults self.new }
        ensures fails { IsTrue (fails_next (⟦<MemIntake as Planned>⟧.plan self.old)) → IsErr result }
        ensures count { IsFalse (fails_next (⟦<MemIntake as Planned>⟧.plan self.old))
            → IfSome (⟦<MemIntake as Intake>⟧.left self.old) (λ bytes. result ≡ Ok (min (length bytes) (length buf.old))) }
        ensures within { IfOk result (λ n. n ≤ length buf.new) }
        ensures moved { IfOk result (λ n. ⟦<MemIntake as Intake>⟧.left self.old
            ≡ prepend_known (take n buf.new) (⟦<MemIntake as Intake>⟧.left self.new)) }
        ensures kept { OnErr result (⟦<MemIntake as Intake>⟧.left self.new ≡ ⟦<MemIntake as Intake>⟧.left self.old) }
        ensures same_buffer { OnErr result (buf.new ≡ buf.old) }
    {
        if self.plan.fails() {
            return Err(Failed);
        }
        let moved = move_from(&self.bytes, self.at, buf);
        self.at = self.at.saturating_add(moved);
        Ok(moved)
    }
}

/// Bytes in memory that go out, and are told.
///
/// The calls are numbered from 1. Each call whose number is in the list that the sink was made with fails, is
/// counted as a fault, and puts nothing; no other call fails, but for want of memory. The count stands still at
/// the last value of a `u64`.
#[derive(Debug, Drop)]
pub struct MemSink {
    bytes: Vec<u8>,
    is_stuck: bool,
    plan: FailPlan,
}

impl MemSink {
    /// An empty sink, whose calls with the numbers of the list answer `Failed`.
    pub fn new(alloc: Global, fail_at: &[u64]) -> Result<MemSink, Memory>
        ensures written { IfOk result (λ sink. ⟦<MemSink as Sink>⟧.written sink ≡ Some []) }
        ensures faults { IfOk result (λ sink. ⟦<MemSink as Sink>⟧.faults sink ≡ 0) }
        ensures plan { IfOk result (λ sink. ⟦<MemSink as Planned>⟧.plan sink ≡ planned fail_at.now) }
        ensures stuck { IfOk result (λ sink. ⟦<MemSink as Planned>⟧.is_stuck sink ≡ false) }
    {
        Ok(MemSink {
            bytes: Vec::new(alloc),
            is_stuck: false,
            plan: FailPlan::new(alloc, fail_at)?,
        })
    }

    /// An empty sink, whose calls with the numbers of the list answer that they took 0 bytes.
    pub fn stuck(alloc: Global, fail_at: &[u64]) -> Result<MemSink, Memory>
        ensures written { IfOk result (λ sink. ⟦<MemSink as Sink>⟧.written sink ≡ Some []) }
        ensures faults { IfOk result (λ sink. ⟦<MemSink as Sink>⟧.faults sink ≡ 0) }
        ensures plan { IfOk result (λ sink. ⟦<MemSink as Planned>⟧.plan sink ≡ planned fail_at.now) }
        ensures stuck { IfOk result (λ sink. ⟦<MemSink as Planned>⟧.is_stuck sink ≡ true) }
    {
        Ok(MemSink {
            bytes: Vec::new(alloc),
            is_stuck: true,
            plan: FailPlan::new(alloc, fail_at)?,
        })
    }

    /// The bytes that were put so far.
    pub fn bytes(&self) -> &[u8]
        ensures { ⟦<MemSink as Sink>⟧.written self.now ≡ Some result.now }
    {
        self.bytes.as_slice()
    }
}

impl Planned for MemSink {
    ghost plan = { λ sink. plan_of sink.plan };

    ghost is_stuck = { λ sink. sink.is_stuck };
}

impl Sink for MemSink {
    ghost written = { λ sink. Some sink.bytes.items };

    ghost faults = { λ sink. sink.plan.faults };

    fn put(&mut self, piece: &[u8]) -> Result<usize, DevStop>
        ensures call { ⟦<MemSink as Planned>⟧.plan self.new ≡ after_call (⟦<MemSink as Planned>⟧.plan self.old) }
        ensures same_kind { ⟦<MemSink as Planned>⟧.is_stuck self.new ≡ ⟦<MemSink as Planned>⟧.is_stuck self.old }
        ensures faulted { ⟦<MemSink as Sink>⟧.faults self.new
            ≡ faults_after (⟦<MemSink as Planned>⟧.plan self.old) (⟦<MemSink as Sink>⟧.faults self.old) }
        ensures counts { ⟦<MemSink as Sink>⟧.faults self.old ≤ ⟦<MemSink as Sink>⟧.faults self.new }
        ensures fails { IsTrue (fails_next (⟦<MemSink as Planned>⟧.plan self.old))
            → result ≡ (if ⟦<MemSink as Planned>⟧.is_stuck self.old then Ok 0 else Err DevStop.Failed) }
        ensures whole { IsFalse (fails_next (⟦<MemSink as Planned>⟧.plan self.old))
            → (result ≡ Ok (length piece.now)) ⊎ (result ≡ Err DevStop.Memory) }
        ensures appended { IfOk result (λ n. ⟦<MemSink as Sink>⟧.written self.new
            ≡ append_known (⟦<MemSink as Sink>⟧.written self.old) (take n piece.now)) }
        ensures kept { OnErr result (⟦<MemSink as Sink>⟧.written self.new ≡ ⟦<MemSink as Sink>⟧.written self.old) }
    {
        if self.plan.fails() {
            return if self.is_stuck {
                Ok(0)
            } else {
                Err(DevStop::Failed)
            };
        }
        match self.bytes.extend_from_slice(piece) {
            Ok(()) => Ok(piece.len()),
            Err(_) => Err(DevStop::Memory),
        }
    }
}
