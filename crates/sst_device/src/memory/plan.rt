//! Which calls of an object in memory fail.
ghost use Rattle.std.specs.Prelude.{◌≡◌, ◌≤◌, IfOk, true};
ghost use Rattle.sst_device.specs.Faults.{Rose};
ghost use Rattle.sst_device.specs.Plans.{after_call, fails_next, faults_after, planned};
ghost use Rattle.sst_device.specs.MemPlans.{plan_of};

use crate::counts::raise;
use sst_num::Memory;
use std::alloc::Global;

/// The calls that are to fail, and counts of the calls and of the faults so far. Both counts stand still at the
/// end of a `u64`.
#[derive(Debug, Drop)]
pub(crate) struct FailPlan {
    fail_at: Vec<u64>,
    calls: u64,
    pub(crate) faults: u64,
}

impl FailPlan {
    /// A plan by which each call fails whose number is in the list; the first call is number 1.
    pub(crate) fn new(alloc: Global, fail_at: &[u64]) -> Result<FailPlan, Memory>
        ensures plan { IfOk result (λ plan. plan_of plan ≡ planned fail_at.now) }
        ensures faults { IfOk result (λ plan. plan.faults ≡ 0) }
    {
        Ok(FailPlan {
            fail_at: Vec::from_slice(alloc, fail_at)?,
            calls: 0,
            faults: 0,
        })
    }

    /// Counts a call, and answers whether it is to fail; one that is to fail is counted as a fault.
    pub(crate) fn fails(&mut self) -> bool
        ensures call { plan_of self.new ≡ after_call (plan_of self.old) }
        ensures fails { result ≡ fails_next (plan_of self.old) }
        ensures faulted { self.new.faults ≡ faults_after (plan_of self.old) self.old.faults }
        ensures rose { result ≡ true → Rose self.old.faults self.new.faults }
        ensures counts { self.old.faults ≤ self.new.faults }
    {
        self.calls = self.calls.saturating_add(1);
        let number = self.calls;
        let fails = self.fail_at.contains(&number);
        if fails {
            self.faults = raise(self.faults);
        }
        fails
    }
}
