//! Counts that stand still at the last value of a `u64`.
ghost use Rattle.std.specs.Prelude.{◌≡◌, ◌≤◌};
ghost use Rattle.sst_device.specs.Faults.{Rose, counted};

/// The count of faults after one more.
pub(crate) fn raise(faults: u64) -> u64
    ensures one_more { result ≡ counted faults 1 }
    ensures rose { Rose faults result }
    ensures counts { faults ≤ result }
{
    faults.saturating_add(1)
}

/// The count after `more`.
pub(crate) fn count_on(count: u64, more: usize) -> u64
    ensures sum { result ≡ counted count more }
    ensures rises { count ≤ result }
{
    count.saturating_add(more as u64)
}
