//! Why a call stops: out of memory, or a cause of its own.
ghost use Rattle.std.specs.Prelude.{◌≡◌};
ghost use Rattle.sst_num.specs.declared.stops.Refused.TheVariants as refused;
ghost use Rattle.sst_num.specs.declared.stops.Stop.TheVariants as stop;

use std::alloc::{AllocError, AllocFailed};

/// Memory ran out.
#[derive(Clone, Copy, Debug, PartialEq, Eq)]
pub struct Memory;

/// Why a call that may refuse its arguments stopped.
#[derive(Clone, Copy, Debug, PartialEq, Eq)]
pub enum Refused<X> {
    /// The arguments were refused, for this cause.
    Cause(X),
    /// Memory ran out.
    Memory,
}

/// Why a call that reads a file stopped.
#[derive(Clone, Copy, Debug, PartialEq, Eq)]
pub enum Stop<X> {
    /// The file is damaged, in this way.
    Damage(X),
    /// The device failed.
    Device,
    /// Memory ran out.
    Memory,
}

impl From<AllocError> for Memory {
    fn from(_error: AllocError) -> Memory {
        Memory
    }
}

impl<T: Drop> From<AllocFailed<T>> for Memory {
    fn from(_error: AllocFailed<T>) -> Memory {
        Memory
    }
}

impl<X> From<Memory> for Refused<X> {
    ghost from_gives = { λ _ e. e ≡ refused.Memory };

    fn from(_error: Memory) -> Refused<X> {
        Refused::Memory
    }
}

impl<X> From<AllocError> for Refused<X> {
    ghost from_gives = { λ _ e. e ≡ refused.Memory };

    fn from(_error: AllocError) -> Refused<X> {
        Refused::Memory
    }
}

impl<X> From<Memory> for Stop<X> {
    ghost from_gives = { λ _ e. e ≡ stop.Memory };

    fn from(_error: Memory) -> Stop<X> {
        Stop::Memory
    }
}
