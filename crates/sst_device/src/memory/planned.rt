//! What clauses name of the failing calls of an object in memory.
ghost use Rattle.std.specs.Prelude.{Bool, false};
ghost use Rattle.sst_device.specs.Plans.{Plan};

/// An object that was told, when it was made, which of its calls are to fail. The trait has no call: its members
/// are what clauses name.
pub trait Planned {
    // The calls that are to fail, and how many there were.
    ghost plan: { Self → Plan };

    // Whether a call that is to fail answers that it took 0 bytes, and not `Failed`.
    ghost is_stuck: { Self → Bool } = { λ _. false };
}
