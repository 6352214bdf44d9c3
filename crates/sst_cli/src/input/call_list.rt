//! A list of calls.
ghost use Rattle.std.specs.Prelude.{◌≡◌, [], ◌∷◌, ◌++◌, length, OnOk};

use sst_key::Call;
use sst_num::Memory;
use std::alloc::Global;
use std::marker::Model;

/// Calls, in the order of their lines. Contracts see them as a list.
#[derive(Debug, Drop)]
pub struct Calls {
    items: Vec<Call>,
}

impl Model for Calls {
    ghost use Rattle.std.specs.Prelude.{List};
    ghost use Rattle.sst_key.specs.declared.calls.Call.{Call};

    ghost Value = { List Call };

    ghost view = { λ c. c.items.items };
}

impl Calls {
    /// No call. Takes no memory.
    pub fn new(alloc: Global) -> Calls
        ensures { result ≡ [] }
    {
        Calls {
            items: Vec::new(alloc),
        }
    }

    /// Appends a call. Where memory runs out, nothing is said of the list.
    pub fn push(&mut self, call: Call) -> Result<(), Memory>
        ensures { OnOk result (self.new ≡ self.old ++ call ∷ []) }
    {
        self.items.push(call)?;
        Ok(())
    }

    /// How many calls there are.
    pub fn len(&self) -> usize
        ensures { result ≡ length self.now }
    {
        self.items.len()
    }

    /// The calls, lent.
    pub fn as_slice(&self) -> &[Call]
        ensures { result.now ≡ self.now }
    {
        self.items.as_slice()
    }
}
