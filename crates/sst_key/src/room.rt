//! Room for one stored key, used again for the next.
ghost use Rattle.std.specs.Prelude.{◌≡◌, ℕ, ◌+◌, ◌≤◌, List, [], ◌++◌, length, take, IfOk};
ghost use Rattle.std.specs.Vec.{vec_capacity};

use sst_num::Memory;
use std::alloc::Global;
use std::marker::Model;

/// How many bytes the longest stored key has, and each [`KeyRoom`]: those of the longest user key and of a tag.
pub const LONGEST_KEY: usize = 65_544;

/// Room for one internal key, which is used again for the next. Contracts see it as the key that it holds.
///
/// RocksDB: `IterKey` in db/dbformat.h.
#[derive(Debug, Drop)]
pub struct KeyRoom {
    key: Vec<u8>,
}

impl Model for KeyRoom {
    ghost Value = { List ℕ };

    ghost view = { λ r. r.key.items };

    ghost invariant = { λ r. 65544 ≤ vec_capacity r.key };
}

impl KeyRoom {
    /// Room of 65,544 bytes, with no key.
    pub fn new(alloc: Global) -> Result<KeyRoom, Memory>
        ensures { IfOk result (λ room. room ≡ []) }
    {
        let key = Vec::with_capacity(alloc, LONGEST_KEY)?;
        Ok(KeyRoom { key })
    }

    /// Keeps the first `shared` bytes and appends the rest, which fits the room. Takes no memory.
    pub fn set(&mut self, shared: usize, rest: &[u8])
        requires shared { shared ≤ length self.old }
        requires fits { shared + length rest.now ≤ 65544 }
        ensures { self.new ≡ take shared self.old ++ rest.now }
    {
        self.key.truncate(shared);
        let _ = self.key.extend_from_slice(rest);
    }

    /// The key that it holds, lent. Takes no memory.
    pub fn bytes(&self) -> &[u8]
        ensures { result.now ≡ self.now }
    {
        self.key.as_slice()
    }
}
