//! A name and a value of a meta block that was read, each a copy.
ghost use Rattle.std.specs.Prelude.{◌≡◌, IfOk};
ghost use Rattle.sst_meta.specs.Pairs.{row_of};

use sst_num::{Bytes, Memory};
use std::alloc::Global;

/// A name and its value.
#[derive(Debug, Drop)]
pub struct Pair {
    /// The name.
    pub name: Bytes,
    /// The value.
    pub value: Bytes,
}

/// A pair of copies.
pub fn copy_pair(alloc: Global, name: &[u8], value: &[u8]) -> Result<Pair, Memory>
    ensures { IfOk result (λ p. row_of p ≡ record { key = name.now; value = value.now }) }
{
    let name = Bytes::from_slice(alloc, name)?;
    let value = Bytes::from_slice(alloc, value)?;
    Ok(Pair { name, value })
}
