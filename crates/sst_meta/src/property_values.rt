//! What the value of a name is, and nothing else: a handle, a varint, a number of four or eight bytes.
ghost use Rattle.std.specs.Prelude.{◌≡◌};
ghost use Rattle.sst_meta.specs.LoadReading as reading;

use sst_num::{Handle, fixed32, fixed64, take_handle, take_varint64};

/// The block handle that the value is, if it is one and nothing else.
#[tactic(auto, unfolding(crate::specs::LoadReading::handle_in))]
pub fn handle_in(value: &[u8]) -> Option<Handle>
    ensures { result ≡ reading.handle_in value.now }
{
    match take_handle(value) {
        Some((handle, used)) => {
            if used == value.len() {
                Some(handle)
            } else {
                None
            }
        }
        None => None,
    }
}

/// The number below 2^64 whose varint the value is, if it is one and nothing else.
#[tactic(auto, unfolding(crate::specs::LoadReading::varint_in))]
pub fn varint_in(value: &[u8]) -> Option<u64>
    ensures { result ≡ reading.varint_in value.now }
{
    match take_varint64(value) {
        Some((number, used)) => {
            if used == value.len() {
                Some(number)
            } else {
                None
            }
        }
        None => None,
    }
}

/// The number whose four bytes the value is, if it has four.
pub fn fixed32_in(value: &[u8]) -> Option<u32>
    ensures { result ≡ reading.fixed_in 4 value.now }
{
    if value.len() == 4 {
        Some(fixed32(value))
    } else {
        None
    }
}

/// The number whose eight bytes the value is, if it has eight.
pub fn fixed64_in(value: &[u8]) -> Option<u64>
    ensures { result ≡ reading.fixed_in 8 value.now }
{
    if value.len() == 8 {
        Some(fixed64(value))
    } else {
        None
    }
}
