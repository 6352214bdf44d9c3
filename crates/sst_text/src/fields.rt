//! The fields that entry lines and call lines have in common: sequence numbers, and bytes in hex digits. The texts are
//! this project's own.
ghost use Rattle.std.specs.Prelude.{◌≡◌, Some, None, if◌then◌else◌, option_and_then, IfOk};
ghost use Rattle.std.specs.Result.{result_ok};
ghost use Rattle.hex.specs.Hex.{decode_of};
ghost use Rattle.sst_text.specs.Texts as texts;

use sst_num::Memory;

/// The first number past the sequence numbers.
const SEQ_END: u64 = 1 << 56;

/// The number that some decimal digits spell, where it is a sequence number.
fn digits(field: &[u8]) -> Option<u64>
    ensures { result ≡ option_and_then texts.in_range (texts.digits_from 0 field.now) }
{
    let mut value = 0;
    for c in field {
        if value >= SEQ_END {
            return None;
        }
        if !c.is_ascii_digit() {
            return None;
        }
        value = value * 10 + u64::from(*c - b'0');
    }
    if value < SEQ_END { Some(value) } else { None }
}

/// The sequence number of a field: decimal digits without sign or leading zeros, below 2^56.
pub fn seq_field(field: &[u8]) -> Option<u64>
    ensures { result ≡ texts.seq_field field.now }
{
    match field {
        [] => None,
        [b'0', _, ..] => None,
        _ => digits(field),
    }
}

/// Reads the bytes of a field into the room, where it is hex digits of either case or a dash, which stands for no bytes.
/// True exactly where it is one of these; else nothing is said of the room.
///
/// Takes memory only where the room is too small.
pub fn read_bytes(room: &mut Vec<u8>, field: &[u8]) -> Result<bool, Memory>
    ensures { IfOk result (λ is. (if is then Some room.new.items else None) ≡ texts.bytes_field field.now) }
{
    match field {
        [] => Ok(false),
        [c] => {
            room.truncate(0);
            Ok(*c == b'-')
        }
        _ => read_digits(room, field),
    }
}

/// Reads the bytes of hex digits of either case into the room. True exactly where the field is such digits, two a byte.
fn read_digits(room: &mut Vec<u8>, field: &[u8]) -> Result<bool, Memory>
    ensures { IfOk result (λ is. (if is then Some room.new.items else None) ≡ result_ok (decode_of field.now)) }
{
    room.resize(field.len() / 2, 0)?;
    match hex::decode_to_slice(field, room.as_mut_slice()) {
        Ok(()) => Ok(true),
        Err(_) => Ok(false),
    }
}
