//! Numbers and handles, appended in their spelling.
ghost use Rattle.std.specs.Prelude.{◌≡◌, ℕ, ◌+◌, ◌<◌, ◌≤◌, ◌++◌, length, take, OnOk, OnErr};
ghost use Rattle.std.specs.Vec.{vec_capacity};
ghost use Rattle.sst_num.specs.Spelling.{varint, signed_varint, fixed, handle_spelling};

use crate::block_handle::Handle;
use crate::stops::Memory;
use crate::zigzag::to_zigzag;
use byteorder::{ByteOrder, LittleEndian};

/// The most bytes that a varint takes.
const VARINT_ROOM: usize = 10;

/// Writes the groups of seven bits of `v` to the front of `room`, and answers how many bytes they are.
fn write_groups(room: &mut [u8; VARINT_ROOM], v: u64) -> usize
    ensures within { result ≤ 10 }
    ensures groups { take result room.new ≡ varint v }
{
    let mut rest = v;
    for at in 0..VARINT_ROOM - 1 {
        if rest < 128 {
            room[at] = rest as u8;
            return at + 1;
        }
        room[at] = (rest % 128 + 128) as u8;
        rest /= 128;
    }
    room[VARINT_ROOM - 1] = rest as u8;
    VARINT_ROOM
}

/// Appends the bytes. Where memory runs out, `out` stays as it was.
fn put_bytes(out: &mut Vec<u8>, bytes: &[u8]) -> Result<(), Memory>
    ensures ok { OnOk result (out.new.items ≡ out.old.items ++ bytes.now) }
    ensures err { OnErr result (out.new.items ≡ out.old.items) }
    ensures full { OnErr result (vec_capacity out.old < length out.old.items + length bytes.now) }
    ensures room { vec_capacity out.old ≤ vec_capacity out.new }
{
    out.extend_from_slice(bytes)?;
    Ok(())
}

/// Appends a number as a varint, in its shortest spelling.
///
/// Where memory runs out, `out` stays as it was. RocksDB: `PutVarint32` in util/coding.h.
pub fn put_varint32(out: &mut Vec<u8>, v: u32) -> Result<(), Memory>
    ensures ok { OnOk result (out.new.items ≡ out.old.items ++ varint v) }
    ensures err { OnErr result (out.new.items ≡ out.old.items) }
    ensures full { OnErr result (vec_capacity out.old < length out.old.items + length (varint v)) }
{
    put_varint64(out, u64::from(v))
}

/// Appends a number as a varint, in its shortest spelling.
///
/// Where memory runs out, `out` stays as it was. RocksDB: `PutVarint64` in util/coding.h.
pub fn put_varint64(out: &mut Vec<u8>, v: u64) -> Result<(), Memory>
    ensures ok { OnOk result (out.new.items ≡ out.old.items ++ varint v) }
    ensures err { OnErr result (out.new.items ≡ out.old.items) }
    ensures full { OnErr result (vec_capacity out.old < length out.old.items + length (varint v)) }
{
    let mut room = [0; VARINT_ROOM];
    let end = write_groups(&mut room, v);
    let (spelling, _) = room.split_at(end);
    put_bytes(out, spelling)
}

/// Appends a number that has a sign: the varint of its zigzag number, in its shortest spelling.
///
/// Where memory runs out, `out` stays as it was. RocksDB: `PutVarsignedint64` in util/coding.h.
pub fn put_signed64(out: &mut Vec<u8>, v: i64) -> Result<(), Memory>
    ensures ok { OnOk result (out.new.items ≡ out.old.items ++ signed_varint v) }
    ensures err { OnErr result (out.new.items ≡ out.old.items) }
    ensures full { OnErr result (vec_capacity out.old < length out.old.items + length (signed_varint v)) }
{
    put_varint64(out, to_zigzag(v))
}

/// Appends a block handle: its offset and then its size, each as a varint.
///
/// Where memory runs out, `out` stays as it was. RocksDB: `BlockHandle::EncodeTo` in table/format.cc.
pub fn put_handle(out: &mut Vec<u8>, v: Handle) -> Result<(), Memory>
    ensures ok { OnOk result (out.new.items ≡ out.old.items ++ handle_spelling v) }
    ensures err { OnErr result (out.new.items ≡ out.old.items) }
    ensures full { OnErr result (vec_capacity out.old < length out.old.items + length (handle_spelling v)) }
{
    let mut offset = [0; VARINT_ROOM];
    let mut size = [0; VARINT_ROOM];
    let offset_end = write_groups(&mut offset, v.offset);
    let size_end = write_groups(&mut size, v.size);
    let before = out.len();
    let (spelling, _) = offset.split_at(offset_end);
    put_bytes(out, spelling)?;
    let (spelling, _) = size.split_at(size_end);
    let second = put_bytes(out, spelling);
    if second.is_err() {
        out.truncate(before);
    }
    second
}

/// Appends a number as two bytes, the low one first.
///
/// Where memory runs out, `out` stays as it was. RocksDB: `PutFixed16` in util/coding.h.
pub fn put_fixed16(out: &mut Vec<u8>, v: u16) -> Result<(), Memory>
    ensures ok { OnOk result (out.new.items ≡ out.old.items ++ fixed 2 v) }
    ensures err { OnErr result (out.new.items ≡ out.old.items) }
    ensures full { OnErr result (vec_capacity out.old < length out.old.items + length (fixed 2 v)) }
{
    let mut bytes = [0; 2];
    LittleEndian::write_u16(&mut bytes, v);
    put_bytes(out, &bytes)
}

/// Appends a number as four bytes, the lowest first.
///
/// Where memory runs out, `out` stays as it was. RocksDB: `PutFixed32` in util/coding.h.
pub fn put_fixed32(out: &mut Vec<u8>, v: u32) -> Result<(), Memory>
    ensures ok { OnOk result (out.new.items ≡ out.old.items ++ fixed 4 v) }
    ensures err { OnErr result (out.new.items ≡ out.old.items) }
    ensures full { OnErr result (vec_capacity out.old < length out.old.items + length (fixed 4 v)) }
{
    let mut bytes = [0; 4];
    LittleEndian::write_u32(&mut bytes, v);
    put_bytes(out, &bytes)
}

/// Appends a number as eight bytes, the lowest first.
///
/// Where memory runs out, `out` stays as it was. RocksDB: `PutFixed64` in util/coding.h.
pub fn put_fixed64(out: &mut Vec<u8>, v: u64) -> Result<(), Memory>
    ensures ok { OnOk result (out.new.items ≡ out.old.items ++ fixed 8 v) }
    ensures err { OnErr result (out.new.items ≡ out.old.items) }
    ensures full { OnErr result (vec_capacity out.old < length out.old.items + length (fixed 8 v)) }
{
    let mut bytes = [0; 8];
    LittleEndian::write_u64(&mut bytes, v);
    put_bytes(out, &bytes)
}
