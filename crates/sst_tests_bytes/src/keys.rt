//! Tests of stored keys, of their order, and of room for them.
//!
//! RocksDB: `AppendInternalKey`, `ParseInternalKey` and `ValueType` in db/dbformat.h.
use sst_key::{
    KeyRoom, Kind, cmp_internal, internal_order_is_entry_order, pack, packed_is_unpacked, unpack,
};
use std::cmp::Ordering;
use std::test::Fail;

// The key `a` (61) at sequence number 1; each kind by its number; and sequence numbers of each length.
#[test]
fn packed_keys(rt: HostRuntime) -> Result<(), Fail> {
    for (user, seq, kind, bytes) in [
        (
            &b"a"[..],
            1u64,
            Kind::Value,
            &[0x61u8, 1, 1, 0, 0, 0, 0, 0, 0][..],
        ),
        (b"", 0, Kind::Deletion, &[0, 0, 0, 0, 0, 0, 0, 0]),
        (b"", 0, Kind::Value, &[1, 0, 0, 0, 0, 0, 0, 0]),
        (b"", 0, Kind::Merge, &[2, 0, 0, 0, 0, 0, 0, 0]),
        (b"", 256, Kind::Merge, &[2, 0, 1, 0, 0, 0, 0, 0]),
        (
            b"",
            0xff_ffff_ffff_ffff,
            Kind::SingleDeletion,
            &[7, 255, 255, 255, 255, 255, 255, 255],
        ),
    ] {
        let mut out = Vec::new(rt.alloc());
        pack(&mut out, user, seq, kind)?;
        assert_eq!(rt; out.as_slice(), bytes, "at {kind:?}");
        assert_eq!(rt; unpack(bytes), Some((user.len(), seq, kind)));
    }
    packed_is_unpacked();
    Ok(())
}

// Seven bytes, none, and kind bytes that stand for no kind.
#[test]
fn no_keys(rt: HostRuntime) {
    for bytes in [
        &[1u8, 0, 0, 0, 0, 0, 0][..],
        &[],
        &[0x61, 3, 1, 0, 0, 0, 0, 0, 0],
        &[0x61, 255, 1, 0, 0, 0, 0, 0, 0],
    ] {
        assert_eq!(rt; unpack(bytes), None, "at {bytes:?}");
    }
}

// Among equal user keys the greater tag comes first; a user key comes before what it begins.
#[test]
fn compared_keys(rt: HostRuntime) {
    let older = &[0x61, 1, 1, 0, 0, 0, 0, 0, 0];
    let newer = &[0x61, 1, 2, 0, 0, 0, 0, 0, 0];
    let longer = &[0x61, 0x00, 1, 9, 0, 0, 0, 0, 0, 0];
    assert_eq!(rt; cmp_internal(newer, older), Ordering::Less);
    assert_eq!(rt; cmp_internal(older, newer), Ordering::Greater);
    assert_eq!(rt; cmp_internal(older, older), Ordering::Equal);
    assert_eq!(rt; cmp_internal(older, longer), Ordering::Less);
    internal_order_is_entry_order();
}

// A room has no key at first; each key keeps a front of the one before it, up to the longest key.
#[test]
fn key_room(rt: HostRuntime) -> Result<(), Fail> {
    let mut room = KeyRoom::new(rt.alloc())?;
    assert_eq!(rt; room.bytes(), &b""[..]);
    room.set(0, b"apple");
    room.set(2, b"ricot");
    assert_eq!(rt; room.bytes(), &b"apricot"[..]);
    room.set(7, &[0; 65_537]);
    assert_eq!(rt; room.bytes().len(), 65_544);
    Ok(())
}
