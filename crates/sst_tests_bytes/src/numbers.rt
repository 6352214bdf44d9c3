//! Tests of numbers and handles in bytes, of bytes that are owned, and of causes of stopping.
//!
//! RocksDB: util/coding.h; table/format.h (`BlockHandle`).
use sst_num::{
    Bytes, Handle, Memory, Refused, Stop, fixed_is_taken_again, fixed_reads_back, fixed16, fixed32,
    fixed64, handle_is_taken_again, no_varint_begins_another, put_fixed16, put_fixed32,
    put_fixed64, put_handle, put_signed64, put_varint32, put_varint64, signed_has_one_spelling,
    signed_is_taken_again, take_handle, take_signed64, take_varint32, take_varint64,
    varint_is_taken_again, varint_is_the_only_spelling, varint_is_the_spelling,
    varint32_is_taken_again, what_is_read_stands_there,
};
use std::alloc::{AllocError, AllocFailed};
use std::test::Fail;

/// Numbers of 32 bits and their varints: the bounds of one and two bytes, the usual example 300, and the last number.
static SHORT_VARINTS: [(u32, &[u8]); 5] = [
    (0, &[0x00]),
    (127, &[0x7f]),
    (128, &[0x80, 0x01]),
    (300, &[0xac, 0x02]),
    (u32::MAX, &[0xff, 0xff, 0xff, 0xff, 0x0f]),
];

/// The varint of the last number of 64 bits.
static LAST_VARINT: [u8; 10] = [0xff, 0xff, 0xff, 0xff, 0xff, 0xff, 0xff, 0xff, 0xff, 0x01];

// A varint is taken whatever follows it.
#[test]
fn varints(rt: HostRuntime) -> Result<(), Fail> {
    for (value, bytes) in SHORT_VARINTS {
        let mut short = Vec::new(rt.alloc());
        put_varint32(&mut short, value)?;
        let mut long = Vec::new(rt.alloc());
        put_varint64(&mut long, u64::from(value))?;
        assert_eq!(rt; short.as_slice(), bytes, "of {value}");
        assert_eq!(rt; long.as_slice(), bytes, "of {value}");
        long.push(0xff)?;
        assert_eq!(rt; take_varint32(&long), Some((value, bytes.len())));
        assert_eq!(rt; take_varint64(&long), Some((u64::from(value), bytes.len())));
    }
    Ok(())
}

#[test]
fn the_last_varint(rt: HostRuntime) -> Result<(), Fail> {
    let mut out = Vec::new(rt.alloc());
    put_varint64(&mut out, u64::MAX)?;
    assert_eq!(rt; out.as_slice(), LAST_VARINT.as_slice());
    assert_eq!(rt; take_varint64(&LAST_VARINT), Some((u64::MAX, 10)));
    Ok(())
}

/// Numbers that have a sign and their varints: those next to 0, the first of two bytes, and the two ends.
static SIGNED_VARINTS: [(i64, &[u8]); 7] = [
    (0, &[0x00]),
    (-1, &[0x01]),
    (1, &[0x02]),
    (-2, &[0x03]),
    (64, &[0x80, 0x01]),
    (
        i64::MAX,
        &[0xfe, 0xff, 0xff, 0xff, 0xff, 0xff, 0xff, 0xff, 0xff, 0x01],
    ),
    (
        i64::MIN,
        &[0xff, 0xff, 0xff, 0xff, 0xff, 0xff, 0xff, 0xff, 0xff, 0x01],
    ),
];

#[test]
fn signed_varints(rt: HostRuntime) -> Result<(), Fail> {
    for (value, bytes) in SIGNED_VARINTS {
        let mut out = Vec::new(rt.alloc());
        put_signed64(&mut out, value)?;
        assert_eq!(rt; out.as_slice(), bytes, "of {value}");
        out.push(0xff)?;
        assert_eq!(rt; take_signed64(&out), Some((value, bytes.len())));
    }
    Ok(())
}

/// Bytes at whose front no varint of 64 bits stands: a longer spelling than need be, a cut one, none; and numbers from
/// 2^64 on.
static NO_VARINTS: [&[u8]; 5] = [
    &[0x80, 0x00],
    &[0x80],
    &[],
    &[0xff, 0xff, 0xff, 0xff, 0xff, 0xff, 0xff, 0xff, 0xff, 0x02],
    &[
        0xff, 0xff, 0xff, 0xff, 0xff, 0xff, 0xff, 0xff, 0xff, 0x81, 0x01,
    ],
];

// And 2^32, which is none of 32 bits.
#[test]
fn no_varints(rt: HostRuntime) {
    for bytes in NO_VARINTS {
        assert_eq!(rt; take_varint64(bytes), None);
        assert_eq!(rt; take_signed64(bytes), None);
    }
    assert_eq!(rt; take_varint32(&[0x80, 0x80, 0x80, 0x80, 0x10]), None);
}

#[test]
fn fixed_numbers(rt: HostRuntime) -> Result<(), Fail> {
    let mut out = Vec::new(rt.alloc());
    put_fixed16(&mut out, 0x0102)?;
    put_fixed32(&mut out, 0x0102_0304)?;
    put_fixed64(&mut out, 0x0102_0304_0506_0708)?;
    let bytes: &[u8] = &[2, 1, 4, 3, 2, 1, 8, 7, 6, 5, 4, 3, 2, 1];
    assert_eq!(rt; out.as_slice(), bytes);
    Ok(())
}

#[test]
fn fixed_numbers_read(rt: HostRuntime) {
    let bytes = [8, 7, 6, 5, 4, 3, 2, 1];
    assert_eq!(rt; fixed16(&bytes), 0x0708);
    assert_eq!(rt; fixed32(&bytes), 0x0506_0708);
    assert_eq!(rt; fixed64(&bytes), 0x0102_0304_0506_0708);
}

/// Offsets, sizes, and the handles of them.
static HANDLES: [(u64, u64, &[u8]); 3] = [
    (0, 21, &[0x00, 0x15]),
    (53, 8, &[0x35, 0x08]),
    (40, 300, &[0x28, 0xac, 0x02]),
];

// The second number of the last is cut.
#[test]
fn handles(rt: HostRuntime) -> Result<(), Fail> {
    for (offset, size, bytes) in HANDLES {
        let handle = Handle { offset, size };
        let mut out = Vec::new(rt.alloc());
        put_handle(&mut out, handle)?;
        assert_eq!(rt; out.as_slice(), bytes, "at {offset}");
        assert_eq!(rt; take_handle(bytes), Some((handle, bytes.len())));
    }
    assert_eq!(rt; take_handle(&[0x28, 0xac]), None);
    Ok(())
}

#[test]
fn bytes_that_are_owned(rt: HostRuntime) -> Result<(), Fail> {
    let copied = Bytes::from_slice(rt.alloc(), b"key")?;
    assert_eq!(rt; copied.len(), 3);
    let owned = Bytes::from(copied.into_vec());
    assert_eq!(rt; owned.as_slice(), b"key".as_slice());
    assert_eq!(rt; Bytes::new(rt.alloc()).len(), 0);
    Ok(())
}

// Want of memory becomes the answer Memory of each type that has one.
#[test]
fn want_of_memory(rt: HostRuntime) {
    assert_eq!(rt; Memory::from(AllocError), Memory);
    assert_eq!(rt; Memory::from(AllocFailed { value: 7u8 }), Memory);
    assert_eq!(rt; Refused::<u8>::from(Memory), Refused::Memory);
    assert_eq!(rt; Refused::<u8>::from(AllocError), Refused::Memory);
    assert_eq!(rt; Stop::<u8>::from(Memory), Stop::Memory);
}

// The laws take no value and answer none: that they can be called is all that a test can show.
#[test]
fn laws(_rt: HostRuntime) {
    varint_is_the_spelling();
    varint_is_the_only_spelling();
    no_varint_begins_another();
    varint_is_taken_again();
    varint32_is_taken_again();
    signed_has_one_spelling();
    signed_is_taken_again();
    handle_is_taken_again();
    fixed_is_taken_again();
    fixed_reads_back();
    what_is_read_stands_there();
}
