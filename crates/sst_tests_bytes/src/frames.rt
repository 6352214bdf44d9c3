//! Tests of reading bytes and stored blocks, on the stored data block of the one entry `61 1 P 78`: 21 bytes and their
//! trailer.
//!
//! RocksDB: `BlockFetcher` in table/block_fetcher.cc. The checksums are those of an independent program.
use sst_device::{
    DevStop, FrameFault, MemFolder, a_block_without_a_trailer_is_bare, a_frame_fault_is_the_first,
    a_stored_block_is_read, draw, draw_framed, frame_is_framed, put_frame,
};
use sst_num::{Bytes, Handle, Stop};
use std::alloc::Global;
use std::test::Fail;

/// The name of the file.
const NAME: &str = "table";

/// The block, a row and one restart, and its trailer.
const STORED: [u8; 26] = [
    0x00, 0x09, 0x01, 0x61, 0x01, 0x01, 0x00, 0x00, 0x00, 0x00, 0x00, 0x00, 0x78, 0x00, 0x00, 0x00,
    0x00, 0x01, 0x00, 0x00, 0x00, 0x00, 0x84, 0xdd, 0x88, 0x74,
];

/// The same with another value.
const OTHER_VALUE: [u8; 26] = [
    0x00, 0x09, 0x01, 0x61, 0x01, 0x01, 0x00, 0x00, 0x00, 0x00, 0x00, 0x00, 0x79, 0x00, 0x00, 0x00,
    0x00, 0x01, 0x00, 0x00, 0x00, 0x00, 0x84, 0xdd, 0x88, 0x74,
];

/// The same with another type byte.
const OTHER_TYPE: [u8; 26] = [
    0x00, 0x09, 0x01, 0x61, 0x01, 0x01, 0x00, 0x00, 0x00, 0x00, 0x00, 0x00, 0x78, 0x00, 0x00, 0x00,
    0x00, 0x01, 0x00, 0x00, 0x00, 0x01, 0x84, 0xdd, 0x88, 0x74,
];

/// The same with the checksum that belongs to it.
const COMPRESSED: [u8; 26] = [
    0x00, 0x09, 0x01, 0x61, 0x01, 0x01, 0x00, 0x00, 0x00, 0x00, 0x00, 0x00, 0x78, 0x00, 0x00, 0x00,
    0x00, 0x01, 0x00, 0x00, 0x00, 0x01, 0x53, 0x01, 0x85, 0x76,
];

/// Where the block stands.
const AT: Handle = Handle {
    offset: 0,
    size: 21,
};

/// The largest block that is read.
const LIMIT: Handle = Handle {
    offset: 0,
    size: 536_870_912,
};

/// One byte more.
const LARGE: Handle = Handle {
    offset: 0,
    size: 536_870_913,
};

/// A place past 64 bits.
const FAR: Handle = Handle {
    offset: u64::MAX,
    size: u64::MAX,
};

/// A folder with these bytes in the file, whose calls of these numbers fail.
fn folder(alloc: Global, bytes: &[u8], fail_at: &[u64]) -> Result<MemFolder, Fail> {
    let mut folder = MemFolder::new(alloc, fail_at)?;
    folder.put_file(NAME, bytes)?;
    Ok(folder)
}

// The block without rows as well; the checksum of that was computed bit by bit.
#[test]
fn stored_blocks(rt: HostRuntime) -> Result<(), Fail> {
    let mut out = Vec::new(rt.alloc());
    put_frame(&mut out, STORED.split_at(21).0)?;
    assert_eq!(rt; out.as_slice(), STORED.as_slice());
    let mut out = vec![in rt.alloc(); 7u8]?;
    put_frame(&mut out, &[0, 0, 0, 0, 1, 0, 0, 0])?;
    assert_eq!(rt;
        out.as_slice(),
        [7, 0, 0, 0, 0, 1, 0, 0, 0, 0, 0xc0, 0xf2, 0xa1, 0xb0].as_slice()
    );
    Ok(())
}

/// What reading the block answers: nothing where it is the one above.
fn stop_of(answer: Result<Bytes, Stop<FrameFault>>) -> Result<Option<Stop<FrameFault>>, Fail> {
    match answer {
        Ok(bytes) if bytes.as_slice() == STORED.split_at(21).0 => Ok(None),
        Ok(bytes) => Err(Fail::new(format_args!("another block: {bytes:?}"))),
        Err(stop) => Ok(Some(stop)),
    }
}

/// Files, where they end without a footer, a handle, and what reading the block there answers if it isn't the block above.
static STOPS: [([u8; 26], u64, Handle, Option<Stop<FrameFault>>); 8] = [
    (STORED, 26, AT, None),
    (
        STORED,
        25,
        AT,
        Some(Stop::Damage(FrameFault::OutOfFile(AT))),
    ),
    // The place is looked at before the size.
    (
        STORED,
        536_870_912,
        LARGE,
        Some(Stop::Damage(FrameFault::OutOfFile(LARGE))),
    ),
    (
        STORED,
        u64::MAX,
        FAR,
        Some(Stop::Damage(FrameFault::OutOfFile(FAR))),
    ),
    (
        STORED,
        1_073_741_824,
        LARGE,
        Some(Stop::Damage(FrameFault::TooLarge(LARGE))),
    ),
    (
        OTHER_VALUE,
        26,
        AT,
        Some(Stop::Damage(FrameFault::Checksum(AT))),
    ),
    // The checksum is looked at before the type byte.
    (
        OTHER_TYPE,
        26,
        AT,
        Some(Stop::Damage(FrameFault::Checksum(AT))),
    ),
    (
        COMPRESSED,
        26,
        AT,
        Some(Stop::Damage(FrameFault::Compressed(AT, 1))),
    ),
];

#[test]
fn blocks_that_are_read(rt: HostRuntime) -> Result<(), Fail> {
    for (file, end, handle, wanted) in STOPS {
        let mut folder = folder(rt.alloc(), &file, &[])?;
        let found = stop_of(draw_framed(rt.alloc(), &mut folder, NAME, end, handle))?;
        assert_eq!(rt; found, wanted, "at {handle:?} before {end}");
    }
    Ok(())
}

// It is looked for, and the file ends before it.
#[test]
fn a_block_of_the_largest_size(rt: HostRuntime) -> Result<(), Fail> {
    let mut folder = folder(rt.alloc(), &STORED, &[])?;
    let found = draw_framed(rt.alloc(), &mut folder, NAME, 1_073_741_824, LIMIT);
    assert_eq!(rt; found.err(), Some(Stop::Device));
    Ok(())
}

// The first call fails, and draws nothing.
#[test]
fn a_failing_folder(rt: HostRuntime) -> Result<(), Fail> {
    let mut folder = folder(rt.alloc(), &STORED, &[1])?;
    for (name, wanted, drawn) in [
        (NAME, Some(Stop::Device), 0),
        (NAME, None, 26),
        ("absent", Some(Stop::Device), 26),
    ] {
        let found = stop_of(draw_framed(rt.alloc(), &mut folder, name, 26, AT))?;
        assert_eq!(rt; found, wanted);
        assert_eq!(rt; folder.drawn(), drawn);
    }
    Ok(())
}

/// The error of reading a range, or the bytes.
fn range_of(answer: Result<Bytes, DevStop>, wanted: &[u8]) -> Result<Option<DevStop>, Fail> {
    match answer {
        Ok(bytes) if bytes.as_slice() == wanted => Ok(None),
        Ok(bytes) => Err(Fail::new(format_args!("other bytes: {bytes:?}"))),
        Err(stop) => Ok(Some(stop)),
    }
}

// The third call fails.
#[test]
fn a_range(rt: HostRuntime) -> Result<(), Fail> {
    let mut folder = folder(rt.alloc(), b"12345678", &[3])?;
    for (at, wanted) in [
        (2, None),
        (6, Some(DevStop::Failed)),
        (2, Some(DevStop::Failed)),
    ] {
        let found = range_of(draw(rt.alloc(), &mut folder, NAME, at, 3), b"345")?;
        assert_eq!(rt; found, wanted, "at {at}");
    }
    assert_eq!(rt; folder.drawn(), 3);
    Ok(())
}

// The laws take no value and answer none: that they can be called is all that a test can show.
#[test]
fn laws(_rt: HostRuntime) {
    frame_is_framed();
    a_block_without_a_trailer_is_bare();
    a_frame_fault_is_the_first();
    a_stored_block_is_read();
}
