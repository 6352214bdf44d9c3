//! Files with blocks past a limit: 2^29 bytes of a block, and 65,544 bytes of a stored key.
//!
//! The places and sizes are worked by hand; the checksums are those of an independent program.
//!
//! RocksDB: `BlockFetcher` in table/block_fetcher.cc, `DecodeEntry` in table/block_based/block.cc. The limits are
//! this project's own.
use crate::damaged::assert_refused;
use sst_cli::Status;
use sst_tests_shared::small_file::{METAINDEX, ONE_RESTART};
use sst_tests_shared::worked_run::{Ran, answered, put_hex};
use std::alloc::Global;
use std::process::Abort;
use std::test::Fail;

/// What follows 536,870,918 zeros: the block of 2^29 + 1 of them and its trailer.
static BEHIND_ZEROS: [&[&str]; 4] = [
    // The footer, by which the zeros are the metaindex.
    &[
        "010081808080020000",
        "0000000000000000000000000000000000000000000000000000000000000000",
        "02000000f7cff485b741e288",
    ],
    // The metaindex, whose one row says that the zeros are the properties, and the footer.
    &[
        "001206726f636b7364622e70726f70657274696573008180808002",
        ONE_RESTART,
        "0029be5ef8",
        "018680808002230000",
        "0000000000000000000000000000000000000000000000000000000000000000",
        "02000000f7cff485b741e288",
    ],
    // The metaindex, and the footer, by which the zeros are the index.
    &[
        METAINDEX,
        "01868080800208008180808002",
        "00000000000000000000000000000000000000000000000000000000",
        "02000000f7cff485b741e288",
    ],
    // The index, whose row leads to the zeros, the metaindex and the footer.
    &[
        "000906610101000000000000008180808002",
        ONE_RESTART,
        "00f2128e59",
        METAINDEX,
        "01a5808080020886808080021a",
        "00000000000000000000000000000000000000000000000000000000",
        "02000000f7cff485b741e288",
    ],
];

/// Asserts what is told of files of so many zeros and what follows them.
fn assert_too_large(rt: &impl Abort, alloc: Global, zeros: usize) -> Result<(), Fail> {
    let mut file = vec![in alloc; 0; zeros]?;
    for pieces in BEHIND_ZEROS {
        file.truncate(zeros);
        put_hex(alloc, &mut file, pieces)?;
        assert_refused(rt, alloc, &file, "too-large 0 536870913")?;
    }
    Ok(())
}

#[test]
fn too_large_blocks(rt: HostRuntime) -> Result<(), Fail> {
    assert_too_large(&rt, rt.alloc(), 536_870_918)
}

/// The file of one entry with a user key of 65,536 bytes `k`: what stands before the key, and what behind it. The data
/// block has 65,558 bytes, and the index 24.
static LONGEST_KEY: (&str, &[&str]) = (
    "0088800401",
    &[
        "010100000000000078",
        ONE_RESTART,
        "0043985bf1",
        "0009046c010100000000000000968004",
        ONE_RESTART,
        "006ce1c1f2",
        METAINDEX,
        "01b88004089b800418",
        "0000000000000000000000000000000000000000000000000000000000000000",
        "02000000f7cff485b741e288",
    ],
);

/// The same with a byte more.
static LONGER_KEY: (&str, &[&str]) = (
    "0089800401",
    &[
        "010100000000000078",
        ONE_RESTART,
        "0014f8b80f",
        "0009046c010100000000000000978004",
        ONE_RESTART,
        "004f7fe19a",
        METAINDEX,
        "01b98004089c800418",
        "0000000000000000000000000000000000000000000000000000000000000000",
        "02000000f7cff485b741e288",
    ],
);

/// A file with a user key of so many bytes.
fn with_key(alloc: Global, before: &str, length: usize, behind: &[&str]) -> Result<Vec<u8>, Fail> {
    let key = vec![in alloc; b'k'; length]?;
    let mut file = Vec::new(alloc);
    put_hex(alloc, &mut file, &[before])?;
    file.extend_from_slice(&key)?;
    put_hex(alloc, &mut file, behind)?;
    Ok(file)
}

/// Whether these bytes begin with so many hex digits of `k`, and the rest of the line follows.
fn is_line_of_key(bytes: &[u8], digits: usize, rest: &str) -> bool {
    match bytes.split_at_checked(digits) {
        None => false,
        Some((key, behind)) => {
            let is_key = key.chunks(2).all(|pair| pair == b"6b".as_slice());
            is_key && behind == rest.as_bytes()
        }
    }
}

/// Whether the entry with the longest key was shown.
fn shows_longest_key(ran: &Ran) -> bool {
    ran.status == Status::Done && is_line_of_key(ran.sink.bytes(), 131_072, " 1 P 78\n")
}

#[test]
fn long_keys(rt: HostRuntime) -> Result<(), Fail> {
    let (before, behind) = LONGEST_KEY;
    let file = with_key(rt.alloc(), before, 65_536, behind)?;
    let ran = answered(rt.alloc(), &file, b"first\n")?;
    assert!(rt; shows_longest_key(&ran));
    let (before, behind) = LONGER_KEY;
    let file = with_key(rt.alloc(), before, 65_537, behind)?;
    assert_refused(&rt, rt.alloc(), &file, "row 0 0")
}
