//! Lists written as many data blocks: `sst write block one.sst block=N`.
//!
//! A data block that has a row and at least N bytes is ended before the next entry is added. Its separator in the index is its
//! last key, or a shorter one between it and the next key. The bytes of the files are those of an independent program, in hex
//! digits; their places and sizes are worked by hand in the comments beside them.
//!
//! RocksDB: `FlushBlockBySizePolicy` in table/block_based/flush_block_policy.cc, `BlockBasedTableBuilder::Add` and
//! `Flush` in table/block_based/block_based_table_builder.cc.
use crate::files::{assert_wrote, numbered_lines};
use crate::written_file::{Behind, PLAIN, put_behind};
use sst_tests_shared::asserting::assert_answered;
use sst_tests_shared::worked_run::{file_with_options, put_hex, text_of, written_with};
use std::alloc::Global;
use std::process::Abort;
use std::test::Fail;

/// The end of a block whose one restart point is 0, and the type byte of a stored block: no compression.
pub(crate) const END: &str = "000000000100000000";

/// A value of 60 bytes `v`.
pub(crate) const VALUE: &str =
    "767676767676767676767676767676767676767676767676767676767676767676767676767676767676767676767676767676767676767676767676";

/// Asserts that the lines are written as this file, and that this is printed.
fn assert_written(
    rt: &impl Abort,
    alloc: Global,
    options: &[&str],
    lines: &[u8],
    file: &[u8],
    text: &str,
) -> Result<(), Fail> {
    let ran = written_with(alloc, options, lines)?;
    assert_wrote(rt, &ran, file, text, options);
    Ok(())
}

/// The lines of three versions of the key `k`, in pieces.
pub(crate) const VERSION_LINES: &[&str] = &[
    "6b 9 P ",
    VALUE,
    "\n6b 5 P ",
    VALUE,
    "\n6b 2 P ",
    VALUE,
    "\n",
];

/// Their data blocks with a trailer each. A row of 72 bytes makes a block of 80.
pub(crate) const VERSION_BLOCKS: &[&str] = &[
    "00093c6b0109000000000000",
    VALUE,
    END,
    "846d66d9",
    "00093c6b0105000000000000",
    VALUE,
    END,
    "b70ce9a1",
    "00093c6b0102000000000000",
    VALUE,
    END,
    "4e16570a",
];

/// The index, at 255: the keys, and the handles (0, 80), (85, 80) and (170, 80). Each row stands at a restart.
static VERSIONS_INDEX: [&str; 5] = [
    "0009026b01090000000000000050",
    "0009026b01050000000000005550",
    "0009036b0102000000000000aa0150",
    "000000000e0000001c00000003000000",
    "00860d2956",
];

/// Behind it: the properties of 256 bytes at 319, and the metaindex of 33 at 580.
static BEHIND_VERSIONS: Behind = Behind {
    form: PLAIN,
    data_size: "ff01",
    index_size: "40",
    blocks: "03",
    entries: "03",
    key_size: "1b",
    value_size: "b401",
    checksum: "f4d0a8f9",
    handle: "bf028002",
    metaindex_checksum: "9cb52a01",
    footer: "01c40421ff013b",
};

/// The lines of the three versions.
pub(crate) fn version_lines(alloc: Global) -> Result<String, Fail> {
    text_of(alloc, VERSION_LINES)
}

#[test]
fn a_block_for_each_version(rt: HostRuntime) -> Result<(), Fail> {
    let mut file = Vec::new(rt.alloc());
    put_hex(rt.alloc(), &mut file, VERSION_BLOCKS)?;
    put_hex(rt.alloc(), &mut file, &VERSIONS_INDEX)?;
    put_behind(rt.alloc(), &mut file, &BEHIND_VERSIONS)?;
    assert_eq!(rt; file.len(), 671);
    let lines = version_lines(rt.alloc())?;
    let lines = lines.as_str().as_bytes();
    assert_written(&rt, rt.alloc(), &["block=64"], lines, &file, "wrote 3\n")?;
    // The blocks have 80 bytes, so that they are the same for each N up to 80.
    assert_written(&rt, rt.alloc(), &["block=80"], lines, &file, "wrote 3\n")
}

/// Calls on the versions, each with the sequence number of the version that it shows, if it shows one.
static ON_VERSIONS: [(&str, &str); 17] = [
    ("get 6b 72057594037927935", "9"),
    ("get 6b 9", "9"),
    ("get 6b 8", "5"),
    ("get 6b 5", "5"),
    ("get 6b 4", "2"),
    ("get 6b 1", ""),
    ("seek_for_prev 6b 5", "5"),
    ("seek_for_prev 6b 10", ""),
    ("seek 6b 4", "2"),
    ("prev", "5"),
    ("prev", "9"),
    ("next", "5"),
    ("last", "2"),
    ("next", ""),
    ("seek_for_prev 6b 4", "5"),
    ("seek_for_prev 6c 0", "2"),
    ("seek 6b 1", ""),
];

/// Options by which the versions are written: in one block and in three, in each version of the format, and with an index in
/// parts of one row, of two and of all.
static OF_VERSIONS: [&[&str]; 8] = [
    &["block=64"],
    &["block=4096"],
    &["block=64", "version=3"],
    &["block=64", "version=4", "index-restart=16"],
    &["block=64", "parts=1"],
    &["block=64", "parts=2"],
    &["block=64", "version=3", "parts=65536"],
    &["block=64", "version=4", "parts=2", "index-restart=16"],
];

#[test]
fn calls_on_versions(rt: HostRuntime) -> Result<(), Fail> {
    let lines = version_lines(rt.alloc())?;
    let value = VALUE;
    let mut calls = String::new(rt.alloc());
    let mut text = String::new(rt.alloc());
    for (call, number) in ON_VERSIONS {
        let line = format!(in rt.alloc(); "{call}\n")?;
        calls.push_str(line.as_str())?;
        if number.is_empty() {
            text.push_str("none\n")?;
        } else {
            let answer = format!(in rt.alloc(); "6b {number} P {value}\n")?;
            text.push_str(answer.as_str())?;
        }
    }
    for options in OF_VERSIONS {
        let file = file_with_options(rt.alloc(), options, lines.as_str())?;
        assert_answered(rt.alloc(), &file, calls.as_str(), text.as_str())?;
    }
    Ok(())
}

/// The data blocks of the 40 entries 6b00, 6b01 and so on with N of 64: the first number, the one past the last, and the
/// checksum. A row of 14 bytes and three of 13 make a block of 61 bytes, and the next one makes it 74.
static BLOCKS_OF_64: [(u8, u8, &str); 8] = [
    (0, 5, "b9229eee"),
    (5, 10, "060b67b9"),
    (10, 15, "288cb2a1"),
    (15, 20, "87198cf5"),
    (20, 25, "7b5d173a"),
    (25, 30, "97b152e6"),
    (30, 35, "24b197f9"),
    (35, 40, "7519b5cf"),
];

/// Their index, at 632: the last keys of seven, the user key 6c with the greatest tag, and the handles, which are 79 bytes
/// apart.
static INDEX_OF_64: [&str; 10] = [
    "000a026b040101000000000000004a",
    "000a026b0901010000000000004f4a",
    "000a036b0e01010000000000009e014a",
    "000a036b130101000000000000ed014a",
    "000a036b180101000000000000bc024a",
    "000a036b1d01010000000000008b034a",
    "000a036b220101000000000000da034a",
    "0009036cffffffffffffffffa9044a",
    "000000000f0000001e0000002e0000003e0000004e0000005e0000006e00000008000000",
    "001b5a74e5",
];

/// Behind it: the properties of 257 bytes at 798, and the metaindex of 33 at 1060.
static BEHIND_64: Behind = Behind {
    form: PLAIN,
    data_size: "f804",
    index_size: "a601",
    blocks: "08",
    entries: "28",
    key_size: "9003",
    value_size: "28",
    checksum: "adb4566a",
    handle: "9e068102",
    metaindex_checksum: "29ede5b7",
    footer: "01a40821f804a101",
};

/// The data blocks with N of 200: with 14 rows a block has 191 bytes, and with 15 it has 204.
static BLOCKS_OF_200: [(u8, u8, &str); 3] = [
    (0, 15, "638a4802"),
    (15, 30, "09381ee4"),
    (30, 40, "ef37fa7c"),
];

/// Their index, at 562: the last keys of two, the user key 6c with the greatest tag, and the handles (0, 204), (209, 204) and
/// (418, 139).
static INDEX_OF_200: [&str; 5] = [
    "000a036b0e010100000000000000cc01",
    "000a046b1d0101000000000000d101cc01",
    "0009046cffffffffffffffffa2038b01",
    "00000000100000002100000003000000",
    "0075349a46",
];

/// Behind it: the properties of 256 bytes at 632, and the metaindex of 33 at 893.
static BEHIND_200: Behind = Behind {
    form: PLAIN,
    data_size: "b204",
    index_size: "46",
    blocks: "03",
    entries: "28",
    key_size: "9003",
    value_size: "28",
    checksum: "621a67b6",
    handle: "f8048002",
    metaindex_checksum: "20a30cba",
    footer: "01fd0621b20441",
};

/// Appends a data block of the entries from one number up to another, and its trailer. The first row shares nothing, and
/// the others share the byte `k`.
fn put_numbered(alloc: Global, file: &mut Vec<u8>, block: (u8, u8, &str)) -> Result<(), Fail> {
    let (first, end, checksum) = block;
    for number in first..end {
        let front = if number == first {
            "000a016b"
        } else {
            "010901"
        };
        let value = number | 0x40;
        let row = format!(in alloc; "{front}{number:02x}0101000000000000{value:02x}")?;
        put_hex(alloc, file, &[row.as_str()])?;
    }
    put_hex(alloc, file, &[END, checksum])
}

#[test]
fn forty_entries(rt: HostRuntime) -> Result<(), Fail> {
    let lines = numbered_lines(rt.alloc(), 40)?;
    let mut file = Vec::new(rt.alloc());
    for block in BLOCKS_OF_64 {
        put_numbered(rt.alloc(), &mut file, block)?;
    }
    put_hex(rt.alloc(), &mut file, &INDEX_OF_64)?;
    put_behind(rt.alloc(), &mut file, &BEHIND_64)?;
    assert_eq!(rt; file.len(), 1151);
    assert_written(&rt, rt.alloc(), &["block=64"], &lines, &file, "wrote 40\n")?;
    let mut file = Vec::new(rt.alloc());
    for block in BLOCKS_OF_200 {
        put_numbered(rt.alloc(), &mut file, block)?;
    }
    put_hex(rt.alloc(), &mut file, &INDEX_OF_200)?;
    put_behind(rt.alloc(), &mut file, &BEHIND_200)?;
    assert_eq!(rt; file.len(), 984);
    assert_written(&rt, rt.alloc(), &["block=200"], &lines, &file, "wrote 40\n")
}

/// Options by which the greatest keys are written. From version 3 on their separators are user keys.
static OF_GREATEST: [&[&str]; 3] = [
    &["block=64"],
    &["block=4096"],
    &["block=64", "version=4", "parts=1"],
];

// Behind the last entry there is nowhere, and no way back from there.
#[test]
fn the_greatest_keys(rt: HostRuntime) -> Result<(), Fail> {
    // A value of a byte, and one that fills a block of 64.
    for value in ["61", VALUE] {
        let lines = format!(in rt.alloc(); "ff 1 P {value}\nffff 1 P 62\n")?;
        let calls = "seek ffff 0\nprev\nlast\nprev\nprev\n";
        let text = format!(in rt.alloc();
            "none\nnot-positioned\nffff 1 P 62\nff 1 P {value}\nnone\n"
        )?;
        for options in OF_GREATEST {
            let file = file_with_options(rt.alloc(), options, lines.as_str())?;
            assert_answered(rt.alloc(), &file, calls, text.as_str())?;
        }
    }
    Ok(())
}
