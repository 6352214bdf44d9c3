//! Damaged files: `sst calls FILE` where FILE is no block-based table, is of a form that isn't built yet, or has a damage;
//! each damage by its name. [`crate::two_damages`] says which of two is told.
//!
//! Each row of a table is a file without properties that are good, in pieces of hex digits, and what is printed after
//! `damage`. Most come of the file that [`sst_tests_shared::small_file`] tells, or of the two that [`crate::pieces`] tells.
//! The damages are worked by hand from the layout; the checksums are those of an independent program. Each damage of a block
//! or a footer is tested by itself in `sst_tests_blocks`.
//!
//! RocksDB: `Footer::DecodeFrom` in table/format.cc, `BlockFetcher` in table/block_fetcher.cc, `Block` and `DecodeEntry` in
//! table/block_based/block.cc. That all blocks are looked at before the first call is this project's own.
use crate::pieces::{
    CUCKOO_MAGIC, FIRST, FRONT_OF_TWO, INDEX_OF_TWO, LEGACY_MAGIC, LEGACY_PLAIN_MAGIC, PLAIN_MAGIC,
    RESTARTS, SECOND,
};
use sst_cli::Status;
use sst_tests_shared::small_file::{
    DATA, FRONT, INDEX, INDEX_ROW, MAGIC, METAINDEX, ONE_RESTART, ROW, TAIL, VERSION, ZEROS,
};
use sst_tests_shared::worked_run::{NAME, answered, holds, other_is_as_it_was, printed, put_hex};
use std::alloc::Global;
use std::process::Abort;
use std::test::Fail;

/// Asserts that the file is refused with this damage, and that no file changes.
pub(crate) fn assert_refused(
    rt: &impl Abort,
    alloc: Global,
    file: &[u8],
    damage: &str,
) -> Result<(), Fail> {
    let ran = answered(alloc, file, b"first\n")?;
    let text = format!(in alloc; "damage {damage}\n")?;
    assert_eq!(rt; ran.status, Status::File, "with {damage}");
    assert!(rt; printed(&ran, text.as_str()), "with {damage}");
    assert!(rt; holds(&ran, NAME, file), "with {damage}");
    assert!(rt; other_is_as_it_was(&ran), "with {damage}");
    Ok(())
}

/// Asserts that each of these files is refused with its damage.
pub(crate) fn assert_damaged(
    rt: &impl Abort,
    alloc: Global,
    rows: &[(&[&str], &str)],
) -> Result<(), Fail> {
    for (pieces, damage) in rows {
        let mut file = Vec::new(alloc);
        put_hex(alloc, &mut file, pieces)?;
        assert_refused(rt, alloc, &file, damage)?;
    }
    Ok(())
}

/// Files with one damage.
static ONE: [(&[&str], &str); 44] = [
    // No byte; one byte less than a footer; a byte more at the end.
    (&[], "not-table"),
    (&["35081a16", TAIL], "not-table"),
    (&[DATA, INDEX, METAINDEX, FRONT, TAIL, "00"], "not-table"),
    // Version 0 with a legacy footer; the next that is not read, and the last.
    (&["35081a16", ZEROS, LEGACY_MAGIC], "version 0"),
    (
        &[DATA, INDEX, METAINDEX, FRONT, ZEROS, "05000000", MAGIC],
        "version 5",
    ),
    (
        &[DATA, INDEX, METAINDEX, FRONT, ZEROS, "ffffffff", MAGIC],
        "version 4294967295",
    ),
    // Plain and cuckoo tables, the second with a legacy footer, the fourth with handles that are none.
    (
        &[DATA, INDEX, METAINDEX, FRONT, ZEROS, VERSION, PLAIN_MAGIC],
        "not-yet",
    ),
    (&["35081a16", ZEROS, LEGACY_PLAIN_MAGIC], "not-yet"),
    (&[FRONT, ZEROS, "01000000", CUCKOO_MAGIC], "not-yet"),
    (&["01ffffffff", ZEROS, VERSION, PLAIN_MAGIC], "not-yet"),
    // Types of checksum.
    (
        &[DATA, INDEX, METAINDEX, "0035081a16", TAIL],
        "checksum-type 0",
    ),
    (
        &[DATA, INDEX, METAINDEX, "ff35081a16", TAIL],
        "checksum-type 255",
    ),
    // A number with a byte too many in a handle, one of 2^64, and one that the 40 bytes cut.
    (
        &[
            DATA,
            INDEX,
            METAINDEX,
            "01b500081a16",
            "0000000000000000000000000000000000000000000000000000000000000000000000",
            VERSION,
            MAGIC,
        ],
        "footer",
    ),
    (
        &[
            DATA,
            INDEX,
            METAINDEX,
            "01",
            "80808080808080808002000000000000000000000000000000000000000000000000000000000000",
            VERSION,
            MAGIC,
        ],
        "footer",
    ),
    (
        &[
            DATA,
            INDEX,
            METAINDEX,
            "01",
            "ffffffffffffffffff01ffffffffffffffffff01ffffffffffffffffff01",
            "ffffffffffffffffffff",
            VERSION,
            MAGIC,
        ],
        "footer",
    ),
    // Four numbers that fill the 40 bytes are good; this handle leads out of the file.
    (
        &[
            DATA,
            INDEX,
            METAINDEX,
            "01",
            "ffffffffffffffffff01ffffffffffffffffff01ffffffffffffffffff01ffffffffffffffffff01",
            VERSION,
            MAGIC,
        ],
        "out-of-file 18446744073709551615 18446744073709551615",
    ),
    // The metaindex passes the end by one byte; a byte less, and what stands there has another checksum. The same of the index and the data block.
    (
        &[DATA, INDEX, METAINDEX, "0135091a16", TAIL],
        "out-of-file 53 9",
    ),
    (
        &[DATA, INDEX, METAINDEX, "0134091a16", TAIL],
        "checksum 52 9",
    ),
    (
        &[DATA, INDEX, METAINDEX, "0135081a24", TAIL],
        "out-of-file 26 36",
    ),
    (
        &[
            DATA,
            "000902610101000000000000003e",
            ONE_RESTART,
            "00a149932d",
            METAINDEX,
            FRONT,
            TAIL,
        ],
        "out-of-file 0 62",
    ),
    // An offset and a size whose sum passes 64 bits.
    (
        &[
            DATA,
            "00090b610101000000000000ffffffffffffffffff0101",
            ONE_RESTART,
            "00682265eb",
            METAINDEX,
            "013e081a1f",
            TAIL,
        ],
        "out-of-file 18446744073709551615 1",
    ),
    // Another checksum, and types of compression.
    (
        &[
            ROW,
            ONE_RESTART,
            "0084dd8875",
            INDEX,
            METAINDEX,
            FRONT,
            TAIL,
        ],
        "checksum 0 21",
    ),
    (
        &[DATA, INDEX, ONE_RESTART, "04b573a3c2", FRONT, TAIL],
        "compressed 53 8 4",
    ),
    (
        &[
            DATA,
            INDEX_ROW,
            ONE_RESTART,
            "07a2e2f877",
            METAINDEX,
            FRONT,
            TAIL,
        ],
        "compressed 26 22 7",
    ),
    (
        &[
            ROW,
            ONE_RESTART,
            "0153018576",
            INDEX,
            METAINDEX,
            FRONT,
            TAIL,
        ],
        "compressed 0 21 1",
    ),
    // The metaindex: its number of restarts, a row, the order of its names, a restart.
    (
        &[
            DATA,
            INDEX,
            "0000000000000000",
            "00a262ca73",
            "0135081a16",
            TAIL,
        ],
        "block-footer 53",
    ),
    (
        &[
            DATA,
            INDEX,
            "010000",
            ONE_RESTART,
            "00d82e05c0",
            "01350b1a16",
            TAIL,
        ],
        "row 53 0",
    ),
    (
        &[
            DATA,
            INDEX,
            "00010062",
            "00010061",
            ONE_RESTART,
            "0077fb6f38",
            "0135101a16",
            TAIL,
        ],
        "disorder 53 4",
    ),
    (
        &[
            DATA,
            INDEX,
            "0100000001000000",
            "006dda1145",
            "0135081a16",
            TAIL,
        ],
        "restart 53 0",
    ),
    // The index: its number of restarts, a key of seven bytes, its handle, the order of its keys, a second restart.
    (
        &[
            DATA,
            INDEX_ROW,
            "0000000000000000",
            "0054197d66",
            METAINDEX,
            "0135081a16",
            TAIL,
        ],
        "block-footer 26",
    ),
    (
        &[
            DATA,
            "000702010100000000000015",
            ONE_RESTART,
            "000a4b79e3",
            METAINDEX,
            "0133081a14",
            TAIL,
        ],
        "row 26 0",
    ),
    (
        &[
            DATA,
            "000900610101000000000000",
            ONE_RESTART,
            "005dac2627",
            METAINDEX,
            "0133081a14",
            TAIL,
        ],
        "handle 26 0",
    ),
    (
        &[
            DATA,
            INDEX_ROW,
            INDEX_ROW,
            ONE_RESTART,
            "000720bf60",
            METAINDEX,
            "0143081a24",
            TAIL,
        ],
        "disorder 26 14",
    ),
    (
        &[
            DATA,
            INDEX_ROW,
            "000000000100000002000000",
            "00d43bd828",
            METAINDEX,
            "0139081a1a",
            TAIL,
        ],
        "restart 26 1",
    ),
    // The data block: its number of restarts, a length with a byte too many, its kind, a restart.
    (
        &[
            ROW,
            "0000000000000000",
            "00666de0af",
            INDEX,
            METAINDEX,
            FRONT,
            TAIL,
        ],
        "block-footer 0",
    ),
    (
        &[
            "80000801010100000000000078",
            ONE_RESTART,
            "00384c0bd2",
            INDEX,
            METAINDEX,
            FRONT,
            TAIL,
        ],
        "row 0 0",
    ),
    (
        &[
            "000901610f0100000000000078",
            ONE_RESTART,
            "00a82dc48b",
            INDEX,
            METAINDEX,
            FRONT,
            TAIL,
        ],
        "kind 0 0",
    ),
    (
        &[
            ROW,
            "0100000001000000",
            "00a9051721",
            INDEX,
            METAINDEX,
            FRONT,
            TAIL,
        ],
        "restart 0 0",
    ),
    // A second row: it shares a byte more than there is; kind 4; the same key as the first. A second restart at a byte before it.
    (
        &[
            FIRST,
            "0a090162010100000000000079",
            RESTARTS,
            "00282658ed",
            INDEX_OF_TWO,
            METAINDEX,
            FRONT_OF_TWO,
            TAIL,
        ],
        "row 0 13",
    ),
    (
        &[
            FIRST,
            "00090162040100000000000079",
            RESTARTS,
            "005efa5355",
            INDEX_OF_TWO,
            METAINDEX,
            FRONT_OF_TWO,
            TAIL,
        ],
        "kind 0 13",
    ),
    (
        &[
            FIRST,
            "00090161010200000000000079",
            RESTARTS,
            "00e738877d",
            INDEX_OF_TWO,
            METAINDEX,
            FRONT_OF_TWO,
            TAIL,
        ],
        "disorder 0 13",
    ),
    (
        &[
            FIRST,
            SECOND,
            "000000000c00000002000000",
            "007f9fedfd",
            INDEX_OF_TWO,
            METAINDEX,
            FRONT_OF_TWO,
            TAIL,
        ],
        "restart 0 1",
    ),
    // The properties: a type of compression.
    (
        &[
            DATA,
            INDEX,
            ONE_RESTART,
            "0117ce9baa",
            "001202726f636b7364622e70726f706572746965733508",
            ONE_RESTART,
            "007c15f742",
            "01421f1a16",
            TAIL,
        ],
        "compressed 53 8 1",
    ),
    // A data block without a row.
    (
        &[
            DATA,
            "0009026101010000000000003508",
            ONE_RESTART,
            "0020427d22",
            METAINDEX,
            FRONT,
            TAIL,
        ],
        "empty-block 53 8",
    ),
];

#[test]
fn damaged_files(rt: HostRuntime) -> Result<(), Fail> {
    assert_damaged(&rt, rt.alloc(), &ONE)
}
