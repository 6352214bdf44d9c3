//! Damages of files whose index is in parts, or has user keys or differences of handles; and which of two is told.
//!
//! In the files of one part the data block of `61 1 P 78` stands at 0, the part at 26 and the top block behind it; in those of
//! two the data blocks at 0 and 26, the parts at 52 and 79, and the top block at 106. The damages are worked by hand from the
//! layout; the checksums are those of an independent program. Each damage of a block is tested by itself in
//! `sst_tests_blocks`.
//!
//! RocksDB: `PartitionIndexReader::CacheDependencies` in table/block_based/partitioned_index_reader.cc reads the parts of an index
//! in their order. That a part has a row, and that each is looked at before the data blocks to which it leads and these before
//! the next part, all before the first call, is this project's own.
use crate::damaged::assert_refused;
use sst_tests_shared::named_file::{DELTA, INDEX_TYPE, Named, USER_KEY, file_named};
use sst_tests_shared::small_file::{DATA, INDEX, INDEX_ROW, METAINDEX, ONE_RESTART, ROW};
use std::test::Fail;

/// That the index has two levels.
const PARTED: &[(&str, &str)] = &[(INDEX_TYPE, "02000000")];

/// Another checksum than that of a block.
const BAD: &str = "00deadbeef";

/// The row of a top block that leads to the part at 26, of 22 bytes.
const TOP_ROW: &str = "0009026101010000000000001a16";

/// That top block, of 22 bytes at 53, and its trailer.
const TOP: &str = "0009026101010000000000001a160000000001000000000946b60d";

/// The row of the second of two data blocks.
const SECOND_ROW: &str = "00090162010100000000000079";

/// The second data block and its trailer.
const SECOND_DATA: &str = "000901620101000000000000790000000001000000001be48205";

/// The row of the second of two parts, which leads to it.
const SECOND_PART: &str = "0009026201010000000000001a15";

/// The top block that leads to two parts, of 40 bytes, and its trailer.
const TOP_OF_TWO: &str =
    "00090261010100000000000034160009026201010000000000004f16000000000e0000000200000000e7b8f942";

/// Files with one damage.
static ONE: [(Named, &str); 11] = [
    // A part passes the end; has another checksum; is compressed.
    (
        Named::Blocks(
            &[
                DATA,
                INDEX,
                "0009036101010000000000001aff7f",
                ONE_RESTART,
                "00d7542010",
            ],
            (53, 23),
            PARTED,
        ),
        "out-of-file 26 16383",
    ),
    (
        Named::Blocks(&[DATA, INDEX_ROW, ONE_RESTART, BAD, TOP], (53, 22), PARTED),
        "checksum 26 22",
    ),
    (
        Named::Blocks(
            &[DATA, INDEX_ROW, ONE_RESTART, "0161a528bd", TOP],
            (53, 22),
            PARTED,
        ),
        "compressed 26 22 1",
    ),
    // The value of its row is no handle; two rows have one key; its restart isn't 0.
    (
        Named::Blocks(
            &[
                DATA,
                "00090161010100000000000000",
                ONE_RESTART,
                "003a0e1919",
                "0009026101010000000000001a15",
                ONE_RESTART,
                "00f4d59241",
            ],
            (52, 22),
            PARTED,
        ),
        "handle 26 0",
    ),
    (
        Named::Blocks(
            &[
                DATA,
                INDEX_ROW,
                INDEX_ROW,
                ONE_RESTART,
                "000720bf60",
                "0009026101010000000000001a24",
                ONE_RESTART,
                "00ac467214",
            ],
            (67, 22),
            PARTED,
        ),
        "disorder 26 14",
    ),
    (
        Named::Blocks(
            &[
                DATA,
                "0100000001000000",
                "006dda1145",
                "0009026101010000000000001a08",
                ONE_RESTART,
                "008c98f29b",
            ],
            (39, 22),
            PARTED,
        ),
        "restart 26 0",
    ),
    // It has no row.
    (
        Named::Blocks(
            &[
                DATA,
                METAINDEX,
                "0009026101010000000000001a08",
                ONE_RESTART,
                "008c98f29b",
            ],
            (39, 22),
            PARTED,
        ),
        "empty-block 26 8",
    ),
    // What stands where a part is to be is a data block.
    (
        Named::Blocks(&[DATA, INDEX], (26, 22), PARTED),
        "handle 0 0",
    ),
    // The data block of a part.
    (
        Named::Blocks(&[ROW, ONE_RESTART, BAD, INDEX, TOP], (53, 22), PARTED),
        "checksum 0 21",
    ),
    // Two separators that are in order as stored keys, and not as user keys of nine bytes.
    (
        Named::Blocks(
            &[
                DATA,
                "0009026101020000000000000015",
                "0009026101010000000000001a15",
                ONE_RESTART,
                "0093f8ad81",
            ],
            (26, 36),
            &[(USER_KEY, "01")],
        ),
        "disorder 26 14",
    ),
    // The user keys a and ab: the second has the difference -22, and the first the size 21.
    (
        Named::Blocks(
            &[DATA, "0001610015", "0101622b", ONE_RESTART, "00541ed632"],
            (26, 17),
            &[(USER_KEY, "01"), (DELTA, "01")],
        ),
        "handle 26 5",
    ),
];

/// Files with two damages, and the first of them.
static FIRST_OF_TWO: [(Named, &str); 6] = [
    // The top block before a part: its checksum, and the handle of its second row.
    (
        Named::Blocks(
            &[DATA, INDEX_ROW, ONE_RESTART, BAD, TOP_ROW, ONE_RESTART, BAD],
            (53, 22),
            PARTED,
        ),
        "checksum 53 22",
    ),
    (
        Named::Blocks(
            &[
                DATA,
                INDEX_ROW,
                ONE_RESTART,
                BAD,
                TOP_ROW,
                "0009016201010000000000001a",
                "000000000e00000002000000",
                "00e8edd917",
            ],
            (53, 39),
            PARTED,
        ),
        "handle 53 14",
    ),
    // A part before its data block.
    (
        Named::Blocks(
            &[ROW, ONE_RESTART, BAD, INDEX_ROW, ONE_RESTART, BAD, TOP],
            (53, 22),
            PARTED,
        ),
        "checksum 26 22",
    ),
    // The data block of the first part before the second part, and the second part before its data block.
    (
        Named::Blocks(
            &[
                ROW,
                ONE_RESTART,
                BAD,
                SECOND_DATA,
                INDEX,
                SECOND_PART,
                ONE_RESTART,
                BAD,
                TOP_OF_TWO,
            ],
            (106, 40),
            PARTED,
        ),
        "checksum 0 21",
    ),
    (
        Named::Blocks(
            &[
                DATA,
                SECOND_ROW,
                ONE_RESTART,
                BAD,
                INDEX,
                SECOND_PART,
                ONE_RESTART,
                BAD,
                TOP_OF_TWO,
            ],
            (106, 40),
            PARTED,
        ),
        "checksum 79 22",
    ),
    // The data block of the second part alone.
    (
        Named::Blocks(
            &[
                DATA,
                SECOND_ROW,
                ONE_RESTART,
                BAD,
                INDEX,
                SECOND_PART,
                ONE_RESTART,
                "006c430451",
                TOP_OF_TWO,
            ],
            (106, 40),
            PARTED,
        ),
        "checksum 26 21",
    ),
];

#[test]
fn damaged_parts(rt: HostRuntime) -> Result<(), Fail> {
    for (named, damage) in ONE {
        let file = file_named(rt.alloc(), named)?;
        assert_refused(&rt, rt.alloc(), &file, damage)?;
    }
    for (named, damage) in FIRST_OF_TWO {
        let file = file_named(rt.alloc(), named)?;
        assert_refused(&rt, rt.alloc(), &file, damage)?;
    }
    Ok(())
}
