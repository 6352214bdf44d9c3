//! Files with two damages or more, of which the first is told. [`crate::damaged`] says what the rows of the table are.
//!
//! RocksDB: the order is that of `BlockBasedTable::Open` in table/block_based/block_based_table_reader.cc.
use crate::damaged::assert_damaged;
use crate::pieces::{
    FIRST, FRONT_OF_TWO, INDEX_OF_TWO, INDEX_RESTARTS, PLAIN_MAGIC, RESTARTS, SECOND, SECOND_DATA,
    SECOND_INDEX_ROW, SECOND_ROW, TWO_BLOCKS_INDEX,
};
use sst_tests_shared::small_file::{
    DATA, FRONT, INDEX, INDEX_ROW, MAGIC, METAINDEX, ONE_RESTART, ROW, TAIL, VERSION, ZEROS,
};
use std::test::Fail;

/// Files with two damages or more, and the first of them.
static FIRST_OF_TWO: [(&[&str], &str); 30] = [
    // The version before the type of checksum, and that before the handles; the magic number before all of them.
    (
        &[
            DATA,
            INDEX,
            METAINDEX,
            "0035081a16",
            ZEROS,
            "09000000",
            MAGIC,
        ],
        "version 9",
    ),
    (
        &[DATA, INDEX, METAINDEX, "0480008000", TAIL],
        "checksum-type 4",
    ),
    (
        &[
            DATA,
            INDEX,
            METAINDEX,
            "00ff081a16",
            ZEROS,
            "09000000",
            PLAIN_MAGIC,
        ],
        "not-yet",
    ),
    // The handles before the blocks; the metaindex before the index; the index before the data block.
    (
        &[
            ROW,
            ONE_RESTART,
            "00deadbeef",
            INDEX,
            ONE_RESTART,
            "00deadbeef",
            "013508b40016",
            "0000000000000000000000000000000000000000000000000000000000000000000000",
            VERSION,
            MAGIC,
        ],
        "footer",
    ),
    (
        &[
            DATA,
            INDEX_ROW,
            ONE_RESTART,
            "00deadbeef",
            ONE_RESTART,
            "00deadbeef",
            FRONT,
            TAIL,
        ],
        "checksum 53 8",
    ),
    (
        &[
            ROW,
            ONE_RESTART,
            "00deadbeef",
            INDEX_ROW,
            ONE_RESTART,
            "00deadbeef",
            METAINDEX,
            FRONT,
            TAIL,
        ],
        "checksum 26 22",
    ),
    // A good row of the metaindex, and then the index; two good rows of the index, and then the data block.
    (
        &[
            DATA,
            INDEX_ROW,
            ONE_RESTART,
            "00deadbeef",
            "000000",
            ONE_RESTART,
            "00bb116558",
            "01350b1a16",
            TAIL,
        ],
        "checksum 26 22",
    ),
    (
        &[
            ROW,
            ONE_RESTART,
            "00deadbeef",
            INDEX_ROW,
            "0009026201010000000000000015",
            ONE_RESTART,
            "007f713532",
            METAINDEX,
            "0143081a24",
            TAIL,
        ],
        "checksum 0 21",
    ),
    // The place before the checksum, that before the type, and that before the rows.
    (
        &[
            ROW,
            ONE_RESTART,
            "00deadbeef",
            "000902610101000000000000003e",
            ONE_RESTART,
            "00a149932d",
            METAINDEX,
            FRONT,
            TAIL,
        ],
        "out-of-file 0 62",
    ),
    (
        &[
            ROW,
            ONE_RESTART,
            "01deadbeef",
            INDEX,
            METAINDEX,
            FRONT,
            TAIL,
        ],
        "checksum 0 21",
    ),
    (
        &[
            "00090161030100000000000078",
            ONE_RESTART,
            "01b716317f",
            INDEX,
            METAINDEX,
            FRONT,
            TAIL,
        ],
        "compressed 0 21 1",
    ),
    // A block's footer before its rows, and these before its restarts.
    (
        &[
            "00090161030100000000000078",
            "0000000001000080",
            "006723ddd1",
            INDEX,
            METAINDEX,
            FRONT,
            TAIL,
        ],
        "block-footer 0",
    ),
    (
        &[
            "00090161030100000000000078",
            "0100000001000000",
            "004d12bb18",
            INDEX,
            METAINDEX,
            FRONT,
            TAIL,
        ],
        "kind 0 0",
    ),
    // An earlier row before a later one; the kind before the order; a handle before the order.
    (
        &[
            "00090161030200000000000078",
            "0a090162010100000000000079",
            RESTARTS,
            "0022a7dcb4",
            INDEX_OF_TWO,
            METAINDEX,
            FRONT_OF_TWO,
            TAIL,
        ],
        "kind 0 0",
    ),
    (
        &[
            FIRST,
            "00090160030100000000000079",
            RESTARTS,
            "009ae64e30",
            INDEX_OF_TWO,
            METAINDEX,
            FRONT_OF_TWO,
            TAIL,
        ],
        "kind 0 13",
    ),
    (
        &[
            DATA,
            INDEX_ROW,
            "0009026001010000000000008000",
            ONE_RESTART,
            "00e748f28e",
            METAINDEX,
            "0143081a24",
            TAIL,
        ],
        "handle 26 14",
    ),
    // The first restart before the second.
    (
        &[
            FIRST,
            SECOND,
            "010000000000000002000000",
            "0053036bed",
            INDEX_OF_TWO,
            METAINDEX,
            FRONT_OF_TWO,
            TAIL,
        ],
        "restart 0 0",
    ),
    // The metaindex's checksum before its rows, and these before tombstones.
    (
        &[
            DATA,
            INDEX,
            "001102726f636b7364622e72616e67655f64656c0015",
            ONE_RESTART,
            "00deadbeef",
            "01351e1a16",
            TAIL,
        ],
        "checksum 53 30",
    ),
    (
        &[
            DATA,
            INDEX,
            "001102726f636b7364622e72616e67655f64656c0015",
            "001200726f636b7364622e70726f70657274696573",
            ONE_RESTART,
            "009be25cad",
            "0135331a16",
            TAIL,
        ],
        "disorder 53 22",
    ),
    // The handle of the properties, which has a byte more, before their order of keys; their checksum before their type; their restarts before their order of keys.
    (
        &[
            DATA,
            INDEX,
            "001200726f636b7364622e636f6d70617261746f72",
            ONE_RESTART,
            "007bb23b06",
            "001203726f636b7364622e70726f70657274696573351d00",
            ONE_RESTART,
            "00fa5e7f9c",
            "0157201a16",
            TAIL,
        ],
        "property rocksdb.properties",
    ),
    (
        &[
            DATA,
            INDEX,
            "0000000000000000",
            "01deadbeef",
            "001202726f636b7364622e70726f706572746965733508",
            ONE_RESTART,
            "007c15f742",
            "01421f1a16",
            TAIL,
        ],
        "checksum 53 8",
    ),
    (
        &[
            DATA,
            INDEX,
            "001200726f636b7364622e636f6d70617261746f72",
            "0100000001000000",
            "00b61aac71",
            "001202726f636b7364622e70726f70657274696573351d",
            ONE_RESTART,
            "0091cc8bb2",
            "01571f1a16",
            TAIL,
        ],
        "restart 53 0",
    ),
    // The second data block alone: another checksum, and a kind. The index leads past the end, and to a block without a row.
    (
        &[
            DATA,
            SECOND_ROW,
            ONE_RESTART,
            "00deadbeef",
            TWO_BLOCKS_INDEX,
            METAINDEX,
            "0161083428",
            TAIL,
        ],
        "checksum 26 21",
    ),
    (
        &[
            DATA,
            "000901620f0100000000000079",
            ONE_RESTART,
            "0017343efc",
            TWO_BLOCKS_INDEX,
            METAINDEX,
            "0161083428",
            TAIL,
        ],
        "kind 26 0",
    ),
    (
        &[
            DATA,
            SECOND_DATA,
            INDEX_ROW,
            "0009026201010000000000001a7f",
            INDEX_RESTARTS,
            "003e0e6431",
            METAINDEX,
            "0161083428",
            TAIL,
        ],
        "out-of-file 26 127",
    ),
    (
        &[
            DATA,
            ONE_RESTART,
            "00c0f2a1b0",
            "00000000000000000000000000",
            INDEX_ROW,
            "0009026201010000000000001a08",
            INDEX_RESTARTS,
            "00d2f195a8",
            METAINDEX,
            "0161083428",
            TAIL,
        ],
        "empty-block 26 8",
    ),
    // The index before the data blocks: its second row, its second restart.
    (
        &[
            ROW,
            ONE_RESTART,
            "00deadbeef",
            SECOND_DATA,
            INDEX_ROW,
            "0009026201010000000000001a80",
            INDEX_RESTARTS,
            "00d84ea669",
            METAINDEX,
            "0161083428",
            TAIL,
        ],
        "handle 52 14",
    ),
    (
        &[
            ROW,
            ONE_RESTART,
            "00deadbeef",
            SECOND_DATA,
            INDEX_ROW,
            SECOND_INDEX_ROW,
            "000000000f00000002000000",
            "00d60956dd",
            METAINDEX,
            "0161083428",
            TAIL,
        ],
        "restart 52 1",
    ),
    // The first data block before the second: its rows before the other's checksum. The order is that of the index.
    (
        &[
            "00090161030100000000000078",
            ONE_RESTART,
            "00e0b92c7d",
            SECOND_ROW,
            ONE_RESTART,
            "00deadbeef",
            TWO_BLOCKS_INDEX,
            METAINDEX,
            "0161083428",
            TAIL,
        ],
        "kind 0 0",
    ),
    (
        &[
            ROW,
            ONE_RESTART,
            "00deadbeef",
            SECOND_ROW,
            ONE_RESTART,
            "00deadbeef",
            "0009026101010000000000001a15",
            "0009026201010000000000000015",
            INDEX_RESTARTS,
            "005eb40ed3",
            METAINDEX,
            "0161083428",
            TAIL,
        ],
        "checksum 26 21",
    ),
];

#[test]
fn the_first_of_two_damages(rt: HostRuntime) -> Result<(), Fail> {
    assert_damaged(&rt, rt.alloc(), &FIRST_OF_TWO)
}
