//! Lists written with an index of another form: `sst write block one.sst` with `version=N` and `parts=N`.
//!
//! From version 3 on the separators of an index are user keys, where no two neighbouring data blocks share one; in version 4
//! its handles are differences; and with parts it has two levels: parts of N rows, and the top block behind them, which leads
//! to them. The bytes of the files are those of an independent program, in hex digits; their places and sizes are worked by
//! hand in the comments beside them.
//!
//! RocksDB: `ShortenedIndexBuilder` and `PartitionedIndexBuilder` in table/block_based/index_builder.h, `IndexValue::EncodeTo`
//! in table/format.cc.
use crate::files::{Written, assert_files};
use crate::many_blocks::{END, VALUE, VERSION_BLOCKS, VERSION_LINES};
use crate::written_file::{Behind, Form};
use std::test::Fail;

/// The lines of the user keys ab and aq, each with a value of 60 bytes.
const APART_LINES: &[&str] = &["6162 3 P ", VALUE, "\n6171 3 P ", VALUE, "\n"];

/// The lines of the user keys ab, ad and af: the values have 79 bytes, 69 and none.
pub(crate) const THREE_LINES: &[&str] = &[
    "6162 1 P ",
    VALUE,
    "76767676767676767676767676767676767676",
    "\n6164 1 P ",
    VALUE,
    "767676767676767676",
    "\n6166 1 P -\n",
];

/// Lists of several data blocks, and the files that are written for them.
static FORMS: [Written; 6] = [
    // Version 3. The versions share their user key, so that the separators are stored keys, and the index at 255 has the bytes that
    // it has in version 2: the handles (0, 80), (85, 80) and (170, 80), and a restart at each row. The properties of 256 bytes at
    // 319, and the metaindex of 33 at 580.
    Written {
        options: &["block=64", "version=3"],
        lines: VERSION_LINES,
        text: "wrote 3\n",
        length: 671,
        data: VERSION_BLOCKS,
        index: &[
            "0009026b0109000000000000",
            "0050",
            "0009026b0105000000000000",
            "5550",
            "0009036b0102000000000000",
            "aa0150",
            "000000000e0000001c00000003000000",
            "00860d2956",
        ],
        behind: Behind {
            form: Form {
                version: "03",
                index_type: "00000000",
                user_key: "00",
                delta: "00",
            },
            data_size: "ff01",
            index_size: "40",
            blocks: "03",
            entries: "03",
            key_size: "1b",
            value_size: "b401",
            checksum: "c56a6f88",
            handle: "bf028002",
            metaindex_checksum: "9cb52a01",
            footer: "01c40421ff013b",
        },
    },
    // Version 4. The one restart begins all rows of the index, of 41 bytes at 255: no row has a length of its value, and the second
    // and the third share the user key and the kind, and have the difference of the sizes, 0. The properties at 301, and the
    // metaindex at 562.
    Written {
        options: &["block=64", "version=4", "index-restart=16"],
        lines: VERSION_LINES,
        text: "wrote 3\n",
        length: 653,
        data: VERSION_BLOCKS,
        index: &[
            "00096b0109000000000000",
            "0050",
            "02070500000000000000",
            "02070200000000000000",
            "0000000001000000",
            "00e3d9b80c",
        ],
        behind: Behind {
            form: Form {
                version: "04",
                index_type: "00000000",
                user_key: "00",
                delta: "01",
            },
            data_size: "ff01",
            index_size: "2e",
            blocks: "03",
            entries: "03",
            key_size: "1b",
            value_size: "b401",
            checksum: "1c899324",
            handle: "ad028002",
            metaindex_checksum: "7afa3728",
            footer: "01b20421ff0129",
        },
    },
    // Parts of two rows in version 2: of 40 bytes at 255 and of 23 at 300. The top block, of 42 at 328, leads to them by their last
    // separators, k at 5 and at 2. With their trailers the three have 120 bytes, 0x78. The properties at 375, and the metaindex at
    // 636.
    Written {
        options: &["block=64", "parts=2"],
        lines: VERSION_LINES,
        text: "wrote 3\n",
        length: 727,
        data: VERSION_BLOCKS,
        index: &[
            "0009026b0109000000000000",
            "0050",
            "0009026b0105000000000000",
            "5550",
            "000000000e00000002000000",
            "00c812b472",
            "0009036b0102000000000000",
            "aa0150",
            "0000000001000000",
            "00a7bf17d9",
            "0009036b0105000000000000",
            "ff0128",
            "0009036b0102000000000000",
            "ac0217",
            "000000000f00000002000000",
            "005dd7439c",
        ],
        behind: Behind {
            form: Form {
                version: "02",
                index_type: "02000000",
                user_key: "00",
                delta: "00",
            },
            data_size: "ff01",
            index_size: "78",
            blocks: "03",
            entries: "03",
            key_size: "1b",
            value_size: "b401",
            checksum: "2f190feb",
            handle: "f7028002",
            metaindex_checksum: "5fbf8f81",
            footer: "01fc0421c8022a",
        },
    },
    // The same in version 4 with the one restart of a block: the parts have 31 bytes at 255 and 22 at 291, and the top block 32 at
    // 318. The second row of the top block has the difference 22 - 31 of the sizes, -9, which is 0x11. The properties at 355, and
    // the metaindex at 616.
    Written {
        options: &["block=64", "version=4", "parts=2", "index-restart=16"],
        lines: VERSION_LINES,
        text: "wrote 3\n",
        length: 707,
        data: VERSION_BLOCKS,
        index: &[
            "00096b0109000000000000",
            "0050",
            "02070500000000000000",
            "0000000001000000",
            "00afc4a84d",
            "00096b0102000000000000",
            "aa0150",
            "0000000001000000",
            "004e4a8365",
            "00096b0105000000000000",
            "ff011f",
            "02070200000000000011",
            "0000000001000000",
            "0044718ba2",
        ],
        behind: Behind {
            form: Form {
                version: "04",
                index_type: "02000000",
                user_key: "00",
                delta: "01",
            },
            data_size: "ff01",
            index_size: "64",
            blocks: "03",
            entries: "03",
            key_size: "1b",
            value_size: "b401",
            checksum: "1e4ee69d",
            handle: "e3028002",
            metaindex_checksum: "103f26c9",
            footer: "01e80421be0220",
        },
    },
    // User keys in version 3: two data blocks of 81 bytes. The separator of the first is ab, since the first byte is the same and the
    // key ends with the next one; behind the last stands b. The index is at 172, the properties of 255 bytes at 202, and the
    // metaindex at 462.
    Written {
        options: &["block=64", "version=3"],
        lines: APART_LINES,
        text: "wrote 2\n",
        length: 553,
        data: &[
            "000a3c61620103000000000000",
            VALUE,
            END,
            "c88be91a",
            "000a3c61710103000000000000",
            VALUE,
            END,
            "151e14da",
        ],
        index: &[
            "0002026162",
            "0051",
            "00010262",
            "5651",
            "000000000700000002000000",
            "00610d1abd",
        ],
        behind: Behind {
            form: Form {
                version: "03",
                index_type: "00000000",
                user_key: "01",
                delta: "00",
            },
            data_size: "ac01",
            index_size: "1e",
            blocks: "02",
            entries: "02",
            key_size: "14",
            value_size: "78",
            checksum: "a2d4448e",
            handle: "ca01ff01",
            metaindex_checksum: "8a792a61",
            footer: "01ce0321ac0119",
        },
    },
    // User keys, differences and parts of two rows: three data blocks of 100 bytes, 90 and 21. In the first part, of 18 bytes at 226,
    // ad shares a with ab, and has the difference 90 - 100, -10, which is 0x13. The second part, of 14 bytes at 249, has b alone.
    // The rows of the top block, at 268, share nothing. The properties at 294, and the metaindex at 555.
    Written {
        options: &["block=64", "version=4", "parts=2", "index-restart=16"],
        lines: THREE_LINES,
        text: "wrote 3\n",
        length: 646,
        data: &[
            "000a4f61620101000000000000",
            VALUE,
            "76767676767676767676767676767676767676",
            END,
            "98db97f1",
            "000a4561640101000000000000",
            VALUE,
            "767676767676767676",
            END,
            "5baa5672",
            "000a0061660101000000000000",
            END,
            "6691dc79",
        ],
        index: &[
            "00026162",
            "0064",
            "010164",
            "13",
            "0000000001000000",
            "007d833ac4",
            "000162",
            "c80115",
            "0000000001000000",
            "004df643b6",
            "00026164",
            "e20112",
            "000162",
            "f9010e",
            "0000000001000000",
            "00214d75b5",
        ],
        behind: Behind {
            form: Form {
                version: "04",
                index_type: "02000000",
                user_key: "01",
                delta: "01",
            },
            data_size: "e201",
            index_size: "44",
            blocks: "03",
            entries: "03",
            key_size: "1e",
            value_size: "9401",
            checksum: "ada9f9c8",
            handle: "a6028002",
            metaindex_checksum: "8d96db21",
            footer: "01ab04218c0215",
        },
    },
];

#[test]
fn files_of_versions(rt: HostRuntime) -> Result<(), Fail> {
    assert_files(&rt, rt.alloc(), &FORMS)
}
