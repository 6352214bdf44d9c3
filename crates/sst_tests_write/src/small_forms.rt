//! One entry and none, written with an index of another form.
//!
//! The bytes of the files are those of an independent program, in hex digits; their places and sizes are worked by hand in
//! the comments beside them.
//!
//! RocksDB: `ShortenedIndexBuilder` and `PartitionedIndexBuilder` in table/block_based/index_builder.h.
use crate::files::{Written, assert_files, assert_wrote};
use crate::written_file::{Behind, Form, put_behind};
use sst_tests_shared::small_file::{DATA, INDEX, METAINDEX};
use sst_tests_shared::worked_run::{put_hex, written_with};
use std::test::Fail;

/// The list of the one entry `61 1 P 78`. Its data block stands at 0, and the index begins at 26.
static ONE_ENTRY: [Written; 4] = [
    // A separator that is a user key: the index has 14 bytes, the properties stand at 45, and the metaindex at 304.
    Written {
        options: &["version=3"],
        lines: &["61 1 P 78\n"],
        text: "wrote 1\n",
        length: 394,
        data: &[DATA],
        index: &["0001026100150000000001000000", "0046a42b27"],
        behind: Behind {
            form: Form {
                version: "03",
                index_type: "00000000",
                user_key: "01",
                delta: "00",
            },
            data_size: "1a",
            index_size: "13",
            blocks: "01",
            entries: "01",
            key_size: "09",
            value_size: "01",
            checksum: "1ae5601a",
            handle: "2dfe01",
            metaindex_checksum: "19d6d0d5",
            footer: "01b002201a0e",
        },
    },
    // And without a length of the value: a byte less.
    Written {
        options: &["version=4"],
        lines: &["61 1 P 78\n"],
        text: "wrote 1\n",
        length: 393,
        data: &[DATA],
        index: &["00016100150000000001000000", "001fe43b1b"],
        behind: Behind {
            form: Form {
                version: "04",
                index_type: "00000000",
                user_key: "01",
                delta: "01",
            },
            data_size: "1a",
            index_size: "12",
            blocks: "01",
            entries: "01",
            key_size: "09",
            value_size: "01",
            checksum: "e5e14254",
            handle: "2cfe01",
            metaindex_checksum: "7a74b03d",
            footer: "01af02201a0d",
        },
    },
    // A part of one row, which is the index of one block, and the top block of 22 bytes at 53: its row leads to (26, 22). The
    // properties at 80, and the metaindex at 339.
    Written {
        options: &["parts=1"],
        lines: &["61 1 P 78\n"],
        text: "wrote 1\n",
        length: 429,
        data: &[DATA],
        index: &[
            INDEX,
            "0009026101010000000000001a16",
            "0000000001000000",
            "000946b60d",
        ],
        behind: Behind {
            form: Form {
                version: "02",
                index_type: "02000000",
                user_key: "00",
                delta: "00",
            },
            data_size: "1a",
            index_size: "36",
            blocks: "01",
            entries: "01",
            key_size: "09",
            value_size: "01",
            checksum: "d26c4a4b",
            handle: "50fe01",
            metaindex_checksum: "2b6c4027",
            footer: "01d302203516",
        },
    },
    // All of these, and a part that isn't full: both blocks have 13 bytes, and the top block stands at 44. The properties at 62,
    // and the metaindex at 321.
    Written {
        options: &["version=4", "parts=65536", "index-restart=16"],
        lines: &["61 1 P 78\n"],
        text: "wrote 1\n",
        length: 411,
        data: &[DATA],
        index: &[
            "00016100150000000001000000",
            "001fe43b1b",
            "0001611a0d0000000001000000",
            "00b3c5b323",
        ],
        behind: Behind {
            form: Form {
                version: "04",
                index_type: "02000000",
                user_key: "01",
                delta: "01",
            },
            data_size: "1a",
            index_size: "24",
            blocks: "01",
            entries: "01",
            key_size: "09",
            value_size: "01",
            checksum: "bee20060",
            handle: "3efe01",
            metaindex_checksum: "0e694e1e",
            footer: "01c102202c0d",
        },
    },
];

#[test]
fn forms_of_one_entry(rt: HostRuntime) -> Result<(), Fail> {
    assert_files(&rt, rt.alloc(), &ONE_ENTRY)
}

/// Options by which the empty list is written, the version and the form that its properties tell, and their checksum. No two
/// blocks share a user key, so that from version 3 on the separators are user keys; and with parts the type is 2.
static NO_ENTRY: [(&[&str], Form, &str); 5] = [
    (
        &["version=3"],
        Form {
            version: "03",
            index_type: "00000000",
            user_key: "01",
            delta: "00",
        },
        "031e5845",
    ),
    (
        &["version=4"],
        Form {
            version: "04",
            index_type: "00000000",
            user_key: "01",
            delta: "01",
        },
        "32a2fb9c",
    ),
    (
        &["parts=1"],
        Form {
            version: "02",
            index_type: "02000000",
            user_key: "00",
            delta: "00",
        },
        "7c287269",
    ),
    (
        &["version=3", "parts=2"],
        Form {
            version: "03",
            index_type: "02000000",
            user_key: "01",
            delta: "00",
        },
        "f91e8212",
    ),
    (
        &["version=4", "parts=65536", "index-restart=16"],
        Form {
            version: "04",
            index_type: "02000000",
            user_key: "01",
            delta: "01",
        },
        "289bd5d9",
    ),
];

/// What stands behind the index of no data block, which has 8 bytes at 0.
fn behind_nothing(form: Form, checksum: &'static str) -> Behind {
    Behind {
        form,
        data_size: "00",
        index_size: "0d",
        blocks: "00",
        entries: "00",
        key_size: "00",
        value_size: "00",
        checksum,
        handle: "0dfe01",
        metaindex_checksum: "be7a84f5",
        footer: "019002200008",
    }
}

#[test]
fn forms_of_no_entry(rt: HostRuntime) -> Result<(), Fail> {
    for (options, form, checksum) in NO_ENTRY {
        let mut file = Vec::new(rt.alloc());
        // A block without a row, as a metaindex is that has no name.
        put_hex(rt.alloc(), &mut file, &[METAINDEX])?;
        put_behind(rt.alloc(), &mut file, &behind_nothing(form, checksum))?;
        let ran = written_with(rt.alloc(), options, b"")?;
        assert_wrote(&rt, &ran, &file, "wrote 0\n", options);
    }
    Ok(())
}
