//! Files of the line `61 1 P 78` with names that a reader passes by, or whose values are good.
//!
//! RocksDB: `ReadPropertiesHelper` in table/meta_blocks.cc keeps names that it doesn't know.
use sst_tests_shared::asserting::assert_answered;
use sst_tests_shared::named_file::{
    COMPARATOR, DELTA, EXTERNAL, GLOBAL, INDEX_TYPE, Named, PROPERTIES, USER_KEY, file_named,
};
use sst_tests_shared::small_file::{DATA, INDEX, ONE_RESTART, TAIL};
use sst_tests_shared::worked_run::put_hex;
use std::test::Fail;

/// Files with good properties, in the order of their names, or with a metaindex of other names: with or without the
/// properties of 8 bytes at 53.
static GOOD: [Named; 21] = [
    // None.
    Named::Properties(&[]),
    // Indexes of the types 0 and 1.
    Named::Properties(&[(INDEX_TYPE, "00000000")]),
    Named::Properties(&[(INDEX_TYPE, "01000000")]),
    // The bytewise order.
    Named::Properties(&[(
        COMPARATOR,
        "6c6576656c64622e4279746577697365436f6d70617261746f72",
    )]),
    // Version 1 of a file made outside a database; then the sequence number isn't looked at.
    Named::Properties(&[(EXTERNAL, "01000000")]),
    Named::Properties(&[(GLOBAL, "02"), (EXTERNAL, "01000000")]),
    // Nor is it without a version.
    Named::Properties(&[(GLOBAL, "ffffffffffffffff")]),
    Named::Properties(&[(GLOBAL, "")]),
    // Flags that aren't set.
    Named::Properties(&[(USER_KEY, "00")]),
    Named::Properties(&[(USER_KEY, "00"), (DELTA, "00")]),
    // An index whose key is a user key of nine bytes; one whose handle is told without its length; and a top block of one
    // part, which stands behind it.
    Named::Properties(&[(USER_KEY, "01")]),
    Named::Blocks(
        &[
            DATA,
            "00096101010000000000000015",
            ONE_RESTART,
            "00bf0ff45e",
        ],
        (26, 21),
        &[(DELTA, "01")],
    ),
    Named::Index(
        &[
            "0009026101010000000000003516",
            ONE_RESTART,
            "00a58c2990",
            INDEX,
        ],
        &[(INDEX_TYPE, "02000000")],
    ),
    // Names that nobody looks at: the empty one, one before all others, one that begins with another.
    Named::Properties(&[("", ""), ("a", "ff"), ("rocksdb.comparators", "00")]),
    Named::Names(&[]),
    Named::Names(&[(PROPERTIES, "3508")]),
    // Names that nobody looks at, whose values are no handles: the empty one, another; names near that of the
    // tombstones.
    Named::Names(&[("", "")]),
    Named::Names(&[("a", "8000"), (PROPERTIES, "3508")]),
    Named::Names(&[("rocksdb.range_de", ""), ("rocksdb.range_delx", "")]),
    // A handle that leads out of the file.
    Named::Names(&[("rocksdb.stats", "7f7f")]),
    // The properties are the bytes of the data block, read as names.
    Named::Names(&[(PROPERTIES, "0015")]),
];

#[test]
fn names_that_are_passed_by(rt: HostRuntime) -> Result<(), Fail> {
    let calls = "get 61 1\nget 61 0\nfirst\nnext\n";
    let text = "61 1 P 78\nnone\n61 1 P 78\nnone\n";
    for named in GOOD {
        let file = file_named(rt.alloc(), named)?;
        assert_answered(rt.alloc(), &file, calls, text)?;
    }
    Ok(())
}

/// The order of keys by its name.
static PAIRS: [(&str, &str); 1] = [(
    COMPARATOR,
    "6c6576656c64622e4279746577697365436f6d70617261746f72",
)];

// A file of these in hex digits, with checksums of an independent program.
#[test]
fn properties_in_digits(rt: HostRuntime) -> Result<(), Fail> {
    let mut file = Vec::new(rt.alloc());
    put_hex(
        rt.alloc(),
        &mut file,
        &[
            DATA,
            INDEX,
            // `rocksdb.comparator` and `leveldb.BytewiseComparator`.
            "00121a726f636b7364622e636f6d70617261746f72",
            "6c6576656c64622e4279746577697365436f6d70617261746f72",
            ONE_RESTART,
            "000cc6187f",
            // `rocksdb.properties`, and the handle (53, 55).
            "001202726f636b7364622e70726f706572746965733537",
            ONE_RESTART,
            "005a627413",
            "01711f1a16",
            TAIL,
        ],
    )?;
    let built = file_named(rt.alloc(), Named::Properties(&PAIRS))?;
    assert_eq!(rt; built.as_slice(), file.as_slice());
    Ok(())
}
