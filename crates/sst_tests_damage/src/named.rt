//! Damages of what a file says of itself: of its metaindex and its properties; and marks that aren't read yet.
//!
//! The files are those of [`sst_tests_shared::named_file`]; the damages are worked by hand and told by an independent
//! program. Each damage of a property is tested by itself, and the order of them all, in `sst_tests_blocks`.
//!
//! RocksDB: `BlockBasedTable::Open` and `GetGlobalSequenceNumber` in table/block_based/block_based_table_reader.cc,
//! `ReadTablePropertiesHelper` in table/meta_blocks.cc; the names are in table/table_properties.cc,
//! table/block_based/block_based_table_factory.cc and table/sst_file_writer_collectors.h. That tombstones of ranges aren't
//! read is this project's own.
use crate::damaged::assert_refused;
use sst_tests_shared::named_file::{
    COMPARATOR, DELTA, EXTERNAL, GLOBAL, INDEX_TYPE, Named, PROPERTIES, RANGE_DEL, USER_KEY,
    file_named,
};
use sst_tests_shared::small_file::ONE_RESTART;
use sst_tests_shared::worked_run::file_of_lines;
use std::alloc::Global;
use std::test::Fail;

/// The row of the index, and another checksum.
const BAD_INDEX: &str = "0009026101010000000000000015000000000100000000deadbeef";

/// Files, and what is told of them.
static NAMED: [(Named, &str); 25] = [
    // Tombstones of ranges, before the properties.
    (Named::Names(&[(RANGE_DEL, "")]), "range-tombstones"),
    (
        Named::Names(&[(PROPERTIES, "35"), (RANGE_DEL, "0015")]),
        "range-tombstones",
    ),
    // The value of the properties is one number, and has a byte after the handle.
    (
        Named::Names(&[(PROPERTIES, "35")]),
        "property rocksdb.properties",
    ),
    (
        Named::Names(&[(PROPERTIES, "350800")]),
        "property rocksdb.properties",
    ),
    // The properties pass the end, and end there; a byte is left out.
    (Named::Names(&[(PROPERTIES, "352d")]), "out-of-file 53 45"),
    (Named::Names(&[(PROPERTIES, "352c")]), "checksum 53 44"),
    (Named::Names(&[(PROPERTIES, "3507")]), "checksum 53 7"),
    // Their block: its number of restarts, a row, the order of its names, a second restart where no row begins.
    (Named::Block(&["0000000002000000"]), "block-footer 53"),
    (Named::Block(&["00000261", ONE_RESTART]), "row 53 0"),
    (
        Named::Block(&["00010061", "00010061", ONE_RESTART]),
        "disorder 53 4",
    ),
    (
        Named::Block(&["00010061", "000000000100000002000000"]),
        "restart 53 1",
    ),
    // The order of keys, before the type of the index; other types.
    (
        Named::Properties(&[(INDEX_TYPE, "03000000"), (COMPARATOR, "")]),
        "comparator",
    ),
    (
        Named::Properties(&[(INDEX_TYPE, "03000000")]),
        "index-type 3",
    ),
    (
        Named::Properties(&[(INDEX_TYPE, "ffffffff")]),
        "index-type 4294967295",
    ),
    (
        Named::Properties(&[(INDEX_TYPE, "000000")]),
        "property rocksdb.block.based.table.index.type",
    ),
    // A mark of version 2 without a sequence number, and with one of 2^56; version 3; a flag cut short, of either name.
    (
        Named::Properties(&[(EXTERNAL, "02000000")]),
        "missing-property rocksdb.external_sst_file.global_seqno",
    ),
    (
        Named::Properties(&[(GLOBAL, "0000000000000001"), (EXTERNAL, "02000000")]),
        "property rocksdb.external_sst_file.global_seqno",
    ),
    (
        Named::Properties(&[(EXTERNAL, "03000000")]),
        "property rocksdb.external_sst_file.version",
    ),
    (
        Named::Properties(&[(USER_KEY, "80")]),
        "property rocksdb.index.key.is.user.key",
    ),
    (
        Named::Properties(&[(DELTA, "80")]),
        "property rocksdb.index.value.is.delta.encoded",
    ),
    // A sequence number for all entries, which isn't read yet; and the same before a bad index of another form.
    (
        Named::Properties(&[(GLOBAL, "0000000000000000"), (EXTERNAL, "02000000")]),
        "not-yet",
    ),
    (
        Named::Index(
            &[BAD_INDEX],
            &[
                (GLOBAL, "0000000000000000"),
                (EXTERNAL, "02000000"),
                (USER_KEY, "01"),
            ],
        ),
        "not-yet",
    ),
    // Differences of handles where they are told whole.
    (Named::Properties(&[(DELTA, "01")]), "row 26 13"),
    // Good properties: then comes the index.
    (
        Named::Index(&[BAD_INDEX], &[(INDEX_TYPE, "01000000")]),
        "checksum 26 22",
    ),
    (
        Named::Index(&[BAD_INDEX], &[(USER_KEY, "01")]),
        "checksum 26 22",
    ),
];

#[test]
fn what_files_say_of_themselves(rt: HostRuntime) -> Result<(), Fail> {
    for (named, damage) in NAMED {
        let file = file_named(rt.alloc(), named)?;
        assert_refused(&rt, rt.alloc(), &file, damage)?;
    }
    Ok(())
}

/// The file with other bytes from a place on.
fn changed(alloc: Global, file: &[u8], at: usize, new: &[u8]) -> Result<Vec<u8>, Fail> {
    let mut bytes = Vec::from_slice(alloc, file)?;
    for (i, byte) in new.iter().enumerate() {
        if let Some(place) = bytes.get_mut(at.saturating_add(i)) {
            *place = *byte;
        }
    }
    Ok(bytes)
}

// The comparator's last byte is at 134; the checksum of the properties, which are 254 bytes at 53, is at 308.
#[test]
fn a_written_file_with_another_comparator(rt: HostRuntime) -> Result<(), Fail> {
    let file = file_of_lines(rt.alloc(), "61 1 P 78\n")?;
    let other = changed(rt.alloc(), &file, 134, b"s")?;
    assert_refused(&rt, rt.alloc(), &other, "checksum 53 254")?;
    let other = changed(rt.alloc(), &other, 308, &[0x5a, 0x09, 0xc2, 0x14])?;
    assert_refused(&rt, rt.alloc(), &other, "comparator")
}
