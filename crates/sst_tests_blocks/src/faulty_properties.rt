//! Tests of loading files whose properties are at fault, and of which fault is told first. The files are those of
//! [`crate::loaded_files`].
//!
//! RocksDB: `BlockBasedTable::Open` in table/block_based/block_based_table_reader.cc, `ReadTablePropertiesHelper` in
//! table/meta_blocks.cc.
use crate::loaded_files::{Pairs, assert_fault, file_with};
use sst_meta::{MetaFault, Name, names};
use std::test::Fail;

/// Properties that are at fault, and what is told first.
static FAULTY: [(Pairs<'static>, MetaFault); 56] = [
    // The order of keys: the last letter is another, a letter less, a letter more, and no name.
    (
        &[(names::COMPARATOR, b"leveldb.BytewiseComparatos")],
        MetaFault::Comparator,
    ),
    (
        &[(names::COMPARATOR, b"leveldb.BytewiseComparato")],
        MetaFault::Comparator,
    ),
    (
        &[(names::COMPARATOR, b"leveldb.BytewiseComparators")],
        MetaFault::Comparator,
    ),
    (&[(names::COMPARATOR, b"")], MetaFault::Comparator),
    // Types of index: 3, one whose low byte is 0, and the last.
    (
        &[(names::INDEX_TYPE, b"\x03\x00\x00\x00")],
        MetaFault::IndexType(3),
    ),
    (
        &[(names::INDEX_TYPE, b"\x00\x01\x00\x00")],
        MetaFault::IndexType(256),
    ),
    (
        &[(names::INDEX_TYPE, b"\xff\xff\xff\xff")],
        MetaFault::IndexType(4294967295),
    ),
    // No byte, three bytes, and five.
    (
        &[(names::INDEX_TYPE, b"")],
        MetaFault::BadProperty(Name::IndexType),
    ),
    (
        &[(names::INDEX_TYPE, b"\x00\x00\x00")],
        MetaFault::BadProperty(Name::IndexType),
    ),
    (
        &[(names::INDEX_TYPE, b"\x00\x00\x00\x00\x00")],
        MetaFault::BadProperty(Name::IndexType),
    ),
    // Version 2 without a sequence number.
    (
        &[(names::EXTERNAL_VERSION, b"\x02\x00\x00\x00")],
        MetaFault::MissingProperty(Name::GlobalSequence),
    ),
    // Its sequence number has no byte, seven, nine; it is 2^56, and the last of 64 bits.
    (
        &[
            (names::GLOBAL_SEQUENCE, b""),
            (names::EXTERNAL_VERSION, b"\x02\x00\x00\x00"),
        ],
        MetaFault::BadProperty(Name::GlobalSequence),
    ),
    (
        &[
            (names::GLOBAL_SEQUENCE, b"\x00\x00\x00\x00\x00\x00\x00"),
            (names::EXTERNAL_VERSION, b"\x02\x00\x00\x00"),
        ],
        MetaFault::BadProperty(Name::GlobalSequence),
    ),
    (
        &[
            (
                names::GLOBAL_SEQUENCE,
                b"\x00\x00\x00\x00\x00\x00\x00\x00\x00",
            ),
            (names::EXTERNAL_VERSION, b"\x02\x00\x00\x00"),
        ],
        MetaFault::BadProperty(Name::GlobalSequence),
    ),
    (
        &[
            (names::GLOBAL_SEQUENCE, b"\x00\x00\x00\x00\x00\x00\x00\x01"),
            (names::EXTERNAL_VERSION, b"\x02\x00\x00\x00"),
        ],
        MetaFault::BadProperty(Name::GlobalSequence),
    ),
    (
        &[
            (names::GLOBAL_SEQUENCE, b"\xff\xff\xff\xff\xff\xff\xff\xff"),
            (names::EXTERNAL_VERSION, b"\x02\x00\x00\x00"),
        ],
        MetaFault::BadProperty(Name::GlobalSequence),
    ),
    // Versions: 0, 3, one whose low byte is 2; no byte, three, five.
    (
        &[(names::EXTERNAL_VERSION, b"\x00\x00\x00\x00")],
        MetaFault::BadProperty(Name::ExternalVersion),
    ),
    (
        &[(names::EXTERNAL_VERSION, b"\x03\x00\x00\x00")],
        MetaFault::BadProperty(Name::ExternalVersion),
    ),
    (
        &[(names::EXTERNAL_VERSION, b"\x02\x00\x00\x01")],
        MetaFault::BadProperty(Name::ExternalVersion),
    ),
    (
        &[(names::EXTERNAL_VERSION, b"")],
        MetaFault::BadProperty(Name::ExternalVersion),
    ),
    (
        &[(names::EXTERNAL_VERSION, b"\x02\x00\x00")],
        MetaFault::BadProperty(Name::ExternalVersion),
    ),
    (
        &[(names::EXTERNAL_VERSION, b"\x02\x00\x00\x00\x00")],
        MetaFault::BadProperty(Name::ExternalVersion),
    ),
    // Whether the index has user keys: no byte; `80 00`; a byte behind the number; one cut short; 2^64.
    (
        &[(names::INDEX_KEY_IS_USER_KEY, b"")],
        MetaFault::BadProperty(Name::IndexKeyIsUserKey),
    ),
    (
        &[(names::INDEX_KEY_IS_USER_KEY, b"\x80\x00")],
        MetaFault::BadProperty(Name::IndexKeyIsUserKey),
    ),
    (
        &[(names::INDEX_KEY_IS_USER_KEY, b"\x00\x00")],
        MetaFault::BadProperty(Name::IndexKeyIsUserKey),
    ),
    (
        &[(names::INDEX_KEY_IS_USER_KEY, b"\x80")],
        MetaFault::BadProperty(Name::IndexKeyIsUserKey),
    ),
    (
        &[(
            names::INDEX_KEY_IS_USER_KEY,
            b"\x80\x80\x80\x80\x80\x80\x80\x80\x80\x02",
        )],
        MetaFault::BadProperty(Name::IndexKeyIsUserKey),
    ),
    // The same of the handles of the index, told by their differences.
    (
        &[(names::INDEX_VALUE_IS_DELTA_ENCODED, b"")],
        MetaFault::BadProperty(Name::IndexValueIsDeltaEncoded),
    ),
    (
        &[(names::INDEX_VALUE_IS_DELTA_ENCODED, b"\x80\x00")],
        MetaFault::BadProperty(Name::IndexValueIsDeltaEncoded),
    ),
    (
        &[(names::INDEX_VALUE_IS_DELTA_ENCODED, b"\x00\x00")],
        MetaFault::BadProperty(Name::IndexValueIsDeltaEncoded),
    ),
    (
        &[(names::INDEX_VALUE_IS_DELTA_ENCODED, b"\x80")],
        MetaFault::BadProperty(Name::IndexValueIsDeltaEncoded),
    ),
    (
        &[(
            names::INDEX_VALUE_IS_DELTA_ENCODED,
            b"\x80\x80\x80\x80\x80\x80\x80\x80\x80\x02",
        )],
        MetaFault::BadProperty(Name::IndexValueIsDeltaEncoded),
    ),
    // A sequence number for all entries: 0, and the last; and 0 beside an index of another form.
    (
        &[
            (names::GLOBAL_SEQUENCE, b"\x00\x00\x00\x00\x00\x00\x00\x00"),
            (names::EXTERNAL_VERSION, b"\x02\x00\x00\x00"),
        ],
        MetaFault::NotYet,
    ),
    (
        &[
            (names::GLOBAL_SEQUENCE, b"\xff\xff\xff\xff\xff\xff\xff\x00"),
            (names::EXTERNAL_VERSION, b"\x02\x00\x00\x00"),
        ],
        MetaFault::NotYet,
    ),
    (
        &[
            (names::INDEX_TYPE, b"\x02\x00\x00\x00"),
            (names::GLOBAL_SEQUENCE, b"\x00\x00\x00\x00\x00\x00\x00\x00"),
            (names::EXTERNAL_VERSION, b"\x02\x00\x00\x00"),
            (names::INDEX_KEY_IS_USER_KEY, b"\x01"),
            (names::INDEX_VALUE_IS_DELTA_ENCODED, b"\x01"),
        ],
        MetaFault::NotYet,
    ),
    // The order of keys before the type of the index, and before a mark, which isn't read yet.
    (
        &[
            (names::INDEX_TYPE, b"\x03\x00\x00\x00"),
            (names::COMPARATOR, b""),
        ],
        MetaFault::Comparator,
    ),
    (
        &[(names::INDEX_TYPE, b"\x00"), (names::COMPARATOR, b"")],
        MetaFault::Comparator,
    ),
    (
        &[
            (names::COMPARATOR, b""),
            (names::GLOBAL_SEQUENCE, b"\x00\x00\x00\x00\x00\x00\x00\x00"),
            (names::EXTERNAL_VERSION, b"\x02\x00\x00\x00"),
        ],
        MetaFault::Comparator,
    ),
    // The type of the index before the sequence number.
    (
        &[
            (names::INDEX_TYPE, b"\x03\x00\x00\x00"),
            (names::EXTERNAL_VERSION, b"\x02\x00\x00\x00"),
        ],
        MetaFault::IndexType(3),
    ),
    (
        &[
            (names::INDEX_TYPE, b"\x00"),
            (names::EXTERNAL_VERSION, b"\x02\x00\x00\x00"),
        ],
        MetaFault::BadProperty(Name::IndexType),
    ),
    // The sequence number before the flags: it is missing, and it is too great.
    (
        &[
            (names::EXTERNAL_VERSION, b"\x02\x00\x00\x00"),
            (names::INDEX_KEY_IS_USER_KEY, b"\x80\x00"),
        ],
        MetaFault::MissingProperty(Name::GlobalSequence),
    ),
    (
        &[
            (names::GLOBAL_SEQUENCE, b"\x00\x00\x00\x00\x00\x00\x00\x01"),
            (names::EXTERNAL_VERSION, b"\x02\x00\x00\x00"),
            (names::INDEX_KEY_IS_USER_KEY, b"\x80\x00"),
            (names::INDEX_VALUE_IS_DELTA_ENCODED, b""),
        ],
        MetaFault::BadProperty(Name::GlobalSequence),
    ),
    // The version before the flags.
    (
        &[
            (names::EXTERNAL_VERSION, b"\x03\x00\x00\x00"),
            (names::INDEX_KEY_IS_USER_KEY, b""),
        ],
        MetaFault::BadProperty(Name::ExternalVersion),
    ),
    (
        &[
            (names::EXTERNAL_VERSION, b""),
            (names::INDEX_VALUE_IS_DELTA_ENCODED, b""),
        ],
        MetaFault::BadProperty(Name::ExternalVersion),
    ),
    // One flag before the other.
    (
        &[
            (names::INDEX_KEY_IS_USER_KEY, b""),
            (names::INDEX_VALUE_IS_DELTA_ENCODED, b""),
        ],
        MetaFault::BadProperty(Name::IndexKeyIsUserKey),
    ),
    // Each beside an index of another form.
    (
        &[
            (names::INDEX_TYPE, b"\x02\x00\x00\x00"),
            (names::EXTERNAL_VERSION, b"\x02\x00\x00\x00"),
            (names::INDEX_KEY_IS_USER_KEY, b"\x01"),
            (names::INDEX_VALUE_IS_DELTA_ENCODED, b"\x01"),
        ],
        MetaFault::MissingProperty(Name::GlobalSequence),
    ),
    (
        &[
            (names::INDEX_TYPE, b"\x02\x00\x00\x00"),
            (names::EXTERNAL_VERSION, b"\x03\x00\x00\x00"),
            (names::INDEX_KEY_IS_USER_KEY, b"\x01"),
            (names::INDEX_VALUE_IS_DELTA_ENCODED, b"\x01"),
        ],
        MetaFault::BadProperty(Name::ExternalVersion),
    ),
    (
        &[
            (names::INDEX_TYPE, b"\x02\x00\x00\x00"),
            (names::INDEX_KEY_IS_USER_KEY, b""),
        ],
        MetaFault::BadProperty(Name::IndexKeyIsUserKey),
    ),
    // Either flag before the mark.
    (
        &[
            (names::GLOBAL_SEQUENCE, b"\x00\x00\x00\x00\x00\x00\x00\x00"),
            (names::EXTERNAL_VERSION, b"\x02\x00\x00\x00"),
            (names::INDEX_KEY_IS_USER_KEY, b""),
        ],
        MetaFault::BadProperty(Name::IndexKeyIsUserKey),
    ),
    (
        &[
            (names::GLOBAL_SEQUENCE, b"\x00\x00\x00\x00\x00\x00\x00\x00"),
            (names::EXTERNAL_VERSION, b"\x02\x00\x00\x00"),
            (names::INDEX_KEY_IS_USER_KEY, b"\x01"),
            (names::INDEX_VALUE_IS_DELTA_ENCODED, b"\x80\x00"),
        ],
        MetaFault::BadProperty(Name::IndexValueIsDeltaEncoded),
    ),
    // Another order of RocksDB; other numbers of the type, the version and the flags; and a mark whose version is looked at first.
    (
        &[(names::COMPARATOR, b"rocksdb.ReverseBytewiseComparator")],
        MetaFault::Comparator,
    ),
    (
        &[(names::INDEX_TYPE, b""), (names::COMPARATOR, b"")],
        MetaFault::Comparator,
    ),
    (
        &[(names::INDEX_TYPE, b"\x01\0\0\x01")],
        MetaFault::IndexType(0x0100_0001),
    ),
    (
        &[
            (names::INDEX_TYPE, b"\x02\0\0\0"),
            (names::INDEX_VALUE_IS_DELTA_ENCODED, b""),
        ],
        MetaFault::BadProperty(Name::IndexValueIsDeltaEncoded),
    ),
    (
        &[(names::EXTERNAL_VERSION, b"\x02")],
        MetaFault::BadProperty(Name::ExternalVersion),
    ),
    (
        &[
            (names::GLOBAL_SEQUENCE, b"\0\0\0\0\0\0\0\x01"),
            (names::EXTERNAL_VERSION, b"\x03\0\0\0"),
        ],
        MetaFault::BadProperty(Name::ExternalVersion),
    ),
];

#[test]
fn properties_that_are_faults(rt: HostRuntime) -> Result<(), Fail> {
    for (pairs, fault) in FAULTY {
        let file = file_with(rt.alloc(), pairs)?;
        assert_fault(&rt, rt.alloc(), &file, fault)?;
    }
    Ok(())
}
