//! Tests of the form of an index, as the properties of a file tell it. The files are those of [`crate::loaded_files`].
//!
//! RocksDB: `CreateIndexReader` in table/block_based/block_based_table_reader.cc; the values are those of
//! include/rocksdb/table.h and table/table_properties.cc.
use crate::loaded_files::{Pairs, file_of, file_with, load_of};
use sst_meta::{IndexForm, names};
use std::test::Fail;

/// A whole index of stored keys and whole handles.
const PLAIN: IndexForm = IndexForm {
    parted: false,
    user_key: false,
    delta: false,
};

/// One of two levels.
const PARTED: IndexForm = IndexForm {
    parted: true,
    user_key: false,
    delta: false,
};

/// One of user keys.
const USER_KEYS: IndexForm = IndexForm {
    parted: false,
    user_key: true,
    delta: false,
};

/// One with differences of handles.
const DIFFERENCES: IndexForm = IndexForm {
    parted: false,
    user_key: false,
    delta: true,
};

/// Properties, and the form of the index that they tell.
static FORMS: [(Pairs<'static>, IndexForm); 13] = [
    // Nothing is said of it, and all that may be said of a plain index; hash search makes no other form.
    (&[], PLAIN),
    (
        &[
            (names::INDEX_TYPE, b"\0\0\0\0"),
            (names::INDEX_KEY_IS_USER_KEY, b"\0"),
            (names::INDEX_VALUE_IS_DELTA_ENCODED, b"\0"),
        ],
        PLAIN,
    ),
    (&[(names::INDEX_TYPE, b"\x01\0\0\0")], PLAIN),
    // Another name says nothing of it.
    (&[(names::INDEX_SIZE, b"\x01")], PLAIN),
    (&[(names::INDEX_TYPE, b"\x02\0\0\0")], PARTED),
    // A flag is set where its number is 1, 128, and the last.
    (&[(names::INDEX_KEY_IS_USER_KEY, b"\x01")], USER_KEYS),
    (&[(names::INDEX_KEY_IS_USER_KEY, b"\x80\x01")], USER_KEYS),
    (
        &[(names::INDEX_VALUE_IS_DELTA_ENCODED, b"\x01")],
        DIFFERENCES,
    ),
    (
        &[(
            names::INDEX_VALUE_IS_DELTA_ENCODED,
            b"\xff\xff\xff\xff\xff\xff\xff\xff\xff\x01",
        )],
        DIFFERENCES,
    ),
    // All of these, and all but one.
    (
        &[
            (names::INDEX_TYPE, b"\x02\0\0\0"),
            (names::INDEX_KEY_IS_USER_KEY, b"\x01"),
            (names::INDEX_VALUE_IS_DELTA_ENCODED, b"\x01"),
        ],
        IndexForm {
            parted: true,
            user_key: true,
            delta: true,
        },
    ),
    (
        &[
            (names::INDEX_TYPE, b"\0\0\0\0"),
            (names::INDEX_KEY_IS_USER_KEY, b"\x01"),
            (names::INDEX_VALUE_IS_DELTA_ENCODED, b"\x01"),
        ],
        IndexForm {
            parted: false,
            user_key: true,
            delta: true,
        },
    ),
    (
        &[
            (names::INDEX_TYPE, b"\x02\0\0\0"),
            (names::INDEX_KEY_IS_USER_KEY, b"\0"),
            (names::INDEX_VALUE_IS_DELTA_ENCODED, b"\x01"),
        ],
        IndexForm {
            parted: true,
            user_key: false,
            delta: true,
        },
    ),
    (
        &[
            (names::INDEX_TYPE, b"\x02\0\0\0"),
            (names::INDEX_KEY_IS_USER_KEY, b"\x01"),
            (names::INDEX_VALUE_IS_DELTA_ENCODED, b"\0"),
        ],
        IndexForm {
            parted: true,
            user_key: true,
            delta: false,
        },
    ),
];

// A file without properties has a plain index.
#[test]
fn forms_that_files_tell(rt: HostRuntime) -> Result<(), Fail> {
    let file = file_of(rt.alloc(), &[])?;
    let loaded = load_of(rt.alloc(), &file)??;
    assert_eq!(rt; loaded.index_form(), PLAIN);
    for (pairs, form) in FORMS {
        let file = file_with(rt.alloc(), pairs)?;
        let loaded = load_of(rt.alloc(), &file)??;
        assert_eq!(rt; loaded.index_form(), form);
    }
    Ok(())
}
