//! Tests of loading, on the files of [`crate::loaded_files`]. Those whose properties are at fault are in
//! [`crate::faulty_properties`].
//!
//! RocksDB: `BlockBasedTable::Open` in table/block_based/block_based_table_reader.cc, `ReadTablePropertiesHelper` in
//! table/meta_blocks.cc.
use crate::loaded_files::{
    FIRST, INDEX, NAME, Pairs, assert_fault, file_at, file_of, file_with, load_of, put_end,
};
use sst_block::BlockFault;
use sst_device::{FrameFault, MemFolder};
use sst_key::Format;
use sst_meta::{Footer, MetaFault, MetaRow, MetaValue, Name, load, names, put_ending};
use sst_num::{Handle, Stop};
use std::test::Fail;

// The metaindex has no row: 8 bytes and a trailer of 5, and then the footer.
#[test]
fn no_names(rt: HostRuntime) -> Result<(), Fail> {
    let file = file_of(rt.alloc(), &[])?;
    let loaded = load_of(rt.alloc(), &file)??;
    let footer = Footer {
        format: Format::Block,
        legacy: false,
        version: 4,
        checksum: 1,
        meta: FIRST,
        index: INDEX,
    };
    assert_eq!(rt; loaded.len, 66);
    assert_eq!(rt; loaded.footer, footer);
    assert_eq!(rt; loaded.names.len(), 0);
    assert!(rt; loaded.props.is_none());
    Ok(())
}

/// So many zeros, and then the last bytes; and what is wrong with a file of these.
static ENDINGS: [(usize, &[u8], MetaFault); 9] = [
    (0, b"", MetaFault::NotTable),
    (60, b"", MetaFault::NotTable),
    // A file that is shorter than its footer is no table: a block-based one, one of version 0, and a plain one.
    (44, b"\xf7\xcf\xf4\x85\xb7\x41\xe2\x88", MetaFault::NotTable),
    (39, b"\x57\xfb\x80\x8b\x24\x75\x47\xdb", MetaFault::NotTable),
    (44, b"\x64\x95\xbf\x63\x96\x22\x42\x82", MetaFault::NotTable),
    (
        40,
        b"\x57\xfb\x80\x8b\x24\x75\x47\xdb",
        MetaFault::Version(0),
    ),
    // Another kind of table isn't read yet: plain, plain with a legacy footer, and cuckoo.
    (45, b"\x64\x95\xbf\x63\x96\x22\x42\x82", MetaFault::NotYet),
    (40, b"\xb8\x13\x8f\x7a\xeb\x18\x34\x4f", MetaFault::NotYet),
    (45, b"\x73\x78\xf1\xc5\xd0\x89\x67\x92", MetaFault::NotYet),
];

#[test]
fn other_endings(rt: HostRuntime) -> Result<(), Fail> {
    for (zeros, last, fault) in ENDINGS {
        let mut file = vec![in rt.alloc(); 0; zeros]?;
        file.extend_from_slice(last)?;
        assert_fault(&rt, rt.alloc(), &file, fault)?;
    }
    Ok(())
}

/// Blocks that stand as the metaindex, and what is wrong with the file.
static METAINDEXES: [(&[u8], MetaFault); 2] = [
    (&[0; 8], MetaFault::Block(FIRST, BlockFault::BadFooter)),
    (
        b"\x00\x01\x00b\x00\x01\x00a\0\0\0\0\x01\0\0\0",
        MetaFault::Block(
            Handle {
                offset: 0,
                size: 16,
            },
            BlockFault::Disorder(4),
        ),
    ),
];

// One that isn't there, one with another checksum, and those above.
#[test]
fn a_metaindex_that_is_a_fault(rt: HostRuntime) -> Result<(), Fail> {
    let mut file = Vec::new(rt.alloc());
    put_end(&mut file, INDEX)?;
    let fault = MetaFault::Frame(FrameFault::OutOfFile(INDEX));
    assert_fault(&rt, rt.alloc(), &file, fault)?;
    let mut file = vec![in rt.alloc(); 2; 13]?;
    put_end(&mut file, FIRST)?;
    let fault = MetaFault::Frame(FrameFault::Checksum(FIRST));
    assert_fault(&rt, rt.alloc(), &file, fault)?;
    for (block, fault) in METAINDEXES {
        let file = file_at(rt.alloc(), block)?;
        assert_fault(&rt, rt.alloc(), &file, fault)?;
    }
    Ok(())
}

/// Names of the metaindex and their values, and what is wrong with the file.
static NAMES: [(Pairs<'static>, MetaFault); 9] = [
    // The value of the properties is a handle and nothing else: no byte; one number; a byte behind the handle; `80 00` for
    // the offset, `88 00` for the size, and a size of 2^64.
    (
        &[(names::PROPERTIES, b"")],
        MetaFault::BadProperty(Name::Properties),
    ),
    (
        &[(names::PROPERTIES, b"\x00")],
        MetaFault::BadProperty(Name::Properties),
    ),
    (
        &[(names::PROPERTIES, b"\x00\x08\x00")],
        MetaFault::BadProperty(Name::Properties),
    ),
    (
        &[(names::PROPERTIES, b"\x80\x00\x08")],
        MetaFault::BadProperty(Name::Properties),
    ),
    (
        &[(names::PROPERTIES, b"\x35\x88\x00")],
        MetaFault::BadProperty(Name::Properties),
    ),
    (
        &[(
            names::PROPERTIES,
            b"\x35\x80\x80\x80\x80\x80\x80\x80\x80\x80\x02",
        )],
        MetaFault::BadProperty(Name::Properties),
    ),
    (
        &[(names::PROPERTIES, b"\x05\x3c")],
        MetaFault::Frame(FrameFault::OutOfFile(Handle {
            offset: 5,
            size: 60,
        })),
    ),
    // Tombstones of ranges are seen first, whatever their value is.
    (&[(names::RANGE_DEL, b"")], MetaFault::RangeTombstones),
    (
        &[(names::PROPERTIES, b""), (names::RANGE_DEL, b"\x00\x08")],
        MetaFault::RangeTombstones,
    ),
];

#[test]
fn names_that_are_faults(rt: HostRuntime) -> Result<(), Fail> {
    for (pairs, fault) in NAMES {
        let file = file_of(rt.alloc(), pairs)?;
        assert_fault(&rt, rt.alloc(), &file, fault)?;
    }
    Ok(())
}

/// Properties that are there and good, or not there.
static GOOD: [Pairs<'static>; 9] = [
    &[],
    &[
        (names::INDEX_TYPE, b"\0\0\0\0"),
        (names::COMPARATOR, b"leveldb.BytewiseComparator"),
        (names::GLOBAL_SEQUENCE, b"no number"),
        (names::EXTERNAL_VERSION, b"\x01\0\0\0"),
        (names::INDEX_KEY_IS_USER_KEY, b"\0"),
        (names::INDEX_VALUE_IS_DELTA_ENCODED, b"\0"),
    ],
    &[(names::INDEX_TYPE, b"\x01\0\0\0")],
    &[(b"other", b"value")],
    // An index of two levels; user keys in it, where the flag is 1 and another number; the same of differences of handles.
    &[(names::INDEX_TYPE, b"\x02\0\0\0")],
    &[(names::INDEX_KEY_IS_USER_KEY, b"\x01")],
    &[(names::INDEX_KEY_IS_USER_KEY, b"\x80\x01")],
    &[(names::INDEX_VALUE_IS_DELTA_ENCODED, b"\x01")],
    &[(
        names::INDEX_VALUE_IS_DELTA_ENCODED,
        b"\xff\xff\xff\xff\xff\xff\xff\xff\xff\x01",
    )],
];

#[test]
fn properties_that_are_good(rt: HostRuntime) -> Result<(), Fail> {
    for pairs in GOOD {
        let file = file_with(rt.alloc(), pairs)?;
        let loaded = load_of(rt.alloc(), &file)??;
        match &loaded.props {
            Some(props) => assert_eq!(rt; props.len(), pairs.len()),
            None => panic!(rt; "no properties"),
        }
    }
    Ok(())
}

// The first and the fourth call of the folder fail: one of each of the first two runs. And an absent file.
#[test]
fn a_failing_device(rt: HostRuntime) -> Result<(), Fail> {
    let file = file_of(rt.alloc(), &[])?;
    let mut folder = MemFolder::new(rt.alloc(), &[1, 4])?;
    folder.put_file(NAME, &file)?;
    for (name, wanted) in [
        (NAME, Some(Stop::Device)),
        (NAME, Some(Stop::Device)),
        (NAME, None),
        ("absent", Some(Stop::Device)),
    ] {
        let loaded = load(rt.alloc(), &mut folder, name);
        assert_eq!(rt; loaded.err(), wanted);
    }
    Ok(())
}

/// The footer of a file of nine bytes and an end of version 3: the stored properties block of 31 bytes stands before the
/// metaindex.
const WHAT_WAS_PUT: Footer = Footer {
    format: Format::Block,
    legacy: false,
    version: 3,
    checksum: 1,
    meta: Handle {
        offset: 45,
        size: 31,
    },
    index: INDEX,
};

// What `put_ending` makes is loaded again, here behind nine bytes.
#[test]
fn what_was_put(rt: HostRuntime) -> Result<(), Fail> {
    let mut file = Vec::new(rt.alloc());
    file.extend_from_slice(b"the front")?;
    let row = MetaRow {
        name: names::NUM_ENTRIES,
        value: MetaValue::Varint(17),
    };
    put_ending(rt.alloc(), &mut file, 9, 3, INDEX, &[row])?;
    let loaded = load_of(rt.alloc(), &file)??;
    assert_eq!(rt; loaded.len, file.len() as u64);
    assert_eq!(rt; loaded.footer, WHAT_WAS_PUT);
    assert_eq!(rt; loaded.names.len(), 1);
    match &loaded.props {
        Some(props) => { assert_eq!(rt; props.get(names::NUM_ENTRIES), Some(b"\x11".as_slice())) }
        None => panic!(rt; "no properties"),
    }
    Ok(())
}
