//! Tests of blocks of names and values.
//!
//! RocksDB: `PropertyBlockBuilder` in table/meta_blocks.cc; the names are in table/table_properties.cc.
use sst_block::BlockFault;
use sst_meta::{Name, Props, PropsBuilder, names};
use sst_num::Refused;
use std::test::Fail;

/// No name: no row, the one restart 0, and that there is one restart.
const NONE: &[u8] = b"\0\0\0\0\x01\0\0\0";

/// Two names, whose values are 1 and 17. The second shares "rocksdb.num." with the first, which is 12 bytes.
const TWO: &[u8] =
    b"\x00\x17\x01rocksdb.num.data.blocks\x01\x0c\x07\x01entries\x11\0\0\0\0\x01\0\0\0";

#[test]
fn no_properties(rt: HostRuntime) -> Result<(), Fail> {
    let builder = PropsBuilder::new(rt.alloc())?;
    let block = builder.finish()?;
    assert_eq!(rt; block.as_slice(), NONE);
    let props = Props::read(rt.alloc(), NONE)?;
    assert_eq!(rt; props.len(), 0);
    Ok(())
}

#[test]
fn two_properties(rt: HostRuntime) -> Result<(), Fail> {
    let mut builder = PropsBuilder::new(rt.alloc())?;
    builder.set(names::NUM_DATA_BLOCKS, b"\x01")?;
    builder.set(names::NUM_ENTRIES, b"\x11")?;
    let block = builder.finish()?;
    assert_eq!(rt; block.as_slice(), TWO);
    Ok(())
}

/// The names and values of that block.
static PAIRS: [(&[u8], &[u8]); 2] = [
    (b"rocksdb.num.data.blocks", b"\x01"),
    (b"rocksdb.num.entries", b"\x11"),
];

/// Names and what their values are there: each name; one before them, one between, one after; a front of one; and no
/// byte.
static VALUES: [(&[u8], Option<&[u8]>); 7] = [
    (b"rocksdb.num.data.blocks", Some(b"\x01")),
    (b"rocksdb.num.entries", Some(b"\x11")),
    (b"rocksdb.index.size", None),
    (b"rocksdb.num.deletions", None),
    (b"rocksdb.raw.key.size", None),
    (b"rocksdb.num.entrie", None),
    (b"", None),
];

#[test]
fn two_properties_are_read(rt: HostRuntime) -> Result<(), Fail> {
    let props = Props::read(rt.alloc(), TWO)?;
    assert_eq!(rt; props.len(), PAIRS.len());
    for i in 0..props.len() {
        assert_eq!(rt; props.pair(i), PAIRS[i]);
    }
    for (name, value) in VALUES {
        assert_eq!(rt; props.get(name), value, "of {name:?}");
    }
    Ok(())
}

#[test]
fn a_block_without_a_restart(rt: HostRuntime) {
    let refused = Props::read(rt.alloc(), b"\0\0\0\0\0\0\0\0").err();
    assert_eq!(rt; refused, Some(Refused::Cause(BlockFault::BadFooter)));
}

// As RocksDB's files have them.
#[test]
fn names_that_faults_name(rt: HostRuntime) {
    for (name, bytes) in [
        (Name::Properties, &b"rocksdb.properties"[..]),
        (Name::IndexType, b"rocksdb.block.based.table.index.type"),
        (
            Name::GlobalSequence,
            b"rocksdb.external_sst_file.global_seqno",
        ),
        (Name::ExternalVersion, b"rocksdb.external_sst_file.version"),
        (Name::IndexKeyIsUserKey, b"rocksdb.index.key.is.user.key"),
        (
            Name::IndexValueIsDeltaEncoded,
            b"rocksdb.index.value.is.delta.encoded",
        ),
    ] {
        assert_eq!(rt; name.as_slice(), bytes);
    }
}
