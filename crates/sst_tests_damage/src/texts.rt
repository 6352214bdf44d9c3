//! The texts of damages that no test here brings about, and of those of meta blocks, which name the same.
//!
//! They were written by hand.
use sst_bbt_read::BbtFault;
use sst_block::BlockFault;
use sst_device::FrameFault;
use sst_meta::{MetaFault, Name};
use sst_num::Handle;
use std::test::Fail;

/// The handle of a block.
const AT: Handle = Handle {
    offset: 53,
    size: 254,
};

/// Damages, and their texts.
static TEXTS: [(BbtFault, &str); 8] = [
    (
        BbtFault::Frame(FrameFault::TooLarge(AT)),
        "too-large 53 254",
    ),
    // The hash part isn't read yet, but its damage has a text.
    (BbtFault::Block(AT, BlockFault::BadHash(8)), "hash 53 8"),
    (
        BbtFault::Block(AT, BlockFault::BadHandle(u32::MAX)),
        "handle 53 4294967295",
    ),
    (
        BbtFault::Meta(MetaFault::Frame(FrameFault::Compressed(AT, 255))),
        "compressed 53 254 255",
    ),
    (
        BbtFault::Meta(MetaFault::Block(AT, BlockFault::BadKind(0))),
        "kind 53 0",
    ),
    // Properties that are always there, or never missed alone.
    (
        BbtFault::Meta(MetaFault::MissingProperty(Name::IndexType)),
        "missing-property rocksdb.block.based.table.index.type",
    ),
    (
        BbtFault::Meta(MetaFault::MissingProperty(Name::IndexKeyIsUserKey)),
        "missing-property rocksdb.index.key.is.user.key",
    ),
    (
        BbtFault::Meta(MetaFault::MissingProperty(Name::IndexValueIsDeltaEncoded)),
        "missing-property rocksdb.index.value.is.delta.encoded",
    ),
];

#[test]
fn texts_of_damages(rt: HostRuntime) -> Result<(), Fail> {
    for (damage, text) in TEXTS {
        let printed = format!(in rt.alloc(); "{damage}")?;
        assert_eq!(rt; printed.as_str(), text);
    }
    Ok(())
}
