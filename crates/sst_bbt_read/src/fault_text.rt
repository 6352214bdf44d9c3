//! How what is wrong with a file is said: a name, and numbers. The names are this project's own.
ghost use Rattle.std.specs.Prelude.{◌≡◌, Some};
ghost use Rattle.sst_bbt_read.specs.FaultText.{frame_fault_text, block_fault_text, meta_fault_text, bbt_fault_text};
ghost use Rattle.sst_meta.specs.Names.{name_bytes};

use crate::bbt_fault::BbtFault;
use sst_block::BlockFault;
use sst_device::FrameFault;
use sst_meta::{MetaFault, Name};
use sst_num::Handle;
use std::fmt;

/// What is wrong with how a block is stored.
#[derive(Clone, Copy)]
struct FrameDamage {
    /// What is wrong, with the handle of the block.
    fault: FrameFault,
}

impl fmt::Display for FrameDamage {
    ghost output = { λ damage. Some (frame_fault_text damage.fault) };

    fn fmt<W: fmt::Write>(&self, f: &mut fmt::Formatter<W>) -> fmt::Result {
        match self.fault {
            FrameFault::OutOfFile(h) => write!(f, "out-of-file {} {}", h.offset, h.size),
            FrameFault::TooLarge(h) => write!(f, "too-large {} {}", h.offset, h.size),
            FrameFault::Checksum(h) => write!(f, "checksum {} {}", h.offset, h.size),
            FrameFault::Compressed(h, kind) => {
                write!(f, "compressed {} {} {}", h.offset, h.size, kind)
            }
        }
    }
}

/// What is wrong with how the block is stored.
fn stored(fault: FrameFault) -> FrameDamage
    ensures { result.fault ≡ fault }
{
    FrameDamage { fault }
}

/// What is wrong within a block, with where the block stands.
#[derive(Clone, Copy)]
struct BlockDamage {
    /// Where the block begins in the file.
    offset: u64,
    /// What is wrong within it.
    fault: BlockFault,
}

impl fmt::Display for BlockDamage {
    ghost output = { λ damage. Some (block_fault_text damage.offset damage.fault) };

    fn fmt<W: fmt::Write>(&self, f: &mut fmt::Formatter<W>) -> fmt::Result {
        let offset = self.offset;
        match self.fault {
            BlockFault::BadRow(at) => write!(f, "row {offset} {at}"),
            BlockFault::BadRestart(at) => write!(f, "restart {offset} {at}"),
            BlockFault::BadFooter => write!(f, "block-footer {offset}"),
            BlockFault::Disorder(at) => write!(f, "disorder {offset} {at}"),
            BlockFault::BadKind(at) => write!(f, "kind {offset} {at}"),
            BlockFault::BadHash(at) => write!(f, "hash {offset} {at}"),
            BlockFault::BadHandle(at) => write!(f, "handle {offset} {at}"),
        }
    }
}

/// What is wrong within the block at a handle.
fn within(handle: Handle, fault: BlockFault) -> BlockDamage
    ensures offset { result.offset ≡ handle.offset }
    ensures fault { result.fault ≡ fault }
{
    BlockDamage {
        offset: handle.offset,
        fault,
    }
}

/// A name of the metaindex or of a property.
#[derive(Clone, Copy)]
struct PrintedName {
    /// The name.
    name: Name,
}

impl fmt::Display for PrintedName {
    ghost output = { λ printed. Some (name_bytes printed.name) };

    fn fmt<W: fmt::Write>(&self, f: &mut fmt::Formatter<W>) -> fmt::Result {
        match self.name {
            Name::Properties => f.write_str("rocksdb.properties"),
            Name::IndexType => f.write_str("rocksdb.block.based.table.index.type"),
            Name::GlobalSequence => f.write_str("rocksdb.external_sst_file.global_seqno"),
            Name::ExternalVersion => f.write_str("rocksdb.external_sst_file.version"),
            Name::IndexKeyIsUserKey => f.write_str("rocksdb.index.key.is.user.key"),
            Name::IndexValueIsDeltaEncoded => f.write_str("rocksdb.index.value.is.delta.encoded"),
        }
    }
}

/// The name as it is printed.
fn named(name: Name) -> PrintedName
    ensures { result.name ≡ name }
{
    PrintedName { name }
}

/// What is wrong with what a file says of itself.
#[derive(Clone, Copy)]
struct MetaDamage {
    /// What is wrong.
    fault: MetaFault,
}

/// What is wrong with what the file says of itself.
fn ending(fault: MetaFault) -> MetaDamage
    ensures { result.fault ≡ fault }
{
    MetaDamage { fault }
}

impl fmt::Display for MetaDamage {
    ghost output = { λ damage. Some (meta_fault_text damage.fault) };

    fn fmt<W: fmt::Write>(&self, f: &mut fmt::Formatter<W>) -> fmt::Result {
        match self.fault {
            MetaFault::NotTable => f.write_str("not-table"),
            MetaFault::Version(version) => write!(f, "version {version}"),
            MetaFault::ChecksumType(kind) => write!(f, "checksum-type {kind}"),
            MetaFault::Comparator => f.write_str("comparator"),
            MetaFault::IndexType(kind) => write!(f, "index-type {kind}"),
            MetaFault::RangeTombstones => f.write_str("range-tombstones"),
            MetaFault::BadProperty(name) => write!(f, "property {}", named(name)),
            MetaFault::MissingProperty(name) => write!(f, "missing-property {}", named(name)),
            MetaFault::BadFooter => f.write_str("footer"),
            MetaFault::FileLong => f.write_str("file-long"),
            MetaFault::Frame(fault) => write!(f, "{}", stored(fault)),
            MetaFault::Block(handle, fault) => write!(f, "{}", within(handle, fault)),
            MetaFault::NotYet => f.write_str("not-yet"),
        }
    }
}

impl fmt::Display for BbtFault {
    ghost output = { λ fault. Some (bbt_fault_text fault) };

    fn fmt<W: fmt::Write>(&self, f: &mut fmt::Formatter<W>) -> fmt::Result {
        match self {
            BbtFault::Meta(fault) => write!(f, "{}", ending(*fault)),
            BbtFault::Frame(fault) => write!(f, "{}", stored(*fault)),
            BbtFault::Block(handle, fault) => write!(f, "{}", within(*handle, *fault)),
            BbtFault::EmptyBlock(h) => write!(f, "empty-block {} {}", h.offset, h.size),
        }
    }
}
