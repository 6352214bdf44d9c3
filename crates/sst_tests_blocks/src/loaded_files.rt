//! Files without a data block, which tests of loading make and load: the properties, the metaindex and the footer, each made
//! from its bytes. No row shares a front with the one before it, and the index has no byte, at 0.
use sst_device::{MemFolder, put_frame};
use sst_key::Format;
use sst_meta::{Footer, Loaded, MetaFault, load, names, put_footer};
use sst_num::{Handle, Stop, put_fixed32, put_handle, put_varint64};
use std::alloc::Global;
use std::process::Abort;
use std::test::Fail;

/// The name of the file.
pub const NAME: &str = "table";

/// The index, which isn't looked at.
pub const INDEX: Handle = Handle { offset: 0, size: 0 };

/// The handle that leads to the first block of a file, of 8 bytes.
pub const FIRST: Handle = Handle { offset: 0, size: 8 };

/// Names and values.
pub type Pairs<'a> = &'a [(&'a [u8], &'a [u8])];

/// Appends the stored block of these bytes, and answers where it stands.
fn put_block(out: &mut Vec<u8>, block: &[u8]) -> Result<Handle, Fail> {
    let at = Handle {
        offset: out.len() as u64,
        size: block.len() as u64,
    };
    put_frame(out, block)?;
    Ok(at)
}

/// Appends the stored block of these names and values.
fn put_pairs(out: &mut Vec<u8>, alloc: Global, pairs: Pairs) -> Result<Handle, Fail> {
    let mut block = Vec::new(alloc);
    for (name, value) in pairs {
        block.push(0)?;
        put_varint64(&mut block, name.len() as u64)?;
        put_varint64(&mut block, value.len() as u64)?;
        block.extend_from_slice(name)?;
        block.extend_from_slice(value)?;
    }
    put_fixed32(&mut block, 0)?;
    put_fixed32(&mut block, 1)?;
    put_block(out, &block)
}

/// Appends a footer of version 4 that leads to this metaindex.
pub fn put_end(out: &mut Vec<u8>, meta: Handle) -> Result<(), Fail> {
    let footer = Footer {
        format: Format::Block,
        legacy: false,
        version: 4,
        checksum: 1,
        meta,
        index: INDEX,
    };
    put_footer(out, &footer)?;
    Ok(())
}

/// A file whose metaindex is this block.
pub fn file_at(alloc: Global, block: &[u8]) -> Result<Vec<u8>, Fail> {
    let mut out = Vec::new(alloc);
    let meta = put_block(&mut out, block)?;
    put_end(&mut out, meta)?;
    Ok(out)
}

/// A file whose metaindex has these names and values.
pub fn file_of(alloc: Global, pairs: Pairs) -> Result<Vec<u8>, Fail> {
    let mut out = Vec::new(alloc);
    let meta = put_pairs(&mut out, alloc, pairs)?;
    put_end(&mut out, meta)?;
    Ok(out)
}

/// A file with these properties.
pub fn file_with(alloc: Global, props: Pairs) -> Result<Vec<u8>, Fail> {
    let mut out = Vec::new(alloc);
    let at = put_pairs(&mut out, alloc, props)?;
    let mut value = Vec::new(alloc);
    put_handle(&mut value, at)?;
    let meta = put_pairs(&mut out, alloc, &[(names::PROPERTIES, value.as_slice())])?;
    put_end(&mut out, meta)?;
    Ok(out)
}

/// What is loaded of a file of these bytes.
pub fn load_of(alloc: Global, bytes: &[u8]) -> Result<Result<Loaded, Stop<MetaFault>>, Fail> {
    let mut folder = MemFolder::new(alloc, &[])?;
    folder.put_file(NAME, bytes)?;
    Ok(load(alloc, &mut folder, NAME))
}

/// Asserts that a file of these bytes has this fault.
pub fn assert_fault(
    rt: &impl Abort,
    alloc: Global,
    bytes: &[u8],
    fault: MetaFault,
) -> Result<(), Fail> {
    let stop = load_of(alloc, bytes)?.err();
    assert_eq!(rt; stop, Some(Stop::Damage(fault)));
    Ok(())
}
