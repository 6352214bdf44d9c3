//! A row of a meta block that is to be written: a name and its value.
ghost use Rattle.std.specs.Prelude.{◌≡◌, ◌++◌, List, ℕ, OnOk};
ghost use Rattle.sst_meta.specs.MetaRows.{value_spelling};

use sst_num::{Handle, Memory, put_fixed32, put_handle, put_varint64};

/// A name and its value, as a writer gives them: a property, or a row of the metaindex.
#[derive(Clone, Copy, Debug)]
pub struct MetaRow<'a> {
    /// The name, of at most 65,544 bytes.
    pub name: &'a [u8],
    /// The value.
    pub value: MetaValue<'a>,
}

/// The value of a name, and how it is spelled.
///
/// RocksDB: `PropertyBlockBuilder::Add` and `AddTableProperty`, and `MetaIndexBuilder::Add`, in table/meta_blocks.cc.
#[derive(Clone, Copy, Debug)]
pub enum MetaValue<'a> {
    /// A number, as a varint.
    Varint(u64),
    /// A number, in four bytes.
    Fixed32(u32),
    /// Where a block stands.
    BlockHandle(Handle),
    /// Bytes as they are.
    Bytes(&'a [u8]),
}

/// Appends the bytes of a value.
///
/// Where memory runs out, `out` stays as it was.
pub fn put_value(out: &mut Vec<u8>, value: &MetaValue<'_>) -> Result<(), Memory>
    ensures ok { OnOk result (out.new.items ≡ out.old.items ++ value_spelling value.now) }
{
    match value {
        MetaValue::Varint(number) => put_varint64(out, *number),
        MetaValue::Fixed32(number) => put_fixed32(out, *number),
        MetaValue::BlockHandle(handle) => put_handle(out, *handle),
        MetaValue::Bytes(bytes) => {
            out.extend_from_slice(bytes)?;
            Ok(())
        }
    }
}
