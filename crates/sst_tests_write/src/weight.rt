//! Tests of the weight of a list, on the writer alone: as lines such a list would have half a gigabyte.
ghost use Rattle.sst_bbt_write.specs.After.{IsInUse};

use sst_bbt_write::{BbtOptions, BbtWriter};
use sst_key::{EntryView, Kind, WriteFault};
use sst_num::Refused;
use std::alloc::Global;
use std::test::Fail;

/// The options of a file whose data blocks end late.
const OPTIONS: BbtOptions = BbtOptions {
    version: 2,
    block_size: 16_777_216,
    restart: 16,
    index_restart: 1,
    parts: 0,
};

/// The length of the values that are lent again and again: the most that a value has.
const LENGTH: usize = 16_777_216;

/// How many entries with a key of one byte and such a value a list holds: each weighs 16,777,281, and 2^28 less 15
/// of them is 16,776,241.
const MANY: u8 = 15;

/// The length of the value that fills such a list up to 2^28, beside a key of one byte and 64 for the entry.
const LAST_LENGTH: usize = 16_776_176;

/// Adds an entry whose key is this byte.
fn add(
    writer: &mut BbtWriter,
    user: u8,
    value: &[u8],
    file: &mut Vec<u8>,
) -> Result<(), Refused<WriteFault>>
    requires { IsInUse writer.old }
    ensures { IsInUse writer.new }
{
    let entry = EntryView {
        user: &[user],
        seq: 1,
        kind: Kind::Value,
        value,
    };
    writer.add(entry, file)
}

/// Adds as many entries with this value as a list holds of the longest.
fn add_many(
    writer: &mut BbtWriter,
    value: &[u8],
    file: &mut Vec<u8>,
) -> Result<(), Refused<WriteFault>>
    requires { IsInUse writer.old }
    ensures { IsInUse writer.new }
{
    for user in 0..MANY {
        add(writer, user, value, file)?;
    }
    Ok(())
}

/// A value of this length.
fn value_of(alloc: Global, length: usize) -> Result<Vec<u8>, Fail> {
    let value = vec![in alloc; 0x78; length]?;
    Ok(value)
}

/// The first bytes of a value, or the whole of one that is shorter.
fn front(value: &[u8], length: usize) -> &[u8] {
    match value.get(..length) {
        Some(bytes) => bytes,
        None => value,
    }
}

#[test]
fn a_list_as_heavy_as_it_may_be(rt: HostRuntime) -> Result<(), Fail> {
    let value = value_of(rt.alloc(), LENGTH)?;
    let mut file = Vec::new(rt.alloc());
    let mut writer = BbtWriter::new(rt.alloc(), OPTIONS)?;
    add_many(&mut writer, &value, &mut file)?;
    let heavy = Err(Refused::Cause(WriteFault::Heavy));
    let longer = front(&value, LAST_LENGTH + 1);
    assert_eq!(rt; add(&mut writer, MANY, &value, &mut file), heavy);
    assert_eq!(rt; add(&mut writer, MANY, longer, &mut file), heavy);
    // A value past its limit makes the list too heavy as well: the value is told.
    let too_long = value_of(rt.alloc(), LENGTH + 1)?;
    let value_long = Err(Refused::Cause(WriteFault::ValueLong));
    assert_eq!(rt; add(&mut writer, MANY, &too_long, &mut file), value_long);
    // The refused entries left nothing behind: their key may come again.
    let last = front(&value, LAST_LENGTH);
    assert_eq!(rt; add(&mut writer, MANY, last, &mut file), Ok(()));
    assert_eq!(rt; add(&mut writer, MANY + 1, &[], &mut file), heavy);
    assert_eq!(rt; writer.finish(&mut file), Ok(16));
    Ok(())
}
