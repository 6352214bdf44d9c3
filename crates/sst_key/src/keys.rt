//! Stored keys, packed and compared.
ghost use Rattle.std.specs.Prelude.{◌≡◌, ℕ, ◌+◌, ◌<◌, ◌≤◌, ◌^◌, ◌++◌, ◌↔◌, List, length, OnOk, OnErr};
ghost use Rattle.std.specs.Vec.{vec_capacity};
ghost use Rattle.sst_key.specs.Entry as entries;
ghost use Rattle.sst_key.specs.Entry.{internal_key, tag, key_of, IsBefore};
ghost use Rattle.sst_key.specs.InternalKey.{internal_cmp};
ghost use Rattle.sst_key.specs.declared.entries.Entry.{Entry};
ghost use Rattle.std.specs.declared.cmp.Ordering.TheVariants.{Less};

use crate::entries::Kind;
use byteorder::{ByteOrder, LittleEndian};
use sst_num::{Memory, put_fixed64};
use std::cmp::Ordering;

/// How many bytes of a stored key are its tag.
pub const TAG_LENGTH: usize = 8;

/// The number that stands for a kind in a tag.
fn kind_number(kind: Kind) -> u64
    ensures { result ≡ entries.kind_number kind }
{
    match kind {
        Kind::Deletion => 0,
        Kind::Value => 1,
        Kind::Merge => 2,
        Kind::SingleDeletion => 7,
    }
}

/// Appends the internal key of a user key, a sequence number below 2^56 and a kind.
///
/// Where memory runs out, `out` holds its old bytes followed by any. RocksDB: `AppendInternalKey` in
/// db/dbformat.cc.
pub fn pack(out: &mut Vec<u8>, user: &[u8], seq: u64, kind: Kind) -> Result<(), Memory>
    requires { seq < 2 ^ 56 }
    ensures ok { OnOk result (out.new.items ≡ out.old.items ++ internal_key user.now seq kind) }
    ensures err { OnErr result ((rest : List ℕ) × (out.new.items ≡ out.old.items ++ rest)) }
    ensures full { OnErr result (vec_capacity out.old < length out.old.items + length user.now + 8) }
{
    out.extend_from_slice(user)?;
    put_fixed64(out, seq * 256 + kind_number(kind))
}

/// Compares two stored keys of at least eight bytes: user keys bytewise, and among equal ones the greater tag
/// first. Takes no memory.
///
/// RocksDB: `InternalKeyComparator::Compare` in db/dbformat.h.
pub fn cmp_internal(a: &[u8], b: &[u8]) -> Ordering
    requires first { 8 ≤ length a.now }
    requires second { 8 ≤ length b.now }
    ensures { result ≡ internal_cmp a.now b.now }
{
    let (user_a, tag_a) = a.split_at(a.len() - TAG_LENGTH);
    let (user_b, tag_b) = b.split_at(b.len() - TAG_LENGTH);
    match user_a.cmp(user_b) {
        Ordering::Equal => LittleEndian::read_u64(tag_b).cmp(&LittleEndian::read_u64(tag_a)),
        other => other,
    }
}

/// The order of stored keys is the order of their entries.
pub fn internal_order_is_entry_order()
    ensures { (x y : Entry) → x.seq < 2 ^ 56 → y.seq < 2 ^ 56
        → (internal_cmp (key_of x) (key_of y) ≡ Less) ↔ IsBefore x y }
{}
