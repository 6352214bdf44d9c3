//! Stored keys, read: the user key, the sequence number and the kind.
ghost use Rattle.std.specs.Prelude.{◌≡◌, ◌⊎◌, ℕ, ◌+◌, ◌<◌, ◌^◌, ◌↔◌, List, length, take, None, Some, IfSome, IfNone};
ghost use Rattle.sst_num.specs.Spelling.{fixed, fixed_value};
ghost use Rattle.sst_key.specs.Entry.{internal_key, key_of};
ghost use Rattle.sst_key.specs.InternalKey as stored;
ghost use Rattle.sst_key.specs.InternalKey.{parts_of, kind_byte, IsKindNumber};
ghost use Rattle.sst_key.specs.declared.entries.Entry.{Entry};

use crate::entries::Kind;
use crate::keys::TAG_LENGTH;
use sst_num::fixed64;

/// The kind that a number stands for in a tag, if it stands for one.
fn kind_numbered(number: u64) -> Option<Kind>
    ensures { result ≡ stored.kind_numbered number }
{
    match number {
        0 => Some(Kind::Deletion),
        1 => Some(Kind::Value),
        2 => Some(Kind::Merge),
        7 => Some(Kind::SingleDeletion),
        _ => None,
    }
}

/// The tag that eight bytes spell, the lowest first.
fn tag_spelled(last: &[u8]) -> u64
    requires { length last.now ≡ 8 }
    ensures value { result ≡ fixed_value last.now }
    ensures spells { fixed 8 result ≡ last.now }
{
    fixed64(last)
}

/// Reads a stored key: how long its user key is, the sequence number and the kind. Takes no memory.
///
/// None comes exactly where the key is shorter than eight bytes or its kind byte is none of 0, 1, 2 and 7.
/// RocksDB: `ParseInternalKey` in db/dbformat.h.
pub fn unpack(key: &[u8]) -> Option<(usize, u64, Kind)>
    ensures exact { result ≡ parts_of key.now }
    ensures found { IfSome result (λ p. (p.0 + 8 ≡ length key.now) × (p.1 < 2 ^ 56)
        × (key.now ≡ internal_key (take p.0 key.now) p.1 p.2)) }
    ensures none { IfNone result ((e : Entry) → e.seq < 2 ^ 56 → key_of e ≡ key.now → ⊥) }
    ensures causes { (result ≡ None) ↔ ((length key.now < 8) ⊎ (IsKindNumber (kind_byte key.now) → ⊥)) }
{
    if key.len() < TAG_LENGTH {
        return None;
    }
    let (user, last) = key.split_at(key.len() - TAG_LENGTH);
    let tag = tag_spelled(last);
    match kind_numbered(tag % 256) {
        Some(kind) => Some((user.len(), tag / 256, kind)),
        None => None,
    }
}

/// What was packed is unpacked: the key of an entry says its sequence number and kind, and how long its user
/// key is, which the key begins with.
pub fn packed_is_unpacked()
    ensures parts { (e : Entry) → e.seq < 2 ^ 56 → parts_of (key_of e) ≡ Some (length e.user, e.seq, e.kind) }
    ensures user { (e : Entry) → take (length e.user) (key_of e) ≡ e.user }
{}
