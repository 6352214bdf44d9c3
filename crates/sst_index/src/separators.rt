//! The keys that stand between the blocks of a table.
ghost use Rattle.std.specs.Prelude.{◌≡◌, ℕ, ◌<◌, ◌≤◌, List, ◌++◌, length, get_or, IfSome, OnOk, OnErr};
ghost use Rattle.std.specs.Option.{option_map};
ghost use Rattle.sst_index.specs.Separators as separators;
ghost use Rattle.sst_index.specs.Separators.{raised, first_tag, separator_of};
ghost use Rattle.sst_key.specs.InternalKey.{user_of};

use sst_block::common_front;
use sst_key::TAG_LENGTH;
use sst_num::Memory;

/// The greatest byte, which can't be raised.
const HIGHEST: u8 = 255;

/// The tag that comes before all others of a user key. RocksDB: `kMaxSequenceNumber` in db/dbformat.h.
const FIRST_TAG: [u8; TAG_LENGTH] = [HIGHEST; TAG_LENGTH];

/// Appends the separator of a block: of its last key, and of the first key of the next block, if there is one.
///
/// Both are stored keys, of at least eight bytes. The separator isn't before the one and is before the other, where they are
/// in order; it is no longer than the first. No other memory is taken than what is appended. Where memory runs out, `out`
/// holds its old bytes followed by any.
/// RocksDB: `ShortenedIndexBuilder::AddIndexEntry` in table/block_based/index_builder.h.
pub fn put_separator(
    out: &mut Vec<u8>,
    last: &[u8],
    next_first: Option<&[u8]>,
) -> Result<(), Memory>
    requires last { 8 ≤ length last.now }
    requires next { IfSome next_first (λ b. 8 ≤ length b.now) }
    ensures ok { OnOk result (out.new.items ≡ out.old.items ++ separator_of last.now (option_map (λ b. b.now) next_first.entry)) }
    ensures err { OnErr result ((rest : List ℕ) × (out.new.items ≡ out.old.items ++ rest)) }
{
    match raised_place(last, next_first) {
        None => {
            out.extend_from_slice(last)?;
            Ok(())
        }
        Some(at) => put_raised(out, user_part(last), at),
    }
}

/// The user key of a stored key.
pub fn user_part(key: &[u8]) -> &[u8]
    requires { 8 ≤ length key.now }
    ensures { result.now ≡ user_of key.now }
{
    let (user, _) = key.split_at(key.len() - TAG_LENGTH);
    user
}

/// Where the user key of the last key of a block is raised, if it is.
fn raised_place(last: &[u8], next_first: Option<&[u8]>) -> Option<usize>
    requires last { 8 ≤ length last.now }
    requires next { IfSome next_first (λ b. 8 ≤ length b.now) }
    ensures exact { separators.raised_key last.now result ≡ separator_of last.now (option_map (λ b. b.now) next_first.entry) }
    ensures within { IfSome result (λ at. at < length (user_of last.now)) }
    ensures low { IfSome result (λ at. get_or (user_of last.now) at 0 < 255) }
{
    match next_first {
        None => place_after(user_part(last)),
        Some(next) => place_between(user_part(last), user_part(next)),
    }
}

/// Where a user key is raised to stand between it and a later one.
fn place_between(user: &[u8], next: &[u8]) -> Option<usize>
    ensures exact { result ≡ separators.place_between user.now next.now }
    ensures within { IfSome result (λ at. at < length user.now) }
    ensures low { IfSome result (λ at. get_or user.now at 0 < 255) }
{
    let at = common_front(user, next);
    if next.len() <= at {
        return None;
    }
    if user.len() <= at + 1 {
        return None;
    }
    if u32::from(user[at]) + 1 < u32::from(next[at]) {
        Some(at)
    } else {
        None
    }
}

/// Where a user key is raised that has no later one.
fn place_after(user: &[u8]) -> Option<usize>
    ensures exact { result ≡ separators.place_after user.now }
    ensures within { IfSome result (λ at. at < length user.now) }
    ensures low { IfSome result (λ at. get_or user.now at 0 < 255) }
{
    let at = highest_front(user);
    if at + 1 < user.len() { Some(at) } else { None }
}

/// How many bytes at the front can't be raised.
fn highest_front(user: &[u8]) -> usize
    ensures exact { result ≡ separators.highest_front user.now }
    ensures within { result ≤ length user.now }
    ensures low { result < length user.now → get_or user.now result 0 < 255 }
{
    for at in 0..user.len() {
        if user[at] != HIGHEST {
            return at;
        }
    }
    user.len()
}

/// Appends a user key that is raised at a byte, and the first tag.
fn put_raised(out: &mut Vec<u8>, user: &[u8], at: usize) -> Result<(), Memory>
    requires within { at < length user.now }
    requires low { get_or user.now at 0 < 255 }
    ensures ok { OnOk result (out.new.items ≡ out.old.items ++ (raised user.now at ++ first_tag)) }
    ensures err { OnErr result ((rest : List ℕ) × (out.new.items ≡ out.old.items ++ rest)) }
{
    let (front, _) = user.split_at(at);
    out.extend_from_slice(front)?;
    out.push(user[at] + 1)?;
    out.extend_from_slice(&FIRST_TAG)?;
    Ok(())
}
