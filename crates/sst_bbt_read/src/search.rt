//! Places in a table that is open, found by halving: how separators stand to a target, be they those of parts or of data
//! blocks, and where a target stands in an ordered list of entries.
ghost use Rattle.std.specs.Prelude.{◌≡◌, ℕ, ◌≤◌, true, false, if◌then◌else◌, nat_lt, length, count_by};
ghost use Rattle.sst_key.specs.InternalKey.{user_of, tag_of};
ghost use Rattle.sst_bbt_spec.specs.Way.{is_separator_before, seek_tag, seek_for_prev_tag};
ghost use Rattle.sst_bbt_read.specs.TableBlocks.{AreSeparators};
ghost use Rattle.sst_key.specs.declared.entries.Entry.{Entry as entry_type};
ghost use Rattle.sst_key.specs.Entry.{IsOrdered};
ghost use Rattle.sst_key.specs.ListMachine as machine;
ghost use Rattle.sst_bbt_read.specs.declared.kept_table.RunEnd as ends;

use crate::kept_table::RunEnd;
use sst_key::{Entry, TAG_LENGTH, target_cmp};
use sst_num::fixed64;
use std::cmp::Ordering;

/// The user key and the tag of a stored key.
///
/// RocksDB: `ExtractUserKey` and `ExtractInternalKeyFooter` in db/dbformat.h.
fn parts(key: &[u8]) -> (&[u8], u64)
    requires { 8 ≤ length key.now }
    ensures user { result.0.now ≡ user_of key.now }
    ensures tag { result.1 ≡ tag_of key.now }
{
    let (user, tag) = key.split_at(key.len() - TAG_LENGTH);
    (user, fixed64(tag))
}

/// The separator is before the target of a Seek or a Get, which has the greatest tag of its sequence number. What is
/// too short for a stored key is before none.
///
/// RocksDB: `InternalKeyComparator::Compare` in db/dbformat.h, with `kValueTypeForSeek`, which is the greatest kind that
/// it knows; 255 is this project's own, and no kind is greater.
pub fn is_before_seek(separator: &[u8], user: &[u8], seq: u64) -> bool
    ensures { result ≡ (if nat_lt (length separator.now) 8 then false else is_separator_before user.now (seek_tag seq) separator.now) }
{
    if separator.len() < TAG_LENGTH {
        return false;
    }
    let (own, tag) = parts(separator);
    match own.cmp(user) {
        Ordering::Less => true,
        Ordering::Equal => seq < tag / 256,
        Ordering::Greater => false,
    }
}

/// The separator is before the target of a SeekForPrev, which has the least tag of its sequence number. What is too
/// short for a stored key is before none.
///
/// RocksDB: `InternalKeyComparator::Compare` in db/dbformat.h, with `kValueTypeForSeekForPrev`.
pub fn is_before_seek_for_prev(separator: &[u8], user: &[u8], seq: u64) -> bool
    ensures { result ≡ (if nat_lt (length separator.now) 8 then false else is_separator_before user.now (seek_for_prev_tag seq) separator.now) }
{
    if separator.len() < TAG_LENGTH {
        return false;
    }
    let (own, tag) = parts(separator);
    match own.cmp(user) {
        Ordering::Less => true,
        Ordering::Equal => match seq.checked_mul(256) {
            Some(least) => least < tag,
            None => false,
        },
        Ordering::Greater => false,
    }
}

/// How many runs have a separator before the target of a Seek or a Get.
pub fn runs_before_seek(runs: &[RunEnd], user: &[u8], seq: u64) -> usize
    requires { AreSeparators runs.now }
    ensures { result ≡ count_by (λ (r : ends.RunEnd). is_separator_before user.now (seek_tag seq) r.separator) runs.now }
{
    runs.partition_point(|run| is_before_seek(run.separator.as_slice(), user, seq))
}

/// How many runs have a separator before the target of a SeekForPrev.
pub fn runs_before_seek_for_prev(runs: &[RunEnd], user: &[u8], seq: u64) -> usize
    requires { AreSeparators runs.now }
    ensures { result ≡ count_by (λ (r : ends.RunEnd). is_separator_before user.now (seek_for_prev_tag seq) r.separator) runs.now }
{
    runs.partition_point(|run| is_before_seek_for_prev(run.separator.as_slice(), user, seq))
}

/// How many data blocks of a part have a separator before the target of a Seek or a Get that the part's separator isn't before.
/// In a whole index none has: there a part is one data block.
pub fn blocks_before_seek(whole: bool, blocks: &[RunEnd], user: &[u8], seq: u64) -> usize
    requires separators { AreSeparators blocks.now }
    requires alone { whole ≡ true → count_by (λ (r : ends.RunEnd). is_separator_before user.now (seek_tag seq) r.separator) blocks.now ≡ 0 }
    ensures { result ≡ count_by (λ (r : ends.RunEnd). is_separator_before user.now (seek_tag seq) r.separator) blocks.now }
{
    if whole {
        0
    } else {
        runs_before_seek(blocks, user, seq)
    }
}

/// How many data blocks of a part have a separator before the target of a SeekForPrev that the part's separator isn't before.
/// In a whole index none has.
pub fn blocks_before_seek_for_prev(whole: bool, blocks: &[RunEnd], user: &[u8], seq: u64) -> usize
    requires separators { AreSeparators blocks.now }
    requires alone { whole ≡ true → count_by (λ (r : ends.RunEnd). is_separator_before user.now (seek_for_prev_tag seq) r.separator) blocks.now ≡ 0 }
    ensures { result ≡ count_by (λ (r : ends.RunEnd). is_separator_before user.now (seek_for_prev_tag seq) r.separator) blocks.now }
{
    if whole {
        0
    } else {
        runs_before_seek_for_prev(blocks, user, seq)
    }
}

/// How many entries are before the target.
pub fn below(entries: &[Entry], user: &[u8], seq: u64) -> usize
    requires { IsOrdered entries.now }
    ensures count { result ≡ machine.below entries.now user.now seq }
    ensures within { result ≤ length entries.now }
{
    entries.partition_point(|entry| target_cmp(entry, user, seq).is_lt())
}

/// How many entries are before the target or at it.
pub fn up_to(entries: &[Entry], user: &[u8], seq: u64) -> usize
    requires { IsOrdered entries.now }
    ensures count { result ≡ machine.up_to entries.now user.now seq }
    ensures within { result ≤ length entries.now }
{
    entries.partition_point(|entry| target_cmp(entry, user, seq).is_le())
}
