//! One row of a block: its lengths, its key and its value, and what can be wrong with them.
ghost use Rattle.std.specs.Prelude.{◌≡◌, ◌⊎◌, ℕ, ◌+◌, ◌<◌, ◌≤◌, ◌^◌, true, false, not, ◌&&◌, nat_lt, if◌then◌else◌, List, [], ◌++◌, length, take, drop, None, Some, IfSome, IfNone, IfOk, IfErr, Ok, Err, option_map};
ghost use Rattle.sst_block.specs.Block as blocks;
ghost use Rattle.sst_block.specs.BlockReading as reading;
ghost use Rattle.sst_block.specs.BlockReading.{then_read, lengths_at, row_at, or_fault, row_read, said_at, value_length_at};
ghost use Rattle.sst_block.specs.declared.fault.BlockFault.TheVariants.{Disorder};
ghost use Rattle.sst_block.specs.Rows.{numbers, spelled_lengths, key_held, row_lent, FitsIn, IsLongEnough, row_length};

use crate::fault::BlockFault;
use crate::row_form::RowForm;
use sst_key::{KeyRoom, LONGEST_KEY, TAG_LENGTH, cmp_internal, unpack};
use sst_num::{Handle, take_handle, take_signed64, take_varint32};
use std::cmp::Ordering;

/// How long the trailer of a block is, which stands between a block and the next.
const TRAILER_LENGTH: u64 = 5;

/// The handle of no block, which is before the first. RocksDB: `BlockHandle::NullBlockHandle` in table/format.h.
pub const NO_HANDLE: Handle = Handle { offset: 0, size: 0 };

/// The lengths that a row begins with, and how many bytes they take.
#[derive(Clone, Copy)]
pub struct Lengths {
    /// How many bytes the key shares with the key before.
    pub shared: usize,
    /// How many bytes of the key follow.
    pub rest: usize,
    /// How many bytes the value has.
    pub value: usize,
    /// How many bytes these lengths take.
    pub used: usize,
}

/// The handle that begins behind the block and trailer of the one before, and whose size differs so much from that one's.
/// None where a number isn't of 64 bits. RocksDB: `IndexValue::DecodeFrom` in table/format.cc.
fn handle_by(before: Handle, difference: i64) -> Option<Handle>
    ensures { result ≡ reading.handle_by before difference }
{
    let offset = before
        .offset
        .checked_add(before.size)?
        .checked_add(TRAILER_LENGTH)?;
    let size = before.size.checked_add_signed(difference)?;
    Some(Handle { offset, size })
}

/// Reads the handle that is said at the front, in a row that shares so many bytes, and how many bytes it takes. `before` is
/// the handle of the row before. RocksDB: `DecodeCurrentValue` in table/block_based/block.cc.
fn take_said(delta: bool, shared: usize, before: Handle, bytes: &[u8]) -> Option<(Handle, usize)>
    ensures exact { result ≡ said_at delta shared before bytes.now }
    ensures within { IfSome result (λ f. f.1 < 2 ^ 32) }
{
    if !delta {
        return take_handle(bytes);
    }
    if shared == 0 {
        return take_handle(bytes);
    }
    let (difference, used) = take_signed64(bytes)?;
    let handle = handle_by(before, difference)?;
    Some((handle, used))
}

/// The handle that a value says, and nothing else.
fn handle_said(delta: bool, shared: usize, before: Handle, value: &[u8]) -> Option<Handle>
    ensures { result ≡ reading.handle_said delta shared before value.now }
{
    let (handle, used) = take_said(delta, shared, before, value)?;
    if used == value.len() {
        Some(handle)
    } else {
        None
    }
}

/// The handle behind a row that shares so many bytes and has this value: in an index the one that it says, else still the
/// one before.
pub fn handle_after(form: RowForm, before: Handle, shared: usize, value: &[u8]) -> Handle
    ensures { result ≡ reading.handle_after form before shared value.now }
{
    match form {
        RowForm::Entries => before,
        RowForm::Names => before,
        RowForm::Index { delta, .. } => match handle_said(delta, shared, before, value) {
            Some(handle) => handle,
            None => before,
        },
    }
}

/// The handles of the form are differences from the one before.
pub fn has_differences(form: RowForm) -> bool
    ensures { result ≡ blocks.has_differences form }
{
    match form {
        RowForm::Entries => false,
        RowForm::Names => false,
        RowForm::Index { delta, .. } => delta,
    }
}

/// The bytes behind the first so many, or none where there are fewer.
fn bytes_behind(bytes: &[u8], place: usize) -> &[u8]
    ensures { result.now ≡ drop place bytes.now }
{
    if place < bytes.len() {
        let (_, behind) = bytes.split_at(place);
        behind
    } else {
        &[]
    }
}

/// The length of the value that a handle takes at the front, or 0 where none is said there.
fn said_length(shared: usize, before: Handle, bytes: &[u8]) -> usize
    ensures exact { result ≡ reading.taken (said_at true shared before bytes.now) }
    ensures within { result < 2 ^ 32 }
{
    match take_said(true, shared, before, bytes) {
        Some((_, used)) => used,
        None => 0,
    }
}

/// Reads the length of the value of a row that shares so many bytes: the length, and how many bytes it takes at the front. Where
/// handles are differences it takes none, and the value stands behind the `rest` bytes of the key. RocksDB: `DecodeKeyV4`
/// in table/block_based/block.cc.
fn take_value_length(
    form: RowForm,
    before: Handle,
    shared: usize,
    rest: usize,
    bytes: &[u8],
) -> Option<(usize, usize)>
    ensures exact { result ≡ value_length_at form before shared rest bytes.now }
    ensures within { IfSome result (λ f. (f.0 < 2 ^ 32) × (f.1 ≤ length bytes.now)) }
{
    if has_differences(form) {
        return Some((said_length(shared, before, bytes_behind(bytes, rest)), 0));
    }
    let (value, used) = take_varint32(bytes)?;
    Some((value as usize, used))
}

/// Reads the lengths of the row at the front. `handle` is that of the row before. RocksDB: `DecodeEntry` in
/// table/block_based/block.cc.
#[tactic(auto, unfolding(crate::specs::BlockReading::lengths_at))]
fn take_lengths(form: RowForm, handle: Handle, bytes: &[u8]) -> Option<Lengths>
    ensures exact { spelled_lengths result ≡ lengths_at form handle bytes.now }
    ensures within { IfSome result (λ l. (l.shared < 2 ^ 32) × (l.rest < 2 ^ 32) × (l.value < 2 ^ 32) × (0 < l.used) × (l.used ≤ length bytes.now)) }
{
    let (shared, shared_used) = take_varint32(bytes)?;
    let (_, after_shared) = bytes.split_at(shared_used);
    let (rest, rest_used) = take_varint32(after_shared)?;
    let (_, after_rest) = after_shared.split_at(rest_used);
    let (value, value_used) = take_value_length(
        form,
        handle,
        shared as usize,
        rest as usize,
        after_rest,
    )?;
    Some(Lengths {
        shared: shared as usize,
        rest: rest as usize,
        value,
        used: shared_used + rest_used + value_used,
    })
}

/// The key is an internal key of one of the four kinds.
fn is_internal_key(key: &[u8]) -> bool
    ensures { result ≡ reading.is_internal_key key.now }
{
    unpack(key).is_some()
}

/// The keys of the form end with a tag.
fn has_tag(form: RowForm) -> bool
    ensures { result ≡ reading.has_tag form }
{
    match form {
        RowForm::Entries => true,
        RowForm::Names => false,
        RowForm::Index { user_key, .. } => !user_key,
    }
}

/// The lengths of the row at the front, if they agree with the key before and the bytes that are there. `handle` is that of
/// the row before.
#[tactic(auto, unfolding(crate::specs::BlockReading::row_at))]
pub fn row_lengths(form: RowForm, handle: Handle, before: &[u8], bytes: &[u8]) -> Option<Lengths>
    ensures exact { option_map (row_lent before.now bytes.now) result ≡ row_at form handle before.now bytes.now }
    ensures within { IfSome result (λ l. FitsIn (length before.now) (length bytes.now) l) }
{
    let l = take_lengths(form, handle, bytes)?;
    let fits = l.used + l.rest + l.value <= bytes.len();
    if l.shared <= before.len() && fits && l.shared + l.rest <= LONGEST_KEY {
        Some(l)
    } else {
        None
    }
}

/// What the form says of a row's value and of the kind in its key. `at` is where the row begins, and `handle` that of the
/// row before.
fn form_fault(
    form: RowForm,
    at: u32,
    handle: Handle,
    shared: usize,
    key: &[u8],
    value: &[u8],
) -> Option<BlockFault>
    ensures { result ≡ reading.form_fault form at handle (record { shared = shared; row = record { key = key.now; value = value.now } }) }
{
    match form {
        RowForm::Entries => {
            if is_internal_key(key) {
                None
            } else {
                Some(BlockFault::BadKind(at))
            }
        }
        RowForm::Names => None,
        RowForm::Index { delta, .. } => match handle_said(delta, shared, handle, value) {
            Some(_) => None,
            None => Some(BlockFault::BadHandle(at)),
        },
    }
}

/// The order of the keys of a block: of stored keys, or bytewise.
pub fn key_cmp(form: RowForm, a: &[u8], b: &[u8]) -> Ordering
    requires first { IsLongEnough form a.now }
    requires second { IsLongEnough form b.now }
    ensures { result ≡ blocks.key_cmp form a.now b.now }
{
    match form {
        RowForm::Entries => cmp_internal(a, b),
        RowForm::Names => a.cmp(b),
        RowForm::Index { user_key, .. } => {
            if user_key {
                a.cmp(b)
            } else {
                cmp_internal(a, b)
            }
        }
    }
}

/// The first fault of a row whose lengths are good: what the form says comes first, then the order. `after` says whether
/// its key is after the one before.
fn fault_of_row(
    form: RowForm,
    at: u32,
    handle: Handle,
    after: bool,
    shared: usize,
    key: &[u8],
    value: &[u8],
) -> Option<BlockFault>
    ensures { result ≡ or_fault (reading.form_fault form at handle (record { shared = shared; row = record { key = key.now; value = value.now } }))
        (if after then None else Some (Disorder at)) }
{
    match form_fault(form, at, handle, shared, key, value) {
        Some(fault) => Some(fault),
        None => {
            if after {
                None
            } else {
                Some(BlockFault::Disorder(at))
            }
        }
    }
}

/// The parts of a row behind its lengths, and what comes after it.
#[derive(Clone, Copy)]
pub struct Parts<'b> {
    /// The bytes of the key that aren't shared.
    pub rest: &'b [u8],
    /// The value.
    pub value: &'b [u8],
    /// What comes after the row.
    pub after: &'b [u8],
}

/// Splits the row at the front by its lengths.
pub fn split_row<'b>(bytes: &'b [u8], l: Lengths) -> Parts<'b>
    requires { row_length l ≤ length bytes.now }
    ensures rest { result.rest.now ≡ take l.rest (drop l.used bytes.now) }
    ensures value { result.value.now ≡ take l.value (drop (l.used + l.rest) bytes.now) }
    ensures after { result.after.now ≡ drop (row_length l) bytes.now }
{
    let (_, behind) = bytes.split_at(l.used);
    let (rest, after_key) = behind.split_at(l.rest);
    let (value, after) = after_key.split_at(l.value);
    Parts { rest, value, after }
}

/// The bytes from a place on.
fn bytes_from(bytes: &[u8], place: usize) -> &[u8]
    requires { place ≤ length bytes.now }
    ensures { result.now ≡ drop place bytes.now }
{
    let (_, from) = bytes.split_at(place);
    from
}

/// Where the tails begin that say which of two keys comes first: behind the bytes that they share, but before the tag of
/// either, so that no tag is cut. `before` and `key` are the lengths of the keys.
fn tails_begin(form: RowForm, shared: usize, before: usize, key: usize) -> usize
    requires front { (shared ≤ before) × (shared ≤ key) }
    requires tags { reading.has_tag form ≡ true → (8 ≤ before) × (8 ≤ key) }
    ensures within { result ≤ shared }
    ensures near { shared ≤ result + 8 }
    ensures whole { reading.has_tag form ≡ true → (result + 8 ≤ before) × (result + 8 ≤ key) }
{
    if has_tag(form) {
        shared.min(before - TAG_LENGTH).min(key - TAG_LENGTH)
    } else {
        shared
    }
}

/// Makes `key` the key of the next row, of which the first `shared` bytes stay and the rest is new. Answers whether it is
/// after the one before, if there is one.
///
/// The keys begin with the same bytes, so their tails decide. That of the key before is copied to `tail`: what the row drops
/// of that key, and at most eight bytes more. So the time that all rows of a block take is linear in their bytes, however
/// much of their keys they share.
fn change_key(
    form: RowForm,
    first: bool,
    key: &mut KeyRoom,
    tail: &mut KeyRoom,
    shared: usize,
    rest: &[u8],
) -> bool
    requires shared { shared ≤ length key.old }
    requires fits { (length key.old ≤ 65544) × (shared + length rest.now ≤ 65544) }
    requires before { first ≡ false → IsLongEnough form key.old }
    requires next { reading.has_tag form ≡ true → 8 ≤ shared + length rest.now }
    ensures key { key.new ≡ take shared key.old ++ rest.now }
    ensures after { result ≡ reading.is_after form (key_held first key.old) (take shared key.old ++ rest.now) }
{
    if first {
        key.set(shared, rest);
        return true;
    }
    let place = tails_begin(form, shared, key.bytes().len(), shared + rest.len());
    tail.set(0, bytes_from(key.bytes(), place));
    key.set(shared, rest);
    key_cmp(form, tail.bytes(), bytes_from(key.bytes(), place)).is_lt()
}

/// A key of this length has room for the tag that the form's keys have.
fn has_room_for_tag(form: RowForm, length: usize) -> bool
    ensures { result ≡ not (reading.has_tag form && nat_lt length 8) }
{
    !has_tag(form) || TAG_LENGTH <= length
}

/// Reads the row at the front. `key` holds the key before, or none where the row is the first, and then the row's own. `at`
/// is where the row begins, `handle` that of the row before, and `tail` is room in which the order is looked at.
#[tactic(auto, unfolding(crate::specs::BlockReading::row_read))]
pub fn read_row(
    form: RowForm,
    at: u32,
    first: bool,
    handle: Handle,
    key: &mut KeyRoom,
    tail: &mut KeyRoom,
    bytes: &[u8],
) -> Result<Lengths, BlockFault>
    requires short { length key.old ≤ 65544 }
    requires before { first ≡ false → IsLongEnough form key.old }
    requires none { first ≡ true → key.old ≡ [] }
    ensures exact { then_read result (λ l. Ok (row_lent key.old bytes.now l)) ≡ row_read form at (record { key = key_held first key.old; handle = handle }) bytes.now }
    ensures within { IfOk result (λ l. FitsIn (length key.old) (length bytes.now) l) }
    ensures key { IfOk result (λ l. key.new ≡ (row_lent key.old bytes.now l).0.row.key) }
    ensures long { IfOk result (λ l. IsLongEnough form key.new) }
{
    let Some(l) = row_lengths(form, handle, key.bytes(), bytes) else {
        return Err(BlockFault::BadRow(at));
    };
    if !has_room_for_tag(form, l.shared + l.rest) {
        return Err(BlockFault::BadRow(at));
    }
    let row = split_row(bytes, l);
    let after = change_key(form, first, key, tail, l.shared, row.rest);
    match fault_of_row(form, at, handle, after, l.shared, key.bytes(), row.value) {
        Some(fault) => Err(fault),
        None => Ok(l),
    }
}
