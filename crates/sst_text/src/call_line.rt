//! The call of a line: a name and, after three of the names, `USER SEQ`. The texts are this project's own.
ghost use Rattle.std.specs.Prelude.{◌≡◌, IfOk};
ghost use Rattle.sst_text.specs.CallText as calls;

use crate::cuts::cut;
use crate::fields::{read_bytes, seq_field};
use sst_key::{Call, Target};
use sst_num::{Bytes, Memory};
use std::alloc::Global;

/// The most bytes that the user key of a target has.
const KEY_LIMIT: usize = 65_536;

/// The target of its two fields: bytes of at most 65,536 in hex digits or a dash, and a sequence number. Nothing where they
/// aren't these.
pub fn target_of_fields(alloc: Global, user: &[u8], seq: &[u8]) -> Result<Option<Target>, Memory>
    ensures { IfOk result (λ target. target ≡ calls.target_of_fields user.now seq.now) }
{
    let Some(seq) = seq_field(seq) else {
        return Ok(None);
    };
    let mut key = Vec::new(alloc);
    if !read_bytes(&mut key, user)? || key.len() > KEY_LIMIT {
        return Ok(None);
    }
    let user = Bytes::from(key);
    Ok(Some(Target { user, seq }))
}

/// The target of a text, which is two fields with one blank between them.
fn target_of(alloc: Global, text: &[u8]) -> Result<Option<Target>, Memory>
    ensures { IfOk result (λ target. target ≡ calls.target_of text.now) }
{
    match cut(text, b' ') {
        None => Ok(None),
        Some((user, seq)) => target_of_fields(alloc, user, seq),
    }
}

/// The call of a name alone.
fn plain_call(name: &[u8]) -> Option<Call>
    ensures { result ≡ calls.plain_call name.now }
{
    if name == b"first".as_slice() {
        return Some(Call::First);
    }
    if name == b"last".as_slice() {
        return Some(Call::Last);
    }
    if name == b"next".as_slice() {
        return Some(Call::Next);
    }
    if name == b"prev".as_slice() {
        return Some(Call::Prev);
    }
    None
}

/// The call of a name and a target.
fn call_to(name: &[u8], target: Target) -> Option<Call>
    ensures { result ≡ calls.call_to name.now target }
{
    if name == b"get".as_slice() {
        return Some(Call::Get(target));
    }
    if name == b"seek".as_slice() {
        return Some(Call::Seek(target));
    }
    if name == b"seek_for_prev".as_slice() {
        return Some(Call::SeekForPrev(target));
    }
    None
}

/// The call of a line without its line end, where it is a call line.
pub fn call_of_line(alloc: Global, line: &[u8]) -> Result<Option<Call>, Memory>
    ensures exact { IfOk result (λ call. call ≡ calls.call_of_line line.now) }
{
    match cut(line, b' ') {
        None => Ok(plain_call(line)),
        Some((name, rest)) => match target_of(alloc, rest)? {
            None => Ok(None),
            Some(target) => Ok(call_to(name, target)),
        },
    }
}

/// The name of a call, as it stands in its line.
pub fn call_name(call: &Call) -> &'static [u8]
    ensures { result.now ≡ calls.call_name call.now }
{
    match call {
        Call::Get(_) => b"get",
        Call::First => b"first",
        Call::Last => b"last",
        Call::Seek(_) => b"seek",
        Call::SeekForPrev(_) => b"seek_for_prev",
        Call::Next => b"next",
        Call::Prev => b"prev",
    }
}
