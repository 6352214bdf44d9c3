//! The line of what a call answers. The texts are this project's own.
//!
//! A line is appended to the bytes that stand there before: no text is built up first and copied.
ghost use Rattle.std.specs.Prelude.{◌≡◌, ◌∷◌, [], ◌++◌, OnOk};
ghost use Rattle.std.specs.Option.{option_map};
ghost use Rattle.std.specs.Fmt.{decimal};
ghost use Rattle.sst_key.specs.Entry.{entry_of};
ghost use Rattle.sst_text.specs.EntryText as entry;
ghost use Rattle.sst_text.specs.EntryText.{hex_text, entry_line};
ghost use Rattle.sst_text.specs.ReplyText.{reply_line};

use crate::call_line::call_name;
use sst_key::{Call, EntryView, Kind, Reply};
use sst_num::Memory;

/// Appends bytes in lower-case hex digits, or a dash where there are none.
fn put_hex(out: &mut Vec<u8>, bytes: &[u8]) -> Result<(), Memory>
    ensures { OnOk result (out.new.items ≡ out.old.items ++ hex_text bytes.now) }
{
    if bytes.is_empty() {
        out.push(b'-')?;
        return Ok(());
    }
    let before = out.len();
    match before.checked_add(2 * bytes.len()) {
        None => Err(Memory),
        Some(end) => {
            out.resize(end, 0)?;
            let (_, room) = out.as_mut_slice().split_at_mut(before);
            match hex::encode_to_slice(bytes, room) {
                Ok(()) => Ok(()),
                Err(_) => unreachable!(),
            }
        }
    }
}

/// Appends a number in decimal digits.
fn put_decimal(out: &mut Vec<u8>, number: u64) -> Result<(), Memory>
    ensures { OnOk result (out.new.items ≡ out.old.items ++ decimal number) }
{
    if number >= 10 {
        put_decimal(out, number / 10)?;
    }
    out.push(b'0' + (number % 10) as u8)?;
    Ok(())
}

/// The letter that stands for a kind.
fn kind_letter(kind: Kind) -> u8
    ensures { result ≡ entry.kind_letter kind }
{
    match kind {
        Kind::Deletion => b'D',
        Kind::Value => b'P',
        Kind::Merge => b'M',
        Kind::SingleDeletion => b'S',
    }
}

/// Appends the line of an entry, with no line end.
///
/// Where memory runs out, nothing is said of `out`.
pub fn put_entry_line(out: &mut Vec<u8>, e: EntryView<'_>) -> Result<(), Memory>
    ensures ok { OnOk result (out.new.items ≡ out.old.items ++ entry_line (entry_of e.entry)) }
{
    put_hex(out, e.user)?;
    out.push(b' ')?;
    put_decimal(out, e.seq)?;
    out.extend_from_slice(&[b' ', kind_letter(e.kind), b' '])?;
    put_hex(out, e.value)
}

/// Appends what a call answers, with no line end.
fn put_reply(
    out: &mut Vec<u8>,
    reply: Reply,
    shown: Option<EntryView<'_>>,
    call: &Call,
) -> Result<(), Memory>
    ensures { OnOk result (out.new.items ≡ out.old.items ++ reply_line reply (option_map entry_of shown.entry) call.now) }
{
    match reply {
        Reply::Shown => match shown {
            None => Ok(()),
            Some(e) => put_entry_line(out, e),
        },
        Reply::None => put_text(out, b"none"),
        Reply::Lacks => {
            put_text(out, b"lacks ")?;
            put_text(out, call_name(call))
        }
        Reply::NotPositioned => put_text(out, b"not-positioned"),
    }
}

/// Appends a text.
fn put_text(out: &mut Vec<u8>, text: &[u8]) -> Result<(), Memory>
    ensures { OnOk result (out.new.items ≡ out.old.items ++ text.now) }
{
    out.extend_from_slice(text)?;
    Ok(())
}

/// Appends the line of what a call answers, and its line end.
///
/// `shown` is the entry that is shown, where the reply is [`Reply::Shown`]. Where memory runs out, nothing is said
/// of `out`.
pub fn put_reply_line(
    out: &mut Vec<u8>,
    reply: Reply,
    shown: Option<EntryView<'_>>,
    call: &Call,
) -> Result<(), Memory>
    ensures ok { OnOk result (out.new.items
        ≡ out.old.items ++ (reply_line reply (option_map entry_of shown.entry) call.now ++ 10 ∷ [])) }
{
    put_reply(out, reply, shown, call)?;
    out.push(b'\n')?;
    Ok(())
}
