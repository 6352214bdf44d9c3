//! The entry of a line, `USER SEQ KIND VALUE`. The fields and the letters are this project's own.
ghost use Rattle.std.specs.Prelude.{◌≡◌, Some, None, if◌then◌else◌, IfOk};
ghost use Rattle.std.specs.Option.{option_map};
ghost use Rattle.sst_key.specs.Entry.{entry_of};
ghost use Rattle.sst_text.specs.Texts as texts;
ghost use Rattle.sst_text.specs.LineFields.{seen};

use crate::cuts::cut;
use crate::fields::{read_bytes, seq_field};
use sst_key::{EntryView, Kind};
use sst_num::Memory;
use std::alloc::Global;
use std::marker::Model;

/// The fields of an entry line, the keys and values still in hex digits.
#[derive(Clone, Copy)]
struct Fields<'a> {
    user: &'a [u8],
    seq: u64,
    kind: Kind,
    value: &'a [u8],
}

/// The kind that a letter stands for.
fn kind_of_letter(letter: u8) -> Option<Kind>
    ensures { result ≡ texts.kind_of_letter letter }
{
    match letter {
        b'D' => Some(Kind::Deletion),
        b'P' => Some(Kind::Value),
        b'M' => Some(Kind::Merge),
        b'S' => Some(Kind::SingleDeletion),
        _ => None,
    }
}

/// The kind of a field.
fn kind_field(field: &[u8]) -> Option<Kind>
    ensures { result ≡ texts.kind_field field.now }
{
    match field {
        [letter] => kind_of_letter(*letter),
        _ => None,
    }
}

/// The fields of a line without its line end.
#[tactic(auto, unfolding(crate::specs::Texts::fields_of))]
fn fields_of(line: &[u8]) -> Option<Fields<'_>>
    ensures { option_map seen result ≡ texts.fields_of line.now }
{
    let (user, rest) = cut(line, b' ')?;
    let (seq, rest) = cut(rest, b' ')?;
    let (kind, value) = cut(rest, b' ')?;
    let seq = seq_field(seq)?;
    let kind = kind_field(kind)?;
    Some(Fields {
        user,
        seq,
        kind,
        value,
    })
}

/// Room for the entry of a line, used again for the next. Contracts see it as the entry that it holds.
///
/// Where a list of entry lines is only passed on, one room serves for all of them: it takes memory for the longest.
#[derive(Drop)]
pub struct EntryRoom {
    user: Vec<u8>,
    seq: u64,
    kind: Kind,
    value: Vec<u8>,
}

impl Model for EntryRoom {
    ghost use Rattle.sst_key.specs.declared.entries.Entry.{Entry};

    ghost Value = { Entry };

    ghost view = { λ r. record { user = r.user.items; seq = r.seq; kind = r.kind; value = r.value.items } };
}

impl EntryRoom {
    /// Room with no memory yet, which holds an entry of no bytes.
    pub fn new(alloc: Global) -> EntryRoom {
        EntryRoom {
            user: Vec::new(alloc),
            seq: 0,
            kind: Kind::Deletion,
            value: Vec::new(alloc),
        }
    }

    /// Reads the entry of a line without its line end. True exactly where it is an entry line; then the room holds its
    /// entry. Else nothing is said of what the room holds.
    ///
    /// Takes memory only where the room is too small.
    #[tactic(auto, unfolding(crate::specs::Texts::entry_of_line))]
    pub fn read(&mut self, line: &[u8]) -> Result<bool, Memory>
        ensures { IfOk result (λ is. (if is then Some self.new else None) ≡ texts.entry_of_line line.now) }
    {
        match fields_of(line) {
            None => Ok(false),
            Some(fields) => self.read_fields(&fields),
        }
    }

    /// The entry that it holds, lent until the next line is read. Takes no memory.
    pub fn entry(&self) -> EntryView<'_>
        ensures { entry_of result ≡ self.now }
    {
        EntryView {
            user: self.user.as_slice(),
            seq: self.seq,
            kind: self.kind,
            value: self.value.as_slice(),
        }
    }

    /// Reads the entry of four fields.
    #[tactic(auto, unfolding(crate::specs::Texts::entry_of_fields))]
    fn read_fields(&mut self, fields: &Fields<'_>) -> Result<bool, Memory>
        ensures { IfOk result (λ is. (if is then Some self.new else None) ≡ texts.entry_of_fields (seen fields.now)) }
    {
        self.seq = fields.seq;
        self.kind = fields.kind;
        if !read_bytes(&mut self.user, fields.user)? {
            return Ok(false);
        }
        read_bytes(&mut self.value, fields.value)
    }
}
