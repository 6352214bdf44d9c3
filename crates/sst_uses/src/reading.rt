//! A table opened, asked for a key, and walked.
ghost use Rattle.std.specs.Prelude.{◌≡◌, ℕ, List, [], ◌∷◌, ◌++◌, Option, Some, Err, IfOk, OnOk};
ghost use Rattle.sst_device.specs.Folder.{file_of};
ghost use Rattle.sst_key.specs.Entry.{entry_of};
ghost use Rattle.sst_key.specs.declared.entries.Entry.{Entry as entry_type};
ghost use Rattle.sst_bbt_spec.specs.BlockBased.{BlockBased};
ghost use Rattle.sst_bbt_read.specs.Positions.{Tells, Of, Belongs, IsSame, At, SameReader};
ghost use Rattle.sst_bbt_read.specs.Seats.{seats_of, open_of};
ghost use Rattle.sst_bbt_read.specs.declared.bbt_fault.BbtFault.{BbtFault as fault_type};
ghost use Rattle.sst_uses.specs.Uses.{found_in, shown_at};

use sst_bbt_read::{BbtFault, BbtReader, Cursor, CursorStop};
use sst_device::Folder;
use sst_key::{Entry, EntryView};
use sst_num::{Bytes, Memory, Stop};
use std::alloc::Global;

/// The newest entry of a user key at a snapshot, from a block-based table.
///
/// A Deletion is an entry too: its kind says so. A file that stands for a list is never called damaged.
pub fn look_up<F: Folder>(
    alloc: Global,
    files: &mut F,
    name: &str,
    user: &[u8],
    seq: u64,
) -> Result<Option<Entry>, Stop<BbtFault>>
    ensures found { (file : List ℕ) (entries : List entry_type) → file_of (F.held files.old) name.now ≡ Some file
        → BlockBased file entries → IfOk result (λ found. found ≡ found_in entries user.now seq) }
    ensures sound { (file : List ℕ) (entries : List entry_type) → file_of (F.held files.old) name.now ≡ Some file
        → BlockBased file entries → (fault : fault_type) → result ≡ Err (Stop.Damage fault) → ⊥ }
{
    match BbtReader::open(alloc, files, name, 1, 0) {
        Ok(mut table) => {
            let found = found(alloc, files, &mut table, user, seq);
            table.shut();
            found
        }
        Err(stop) => Err(stop),
    }
}

/// The newest entry of a user key at a snapshot, from an open table, by a cursor of its own.
fn found<F: Folder>(
    alloc: Global,
    files: &mut F,
    table: &mut BbtReader,
    user: &[u8],
    seq: u64,
) -> Result<Option<Entry>, Stop<BbtFault>>
    requires seats { (seats_of table.old ≡ 1) × (open_of table.old ≡ 0) }
    ensures seats { open_of table.new ≡ 0 }
    ensures found { (file : List ℕ) (entries : List entry_type) → Tells (F.held files.old) table.old file → Of table.old file → BlockBased file entries
        → IfOk result (λ found. found ≡ found_in entries user.now seq) }
    ensures sound { (file : List ℕ) (entries : List entry_type) → Tells (F.held files.old) table.old file → Of table.old file → BlockBased file entries
        → (fault : fault_type) → result ≡ Err (Stop.Damage fault) → ⊥ }
{
    match table.cursor() {
        Ok(mut cursor) => {
            let found = found_by(alloc, files, table, &mut cursor, user, seq);
            table.close(cursor);
            found
        }
        Err(CursorStop::Full) => unreachable!(),
        Err(CursorStop::Memory) => Err(Stop::Memory),
    }
}

/// The entry to which a cursor comes by a Get, copied.
fn found_by<F: Folder>(
    alloc: Global,
    files: &mut F,
    table: &mut BbtReader,
    cursor: &mut Cursor,
    user: &[u8],
    seq: u64,
) -> Result<Option<Entry>, Stop<BbtFault>>
    requires { Belongs table.old cursor.old }
    ensures belongs { Belongs table.new cursor.new }
    ensures same { IsSame cursor.old cursor.new }
    ensures reader { SameReader (F.held files.old) table.old table.new }
    ensures found { (file : List ℕ) (entries : List entry_type) (place : Option ℕ) → Tells (F.held files.old) table.old file
        → At table.old cursor.old file entries place → IfOk result (λ found. found ≡ found_in entries user.now seq) }
    ensures sound { (file : List ℕ) (entries : List entry_type) (place : Option ℕ) → Tells (F.held files.old) table.old file
        → At table.old cursor.old file entries place → (fault : fault_type) → result ≡ Err (Stop.Damage fault) → ⊥ }
{
    match table.get(files, cursor, user, seq) {
        Ok(_) => {
            let shown = shown(alloc, table, cursor)?;
            Ok(shown)
        }
        Err(stop) => Err(stop),
    }
}

/// The entry on which a cursor stands, copied, if it stands on one.
pub(crate) fn shown(
    alloc: Global,
    table: &BbtReader,
    cursor: &Cursor,
) -> Result<Option<Entry>, Memory>
    requires { Belongs table.now cursor.now }
    ensures { (file : List ℕ) (entries : List entry_type) (place : Option ℕ) → At table.now cursor.now file entries place
        → IfOk result (λ shown. shown ≡ shown_at entries place) }
{
    if table.stands(cursor) {
        let entry = owned(alloc, table.entry(cursor))?;
        Ok(Some(entry))
    } else {
        Ok(None)
    }
}

/// All entries of a block-based table, in order.
///
/// A file that stands for a list is never called damaged.
pub fn all_entries<F: Folder>(
    alloc: Global,
    files: &mut F,
    name: &str,
) -> Result<Vec<Entry>, Stop<BbtFault>>
    ensures all { (file : List ℕ) (entries : List entry_type) → file_of (F.held files.old) name.now ≡ Some file
        → BlockBased file entries → IfOk result (λ copied. copied.items ≡ entries) }
    ensures sound { (file : List ℕ) (entries : List entry_type) → file_of (F.held files.old) name.now ≡ Some file
        → BlockBased file entries → (fault : fault_type) → result ≡ Err (Stop.Damage fault) → ⊥ }
{
    match BbtReader::open(alloc, files, name, 1, 0) {
        Ok(mut table) => {
            let entries = walked(alloc, files, &mut table);
            table.shut();
            entries
        }
        Err(stop) => Err(stop),
    }
}

/// All entries of an open table, by a cursor of its own.
fn walked<F: Folder>(
    alloc: Global,
    files: &mut F,
    table: &mut BbtReader,
) -> Result<Vec<Entry>, Stop<BbtFault>>
    requires seats { (seats_of table.old ≡ 1) × (open_of table.old ≡ 0) }
    ensures seats { open_of table.new ≡ 0 }
    ensures all { (file : List ℕ) (entries : List entry_type) → Tells (F.held files.old) table.old file → Of table.old file → BlockBased file entries
        → IfOk result (λ copied. copied.items ≡ entries) }
    ensures sound { (file : List ℕ) (entries : List entry_type) → Tells (F.held files.old) table.old file → Of table.old file → BlockBased file entries
        → (fault : fault_type) → result ≡ Err (Stop.Damage fault) → ⊥ }
{
    match table.cursor() {
        Ok(mut cursor) => {
            let entries = walk(alloc, files, table, &mut cursor);
            table.close(cursor);
            entries
        }
        Err(CursorStop::Full) => unreachable!(),
        Err(CursorStop::Memory) => Err(Stop::Memory),
    }
}

/// Copies the entries of an open table, from the first on.
fn walk<F: Folder>(
    alloc: Global,
    files: &mut F,
    table: &mut BbtReader,
    cursor: &mut Cursor,
) -> Result<Vec<Entry>, Stop<BbtFault>>
    requires { Belongs table.old cursor.old }
    ensures belongs { Belongs table.new cursor.new }
    ensures same { IsSame cursor.old cursor.new }
    ensures reader { SameReader (F.held files.old) table.old table.new }
    ensures all { (file : List ℕ) (entries : List entry_type) (place : Option ℕ) → Tells (F.held files.old) table.old file
        → At table.old cursor.old file entries place → IfOk result (λ copied. copied.items ≡ entries) }
    ensures sound { (file : List ℕ) (entries : List entry_type) (place : Option ℕ) → Tells (F.held files.old) table.old file
        → At table.old cursor.old file entries place → (fault : fault_type) → result ≡ Err (Stop.Damage fault) → ⊥ }
{
    let mut copied = Vec::new(alloc);
    table.first(files, cursor)?;
    while table.stands(cursor) {
        add_copy(alloc, &mut copied, table.entry(cursor))?;
        table.next(files, cursor)?;
    }
    Ok(copied)
}

/// Appends a copy of the entry that is lent.
fn add_copy(alloc: Global, copied: &mut Vec<Entry>, lent: EntryView<'_>) -> Result<(), Memory>
    ensures { OnOk result (copied.new.items ≡ copied.old.items ++ entry_of lent.entry ∷ []) }
{
    let entry = owned(alloc, lent)?;
    copied.push(entry)?;
    Ok(())
}

/// The entry that is lent, copied.
fn owned(alloc: Global, lent: EntryView<'_>) -> Result<Entry, Memory>
    ensures { IfOk result (λ entry. entry ≡ entry_of lent.entry) }
{
    let user = Bytes::from_slice(alloc, lent.user)?;
    let value = Bytes::from_slice(alloc, lent.value)?;
    Ok(Entry {
        user,
        seq: lent.seq,
        kind: lent.kind,
        value,
    })
}
