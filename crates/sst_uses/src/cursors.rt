//! Several cursors over one reader: one goes to the front of a table, one to the back, and both entries are shown.
ghost use Rattle.std.specs.Prelude.{◌≡◌, ℕ, List, Option, None, Some, Ok, Err, IfOk};
ghost use Rattle.sst_device.specs.Folder.{file_of};
ghost use Rattle.sst_key.specs.declared.entries.Entry.{Entry as entry_type};
ghost use Rattle.sst_bbt_spec.specs.BlockBased.{BlockBased};
ghost use Rattle.sst_bbt_read.specs.Positions.{Tells, Of, Belongs, AreTwo, IsSame, At, SameReader};
ghost use Rattle.sst_bbt_read.specs.Seats.{seats_of, open_of};
ghost use Rattle.sst_bbt_read.specs.declared.bbt_fault.BbtFault.{BbtFault as fault_type};
ghost use Rattle.sst_uses.specs.Uses.{both_of, ends_of, shown_at};

use crate::reading::shown;
use sst_bbt_read::{BbtFault, BbtReader, Cursor, CursorStop};
use sst_device::Folder;
use sst_key::Entry;
use sst_num::{Memory, Stop};
use std::alloc::Global;

/// The first and the last entry of a block-based table: the smallest key and the largest. None where it has no entry.
///
/// Two cursors stand on them at a time. A file that stands for a list is never called damaged.
pub fn ends<F: Folder>(
    alloc: Global,
    files: &mut F,
    name: &str,
) -> Result<Option<(Entry, Entry)>, Stop<BbtFault>>
    ensures ends { (file : List ℕ) (entries : List entry_type) → file_of (F.held files.old) name.now ≡ Some file
        → BlockBased file entries → IfOk result (λ found. found ≡ ends_of entries) }
    ensures sound { (file : List ℕ) (entries : List entry_type) → file_of (F.held files.old) name.now ≡ Some file
        → BlockBased file entries → (fault : fault_type) → result ≡ Err (Stop.Damage fault) → ⊥ }
{
    match BbtReader::open(alloc, files, name, 2, 0) {
        Ok(mut table) => {
            let found = with_front(alloc, files, &mut table);
            table.shut();
            found
        }
        Err(stop) => Err(stop),
    }
}

/// The same of an open table, by two cursors of its own, of which the first is opened here.
fn with_front<F: Folder>(
    alloc: Global,
    files: &mut F,
    table: &mut BbtReader,
) -> Result<Option<(Entry, Entry)>, Stop<BbtFault>>
    requires seats { (seats_of table.old ≡ 2) × (open_of table.old ≡ 0) }
    ensures seats { open_of table.new ≡ 0 }
    ensures ends { (file : List ℕ) (entries : List entry_type) → Tells (F.held files.old) table.old file → Of table.old file → BlockBased file entries
        → IfOk result (λ found. found ≡ ends_of entries) }
    ensures sound { (file : List ℕ) (entries : List entry_type) → Tells (F.held files.old) table.old file → Of table.old file → BlockBased file entries
        → (fault : fault_type) → result ≡ Err (Stop.Damage fault) → ⊥ }
{
    match table.cursor() {
        Ok(mut front) => {
            let found = with_back(alloc, files, table, &mut front);
            table.close(front);
            found
        }
        Err(CursorStop::Full) => unreachable!(),
        Err(CursorStop::Memory) => Err(Stop::Memory),
    }
}

/// The same with a cursor for the front; the one for the back is opened here.
fn with_back<F: Folder>(
    alloc: Global,
    files: &mut F,
    table: &mut BbtReader,
    front: &mut Cursor,
) -> Result<Option<(Entry, Entry)>, Stop<BbtFault>>
    requires seats { (seats_of table.old ≡ 2) × (open_of table.old ≡ 1) }
    requires belongs { Belongs table.old front.old }
    ensures seats { open_of table.new ≡ 1 }
    ensures belongs { Belongs table.new front.new }
    ensures ends { (file : List ℕ) (entries : List entry_type) → Tells (F.held files.old) table.old file → At table.old front.old file entries None
        → IfOk result (λ found. found ≡ ends_of entries) }
    ensures sound { (file : List ℕ) (entries : List entry_type) → Tells (F.held files.old) table.old file → At table.old front.old file entries None
        → (fault : fault_type) → result ≡ Err (Stop.Damage fault) → ⊥ }
{
    match table.cursor() {
        Ok(mut back) => {
            let found = go_apart(alloc, files, table, front, &mut back);
            table.close(back);
            found
        }
        Err(CursorStop::Full) => unreachable!(),
        Err(CursorStop::Memory) => Err(Stop::Memory),
    }
}

/// Moves one cursor to the first entry and the other to the last, and copies both. The first stays where it stands while the
/// other moves.
fn go_apart<F: Folder>(
    alloc: Global,
    files: &mut F,
    table: &mut BbtReader,
    front: &mut Cursor,
    back: &mut Cursor,
) -> Result<Option<(Entry, Entry)>, Stop<BbtFault>>
    requires two { AreTwo front.old back.old }
    requires front { Belongs table.old front.old }
    requires back { Belongs table.old back.old }
    ensures front { Belongs table.new front.new }
    ensures back { Belongs table.new back.new }
    ensures same { IsSame front.old front.new × IsSame back.old back.new }
    ensures seats { (seats_of table.new ≡ seats_of table.old) × (open_of table.new ≡ open_of table.old) }
    ensures ends { (file : List ℕ) (entries : List entry_type) → Tells (F.held files.old) table.old file → At table.old front.old file entries None
        → At table.old back.old file entries None → IfOk result (λ found. found ≡ ends_of entries) }
    ensures sound { (file : List ℕ) (entries : List entry_type) → Tells (F.held files.old) table.old file → At table.old front.old file entries None
        → At table.old back.old file entries None → (fault : fault_type) → result ≡ Err (Stop.Damage fault) → ⊥ }
{
    match table.first(files, front) {
        Ok(_) => match table.last(files, back) {
            Ok(_) => {
                let both = both_shown(alloc, table, front, back)?;
                Ok(both)
            }
            Err(stop) => Err(stop),
        },
        Err(stop) => Err(stop),
    }
}

/// The entries on which two cursors stand, copied, if both stand on one.
fn both_shown(
    alloc: Global,
    table: &BbtReader,
    front: &Cursor,
    back: &Cursor,
) -> Result<Option<(Entry, Entry)>, Memory>
    requires front { Belongs table.now front.now }
    requires back { Belongs table.now back.now }
    ensures { (file : List ℕ) (entries : List entry_type) (first last : Option ℕ) → At table.now front.now file entries first
        → At table.now back.now file entries last → IfOk result (λ both. both ≡ both_of (shown_at entries first) (shown_at entries last)) }
{
    let first = shown(alloc, table, front)?;
    let last = shown(alloc, table, back)?;
    Ok(paired(first, last))
}

/// Both, if there are both.
fn paired(first: Option<Entry>, last: Option<Entry>) -> Option<(Entry, Entry)>
    ensures { result ≡ both_of first last }
{
    match first {
        None => None,
        Some(first) => match last {
            None => None,
            Some(last) => Some((first, last)),
        },
    }
}
