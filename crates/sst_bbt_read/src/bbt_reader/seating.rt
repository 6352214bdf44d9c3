//! The seats of a reader: each cursor has one.
ghost use Rattle.std.specs.Prelude.{◌≡◌, ℕ, ◌+◌, ◌↔◌, Bool, true, false, not, position, None, Ok, Err, IfOk, OnOk, OnErr, List, length, Option};
ghost use Rattle.sst_key.specs.declared.entries.Entry.{Entry as entry_type};
ghost use Rattle.sst_bbt_spec.specs.BlockBased.{BlockBased};
ghost use Rattle.sst_bbt_spec.specs.Parts.{Part};
ghost use Rattle.sst_bbt_read.specs.Kept.{Keeps, StandsOn};
ghost use Rattle.sst_bbt_read.specs.Positions.{Of, Belongs, AreTwo, is_placed, rest, On, At};
ghost use Rattle.sst_bbt_read.specs.Seats.{seats_of, open_of};
ghost use Rattle.sst_bbt_read.specs.declared.cursor.Cursor.{Cursor as cursor_type};

use crate::bbt_reader::BbtReader;
use crate::cursor::{Cursor, CursorStop};

/// The first seat that no cursor has.
fn free_seat(seats: &[bool]) -> Option<usize>
    ensures { result ≡ position (λ (taken : Bool). not taken) seats.now }
{
    seats.iter().position(|taken| !*taken)
}

impl BbtReader {
    /// Opens a cursor that stands nowhere.
    ///
    /// After an error the reader is what it was. RocksDB: `BlockBasedTable::NewIterator` in
    /// table/block_based/block_based_table_reader.cc.
    pub fn cursor(&mut self) -> Result<Cursor, CursorStop>
        ensures full { (result ≡ Err CursorStop.Full) ↔ (open_of self.old ≡ seats_of self.old) }
        ensures ok { OnOk result ((open_of self.new ≡ open_of self.old + 1) × (seats_of self.new ≡ seats_of self.old)) }
        ensures err { OnErr result (self.new ≡ self.old) }
        ensures name { self.new.name ≡ self.old.name }
        ensures of { (file : List ℕ) → Of self.old file → Of self.new file }
        ensures belongs { IfOk result (λ c. Belongs self.new c) }
        ensures nowhere { IfOk result (λ c. is_placed c ≡ false) }
        ensures on { IfOk result (λ c. (file : List ℕ) → Of self.old file → On self.new c file None) }
        ensures at { IfOk result (λ c. (file : List ℕ) (entries : List entry_type) → Of self.old file → BlockBased file entries
            → At self.new c file entries None) }
        ensures two { IfOk result (λ c. (d : cursor_type) → Belongs self.old d → AreTwo c d) }
        ensures others { (d : cursor_type) → Belongs self.old d → Belongs self.new d }
        ensures others_rest { (d : cursor_type) → Belongs self.old d → rest self.new d ≡ rest self.old d }
        ensures others_on { (d : cursor_type) (file : List ℕ) (place : Option ℕ) → On self.old d file place → On self.new d file place }
        ensures others_at { (d : cursor_type) (file : List ℕ) (entries : List entry_type) (place : Option ℕ)
            → At self.old d file entries place → At self.new d file entries place }
        ensures kept { IfOk result (λ c. (parts : List Part) → Keeps self.old parts → StandsOn self.new c parts None) }
        ensures others_kept { (d : cursor_type) (parts : List Part) (place : Option ℕ)
            → StandsOn self.old d parts place → StandsOn self.new d parts place }
    {
        match free_seat(self.seats.as_slice()) {
            None => Err(CursorStop::Full),
            Some(number) => {
                self.seats[number] = true;
                Ok(Cursor {
                    number,
                    place: None,
                })
            }
        }
    }

    /// Ends a cursor of this reader. Takes no memory.
    pub fn close(&mut self, c: Cursor)
        requires { Belongs self.old c }
        ensures seats { (open_of self.old ≡ open_of self.new + 1) × (seats_of self.new ≡ seats_of self.old) }
        ensures name { self.new.name ≡ self.old.name }
        ensures of { (file : List ℕ) → Of self.old file → Of self.new file }
        ensures others { (d : cursor_type) → AreTwo c d → Belongs self.old d → Belongs self.new d }
        ensures others_rest { (d : cursor_type) → AreTwo c d → Belongs self.old d → rest self.new d ≡ rest self.old d }
        ensures others_on { (d : cursor_type) (file : List ℕ) (place : Option ℕ) → AreTwo c d → On self.old d file place
            → On self.new d file place }
        ensures others_at { (d : cursor_type) (file : List ℕ) (entries : List entry_type) (place : Option ℕ) → AreTwo c d
            → At self.old d file entries place → At self.new d file entries place }
    {
        let Cursor { number, place: _ } = c;
        self.seats[number] = false;
    }

    /// Ends the reader. No cursor is open. Takes no memory.
    pub fn shut(self)
        requires { open_of self ≡ 0 }
    {
        let BbtReader {
            name: _,
            table: _,
            seats: _,
        } = self;
    }
}
