//! The calls of a cursor: it moves over the entries of the file, and shows where it stands.
ghost use Rattle.std.specs.Prelude.{◌≡◌, ℕ, ◌<◌, ◌↔◌, true, false, List, Option, None, Some, Ok, Err, OnErr, slice_get};
ghost use Rattle.std.specs.Option.{is_some};
ghost use Rattle.sst_key.specs.Entry.{entry_of};
ghost use Rattle.sst_key.specs.ListMachine.{answer_of, get_of};
ghost use Rattle.sst_key.specs.declared.calls.Call.TheVariants as call;
ghost use Rattle.sst_key.specs.declared.calls.Format.TheVariants.{Block};
ghost use Rattle.sst_key.specs.declared.entries.Entry.{Entry as entry_type};
ghost use Rattle.sst_device.specs.Outside.{OnlyReads};
ghost use Rattle.sst_bbt_spec.specs.BlockBased.{Opens};
ghost use Rattle.sst_bbt_spec.specs.Parts.{Part, stored_in};
ghost use Rattle.sst_bbt_spec.specs.PartWay.{answer_in_parts, get_in_parts};
ghost use Rattle.sst_bbt_read.specs.Kept.{StandsOn, KeptMove, KeptGet};
ghost use Rattle.sst_bbt_read.specs.Positions.{Tells, IsLost, Belongs, IsSame, is_placed, rest, On, At, SameReader, OthersStay, Goes, Moved, Finds, Found};

use crate::bbt_fault::BbtFault;
use crate::bbt_reader::BbtReader;
use crate::cursor::Cursor;
use sst_device::Folder;
use sst_key::{EntryView, Reply};
use sst_num::Stop;

impl BbtReader {
    /// Goes to the newest entry of the user key at the snapshot, and answers true; or to nowhere, and answers false, where
    /// there is none. It looks where a Seek lands. After an error the cursor stands nowhere.
    ///
    /// RocksDB: `BlockBasedTable::Get` in table/block_based/block_based_table_reader.cc.
    pub fn get<F: Folder>(
        &mut self,
        files: &mut F,
        c: &mut Cursor,
        user: &[u8],
        seq: u64,
    ) -> Result<bool, Stop<BbtFault>>
        requires { Belongs self.old c.old }
        ensures belongs { Belongs self.new c.new }
        ensures same { IsSame c.old c.new }
        ensures reader { SameReader (F.held files.old) self.old self.new }
        ensures others { OthersStay (F.held files.old) self.old self.new c.old }
        ensures way { (file : List ℕ) (parts : List Part) (place : Option ℕ) → Tells (F.held files.old) self.old file → Opens file parts
            → On self.old c.old file place → Finds result self.new c.new file (get_in_parts None parts user.now seq) }
        ensures moved { (file : List ℕ) (entries : List entry_type) (place : Option ℕ) → Tells (F.held files.old) self.old file
            → At self.old c.old file entries place → Found result self.new c.new file entries (get_of entries user.now seq) }
        ensures err { OnErr result (is_placed c.new ≡ false) }
        ensures folder { OnlyReads (result ≡ Err Stop.Device) (IsLost (F.held files.old) self.old)
            (F.held files.old) (F.held files.new) (F.faults files.old) (F.faults files.new) }
        ensures kept { KeptGet result self.old self.new c.old c.new user.now seq }
    {
        let _later = files;
        Ok(self.table.get(&mut c.place, user, seq))
    }

    /// Goes to the first entry. After an error the cursor stands nowhere.
    ///
    /// RocksDB: `Iterator::SeekToFirst`.
    pub fn first<F: Folder>(
        &mut self,
        files: &mut F,
        c: &mut Cursor,
    ) -> Result<Reply, Stop<BbtFault>>
        requires { Belongs self.old c.old }
        ensures belongs { Belongs self.new c.new }
        ensures same { IsSame c.old c.new }
        ensures reader { SameReader (F.held files.old) self.old self.new }
        ensures others { OthersStay (F.held files.old) self.old self.new c.old }
        ensures way { (file : List ℕ) (parts : List Part) (place : Option ℕ) → Tells (F.held files.old) self.old file → Opens file parts
            → On self.old c.old file place → Goes result self.new c.new file (answer_in_parts None parts place call.First) }
        ensures moved { (file : List ℕ) (entries : List entry_type) (place : Option ℕ) → Tells (F.held files.old) self.old file
            → At self.old c.old file entries place → Moved result self.new c.new file entries (answer_of Block 0 entries place call.First) }
        ensures err { OnErr result (is_placed c.new ≡ false) }
        ensures folder { OnlyReads (result ≡ Err Stop.Device) (IsLost (F.held files.old) self.old)
            (F.held files.old) (F.held files.new) (F.faults files.old) (F.faults files.new) }
        ensures kept { KeptMove result self.old self.new c.old c.new call.First }
    {
        let _later = files;
        Ok(self.table.first(&mut c.place))
    }

    /// Goes to the last entry. After an error the cursor stands nowhere.
    ///
    /// RocksDB: `Iterator::SeekToLast`.
    pub fn last<F: Folder>(
        &mut self,
        files: &mut F,
        c: &mut Cursor,
    ) -> Result<Reply, Stop<BbtFault>>
        requires { Belongs self.old c.old }
        ensures belongs { Belongs self.new c.new }
        ensures same { IsSame c.old c.new }
        ensures reader { SameReader (F.held files.old) self.old self.new }
        ensures others { OthersStay (F.held files.old) self.old self.new c.old }
        ensures way { (file : List ℕ) (parts : List Part) (place : Option ℕ) → Tells (F.held files.old) self.old file → Opens file parts
            → On self.old c.old file place → Goes result self.new c.new file (answer_in_parts None parts place call.Last) }
        ensures moved { (file : List ℕ) (entries : List entry_type) (place : Option ℕ) → Tells (F.held files.old) self.old file
            → At self.old c.old file entries place → Moved result self.new c.new file entries (answer_of Block 0 entries place call.Last) }
        ensures err { OnErr result (is_placed c.new ≡ false) }
        ensures folder { OnlyReads (result ≡ Err Stop.Device) (IsLost (F.held files.old) self.old)
            (F.held files.old) (F.held files.new) (F.faults files.old) (F.faults files.new) }
        ensures kept { KeptMove result self.old self.new c.old c.new call.Last }
    {
        let _later = files;
        Ok(self.table.last(&mut c.place))
    }

    /// Goes to the first entry at or after the target, by the way of the index: to nowhere where every separator of the top
    /// block is before the target. After an error the cursor stands nowhere.
    ///
    /// RocksDB: `BlockBasedTableIterator::Seek` in table/block_based/block_based_table_iterator.cc, `SeekImpl` in
    /// table/block_based/partitioned_index_iterator.cc.
    pub fn seek<F: Folder>(
        &mut self,
        files: &mut F,
        c: &mut Cursor,
        user: &[u8],
        seq: u64,
    ) -> Result<Reply, Stop<BbtFault>>
        requires { Belongs self.old c.old }
        ensures belongs { Belongs self.new c.new }
        ensures same { IsSame c.old c.new }
        ensures reader { SameReader (F.held files.old) self.old self.new }
        ensures others { OthersStay (F.held files.old) self.old self.new c.old }
        ensures way { (file : List ℕ) (parts : List Part) (place : Option ℕ) → Tells (F.held files.old) self.old file → Opens file parts
            → On self.old c.old file place → Goes result self.new c.new file (answer_in_parts None parts place (call.Seek (record { user = user.now; seq = seq }))) }
        ensures moved { (file : List ℕ) (entries : List entry_type) (place : Option ℕ) → Tells (F.held files.old) self.old file
            → At self.old c.old file entries place → Moved result self.new c.new file entries (answer_of Block 0 entries place (call.Seek (record { user = user.now; seq = seq }))) }
        ensures err { OnErr result (is_placed c.new ≡ false) }
        ensures folder { OnlyReads (result ≡ Err Stop.Device) (IsLost (F.held files.old) self.old)
            (F.held files.old) (F.held files.new) (F.faults files.old) (F.faults files.new) }
        ensures kept { KeptMove result self.old self.new c.old c.new (call.Seek (record { user = user.now; seq = seq })) }
    {
        let _later = files;
        Ok(self.table.seek(&mut c.place, user, seq))
    }

    /// Goes to the last entry at or before the target, by the way of the index: to the last of all where every separator
    /// of the top block is before the target. After an error the cursor stands nowhere.
    ///
    /// RocksDB: `BlockBasedTableIterator::SeekForPrev` in table/block_based/block_based_table_iterator.cc.
    pub fn seek_for_prev<F: Folder>(
        &mut self,
        files: &mut F,
        c: &mut Cursor,
        user: &[u8],
        seq: u64,
    ) -> Result<Reply, Stop<BbtFault>>
        requires { Belongs self.old c.old }
        ensures belongs { Belongs self.new c.new }
        ensures same { IsSame c.old c.new }
        ensures reader { SameReader (F.held files.old) self.old self.new }
        ensures others { OthersStay (F.held files.old) self.old self.new c.old }
        ensures way { (file : List ℕ) (parts : List Part) (place : Option ℕ) → Tells (F.held files.old) self.old file → Opens file parts
            → On self.old c.old file place → Goes result self.new c.new file (answer_in_parts None parts place (call.SeekForPrev (record { user = user.now; seq = seq }))) }
        ensures moved { (file : List ℕ) (entries : List entry_type) (place : Option ℕ) → Tells (F.held files.old) self.old file
            → At self.old c.old file entries place → Moved result self.new c.new file entries (answer_of Block 0 entries place (call.SeekForPrev (record { user = user.now; seq = seq }))) }
        ensures err { OnErr result (is_placed c.new ≡ false) }
        ensures folder { OnlyReads (result ≡ Err Stop.Device) (IsLost (F.held files.old) self.old)
            (F.held files.old) (F.held files.new) (F.faults files.old) (F.faults files.new) }
        ensures kept { KeptMove result self.old self.new c.old c.new (call.SeekForPrev (record { user = user.now; seq = seq })) }
    {
        let _later = files;
        Ok(self.table.seek_for_prev(&mut c.place, user, seq))
    }

    /// Goes one entry on; from nowhere it stays there. After an error the cursor stands nowhere.
    ///
    /// RocksDB: `Iterator::Next`.
    pub fn next<F: Folder>(
        &mut self,
        files: &mut F,
        c: &mut Cursor,
    ) -> Result<Reply, Stop<BbtFault>>
        requires { Belongs self.old c.old }
        ensures belongs { Belongs self.new c.new }
        ensures same { IsSame c.old c.new }
        ensures reader { SameReader (F.held files.old) self.old self.new }
        ensures others { OthersStay (F.held files.old) self.old self.new c.old }
        ensures way { (file : List ℕ) (parts : List Part) (place : Option ℕ) → Tells (F.held files.old) self.old file → Opens file parts
            → On self.old c.old file place → Goes result self.new c.new file (answer_in_parts None parts place call.Next) }
        ensures moved { (file : List ℕ) (entries : List entry_type) (place : Option ℕ) → Tells (F.held files.old) self.old file
            → At self.old c.old file entries place → Moved result self.new c.new file entries (answer_of Block 0 entries place call.Next) }
        ensures err { OnErr result (is_placed c.new ≡ false) }
        ensures nowhere { (result ≡ Ok Reply.NotPositioned) ↔ (is_placed c.old ≡ false) }
        ensures lowers { is_placed c.old ≡ true → rest self.new c.new < rest self.old c.old }
        ensures folder { OnlyReads (result ≡ Err Stop.Device) (IsLost (F.held files.old) self.old)
            (F.held files.old) (F.held files.new) (F.faults files.old) (F.faults files.new) }
        ensures kept { KeptMove result self.old self.new c.old c.new call.Next }
    {
        let _later = files;
        Ok(self.table.next(&mut c.place))
    }

    /// Goes one entry back; from nowhere it stays there. After an error the cursor stands nowhere.
    ///
    /// RocksDB: `Iterator::Prev`.
    pub fn prev<F: Folder>(
        &mut self,
        files: &mut F,
        c: &mut Cursor,
    ) -> Result<Reply, Stop<BbtFault>>
        requires { Belongs self.old c.old }
        ensures belongs { Belongs self.new c.new }
        ensures same { IsSame c.old c.new }
        ensures reader { SameReader (F.held files.old) self.old self.new }
        ensures others { OthersStay (F.held files.old) self.old self.new c.old }
        ensures way { (file : List ℕ) (parts : List Part) (place : Option ℕ) → Tells (F.held files.old) self.old file → Opens file parts
            → On self.old c.old file place → Goes result self.new c.new file (answer_in_parts None parts place call.Prev) }
        ensures moved { (file : List ℕ) (entries : List entry_type) (place : Option ℕ) → Tells (F.held files.old) self.old file
            → At self.old c.old file entries place → Moved result self.new c.new file entries (answer_of Block 0 entries place call.Prev) }
        ensures err { OnErr result (is_placed c.new ≡ false) }
        ensures nowhere { (result ≡ Ok Reply.NotPositioned) ↔ (is_placed c.old ≡ false) }
        ensures folder { OnlyReads (result ≡ Err Stop.Device) (IsLost (F.held files.old) self.old)
            (F.held files.old) (F.held files.new) (F.faults files.old) (F.faults files.new) }
        ensures kept { KeptMove result self.old self.new c.old c.new call.Prev }
    {
        let _later = files;
        Ok(self.table.prev(&mut c.place))
    }

    /// Whether the cursor stands on an entry. Takes no memory.
    ///
    /// RocksDB: `Iterator::Valid`.
    pub fn stands(&self, c: &Cursor) -> bool
        ensures placed { result ≡ is_placed c.now }
        ensures rest { Belongs self.now c.now → ((result ≡ true) ↔ (0 < rest self.now c.now)) }
        ensures on { (file : List ℕ) (place : Option ℕ) → On self.now c.now file place → result ≡ is_some place }
        ensures at { (file : List ℕ) (entries : List entry_type) (place : Option ℕ) → At self.now c.now file entries place
            → result ≡ is_some place }
        ensures kept { (parts : List Part) (place : Option ℕ) → StandsOn self.now c.now parts place → result ≡ is_some place }
    {
        c.place.is_some()
    }

    /// The entry on which the cursor stands, lent. Takes no memory.
    ///
    /// RocksDB: `Iterator::key` and `Iterator::value`.
    pub fn entry<'a>(&'a self, c: &'a Cursor) -> EntryView<'a>
        requires belongs { Belongs self.now c.now }
        requires stands { is_placed c.now ≡ true }
        ensures on { (file : List ℕ) (parts : List Part) (i : ℕ) → Opens file parts → On self.now c.now file (Some i)
            → slice_get (stored_in parts) i ≡ Some (entry_of result) }
        ensures at { (file : List ℕ) (entries : List entry_type) (i : ℕ) → At self.now c.now file entries (Some i)
            → slice_get entries i ≡ Some (entry_of result) }
        ensures kept { (parts : List Part) (i : ℕ) → StandsOn self.now c.now parts (Some i)
            → slice_get (stored_in parts) i ≡ Some (entry_of result) }
    {
        match c.place {
            Some(place) => self.table.entry(place),
            None => unreachable!(),
        }
    }
}
