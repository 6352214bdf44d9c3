//! The walk over the rows of a block.
ghost use Rattle.std.specs.Prelude.{◌≡◌, ◌⊎◌, ℕ, ◌+◌, ◌-◌, ◌*◌, ◌<◌, ◌≤◌, nat_lt, Bool, true, false, List, [], length, drop, Option, None, Some, slice_get, option_and_then};
ghost use Rattle.sst_block.specs.declared.row_form.RowForm as forms;
ghost use Rattle.sst_block.specs.Block.{Row, Spelled, Block, no_handle};
ghost use Rattle.sst_block.specs.declared.row_form.RowForm.TheVariants.{Index};
ghost use Rattle.sst_block.specs.BlockReading.{row_at};
ghost use Rattle.sst_block.specs.IndexRows.{IndexPair, SayPairs};
ghost use Rattle.sst_block.specs.Seek.{CanSeek, IsTarget, MayBegin, is_before, rows_before};
ghost use Rattle.sst_block.specs.Places.{PausedIn};
ghost use Rattle.sst_block.specs.Iter.{Walks, WalksIn, HasTaken, StaysIn, Reaches, BeginsBefore, place_of, place_before, start_of, restart_at, bytes_behind};

use crate::check::{NUMBER_LENGTH, split_whole};
use crate::place::{Place, row_parts};
use crate::row::{NO_HANDLE, handle_after, key_cmp, row_lengths, split_row};
use crate::row_form::RowForm;
use sst_key::KeyRoom;
use sst_num::{Handle, fixed32};

/// A walk over the rows of a block that was checked. It stands at a row or nowhere.
///
/// It holds one key at a time, which the next move changes, so a caller copies the keys that it wants to keep. Values are
/// lent from the block, and stay. No call takes memory or fails. RocksDB: `DataBlockIter` and `IndexBlockIter` in
/// table/block_based/block.h.
#[derive(Drop)]
pub struct BlockIter<'b> {
    /// What the rows are.
    form: RowForm,
    /// The rows of the block.
    rows: &'b [u8],
    /// The restarts, four bytes each, and what follows them.
    places: &'b [u8],
    /// How many restarts there are.
    count: u32,
    /// The rows from the one on where it stands.
    here: &'b [u8],
    /// The rows after the one where it stands.
    after: &'b [u8],
    /// The value of the row where it stands.
    value: &'b [u8],
    /// The key of the row where it stands.
    key: KeyRoom,
    /// In an index, the handle that the row says where it stands.
    handle: Handle,
    /// It stands at a row.
    stands: bool,
}

impl<'b> BlockIter<'b> {
    /// A walk over the rows of a block, which stands nowhere.
    ///
    /// The block stands for rows of this form, as one does that `check_block` accepts. `room` is room for the keys.
    pub fn start(block: &'b [u8], form: RowForm, room: KeyRoom) -> BlockIter<'b>
        requires { (rows : List Row) × Block form block.now rows }
        ensures walks { (rows : List Row) → Block form block.now rows → Walks result rows None }
        ensures within { (rows : List Row) (b : Block form block.now rows) → WalksIn result form block.now rows b None }
    {
        let parts = split_whole(block);
        let rows = parts.rows;
        BlockIter {
            form,
            rows,
            places: parts.places,
            count: parts.count,
            here: rows,
            after: rows,
            value: rows,
            key: room,
            handle: NO_HANDLE,
            stands: false,
        }
    }

    /// Ends the walk, and keeps where it stands.
    pub fn pause(self) -> Place
        ensures { (form : forms.RowForm) (bytes : List ℕ) (rows : List Row) (b : Block form bytes rows) (place : Option ℕ)
            → WalksIn self.entry form bytes rows b place → PausedIn result form bytes rows b place }
    {
        Place {
            left: self.here.len(),
            behind: self.after.len(),
            value: self.value.len(),
            key: self.key,
            handle: self.handle,
            stands: self.stands,
        }
    }

    /// Goes on with a walk that was paused over a block of the same bytes and form. It stands where it stood.
    pub fn resume(block: &'b [u8], form: RowForm, place: Place) -> BlockIter<'b>
        requires { (rows : List Row) × (b : Block form block.now rows) × (at : Option ℕ) × PausedIn place form block.now rows b at }
        ensures within { (rows : List Row) (b : Block form block.now rows) (at : Option ℕ) → PausedIn place form block.now rows b at
            → WalksIn result form block.now rows b at }
    {
        if !place.stands {
            return BlockIter::start(block, form, place.key);
        }
        let parts = split_whole(block);
        let row = row_parts(parts.rows, place.left, place.behind, place.value);
        BlockIter {
            form,
            rows: parts.rows,
            places: parts.places,
            count: parts.count,
            here: row.here,
            after: row.after,
            value: row.value,
            key: place.key,
            handle: place.handle,
            stands: true,
        }
    }

    /// Goes to the first row. True exactly where there is one; else it stands nowhere.
    pub fn first(&mut self) -> bool
        requires { (rows : List Row) × (place : Option ℕ) × Walks self.old rows place }
        ensures moves { (rows : List Row) (place : Option ℕ) → Walks self.old rows place → Walks self.new rows (place_of rows 0) }
        ensures within { (form : forms.RowForm) (bytes : List ℕ) (rows : List Row) (b : Block form bytes rows) (place : Option ℕ)
            → WalksIn self.old form bytes rows b place → WalksIn self.new form bytes rows b (place_of rows 0) }
        ensures tells { (rows : List Row) (place : Option ℕ) → Walks self.old rows place → result ≡ nat_lt 0 (length rows) }
    {
        self.after = self.rows;
        self.key.set(0, &[]);
        self.handle = NO_HANDLE;
        self.step()
    }

    /// Goes to the next row. True exactly where there is one; else it stands nowhere. It stands at a row before.
    pub fn next(&mut self) -> bool
        requires { (rows : List Row) × (i : ℕ) × Walks self.old rows (Some i) }
        ensures moves { (rows : List Row) (i : ℕ) → Walks self.old rows (Some i) → Walks self.new rows (place_of rows (i + 1)) }
        ensures within { (form : forms.RowForm) (bytes : List ℕ) (rows : List Row) (b : Block form bytes rows) (i : ℕ)
            → WalksIn self.old form bytes rows b (Some i) → WalksIn self.new form bytes rows b (place_of rows (i + 1)) }
        ensures tells { (rows : List Row) (i : ℕ) → Walks self.old rows (Some i) → result ≡ nat_lt (i + 1) (length rows) }
    {
        self.step()
    }

    /// The key of the row where it stands, lent until the next move.
    pub fn key(&self) -> &[u8]
        requires { (rows : List Row) × (i : ℕ) × Walks self.now rows (Some i) }
        ensures { (rows : List Row) (i : ℕ) → Walks self.now rows (Some i)
            → (row : Row) × (slice_get rows i ≡ Some row) × (result.now ≡ row.key) }
    {
        self.key.bytes()
    }

    /// The value of the row where it stands, lent from the block.
    pub fn value(&self) -> &'b [u8]
        requires { (rows : List Row) × (i : ℕ) × Walks self.now rows (Some i) }
        ensures { (rows : List Row) (i : ℕ) → Walks self.now rows (Some i)
            → (row : Row) × (slice_get rows i ≡ Some row) × (result.now ≡ row.value) }
    {
        self.value
    }

    /// The handle of the row where it stands, of an index block: whole, also where the row has the difference from the one
    /// before. RocksDB: `IndexBlockIter::value` in table/block_based/block.h.
    pub fn handle(&self) -> Handle
        requires { (user_key delta : Bool) × (bytes : List ℕ) × (rows : List Row) × (b : Block (Index user_key delta) bytes rows) × (i : ℕ)
            × WalksIn self.now (Index user_key delta) bytes rows b (Some i) }
        ensures { (user_key delta : Bool) (bytes : List ℕ) (rows : List Row) (b : Block (Index user_key delta) bytes rows) (i : ℕ) (pairs : List IndexPair)
            → WalksIn self.now (Index user_key delta) bytes rows b (Some i) → SayPairs delta no_handle b.spelled pairs
            → (pair : IndexPair) × (slice_get pairs i ≡ Some pair) × (result ≡ pair.handle) }
    {
        self.handle
    }

    /// Where the row begins in the block where it stands.
    pub fn row_start(&self) -> u32
        requires { (rows : List Row) × (i : ℕ) × Walks self.now rows (Some i) }
        ensures { (form : forms.RowForm) (bytes : List ℕ) (rows : List Row) (b : Block form bytes rows) (i : ℕ)
            → WalksIn self.now form bytes rows b (Some i) → result ≡ start_of form b.spelled i }
    {
        (self.rows.len() - self.here.len()) as u32
    }

    /// How many restarts the block has, which is one at least.
    pub fn restarts(&self) -> u32
        ensures { (form : forms.RowForm) (bytes : List ℕ) (rows : List Row) (b : Block form bytes rows) (place : Option ℕ)
            → WalksIn self.now form bytes rows b place → (result ≡ length b.restarts) × (0 < result) }
    {
        self.count
    }

    /// Goes to the row that begins at the restart of this number, from 0. True exactly where there is one: a block without
    /// rows has the one restart 0. RocksDB: `SeekToRestartPoint`.
    pub fn at_restart(&mut self, i: u32) -> bool
        requires { (form : forms.RowForm) × (bytes : List ℕ) × (rows : List Row) × (b : Block form bytes rows) × (place : Option ℕ)
            × WalksIn self.old form bytes rows b place × (i < length b.restarts) }
        ensures within { (form : forms.RowForm) (bytes : List ℕ) (rows : List Row) (b : Block form bytes rows) (place : Option ℕ)
            → WalksIn self.old form bytes rows b place → i < length b.restarts
            → (k : ℕ) × (slice_get b.restarts i ≡ Some (start_of form b.spelled k)) × WalksIn self.new form bytes rows b (place_of rows k) × (result ≡ nat_lt k (length rows)) × ((k ≡ 0) ⊎ (k < length rows)) }
        ensures tells { (form : forms.RowForm) (bytes : List ℕ) (rows : List Row) (b : Block form bytes rows) (place : Option ℕ)
            → WalksIn self.old form bytes rows b place → i < length b.restarts → result ≡ nat_lt 0 (length rows) }
    {
        let start = self.restart(i);
        self.go_to(start)
    }

    /// Goes to the last row. True exactly where there is one; else it stands nowhere.
    ///
    /// It goes to the last restart, and from there forward. RocksDB: `SeekToLast`.
    pub fn last(&mut self) -> bool
        requires { (rows : List Row) × (place : Option ℕ) × Walks self.old rows place }
        ensures moves { (rows : List Row) (place : Option ℕ) → Walks self.old rows place → Walks self.new rows (place_of rows (length rows - 1)) }
        ensures within { (form : forms.RowForm) (bytes : List ℕ) (rows : List Row) (b : Block form bytes rows) (place : Option ℕ)
            → WalksIn self.old form bytes rows b place → WalksIn self.new form bytes rows b (place_of rows (length rows - 1)) }
        ensures tells { (rows : List Row) (place : Option ℕ) → Walks self.old rows place → result ≡ nat_lt 0 (length rows) }
    {
        let there = self.at_restart(self.count - 1);
        if there {
            self.forward(0);
        }
        there
    }

    /// Goes to the row before. True exactly where there is one; else it stands nowhere. It stands at a row before.
    ///
    /// It goes to the last restart that is before the row where it stands, and from there forward. RocksDB: `Prev`.
    pub fn prev(&mut self) -> bool
        requires { (rows : List Row) × (i : ℕ) × Walks self.old rows (Some i) }
        ensures moves { (rows : List Row) (i : ℕ) → Walks self.old rows (Some i) → Walks self.new rows (place_before i) }
        ensures within { (form : forms.RowForm) (bytes : List ℕ) (rows : List Row) (b : Block form bytes rows) (i : ℕ)
            → WalksIn self.old form bytes rows b (Some i) → WalksIn self.new form bytes rows b (place_before i) }
        ensures tells { (rows : List Row) (i : ℕ) → Walks self.old rows (Some i) → result ≡ nat_lt 0 i }
    {
        let left = self.here.len();
        let start = self.rows.len() - left;
        if start == 0 {
            self.stands = false;
            return false;
        }
        let i = self.restart_before(start);
        self.at_restart(i);
        self.forward(left);
        true
    }

    /// Goes to the first row whose key isn't before the target, in the order of the form. True exactly where there is one; else it
    /// stands nowhere.
    ///
    /// Where the keys of the form have a tag, the target has at least eight bytes. The restarts are halved, and the walk goes
    /// forward from the last one whose row is before the target: it decodes the rows of one restart, and one row for each
    /// halving. RocksDB: `Seek` of `DataBlockIter` and `IndexBlockIter`, and `BinarySeek`, in table/block_based/block.cc.
    pub fn seek(&mut self, target: &[u8]) -> bool
        requires { CanSeek self.old target.now }
        ensures within { (form : forms.RowForm) (bytes : List ℕ) (rows : List Row) (b : Block form bytes rows) (place : Option ℕ)
            → WalksIn self.old form bytes rows b place → IsTarget form target.now
            → WalksIn self.new form bytes rows b (place_of rows (rows_before form target.now rows)) }
        ensures tells { (form : forms.RowForm) (bytes : List ℕ) (rows : List Row) (b : Block form bytes rows) (place : Option ℕ)
            → WalksIn self.old form bytes rows b place → IsTarget form target.now
            → result ≡ nat_lt (rows_before form target.now rows) (length rows) }
    {
        let i = self.restart_for(target);
        self.at_restart(i);
        self.forward_to(target)
    }

    /// The number of a restart before whose row all rows are before the target: the last such one that halving meets, or the
    /// first of all. The walk is moved.
    fn restart_for(&mut self, target: &[u8]) -> u32
        requires { CanSeek self.old target.now }
        ensures { (form : forms.RowForm) (bytes : List ℕ) (rows : List Row) (b : Block form bytes rows) (place : Option ℕ)
            → WalksIn self.old form bytes rows b place → IsTarget form target.now
            → (result < length b.restarts) × MayBegin form target.now b result
            × ((next : Option ℕ) × WalksIn self.new form bytes rows b next) }
    {
        let mut low = 0;
        let mut high = self.count;
        while high - low > 1 {
            let middle = low + (high - low) / 2;
            if self.begins_before(middle, target) {
                low = middle;
            } else {
                high = middle;
            }
        }
        low
    }

    /// Goes to the row that begins at the restart of this number, and answers whether its key is before the target.
    fn begins_before(&mut self, i: u32, target: &[u8]) -> bool
        requires seeks { CanSeek self.old target.now }
        requires restart { i < self.old.count }
        ensures { (form : forms.RowForm) (bytes : List ℕ) (rows : List Row) (b : Block form bytes rows) (place : Option ℕ)
            → WalksIn self.old form bytes rows b place → IsTarget form target.now
            → (k : ℕ) × (slice_get b.restarts i ≡ Some (start_of form b.spelled k)) × WalksIn self.new form bytes rows b (place_of rows k)
            × (result ≡ is_before form target.now (slice_get rows k)) × ((k ≡ 0) ⊎ (k < length rows)) }
    {
        self.at_restart(i);
        self.is_before(target)
    }

    /// Goes forward to the first row whose key isn't before the target, as are those of all rows that it has passed. It may stand
    /// there, or nowhere. True exactly where there is one.
    fn forward_to(&mut self, target: &[u8]) -> bool
        requires { (form : forms.RowForm) × (bytes : List ℕ) × (rows : List Row) × (b : Block form bytes rows) × (k : ℕ)
            × WalksIn self.old form bytes rows b (place_of rows k) × (k ≤ rows_before form target.now rows) × IsTarget form target.now }
        ensures { (form : forms.RowForm) (bytes : List ℕ) (rows : List Row) (b : Block form bytes rows) (k : ℕ)
            → WalksIn self.old form bytes rows b (place_of rows k) → k ≤ rows_before form target.now rows → IsTarget form target.now
            → WalksIn self.new form bytes rows b (place_of rows (rows_before form target.now rows))
            × (result ≡ nat_lt (rows_before form target.now rows) (length rows)) }
    {
        while self.is_before(target) {
            if !self.step() {
                return false;
            }
        }
        self.stands
    }

    /// It stands at a row whose key is before the target.
    fn is_before(&self, target: &[u8]) -> bool
        requires { CanSeek self.now target.now }
        ensures { (form : forms.RowForm) (bytes : List ℕ) (rows : List Row) (b : Block form bytes rows) (place : Option ℕ)
            → WalksIn self.now form bytes rows b place → IsTarget form target.now
            → result ≡ is_before form target.now (option_and_then (slice_get rows) place) }
    {
        if !self.stands {
            return false;
        }
        key_cmp(self.form, self.key.bytes(), target).is_lt()
    }

    /// The number of the last restart that is before the place, which isn't the first of all.
    fn restart_before(&self, place: usize) -> u32
        requires some { 0 < self.now.count }
        requires room { 4 * self.now.count ≤ length self.now.places.now }
        requires first { BeginsBefore self.now.places.now 0 place }
        ensures { (result < self.now.count) × BeginsBefore self.now.places.now result place }
    {
        let mut low = 0;
        let mut high = self.count;
        while high - low > 1 {
            let middle = low + (high - low) / 2;
            if self.restart(middle) < place {
                low = middle;
            } else {
                high = middle;
            }
        }
        low
    }

    /// The restart of this number, from 0.
    fn restart(&self, i: u32) -> usize
        requires { 4 * i + 4 ≤ length self.now.places.now }
        ensures { restart_at self.now.places.now i ≡ Some result }
    {
        let (_, from) = self.places.split_at(NUMBER_LENGTH * i as usize);
        fixed32(from) as usize
    }

    /// Goes to the row that begins at this place and shares nothing, if there is one.
    fn go_to(&mut self, start: usize) -> bool
        requires { start ≤ length self.old.rows.now }
        ensures none { row_at self.old.form no_handle [] (drop start self.old.rows.now) ≡ None → (result ≡ false) × (self.new.stands ≡ false) }
        ensures some { (s : Spelled) (used : ℕ) → row_at self.old.form no_handle [] (drop start self.old.rows.now) ≡ Some (s, used)
            → (result ≡ true) × HasTaken self.new self.old.form no_handle s used (drop start self.old.rows.now) }
        ensures stays { StaysIn self.old self.new }
    {
        let (_, from) = self.rows.split_at(start);
        self.after = from;
        self.key.set(0, &[]);
        self.handle = NO_HANDLE;
        self.step()
    }

    /// Goes forward to the row behind which so many bytes are left. It stands there or before.
    fn forward(&mut self, left: usize)
        requires { Reaches self.old left }
        ensures { (form : forms.RowForm) (bytes : List ℕ) (rows : List Row) (b : Block form bytes rows) (i j : ℕ)
            → WalksIn self.old form bytes rows b (Some i) → i ≤ j → j < length rows → left ≡ bytes_behind form b.spelled j
            → WalksIn self.new form bytes rows b (Some j) }
    {
        while self.after.len() > left {
            self.step();
        }
    }

    /// Goes to the row that comes after, if there is one.
    fn step(&mut self) -> bool
        ensures none { row_at self.old.form self.old.handle self.old.key self.old.after.now ≡ None → (result ≡ false) × (self.new.stands ≡ false) }
        ensures some { (s : Spelled) (used : ℕ) → row_at self.old.form self.old.handle self.old.key self.old.after.now ≡ Some (s, used)
            → (result ≡ true) × HasTaken self.new self.old.form self.old.handle s used self.old.after.now }
        ensures stays { StaysIn self.old self.new }
    {
        match row_lengths(self.form, self.handle, self.key.bytes(), self.after) {
            None => {
                self.stands = false;
                false
            }
            Some(l) => {
                let row = split_row(self.after, l);
                self.key.set(l.shared, row.rest);
                self.handle = handle_after(self.form, self.handle, l.shared, row.value);
                self.value = row.value;
                self.here = self.after;
                self.after = row.after;
                self.stands = true;
                true
            }
        }
    }
}
