//! The moves of a place over the list of a table's entries, None for nowhere.
ghost use Rattle.std.specs.Prelude.{◌≡◌, ℕ, ◌+◌, ◌-◌, ◌<◌, ◌≤◌, List, [], length, take, drop, Option, None, Some, IfSome, IfNone, option_and_then, slice_get};
ghost use Rattle.std.specs.Option.{is_some};
ghost use Rattle.sst_key.specs.Entry.{IsOrdered, entry_of};
ghost use Rattle.sst_key.specs.ListMachine as machine;
ghost use Rattle.sst_key.specs.declared.calls.Call.TheVariants as call;
ghost use Rattle.sst_bbt_read.specs.Cursors.{IsPlace, Comes};
ghost use Rattle.sst_bbt_read.specs.TableBlocks.{AreSeparators, parts_of, start_at};
ghost use Rattle.sst_bbt_read.specs.declared.kept_table.RunEnd.{RunEnd as run_end};
ghost use Rattle.sst_bbt_spec.specs.Parts.{stored_in};
ghost use Rattle.sst_bbt_spec.specs.PartWay.{answer_in_parts, get_in_parts, seek_in_parts, seek_for_prev_in_parts, seek_passed_in, prev_passed_in};

use crate::kept_table::{KeptTable, RunEnd};
use crate::search::{
    below, blocks_before_seek, blocks_before_seek_for_prev, runs_before_seek,
    runs_before_seek_for_prev, up_to,
};
use sst_key::{Entry, EntryView, Reply};

/// What a move that landed here replies.
fn reply(place: Option<usize>) -> Reply
    ensures { Comes result place (machine.lands place) }
{
    match place {
        Some(_) => Reply::Shown,
        None => Reply::None,
    }
}

/// Where the i-th of some runs begins. `i` is at most the number of runs.
fn start_of(runs: &[RunEnd], i: usize) -> usize
    requires { i ≤ length runs.now }
    ensures { result ≡ start_at 0 runs.now i }
{
    match i.checked_sub(1) {
        None => 0,
        Some(before) => runs[before].end,
    }
}

impl KeptTable {
    /// The place, if it is one of the list.
    fn place_in(&self, i: usize) -> Option<usize>
        ensures place { result ≡ machine.place_in self.now.entries i }
        ensures belongs { IsPlace self.now.entries result }
    {
        if i < self.entries.len() {
            Some(i)
        } else {
            None
        }
    }

    /// The place after, if it is one of the list.
    fn place_after(&self, i: usize) -> Option<usize>
        ensures place { result ≡ machine.next_of self.now.entries i }
        ensures belongs { IsPlace self.now.entries result }
    {
        if i < self.entries.len() {
            self.place_in(i + 1)
        } else {
            None
        }
    }

    /// The number of the first data block of a part, and the data blocks of the part. None where there aren't so many parts.
    fn part(&self, i: usize) -> Option<(usize, &[RunEnd])>
        ensures none { IfNone result (length self.now.tops ≤ i) }
        ensures some { IfSome result (λ p. (top : run_end) × (slice_get self.now.tops i ≡ Some top) × (p.0 ≡ start_at 0 self.now.tops i)
            × (p.1.now ≡ take (top.end - p.0) (drop p.0 self.now.ends))) }
        ensures separators { IfSome result (λ p. AreSeparators p.1.now) }
        ensures within { IfSome result (λ p. p.0 + length p.1.now ≤ length self.now.ends) }
    {
        let top = self.tops.get(i)?;
        let first = start_of(self.tops.as_slice(), i);
        Some((first, &self.ends[first..top.end]))
    }

    /// Where the entries of a data block begin, and the entries. `i` is below the number of data blocks.
    fn block(&self, i: usize) -> (usize, &[Entry])
        requires { i < length self.now.ends }
        ensures start { result.0 ≡ start_at 0 self.now.ends i }
        ensures entries { (end : run_end) → slice_get self.now.ends i ≡ Some end
            → result.1.now ≡ take (end.end - result.0) (drop result.0 self.now.entries) }
        ensures ordered { IsOrdered result.1.now }
        ensures within { result.0 + length result.1.now ≤ length self.now.entries }
    {
        let start = start_of(self.ends.as_slice(), i);
        let end = self.ends[i].end;
        (start, &self.entries[start..end])
    }

    /// The i-th data block of a part of `count` data blocks from `first` on; where the part has no such block, no entries
    /// at the part's end.
    fn block_in(&self, first: usize, count: usize, i: usize) -> (usize, &[Entry])
        requires part { first + count ≤ length self.now.ends }
        requires block { i ≤ count }
        ensures start { result.0 ≡ start_at 0 self.now.ends (first + i) }
        ensures entries { i < count → (end : run_end) → slice_get self.now.ends (first + i) ≡ Some end
            → result.1.now ≡ take (end.end - result.0) (drop result.0 self.now.entries) }
        ensures none { count ≤ i → result.1.now ≡ [] }
        ensures ordered { IsOrdered result.1.now }
        ensures within { result.0 + length result.1.now ≤ length self.now.entries }
    {
        if i < count {
            self.block(first + i)
        } else {
            (start_of(self.ends.as_slice(), first + i), &[])
        }
    }

    /// How many entries Seek passes: the separators of the top block lead to a part, those of the part to a data block, in
    /// which the entries before the target are halved. None where it goes past all parts. In a whole index the top block leads
    /// to the data block.
    fn seek_passed(&self, user: &[u8], seq: u64) -> Option<usize>
        ensures passed { result ≡ seek_passed_in None (parts_of self.now) user.now seq }
    {
        let part = runs_before_seek(&self.tops, user, seq);
        let (first, ends) = self.part(part)?;
        let i = blocks_before_seek(self.whole, ends, user, seq);
        let (start, block) = self.block_in(first, ends.len(), i);
        Some(start + below(block, user, seq))
    }

    /// How many entries SeekForPrev passes: as Seek, and those at the target too.
    fn prev_passed(&self, user: &[u8], seq: u64) -> Option<usize>
        ensures passed { result ≡ prev_passed_in None (parts_of self.now) user.now seq }
        ensures within { IfSome result (λ n. n ≤ length self.now.entries) }
    {
        let part = runs_before_seek_for_prev(&self.tops, user, seq);
        let (first, ends) = self.part(part)?;
        let i = blocks_before_seek_for_prev(self.whole, ends, user, seq);
        let (start, block) = self.block_in(first, ends.len(), i);
        Some(start + up_to(block, user, seq))
    }

    /// Where Seek lands: after the entries that it passed, be it in the next data block or part; past all parts nowhere.
    fn seek_place(&self, user: &[u8], seq: u64) -> Option<usize>
        ensures place { result ≡ seek_in_parts None (parts_of self.now) user.now seq }
        ensures belongs { IsPlace self.now.entries result }
    {
        let _entries = &self.entries;
        let passed = self.seek_passed(user, seq)?;
        self.place_in(passed)
    }

    /// Where SeekForPrev lands: on the last entry that it passed, be it in the data block or part before; past all parts on
    /// the last of all.
    fn seek_for_prev_place(&self, user: &[u8], seq: u64) -> Option<usize>
        ensures place { result ≡ seek_for_prev_in_parts None (parts_of self.now) user.now seq }
        ensures belongs { IsPlace self.now.entries result }
    {
        match self.prev_passed(user, seq) {
            Some(passed) => passed.checked_sub(1),
            None => self.entries.len().checked_sub(1),
        }
    }

    /// The place, if the entry there has the user key.
    fn of_user(&self, place: Option<usize>, user: &[u8]) -> Option<usize>
        requires { IsPlace self.now.entries place }
        ensures place { result ≡ option_and_then (λ i. machine.where_passes (machine.is_of_user user.now) i (slice_get self.now.entries i)) place }
        ensures belongs { IsPlace self.now.entries result }
    {
        let i = place?;
        match self.entries.get(i) {
            Some(entry) if entry.user.as_slice() == user => Some(i),
            _ => None,
        }
    }

    /// Goes to the newest entry of the user key at the snapshot, and answers true; or to nowhere, and answers
    /// false, where there is none. It looks where a Seek lands.
    ///
    /// RocksDB: `BlockBasedTable::Get` in table/block_based/block_based_table_reader.cc.
    pub fn get(&self, place: &mut Option<usize>, user: &[u8], seq: u64) -> bool
        ensures place { place.new ≡ get_in_parts None (parts_of self.now) user.now seq }
        ensures found { result ≡ is_some place.new }
        ensures belongs { IsPlace self.now.entries place.new }
    {
        let _entries = &self.entries;
        *place = self.of_user(self.seek_place(user, seq), user);
        place.is_some()
    }

    /// Goes to the first entry.
    ///
    /// RocksDB: `Iterator::SeekToFirst`.
    pub fn first(&self, place: &mut Option<usize>) -> Reply
        ensures exact { Comes result place.new (answer_in_parts None (parts_of self.now) place.old call.First) }
        ensures belongs { IsPlace self.now.entries place.new }
    {
        let _entries = &self.entries;
        *place = self.place_in(0);
        reply(*place)
    }

    /// Goes to the last entry.
    ///
    /// RocksDB: `Iterator::SeekToLast`.
    pub fn last(&self, place: &mut Option<usize>) -> Reply
        ensures exact { Comes result place.new (answer_in_parts None (parts_of self.now) place.old call.Last) }
        ensures belongs { IsPlace self.now.entries place.new }
    {
        *place = self.entries.len().checked_sub(1);
        reply(*place)
    }

    /// Goes to the first entry at or after the target, by the way of the index: to nowhere where every separator of the top
    /// block is before the target.
    ///
    /// RocksDB: `BlockBasedTableIterator::Seek` in table/block_based/block_based_table_iterator.cc, `SeekImpl` in
    /// table/block_based/partitioned_index_iterator.cc.
    pub fn seek(&self, place: &mut Option<usize>, user: &[u8], seq: u64) -> Reply
        ensures exact { Comes result place.new (answer_in_parts None (parts_of self.now) place.old (call.Seek (record { user = user.now; seq = seq }))) }
        ensures belongs { IsPlace self.now.entries place.new }
    {
        *place = self.seek_place(user, seq);
        reply(*place)
    }

    /// Goes to the last entry at or before the target, by the way of the index: to the last of all where every separator
    /// of the top block is before the target.
    ///
    /// RocksDB: `BlockBasedTableIterator::SeekForPrev` in table/block_based/block_based_table_iterator.cc.
    pub fn seek_for_prev(&self, place: &mut Option<usize>, user: &[u8], seq: u64) -> Reply
        ensures exact { Comes result place.new (answer_in_parts None (parts_of self.now) place.old (call.SeekForPrev (record { user = user.now; seq = seq }))) }
        ensures belongs { IsPlace self.now.entries place.new }
    {
        *place = self.seek_for_prev_place(user, seq);
        reply(*place)
    }

    /// Goes one entry on; from nowhere it stays there.
    ///
    /// RocksDB: `Iterator::Next`.
    pub fn next(&self, place: &mut Option<usize>) -> Reply
        requires { IsPlace self.now.entries place.old }
        ensures exact { Comes result place.new (answer_in_parts None (parts_of self.now) place.old call.Next) }
        ensures belongs { IsPlace self.now.entries place.new }
    {
        match *place {
            None => Reply::NotPositioned,
            Some(i) => {
                let _entries = &self.entries;
                *place = self.place_after(i);
                reply(*place)
            }
        }
    }

    /// Goes one entry back; from nowhere it stays there.
    ///
    /// RocksDB: `Iterator::Prev`.
    pub fn prev(&self, place: &mut Option<usize>) -> Reply
        requires { IsPlace self.now.entries place.old }
        ensures exact { Comes result place.new (answer_in_parts None (parts_of self.now) place.old call.Prev) }
        ensures belongs { IsPlace self.now.entries place.new }
    {
        match *place {
            None => Reply::NotPositioned,
            Some(i) => {
                *place = i.checked_sub(1);
                reply(*place)
            }
        }
    }

    /// The entry at a place of the list, lent. It is one of a part.
    pub fn entry(&self, place: usize) -> EntryView<'_>
        requires { place < length self.now.entries }
        ensures { slice_get (stored_in (parts_of self.now)) place ≡ Some (entry_of result) }
    {
        let entry = &self.entries[place];
        EntryView {
            user: entry.user.as_slice(),
            seq: entry.seq,
            kind: entry.kind,
            value: entry.value.as_slice(),
        }
    }
}
