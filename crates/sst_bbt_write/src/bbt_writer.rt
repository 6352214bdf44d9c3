//! The writer of block-based files: entries are added in order, or refused for the first reason in a fixed
//! order.
//!
//! What it keeps after a list is `After` (specs/After.antt): the data block that isn't ended, the index of those that are,
//! the last key, and what counts towards the limits and the properties.
ghost use Rattle.std.specs.Prelude.{◌≡◌, ℕ, ◌<◌, ◌≤◌, ◌^◌, List, [], ◌∷◌, ◌++◌, length, Some, None, Err, IsErr, IfOk, OnOk, OnErr};
ghost use Rattle.std.specs.Option.{option_map};
ghost use Rattle.sst_key.specs.Entry.{entry_of, key_of};
ghost use Rattle.sst_key.specs.Entry.{weight as weight_of};
ghost use Rattle.sst_key.specs.declared.entries.Entry.{Entry};
ghost use Rattle.sst_block.specs.Builder.{Holds, last_key};
ghost use Rattle.sst_block.specs.declared.row_form.RowForm.TheVariants.{Entries};
ghost use Rattle.sst_bbt_write.specs.After.{After, HasFailed, IsInUse};
ghost use Rattle.sst_bbt_write.specs.Reasons.{reason, is_after};
ghost use Rattle.sst_bbt_spec.specs.Rows.{rows_of};
ghost use Rattle.sst_bbt_write.specs.Cut.{Blocks, is_full};
ghost use Rattle.sst_key.specs.Limits.{weight_limit};
ghost use Rattle.sst_bbt_write.specs.Keeps.{Awaits, MayEnd, Keeps, KeepsSome, all_ended, ended_now, ended_last, with_room, with_entry};
ghost use Rattle.sst_bbt_write.specs.Written.{Fits, MayBeChosen, Written, end_part, sizes_of};
ghost use Rattle.sst_bbt_write.specs.declared.bbt_options.BbtOptions.{BbtOptions};

use crate::bbt_options::BbtOptions;
use crate::properties::Sizes;
use crate::table_parts::{TRAILER_LENGTH, put_end};
use sst_block::{BlockBuilder, RowForm};
use sst_device::put_frame;
use sst_index::IndexBuilder;
use sst_key::{EntryView, WriteFault, cmp_internal, pack};
use sst_num::{Handle, Memory, Refused};
use std::alloc::Global;
use std::mem;

/// The most bytes of a user key.
const KEY_LIMIT: usize = 65_536;

/// The most bytes of a value.
const VALUE_LIMIT: usize = 16_777_216;

/// The most that a list weighs.
const WEIGHT_LIMIT: u64 = 1 << 28;

/// What an entry weighs beside its key and its value.
const ENTRY_WEIGHT: u64 = 64;

/// Makes a block-based file of entries that come in order.
///
/// The file is all that the calls append, in order: each data block as it ends, and the rest in `finish`. After want of
/// memory each later call answers it.
/// RocksDB: `BlockBasedTableBuilder` in table/block_based/block_based_table_builder.h.
#[derive(Drop)]
pub struct BbtWriter {
    /// Where memory comes from.
    alloc: Global,
    /// What was chosen.
    options: BbtOptions,
    /// The data block that isn't ended.
    block: BlockBuilder,
    /// How many entries it has.
    rows: u64,
    /// The index of the data blocks that are ended.
    index: IndexBuilder,
    /// How many these are.
    blocks: u64,
    /// How many bytes they take with their trailers.
    data_size: u64,
    /// The internal key of the last entry.
    last: Vec<u8>,
    /// The internal key of the entry that is being added.
    key: Vec<u8>,
    /// How many entries there are.
    count: u64,
    /// The bytes of their internal keys.
    keys: u64,
    /// The bytes of their values.
    values: u64,
    /// What they weigh.
    weight: u64,
    /// Memory ran out in an earlier call.
    failed: bool,
}

/// A data block with no entry.
fn data_block(alloc: Global, options: &BbtOptions) -> Result<BlockBuilder, Memory>
    requires { MayBeChosen options.now }
    ensures { IfOk result (λ b. Holds b Entries options.now.restart []) }
{
    BlockBuilder::new(alloc, RowForm::Entries, options.restart, false)
}

impl BbtWriter {
    /// A writer of no entry.
    pub fn new(alloc: Global, options: BbtOptions) -> Result<BbtWriter, Memory>
        requires { MayBeChosen options }
        ensures { IfOk result (λ w. After w options [] []) }
    {
        Ok(BbtWriter {
            alloc,
            options,
            block: data_block(alloc, &options)?,
            rows: 0,
            index: IndexBuilder::new(alloc, options.version, options.index_restart, options.parts)?,
            blocks: 0,
            data_size: 0,
            last: Vec::new(alloc),
            key: Vec::new(alloc),
            count: 0,
            keys: 0,
            values: 0,
            weight: 0,
            failed: false,
        })
    }

    /// Adds an entry after the others, whose sequence number is below 2^56, and appends the data block that ended
    /// before it, if one did.
    ///
    /// It refuses with the first of `NotIncreasing`, `KeyLong`, `ValueLong` and `Heavy` that the entry gives
    /// reason for; then the writer and `out` are as they were. Where memory runs out, `out` holds its old bytes followed
    /// by any.
    pub fn add(&mut self, e: EntryView<'_>, out: &mut Vec<u8>) -> Result<(), Refused<WriteFault>>
        requires seq { e.seq < 2 ^ 56 }
        requires writer { IsInUse self.old }
        ensures ok { OnOk result ((options : BbtOptions) (entries : List Entry) (bytes : List ℕ) → After self.old options entries bytes
            → (piece : List ℕ) × (out.new.items ≡ out.old.items ++ piece)
            × After self.new options (entries ++ entry_of e.entry ∷ []) (bytes ++ piece)) }
        ensures good { OnOk result ((options : BbtOptions) (entries : List Entry) (bytes : List ℕ) → After self.old options entries bytes
            → reason entries (entry_of e.entry) ≡ None) }
        ensures refused { (fault : WriteFault) → result ≡ Err (Refused.Cause fault)
            → (options : BbtOptions) (entries : List Entry) (bytes : List ℕ) → After self.old options entries bytes
            → (reason entries (entry_of e.entry) ≡ Some fault) × After self.new options entries bytes }
        ensures out { (fault : WriteFault) → result ≡ Err (Refused.Cause fault) → out.new.items ≡ out.old.items }
        ensures grows { (rest : List ℕ) × (out.new.items ≡ out.old.items ++ rest) }
        ensures memory { result ≡ Err Refused.Memory → HasFailed self.new }
        ensures later { HasFailed self.old → result ≡ Err Refused.Memory }
        ensures in_use { IsInUse self.new }
    {
        if self.failed {
            return Err(Refused::Memory);
        }
        match self.put(&e, out) {
            Ok(()) => Ok(()),
            Err(Refused::Cause(fault)) => Err(Refused::Cause(fault)),
            Err(Refused::Memory) => {
                self.failed = true;
                Err(Refused::Memory)
            }
        }
    }

    /// How many entries were added. Takes no memory.
    ///
    /// Of a writer in which no call has failed.
    pub fn count(&self) -> u64
        requires { (options : BbtOptions) × (entries : List Entry) × (bytes : List ℕ) × After self.now options entries bytes }
        ensures exact { (options : BbtOptions) (entries : List Entry) (bytes : List ℕ) → After self.now options entries bytes → result ≡ length entries }
        ensures few { result ≤ 2 ^ 22 }
    {
        self.count
    }

    /// Ends the file: appends what is left of it, and answers how many entries it has.
    ///
    /// Where memory runs out, `out` holds its old bytes followed by any.
    pub fn finish(self, out: &mut Vec<u8>) -> Result<u64, Memory>
        requires { IsInUse self }
        ensures written { IfOk result (λ count. (options : BbtOptions) (entries : List Entry) (bytes : List ℕ) → After self options entries bytes
            → (rest : List ℕ) × (out.new.items ≡ out.old.items ++ rest) × Written options (bytes ++ rest) entries
            × (count ≡ length entries)) }
        ensures err { OnErr result ((rest : List ℕ) × (out.new.items ≡ out.old.items ++ rest)) }
        ensures later { HasFailed self → IsErr result }
    {
        if self.failed {
            return Err(Memory);
        }
        let mut writer = self;
        writer.end_last(out)?;
        writer.put_rest(out)
    }

    /// Appends what stands behind the data blocks, all of which are ended, and answers how many entries there are.
    fn put_rest(self, out: &mut Vec<u8>) -> Result<u64, Memory>
        requires { (blocks : List (List Entry)) × (entries : List Entry) × (bytes : List ℕ) × Keeps self None (all_ended blocks) entries bytes }
        ensures written { IfOk result (λ count. (blocks : List (List Entry)) (entries : List Entry) (bytes : List ℕ) → Keeps self None (all_ended blocks) entries bytes
            → (out.new.items ≡ out.old.items ++ end_part self.options blocks (sizes_of self.options blocks entries)) × (count ≡ length entries)) }
        ensures err { OnErr result ((rest : List ℕ) × (out.new.items ≡ out.old.items ++ rest)) }
    {
        let flags = self.index.flags();
        let start = out.len();
        let index = self.index.finish(self.data_size, out)?;
        let sizes = Sizes {
            data_size: self.data_size,
            index_size: (out.len() - start) as u64,
            blocks: self.blocks,
            entries: self.count,
            keys: self.keys,
            values: self.values,
        };
        put_end(self.alloc, out, self.options, flags, index, sizes)?;
        Ok(self.count)
    }

    /// The data block has an entry, and so many bytes that it is ended before the next one.
    fn is_full(&self) -> bool
        requires { KeepsSome self.now }
        ensures { (cut : Blocks) (entries : List Entry) (bytes : List ℕ) → Keeps self.now None cut entries bytes
            → result ≡ is_full self.now.options cut.current }
    {
        if self.rows == 0 {
            return false;
        }
        self.block.size_now() >= self.options.block_size as usize
    }

    /// Ends the data block before the entry at hand, if it is full.
    ///
    /// RocksDB: `FlushBlockBySizePolicy::Update` in table/block_based/flush_block_policy.cc.
    fn make_room(&mut self, out: &mut Vec<u8>) -> Result<(), Memory>
        requires { (e : Entry) × (cut : Blocks) × (entries : List Entry) × (bytes : List ℕ) × Awaits self.old e cut entries bytes }
        ensures ok { OnOk result ((e : Entry) (cut : Blocks) (entries : List Entry) (bytes : List ℕ) → Awaits self.old e cut entries bytes
            → (piece : List ℕ) × (out.new.items ≡ out.old.items ++ piece)
            × Keeps self.new (Some (key_of e)) (with_room self.old.options cut) entries (bytes ++ piece)) }
        ensures grows { (rest : List ℕ) × (out.new.items ≡ out.old.items ++ rest) }
        ensures same { (self.new.options ≡ self.old.options) × (self.new.key ≡ self.old.key) }
    {
        match self.is_full() {
            true => {
                let key = mem::replace(&mut self.key, Vec::new(self.alloc));
                let ended = self.end_block(Some(&key), out);
                self.key = key;
                ended
            }
            false => Ok(()),
        }
    }

    /// Ends the data block, if it has an entry. No entry follows.
    fn end_last(&mut self, out: &mut Vec<u8>) -> Result<(), Memory>
        requires { KeepsSome self.old }
        ensures ok { OnOk result ((cut : Blocks) (entries : List Entry) (bytes : List ℕ) → Keeps self.old None cut entries bytes
            → (piece : List ℕ) × (out.new.items ≡ out.old.items ++ piece) × Keeps self.new None (ended_last cut) entries (bytes ++ piece)) }
        ensures grows { (rest : List ℕ) × (out.new.items ≡ out.old.items ++ rest) }
        ensures same { self.new.options ≡ self.old.options }
    {
        if self.rows == 0 {
            return Ok(());
        }
        self.end_block(None, out)
    }

    /// Ends the data block, which has an entry: appends it, and adds it to the index. `next` is the key of the entry behind it,
    /// if there is one.
    ///
    /// RocksDB: `BlockBasedTableBuilder::Flush` in table/block_based/block_based_table_builder.cc, and
    /// `IndexBuilder::AddIndexEntry` in table/block_based/index_builder.h.
    fn end_block(&mut self, next: Option<&[u8]>, out: &mut Vec<u8>) -> Result<(), Memory>
        requires { (coming : List Entry) × (cut : Blocks) × (entries : List Entry) × (bytes : List ℕ) × MayEnd self.old (option_map (λ b. b.now) next) coming cut entries bytes }
        ensures ok { OnOk result ((coming : List Entry) (cut : Blocks) (entries : List Entry) (bytes : List ℕ)
            → MayEnd self.old (option_map (λ b. b.now) next.entry) coming cut entries bytes
            → (piece : List ℕ) × (out.new.items ≡ out.old.items ++ piece)
            × Keeps self.new (option_map (λ b. b.now) next.entry) (ended_now cut) entries (bytes ++ piece)) }
        ensures grows { (rest : List ℕ) × (out.new.items ≡ out.old.items ++ rest) }
        ensures same { (self.new.options ≡ self.old.options) × (self.new.key ≡ self.old.key) }
    {
        let empty = data_block(self.alloc, &self.options)?;
        let block = mem::replace(&mut self.block, empty).finish()?;
        let size = block.len() as u64;
        put_frame(out, block.as_slice())?;
        let handle = Handle {
            offset: self.data_size,
            size,
        };
        self.index.add(&self.last, next, handle)?;
        self.rows = 0;
        self.blocks += 1;
        self.data_size += size + TRAILER_LENGTH;
        Ok(())
    }

    /// Adds an entry after the others, or refuses it.
    fn put(&mut self, e: &EntryView<'_>, out: &mut Vec<u8>) -> Result<(), Refused<WriteFault>>
        requires seq { e.now.seq < 2 ^ 56 }
        requires writer { (options : BbtOptions) × (entries : List Entry) × (bytes : List ℕ) × After self.old options entries bytes }
        ensures ok { OnOk result ((options : BbtOptions) (entries : List Entry) (bytes : List ℕ) → After self.old options entries bytes
            → (piece : List ℕ) × (out.new.items ≡ out.old.items ++ piece)
            × After self.new options (entries ++ entry_of e.now ∷ []) (bytes ++ piece)) }
        ensures good { OnOk result ((options : BbtOptions) (entries : List Entry) (bytes : List ℕ) → After self.old options entries bytes
            → reason entries (entry_of e.now) ≡ None) }
        ensures refused { (fault : WriteFault) → result ≡ Err (Refused.Cause fault)
            → (options : BbtOptions) (entries : List Entry) (bytes : List ℕ) → After self.old options entries bytes
            → (reason entries (entry_of e.now) ≡ Some fault) × After self.new options entries bytes }
        ensures out { (fault : WriteFault) → result ≡ Err (Refused.Cause fault) → out.new.items ≡ out.old.items }
        ensures grows { (rest : List ℕ) × (out.new.items ≡ out.old.items ++ rest) }
    {
        self.key.clear();
        pack(&mut self.key, e.user, e.seq, e.kind)?;
        match fault_of(self.count, self.weight, &self.last, &self.key, e) {
            Some(fault) => Err(Refused::Cause(fault)),
            None => {
                self.make_room(out)?;
                self.push(e)?;
                Ok(())
            }
        }
    }

    /// Adds the row of an entry that isn't refused, whose internal key was made, to a data block that isn't full.
    fn push(&mut self, e: &EntryView<'_>) -> Result<(), Memory>
        requires key { self.old.key.items ≡ key_of (entry_of e.now) }
        requires writer { (cut : Blocks) × (entries : List Entry) × (bytes : List ℕ) × Keeps self.old (Some (key_of (entry_of e.now))) cut entries bytes
            × Fits (entries ++ entry_of e.now ∷ []) }
        ensures ok { OnOk result ((cut : Blocks) (entries : List Entry) (bytes : List ℕ) → Keeps self.old (Some (key_of (entry_of e.now))) cut entries bytes
            → Fits (entries ++ entry_of e.now ∷ [])
            → Keeps self.new None (with_entry cut (entry_of e.now)) (entries ++ entry_of e.now ∷ []) bytes) }
        ensures options { self.new.options ≡ self.old.options }
    {
        self.block.add(&self.key, e.value, &[])?;
        self.keys += self.key.len() as u64;
        mem::swap(&mut self.last, &mut self.key);
        self.rows += 1;
        self.count += 1;
        self.values += e.value.len() as u64;
        self.weight += e.user.len() as u64 + e.value.len() as u64 + ENTRY_WEIGHT;
        Ok(())
    }
}

/// The first reason to refuse an entry whose internal key is `key`, after `count` entries of this weight, the
/// last of which has the internal key `last`.
fn fault_of(
    count: u64,
    weight: u64,
    last: &[u8],
    key: &[u8],
    e: &EntryView<'_>,
) -> Option<WriteFault>
    requires last { 0 < count → 8 ≤ length last.now }
    requires key { 8 ≤ length key.now }
    requires light { weight ≤ weight_limit }
    ensures { (entries : List Entry) → count ≡ length entries → weight ≡ weight_of entries
        → last.now ≡ last_key [] (rows_of entries) → key.now ≡ key_of (entry_of e.now)
        → result ≡ reason entries (entry_of e.now) }
{
    if !comes_after(count, last, key) {
        return Some(WriteFault::NotIncreasing);
    }
    if e.user.len() > KEY_LIMIT {
        return Some(WriteFault::KeyLong);
    }
    if e.value.len() > VALUE_LIMIT {
        return Some(WriteFault::ValueLong);
    }
    if weight + e.user.len() as u64 + e.value.len() as u64 + ENTRY_WEIGHT > WEIGHT_LIMIT {
        return Some(WriteFault::Heavy);
    }
    None
}

/// An entry with the internal key `key` is after `count` entries, the last of which has the internal key `last`.
fn comes_after(count: u64, last: &[u8], key: &[u8]) -> bool
    requires last { 0 < count → 8 ≤ length last.now }
    requires key { 8 ≤ length key.now }
    ensures { (entries : List Entry) (e : Entry) → count ≡ length entries
        → last.now ≡ last_key [] (rows_of entries) → key.now ≡ key_of e → result ≡ is_after entries e }
{
    if count == 0 {
        return true;
    }
    cmp_internal(last, key).is_lt()
}
