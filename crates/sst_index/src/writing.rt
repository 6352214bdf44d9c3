//! The blocks of a whole index, written.
ghost use Rattle.std.specs.Prelude.{◌≡◌, ◌⊎◌, ℕ, ◌+◌, ◌-◌, ◌^◌, ◌<◌, ◌≤◌, Some, List, [], ◌∷◌, ◌++◌, length, take, drop, slice_get, IfOk, OnOk, OnErr};
ghost use Rattle.std.specs.Result.{IsErr};
ghost use Rattle.sst_block.specs.IndexRows.{IndexPair};
ghost use Rattle.sst_device.specs.Framed.{frame_of};
ghost use Rattle.sst_index.specs.declared.flags.IndexFlags as declared;
ghost use Rattle.sst_index.specs.Ends.{BlockEnd, pairs_of, separator_in};
ghost use Rattle.sst_index.specs.Index.{HasFailed, Holds, IsReady, kept_pairs, rows_between};
ghost use Rattle.sst_index.specs.IndexBlock.{index_block};
ghost use Rattle.sst_index.specs.IndexBytes.{IndexOptions, index_bytes, part_pair, part_pairs, parts_of, stored_parts, top_handle, top_separators, whole_bytes, whole_handle};
ghost use Rattle.sst_index.specs.Top.{CanAddPair, HoldsPairs};

use crate::builder::IndexBuilder;
use crate::flags::IndexFlags;
use crate::separators::user_part;
use crate::top::TopBuilder;
use sst_device::put_frame;
use sst_num::{Bytes, Handle, Memory};

impl IndexBuilder {
    /// The separator and handle of a row.
    fn pair(&self, user_key: bool, row: usize) -> (&[u8], Handle)
        requires ready { (flags : declared.IndexFlags) × IsReady self.now flags }
        requires row { row < length self.now.rows.items }
        ensures { slice_get (kept_pairs user_key self.now) row ≡ Some (record { separator = result.0.now; handle = result.1 }) }
    {
        let kept = self.rows[row];
        let (_, behind) = self.keys.split_at(kept.start);
        let (key, _) = behind.split_at(kept.length);
        (in_form(user_key, key), kept.handle)
    }

    /// The block of the rows from one to before another.
    fn block_of_rows(&self, flags: IndexFlags, from: usize, to: usize) -> Result<Bytes, Memory>
        requires ready { IsReady self.now flags }
        requires from { from ≤ to }
        requires to { to ≤ length self.now.rows.items }
        ensures { IfOk result (λ b. b ≡ index_block flags self.now.interval (take (to - from) (drop from (kept_pairs flags.user_key self.now)))) }
    {
        let mut block = TopBuilder::new(self.alloc, flags, self.interval)?;
        for row in from..to {
            let (separator, handle) = self.pair(flags.user_key, row);
            block.add(separator, handle)?;
        }
        block.finish()
    }

    /// Appends the partition of the rows from one to before another, which stands at a place in the file, and leads to it from
    /// the top block.
    fn put_part(
        &self,
        flags: IndexFlags,
        from: usize,
        to: usize,
        at: u64,
        top: &mut TopBuilder,
        out: &mut Vec<u8>,
    ) -> Result<(), Memory>
        requires ready { IsReady self.now flags }
        requires from { from < to }
        requires to { to ≤ length self.now.rows.items }
        requires top { CanAddPair top.old (part_pair flags self.now.interval at (rows_between flags self.now from to)) }
        ensures bytes { OnOk result (out.new.items ≡ out.old.items ++ frame_of (index_block flags self.now.interval (rows_between flags self.now from to))) }
        ensures top { OnOk result ((pairs : List IndexPair) → HoldsPairs top.old flags self.now.interval pairs
            → HoldsPairs top.new flags self.now.interval (pairs ++ part_pair flags self.now.interval at (rows_between flags self.now from to) ∷ [])) }
        ensures err { OnErr result ((rest : List ℕ) × (out.new.items ≡ out.old.items ++ rest)) }
    {
        let block = self.block_of_rows(flags, from, to)?;
        let handle = put_block(at, block.as_slice(), out)?;
        let (separator, _) = self.pair(flags.user_key, to - 1);
        top.add(separator, handle)
    }

    /// Appends the partitions, which stand from `base` on in the file, and leads to each from the top block. Answers where the
    /// last one ends.
    fn put_parts(
        &self,
        flags: IndexFlags,
        base: u64,
        top: &mut TopBuilder,
        out: &mut Vec<u8>,
    ) -> Result<u64, Memory>
        requires ready { IsReady self.now flags }
        requires parts { 1 ≤ self.now.parts }
        requires base { base < 2 ^ 40 }
        requires top { HoldsPairs top.old flags self.now.interval [] }
        ensures bytes { OnOk result (out.new.items ≡ out.old.items ++ stored_parts flags self.now.interval (parts_of self.now.parts (kept_pairs flags.user_key self.now))) }
        ensures top { OnOk result (HoldsPairs top.new flags self.now.interval (part_pairs flags self.now.interval base (parts_of self.now.parts (kept_pairs flags.user_key self.now)))) }
        ensures end { IfOk result (λ at. at ≡ base + length (stored_parts flags self.now.interval (parts_of self.now.parts (kept_pairs flags.user_key self.now)))) }
        ensures err { OnErr result ((rest : List ℕ) × (out.new.items ≡ out.old.items ++ rest)) }
    {
        let start = out.len();
        let count = self.rows.len();
        let mut from = 0;
        while from < count {
            let to = from + (count - from).min(self.parts as usize);
            let at = base + (out.len() - start) as u64;
            self.put_part(flags, from, to, at, top, out)?;
            from = to;
        }
        Ok(base + (out.len() - start) as u64)
    }

    /// Appends partitions, and then the top block that leads to them.
    fn put_two_levels(
        &self,
        flags: IndexFlags,
        base: u64,
        out: &mut Vec<u8>,
    ) -> Result<Handle, Memory>
        requires ready { IsReady self.now flags }
        requires parts { 1 ≤ self.now.parts }
        requires base { base < 2 ^ 40 }
        ensures bytes { OnOk result (out.new.items ≡ out.old.items ++ whole_bytes flags self.now.interval self.now.parts base (kept_pairs flags.user_key self.now)) }
        ensures handle { IfOk result (λ h. h ≡ whole_handle flags self.now.interval self.now.parts base (kept_pairs flags.user_key self.now)) }
        ensures err { OnErr result ((rest : List ℕ) × (out.new.items ≡ out.old.items ++ rest)) }
    {
        let mut top = TopBuilder::new(self.alloc, flags, self.interval)?;
        let at = self.put_parts(flags, base, &mut top, out)?;
        let block = top.finish()?;
        put_block(at, block.as_slice(), out)
    }

    /// Appends the one block of all rows.
    fn put_one_level(
        &self,
        flags: IndexFlags,
        base: u64,
        out: &mut Vec<u8>,
    ) -> Result<Handle, Memory>
        requires ready { IsReady self.now flags }
        requires parts { self.now.parts ≡ 0 }
        ensures bytes { OnOk result (out.new.items ≡ out.old.items ++ whole_bytes flags self.now.interval self.now.parts base (kept_pairs flags.user_key self.now)) }
        ensures handle { IfOk result (λ h. h ≡ whole_handle flags self.now.interval self.now.parts base (kept_pairs flags.user_key self.now)) }
        ensures err { OnErr result ((rest : List ℕ) × (out.new.items ≡ out.old.items ++ rest)) }
    {
        let block = self.block_of_rows(flags, 0, self.rows.len())?;
        put_block(base, block.as_slice(), out)
    }

    /// Appends the index blocks, which stand from `base` on in the file, each with its trailer: the partitions in their order
    /// and then the top block that leads to them, or the one block. Answers where the top block stands.
    ///
    /// All data blocks were added, and `base` is below 2^40. Fails where memory runs out now or did in an earlier call; then
    /// `out` holds its old bytes followed by any.
    /// RocksDB: `ShortenedIndexBuilder::Finish` in table/block_based/index_builder.h, `PartitionedIndexBuilder::Finish` in
    /// index_builder.cc, and `BlockBasedTableBuilder::WriteIndexBlock` in
    /// table/block_based/block_based_table_builder.cc.
    pub fn finish(self, base: u64, out: &mut Vec<u8>) -> Result<Handle, Memory>
        requires state { HasFailed self ⊎ ((options : IndexOptions) × (blocks : List BlockEnd) × Holds self options blocks) }
        requires base { base < 2 ^ 40 }
        ensures bytes { OnOk result ((options : IndexOptions) (blocks : List BlockEnd) → Holds self options blocks
            → out.new.items ≡ out.old.items ++ index_bytes options base blocks) }
        ensures handle { IfOk result (λ h. (options : IndexOptions) (blocks : List BlockEnd) → Holds self options blocks
            → h ≡ top_handle options base blocks) }
        ensures err { OnErr result ((rest : List ℕ) × (out.new.items ≡ out.old.items ++ rest)) }
        ensures later { HasFailed self → IsErr result }
    {
        if self.failed {
            return Err(Memory);
        }
        let flags = self.flags();
        if self.parts == 0 {
            return self.put_one_level(flags, base, out);
        }
        self.put_two_levels(flags, base, out)
    }
}

impl IndexBuilder {
    /// The key of a row of the top block, as the flags say: of the last data block of its partition, or of its data block.
    /// Takes no memory.
    ///
    /// All data blocks were added, no call has failed, and the top block has that row, counted from 0.
    /// RocksDB: `PartitionedIndexBuilder::GetPartitionKey` in table/block_based/index_builder.h.
    pub fn separator(&self, row: usize) -> &[u8]
        requires { (options : IndexOptions) × (blocks : List BlockEnd) × Holds self.now options blocks
            × (row < length (top_separators options.parts (pairs_of options.version blocks))) }
        ensures exact { (options : IndexOptions) (blocks : List BlockEnd) → Holds self.now options blocks
            → slice_get (top_separators options.parts (pairs_of options.version blocks)) row ≡ Some result.now }
    {
        let flags = self.flags();
        self.top_key(flags.user_key, row)
    }

    /// The key of a row of the top block.
    pub(crate) fn top_key(&self, user_key: bool, row: usize) -> &[u8]
        requires ready { (flags : declared.IndexFlags) × IsReady self.now flags }
        requires row { row < length (top_separators self.now.parts (kept_pairs user_key self.now)) }
        ensures { slice_get (top_separators self.now.parts (kept_pairs user_key self.now)) row ≡ Some result.now }
    {
        if self.parts == 0 {
            let (separator, _) = self.pair(user_key, row);
            return separator;
        }
        let from = row * self.parts as usize;
        let to = from + (self.rows.len() - from).min(self.parts as usize);
        let (separator, _) = self.pair(user_key, to - 1);
        separator
    }
}

/// A separator as the index has it.
fn in_form(user_key: bool, key: &[u8]) -> &[u8]
    requires { 8 ≤ length key.now }
    ensures { result.now ≡ separator_in user_key key.now }
{
    if user_key { user_part(key) } else { key }
}

/// Appends a block that stands at this place in the file, with its trailer, and answers where it stands.
pub fn put_block(at: u64, block: &[u8], out: &mut Vec<u8>) -> Result<Handle, Memory>
    ensures ok { OnOk result (out.new.items ≡ out.old.items ++ frame_of block.now) }
    ensures handle { IfOk result (λ h. h ≡ record { offset = at; size = length block.now }) }
    ensures err { OnErr result ((rest : List ℕ) × (out.new.items ≡ out.old.items ++ rest)) }
{
    put_frame(out, block)?;
    Ok(Handle {
        offset: at,
        size: block.len() as u64,
    })
}
