//! The builder of a filter in parts.
ghost use Rattle.std.specs.Prelude.{◌≡◌, ℕ, ◌+◌, ◌^◌, ◌<◌, ◌≤◌, List, [], ◌∷◌, ◌++◌, length, sum_by, IfOk, OnOk, OnErr};
ghost use Rattle.std.specs.Result.{IsErr};
ghost use Rattle.sst_index.specs.Ends.{BlockEnd, flags_of};
ghost use Rattle.sst_index.specs.FilterBytes.{filter_bytes, filter_handle, leading_pairs, part_separators, stored_size};
ghost use Rattle.sst_index.specs.FilterParts.{CanAddUser, CanCut, CanEnd, HoldsParts, HoldsUsers, PartsHaveFailed};
ghost use Rattle.sst_index.specs.Index.{Holds, IsReady, kept_pairs};
ghost use Rattle.sst_index.specs.IndexBlock.{index_block};
ghost use Rattle.sst_index.specs.IndexBytes.{IndexOptions, top_separators};

use crate::builder::IndexBuilder;
use crate::flags::IndexFlags;
use crate::top::TopBuilder;
use crate::writing::put_block;
use sst_bloom::BloomBuilder;
use sst_device::put_frame;
use sst_num::{Bytes, Handle, Memory};
use std::alloc::Global;
use std::mem;

/// How many bytes the trailer of a block takes.
const TRAILER_LENGTH: u64 = 5;

/// Makes a filter in parts: one filter for the user keys of each part, which is cut where a row of the index's top block ends.
///
/// It keeps the filter of each part that was cut, and four bytes of each user key of the part that is being filled. After an
/// error the builder is of no more use: each call answers the error again.
/// RocksDB: `PartitionedFilterBlockBuilder` in table/block_based/partitioned_filter_block.h.
#[derive(Drop)]
pub struct PartFilterBuilder {
    /// Where memory comes from.
    alloc: Global,
    /// How many bits a user key has.
    bits: u32,
    /// The filter of the part that is being filled.
    part: BloomBuilder,
    /// The filters of the parts that were cut, each with its trailer.
    stored: Vec<u8>,
    /// How many bytes each of these has, without its trailer.
    sizes: Vec<u64>,
    /// Memory ran out in an earlier call.
    failed: bool,
}

impl PartFilterBuilder {
    /// A builder with no part and no user key. Takes no memory.
    ///
    /// `bits`, from 1 to 100, is how many bits of a filter a user key has.
    /// RocksDB: the constructor of `PartitionedFilterBlockBuilder` in table/block_based/partitioned_filter_block.cc.
    pub fn new(alloc: Global, bits: u32) -> PartFilterBuilder
        requires bits_least { 1 ≤ bits }
        requires bits_most { bits ≤ 100 }
        ensures holds { HoldsParts result bits [] [] }
    {
        PartFilterBuilder {
            alloc,
            bits,
            part: BloomBuilder::new(alloc, bits),
            stored: Vec::new(alloc),
            sizes: Vec::new(alloc),
            failed: false,
        }
    }

    /// Adds a user key to the part that is being filled.
    ///
    /// Each is added once to a part, and a part has at most 4,194,304. Fails where memory runs out now or did in an earlier call.
    /// RocksDB: `PartitionedFilterBlockBuilder::Add` in table/block_based/partitioned_filter_block.cc.
    pub fn add(&mut self, user: &[u8]) -> Result<(), Memory>
        requires { CanAddUser self.old }
        ensures ok { OnOk result ((bits : ℕ) (parts : List (List (List ℕ))) (users : List (List ℕ)) → HoldsParts self.old bits parts users
            → HoldsParts self.new bits parts (users ++ user.now ∷ [])) }
        ensures err { OnErr result (PartsHaveFailed self.new) }
        ensures later { PartsHaveFailed self.old → IsErr result }
    {
        if self.failed {
            return Err(Memory);
        }
        match self.part.add(user) {
            Ok(()) => Ok(()),
            Err(error) => {
                self.failed = true;
                Err(error)
            }
        }
    }

    /// Ends the part that is being filled, and begins the next one. It has at least one user key.
    ///
    /// Fails where memory runs out now or did in an earlier call.
    /// RocksDB: `PartitionedFilterBlockBuilder::CutAFilterBlock` in table/block_based/partitioned_filter_block.cc.
    pub fn cut(&mut self) -> Result<(), Memory>
        requires { CanCut self.old }
        ensures ok { OnOk result ((bits : ℕ) (parts : List (List (List ℕ))) (users : List (List ℕ)) → HoldsParts self.old bits parts users
            → HoldsParts self.new bits (parts ++ users ∷ []) []) }
        ensures err { OnErr result (PartsHaveFailed self.new) }
        ensures later { PartsHaveFailed self.old → IsErr result }
    {
        if self.failed {
            return Err(Memory);
        }
        match self.put_part() {
            Ok(()) => Ok(()),
            Err(error) => {
                self.failed = true;
                Err(error)
            }
        }
    }

    /// Keeps the filter of the part, and begins the next one. Where memory runs out, the filter may be lost.
    fn put_part(&mut self) -> Result<(), Memory>
        requires { HoldsUsers self.old }
        ensures { OnOk result ((bits : ℕ) (parts : List (List (List ℕ))) (users : List (List ℕ)) → HoldsParts self.old bits parts users
            → HoldsParts self.new bits (parts ++ users ∷ []) []) }
    {
        let next = BloomBuilder::new(self.alloc, self.bits);
        let filter = mem::replace(&mut self.part, next).finish()?;
        put_frame(&mut self.stored, filter.as_slice())?;
        self.sizes.push(filter.len() as u64)?;
        Ok(())
    }

    /// Appends the filters of the parts, which stand from `base` on in the file, each with its trailer, and then their top block,
    /// which leads to the i-th of them from the i-th key of the index's top block. Answers where the top block stands.
    ///
    /// The last part was cut, and there are as many as the index has rows in its top block. `index` holds all data blocks, and
    /// says the form of the rows. `interval`, from 1 to 65,536, is how many rows a restart begins, and `base` is below 2^40. Fails
    /// where memory runs out now or did in an earlier call; then `out` holds its old bytes followed by any.
    /// RocksDB: `PartitionedFilterBlockBuilder::Finish` in table/block_based/partitioned_filter_block.cc, and
    /// `BlockBasedTableBuilder::WriteFilterBlock` in table/block_based/block_based_table_builder.cc.
    pub fn finish(
        self,
        base: u64,
        index: &IndexBuilder,
        interval: u32,
        out: &mut Vec<u8>,
    ) -> Result<Handle, Memory>
        requires state { CanEnd self index.now }
        requires base { base < 2 ^ 40 }
        requires least { 1 ≤ interval }
        requires most { interval ≤ 65536 }
        ensures bytes { OnOk result ((bits : ℕ) (parts : List (List (List ℕ))) (options : IndexOptions) (blocks : List BlockEnd)
            → HoldsParts self bits parts [] → Holds index.now options blocks
            → out.new.items ≡ out.old.items ++ filter_bytes (flags_of options.version blocks) interval bits base (part_separators options blocks) parts) }
        ensures handle { IfOk result (λ h. (bits : ℕ) (parts : List (List (List ℕ))) (options : IndexOptions) (blocks : List BlockEnd)
            → HoldsParts self bits parts [] → Holds index.now options blocks
            → h ≡ filter_handle (flags_of options.version blocks) interval bits base (part_separators options blocks) parts) }
        ensures err { OnErr result ((rest : List ℕ) × (out.new.items ≡ out.old.items ++ rest)) }
        ensures later { PartsHaveFailed self → IsErr result }
    {
        if self.failed {
            return Err(Memory);
        }
        let flags = index.flags();
        let top = top_of(self.alloc, index, flags, interval, base, &self.sizes)?;
        out.extend_from_slice(&self.stored)?;
        put_block(base + self.stored.len() as u64, top.as_slice(), out)
    }
}

/// The top block of parts of these sizes, which stand one behind the other from `base` on: the i-th key of the index's top
/// block leads to the i-th of them.
fn top_of(
    alloc: Global,
    index: &IndexBuilder,
    flags: IndexFlags,
    interval: u32,
    base: u64,
    sizes: &[u64],
) -> Result<Bytes, Memory>
    requires ready { IsReady index.now flags }
    requires least { 1 ≤ interval }
    requires most { interval ≤ 65536 }
    requires base { base < 2 ^ 40 }
    requires near { sum_by stored_size sizes.now < 2 ^ 63 }
    requires rows { length sizes.now ≤ length (top_separators index.now.parts (kept_pairs flags.user_key index.now)) }
    ensures { IfOk result (λ b. b ≡ index_block flags interval (leading_pairs base (top_separators index.now.parts (kept_pairs flags.user_key index.now)) sizes.now)) }
{
    let mut top = TopBuilder::new(alloc, flags, interval)?;
    let mut at = base;
    for row in 0..sizes.len() {
        let size = sizes[row];
        let separator = index.top_key(flags.user_key, row);
        top.add(separator, Handle { offset: at, size })?;
        at += size + TRAILER_LENGTH;
    }
    top.finish()
}
