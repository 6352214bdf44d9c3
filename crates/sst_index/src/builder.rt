//! The builder of a whole index.
ghost use Rattle.std.specs.Prelude.{◌≡◌, ℕ, ◌≤◌, List, [], ◌∷◌, ◌++◌, length, IfSome, IfOk, OnOk, OnErr};
ghost use Rattle.std.specs.Option.{option_map};
ghost use Rattle.std.specs.Result.{IsErr};
ghost use Rattle.sst_index.specs.Ends as ends;
ghost use Rattle.sst_index.specs.Ends.{AreEnds, BlockEnd, flags_of};
ghost use Rattle.sst_index.specs.Index.{CanAdd, HasFailed, Holds, Takes};
ghost use Rattle.sst_index.specs.IndexBytes.{IndexOptions};

use crate::flags::IndexFlags;
use crate::separators::{put_separator, user_part};
use sst_num::{Handle, Memory};
use std::alloc::Global;

/// From this version of the format on, separators may be user keys. RocksDB: `format_version` in
/// include/rocksdb/table.h.
const USER_KEYS_FROM: u32 = 3;

/// From this version of the format on, handles are differences. RocksDB: `format_version` in include/rocksdb/table.h.
const DIFFERENCES_FROM: u32 = 4;

/// What leads to one data block.
#[derive(Clone, Copy)]
pub struct IndexRow {
    /// Where its separator begins among all.
    pub start: usize,
    /// How long the separator is, as a stored key.
    pub length: usize,
    /// Where the block stands.
    pub handle: Handle,
}

/// Makes the index of data blocks, which come in the order of their keys.
///
/// It keeps the separators and handles until all blocks are known, because whether separators are user keys is decided for
/// all of them. After an error the builder is of no more use: `add` and `finish` answer the error again.
/// RocksDB: `ShortenedIndexBuilder` and `PartitionedIndexBuilder` in table/block_based/index_builder.h.
#[derive(Drop)]
pub struct IndexBuilder {
    /// Where memory comes from.
    pub(crate) alloc: Global,
    /// The version of the format.
    pub(crate) version: u32,
    /// How many rows a restart begins.
    pub(crate) interval: u32,
    /// How many rows a partition has; 0 where there are none.
    pub(crate) parts: u32,
    /// The separators so far, as stored keys, one after the other.
    pub(crate) keys: Vec<u8>,
    /// What leads to each block so far.
    pub(crate) rows: Vec<IndexRow>,
    /// Two neighbouring blocks share a user key.
    pub(crate) shares: bool,
    /// Memory ran out in an earlier call.
    pub(crate) failed: bool,
}

impl IndexBuilder {
    /// A builder with no data block.
    ///
    /// `version` is that of the format, from 2 to 4. `interval`, from 1 to 65,536, is how many rows a restart begins.
    /// `parts` is how many rows a partition has, or 0, where the index is one block.
    /// RocksDB: `IndexBuilder::CreateIndexBuilder` in table/block_based/index_builder.cc.
    pub fn new(
        alloc: Global,
        version: u32,
        interval: u32,
        parts: u32,
    ) -> Result<IndexBuilder, Memory>
        requires version_least { 2 ≤ version }
        requires version_most { version ≤ 4 }
        requires least { 1 ≤ interval }
        requires most { interval ≤ 65536 }
        ensures holds { IfOk result (λ b. Holds b (record { version = version; interval = interval; parts = parts }) []) }
    {
        Ok(IndexBuilder {
            alloc,
            version,
            interval,
            parts,
            keys: Vec::new(alloc),
            rows: Vec::new(alloc),
            shares: false,
            failed: false,
        })
    }

    /// Adds a data block behind the others: its last key, the first key of the next block, and where it stands.
    ///
    /// Both keys are stored keys of at most 65,544 bytes, the first before the second. The last key isn't before the first key that
    /// the block before told, and only the last block has no next. The sum over all blocks of the length of the last key
    /// and 64 is at most 2^29. A handle has an offset below 2^40 and a size below 2^29, and begins where the trailer of
    /// the one before ends. Fails where memory runs out now or did in an earlier call.
    /// RocksDB: `IndexBuilder::AddIndexEntry` in table/block_based/index_builder.h.
    pub fn add(
        &mut self,
        last: &[u8],
        next_first: Option<&[u8]>,
        handle: Handle,
    ) -> Result<(), Memory>
        requires { CanAdd self.old (record { last = last.now; next_first = option_map (λ b. b.now) next_first; handle = handle }) }
        ensures ok { OnOk result ((options : IndexOptions) (blocks : List BlockEnd) → Holds self.old options blocks
            → AreEnds (blocks ++ record { last = last.now; next_first = option_map (λ b. b.now) next_first.entry; handle = handle } ∷ [])
            → Holds self.new options (blocks ++ record { last = last.now; next_first = option_map (λ b. b.now) next_first.entry; handle = handle } ∷ [])) }
        ensures err { OnErr result (HasFailed self.new) }
        ensures later { HasFailed self.old → IsErr result }
    {
        if self.failed {
            return Err(Memory);
        }
        match self.put(last, next_first, handle) {
            Ok(()) => Ok(()),
            Err(error) => {
                self.failed = true;
                Err(error)
            }
        }
    }

    /// What the separators and handles of the index are, of the blocks that were added. Takes no memory.
    ///
    /// Of a builder in which no call has failed.
    /// RocksDB: `IndexBuilder::seperator_is_key_plus_seq` in table/block_based/index_builder.h.
    pub fn flags(&self) -> IndexFlags
        requires { (options : IndexOptions) × (blocks : List BlockEnd) × Holds self.now options blocks }
        ensures { (options : IndexOptions) (blocks : List BlockEnd) → Holds self.now options blocks
            → result ≡ flags_of options.version blocks }
    {
        IndexFlags {
            user_key: USER_KEYS_FROM <= self.version && !self.shares,
            delta: DIFFERENCES_FROM <= self.version,
        }
    }

    /// Keeps the separator and handle of a block. Where memory runs out, the separator may stand there or not.
    fn put(&mut self, last: &[u8], next_first: Option<&[u8]>, handle: Handle) -> Result<(), Memory>
        requires { Takes self.old (record { last = last.now; next_first = option_map (λ b. b.now) next_first; handle = handle }) }
        ensures { OnOk result ((options : IndexOptions) (blocks : List BlockEnd) → Holds self.old options blocks
            → AreEnds (blocks ++ record { last = last.now; next_first = option_map (λ b. b.now) next_first.entry; handle = handle } ∷ [])
            → Holds self.new options (blocks ++ record { last = last.now; next_first = option_map (λ b. b.now) next_first.entry; handle = handle } ∷ [])) }
    {
        let start = self.keys.len();
        put_separator(&mut self.keys, last, next_first)?;
        let length = self.keys.len() - start;
        self.rows.push(IndexRow {
            start,
            length,
            handle,
        })?;
        self.shares |= begins_with(last, next_first);
        Ok(())
    }
}

/// The next block begins with the user key with which this one ends.
fn begins_with(last: &[u8], next_first: Option<&[u8]>) -> bool
    requires last { 8 ≤ length last.now }
    requires next { IfSome next_first (λ b. 8 ≤ length b.now) }
    ensures { result ≡ ends.begins_with last.now (option_map (λ b. b.now) next_first.entry) }
{
    match next_first {
        None => false,
        Some(next) => user_part(last) == user_part(next),
    }
}
