//! The builder of one index block.
ghost use Rattle.std.specs.Prelude.{◌≡◌, ℕ, ◌≤◌, pos, ◌-ℤ◌, true, List, [], ◌∷◌, ◌++◌, IfSome, IfOk, OnOk, OnErr};
ghost use Rattle.std.specs.Result.{IsErr};
ghost use Rattle.sst_num.specs.Spelling.{IsSigned64};
ghost use Rattle.sst_block.specs.IndexRows.{IndexPair, IndexRows};
ghost use Rattle.sst_index.specs.declared.flags.IndexFlags as declared;
ghost use Rattle.sst_index.specs.Behind.{difference_of};
ghost use Rattle.sst_index.specs.IndexBlock.{index_block};
ghost use Rattle.sst_index.specs.Top.{CanAddPair, HoldsPairs, TakesPair, TopHasFailed};

use crate::flags::IndexFlags;
use sst_block::{BlockBuilder, RowForm};
use sst_num::{Bytes, Handle, Memory, put_handle, put_signed64};
use std::alloc::Global;

/// Makes one index block of pairs that come in order: separators, and the handles of the blocks to which they lead.
///
/// After an error the builder is of no more use: `add` and `finish` answer the error again.
/// RocksDB: `index_block_builder_` of `ShortenedIndexBuilder` in table/block_based/index_builder.h.
#[derive(Drop)]
pub struct TopBuilder {
    /// The block of the pairs so far.
    block: BlockBuilder,
    /// Handles are differences, where their rows share bytes.
    delta: bool,
    /// The handle of the last pair, if there is one.
    before: Option<Handle>,
    /// Room for the spelling of a handle.
    spelling: Vec<u8>,
    /// Room for the spelling of a difference.
    difference: Vec<u8>,
    /// Memory ran out in an earlier call.
    failed: bool,
}

impl TopBuilder {
    /// A builder with no pair.
    ///
    /// `flags` say what the separators and handles are. `interval`, from 1 to 65,536, is how many rows a restart begins.
    /// Fails where memory runs out.
    /// RocksDB: the constructor of `ShortenedIndexBuilder` in table/block_based/index_builder.h.
    pub fn new(alloc: Global, flags: IndexFlags, interval: u32) -> Result<TopBuilder, Memory>
        requires least { 1 ≤ interval }
        requires most { interval ≤ 65536 }
        ensures { IfOk result (λ t. HoldsPairs t flags interval []) }
    {
        let form = RowForm::Index {
            user_key: flags.user_key,
            delta: flags.delta,
        };
        let block = BlockBuilder::new(alloc, form, interval, false)?;
        Ok(TopBuilder {
            block,
            delta: flags.delta,
            before: None,
            spelling: Vec::new(alloc),
            difference: Vec::new(alloc),
            failed: false,
        })
    }

    /// Adds a pair after the others.
    ///
    /// The separator has at most 65,544 bytes, and at least eight where it is a stored key. It is after the last one in
    /// the order of the flags, and the block stays below 2^29 bytes with the pair. Where handles are differences, each begins 5
    /// bytes after the end of the one before, and the difference of their sizes is within 64 bits with a sign. Fails where
    /// memory runs out now or did in an earlier call.
    /// RocksDB: `ShortenedIndexBuilder::AddIndexEntry` in table/block_based/index_builder.h.
    pub fn add(&mut self, separator: &[u8], handle: Handle) -> Result<(), Memory>
        requires { CanAddPair self.old (record { separator = separator.now; handle = handle }) }
        ensures ok { OnOk result ((flags : declared.IndexFlags) (interval : ℕ) (pairs : List IndexPair)
            → HoldsPairs self.old flags interval pairs
            → HoldsPairs self.new flags interval (pairs ++ record { separator = separator.now; handle = handle } ∷ [])) }
        ensures err { OnErr result (TopHasFailed self.new) }
        ensures later { TopHasFailed self.old → IsErr result }
    {
        if self.failed {
            return Err(Memory);
        }
        match self.put(separator, handle) {
            Ok(()) => Ok(()),
            Err(error) => {
                self.failed = true;
                Err(error)
            }
        }
    }

    /// The block of the pairs that were added.
    ///
    /// Fails where memory runs out now or did in an earlier call.
    /// RocksDB: `ShortenedIndexBuilder::Finish` in table/block_based/index_builder.h.
    pub fn finish(self) -> Result<Bytes, Memory>
        ensures exact { IfOk result (λ b. (flags : declared.IndexFlags) (interval : ℕ) (pairs : List IndexPair)
            → HoldsPairs self flags interval pairs → b ≡ index_block flags interval pairs) }
        ensures says { IfOk result (λ b. (flags : declared.IndexFlags) (interval : ℕ) (pairs : List IndexPair)
            → HoldsPairs self flags interval pairs → IndexRows flags.user_key flags.delta b pairs) }
        ensures later { TopHasFailed self → IsErr result }
    {
        if self.failed {
            return Err(Memory);
        }
        self.block.finish()
    }

    /// Adds a pair. Where memory runs out, it may stand there or not.
    fn put(&mut self, separator: &[u8], handle: Handle) -> Result<(), Memory>
        requires { TakesPair self.old (record { separator = separator.now; handle = handle }) }
        ensures { OnOk result ((flags : declared.IndexFlags) (interval : ℕ) (pairs : List IndexPair)
            → HoldsPairs self.old flags interval pairs
            → HoldsPairs self.new flags interval (pairs ++ record { separator = separator.now; handle = handle } ∷ [])) }
    {
        self.spelling.truncate(0);
        put_handle(&mut self.spelling, handle)?;
        self.difference.truncate(0);
        put_difference(&mut self.difference, self.delta, self.before, handle)?;
        self.block.add(separator, &self.spelling, &self.difference)?;
        self.before = Some(handle);
        Ok(())
    }
}

/// Appends what tells a handle by the one before, if handles are differences and there is one before.
///
/// RocksDB: `IndexValue::EncodeTo` in table/format.cc.
fn put_difference(
    out: &mut Vec<u8>,
    delta: bool,
    before: Option<Handle>,
    handle: Handle,
) -> Result<(), Memory>
    requires { delta ≡ true → IfSome before (λ b. IsSigned64 (pos handle.size -ℤ pos b.size)) }
    ensures { OnOk result (delta ≡ true → out.new.items ≡ out.old.items ++ difference_of before handle) }
{
    if !delta {
        return Ok(());
    }
    match before {
        None => Ok(()),
        Some(before) => put_signed64(out, size_difference(before.size, handle.size)),
    }
}

/// The size of a block less that of the one before.
fn size_difference(before: u64, size: u64) -> i64
    requires { IsSigned64 (pos size -ℤ pos before) }
    ensures { result ≡ pos size -ℤ pos before }
{
    if before <= size {
        (size - before) as i64
    } else {
        -1 - (before - size - 1) as i64
    }
}
