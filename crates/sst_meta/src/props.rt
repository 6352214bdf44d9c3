//! The names and values of a meta block that was read: checked, kept in memory, and looked up.
ghost use Rattle.std.specs.Prelude.{◌≡◌, ◌⊎◌, ℕ, ◌<◌, ◌≤◌, ◌^◌, List, length, Some, Ok, Err, IfOk, IfErr, option_map, slice_get};
ghost use Rattle.sst_num.specs.declared.stops.Refused.TheVariants as refused;
ghost use Rattle.sst_block.specs.declared.row_form.RowForm.TheVariants.{Names};
ghost use Rattle.sst_block.specs.declared.fault.BlockFault as faults;
ghost use Rattle.sst_block.specs.Block.{Row, Block, AreOrdered};
ghost use Rattle.sst_block.specs.FirstFault.{IsFirstFault};
ghost use Rattle.sst_block.specs.BlockReading.{Reads};
ghost use Rattle.sst_meta.specs.declared.pair.Pair as pair;
ghost use Rattle.sst_meta.specs.Pairs.{Gives, rows_of_pairs, value_of};

use crate::pair::{Pair, copy_pair};
use sst_block::{BlockFault, BlockIter, RowForm, check_block};
use sst_key::KeyRoom;
use sst_num::{Memory, Refused};
use std::alloc::Global;
use std::marker::Model;

/// The names and values of a meta block, in bytewise order of the names.
///
/// Contracts see them as the rows of the block. All are kept in memory.
///
/// RocksDB: `TableProperties` in include/rocksdb/table_properties.h, whose `user_collected_properties` keeps names that
/// it doesn't know.
#[derive(Debug, Drop)]
pub struct Props {
    pairs: Vec<Pair>,
}

impl Model for Props {
    ghost use Rattle.std.specs.Prelude.{List};
    ghost use Rattle.sst_block.specs.declared.row_form.RowForm.TheVariants.{Names};
    ghost use Rattle.sst_block.specs.Block.{Row, AreOrdered};
    ghost use Rattle.sst_meta.specs.Pairs.{rows_of_pairs};

    ghost Value = { List Row };

    ghost view = { λ p. rows_of_pairs p.pairs.items };

    ghost invariant = { λ p. AreOrdered Names (rows_of_pairs p.pairs.items) };
}

impl Props {
    /// The names and values of a block of at most 2^29 bytes.
    ///
    /// The block is checked first: where it isn't a block of names its first fault is answered, as by `check_block`.
    /// Each name and value is copied once. Fails where memory runs out. RocksDB: `ParsePropertiesBlock` in
    /// table/meta_blocks.cc.
    pub fn read(alloc: Global, block: &[u8]) -> Result<Props, Refused<BlockFault>>
        requires { length block.now ≤ 2 ^ 29 }
        ensures accepts { IfOk result (λ pairs. Block Names block.now pairs) }
        ensures refuses { (fault : faults.BlockFault) → result ≡ Err (refused.Cause fault)
            → IsFirstFault Names block.now fault × ((rows : List Row) → Block Names block.now rows → ⊥) }
        ensures back { (pairs : List Row) → Block Names block.now pairs → (result ≡ Ok pairs) ⊎ (result ≡ Err refused.Memory) }
        ensures exact { Gives result block.now }
    {
        match check_block(alloc, block, RowForm::Names) {
            Ok(count) => {
                let pairs = pairs_of(alloc, block, count)?;
                Ok(Props { pairs })
            }
            Err(refused) => Err(refused),
        }
    }

    /// The value of the name, lent; None exactly where there is no such name.
    ///
    /// The place is found by halving. Takes no memory. RocksDB: a find in `UserCollectedProperties`,
    /// include/rocksdb/table_properties.h.
    pub fn get(&self, name: &[u8]) -> Option<&[u8]>
        ensures exact { option_map (λ value. value.now) result ≡ value_of name.now self.now }
    {
        match place_of(&self.pairs, name) {
            Ok(at) => Some(self.pairs[at].value.as_slice()),
            Err(_) => None,
        }
    }

    /// How many names there are. They are in order.
    pub fn len(&self) -> usize
        ensures exact { result ≡ length self.now }
        ensures ordered { AreOrdered Names self.now }
    {
        self.pairs.len()
    }

    /// The i-th name, from 0 on, and its value, both lent. `i` is below `len`.
    pub fn pair(&self, i: usize) -> (&[u8], &[u8])
        requires { i < length self.now }
        ensures { slice_get self.now i ≡ Some (record { key = result.0.now; value = result.1.now }) }
    {
        let pair = &self.pairs[i];
        (pair.name.as_slice(), pair.value.as_slice())
    }
}

/// Where the name stands; else where it would go.
fn place_of(pairs: &[Pair], name: &[u8]) -> Result<usize, usize>
    requires { AreOrdered Names (rows_of_pairs pairs.now) }
    ensures found { IfOk result (λ i. (p : pair.Pair) × (slice_get pairs.now i ≡ Some p) × (p.name ≡ name.now)) }
    ensures none { IfErr result (λ _. (i : ℕ) (p : pair.Pair) → slice_get pairs.now i ≡ Some p → p.name ≡ name.now → ⊥) }
{
    pairs.binary_search_by(|pair| pair.name.as_slice().cmp(name))
}

/// The names and values of a block of names, of which there are `count`.
fn pairs_of(alloc: Global, block: &[u8], count: u32) -> Result<Vec<Pair>, Memory>
    requires short { length block.now ≤ 2 ^ 29 }
    requires read { (rows : List Row) × Reads Names block.now rows × (length rows ≡ count) }
    ensures { IfOk result (λ pairs. (rows : List Row) → Reads Names block.now rows → length rows ≡ count
        → rows ≡ rows_of_pairs pairs.items) }
{
    let room = KeyRoom::new(alloc)?;
    let mut rows = BlockIter::start(block, RowForm::Names, room);
    let mut pairs = Vec::new(alloc);
    rows.first();
    for _row in 0..count {
        let pair = copy_pair(alloc, rows.key(), rows.value())?;
        pairs.push(pair)?;
        rows.next();
    }
    Ok(pairs)
}
