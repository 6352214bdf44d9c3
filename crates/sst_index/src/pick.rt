//! Which part of a filter has a user key.
ghost use Rattle.std.specs.Prelude.{◌≡◌, ℕ, ◌≤◌, List, length, Some, slice_get};
ghost use Rattle.sst_block.specs.Block.{Row, Block};
ghost use Rattle.sst_block.specs.IndexRows.{IndexPair, IndexRows};
ghost use Rattle.sst_index.specs.declared.flags.IndexFlags as declared;
ghost use Rattle.sst_index.specs.IndexBlock.{form_of};
ghost use Rattle.sst_index.specs.Pick.{part_at, part_of};
ghost use Rattle.sst_index.specs.Walk.{WalksPairs};

use crate::flags::IndexFlags;
use crate::separators::user_part;
use crate::walk::IndexIter;
use sst_key::KeyRoom;
use sst_num::Handle;

/// Which part of a filter has a user key, if the filter has it.
#[derive(Clone, Copy, Debug, PartialEq, Eq)]
pub enum Pick {
    /// The part that stands there: it alone says whether the key is in no block.
    Part(Handle),
    /// More than one part may have the key, so none denies it.
    Unsure,
    /// No part has the key.
    Beyond,
}

/// Picks the part of a filter that has a user key, by the top block of the parts. Takes no memory.
///
/// The block stands for rows of the form of the flags, as one does that `check_block` accepts; its rows lead to the parts. The
/// user key has at most 65,536 bytes. The part is that of the first separator that isn't before the key; a stored separator
/// is compared with the key and the greatest tag, and one of this very user key leaves open which part it is. `room` is room for
/// separators, and is handed back.
/// RocksDB: `PartitionedFilterBlockReader::GetFilterPartitionHandle` in table/block_based/partitioned_filter_block.cc.
pub fn pick_part(top: &[u8], flags: IndexFlags, user: &[u8], room: KeyRoom) -> (Pick, KeyRoom)
    requires block { (rows : List Row) × Block (form_of flags) top.now rows }
    requires user { length user.now ≤ 65536 }
    ensures exact { (pairs : List IndexPair) → IndexRows flags.user_key flags.delta top.now pairs
        → result.0 ≡ part_of flags.user_key user.now pairs }
{
    let mut walk = IndexIter::start(top, flags, room);
    if !walk.seek(user, u64::MAX) {
        return (Pick::Beyond, walk.pause().into_room());
    }
    let pick = pick_here(&walk, flags.user_key, user);
    (pick, walk.pause().into_room())
}

/// What the pair where the walk stands says of the part of a user key.
fn pick_here(walk: &IndexIter, user_key: bool, user: &[u8]) -> Pick
    requires { (flags : declared.IndexFlags) × (bytes : List ℕ) × (pairs : List IndexPair) × (i : ℕ)
        × WalksPairs walk.now flags bytes pairs (Some i) × (user_key ≡ flags.user_key) }
    ensures { (flags : declared.IndexFlags) (bytes : List ℕ) (pairs : List IndexPair) (i : ℕ) → WalksPairs walk.now flags bytes pairs (Some i)
        → (pair : IndexPair) × (slice_get pairs i ≡ Some pair) × (result ≡ part_at user_key user.now pair) }
{
    if user_key {
        return Pick::Part(walk.handle());
    }
    if user_part(walk.separator()) == user {
        return Pick::Unsure;
    }
    Pick::Part(walk.handle())
}
