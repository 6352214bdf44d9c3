//! The walk over the pairs of an index block.
ghost use Rattle.std.specs.Prelude.{◌≡◌, ℕ, ◌+◌, ◌-◌, ◌<◌, ◌≤◌, nat_lt, false, List, ◌++◌, length, take, Option, None, Some, slice_get};
ghost use Rattle.sst_num.specs.Spelling.{fixed};
ghost use Rattle.sst_block.specs.Block.{Row, Block};
ghost use Rattle.sst_block.specs.IndexRows.{IndexPair, IndexRows};
ghost use Rattle.sst_block.specs.Iter.{place_before, start_of};
ghost use Rattle.sst_index.specs.declared.flags.IndexFlags as declared;
ghost use Rattle.sst_index.specs.IndexBlock.{form_of};
ghost use Rattle.sst_index.specs.Walk.{PausedPairs, WalksPairs, Walking, Lands, pair_place, pairs_before};

use crate::flags::IndexFlags;
use byteorder::{ByteOrder, LittleEndian};
use sst_block::{BlockIter, Place, RowForm};
use sst_key::{KeyRoom, LONGEST_KEY, TAG_LENGTH};
use sst_num::Handle;

/// How many bytes the target of a seek has at most whose room is small.
const SHORT_TARGET: usize = 256;

/// A walk over the pairs of an index block that was checked: separators, and the handles to which they lead. It stands at a pair
/// or nowhere.
///
/// It holds one separator at a time, which the next move changes. No call takes memory or fails.
/// RocksDB: `IndexBlockIter` in table/block_based/block.h.
#[derive(Drop)]
pub struct IndexIter<'b> {
    /// The walk over the rows.
    walk: BlockIter<'b>,
    /// Separators are user keys, with no tag.
    user_key: bool,
}

/// Where a walk over the pairs of an index block was paused.
///
/// It keeps none of the block's bytes but a separator, so the block may go, and the walk goes on over the same bytes once they
/// are there again ([`IndexIter::resume`]). Own.
#[derive(Drop)]
pub struct IndexPlace {
    /// Where the walk over the rows was paused.
    place: Place,
}

impl IndexPlace {
    /// The room for separators, which is used again.
    pub fn into_room(self) -> KeyRoom {
        self.place.into_room()
    }
}

impl<'b> IndexIter<'b> {
    /// A walk over the pairs of an index block, which stands nowhere.
    ///
    /// The block stands for rows of the form of the flags, as one does that `check_block` accepts. `room` is room for the
    /// separators. RocksDB: `Block::NewIndexIterator` in table/block_based/block.cc.
    pub fn start(block: &'b [u8], flags: IndexFlags, room: KeyRoom) -> IndexIter<'b>
        requires { (rows : List Row) × Block (form_of flags) block.now rows }
        ensures { (pairs : List IndexPair) → IndexRows flags.user_key flags.delta block.now pairs → WalksPairs result flags block.now pairs None }
    {
        let form = RowForm::Index {
            user_key: flags.user_key,
            delta: flags.delta,
        };
        IndexIter {
            walk: BlockIter::start(block, form, room),
            user_key: flags.user_key,
        }
    }

    /// Ends the walk, and keeps where it stands.
    pub fn pause(self) -> IndexPlace
        ensures { (flags : declared.IndexFlags) (bytes : List ℕ) (pairs : List IndexPair) (place : Option ℕ)
            → WalksPairs self.entry flags bytes pairs place → PausedPairs result flags bytes pairs place }
    {
        IndexPlace {
            place: self.walk.pause(),
        }
    }

    /// Goes on with a walk that was paused over an index block of the same bytes and flags. It stands where it stood.
    pub fn resume(block: &'b [u8], flags: IndexFlags, place: IndexPlace) -> IndexIter<'b>
        requires { (pairs : List IndexPair) × (at : Option ℕ) × PausedPairs place flags block.now pairs at }
        ensures { (pairs : List IndexPair) (at : Option ℕ) → PausedPairs place flags block.now pairs at
            → WalksPairs result flags block.now pairs at }
    {
        let form = RowForm::Index {
            user_key: flags.user_key,
            delta: flags.delta,
        };
        IndexIter {
            walk: BlockIter::resume(block, form, place.place),
            user_key: flags.user_key,
        }
    }

    /// Goes to the first pair. True exactly where there is one; else it stands nowhere.
    pub fn first(&mut self) -> bool
        requires { Walking self.old }
        ensures moves { (flags : declared.IndexFlags) (bytes : List ℕ) (pairs : List IndexPair) (place : Option ℕ)
            → WalksPairs self.old flags bytes pairs place → WalksPairs self.new flags bytes pairs (pair_place pairs 0) }
        ensures tells { (flags : declared.IndexFlags) (bytes : List ℕ) (pairs : List IndexPair) (place : Option ℕ)
            → WalksPairs self.old flags bytes pairs place → result ≡ nat_lt 0 (length pairs) }
    {
        self.walk.first()
    }

    /// Goes to the last pair. True exactly where there is one; else it stands nowhere.
    pub fn last(&mut self) -> bool
        requires { Walking self.old }
        ensures moves { (flags : declared.IndexFlags) (bytes : List ℕ) (pairs : List IndexPair) (place : Option ℕ)
            → WalksPairs self.old flags bytes pairs place → WalksPairs self.new flags bytes pairs (pair_place pairs (length pairs - 1)) }
        ensures tells { (flags : declared.IndexFlags) (bytes : List ℕ) (pairs : List IndexPair) (place : Option ℕ)
            → WalksPairs self.old flags bytes pairs place → result ≡ nat_lt 0 (length pairs) }
    {
        self.walk.last()
    }

    /// Goes to the next pair. True exactly where there is one; else it stands nowhere. It stands at a pair before.
    pub fn next(&mut self) -> bool
        requires { (flags : declared.IndexFlags) × (bytes : List ℕ) × (pairs : List IndexPair) × (i : ℕ) × WalksPairs self.old flags bytes pairs (Some i) }
        ensures moves { (flags : declared.IndexFlags) (bytes : List ℕ) (pairs : List IndexPair) (i : ℕ)
            → WalksPairs self.old flags bytes pairs (Some i) → WalksPairs self.new flags bytes pairs (pair_place pairs (i + 1)) }
        ensures tells { (flags : declared.IndexFlags) (bytes : List ℕ) (pairs : List IndexPair) (i : ℕ)
            → WalksPairs self.old flags bytes pairs (Some i) → result ≡ nat_lt (i + 1) (length pairs) }
    {
        self.walk.next()
    }

    /// Goes to the pair before. True exactly where there is one; else it stands nowhere. It stands at a pair before.
    pub fn prev(&mut self) -> bool
        requires { (flags : declared.IndexFlags) × (bytes : List ℕ) × (pairs : List IndexPair) × (i : ℕ) × WalksPairs self.old flags bytes pairs (Some i) }
        ensures moves { (flags : declared.IndexFlags) (bytes : List ℕ) (pairs : List IndexPair) (i : ℕ)
            → WalksPairs self.old flags bytes pairs (Some i) → WalksPairs self.new flags bytes pairs (place_before i) }
        ensures tells { (flags : declared.IndexFlags) (bytes : List ℕ) (pairs : List IndexPair) (i : ℕ)
            → WalksPairs self.old flags bytes pairs (Some i) → result ≡ nat_lt 0 i }
    {
        self.walk.prev()
    }

    /// Goes to the first pair whose separator isn't before the target, which is a user key and a tag. True exactly where there
    /// is one; else it stands nowhere.
    ///
    /// A separator that is a user key is compared with the user key alone. The user key has at most 65,536 bytes. The restarts are
    /// halved, as [`BlockIter::seek`] does it. RocksDB: `IndexBlockIter::SeekImpl` in table/block_based/block.cc.
    pub fn seek(&mut self, user: &[u8], tag: u64) -> bool
        requires walks { Walking self.old }
        requires user { length user.now ≤ 65536 }
        ensures moves { (flags : declared.IndexFlags) (bytes : List ℕ) (pairs : List IndexPair) (place : Option ℕ)
            → WalksPairs self.old flags bytes pairs place
            → WalksPairs self.new flags bytes pairs (pair_place pairs (pairs_before flags.user_key user.now tag pairs)) }
        ensures tells { (flags : declared.IndexFlags) (bytes : List ℕ) (pairs : List IndexPair) (place : Option ℕ)
            → WalksPairs self.old flags bytes pairs place → result ≡ nat_lt (pairs_before flags.user_key user.now tag pairs) (length pairs) }
    {
        if self.user_key {
            return self.walk.seek(user);
        }
        if user.len() + TAG_LENGTH <= SHORT_TARGET {
            return self.seek_short(user, tag);
        }
        self.seek_long(user, tag)
    }

    /// The separator of the pair where it stands, lent until the next move.
    pub fn separator(&self) -> &[u8]
        requires { (flags : declared.IndexFlags) × (bytes : List ℕ) × (pairs : List IndexPair) × (i : ℕ) × WalksPairs self.now flags bytes pairs (Some i) }
        ensures { (flags : declared.IndexFlags) (bytes : List ℕ) (pairs : List IndexPair) (i : ℕ) → WalksPairs self.now flags bytes pairs (Some i)
            → (pair : IndexPair) × (slice_get pairs i ≡ Some pair) × (result.now ≡ pair.separator) }
    {
        self.walk.key()
    }

    /// The handle of the pair where it stands: whole, also where the row has the difference from the one before.
    /// RocksDB: `IndexBlockIter::value` in table/block_based/block.h.
    pub fn handle(&self) -> Handle
        requires { (flags : declared.IndexFlags) × (bytes : List ℕ) × (pairs : List IndexPair) × (i : ℕ) × WalksPairs self.now flags bytes pairs (Some i) }
        ensures { (flags : declared.IndexFlags) (bytes : List ℕ) (pairs : List IndexPair) (i : ℕ) → WalksPairs self.now flags bytes pairs (Some i)
            → (pair : IndexPair) × (slice_get pairs i ≡ Some pair) × (result ≡ pair.handle) }
    {
        self.walk.handle()
    }

    /// Where the row of the pair begins in the block where it stands.
    pub fn row_start(&self) -> u32
        requires { (flags : declared.IndexFlags) × (bytes : List ℕ) × (pairs : List IndexPair) × (i : ℕ) × WalksPairs self.now flags bytes pairs (Some i) }
        ensures { (flags : declared.IndexFlags) (bytes : List ℕ) (pairs : List IndexPair) (i : ℕ) (walks : WalksPairs self.now flags bytes pairs (Some i))
            → result ≡ start_of (form_of flags) walks.says.block.spelled i }
    {
        self.walk.row_start()
    }

    /// The same as `seek` among stored keys, of a target that is short.
    fn seek_short(&mut self, user: &[u8], tag: u64) -> bool
        requires walks { Walking self.old }
        requires stored { self.old.user_key ≡ false }
        requires user { length user.now + 8 ≤ 256 }
        ensures { Lands self.old self.new user.now tag result }
    {
        let mut room = [0; SHORT_TARGET];
        self.seek_in(&mut room, user, tag)
    }

    /// The same of any target. Its room is large, so other seeks don't pay for it.
    fn seek_long(&mut self, user: &[u8], tag: u64) -> bool
        requires walks { Walking self.old }
        requires stored { self.old.user_key ≡ false }
        requires user { length user.now ≤ 65536 }
        ensures { Lands self.old self.new user.now tag result }
    {
        let mut room = [0; LONGEST_KEY];
        self.seek_in(&mut room, user, tag)
    }

    /// The same, with room for the stored key of the target.
    fn seek_in(&mut self, room: &mut [u8], user: &[u8], tag: u64) -> bool
        requires walks { Walking self.old }
        requires stored { self.old.user_key ≡ false }
        requires room { length user.now + 8 ≤ length room.old }
        ensures { Lands self.old self.new user.now tag result }
    {
        put_target(room, user, tag);
        let (target, _) = room.split_at(user.len() + TAG_LENGTH);
        self.walk.seek(target)
    }
}

/// Puts the stored key of a user key and a tag to the front of some room.
fn put_target(room: &mut [u8], user: &[u8], tag: u64)
    requires { length user.now + 8 ≤ length room.old }
    ensures target { take (length user.now + 8) room.new ≡ user.now ++ fixed 8 tag }
    ensures room { length room.new ≡ length room.old }
{
    let (front, behind) = room.split_at_mut(user.len());
    front.copy_from_slice(user);
    let (last, _) = behind.split_at_mut(TAG_LENGTH);
    LittleEndian::write_u64(last, tag);
}
