//! Where a walk over the rows of a block was paused.
ghost use Rattle.std.specs.Prelude.{◌≡◌, ℕ, ◌+◌, ◌-◌, ◌≤◌, List, length, take, drop, Option, Some, slice_get};
ghost use Rattle.std.specs.Option.{is_some};
ghost use Rattle.sst_block.specs.declared.row_form.RowForm as forms;
ghost use Rattle.sst_block.specs.Block.{Row, Block};
ghost use Rattle.sst_block.specs.Places.{PausedIn};

use crate::check::split_whole;
use sst_key::KeyRoom;
use sst_num::Handle;

/// Where a walk over the rows of a block was paused.
///
/// It keeps the key of the row, and of the block where things begin in it, but none of its bytes: so the block may go, and the
/// walk goes on over the same bytes once they are there again (`BlockIter::resume`). No call takes memory. Own: an iterator of
/// RocksDB keeps its block.
#[derive(Drop)]
pub struct Place {
    /// The key of the row where the walk stands.
    pub(crate) key: KeyRoom,
    /// How many bytes of rows there are from this row on.
    pub(crate) left: usize,
    /// How many there are behind it.
    pub(crate) behind: usize,
    /// How many bytes the value of the row has.
    pub(crate) value: usize,
    /// In an index, the handle that the row says.
    pub(crate) handle: Handle,
    /// The walk stands at a row.
    pub(crate) stands: bool,
}

impl Place {
    /// The walk stands at a row, and not nowhere.
    pub fn stands(&self) -> bool
        ensures { (form : forms.RowForm) (bytes : List ℕ) (rows : List Row) (b : Block form bytes rows) (place : Option ℕ)
            → PausedIn self.now form bytes rows b place → result ≡ is_some place }
    {
        self.stands
    }

    /// The key of the row where the walk stands, lent.
    pub fn key(&self) -> &[u8]
        requires { (form : forms.RowForm) × (bytes : List ℕ) × (rows : List Row) × (b : Block form bytes rows) × (i : ℕ)
            × PausedIn self.now form bytes rows b (Some i) }
        ensures { (form : forms.RowForm) (bytes : List ℕ) (rows : List Row) (b : Block form bytes rows) (i : ℕ)
            → PausedIn self.now form bytes rows b (Some i) → (row : Row) × (slice_get rows i ≡ Some row) × (result.now ≡ row.key) }
    {
        self.key.bytes()
    }

    /// The value of the row where the walk stands, lent from a block that has the bytes of the pause.
    pub fn value<'b>(&self, block: &'b [u8]) -> &'b [u8]
        requires { (form : forms.RowForm) × (rows : List Row) × (b : Block form block.now rows) × (i : ℕ)
            × PausedIn self.now form block.now rows b (Some i) }
        ensures { (form : forms.RowForm) (rows : List Row) (b : Block form block.now rows) (i : ℕ)
            → PausedIn self.now form block.now rows b (Some i) → (row : Row) × (slice_get rows i ≡ Some row) × (result.now ≡ row.value) }
    {
        let rows = split_whole(block).rows;
        row_parts(rows, self.left, self.behind, self.value).value
    }

    /// The room for keys, which is used again.
    pub fn into_room(self) -> KeyRoom {
        self.key
    }
}

/// The bytes of rows from one on, what stands behind it, and its value.
#[derive(Drop)]
pub struct RowParts<'b> {
    /// The rows from this one on.
    pub here: &'b [u8],
    /// Those behind it.
    pub after: &'b [u8],
    /// Its value.
    pub value: &'b [u8],
}

/// The parts of rows, the last `left` bytes of which are those from one row on, and the last `behind` those behind it. Its value has
/// so many bytes.
pub fn row_parts(rows: &[u8], left: usize, behind: usize, value: usize) -> RowParts<'_>
    requires left { left ≤ length rows.now }
    requires behind { behind + value ≤ left }
    ensures here { result.here.now ≡ drop (length rows.now - left) rows.now }
    ensures after { result.after.now ≡ drop (left - behind) result.here.now }
    ensures value { result.value.now ≡ drop (left - behind - value) (take (left - behind) result.here.now) }
{
    let (_, here) = rows.split_at(rows.len() - left);
    let (row, after) = here.split_at(left - behind);
    let (_, value) = row.split_at(row.len() - value);
    RowParts { here, after, value }
}
