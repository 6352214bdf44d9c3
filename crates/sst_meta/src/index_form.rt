//! The form of a file's index, as its properties tell it.
ghost use Rattle.std.specs.Prelude.{◌≡◌};
ghost use Rattle.std.specs.Option.{option_map};
ghost use Rattle.sst_meta.specs.IndexForms as forms;

use crate::loading::Loaded;
use crate::name::Name;
use crate::props::Props;

/// The type of an index of two levels, as its property has it.
///
/// RocksDB: `kTwoLevelIndexSearch` in include/rocksdb/table.h.
const TWO_LEVELS: &[u8] = &[2, 0, 0, 0];

/// The flag of the index that isn't set, as its property has it.
const UNSET: &[u8] = &[0];

/// The form of an index: in parts or whole; its separators are user keys, or stored keys; its handles are differences, or
/// stand whole.
///
/// RocksDB: the properties that `CreateIndexReader` looks at, in table/block_based/block_based_table_reader.cc.
#[derive(Clone, Copy, Debug, PartialEq, Eq)]
pub struct IndexForm {
    /// It has two levels: the rows of the top block lead to parts of the index.
    pub parted: bool,
    /// Separators are user keys, with no tag.
    pub user_key: bool,
    /// A handle is the difference from the one before, where its row shares bytes.
    pub delta: bool,
}

impl Loaded {
    /// The form of the file's index, by its properties alone. Takes no memory.
    pub fn index_form(&self) -> IndexForm
        ensures exact { result ≡ forms.index_form self.now.props }
    {
        match &self.props {
            None => IndexForm {
                parted: false,
                user_key: false,
                delta: false,
            },
            Some(props) => form_said(props),
        }
    }
}

/// The form that these properties tell.
fn form_said(props: &Props) -> IndexForm
    ensures { result ≡ forms.form_said props.now }
{
    IndexForm {
        parted: is_two_levels(props.get(Name::IndexType.as_slice())),
        user_key: is_set(props.get(Name::IndexKeyIsUserKey.as_slice())),
        delta: is_set(props.get(Name::IndexValueIsDeltaEncoded.as_slice())),
    }
}

/// The type of the index is that of two levels.
fn is_two_levels(value: Option<&[u8]>) -> bool
    ensures { result ≡ forms.is_two_levels (option_map (λ v. v.now) value.entry) }
{
    match value {
        None => false,
        Some(value) => value == TWO_LEVELS,
    }
}

/// The flag is there, and isn't 0.
#[tactic(auto, unfolding(sst_num::specs::Spelling::varint))]
fn is_set(value: Option<&[u8]>) -> bool
    ensures { result ≡ forms.is_set (option_map (λ v. v.now) value.entry) }
{
    match value {
        None => false,
        Some(value) => value != UNSET,
    }
}
