//! Laws of names and values: a name has one value, and a block of properties one restart.
ghost use Rattle.std.specs.Prelude.{◌≡◌, ℕ, ◌≤◌, List, length, None, Some};
ghost use Rattle.sst_block.specs.declared.row_form.RowForm.TheVariants.{Names};
ghost use Rattle.sst_block.specs.Block.{Row, AreOrdered};
ghost use Rattle.sst_block.specs.Chosen.{block_of};
ghost use Rattle.sst_meta.specs.Pairs.{Has, value_of};
ghost use Rattle.sst_meta.specs.PropsBlock.{properties_block};

/// A name among pairs in order has one value, that of the pair with this name.
///
/// `found`: the value of a pair is that of its name. `shown`: what a name has as its value is that of a pair with the
/// name. `none`: no pair has a name that has no value. RocksDB: `UserCollectedProperties` in
/// include/rocksdb/table_properties.h is a map from names.
pub fn a_name_has_one_value()
    ensures found { (pairs : List Row) (pair : Row) → AreOrdered Names pairs → Has pairs pair → value_of pair.key pairs ≡ Some pair.value }
    ensures shown { (pairs : List Row) (name value : List ℕ) → value_of name pairs ≡ Some value → Has pairs (record { key = name; value = value }) }
    ensures none { (pairs : List Row) (name : List ℕ) → value_of name pairs ≡ None → (pair : Row) → Has pairs pair → pair.key ≡ name → ⊥ }
{}

/// The block that a builder makes of at most 65,536 names has one restart, and each name shares all that it can.
///
/// RocksDB: `PropertyBlockBuilder` in table/meta_blocks.cc.
pub fn properties_have_one_restart()
    ensures { (pairs : List Row) → length pairs ≤ 65536 → block_of Names 65536 pairs ≡ properties_block pairs }
{}
