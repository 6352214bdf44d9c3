//! What a file opens to, and the faults that it shows where it doesn't open.
ghost use Rattle.std.specs.Prelude.{◌≡◌, ◌⊎◌, ℕ, List};
ghost use Rattle.hex.specs.Hex.{IsBytes};
ghost use Rattle.sst_meta.specs.FooterReading.{last_bytes};
ghost use Rattle.sst_bbt_spec.specs.BlockBased.{Opens};
ghost use Rattle.sst_bbt_spec.specs.Parts.{Part};
ghost use Rattle.sst_bbt_read.specs.OpeningFaults.{FailsToOpen};
ghost use Rattle.sst_bbt_read.specs.OpeningSteps.{OpenStep, IsEarlier, OpeningFailsAt, OpeningFailsFirst, Shows};
ghost use Rattle.sst_bbt_read.specs.declared.bbt_fault.BbtFault.{BbtFault};

/// Each file opens to parts, or fails to open with one fault, and not both.
///
/// What a file opens to, and how it fails, is told by what it says of itself, its blocks and the joined spellings of their
/// rows, and never by reading. `either`: each file opens or fails. `apart`: none does both. `one`: it fails with one fault.
/// RocksDB: `BlockBasedTable::Open` in table/block_based/block_based_table_reader.cc.
pub fn a_file_opens_or_fails()
    ensures either { (file : List ℕ) → ((parts : List Part) × Opens file parts) ⊎ ((fault : BbtFault) × FailsToOpen file fault) }
    ensures apart { (file : List ℕ) (parts : List Part) (fault : BbtFault) → Opens file parts → FailsToOpen file fault → ⊥ }
    ensures one { (file : List ℕ) (a b : BbtFault) → FailsToOpen file a → FailsToOpen file b → a ≡ b }
{}

/// The fault with which a file fails to open is one that the file shows; and a file that opens shows none.
///
/// A fault is shown by what the file says of itself, by the frame of a block that its footer or its index leads to, or by
/// the bytes of such a block. `shown` and `either` hold where the last 53 numbers of the list are bytes, as those of a real
/// file are.
/// RocksDB: `Status::Corruption` and `Status::NotSupported` of `BlockBasedTable::Open`, in
/// table/block_based/block_based_table_reader.cc and table/format.cc.
pub fn a_file_that_opens_shows_no_fault()
    ensures shown { (file : List ℕ) (fault : BbtFault) → IsBytes (last_bytes 53 file) → FailsToOpen file fault → Shows file fault }
    ensures none { (file : List ℕ) (parts : List Part) (fault : BbtFault) → Opens file parts → Shows file fault → ⊥ }
    ensures either { (file : List ℕ) → IsBytes (last_bytes 53 file)
        → ((parts : List Part) × Opens file parts) ⊎ ((fault : BbtFault) × Shows file fault) }
{}

/// Of several things that are wrong with a file, opening answers the one whose step comes first.
///
/// The steps have one order (`IsEarlier`, specs/OpeningSteps.antt): those of loading, the top block of the index, and then
/// each part with its data blocks. `first`: the fault with which a file fails to open fails at a step, and no earlier step
/// fails. `read`: the fault of the first step that fails is that one. `opens` and `all`: a file opens exactly where no step
/// fails. `one`: a step fails with one fault at most. `order`: of two steps that fail, the one of the first fault isn't
/// later.
///
/// All but `opens` and `order` hold where the last 53 numbers of the list are bytes, as those of a real file are.
/// RocksDB: `BlockBasedTable::Open` in table/block_based/block_based_table_reader.cc.
pub fn the_fault_of_opening_is_the_first()
    ensures first { (file : List ℕ) (fault : BbtFault) → IsBytes (last_bytes 53 file) → FailsToOpen file fault
        → (step : OpenStep) × OpeningFailsFirst file step fault }
    ensures read { (file : List ℕ) (step : OpenStep) (fault : BbtFault) → IsBytes (last_bytes 53 file)
        → OpeningFailsFirst file step fault → FailsToOpen file fault }
    ensures opens { (file : List ℕ) (parts : List Part) (step : OpenStep) (fault : BbtFault) → Opens file parts
        → OpeningFailsAt file step fault → ⊥ }
    ensures all { (file : List ℕ) → IsBytes (last_bytes 53 file)
        → ((step : OpenStep) (fault : BbtFault) → OpeningFailsAt file step fault → ⊥)
        → (parts : List Part) × Opens file parts }
    ensures one { (file : List ℕ) (step : OpenStep) (a b : BbtFault) → IsBytes (last_bytes 53 file) → OpeningFailsAt file step a
        → OpeningFailsAt file step b → a ≡ b }
    ensures order { (file : List ℕ) (step other : OpenStep) (fault wrong : BbtFault) → OpeningFailsFirst file step fault
        → OpeningFailsAt file other wrong → IsEarlier other step → ⊥ }
{}
