//! A file made of an input: OUT is begun, the lines are added to a writer, and the bytes are added to OUT.
//!
//! For now the whole file is made in memory first.
ghost use Rattle.std.specs.Prelude.{◌≡◌, ◌⊎◌, ℕ, List, Some, Err, IfOk};
ghost use Rattle.sst_bbt_write.specs.Written.{MayBeChosen};
ghost use Rattle.sst_device.specs.Faults.{Rose};
ghost use Rattle.sst_device.specs.Folder.{put_file};
ghost use Rattle.sst_cli.specs.InputReading.{read_input};
ghost use Rattle.sst_cli.specs.Produced.{HasProduced};
ghost use Rattle.sst_cli.specs.WriteCommand.{ChangesOnly};
ghost use Rattle.sst_text.specs.Taken.{IsTakenTo};
ghost use Rattle.sst_cli.specs.declared.input.refusal.Refusal.{Refusal};

use crate::command::WriteLine;
use crate::input::entries::{InputStop, add_lines};
use sst_bbt_write::BbtWriter;
use sst_device::{DevStop, Folder, Intake};
use std::alloc::Global;

/// Begins the named file, reads the input to its end, and writes the file of its entries. Answers how many there
/// are.
pub fn produce<F: Folder, I: Intake>(
    alloc: Global,
    line: WriteLine<'_>,
    files: &mut F,
    input: &mut I,
) -> Result<u64, InputStop>
    requires { MayBeChosen line.options }
    ensures ok { IfOk result (λ count. HasProduced count (record { name = line.entry.name.now; options = line.entry.options }) (F.held files.old) (F.held files.new)
        (I.left input.old) (I.left input.new)) }
    ensures refused { (refusal : Refusal) → result ≡ Err (InputStop.Refused refusal)
        → (text : List ℕ) → I.left input.old ≡ Some text → read_input text ≡ Err refusal }
    ensures near { (refusal : Refusal) → result ≡ Err (InputStop.Refused refusal)
        → (text : List ℕ) → I.left input.old ≡ Some text → IsTakenTo refusal.line text (I.left input.new) }
    ensures begun { (refusal : Refusal) → result ≡ Err (InputStop.Refused refusal)
        → (bytes : List ℕ) × (F.held files.new ≡ put_file (F.held files.old) line.entry.name.now bytes) }
    ensures others { ChangesOnly line.entry.name.now (F.held files.old) (F.held files.new) }
    ensures failed { result ≡ Err (InputStop.Device DevStop.Failed) → Rose (F.faults files.old) (F.faults files.new)
        ⊎ Rose (I.faults input.old) (I.faults input.new) }
    ensures hides_none { (result ≡ Err (InputStop.Device DevStop.Failed))
        ⊎ ((F.faults files.new ≡ F.faults files.old) × (I.faults input.new ≡ I.faults input.old)) }
{
    files.begin(line.name)?;
    let mut writer = BbtWriter::new(alloc, line.options)?;
    let mut file = Vec::new(alloc);
    add_lines(alloc, &mut writer, input, &mut file)?;
    let count = writer.finish(&mut file)?;
    files.add(line.name, &file)?;
    Ok(count)
}
