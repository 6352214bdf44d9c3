//! The line that is printed for a damaged file: `damage`, and what is wrong. The word is this project's own.
ghost use Rattle.std.specs.Prelude.{◌≡◌, IfOk};
ghost use Rattle.std.specs.String.{string_bytes};
ghost use Rattle.sst_bbt_read.specs.FaultText.{fault_text};

use sst_bbt_read::BbtFault;
use sst_num::Memory;
use std::alloc::Global;

/// The line that is printed for a damaged file.
pub fn fault_line(alloc: Global, fault: BbtFault) -> Result<String, Memory>
    ensures { IfOk result (λ text. string_bytes text ≡ fault_text fault) }
{
    let text = format!(in alloc; "damage {fault}\n")?;
    Ok(text)
}
