//! A table written into memory.
ghost use Rattle.std.specs.Prelude.{◌≡◌, ◌<◌, ◌^◌, All, Err, IfOk};
ghost use Rattle.sst_key.specs.declared.entries.Entry.{Entry as entry_type};
ghost use Rattle.sst_key.specs.declared.faults.WriteFault.{WriteFault as fault_type};
ghost use Rattle.sst_key.specs.Entry.{entry_of};
ghost use Rattle.sst_bbt_write.specs.Written.{MayBeChosen, Written};
ghost use Rattle.sst_uses.specs.Uses.{IsRefused};

use sst_bbt_write::{BbtOptions, BbtWriter};
use sst_key::{Entry, EntryView, WriteFault};
use sst_num::Refused;
use std::alloc::Global;

/// The bytes of the block-based table that is written for the entries, with these options.
///
/// The version is 2, 3 or 4, the restart intervals are from 1 to 65,536, a part of the index has at most 65,536 rows, and the
/// sequence numbers are below 2^56. Entries that aren't in order or pass a limit are refused: the first of them, for its first
/// reason.
pub fn write_table(
    alloc: Global,
    options: BbtOptions,
    entries: &[Entry],
) -> Result<Vec<u8>, Refused<WriteFault>>
    requires chosen { MayBeChosen options }
    requires seqs { All (λ (e : entry_type). e.seq < 2 ^ 56) entries.now }
    ensures written { IfOk result (λ file. Written options file.items entries.now) }
    ensures refused { (fault : fault_type) → result ≡ Err (Refused.Cause fault) → IsRefused entries.now fault }
{
    let mut writer = BbtWriter::new(alloc, options)?;
    let mut file = Vec::new(alloc);
    let mut done = 0;
    while done < entries.len() {
        writer.add(view(&entries[done]), &mut file)?;
        done += 1;
    }
    writer.finish(&mut file)?;
    Ok(file)
}

/// An entry, lent.
fn view(entry: &Entry) -> EntryView<'_>
    ensures { entry_of result ≡ entry.now }
{
    EntryView {
        user: entry.user.as_slice(),
        seq: entry.seq,
        kind: entry.kind,
        value: entry.value.as_slice(),
    }
}
