//! The line of an entry as it is printed, with its line end. The text is this project's own.
ghost use Rattle.std.specs.Prelude.{◌≡◌, ◌++◌, OnOk};
ghost use Rattle.sst_key.specs.Entry.{entry_of};
ghost use Rattle.sst_text.specs.EntryText.{ended_line};

use sst_key::EntryView;
use sst_num::Memory;
use sst_text::put_entry_line;

/// Appends the line of an entry and its line end. Where memory runs out, nothing is said of the text.
pub fn put_ended_line(text: &mut Vec<u8>, entry: EntryView<'_>) -> Result<(), Memory>
    ensures { OnOk result (text.new.items ≡ text.old.items ++ ended_line (entry_of entry.entry)) }
{
    put_entry_line(text, entry)?;
    text.push(b'\n')?;
    Ok(())
}
