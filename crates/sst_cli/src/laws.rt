//! Laws: the text of a list reads back as the list, what a text says is within the limits, and a file that is written reads back.
ghost use Rattle.std.specs.Prelude.{◌≡◌, ℕ, ◌≤◌, List, length};
ghost use Rattle.sst_key.specs.declared.calls.Call.{Call};
ghost use Rattle.sst_key.specs.declared.entries.Entry.{Entry};
ghost use Rattle.sst_bbt_write.specs.Written.{Fits, MayBeChosen, table_of};
ghost use Rattle.sst_bbt_write.specs.declared.bbt_options.BbtOptions.{BbtOptions};
ghost use Rattle.sst_text.specs.EntryText.{AreBytes, lines_text};
ghost use Rattle.sst_text.specs.CallText.{AreInLimits, AreOfBytes, calls_text};
ghost use Rattle.sst_cli.specs.InputReading.{read_input, read_calls};
ghost use Rattle.sst_bbt_spec.specs.Parts.{Part, stored_in};
ghost use Rattle.sst_bbt_spec.specs.BlockBased.{Opens};

/// The text that is written for a list reads back as the list.
///
/// The text is the line of each entry and its line end. It holds of each list of entries of bytes that is written:
/// one that increases, whose entries are within their limits, and whose weight is at most 2^28. The list with no
/// entry is one, and its text is empty. The texts and the limits are this project's own.
pub fn a_list_reads_back()
    ensures { (entries : List Entry) → Fits entries → AreBytes entries → read_input (lines_text entries) ≡ Ok entries }
{}

/// The text that is written for a list of calls reads back as the list.
///
/// The text is the line of each call and its line end. It holds of each list of at most 1,048,576 calls whose targets
/// have user keys of at most 65,536 bytes and sequence numbers below 2^56. The list with no call is one, and its text
/// is empty. The texts and the limits are this project's own.
pub fn a_call_list_reads_back()
    ensures { (calls : List Call) → length calls ≤ 1048576 → AreInLimits calls → AreOfBytes calls
        → read_calls (calls_text calls) ≡ Ok calls }
{}

/// What a text says is within the limits: a list that is written, or calls of which there are few enough.
///
/// `list`: the entries that a text says increase, are of bytes and within their limits, and weigh at most 2^28. `calls`:
/// the calls that a text says are at most 1,048,576, and their targets have user keys of at most 65,536 bytes and sequence
/// numbers below 2^56. So each list that an input says is one that is written, and its text reads back; the same of calls.
/// The texts and the limits are this project's own.
pub fn what_a_text_says_fits()
    ensures list { (text : List ℕ) (entries : List Entry) → read_input text ≡ Ok entries → Fits entries × AreBytes entries }
    ensures calls { (text : List ℕ) (calls : List Call) → read_calls text ≡ Ok calls
        → (length calls ≤ 1048576) × AreInLimits calls × AreOfBytes calls }
{}

/// The file that is written for a list opens to parts of an index whose entries are that list.
///
/// It holds of the options that may be chosen, and of each list that is written: one that increases, whose entries are within their limits, and whose
/// weight is at most 2^28. The list with no entry is one.
/// RocksDB: `BlockBasedTableBuilder` in table/block_based/block_based_table_builder.cc, and `BlockBasedTable::Open`
/// in table/block_based/block_based_table_reader.cc.
pub fn a_written_file_reads_back()
    ensures { (options : BbtOptions) (entries : List Entry) → MayBeChosen options → Fits entries
        → (parts : List Part) × Opens (table_of options entries) parts × (stored_in parts ≡ entries) }
{}
