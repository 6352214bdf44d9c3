//! Laws of runs: what follows from how a command ends, for each command in its own words.
ghost use Rattle.std.specs.Prelude.{◌≡◌, ◌≢◌, ◌⊎◌, ℕ, List, [], Option, Some, None, option_and_then, Ok, Err, IsTrue};
ghost use Rattle.std.specs.Io.KnownBytes.{append_known};
ghost use Rattle.sst_key.specs.Entry.{IsOrdered};
ghost use Rattle.sst_key.specs.ListMachine.{visible};
ghost use Rattle.sst_key.specs.declared.calls.Call.{Call};
ghost use Rattle.sst_key.specs.declared.entries.Entry.{Entry};
ghost use Rattle.sst_device.specs.Folder.{Files, file_of, misses, put_file};
ghost use Rattle.sst_text.specs.Taken.{IsTakenTo};
ghost use Rattle.sst_bbt_write.specs.Written.{MayBeChosen};
ghost use Rattle.sst_bbt_spec.specs.BlockBased.{BlockBased, Opens};
ghost use Rattle.sst_bbt_spec.specs.Parts.{Part};
ghost use Rattle.sst_bbt_read.specs.OpeningFaults.{FailsToOpen};
ghost use Rattle.sst_bbt_read.specs.declared.bbt_fault.BbtFault.{BbtFault};
ghost use Rattle.sst_cli.specs.Behaviour.{CallsFor, Ends, IsFault, MayPrint, Told, World, tells};
ghost use Rattle.sst_cli.specs.CallsCommand.{Answered, AnsweredByWay, IsDamaged, calls_command};
ghost use Rattle.sst_cli.specs.Command.{Command, behaviour, command_of, file_read};
ghost use Rattle.sst_cli.specs.GetCommand.{get_command, got_text, way_got_text};
ghost use Rattle.sst_cli.specs.NoCommand.{no_command, usage_text};
ghost use Rattle.sst_cli.specs.InputReading.{read_calls, read_input};
ghost use Rattle.sst_cli.specs.OpenFile.{HasShown, TellsDamage, prints_of_file};
ghost use Rattle.sst_cli.specs.Refusals.{refusal_text};
ghost use Rattle.sst_cli.specs.ScanCommand.{list_text, scan_command, scan_text, shown_at};
ghost use Rattle.sst_cli.specs.Words as line;
ghost use Rattle.sst_cli.specs.Words.{GetLine, ScanLine, WriteLine};
ghost use Rattle.sst_cli.specs.WriteCommand.{Wrote, write_command};
ghost use Rattle.sst_cli.specs.declared.input.refusal.Refusal.{Refusal};
ghost use Rattle.sst_cli.specs.declared.status.Status.{Status};
ghost use Rattle.sst_cli.specs.declared.status.Status.TheVariants as ends_with;

/// Words are a command exactly where they are one by their places.
///
/// `write`, `calls`, `get` and `scan`: words that are a `write` are that command, and no other, and so of the others. `may`: the
/// options of a `write` are such as may be chosen. `none`: words that are no command are none of these. The words are this project's own.
pub fn a_command_is_by_its_words()
    ensures write { (words : List (List ℕ)) (write : WriteLine) → line.write_line words ≡ Some write → command_of words ≡ Some (Command.Write write) }
    ensures calls { (words : List (List ℕ)) (name : List ℕ) → line.calls_name words ≡ Some name → command_of words ≡ Some (Command.Calls name) }
    ensures is_write { (words : List (List ℕ)) (write : WriteLine) → command_of words ≡ Some (Command.Write write) → line.write_line words ≡ Some write }
    ensures is_calls { (words : List (List ℕ)) (name : List ℕ) → command_of words ≡ Some (Command.Calls name) → line.calls_name words ≡ Some name }
    ensures get { (words : List (List ℕ)) (get : GetLine) → line.get_line words ≡ Some get → command_of words ≡ Some (Command.Get get) }
    ensures is_get { (words : List (List ℕ)) (get : GetLine) → command_of words ≡ Some (Command.Get get) → line.get_line words ≡ Some get }
    ensures scan { (words : List (List ℕ)) (scan : ScanLine) → line.scan_line words ≡ Some scan → command_of words ≡ Some (Command.Scan scan) }
    ensures is_scan { (words : List (List ℕ)) (scan : ScanLine) → command_of words ≡ Some (Command.Scan scan) → line.scan_line words ≡ Some scan }
    ensures may { (words : List (List ℕ)) (write : WriteLine) → line.write_line words ≡ Some write → MayBeChosen write.options }
    ensures none { (words : List (List ℕ)) → command_of words ≡ None
        → (line.out_name words ≡ None) × (line.calls_name words ≡ None) × (line.get_line words ≡ None) × (line.scan_line words ≡ None) }
    ensures neither { (words : List (List ℕ)) → line.out_name words ≡ None → line.calls_name words ≡ None → line.get_line words ≡ None
        → line.scan_line words ≡ None → command_of words ≡ None }
{}

/// Where the folder and the input are told, whatever a command may find there has one outcome.
///
/// So "the status goes with something that the command may find" says which status it is, and the same of the text. `some`:
/// there is always something to find. This is this project's own.
pub fn a_told_world_has_one_outcome()
    ensures one { (command : Option Command) (files : Files) (text : List ℕ) (found other : (behaviour command).Found)
        → (behaviour command).IsFound (tells (Some files) (Some text)) found
        → (behaviour command).IsFound (tells (Some files) (Some text)) other
        → (behaviour command).outcome found ≡ (behaviour command).outcome other }
    ensures some { (command : Option Command) (files : Files) (text : List ℕ) → (found : (behaviour command).Found)
        × (behaviour command).IsFound (tells (Some files) (Some text)) found }
{}

/// What a run of any command comes to.
///
/// `usage`: words that are no command: their whole text is printed. `usage_only`: no other words have that status.
/// `whole`: where there was no fault, the whole text is printed. `device`: but for a fault, Device says that the folder
/// tells that the file that the command reads isn't there, and of `calls` that the input, where it is told, reads as calls.
/// `file_only`: File says that this file, where it is told, has a fault. `never`: no run tries hash functions, for now. The
/// statuses and the texts are this project's own.
pub fn what_a_run_comes_to()
    ensures usage { (before after : World) (status : Status) → Ends no_command before after status
        → IsFault status ⊎ ((status ≡ ends_with.Usage) × (after.written ≡ append_known before.written usage_text)) }
    ensures usage_only { (command : Option Command) (before after : World) (status : Status) → Ends (behaviour command) before after status
        → status ≡ ends_with.Usage → command ≡ None }
    ensures whole { (command : Option Command) (before after : World) (status : Status) → Ends (behaviour command) before after status
        → status ≢ ends_with.Device → status ≢ ends_with.Memory
        → (text : List ℕ) × MayPrint (behaviour command) before.told text × (after.written ≡ append_known before.written text) }
    ensures device { (command : Option Command) (told : Told) → CallsFor (behaviour command) told ends_with.Device
        → (name : List ℕ) × (option_and_then file_read command ≡ Some name) × IsTrue (misses told.held name 0)
        × (command ≡ Some (Command.Calls name) → (text : List ℕ) → told.left ≡ Some text → (calls : List Call) × (read_calls text ≡ Ok calls)) }
    ensures file_only { (command : Option Command) (before after : World) (status : Status) → Ends (behaviour command) before after status
        → status ≡ ends_with.File → (name : List ℕ) × (option_and_then file_read command ≡ Some name)
        × ((file : List ℕ) → file_of before.told.held name ≡ Some file → (fault : BbtFault) × (FailsToOpen file fault)) }
    ensures never { (command : Option Command) (before after : World) (status : Status) → Ends (behaviour command) before after status
        → status ≢ ends_with.Exhausted }
{}

/// What a `write` comes to.
///
/// `written`: a text that says a list, in whatever spelling, is written. `refused`, `near`: of an input that is refused the whole
/// text is printed, and at most a piece past the refused line is taken. `done`: a run that ends with Done has written what its
/// input says. `input_only`, `begun`: with Input the input is refused, and no file but OUT has changed. `statuses`: there are no
/// others. The statuses and the texts are this project's own.
pub fn what_a_write_comes_to()
    ensures written { (write : WriteLine) (before after : World) (status : Status) (text : List ℕ) (entries : List Entry)
        → Ends (write_command write) before after status
        → before.told.left ≡ Some text → read_input text ≡ Ok entries
        → IsFault status ⊎ Wrote status write entries before.told.held after.told.held after.told.left before.written after.written }
    ensures refused { (write : WriteLine) (before after : World) (status : Status) (text : List ℕ) (refusal : Refusal)
        → Ends (write_command write) before after status
        → before.told.left ≡ Some text → read_input text ≡ Err refusal
        → IsFault status ⊎ ((status ≡ ends_with.Input) × (after.written ≡ append_known before.written (refusal_text refusal))) }
    ensures near { (write : WriteLine) (before after : World) (status : Status) (text : List ℕ) (refusal : Refusal)
        → Ends (write_command write) before after status
        → before.told.left ≡ Some text → read_input text ≡ Err refusal → status ≡ ends_with.Input
        → IsTakenTo refusal.line text after.told.left }
    ensures done { (write : WriteLine) (before after : World) (status : Status) (text : List ℕ)
        → Ends (write_command write) before after status
        → status ≡ ends_with.Done → before.told.left ≡ Some text
        → (entries : List Entry) × (read_input text ≡ Ok entries)
        × Wrote status write entries before.told.held after.told.held after.told.left before.written after.written }
    ensures input_only { (write : WriteLine) (before after : World) (status : Status) (text : List ℕ)
        → Ends (write_command write) before after status
        → status ≡ ends_with.Input → before.told.left ≡ Some text → (refusal : Refusal) × (read_input text ≡ Err refusal) }
    ensures begun { (write : WriteLine) (before after : World) (status : Status) → Ends (write_command write) before after status
        → status ≡ ends_with.Input
        → (bytes : List ℕ) × (after.told.held ≡ put_file before.told.held write.name bytes) }
    ensures statuses { (write : WriteLine) (before after : World) (status : Status) → Ends (write_command write) before after status
        → (status ≡ ends_with.Done) ⊎ ((status ≡ ends_with.Input) ⊎ IsFault status) }
{}

/// What a `calls` comes to.
///
/// `answered_as_list`: on a file that stands for a list each text that says calls, in whatever spelling, is answered as the
/// list answers. `answered`: on a file that opens, whatever its separators, by the way of its parts. `damaged`: of a file that
/// doesn't open the first thing that is wrong is printed, and the file shows it. `refused`, `near`: of an input that is
/// refused, whatever the file, the whole text is printed, and at most a piece past the refused line is taken. `absent`,
/// `prints_nothing`: of a file that isn't there, after the refusals of the input, nothing is printed. `done`, `done_only`,
/// `read_to_its_end`: a run that ends with Done has answered, its file opens, and its input is read to its end. `input_only`:
/// what that status says. `statuses`: there are no others. The statuses and the texts are this project's own.
pub fn what_calls_come_to()
    ensures answered_as_list { (name : List ℕ) (before after : World) (status : Status) (file text : List ℕ) (entries : List Entry) (calls : List Call)
        → Ends (calls_command name) before after status
        → file_of before.told.held name ≡ Some file → BlockBased file entries
        → before.told.left ≡ Some text → read_calls text ≡ Ok calls
        → IsFault status ⊎ Answered status entries calls before.told.held after.told.held after.told.left before.written after.written }
    ensures answered { (name : List ℕ) (before after : World) (status : Status) (file text : List ℕ) (parts : List Part) (calls : List Call)
        → Ends (calls_command name) before after status
        → Opens file parts → file_of before.told.held name ≡ Some file
        → before.told.left ≡ Some text → read_calls text ≡ Ok calls
        → IsFault status ⊎ AnsweredByWay status parts calls before.told.held after.told.held after.told.left before.written after.written }
    ensures damaged { (name : List ℕ) (before after : World) (status : Status) (file text : List ℕ) (calls : List Call)
        → Ends (calls_command name) before after status
        → file_of before.told.held name ≡ Some file → ((parts : List Part) → Opens file parts → ⊥)
        → before.told.left ≡ Some text → read_calls text ≡ Ok calls
        → IsFault status ⊎ IsDamaged status file after.told.left before.written after.written }
    ensures refused { (name : List ℕ) (before after : World) (status : Status) (text : List ℕ) (refusal : Refusal)
        → Ends (calls_command name) before after status
        → before.told.left ≡ Some text → read_calls text ≡ Err refusal
        → IsFault status ⊎ ((status ≡ ends_with.Input) × (after.written ≡ append_known before.written (refusal_text refusal))) }
    ensures near { (name : List ℕ) (before after : World) (status : Status) (text : List ℕ) (refusal : Refusal)
        → Ends (calls_command name) before after status
        → before.told.left ≡ Some text → read_calls text ≡ Err refusal → status ≡ ends_with.Input
        → IsTakenTo refusal.line text after.told.left }
    ensures absent { (name : List ℕ) (before after : World) (status : Status) → Ends (calls_command name) before after status
        → IsTrue (misses before.told.held name 0) → (status ≡ ends_with.Input) ⊎ IsFault status }
    ensures prints_nothing { (name : List ℕ) (before after : World) (status : Status) (text : List ℕ) (calls : List Call)
        → Ends (calls_command name) before after status
        → IsTrue (misses before.told.held name 0) → before.told.left ≡ Some text → read_calls text ≡ Ok calls
        → after.written ≡ before.written }
    ensures done { (name : List ℕ) (before after : World) (status : Status) (file text : List ℕ)
        → Ends (calls_command name) before after status
        → status ≡ ends_with.Done → file_of before.told.held name ≡ Some file → before.told.left ≡ Some text
        → (parts : List Part) × (calls : List Call) × Opens file parts × (read_calls text ≡ Ok calls)
        × AnsweredByWay status parts calls before.told.held after.told.held after.told.left before.written after.written }
    ensures done_only { (name : List ℕ) (before after : World) (status : Status) (file : List ℕ)
        → Ends (calls_command name) before after status
        → status ≡ ends_with.Done → file_of before.told.held name ≡ Some file → (parts : List Part) × Opens file parts }
    ensures read_to_its_end { (name : List ℕ) (before after : World) (status : Status) (text : List ℕ)
        → Ends (calls_command name) before after status
        → (status ≡ ends_with.Done) ⊎ (status ≡ ends_with.File) → before.told.left ≡ Some text
        → ((calls : List Call) × (read_calls text ≡ Ok calls)) × (after.told.left ≡ Some []) }
    ensures input_only { (name : List ℕ) (before after : World) (status : Status) (text : List ℕ)
        → Ends (calls_command name) before after status
        → status ≡ ends_with.Input → before.told.left ≡ Some text → (refusal : Refusal) × (read_calls text ≡ Err refusal) }
    ensures statuses { (name : List ℕ) (before after : World) (status : Status) → Ends (calls_command name) before after status
        → (status ≡ ends_with.Done) ⊎ ((status ≡ ends_with.Input) ⊎ ((status ≡ ends_with.File) ⊎ IsFault status)) }
{}

/// What a command comes to that opens its file and prints a text of its parts.
///
/// `printed`: of a file that opens the whole text is printed, no file changes, and the input isn't touched. `damaged`: of one that
/// doesn't the first thing that is wrong is printed, and the file shows it. `absent`, `prints_nothing`: of a file that isn't there
/// nothing is printed. `done`: a run that ends with Done has printed the text of its file, which opens. `statuses`: there are no
/// others. The statuses and the texts are this project's own.
pub fn what_reading_a_file_comes_to()
    ensures printed { (name : List ℕ) (text : List Part → List ℕ) (before after : World) (status : Status) (file : List ℕ) (parts : List Part)
        → Ends (prints_of_file name text) before after status → Opens file parts → file_of before.told.held name ≡ Some file
        → IsFault status ⊎ HasShown status (text parts) before after }
    ensures damaged { (name : List ℕ) (text : List Part → List ℕ) (before after : World) (status : Status) (file : List ℕ)
        → Ends (prints_of_file name text) before after status → file_of before.told.held name ≡ Some file
        → ((parts : List Part) → Opens file parts → ⊥) → IsFault status ⊎ TellsDamage status file before after }
    ensures absent { (name : List ℕ) (text : List Part → List ℕ) (before after : World) (status : Status)
        → Ends (prints_of_file name text) before after status → IsTrue (misses before.told.held name 0) → IsFault status }
    ensures prints_nothing { (name : List ℕ) (text : List Part → List ℕ) (before after : World) (status : Status)
        → Ends (prints_of_file name text) before after status → IsTrue (misses before.told.held name 0) → after.written ≡ before.written }
    ensures done { (name : List ℕ) (text : List Part → List ℕ) (before after : World) (status : Status) (file : List ℕ)
        → Ends (prints_of_file name text) before after status → status ≡ ends_with.Done → file_of before.told.held name ≡ Some file
        → (parts : List Part) × Opens file parts × HasShown status (text parts) before after }
    ensures statuses { (name : List ℕ) (text : List Part → List ℕ) (before after : World) (status : Status)
        → Ends (prints_of_file name text) before after status → (status ≡ ends_with.Done) ⊎ ((status ≡ ends_with.File) ⊎ IsFault status) }
{}

/// What a `get` comes to, beside what reading a file comes to.
///
/// `got_as_list`: on a file that stands for a list the line of the entry that the list's Get shows is printed, or `none`. `got`: on
/// a file that opens, whatever its separators, that of the Get by the way of its parts. `command`: words that are a `get` come
/// to this. The texts are this project's own.
pub fn what_a_get_comes_to()
    ensures got_as_list { (get : GetLine) (before after : World) (status : Status) (file : List ℕ) (entries : List Entry)
        → Ends (get_command get) before after status → file_of before.told.held get.name ≡ Some file → BlockBased file entries
        → IsFault status ⊎ HasShown status (got_text entries get.target) before after }
    ensures got { (get : GetLine) (before after : World) (status : Status) (file : List ℕ) (parts : List Part)
        → Ends (get_command get) before after status → file_of before.told.held get.name ≡ Some file → Opens file parts
        → IsFault status ⊎ HasShown status (way_got_text get.target parts) before after }
    ensures command { (words : List (List ℕ)) (get : GetLine) (before after : World) (status : Status) → line.get_line words ≡ Some get
        → Ends (behaviour (command_of words)) before after status → Ends (get_command get) before after status }
{}

/// What a `scan` comes to, beside what reading a file comes to.
///
/// `scanned_as_list`: on a file that stands for a list the lines of the list are printed, or, at a snapshot, those of what is
/// visible of it. `scanned`: on a file that opens, whatever its separators, those of the entries of its parts, or of the ones
/// among them that the walk doesn't pass over. `command`: words that are a `scan` come to this. The texts are this project's
/// own.
pub fn what_a_scan_comes_to()
    ensures scanned_as_list { (scan : ScanLine) (before after : World) (status : Status) (file : List ℕ) (entries : List Entry)
        → Ends (scan_command scan) before after status → file_of before.told.held scan.name ≡ Some file → BlockBased file entries
        → IsFault status ⊎ HasShown status (list_text scan.snapshot entries) before after }
    ensures scanned { (scan : ScanLine) (before after : World) (status : Status) (file : List ℕ) (parts : List Part)
        → Ends (scan_command scan) before after status → file_of before.told.held scan.name ≡ Some file → Opens file parts
        → IsFault status ⊎ HasShown status (scan_text scan.snapshot parts) before after }
    ensures command { (words : List (List ℕ)) (scan : ScanLine) (before after : World) (status : Status) → line.scan_line words ≡ Some scan
        → Ends (behaviour (command_of words)) before after status → Ends (scan_command scan) before after status }
{}

/// A walk from the front that passes over each entry above a snapshot, and each whose user key is that of the entry printed
/// last, prints what the snapshot sees.
///
/// It holds of each list in order. RocksDB: `ReadOptions::snapshot` in include/rocksdb/options.h, and `DBIter` in db/db_iter.cc,
/// which passes over the later entries of a user key in this way.
pub fn a_filtered_walk_is_what_is_visible()
    ensures { (snapshot : ℕ) (entries : List Entry) → IsOrdered entries → shown_at snapshot entries ≡ visible entries snapshot }
{}
