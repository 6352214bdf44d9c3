//! Laws: a line that is written reads back, and a line that reads is the one that is written, but for the case of hex digits.
ghost use Rattle.std.specs.Prelude.{◌≡◌, ℕ, ◌<◌, ◌^◌, List, ◌∷◌, ◌++◌, map, Some, None};
ghost use Rattle.std.specs.Char.{to_ascii_lowercase};
ghost use Rattle.std.specs.Fmt.{decimal};
ghost use Rattle.hex.specs.Hex.{IsBytes};
ghost use Rattle.sst_key.specs.declared.calls.Call.{Call};
ghost use Rattle.sst_key.specs.declared.calls.Target.{Target};
ghost use Rattle.sst_key.specs.declared.entries.Entry.{Entry};
ghost use Rattle.sst_text.specs.Texts.{entry_of_line};
ghost use Rattle.sst_text.specs.EntryText.{hex_text, kind_letter, entry_line};
ghost use Rattle.sst_text.specs.CallText.{IsInLimits, IsOfBytes, call_of_line, call_name, target_in, call_line};

/// The line that is written for an entry reads back as the entry.
///
/// It holds of each entry of bytes whose sequence number is below 2^56. The lines are this project's own.
pub fn an_entry_line_reads_back()
    ensures { (e : Entry) → IsBytes e.user → IsBytes e.value → e.seq < 2 ^ 56 → entry_of_line (entry_line e) ≡ Some e }
{}

/// A line that reads as an entry is the line that is written for it, but for the case of its hex digits.
///
/// `fields`: it has that line's sequence number and kind, and its user key and value but for their case. `line`: in lower
/// case the two are one. The lines are this project's own.
pub fn an_entry_line_is_that_of_its_entry()
    ensures fields { (line : List ℕ) (e : Entry) → entry_of_line line ≡ Some e → (user value : List ℕ)
        × (line ≡ user ++ (32 ∷ (decimal e.seq ++ (32 ∷ kind_letter e.kind ∷ 32 ∷ value))))
        × (map to_ascii_lowercase user ≡ hex_text e.user) × (map to_ascii_lowercase value ≡ hex_text e.value) }
    ensures line { (line : List ℕ) (e : Entry) → entry_of_line line ≡ Some e
        → map to_ascii_lowercase line ≡ map to_ascii_lowercase (entry_line e) }
{}

/// The line that is written for a call reads back as the call.
///
/// It holds of each call whose target, if it has one, has a user key of at most 65,536 bytes and a sequence number
/// below 2^56. The lines are this project's own.
pub fn a_call_line_reads_back()
    ensures { (call : Call) → IsInLimits call → IsOfBytes call → call_of_line (call_line call) ≡ Some call }
{}

/// A line that reads as a call is the line that is written for it, but for the case of its hex digits.
///
/// `without_target`: the line of such a call is its name. `with_target`: it is the name, a user key in whatever case, and the
/// sequence number. `line`: in lower case the two lines are one. The lines are this project's own.
pub fn a_call_line_is_that_of_its_call()
    ensures without_target { (line : List ℕ) (call : Call) → call_of_line line ≡ Some call → target_in call ≡ None
        → line ≡ call_name call }
    ensures with_target { (line : List ℕ) (call : Call) (target : Target) → call_of_line line ≡ Some call
        → target_in call ≡ Some target → (user : List ℕ)
        × (line ≡ call_name call ++ (32 ∷ (user ++ (32 ∷ decimal target.seq)))) × (map to_ascii_lowercase user ≡ hex_text target.user) }
    ensures line { (line : List ℕ) (call : Call) → call_of_line line ≡ Some call
        → map to_ascii_lowercase line ≡ map to_ascii_lowercase (call_line call) }
{}
