//! The command that the words are. They stand by their place: an OUT of any spelling is a name, and options come after it.
ghost use Rattle.std.specs.Prelude.{◌≡◌, ◌∷◌, [], map, IfOk};
ghost use Rattle.std.specs.Option.{option_map};
ghost use Rattle.std.specs.String.{string_bytes};
ghost use Rattle.sst_text.specs.CallText as calls;
ghost use Rattle.sst_cli.specs.Words as line;
ghost use Rattle.sst_cli.specs.Command.{seen, command_by};
ghost use Rattle.sst_cli.specs.Command as commands;

use crate::options::options_of;
use sst_bbt_write::BbtOptions;
use sst_key::Target;
use sst_num::Memory;
use sst_text::{seq_field, target_of_fields};
use std::alloc::Global;

/// A `write`: the name of the file that it makes, and the options.
#[derive(Clone, Copy)]
pub struct WriteLine<'a> {
    /// The name of the file.
    pub name: &'a str,
    /// What was chosen.
    pub options: BbtOptions,
}

/// A `get`: the name of the file that it reads, and what it looks for.
#[derive(Drop)]
pub struct GetLine<'a> {
    /// The name of the file.
    pub name: &'a str,
    /// The user key, and the snapshot.
    pub target: Target,
}

/// A `scan`: the name of the file that it reads, and the snapshot, if it has one.
#[derive(Clone, Copy)]
pub struct ScanLine<'a> {
    /// The name of the file.
    pub name: &'a str,
    /// The snapshot: entries with a greater sequence number aren't seen.
    pub snapshot: Option<u64>,
}

/// A command.
#[derive(Drop)]
pub enum Command<'a> {
    /// Writes a file of the entries of the input.
    Write(WriteLine<'a>),
    /// Answers the calls of the input from the named file.
    Calls(&'a str),
    /// Shows the newest entry of a user key in the named file that a snapshot sees.
    Get(GetLine<'a>),
    /// Lists the entries of the named file, or those that a snapshot sees.
    Scan(ScanLine<'a>),
}

/// The command that the words are, by the first of them, if they are one.
///
/// Takes memory for the user key of a `get` alone.
pub fn command_of(alloc: Global, words: &[String]) -> Result<Option<Command<'_>>, Memory>
    ensures { IfOk result (λ command. option_map seen command ≡ commands.command_of (map string_bytes words.now)) }
{
    match words {
        [] => Ok(None),
        [first, ..] => command_by(alloc, first.as_str(), words),
    }
}

/// The command that words with this first one are, if they are one.
fn command_by<'a>(
    alloc: Global,
    first: &str,
    words: &'a [String],
) -> Result<Option<Command<'a>>, Memory>
    ensures { IfOk result (λ command. option_map seen command ≡ command_by first.now (map string_bytes words.entry.now)) }
{
    if first == "write" {
        return Ok(write_by(words));
    }
    if first == "calls" {
        return Ok(calls_by(words));
    }
    if first == "get" {
        return get_by(alloc, words);
    }
    if first == "scan" {
        return Ok(scan_by(words));
    }
    Ok(None)
}

/// The command of words that are a `write`, if they are one.
fn write_by(words: &[String]) -> Option<Command<'_>>
    ensures { option_map seen result ≡ option_map commands.Write (line.write_line (map string_bytes words.now)) }
{
    Some(Command::Write(write_line(words)?))
}

/// The command of words that are a `calls`, if they are one.
fn calls_by(words: &[String]) -> Option<Command<'_>>
    ensures { option_map seen result ≡ option_map commands.Calls (line.calls_name (map string_bytes words.now)) }
{
    Some(Command::Calls(calls_name(words)?))
}

/// The command of words that are a `get`, if they are one.
fn get_by(alloc: Global, words: &[String]) -> Result<Option<Command<'_>>, Memory>
    ensures { IfOk result (λ command. option_map seen command ≡ option_map commands.Get (line.get_line (map string_bytes words.now))) }
{
    match get_line(alloc, words)? {
        None => Ok(None),
        Some(line) => Ok(Some(Command::Get(line))),
    }
}

/// The command of words that are a `scan`, if they are one.
fn scan_by(words: &[String]) -> Option<Command<'_>>
    ensures { option_map seen result ≡ option_map commands.Scan (line.scan_line (map string_bytes words.now)) }
{
    Some(Command::Scan(scan_line(words)?))
}

/// The `write` that the words are, if they are one.
fn write_line(words: &[String]) -> Option<WriteLine<'_>>
    ensures { option_map (λ l. record { name = l.name.now; options = l.options }) result ≡ line.write_line (map string_bytes words.now) }
{
    match words {
        [command, format, name, options @ ..] => {
            let name = named(command.as_str(), format.as_str(), name.as_str())?;
            let options = options_of(options)?;
            Some(WriteLine { name, options })
        }
        _ => None,
    }
}

/// The name, where the words before it ask for a block-based file and it isn't empty.
fn named<'a>(command: &str, format: &str, name: &'a str) -> Option<&'a str>
    ensures { option_map (λ name. name.now) result ≡ line.out_name (command.now ∷ format.now ∷ name.entry.now ∷ []) }
{
    if name.is_empty() {
        return None;
    }
    if command != "write" {
        return None;
    }
    if format != "block" {
        return None;
    }
    Some(name)
}

/// The name of the file that a `calls` reads, where the words are such a line.
fn calls_name(words: &[String]) -> Option<&str>
    ensures { option_map (λ name. name.now) result ≡ line.calls_name (map string_bytes words.now) }
{
    match words {
        [command, name] => called(command.as_str(), name.as_str()),
        _ => None,
    }
}

/// The name, where the word before it asks for answers from a file and it isn't empty.
fn called<'a>(command: &str, name: &'a str) -> Option<&'a str>
    ensures { option_map (λ name. name.now) result ≡ line.calls_name (command.now ∷ name.entry.now ∷ []) }
{
    if name.is_empty() {
        return None;
    }
    if command != "calls" {
        return None;
    }
    Some(name)
}

/// The name, where the word before it is this one and it isn't empty.
fn name_after<'a>(word: &str, command: &str, name: &'a str) -> Option<&'a str>
    ensures { option_map (λ name. name.now) result ≡ line.name_after word.now command.now name.entry.now }
{
    if name.is_empty() {
        return None;
    }
    if command != word {
        return None;
    }
    Some(name)
}

/// The `get` that the words are, if they are one.
fn get_line(alloc: Global, words: &[String]) -> Result<Option<GetLine<'_>>, Memory>
    ensures { IfOk result (λ got. option_map (λ l. record { name = l.name.now; target = l.target }) got ≡ line.get_line (map string_bytes words.now)) }
{
    match words {
        [command, name, user, seq] => {
            match name_after("get", command.as_str(), name.as_str()) {
                None => Ok(None),
                Some(name) => get_of_name(alloc, name, user.as_str(), seq.as_str()),
            }
        }
        _ => Ok(None),
    }
}

/// The `get` of a file's name and the words after it, if they are a target.
fn get_of_name<'a>(
    alloc: Global,
    name: &'a str,
    user: &str,
    seq: &str,
) -> Result<Option<GetLine<'a>>, Memory>
    ensures { IfOk result (λ got. option_map (λ l. record { name = l.name.now; target = l.target }) got
        ≡ line.get_of_name name.entry.now (calls.target_of_fields user.now seq.now)) }
{
    match target_of_fields(alloc, user.as_bytes(), seq.as_bytes())? {
        None => Ok(None),
        Some(target) => Ok(Some(GetLine { name, target })),
    }
}

/// The `scan` that the words are, if they are one.
fn scan_line(words: &[String]) -> Option<ScanLine<'_>>
    ensures { option_map (λ l. record { name = l.name.now; snapshot = l.snapshot }) result ≡ line.scan_line (map string_bytes words.now) }
{
    match words {
        [command, name] => {
            let name = name_after("scan", command.as_str(), name.as_str())?;
            Some(ScanLine {
                name,
                snapshot: None,
            })
        }
        [command, name, seq] => {
            let name = name_after("scan", command.as_str(), name.as_str())?;
            let seq = seq_field(seq.as_str().as_bytes())?;
            Some(ScanLine {
                name,
                snapshot: Some(seq),
            })
        }
        _ => None,
    }
}
