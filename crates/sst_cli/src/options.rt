//! The options of a `write block`: words `name=number`, in any order, each at most once.
ghost use Rattle.std.specs.Prelude.{◌≡◌, ℕ, ◌<◌, ◌^◌, map};
ghost use Rattle.std.specs.Option.{option_map};
ghost use Rattle.std.specs.String.{string_bytes};
ghost use Rattle.sst_cli.specs.Options as line;

use sst_bbt_write::BbtOptions;
use sst_text::seq_field;

/// The version of the format where no option says it. RocksDB: `BlockBasedTableOptions::format_version` in
/// include/rocksdb/table.h, whose own default is a later one.
const VERSION: u32 = 2;

/// The size of data blocks where no option says it. RocksDB: `BlockBasedTableOptions::block_size` in include/rocksdb/table.h.
const BLOCK_SIZE: u32 = 4096;

/// The most bytes after which a data block is ended.
const MOST_BLOCK: u64 = 16_777_216;

/// How many entries a restart begins where no option says it. RocksDB: `BlockBasedTableOptions::block_restart_interval`.
const RESTART: u32 = 16;

/// The same of the rows of an index. RocksDB: `BlockBasedTableOptions::index_block_restart_interval`.
const INDEX_RESTART: u32 = 1;

/// How many rows a part of the index has where no option says it: the index is whole.
const PARTS: u32 = 0;

/// What some words have said, of each option its number or nothing.
#[derive(Clone, Copy)]
pub struct Said {
    /// The option `version`.
    version: Option<u32>,
    /// The option `block`.
    block_size: Option<u32>,
    /// The option `restart`.
    restart: Option<u32>,
    /// The option `index-restart`.
    index_restart: Option<u32>,
    /// The option `parts`.
    parts: Option<u32>,
}

/// The options of some words, if they are options and none stands twice.
pub fn options_of(words: &[String]) -> Option<BbtOptions>
    ensures { result ≡ line.options_of (map string_bytes words.now) }
{
    Some(chosen_of(say_all(words)?))
}

/// The options that are said; what isn't said has its default.
fn chosen_of(said: Said) -> BbtOptions
    ensures { result ≡ line.chosen_of said }
{
    BbtOptions {
        version: or_default(said.version, VERSION),
        block_size: or_default(said.block_size, BLOCK_SIZE),
        restart: or_default(said.restart, RESTART),
        index_restart: or_default(said.index_restart, INDEX_RESTART),
        parts: or_default(said.parts, PARTS),
    }
}

/// A number, or its default where nothing is said.
fn or_default(said: Option<u32>, default: u32) -> u32
    ensures { result ≡ line.or_default said default }
{
    match said {
        None => default,
        Some(n) => n,
    }
}

/// What all words say, if they are options and none stands twice.
fn say_all(words: &[String]) -> Option<Said>
    ensures { result ≡ line.say_all (map string_bytes words.now) line.none_said }
{
    let mut said = Said {
        version: None,
        block_size: None,
        restart: None,
        index_restart: None,
        parts: None,
    };
    let mut done = 0;
    while done < words.len() {
        said = say(said, words[done].as_str().as_bytes())?;
        done += 1;
    }
    Some(said)
}

/// What is said with one word more, if it is an option that wasn't said before.
fn say(said: Said, word: &[u8]) -> Option<Said>
    ensures { result ≡ line.say word.now said }
{
    match version_number(word) {
        Some(n) => Some(Said {
            version: Some(once(said.version, n)?),
            block_size: said.block_size,
            restart: said.restart,
            index_restart: said.index_restart,
            parts: said.parts,
        }),
        None => say_block(said, word),
    }
}

/// The same of a word that is no option before `block`.
fn say_block(said: Said, word: &[u8]) -> Option<Said>
    ensures { result ≡ line.say_block (line.block_number word.now) word.now said }
{
    match block_number(word) {
        Some(n) => Some(Said {
            version: said.version,
            block_size: Some(once(said.block_size, n)?),
            restart: said.restart,
            index_restart: said.index_restart,
            parts: said.parts,
        }),
        None => say_restart(said, word),
    }
}

/// The same of a word that is no option before `restart`.
fn say_restart(said: Said, word: &[u8]) -> Option<Said>
    ensures { result ≡ line.say_restart (line.restart_number word.now) word.now said }
{
    match restart_number(word) {
        Some(n) => Some(Said {
            version: said.version,
            block_size: said.block_size,
            restart: Some(once(said.restart, n)?),
            index_restart: said.index_restart,
            parts: said.parts,
        }),
        None => say_index_restart(said, word),
    }
}

/// The same of a word that is no option before `index-restart`.
fn say_index_restart(said: Said, word: &[u8]) -> Option<Said>
    ensures { result ≡ line.say_index_restart (line.index_restart_number word.now) word.now said }
{
    match index_restart_number(word) {
        Some(n) => Some(Said {
            version: said.version,
            block_size: said.block_size,
            restart: said.restart,
            index_restart: Some(once(said.index_restart, n)?),
            parts: said.parts,
        }),
        None => say_parts(said, word),
    }
}

/// The same of a word that is no option before `parts`.
fn say_parts(said: Said, word: &[u8]) -> Option<Said>
    ensures { result ≡ line.say_parts (line.parts_number word.now) said }
{
    let n = parts_number(word)?;
    Some(Said {
        version: said.version,
        block_size: said.block_size,
        restart: said.restart,
        index_restart: said.index_restart,
        parts: Some(once(said.parts, n)?),
    })
}

/// The number, if none was said before.
fn once(said: Option<u32>, n: u32) -> Option<u32>
    ensures { result ≡ line.once said n }
{
    match said {
        None => Some(n),
        Some(_) => None,
    }
}

/// The number of the option for the version of the format, if the word is one.
#[tactic(auto, unfolding(crate::specs::Options::version_number))]
fn version_number(word: &[u8]) -> Option<u32>
    ensures { result ≡ line.version_number word.now }
{
    option_number(b"version=", 2, 4, word)
}

/// The number of the option for the size of data blocks, if the word is one.
#[tactic(auto, unfolding(crate::specs::Options::block_number))]
fn block_number(word: &[u8]) -> Option<u32>
    ensures { result ≡ line.block_number word.now }
{
    option_number(b"block=", 64, MOST_BLOCK, word)
}

/// The number of the option for the restarts of data blocks, if the word is one.
#[tactic(auto, unfolding(crate::specs::Options::restart_number))]
fn restart_number(word: &[u8]) -> Option<u32>
    ensures { result ≡ line.restart_number word.now }
{
    option_number(b"restart=", 1, 65_536, word)
}

/// The number of the option for the restarts of an index, if the word is one.
#[tactic(auto, unfolding(crate::specs::Options::index_restart_number))]
fn index_restart_number(word: &[u8]) -> Option<u32>
    ensures { result ≡ line.index_restart_number word.now }
{
    option_number(b"index-restart=", 1, 65_536, word)
}

/// The number of the option for the rows of a part of an index, if the word is one.
#[tactic(auto, unfolding(crate::specs::Options::parts_number))]
fn parts_number(word: &[u8]) -> Option<u32>
    ensures { result ≡ line.parts_number word.now }
{
    option_number(b"parts=", 0, 65_536, word)
}

/// The number of an option that begins so, within these limits, if the word is one.
fn option_number(front: &[u8], least: u64, most: u64, word: &[u8]) -> Option<u32>
    requires { most < 2 ^ 32 }
    ensures { result ≡ line.option_number front.now least most word.now }
{
    let digits = behind(front, word)?;
    let number = seq_field(digits)?;
    if number < least {
        return None;
    }
    if number > most {
        return None;
    }
    Some(number as u32)
}

/// What stands behind a front of a word, if it has this front.
fn behind<'a>(front: &[u8], word: &'a [u8]) -> Option<&'a [u8]>
    ensures { option_map (λ rest. rest.now) result ≡ line.behind front.now word.entry.now }
{
    if word.len() < front.len() {
        return None;
    }
    let (own, rest) = word.split_at(front.len());
    if own == front { Some(rest) } else { None }
}
