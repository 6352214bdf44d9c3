//! Worked runs of the commands `calls`, `get` and `scan` on files that are answered from.
//!
//! Each test hands words to `sst_cli::run` over a folder, an input and an output in memory, and compares the
//! status, what is printed and the bytes of the file. `sst_tests_write` says what such runs show, and
//! `sst_tests_shared` makes them.
//!
//! Expected answers come from a count by hand over the list, and files of another writer from an independent program,
//! never from the output of this program.
//!
//! - [`lists`]: answers from files that were written here.
//! - [`foreign`]: answers from files of another writer.
//! - [`separators`]: answers by the index, where it isn't the list's.
//! - [`parts`]: the same where the index is in parts, or has user keys.
//! - [`counted`]: answers at every target, as a plain count over the list gives them.
//! - [`other_names`]: files with names and properties that a reader passes by.
//! - [`questions`]: one Get, all entries or those that a snapshot sees, asked for by words.
//! - [`lacking`]: the line of a call that a format lacks.
//! - [`outside`]: inputs that are refused, a file that isn't there, and calls outside that fail.
#![tactic(auto)]

#[cfg(test)]
mod counted;
#[cfg(test)]
mod foreign;
#[cfg(test)]
mod lacking;
#[cfg(test)]
mod lists;
#[cfg(test)]
mod other_names;
#[cfg(test)]
mod outside;
#[cfg(test)]
mod parts;
#[cfg(test)]
mod questions;
#[cfg(test)]
mod separators;
