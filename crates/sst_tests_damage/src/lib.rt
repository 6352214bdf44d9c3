//! Worked runs of the command `calls` on damaged files.
//!
//! Each test hands words to `sst_cli::run` over a folder, an input and an output in memory, and compares the
//! status, what is printed and the bytes of the file. `sst_tests_write` says what such runs show, and
//! `sst_tests_shared` makes them.
//!
//! Each damage is found here once by its name, and which of two is told. What else can bring it about is tested in
//! `sst_tests_blocks`, on the calls that find it. Expected damages are worked by hand from the layout of the format, and the
//! checksums are those of an independent program, never of this one.
//!
//! - [`damaged`]: files whose footer is damaged, or a block; [`pieces`] has the bytes of which they are made.
//! - [`two_damages`]: such files with two damages or more, of which the first is told.
//! - [`named`]: files whose metaindex or properties are damaged, or with a mark that isn't read yet.
//! - [`parts`]: files whose index is in parts, or of another form, and is damaged.
//! - [`large`]: blocks and keys past their limits. These files take a gigabyte of memory.
//! - [`long_file`]: a file past its limit, which is said and not made.
//! - [`texts`]: the texts of other damages.
#![tactic(auto)]

#[cfg(test)]
mod damaged;
#[cfg(test)]
mod large;
#[cfg(test)]
mod long_file;
#[cfg(test)]
mod named;
#[cfg(test)]
mod parts;
#[cfg(test)]
mod pieces;
#[cfg(test)]
mod texts;
#[cfg(test)]
mod two_damages;
