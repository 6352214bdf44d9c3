//! Worked runs of the command `write`.
//!
//! Each test hands words to `sst_cli::run` over a folder, an input and an output in memory, and compares the
//! status, what is printed and the bytes of the file. What is proved of `run` holds for every input; these runs
//! show what no clause says: that the definitions meant RocksDB's files and the texts that a caller reads, that a
//! run with memory at hand succeeds, and what the calls outside that fail one by one lead to.
//! `sst_tests_shared` makes the runs.
//!
//! Expected bytes come from the worked layout of the format, and from an independent program that writes the same
//! files, never from the output of this program.
//!
//! - [`files`]: lists written as one block, byte for byte.
//! - [`written_file`]: what stands after the index of each file that is written.
//! - [`many_blocks`]: lists written as many data blocks, and answered from.
//! - [`index_forms`]: lists written with an index of another form, byte for byte.
//! - [`small_forms`]: the same of one entry and of none.
//! - [`write_options`]: the options of a `write`.
//! - [`refused`]: lines that are refused, each for its reason.
//! - [`limits`]: lines, keys, values and lists at their limits.
//! - [`weight`]: the weight of a list, on the writer alone.
//! - [`outside`]: calls outside that fail.
//! - [`words`]: words that are no command.
//! - [`laws`]: the laws of the text, of the tables and of the program, each called once.
//! - [`statuses`]: the number of each status.
#![tactic(auto)]

#[cfg(test)]
mod files;
#[cfg(test)]
mod index_forms;
#[cfg(test)]
mod laws;
#[cfg(test)]
mod limits;
#[cfg(test)]
mod many_blocks;
#[cfg(test)]
mod outside;
#[cfg(test)]
mod refused;
#[cfg(test)]
mod small_forms;
#[cfg(test)]
mod statuses;
#[cfg(test)]
mod weight;
#[cfg(test)]
mod words;
#[cfg(test)]
mod write_options;
#[cfg(test)]
mod written_file;
