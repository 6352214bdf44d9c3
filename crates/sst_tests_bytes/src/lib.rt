//! Tests of the layers below blocks: numbers, checksums, filters, keys, lists of entries, and what is outside.
//!
//! They call what these crates offer to all, each call once with memory at hand. What is proved of a call holds for every
//! value; a test shows what no clause says: that the definitions meant RocksDB's bytes, and that a call with memory at
//! hand succeeds. Expected values come from the public documents and from independent programs, never from this library.
//!
//! - [`numbers`]: varints, fixed numbers and handles; bytes that are owned, and causes of stopping.
//! - [`sums`]: checksums, and their stored form.
//! - [`hashes`]: the hash of keys in filters.
//! - [`filters`]: legacy Bloom filters, written and read.
//! - [`keys`]: stored keys, their order, and room for them.
//! - [`list_machine`]: what calls answer over lists of entries.
//! - [`outside`]: folders and streams, real ones and those in memory, and which calls of these fail.
//! - [`frames`]: stored blocks, and what is wrong with some.
//! - [`without_memory`]: objects outside for which memory has run out.
#![tactic(auto)]

#[cfg(test)]
mod filters;
#[cfg(test)]
mod frames;
#[cfg(test)]
mod hashes;
#[cfg(test)]
mod keys;
#[cfg(test)]
mod list_machine;
#[cfg(test)]
mod numbers;
#[cfg(test)]
mod outside;
#[cfg(test)]
mod sums;
#[cfg(test)]
mod without_memory;
