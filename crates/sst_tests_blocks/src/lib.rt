//! Tests of blocks, and of what a table file says of itself at its end.
//!
//! They call what these crates offer to all, each call once with memory at hand. `sst_tests_bytes` says what such tests
//! show. Expected values come from the public documents, from independent programs and from counts by hand, never from this
//! library.
//!
//! - [`blocks`]: blocks that are built, checked and walked, and what is wrong with some.
//! - [`properties`]: names and their values in a block.
//! - [`footers`]: the ends of files.
//! - [`loading`]: what files say of themselves, and what is wrong with some; [`loaded_files`] makes them.
//! - [`faulty_properties`]: files whose properties are at fault, and what is told first.
//! - [`forms`]: the form of an index, as the properties tell it.
//! - [`lengths`]: the longest files that are loaded.
//! - [`seeking`]: walks that go to a target, are paused and go on, and walks to a restart.
//! - [`index`]: the keys between blocks, and the bytes of some indexes.
//! - [`index_walks`]: walks over the pairs of an index block, which are paused and go on.
//! - [`filter_parts`]: filters in parts: which part has a user key, and the bytes of some.
//! - [`laws`]: the laws of these crates, and of what a file stands for.
#![tactic(auto)]

#[cfg(test)]
mod blocks;
#[cfg(test)]
mod faulty_properties;
#[cfg(test)]
mod filter_parts;
#[cfg(test)]
mod footers;
#[cfg(test)]
mod forms;
#[cfg(test)]
mod index;
#[cfg(test)]
mod index_walks;
#[cfg(test)]
mod laws;
#[cfg(test)]
mod lengths;
#[cfg(test)]
mod loaded_files;
#[cfg(test)]
mod loading;
#[cfg(test)]
mod properties;
#[cfg(test)]
mod seeking;
