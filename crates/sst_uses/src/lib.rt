//! The library called, as a program outside of it would: a table is written into memory, opened, asked and walked.
//!
//! Each use is a function whose contract says what comes out of it, in the words of lists and files alone. Whoever wants to
//! call the library begins here.
//!
//! ```text
//!           write_table                 MemFolder::put_file               all_entries
//! entries ---------------> bytes ----------------------------> file ---------------------> the same entries
//!                                                                    look_up
//!                                                                  ---------> the newest entry of a key at a snapshot
//!                                                                    ends
//!                                                                  ---------> the first entry and the last
//! ```
//!
//! # Example
//!
//! The list of the one entry with user key `a`, sequence number 1 and value `x` is written as 402 bytes. A look-up of `a` at
//! the snapshot 1 answers the entry, and one at the snapshot 0 answers none.
//!
//! # Promises
//!
//! - [`write_table`] answers the bytes that are written for the list, and that stand for it; or the first reason to refuse an
//!   entry of it; or that memory ran out.
//! - [`look_up`], [`all_entries`] and [`ends`] answer, on a file that stands for a list, what the list answers. Such a file is
//!   never called damaged.
//!
//! # Several cursors
//!
//! [`ends`] (src/cursors.rt) shows how two cursors go over one reader. `open` is told how many seats there are; each cursor takes
//! one, and gives it back when it is closed. `At` says where each stands on the file's list: a call on one gives it for that one
//! at its new place, and for every other at the place that it had. Each cursor is closed and the reader shut on every path, or the
//! program doesn't compile.
#![tactic(auto)]

mod cursors;
mod reading;
#[cfg(test)]
mod use_tests;
mod writing;

pub use cursors::ends;
pub use reading::{all_entries, look_up};
pub use writing::write_table;
