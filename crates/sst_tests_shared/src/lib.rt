//! What the worked runs of the whole program share: runs over objects in memory, and files to answer from.
//!
//! The tests stand in `sst_tests_write`, `sst_tests_calls` and `sst_tests_damage`, so that three processes can
//! prove them. A run hands words to `sst_cli::run` over a folder, an input and an output in memory, and keeps what
//! it left.
//!
//! ```text
//! words    folder in memory ──┐
//!   │      input in memory  ──┼── sst_cli::run ── status, what was printed, the files
//!   └────  output in memory ──┘
//! ```
//!
//! - [`worked_run`]: a run, with no call outside that fails or with some, and what it left.
//! - [`asserting`]: what a run has to come to.
//! - [`small_file`]: the file of one entry without properties, and its parts.
//! - [`named_file`]: files of that entry with chosen properties, or with chosen names in the metaindex, and files of any
//!   blocks with chosen properties.
//!
//! No function here has a clause: their callers are tests, which compare what comes of them.
#![tactic(auto)]

pub mod asserting;
pub mod named_file;
pub mod small_file;
pub mod worked_run;
