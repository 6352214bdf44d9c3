//! The real files and streams.
//!
//! These tell nothing of content: what the system's files and streams hold is outside of every proof. They are
//! proved to count each failure, and to answer no more than they were handed.
mod beside;
mod disk;
mod failure;
mod places;
mod standard;
mod written;

pub use disk::DiskFolder;
pub use failure::Failure;
pub use standard::{StdIntake, StdSink};
