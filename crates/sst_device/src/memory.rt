//! Folders and streams in memory, for tests: they tell what they hold, and fail where they are told to.
mod files;
mod folder;
mod plan;
mod planned;
mod streams;

pub use folder::MemFolder;
pub use planned::Planned;
pub use streams::{MemIntake, MemSink};
