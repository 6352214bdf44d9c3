//! The commands, a file each.
pub mod calls;
pub mod get;
pub mod produce;
pub mod scan;
pub mod write;
