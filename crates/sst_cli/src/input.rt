//! The input of a command: what its lines say, or the first line that is refused and why.
pub mod call_list;
pub mod calls;
pub mod entries;
pub mod refusal;
