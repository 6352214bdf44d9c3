//! What a command prints.
pub mod answers;
pub mod damage;
pub mod entry_text;
pub mod listing;
pub mod printing;
