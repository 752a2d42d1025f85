//! The text in which the entries of a batch are saved.
#![tactic(auto)]

mod body;
mod entry;
mod field;
mod list;
mod part;
mod read;
mod set;

pub use body::{print_entries, read_entries};
