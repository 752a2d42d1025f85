//! The file of a server: made where there is none, and the keeper over it.
#![tactic(auto)]

mod keeper;
pub mod laws;
mod open;

pub use keeper::{OpenedFile, keeper_for, keeper_from, keeper_over};
pub use open::connect;
