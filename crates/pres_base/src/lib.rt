//! A base: what a server is, as data that can be kept and that a server can begin from.
#![tactic(auto)]

mod base;
mod check;
mod copies;
pub mod laws;
mod parts;
mod plans;

pub use base::Base;
pub use check::{MOST_NUMBERS, MOST_SESSIONS};
pub use parts::{BaseParts, ClientPart, SessionPart};
pub use plans::plan_of_rows;
