//! Logs of what was written.
#![tactic(auto)]

mod above;
mod entry;
mod fault;
pub mod laws;
mod log;
mod plain;

pub use above::LogAbove;
pub use entry::{Batch, Entry};
pub use fault::Fault;
pub use log::Log;
pub use plain::Plain;
