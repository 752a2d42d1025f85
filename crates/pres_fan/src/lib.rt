//! Which sessions listen to which places, and whom a write touches.
#![tactic(auto)]

mod fault;
mod index;
pub mod laws;
mod level;
mod listeners;
mod paths;
mod sessions;

pub use fault::FanFault;
pub use listeners::{Listener, Listeners, MOST_PATHS, Touched};
