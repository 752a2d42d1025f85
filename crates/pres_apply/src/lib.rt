//! Operations without a server: lines of operations in, lines of replies and the tree out.
#![tactic(auto)]

mod applier;
mod apply;
mod faults;
mod feeder;
mod pending;

pub use apply::apply_run;
pub use faults::{LineFault, RunFault};
