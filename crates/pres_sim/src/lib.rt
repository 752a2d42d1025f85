//! What `presence sim` does: a script of a server, its clients and the packets between them.
#![tactic(auto)]

mod script;
mod sim;

pub use sim::sim_run;
