//! An engine with the lines of its sessions: what a turn answers is put on the rings of the sessions
//! that it is for, and a session that doesn't take its messages in time is ended.
#![tactic(auto)]

mod bells;
mod dispatcher;
pub mod laws;

pub use bells::{Bell, NoBell};
pub use dispatcher::{Dispatcher, Turned};
pub use pres_faults::EngineFault;
pub use pres_keeper::{Input, Keeper, MemKeeper};
pub use pres_ring::Outbox;
pub use pres_server::{Count, Fault, Items, Moment, Server, SessionId, Up, Why};
