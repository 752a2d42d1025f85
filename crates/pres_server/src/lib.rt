//! A server of one thread: one input is one turn, which is refused, or quiet, or makes one batch
//! of entries. The batch is committed by the caller before the turn is done and anything answered.
#![tactic(auto)]

mod ahead;
mod base;
mod client_sessions;
mod follow;
mod group;
mod grow;
mod index;
mod input;
pub mod laws;
mod push;
mod reopen;
mod replay;
mod resume;
mod server;
mod turn;

pub use group::{Group, MOST_IN_GROUP};
pub use input::Input;
pub use pres_base::{Base, BaseParts, ClientPart, SessionPart};
pub use pres_log::{Batch, Entry, Fault, Log, LogAbove};
pub use pres_plan::{Action, Plan, PlanRow};
pub use pres_retry::{Answers, Row};
pub use pres_tree::{Path, Tree};
pub use pres_wire::{
    ClientId, Code, Count, Down, Limit, Number, PathValue, SessionId, Stamp, Up, Values, Why,
};
pub use pres_write::{Basic, Items, Kept, Moment, Op, Outcome, Placement, Puts, Unconditional};
pub use reopen::Reopen;
pub use replay::{Replay, ReplayFault};
pub use server::{Busy, Server, Turn};
