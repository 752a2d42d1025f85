//! The value under a hub's lock, and the hub: many callers of one server.
#![tactic(auto)]

mod center;
mod gate;
mod locked;
mod queue;
mod request;

pub use center::{Core, Said};
pub use gate::{Gate, OpenGate};
pub use locked::Hub;
pub use pres_accounting::{Parting, Report, Seat};
pub use pres_dispatch::{Bell, Keeper, MemKeeper, Moment, NoBell, Outbox, SessionId, Up, Why};
pub use pres_faults::HubFault;
pub use queue::MOST_AT_ONCE;
pub use request::{Answer, Outcome, Request};
