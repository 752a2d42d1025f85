//! The connections of the machine: TCP streams whose waiting reads a bell ends, a thread for each
//! connection of a hub, and one that looks each second which sessions are to end and whether a
//! checkpoint is due, until the end is requested or the hub can't go on. It re-exports the names of a hub
//! that its users need.
#![tactic(auto)]

mod alarm;
mod buffer;
mod door;
mod end_request;
mod ending;
mod frames;
mod health;
mod meter;
mod notices;
mod rest;
mod rise;
mod serve;
mod stop;
mod stream_count;
mod wakeable;

pub use alarm::StreamBell;
pub use end_request::{EndRequest, InputEnd, NoRequest};
pub use health::{Halt, Health};
pub use meter::Meter;
pub use pres_faults::HubFault;
pub use pres_hub::{Core, Hub, Keeper, Moment, OpenGate};
pub use pres_sock::Clock;
pub use serve::{WallClock, serve_connections};
pub use stream_count::StreamCount;
pub use wakeable::{Waits, Wakeable};
