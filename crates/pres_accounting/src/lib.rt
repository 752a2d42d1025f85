//! Seats: for each connection of a hub, what it sent, the greatest number it received, and how many
//! of its messages were accepted. A ledger counts the accepted messages, so that its total is the
//! sum over its seats.
#![tactic(auto)]

mod report;
mod seat;
mod tally;

pub use pres_faults::HubFault;
pub use report::Report;
pub use seat::{Parting, Seat};
pub use tally::{Counts, Tally};
