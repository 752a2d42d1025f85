//! The client: what it sends until it is answered, and what it shows of the paths that it listens
//! to.
#![tactic(auto)]

mod actions;
mod call;
mod client;
mod fault;
pub mod laws;
mod link;
mod receive;
mod writes;

pub use call::{Answer, Call};
pub use client::{Client, Phase};
pub use fault::ClientFault;
pub use pres_client_state::{Ask, Notice, Queued, Shown, Watch};
pub use receive::MOST_TRIES;
