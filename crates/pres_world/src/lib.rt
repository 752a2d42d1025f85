//! A world: a server, its clients and the packets between them. A packet may come any number of
//! times, in any order, or never.
#![tactic(auto)]

mod event;
mod fault;
mod ids;
pub mod laws;
mod member;
mod members;
mod room;
mod server_side;
mod world;

pub use event::{Ending, Event};
pub use fault::WorldFault;
pub use ids::distinct;
pub use world::World;
