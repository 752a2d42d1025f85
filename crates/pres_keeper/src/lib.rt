//! What keeps the history of a server, a base and the batches after it; a turn that is kept before it is
//! done; and an engine, which is a server with its keeper.
#![tactic(auto)]

mod engine;
mod keeper;
mod memory;
mod settlement;
mod supposed;

pub use engine::{Engine, TurnResult};
pub use keeper::{Keeper, bad_batch};
pub use memory::MemKeeper;
pub use pres_faults::{EngineFault, SavedFault};
pub use pres_server::{Fault, Input};
pub use settlement::{Unsettled, settle, settle_all};
pub use supposed::{Premise, Supposed};
