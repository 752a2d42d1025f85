//! Why a keeper, an engine and a hub refuse.
#![tactic(auto)]

mod engine_fault;
mod hub_fault;
mod saved_fault;

pub use engine_fault::EngineFault;
pub use hub_fault::HubFault;
pub use saved_fault::SavedFault;
