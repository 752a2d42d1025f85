//! Saved rows in SQLite: batches, as moments and texts in the order of their numbers, and the checkpoint
//! that they follow.
#![tactic(auto)]

mod base;
mod checkpoint;
mod format;
mod insert;
mod last;
mod make;
mod migrate;
mod row;
mod table;
mod take;

pub use base::SavedCheckpoint;
pub use pres_faults::SavedFault;
pub use row::SavedRow;
pub use table::BatchTable;
pub use take::Take;
