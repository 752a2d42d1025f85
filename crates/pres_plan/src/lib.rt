//! What a session leaves for its disconnection: puts and updates, and cancels that take them back.
#![tactic(auto)]

mod fault;
pub mod laws;
mod numbered;
mod places;
mod plan;
mod row;
mod rows;
mod standing;

pub use fault::PlanFault;
pub use plan::{MOST_ROWS, Plan};
pub use row::{Action, DueRow, PlanRow};
pub use rows::PlanRows;
