//! What the file of a server holds, looked at while no server runs: its history is checked, and its
//! tree and its entries are printed. The file is read into memory, and nothing is written to it.
#![tactic(auto)]

mod check;
mod checkpoint;
mod copied;
mod fault;
mod found;
mod history;
mod tree;

pub use check::{check_copied, check_run};
pub use checkpoint::Checkpoint;
pub use copied::{Copied, copied_from, is_in_use};
pub use fault::InspectFault;
pub use found::{FoundHistory, FoundServer, found_history, found_server};
pub use history::{history_of, history_run};
pub use tree::{tree_of, tree_run};
