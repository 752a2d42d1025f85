//! The client's side of a connection over WebSocket, over any stream: what its lines say, and what it
//! prints.
#![tactic(auto)]

mod drive;

pub use drive::drive_client;
pub use pres_script::Line;
