//! The log of a server as a whole: its sessions, streams and turns, computed from its entries, and
//! which logs are legal. A server holds the sum of its log in place of the log. For a legal log its
//! sum says what the log says, and decides as the log does what comes next.
#![tactic(auto)]

pub mod laws;
