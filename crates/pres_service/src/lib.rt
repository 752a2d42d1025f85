//! What `presence serve` and `presence client` do: a server over TCP that is kept in a file, and
//! the calls of a client over TCP.
#![tactic(auto)]

mod client;
mod counted;
mod fault;
mod serve;

pub use client::{ClientOptions, client_run};
pub use fault::ServiceFault;
pub use pres_tcp::{EndRequest, InputEnd, NoRequest};
pub use serve::{ServeOptions, serve_run};
