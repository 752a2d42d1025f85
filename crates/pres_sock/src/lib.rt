//! Connections over WebSocket (RFC 6455), over any stream: the server's side, which serves a hub.
#![tactic(auto)]

mod joined_session;
mod serve;
mod together;

pub use serve::{Clock, serve_stream};
