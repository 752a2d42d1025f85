//! A WebSocket (RFC 6455) over any stream, of a server or of a client: the handshake, one message after
//! the other, the close, and why a connection ended.
#![tactic(auto)]

mod fault;
mod meter;
mod nonblocking;
mod socket;

pub use fault::SockFault;
pub use meter::{MAX_IDLE_READS, MAX_READS, Metered};
pub use nonblocking::Nonblocking;
pub use socket::{Received, Socket, accept, close, connect, flush, read, read_ahead, write};
