//! What a server is asked for.

use pres_wire::{ClientId, SessionId, Up};

/// What a server is asked for.
#[derive(Drop)]
pub enum Input {
    /// A message of a client.
    Up(Up),
    /// The connection of the session was lost.
    Lost(SessionId),
    /// The session didn't take its messages in time.
    Slow(SessionId),
    /// The server was started again: the client's open session is to end.
    Restart(ClientId),
    /// Time went by: the first client in byte order that was silent for longer than its lease, 60
    /// seconds, loses its session. One call ends at most one session.
    Tick,
}
