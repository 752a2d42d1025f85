//! What may happen to a world.

use pres_client::Call;
use pres_server::{ClientId, Moment};

/// How the turn of a message ends.
#[derive(Clone, Copy, Debug, PartialEq, Eq)]
pub enum Ending {
    /// It is committed, and its answers go out.
    Answered,
    /// The server stops after the commit: its answers are lost.
    Stopped,
    /// The commit is refused: the server is as before, and answers that it is busy.
    Refused,
}

/// What may happen to a world. Packets have numbers from 1 on, in the order in which they were
/// sent.
#[derive(Drop)]
pub enum Event {
    /// The client makes the call.
    Call {
        client: ClientId,
        call: Call,
    },
    /// The packet arrives at the server.
    Up {
        packet: usize,
        now: Moment,
        ending: Ending,
    },
    /// The packet arrives at the client that it is for.
    Down {
        packet: usize,
    },
    /// The server hears that the connection of the client's open session is lost.
    Loss {
        client: ClientId,
        now: Moment,
    },
    /// The server looks for a lease that ran out.
    Tick {
        now: Moment,
    },
    /// The client's program starts again: all that it hasn't saved is forgotten.
    RestartClient {
        client: ClientId,
    },
    /// The server starts again, from the base that was kept last and the batches that were committed
    /// since.
    RestartServer {
        now: Moment,
    },
    /// The base of the server is kept, where it runs. Nothing else is changed, and nobody is told.
    Checkpoint,
}
