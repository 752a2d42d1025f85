//! Notices of a client to its caller.

ghost use Rattle.std.specs.Prelude.{◌≡◌, ◌∷◌, [], IfOk};

use pres_tree::{Path, Tree};
use pres_wire::{Code, Limit, Number};
use std::alloc::{AllocError, Global};

/// A notice of a client to its caller. Requests are named by the number that their call returned.
#[derive(Drop)]
pub enum Notice {
    /// The write is done, at the server's number.
    Done {
        request: u64,
        number: Number,
    },
    /// The transaction asks what to put in place of the value: see `Client::answer`. Attempts count
    /// from 1.
    Ask {
        request: u64,
        attempt: u64,
        value: Tree,
    },
    /// The transaction was overtaken 25 times, and is given up.
    TooManyTries {
        request: u64,
    },
    /// The transaction's caller gave it up.
    Aborted {
        request: u64,
    },
    /// The action for the end of the session, or the cancel, is registered.
    Armed {
        request: u64,
    },
    /// The session was over before its answer came: whether the action is registered isn't known.
    ActionLost {
        request: u64,
    },
    /// The value is at the path at the server's number; null is the empty tree.
    Value {
        path: Path,
        number: Number,
        value: Tree,
    },
    /// Whether a session is open.
    Connected(bool),
    /// The request met the limit, and did nothing.
    Denied {
        request: u64,
        why: Limit,
    },
    /// The server refused a message, or an answer fitted nothing: then the code is `Bad`.
    Faulted(Code),
}

/// The list of this notice alone.
pub fn alone(alloc: Global, notice: Notice) -> Result<Vec<Notice>, AllocError>
    ensures { IfOk result (λ v. v.items ≡ notice ∷ []) }
{
    let mut notices = Vec::new(alloc);
    notices.push(notice)?;
    Ok(notices)
}
