//! What came to a connection, and the messages that came together.

ghost use Rattle.std.specs.Prelude.{◌≡◌, ◌≤◌, ℕ, List, [], ◌∷◌, true, false, max, Some, Ok, Err, IfOk, IfErr, IfSome};
ghost use Rattle.std.specs.VecDeque.{deque_len};
ghost use Rattle.pres_wire.specs.UpForms.{decoded};
ghost use Rattle.pres_wire.specs.declared.down.Down.TheVariants.{Fault};
ghost use Rattle.pres_wire.specs.declared.fault.WireFault.{WireFault};
ghost use Rattle.pres_websocket.specs.ConnectionFaults.{is_handshake};
ghost use Rattle.pres_websocket.specs.declared.socket.Received.TheVariants.{Binary, Text};
ghost use Rattle.pres_sock.specs.Refusals.{bad};
ghost use Rattle.pres_sock.specs.Asks.{IsAskedBy, IsAnsweredBad, IsNextAfter};
ghost use Rattle.pres_sock.specs.declared.together.Asked.TheVariants.{Answer};

use crate::joined_session::JoinedSession;
use pres_hub::Up;
use pres_websocket::{Nonblocking, Received, SockFault, Socket, read_ahead};
use pres_wire::{Code, Down, WireFault};
use std::alloc::{AllocError, Global};
use std::collections::VecDeque;
use std::io::{Read, Write};
use std::sync::ledger::Ledger;
use tungstenite::NoMask;

/// The most messages that are taken to the hub together. Each has at most two answers, so these leave
/// room in a ring.
pub(crate) const MOST_TOGETHER: usize = 64;

/// What a connection is asked.
#[derive(Drop)]
pub(crate) enum Asked {
    /// A message for the hub, and those that came together with it.
    Messages(VecDeque<Up>),
    /// Something else, which has this answer, if any.
    Answer(Option<Down>),
    /// The peer closes.
    Close,
}

/// What is asked by what a read brought.
pub(crate) fn asked_by<L: Ledger>(
    alloc: Global,
    place: &JoinedSession<L>,
    came: Received,
) -> Result<Asked, SockFault>
    ensures binary { came ≡ Binary → IfSome place.now.seat
        (λ seat. IfOk result (λ asked. asked ≡ Answer (bad seat.session))) }
    ensures bad { (words : List ℕ) (e : WireFault) → came ≡ Text words → decoded words ≡ Err e
        → IfSome place.now.seat (λ seat. IfOk result (IsAnsweredBad seat.session)) }
    ensures text { (words : List ℕ) → came ≡ Text words → IfOk result (IsAskedBy words) }
    ensures err { IfErr result (λ e. is_handshake e ≡ false) }
{
    match came {
        Received::Text(text) => match Up::decode(alloc, text.as_str()) {
            Ok(up) => match listed(alloc, up) {
                Ok(messages) => Ok(Asked::Messages(messages)),
                Err(_refused) => refusal(alloc, place, Code::Busy),
            },
            Err(WireFault::Memory) => refusal(alloc, place, Code::Busy),
            Err(_) => refusal(alloc, place, Code::Bad),
        },
        Received::Binary => refusal(alloc, place, Code::Bad),
        Received::Nothing => Ok(Asked::Answer(None)),
        Received::Close => Ok(Asked::Close),
    }
}

// A list with this message.
fn listed(alloc: Global, up: Up) -> Result<VecDeque<Up>, AllocError>
    ensures { IfOk result (λ messages. messages.items ≡ up ∷ []) }
{
    let mut messages = VecDeque::new(alloc);
    messages.reserve(1)?;
    messages.push_back_reserved(up);
    Ok(messages)
}

// The answer that refuses what came.
fn refusal<L: Ledger>(
    alloc: Global,
    place: &JoinedSession<L>,
    code: Code,
) -> Result<Asked, SockFault>
    ensures answer { IfOk result (λ asked. IfSome place.now.seat
        (λ seat. asked ≡ Answer (Some (Fault (Some seat.session) code)))) }
    ensures err { IfErr result (λ e. is_handshake e ≡ false) }
{
    let fault = place.fault(alloc, code)?;
    Ok(Asked::Answer(Some(fault)))
}

/// Adds the messages that came together with these: those that the stream has read already, where each
/// is its session's next one. So those that the hub takes come before those that it refuses. Returns
/// what was read after them.
pub(crate) fn read_together<S: Read + Write + Nonblocking + Drop>(
    alloc: Global,
    socket: &mut Socket<S, NoMask>,
    messages: &mut VecDeque<Up>,
) -> Result<Received, SockFault>
    ensures few { deque_len messages.new ≤ max 64 (deque_len messages.old) }
    ensures err { IfErr result (λ e. is_handshake e ≡ false) }
{
    'messages: while messages.len() < MOST_TOGETHER {
        let Ok(()) = messages.reserve(1) else {
            break;
        };
        let text = match read_ahead(socket)? {
            Received::Text(text) => text,
            other => return Ok(other),
        };
        let next = match messages.back() {
            Some(last) => next_in(alloc, last, text.as_str()),
            None => None,
        };
        match next {
            Some(up) => messages.push_back_reserved(up),
            None => return Ok(Received::Text(text)),
        }
    }
    Ok(Received::Nothing)
}

// The message of the text, where it is the one after the last.
fn next_in(alloc: Global, last: &Up, text: &str) -> Option<Up>
    ensures read { IfSome result (λ up. decoded text.now ≡ Ok up) }
    ensures next { IfSome result (IsNextAfter last.now) }
{
    let Ok(up) = Up::decode(alloc, text) else {
        return None;
    };
    if is_next(last, &up) { Some(up) } else { None }
}

// Whether the message is its session's next one after the last.
fn is_next(last: &Up, up: &Up) -> bool
    ensures { (result ≡ true) → IsNextAfter last.now up.now }
{
    let Some(before) = last.q() else {
        return false;
    };
    let (Some(next), Some(q)) = (before.next(), up.q()) else {
        return false;
    };
    next == q && last.session() == up.session()
}
