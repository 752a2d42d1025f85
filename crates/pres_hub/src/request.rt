//! Messages of seats, and what they were answered.

ghost use Rattle.std.specs.Prelude.{◌≡◌, length, IfOk, IfErr};

use crate::center::Said;
use pres_accounting::Seat;
use pres_dispatch::Up;
use pres_faults::HubFault;
use std::alloc::Global;
use std::collections::VecDeque;
use std::marker::Model;
use std::sync::ledger::Ledger;

/// What a message is answered, or why it isn't.
pub type Outcome = Result<Said, HubFault>;

/// A seat, and its messages in their order, with room for what each of them is answered. It can't be
/// dropped: `Core::say_all` takes it.
pub struct Request<L: Ledger> {
    pub(crate) seat: Seat<L>,
    pub(crate) messages: VecDeque<Up>,
    pub(crate) said: Vec<Outcome>,
}

impl<L: Ledger> Model for Request<L> {
    ghost use Rattle.std.specs.Prelude.{◌≡◌, ◌≤◌, [], vec_len, vec_capacity};
    ghost use Rattle.std.specs.VecDeque.{deque_len};
    ghost use Rattle.pres_hub.specs.CoreGroups.{RequestState};

    ghost Value = { RequestState };

    ghost view = { λ r. record { seat = r.seat; messages = r.messages.items } };

    ghost invariant = { λ r. (r.said.items ≡ []) × (vec_len r.said ≡ 0)
        × (deque_len r.messages ≤ vec_capacity r.said) };
}

impl<L: Ledger> Request<L> {
    /// The seat's messages. They are handed back where memory for their answers is refused.
    pub fn of(
        alloc: Global,
        seat: Seat<L>,
        messages: VecDeque<Up>,
    ) -> Result<Request<L>, (Seat<L>, VecDeque<Up>)>
        ensures made { IfOk result
            (λ r. r ≡ record { seat = seat; messages = messages.items }) }
        ensures back { IfErr result (λ back. back ≡ (seat, messages)) }
    {
        match Vec::with_capacity(alloc, messages.len()) {
            Ok(said) => Ok(Request {
                seat,
                messages,
                said,
            }),
            Err(_) => Err((seat, messages)),
        }
    }

    /// The seat.
    pub fn seat(&self) -> &Seat<L>
        ensures { result.now ≡ self.now.seat }
    {
        &self.seat
    }

    /// How many messages these are.
    pub fn count(&self) -> usize
        ensures { result ≡ length self.now.messages }
    {
        self.messages.len()
    }

    /// The seat and its messages.
    pub fn into_parts(self) -> (Seat<L>, VecDeque<Up>)
        ensures seat { result.0 ≡ self.seat }
        ensures messages { result.1.items ≡ self.messages }
    {
        let Request {
            seat,
            messages,
            said: _,
        } = self;
        (seat, messages)
    }
}

/// A seat after its messages, and what each of them was answered, in their order. It can't be
/// dropped: the seat is taken out.
pub struct Answer<L: Ledger> {
    pub(crate) seat: Seat<L>,
    pub(crate) said: Vec<Outcome>,
}

impl<L: Ledger> Model for Answer<L> {
    ghost use Rattle.pres_hub.specs.CoreGroups.{AnswerState};

    ghost Value = { AnswerState };

    ghost view = { λ a. record { seat = a.seat; said = a.said.items } };
}

impl<L: Ledger> Answer<L> {
    /// The seat.
    pub fn seat(&self) -> &Seat<L>
        ensures { result.now ≡ self.now.seat }
    {
        &self.seat
    }

    /// The seat and what its messages were answered.
    pub fn into_parts(self) -> (Seat<L>, Vec<Outcome>)
        ensures seat { result.0 ≡ self.seat }
        ensures said { result.1.items ≡ self.said }
    {
        let Answer { seat, said } = self;
        (seat, said)
    }
}
