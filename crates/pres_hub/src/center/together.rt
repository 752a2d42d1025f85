//! Messages of several seats, whose turns share commits.

ghost use Rattle.std.specs.Prelude.{◌≡◌, ◌≤◌, ◌<◌, ◌+◌, ◌++◌, ◌∷◌, ◌^◌, [], List, false, true, take, drop, length, map, replicate, Ok, Err, OnOk, is_ok, vec_len, vec_capacity};
ghost use Rattle.std.specs.List.{AllByRecursion, list_any};
ghost use Rattle.std.specs.VecDeque.{deque_len};
ghost use Rattle.pres_ids.specs.Ids.{same_session};
ghost use Rattle.pres_ids.specs.Numbers.{greatest_number};
ghost use Rattle.pres_server.specs.declared.input.Input.TheVariants.{Up as Heard};
ghost use Rattle.pres_hub.specs.Cores.{GoesOn};
ghost use Rattle.pres_faults.specs.declared.hub_fault.HubFault.TheVariants.{Memory};
ghost use Rattle.pres_hub.specs.CoreCalls.{IsTaken};
ghost use Rattle.pres_hub.specs.CoreGroups.{RequestState, AnswerState, AreSaid, AreSaidFirst, AreSaidAlone, outcome_of, noted, inputs_of};
ghost use Rattle.pres_hub.specs.InternalGroups.{AreFit, FitTogether, Gathers, AllFit, FitIn, answer_of, answers_of, seat_by, told_in, unheard_of, waiting_of};

use super::{Core, Said};
use crate::request::{Answer, Outcome, Request};
use pres_accounting::{Seat, Tally};
use pres_dispatch::{Bell, Count, Input, Items, Keeper, Moment, SessionId, Turned, Up};
use pres_faults::HubFault;
use std::alloc::AllocError;
use std::collections::VecDeque;
use std::marker::Model;
use std::sync::ledger::Ledger;

// A seat whose messages wait among those of others, how many these are, and room for what each of
// them is answered.
struct Waiting<L: Ledger> {
    seat: Seat<L>,
    count: usize,
    said: Vec<Outcome>,
}

impl<L: Ledger> Model for Waiting<L> {
    ghost use Rattle.std.specs.Prelude.{◌≡◌, ◌≤◌, [], vec_len, vec_capacity};
    ghost use Rattle.pres_hub.specs.InternalGroups.{WaitingState};

    ghost Value = { WaitingState };

    ghost view = { λ w. record { seat = w.seat; count = w.count } };

    ghost invariant = { λ w. (w.said.items ≡ []) × (vec_len w.said ≡ 0)
        × (w.count ≤ vec_capacity w.said) };
}

// Whether one of these seats is the session's.
fn is_seated<L: Ledger>(waiting: &[Waiting<L>], session: &SessionId) -> bool
    ensures { result ≡ list_any (λ w. same_session session.now w.seat.session) waiting.now }
{
    waiting
        .iter()
        .any(|waiting| session == waiting.seat.session())
}

// Makes room for one seat more, and for this many inputs.
fn make_room<L: Ledger>(
    waiting: &mut Vec<Waiting<L>>,
    inputs: &mut Vec<Input>,
    count: usize,
) -> Result<(), AllocError>
    ensures waiting { (waiting.new.items ≡ waiting.old.items)
        × (vec_len waiting.new ≡ vec_len waiting.old) }
    ensures inputs { (inputs.new.items ≡ inputs.old.items)
        × (vec_len inputs.new ≡ vec_len inputs.old) }
    ensures seat_room { OnOk result (vec_len waiting.new < vec_capacity waiting.new) }
    ensures input_room { OnOk result (vec_len inputs.new + count ≤ vec_capacity inputs.new) }
{
    waiting.reserve(1)?;
    inputs.reserve(count)?;
    Ok(())
}

// Adds the messages as inputs, for which there is room.
fn add_all(mut messages: VecDeque<Up>, inputs: &mut Vec<Input>)
    requires room { vec_len inputs.old + deque_len messages ≤ vec_capacity inputs.old }
    ensures { inputs.new.items ≡ inputs.old.items ++ map Heard messages.items }
{
    'messages: while let Some(message) = messages.pop_front() {
        inputs.push_reserved(Input::Up(message));
    }
}

// What a message of the seat is answered, by the outcome of its turn. It is counted where it was
// accepted.
fn book_one<L: Ledger>(
    tally: &mut Tally<L>,
    seat: &mut Seat<L>,
    turned: Turned,
    number: u64,
) -> Outcome
    requires few { tally.old.accepted < 2 ^ 53 }
    requires fits { turned ≡ Ok true → seat.old.q < greatest_number }
    ensures outcome { result ≡ outcome_of number turned }
    ensures seat { seat.new ≡ seat_by seat.old turned }
    ensures tally { tally.new ≡ record tally.old {
      accepted = tally.old.accepted + told_in (turned ∷ []);
    } }
{
    match turned {
        Ok(is_told) => {
            if is_told {
                let Some(q) = seat.q().next() else {
                    unreachable!()
                };
                tally.add(seat, Count::up_to(q));
            }
            Ok(Said { number })
        }
        Err(fault) => Err(HubFault::from(fault)),
    }
}

// Whether any of these messages is answered.
fn is_any_answered(said: &[Outcome]) -> bool
    ensures { result ≡ list_any is_ok said.now }
{
    said.iter().any(|outcome| outcome.is_ok())
}

// The seat notes the number, where any of these messages is answered.
fn note<L: Ledger>(seat: &mut Seat<L>, said: &[Outcome], number: u64)
    requires fresh { seat.old.seen ≤ number }
    ensures { seat.new ≡ noted number said.now seat.old }
{
    if is_any_answered(said) {
        seat.see(number);
    }
}

// What the seat's messages are answered, by the outcomes of their turns, which are the first of
// these.
fn book<L: Ledger>(
    tally: &mut Tally<L>,
    waiting: Waiting<L>,
    turned: &mut VecDeque<Turned>,
    number: u64,
) -> Answer<L>
    requires few { tally.old.accepted + told_in (take waiting.count turned.old.items) < 2 ^ 53 }
    requires count { waiting.count ≤ length turned.old.items }
    requires fits { FitIn waiting.seat.q (take waiting.count turned.old.items) }
    requires fresh { waiting.seat.seen ≤ number }
    ensures answer { result ≡ answer_of number waiting.seat (take waiting.count turned.old.items) }
    ensures turned { turned.new.items ≡ drop waiting.count turned.old.items }
    ensures tally { tally.new ≡ record tally.old {
      accepted = tally.old.accepted + told_in (take waiting.count turned.old.items);
    } }
{
    let Waiting {
        mut seat,
        count,
        mut said,
    } = waiting;
    let mut left = count;
    'messages: while left > 0 {
        let Some(turn) = turned.pop_front() else {
            unreachable!()
        };
        said.push_reserved(book_one(tally, &mut seat, turn, number));
        left -= 1;
    }
    note(&mut seat, &said, number);
    Answer { seat, said }
}

// Adds what the messages of each seat are answered. There is room for the answers.
fn book_all<L: Ledger>(
    tally: &mut Tally<L>,
    waiting: Vec<Waiting<L>>,
    turned: Items<Turned>,
    number: u64,
    answers: &mut Vec<Answer<L>>,
)
    requires few { tally.old.accepted + told_in turned < 2 ^ 53 }
    requires fits { AllFit waiting.items turned }
    requires fresh { AllByRecursion (λ w. w.seat.seen ≤ number) waiting.items }
    requires room { vec_len answers.old + vec_len waiting ≤ vec_capacity answers.old }
    ensures answers { answers.new.items
        ≡ answers.old.items ++ answers_of number waiting.items turned }
    ensures tally { tally.new ≡ record tally.old {
      accepted = tally.old.accepted + told_in turned;
    } }
    ensures told { vec_len answers.new ≡ vec_len answers.old + vec_len waiting }
    ensures room { vec_capacity answers.new ≡ vec_capacity answers.old }
{
    let mut turned = VecDeque::from_vec(turned.into_vec());
    let mut rest = waiting.into_iter();
    'seats: while let Some(waiting) = rest.next() {
        answers.push_reserved(book(tally, waiting, &mut turned, number));
    }
    rest.destroy_empty();
}

// Refuses the seat's messages, since memory is refused.
fn refuse<L: Ledger>(waiting: Waiting<L>) -> Answer<L>
    ensures { result ≡ unheard_of waiting }
{
    let Waiting {
        seat,
        count,
        mut said,
    } = waiting;
    for i in 0..count {
        // nothing of it is read
        let _ = i;
        said.push_reserved(Err(HubFault::Memory));
    }
    Answer { seat, said }
}

// Refuses the messages of each seat, since memory is refused. There is room for the answers.
fn refuse_all<L: Ledger>(waiting: Vec<Waiting<L>>, answers: &mut Vec<Answer<L>>)
    requires room { vec_len answers.old + vec_len waiting ≤ vec_capacity answers.old }
    ensures answers { answers.new.items ≡ answers.old.items ++ map unheard_of waiting.items }
    ensures told { vec_len answers.new ≡ vec_len answers.old + vec_len waiting }
    ensures room { vec_capacity answers.new ≡ vec_capacity answers.old }
{
    let mut rest = waiting.into_iter();
    'seats: while let Some(waiting) = rest.next() {
        answers.push_reserved(refuse(waiting));
    }
    rest.destroy_empty();
}

impl<L: Ledger, K: Keeper + Drop, B: Bell + Clone + Drop> Core<L, K, B> {
    // Takes the first requests from the queue, as long as the server takes each of their messages, and
    // none is of the session of one before it.
    fn gather(
        &self,
        requests: &mut VecDeque<Request<L>>,
        waiting: &mut Vec<Waiting<L>>,
        inputs: &mut Vec<Input>,
    )
        requires waiting { waiting.old.items ≡ [] }
        requires inputs { inputs.old.items ≡ [] }
        ensures gathers { Gathers self.now.run requests.old.items requests.new.items
            waiting.new.items inputs.new.items }
        ensures counted { deque_len requests.new + vec_len waiting.new ≡ deque_len requests.old }
    {
        'requests: while let Some(request) = requests.pop_front() {
            if !self.fits(&request, waiting) {
                requests.push_front_reserved(request);
                return;
            }
            let Ok(()) = make_room(waiting, inputs, request.count()) else {
                requests.push_front_reserved(request);
                return;
            };
            let Request {
                seat,
                messages,
                said,
            } = request;
            let count = messages.len();
            add_all(messages, inputs);
            waiting.push_reserved(Waiting { seat, count, said });
        }
    }

    // Whether there are messages, the server takes each of them, and their session is none of these
    // seats'.
    fn fits(&self, request: &Request<L>, waiting: &[Waiting<L>]) -> bool
        ensures taken { (result ≡ true) → AllByRecursion
            (λ m. IsTaken request.now.seat m self.now.run.server self.now.run.number)
            request.now.messages }
        ensures some { (result ≡ true) → 0 < length request.now.messages }
        ensures apart { (result ≡ true) → AllByRecursion
            (λ w. same_session request.now.seat.session w.seat.session ≡ false) waiting.now }
    {
        if request.messages.is_empty() {
            return false;
        }
        if !self.takes(&request.seat, &request.messages) {
            return false;
        }
        !is_seated(waiting, request.seat.session())
    }

    // Whether the server takes each of these messages of the seat.
    fn takes(&self, seat: &Seat<L>, messages: &VecDeque<Up>) -> bool
        ensures { (result ≡ true) → AllByRecursion
            (λ m. IsTaken seat.now m self.now.run.server self.now.run.number) messages.now.items }
    {
        for i in 0..messages.len() {
            let Some(message) = messages.get(i) else {
                unreachable!()
            };
            if let Some(fault) = self.refusal(seat, message) {
                drop(fault);
                return false;
            }
        }
        true
    }

    // The seat's messages one after another, each by itself.
    pub(crate) fn say_alone(&mut self, request: Request<L>, now: Moment) -> Answer<L>
        ensures said { AreSaidAlone K.works K.keeps request.seat request.messages result.said
            result.seat now self.old self.new }
        ensures session { result.seat.session ≡ request.seat.session }
        ensures rises { self.old.run.number ≤ self.new.run.number }
        ensures base { self.new.run.base_number ≡ self.old.run.base_number }
        ensures start { self.new.start ≡ self.old.start }
        ensures goes_on { GoesOn K.works K.keeps self.old self.new }
    {
        let Request {
            mut seat,
            mut messages,
            mut said,
        } = request;
        'messages: while let Some(message) = messages.pop_front() {
            said.push_reserved(self.say(&mut seat, message, now));
        }
        Answer { seat, said }
    }

    // The first request of the queue, and those after it whose turns share its commits. There is room
    // for the answers.
    fn say_some(
        &mut self,
        requests: &mut VecDeque<Request<L>>,
        now: Moment,
        answers: &mut Vec<Answer<L>>,
    )
        requires some { 0 < deque_len requests.old }
        requires room { vec_len answers.old + deque_len requests.old ≤ vec_capacity answers.old }
        ensures said { AreSaidFirst K.works K.keeps requests.old.items answers.old.items now
            self.old self.new requests.new.items answers.new.items }
        ensures fewer { deque_len requests.new < deque_len requests.old }
        ensures room { vec_len answers.new + deque_len requests.new ≤ vec_capacity answers.new }
        ensures counted { vec_len answers.new + deque_len requests.new
            ≡ vec_len answers.old + deque_len requests.old }
        ensures rises { self.old.run.number ≤ self.new.run.number }
        ensures base { self.new.run.base_number ≡ self.old.run.base_number }
        ensures start { self.new.start ≡ self.old.start }
        ensures goes_on { GoesOn K.works K.keeps self.old self.new }
    {
        let mut waiting = Vec::new(self.alloc);
        let mut inputs = Vec::new(self.alloc);
        self.gather(requests, &mut waiting, &mut inputs);
        if waiting.is_empty() {
            waiting.destroy_empty();
            let Some(request) = requests.pop_front() else {
                unreachable!()
            };
            answers.push_reserved(self.say_alone(request, now));
            return;
        }
        self.say_together(waiting, inputs, now, answers);
    }

    // The messages of these seats, which are the inputs. There is room for the answers.
    fn say_together(
        &mut self,
        waiting: Vec<Waiting<L>>,
        inputs: Vec<Input>,
        now: Moment,
        answers: &mut Vec<Answer<L>>,
    )
        requires fits { AreFit self.old.run waiting.items inputs.items }
        requires some { 0 < vec_len waiting }
        requires room { vec_len answers.old + vec_len waiting ≤ vec_capacity answers.old }
        ensures said { (taken : List RequestState) → waiting.items ≡ waiting_of taken
            → inputs.items ≡ inputs_of taken → FitTogether self.old.run taken
            → (given : List AnswerState) × (answers.new.items ≡ answers.old.items ++ given)
            × AreSaid K.works K.keeps taken given now self.old self.new }
        ensures told { vec_len answers.new ≡ vec_len answers.old + vec_len waiting }
        ensures room { vec_capacity answers.new ≡ vec_capacity answers.old }
        ensures rises { self.old.run.number ≤ self.new.run.number }
        ensures base { self.new.run.base_number ≡ self.old.run.base_number }
        ensures start { self.new.start ≡ self.old.start }
        ensures goes_on { GoesOn K.works K.keeps self.old self.new }
    {
        // it ensures what the number counts
        let _ = self.dispatcher.number();
        match self.dispatcher.turn_all(self.alloc, inputs, now) {
            Ok(turned) => {
                self.dispatcher.end_slow(self.alloc, now);
                let number = self.dispatcher.number();
                book_all(&mut self.tally, waiting, turned, number, answers);
            }
            Err(inputs) => {
                drop(inputs);
                refuse_all(waiting, answers);
            }
        }
    }

    /// Takes the seats' messages to the server, one request after another: each message is judged as
    /// `say` judges it, by the state after those before it, of its seat as they left it. Messages of
    /// requests of different seats that follow one another share commits, and none of them is answered
    /// before its commit; sessions that are slow are ended once after each such run of requests, and
    /// its seats note the number after that. The answers are added in order, for which there is room.
    /// Where memory for a run is refused, its messages are refused with `Memory`, and seats and server
    /// stay as they are.
    pub fn say_all(
        &mut self,
        requests: &mut VecDeque<Request<L>>,
        now: Moment,
        answers: &mut Vec<Answer<L>>,
    )
        requires room { vec_len answers.old + deque_len requests.old ≤ vec_capacity answers.old }
        ensures said { (given : List AnswerState)
            × (answers.new.items ≡ answers.old.items ++ given)
            × AreSaid K.works K.keeps requests.old.items given now self.old self.new }
        ensures none { deque_len requests.new ≡ 0 }
        ensures rises { self.old.run.number ≤ self.new.run.number }
        ensures base { self.new.run.base_number ≡ self.old.run.base_number }
        ensures start { self.new.start ≡ self.old.start }
        ensures goes_on { GoesOn K.works K.keeps self.old self.new }
    {
        'requests: while !requests.is_empty() {
            self.say_some(requests, now, answers);
        }
    }
}
