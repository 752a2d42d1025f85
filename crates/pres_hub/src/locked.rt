//! A hub.

ghost use Rattle.std.specs.Prelude.{◌≡◌, ◌≤◌, ◌+◌, IfErr, IfSome, vec_len, vec_capacity};
ghost use Rattle.std.specs.Sync.Mutex.{mutex_guard_value};
ghost use Rattle.std.specs.VecDeque.{deque_len};
ghost use Rattle.pres_hub.specs.Cores.{CoreInvariant};
ghost use Rattle.pres_hub.specs.CoreCalls.{IsCheckpointFault};

use crate::center::{Core, Said};
use crate::gate::Gate;
use crate::queue::{Group, MOST_PAUSES, Queue, Signals, take_answer};
use crate::request::{Answer, Outcome, Request};
use pres_accounting::Seat;
use pres_dispatch::{Bell, Keeper, Moment, SessionId, Up};
use pres_faults::HubFault;
use std::alloc::Global;
use std::collections::VecDeque;
use std::sync::ledger::Ledger;
use std::sync::{Mutex, MutexGuard, Wait};
use std::time::{Clock, Duration, Instant};

/// A gate and one lock around a core. It adds no event of its own. Requests wait in a queue, of
/// whose callers one leads: it waits for the callers that were there a moment ago, if a commit takes
/// long, and then says all that wait, together. Their answers wait until their callers take them.
pub struct Hub<L: Ledger, K: Keeper + Drop, B, G: Gate> {
    alloc: Global,
    core: Mutex<Core<L, K, B>>,
    queue: Mutex<Queue<L>>,
    signals: Signals,
    gate: G,
}

// Says these requests, and adds their answers, for which there is room. Their sessions' bells aren't
// due by that.
fn say_these<L: Ledger, K: Keeper + Drop, B: Bell + Clone + Drop>(
    core: &mut Core<L, K, B>,
    requests: VecDeque<Request<L>>,
    now: Moment,
    answers: &mut Vec<Answer<L>>,
)
    requires { vec_len answers.old + deque_len requests ≤ vec_capacity answers.old }
{
    let mut requests = requests;
    for request in requests.iter() {
        core.pass_over(request.seat().session());
    }
    core.say_all(&mut requests, now, answers);
    requests.destroy_empty();
}

impl<L: Ledger, K: Keeper + Drop, B: Bell + Clone + Drop, G: Gate> Hub<L, K, B, G> {
    /// A hub around the core.
    pub fn new(core: Core<L, K, B>, gate: G) -> Hub<L, K, B, G> {
        let alloc = core.alloc();
        Hub {
            alloc,
            core: Mutex::new(core),
            queue: Mutex::new(Queue::new(alloc)),
            signals: Signals::new(),
            gate,
        }
    }

    /// Passes the gate, waits for the lock, and lends the core.
    pub fn enter<R: Wait>(&self, rt: &R, caller: u64) -> MutexGuard<'_, Core<L, K, B>>
        ensures { let core = mutex_guard_value result in CoreInvariant K.works K.keeps core }
    {
        self.gate.pass(caller);
        let guard = self.core.lock(rt);
        guard.show();
        guard
    }

    /// Has the keeper keep the server's base in place of what it holds, where the number rose by at
    /// least `rise` since the last time: the number, none where it isn't due.
    pub fn checkpoint<R: Wait>(
        &self,
        rt: &R,
        caller: u64,
        rise: u64,
    ) -> Result<Option<u64>, HubFault>
        ensures { IfErr result IsCheckpointFault }
    {
        self.gate.pass(caller);
        let mut core = self.core.lock(rt);
        core.checkpoint(rise)
    }

    /// Takes the seat's message to the server, together with those of other callers that wait, and
    /// gives the seat back with what it was answered. The bells of others that are due then are added
    /// to its list: ring them once this returns.
    pub fn say<R: Wait + Clock>(
        &self,
        rt: &R,
        caller: u64,
        seat: Seat<L>,
        message: Up,
        now: Moment,
        due: &mut Vec<B>,
    ) -> (Seat<L>, Outcome)
        ensures { result.0.session ≡ seat.session }
    {
        let mut messages = VecDeque::new(self.alloc);
        if messages.push_back(message).is_err() {
            return (seat, Err(HubFault::Memory));
        }
        let (seat, mut said) = self.say_each(rt, caller, seat, messages, now, due);
        let outcome = said.pop().unwrap_or(Err(HubFault::Memory));
        (seat, outcome)
    }

    /// Takes the seat's messages to the server, together with those of other callers that wait, and
    /// gives the seat back with what each of them was answered, in their order. None is said, and the
    /// list is empty, where memory for it is refused. The bells of others that are due then are added
    /// to its list: ring them once this returns.
    pub fn say_each<R: Wait + Clock>(
        &self,
        rt: &R,
        caller: u64,
        seat: Seat<L>,
        messages: VecDeque<Up>,
        now: Moment,
        due: &mut Vec<B>,
    ) -> (Seat<L>, Vec<Outcome>)
        ensures { result.0.session ≡ seat.session }
    {
        self.gate.pass(caller);
        let request = match Request::of(self.alloc, seat, messages) {
            Ok(request) => request,
            Err((seat, messages)) => {
                drop(messages);
                return (seat, Vec::new(self.alloc));
            }
        };
        self.say_request(rt, request, now, due).into_parts()
    }

    // Says the request together with those that wait.
    fn say_request<R: Wait + Clock>(
        &self,
        rt: &R,
        request: Request<L>,
        now: Moment,
        due: &mut Vec<B>,
    ) -> Answer<L>
        ensures { result.seat.session ≡ request.seat.session }
    {
        let Ok(session) = request.seat().session().copy(self.alloc) else {
            return self.say_at_once(rt, request, now, due);
        };
        if let Err(request) = self.join(rt, request) {
            return self.say_at_once(rt, request, now, due);
        }
        for _ in rt.forever() {
            if let Some(answer) = self.answer_for(rt, &session, now, due) {
                return answer;
            }
        }
        unreachable!()
    }

    // Says the request by itself.
    fn say_at_once<R: Wait>(
        &self,
        rt: &R,
        request: Request<L>,
        now: Moment,
        due: &mut Vec<B>,
    ) -> Answer<L>
        ensures { result.seat.session ≡ request.seat.session }
    {
        let mut core = self.core.lock(rt);
        let answer = core.say_alone(request, now);
        core.take_due(Some(answer.seat().session()), due);
        answer
    }

    // Puts the request into the queue. It is handed back where memory for that is refused.
    fn join<R: Wait>(&self, rt: &R, request: Request<L>) -> Result<(), Request<L>>
        ensures { IfErr result (λ back. back ≡ request) }
    {
        let mut queue = self.queue.lock(rt);
        let is_enough = match queue.join(request) {
            Ok(is_enough) => is_enough,
            Err(request) => return Err(request),
        };
        drop(queue);
        if is_enough {
            self.signals.enough.notify_one();
        }
        Ok(())
    }

    // The session's answer: where it is there, or once the caller whose turn it is to say requests has
    // left it; or this caller says them, where none does. None where others were said instead.
    fn answer_for<R: Wait + Clock>(
        &self,
        rt: &R,
        session: &SessionId,
        now: Moment,
        due: &mut Vec<B>,
    ) -> Option<Answer<L>>
        ensures { IfSome result (λ answer. answer.seat.session ≡ session.now) }
    {
        let mut queue = self.queue.lock(rt);
        if let Some(answer) = queue.take_answer(session) {
            return Some(answer);
        }
        if queue.is_led() {
            let signal = self.signals.of(queue.group_for(session));
            let mut queue = signal.wait(rt, queue);
            return queue.take_answer(session);
        }
        let is_short = queue.lead();
        drop(queue);
        if is_short {
            self.await_callers(rt);
        }
        self.lead(rt, session, now, due)
    }

    // Waits for more callers, a while after the other, as long as some come in it.
    fn await_callers<R: Wait + Clock>(&self, rt: &R) {
        for _ in 0..MOST_PAUSES {
            let mut queue = self.queue.lock(rt);
            let Some((pause, before)) = queue.begin_pause() else {
                return;
            };
            let (mut queue, _) = self.signals.enough.wait_timeout(rt, queue, pause);
            if queue.end_pause() == before {
                return;
            }
        }
    }

    // Says the requests that wait, and leaves their answers but the session's. None where that was
    // not among them.
    fn lead<R: Wait + Clock>(
        &self,
        rt: &R,
        session: &SessionId,
        now: Moment,
        due: &mut Vec<B>,
    ) -> Option<Answer<L>>
        ensures { IfSome result (λ answer. answer.seat.session ≡ session.now) }
    {
        let mut queue = self.queue.lock(rt);
        let Some(group) = queue.take_group(self.alloc) else {
            drop(queue);
            return self.lead_alone(rt, session, now, due);
        };
        drop(queue);
        let Group {
            requests,
            mut answers,
        } = group;
        let callers = requests.len();
        let pace = self.say_group(rt, session, requests, now, &mut answers, due);
        let own = take_answer(&mut answers, session);
        self.leave(rt, answers, callers, pace);
        own
    }

    // Says the session's request by itself, since memory is refused for the answers of several.
    fn lead_alone<R: Wait>(
        &self,
        rt: &R,
        session: &SessionId,
        now: Moment,
        due: &mut Vec<B>,
    ) -> Option<Answer<L>>
        ensures { IfSome result (λ answer. answer.seat.session ≡ session.now) }
    {
        let mut queue = self.queue.lock(rt);
        let own = queue.take_request(session);
        let (group, is_more) = queue.finish(1, None);
        drop(queue);
        self.signals.wake(group, is_more);
        Some(self.say_at_once(rt, own?, now, due))
    }

    // Says these requests, and adds their answers, for which there is room: how long that took.
    fn say_group<R: Wait + Clock>(
        &self,
        rt: &R,
        session: &SessionId,
        requests: VecDeque<Request<L>>,
        now: Moment,
        answers: &mut Vec<Answer<L>>,
        due: &mut Vec<B>,
    ) -> Option<Duration>
        requires { vec_len answers.old + deque_len requests ≤ vec_capacity answers.old }
    {
        let mut core = self.core.lock(rt);
        let start = Instant::now(rt).ok();
        say_these(&mut core, requests, now, answers);
        core.take_due(Some(session), due);
        start?.elapsed(rt).ok()
    }

    // Leaves the answers where their callers find them, and wakes these, and one that leads next.
    fn leave<R: Wait>(
        &self,
        rt: &R,
        answers: Vec<Answer<L>>,
        callers: usize,
        pace: Option<Duration>,
    ) {
        let mut answers = answers;
        for _ in rt.forever() {
            let mut queue = self.queue.lock(rt);
            if queue.accept(&mut answers) {
                answers.destroy_empty();
                let (group, is_more) = queue.finish(callers, pace);
                drop(queue);
                self.signals.wake(group, is_more);
                return;
            }
        }
        unreachable!()
    }

    /// The core, after the last call.
    pub fn into_core(self) -> Core<L, K, B>
    where
        G: Drop,
        ensures { CoreInvariant K.works K.keeps result }
    {
        let Hub {
            alloc: _,
            core,
            queue,
            signals: _,
            gate: _,
        } = self;
        let mut core = core.into_inner();
        let (waiting, answered) = queue.into_inner().into_parts();
        take_back_all(&mut core, waiting, answered);
        core.show();
        core
    }
}

// Takes the seats of requests and answers that nobody waits for. There are none of these once each
// caller has returned.
fn take_back_all<L: Ledger, K: Keeper + Drop, B: Bell + Clone + Drop>(
    core: &mut Core<L, K, B>,
    waiting: VecDeque<Request<L>>,
    answered: Vec<Answer<L>>,
) {
    let mut waiting = waiting;
    'waiting: while let Some(request) = waiting.pop_front() {
        let (seat, messages) = request.into_parts();
        drop(messages);
        core.take_back(seat);
    }
    waiting.destroy_empty();
    let mut answered = answered;
    'answered: while let Some(answer) = answered.pop() {
        let (seat, said) = answer.into_parts();
        drop(said);
        core.take_back(seat);
    }
    answered.destroy_empty();
}
