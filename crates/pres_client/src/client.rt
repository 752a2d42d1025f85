//! The client: its calls.

ghost use Rattle.std.specs.Prelude.{◌≡◌, ◌+◌, ◌||◌, [], length, true, false, IfOk, OnOk, OnErr, MatchOption, Some, None, if◌then◌else◌, option_copied};
ghost use Rattle.pres_client_state.specs.Queues.{is_write};
ghost use Rattle.pres_client.specs.Clients.{is_online, is_opening, start, session_of, base_of, no_request, no_write, no_message, view, most_sends, unanswered};
ghost use Rattle.pres_client.specs.Calls.{enqueue, make_write, sent_now};

use pres_client_state::{Asks, ClientQueues, Notice, Queued, Watches, number};
use pres_limits::MAX_SAFE_INTEGER;
use pres_tree::{Path, Tree};
use pres_wire::{ClientId, Count, Number, SessionId, Up};
use std::alloc::{AllocError, Global};
use std::marker::Model;

/// The state of a client's session.
#[derive(Clone, Copy, Debug, PartialEq, Eq)]
pub enum Phase {
    /// No session is wanted.
    Off,
    /// A Hello went out, and its Welcome has not come yet.
    Opening,
    /// The session is open.
    Online,
}

impl Phase {
    // Whether the session is open.
    pub(crate) fn is_online(self) -> bool
        ensures { result ≡ is_online self }
    {
        matches!(self, Phase::Online)
    }

    // Whether a Hello waits for its Welcome.
    pub(crate) fn is_opening(self) -> bool
        ensures { result ≡ is_opening self }
    {
        matches!(self, Phase::Opening)
    }
}

/// One incarnation of a client: it makes the messages that its calls need, and keeps each until its
/// answer is received. Contracts see it as plain data.
pub struct Client {
    pub(crate) alloc: Global,
    pub(crate) session: SessionId,
    pub(crate) attempts: Count,
    pub(crate) phase: Phase,
    pub(crate) base: Option<u64>,
    pub(crate) made: u64,
    pub(crate) sent: u64,
    pub(crate) answered: u64,
    pub(crate) heard: u64,
    pub(crate) taken: Count,
    pub(crate) seen: Count,
    pub(crate) requests: Count,
    pub(crate) watches: Watches,
    pub(crate) asks: Asks,
    pub(crate) mail: ClientQueues,
}

// Written out so that dropping a client is one step of a proof, in the crates above too.
impl Drop for Client {
    fn drop(self) {
        let Client {
            alloc: _,
            session: _,
            attempts: _,
            phase: _,
            base: _,
            made: _,
            sent: _,
            answered: _,
            heard: _,
            taken: _,
            seen: _,
            requests: _,
            watches: _,
            asks: _,
            mail: _,
        } = self;
    }
}

impl Model for Client {
    ghost use Rattle.pres_client.specs.Clients.{ClientState, InRange};

    ghost Value = { ClientState };

    ghost view = { λ c. record {
      session = c.session;
      attempts = c.attempts;
      phase = c.phase;
      base = c.base;
      made = c.made;
      sent = c.sent;
      answered = c.answered;
      heard = c.heard;
      taken = c.taken;
      seen = c.seen;
      requests = c.requests;
      queue = c.mail.queue;
      watches = c.watches;
      asks = c.asks;
      sends = c.mail.sends;
      notices = c.mail.notices;
    } };

    ghost invariant = { λ c. InRange c.base c.made c.sent c.answered c.heard c.mail.queue };
}

impl Client {
    /// A client that begins its incarnation: its program counts these, from 1 on, and saves the
    /// count before it sends anything of the incarnation.
    pub fn new(alloc: Global, client: ClientId, incarnation: Number) -> Client
        ensures { result ≡ start client incarnation }
    {
        Client {
            alloc,
            session: SessionId {
                client,
                incarnation,
                attempt: Number::first(),
            },
            attempts: Count::zero(),
            phase: Phase::Off,
            base: None,
            made: 0,
            sent: 0,
            answered: 0,
            heard: 0,
            taken: Count::zero(),
            seen: Count::zero(),
            requests: Count::zero(),
            watches: Watches::new(alloc),
            asks: Asks::new(alloc),
            mail: ClientQueues::new(alloc),
        }
    }

    // ---- readers

    /// Whether a session is open.
    pub fn connected(&self) -> bool
        ensures { result ≡ is_online self.now.phase }
    {
        self.phase.is_online()
    }

    /// The session that is open or being opened.
    pub fn session(&self) -> Option<&SessionId>
        ensures { option_copied result ≡ session_of self.now }
    {
        match self.phase {
            Phase::Off => None,
            Phase::Opening | Phase::Online => Some(&self.session),
        }
    }

    /// Which start of the client's program this is.
    pub fn incarnation(&self) -> Number
        ensures { result ≡ self.now.session.incarnation }
    {
        self.session.incarnation
    }

    /// What is shown of the path: the server's number and the value, which is null if the tree is
    /// empty there. None before the first value came, and for a path that isn't listened to. After
    /// a loss it stays as it was until the next session sends a value.
    pub fn view(&self, path: &Path) -> Option<(u64, &Tree)>
        ensures { MatchOption result
            (view path.now self.now ≡ None)
            (λ v. view path.now self.now ≡ Some (v.0, v.1.now)) }
    {
        self.watches.get(path)?.shown.at(self.seen)
    }

    /// How many messages of the session wait for their answers, a Hello among them.
    pub fn unanswered(&self) -> usize
        ensures { result ≡ unanswered self.now }
    {
        match self.phase {
            Phase::Online => self.mail.waiting(),
            Phase::Opening => 1,
            Phase::Off => 0,
        }
    }

    /// At most how many messages the next call makes.
    pub fn most_sends(&self) -> usize
        ensures { result ≡ most_sends self.now }
    {
        match self.phase {
            Phase::Online => self.mail.waiting().max(1),
            Phase::Opening => self
                .watches
                .len()
                .saturating_add(self.mail.waiting())
                .max(1),
            Phase::Off => 1,
        }
    }

    /// The messages that are to be sent, in this order. They are handed out once.
    pub fn take_sends(&mut self) -> Vec<Up>
        ensures given { result.items ≡ self.old.sends }
        ensures left { self.new ≡ record self.old { sends = [] } }
    {
        self.mail.take_sends()
    }

    /// What happened, in this order. Each notice is handed out once.
    pub fn take_notices(&mut self) -> Vec<Notice>
        ensures given { result.items ≡ self.old.notices }
        ensures left { self.new ≡ record self.old { notices = [] } }
    {
        self.mail.take_notices()
    }

    // ---- numbers

    // Whether no number is left for a request.
    pub(crate) fn no_request(&self) -> bool
        ensures { result ≡ no_request self.now }
    {
        self.requests.get() >= MAX_SAFE_INTEGER
    }

    // The number of the next request.
    pub(crate) fn next_request(&self) -> Number
        requires { no_request self.now ≡ false }
        ensures { result ≡ self.now.requests + 1 }
    {
        number(self.requests.get() + 1)
    }

    // Whether no number is left for a write.
    pub(crate) fn no_write(&self) -> bool
        ensures { result ≡ no_write self.now }
    {
        self.made >= MAX_SAFE_INTEGER - self.base()
    }

    // Whether no number is left for a message.
    pub(crate) fn no_message(&self) -> bool
        ensures { result ≡ no_message self.now }
    {
        self.heard + self.mail.waiting() as u64 >= MAX_SAFE_INTEGER
    }

    pub(crate) fn base(&self) -> u64
        ensures { result ≡ base_of self.now }
    {
        self.base.unwrap_or(0)
    }

    // Whether no number is left for a write that answers a request.
    pub(crate) fn cannot_write(&self) -> bool
        ensures { result ≡ (no_request self.now || (no_write self.now || no_message self.now)) }
    {
        self.no_request() || self.no_write() || self.no_message()
    }

    // The number of the next message in its session.
    pub(crate) fn next_q(&self) -> Number
        requires { no_message self.now ≡ false }
        ensures { result ≡ self.now.heard + length self.now.queue + 1 }
    {
        number(self.heard + self.mail.waiting() as u64 + 1)
    }

    // The number of the next write.
    pub(crate) fn next_n(&self) -> Number
        requires { no_write self.now ≡ false }
        ensures { result ≡ base_of self.now + self.now.made + 1 }
    {
        number(self.base() + self.made + 1)
    }

    // The message as it goes out now, where the client is Online.
    pub(crate) fn outgoing_of(&self, queued: &Queued) -> Result<Vec<Up>, AllocError>
        requires message { no_message self.now ≡ false }
        requires write { is_write queued.now ≡ true → no_write self.now ≡ false }
        ensures { IfOk result (λ v. v.items ≡ sent_now self.now queued.now) }
    {
        if !self.phase.is_online() {
            return Ok(Vec::new(self.alloc));
        }
        let n = self.base() + self.made + 1;
        let message = queued.message(self.alloc, &self.session, self.next_q(), n)?;
        let mut sends = Vec::new(self.alloc);
        sends.push(message)?;
        Ok(sends)
    }

    // The number of writes that went out once one more was made.
    pub(crate) fn sent_with_one(&self) -> u64
        requires { no_write self.now ≡ false }
        ensures { result ≡ (if is_online self.now.phase then self.now.made + 1 else self.now.sent) }
    {
        if self.phase.is_online() {
            self.made + 1
        } else {
            self.sent
        }
    }

    // One message more, which is no write.
    pub(crate) fn enqueue(&mut self, queued: Queued) -> Result<(), AllocError>
        requires message { no_message self.old ≡ false }
        requires no_write { is_write queued ≡ false }
        ensures ok { OnOk result (self.new ≡ enqueue self.old queued) }
        ensures err { OnErr result (self.new ≡ self.old) }
    {
        let Ok(sends) = self.outgoing_of(&queued) else {
            drop(queued);
            return Err(AllocError);
        };
        self.mail.push(queued, sends)?;
        Ok(())
    }

    // One write more.
    pub(crate) fn make_write(&mut self, queued: Queued) -> Result<(), AllocError>
        requires message { no_message self.old ≡ false }
        requires number { no_write self.old ≡ false }
        requires write { is_write queued ≡ true }
        ensures ok { OnOk result (self.new ≡ make_write self.old queued) }
        ensures err { OnErr result (self.new ≡ self.old) }
    {
        let sent = self.sent_with_one();
        let Ok(sends) = self.outgoing_of(&queued) else {
            drop(queued);
            return Err(AllocError);
        };
        self.mail.push(queued, sends)?;
        self.made += 1;
        self.sent = sent;
        Ok(())
    }
}
