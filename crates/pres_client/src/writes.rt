//! The client: its writes and transactions.

ghost use Rattle.std.specs.Prelude.{◌≡◌, ◌≢◌, ◌+◌, ℕ, [], IfOk, IfErr, OnOk, OnErr, MatchResult, Some, None, false, unwrap_or, option_map};
ghost use Rattle.pres_client_state.specs.Asks.{ask_of, with_ask};
ghost use Rattle.pres_client.specs.Clients.{no_request, no_write, no_message};
ghost use Rattle.pres_client_state.specs.Asks.{is_too_deep};
ghost use Rattle.pres_client.specs.Calls.{known, note, set_fault, after_write, sent_now, try_of, Answers, Does, Refuses, IsFew};
ghost use Rattle.pres_write.specs.Updates.{update_of, update_fault};
ghost use Rattle.pres_client.specs.declared.fault.ClientFault.TheVariants.{Memory, Write};

use crate::call::{Answer, Call};
use crate::client::Client;
use crate::fault::ClientFault;
use pres_client_state::{Ask, Notice, Queued, alone, sole};
use pres_tree::{MAX_DEPTH, Path, Tree, TreeFault};
use pres_wire::{Count, Up};
use pres_write::{Draft, Op, Placement, Transaction, Update, WriteFault};
use std::alloc::{AllocError, Global};

// The draft at its path. Refused: TooDeep.
pub(crate) fn placed(path: Path, draft: Draft) -> Result<Placement, ClientFault>
    ensures { MatchResult result
        (λ p. (p ≡ (path, draft)) × (set_fault path draft ≡ None))
        (λ e. option_map Write (set_fault path draft) ≡ Some e) }
{
    if path.len() + draft.depth() > MAX_DEPTH {
        drop(draft);
        return Err(ClientFault::Write(WriteFault::Tree(TreeFault::TooDeep)));
    }
    match Placement::new(path, draft) {
        Ok(placement) => Ok(placement),
        Err(_) => unreachable!(),
    }
}

// Null at the path.
pub(crate) fn cleared(path: Path) -> Placement
    ensures { result ≡ (path, []) }
{
    match Placement::new(path, Draft::empty()) {
        Ok(placement) => placement,
        Err(_) => unreachable!(),
    }
}

// The drafts at their places below the path.
pub(crate) fn updated(
    alloc: Global,
    path: Path,
    places: Vec<(Path, Draft)>,
) -> Result<Update, ClientFault>
    ensures { MatchResult result
        (λ u. (u ≡ update_of path places.items) × (update_fault path places.items ≡ None))
        (λ e. e ≡ unwrap_or (option_map Write (update_fault path places.items)) Memory) }
{
    match Update::new(alloc, path, places) {
        Ok(update) => Ok(update),
        Err(WriteFault::Tree(TreeFault::Memory)) => Err(ClientFault::Memory),
        Err(fault) => Err(ClientFault::Write(fault)),
    }
}

impl Client {
    // The next request writes.
    fn write(&mut self, op: Op) -> Result<u64, ClientFault>
        requires request { no_request self.old ≡ false }
        requires number { no_write self.old ≡ false }
        requires message { no_message self.old ≡ false }
        ensures ok { IfOk result (λ k. (k ≡ self.old.requests + 1) × (self.new ≡ after_write self.old op)) }
        ensures err { IfErr result (λ e. (e ≡ Memory) × (self.new ≡ self.old)) }
    {
        let next = self.next_request();
        let request = next.get();
        self.make_write(Queued::Write { request, op })?;
        self.requests = Count::up_to(next);
        Ok(request)
    }

    /// Replaces all at the path by the draft; null removes it. Returns the request, which Done
    /// names once the write is done. Refused, in this order: Spent, TooDeep (as Write), Memory.
    pub fn set(&mut self, path: Path, draft: Draft) -> Result<u64, ClientFault>
        ensures ok { IfOk result (Answers self.old (Call.Set path draft) self.new) }
        ensures err { IfErr result (Refuses self.old (Call.Set path draft) self.new) }
        ensures few { IsFew self.old self.new }
    {
        if self.cannot_write() {
            drop(draft);
            return Err(ClientFault::Spent);
        }
        let placement = placed(path, draft)?;
        self.write(Op::Set(placement))
    }

    /// Puts the drafts at their places below the path, all of them or none. Refused, in this
    /// order: Spent, then as Write ManyPaths (above 256), TooDeep and Overlap (a place at or
    /// above another), Memory.
    pub fn update(&mut self, path: Path, places: Vec<(Path, Draft)>) -> Result<u64, ClientFault>
        ensures ok { IfOk result (Answers self.old (Call.Update path places) self.new) }
        ensures err { IfErr result (Refuses self.old (Call.Update path places) self.new) }
        ensures few { IsFew self.old self.new }
    {
        if self.cannot_write() {
            return Err(ClientFault::Spent);
        }
        let update = updated(self.alloc, path, places)?;
        self.write(Op::Update(update))
    }

    /// Removes what is at the path. Refused, in this order: Spent, Memory.
    pub fn remove(&mut self, path: Path) -> Result<u64, ClientFault>
        ensures ok { IfOk result (Answers self.old (Call.Remove path) self.new) }
        ensures err { IfErr result (Refuses self.old (Call.Remove path) self.new) }
        ensures few { IsFew self.old self.new }
    {
        if self.cannot_write() {
            return Err(ClientFault::Spent);
        }
        self.write(Op::Set(cleared(path)))
    }

    // ---- transactions

    // What is shown at the path, copied, or null.
    fn known(&self, path: &Path) -> Result<Tree, AllocError>
        ensures { IfOk result (λ v. v ≡ known path.now self.now) }
    {
        match self.view(path) {
            Some((_, value)) => value.copy(self.alloc),
            None => Ok(Tree::empty()),
        }
    }

    // The request's transaction waits for its caller's answer, for which the notice Ask asks.
    pub(crate) fn ask(&mut self, request: u64, ask: Ask) -> Result<(), AllocError>
        ensures ok { OnOk result (self.new
            ≡ record (note self.old (Notice.Ask request ask.attempt ask.value)) {
              asks = with_ask request ask self.old.asks;
            }) }
        ensures err { OnErr result (self.new ≡ self.old) }
    {
        let Ok(notices) = ask.notices(self.alloc, request) else {
            drop(ask);
            return Err(AllocError);
        };
        let Ok(()) = self.mail.reserve(0, 0, notices.len()) else {
            drop(ask);
            return Err(AllocError);
        };
        self.asks.add(request, ask)?;
        self.mail.put_out(Vec::new(self.alloc), notices);
        Ok(())
    }

    /// Asks by the notice Ask what to put in place of the value at the path: first for the view of
    /// this very path, or null, and then for each value that another write left, until the answer's
    /// value is written, up to 25 times. Refused, in this order: Spent, Memory.
    pub fn transact(&mut self, path: Path) -> Result<u64, ClientFault>
        ensures ok { IfOk result (Answers self.old (Call.Transact path) self.new) }
        ensures err { IfErr result (Refuses self.old (Call.Transact path) self.new) }
        ensures few { IsFew self.old self.new }
    {
        if self.no_request() {
            return Err(ClientFault::Spent);
        }
        let next = self.next_request();
        let value = self.known(&path)?;
        let ask = Ask {
            path,
            attempt: 1,
            value,
        };
        self.ask(next.get(), ask)?;
        self.requests = Count::up_to(next);
        Ok(next.get())
    }

    /// Answers what the request's transaction asked. Refused, in this order: NoSuchRequest if no
    /// transaction with the request asks, and for a new draft Spent, TooDeep (as Write), Memory.
    pub fn answer(&mut self, request: u64, answer: Answer) -> Result<(), ClientFault>
        ensures ok { OnOk result (Does self.old (Call.Answer request answer) self.new) }
        ensures err { IfErr result (Refuses self.old (Call.Answer request answer) self.new) }
        ensures few { IsFew self.old self.new }
    {
        if self.asks.get(request).is_none() {
            drop(answer);
            return Err(ClientFault::NoSuchRequest);
        }
        match answer {
            Answer::New(draft) => self.attempt(request, draft),
            Answer::Abort => self.abort(request),
        }
    }

    // The transaction's caller gave it up.
    fn abort(&mut self, request: u64) -> Result<(), ClientFault>
        requires { ask_of request self.old.asks ≢ None }
        ensures ok { OnOk result (Does self.old (Call.Answer request Answer.Abort) self.new) }
        ensures err { IfErr result (Refuses self.old (Call.Answer request Answer.Abort) self.new) }
    {
        let notices = alone(self.alloc, Notice::Aborted { request })?;
        self.mail.add(Vec::new(self.alloc), notices)?;
        drop(self.asks.take(request));
        Ok(())
    }

    // The message of the attempt that the draft makes, as it goes out now, if the client is Online.
    fn try_now(&self, ask: &Ask, draft: &Draft) -> Result<Vec<Up>, AllocError>
        requires message { no_message self.now ≡ false }
        requires number { no_write self.now ≡ false }
        requires fits { is_too_deep ask.now draft.now ≡ false }
        ensures { (k : ℕ) → IfOk result (λ v. v.items ≡ sent_now self.now (try_of k ask.now draft.now)) }
    {
        if !self.phase.is_online() {
            return Ok(Vec::new(self.alloc));
        }
        let session = self.session.copy(self.alloc)?;
        let q = self.next_q();
        let n = self.next_n();
        let op = Op::Tx(ask.transaction(self.alloc, draft)?);
        sole(self.alloc, Up::Op { session, q, n, op })
    }

    // The transaction's next attempt writes the draft.
    fn attempt(&mut self, request: u64, draft: Draft) -> Result<(), ClientFault>
        requires { ask_of request self.old.asks ≢ None }
        ensures ok { OnOk result (Does self.old (Call.Answer request (Answer.New draft)) self.new) }
        ensures err { IfErr result (Refuses self.old (Call.Answer request (Answer.New draft)) self.new) }
    {
        if self.no_write() || self.no_message() {
            drop(draft);
            return Err(ClientFault::Spent);
        }
        let Some(ask) = self.asks.get(request) else {
            unreachable!()
        };
        if ask.is_too_deep(&draft) {
            drop(draft);
            return Err(ClientFault::Write(WriteFault::Tree(TreeFault::TooDeep)));
        }
        let sent = self.sent_with_one();
        let Ok(sends) = self.try_now(ask, &draft) else {
            drop(draft);
            return Err(ClientFault::Memory);
        };
        let Ok(()) = self.mail.reserve(1, sends.len(), 0) else {
            drop(draft);
            return Err(ClientFault::Memory);
        };
        let Some(ask) = self.asks.take(request) else {
            unreachable!()
        };
        let queued = Queued::Try {
            request,
            attempt: ask.attempt,
            transaction: ask.into_transaction(draft),
        };
        self.mail.put(queued, sends, Vec::new(self.alloc));
        self.made += 1;
        self.sent = sent;
        Ok(())
    }
}
