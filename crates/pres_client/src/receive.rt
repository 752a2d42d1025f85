//! The client: the messages that it receives.

ghost use Rattle.std.specs.Prelude.{◌≡◌, ◌<◌, ℕ, true, false, drop, fold, IfOk, IfErr, OnOk, OnErr, MatchOption, Some, None};
ghost use Rattle.std.specs.List.{filter_map};
ghost use Rattle.pres_ids.specs.Numbers.{greatest_number};
ghost use Rattle.pres_client_state.specs.Watches.{watch_of};
ghost use Rattle.pres_client.specs.Clients.{is_opening};
ghost use Rattle.pres_client.specs.Calls.{note, end_session, IsFew};
ghost use Rattle.pres_client.specs.ReceivedMessages.{is_next, bring, unfit, fits, fits_write, head_is_write, first_action, first_listen, answered, write_answered, ask_again, armed, judge_reply, judge_action, judge_denied, judge_snap, judge_off_done, after_value, tell_live, news_of, after_push, own_fault, after_fault, is_fit, after_welcome, accepts, after_receive};
ghost use Rattle.pres_client.specs.declared.fault.ClientFault.TheVariants.{Memory};

use crate::client::{Client, Phase};
use crate::fault::ClientFault;
use pres_client_state::{Ask, Notice, Queued, Watches, alone};
use pres_limits::MAX_SAFE_INTEGER;
use pres_tree::{Path, Tree};
use pres_wire::{Code, Count, Down, Limit, Number, PathValue, SessionId, Values};
use pres_write::Kept;
use std::alloc::{AllocError, Global};

/// The tries of a transaction before it is given up.
pub const MOST_TRIES: u64 = 25;

// The notice of the value.
fn value_notice(alloc: Global, z: Number, path: &Path, value: &Tree) -> Result<Notice, AllocError>
    ensures { IfOk result (λ n. n ≡ Notice.Value path.now z value.now) }
{
    let path = path.copy(alloc)?;
    let value = value.copy(alloc)?;
    Ok(Notice::Value {
        path,
        number: z,
        value,
    })
}

// Notices of the values that the watches show.
fn news(
    alloc: Global,
    watches: &Watches,
    z: Number,
    values: &[PathValue],
) -> Result<Vec<Notice>, AllocError>
    ensures { IfOk result (λ v. v.items ≡ filter_map (news_of watches.now z) values.now) }
{
    let mut notices = Vec::new(alloc);
    for told in values {
        if watches.is_live(&told.path) {
            notices.push(value_notice(alloc, z, &told.path, &told.value)?)?;
        }
    }
    Ok(notices)
}

// The path shows the value, where this session sent one before.
fn tell_live(watches: &mut Watches, told: PathValue)
    ensures { watches.new ≡ tell_live watches.old told }
{
    let PathValue { path, value } = told;
    if watches.is_live(&path) {
        watches.tell(&path, value);
    }
}

// The watches show the values of the paths whose values this session sent before.
fn tell_all(watches: &mut Watches, values: Vec<PathValue>)
    ensures { watches.new ≡ fold tell_live watches.old values.items }
{
    for told in values {
        tell_live(watches, told);
    }
}

impl Client {
    // Whether a message is the next one of the session's stream.
    fn is_next(&self, session: &SessionId, r: Number) -> bool
        ensures { result ≡ is_next self.now session.now r }
    {
        self.phase.is_online() && *session == self.session && r.get() == self.taken.get() + 1
    }

    // Whether an answer is to the oldest message that has none.
    fn fits(&self, q: Number) -> bool
        ensures { result ≡ fits self.now q }
    {
        q.get() == self.heard + 1
    }

    // Whether an answer is to the oldest write that has none, and the oldest message.
    fn fits_write(&self, q: Number, n: Number) -> bool
        ensures { result ≡ fits_write self.now q n }
    {
        self.fits(q) && n.get() == self.base() + self.answered + 1
    }

    // A message of the stream is taken.
    fn bring(&mut self, z: Number)
        requires { self.old.taken < greatest_number }
        ensures { self.new ≡ bring self.old z }
    {
        if let Some(taken) = self.taken.next() {
            self.taken = Count::up_to(taken);
        }
        self.seen = Count::up_to(z);
    }

    // The message is taken, but is no answer to the oldest one.
    fn unfit(&mut self, z: Number) -> Result<(), AllocError>
        requires { self.old.taken < greatest_number }
        ensures ok { OnOk result (self.new ≡ unfit (bring self.old z)) }
        ensures err { OnErr result (self.new ≡ self.old) }
    {
        let notices = self.mail.farewell(Some(Code::Bad))?;
        self.mail.add(Vec::new(self.alloc), notices)?;
        self.bring(z);
        self.close();
        Ok(())
    }

    // The message is taken, and answers the oldest one, which is no write.
    fn settle(&mut self, z: Number)
        requires taken { self.old.taken < greatest_number }
        requires no_write { head_is_write self.old.queue ≡ Some false }
        ensures { self.new ≡ answered (bring self.old z) (drop 1 self.old.queue) }
    {
        self.bring(z);
        drop(self.mail.pop());
        self.heard += 1;
    }

    // The same of a write.
    fn settle_write(&mut self, z: Number)
        requires taken { self.old.taken < greatest_number }
        requires write { head_is_write self.old.queue ≡ Some true }
        ensures { self.new ≡ write_answered (bring self.old z) (drop 1 self.old.queue) }
    {
        self.bring(z);
        drop(self.mail.pop());
        self.heard += 1;
        self.answered += 1;
    }

    // Adds one notice, or changes nothing.
    fn note(&mut self, notice: Notice) -> Result<(), AllocError>
        ensures ok { OnOk result (self.new ≡ note self.old notice) }
        ensures err { OnErr result (self.new ≡ self.old) }
    {
        let notices = alone(self.alloc, notice)?;
        self.mail.add(Vec::new(self.alloc), notices)
    }

    // ---- answers to writes

    // The write stands.
    fn done(&mut self, z: Number, request: u64, number: Number) -> Result<(), AllocError>
        requires taken { self.old.taken < greatest_number }
        requires write { head_is_write self.old.queue ≡ Some true }
        ensures ok { OnOk result (self.new ≡ note
            (write_answered (bring self.old z) (drop 1 self.old.queue))
            (Notice.Done request number)) }
        ensures err { OnErr result (self.new ≡ self.old) }
    {
        self.note(Notice::Done { request, number })?;
        self.settle_write(z);
        Ok(())
    }

    // The transaction's attempt at the path was overtaken, and found the value.
    fn overtaken(
        &mut self,
        z: Number,
        request: u64,
        attempt: u64,
        path: Path,
        value: Tree,
    ) -> Result<(), AllocError>
        requires taken { self.old.taken < greatest_number }
        requires write { head_is_write self.old.queue ≡ Some true }
        ensures ok { OnOk result (self.new ≡ ask_again
            (write_answered (bring self.old z) (drop 1 self.old.queue))
            request attempt path value) }
        ensures err { OnErr result (self.new ≡ self.old) }
    {
        if attempt >= MOST_TRIES {
            drop(value);
            self.note(Notice::TooManyTries { request })?;
            self.settle_write(z);
            return Ok(());
        }
        let ask = Ask {
            path,
            attempt: attempt + 1,
            value,
        };
        self.ask(request, ask)?;
        self.settle_write(z);
        Ok(())
    }

    // The Reply to the oldest message says that it was written.
    fn receive_wrote(&mut self, z: Number, done: Number) -> Result<(), AllocError>
        requires { self.old.taken < greatest_number }
        ensures ok { (q n : ℕ) → fits_write self.old q n ≡ true → OnOk result
            (self.new ≡ judge_reply (bring self.old z) self.old.queue q n done Kept.Wrote) }
        ensures err { OnErr result (self.new ≡ self.old) }
    {
        let request = match self.mail.queue().front() {
            Some(Queued::Write { request, .. } | Queued::Try { request, .. }) => *request,
            _ => return self.unfit(z),
        };
        self.done(z, request, done)
    }

    // The Reply to the oldest message says that another write came first, and which value it found.
    fn receive_stale(&mut self, z: Number, held: Option<Tree>) -> Result<(), AllocError>
        requires { self.old.taken < greatest_number }
        ensures ok { (q n done : ℕ) → fits_write self.old q n ≡ true → OnOk result
            (self.new ≡ judge_reply (bring self.old z) self.old.queue q n done (Kept.Stale held)) }
        ensures err { OnErr result (self.new ≡ self.old) }
    {
        let Some(
            Queued::Try {
                request,
                attempt,
                transaction,
            },
        ) = self.mail.queue().front()
        else {
            drop(held);
            return self.unfit(z);
        };
        let (request, attempt) = (*request, *attempt);
        let Ok(path) = transaction.path().copy(self.alloc) else {
            drop(held);
            return Err(AllocError);
        };
        self.overtaken(z, request, attempt, path, held.unwrap_or(Tree::empty()))
    }

    // A Reply is taken.
    fn receive_reply(
        &mut self,
        z: Number,
        q: Number,
        n: Number,
        done: Number,
        out: Kept,
    ) -> Result<(), AllocError>
        requires { self.old.taken < greatest_number }
        ensures ok { OnOk result
            (self.new ≡ judge_reply (bring self.old z) self.old.queue q n done out) }
        ensures err { OnErr result (self.new ≡ self.old) }
    {
        if !self.fits_write(q, n) {
            drop(out);
            return self.unfit(z);
        }
        match out {
            Kept::Wrote => self.receive_wrote(z, done),
            Kept::Stale(held) => self.receive_stale(z, held),
        }
    }

    // ---- answers to other messages

    // The request of the oldest message, if that is an action for the end of the session, or a
    // cancel.
    fn first_action(&self) -> Option<u64>
        ensures { result ≡ first_action self.now.queue }
    {
        self.mail.queue().front()?.action()
    }

    // An Armed is taken.
    fn receive_armed(&mut self, z: Number, q: Number) -> Result<(), AllocError>
        requires { self.old.taken < greatest_number }
        ensures ok { OnOk result (self.new ≡ judge_action (bring self.old z) self.old.queue q armed) }
        ensures err { OnErr result (self.new ≡ self.old) }
    {
        let Some(request) = self.first_action() else {
            return self.unfit(z);
        };
        if !self.fits(q) {
            return self.unfit(z);
        }
        self.note(Notice::Armed { request })?;
        self.settle(z);
        Ok(())
    }

    // A Denied of such an action is taken.
    fn receive_full(&mut self, z: Number, q: Number) -> Result<(), AllocError>
        requires { self.old.taken < greatest_number }
        ensures ok { OnOk result
            (self.new ≡ judge_denied (bring self.old z) self.old.queue q Limit.Plan) }
        ensures err { OnErr result (self.new ≡ self.old) }
    {
        let Some(request) = self.first_action() else {
            return self.unfit(z);
        };
        if !self.fits(q) {
            return self.unfit(z);
        }
        self.note(Notice::Denied {
            request,
            why: Limit::Plan,
        })?;
        self.settle(z);
        Ok(())
    }

    // The request and the path of the oldest message, if that listens.
    fn first_listen(&self) -> Option<(u64, &Path)>
        ensures { MatchOption result
            (first_listen self.now.queue ≡ None)
            (λ f. first_listen self.now.queue ≡ Some (f.0, f.1.now)) }
    {
        match self.mail.queue().front()? {
            Queued::On { request, path } => Some((*request, path)),
            _ => None,
        }
    }

    // A Denied of a listen is taken.
    fn receive_denied_listen(&mut self, z: Number, q: Number) -> Result<(), AllocError>
        requires { self.old.taken < greatest_number }
        ensures ok { OnOk result
            (self.new ≡ judge_denied (bring self.old z) self.old.queue q Limit.Listens) }
        ensures err { OnErr result (self.new ≡ self.old) }
    {
        let Some((request, asked)) = self.first_listen() else {
            return self.unfit(z);
        };
        if !self.fits(q) {
            return self.unfit(z);
        }
        let path = asked.copy(self.alloc)?;
        let is_later = self.mail.listens_later(&path);
        self.note(Notice::Denied {
            request,
            why: Limit::Listens,
        })?;
        self.settle(z);
        if is_later {
            return Ok(());
        }
        self.watches.remove(&path);
        Ok(())
    }

    // A Denied is taken.
    fn receive_denied(&mut self, z: Number, q: Number, why: Limit) -> Result<(), AllocError>
        requires { self.old.taken < greatest_number }
        ensures ok { OnOk result
            (self.new ≡ judge_denied (bring self.old z) self.old.queue q why) }
        ensures err { OnErr result (self.new ≡ self.old) }
    {
        match why {
            Limit::Plan => self.receive_full(z, q),
            Limit::Listens => self.receive_denied_listen(z, q),
        }
    }

    // Adds the notice of the value, or changes nothing.
    fn note_value(&mut self, z: Number, path: &Path, value: &Tree) -> Result<(), AllocError>
        ensures ok { OnOk result (self.new ≡ note self.old (Notice.Value path.now z value.now)) }
        ensures err { OnErr result (self.new ≡ self.old) }
    {
        let notice = value_notice(self.alloc, z, path, value)?;
        self.note(notice)
    }

    // Shows the value that a Snap holds.
    fn show(&mut self, z: Number, path: Path, value: Tree) -> Result<(), AllocError>
        requires taken { self.old.taken < greatest_number }
        requires no_write { head_is_write self.old.queue ≡ Some false }
        ensures ok { OnOk result (self.new ≡ after_value
            (answered (bring self.old z) (drop 1 self.old.queue)) path z value
            (watch_of path self.old.watches)) }
        ensures err { OnErr result (self.new ≡ self.old) }
    {
        if self.watches.get(&path).is_none() {
            drop(value);
            self.settle(z);
            return Ok(());
        }
        let Ok(()) = self.note_value(z, &path, &value) else {
            drop(value);
            return Err(AllocError);
        };
        self.settle(z);
        self.watches.tell(&path, value);
        Ok(())
    }

    // A Snap is taken.
    fn receive_snap(
        &mut self,
        z: Number,
        q: Number,
        path: Path,
        value: Tree,
    ) -> Result<(), AllocError>
        requires { self.old.taken < greatest_number }
        ensures ok { OnOk result
            (self.new ≡ judge_snap (bring self.old z) self.old.queue z q path value) }
        ensures err { OnErr result (self.new ≡ self.old) }
    {
        let Some((_, asked)) = self.first_listen() else {
            drop(value);
            return self.unfit(z);
        };
        if !self.fits(q) || *asked != path {
            drop(value);
            return self.unfit(z);
        }
        if self.mail.listens_later(&path) {
            drop(value);
            self.settle(z);
            return Ok(());
        }
        self.show(z, path, value)
    }

    // An OffDone is taken.
    fn receive_off_done(&mut self, z: Number, q: Number) -> Result<(), AllocError>
        requires { self.old.taken < greatest_number }
        ensures ok { OnOk result
            (self.new ≡ judge_off_done (bring self.old z) self.old.queue q) }
        ensures err { OnErr result (self.new ≡ self.old) }
    {
        if !self.fits(q) {
            return self.unfit(z);
        }
        match self.mail.queue().front() {
            Some(Queued::Off { .. }) => {
                self.settle(z);
                Ok(())
            }
            _ => self.unfit(z),
        }
    }

    // A Push is taken.
    fn receive_push(&mut self, z: Number, values: Values) -> Result<(), AllocError>
        requires { self.old.taken < greatest_number }
        ensures ok { OnOk result (self.new ≡ after_push (bring self.old z) z values) }
        ensures err { OnErr result (self.new ≡ self.old) }
    {
        let Ok(notices) = news(self.alloc, &self.watches, z, values.as_slice()) else {
            drop(values);
            return Err(AllocError);
        };
        let Ok(()) = self.mail.add(Vec::new(self.alloc), notices) else {
            drop(values);
            return Err(AllocError);
        };
        self.bring(z);
        tell_all(&mut self.watches, values.into_vec());
        Ok(())
    }

    // ---- the ends of a session, and its Welcome

    // A Gone is taken.
    fn receive_gone(&mut self, z: Number) -> Result<(), AllocError>
        requires { self.old.taken < greatest_number }
        ensures ok { OnOk result (self.new ≡ end_session (bring self.old z) None) }
        ensures err { OnErr result (self.new ≡ self.old) }
    {
        let notices = self.mail.farewell(None)?;
        self.mail.add(Vec::new(self.alloc), notices)?;
        self.bring(z);
        self.close();
        Ok(())
    }

    // The server refused a message of this session.
    fn own_fault(&mut self, code: Code) -> Result<(), AllocError>
        ensures ok { OnOk result (self.new ≡ own_fault self.old code) }
        ensures err { OnErr result (self.new ≡ self.old) }
    {
        match self.phase {
            Phase::Off => Ok(()),
            Phase::Opening => {
                self.note(Notice::Faulted(code))?;
                self.phase = Phase::Off;
                Ok(())
            }
            Phase::Online => {
                if matches!(code, Code::Session) {
                    return self.end_session(Some(code));
                }
                self.note(Notice::Faulted(code))
            }
        }
    }

    // The server refused a message.
    fn receive_fault(&mut self, session: Option<SessionId>, code: Code) -> Result<(), AllocError>
        ensures ok { OnOk result (self.new ≡ after_fault self.old session code) }
        ensures err { OnErr result (self.new ≡ self.old) }
    {
        let Some(session) = session else {
            return self.note(Notice::Faulted(code));
        };
        if session != self.session {
            return Ok(());
        }
        self.own_fault(code)
    }

    // Whether the server's count of the client's writes is possible, and numbers are left for what
    // goes out.
    fn is_fit(&self, ops: Count) -> bool
        ensures { result ≡ is_fit self.now ops }
    {
        let base = self.base.unwrap_or(ops.get());
        base + self.answered <= ops.get()
            && ops.get() <= base + self.sent
            && base + self.made <= MAX_SAFE_INTEGER
            && self.watches.len() as u64 <= MAX_SAFE_INTEGER - self.mail.waiting() as u64
    }

    // The session is open.
    fn receive_welcome(&mut self, ops: Count) -> Result<(), AllocError>
        requires { is_opening self.old.phase ≡ true }
        ensures ok { OnOk result (self.new ≡ after_welcome self.old ops) }
        ensures err { OnErr result (self.new ≡ self.old) }
    {
        if !self.is_fit(ops) {
            self.note(Notice::Faulted(Code::Bad))?;
            self.phase = Phase::Off;
            return Ok(());
        }
        let base = self.base.unwrap_or(ops.get());
        let listens = self.watches.listens()?;
        self.mail
            .open(&self.session, base + self.answered + 1, listens)?;
        self.phase = Phase::Online;
        self.base = Some(base);
        self.sent = self.made;
        self.heard = 0;
        self.taken = Count::zero();
        Ok(())
    }

    /// Whether the message is for this client now: the Welcome that it waits for, the next one of
    /// its session's stream, or a Fault. Any other is passed over.
    pub fn accepts(&self, message: &Down) -> bool
        ensures { result ≡ accepts self.now message.now }
    {
        match message {
            Down::Welcome { session, .. } => self.phase.is_opening() && *session == self.session,
            Down::Fault { .. } => true,
            Down::Reply { session, r, .. }
            | Down::Gone { session, r, .. }
            | Down::Armed { session, r, .. }
            | Down::Denied { session, r, .. }
            | Down::Snap { session, r, .. }
            | Down::Push { session, r, .. }
            | Down::OffDone { session, r, .. } => self.is_next(session, *r),
        }
    }

    // The client does what the message says.
    fn take(&mut self, message: Down) -> Result<(), AllocError>
        requires { accepts self.old message ≡ true }
        ensures ok { OnOk result (self.new ≡ after_receive self.old message) }
        ensures err { OnErr result (self.new ≡ self.old) }
    {
        match message {
            Down::Welcome { ops, .. } => self.receive_welcome(ops),
            Down::Reply {
                z,
                q,
                n,
                done,
                out,
                ..
            } => self.receive_reply(z, q, n, done, out),
            Down::Gone { z, .. } => self.receive_gone(z),
            Down::Fault { session, code } => self.receive_fault(session, code),
            Down::Armed { z, q, .. } => self.receive_armed(z, q),
            Down::Denied { z, q, why, .. } => self.receive_denied(z, q, why),
            Down::Snap {
                z,
                q,
                path,
                value,
                ..
            } => self.receive_snap(z, q, path, value),
            Down::Push { z, values, .. } => self.receive_push(z, values),
            Down::OffDone { z, q, .. } => self.receive_off_done(z, q),
        }
    }

    /// Receives a message. One that isn't the next of its session is passed over, so that messages
    /// may come twice or late. Memory is the one refusal, and then nothing is changed.
    pub fn receive(&mut self, message: Down) -> Result<(), ClientFault>
        ensures ok { OnOk result (self.new ≡ after_receive self.old message) }
        ensures err { IfErr result (λ e. (e ≡ Memory) × (self.new ≡ self.old)) }
        ensures few { IsFew self.old self.new }
    {
        if !self.accepts(&message) {
            drop(message);
            return Ok(());
        }
        self.take(message)?;
        Ok(())
    }
}
