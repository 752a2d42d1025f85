//! The server.

ghost use Rattle.std.specs.Prelude.{◌≡◌, ◌↔◌, ◌<◌, ◌≤◌, ◌^◌, ◌∷◌, ℕ, vec_capacity, All, List, IsTrue, IfOk, IfErr, IfSome, IfNone, OnOk, OnErr, MatchOption, true, false, is_some, option_copied, []};
ghost use Rattle.pres_tree.specs.Rows.{is_null, value_at};
ghost use Rattle.pres_log.specs.declared.fault.Fault.TheVariants.{Busy as OutOfMemory};
ghost use Rattle.pres_ids.specs.declared.id.Stamp.{Stamp};
ghost use Rattle.pres_ids.specs.Ids.{ClientId};
ghost use Rattle.pres_plan.specs.Plans.{IsPlan};
ghost use Rattle.pres_retry.specs.Tables.{rows_of};
ghost use Rattle.pres_server.specs.ServerStates.{heard_last, heard_again, first_client};
ghost use Rattle.pres_wire.specs.declared.up.Up.TheVariants as up;
ghost use Rattle.pres_server.specs.declared.input.Input.TheVariants as input;
ghost use Rattle.pres_server.specs.Turns.{IsRefusal, makes};
ghost use Rattle.pres_server.specs.Sums.{is_open_in, accepted_in, has_open_in, open_stamp_in, sum_with};
ghost use Rattle.pres_server.specs.SumStates.{blank};
ghost use Rattle.pres_server.specs.SumAnswers.{answers_by};
ghost use Rattle.pres_server.specs.SumTurns.{FollowsSum, moment_by, turn_by, batch_by, after_commit, IsTurn};
ghost use Rattle.pres_server.specs.Groups.{state_from, MakesBatch};
ghost use Rattle.pres_server.specs.InternalGroups.{IsGroup, IsOneOp, entry_by};
ghost use Rattle.pres_server.specs.Histories.{IsSum};
ghost use Rattle.pres_server.specs.Replays.{resumed};
ghost use Rattle.pres_server.specs.BaseSums.{sum_for, IsBaseAbove};
ghost use Rattle.pres_base.specs.AnswersApart.{parts_above};
ghost use Rattle.pres_server.specs.InternalBases.{AreLasts, parts_of};

use crate::ahead::OpEffect;
use crate::index::{Index, LogPosition, take_all};
use crate::input::Input;
use crate::reopen::Reopen;
use crate::turn::{TurnEffect, TurnTime};
use pres_base::{Base, BaseParts};
use pres_log::{Batch, Entry, Fault, Log, LogAbove};
use pres_retry::Row;
use pres_tree::{Path, Tree};
use pres_wire::{ClientId, Count, Down, Number, SessionId, Stamp, Up};
use pres_write::{Items, Moment, Op};
use std::alloc::{AllocError, Global};
use std::marker::Model;

/// A server of one thread: many clients share its tree by sessions and numbered writes. It holds no
/// entry of its history. Contracts see it as the history's sum, and when the client of each open session
/// was heard of last.
pub struct Server {
    alloc: Global,
    batches: u64,
    number: u64,
    moment: Moment,
    index: Index,
}

// By hand, so that letting go of a server is one step of a proof, in the crates above too.
impl Drop for Server {
    fn drop(self) {
        let Server {
            alloc: _,
            batches: _,
            number: _,
            moment: _,
            index: _,
        } = self;
    }
}

impl Model for Server {
    ghost use Rattle.pres_server.specs.SumStates.{SumState};

    ghost Value = { SumState };

    ghost use Rattle.pres_server.specs.InternalIndex.{heard_in};
    ghost use Rattle.pres_server.specs.InternalSums.{sum_in};
    ghost use Rattle.pres_server.specs.Histories.{IsSum};

    ghost view = { λ s. record
        { sum = sum_in s.batches s.moment s.number s.index; heard = heard_in s.index } };

    ghost invariant = { λ s. IsSum (sum_in s.batches s.moment s.number s.index) };
}

/// A turn whose batch waits for its commit. It must be used: `done` takes it once the batch is
/// committed, `abandon` where the commit was refused. Contracts see the server as it was before the
/// turn, and the moment and the entries of the batch.
pub struct Busy {
    server: Server,
    batch: Batch,
}

impl Model for Busy {
    ghost use Rattle.pres_server.specs.SumStates.{PendingTurn};

    ghost Value = { PendingTurn };

    ghost use Rattle.pres_server.specs.SumTurns.{FollowsSum};

    ghost view = { λ b. record
        { state = b.server; moment = b.batch.moment; made = b.batch.entries } };

    ghost invariant = { λ b. FollowsSum b.server.sum b.batch };
}

/// What an input did.
pub enum Turn {
    /// It changed nothing but when a client was heard of last. There is nothing to commit, and no
    /// answer.
    Quiet(Server, Items<Down>),
    /// It makes a batch.
    Busy(Busy),
}

// The number as a count, far from the last one.
fn count_of(number: u64) -> Count
    requires { number < 2 ^ 52 }
    ensures { result ≡ number }
{
    let Some(count) = Count::new(number) else {
        unreachable!()
    };
    count
}

impl Server {
    /// A server without a history. It keeps the allocator and takes no memory.
    pub fn new(alloc: Global) -> Server
        ensures { result ≡ blank }
    {
        Server {
            alloc,
            batches: 0,
            number: 0,
            moment: Moment::at(0),
            index: Index::new(alloc),
        }
    }

    /// How many entries there are: the number of the last one.
    pub fn number(&self) -> u64
        ensures number { result ≡ self.now.sum.number }
        ensures sum { IsSum self.now.sum }
    {
        self.number
    }

    /// How many batches there are.
    pub(crate) fn batches(&self) -> u64
        ensures batches { result ≡ self.now.sum.batches }
        ensures sum { IsSum self.now.sum }
    {
        self.batches
    }

    /// The greatest moment so far.
    pub(crate) fn moment(&self) -> Moment
        ensures { result ≡ self.now.sum.moment }
    {
        self.moment
    }

    /// What it takes memory from.
    pub(crate) fn alloc(&self) -> Global {
        self.alloc
    }

    /// The log, which stands above its number: it counts entries and batches, and lends none of them.
    /// Whoever wants an entry asks where batches were saved. It takes no memory.
    pub fn log(&self) -> LogAbove
        ensures counts { result ≡ record { number = self.now.sum.number; batches = self.now.sum.batches } }
    {
        Log::above(self.number, self.batches)
    }

    // The parts of its base, with the answers alone that were made after the number.
    fn parts_above(&self, above: Count) -> Result<BaseParts, AllocError>
        ensures parts { IfOk result (λ parts. (lasts : List (ClientId × Stamp))
            × AreLasts self.now.sum lasts
            × (parts ≡ parts_above above (parts_of self.now.sum lasts))) }
        ensures plans { IfOk result (λ _. All (λ e. IsPlan e.1.plan) self.now.sum.sessions) }
        ensures sum { IsSum self.now.sum }
    {
        let batches = count_of(self.batches);
        let number = count_of(self.number);
        let clients = self.index.client_parts(self.alloc, above)?;
        let sessions = self.index.session_parts(self.alloc)?;
        let tree = self.index.tree.copy(self.alloc)?;
        Ok(BaseParts {
            batches,
            moment: self.moment,
            number,
            tree,
            clients,
            sessions,
        })
    }

    /// What the server is, as data that can be kept: a server that begins from it has the same sum.
    /// The one refusal is Busy, where memory is refused.
    pub fn base(&self) -> Result<Base, Fault>
        ensures base { IfOk result (λ base. sum_for base ≡ self.now.sum) }
        ensures busy { IfErr result (λ e. e ≡ OutOfMemory) }
    {
        self.base_above(Count::zero())
    }

    /// The same with the answers alone that were made after the number: with those before them it is
    /// a base of the server. It copies no others. The one refusal is Busy, where memory is refused.
    pub fn base_above(&self, number: Count) -> Result<Base, Fault>
        ensures base { IfOk result (λ base. IsBaseAbove number self.now.sum base) }
        ensures busy { IfErr result (λ e. e ≡ OutOfMemory) }
    {
        let Ok(parts) = self.parts_above(number) else {
            return Err(Fault::Busy);
        };
        let Ok(base) = Base::from_parts(parts) else {
            unreachable!()
        };
        Ok(base)
    }

    /// The server of a base, which is moved.
    pub(crate) fn of_base(alloc: Global, base: Base) -> Result<Server, AllocError>
        ensures sum { IfOk result (λ server. server.sum ≡ sum_for base) }
    {
        let parts = base.into_parts();
        let batches = parts.batches.get();
        let number = parts.number.get();
        let moment = parts.moment;
        let index = Index::of_base(alloc, parts)?;
        let server = Server {
            alloc,
            batches,
            number,
            moment,
            index,
        };
        Ok(server)
    }

    /// The value at the path, where something stands there.
    pub fn value_at(&self, path: &Path) -> Option<&Tree>
        ensures { MatchOption result
            (value_at path.now self.now.sum.tree ≡ [])
            (λ value. (is_null value.now ≡ false)
            × (value_at path.now self.now.sum.tree ≡ value.now)) }
    {
        self.index.tree.at(path)
    }

    /// What became of the client's writes, in their order. The one refusal is Busy, where
    /// memory is refused.
    pub fn history_of(&self, client: &ClientId) -> Result<Vec<Row>, Fault>
        ensures rows { IfOk result
            (λ rows. rows.items ≡ rows_of client.now self.now.sum.rows) }
        ensures busy { IfErr result (λ e. e ≡ OutOfMemory) }
    {
        let Ok(rows) = self.index.retry.rows(self.alloc, client) else {
            return Err(Fault::Busy);
        };
        Ok(rows)
    }

    /// Whether the session is open.
    pub fn is_open(&self, session: &SessionId) -> bool
        ensures { result ≡ is_open_in session.now self.now.sum }
    {
        self.index.is_live(session)
    }

    /// How many messages of the session were accepted, none where it isn't open.
    pub fn count(&self, session: &SessionId) -> Option<Count>
        ensures { result ≡ accepted_in session.now self.now.sum }
    {
        self.index.count(session)
    }

    /// When the client was heard of last, none where no session of it is open.
    pub fn heard(&self, client: &ClientId) -> Option<Moment>
        ensures heard { result ≡ heard_last self.now.heard client.now }
        ensures open { is_some result ≡ has_open_in client.now self.now.sum }
    {
        self.index.heard(client)
    }

    /// The stamp of the client's open session: a client has one at the most.
    pub fn open_stamp(&self, client: &ClientId) -> Option<Stamp>
        ensures { result ≡ open_stamp_in client.now self.now.sum }
    {
        self.index.open_stamp(client)
    }

    /// The first client, in byte order, that has a session open.
    pub fn first_open(&self) -> Option<&ClientId>
        ensures first { option_copied result ≡ first_client self.now.heard }
        ensures open { IfSome result (λ c. has_open_in c.now self.now.sum ≡ true) }
        ensures none { IfNone result ((c : ClientId) → has_open_in c self.now.sum ≡ false) }
    {
        self.index.places.first()
    }

    // The client was heard of at the moment, where a session of it is open.
    fn hear(&mut self, client: &ClientId, moment: Moment)
        ensures { self.new ≡ record self.old
            { heard = heard_again client.now moment self.old.heard } }
    {
        self.index.places.hear(client, moment);
    }

    // The turn that makes these entries at the moment.
    fn wait(self, moment: Moment, entries: Items<Entry>) -> Busy
        requires { FollowsSum self.sum (batch_by self.sum moment entries) }
        ensures { result ≡ record { state = self; moment = moment; made = entries } }
    {
        let Some(first) = Number::new(self.number + 1) else {
            unreachable!()
        };
        let batch = Batch::new(first, moment, entries);
        Busy {
            server: self,
            batch,
        }
    }

    /// What the input does, at the later of the given moment and the greatest one so far. Nothing is
    /// changed before `done` but, by a message that was accepted before, when its client was heard
    /// of last. Refused, in this order, with the server as it was: Old, Session, Order, Spent,
    /// Full, Busy.
    pub fn prepare(mut self, input: Input, now: Moment) -> Result<Turn, (Fault, Server)>
        ensures turn { IfOk result (IsTurn self input now) }
        ensures refused { IfErr result (λ e. IsRefusal (turn_by self input now) e.0) }
        ensures unchanged { IfErr result (λ e. e.1 ≡ self) }
    {
        // it ensures that the moment is in range
        let _ = now.millis();
        let moment = self.moment.max(now);
        let number = self.number;
        let none = Items::of(Vec::new(self.alloc));
        match self
            .index
            .decide(self.alloc, input, TurnTime { number, moment })
        {
            Ok(TurnEffect::Makes(entries)) => Ok(Turn::Busy(self.wait(moment, entries))),
            Ok(TurnEffect::Quiet(Some(session))) => {
                self.hear(&session.client, moment);
                Ok(Turn::Quiet(self, none))
            }
            Ok(TurnEffect::Quiet(None)) => Ok(Turn::Quiet(self, none)),
            Err(fault) => Err((fault, self)),
        }
    }

    // What the operation makes after the batches that wait, at the moment.
    fn effect_after(
        &self,
        batches: &[Batch],
        session: &SessionId,
        q: Number,
        n: Number,
        op: &Op,
        moment: Moment,
    ) -> Option<OpEffect>
        requires { (last : ℕ) × IsGroup self.now.sum batches.now last }
        ensures { (now : ℕ) → moment ≡ moment_by (state_from self.now batches.now).sum now
            → IfSome result (λ effect. turn_by (state_from self.now batches.now)
            (input.Up (up.Op session.now q n op.now)) now
            ≡ makes (entry_by effect session.now q n op.now ∷ [])) }
    {
        let number = self.number + batches.len() as u64;
        self.index.effect_after(
            self.alloc,
            batches,
            session,
            q,
            n,
            op,
            TurnTime { number, moment },
        )
    }

    // The batch of the entry, after the batches that wait.
    fn batch_after(
        &self,
        batches: &[Batch],
        moment: Moment,
        entry: Entry,
        mut room: Vec<Entry>,
    ) -> Batch
        requires group { (last : ℕ) × IsGroup self.now.sum batches.now last }
        requires room { (room.items ≡ []) × (1 ≤ vec_capacity room) }
        ensures { result ≡ batch_by (state_from self.now batches.now).sum moment (entry ∷ []) }
    {
        let Ok(()) = room.push(entry) else {
            unreachable!()
        };
        let Some(first) = Number::new(self.number + batches.len() as u64 + 1) else {
            unreachable!()
        };
        Batch::new(first, moment, Items::of(room))
    }

    // The batch of an operation, or its input, which is handed back.
    fn op_after(
        &self,
        batches: &[Batch],
        session: SessionId,
        q: Number,
        n: Number,
        op: Op,
        moment: Moment,
    ) -> Result<Batch, Input>
        requires { (last : ℕ) × IsGroup self.now.sum batches.now last }
        ensures batch { (now : ℕ) → moment ≡ moment_by (state_from self.now batches.now).sum now
            → IfOk result (MakesBatch (state_from self.now batches.now)
            (input.Up (up.Op session q n op)) now) }
        ensures op { IfOk result (λ batch. IsOneOp batch.entries) }
        ensures same { IfErr result (λ back. back ≡ input.Up (up.Op session q n op)) }
    {
        let Some(effect) = self.effect_after(batches, &session, q, n, &op, moment) else {
            return Err(Input::Up(Up::Op { session, q, n, op }));
        };
        let Ok(room) = Vec::with_capacity(self.alloc, 1) else {
            drop(effect);
            return Err(Input::Up(Up::Op { session, q, n, op }));
        };
        let entry = effect.entry(session, q, n, op);
        Ok(self.batch_after(batches, moment, entry, room))
    }

    /// The batch that the input makes after the batches that wait, of which `last` is the greatest
    /// moment. The input is handed back where it may not wait with them: where it is no operation,
    /// or none that makes a batch there, or where memory is refused.
    pub(crate) fn prepare_after(
        &self,
        batches: &[Batch],
        last: Moment,
        input: Input,
        now: Moment,
    ) -> Result<Batch, Input>
        requires { IsGroup self.now.sum batches.now last }
        ensures batch { IfOk result
            (MakesBatch (state_from self.now batches.now) input now) }
        ensures op { IfOk result (λ batch. IsOneOp batch.entries) }
        ensures same { IfErr result (λ back. back ≡ input) }
    {
        // it ensures that the moment is in range
        let _ = now.millis();
        match input {
            Input::Up(Up::Op { session, q, n, op }) => {
                self.op_after(batches, session, q, n, op, last.max(now))
            }
            other => Err(other),
        }
    }

    /// Whether the batch may follow.
    pub(crate) fn may_follow(&self, batch: &Batch) -> Result<bool, AllocError>
        ensures { IfOk result (λ may. IsTrue may ↔ FollowsSum self.now.sum batch.now) }
    {
        let number = self.number;
        let moment = batch.moment();
        if batch.first().get() != number + 1 || moment.millis() < self.moment.millis() {
            return Ok(false);
        }
        self.index
            .may_join(self.alloc, batch.entries(), TurnTime { number, moment })
    }

    /// The server with a batch more, and the answers of the batch in their order.
    pub(crate) fn join(self, batch: Batch) -> Result<(Server, Items<Down>), Reopen>
        requires { FollowsSum self.sum batch }
        ensures server { IfOk result
            (λ done. done.0 ≡ after_commit self batch.moment batch.entries) }
        ensures answers { IfOk result (λ done. done.1 ≡ answers_by self.sum batch.entries) }
    {
        let Server {
            alloc,
            batches,
            number,
            moment: _,
            mut index,
        } = self;
        let moment = batch.moment();
        let made = LogPosition {
            number: batch.first(),
            moment,
        };
        let entries = batch.entries();
        let mut answers = Vec::new(alloc);
        take_all(&mut index, alloc, entries, made, &mut answers)?;
        // it ensures that the clients are in order
        let _ = index.places.open_count();
        let server = Server {
            alloc,
            batches: batches + 1,
            number: number + entries.len() as u64,
            moment,
            index,
        };
        Ok((server, Items::of(answers)))
    }

    /// Adds a batch that may follow. Where memory is refused the sum is as it was.
    pub(crate) fn grow(&mut self, batch: Batch) -> Result<(), Reopen>
        requires { FollowsSum self.old.sum batch }
        ensures added { OnOk result (self.new.sum ≡ sum_with self.old.sum batch) }
        ensures unchanged { OnErr result (self.new.sum ≡ self.old.sum) }
    {
        let moment = batch.moment();
        let made = LogPosition {
            number: batch.first(),
            moment,
        };
        let entries = batch.entries();
        let grown = self.index.grow(self.alloc, entries, made);
        // it ensures that the clients are in order
        let _ = self.index.places.open_count();
        grown?;
        self.batches += 1;
        self.number += entries.len() as u64;
        self.moment = moment;
        Ok(())
    }

    /// The client of each open session counts as heard of at the greatest moment.
    pub(crate) fn hear_anew(&mut self)
        ensures { self.new ≡ resumed self.old.sum }
    {
        self.index.places.hear_anew(self.moment);
    }
}

impl Busy {
    /// The batch that is to be committed.
    pub fn batch(&self) -> &Batch
        ensures made { result.now ≡ batch_by self.now.state.sum self.now.moment self.now.made }
        ensures follows { FollowsSum self.now.state.sum result.now }
    {
        &self.batch
    }

    /// The server before the turn. It takes no memory.
    pub fn abandon(self) -> Server
        ensures { result ≡ self.state }
    {
        let Busy { server, batch } = self;
        drop(batch);
        server
    }

    /// The server after the commit, and the answers of the batch in their order.
    pub fn done(self) -> Result<(Server, Items<Down>), Reopen>
        ensures server { IfOk result
            (λ done. done.0 ≡ after_commit self.state self.moment self.made) }
        ensures answers { IfOk result (λ done. done.1 ≡ answers_by self.state.sum self.made) }
    {
        let Busy { server, batch } = self;
        server.join(batch)
    }
}
