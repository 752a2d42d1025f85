//! What a server knows of each client and of the tree, kept as entries are made.

ghost use Rattle.std.specs.Prelude.{◌≡◌, ◌+◌, ◌++◌, ◌∷◌, [], ℕ, List, Option, length, IfOk, OnErr};
ghost use Rattle.pres_write.specs.Outcomes.{kept_of};
ghost use Rattle.pres_fan.specs.Listeners.{touched};
ghost use Rattle.pres_write.specs.declared.op.Op.{Op};
ghost use Rattle.pres_retry.specs.Tables.{row, rows_of, recorded};
ghost use Rattle.pres_ids.specs.Ids.{ClientId, stamp_of};
ghost use Rattle.pres_log.specs.declared.entry.Entry.TheVariants as entry;
ghost use Rattle.pres_server.specs.ServerStates.{Heard, heard_after_all};
ghost use Rattle.pres_server.specs.InternalPushes.{MayPushAll, pushes};
ghost use Rattle.pres_server.specs.InternalIndex.{Carries, StepsAt, TakesEntry, MayTake, MayCarry, Tells, answer_on, live_at, session_at};
ghost use Rattle.pres_server.specs.Sums.{Sum, nothing, sum_after_all};
ghost use Rattle.pres_server.specs.SumAnswers.{answers_by};
ghost use Rattle.pres_server.specs.InternalSums.{sum_in, Agrees, MayTakeFrom};
ghost use Rattle.pres_server.specs.InternalSessions.{moment_at, stamp_at};
ghost use Rattle.pres_server.specs.InternalParts.{count_in};

use crate::client_sessions::ClientSessions;
use crate::push::push_all;
use crate::reopen::Reopen;
use pres_fan::{FanFault, Listeners};
use pres_log::Entry;
use pres_retry::{RetryTable, Verdict};
use pres_tree::{Path, Tree};
use pres_wire::{ClientId, Count, Down, Limit, Number, SessionId, Stamp, Why};
use pres_write::{Basic, Moment, Outcome, Puts, apply};
use std::alloc::Global;

/// What a server knows.
#[derive(Drop)]
pub(crate) struct Index {
    /// Where each client stands.
    pub(crate) places: ClientSessions,
    /// The answers to the writes of each client.
    pub(crate) retry: RetryTable,
    /// Who listens to what.
    pub(crate) listeners: Listeners,
    /// The tree after all writes.
    pub(crate) tree: Tree,
}

/// Where in the log an entry is made: its number, and the moment of its batch.
#[derive(Clone, Copy)]
pub(crate) struct LogPosition {
    pub(crate) number: Number,
    pub(crate) moment: Moment,
}

impl Index {
    /// The index of a server without a history.
    pub(crate) fn new(alloc: Global) -> Index
        ensures sum { sum_in 0 0 0 result ≡ nothing }
        ensures nobody { result.places.live.entries ≡ [] }
    {
        Index {
            places: ClientSessions::new(alloc),
            retry: RetryTable::new(alloc),
            listeners: Listeners::new(alloc),
            tree: Tree::empty(),
        }
    }

    /// How many messages of the session were accepted, where it is its client's open one.
    pub(crate) fn count(&self, session: &SessionId) -> Option<Count>
        ensures { result ≡ count_in (live_at self.now session.now) (stamp_of session.now) }
    {
        let live = self.places.session(&session.client)?;
        if session.stamp() != live.stamp() {
            return None;
        }
        Some(live.count())
    }

    /// When the client was heard of last, where a session of it is open.
    pub(crate) fn heard(&self, client: &ClientId) -> Option<Moment>
        ensures { result ≡ moment_at (session_at self.now client.now) }
    {
        let live = self.places.session(client)?;
        Some(live.heard())
    }

    /// The stamp of the client's open session.
    pub(crate) fn open_stamp(&self, client: &ClientId) -> Option<Stamp>
        ensures { result ≡ stamp_at (session_at self.now client.now) }
    {
        let live = self.places.session(client)?;
        Some(live.stamp())
    }

    // Takes in that the session was opened, and answers it.
    fn open(
        &mut self,
        alloc: Global,
        session: &SessionId,
        made: LogPosition,
    ) -> Result<Down, Reopen>
        requires { MayTake self.old (entry.Open session.now) }
        ensures steps { IfOk result
            (λ _. StepsAt made self.old self.new (entry.Open session.now)) }
        ensures answer { IfOk result
            (λ m. answer_on self.old made (entry.Open session.now) ≡ m ∷ []) }
    {
        self.places.open(alloc, session, made.moment)?;
        Ok(Down::Welcome {
            session: session.copy(alloc)?,
            z: made.number,
            ops: self.retry.last(&session.client),
        })
    }

    // Carries out the writes of entry number `z`, and sends what stands then to the sessions that
    // listen to a place that they touch.
    fn carry_out(
        &mut self,
        alloc: Global,
        writes: &[Basic],
        z: Number,
        outs: &mut Vec<Down>,
    ) -> Result<(), Reopen>
        requires { MayPushAll (session_at self.old) (touched writes.now self.old.listeners) }
        ensures carried { IfOk result (λ _. Carries writes.now self.old self.new) }
        ensures messages { IfOk result (λ _. outs.new.items ≡ outs.old.items
            ++ pushes z self.new.tree (session_at self.old)
            (touched writes.now self.old.listeners)) }
    {
        let Ok(()) = apply(alloc, &mut self.tree, writes) else {
            return Err(Reopen);
        };
        if writes.is_empty() {
            return Ok(());
        }
        let Ok(touched) = self.listeners.touched(alloc, writes) else {
            return Err(Reopen);
        };
        push_all(&mut self.places, alloc, &self.tree, z, touched, outs)
    }

    // Keeps the answer to the client's next write.
    pub(crate) fn keep(
        &mut self,
        alloc: Global,
        client: &ClientId,
        n: Number,
        done: Number,
        outcome: &Outcome,
    ) -> Result<(), Reopen>
        requires { n ≡ length (rows_of client.now self.old.retry) + 1 }
        ensures kept { IfOk result (λ _. self.new ≡ record self.old
            { retry = recorded client.now n (row done (kept_of outcome.now)) self.old.retry }) }
        ensures unchanged { OnErr result (self.new ≡ self.old) }
    {
        let client = client.copy(alloc)?;
        let kept = outcome.kept(alloc)?;
        let Ok(()) = self.retry.record(client, n, done, kept) else {
            return Err(Reopen);
        };
        Ok(())
    }

    // Takes in that write `n` of the client came to the outcome, and answers it.
    fn write(
        &mut self,
        alloc: Global,
        session: &SessionId,
        q: Number,
        n: Number,
        outcome: &Outcome,
        made: LogPosition,
    ) -> Result<Down, Reopen>
        requires { (op : Op) × MayTake self.old (entry.Op session.now q n op outcome.now) }
        ensures steps { (op : Op) → IfOk result
            (λ _. StepsAt made self.old self.new (entry.Op session.now q n op outcome.now)) }
        ensures answer { (op : Op) → IfOk result
            (λ m. answer_on self.old made (entry.Op session.now q n op outcome.now) ≡ m ∷ []) }
    {
        let r = self.places.answer(&session.client, made.moment);
        self.keep(alloc, &session.client, n, made.number, outcome)?;
        Ok(Down::Reply {
            session: session.copy(alloc)?,
            r,
            z: made.number,
            q,
            n,
            done: made.number,
            out: outcome.kept(alloc)?,
        })
    }

    // Takes in that write `n` of the client came again, and answers it as it was answered.
    fn write_again(
        &mut self,
        alloc: Global,
        session: &SessionId,
        q: Number,
        n: Number,
        made: LogPosition,
    ) -> Result<Down, Reopen>
        requires { MayTake self.old (entry.Again session.now q n) }
        ensures steps { IfOk result
            (λ _. StepsAt made self.old self.new (entry.Again session.now q n)) }
        ensures answer { IfOk result
            (λ m. answer_on self.old made (entry.Again session.now q n) ≡ m ∷ []) }
    {
        let r = self.places.answer(&session.client, made.moment);
        let Verdict::Again(answer) = self.retry.find(&session.client, n) else {
            unreachable!()
        };
        Ok(Down::Reply {
            session: session.copy(alloc)?,
            r,
            z: made.number,
            q,
            n,
            done: answer.done,
            out: answer.kept.copy(alloc)?,
        })
    }

    // Takes in that the session left the puts by its message `q`, and answers it.
    fn left(
        &mut self,
        alloc: Global,
        session: &SessionId,
        q: Number,
        puts: &Puts,
        made: LogPosition,
    ) -> Result<Down, Reopen>
        requires { MayTake self.old (entry.Left session.now q puts.now) }
        ensures steps { IfOk result
            (λ _. StepsAt made self.old self.new (entry.Left session.now q puts.now)) }
        ensures answer { IfOk result
            (λ m. answer_on self.old made (entry.Left session.now q puts.now) ≡ m ∷ []) }
    {
        let puts = puts.copy(alloc)?;
        let r = self.places.leave(alloc, session, q, puts, made.moment)?;
        Ok(Down::Armed {
            session: session.copy(alloc)?,
            r,
            z: made.number,
            q,
        })
    }

    // Takes in that the session took back what it had left at the path, and answers it.
    fn cancelled(
        &mut self,
        alloc: Global,
        session: &SessionId,
        q: Number,
        path: &Path,
        made: LogPosition,
    ) -> Result<Down, Reopen>
        requires { MayTake self.old (entry.Cancelled session.now q path.now) }
        ensures steps { IfOk result
            (λ _. StepsAt made self.old self.new (entry.Cancelled session.now q path.now)) }
        ensures answer { IfOk result
            (λ m. answer_on self.old made (entry.Cancelled session.now q path.now) ≡ m ∷ []) }
    {
        let r = self.places.cancel(alloc, session, q, path, made.moment)?;
        Ok(Down::Armed {
            session: session.copy(alloc)?,
            r,
            z: made.number,
            q,
        })
    }

    // Takes in that the session's message `q` met a limit, and answers it.
    fn denied(
        &mut self,
        alloc: Global,
        session: &SessionId,
        q: Number,
        why: Limit,
        made: LogPosition,
    ) -> Result<Down, Reopen>
        requires { MayTake self.old (entry.Denied session.now q why) }
        ensures steps { IfOk result
            (λ _. StepsAt made self.old self.new (entry.Denied session.now q why)) }
        ensures answer { IfOk result
            (λ m. answer_on self.old made (entry.Denied session.now q why) ≡ m ∷ []) }
    {
        let r = self.places.answer(&session.client, made.moment);
        Ok(Down::Denied {
            session: session.copy(alloc)?,
            r,
            z: made.number,
            q,
            why,
        })
    }

    // Takes in that the session listens to the path by its message `q`, and answers it.
    fn listen(
        &mut self,
        alloc: Global,
        session: &SessionId,
        q: Number,
        path: &Path,
        made: LogPosition,
    ) -> Result<Down, Reopen>
        requires { MayTake self.old (entry.On session.now q path.now) }
        ensures steps { IfOk result
            (λ _. StepsAt made self.old self.new (entry.On session.now q path.now)) }
        ensures answer { IfOk result
            (λ m. answer_on self.old made (entry.On session.now q path.now) ≡ m ∷ []) }
    {
        let r = self.places.answer(&session.client, made.moment);
        let listened = path.copy(alloc)?;
        match self.listeners.on(alloc, session, listened) {
            Ok(()) => {}
            Err(FanFault::Memory) => return Err(Reopen),
            Err(FanFault::Full) => unreachable!(),
        }
        Ok(Down::Snap {
            session: session.copy(alloc)?,
            r,
            z: made.number,
            q,
            path: path.copy(alloc)?,
            value: self.tree.copy_at(alloc, path)?,
        })
    }

    // Takes in that the session listens to the path no more by its message `q`, and answers it.
    fn unlisten(
        &mut self,
        alloc: Global,
        session: &SessionId,
        q: Number,
        path: &Path,
        made: LogPosition,
    ) -> Result<Down, Reopen>
        requires { MayTake self.old (entry.Off session.now q path.now) }
        ensures steps { IfOk result
            (λ _. StepsAt made self.old self.new (entry.Off session.now q path.now)) }
        ensures answer { IfOk result
            (λ m. answer_on self.old made (entry.Off session.now q path.now) ≡ m ∷ []) }
    {
        let r = self.places.answer(&session.client, made.moment);
        self.listeners.off(session, path);
        Ok(Down::OffDone {
            session: session.copy(alloc)?,
            r,
            z: made.number,
            q,
        })
    }

    // Takes in that the session ended, and answers it.
    fn end(
        &mut self,
        alloc: Global,
        session: &SessionId,
        why: Why,
        rows: &[Basic],
        made: LogPosition,
    ) -> Result<Down, Reopen>
        requires { (q : Option ℕ) × MayTake self.old (entry.Ended session.now q why rows.now) }
        ensures steps { (q : Option ℕ) → IfOk result
            (λ _. StepsAt made self.old self.new (entry.Ended session.now q why rows.now)) }
        ensures answer { (q : Option ℕ) → IfOk result
            (λ m. answer_on self.old made (entry.Ended session.now q why rows.now) ≡ m ∷ []) }
    {
        let r = self.places.end(&session.client, why, rows)?;
        self.listeners.drop_session(session);
        Ok(Down::Gone {
            session: session.copy(alloc)?,
            r,
            z: made.number,
            why,
        })
    }

    // Takes in an entry whose writes were carried out, and answers its own session.
    fn enter(&mut self, alloc: Global, entry: &Entry, made: LogPosition) -> Result<Down, Reopen>
        requires { MayTake self.old entry.now }
        ensures steps { IfOk result (λ _. StepsAt made self.old self.new entry.now) }
        ensures answer { IfOk result (λ m. answer_on self.old made entry.now ≡ m ∷ []) }
    {
        match entry {
            Entry::Open { session } => self.open(alloc, session, made),
            Entry::Op {
                session,
                q,
                n,
                outcome,
                ..
            } => self.write(alloc, session, *q, *n, outcome, made),
            Entry::Again { session, q, n } => self.write_again(alloc, session, *q, *n, made),
            Entry::Left { session, q, puts } => self.left(alloc, session, *q, puts, made),
            Entry::Cancelled { session, q, path } => {
                self.cancelled(alloc, session, *q, path, made)
            }
            Entry::Denied { session, q, why } => self.denied(alloc, session, *q, *why, made),
            Entry::On { session, q, path } => self.listen(alloc, session, *q, path, made),
            Entry::Off { session, q, path } => self.unlisten(alloc, session, *q, path, made),
            Entry::Ended {
                session,
                why,
                rows,
                ..
            } => self.end(alloc, session, *why, rows.as_slice(), made),
        }
    }

    // Takes in the next entry of the log, and adds its answers: the Pushes, and then that to its
    // own session. After an `Err` the index is of no use.
    fn take(
        &mut self,
        alloc: Global,
        entry: &Entry,
        made: LogPosition,
        outs: &mut Vec<Down>,
    ) -> Result<(), Reopen>
        requires { MayCarry self.old entry.now }
        ensures { IfOk result
            (λ _. TakesEntry made entry.now self.old self.new outs.old.items outs.new.items) }
    {
        self.carry_out(alloc, entry.writes(), made.number, outs)?;
        let answer = self.enter(alloc, entry, made)?;
        outs.push(answer)?;
        Ok(())
    }
}

/// Takes in the entries of a batch, of which the first is made there, and adds their answers.
/// After an `Err` the index is of no use.
pub(crate) fn take_all(
    index: &mut Index,
    alloc: Global,
    entries: &[Entry],
    made: LogPosition,
    outs: &mut Vec<Down>,
) -> Result<(), Reopen>
    requires { (sum : Sum) × MayTakeFrom sum made.number made.moment entries.now index.old }
    ensures agrees { (sum : Sum) → MayTakeFrom sum made.number made.moment entries.now index.old
        → IfOk result (λ _. Agrees index.new (sum_after_all entries.now sum)) }
    ensures heard { (heard : Heard) → Tells heard index.old
        → IfOk result (λ _. Tells (heard_after_all made.moment entries.now heard) index.new) }
    ensures answers { (sum : Sum) → MayTakeFrom sum made.number made.moment entries.now index.old
        → IfOk result (λ _. outs.new.items ≡ outs.old.items ++ answers_by sum entries.now) }
{
    let Some((first, rest)) = entries.split_first() else {
        return Ok(());
    };
    let moment = made.moment;
    let Some(number) = made.number.next() else {
        unreachable!()
    };
    index.take(alloc, first, made, outs)?;
    take_all(index, alloc, rest, LogPosition { number, moment }, outs)
}
