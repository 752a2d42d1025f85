//! Whether a batch may follow, read off the index.

ghost use Rattle.std.specs.Prelude.{◌≡◌, ◌↔◌, ◌+◌, ◌-◌, ◌^◌, ◌<◌, ◌≤◌, ℕ, IsTrue, IfOk, IsSome, length, [], ◌∷◌};
ghost use Rattle.pres_plan.specs.Plans.{due};
ghost use Rattle.pres_write.specs.Outcomes.{resolved};
ghost use Rattle.pres_ids.specs.Ids.{stamp_of};
ghost use Rattle.pres_retry.specs.Tables.{rows_of};
ghost use Rattle.pres_log.specs.declared.entry.Entry.TheVariants as entry;
ghost use Rattle.pres_server.specs.Batches.{IsPlain, Supersedes};
ghost use Rattle.pres_server.specs.InternalParts.{plan_in, comes_after, open_step};
ghost use Rattle.pres_server.specs.InternalSessions.{open_count};
ghost use Rattle.pres_server.specs.InternalIndex.{live_at, part_at, Ready};
ghost use Rattle.pres_server.specs.InternalFollows.{IsNextBy, IsEndNumberBy, IsNewerBy, MayComeOn, MayJoinOn};

use crate::index::Index;
use crate::turn::TurnTime;
use pres_base::{MOST_NUMBERS, MOST_SESSIONS};
use pres_log::Entry;
use pres_tree::Path;
use pres_wire::{Number, SessionId, Why};
use pres_write::{Basic, Moment, Op, Outcome, Puts, equal_writes};
use std::alloc::{AllocError, Global};

// Whether the entry isn't an end for a newer session.
fn is_plain(entry: &Entry) -> bool
    ensures { IsTrue result ↔ IsPlain entry.now }
{
    match entry {
        Entry::Ended { why, .. } => *why != Why::Superseded,
        _ => true,
    }
}

// Whether a newer session of the same client takes the place of the one that ends.
fn supersedes(ended: &Entry, opened: &Entry) -> bool
    ensures { IsTrue result ↔ Supersedes ended.now opened.now }
{
    let Entry::Ended { session, why, .. } = ended else {
        return false;
    };
    let Entry::Open { session: newer } = opened else {
        return false;
    };
    *why == Why::Superseded && session.client == newer.client
}

// How many sessions are open after the entry.
fn open_after(open_count: u64, entry: &Entry) -> u64
    requires { open_count < 2 ^ 54 }
    ensures { result ≡ open_step entry.now open_count }
{
    match entry {
        Entry::Open { .. } => open_count + 1,
        Entry::Ended { .. } => open_count.saturating_sub(1),
        _ => open_count,
    }
}

// Whether a number is left for the end of each open session.
fn leaves_room(number: u64, open_count: u64) -> bool
    requires number { number < 2 ^ 54 }
    requires open_count { open_count < 2 ^ 55 }
    ensures { IsTrue result ↔ (number + open_count ≤ 2 ^ 52 - 1) }
{
    number + open_count <= MOST_NUMBERS
}

impl Index {
    // Whether it is the next message of the session, which is open.
    fn comes_next(&self, session: &SessionId, q: Number) -> bool
        ensures { IsTrue result ↔ IsNextBy (live_at self.now session.now) session.now q }
    {
        match self.count(session) {
            Some(count) => q.get() == count.get() + 1,
            None => false,
        }
    }

    // Whether the session is newer than the last one of its client.
    fn is_newer(&self, session: &SessionId) -> bool
        ensures { result
            ≡ comes_after (part_at self.now session.now.client).last (stamp_of session.now) }
    {
        match self.places.last(&session.client) {
            Some(last) => last.is_earlier(&session.stamp()),
            None => true,
        }
    }

    // Whether the session may be opened.
    fn may_open(&self, session: &SessionId) -> bool
        ensures { (moment : ℕ) →
            IsTrue result ↔ MayComeOn self.now moment (entry.Open session.now) }
    {
        self.is_newer(session)
            && self.places.session(&session.client).is_none()
            && self.places.open_count() < MOST_SESSIONS
    }

    // Whether it is the client's next write, by the open session's next message.
    fn may_write(&self, session: &SessionId, q: Number, n: Number) -> bool
        ensures { IsTrue result ↔ (IsNextBy (live_at self.now session.now) session.now q
            × (n ≡ length (rows_of session.now.client self.now.retry) + 1)) }
    {
        self.comes_next(session, q) && n.get() == self.retry.last(&session.client).get() + 1
    }

    // Whether the operation has the outcome.
    fn comes_to(
        &self,
        alloc: Global,
        op: &Op,
        outcome: &Outcome,
        moment: Moment,
    ) -> Result<bool, AllocError>
        ensures { IfOk result (λ may. IsTrue may ↔
            (outcome.now ≡ resolved self.now.tree moment op.now)) }
    {
        let Ok(resolved) = op.resolve(alloc, &self.tree, moment) else {
            return Err(AllocError);
        };
        let may = outcome.equal(&resolved);
        drop(resolved);
        Ok(may)
    }

    // Whether the client's write was made, and comes again by the open session's next message.
    fn may_repeat(&self, session: &SessionId, q: Number, n: Number) -> bool
        ensures { (moment : ℕ) →
            IsTrue result ↔ MayComeOn self.now moment (entry.Again session.now q n) }
    {
        self.comes_next(session, q) && n.get() <= self.retry.last(&session.client).get()
    }

    // Whether the open session may leave the puts by its next message.
    fn may_leave(&self, session: &SessionId, q: Number, puts: &Puts) -> bool
        ensures { (moment : ℕ) →
            IsTrue result ↔ MayComeOn self.now moment (entry.Left session.now q puts.now) }
    {
        let Some(live) = self.places.session(&session.client) else {
            return false;
        };
        self.comes_next(session, q) && live.plan().may_update(puts)
    }

    // Whether the open session may take back what it left at the path, by its next message.
    fn may_cancel(&self, session: &SessionId, q: Number, path: &Path) -> bool
        ensures { (moment : ℕ) →
            IsTrue result ↔ MayComeOn self.now moment (entry.Cancelled session.now q path.now) }
    {
        let Some(live) = self.places.session(&session.client) else {
            return false;
        };
        self.comes_next(session, q) && live.plan().may_cancel(path)
    }

    // Whether the open session may listen to the path by its next message.
    fn may_listen(&self, session: &SessionId, q: Number, path: &Path) -> bool
        ensures { (moment : ℕ) →
            IsTrue result ↔ MayComeOn self.now moment (entry.On session.now q path.now) }
    {
        self.comes_next(session, q) && self.listeners.may_listen(session, path)
    }

    // Whether the end of the session has a number where the client said so.
    fn is_end_number(&self, session: &SessionId, q: Option<Number>, why: Why) -> bool
        ensures { IsTrue result
            ↔ IsEndNumberBy (live_at self.now session.now) session.now q why }
    {
        if why != Why::Bye {
            return q.is_none();
        }
        match q {
            Some(q) => self.comes_next(session, q),
            None => false,
        }
    }

    // Whether the writes are due at the end of the client's open session.
    fn are_due(
        &self,
        alloc: Global,
        session: &SessionId,
        rows: &[Basic],
        moment: Moment,
    ) -> Result<bool, AllocError>
        requires { IsSome (live_at self.now session.now) }
        ensures { IfOk result (λ may. IsTrue may ↔
            (rows.now ≡ due self.now.tree moment (plan_in (live_at self.now session.now)))) }
    {
        let Some(live) = self.places.session(&session.client) else {
            unreachable!()
        };
        let Ok(due) = live.plan().due_writes(alloc, &self.tree, moment) else {
            return Err(AllocError);
        };
        let may = equal_writes(rows, due.as_slice());
        drop(due);
        Ok(may)
    }

    // Whether the session may end, with these writes.
    fn may_end(
        &self,
        alloc: Global,
        session: &SessionId,
        q: Option<Number>,
        why: Why,
        rows: &[Basic],
        moment: Moment,
    ) -> Result<bool, AllocError>
        ensures { IfOk result (λ may. IsTrue may ↔
            MayComeOn self.now moment (entry.Ended session.now q why rows.now)) }
    {
        if !self.is_live(session) || !self.is_end_number(session, q, why) {
            return Ok(false);
        }
        self.are_due(alloc, session, rows, moment)
    }

    // Whether the entry may come.
    fn may_come(&self, alloc: Global, entry: &Entry, moment: Moment) -> Result<bool, AllocError>
        ensures { IfOk result (λ may. IsTrue may ↔ MayComeOn self.now moment entry.now) }
    {
        match entry {
            Entry::Open { session } => Ok(self.may_open(session)),
            Entry::Op {
                session,
                q,
                n,
                op,
                outcome,
            } => {
                if !self.may_write(session, *q, *n) {
                    return Ok(false);
                }
                self.comes_to(alloc, op, outcome, moment)
            }
            Entry::Again { session, q, n } => Ok(self.may_repeat(session, *q, *n)),
            Entry::Left { session, q, puts } => Ok(self.may_leave(session, *q, puts)),
            Entry::Cancelled { session, q, path } => Ok(self.may_cancel(session, *q, path)),
            Entry::Denied { session, q, .. } => Ok(self.comes_next(session, *q)),
            Entry::On { session, q, path } => Ok(self.may_listen(session, *q, path)),
            Entry::Off { session, q, .. } => Ok(self.comes_next(session, *q)),
            Entry::Ended {
                session,
                q,
                why,
                rows,
            } => self.may_end(alloc, session, *q, *why, rows.as_slice(), moment),
        }
    }

    // Whether the entry may come as a batch.
    fn may_come_alone(
        &self,
        alloc: Global,
        entry: &Entry,
        now: TurnTime,
    ) -> Result<bool, AllocError>
        requires { Ready self.now now }
        ensures { IfOk result (λ may. IsTrue may ↔ MayJoinOn self.now now (entry.now ∷ [])) }
    {
        let open_count = open_after(self.places.open_count(), entry);
        if !leaves_room(now.number + 1, open_count) || !is_plain(entry) {
            return Ok(false);
        }
        self.may_come(alloc, entry, now.moment)
    }

    // Whether the entry opens a session that is newer than its client's last one, and no more
    // than the most are open with it.
    fn opens_newer(&self, opened: &Entry) -> bool
        ensures { IsTrue result
            ↔ IsNewerBy (part_at self.now) (open_count self.now.places) opened.now }
    {
        match opened {
            Entry::Open { session } => {
                self.is_newer(session) && self.places.open_count() <= MOST_SESSIONS
            }
            _ => false,
        }
    }

    // Whether the end of a session and the opening of the next may come as a batch. The opening is
    // judged before the end is taken in.
    fn may_supersede(
        &self,
        alloc: Global,
        ended: &Entry,
        opened: &Entry,
        now: TurnTime,
    ) -> Result<bool, AllocError>
        requires { Ready self.now now }
        ensures { IfOk result (λ may. IsTrue may ↔
            MayJoinOn self.now now (ended.now ∷ opened.now ∷ [])) }
    {
        let open_count = open_after(open_after(self.places.open_count(), ended), opened);
        if !leaves_room(now.number + 2, open_count) || !supersedes(ended, opened) {
            return Ok(false);
        }
        if !self.opens_newer(opened) {
            return Ok(false);
        }
        self.may_come(alloc, ended, now.moment)
    }

    /// Whether the entries may come as a batch.
    pub(crate) fn may_join(
        &self,
        alloc: Global,
        entries: &[Entry],
        now: TurnTime,
    ) -> Result<bool, AllocError>
        requires { Ready self.now now }
        ensures { IfOk result (λ may. IsTrue may ↔ MayJoinOn self.now now entries.now) }
    {
        match entries {
            [entry] => self.may_come_alone(alloc, entry, now),
            [ended, opened] => self.may_supersede(alloc, ended, opened, now),
            _ => Ok(false),
        }
    }
}
