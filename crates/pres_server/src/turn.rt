//! What an input asks for.

ghost use Rattle.std.specs.Prelude.{◌≡◌, ◌<◌, ◌∷◌, ◌^◌, [], IfOk, IfErr, IfSome, is_some, Option, Some, None, option_copied};
ghost use Rattle.pres_ids.specs.Ids.{stamp_of};
ghost use Rattle.pres_ids.specs.declared.id.SessionId.{SessionId};
ghost use Rattle.pres_wire.specs.declared.up.Up.TheVariants as up;
ghost use Rattle.pres_log.specs.declared.fault.Fault.TheVariants.{Busy};
ghost use Rattle.pres_server.specs.Turns.{Decision, makes, Makes, Decides};
ghost use Rattle.pres_server.specs.InternalParts.{said_by, ends_live, ends_of, end_by, leaves_by, listens_by, is_live, within, checked, said, session_with};
ghost use Rattle.pres_server.specs.declared.input.Input.TheVariants as input;
ghost use Rattle.pres_ids.specs.declared.id.Why.TheVariants as why;
ghost use Rattle.pres_write.specs.Unconditionals.{puts_of};
ghost use Rattle.pres_write.specs.Outcomes.{resolved};
ghost use Rattle.pres_log.specs.declared.entry.Entry.TheVariants as entry;
ghost use Rattle.pres_server.specs.InternalSessions.{open_count, live_part};
ghost use Rattle.pres_server.specs.InternalIndex.{live_at, part_at, paths_at, limited_on, write_on, decision_on, DecidesOn, Ready};

use crate::index::Index;
use crate::input::Input;
use pres_base::{MOST_NUMBERS, MOST_SESSIONS};
use pres_log::{Entry, Fault};
use pres_plan::Plan;
use pres_retry::Verdict;
use pres_session::Live;
use pres_tree::Path;
use pres_wire::{ClientId, Limit, Number, SessionId, Up, Why};
use pres_write::{Items, Moment, Op, Puts, Unconditional};
use std::alloc::Global;

/// What a turn does.
#[derive(Drop)]
pub(crate) enum TurnEffect {
    /// Nothing. A message that was accepted before is one of this session.
    Quiet(Option<SessionId>),
    /// It makes these entries.
    Makes(Items<Entry>),
}

/// When a turn happens: after this many entries, at the moment.
#[derive(Clone, Copy)]
pub(crate) struct TurnTime {
    pub(crate) number: u64,
    pub(crate) moment: Moment,
}

// Spent where no number would be left for the ends, then Full.
pub(crate) fn limits(number: u64, open_count: u64) -> Result<(), Fault>
    requires number { number < 2 ^ 54 }
    requires open_count { open_count < 2 ^ 54 }
    ensures { (decision : Decision) → within number open_count decision ≡ checked result decision }
{
    if number + open_count > MOST_NUMBERS {
        return Err(Fault::Spent);
    }
    if open_count > MOST_SESSIONS {
        return Err(Fault::Full);
    }
    Ok(())
}

// One entry.
fn one(alloc: Global, entry: Entry) -> Result<Items<Entry>, Fault>
    ensures ok { IfOk result (λ made. made ≡ entry ∷ []) }
    ensures err { IfErr result (λ e. e ≡ Busy) }
{
    Ok(Items::one(alloc, entry)?)
}

// Two entries.
fn pair(alloc: Global, first: Entry, second: Entry) -> Result<Items<Entry>, Fault>
    ensures ok { IfOk result (λ made. made ≡ first ∷ second ∷ []) }
    ensures err { IfErr result (λ e. e ≡ Busy) }
{
    let entries = Vec::from_array(alloc, [first, second])?;
    Ok(Items::of(entries))
}

// The step that makes the entries.
fn effect_of(entries: Result<Items<Entry>, Fault>) -> Result<TurnEffect, Fault>
    ensures { (from : Option SessionId) (decision : Decision)
        → Makes decision entries → Decides from decision result }
{
    match entries {
        Ok(entries) => Ok(TurnEffect::Makes(entries)),
        Err(fault) => Err(fault),
    }
}

// The entry of puts that are left, or of their denial.
fn left_entry(live: &Live<Plan>, session: SessionId, q: Number, puts: Puts) -> Entry
    ensures { makes (result ∷ []) ≡
        leaves_by (Some (live_part live.now)) (entry.Left session q puts) session q }
{
    if live.plan().may_update(&puts) {
        return Entry::Left { session, q, puts };
    }
    let why = Limit::Plan;
    Entry::Denied { session, q, why }
}

// The entry of a cancel, or of its denial.
fn cancel_entry(live: &Live<Plan>, session: SessionId, q: Number, path: Path) -> Entry
    ensures { makes (result ∷ []) ≡
        leaves_by (Some (live_part live.now)) (entry.Cancelled session q path) session q }
{
    if live.plan().may_cancel(&path) {
        return Entry::Cancelled { session, q, path };
    }
    let why = Limit::Plan;
    Entry::Denied { session, q, why }
}

impl Index {
    // The open session that this is.
    fn open_session(&self, session: &SessionId) -> Option<&Live<Plan>>
        ensures is { IfSome (option_copied result)
            (λ live. live_at self.now session.now ≡ Some (live_part live)) }
        ensures live { is_some result
            ≡ is_live (live_at self.now session.now) (stamp_of session.now) }
    {
        let live = self.places.session(&session.client)?;
        if session.stamp() != live.stamp() {
            return None;
        }
        Some(live)
    }

    // The open session, where the message is its next one, and none where it was accepted before.
    fn next_of(&self, session: &SessionId, q: Number) -> Result<Option<&Live<Plan>>, Fault>
        ensures is { IfOk result (λ next. IfSome (option_copied next)
            (λ live. live_at self.now session.now ≡ Some (live_part live))) }
        ensures decides { (accepted : Decision)
            → said_by (live_at self.now session.now) session.now q accepted ≡ said result accepted }
    {
        let Some(live) = self.open_session(session) else {
            return Err(Fault::Session);
        };
        if q.get() <= live.count().get() {
            return Ok(None);
        }
        if live.count().next() == Some(q) {
            Ok(Some(live))
        } else {
            Err(Fault::Order)
        }
    }

    /// Whether it is its client's open session.
    pub(crate) fn is_live(&self, session: &SessionId) -> bool
        ensures { result ≡ is_live (live_at self.now session.now) (stamp_of session.now) }
    {
        self.open_session(session).is_some()
    }

    // The entry of the end of an open session, with what is due.
    fn end_entry(
        &self,
        alloc: Global,
        live: &Live<Plan>,
        session: SessionId,
        q: Option<Number>,
        why: Why,
        now: TurnTime,
    ) -> Result<Entry, Fault>
        ensures ok { IfOk result (λ e. e ≡
            end_by (Some (live_part live.now)) self.now.tree now.moment q why session) }
        ensures err { IfErr result (λ e. e ≡ Busy) }
    {
        let Ok(rows) = live.plan().due_writes(alloc, &self.tree, now.moment) else {
            return Err(Fault::Busy);
        };
        Ok(Entry::Ended {
            session,
            q,
            why,
            rows,
        })
    }

    // The end of an open session.
    fn end_entries(
        &self,
        alloc: Global,
        live: &Live<Plan>,
        session: SessionId,
        q: Option<Number>,
        why: Why,
        now: TurnTime,
    ) -> Result<Items<Entry>, Fault>
        requires ready { Ready self.now now }
        requires open { 0 < open_count self.now.places }
        ensures { Makes (limited_on self.now now.number (makes (end_by (Some (live_part live.now))
            self.now.tree now.moment q why session ∷ []))) result }
    {
        limits(now.number + 1, self.places.open_count() - 1)?;
        let ended = self.end_entry(alloc, live, session, q, why, now)?;
        one(alloc, ended)
    }

    // The opening of a session, after the end of the client's open one.
    fn superseding_entries(
        &self,
        alloc: Global,
        session: SessionId,
        live: &Live<Plan>,
        now: TurnTime,
    ) -> Result<Items<Entry>, Fault>
        requires ready { Ready self.now now }
        requires open { 0 < open_count self.now.places }
        ensures { Makes (limited_on self.now now.number (makes
            (end_by (Some (live_part live.now)) self.now.tree now.moment None why.Superseded
            (session_with session.client live.now.stamp) ∷ entry.Open session ∷ []))) result }
    {
        limits(now.number + 2, self.places.open_count())?;
        let old = SessionId::of(session.client.copy(alloc)?, live.stamp());
        let ended = self.end_entry(alloc, live, old, None, Why::Superseded, now)?;
        pair(alloc, ended, Entry::Open { session })
    }

    // What a Hello makes.
    fn hello_entries(
        &self,
        alloc: Global,
        session: SessionId,
        now: TurnTime,
    ) -> Result<Items<Entry>, Fault>
        requires { Ready self.now now }
        ensures { Makes (decision_on self.now now (input.Up (up.Hello session))) result }
    {
        if let Some(last) = self.places.last(&session.client) {
            if !last.is_earlier(&session.stamp()) {
                return Err(Fault::Old(last));
            }
        }
        if let Some(live) = self.places.session(&session.client) {
            return self.superseding_entries(alloc, session, live, now);
        }
        limits(now.number + 1, self.places.open_count() + 1)?;
        one(alloc, Entry::Open { session })
    }

    // The entry of a write that is done.
    fn op_entry(
        &self,
        alloc: Global,
        session: SessionId,
        q: Number,
        n: Number,
        op: Op,
        moment: Moment,
    ) -> Result<Entry, Fault>
        ensures ok { IfOk result (λ made.
            made ≡ entry.Op session q n op (resolved self.now.tree moment op)) }
        ensures err { IfErr result (λ e. e ≡ Busy) }
    {
        match op.resolve(alloc, &self.tree, moment) {
            Ok(outcome) => Ok(Entry::Op {
                session,
                q,
                n,
                op,
                outcome,
            }),
            Err(_) => {
                drop(op);
                Err(Fault::Busy)
            }
        }
    }

    // What a write makes that wasn't answered before.
    fn new_write_entries(
        &self,
        alloc: Global,
        session: SessionId,
        q: Number,
        n: Number,
        op: Op,
        now: TurnTime,
    ) -> Result<Items<Entry>, Fault>
        requires { Ready self.now now }
        ensures { Makes (limited_on self.now now.number (makes
            (entry.Op session q n op (resolved self.now.tree now.moment op) ∷ []))) result }
    {
        if let Err(fault) = limits(now.number + 1, self.places.open_count()) {
            drop(op);
            return Err(fault);
        }
        let entry = self.op_entry(alloc, session, q, n, op, now.moment)?;
        one(alloc, entry)
    }

    // What an answered write makes that is sent again.
    fn repeated_write_entries(
        &self,
        alloc: Global,
        session: SessionId,
        q: Number,
        n: Number,
        now: TurnTime,
    ) -> Result<Items<Entry>, Fault>
        requires { Ready self.now now }
        ensures { Makes (limited_on self.now now.number (makes
            (entry.Again session q n ∷ []))) result }
    {
        limits(now.number + 1, self.places.open_count())?;
        one(alloc, Entry::Again { session, q, n })
    }

    // What an operation makes, which came as the open session's next message.
    fn op_entries(
        &self,
        alloc: Global,
        session: SessionId,
        q: Number,
        n: Number,
        op: Op,
        now: TurnTime,
    ) -> Result<Items<Entry>, Fault>
        requires { Ready self.now now }
        ensures { Makes (limited_on self.now now.number
            (write_on self.now now.moment session q n op)) result }
    {
        match self.retry.find(&session.client, n) {
            Verdict::New => self.new_write_entries(alloc, session, q, n, op, now),
            Verdict::Again(_) => {
                drop(op);
                self.repeated_write_entries(alloc, session, q, n, now)
            }
            Verdict::Gap => {
                drop(op);
                Err(Fault::Order)
            }
        }
    }

    // What an Op asks for.
    fn decide_op(
        &self,
        alloc: Global,
        session: SessionId,
        q: Number,
        n: Number,
        op: Op,
        now: TurnTime,
    ) -> Result<TurnEffect, Fault>
        requires { Ready self.now now }
        ensures { DecidesOn self.now now (input.Up (up.Op session q n op)) result }
    {
        match self.next_of(&session, q) {
            Ok(Some(_)) => effect_of(self.op_entries(alloc, session, q, n, op, now)),
            Ok(None) => {
                drop(op);
                Ok(TurnEffect::Quiet(Some(session)))
            }
            Err(fault) => {
                drop(op);
                Err(fault)
            }
        }
    }

    // What a Bye asks for.
    fn decide_bye(
        &self,
        alloc: Global,
        session: SessionId,
        q: Number,
        now: TurnTime,
    ) -> Result<TurnEffect, Fault>
        requires { Ready self.now now }
        ensures { DecidesOn self.now now (input.Up (up.Bye session q)) result }
    {
        let Some(live) = self.next_of(&session, q)? else {
            return Ok(TurnEffect::Quiet(Some(session)));
        };
        effect_of(self.end_entries(alloc, live, session, Some(q), Why::Bye, now))
    }

    // What an operation makes that is left by the open session's next message.
    fn left_entries(
        &self,
        alloc: Global,
        live: &Live<Plan>,
        session: SessionId,
        q: Number,
        op: &Unconditional,
        now: TurnTime,
    ) -> Result<Items<Entry>, Fault>
        requires { Ready self.now now }
        ensures { Makes (limited_on self.now now.number (leaves_by (Some (live_part live.now))
            (entry.Left session q (puts_of op.now)) session q)) result }
    {
        limits(now.number + 1, self.places.open_count())?;
        let puts = op.puts(alloc)?;
        let entry = left_entry(live, session, q, puts);
        one(alloc, entry)
    }

    // What a Left asks for.
    fn decide_left(
        &self,
        alloc: Global,
        session: SessionId,
        q: Number,
        op: &Unconditional,
        now: TurnTime,
    ) -> Result<TurnEffect, Fault>
        requires { Ready self.now now }
        ensures { DecidesOn self.now now (input.Up (up.Left session q op.now)) result }
    {
        let Some(live) = self.next_of(&session, q)? else {
            return Ok(TurnEffect::Quiet(Some(session)));
        };
        effect_of(self.left_entries(alloc, live, session, q, op, now))
    }

    // What a cancel makes that is the open session's next message.
    fn cancel_entries(
        &self,
        alloc: Global,
        live: &Live<Plan>,
        session: SessionId,
        q: Number,
        path: Path,
        now: TurnTime,
    ) -> Result<Items<Entry>, Fault>
        requires { Ready self.now now }
        ensures { Makes (limited_on self.now now.number (leaves_by (Some (live_part live.now))
            (entry.Cancelled session q path) session q)) result }
    {
        limits(now.number + 1, self.places.open_count())?;
        let entry = cancel_entry(live, session, q, path);
        one(alloc, entry)
    }

    // What a Cancel asks for.
    fn decide_cancel(
        &self,
        alloc: Global,
        session: SessionId,
        q: Number,
        path: Path,
        now: TurnTime,
    ) -> Result<TurnEffect, Fault>
        requires { Ready self.now now }
        ensures { DecidesOn self.now now (input.Up (up.Cancel session q path)) result }
    {
        let Some(live) = self.next_of(&session, q)? else {
            return Ok(TurnEffect::Quiet(Some(session)));
        };
        effect_of(self.cancel_entries(alloc, live, session, q, path, now))
    }

    // The entry of a session that listens, or of its denial.
    fn on_entry(&self, session: SessionId, q: Number, path: Path) -> Entry
        ensures { makes (result ∷ []) ≡ listens_by (paths_at self.now session) session q path }
    {
        if self.listeners.may_listen(&session, &path) {
            return Entry::On { session, q, path };
        }
        let why = Limit::Listens;
        Entry::Denied { session, q, why }
    }

    // What an On makes that is the open session's next message.
    fn on_entries(
        &self,
        alloc: Global,
        session: SessionId,
        q: Number,
        path: Path,
        now: TurnTime,
    ) -> Result<Items<Entry>, Fault>
        requires { Ready self.now now }
        ensures { Makes (limited_on self.now now.number
            (listens_by (paths_at self.now session) session q path)) result }
    {
        limits(now.number + 1, self.places.open_count())?;
        let entry = self.on_entry(session, q, path);
        one(alloc, entry)
    }

    // What an On asks for.
    fn decide_on(
        &self,
        alloc: Global,
        session: SessionId,
        q: Number,
        path: Path,
        now: TurnTime,
    ) -> Result<TurnEffect, Fault>
        requires { Ready self.now now }
        ensures { DecidesOn self.now now (input.Up (up.On session q path)) result }
    {
        if self.next_of(&session, q)?.is_none() {
            return Ok(TurnEffect::Quiet(Some(session)));
        }
        effect_of(self.on_entries(alloc, session, q, path, now))
    }

    // What an Off makes that is the open session's next message.
    fn off_entries(
        &self,
        alloc: Global,
        session: SessionId,
        q: Number,
        path: Path,
        now: TurnTime,
    ) -> Result<Items<Entry>, Fault>
        requires { Ready self.now now }
        ensures { Makes (limited_on self.now now.number
            (makes (entry.Off session q path ∷ []))) result }
    {
        limits(now.number + 1, self.places.open_count())?;
        one(alloc, Entry::Off { session, q, path })
    }

    // What an Off asks for.
    fn decide_off(
        &self,
        alloc: Global,
        session: SessionId,
        q: Number,
        path: Path,
        now: TurnTime,
    ) -> Result<TurnEffect, Fault>
        requires { Ready self.now now }
        ensures { DecidesOn self.now now (input.Up (up.Off session q path)) result }
    {
        if self.next_of(&session, q)?.is_none() {
            return Ok(TurnEffect::Quiet(Some(session)));
        }
        effect_of(self.off_entries(alloc, session, q, path, now))
    }

    // What a Beat asks for: nothing, but its client counts as heard of.
    fn decide_beat(&self, session: SessionId, now: TurnTime) -> Result<TurnEffect, Fault>
        ensures { DecidesOn self.now now (input.Up (up.Beat session)) result }
    {
        if self.is_live(&session) {
            return Ok(TurnEffect::Quiet(Some(session)));
        }
        Err(Fault::Session)
    }

    // What a message asks for.
    fn decide_message(&self, alloc: Global, up: Up, now: TurnTime) -> Result<TurnEffect, Fault>
        requires { Ready self.now now }
        ensures { DecidesOn self.now now (input.Up up) result }
    {
        match up {
            Up::Hello { session } => effect_of(self.hello_entries(alloc, session, now)),
            Up::Op { session, q, n, op } => self.decide_op(alloc, session, q, n, op, now),
            Up::Left { session, q, op } => {
                let step = self.decide_left(alloc, session, q, &op, now);
                drop(op);
                step
            }
            Up::Cancel { session, q, path } => self.decide_cancel(alloc, session, q, path, now),
            Up::Bye { session, q } => self.decide_bye(alloc, session, q, now),
            Up::Beat { session } => self.decide_beat(session, now),
            Up::On { session, q, path } => self.decide_on(alloc, session, q, path, now),
            Up::Off { session, q, path } => self.decide_off(alloc, session, q, path, now),
        }
    }

    // The end of the session, where it is open.
    fn decide_lost(
        &self,
        alloc: Global,
        session: SessionId,
        why: Why,
        now: TurnTime,
    ) -> Result<TurnEffect, Fault>
        requires { Ready self.now now }
        ensures { Decides None (limited_on self.now now.number
            (ends_live (live_at self.now session) self.now.tree now.moment why session)) result }
    {
        let Some(live) = self.open_session(&session) else {
            return Ok(TurnEffect::Quiet(None));
        };
        effect_of(self.end_entries(alloc, live, session, None, why, now))
    }

    // The end of the client's open session, where it has one.
    fn decide_end(
        &self,
        alloc: Global,
        client: &ClientId,
        why: Why,
        now: TurnTime,
    ) -> Result<TurnEffect, Fault>
        requires { Ready self.now now }
        ensures { Decides None (limited_on self.now now.number (ends_of
            (part_at self.now client.now).live self.now.tree now.moment why client.now)) result }
    {
        let Some(live) = self.places.session(client) else {
            return Ok(TurnEffect::Quiet(None));
        };
        limits(now.number + 1, self.places.open_count() - 1)?;
        let session = SessionId::of(client.copy(alloc)?, live.stamp());
        let ended = self.end_entry(alloc, live, session, None, why, now)?;
        effect_of(one(alloc, ended))
    }

    // The end of the first session whose client is silent for longer than its lease.
    fn decide_tick(&self, alloc: Global, now: TurnTime) -> Result<TurnEffect, Fault>
        requires { Ready self.now now }
        ensures { DecidesOn self.now now input.Tick result }
    {
        match self.places.late(now.moment) {
            Some(client) => self.decide_end(alloc, client, Why::Lease, now),
            None => Ok(TurnEffect::Quiet(None)),
        }
    }

    /// What the input asks for. Busy is the last of its refusals.
    pub(crate) fn decide(
        &self,
        alloc: Global,
        input: Input,
        now: TurnTime,
    ) -> Result<TurnEffect, Fault>
        requires { Ready self.now now }
        ensures { DecidesOn self.now now input result }
    {
        match input {
            Input::Up(up) => self.decide_message(alloc, up, now),
            Input::Lost(session) => self.decide_lost(alloc, session, Why::Lost, now),
            Input::Slow(session) => self.decide_lost(alloc, session, Why::Slow, now),
            Input::Restart(client) => self.decide_end(alloc, &client, Why::Restart, now),
            Input::Tick => self.decide_tick(alloc, now),
        }
    }
}
