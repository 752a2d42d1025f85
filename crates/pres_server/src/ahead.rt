//! What an operation makes after batches of operations that wait.

ghost use Rattle.std.specs.Prelude.{◌≡◌, ◌+◌, ◌<◌, ◌≤◌, ◌^◌, length, IfOk, IfSome, IsTrue, Option};
ghost use Rattle.std.specs.Option.{option_map};
ghost use Rattle.pres_write.specs.Outcomes.{resolved};
ghost use Rattle.pres_retry.specs.Tables.{rows_of};
ghost use Rattle.pres_server.specs.Turns.{Decision};
ghost use Rattle.pres_server.specs.InternalParts.{LivePart, said_by};
ghost use Rattle.pres_server.specs.InternalIndex.{live_at, Ready};
ghost use Rattle.pres_server.specs.InternalGroups.{once, said_in, done_in, written_in, said_of, done_of, tree_from, meets, some_meet, further, entry_by, IsOrdered, IsEffectAfter};

use crate::index::Index;
use crate::turn::{TurnTime, limits};
use pres_log::{Batch, Entry};
use pres_tree::{Path, Tree};
use pres_wire::{ClientId, Number, SessionId};
use pres_write::{Basic, Moment, Op, Outcome, apply};
use std::alloc::Global;

/// What an operation makes that may wait with others.
#[derive(Drop)]
pub(crate) enum OpEffect {
    /// It is done, with the outcome.
    Done(Outcome),
    /// It was done before.
    Again,
}

impl OpEffect {
    /// The entry that the operation makes.
    pub(crate) fn entry(self, session: SessionId, q: Number, n: Number, op: Op) -> Entry
        ensures { result ≡ entry_by self session q n op }
    {
        match self {
            OpEffect::Done(outcome) => Entry::Op {
                session,
                q,
                n,
                op,
                outcome,
            },
            OpEffect::Again => {
                drop(op);
                Entry::Again { session, q, n }
            }
        }
    }
}

/// What a write of a client is, by the writes of it that are done.
#[derive(Clone, Copy)]
pub(crate) enum WriteOrder {
    /// The next one.
    New,
    /// One that was done before.
    Again,
    /// None that may come.
    Gap,
}

// One where they are the same client.
fn once(client: &ClientId, other: &ClientId) -> u64
    ensures count { result ≡ once client.now other.now }
    ensures few { result ≤ 1 }
{
    if client == other { 1 } else { 0 }
}

// How many messages of the client the entry of an operation answers.
fn said_in(entries: &[Entry], client: &ClientId) -> u64
    ensures count { result ≡ said_in client.now entries.now }
    ensures few { result ≤ 1 }
{
    match entries {
        [Entry::Op { session, .. }] => once(&session.client, client),
        [Entry::Again { session, .. }] => once(&session.client, client),
        _ => 0,
    }
}

// How many new writes of the client it does.
fn done_in(entries: &[Entry], client: &ClientId) -> u64
    ensures count { result ≡ done_in client.now entries.now }
    ensures few { result ≤ 1 }
{
    match entries {
        [Entry::Op { session, .. }] => once(&session.client, client),
        _ => 0,
    }
}

// What it writes.
fn written_in(entries: &[Entry]) -> &[Basic]
    ensures { result.now ≡ written_in entries.now }
{
    match entries {
        [entry] => entry.writes(),
        _ => &[],
    }
}

/// How many messages of the client the batches answer.
fn said_of(batches: &[Batch], client: &ClientId) -> u64
    ensures count { result ≡ said_of client.now batches.now }
    ensures few { result ≤ length batches.now }
{
    let Some((first, later)) = batches.split_first() else {
        return 0;
    };
    said_in(first.entries(), client) + said_of(later, client)
}

/// How many new writes of the client they do.
fn done_of(batches: &[Batch], client: &ClientId) -> u64
    ensures count { result ≡ done_of client.now batches.now }
    ensures few { result ≤ length batches.now }
{
    let Some((first, later)) = batches.split_first() else {
        return 0;
    };
    done_in(first.entries(), client) + done_of(later, client)
}

// Whether one of them writes at the path, above it or below it.
fn meets(path: &Path, writes: &[Basic]) -> bool
    ensures { result ≡ meets path.now writes.now }
{
    let Some((first, later)) = writes.split_first() else {
        return false;
    };
    first.path().is_prefix_of(path) || path.is_prefix_of(first.path()) || meets(path, later)
}

// The same of what the batches write.
fn some_meet(path: &Path, batches: &[Batch]) -> bool
    ensures { result ≡ some_meet path.now batches.now }
{
    let Some((first, later)) = batches.split_first() else {
        return false;
    };
    meets(path, written_in(first.entries())) || some_meet(path, later)
}

// The tree after what the batches write. Where memory is refused, after a part of it.
fn write_all(alloc: Global, tree: &mut Tree, batches: &[Batch]) -> bool
    ensures { IsTrue result → tree.new ≡ tree_from tree.old batches.now }
{
    let Some((first, later)) = batches.split_first() else {
        return true;
    };
    let Ok(()) = apply(alloc, tree, written_in(first.entries())) else {
        return false;
    };
    write_all(alloc, tree, later)
}

impl Index {
    // The operation's outcome on the tree after the batches, none where memory is refused. It
    // copies what stands at its path, and no more of the tree.
    fn outcome_after(
        &self,
        alloc: Global,
        batches: &[Batch],
        op: &Op,
        moment: Moment,
    ) -> Option<Outcome>
        ensures { IfSome result (λ outcome.
            outcome ≡ resolved (tree_from self.now.tree batches.now) moment op.now) }
    {
        // it ensures that the tree's rows are in order
        let _ = self.tree.is_empty();
        let path = op.path();
        if !some_meet(path, batches) {
            return match op.resolve(alloc, &self.tree, moment) {
                Ok(outcome) => Some(outcome),
                Err(_) => None,
            };
        }
        let Ok(held) = self.tree.copy_at(alloc, path) else {
            return None;
        };
        let mut there = Tree::empty();
        let Ok(()) = there.set(alloc, path, Some(held)) else {
            return None;
        };
        if !write_all(alloc, &mut there, batches) {
            return None;
        }
        match op.resolve(alloc, &there, moment) {
            Ok(outcome) => Some(outcome),
            Err(_) => None,
        }
    }

    // Whether it is the open session's next message, once this many more are answered.
    fn is_next_after(&self, session: &SessionId, q: Number, said: u64) -> bool
        requires { said < 2 ^ 32 }
        ensures { IsTrue result → (live : Option LivePart)
            → live ≡ option_map (further said) (live_at self.now session.now)
            → (accepted : Decision) → said_by live session.now q accepted ≡ accepted }
    {
        let Some(live) = self.places.session(&session.client) else {
            return false;
        };
        session.stamp() == live.stamp() && q.get() == live.count().get() + said + 1
    }

    // What write `n` of the client is, once this many more are done.
    fn order_after(&self, client: &ClientId, n: Number, done: u64) -> WriteOrder
        requires { done < 2 ^ 32 }
        ensures { IsOrdered result n done (rows_of client.now self.now.retry) }
    {
        let rows = self.retry.last(client).get() + done;
        if n.get() <= rows {
            return WriteOrder::Again;
        }
        if n.get() == rows + 1 {
            return WriteOrder::New;
        }
        WriteOrder::Gap
    }

    /// What the operation makes after the batches, of which each is of one operation: none where it
    /// isn't its session's next message there, or would be refused, or where memory is refused.
    pub(crate) fn effect_after(
        &self,
        alloc: Global,
        batches: &[Batch],
        session: &SessionId,
        q: Number,
        n: Number,
        op: &Op,
        now: TurnTime,
    ) -> Option<OpEffect>
        requires ready { Ready self.now now }
        requires few { length batches.now ≤ 256 }
        ensures { IfSome result
            (IsEffectAfter self.now batches.now session.now q n op.now now) }
    {
        if !self.is_next_after(session, q, said_of(batches, &session.client)) {
            return None;
        }
        let Ok(()) = limits(now.number + 1, self.places.open_count()) else {
            return None;
        };
        match self.order_after(&session.client, n, done_of(batches, &session.client)) {
            WriteOrder::New => {
                let outcome = self.outcome_after(alloc, batches, op, now.moment)?;
                Some(OpEffect::Done(outcome))
            }
            WriteOrder::Again => Some(OpEffect::Again),
            WriteOrder::Gap => None,
        }
    }
}
