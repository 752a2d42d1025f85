//! How the index takes in a batch without its answers: all of it or, where memory is refused, none.

ghost use Rattle.std.specs.Prelude.{◌≡◌, ◌≤◌, ◌∷◌, [], length, OnOk, OnErr, IfOk};
ghost use Rattle.std.specs.List.{list_any};
ghost use Rattle.pres_write.specs.Basics.{applied};
ghost use Rattle.pres_fan.specs.Listeners.{touched, most_paths, paths_of, with_listener};
ghost use Rattle.pres_retry.specs.Tables.{Table};
ghost use Rattle.pres_log.specs.Logs.{writes_of};
ghost use Rattle.pres_log.specs.declared.entry.Entry.TheVariants as entry;
ghost use Rattle.pres_server.specs.Batches.{Supersedes};
ghost use Rattle.pres_server.specs.InternalPushes.{MayPushAll};
ghost use Rattle.pres_server.specs.InternalIndex.{Carries, StepsAt, MayTake, retry_after, session_at};
ghost use Rattle.pres_server.specs.InternalFollows.{MayComeTogetherBy};
ghost use Rattle.pres_server.specs.Sums.{Sum, part_in, paths_in, sum_after, sum_after_all};
ghost use Rattle.pres_server.specs.InternalSums.{Agrees, MayTakeFrom};
ghost use Rattle.pres_server.specs.InternalGrowth.{puts_by, MayStand, IsAlike, MayKeep, FindsOpen, HasPlace, IsSilent};

use crate::index::{Index, LogPosition};
use crate::push::count_all;
use crate::reopen::Reopen;
use pres_fan::FanFault;
use pres_log::Entry;
use pres_tree::{Path, Scalar, Tree};
use pres_wire::{Number, SessionId};
use pres_write::Basic;
use std::alloc::{AllocError, Global};

// Whether the write puts something at the path, above it or below it.
fn puts_by(path: &Path, write: &Basic) -> bool
    ensures { result ≡ puts_by path.now write.now }
{
    let Some(value) = write.value() else {
        return false;
    };
    (write.path().is_prefix_of(path) || path.is_prefix_of(write.path())) && !value.is_empty()
}

// Whether one of the writes puts something at the path, above it or below it.
fn any_puts_by(path: &Path, writes: &[Basic]) -> bool
    ensures { result ≡ list_any (puts_by path.now) writes.now }
{
    writes.iter().any(|write| puts_by(path, write))
}

// What stands in for a write while the later ones are carried out: its value or, where one of them
// puts something in the place of what it removes, a leaf. None where it may be the last of them.
fn stand_in(alloc: Global, write: &Basic, later: &[Basic]) -> Result<Option<Tree>, AllocError>
    ensures { IfOk result (MayStand write.now later.now) }
{
    // it ensures that the write fits
    let path = write.path();
    if let Some(value) = write.value() {
        return Ok(Some(value.copy(alloc)?));
    }
    // it ensures that the path is one
    let _ = path.keys();
    if any_puts_by(path, later) {
        return Ok(Some(Tree::scalar(Scalar::Bool(true))));
    }
    Ok(None)
}

impl Index {
    // Keeps what entry number `z` answers to its client's write, where it answers one.
    fn keep_answer(&mut self, alloc: Global, entry: &Entry, z: Number) -> Result<(), Reopen>
        requires { MayKeep self.old entry.now }
        ensures kept { OnOk result (self.new ≡ record self.old
            { retry = retry_after z entry.now self.old.retry }) }
        ensures unchanged { OnErr result (self.new ≡ self.old) }
    {
        match entry {
            Entry::Op {
                session,
                n,
                outcome,
                ..
            } => self.keep(alloc, &session.client, *n, z, outcome),
            _ => Ok(()),
        }
    }

    // Carries out the writes, and keeps what entry number `z` answers: both or, where memory is refused,
    // neither. A put is taken back where what comes after it is refused; what may be removed last
    // is removed once all else is done.
    fn write_all(
        &mut self,
        alloc: Global,
        writes: &[Basic],
        entry: &Entry,
        z: Number,
    ) -> Result<(), Reopen>
        requires { MayKeep self.old entry.now }
        ensures written { OnOk result (self.new ≡ record self.old {
          retry = retry_after z entry.now self.old.retry;
          tree = applied self.old.tree writes.now;
        }) }
        ensures unchanged { OnErr result (self.new ≡ self.old) }
    {
        // it ensures that the tree is a value
        let _ = self.tree.is_empty();
        let Some((write, later)) = writes.split_first() else {
            return self.keep_answer(alloc, entry, z);
        };
        let path = write.path();
        let Some(value) = stand_in(alloc, write, later)? else {
            self.write_all(alloc, later, entry, z)?;
            self.tree.remove(path);
            return Ok(());
        };
        let Ok((depth, replaced)) = self.tree.replace(alloc, path, value) else {
            return Err(Reopen);
        };
        if let Err(refused) = self.write_all(alloc, later, entry, z) {
            self.tree.put_back(path, depth, replaced);
            return Err(refused);
        }
        drop(replaced);
        Ok(())
    }

    // Carries out the writes of entry number `z`, keeps its answer, and counts the Pushes.
    fn carry(&mut self, alloc: Global, entry: &Entry, z: Number) -> Result<(), Reopen>
        requires pushes { MayPushAll (session_at self.old)
            (touched (writes_of entry.now) self.old.listeners) }
        requires keeps { MayKeep self.old entry.now }
        ensures carried { OnOk result (Carries (writes_of entry.now) (record self.old
            { retry = retry_after z entry.now self.old.retry }) self.new) }
        ensures unchanged { OnErr result (self.new ≡ self.old) }
    {
        let Ok(touched) = self.listeners.touched(alloc, entry.writes()) else {
            return Err(Reopen);
        };
        self.write_all(alloc, entry.writes(), entry, z)?;
        count_all(&mut self.places, touched);
        Ok(())
    }

    // Makes room for the last stamp of the session that the entry ends, where it ends one.
    fn make_room(&mut self, alloc: Global, entry: &Entry) -> Result<(), Reopen>
        requires { FindsOpen self.old entry.now }
        ensures alike { IsAlike self.old self.new }
        ensures room { OnOk result (HasPlace self.new entry.now) }
    {
        match entry {
            Entry::Ended { session, .. } => Ok(self.places.make_room(alloc, &session.client)?),
            _ => Ok(()),
        }
    }

    // The session listens to the path by its next message.
    fn listen_more(&mut self, alloc: Global, session: &SessionId, path: &Path) -> Result<(), Reopen>
        requires { length (paths_of session.now (with_listener session.now path.now
            self.old.listeners)) ≤ most_paths }
        ensures listens { OnOk result (self.new ≡ record self.old
            { listeners = with_listener session.now path.now self.old.listeners }) }
        ensures unchanged { OnErr result (self.new ≡ self.old) }
    {
        let path = path.copy(alloc)?;
        match self.listeners.on(alloc, session, path) {
            Ok(()) => Ok(()),
            Err(FanFault::Memory) => Err(Reopen),
            Err(FanFault::Full) => unreachable!(),
        }
    }

    // Takes in an entry whose writes were carried out, whose answer is kept and for which room was
    // made. Memory is refused only to an entry that had nothing of these.
    fn settle(&mut self, alloc: Global, entry: &Entry, made: LogPosition) -> Result<(), Reopen>
        requires may { (before : Table) × MayTake (record self.old { retry = before }) entry.now }
        requires room { HasPlace self.old entry.now }
        ensures steps { (before : Table)
            → self.old.retry ≡ retry_after made.number entry.now before
            → OnOk result (StepsAt made (record self.old { retry = before }) self.new entry.now) }
        ensures silent { OnErr result (IsSilent entry.now) }
        ensures alike { OnErr result (IsAlike self.old self.new) }
    {
        match entry {
            Entry::Open { session } => self.places.open(alloc, session, made.moment)?,
            Entry::Left { session, q, puts } => {
                let puts = puts.copy(alloc)?;
                let _ = self.places.leave(alloc, session, *q, puts, made.moment)?;
            }
            Entry::Cancelled { session, q, path } => {
                let _ = self.places.cancel(alloc, session, *q, path, made.moment)?;
            }
            Entry::On { session, path, .. } => {
                self.listen_more(alloc, session, path)?;
                let _ = self.places.answer(&session.client, made.moment);
            }
            Entry::Off { session, path, .. } => {
                self.listeners.off(session, path);
                let _ = self.places.answer(&session.client, made.moment);
            }
            Entry::Op { session, .. }
            | Entry::Again { session, .. }
            | Entry::Denied { session, .. } => {
                let _ = self.places.answer(&session.client, made.moment);
            }
            Entry::Ended {
                session,
                why,
                rows,
                ..
            } => {
                let Ok(_) = self.places.end(&session.client, *why, rows.as_slice()) else {
                    unreachable!()
                };
                self.listeners.drop_session(session);
            }
        }
        Ok(())
    }

    // Takes in the one entry of a batch.
    fn grow_one(&mut self, alloc: Global, entry: &Entry, made: LogPosition) -> Result<(), Reopen>
        requires { (sum : Sum)
            × MayTakeFrom sum made.number made.moment (entry.now ∷ []) self.old }
        ensures agrees { (sum : Sum)
            → MayTakeFrom sum made.number made.moment (entry.now ∷ []) self.old
            → OnOk result (Agrees self.new (sum_after entry.now sum)) }
        ensures unchanged { OnErr result (IsAlike self.old self.new) }
    {
        // it ensures that the tree is a value
        let _ = self.tree.is_empty();
        self.make_room(alloc, entry)?;
        self.carry(alloc, entry, made.number)?;
        self.settle(alloc, entry, made)
    }

    // Takes in the entry that ends a session, and the newer one of its client that takes its place.
    fn supersede(
        &mut self,
        alloc: Global,
        ended: &Entry,
        opened: &SessionId,
        made: LogPosition,
    ) -> Result<(), Reopen>
        requires may { (sum : Sum) × MayTakeFrom sum made.number made.moment
            (ended.now ∷ entry.Open opened.now ∷ []) self.old }
        requires ends { Supersedes ended.now (entry.Open opened.now) }
        ensures agrees { (sum : Sum) → MayTakeFrom sum made.number made.moment
            (ended.now ∷ entry.Open opened.now ∷ []) self.old → OnOk result
            (Agrees self.new (sum_after (entry.Open opened.now) (sum_after ended.now sum))) }
        ensures unchanged { OnErr result (IsAlike self.old self.new) }
    {
        let Entry::Ended { session, .. } = ended else {
            unreachable!()
        };
        self.carry(alloc, ended, made.number)?;
        self.places.supersede(alloc, opened, made.moment);
        self.listeners.drop_session(session);
        Ok(())
    }

    /// Takes in the entries of a batch, of which the first is made there: all of them or, where
    /// memory is refused, none.
    pub(crate) fn grow(
        &mut self,
        alloc: Global,
        entries: &[Entry],
        made: LogPosition,
    ) -> Result<(), Reopen>
        requires { (sum : Sum)
            × MayTakeFrom sum made.number made.moment entries.now self.old
            × MayComeTogetherBy (part_in sum) (paths_in sum) (length sum.sessions) sum.tree
            made.moment entries.now }
        ensures agrees { (sum : Sum)
            → MayTakeFrom sum made.number made.moment entries.now self.old
            → OnOk result (Agrees self.new (sum_after_all entries.now sum)) }
        ensures unchanged { OnErr result (IsAlike self.old self.new) }
    {
        let Some((first, rest)) = entries.split_first() else {
            unreachable!()
        };
        let Some((second, _)) = rest.split_first() else {
            return self.grow_one(alloc, first, made);
        };
        let Entry::Open { session } = second else {
            unreachable!()
        };
        self.supersede(alloc, first, session, made)
    }
}
