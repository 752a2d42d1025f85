//! Saved rows, taken one at a time: as batches, and into a server that is rebuilt.

ghost use Rattle.std.specs.Prelude.{◌≡◌, ◌⊎◌, ◌+◌, ◌≤◌, [], IfOk, IfErr};
ghost use Rattle.std.specs.Option.{SomeIff};
ghost use Rattle.pres_faults.specs.declared.saved_fault.SavedFault.TheVariants.{Memory};
ghost use Rattle.pres_ids.specs.Numbers.{greatest_number};
ghost use Rattle.pres_server.specs.Histories.{IsSum};
ghost use Rattle.pres_server.specs.Replays.{resumed};
ghost use Rattle.pres_keeper.specs.Keepers.{base_sum};
ghost use Rattle.pres_saved.specs.SavedHistories.{batch_in};
ghost use Rattle.pres_batch_rows.specs.RowContents.{saved_of};

use pres_base::Base;
use pres_batch_json::read_entries;
use pres_batch_rows::{SavedRow, Take};
use pres_faults::SavedFault;
use pres_ids::{Count, Number};
use pres_keeper::bad_batch;
use pres_log::Batch;
use pres_server::{Replay, Server};
use std::alloc::{AllocError, Global};
use std::marker::Model;

// The number this many after it.
fn number_after(before: u64) -> Option<Number>
    ensures { SomeIff result (before + 1 ≤ greatest_number) (before + 1) }
{
    Count::new(before)?.next()
}

// The batch that the row saves after this many entries, none where it saves none.
fn read_batch(alloc: Global, before: u64, row: &SavedRow) -> Result<Option<Batch>, AllocError>
    ensures { IfOk result (λ found. found ≡ batch_in before (saved_of row.now)) }
{
    let Some(first) = number_after(before) else {
        return Ok(None);
    };
    match read_entries(alloc, row.body.as_str())? {
        Some(entries) => Ok(Some(Batch::new(first, row.moment, entries))),
        None => Ok(None),
    }
}

// The refusal of the row after this many batches.
fn bad_row(before: u64) -> SavedFault
    ensures { (result ≡ SavedFault.BadRow (before + 1))
        ⊎ ((result ≡ SavedFault.Database) × (greatest_number ≤ before)) }
{
    match number_after(before) {
        Some(number) => SavedFault::BadRow(Count::up_to(number)),
        None => SavedFault::Database,
    }
}

/// How many batches come before those since the base.
pub(crate) fn batches_before(base: &Option<Base>) -> Count
    ensures { result ≡ (base_sum base.now).batches }
{
    match base {
        Some(base) => base.parts().batches,
        None => Count::zero(),
    }
}

/// The number of the last entry before those since the base.
pub(crate) fn number_before(base: &Option<Base>) -> Count
    ensures { result ≡ (base_sum base.now).number }
{
    match base {
        Some(base) => base.parts().number,
        None => Count::zero(),
    }
}

/// The batches of the rows so far, how many came before them, and how many entries there are.
#[derive(Drop)]
pub(crate) struct Batches {
    alloc: Global,
    behind: Count,
    number: u64,
    log: Vec<Batch>,
}

impl Model for Batches {
    ghost use Rattle.pres_saved.specs.RowReplay.{Since};

    ghost Value = { Since };

    ghost view = { λ b. record { behind = b.behind; number = b.number; log = b.log.items } };
}

impl Batches {
    /// None so far since the base.
    pub(crate) fn since(alloc: Global, base: &Option<Base>) -> Batches
        ensures { result ≡ record {
          behind = (base_sum base.now).batches;
          number = (base_sum base.now).number;
          log = [];
        } }
    {
        Batches {
            alloc,
            behind: batches_before(base),
            number: number_before(base).get(),
            log: Vec::new(alloc),
        }
    }

    /// The batches.
    pub(crate) fn into_batches(self) -> Vec<Batch>
        ensures { result.items ≡ self.log }
    {
        self.log
    }
}

impl Take for Batches {
    ghost use Rattle.pres_saved.specs.RowReplay.{Extends, IsNotTaken};

    ghost takes = { λ old row new. Extends old row new };

    ghost refuses = { λ old row e new. IsNotTaken old row e };

    fn take(&mut self, row: SavedRow) -> Result<(), SavedFault> {
        match read_batch(self.alloc, self.number, &row)? {
            Some(batch) => {
                let number = batch.first().get() - 1 + batch.entries().len() as u64;
                self.log.push(batch)?;
                self.number = number;
                Ok(())
            }
            None => Err(bad_row(self.behind.get() + self.log.len() as u64)),
        }
    }
}

/// A server that is rebuilt from the rows so far. Contracts see it as their sum.
#[derive(Drop)]
pub(crate) struct Replaying {
    alloc: Global,
    replay: Replay,
}

impl Model for Replaying {
    ghost use Rattle.pres_server.specs.Sums.{Sum};

    ghost Value = { Sum };

    ghost view = { λ r. r.replay };
}

impl Replaying {
    /// No row so far since the base.
    pub(crate) fn since(alloc: Global, base: Option<Base>) -> Result<Replaying, SavedFault>
        ensures sum { IfOk result (λ replay. replay ≡ base_sum base) }
        ensures holds { IfOk result (λ replay. IsSum replay) }
        ensures refused { IfErr result (λ e. e ≡ Memory) }
    {
        let replay = match base {
            None => Replay::new(alloc),
            Some(base) => match Replay::resume(alloc, base) {
                Ok(replay) => replay,
                Err(_) => return Err(SavedFault::Memory),
            },
        };
        // of a replay's number all is known that holds of its sum
        let _ = replay.number();
        Ok(Replaying { alloc, replay })
    }

    /// The server of the rows.
    pub(crate) fn finish(self) -> Server
        ensures { result ≡ resumed self }
    {
        let Replaying { alloc: _, replay } = self;
        replay.finish()
    }
}

impl Take for Replaying {
    ghost use Rattle.pres_saved.specs.RowReplay.{Follows, IsNoFollower};

    ghost takes = { λ old row new. Follows old row new };

    ghost refuses = { λ old row e new. IsNoFollower old row e };

    fn take(&mut self, row: SavedRow) -> Result<(), SavedFault> {
        match read_batch(self.alloc, self.replay.number(), &row)? {
            Some(batch) => match self.replay.add(batch) {
                Ok(()) => Ok(()),
                Err(fault) => Err(bad_batch(fault)),
            },
            None => Err(bad_row(self.replay.batches())),
        }
    }
}

/// Refuses the first row, and says that there was one.
#[derive(Drop)]
pub(crate) struct Glance {
    pub(crate) has_read: bool,
}

impl Take for Glance {
    ghost use Rattle.std.specs.Prelude.{◌≡◌, true};

    ghost takes = { λ _ _ _. ⊥ };

    ghost refuses = { λ _ _ _ new. new.has_read ≡ true };

    fn take(&mut self, _row: SavedRow) -> Result<(), SavedFault> {
        self.has_read = true;
        Err(SavedFault::Version)
    }
}
