//! Going over the saved rows, one at a time.

ghost use Rattle.std.specs.Prelude.{◌≡◌, ◌++◌, ◌∷◌, [], map, Ok, IfErr, OnOk};
ghost use Rattle.sqlite.specs.Held.{state};
ghost use Rattle.sqlite.specs.State.{HasCleanDisk, IsUnchanged, Survives};
ghost use Rattle.pres_batch_rows.specs.TableStates.{Awaits, IsLeft};
ghost use Rattle.pres_batch_rows.specs.RowContents.{RowContent, saved_of, saved_rows, shown_rows};
ghost use Rattle.pres_batch_rows.specs.RowIteration.{GoesOver, TakesRows};
ghost use Rattle.pres_faults.specs.declared.saved_fault.SavedFault.{SavedFault as Fault};

use crate::row::{SavedRow, read_row};
use pres_faults::SavedFault;
use pres_ids::{Count, Number};
use sqlite::{Alter, Connection};
use std::alloc::Global;

/// What takes saved rows in their order, one at a time.
pub trait Take {
    // What taking a row does, and what refusing one does.
    ghost takes: { Self → RowContent → Self → Type 0 };

    ghost refuses: { Self → RowContent → Fault → Self → Type 0 };

    /// Takes the next row. A refusal ends the iteration.
    fn take(&mut self, row: SavedRow) -> Result<(), SavedFault>
        ensures taken { OnOk result (takes self.old (saved_of row) self.new) }
        ensures refused { IfErr result (λ e. refuses self.old (saved_of row) e self.new) };
}

// Gives each row behind this many batches to the taker, up to the first that is bad or refused.
pub(crate) fn go_over<S: Alter, T: Take>(
    alloc: Global,
    connection: &mut Connection<S>,
    behind: Count,
    taker: &mut T,
) -> Result<(), SavedFault>
    ensures goes { HasCleanDisk (state S.Store connection.new)
        → (k : _) → Awaits (state S.Store connection.old) k
        → GoesOver T.takes T.refuses behind (shown_rows (state S.Store connection.old))
        taker.old taker.new result }
    ensures taken { OnOk result (TakesRows T.takes
        (λ rows. HasCleanDisk (state S.Store connection.new)
        → (k : _) → Awaits (state S.Store connection.old) k
        → saved_rows behind (shown_rows (state S.Store connection.old)) ≡ Ok rows)
        taker.old taker.new) }
    ensures left { HasCleanDisk (state S.Store connection.new)
        → (k : _) → Awaits (state S.Store connection.old) k
        → IsLeft (state S.Store connection.old) (state S.Store connection.new) }
    ensures same { HasCleanDisk (state S.Store connection.new)
        → (k : _) → Awaits (state S.Store connection.old) k
        → OnOk result
        (IsUnchanged (state S.Store connection.old) (state S.Store connection.new)) }
    ensures crash { Survives (state S.Store connection.old) (state S.Store connection.new)
        (λ _. ⊥) }
{
    // it ensures that what is shown was committed, where no transaction is open
    let _alone = connection.is_autocommit();
    let mut rows = connection.query("SELECT k, moment, body FROM batch ORDER BY k", &[])?;
    'rows: for before in behind.get()..u64::MAX {
        let Some(row) = rows.next()? else {
            return Ok(());
        };
        let Some(due) = Number::new(before + 1) else {
            return Err(SavedFault::Database);
        };
        let saved = read_row(alloc, row, due)?;
        taker.take(saved)?;
    }
    Err(SavedFault::Database)
}

/// Keeps each row that it is given.
#[derive(Drop)]
pub(crate) struct Collector {
    pub(crate) rows: Vec<SavedRow>,
}

impl Take for Collector {
    ghost use Rattle.std.specs.Prelude.{◌≡◌, ◌++◌, ◌∷◌, [], map};
    ghost use Rattle.pres_batch_rows.specs.RowContents.{saved_of};
    ghost use Rattle.pres_faults.specs.declared.saved_fault.SavedFault.TheVariants.{Memory};

    ghost takes = { λ old row new.
        map saved_of new.rows.items ≡ map saved_of old.rows.items ++ row ∷ [] };

    ghost refuses = { λ _ _ e _. e ≡ Memory };

    fn take(&mut self, row: SavedRow) -> Result<(), SavedFault> {
        self.rows.push(row)?;
        Ok(())
    }
}
