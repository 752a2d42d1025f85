//! The checkpoint, as it is read.

ghost use Rattle.std.specs.Prelude.{◌≡◌, ◌⊎◌, Some, None, false, option_map, MatchOption, MatchResult, OnOk};
ghost use Rattle.sqlite.specs.Held.{state};
ghost use Rattle.sqlite.specs.State.{HasCleanDisk, IsUnchanged, Survives};
ghost use Rattle.pres_batch_rows.specs.TableStates.{Awaits, IsLeft};
ghost use Rattle.pres_batch_rows.specs.RowContents.{shown_base};
ghost use Rattle.pres_batch_rows.specs.SavedCheckpoints.{base_of, base_in, saved_base};

use crate::row::{SavedRow, text_at, whole_at};
use pres_faults::SavedFault;
use pres_ids::Count;
use pres_limits::MAX_SAFE_INTEGER;
use pres_write::Moment;
use sqlite::{Alter, Connection, Row};
use std::alloc::Global;

/// A checkpoint: how many batches it stands for, and its moment and text.
#[derive(Debug, Drop)]
pub struct SavedCheckpoint {
    pub batches: Count,
    pub row: SavedRow,
}

// What a shown row of the table saves.
fn base_parts(row: &Row) -> Option<(Count, Moment, &str)>
    ensures { MatchOption result
        (base_in row.now ≡ None)
        (λ p. base_in row.now ≡ Some (p.0, record { moment = p.1; body = p.2.now })) }
{
    let batches = whole_at(row, 0)?;
    let millis = whole_at(row, 1)?;
    let body = text_at(row, 2)?;
    if millis > MAX_SAFE_INTEGER {
        return None;
    }
    Some((Count::new(batches)?, Moment::at(millis), body))
}

// The checkpoint of a shown row.
fn read_base(alloc: Global, row: &Row) -> Result<SavedCheckpoint, SavedFault>
    ensures { MatchResult result
        (λ c. base_in row.now ≡ Some (base_of c))
        (λ e. (e ≡ SavedFault.Memory)
        ⊎ ((e ≡ SavedFault.BadRow 0) × (base_in row.now ≡ None))) }
{
    let Some((batches, moment, body)) = base_parts(row) else {
        return Err(SavedFault::BadRow(Count::zero()));
    };
    let body = String::from_str(alloc, body)?;
    Ok(SavedCheckpoint {
        batches,
        row: SavedRow { moment, body },
    })
}

// Reads the checkpoint, if there is one.
pub(crate) fn read_checkpoint<S: Alter>(
    alloc: Global,
    connection: &mut Connection<S>,
) -> Result<Option<SavedCheckpoint>, SavedFault>
    ensures read { HasCleanDisk (state S.Store connection.new)
        → (k : _) → Awaits (state S.Store connection.old) k
        → MatchResult result
        (λ found. saved_base (shown_base (state S.Store connection.old))
        ≡ Some (option_map base_of found))
        (λ e. ((e ≡ SavedFault.BadRow 0)
        × (saved_base (shown_base (state S.Store connection.old)) ≡ None))
        ⊎ ((e ≡ SavedFault.Memory) ⊎ (e ≡ SavedFault.Database))) }
    ensures left { HasCleanDisk (state S.Store connection.new)
        → (k : _) → Awaits (state S.Store connection.old) k
        → IsLeft (state S.Store connection.old) (state S.Store connection.new) }
    ensures same { HasCleanDisk (state S.Store connection.new)
        → OnOk result
        (IsUnchanged (state S.Store connection.old) (state S.Store connection.new)) }
    ensures crash { Survives (state S.Store connection.old) (state S.Store connection.new)
        (λ _. ⊥) }
{
    // it ensures that what is shown was committed, where no transaction is open
    let _alone = connection.is_autocommit();
    let rows = connection.query_all("SELECT k, moment, body FROM checkpoint", &[])?;
    match rows.as_slice() {
        [] => Ok(None),
        [row] => Ok(Some(read_base(alloc, row)?)),
        _ => Err(SavedFault::BadRow(Count::zero())),
    }
}
