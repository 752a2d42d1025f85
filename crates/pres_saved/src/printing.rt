//! Batches and bases, as the rows that save them.

ghost use Rattle.std.specs.Prelude.{◌≡◌, IfOk, map};
ghost use Rattle.std.specs.List.{AllByRecursion};
ghost use Rattle.pres_base.specs.declared.parts.BaseParts.{BaseParts};
ghost use Rattle.pres_server.specs.BaseSums.{sum_for};
ghost use Rattle.pres_keeper.specs.Keepers.{KeepsOneNull};
ghost use Rattle.pres_batch_rows.specs.RowContents.{saved_of};
ghost use Rattle.pres_saved.specs.SqlKeepers.{saved_batch, saved_checkpoint, IsReadBack, IsBaseReadBack};

use pres_base_json::print_base;
use pres_batch_json::print_entries;
use pres_batch_rows::SavedRow;
use pres_log::Batch;
use pres_server::Server;
use std::alloc::{AllocError, Global};

/// The row that saves the batch.
pub(crate) fn print_batch(alloc: Global, batch: &Batch) -> Result<SavedRow, AllocError>
    ensures saves { IfOk result (λ row. saved_of row ≡ saved_batch batch.now) }
    ensures back { IfOk result (λ _. IsReadBack batch.now) }
{
    // they ensure that the number and the moment are in range
    let moment = batch.moment();
    let _ = (batch.first().get(), moment.millis());
    let body = print_entries(alloc, batch.entries())?;
    Ok(SavedRow { moment, body })
}

/// The rows that save the batches, each its own.
pub(crate) fn print_batches(alloc: Global, batches: &[Batch]) -> Result<Vec<SavedRow>, AllocError>
    ensures save { IfOk result
        (λ rows. map saved_of rows.items ≡ map saved_batch batches.now) }
    ensures back { IfOk result (λ _. AllByRecursion IsReadBack batches.now) }
{
    let mut rows = Vec::new(alloc);
    for batch in batches {
        rows.push(print_batch(alloc, batch)?)?;
    }
    Ok(rows)
}

/// The row of a checkpoint that saves the server's base.
pub(crate) fn print_checkpoint(alloc: Global, server: &Server) -> Result<SavedRow, AllocError>
    ensures saves { IfOk result (λ row. (base : BaseParts) × (sum_for base ≡ server.now.sum)
        × (saved_of row ≡ saved_checkpoint base)) }
    ensures back { KeepsOneNull server.now.sum
        → IfOk result (λ row. IsBaseReadBack server.now.sum (saved_of row)) }
{
    let Ok(base) = server.base() else {
        return Err(AllocError);
    };
    let moment = base.parts().moment;
    let body = print_base(alloc, &base)?;
    Ok(SavedRow { moment, body })
}
