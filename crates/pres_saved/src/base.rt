//! The base of a saved checkpoint.

ghost use Rattle.std.specs.Prelude.{◌≡◌, ◌⊎◌, Some, None, IfOk, IfErr};
ghost use Rattle.pres_server.specs.BaseSums.{sum_for};
ghost use Rattle.pres_keeper.specs.Keepers.{HoldsBase};
ghost use Rattle.pres_batch_rows.specs.SavedCheckpoints.{base_of};
ghost use Rattle.pres_saved.specs.SavedHistories.{sum_by};

use pres_base::Base;
use pres_base_json::read_base;
use pres_batch_rows::SavedCheckpoint;
use pres_faults::SavedFault;
use pres_ids::Count;
use std::alloc::Global;

/// The base that the checkpoint saves. `BadRow` with 0 where its body is that of no base.
pub(crate) fn read_checkpoint(
    alloc: Global,
    checkpoint: &SavedCheckpoint,
) -> Result<Base, SavedFault>
    ensures base { IfOk result (λ base. sum_by (Some (base_of checkpoint.now)) ≡ Some (sum_for base)) }
    ensures holds { IfOk result (λ base. HoldsBase (sum_for base)) }
    ensures refused { IfErr result (λ e. (e ≡ SavedFault.Memory)
        ⊎ ((e ≡ SavedFault.BadRow 0) × (sum_by (Some (base_of checkpoint.now)) ≡ None))) }
{
    let row = &checkpoint.row;
    match read_base(alloc, checkpoint.batches, row.moment, row.body.as_str())? {
        Some(base) => Ok(base),
        None => Err(SavedFault::BadRow(Count::zero())),
    }
}
