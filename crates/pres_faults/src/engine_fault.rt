//! Why an engine refuses.

use crate::saved_fault::SavedFault;
use pres_log::Fault;
use std::alloc::AllocError;
use thiserror::Error;

/// Why an engine refuses.
#[derive(Debug, Drop, Error)]
pub enum EngineFault {
    /// An allocation was refused before anything was changed.
    #[error("out of memory")]
    Memory,
    /// The server refused the input, and is as it was.
    #[error("{0}")]
    Refused(Fault),
    /// The keeper refused the batch, and the server is as it was; or the server's batches could not
    /// be read.
    #[error("{0}")]
    Keeper(SavedFault),
    /// An allocation was refused after a batch was kept, so there is no server any more: it has to
    /// be rebuilt from the keeper.
    #[error("down")]
    Down,
}

impl From<AllocError> for EngineFault {
    ghost use Rattle.std.specs.Prelude.{◌≡◌};
    ghost use Rattle.pres_faults.specs.declared.engine_fault.EngineFault.TheVariants.{Memory};

    ghost from_gives = { λ _ e. e ≡ Memory };

    fn from(_refused: AllocError) -> EngineFault {
        EngineFault::Memory
    }
}
