//! Why a hub refuses.

use crate::engine_fault::EngineFault;
use crate::saved_fault::SavedFault;
use pres_log::Fault;
use std::alloc::AllocError;
use thiserror::Error;

/// Why a hub refuses. After Memory, Keeper, Behind and Apart everything is as before, and the same
/// message may be sent again.
#[derive(Debug, Drop, Error)]
pub enum HubFault {
    /// An allocation was refused.
    #[error("out of memory")]
    Memory,
    /// The server refused the message.
    #[error("{0}")]
    Refused(Fault),
    /// The keeper refused the batch; at the start, that it has no server.
    #[error("{0}")]
    Keeper(SavedFault),
    /// The hub is down, until it is started again from what the keeper holds.
    #[error("down")]
    Down,
    /// The server has fewer entries than the greatest number that was sent to the seat.
    #[error("the server has {have} entries, and the seat was told of {seen}")]
    Behind { have: u64, seen: u64 },
    /// The session is open, and its next message isn't the seat's, whose number this is.
    #[error("the seat's next message is {q}")]
    Apart { q: u64 },
}

impl From<EngineFault> for HubFault {
    ghost use Rattle.std.specs.Prelude.{◌≡◌};
    ghost use Rattle.pres_faults.specs.HubFaults.{of_engine};

    ghost from_gives = { λ fault e. e ≡ of_engine fault };

    fn from(fault: EngineFault) -> HubFault {
        match fault {
            EngineFault::Memory => HubFault::Memory,
            EngineFault::Refused(fault) => HubFault::Refused(fault),
            EngineFault::Keeper(fault) => HubFault::Keeper(fault),
            EngineFault::Down => HubFault::Down,
        }
    }
}

impl From<AllocError> for HubFault {
    ghost use Rattle.std.specs.Prelude.{◌≡◌};
    ghost use Rattle.pres_faults.specs.declared.hub_fault.HubFault.TheVariants.{Memory};

    ghost from_gives = { λ _ e. e ≡ Memory };

    fn from(_refused: AllocError) -> HubFault {
        HubFault::Memory
    }
}
