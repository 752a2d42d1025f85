//! Why a world refuses.

ghost use Rattle.std.specs.Prelude.{◌≡◌};
ghost use Rattle.pres_world.specs.Faults.{fault_of};

use pres_client::ClientFault;
use pres_server::ReplayFault;
use std::alloc::{AllocError, AllocFailed};
use thiserror::Error;

/// Why a world refuses an event.
#[derive(Clone, Copy, Debug, Error, PartialEq, Eq)]
pub enum WorldFault {
    /// An allocation was refused. Nothing is changed, unless a batch was committed whose answers
    /// found no memory: then the server has stopped, as by `Ending::Stopped`.
    #[error("out of memory")]
    Memory,
    /// There is no such packet, or no such client.
    #[error("no such packet or client")]
    NoSuch,
    /// The client refused the call.
    #[error("{0}")]
    Client(ClientFault),
}

impl From<AllocError> for WorldFault {
    ghost use Rattle.std.specs.Prelude.{◌≡◌};
    ghost use Rattle.pres_world.specs.declared.fault.WorldFault.TheVariants.{Memory};

    ghost from_gives = { λ _ e. e ≡ Memory };

    fn from(_refused: AllocError) -> WorldFault {
        WorldFault::Memory
    }
}

impl<T: Drop> From<AllocFailed<T>> for WorldFault {
    ghost use Rattle.std.specs.Prelude.{◌≡◌};
    ghost use Rattle.pres_world.specs.declared.fault.WorldFault.TheVariants.{Memory};

    ghost from_gives = { λ _ e. e ≡ Memory };

    fn from(_refused: AllocFailed<T>) -> WorldFault {
        WorldFault::Memory
    }
}

impl From<ClientFault> for WorldFault {
    ghost use Rattle.std.specs.Prelude.{◌≡◌};
    ghost use Rattle.pres_world.specs.Faults.{fault_of};

    ghost from_gives = { λ f e. e ≡ fault_of f };

    fn from(fault: ClientFault) -> WorldFault {
        match fault {
            ClientFault::Memory => WorldFault::Memory,
            _ => WorldFault::Client(fault),
        }
    }
}
