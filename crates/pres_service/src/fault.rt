//! Why a server or a client ends early.

ghost use Rattle.std.specs.Prelude.{◌≡◌};
ghost use Rattle.pres_service.specs.Faults.{status_of};

use pres_faults::{HubFault, SavedFault};
use pres_script::ScriptFault;
use pres_tcp::Halt;
use pres_websocket::SockFault;
use std::alloc::{AllocError, AllocFailed};
use thiserror::Error;

/// Why a server or a client ends early. Its text is what the program prints.
#[derive(Debug, Drop, Error)]
pub enum ServiceFault {
    /// An allocation was refused.
    #[error("out of memory")]
    Memory,
    /// The input is refused or could not be read, or the output could not be written.
    #[error("input refused")]
    Input,
    /// The file is refused.
    #[error("store refused {n}", n = .0.number())]
    Store(SavedFault),
    /// The address can't be bound or reached.
    #[error("socket refused 2")]
    Address,
    /// The connection ended.
    #[error("socket refused {n}", n = .0.number())]
    Sock(SockFault),
    /// The file failed while it was served.
    #[error("store refused 2")]
    Shut,
    /// An allocation was refused after a commit while the file was served.
    #[error("out of memory")]
    Down,
}

impl ServiceFault {
    /// The program's exit status.
    pub fn status(&self) -> u8
        ensures { result ≡ status_of self.now }
    {
        match self {
            ServiceFault::Input => 1,
            ServiceFault::Store(_) => 3,
            ServiceFault::Address | ServiceFault::Sock(_) => 4,
            ServiceFault::Memory => 5,
            ServiceFault::Shut => 3,
            ServiceFault::Down => 5,
        }
    }
}

impl From<SavedFault> for ServiceFault {
    ghost use Rattle.std.specs.Prelude.{◌≡◌};
    ghost use Rattle.pres_service.specs.Faults.{of_saved};

    ghost from_gives = { λ fault e. e ≡ of_saved fault };

    fn from(fault: SavedFault) -> ServiceFault {
        match fault {
            SavedFault::Memory => ServiceFault::Memory,
            other => ServiceFault::Store(other),
        }
    }
}

impl From<HubFault> for ServiceFault {
    ghost use Rattle.std.specs.Prelude.{◌≡◌};
    ghost use Rattle.pres_service.specs.Faults.{of_hub};

    ghost from_gives = { λ fault e. e ≡ of_hub fault };

    fn from(fault: HubFault) -> ServiceFault {
        match fault {
            HubFault::Memory => ServiceFault::Memory,
            HubFault::Keeper(fault) => ServiceFault::from(fault),
            other => ServiceFault::Sock(SockFault::Hub(other)),
        }
    }
}

impl From<SockFault> for ServiceFault {
    ghost use Rattle.std.specs.Prelude.{◌≡◌};
    ghost use Rattle.pres_service.specs.Faults.{of_sock};

    ghost from_gives = { λ fault e. e ≡ of_sock fault };

    fn from(fault: SockFault) -> ServiceFault {
        match fault {
            SockFault::Memory => ServiceFault::Memory,
            SockFault::Hub(fault) => ServiceFault::from(fault),
            other => ServiceFault::Sock(other),
        }
    }
}

impl From<Halt> for ServiceFault {
    ghost use Rattle.std.specs.Prelude.{◌≡◌};
    ghost use Rattle.pres_service.specs.Faults.{of_halt};

    ghost from_gives = { λ halt e. e ≡ of_halt halt };

    fn from(halt: Halt) -> ServiceFault {
        match halt {
            Halt::Shut => ServiceFault::Shut,
            Halt::Down => ServiceFault::Down,
        }
    }
}

impl From<AllocError> for ServiceFault {
    ghost use Rattle.std.specs.Prelude.{◌≡◌};
    ghost use Rattle.pres_service.specs.declared.fault.ServiceFault.TheVariants.{Memory};

    ghost from_gives = { λ _ e. e ≡ Memory };

    fn from(_refused: AllocError) -> ServiceFault {
        ServiceFault::Memory
    }
}

impl<T: Drop> From<AllocFailed<T>> for ServiceFault {
    ghost use Rattle.std.specs.Prelude.{◌≡◌};
    ghost use Rattle.pres_service.specs.declared.fault.ServiceFault.TheVariants.{Memory};

    ghost from_gives = { λ _ e. e ≡ Memory };

    fn from(_refused: AllocFailed<T>) -> ServiceFault {
        ServiceFault::Memory
    }
}

impl From<ScriptFault> for ServiceFault {
    ghost use Rattle.std.specs.Prelude.{◌≡◌};
    ghost use Rattle.pres_service.specs.Faults.{of_script};

    ghost from_gives = { λ fault e. e ≡ of_script fault };

    fn from(fault: ScriptFault) -> ServiceFault {
        match fault {
            ScriptFault::Memory => ServiceFault::Memory,
            ScriptFault::Input => ServiceFault::Input,
        }
    }
}
