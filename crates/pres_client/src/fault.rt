//! Why a call of the client is refused.

ghost use Rattle.std.specs.Prelude.{◌≡◌};
ghost use Rattle.pres_client.specs.Faults.{number_of, name_of};

use pres_write::WriteFault;
use std::alloc::{AllocError, AllocFailed};
use thiserror::Error;

/// Why a call of the client is refused. Then nothing is changed.
#[derive(Clone, Copy, Debug, Error, PartialEq, Eq)]
pub enum ClientFault {
    /// An allocation was refused.
    #[error("out of memory")]
    Memory,
    /// No action for the end of a session is possible while none is open.
    #[error("not online")]
    Offline,
    /// No transaction with this request waits for an answer.
    #[error("no such request")]
    NoSuchRequest,
    /// A number would pass 2^53 - 1.
    #[error("no numbers are left")]
    Spent,
    /// The operation is invalid.
    #[error("{0}")]
    Write(WriteFault),
}

impl ClientFault {
    /// The number that programs print.
    pub fn number(self) -> u8
        ensures { result ≡ number_of self }
    {
        match self {
            ClientFault::Memory => 1,
            ClientFault::Offline => 2,
            ClientFault::NoSuchRequest => 3,
            ClientFault::Spent => 4,
            ClientFault::Write(_) => 5,
        }
    }

    /// The name that programs print.
    pub fn name(self) -> &'static str
        ensures { result.now ≡ name_of self }
    {
        match self {
            ClientFault::Memory => "Memory",
            ClientFault::Offline => "Offline",
            ClientFault::NoSuchRequest => "NoSuchRequest",
            ClientFault::Spent => "Spent",
            ClientFault::Write(_) => "Write",
        }
    }
}

impl From<AllocError> for ClientFault {
    ghost use Rattle.std.specs.Prelude.{◌≡◌};
    ghost use Rattle.pres_client.specs.declared.fault.ClientFault.TheVariants.{Memory};

    ghost from_gives = { λ _ e. e ≡ Memory };

    fn from(_refused: AllocError) -> ClientFault {
        ClientFault::Memory
    }
}

impl<T: Drop> From<AllocFailed<T>> for ClientFault {
    ghost use Rattle.std.specs.Prelude.{◌≡◌};
    ghost use Rattle.pres_client.specs.declared.fault.ClientFault.TheVariants.{Memory};

    ghost from_gives = { λ _ e. e ≡ Memory };

    fn from(_refused: AllocFailed<T>) -> ClientFault {
        ClientFault::Memory
    }
}
