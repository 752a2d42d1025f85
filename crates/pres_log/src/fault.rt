//! Why an input is refused.

ghost use Rattle.std.specs.Prelude.{◌≡◌};
ghost use Rattle.pres_log.specs.Faults.{code_of};

use pres_wire::{Code, Stamp};
use std::alloc::{AllocError, AllocFailed};
use thiserror::Error;

/// Why an input is refused, by the codes of fault messages.
#[derive(Clone, Copy, Debug, Error, PartialEq, Eq)]
pub enum Fault {
    /// It isn't a message.
    #[error("not a message")]
    Bad,
    /// A session is to be opened that isn't newer than the last one of its client, whose stamp this
    /// is.
    #[error("not newer than the last session")]
    Old(Stamp),
    /// The session isn't open.
    #[error("the session is not open")]
    Session,
    /// It skips a message of its session, or a write of its client.
    #[error("out of order")]
    Order,
    /// As many sessions are open as the server takes.
    #[error("too many sessions")]
    Full,
    /// An allocation was refused; the same input may come again.
    #[error("out of memory")]
    Busy,
    /// All numbers are used.
    #[error("no number is left")]
    Spent,
}

impl Fault {
    /// The code in messages.
    pub fn code(self) -> Code
        ensures { result ≡ code_of self }
    {
        match self {
            Fault::Bad => Code::Bad,
            Fault::Old(last) => Code::Old(last),
            Fault::Session => Code::Session,
            Fault::Order => Code::Order,
            Fault::Full => Code::Full,
            Fault::Busy => Code::Busy,
            Fault::Spent => Code::Spent,
        }
    }
}

impl From<AllocError> for Fault {
    ghost use Rattle.std.specs.Prelude.{◌≡◌};
    ghost use Rattle.pres_log.specs.declared.fault.Fault.TheVariants.{Busy};

    ghost from_gives = { λ _ e. e ≡ Busy };

    fn from(_refused: AllocError) -> Fault {
        Fault::Busy
    }
}

impl<T: Drop> From<AllocFailed<T>> for Fault {
    ghost use Rattle.std.specs.Prelude.{◌≡◌};
    ghost use Rattle.pres_log.specs.declared.fault.Fault.TheVariants.{Busy};

    ghost from_gives = { λ _ e. e ≡ Busy };

    fn from(_refused: AllocFailed<T>) -> Fault {
        Fault::Busy
    }
}
