//! Why a listener is refused.

ghost use Rattle.std.specs.Prelude.{◌≡◌};
ghost use Rattle.pres_fan.specs.Faults.{number_of, name_of};

use std::alloc::{AllocError, AllocFailed};
use thiserror::Error;

/// Why a listener is refused, or the answer for a write.
#[derive(Clone, Copy, Debug, Error, PartialEq, Eq)]
pub enum FanFault {
    /// An allocation was refused.
    #[error("out of memory")]
    Memory,
    /// The session would listen to more than 256 places.
    #[error("a session listens to more than 256 places")]
    Full,
}

impl FanFault {
    /// The number that programs and messages give.
    pub fn number(self) -> u8
        ensures { result ≡ number_of self }
    {
        match self {
            FanFault::Memory => 1,
            FanFault::Full => 2,
        }
    }

    /// The name that programs print.
    pub fn name(self) -> &'static str
        ensures { result.now ≡ name_of self }
    {
        match self {
            FanFault::Memory => "Memory",
            FanFault::Full => "Full",
        }
    }
}

impl From<AllocError> for FanFault {
    ghost use Rattle.std.specs.Prelude.{◌≡◌};
    ghost use Rattle.pres_fan.specs.declared.fault.FanFault.TheVariants.{Memory};

    ghost from_gives = { λ _ e. e ≡ Memory };

    fn from(_refused: AllocError) -> FanFault {
        FanFault::Memory
    }
}

impl<T: Drop> From<AllocFailed<T>> for FanFault {
    ghost use Rattle.std.specs.Prelude.{◌≡◌};
    ghost use Rattle.pres_fan.specs.declared.fault.FanFault.TheVariants.{Memory};

    ghost from_gives = { λ _ e. e ≡ Memory };

    fn from(_refused: AllocFailed<T>) -> FanFault {
        FanFault::Memory
    }
}
