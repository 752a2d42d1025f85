//! Why an answer isn't kept.

ghost use Rattle.std.specs.Prelude.{◌≡◌};
ghost use Rattle.pres_retry.specs.Faults.{number_of};

use std::alloc::{AllocError, AllocFailed};
use thiserror::Error;

/// Why an answer isn't kept.
#[derive(Clone, Copy, Debug, Error, PartialEq, Eq)]
pub enum RetryFault {
    /// An allocation was refused.
    #[error("out of memory")]
    Memory,
}

impl RetryFault {
    /// The number that programs and messages give.
    pub fn number(self) -> u8
        ensures { result ≡ number_of self }
    {
        match self {
            RetryFault::Memory => 1,
        }
    }
}

impl From<AllocError> for RetryFault {
    ghost use Rattle.std.specs.Prelude.{◌≡◌};
    ghost use Rattle.pres_retry.specs.declared.fault.RetryFault.TheVariants.{Memory};

    ghost from_gives = { λ _ e. e ≡ Memory };

    fn from(_refused: AllocError) -> RetryFault {
        RetryFault::Memory
    }
}

impl<T: Drop> From<AllocFailed<T>> for RetryFault {
    ghost use Rattle.std.specs.Prelude.{◌≡◌};
    ghost use Rattle.pres_retry.specs.declared.fault.RetryFault.TheVariants.{Memory};

    ghost from_gives = { λ _ e. e ≡ Memory };

    fn from(_refused: AllocFailed<T>) -> RetryFault {
        RetryFault::Memory
    }
}
