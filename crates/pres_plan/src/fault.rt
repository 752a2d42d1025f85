//! Why a plan's step is refused.

ghost use Rattle.std.specs.Prelude.{◌≡◌};
ghost use Rattle.pres_plan.specs.Faults.{number_of, name_of};

use std::alloc::{AllocError, AllocFailed};
use thiserror::Error;

/// Why a plan's step is refused.
#[derive(Clone, Copy, Debug, Error, PartialEq, Eq)]
pub enum PlanFault {
    /// An allocation was refused.
    #[error("out of memory")]
    Memory,
    /// The plan would have more than 256 rows.
    #[error("a session leaves more than 256 rows")]
    Full,
}

impl PlanFault {
    /// The number that programs and messages give.
    pub fn number(self) -> u8
        ensures { result ≡ number_of self }
    {
        match self {
            PlanFault::Memory => 1,
            PlanFault::Full => 2,
        }
    }

    /// The name that programs print.
    pub fn name(self) -> &'static str
        ensures { result.now ≡ name_of self }
    {
        match self {
            PlanFault::Memory => "Memory",
            PlanFault::Full => "Full",
        }
    }
}

impl From<AllocError> for PlanFault {
    ghost use Rattle.std.specs.Prelude.{◌≡◌};
    ghost use Rattle.pres_plan.specs.declared.fault.PlanFault.TheVariants.{Memory};

    ghost from_gives = { λ _ e. e ≡ Memory };

    fn from(_refused: AllocError) -> PlanFault {
        PlanFault::Memory
    }
}

impl<T: Drop> From<AllocFailed<T>> for PlanFault {
    ghost use Rattle.std.specs.Prelude.{◌≡◌};
    ghost use Rattle.pres_plan.specs.declared.fault.PlanFault.TheVariants.{Memory};

    ghost from_gives = { λ _ e. e ≡ Memory };

    fn from(_refused: AllocFailed<T>) -> PlanFault {
        PlanFault::Memory
    }
}
