//! Why a key, a path or a value is refused.

ghost use Rattle.std.specs.Prelude.{◌≡◌};
ghost use Rattle.pres_tree.specs.Faults.{number_of, name_of};

use std::alloc::{AllocError, AllocFailed};
use thiserror::Error;

/// Why a key, a path or a value is refused.
#[derive(Clone, Copy, Debug, Error, PartialEq, Eq)]
pub enum TreeFault {
    /// An allocation was refused.
    #[error("out of memory")]
    Memory,
    /// A key without bytes.
    #[error("a key is empty")]
    EmptyKey,
    /// A key of more than 768 bytes.
    #[error("a key is longer than 768 bytes")]
    LongKey,
    /// A key with a control character or one of `.` `$` `#` `[` `]` `/`.
    #[error("a key has a character that no key may have")]
    BadKey,
    /// More than 32 keys from the root to a scalar, or in a path.
    #[error("more than 32 keys lead from the root to a place")]
    TooDeep,
    /// A fraction, an exponent, or a number past 64 bits.
    #[error("a number is not a whole number of 64 bits")]
    NotWhole,
    /// A whole number above 2^63 - 1.
    #[error("a number is above 2^63 - 1")]
    Range,
    /// An object with the name `.sv` that is no placeholder. Plain values never get it.
    #[error("an object with the name .sv is no placeholder")]
    Placeholder,
}

impl TreeFault {
    /// The number that programs and messages give.
    pub fn number(self) -> u8
        ensures { result ≡ number_of self }
    {
        match self {
            TreeFault::Memory => 1,
            TreeFault::EmptyKey => 2,
            TreeFault::LongKey => 3,
            TreeFault::BadKey => 4,
            TreeFault::TooDeep => 5,
            TreeFault::NotWhole => 6,
            TreeFault::Range => 7,
            TreeFault::Placeholder => 8,
        }
    }

    /// The name that programs print.
    pub fn name(self) -> &'static str
        ensures { result.now ≡ name_of self }
    {
        match self {
            TreeFault::Memory => "Memory",
            TreeFault::EmptyKey => "EmptyKey",
            TreeFault::LongKey => "LongKey",
            TreeFault::BadKey => "BadKey",
            TreeFault::TooDeep => "TooDeep",
            TreeFault::NotWhole => "NotWhole",
            TreeFault::Range => "Range",
            TreeFault::Placeholder => "Placeholder",
        }
    }
}

impl From<AllocError> for TreeFault {
    ghost use Rattle.std.specs.Prelude.{◌≡◌};
    ghost use Rattle.pres_tree.specs.declared.fault.TreeFault.TheVariants.{Memory};

    ghost from_gives = { λ _ e. e ≡ Memory };

    fn from(_refused: AllocError) -> TreeFault {
        TreeFault::Memory
    }
}

impl<T: Drop> From<AllocFailed<T>> for TreeFault {
    ghost use Rattle.std.specs.Prelude.{◌≡◌};
    ghost use Rattle.pres_tree.specs.declared.fault.TreeFault.TheVariants.{Memory};

    ghost from_gives = { λ _ e. e ≡ Memory };

    fn from(_refused: AllocFailed<T>) -> TreeFault {
        TreeFault::Memory
    }
}
