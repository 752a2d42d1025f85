//! Why a line is refused, and why a run ends early.

ghost use Rattle.std.specs.Prelude.{◌≡◌};
ghost use Rattle.pres_apply.specs.Faults.{number_of, name_of};

use pres_write::WriteFault;
use std::alloc::{AllocError, AllocFailed};
use thiserror::Error;

/// Why a line of operations is refused.
#[derive(Clone, Copy, Debug, Error, PartialEq, Eq)]
pub enum LineFault {
    /// The operation is.
    #[error("{0}")]
    Write(WriteFault),
    /// The line is no JSON text (RFC 8259) in UTF-8.
    #[error("not JSON")]
    NotJson,
    /// It has no `now` that is a whole number from 0 to 2^53 - 1.
    #[error("no moment")]
    NoMoment,
    /// It has more than 1,048,576 bytes.
    #[error("more than 1048576 bytes")]
    TooLong,
}

impl LineFault {
    /// The number in its reply.
    pub fn number(self) -> u8
        ensures { result ≡ number_of self }
    {
        match self {
            LineFault::Write(fault) => fault.number(),
            LineFault::NotJson => 12,
            LineFault::NoMoment => 13,
            LineFault::TooLong => 14,
        }
    }

    /// The name in its reply.
    pub fn name(self) -> &'static str
        ensures { result.now ≡ name_of self }
    {
        match self {
            LineFault::Write(fault) => fault.name(),
            LineFault::NotJson => "NotJson",
            LineFault::NoMoment => "NoMoment",
            LineFault::TooLong => "TooLong",
        }
    }
}

/// Why a run ends before all of its output is written.
#[derive(Clone, Copy, Debug, Error, PartialEq, Eq)]
pub enum RunFault {
    /// An allocation was refused.
    #[error("out of memory")]
    Memory,
    /// A read failed.
    #[error("the input could not be read")]
    Read,
    /// A write failed.
    #[error("the output could not be written")]
    Write,
    /// 2^32 - 1 reads did not reach the end of the input.
    #[error("the input does not end")]
    Endless,
    /// All numbers are used.
    #[error("no number is left")]
    Spent,
}

impl From<AllocError> for RunFault {
    ghost use Rattle.std.specs.Prelude.{◌≡◌};
    ghost use Rattle.pres_apply.specs.declared.faults.RunFault.TheVariants.{Memory};

    ghost from_gives = { λ _ e. e ≡ Memory };

    fn from(_refused: AllocError) -> RunFault {
        RunFault::Memory
    }
}

impl<T: Drop> From<AllocFailed<T>> for RunFault {
    ghost use Rattle.std.specs.Prelude.{◌≡◌};
    ghost use Rattle.pres_apply.specs.declared.faults.RunFault.TheVariants.{Memory};

    ghost from_gives = { λ _ e. e ≡ Memory };

    fn from(_refused: AllocFailed<T>) -> RunFault {
        RunFault::Memory
    }
}
