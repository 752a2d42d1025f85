//! Why a call on saved rows is refused.

ghost use Rattle.std.specs.Prelude.{◌≡◌};
ghost use Rattle.pres_faults.specs.SavedFaults.{number_of, name_of, fault_of};

use pres_ids::Count;
use sqlite::{Error, ErrorCode};
use std::alloc::{AllocError, AllocFailed};
use thiserror::Error as ErrorDerive;

/// Why a call on saved rows is refused.
#[derive(Clone, Copy, Debug, ErrorDerive, PartialEq, Eq)]
pub enum SavedFault {
    /// An allocation was refused.
    #[error("out of memory")]
    Memory,
    /// The database refused or failed; after a failed write it may be shut for good.
    #[error("the database failed")]
    Database,
    /// The database holds other tables, or none.
    #[error("not a database of saved rows")]
    NotOurs,
    /// The first bad row: the number that was due there. Saved rows count from 1.
    #[error("row {0} is bad")]
    BadRow(Count),
    /// The rows are kept in another format.
    #[error("saved by another version")]
    Version,
}

impl SavedFault {
    /// The number that programs give.
    pub fn number(self) -> u8
        ensures { result ≡ number_of self }
    {
        match self {
            SavedFault::Memory => 1,
            SavedFault::Database => 2,
            SavedFault::NotOurs => 3,
            SavedFault::BadRow(_) => 4,
            SavedFault::Version => 5,
        }
    }

    /// The name that programs print.
    pub fn name(self) -> &'static str
        ensures { result.now ≡ name_of self }
    {
        match self {
            SavedFault::Memory => "Memory",
            SavedFault::Database => "Database",
            SavedFault::NotOurs => "NotOurs",
            SavedFault::BadRow(_) => "BadRow",
            SavedFault::Version => "Version",
        }
    }
}

impl From<AllocError> for SavedFault {
    ghost use Rattle.std.specs.Prelude.{◌≡◌};
    ghost use Rattle.pres_faults.specs.declared.saved_fault.SavedFault.TheVariants.{Memory};

    ghost from_gives = { λ _ e. e ≡ Memory };

    fn from(_refused: AllocError) -> SavedFault {
        SavedFault::Memory
    }
}

impl<T: Drop> From<AllocFailed<T>> for SavedFault {
    ghost use Rattle.std.specs.Prelude.{◌≡◌};
    ghost use Rattle.pres_faults.specs.declared.saved_fault.SavedFault.TheVariants.{Memory};

    ghost from_gives = { λ _ e. e ≡ Memory };

    fn from(_refused: AllocFailed<T>) -> SavedFault {
        SavedFault::Memory
    }
}

impl From<Error> for SavedFault {
    ghost use Rattle.std.specs.Prelude.{◌≡◌};
    ghost use Rattle.pres_faults.specs.SavedFaults.{fault_of};

    ghost from_gives = { λ error e. e ≡ fault_of error };

    fn from(error: Error) -> SavedFault {
        match error {
            Error::SqliteFailure(ErrorCode::OutOfMemory) => SavedFault::Memory,
            _ => SavedFault::Database,
        }
    }
}
