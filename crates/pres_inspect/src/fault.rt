//! Why a file isn't looked at.

ghost use Rattle.std.specs.Prelude.{◌≡◌};
ghost use Rattle.pres_inspect.specs.Faults.{advice_of, status_of};

use pres_faults::SavedFault;
use pres_ids::Count;
use std::alloc::{AllocError, AllocFailed};
use std::io;
use thiserror::Error;

/// Why a file isn't looked at. Its text is what the program says of it first.
#[derive(Debug, Drop, Error)]
pub enum InspectFault {
    /// An allocation was refused.
    #[error("out of memory")]
    Memory,
    /// The output could not be written.
    #[error("input refused")]
    Output,
    /// There is no such file.
    #[error("store refused 2")]
    Missing,
    /// A server has the file open.
    #[error("store refused 2")]
    InUse,
    /// The file can't be read, is no database, or isn't a server's.
    #[error("store refused {n}", n = .0.number())]
    Store(SavedFault),
    /// What is saved of the checkpoint is none.
    #[error("store refused 4")]
    BadCheckpoint,
    /// The row with this number is no batch, and those before it are a legal history.
    #[error("store refused 4")]
    Unreadable(Count),
    /// The batch in the row with this number may not follow those before it.
    #[error("store refused 4")]
    NotLegal(Count),
}

impl InspectFault {
    /// The program's exit status.
    pub fn status(&self) -> u8
        ensures { result ≡ status_of self.now }
    {
        match self {
            InspectFault::Output => 1,
            InspectFault::Missing
            | InspectFault::InUse
            | InspectFault::Store(_)
            | InspectFault::BadCheckpoint
            | InspectFault::Unreadable(_)
            | InspectFault::NotLegal(_) => 3,
            InspectFault::Memory => 5,
        }
    }

    /// What to do about it, in a line for people.
    pub fn advice(&self) -> &'static str
        ensures { result.now ≡ advice_of self.now }
    {
        match self {
            InspectFault::Memory => "the file is larger than the memory that is free",
            InspectFault::Output => "the output could not be written",
            InspectFault::Missing => "there is no such file",
            InspectFault::InUse => "the file is in use: stop its server, or look at a copy",
            InspectFault::Store(SavedFault::NotOurs) => "the file is another program's database",
            InspectFault::Store(SavedFault::Version) => {
                "the file is of another version of this program"
            }
            InspectFault::Store(_) => "the file can't be read, or it is no SQLite database",
            InspectFault::BadCheckpoint => {
                "the checkpoint of the file is damaged: restore a backup"
            }
            InspectFault::Unreadable(_) | InspectFault::NotLegal(_) => {
                "a row of the file is bad: `presence check` says which"
            }
        }
    }
}

impl From<SavedFault> for InspectFault {
    ghost use Rattle.std.specs.Prelude.{◌≡◌};
    ghost use Rattle.pres_inspect.specs.Faults.{of_saved};

    ghost from_gives = { λ fault e. e ≡ of_saved fault };

    fn from(fault: SavedFault) -> InspectFault {
        match fault {
            SavedFault::Memory => InspectFault::Memory,
            other => InspectFault::Store(other),
        }
    }
}

impl From<io::Error> for InspectFault {
    fn from(error: io::Error) -> InspectFault {
        match error.kind() {
            io::ErrorKind::OutOfMemory => InspectFault::Memory,
            io::ErrorKind::NotFound => InspectFault::Missing,
            io::ErrorKind::WouldBlock => InspectFault::InUse,
            _ => InspectFault::Store(SavedFault::Database),
        }
    }
}

impl From<AllocError> for InspectFault {
    ghost use Rattle.std.specs.Prelude.{◌≡◌};
    ghost use Rattle.pres_inspect.specs.declared.fault.InspectFault.TheVariants.{Memory};

    ghost from_gives = { λ _ e. e ≡ Memory };

    fn from(_refused: AllocError) -> InspectFault {
        InspectFault::Memory
    }
}

impl<T: Drop> From<AllocFailed<T>> for InspectFault {
    ghost use Rattle.std.specs.Prelude.{◌≡◌};
    ghost use Rattle.pres_inspect.specs.declared.fault.InspectFault.TheVariants.{Memory};

    ghost from_gives = { λ _ e. e ≡ Memory };

    fn from(_refused: AllocFailed<T>) -> InspectFault {
        InspectFault::Memory
    }
}
