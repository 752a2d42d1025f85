//! Why a session's step is refused.

ghost use Rattle.std.specs.Prelude.{◌≡◌};
ghost use Rattle.pres_session.specs.Faults.{number_of};

use pres_ids::Stamp;
use thiserror::Error;

/// Why a session's step is refused.
#[derive(Clone, Copy, Debug, Error, PartialEq, Eq)]
pub enum SessionFault {
    /// The stamp isn't greater than that of the client's last session, which is given.
    #[error("the client had a session with this stamp or a later one")]
    Old(Stamp),
    /// The session has used its last number, 2^53 - 1.
    #[error("the session's numbers are used up")]
    Spent,
}

impl SessionFault {
    /// The number that programs and messages give.
    pub fn number(self) -> u8
        ensures { result ≡ number_of self }
    {
        match self {
            SessionFault::Old(_) => 1,
            SessionFault::Spent => 2,
        }
    }
}
