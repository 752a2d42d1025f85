//! Messages that wait for their answers.

ghost use Rattle.std.specs.Prelude.{◌≡◌, ◌≤◌, ◌+◌, true, IfOk};
ghost use Rattle.pres_ids.specs.Numbers.{IsNumber, greatest_number};
ghost use Rattle.pres_client_state.specs.Queues.{is_write, is_on, message, next_write};
ghost use Rattle.pres_client_state.specs.Queues.{action_of};

use pres_tree::Path;
use pres_wire::{Number, SessionId, Up};
use pres_write::{Op, Transaction, Unconditional};
use std::alloc::{AllocError, Global};

/// A message that waits for its answer, without its numbers: these follow from its place.
#[derive(Drop)]
pub enum Queued {
    /// A set, an update or a remove.
    Write {
        request: u64,
        op: Op,
    },
    /// One attempt of a transaction, with its number.
    Try {
        request: u64,
        attempt: u64,
        transaction: Transaction,
    },
    /// An action for the end of the session.
    Left {
        request: u64,
        op: Unconditional,
    },
    /// A cancel of such actions.
    Cancel {
        request: u64,
        path: Path,
    },
    /// Listens to the path, as the request asked.
    On {
        request: u64,
        path: Path,
    },
    /// Listens no more to the path.
    Off {
        path: Path,
    },
}

/// The number of a message, which is the value.
pub fn number(value: u64) -> Number
    requires { IsNumber value }
    ensures { result ≡ value }
{
    let Some(number) = Number::new(value) else {
        unreachable!()
    };
    number
}

impl Queued {
    // Whether it is a write, or an attempt of a transaction.
    pub(crate) fn is_write(&self) -> bool
        ensures { result ≡ is_write self.now }
    {
        matches!(self, Queued::Write { .. } | Queued::Try { .. })
    }

    // Whether it listens to the path.
    pub(crate) fn is_on(&self, path: &Path) -> bool
        ensures { result ≡ is_on path.now self.now }
    {
        match self {
            Queued::On { path: asked, .. } => asked == path,
            _ => false,
        }
    }

    /// The request of an action for the end of the session, or of a cancel.
    pub fn action(&self) -> Option<u64>
        ensures { result ≡ action_of self.now }
    {
        match self {
            Queued::Left { request, .. } | Queued::Cancel { request, .. } => Some(*request),
            _ => None,
        }
    }

    // The number of the next write after it, where that of the next one before it is `n`.
    pub(crate) fn next_write(&self, n: u64) -> u64
        requires { n ≤ greatest_number + 1 }
        ensures { result ≡ next_write n self.now }
    {
        if self.is_write() { n + 1 } else { n }
    }

    /// The message with its number in its session, and the number of the write where it is one.
    pub fn message(
        &self,
        alloc: Global,
        session: &SessionId,
        q: Number,
        n: u64,
    ) -> Result<Up, AllocError>
        requires { is_write self.now ≡ true → IsNumber n }
        ensures { IfOk result (λ m. m ≡ message session.now q n self.now) }
    {
        let session = session.copy(alloc)?;
        match self {
            Queued::Write { op, .. } => {
                let n = number(n);
                let op = op.copy(alloc)?;
                Ok(Up::Op { session, q, n, op })
            }
            Queued::Try { transaction, .. } => {
                let n = number(n);
                let op = Op::Tx(transaction.copy(alloc)?);
                Ok(Up::Op { session, q, n, op })
            }
            Queued::Left { op, .. } => {
                let op = op.copy(alloc)?;
                Ok(Up::Left { session, q, op })
            }
            Queued::Cancel { path, .. } => {
                let path = path.copy(alloc)?;
                Ok(Up::Cancel { session, q, path })
            }
            Queued::On { path, .. } => {
                let path = path.copy(alloc)?;
                Ok(Up::On { session, q, path })
            }
            Queued::Off { path } => {
                let path = path.copy(alloc)?;
                Ok(Up::Off { session, q, path })
            }
        }
    }
}
