//! Why a server is of no use any more.

use std::alloc::{AllocError, AllocFailed};
use thiserror::Error;

/// An allocation was refused after the batch was committed: the server is to be rebuilt from
/// the batches that were committed. No other refusal comes from `done`.
#[derive(Clone, Copy, Debug, Error, PartialEq, Eq)]
#[error("out of memory after the commit")]
pub struct Reopen;

impl From<AllocError> for Reopen {
    fn from(_refused: AllocError) -> Reopen {
        Reopen
    }
}

impl<T: Drop> From<AllocFailed<T>> for Reopen {
    fn from(_refused: AllocFailed<T>) -> Reopen {
        Reopen
    }
}
