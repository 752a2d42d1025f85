//! Answers to numbered writes, kept for good: a write that is sent again gets the answer that it
//! had.
#![tactic(auto)]

mod answers;
mod fault;
mod shelf;
mod table;

pub use answers::{Answer, Answers, AnswersIter, KeptRef, Verdict};
pub use fault::RetryFault;
pub use table::{RetryTable, Row};
