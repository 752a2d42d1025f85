//! The command line: its words, what each of them runs, and the exit statuses.
#![tactic(auto)]

mod advice;
mod program;
mod words;

pub use advice::{client_advice, server_advice};
pub use program::{explain_unread, presence_run};
pub use words::{ClientWords, Listing, Request, ServerWords, Viewing, read_words};
