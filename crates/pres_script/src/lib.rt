//! The lines of scripts: what a line of a client says, how its notices are printed, and how the
//! lines of an input are read.
#![tactic(auto)]

mod fault;
mod input;
mod line;
mod lines;
mod notices;

pub use fault::ScriptFault;
pub use input::{bytes_of, texts_of};
pub use line::Line;
pub use lines::{line_of, number_of};
pub use notices::notice_line;
