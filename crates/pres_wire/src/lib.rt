//! Sessions, and the messages between a client and the server.
#![tactic(auto)]

mod down;
mod down_field;
mod down_form;
mod down_read;
mod down_text;
mod fault;
mod field;
pub mod field_text;
mod form;
pub mod part;
mod up;
mod values;

pub use down::{Code, Down, Limit, read_limit};
pub use fault::{Field, WireFault};
pub use form::MessageForm;
pub use pres_ids::{ClientId, Count, IdFault, Number, SessionId, Stamp, Why};
pub use up::{MAX_TEXT_BYTES, Up};
pub use values::{PathValue, Values};
