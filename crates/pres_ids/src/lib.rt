//! Clients, their sessions, and the numbers that messages carry.
#![tactic(auto)]

mod as_json;
mod id;
mod number;
mod pair;

pub use as_json::{
    read_count, read_number, read_session, read_stamp, read_why, session_value, stamp_value,
    write_number, write_session,
};
pub use id::{ClientId, IdFault, SessionId, Stamp, Why};
pub use number::{Count, Number};
pub use pair::pair_of;
