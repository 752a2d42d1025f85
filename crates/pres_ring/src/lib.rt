//! A ring for each open session: the turn's thread puts the session's messages on one end, a
//! connection takes them from the other, in another thread and without waiting. What is taken is at
//! all times a beginning of the session's transcript in some history in which it was opened. The
//! feeds of all sessions stand in one map, by session: a session that didn't take its messages in
//! time is found there and marked.
#![tactic(auto)]

mod feed;
pub mod laws;
mod lines;
mod opening;
mod outbox;
mod rule;
mod session_feed;

pub use feed::Feed;
pub use lines::Lines;
pub use opening::{Opening, open};
pub use outbox::Outbox;
pub use rule::{CAPACITY, Rule};
