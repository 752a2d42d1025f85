//! What a client keeps: messages that wait for their answers, what waits to be handed out, the paths
//! that it listens to, and the transactions that ask.
#![tactic(auto)]

mod ask;
mod client_queues;
mod notice;
mod queued;
mod watch;

pub use ask::{Ask, Asks};
pub use client_queues::{ClientQueues, sole};
pub use notice::{Notice, alone};
pub use queued::{Queued, number};
pub use watch::{Shown, Watch, Watches};
