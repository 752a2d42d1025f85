//! The parts of a base.

use pres_ids::{ClientId, Count, SessionId, Stamp};
use pres_plan::PlanRow;
use pres_retry::Answers;
use pres_tree::{Path, Tree};
use pres_write::{Items, Moment};

/// A client that had a session.
#[derive(Drop)]
pub struct ClientPart {
    pub id: ClientId,
    /// The stamp of its last session.
    pub last: Stamp,
    /// The answers to its writes.
    pub rows: Answers,
}

/// An open session.
#[derive(Drop)]
pub struct SessionPart {
    pub session: SessionId,
    /// The number of its client's last message.
    pub q: Count,
    /// The number of the last message to its client.
    pub r: Count,
    /// The places that it listens to.
    pub listens: Items<Path>,
    /// What it leaves for its end.
    pub plan: Items<PlanRow>,
}

/// What a server is after a log.
#[derive(Drop)]
pub struct BaseParts {
    /// How many batches the log has.
    pub batches: Count,
    /// Its greatest moment.
    pub moment: Moment,
    /// How many entries it has.
    pub number: Count,
    pub tree: Tree,
    /// The clients that had a session.
    pub clients: Items<ClientPart>,
    /// The open sessions.
    pub sessions: Items<SessionPart>,
}
