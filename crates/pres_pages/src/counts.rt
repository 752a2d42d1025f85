//! What a server has counted.

/// How many entries of each kind were made.
#[derive(Clone, Copy, Debug)]
pub struct EntryCounts {
    pub opened: u64,
    pub written: u64,
    pub again: u64,
    pub left: u64,
    pub cancelled: u64,
    pub denied: u64,
    pub on: u64,
    pub off: u64,
    pub ended: u64,
}

/// How many messages of each kind were sent.
#[derive(Clone, Copy, Debug)]
pub struct SentCounts {
    pub welcome: u64,
    pub reply: u64,
    pub armed: u64,
    pub snap: u64,
    pub off_done: u64,
    pub denied: u64,
    pub push: u64,
    pub gone: u64,
    pub fault: u64,
}

/// How many messages were refused with each code.
#[derive(Clone, Copy, Debug)]
pub struct RefusalCounts {
    pub bad: u64,
    pub old: u64,
    pub session: u64,
    pub order: u64,
    pub full: u64,
    pub busy: u64,
    pub spent: u64,
    pub down: u64,
}

/// What a server has counted.
#[derive(Clone, Copy, Debug)]
pub struct Counts {
    /// The number of the last entry.
    pub number: u64,
    /// The length of the file, 0 where it can't be seen.
    pub file_bytes: u64,
    pub open_sessions: u64,
    pub open_connections: u64,
    /// How many connections were accepted since the start.
    pub connections: u64,
    /// How many commits were made since the start, how many batches they had, and how many commits
    /// were refused.
    pub commits: u64,
    pub batches: u64,
    pub refused_commits: u64,
    /// How long the longest commit took since the metrics were read last, in microseconds.
    pub longest_commit: u64,
    /// How many checkpoints were made since the start.
    pub checkpoints: u64,
    /// When the last checkpoint was made, or else when the server started, in seconds since 1970.
    pub last_checkpoint: u64,
    /// How long the longest checkpoint took since the metrics were read last, in microseconds.
    pub longest_checkpoint: u64,
    /// How many messages came from clients since the start.
    pub received: u64,
    pub sent: SentCounts,
    pub refusals: RefusalCounts,
    pub entries: EntryCounts,
}
