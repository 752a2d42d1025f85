//! What a server counts, as its threads share it.

use pres_hub::Moment;
use pres_log::Entry;
use pres_pages::{Counts, EntryCounts, RefusalCounts, SentCounts};
use std::sync::atomic::{AtomicU64, Ordering};

// A number that threads count up.
#[derive(Drop)]
struct Counter {
    count: AtomicU64,
}

impl Counter {
    fn new() -> Counter {
        Counter {
            count: AtomicU64::new(0),
        }
    }

    fn add(&self, more: u64) {
        self.count.fetch_add(more, Ordering::SeqCst);
    }

    fn reset(&self, count: u64) {
        self.count.store(count, Ordering::SeqCst);
    }

    // Makes the count at least this. Only one thread at a time may do so.
    fn raise(&self, count: u64) {
        if count > self.get() {
            self.reset(count);
        }
    }

    // The count, which is 0 from then on.
    fn take(&self) -> u64 {
        self.count.swap(0, Ordering::SeqCst)
    }

    fn get(&self) -> u64 {
        self.count.load(Ordering::SeqCst)
    }
}

// How many entries of each kind were made so far.
#[derive(Drop)]
struct EntryCounters {
    opened: Counter,
    written: Counter,
    again: Counter,
    left: Counter,
    cancelled: Counter,
    denied: Counter,
    on: Counter,
    off: Counter,
    ended: Counter,
}

impl EntryCounters {
    fn new() -> EntryCounters {
        EntryCounters {
            opened: Counter::new(),
            written: Counter::new(),
            again: Counter::new(),
            left: Counter::new(),
            cancelled: Counter::new(),
            denied: Counter::new(),
            on: Counter::new(),
            off: Counter::new(),
            ended: Counter::new(),
        }
    }

    // The counter of entries of this kind.
    fn of(&self, entry: &Entry) -> &Counter {
        match entry {
            Entry::Open { .. } => &self.opened,
            Entry::Op { .. } => &self.written,
            Entry::Again { .. } => &self.again,
            Entry::Left { .. } => &self.left,
            Entry::Cancelled { .. } => &self.cancelled,
            Entry::Denied { .. } => &self.denied,
            Entry::On { .. } => &self.on,
            Entry::Off { .. } => &self.off,
            Entry::Ended { .. } => &self.ended,
        }
    }

    fn counts(&self) -> EntryCounts {
        EntryCounts {
            opened: self.opened.get(),
            written: self.written.get(),
            again: self.again.get(),
            left: self.left.get(),
            cancelled: self.cancelled.get(),
            denied: self.denied.get(),
            on: self.on.get(),
            off: self.off.get(),
            ended: self.ended.get(),
        }
    }
}

// How many messages of each kind were sent so far.
#[derive(Drop)]
struct SentCounters {
    welcome: Counter,
    reply: Counter,
    armed: Counter,
    snap: Counter,
    off_done: Counter,
    denied: Counter,
    push: Counter,
    gone: Counter,
}

impl SentCounters {
    fn new() -> SentCounters {
        SentCounters {
            welcome: Counter::new(),
            reply: Counter::new(),
            armed: Counter::new(),
            snap: Counter::new(),
            off_done: Counter::new(),
            denied: Counter::new(),
            push: Counter::new(),
            gone: Counter::new(),
        }
    }

    // The counter of messages whose word begins with this letter.
    fn of(&self, letter: u8) -> Option<&Counter> {
        match letter {
            b'w' => Some(&self.welcome),
            b'a' => Some(&self.armed),
            b's' => Some(&self.snap),
            b'o' => Some(&self.off_done),
            b'd' => Some(&self.denied),
            b'p' => Some(&self.push),
            b'g' => Some(&self.gone),
            _ => None,
        }
    }

    fn counts(&self, fault: u64) -> SentCounts {
        SentCounts {
            welcome: self.welcome.get(),
            reply: self.reply.get(),
            armed: self.armed.get(),
            snap: self.snap.get(),
            off_done: self.off_done.get(),
            denied: self.denied.get(),
            push: self.push.get(),
            gone: self.gone.get(),
            fault,
        }
    }
}

// How many messages were refused with each code so far.
#[derive(Drop)]
struct RefusalCounters {
    bad: Counter,
    old: Counter,
    session: Counter,
    order: Counter,
    full: Counter,
    busy: Counter,
    spent: Counter,
    down: Counter,
}

impl RefusalCounters {
    fn new() -> RefusalCounters {
        RefusalCounters {
            bad: Counter::new(),
            old: Counter::new(),
            session: Counter::new(),
            order: Counter::new(),
            full: Counter::new(),
            busy: Counter::new(),
            spent: Counter::new(),
            down: Counter::new(),
        }
    }

    // The counter of the code with this digit.
    fn of(&self, digit: u8) -> Option<&Counter> {
        match digit {
            b'1' => Some(&self.bad),
            b'2' => Some(&self.old),
            b'3' => Some(&self.session),
            b'4' => Some(&self.order),
            b'5' => Some(&self.full),
            b'6' => Some(&self.busy),
            b'7' => Some(&self.spent),
            b'8' => Some(&self.down),
            _ => None,
        }
    }

    fn counts(&self) -> RefusalCounts {
        RefusalCounts {
            bad: self.bad.get(),
            old: self.old.get(),
            session: self.session.get(),
            order: self.order.get(),
            full: self.full.get(),
            busy: self.busy.get(),
            spent: self.spent.get(),
            down: self.down.get(),
        }
    }
}

// How many messages were refused, with any code.
fn all_of(refusals: &RefusalCounts) -> u64 {
    let RefusalCounts {
        bad,
        old,
        session,
        order,
        full,
        busy,
        spent,
        down,
    } = *refusals;
    [bad, old, session, order, full, busy, spent, down]
        .iter()
        .fold(0, |all: u64, count| all.saturating_add(*count))
}

// How many seconds have passed since 1970 at the moment.
fn seconds_at(now: Moment) -> u64 {
    now.millis() / 1_000
}

/// What a server counts. It is read without the hub's lock.
#[derive(Drop)]
pub struct Meter {
    number: Counter,
    file_bytes: Counter,
    ended_at_start: Counter,
    connections: Counter,
    over: Counter,
    commits: Counter,
    batches: Counter,
    refused_commits: Counter,
    longest_commit: Counter,
    checkpoints: Counter,
    last_checkpoint: Counter,
    longest_checkpoint: Counter,
    received: Counter,
    sent: SentCounters,
    refusals: RefusalCounters,
    entries: EntryCounters,
}

impl Meter {
    /// Nothing so far.
    pub(crate) fn new() -> Meter {
        Meter {
            number: Counter::new(),
            file_bytes: Counter::new(),
            ended_at_start: Counter::new(),
            connections: Counter::new(),
            over: Counter::new(),
            commits: Counter::new(),
            batches: Counter::new(),
            refused_commits: Counter::new(),
            longest_commit: Counter::new(),
            checkpoints: Counter::new(),
            last_checkpoint: Counter::new(),
            longest_checkpoint: Counter::new(),
            received: Counter::new(),
            sent: SentCounters::new(),
            refusals: RefusalCounters::new(),
            entries: EntryCounters::new(),
        }
    }

    /// The server has begun at this moment: no session is open, and this is the number of the last entry.
    pub fn begin(&self, number: u64, now: Moment) {
        self.number.reset(number);
        self.last_checkpoint.reset(seconds_at(now));
        self.ended_at_start.reset(self.entries.ended.get());
    }

    /// A commit was made.
    pub fn note_commit(&self) {
        self.commits.add(1);
    }

    /// A batch with these entries was committed.
    pub fn note_batch(&self, entries: &[Entry]) {
        self.batches.add(1);
        self.number.add(entries.len() as u64);
        for entry in entries {
            self.entries.of(entry).add(1);
        }
    }

    /// A commit was refused.
    pub fn note_refusal(&self) {
        self.refused_commits.add(1);
    }

    /// A commit took this long, in microseconds. Only one thread at a time may report commits.
    pub fn note_commit_time(&self, micros: u64) {
        self.longest_commit.raise(micros);
    }

    /// The file is this long.
    pub fn note_file_bytes(&self, bytes: u64) {
        self.file_bytes.reset(bytes);
    }

    /// A checkpoint was made at this moment.
    pub fn note_checkpoint(&self, now: Moment) {
        self.checkpoints.add(1);
        self.last_checkpoint.reset(seconds_at(now));
    }

    /// A checkpoint took this long, in microseconds. Only one thread at a time may report
    /// checkpoints.
    pub fn note_checkpoint_time(&self, micros: u64) {
        self.longest_checkpoint.raise(micros);
    }

    /// A message came from a client.
    pub(crate) fn note_received(&self) {
        self.received.add(1);
    }

    /// A message was sent whose text begins with these bytes: those of a Fault with its code, of a Reply with
    /// `done`, of any other with its word.
    pub(crate) fn note_sent(&self, first: &[u8; 9]) {
        let counter = match first[2] {
            b'c' => self.refusals.of(first[8]),
            b'd' => Some(&self.sent.reply),
            _ => self.sent.of(first[6]),
        };
        if let Some(counter) = counter {
            counter.add(1);
        }
    }

    /// A connection was accepted.
    pub(crate) fn begin_one(&self) {
        self.connections.add(1);
    }

    /// A connection is over.
    pub(crate) fn end_one(&self) {
        self.over.add(1);
    }

    /// What was counted so far.
    pub fn counts(&self) -> Counts {
        let entries = self.entries.counts();
        let ended = entries.ended.saturating_sub(self.ended_at_start.get());
        let over = self.over.get();
        let connections = self.connections.get();
        let refusals = self.refusals.counts();
        Counts {
            number: self.number.get(),
            file_bytes: self.file_bytes.get(),
            open_sessions: entries.opened.saturating_sub(ended),
            open_connections: connections.saturating_sub(over),
            connections,
            commits: self.commits.get(),
            batches: self.batches.get(),
            refused_commits: self.refused_commits.get(),
            longest_commit: self.longest_commit.get(),
            checkpoints: self.checkpoints.get(),
            last_checkpoint: self.last_checkpoint.get(),
            longest_checkpoint: self.longest_checkpoint.get(),
            received: self.received.get(),
            sent: self.sent.counts(all_of(&refusals)),
            refusals,
            entries,
        }
    }

    /// What was counted so far. The longest commit and the longest checkpoint are looked for anew from
    /// then on.
    pub(crate) fn take_counts(&self) -> Counts {
        let longest_commit = self.longest_commit.take();
        let longest_checkpoint = self.longest_checkpoint.take();
        Counts {
            longest_commit,
            longest_checkpoint,
            ..self.counts()
        }
    }
}
