//! Whether a server can go on, and what it counts, as its threads share it.

use crate::meter::Meter;
use std::sync::atomic::{AtomicBool, AtomicUsize, Ordering};

/// Why a server can't go on: it has to be started again over what it keeps.
#[derive(Clone, Copy, Debug, PartialEq, Eq)]
pub enum Halt {
    /// The store was shut, and refuses everything from then on.
    Shut,
    /// Memory was refused after a commit, so the hub is down.
    Down,
}

// How often the fate of something changed: odd while it is refused.
#[derive(Drop)]
struct Fate {
    changes: AtomicUsize,
}

impl Fate {
    // It was taken so far.
    fn new() -> Fate {
        Fate {
            changes: AtomicUsize::new(0),
        }
    }

    // It was refused, or taken. Only one thread at a time may say so.
    fn note(&self, is_refused: bool) {
        if is_refused != is_odd(self.changes()) {
            self.changes.fetch_add(1, Ordering::SeqCst);
        }
    }

    fn changes(&self) -> usize {
        self.changes.load(Ordering::SeqCst)
    }
}

/// Whether a server can go on, and is to, whether its commits and its checkpoints are taken, and what it
/// counts.
#[derive(Drop)]
pub struct Health {
    is_shut: AtomicBool,
    is_down: AtomicBool,
    is_ending: AtomicBool,
    commits: Fate,
    checkpoints: Fate,
    meter: Meter,
}

impl Health {
    /// It goes on, and its commits and its checkpoints are taken.
    pub fn new() -> Health {
        Health {
            is_shut: AtomicBool::new(false),
            is_down: AtomicBool::new(false),
            is_ending: AtomicBool::new(false),
            commits: Fate::new(),
            checkpoints: Fate::new(),
            meter: Meter::new(),
        }
    }

    /// Why the server can't go on, where it can't.
    pub fn halt(&self) -> Option<Halt> {
        if self.is_shut.load(Ordering::SeqCst) {
            Some(Halt::Shut)
        } else if self.is_down.load(Ordering::SeqCst) {
            Some(Halt::Down)
        } else {
            None
        }
    }

    /// From now on the server can't go on.
    pub fn end(&self, halt: Halt) {
        match halt {
            Halt::Shut => self.is_shut.store(true, Ordering::SeqCst),
            Halt::Down => self.is_down.store(true, Ordering::SeqCst),
        }
    }

    /// From now on the server is to end.
    pub fn ask_end(&self) {
        self.is_ending.store(true, Ordering::SeqCst);
    }

    /// Whether the server is to end.
    pub fn is_ending(&self) -> bool {
        self.is_ending.load(Ordering::SeqCst)
    }

    /// Whether the server goes on, isn't to end, and its last commit was taken.
    pub fn is_well(&self) -> bool {
        self.halt().is_none() && !self.is_ending() && !is_odd(self.commits.changes())
    }

    /// What the server counts.
    pub fn meter(&self) -> &Meter {
        &self.meter
    }

    /// Notes a commit that was refused, or taken. Only one thread at a time may report commits.
    pub fn note_commit(&self, is_refused: bool) {
        self.commits.note(is_refused);
    }

    /// Notes a checkpoint that was refused, or that wasn't. Only one thread at a time may report
    /// checkpoints.
    pub(crate) fn note_checkpoint(&self, is_refused: bool) {
        self.checkpoints.note(is_refused);
    }

    /// How often the fate of commits changed.
    pub(crate) fn commit_changes(&self) -> usize {
        self.commits.changes()
    }

    /// How often the fate of checkpoints changed.
    pub(crate) fn checkpoint_changes(&self) -> usize {
        self.checkpoints.changes()
    }
}

/// Whether commits, or checkpoints, are refused after this many changes.
pub(crate) fn is_odd(changes: usize) -> bool {
    changes % 2 == 1
}
