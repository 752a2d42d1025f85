//! What is printed about commits and checkpoints on the error stream.

use crate::health::{Health, is_odd};
use std::io::Write;

// What is printed when something begins to be refused, and when it is taken again.
#[derive(Clone, Copy)]
struct Lines {
    refused: &'static str,
    taken: &'static str,
}

const COMMITS: Lines = Lines {
    refused: "presence: commits are refused\n",
    taken: "presence: commits are taken again\n",
};

const CHECKPOINTS: Lines = Lines {
    refused: "presence: checkpoints are refused\n",
    taken: "presence: checkpoints are taken again\n",
};

/// Prints when commits begin to be refused, and when they are taken again; so it does for checkpoints.
#[derive(Drop)]
pub(crate) struct Notices {
    commits: Told,
    checkpoints: Told,
}

impl Notices {
    /// Nothing was printed yet.
    pub(crate) fn new() -> Notices {
        Notices {
            commits: Told::new(),
            checkpoints: Told::new(),
        }
    }

    /// Prints what became of commits and of checkpoints since the last time.
    pub(crate) fn tell<F: Write>(&mut self, health: &Health, faults: &mut F) {
        self.commits.tell(COMMITS, health.commit_changes(), faults);
        self.checkpoints
            .tell(CHECKPOINTS, health.checkpoint_changes(), faults);
    }
}

// How many changes of the fate of something were reported.
#[derive(Drop)]
struct Told {
    changes: usize,
}

impl Told {
    fn new() -> Told {
        Told { changes: 0 }
    }

    // Prints the fate since the last time: both lines, if it changed and changed back.
    fn tell<F: Write>(&mut self, lines: Lines, changes: usize, faults: &mut F) {
        if changes == self.changes {
            return;
        }
        if is_odd(changes) == is_odd(self.changes) {
            tell_fate(faults, lines, !is_odd(changes));
        }
        tell_fate(faults, lines, is_odd(changes));
        self.changes = changes;
    }
}

// If the error stream fails there is nothing left to do.
fn tell_fate<F: Write>(faults: &mut F, lines: Lines, is_refused: bool) {
    let line = if is_refused {
        lines.refused
    } else {
        lines.taken
    };
    let _ = faults.write_all(line.as_bytes());
}
