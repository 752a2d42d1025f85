//! Ends the thread that looks which sessions are to end.

use std::sync::{Condvar, Mutex, Wait};
use std::time::{Clock, Duration};

/// Whether a thread is to end, and whom to notify.
#[derive(Drop)]
pub(crate) struct Stop {
    over: Mutex<bool>,
    told: Condvar,
}

impl Stop {
    /// Not yet.
    pub(crate) fn new() -> Stop {
        Stop {
            over: Mutex::new(false),
            told: Condvar::new(),
        }
    }

    /// Waits for the end, and no longer than this: whether it came.
    pub(crate) fn wait<R: Wait + Clock>(&self, rt: &R, time: Duration) -> bool {
        let guard = self.over.lock(rt);
        let (guard, _) = self.told.wait_timeout_while(rt, guard, time, |over| !*over);
        *guard
    }

    /// Ends it.
    pub(crate) fn end<R: Wait>(&self, rt: &R) {
        *self.over.lock(rt) = true;
        self.told.notify_all();
    }
}
