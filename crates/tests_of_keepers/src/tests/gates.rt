//! A gate that holds a caller.

use pres_hub::Gate;
use std::process::Abort;
use std::sync::atomic::{AtomicBool, AtomicU64, Ordering};
use std::thread;
use std::time::{Clock, Duration};

// How often a caller looks whether it may go on. Between two looks it sleeps for a millisecond.
const TURNS: u32 = 10_000;

/// Holds one caller at its first call until a whole call of another one is over, from its gate to its
/// answer. The other one waits in the gate until the held one has come, so that it calls meanwhile.
/// Where either waits for 10,000 turns, the test has failed.
#[derive(Drop)]
pub(crate) struct Holding<'a, R> {
    rt: &'a R,
    held: u64,
    has_come: AtomicBool,
    others: AtomicU64,
}

impl<'a, R> Holding<'a, R> {
    /// Holds the caller of this number.
    pub(crate) fn of(rt: &'a R, held: u64) -> Holding<'a, R> {
        Holding {
            rt,
            held,
            has_come: AtomicBool::new(false),
            others: AtomicU64::new(0),
        }
    }

    // Whether the other caller came twice: then it has the answer to its first call.
    fn was_other_answered(&self) -> bool {
        self.others.load(Ordering::SeqCst) >= 2
    }

    // Whether the held caller has come.
    fn has_come(&self) -> bool {
        self.has_come.load(Ordering::SeqCst)
    }
}

impl<R: Abort + Clock> Holding<'_, R> {
    // Waits until the other caller was answered.
    fn wait_for_other(&self) {
        for _ in 0..TURNS {
            if self.was_other_answered() {
                return;
            }
            thread::sleep(self.rt, Duration::from_millis(1));
        }
        panic!(self.rt; "no other caller was answered while this one was held");
    }

    // Waits until the held caller has come.
    fn wait_for_held(&self) {
        for _ in 0..TURNS {
            if self.has_come() {
                return;
            }
            thread::sleep(self.rt, Duration::from_millis(1));
        }
        panic!(self.rt; "the caller that is to be held did not come");
    }
}

impl<R: Abort + Clock> Gate for Holding<'_, R> {
    fn pass(&self, caller: u64) {
        if caller != self.held {
            self.wait_for_held();
            self.others.fetch_add(1, Ordering::SeqCst);
        } else if !self.has_come.swap(true, Ordering::SeqCst) {
            self.wait_for_other();
        }
    }
}
