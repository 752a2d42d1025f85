//! How many streams there are, and how often they may wake.
ghost use Rattle.std.specs.Prelude.{◌≤◌};

use std::sync::atomic::{AtomicUsize, Ordering};

// How many streams of a process wake in a millisecond at most, up to `64 * MOST_REST_MILLIS` streams.
const WAKES_A_MILLI: usize = 64;

const MOST_REST_MILLIS: usize = 16;

/// How many streams are open, and how many connections are over.
#[derive(Drop)]
pub struct StreamCount {
    open: AtomicUsize,
    over: AtomicUsize,
}

impl StreamCount {
    /// None yet.
    pub fn new() -> StreamCount {
        StreamCount {
            open: AtomicUsize::new(0),
            over: AtomicUsize::new(0),
        }
    }

    /// A further connection is over.
    pub(crate) fn end_one(&self) {
        self.over.fetch_add(1, Ordering::SeqCst);
    }

    /// How many connections are over.
    pub(crate) fn over(&self) -> usize {
        self.over.load(Ordering::SeqCst)
    }

    /// How long a stream rests at most between two rings of its bell, in milliseconds.
    pub(crate) fn longest_rest(&self) -> u64
        ensures least { 1 ≤ result }
        ensures most { result ≤ 16 }
    {
        let open = self.open.load(Ordering::SeqCst);
        (open / WAKES_A_MILLI).clamp(1, MOST_REST_MILLIS) as u64
    }
}

/// One of the crowd, for as long as it is there.
pub(crate) struct OpenStream<'a> {
    crowd: &'a StreamCount,
}

impl<'a> OpenStream<'a> {
    pub(crate) fn new(crowd: &'a StreamCount) -> OpenStream<'a> {
        crowd.open.fetch_add(1, Ordering::SeqCst);
        OpenStream { crowd }
    }

    /// How long it rests at most between two rings of its bell, in milliseconds.
    pub(crate) fn longest_rest(&self) -> u64
        ensures least { 1 ≤ result }
        ensures most { result ≤ 16 }
    {
        self.crowd.longest_rest()
    }
}

impl Drop for OpenStream<'_> {
    fn drop(self) {
        self.crowd.open.fetch_sub(1, Ordering::SeqCst);
        let OpenStream { crowd: _ } = self;
    }
}
