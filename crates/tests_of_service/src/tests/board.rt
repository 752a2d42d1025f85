//! What a client prints, seen by another thread.

use std::alloc::{AllocError, Global};
use std::io;
use std::io::Write;
use std::sync::{Condvar, Mutex, Wait};
use std::time::{Clock, Duration};

// How long a text is waited for, in seconds.
const MOST_WAIT_SECONDS: u64 = 30;

/// What was printed so far, and who waits for more.
#[derive(Drop)]
pub(crate) struct Board {
    bytes: Mutex<Vec<u8>>,
    grown: Condvar,
}

/// Whether the part stands in these bytes.
pub(crate) fn has_part(bytes: &[u8], part: &str) -> bool {
    bytes
        .windows(part.len().max(1))
        .any(|window| window == part.as_bytes())
}

impl Board {
    /// Nothing was printed.
    pub(crate) fn new(alloc: Global) -> Board {
        Board {
            bytes: Mutex::new(Vec::new(alloc)),
            grown: Condvar::new(),
        }
    }

    /// Waits until the text was printed, and no longer than 30 seconds.
    pub(crate) fn wait_for<R: Wait + Clock>(&self, rt: &R, text: &str) {
        let bytes = self.bytes.lock(rt);
        let waits = |bytes: &mut Vec<u8>| !has_part(bytes.as_slice(), text);
        let most = Duration::from_secs(MOST_WAIT_SECONDS);
        drop(self.grown.wait_timeout_while(rt, bytes, most, waits));
    }

    /// What was printed.
    pub(crate) fn text<R: Wait>(&self, rt: &R, alloc: Global) -> Result<String, AllocError> {
        let bytes = self.bytes.lock(rt);
        String::from_str(
            alloc,
            std::str::from_utf8(bytes.as_slice()).unwrap_or("no text"),
        )
    }
}

/// What prints onto a board.
#[derive(Drop)]
pub(crate) struct Pen<'a, R> {
    pub(crate) rt: &'a R,
    pub(crate) board: &'a Board,
}

impl<R: Wait> Write for Pen<'_, R> {
    fn write(&mut self, buf: &[u8]) -> io::Result<usize> {
        self.board.bytes.lock(self.rt).extend_from_slice(buf)?;
        self.board.grown.notify_all();
        Ok(buf.len())
    }

    fn flush(&mut self) -> io::Result<()> {
        Ok(())
    }
}
