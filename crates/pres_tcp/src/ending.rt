//! A stream that ends with its server.

use crate::buffer::Buffered;
use crate::frames::Traffic;
use crate::health::Health;
use pres_websocket::Nonblocking;
use std::alloc::Global;
use std::cell::Cell;
use std::io;
use std::io::{ErrorKind, Read, Write};

/// How long a write waits at a time for a peer that doesn't read, in milliseconds.
pub(crate) const WRITE_MILLIS: u64 = 250;

// How often a write waits for it.
const WRITE_TRIES: u32 = 20;

// What closes a WebSocket whose server goes away: a frame with the code 1001 (RFC 6455, 5.5.1 and 7.4.1).
const GOING_AWAY: &[u8] = &[0x88, 2, 0x03, 0xe9];

// The most bytes of a request that are kept until it is answered.
const MOST_REQUEST: usize = 4_096;

// How many reads wait for the peer's part of a close.
const PART_READS: u32 = 20;

/// A stream that fails once the server can't go on, and whose reads fail once the server is to end. A
/// write that waits for the peer looks for that from time to time.
#[derive(Drop)]
pub(crate) struct Ending<'a, S> {
    stream: S,
    health: &'a Health,
    // Whether reads give only what the stream has read already.
    nonblocking: Cell<bool>,
    // What was read, until something is written; none if that is too much.
    request: Option<Vec<u8>>,
    // None once it is known that no WebSocket is opened.
    traffic: Option<Traffic>,
}

impl<'a, S> Ending<'a, S> {
    pub(crate) fn new(alloc: Global, stream: S, health: &'a Health) -> Ending<'a, S> {
        Ending {
            stream,
            health,
            nonblocking: Cell::new(false),
            request: Some(Vec::new(alloc)),
            traffic: Some(Traffic::new()),
        }
    }

    /// The request of a peer that opens no WebSocket: what was read, if nothing was written yet and it isn't
    /// more than a short request. No further message is counted.
    pub(crate) fn take_request(&mut self) -> Option<Vec<u8>> {
        drop(self.traffic.take());
        self.request.take()
    }

    // Keeps what was read.
    fn keep(&mut self, bytes: &[u8]) {
        let Some(request) = &mut self.request else {
            return;
        };
        let length = request.len().saturating_add(bytes.len());
        if length > MOST_REQUEST || request.extend_from_slice(bytes).is_err() {
            drop(self.request.take());
        }
    }

    // Counts the messages in what was written.
    fn note_written(&mut self, bytes: &[u8]) {
        if let Some(traffic) = &mut self.traffic {
            traffic.write(bytes, self.health.meter());
        }
    }

    // Fails where the server can't go on.
    fn look(&self) -> io::Result<()> {
        match self.health.halt() {
            Some(_) => Err(io::Error::from(ErrorKind::ConnectionAborted)),
            None => Ok(()),
        }
    }
}

impl<S: Read + Write> Ending<'_, S> {
    /// If the server is to end, closes the WebSocket over the stream, which is between two frames, and
    /// waits a while for the peer to close it too.
    pub(crate) fn part(&mut self) {
        if !self.health.is_ending() || self.write_all(GOING_AWAY).is_err() {
            return;
        }
        let mut rest = [0; 256];
        for _ in 0..PART_READS {
            match self.stream.read(&mut rest) {
                Ok(0) => return,
                Ok(_) => {}
                Err(error) => if error.kind() != ErrorKind::WouldBlock {
                    return;
                },
            }
        }
    }
}

impl<S> Nonblocking for Ending<'_, S> {
    fn set_nonblocking(&self, nonblocking: bool) {
        self.nonblocking.set(nonblocking);
    }
}

impl<S: Read + Buffered> Read for Ending<'_, S> {
    fn read(&mut self, buf: &mut [u8]) -> io::Result<usize> {
        self.look()?;
        if self.health.is_ending() {
            return Err(io::Error::from(ErrorKind::ConnectionAborted));
        }
        if self.nonblocking.get() && !self.stream.has_bytes() {
            return Err(io::Error::from(ErrorKind::WouldBlock));
        }
        let count = self.stream.read(buf)?;
        if let Some(bytes) = buf.get(..count) {
            self.keep(bytes);
            if let Some(traffic) = &mut self.traffic {
                traffic.read(bytes, self.health.meter());
            }
        }
        Ok(count)
    }
}

impl<S: Write> Write for Ending<'_, S> {
    fn write(&mut self, buf: &[u8]) -> io::Result<usize> {
        drop(self.request.take());
        for _ in 0..WRITE_TRIES {
            self.look()?;
            match self.stream.write(buf) {
                Err(error) if error.kind() == ErrorKind::WouldBlock && !self.health.is_ending() =>
                    {}
                Ok(count) => {
                    self.note_written(buf.get(..count).unwrap_or(buf));
                    return Ok(count);
                }
                failed => return failed,
            }
        }
        Err(io::Error::from(ErrorKind::WouldBlock))
    }

    fn flush(&mut self) -> io::Result<()> {
        self.stream.flush()
    }
}
