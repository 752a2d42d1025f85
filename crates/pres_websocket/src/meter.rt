//! A stream that counts its reads.

ghost use Rattle.std.specs.Prelude.{◌≡◌};
ghost use Rattle.pres_websocket.specs.Meters.{is_spent};

use crate::nonblocking::Nonblocking;
use std::io;
use std::io::{ErrorKind, Read, Write};
use std::marker::Model;

/// The greatest number of reads in a row that give nothing.
pub const MAX_IDLE_READS: u32 = 2_000;

/// The greatest number of reads in all.
pub const MAX_READS: u32 = u32::MAX;

/// A stream that refuses to read once its turns are spent. A read that gives nothing returns
/// `WouldBlock`, whichever of three words the stream has for it; a write restarts their count, so
/// that a client that only listens does not run out of turns.
#[derive(Drop)]
pub struct Metered<S> {
    stream: S,
    reads: u32,
    idle: u32,
}

impl<S> Model for Metered<S> {
    ghost use Rattle.pres_websocket.specs.Meters.{Meter, meter_code};

    ghost Value = { Meter S };

    ghost coded = { meter_code S.code };

    ghost view = { λ m. record { stream = m.stream; reads = m.reads; idle = m.idle } };
}

impl<S> Metered<S> {
    /// No reads so far.
    pub(crate) fn new(stream: S) -> Metered<S>
        ensures { result ≡ record { stream = stream; reads = 0; idle = 0 } }
    {
        Metered {
            stream,
            reads: 0,
            idle: 0,
        }
    }

    /// Whether no read is left.
    pub(crate) fn is_spent(&self) -> bool
        ensures { result ≡ is_spent self.now }
    {
        self.reads >= MAX_READS || self.idle >= MAX_IDLE_READS
    }
}

impl<S: Read> Read for Metered<S> {
    ghost remaining = { λ meter. S.remaining meter.stream };

    fn read(&mut self, buf: &mut [u8]) -> io::Result<usize> {
        if self.is_spent() {
            return Err(io::Error::from(ErrorKind::WouldBlock));
        }
        self.reads = self.reads.saturating_add(1);
        match self.stream.read(buf) {
            Ok(count) => {
                self.idle = 0;
                Ok(count)
            }
            Err(error) => match error.kind() {
                ErrorKind::WouldBlock | ErrorKind::TimedOut | ErrorKind::Interrupted => {
                    self.idle = self.idle.saturating_add(1);
                    Err(io::Error::from(ErrorKind::WouldBlock))
                }
                _ => Err(error),
            },
        }
    }
}

impl<S: Write> Write for Metered<S> {
    ghost contents = { λ meter. S.contents meter.stream };

    fn write(&mut self, buf: &[u8]) -> io::Result<usize> {
        self.idle = 0;
        self.stream.write(buf)
    }

    fn flush(&mut self) -> io::Result<()> {
        self.stream.flush()
    }
}

impl<S: Nonblocking> Nonblocking for Metered<S> {
    fn set_nonblocking(&self, nonblocking: bool) {
        self.stream.set_nonblocking(nonblocking);
    }
}
