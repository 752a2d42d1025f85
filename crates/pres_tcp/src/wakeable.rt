//! The stream.

ghost use Rattle.std.specs.Prelude.{◌≡◌, IfErr};

use crate::alarm::{Alarm, StreamBell};
use crate::buffer::{Buffer, Buffered, READ_SIZE};
use crate::rest::Rest;
use crate::stream_count::{OpenStream, StreamCount};
use mio::unix::SourceFd;
use mio::{Events, Interest, Poll, Token, Waker};
use std::alloc::Global;
use std::io;
use std::io::{ErrorKind, Read, Write};
use std::net::{Net, TcpStream};
use std::os::fd::AsRawFd;
use std::sync::Arc;
use std::time::Duration;

const STREAM: Token = Token(0);

const BELL: Token = Token(1);

// A read is made where the system has said that there is something, so it need not wait. This bounds
// one that waits all the same, as where the last bytes filled the buffer exactly.
const FULL_READ_MILLIS: u64 = 1;

// How many reads in a row bring nothing before a stream whose bell hangs waits longer.
const BRIEF_READS: u32 = 20;

/// How long a read waits at most.
#[derive(Clone, Copy, Debug)]
pub struct Waits {
    /// At first, and where no bell hangs.
    pub brief: Duration,
    /// Once reads brought nothing for a while, and the bell hangs: then nothing is missed.
    pub long: Duration,
}

/// A blocking stream whose reads wait for bytes or for the bell, and no longer than a set time. A
/// read that ends by the bell or by the time answers `WouldBlock`. What came together is read at once,
/// and given before the next wait. A write is the stream's own, with its own timeout.
#[derive(Drop)]
pub struct Wakeable<'a> {
    stream: TcpStream,
    buffer: Buffer,
    poll: Poll,
    events: Events,
    alarm: Arc<Alarm, Global>,
    place: OpenStream<'a>,
    waits: Waits,
    // How many reads in a row brought nothing.
    idle_reads: u32,
    was_rung: bool,
    rest: Rest,
    // Whether there may be something to read that `poll` won't report again.
    has_more: bool,
    // Whether the peer has closed, which is reported once.
    is_ended: bool,
}

// What a stream waits by: two descriptors, and what it shares with its bell.
fn parts(
    net: &impl Net,
    alloc: Global,
    stream: &TcpStream,
) -> io::Result<(Poll, Events, Arc<Alarm, Global>, StreamBell)> {
    stream.set_read_timeout(Some(Duration::from_millis(FULL_READ_MILLIS)))?;
    let poll = Poll::new(net)?;
    let events = Events::with_capacity(alloc, 2)?;
    let fd = stream.as_raw_fd();
    poll.registry()
        .register(&mut SourceFd(&fd), STREAM, Interest::READABLE)?;
    let waker = Waker::new(poll.registry(), BELL)?;
    let Ok(alarm) = Arc::new(alloc, Alarm::new(waker)) else {
        return Err(io::Error::from(ErrorKind::OutOfMemory));
    };
    match StreamBell::of(&alarm) {
        Ok(bell) => Ok((poll, events, alarm, bell)),
        Err(_) => Err(io::Error::from(ErrorKind::OutOfMemory)),
    }
}

impl<'a> Wakeable<'a> {
    /// A stream whose reads wait no longer than these times, and its bell. Where the system has no two
    /// descriptors or no memory for it, the stream comes back.
    pub fn new(
        net: &impl Net,
        alloc: Global,
        stream: TcpStream,
        waits: Waits,
        crowd: &'a StreamCount,
    ) -> Result<(Wakeable<'a>, StreamBell), TcpStream>
        ensures back { IfErr result (λ back. back ≡ stream) }
    {
        match parts(net, alloc, &stream) {
            Ok((poll, events, alarm, bell)) => {
                let stream = Wakeable {
                    stream,
                    buffer: Buffer::new(alloc),
                    poll,
                    events,
                    alarm,
                    place: OpenStream::new(crowd),
                    waits,
                    idle_reads: 0,
                    was_rung: false,
                    rest: Rest::new(),
                    has_more: false,
                    is_ended: false,
                };
                Ok((stream, bell))
            }
            Err(_error) => Err(stream),
        }
    }

    // How long the next read waits at most.
    fn wait(&self) -> Duration {
        if self.idle_reads >= BRIEF_READS && self.alarm.hangs() {
            self.waits.long
        } else {
            self.waits.brief
        }
    }

    // Waits until there is something to read, the bell rings or the time is up.
    fn sleep(&mut self) -> io::Result<()> {
        let mut wait = self.wait();
        let rest = Duration::from_millis(self.rest.millis());
        if self.was_rung && !rest.is_zero() {
            self.was_rung = false;
            self.listen(rest)?;
            if self.has_more {
                return Ok(());
            }
            wait = wait.saturating_sub(rest);
        }
        let rings = self.alarm.fall_asleep();
        if rings > 0 {
            self.hear(rings);
            return Ok(());
        }
        let listened = self.listen(wait);
        let rings = self.alarm.wake_up();
        self.hear(rings);
        listened
    }

    // The bell was rung this often since it was heard last.
    fn hear(&mut self, rings: usize) {
        self.was_rung = rings > 0;
        if self.was_rung {
            self.rest.note(rings, self.place.longest_rest());
        }
    }

    // Waits for a report on the stream. Any report is reason to read: the read finds out which.
    fn listen(&mut self, wait: Duration) -> io::Result<()> {
        self.poll.poll(&mut self.events, Some(wait))?;
        for event in &self.events {
            if event.token() == STREAM {
                self.has_more = true;
                if event.is_read_closed() {
                    self.is_ended = true;
                }
            }
        }
        Ok(())
    }
}

impl Wakeable<'_> {
    // Waits until there is something to read.
    fn wait_for_bytes(&mut self) -> io::Result<()> {
        if !self.has_more {
            self.sleep()?;
        }
        if !self.has_more {
            self.idle_reads = self.idle_reads.saturating_add(1);
            return Err(io::Error::from(ErrorKind::WouldBlock));
        }
        self.idle_reads = 0;
        Ok(())
    }

    // Reads what there is, if nothing is left to give.
    fn fill(&mut self) -> io::Result<()> {
        if self.buffer.is_empty() {
            let read = self.buffer.fill(&mut self.stream);
            self.has_more = match &read {
                Ok(count) => *count == READ_SIZE || self.is_ended,
                Err(_error) => false,
            };
            read?;
        }
        Ok(())
    }
}

impl Buffered for Wakeable<'_> {
    fn has_bytes(&self) -> bool {
        !self.buffer.is_empty()
    }
}

impl Read for Wakeable<'_> {
    fn read(&mut self, buf: &mut [u8]) -> io::Result<usize> {
        if self.buffer.is_empty() {
            self.wait_for_bytes()?;
        }
        self.fill()?;
        Ok(self.buffer.give(buf))
    }
}

impl Write for Wakeable<'_> {
    fn write(&mut self, buf: &[u8]) -> io::Result<usize> {
        self.stream.write(buf)
    }

    fn flush(&mut self) -> io::Result<()> {
        self.stream.flush()
    }
}
