//! What requests the end of a server.

use mio::unix::SourceFd;
use mio::{Events, Interest, Poll, Token};
use std::alloc::Global;
use std::io;
use std::io::{ErrorKind, Read};
use std::net::Net;
use std::os::fd::RawFd;
use std::time::Duration;

const INPUT: Token = Token(0);

// How many bytes of the input are skipped at a time.
const PASSED_OVER: usize = 256;

/// What may request the end of a server.
pub trait EndRequest {
    /// Whether the end is requested, now or before. It doesn't wait.
    fn is_made(&mut self) -> bool;
}

/// The end is never requested.
#[derive(Drop)]
pub struct NoRequest;

impl EndRequest for NoRequest {
    fn is_made(&mut self) -> bool {
        false
    }
}

// What says whether a read of a descriptor would wait.
#[derive(Drop)]
struct Watch {
    poll: Poll,
    events: Events,
    descriptor: RawFd,
}

impl Watch {
    fn new(net: &impl Net, alloc: Global, descriptor: RawFd) -> io::Result<Watch> {
        let poll = Poll::new(net)?;
        let events = Events::with_capacity(alloc, 1)?;
        poll.registry()
            .register(&mut SourceFd(&descriptor), INPUT, Interest::READABLE)?;
        Ok(Watch {
            poll,
            events,
            descriptor,
        })
    }

    // Whether there is something to read, or the input has ended. A report comes once: it is asked for
    // anew each time.
    fn is_ready(&mut self) -> bool {
        let descriptor = self.descriptor;
        let asked = self
            .poll
            .registry()
            .reregister(&mut SourceFd(&descriptor), INPUT, Interest::READABLE);
        if asked.is_err() {
            return false;
        }
        let reported = self
            .poll
            .poll(&mut self.events, Some(Duration::from_millis(0)));
        reported.is_ok() && !self.events.is_empty()
    }
}

/// The end of an input requests it. What stands before the end is skipped. An input that can't be read has
/// ended.
#[derive(Drop)]
pub struct InputEnd<'a, R> {
    input: &'a mut R,
    // None if a read doesn't wait, as with a file.
    watch: Option<Watch>,
    has_ended: bool,
}

impl<'a, R> InputEnd<'a, R> {
    /// The end of the input with this descriptor. Without one, and if the system can't watch it,
    /// as with a file, a read must not wait.
    pub fn of(
        net: &impl Net,
        alloc: Global,
        input: &'a mut R,
        descriptor: Option<RawFd>,
    ) -> InputEnd<'a, R> {
        let watch = match descriptor {
            Some(descriptor) => Watch::new(net, alloc, descriptor).ok(),
            None => None,
        };
        InputEnd {
            input,
            watch,
            has_ended: false,
        }
    }
}

impl<R: Read> EndRequest for InputEnd<'_, R> {
    fn is_made(&mut self) -> bool {
        let is_ready = match &mut self.watch {
            Some(watch) => watch.is_ready(),
            None => true,
        };
        if is_ready && !self.has_ended {
            let mut passed = [0; PASSED_OVER];
            self.has_ended = match self.input.read(&mut passed) {
                Ok(count) => count == 0,
                Err(error) => {
                    !matches!(error.kind(), ErrorKind::WouldBlock | ErrorKind::Interrupted)
                }
            };
        }
        self.has_ended
    }
}
