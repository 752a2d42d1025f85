//! The wait for the next connection.

use mio::unix::SourceFd;
use mio::{Events, Interest, Poll, Token};
use std::alloc::Global;
use std::io::ErrorKind;
use std::net::{Net, TcpListener, TcpStream};
use std::os::fd::AsRawFd;
use std::time::{Clock, Duration};
use std::{io, thread};

const LISTENER: Token = Token(0);

// How long a wait for a connection takes at most, in milliseconds.
const WAIT_MILLIS: u64 = 200;

// How long nothing is accepted after a connection that could not be, as where no descriptor is
// left.
const REFUSED_MILLIS: u64 = 50;

// Waits for connections, and reports what happens to them.
#[derive(Drop)]
struct Watch {
    poll: Poll,
    events: Events,
}

impl Watch {
    fn new(net: &impl Net, alloc: Global, listener: &TcpListener) -> io::Result<Watch> {
        let poll = Poll::new(net)?;
        let events = Events::with_capacity(alloc, 1)?;
        let fd = listener.as_raw_fd();
        poll.registry()
            .register(&mut SourceFd(&fd), LISTENER, Interest::READABLE)?;
        Ok(Watch { poll, events })
    }
}

/// Yields the connections of a listener, and waits for none longer than a set time.
#[derive(Drop)]
pub(crate) struct Door {
    listener: TcpListener,
    // None where the system had no descriptor or no memory for it.
    watch: Option<Watch>,
}

impl Door {
    /// The door of this listener, which doesn't block from then on.
    pub(crate) fn at(net: &impl Net, alloc: Global, listener: TcpListener) -> Door {
        // one that blocks all the same is woken by the next connection alone
        let _ = listener.set_nonblocking(true);
        let watch = Watch::new(net, alloc, &listener).ok();
        Door { listener, watch }
    }

    /// The next connection. None where none came for a while, or where it could not be accepted.
    pub(crate) fn accept(&mut self, clock: &impl Clock) -> Option<TcpStream> {
        match self.listener.accept() {
            Ok((stream, _)) => Some(stream),
            Err(error) => {
                self.rest(clock, error.kind());
                None
            }
        }
    }

    // Waits until a connection may be accepted, after one that could not be for this reason.
    fn rest(&mut self, clock: &impl Clock, refusal: ErrorKind) {
        if let (Some(watch), ErrorKind::WouldBlock) = (&mut self.watch, refusal) {
            let wait = Duration::from_millis(WAIT_MILLIS);
            if watch.poll.poll(&mut watch.events, Some(wait)).is_ok() {
                return;
            }
        }
        thread::sleep(clock, Duration::from_millis(REFUSED_MILLIS));
    }
}
