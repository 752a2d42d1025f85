//! A stream of known bytes, and the frames of RFC 6455, section 5.2.

use pres_websocket::Nonblocking;
use rtrb::{Consumer, Producer, RingBuffer};
use std::alloc::{AllocError, Global};
use std::io;
use std::io::{ErrorKind, Read, Write};
use std::process::Abort;

/// A request that asks for a WebSocket.
pub(crate) const HEAD: &[u8] =
    b"GET / HTTP/1.1\r\nHost: x\r\nUpgrade: websocket\r\nConnection: Upgrade\r\nSec-WebSocket-Key: dGhlIHNhbXBsZSBub25jZQ==\r\nSec-WebSocket-Version: 13\r\n\r\n";

/// A stream that gives its pieces one after the other, after each a read that gives nothing, and
/// then ends. What is written goes into a ring. The read and the write of these numbers fail, and
/// each failure leaves a byte in another ring.
#[derive(Drop)]
pub(crate) struct Script {
    pieces: Vec<Vec<u8>>,
    piece: usize,
    at: usize,
    reads: u32,
    writes: u32,
    fails: Fails,
    output: Producer<u8, Global>,
    failures: Producer<u8, Global>,
}

/// The ends from which is taken what a stream was written, and how often it failed.
#[derive(Drop)]
pub(crate) struct Traces {
    output: Consumer<u8, Global>,
    failures: Consumer<u8, Global>,
}

/// Which read and which write fail, from 1 on; 0 for none.
#[derive(Clone, Copy, Drop)]
pub(crate) struct Fails {
    pub(crate) read: u32,
    pub(crate) write: u32,
}

/// None fails.
pub(crate) const NONE: Fails = Fails { read: 0, write: 0 };

/// A stream of these pieces, and what it leaves.
pub(crate) fn script_of(
    rt: &impl Abort,
    alloc: Global,
    pieces: Vec<Vec<u8>>,
    fails: Fails,
) -> (Script, Traces) {
    let (output, written) = RingBuffer::new(alloc, 1 << 16).expect(rt, "memory");
    let (failures, failed) = RingBuffer::new(alloc, 2).expect(rt, "memory");
    let script = Script {
        pieces,
        piece: 0,
        at: 0,
        reads: 0,
        writes: 0,
        fails,
        output,
        failures,
    };
    let traces = Traces {
        output: written,
        failures: failed,
    };
    (script, traces)
}

impl Script {
    // The call fails, and leaves a byte.
    fn fail(&mut self, kind: ErrorKind) -> io::Error {
        let _ = self.failures.push(1);
        io::Error::from(kind)
    }
}

impl Read for Script {
    fn read(&mut self, buf: &mut [u8]) -> io::Result<usize> {
        self.reads = self.reads.saturating_add(1);
        if self.reads == self.fails.read {
            return Err(self.fail(ErrorKind::ConnectionReset));
        }
        let Some(piece) = self.pieces.get(self.piece) else {
            return Ok(0);
        };
        let left = piece.get(self.at..).unwrap_or(&[]);
        if left.is_empty() {
            self.piece = self.piece.saturating_add(1);
            self.at = 0;
            return Err(io::Error::from(ErrorKind::WouldBlock));
        }
        let count = left.len().min(buf.len());
        buf[..count].copy_from_slice(&left[..count]);
        self.at = self.at.saturating_add(count);
        Ok(count)
    }
}

// its reads never wait
impl Nonblocking for Script {}

impl Write for Script {
    fn write(&mut self, buf: &[u8]) -> io::Result<usize> {
        self.writes = self.writes.saturating_add(1);
        if self.writes == self.fails.write {
            return Err(self.fail(ErrorKind::BrokenPipe));
        }
        for byte in buf {
            if self.output.push(*byte).is_err() {
                return Err(io::Error::from(ErrorKind::BrokenPipe));
            }
        }
        Ok(buf.len())
    }

    fn flush(&mut self) -> io::Result<()> {
        Ok(())
    }
}

// A frame without its payload, and without its mask, whose bit is this.
fn head(rt: &impl Abort, alloc: Global, opcode: u8, mask: u8, len: usize) -> Vec<u8> {
    let mut bytes = Vec::new(alloc);
    bytes.push(0x80 | opcode).expect(rt, "memory");
    let len = len as u64;
    if len < 126 {
        bytes.push(mask | len as u8).expect(rt, "memory");
    } else if len < 1 << 16 {
        bytes.push(mask | 126).expect(rt, "memory");
        bytes
            .extend_from_slice(&(len as u16).to_be_bytes())
            .expect(rt, "memory");
    } else {
        bytes.push(mask | 127).expect(rt, "memory");
        bytes
            .extend_from_slice(&len.to_be_bytes())
            .expect(rt, "memory");
    }
    bytes
}

/// A client's frame, whose mask is 0.
pub(crate) fn frame(rt: &impl Abort, alloc: Global, opcode: u8, payload: &[u8]) -> Vec<u8> {
    let mut bytes = head(rt, alloc, opcode, 0x80, payload.len());
    bytes.extend_from_slice(&[0, 0, 0, 0]).expect(rt, "memory");
    bytes.extend_from_slice(payload).expect(rt, "memory");
    bytes
}

/// A server's frame.
pub(crate) fn server_frame(rt: &impl Abort, alloc: Global, text: &str) -> Vec<u8> {
    let mut bytes = head(rt, alloc, 1, 0, text.len());
    bytes
        .extend_from_slice(text.as_bytes())
        .expect(rt, "memory");
    bytes
}

// The bytes that were written.
fn bytes_of(rt: &impl Abort, alloc: Global, mut written: Consumer<u8, Global>) -> Vec<u8> {
    let mut bytes = Vec::new(alloc);
    for _ in 0..1 << 16 {
        let Ok(byte) = written.pop() else {
            break;
        };
        bytes.push(byte).expect(rt, "memory");
    }
    bytes
}

// What follows the answer to the request, where that is whole.
fn frames_in(bytes: &[u8]) -> Option<&[u8]> {
    let end = b"\r\n\r\n";
    let at = bytes
        .windows(end.len())
        .position(|part| part == end.as_slice())?;
    bytes.get(at.saturating_add(end.len())..)
}

// The opcode and the payload of the first frame, and what comes after it. Payloads are short, and
// masks are 0.
fn first_frame(bytes: &[u8]) -> Option<(u8, &[u8], &[u8])> {
    let (opcode, short) = (*bytes.first()? & 15, *bytes.get(1)?);
    let (from, len): (usize, usize) = if short & 127 < 126 {
        (2, (short & 127) as usize)
    } else {
        let (high, low) = (*bytes.get(2)?, *bytes.get(3)?);
        (4, (high as usize) << 8 | low as usize)
    };
    let mask_len = if short >= 128 { 4 } else { 0 };
    let rest = bytes.get(from.saturating_add(mask_len)..)?;
    if rest.len() < len {
        return None;
    }
    let (payload, behind) = rest.split_at(len);
    Some((opcode, payload, behind))
}

/// The texts of these frames, each on a line, and `close` for a close.
pub(crate) fn texts_in(rt: &impl Abort, alloc: Global, frames: &[u8]) -> String {
    let mut rest = frames;
    let mut said = String::new(alloc);
    for _ in 0..1000 {
        let Some((opcode, payload, behind)) = first_frame(rest) else {
            break;
        };
        match opcode {
            1 => said
                .push_str(std::str::from_utf8(payload).expect(rt, "UTF-8"))
                .expect(rt, "memory"),
            8 => said.push_str("close").expect(rt, "memory"),
            _ => said.push_str("another frame").expect(rt, "memory"),
        }
        said.push_str("\n").expect(rt, "memory");
        rest = behind;
    }
    said
}

/// What a stream recorded: whether one of its calls failed, and the texts that were sent after a
/// whole answer to the request, where there was one.
#[derive(Drop)]
pub(crate) struct Heard {
    pub(crate) failed: bool,
    pub(crate) sent: Option<String>,
}

/// What a stream recorded.
pub(crate) fn told(rt: &impl Abort, alloc: Global, traces: Traces) -> Heard {
    let Traces {
        output,
        mut failures,
    } = traces;
    let failed = failures.pop().is_ok();
    let bytes = bytes_of(rt, alloc, output);
    let sent = match frames_in(bytes.as_slice()) {
        Some(frames) => Some(texts_in(rt, alloc, frames)),
        None => None,
    };
    Heard { failed, sent }
}

/// The texts that were sent, each on a line, and `close` for a close.
pub(crate) fn said(rt: &impl Abort, alloc: Global, traces: Traces) -> String {
    let Heard { failed: _, sent } = told(rt, alloc, traces);
    sent.unwrap_or(String::new(alloc))
}
