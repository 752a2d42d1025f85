//! A connection that brings something that is no message, and a write after it.

ghost use Rattle.std.specs.Prelude.{◌≡◌, ◌^◌};

use crate::callers::{now, tick};
use anyhow::{Result, anyhow};
use pres_hub::{Core, Hub, MemKeeper, NoBell, OpenGate};
use pres_sock::{Clock, serve_stream};
use pres_websocket::{Nonblocking, SockFault};
use std::alloc::{AllocError, Global};
use std::io::{ErrorKind, Read, Write};
use std::marker::Brand;
use std::sync::Wait;
use std::sync::ledger::{Blank, Ledger};
use std::thread::Threads;
use std::{io, time};

// A request that asks for a WebSocket.
const HEAD: &[u8] =
    b"GET / HTTP/1.1\r\nHost: x\r\nUpgrade: websocket\r\nConnection: Upgrade\r\nSec-WebSocket-Key: dGhlIHNhbXBsZSBub25jZQ==\r\nSec-WebSocket-Version: 13\r\n\r\n";

// What frames of texts carry.
const HELLO: &[u8] = br#"{"m":"hello","s":["alice",1,1]}"#;

const NO_JSON: &[u8] = br#"{"m":"beat""#;

const WRITE: &[u8] =
    br#"{"m":"op","n":1,"op":{"op":"set","path":"/a","value":1},"q":1,"s":["alice",1,1]}"#;

// This many bytes are one more than a message may have.
const TOO_LONG: u64 = 1_048_577;

// A client's frame of RFC 6455, section 5.2, up to its payload of this many bytes. The mask is 0.
fn head(alloc: Global, opcode: u8, len: u64) -> Result<Vec<u8>, AllocError> {
    let mut bytes = Vec::new(alloc);
    bytes.push(0x80 | opcode)?;
    if len < 126 {
        bytes.push(0x80 | len as u8)?;
    } else {
        bytes.push(0x80 | 127)?;
        bytes.extend_from_slice(&len.to_be_bytes())?;
    }
    bytes.extend_from_slice(&[0, 0, 0, 0])?;
    Ok(bytes)
}

// A frame with a payload of fewer than 126 bytes.
fn frame(alloc: Global, opcode: u8, payload: &[u8]) -> Result<Vec<u8>, AllocError> {
    let mut bytes = head(alloc, opcode, payload.len() as u64)?;
    bytes.extend_from_slice(payload)?;
    Ok(bytes)
}

// A text that is too long.
fn long_frame(alloc: Global) -> Result<Vec<u8>, AllocError> {
    let mut bytes = head(alloc, 1, TOO_LONG)?;
    for _ in 0..TOO_LONG {
        bytes.push(b'x')?;
    }
    Ok(bytes)
}

// The pieces that the connection brings: a Hello, what is no message, and a write.
fn pieces(alloc: Global) -> Result<Vec<Vec<u8>>, AllocError> {
    let mut head = Vec::new(alloc);
    head.extend_from_slice(HEAD)?;
    let mut pieces = Vec::new(alloc);
    pieces.push(head)?;
    pieces.push(frame(alloc, 1, HELLO)?)?;
    pieces.push(frame(alloc, 1, NO_JSON)?)?;
    pieces.push(frame(alloc, 2, b"1")?)?;
    pieces.push(long_frame(alloc)?)?;
    pieces.push(frame(alloc, 1, WRITE)?)?;
    pieces.push(frame(alloc, 8, b"")?)?;
    Ok(pieces)
}

// A stream that gives its pieces one after the other, after each a read that gives nothing, and
// then ends. What is written is dropped.
#[derive(Drop)]
struct Brought {
    pieces: Vec<Vec<u8>>,
    piece: usize,
    at: usize,
}

impl Read for Brought {
    fn read(&mut self, buf: &mut [u8]) -> io::Result<usize> {
        let Some(piece) = self.pieces.get(self.piece) else {
            return Ok(0);
        };
        let left = piece.get(self.at..).unwrap_or(&[]);
        if left.is_empty() {
            self.piece = self.piece.saturating_add(1);
            self.at = 0;
            return Err(io::Error::from(ErrorKind::WouldBlock));
        }
        let count = left.len().min(buf.len());
        buf[..count].copy_from_slice(&left[..count]);
        self.at = self.at.saturating_add(count);
        Ok(count)
    }
}

// its reads never wait
impl Nonblocking for Brought {}

impl Write for Brought {
    fn write(&mut self, buf: &[u8]) -> io::Result<usize> {
        Ok(buf.len())
    }

    fn flush(&mut self) -> io::Result<()> {
        Ok(())
    }
}

// One moment.
#[derive(Drop)]
struct Stopped;

impl Clock for Stopped {
    fn now(&mut self) -> u64 {
        1000
    }
}

// Why a connection ended, in a word.
fn word(fault: &SockFault) -> &'static str {
    match fault {
        SockFault::Handshake(_) => "handshake",
        SockFault::Stream(_) => "stream",
        SockFault::Hub(_) => "hub",
        SockFault::Memory => "memory",
        SockFault::Turns => "turns",
    }
}

// The end in words.
fn end_text(ended: Result<(), SockFault>) -> &'static str {
    match ended {
        Ok(()) => "closed",
        Err(fault) => word(&fault),
    }
}

// A tick of the hub: whether it was carried out, or else the hub is down.
fn ticked<L: Ledger, R: Wait>(rt: &R, hub: &Hub<L, MemKeeper, NoBell, OpenGate>) -> Result<bool> {
    let mut core = hub.enter(rt, 0);
    let ticked = tick(&mut *core);
    drop(core);
    ticked
}

// One connection to a new hub, and then a tick, with a ledger that the caller picks.
fn served_with<L: Ledger + Send + Sync, R: Wait + Threads + time::Clock + Sync>(
    rt: &R,
    alloc: Global,
    blank: Blank,
    stream: Brought,
) -> Result<String>
    requires name { blank.name ≡ L.name }
    requires parts { blank.parts ≡ L.parts }
    requires whole { blank.parts ≡ 2 ^ 53 }
{
    let keeper = MemKeeper::new(alloc);
    let core = match Core::<L, MemKeeper, NoBell>::start(alloc, blank, keeper, now()) {
        Ok(core) => core,
        Err((fault, keeper)) => {
            drop(keeper);
            return Err(anyhow!("{fault}"));
        }
    };
    let hub = Hub::new(core, OpenGate);
    let (parting, ended) = serve_stream(rt, alloc, &hub, stream, &mut None, &mut Stopped);
    let ticked = ticked(rt, &hub);
    let mut report = hub.into_core().finish();
    if let Some(parting) = parting {
        report.gather(parting);
    }
    let ended = end_text(ended);
    let (number, accepted, out) = (report.number(), report.accepted(), report.seats_out());
    let is_exact = report.total() == Some(accepted);
    drop(report.into_keeper());
    let down = !ticked?;
    let text = format!(in alloc; "{ended} {number} {accepted} {out} {is_exact} {down}\n")?;
    Ok(text)
}

/// How the connection ends, the report's number, how many messages were accepted, how many seats are out,
/// whether the seats made what was accepted, and whether the hub went down.
pub(crate) fn play<R: Wait + Threads + time::Clock + Sync>(
    rt: &R,
    alloc: Global,
) -> Result<String> {
    let stream = Brought {
        pieces: pieces(alloc)?,
        piece: 0,
        at: 0,
    };
    served_with::<Brand, R>(rt, alloc, Blank::new(1 << 53), stream)
}
