//! A client that writes its frames itself, over TCP.

use crate::tests::board::has_part;
use crate::tests::script::{HEAD, frame, texts_in};
use std::alloc::Global;
use std::io::{Read, Write};
use std::net::{Net, TcpListener, TcpStream};
use std::process::Abort;
use std::thread;
use std::time::{Clock, Duration};

/// The Hello of Alice's first session.
const HELLO: &str = r#"{"m":"hello","s":["alice",1,1]}"#;

/// A stream to a server that may not listen yet.
pub(crate) fn connected<R: Net<Listener = TcpListener, Stream = TcpStream> + Clock + Abort>(
    rt: &R,
    address: &str,
) -> TcpStream {
    for _ in 0..500 {
        if let Ok(stream) = TcpStream::connect(rt, address) {
            return stream;
        }
        thread::sleep(rt, Duration::from_millis(20));
    }
    panic!(rt; "nobody listens")
}

// What comes until this does.
fn until(rt: &impl Abort, alloc: Global, stream: &mut TcpStream, part: &str) -> Vec<u8> {
    let mut bytes = Vec::new(alloc);
    for _ in 0..100_000 {
        if has_part(bytes.as_slice(), part) {
            return bytes;
        }
        let mut piece = [0u8; 1024];
        let count = stream.read(&mut piece).expect(rt, "a connection");
        if count == 0 {
            break;
        }
        bytes
            .extend_from_slice(piece.get(..count).unwrap_or(&[]))
            .expect(rt, "memory");
    }
    panic!(rt; "{part} doesn't come")
}

/// Alice opens her first session.
pub(crate) fn open(rt: &impl Abort, alloc: Global, stream: &mut TcpStream) {
    stream.write_all(HEAD).expect(rt, "a connection");
    drop(until(rt, alloc, stream, "\r\n\r\n"));
    let hello = frame(rt, alloc, 1, HELLO.as_bytes());
    stream.write_all(&hello).expect(rt, "a connection");
    drop(until(rt, alloc, stream, r#""z":1}"#));
}

/// Alice makes the writes of these numbers, all with one write of the stream, and waits for the answer to
/// the last of them, which is the entry after it: the texts that come, each on a line.
pub(crate) fn write_at_once(
    rt: &impl Abort,
    alloc: Global,
    stream: &mut TcpStream,
    first: u64,
    last: u64,
) -> String {
    let mut frames = Vec::new(alloc);
    for n in first..=last {
        let text = format!(in alloc;
            r#"{{"m":"op","n":{n},"op":{{"op":"set","path":"/a","value":{n}}},"q":{n},"s":["alice",1,1]}}"#
        );
        let one = frame(rt, alloc, 1, text.expect(rt, "memory").as_bytes());
        frames.extend_from_slice(&one).expect(rt, "memory");
    }
    stream.write_all(&frames).expect(rt, "a connection");
    let z = last.saturating_add(1);
    let end = format!(in alloc; r#""z":{z}}}"#).expect(rt, "memory");
    let bytes = until(rt, alloc, stream, end.as_str());
    texts_in(rt, alloc, bytes.as_slice())
}
