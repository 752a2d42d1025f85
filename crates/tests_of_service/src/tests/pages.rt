//! The pages of a server, and a server whose end is requested.

ghost use Rattle.std.specs.Prelude.{◌≡◌, ◌^◌};

use crate::tests::texts::expect_text;
use pres_hub::{Core, Hub, MemKeeper, OpenGate};
use pres_server::Moment;
use pres_tcp::{EndRequest, Halt, Health, InputEnd, StreamBell, serve_connections};
use std::alloc::Global;
use std::io::{Read, Write};
use std::marker::Brand;
use std::net::{Net, SocketAddr, TcpListener, TcpStream};
use std::process::Abort;
use std::sync::Wait;
use std::sync::atomic::{AtomicBool, Ordering};
use std::sync::ledger::{Blank, Ledger};
use std::thread;
use std::thread::Threads;
use std::time::Clock;

/// Requests the end once this is set.
#[derive(Drop)]
pub(crate) struct Flag<'a> {
    pub(crate) asked: &'a AtomicBool,
}

impl EndRequest for Flag<'_> {
    fn is_made(&mut self) -> bool {
        self.asked.load(Ordering::SeqCst)
    }
}

// A request to a server, while its commits are refused or taken.
#[derive(Clone, Copy)]
struct Visit {
    request: &'static str,
    is_refused: bool,
}

// Adds what the server says until the connection ends. After the last request its end is requested.
fn pay<R: Net<Listener = TcpListener, Stream = TcpStream> + Abort>(
    rt: &R,
    address: SocketAddr,
    health: &Health,
    visit: Visit,
    last: Option<&AtomicBool>,
    told: &mut Vec<u8>,
) {
    health.note_commit(visit.is_refused);
    let mut stream = TcpStream::connect(rt, address).expect(rt, "a connection");
    let sent = stream.write_all(visit.request.as_bytes());
    sent.expect(rt, "a request");
    if let Some(asked) = last {
        let mut first = [0u8; 1];
        stream.read_exact(&mut first).expect(rt, "an answer");
        told.extend_from_slice(&first).expect(rt, "memory");
        asked.store(true, Ordering::SeqCst);
    }
    stream.read_to_end(told).expect(rt, "an answer");
}

// What a server over nothing answers to these visits, one after another, and why it ended. The last one
// requests its end.
fn served<
    L: Ledger + Send + Sync,
    R: Net<Listener = TcpListener, Stream = TcpStream> + Threads + Wait + Clock + Abort + Sync,
>(rt: &R, alloc: Global, blank: Blank, visits: &[Visit]) -> (Result<(), Halt>, Vec<u8>)
    requires name { blank.name ≡ L.name }
    requires parts { blank.parts ≡ L.parts }
    requires whole { blank.parts ≡ 2 ^ 53 }
{
    let keeper = MemKeeper::new(alloc);
    let hub = match Core::<L, MemKeeper, StreamBell>::start(alloc, blank, keeper, Moment::at(0)) {
        Ok(core) => Hub::new(core, OpenGate),
        Err((fault, _)) => panic!(rt; "{fault}"),
    };
    let listener = TcpListener::bind(rt, "127.0.0.1:0").expect(rt, "a listener");
    let address = listener.local_addr().expect(rt, "an address");
    let health = Health::new();
    let flag = AtomicBool::new(false);
    let (shared, asked) = (&health, &flag);
    let (ended, told) = thread::scope(thread::scope_env(), rt, |scope| {
        let visitor = scope.spawn(move || {
            let mut told = Vec::new(alloc);
            for (place, one) in visits.iter().enumerate() {
                let last = (place + 1 == visits.len()).then_some(asked);
                pay(rt, address, shared, *one, last, &mut told);
            }
            told
        });
        let visitor = visitor.expect(rt, "a thread");
        let mut flag = Flag { asked };
        let mut faults = Vec::new(alloc);
        let ended = serve_connections(
            rt,
            alloc,
            &hub,
            listener,
            None,
            &mut flag,
            shared,
            &mut faults,
        );
        (ended, visitor.join(rt))
    });
    drop(hub.into_core().finish());
    (ended, told)
}

// The server answers this to the visits, and then ends as requested.
fn expect<
    R: Net<Listener = TcpListener, Stream = TcpStream> + Threads + Wait + Clock + Abort + Sync,
>(rt: &R, alloc: Global, visits: &[Visit], wanted: &[u8]) {
    let (ended, told) = served::<Brand, R>(rt, alloc, Blank::new(1 << 53), visits);
    assert_eq!(rt; ended, Ok(()));
    let said = String::from_utf8_lossy(alloc, told.as_slice()).expect(rt, "memory");
    let all = String::from_utf8_lossy(alloc, wanted).expect(rt, "memory");
    expect_text(rt, said, all.as_str());
}

const HEALTH: &str = "GET /health HTTP/1.1\r\nHost: presence\r\n\r\n";

// RFC 6455, 1.3 and 5.5.1: the answer to the opening request, and a close with the code 1001.
const OPENED: &str = "GET /chat HTTP/1.1\r
Host: server.example.com\r
Upgrade: websocket\r
Connection: Upgrade\r
Sec-WebSocket-Key: dGhlIHNhbXBsZSBub25jZQ==\r
Sec-WebSocket-Version: 13\r
\r
";

// A WebSocket is closed by a frame when the end of its server is requested.
#[test]
fn a_server_that_is_asked_ends_cleanly(rt: HostRuntime) {
    let opened = Visit {
        request: OPENED,
        is_refused: false,
    };
    let wanted = b"HTTP/1.1 101 Switching Protocols\r
connection: Upgrade\r
upgrade: websocket\r
sec-websocket-accept: s3pPLMBiTxaQ9kYGzzhZRbK+xOo=\r
\r
\x88\x02\x03\xe9";
    expect(&rt, rt.alloc(), &[opened], wanted.as_slice());
}

// Health is 200 while commits are taken, and 503 while they are refused.
#[test]
fn tells_its_health(rt: HostRuntime) {
    let well = Visit {
        request: HEALTH,
        is_refused: false,
    };
    let unwell = Visit {
        request: HEALTH,
        is_refused: true,
    };
    let other = Visit {
        request: "POST /health HTTP/1.1\r\nHost: presence\r\n\r\n",
        is_refused: false,
    };
    let wanted = "HTTP/1.1 200 OK\r
Content-Type: application/json\r
Content-Length: 31\r
Connection: close\r
\r
{\"number\":0,\"open_sessions\":0}
HTTP/1.1 503 Service Unavailable\r
Content-Type: application/json\r
Content-Length: 31\r
Connection: close\r
\r
{\"number\":0,\"open_sessions\":0}
HTTP/1.1 200 OK\r
Content-Type: application/json\r
Content-Length: 31\r
Connection: close\r
\r
{\"number\":0,\"open_sessions\":0}
HTTP/1.1 426 Upgrade Required\r
Connection: Upgrade, close\r
Upgrade: websocket\r
Sec-WebSocket-Version: 13\r
Content-Type: text/plain\r
\r
A WebSocket is served here.
";
    expect(
        &rt,
        rt.alloc(),
        &[well, unwell, well, other],
        wanted.as_bytes(),
    );
}

// An input's end requests the end, and what stands before it doesn't.
#[test]
fn an_input_asks_by_its_end(rt: HostRuntime) {
    let mut input = b"words".as_slice();
    let mut end = InputEnd::of(&rt, rt.alloc(), &mut input, None);
    assert!(rt; !end.is_made());
    assert!(rt; end.is_made());
    assert!(rt; end.is_made());
}
