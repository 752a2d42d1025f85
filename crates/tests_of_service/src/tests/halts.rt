//! A server that can't go on, and what is said of commits before.

ghost use Rattle.std.specs.Prelude.{◌≡◌, ◌^◌};

use crate::tests::texts::expect_text;
use pres_hub::{Core, Hub, MemKeeper, OpenGate};
use pres_server::Moment;
use pres_tcp::{Halt, Health, NoRequest, StreamBell, serve_connections};
use std::alloc::Global;
use std::io::Read;
use std::marker::Brand;
use std::net::{Net, SocketAddr, TcpListener, TcpStream};
use std::process::Abort;
use std::sync::Wait;
use std::sync::ledger::{Blank, Ledger};
use std::thread;
use std::thread::Threads;
use std::time::{Clock, Duration};

// Long enough for a server to say what became of commits.
const SAY_MILLIS: u64 = 1_000;

// Connects to the server. Then commits are refused for a while, and at last the server can't go on.
// Whether the connection is closed then.
fn visit<R: Net<Listener = TcpListener, Stream = TcpStream> + Clock + Abort>(
    rt: &R,
    address: SocketAddr,
    health: &Health,
    halt: Halt,
) -> bool {
    let mut stream = TcpStream::connect(rt, address).expect(rt, "a connection");
    for is_refused in [true, false] {
        health.note_commit(is_refused);
        thread::sleep(rt, Duration::from_millis(SAY_MILLIS));
    }
    health.end(halt);
    matches!(stream.read(&mut [0u8; 64]), Ok(0))
}

// What a server came to that has no end of its own.
struct Outcome {
    ended: Result<(), Halt>,
    faults: Vec<u8>,
    is_closed: bool,
}

// A hub over nothing, with a ledger that the caller picks.
fn opened<L: Ledger, R: Abort>(
    rt: &R,
    alloc: Global,
    blank: Blank,
) -> Hub<L, MemKeeper, StreamBell, OpenGate>
    requires name { blank.name ≡ L.name }
    requires parts { blank.parts ≡ L.parts }
    requires whole { blank.parts ≡ 2 ^ 53 }
{
    let keeper = MemKeeper::new(alloc);
    match Core::<L, MemKeeper, StreamBell>::start(alloc, blank, keeper, Moment::at(0)) {
        Ok(core) => Hub::new(core, OpenGate),
        Err((fault, _)) => panic!(rt; "{fault}"),
    }
}

// Why a server ended that has no end of its own, and what it said.
fn serve<
    L: Ledger + Send + Sync,
    R: Net<Listener = TcpListener, Stream = TcpStream> + Threads + Wait + Clock + Sync,
>(
    rt: &R,
    alloc: Global,
    hub: &Hub<L, MemKeeper, StreamBell, OpenGate>,
    listener: TcpListener,
    health: &Health,
) -> (Result<(), Halt>, Vec<u8>) {
    let mut faults = Vec::new(alloc);
    let ended = serve_connections(
        rt,
        alloc,
        hub,
        listener,
        None,
        &mut NoRequest,
        health,
        &mut faults,
    );
    (ended, faults)
}

// A server and its visitor.
fn served_with<
    L: Ledger + Send + Sync,
    R: Net<Listener = TcpListener, Stream = TcpStream> + Threads + Wait + Clock + Abort + Sync,
>(rt: &R, alloc: Global, blank: Blank, halt: Halt) -> Outcome
    requires name { blank.name ≡ L.name }
    requires parts { blank.parts ≡ L.parts }
    requires whole { blank.parts ≡ 2 ^ 53 }
{
    let hub = opened::<L, R>(rt, alloc, blank);
    let listener = TcpListener::bind(rt, "127.0.0.1:0").expect(rt, "a listener");
    let address = listener.local_addr().expect(rt, "an address");
    let health = Health::new();
    let shared = &health;
    let ((ended, faults), is_closed) = thread::scope(thread::scope_env(), rt, |scope| {
        let visitor = scope.spawn(move || visit(rt, address, shared, halt));
        let visitor = visitor.expect(rt, "a thread");
        let served = serve(rt, alloc, &hub, listener, shared);
        (served, visitor.join(rt))
    });
    drop(hub.into_core().finish());
    Outcome {
        ended,
        faults,
        is_closed,
    }
}

const SAID: &str = "presence: commits are refused\npresence: commits are taken again\n";

// It ends for this reason, closes its connection, and has said what became of commits.
fn expect_end<
    R: Net<Listener = TcpListener, Stream = TcpStream> + Threads + Wait + Clock + Abort + Sync,
>(rt: &R, alloc: Global, halt: Halt) {
    let Outcome {
        ended,
        faults,
        is_closed,
    } = served_with::<Brand, R>(rt, alloc, Blank::new(1 << 53), halt);
    assert_eq!(rt; ended, Err(halt));
    assert!(rt; is_closed);
    let said = String::from_utf8(faults).expect(rt, "UTF-8");
    expect_text(rt, said, SAID);
}

#[test]
fn a_server_that_was_shut_ends(rt: HostRuntime) {
    expect_end(&rt, rt.alloc(), Halt::Shut);
}

#[test]
fn a_server_that_is_down_ends(rt: HostRuntime) {
    expect_end(&rt, rt.alloc(), Halt::Down);
}
