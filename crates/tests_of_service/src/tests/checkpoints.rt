//! Messages over TCP that share a commit, and the checkpoints of a server.

ghost use Rattle.std.specs.Prelude.{◌≡◌, ◌^◌};

use crate::tests::board::has_part;
use crate::tests::files::{ServerFiles, new_place};
use crate::tests::pages::Flag;
use crate::tests::streams::{connected, open, write_at_once};
use crate::tests::texts::expect_text;
use crate::tests::visits::{FIRST, SECOND, SECOND_SAID, Visitor, meet, visit};
use pres_hub::{Core, Hub, Keeper, MemKeeper, OpenGate};
use pres_server::Moment;
use pres_service::{EndRequest, NoRequest, ServeOptions, serve_run};
use pres_tcp::{Health, StreamBell, serve_connections};
use sqlite::Connection;
use std::alloc::Global;
use std::io::{Read, Write};
use std::marker::Brand;
use std::net::{Net, SocketAddr, TcpListener, TcpStream};
use std::process::Abort;
use std::random::RandomSource;
use std::sync::Wait;
use std::sync::atomic::{AtomicBool, Ordering};
use std::sync::ledger::{Blank, Ledger};
use std::thread;
use std::thread::Threads;
use std::time::Clock;

// The last line that a server prints, which ends without a fault.
fn served<
    R: Net<Listener = TcpListener, Stream = TcpStream> + Threads + Wait + Clock + Abort + Sync,
    E: EndRequest,
>(host: &HostRuntime, rt: &R, serving: ServeOptions<'_>, request: &mut E) -> String {
    let alloc = host.alloc();
    let mut output = Vec::new(alloc);
    let mut faults = Vec::new(alloc);
    let ended = serve_run(host, rt, alloc, serving, request, &mut output, &mut faults);
    assert!(rt; ended.is_ok());
    let output = std::str::from_utf8(output.as_slice()).expect(rt, "UTF-8");
    String::from_str(alloc, output.lines().last().unwrap_or("")).expect(rt, "memory")
}

// Alice makes three writes at once. What she is told, and then the metrics.
fn gather<R: Net<Listener = TcpListener, Stream = TcpStream> + Clock + Abort>(
    rt: &R,
    alloc: Global,
    address: &str,
) -> (String, Vec<u8>) {
    let mut stream = connected(rt, address);
    open(rt, alloc, &mut stream);
    let told = write_at_once(rt, alloc, &mut stream, 1, 3);
    let mut page = connected(rt, address);
    page.write_all(b"GET /metrics HTTP/1.1\r\nHost: presence\r\n\r\n")
        .expect(rt, "a connection");
    let mut metrics = Vec::new(alloc);
    page.read_to_end(&mut metrics).expect(rt, "an answer");
    drop(stream);
    (told, metrics)
}

const GATHERED: &str =
    r#"{"done":2,"m":"reply","n":1,"out":"wrote","q":1,"r":1,"s":["alice",1,1],"z":2}
{"done":3,"m":"reply","n":2,"out":"wrote","q":2,"r":2,"s":["alice",1,1],"z":3}
{"done":4,"m":"reply","n":3,"out":"wrote","q":3,"r":3,"s":["alice",1,1],"z":4}
"#;

// Messages that came together share a commit: the first one is the Hello's.
#[test]
fn three_messages_share_a_commit(rt: HostRuntime) {
    let place = new_place(&rt, &rt, "gathered");
    let serving = ServeOptions {
        address: place.address.as_str(),
        file: place.file.as_str(),
        connections: Some(2),
    };
    let (host, alloc) = (&rt, rt.alloc());
    let (last, told, metrics) = thread::scope(thread::scope_env(), &rt, |scope| {
        let server = scope.spawn(move || served(host, host, serving, &mut NoRequest));
        let server = server.expect(host, "a thread");
        let (told, metrics) = gather(host, alloc, serving.address);
        (server.join(host), told, metrics)
    });
    expect_text(&rt, told, GATHERED);
    assert!(rt; has_part(metrics.as_slice(), "\npresence_commits_total 2\n"));
    assert!(rt; has_part(metrics.as_slice(), "\npresence_batches_total 4\n"));
    assert!(rt; has_part(metrics.as_slice(), "\npresence_checkpoints_total 0\n"));
    expect_text(&rt, last, "number 5");
    place.clear(&rt);
}

// The last line of a server whose end is requested once its visitor was there.
fn stopped<
    R: Net<Listener = TcpListener, Stream = TcpStream>
        + RandomSource
        + Threads
        + Wait
        + Clock
        + Abort
        + Copy
        + Sync,
>(host: &HostRuntime, rt: &R, place: &ServerFiles, visitor: Visitor) -> String {
    let alloc = host.alloc();
    let serving = ServeOptions {
        address: place.address.as_str(),
        file: place.file.as_str(),
        connections: None,
    };
    let flag = AtomicBool::new(false);
    let asked = &flag;
    thread::scope(thread::scope_env(), rt, |scope| {
        let server = scope.spawn(move || served(host, rt, serving, &mut Flag { asked }));
        let server = server.expect(rt, "a thread");
        let visited = visit(rt, alloc, serving.address, visitor, &mut Vec::new(alloc));
        asked.store(true, Ordering::SeqCst);
        assert_eq!(rt; visited, 0);
        server.join(rt)
    })
}

// Whether the file has a batch, and whether it has a checkpoint.
fn held(host: &HostRuntime, rt: &impl Abort, place: &ServerFiles) -> (bool, bool) {
    let mut connection = Connection::open(host, place.file.as_str()).expect(rt, "a database");
    let batch = connection.query_row("SELECT k FROM batch", &[]).is_ok();
    let checkpoint = connection
        .query_row("SELECT k FROM checkpoint", &[])
        .is_ok();
    (batch, checkpoint)
}

// A server that ends as requested leaves a checkpoint alone, from which the next one starts.
#[test]
fn a_clean_end_leaves_a_checkpoint(rt: HostRuntime) {
    let place = new_place(&rt, &rt, "stopped");
    expect_text(&rt, stopped(&rt, &rt, &place, FIRST), "number 4");
    assert_eq!(rt; held(&rt, &rt, &place), (false, true));
    expect_text(&rt, meet(&rt, &rt, &place, SECOND, None), SECOND_SAID);
    assert_eq!(rt; held(&rt, &rt, &place), (true, true));
    place.clear(&rt);
}

// Alice makes this many writes, some of them at once each time.
fn write_all<R: Net<Listener = TcpListener, Stream = TcpStream> + Abort>(
    rt: &R,
    alloc: Global,
    address: SocketAddr,
    writes: u64,
) {
    let mut stream = TcpStream::connect(rt, address).expect(rt, "a connection");
    open(rt, alloc, &mut stream);
    for first in 0..writes / 50 {
        let before = first.saturating_mul(50);
        drop(write_at_once(
            rt,
            alloc,
            &mut stream,
            before.saturating_add(1),
            before.saturating_add(50),
        ));
    }
}

// The number up to which the last checkpoint of a server goes whose client makes this many writes, 0 if it
// made none. It ends after that client.
fn reached<
    L: Ledger + Send + Sync,
    R: Net<Listener = TcpListener, Stream = TcpStream> + Threads + Wait + Clock + Abort + Sync,
>(rt: &R, alloc: Global, blank: Blank, writes: u64) -> u64
    requires name { blank.name ≡ L.name }
    requires parts { blank.parts ≡ L.parts }
    requires whole { blank.parts ≡ 2 ^ 53 }
{
    let keeper = MemKeeper::new(alloc);
    let hub = match Core::<L, MemKeeper, StreamBell>::start(alloc, blank, keeper, Moment::at(0)) {
        Ok(core) => Hub::new(core, OpenGate),
        Err((fault, _)) => panic!(rt; "{fault}"),
    };
    let listener = TcpListener::bind(rt, "127.0.0.1:0").expect(rt, "a listener");
    let address = listener.local_addr().expect(rt, "an address");
    let health = Health::new();
    let ended = thread::scope(thread::scope_env(), rt, |scope| {
        let writer = scope.spawn(move || write_all(rt, alloc, address, writes));
        let writer = writer.expect(rt, "a thread");
        let mut faults = Vec::new(alloc);
        let ended = serve_connections(
            rt,
            alloc,
            &hub,
            listener,
            Some(1),
            &mut NoRequest,
            &health,
            &mut faults,
        );
        writer.join(rt);
        ended
    });
    assert_eq!(rt; ended, Ok(()));
    let mut keeper = hub.into_core().finish().into_keeper();
    let (server, number) = keeper.server().expect(rt, "a server");
    drop(server);
    drop(keeper);
    number
}

// The same with a ledger of its own.
fn checkpoint_after<
    R: Net<Listener = TcpListener, Stream = TcpStream> + Threads + Wait + Clock + Abort + Sync,
>(rt: &R, alloc: Global, writes: u64) -> u64 {
    reached::<Brand, R>(rt, alloc, Blank::new(1 << 53), writes)
}

// A checkpoint is made once there are 10,000 entries, and not before.
#[test]
fn a_checkpoint_is_made_at_its_rise(rt: HostRuntime) {
    assert_eq!(rt; checkpoint_after(&rt, rt.alloc(), 200), 0);
    let number = checkpoint_after(&rt, rt.alloc(), 10_050);
    assert!(rt; number >= 10_000, "{number}");
}
