//! Clients that visit a server, over TCP and a file.

use crate::tests::board::{Board, Pen};
use crate::tests::files::{ServerFiles, new_place};
use crate::tests::texts::expect_text;
use pres_ids::{ClientId, Number};
use pres_service::{ClientOptions, NoRequest, ServeOptions, ServiceFault, client_run, serve_run};
use std::alloc::Global;
use std::io::{Read, Write};
use std::net::{Net, TcpListener, TcpStream};
use std::process::Abort;
use std::random::RandomSource;
use std::sync::Wait;
use std::thread::Threads;
use std::time::{Clock, Duration};
use std::{fs, thread};

/// Who visits a server, and what the client's lines are.
#[derive(Clone, Copy)]
pub(crate) struct Visitor {
    id: &'static str,
    incarnation: u64,
    lines: &'static str,
}

// What a server printed, and its exit status.
fn serve<R: Net<Listener = TcpListener, Stream = TcpStream> + Threads + Wait + Clock + Sync>(
    host: &HostRuntime,
    rt: &R,
    serving: ServeOptions<'_>,
) -> (u8, Vec<u8>) {
    let mut output = Vec::new(host.alloc());
    let mut faults = Vec::new(host.alloc());
    let status = match serve_run(
        host,
        rt,
        host.alloc(),
        serving,
        &mut NoRequest,
        &mut output,
        &mut faults,
    ) {
        Ok(()) => 0,
        Err(fault) => fault.status(),
    };
    (status, output)
}

/// The exit status of the visitor's client, which tries again until the server listens.
pub(crate) fn visit<
    R: Net<Listener = TcpListener, Stream = TcpStream> + RandomSource + Clock + Wait + Copy,
    W: Write,
>(rt: &R, alloc: Global, address: &str, visitor: Visitor, output: &mut W) -> u8 {
    for _ in 0..500 {
        let Ok(id) = ClientId::parse(alloc, visitor.id) else {
            return 2;
        };
        let Some(incarnation) = Number::new(visitor.incarnation) else {
            return 2;
        };
        let visit = ClientOptions {
            address,
            id,
            incarnation,
        };
        match client_run(rt, alloc, visit, &mut visitor.lines.as_bytes(), output) {
            Ok(()) => return 0,
            Err(ServiceFault::Address) => thread::sleep(rt, Duration::from_millis(20)),
            Err(fault) => return fault.status(),
        }
    }
    4
}

/// What a server and its visitor print. A second visitor may come once the first one got this.
pub(crate) fn meet<
    R: Net<Listener = TcpListener, Stream = TcpStream>
        + RandomSource
        + Threads
        + Wait
        + Clock
        + Abort
        + Copy
        + Sync,
>(
    host: &HostRuntime,
    rt: &R,
    place: &ServerFiles,
    visitor: Visitor,
    second: Option<(&'static str, Visitor)>,
) -> String {
    let alloc = host.alloc();
    let serving = ServeOptions {
        address: place.address.as_str(),
        file: place.file.as_str(),
        connections: Some(if second.is_some() { 2 } else { 1 }),
    };
    let board = Board::new(alloc);
    let shared = &board;
    let (served, visited) = thread::scope(thread::scope_env(), rt, |scope| {
        let server = scope.spawn(move || serve(host, rt, serving));
        let server = server.expect(rt, "a thread");
        if let Some((told, visitor)) = second {
            drop(scope.spawn(move || {
                shared.wait_for(rt, told);
                visit(rt, alloc, serving.address, visitor, &mut Vec::new(alloc))
            }));
        }
        let visited = visit(
            rt,
            alloc,
            serving.address,
            visitor,
            &mut Pen { rt, board: shared },
        );
        (server.join(rt), visited)
    });
    said(rt, alloc, served, visited, &board)
}

// Both statuses, and what both printed.
fn said<R: Wait + Abort>(
    rt: &R,
    alloc: Global,
    served: (u8, Vec<u8>),
    visited: u8,
    board: &Board,
) -> String {
    let (status, output) = served;
    let told = board.text(rt, alloc).expect(rt, "memory");
    let served = std::str::from_utf8(output.as_slice()).expect(rt, "UTF-8");
    let ended = served.lines().last().unwrap_or("");
    format!(in alloc; "{visited}\n{told}{status} {ended}").expect(rt, "memory")
}

/// It writes and listens.
pub(crate) const FIRST: Visitor = Visitor {
    id: "alice",
    incarnation: 1,
    lines: "listen /a\nset /a 1\n",
};

const FIRST_SAID: &str = "0
connected true
value /a 2 null
value /a 3 1
done 2 3
connected false
0 number 4";

/// It comes later, and listens.
pub(crate) const SECOND: Visitor = Visitor {
    id: "alice",
    incarnation: 2,
    lines: "listen /a",
};

/// What it is told.
pub(crate) const SECOND_SAID: &str = "0
connected true
value /a 6 1
connected false
0 number 7";

// What was written is there when the file is served again.
#[test]
fn a_file_survives(rt: HostRuntime) {
    let place = new_place(&rt, &rt, "survives");
    expect_text(&rt, meet(&rt, &rt, &place, FIRST, None), FIRST_SAID);
    expect_text(&rt, meet(&rt, &rt, &place, SECOND, None), SECOND_SAID);
    place.clear(&rt);
}

// Each call that makes a message, and what stays after its session.
const CALLS: Visitor = Visitor {
    id: "alice",
    incarnation: 1,
    lines: r#"set /a 1
listen /a
update /a {"b":1,"c":2}
od-set /x 1
od-update /y {"z":2}
od-remove /a/b
od-cancel /x
unlisten /a
transact /n
answer 8 5
remove /a/c
beat
resend"#,
};

const CALLS_SAID: &str = r#"0
connected true
done 1 2
value /a 3 1
value /a 4 {"b":1,"c":2}
done 3 4
armed 4
armed 5
armed 6
armed 7
ask 8 1 null
done 8 10
done 9 11
connected false
0 number 12"#;

const AFTERWARDS: Visitor = Visitor {
    id: "alice",
    incarnation: 2,
    lines: "listen /",
};

const AFTERWARDS_SAID: &str = r#"0
connected true
value / 14 {"n":5,"y":{"z":2}}
connected false
0 number 15"#;

#[test]
fn each_call_reaches_the_server(rt: HostRuntime) {
    let place = new_place(&rt, &rt, "calls");
    expect_text(&rt, meet(&rt, &rt, &place, CALLS, None), CALLS_SAID);
    let afterwards = meet(&rt, &rt, &place, AFTERWARDS, None);
    expect_text(&rt, afterwards, AFTERWARDS_SAID);
    place.clear(&rt);
}

// A file in which there is nothing yet gets its tables: one that a server was stopped in the making
// of, and a database without tables, whose pages stay as large as they are. Those of a new file have
// 1,024 bytes (https://sqlite.org/fileformat.html, 1.3.2).
#[test]
fn a_file_that_holds_nothing_is_made(rt: HostRuntime) {
    let place = new_place(&rt, &rt, "nothing");
    fs::write(&rt, place.file.as_str(), "\0").expect(&rt, "a file");
    expect_text(&rt, meet(&rt, &rt, &place, FIRST, None), FIRST_SAID);
    assert_eq!(rt; place.page_size(&rt, &rt), 1024);
    place.make_blank(&rt, &rt);
    expect_text(&rt, meet(&rt, &rt, &place, FIRST, None), FIRST_SAID);
    assert_eq!(rt; place.page_size(&rt, &rt), 4096);
    place.clear(&rt);
}

const LISTENS: Visitor = Visitor {
    id: "alice",
    incarnation: 1,
    lines: "listen /b\nwait 1\n",
};

const WRITES: Visitor = Visitor {
    id: "bob",
    incarnation: 1,
    lines: "set /b 1\n",
};

const TWO_SAID: &str = "0
connected true
value /b 2 null
value /b 4 1
connected false
0 number 6";

#[test]
fn two_visitors_meet(rt: HostRuntime) {
    let place = new_place(&rt, &rt, "two");
    let second = Some(("value /b 2 null\n", WRITES));
    expect_text(&rt, meet(&rt, &rt, &place, LISTENS, second), TWO_SAID);
    place.clear(&rt);
}

// The lines must be printed as bad before there is a connection: nobody listens there.
fn check_bad_lines<
    R: Net<Listener = TcpListener, Stream = TcpStream> + RandomSource + Clock + Wait + Abort + Copy,
>(rt: &R, alloc: Global, lines: &'static str, told: &str) {
    let visitor = Visitor { lines, ..FIRST };
    let mut output = Vec::new(alloc);
    let status = visit(rt, alloc, "127.0.0.1:1", visitor, &mut output);
    assert_eq!(rt; status, 1, "{lines:?}");
    assert!(rt; output.as_slice() == told.as_bytes(), "{lines:?}");
}

#[test]
fn bad_lines_are_told(rt: HostRuntime) {
    let alloc = rt.alloc();
    check_bad_lines(&rt, alloc, "listen /a\nlitsen /b\n", "bad line 2\n");
    check_bad_lines(&rt, alloc, "\n", "bad line 1\n");
    check_bad_lines(&rt, alloc, "wait 1001", "bad line 1\n");
    check_bad_lines(&rt, alloc, "set /a 1\r\nset /b", "bad line 2\n");
}

// The status to which a server comes there.
fn status_at<R: Net<Listener = TcpListener, Stream = TcpStream> + Threads + Wait + Clock + Sync>(
    host: &HostRuntime,
    rt: &R,
    address: &str,
    file: &str,
) -> u8 {
    let serving = ServeOptions {
        address,
        file,
        connections: Some(1),
    };
    serve(host, rt, serving).0
}

// A file that is no database of saved rows, and an address that can't be bound.
#[test]
fn bad_places_are_refused(rt: HostRuntime) {
    let place = new_place(&rt, &rt, "refused");
    let (address, file) = (place.address.as_str(), place.file.as_str());
    let foreign = place.foreign(&rt, &rt);
    assert_eq!(rt; status_at(&rt, &rt, address, foreign.as_str()), 3);
    assert_eq!(rt; status_at(&rt, &rt, address, "/no/such/folder/file"), 3);
    assert_eq!(rt; status_at(&rt, &rt, "nowhere", file), 4);
    place.clear(&rt);
}

// What a peer sends that is no client: first this, and once something is answered, that.
#[derive(Clone, Copy)]
struct Stranger {
    first: &'static str,
    second: &'static [u8],
}

// What is answered to a stranger, once somebody listens there.
fn told_at<R: Net<Listener = TcpListener, Stream = TcpStream> + Wait + Clock + Abort>(
    rt: &R,
    alloc: Global,
    address: &str,
    stranger: Stranger,
) -> String {
    let mut told = String::new(alloc);
    for _ in 0..500 {
        let Ok(mut stream) = TcpStream::connect(rt, address) else {
            thread::sleep(rt, Duration::from_millis(20));
            continue;
        };
        stream
            .write_all(stranger.first.as_bytes())
            .expect(rt, "a connection");
        let mut begin = [0u8; 1];
        stream.read_exact(&mut begin).expect(rt, "an answer");
        stream.write_all(stranger.second).expect(rt, "a connection");
        told.push(char::from(begin[0])).expect(rt, "memory");
        stream.read_to_string(&mut told).expect(rt, "an end");
        break;
    }
    told
}

// A server's exit status after a stranger, and what the stranger got.
fn met_by<
    R: Net<Listener = TcpListener, Stream = TcpStream> + Threads + Wait + Clock + Abort + Sync,
>(host: &HostRuntime, rt: &R, place: &ServerFiles, stranger: Stranger) -> (u8, String) {
    let alloc = host.alloc();
    let serving = ServeOptions {
        address: place.address.as_str(),
        file: place.file.as_str(),
        connections: Some(1),
    };
    thread::scope(thread::scope_env(), rt, |scope| {
        let server = scope.spawn(move || serve(host, rt, serving));
        let server = server.expect(rt, "a thread");
        let told = told_at(rt, alloc, serving.address, stranger);
        let (status, _) = server.join(rt);
        (status, told)
    })
}

const ASKS_FOR_A_PAGE: Stranger = Stranger {
    first: "GET / HTTP/1.1\r\nHost: presence\r\n\r\n",
    second: b"",
};

const PAGE: &str = "HTTP/1.1 426 Upgrade Required\r
Connection: Upgrade, close\r
Upgrade: websocket\r
Sec-WebSocket-Version: 13\r
Content-Type: text/plain\r
\r
A WebSocket is served here.
";

// A peer that opens no WebSocket gets a text that says what is served.
#[test]
fn a_request_for_a_page_is_answered(rt: HostRuntime) {
    let place = new_place(&rt, &rt, "page");
    let (status, told) = met_by(&rt, &rt, &place, ASKS_FOR_A_PAGE);
    expect_text(&rt, told, PAGE);
    assert_eq!(rt; status, 0);
    place.clear(&rt);
}

// The opening request of RFC 6455, 1.3, and then a frame whose kind is reserved (5.2).
const BREAKS_ITS_FRAMES: Stranger = Stranger {
    first: "GET /chat HTTP/1.1\r
Host: server.example.com\r
Upgrade: websocket\r
Connection: Upgrade\r
Sec-WebSocket-Key: dGhlIHNhbXBsZSBub25jZQ==\r
Sec-WebSocket-Version: 13\r
\r
",
    second: b"\x83\x80\x00\x00\x00\x00",
};

// A peer that opened a WebSocket hears nothing after such a frame, and no HTTP.
#[test]
fn a_broken_frame_is_no_request(rt: HostRuntime) {
    let place = new_place(&rt, &rt, "frame");
    let (status, told) = met_by(&rt, &rt, &place, BREAKS_ITS_FRAMES);
    assert!(rt; told.starts_with("HTTP/1.1 101 "), "{told:?}");
    assert!(rt; told.ends_with("\r\n\r\n"), "{told:?}");
    assert_eq!(rt; status, 0);
    place.clear(&rt);
}
