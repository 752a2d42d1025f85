//! What ends a read of a stream that waits for bytes or for its bell.

use pres_hub::Bell;
use pres_tcp::{StreamBell, StreamCount, Waits, Wakeable};
use std::alloc::Global;
use std::io::{ErrorKind, Read, Write};
use std::net::{Net, TcpListener, TcpStream};
use std::process::Abort;
use std::time::{Clock, Duration, Instant};
use std::{io, thread};

// Long enough that a test which waits so long has failed.
const LONG_MILLIS: u64 = 20_000;

// Both ends of a connection.
fn pair<R: Net<Listener = TcpListener, Stream = TcpStream>>(
    rt: &R,
) -> io::Result<(TcpStream, TcpStream)> {
    let listener = TcpListener::bind(rt, "127.0.0.1:0")?;
    let near = TcpStream::connect(rt, listener.local_addr()?)?;
    let (far, _) = listener.accept()?;
    Ok((near, far))
}

// A stream whose reads wait no longer than this, its bell, and its peer.
fn waking<'a, R: Net<Listener = TcpListener, Stream = TcpStream> + Abort>(
    rt: &R,
    alloc: Global,
    millis: u64,
    crowd: &'a StreamCount,
) -> (Wakeable<'a>, StreamBell, TcpStream) {
    let (near, far) = pair(rt).expect(rt, "a connection");
    let brief = Duration::from_millis(millis);
    let long = Duration::from_millis(LONG_MILLIS);
    match Wakeable::new(rt, alloc, near, Waits { brief, long }, crowd) {
        Ok((stream, bell)) => (stream, bell, far),
        Err(_) => panic!(rt; "no descriptors"),
    }
}

// How many bytes a read brought, or why it brought none.
fn read(stream: &mut Wakeable<'_>) -> Result<usize, ErrorKind> {
    stream.read(&mut [0u8; 64]).map_err(|e| e.kind())
}

// A read must have this result.
fn expect_read(rt: &impl Abort, stream: &mut Wakeable<'_>, wanted: Result<usize, ErrorKind>) {
    assert_eq!(rt; read(stream), wanted);
}

// It must be soon after the start.
fn expect_soon<R: Clock + Abort>(rt: &R, start: &Instant) {
    let elapsed = start.elapsed(rt).expect(rt, "a clock");
    assert!(rt; elapsed < Duration::from_millis(LONG_MILLIS));
}

#[test]
fn time_ends_a_read(rt: HostRuntime) {
    let crowd = StreamCount::new();
    let (mut stream, _bell, _far) = waking(&rt, rt.alloc(), 30, &crowd);
    let start = Instant::now(&rt).expect(&rt, "a clock");
    expect_read(&rt, &mut stream, Err(ErrorKind::WouldBlock));
    assert!(rt; start.elapsed(&rt).expect(&rt, "a clock") >= Duration::from_millis(30));
}

// Reads that bring nothing end soon at first, and later only by the bell, which hangs.
#[test]
fn an_idle_stream_waits_for_its_bell(rt: HostRuntime) {
    let crowd = StreamCount::new();
    let (mut stream, bell, _far) = waking(&rt, rt.alloc(), 1, &crowd);
    bell.hang();
    for _ in 0..20u8 {
        expect_read(&rt, &mut stream, Err(ErrorKind::WouldBlock));
    }
    let start = Instant::now(&rt).expect(&rt, "a clock");
    let child = thread::spawn(&rt, move || {
        thread::sleep(&rt, Duration::from_millis(30));
        bell.ring();
    })
    .expect(&rt, "a thread");
    expect_read(&rt, &mut stream, Err(ErrorKind::WouldBlock));
    assert!(rt; start.elapsed(&rt).expect(&rt, "a clock") >= Duration::from_millis(30));
    expect_soon(&rt, &start);
    child.join(&rt);
}

#[test]
fn a_ring_ends_a_read(rt: HostRuntime) {
    let crowd = StreamCount::new();
    let (mut stream, bell, _far) = waking(&rt, rt.alloc(), LONG_MILLIS, &crowd);
    let start = Instant::now(&rt).expect(&rt, "a clock");
    let child = thread::spawn(&rt, move || {
        for _ in 0..3u8 {
            thread::sleep(&rt, Duration::from_millis(30));
            bell.ring();
        }
    })
    .expect(&rt, "a thread");
    for _ in 0..3u8 {
        expect_read(&rt, &mut stream, Err(ErrorKind::WouldBlock));
    }
    expect_soon(&rt, &start);
    child.join(&rt);
}

// Also one before the read, and bytes end a read that doesn't hear its bell.
#[test]
fn a_ring_is_heard_once(rt: HostRuntime) {
    let crowd = StreamCount::new();
    let (mut stream, bell, mut far) = waking(&rt, rt.alloc(), LONG_MILLIS, &crowd);
    let start = Instant::now(&rt).expect(&rt, "a clock");
    for _ in 0..5u8 {
        bell.ring();
        bell.ring();
        expect_read(&rt, &mut stream, Err(ErrorKind::WouldBlock));
        far.write_all(b"abc").expect(&rt, "a connection");
        expect_read(&rt, &mut stream, Ok(3));
    }
    expect_soon(&rt, &start);
}

// How many bytes come until the end.
fn until_the_end(stream: &mut Wakeable<'_>) -> Result<usize, ErrorKind> {
    let mut came = 0usize;
    for _ in 0..100u8 {
        match read(stream) {
            Ok(0) => break,
            Ok(count) => came = came.saturating_add(count),
            Err(ErrorKind::WouldBlock) => {}
            Err(kind) => return Err(kind),
        }
    }
    Ok(came)
}

// The bytes and the end are one report, whether the last read was full or not.
#[test]
fn all_bytes_come_and_then_the_end(rt: HostRuntime) {
    for sent in [3, 64, 1_000, 640, 4_096, 5_000] {
        let crowd = StreamCount::new();
        let (mut stream, _bell, mut far) = waking(&rt, rt.alloc(), LONG_MILLIS, &crowd);
        let start = Instant::now(&rt).expect(&rt, "a clock");
        far.write_all([7u8; 5_000].get(..sent).unwrap_or(&[]))
            .expect(&rt, "a connection");
        drop(far);
        assert_eq!(rt; until_the_end(&mut stream), Ok(sent));
        expect_read(&rt, &mut stream, Ok(0));
        expect_soon(&rt, &start);
    }
}
