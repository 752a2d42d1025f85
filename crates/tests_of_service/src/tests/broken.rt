//! Streams that fail at each read and at each write in turn, and streams that give nothing.

use crate::tests::connections::{BAD, BAD_ANSWERS, Outcome, pieces, served};
use crate::tests::script::{Fails, Heard, NONE, script_of, told};
use crate::tests::texts::expect_text;
use std::alloc::Global;
use std::process::Abort;
use std::sync::Wait;
use std::thread::Threads;
use std::time::Clock;

// The pieces once more.
fn copies(rt: &impl Abort, alloc: Global, pieces: &[Vec<u8>]) -> Vec<Vec<u8>> {
    let mut copies = Vec::new(alloc);
    for piece in pieces {
        let mut copy = Vec::new(alloc);
        copy.extend_from_slice(piece.as_slice())
            .expect(rt, "memory");
        copies.push(copy).expect(rt, "memory");
    }
    copies
}

// The messages of a stream with these pieces and failures, and how its connection ended.
fn broken<R: Wait + Threads + Clock + Abort + Sync>(
    rt: &R,
    alloc: Global,
    pieces: &[Vec<u8>],
    fails: Fails,
) -> (Heard, Outcome) {
    let (stream, traces) = script_of(rt, alloc, copies(rt, alloc, pieces), fails);
    let outcome = served(rt, alloc, stream);
    (told(rt, alloc, traces), outcome)
}

// A connection that failed has to have ended by its handshake, where that wasn't whole, and else by its
// stream or its hub. What it sent before is the beginning of what it sends else.
fn expect_broken(rt: &impl Abort, told: Heard, outcome: Outcome) {
    let Heard { failed: _, sent } = told;
    outcome.expect_over(rt);
    let ended = outcome.ended;
    match sent {
        Some(sent) => {
            assert!(rt; ended == "stream" || ended == "hub", "{ended}");
            assert!(rt; BAD_ANSWERS.starts_with(sent.as_str()), "{sent}");
        }
        None => assert_eq!(rt; ended, "handshake"),
    }
}

// A connection that didn't fail has to have sent everything, and to be closed.
fn expect_whole(rt: &impl Abort, told: Heard, outcome: Outcome) {
    let Heard { failed: _, sent } = told;
    outcome.expect(rt, "closed", (3, 2, 0, Some(2)));
    expect_text(rt, sent.expect(rt, "a handshake"), BAD_ANSWERS);
}

// How many reads, or how many writes, fail in turn of the connection whose frames are bad, until a run
// has no failure.
fn failures<R: Wait + Threads + Clock + Abort + Sync>(
    rt: &R,
    alloc: Global,
    in_reads: bool,
) -> u32 {
    let pieces = pieces(rt, alloc, BAD);
    for number in 1..10_000 {
        let (read, write) = if in_reads { (number, 0) } else { (0, number) };
        let (told, outcome) = broken(rt, alloc, &pieces, Fails { read, write });
        if !told.failed {
            expect_whole(rt, told, outcome);
            return number.saturating_sub(1);
        }
        expect_broken(rt, told, outcome);
    }
    panic!(rt; "no run without a failure")
}

// The longest frame alone takes 1,025 reads.
#[test]
fn each_failed_read_ends_the_session(rt: HostRuntime) {
    let reads = failures(&rt, rt.alloc(), true);
    assert!(rt; reads > 1_025, "{reads}");
}

// A handshake, six answers and a close.
#[test]
fn each_failed_write_ends_the_session(rt: HostRuntime) {
    assert_eq!(rt; failures(&rt, rt.alloc(), false), 8);
}

// How a connection ends whose stream gives these lines, if any, and then nothing for this many
// reads, and then ends.
fn ended_silent<R: Wait + Threads + Clock + Abort + Sync>(
    rt: &R,
    alloc: Global,
    lines: Option<&str>,
    reads: u32,
) -> Outcome {
    let mut given = match lines {
        Some(lines) => pieces(rt, alloc, lines),
        None => Vec::new(alloc),
    };
    // one read gives nothing after each piece
    let behind = if given.is_empty() { 0 } else { 1 };
    for _ in behind..reads {
        given.push(Vec::new(alloc)).expect(rt, "memory");
    }
    let (stream, traces) = script_of(rt, alloc, given, NONE);
    drop(traces);
    served(rt, alloc, stream)
}

const HELLO: &str = r#"text {"m":"hello","s":["alice",1,1]}"#;

#[test]
fn a_silent_peer_is_out_of_turns(rt: HostRuntime) {
    let gone = ended_silent(&rt, rt.alloc(), Some(HELLO), 1_999);
    gone.expect(&rt, "stream", (2, 1, 0, Some(1)));
    let spent = ended_silent(&rt, rt.alloc(), Some(HELLO), 2_000);
    spent.expect(&rt, "turns", (2, 1, 0, Some(1)));
}

// It says not even what asks for a WebSocket.
#[test]
fn a_stream_that_gives_nothing_is_out_of_turns(rt: HostRuntime) {
    let gone = ended_silent(&rt, rt.alloc(), None, 1_999);
    gone.expect(&rt, "handshake", (0, 0, 0, Some(0)));
    let spent = ended_silent(&rt, rt.alloc(), None, 2_000);
    spent.expect(&rt, "turns", (0, 0, 0, Some(0)));
}
