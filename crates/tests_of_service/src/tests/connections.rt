//! What connections are answered.

ghost use Rattle.std.specs.Prelude.{◌≡◌, ◌^◌};

use crate::tests::script::{HEAD, NONE, Script, frame, said, script_of};
use crate::tests::texts::{expect_text, fault_word};
use pres_hub::{Core, Hub, Keeper, MemKeeper, NoBell, OpenGate, Parting, Report};
use pres_server::Moment;
use pres_sock::{Clock, serve_stream};
use pres_websocket::SockFault;
use std::alloc::Global;
use std::marker::Brand;
use std::process::Abort;
use std::sync::Wait;
use std::sync::ledger::{Blank, Ledger};
use std::thread::Threads;
use std::time;

// One moment.
#[derive(Drop)]
struct Stopped;

impl Clock for Stopped {
    fn now(&mut self) -> u64 {
        1000
    }
}

/// The report's number, what was accepted, seats out and total, whether a session is open after a
/// tick, and the end in words.
#[derive(Drop)]
pub(crate) struct Outcome {
    counts: (u64, u64, u64, Option<u64>),
    is_open: bool,
    pub(crate) ended: &'static str,
}

impl Outcome {
    /// No session is open, no seat is out, and what was accepted is what the seats made.
    pub(crate) fn expect_over(&self, rt: &impl Abort) {
        let (_, accepted, out, total) = self.counts;
        assert!(rt; !self.is_open);
        assert_eq!(rt; (out, total), (0, Some(accepted)));
    }

    /// It has to have ended so, to be over, and to have counted so much.
    pub(crate) fn expect(
        &self,
        rt: &impl Abort,
        ended: &str,
        counts: (u64, u64, u64, Option<u64>),
    ) {
        assert_eq!(rt; self.ended, ended);
        self.expect_over(rt);
        assert_eq!(rt; self.counts, counts);
    }
}

// The end in words.
fn end_text(ended: Result<(), SockFault>) -> &'static str {
    match ended {
        Ok(()) => "closed",
        Err(fault) => fault_word(&fault),
    }
}

// A tick of the hub. It is refused nothing.
fn tick<L: Ledger, R: Wait + Abort>(rt: &R, hub: &Hub<L, MemKeeper, NoBell, OpenGate>) {
    let mut core = hub.enter(rt, 0);
    let ticked = core.tick(Moment::at(1000));
    drop(core);
    let _ = ticked.expect(rt, "a tick");
}

// Whether a session is open in what the keeper holds.
fn is_open(rt: &impl Abort, mut keeper: MemKeeper) -> bool {
    let (server, _) = keeper.server().expect(rt, "rows");
    drop(keeper);
    let is_open = server.first_open().is_some();
    drop(server);
    is_open
}

// What the hub's report tells, and the end.
fn reported<L: Ledger>(
    rt: &impl Abort,
    mut report: Report<L, MemKeeper>,
    parting: Option<Parting<L>>,
    ended: Result<(), SockFault>,
) -> Outcome {
    if let Some(parting) = parting {
        report.gather(parting);
    }
    let counts = (
        report.number(),
        report.accepted(),
        report.seats_out(),
        report.total(),
    );
    Outcome {
        counts,
        is_open: is_open(rt, report.into_keeper()),
        ended: end_text(ended),
    }
}

// One connection to a new hub, with a ledger that the caller picks, and then a tick.
fn served_with<L: Ledger + Send + Sync, R: Wait + Threads + time::Clock + Abort + Sync>(
    rt: &R,
    alloc: Global,
    blank: Blank,
    stream: Script,
) -> Outcome
    requires name { blank.name ≡ L.name }
    requires parts { blank.parts ≡ L.parts }
    requires whole { blank.parts ≡ 2 ^ 53 }
{
    let keeper = MemKeeper::new(alloc);
    let core = match Core::<L, MemKeeper, NoBell>::start(alloc, blank, keeper, Moment::at(0)) {
        Ok(core) => core,
        Err((fault, _)) => panic!(rt; "{fault}"),
    };
    let hub = Hub::new(core, OpenGate);
    let (parting, ended) = serve_stream(rt, alloc, &hub, stream, &mut None, &mut Stopped);
    tick(rt, &hub);
    reported(rt, hub.into_core().finish(), parting, ended)
}

/// One connection to a new hub, and then a tick.
pub(crate) fn served<R: Wait + Threads + time::Clock + Abort + Sync>(
    rt: &R,
    alloc: Global,
    stream: Script,
) -> Outcome {
    served_with::<Brand, R>(rt, alloc, Blank::new(1 << 53), stream)
}

/// The pieces of a stream: the request, and a frame for each line, whose first word is its kind;
/// after `nothing` a read gives nothing. One behind `+` comes together with the one before it.
pub(crate) fn pieces(rt: &impl Abort, alloc: Global, lines: &str) -> Vec<Vec<u8>> {
    let mut pieces = Vec::new(alloc);
    let mut head = Vec::new(alloc);
    head.extend_from_slice(HEAD).expect(rt, "memory");
    pieces.push(head).expect(rt, "memory");
    for line in lines.lines() {
        let (is_joined, line) = match line.strip_prefix("+ ") {
            Some(line) => (true, line),
            None => (false, line),
        };
        let (kind, text) = line.split_once(' ').unwrap_or((line, ""));
        let piece = match kind {
            "nothing" => Vec::new(alloc),
            "text" => frame(rt, alloc, 1, text.as_bytes()),
            "binary" => frame(rt, alloc, 2, text.as_bytes()),
            "long" => frame(rt, alloc, 1, long(rt, alloc).as_bytes()),
            "ping" => frame(rt, alloc, 9, b""),
            _ => frame(rt, alloc, 8, b""),
        };
        if !is_joined {
            pieces.push(piece).expect(rt, "memory");
        } else if let Some(last) = pieces.last_mut() {
            last.extend_from_slice(&piece).expect(rt, "memory");
        }
    }
    pieces
}

// A text of one byte more than a message may have.
fn long(rt: &impl Abort, alloc: Global) -> String {
    let mut text = String::new(alloc);
    for _ in 0..1_048_577 {
        text.push('x').expect(rt, "memory");
    }
    text
}

// What a connection of these lines is answered, how it ended, and what was counted.
fn answered<R: Wait + Threads + time::Clock + Abort + Sync>(
    rt: &R,
    alloc: Global,
    lines: &str,
) -> (String, Outcome) {
    let (stream, traces) = script_of(rt, alloc, pieces(rt, alloc, lines), NONE);
    let served = served(rt, alloc, stream);
    (said(rt, alloc, traces), served)
}

/// A connection of these lines must be answered so, and closed, and make this many entries, of which
/// this many were accepted.
pub(crate) fn check_closed<R: Wait + Threads + time::Clock + Abort + Sync>(
    rt: &R,
    alloc: Global,
    lines: &str,
    answers: &str,
    entries: (u64, u64),
) {
    let (said, served) = answered(rt, alloc, lines);
    expect_text(rt, said, answers);
    let (number, accepted) = entries;
    served.expect(rt, "closed", (number, accepted, 0, Some(accepted)));
}

/// A Hello, what is no message in three ways, a ping and a write.
pub(crate) const BAD: &str = r#"text {"m":"hello","s":["alice",1,1]}
text {"m":"beat"
binary 1
long
ping
text {"m":"op","n":1,"op":{"op":"set","path":"/a","value":1},"q":1,"s":["alice",1,1]}
close"#;

/// What is answered to them.
pub(crate) const BAD_ANSWERS: &str = r#"{"m":"welcome","ops":0,"s":["alice",1,1],"z":1}
{"code":1,"m":"fault","s":["alice",1,1]}
{"code":1,"m":"fault","s":["alice",1,1]}
{"code":1,"m":"fault","s":["alice",1,1]}
another frame
{"done":2,"m":"reply","n":1,"out":"wrote","q":1,"r":1,"s":["alice",1,1],"z":2}
close
"#;

#[test]
fn what_is_no_message_is_answered(rt: HostRuntime) {
    check_closed(&rt, rt.alloc(), BAD, BAD_ANSWERS, (3, 2));
}

const EARLY: &str = r#"text {"m":"beat","s":["alice",1,1]}
close"#;

// Before the Hello the connection is ended.
#[test]
fn what_comes_before_a_hello_ends_the_connection(rt: HostRuntime) {
    let answers = "{\"code\":1,\"m\":\"fault\",\"s\":null}\nclose\n";
    check_closed(&rt, rt.alloc(), EARLY, answers, (0, 0));
}

const BYE: &str = r#"text {"m":"hello","s":["alice",1,1]}
text {"m":"bye","q":1,"s":["alice",1,1]}
close"#;

const BYE_ANSWERS: &str = r#"{"m":"welcome","ops":0,"s":["alice",1,1],"z":1}
{"m":"gone","r":1,"s":["alice",1,1],"why":"bye","z":2}
close
"#;

// After Gone the connection is closed.
#[test]
fn a_bye_closes_the_connection(rt: HostRuntime) {
    check_closed(&rt, rt.alloc(), BYE, BYE_ANSWERS, (2, 2));
}

// This many lines of nothing let a connection rest.
const RESTS: usize = 30;

// The lines, with a rest before each.
fn with_rests(rt: &impl Abort, alloc: Global, lines: &str) -> String {
    let rest = "nothing\n".repeat(alloc, RESTS).expect(rt, "memory");
    let mut rested = String::new(alloc);
    for line in lines.lines() {
        rested.push_str(rest.as_str()).expect(rt, "memory");
        rested.push_str(line).expect(rt, "memory");
        rested.push('\n').expect(rt, "memory");
    }
    rested
}

// What comes after a rest is answered as what comes at once.
#[test]
fn what_comes_behind_a_rest_is_answered(rt: HostRuntime) {
    let lines = with_rests(&rt, rt.alloc(), BYE);
    check_closed(&rt, rt.alloc(), lines.as_str(), BYE_ANSWERS, (2, 2));
}

#[test]
fn no_handshake_is_no_seat(rt: HostRuntime) {
    let mut pieces = Vec::new(rt.alloc());
    let mut head = Vec::new(rt.alloc());
    head.extend_from_slice(b"GET / HTTP/1.1\r\nHost: x\r\n\r\n")
        .expect(&rt, "memory");
    pieces.push(head).expect(&rt, "memory");
    let (stream, traces) = script_of(&rt, rt.alloc(), pieces, NONE);
    drop(traces);
    let ended = served(&rt, rt.alloc(), stream);
    ended.expect(&rt, "handshake", (0, 0, 0, Some(0)));
}
