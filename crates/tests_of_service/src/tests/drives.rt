//! What a client says, and what it tells.

use crate::tests::script::{NONE, said, script_of, server_frame};
use crate::tests::texts::{expect_text, fault_word};
use pres_client::Client;
use pres_client_connection::drive_client;
use pres_ids::{ClientId, Number};
use pres_script::{Line, line_of, number_of};
use pres_websocket::SockFault;
use std::alloc::Global;
use std::process::Abort;
use tungstenite::MaskKeys;

// What a server answers to the request of a client whose keys are 0: RFC 6455, 4.2.2.
const ANSWER: &[u8] =
    b"HTTP/1.1 101 Switching Protocols\r\nUpgrade: websocket\r\nConnection: Upgrade\r\nSec-WebSocket-Accept: ICX+Yqv66kxgM0FcWaLWlFLwTAI=\r\n\r\n";

// Keys that leave a payload as it is.
#[derive(Drop)]
struct Zeros;

impl MaskKeys for Zeros {
    fn next_key(&mut self) -> [u8; 4] {
        [0; 4]
    }
}

// The answer to the request, and then a frame for each line.
fn pieces(rt: &impl Abort, alloc: Global, lines: &str) -> Vec<Vec<u8>> {
    let mut pieces = Vec::new(alloc);
    let mut head = Vec::new(alloc);
    head.extend_from_slice(ANSWER).expect(rt, "memory");
    pieces.push(head).expect(rt, "memory");
    for line in lines.lines() {
        pieces
            .push(server_frame(rt, alloc, line))
            .expect(rt, "memory");
    }
    pieces
}

// What the lines of a client's input say.
fn lines_in(rt: &impl Abort, alloc: Global, text: &str) -> Vec<Line> {
    let mut lines = Vec::new(alloc);
    for line in text.lines() {
        let line = line_of(alloc, line).expect(rt, "memory");
        lines.push(line.expect(rt, "a line")).expect(rt, "memory");
    }
    lines
}

// Lines of an input, one of which is a call whose path is refused.
const LINES: &str = "listen /a
set /x.y 1
set /a 1";

// The end in words.
fn end_text(ended: Result<Client, (SockFault, Client)>) -> &'static str {
    match ended {
        Ok(_) => "done",
        Err((fault, _)) => fault_word(&fault),
    }
}

// What Alice's client says and tells that does the lines, where this is what it is served, and how it
// ends.
fn driven(
    rt: &impl Abort,
    alloc: Global,
    lines: &str,
    served: &str,
) -> (String, String, &'static str) {
    let (stream, sent) = script_of(rt, alloc, pieces(rt, alloc, served), NONE);
    let client = Client::new(
        alloc,
        ClientId::parse(alloc, "alice").expect(rt, "a client's name"),
        Number::first(),
    );
    let lines = lines_in(rt, alloc, lines);
    let mut told = Vec::new(alloc);
    let ended = end_text(drive_client(alloc, client, stream, Zeros, lines, &mut told));
    let told = String::from_utf8(told).expect(rt, "text");
    (said(rt, alloc, sent), told, ended)
}

// Alice's client that does the lines has to say and to tell this, and to be done, where this is what
// it is served.
fn check(rt: &impl Abort, alloc: Global, lines: &str, served: &str, says: &str, tells: &str) {
    let (said, told, ended) = driven(rt, alloc, lines, served);
    expect_text(rt, said, says);
    expect_text(rt, told, tells);
    assert_eq!(rt; ended, "done");
}

const SERVED: &str = r#"{"m":"welcome","ops":0,"s":["alice",1,1],"z":1}
{"m":"snap","path":"/a","q":1,"r":1,"s":["alice",1,1],"value":null,"z":2}
{"m":"push","r":2,"s":["alice",1,1],"values":[["/a",1]],"z":3}
{"done":3,"m":"reply","n":1,"out":"wrote","q":2,"r":3,"s":["alice",1,1],"z":3}"#;

const SAID: &str = r#"{"m":"hello","s":["alice",1,1]}
{"m":"on","path":"/a","q":1,"s":["alice",1,1]}
{"m":"op","n":1,"op":{"op":"set","path":"/a","value":1},"q":2,"s":["alice",1,1]}
{"m":"bye","q":3,"s":["alice",1,1]}
close
"#;

const TOLD: &str = "connected true
value /a 2 null
refused 5
value /a 3 1
done 2 3
connected false
";

#[test]
fn a_client_tells_its_notices(rt: HostRuntime) {
    check(&rt, rt.alloc(), LINES, SERVED, SAID, TOLD);
}

// Denials and faults, a session that is closed, one that is refused, and answers that fit nothing.
const REFUSED: &str = "listen /a
od-set /b 1
od-cancel /c
online
online
online
listen /a";

const REFUSED_SERVED: &str = r#"{"m":"welcome","ops":1,"s":["alice",1,1],"z":2}
{"m":"denied","q":1,"r":1,"s":["alice",1,1],"why":2,"z":3}
{"m":"denied","q":2,"r":2,"s":["alice",1,1],"why":1,"z":4}
{"code":6,"m":"fault","s":["alice",1,1]}
{"code":1,"m":"fault","s":null}
{"code":3,"m":"fault","s":["alice",1,1]}
{"code":5,"m":"fault","s":["alice",1,2]}
{"m":"welcome","ops":0,"s":["alice",1,3],"z":9}
{"m":"welcome","ops":1,"s":["alice",1,4],"z":9}
{"m":"armed","q":1,"r":1,"s":["alice",1,4],"z":10}"#;

const REFUSED_SAID: &str = r#"{"m":"hello","s":["alice",1,1]}
{"m":"on","path":"/a","q":1,"s":["alice",1,1]}
{"m":"left","op":{"op":"set","path":"/b","value":1},"q":2,"s":["alice",1,1]}
{"m":"cancel","path":"/c","q":3,"s":["alice",1,1]}
{"m":"hello","s":["alice",1,2]}
{"m":"hello","s":["alice",1,3]}
{"m":"hello","s":["alice",1,4]}
{"m":"on","path":"/a","q":1,"s":["alice",1,4]}
close
"#;

const REFUSED_TOLD: &str = "connected true
denied 1 2
denied 2 1
faulted 6
faulted 1
connected false
lost 3
faulted 3
faulted 5
faulted 1
connected true
connected false
faulted 1
";

#[test]
fn refusals_are_told(rt: HostRuntime) {
    let (says, tells) = (REFUSED_SAID, REFUSED_TOLD);
    check(&rt, rt.alloc(), REFUSED, REFUSED_SERVED, says, tells);
}

// A server's answer to the client's try with the number, which is stale: its number is what stands
// there.
fn stale(rt: &impl Abort, alloc: Global, number: u64) -> String {
    let z = number.saturating_add(1);
    let text = format!(in alloc;
        r#"{{"done":{z},"m":"reply","n":{number},"out":{{"stale":{number}}},"q":{number},"r":{number},"s":["alice",1,1],"z":{z}}}"#
    );
    text.expect(rt, "memory")
}

// A Welcome, and this many such answers.
fn overtaken(rt: &impl Abort, alloc: Global, tries: u64) -> String {
    let welcome = r#"{"m":"welcome","ops":0,"s":["alice",1,1],"z":1}"#;
    let mut served = String::from_str(alloc, welcome).expect(rt, "memory");
    for number in 1..=tries {
        served.push('\n').expect(rt, "memory");
        served
            .push_str(stale(rt, alloc, number).as_str())
            .expect(rt, "memory");
    }
    served
}

// A transaction of 25 tries, and one more answer to it.
const TRIES: &str = "transact /n
answer 1 0
answer 1 0
answer 1 0
answer 1 0
answer 1 0
answer 1 0
answer 1 0
answer 1 0
answer 1 0
answer 1 0
answer 1 0
answer 1 0
answer 1 0
answer 1 0
answer 1 0
answer 1 0
answer 1 0
answer 1 0
answer 1 0
answer 1 0
answer 1 0
answer 1 0
answer 1 0
answer 1 0
answer 1 0
answer 1 0";

const TRIES_TOLD: &str = "connected true
ask 1 1 null
ask 1 2 1
ask 1 3 2
ask 1 4 3
ask 1 5 4
ask 1 6 5
ask 1 7 6
ask 1 8 7
ask 1 9 8
ask 1 10 9
ask 1 11 10
ask 1 12 11
ask 1 13 12
ask 1 14 13
ask 1 15 14
ask 1 16 15
ask 1 17 16
ask 1 18 17
ask 1 19 18
ask 1 20 19
ask 1 21 20
ask 1 22 21
ask 1 23 22
ask 1 24 23
ask 1 25 24
toomany 1
refused 3
connected false
";

// A transaction that is overtaken 25 times is given up.
#[test]
fn a_transaction_has_25_tries(rt: HostRuntime) {
    let served = overtaken(&rt, rt.alloc(), 25);
    let (_, told, ended) = driven(&rt, rt.alloc(), TRIES, served.as_str());
    expect_text(&rt, told, TRIES_TOLD);
    assert_eq!(rt; ended, "done");
}

// Texts that are no whole number.
const NO_NUMBERS: [&str; 8] = [
    "",
    "+",
    "+1",
    "-1",
    " 1",
    "1.0",
    "1e3",
    "18446744073709551616",
];

// Lines that say nothing, since they have one of these.
const NO_LINES: [&str; 6] = [
    "wait +1",
    "wait 1 ",
    "abort +1",
    "abort -1",
    "answer +1 1",
    "answer 18446744073709551616 1",
];

#[test]
fn numbers_are_digits_alone(rt: HostRuntime) {
    for text in NO_NUMBERS {
        assert_eq!(rt; number_of(text), None, "at {text}");
    }
    assert_eq!(rt; number_of("0"), Some(0));
    assert_eq!(rt; number_of("018446744073709551615"), Some(u64::MAX));
    for text in NO_LINES {
        let line = line_of(rt.alloc(), text).expect(&rt, "memory");
        assert!(rt; line.is_none(), "at {text}");
    }
}
