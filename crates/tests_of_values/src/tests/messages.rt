//! Tests of messages: what is read and printed, and why texts are refused. A table is a text of
//! lines, each a case and what it must answer. Each helper holds one message at most.

use crate::tests::said::{check_tables, expect_text, json_text};
use pres_ids::{read_session, session_value, stamp_value};
use pres_limits::MAX_SAFE_INTEGER;
use pres_wire::{
    ClientId, Count, Down, Field, IdFault, MAX_TEXT_BYTES, Number, SessionId, Stamp, Up, WireFault,
};
use serde_json::Value;
use std::alloc::Global;
use std::process::Abort;

// The number, and 1 in the place of what is none.
fn number(value: u64) -> Number {
    Number::new(value).unwrap_or(Number::first())
}

fn stamp(incarnation: u64, attempt: u64) -> Stamp {
    Stamp {
        incarnation: number(incarnation),
        attempt: number(attempt),
    }
}

fn session(rt: &impl Abort, alloc: Global, client: &str) -> SessionId {
    SessionId::of(
        ClientId::parse(alloc, client).expect(rt, "a client's name"),
        stamp(1, 1),
    )
}

// ---- numbers

#[test]
fn numbers_count_from_1(rt: HostRuntime) {
    let first = Count::zero().next().expect(&rt, "a number");
    assert_eq!(rt; first, Number::first());
    assert_eq!(rt; first.next().map(Number::get), Some(2));
    assert_eq!(rt; Number::new(0), None);
}

#[test]
fn numbers_end_at_the_greatest(rt: HostRuntime) {
    let last = Number::new(9007199254740991).expect(&rt, "a number");
    assert_eq!(rt; last.get(), MAX_SAFE_INTEGER);
    assert_eq!(rt; last.next(), None);
    assert_eq!(rt; Number::new(9007199254740992), None);
}

#[test]
fn counts_go_up_to_numbers(rt: HostRuntime) {
    let last = Number::new(9007199254740991).expect(&rt, "a number");
    assert_eq!(rt; Count::new(9007199254740991), Some(Count::up_to(last)));
    assert_eq!(rt; Count::up_to(last).get(), last.get());
}

#[test]
fn numbers_are_displayed(rt: HostRuntime) {
    let said = format!(in rt.alloc(); "{} {}", number(12), Count::up_to(number(34)));
    expect_text(&rt, said.expect(&rt, "memory"), "12 34");
}

// ---- clients and sessions

// The text of a client id, or why it is refused.
fn id_answer(rt: &impl Abort, alloc: Global, text: &str) -> String {
    match ClientId::parse(alloc, text) {
        Ok(id) => String::from_str(alloc, id.text()).expect(rt, "memory"),
        Err(IdFault::NotAnId) => String::from_str(alloc, "refused").expect(rt, "memory"),
        Err(IdFault::Memory) => panic!(rt; "out of memory"),
    }
}

fn second_of(rt: &impl Abort, alloc: Global, first: &SessionId) -> SessionId {
    SessionId::of(first.client.copy(alloc).expect(rt, "memory"), stamp(2, 1))
}

#[test]
fn sessions_of_a_client(rt: HostRuntime) {
    let alice = ClientId::parse(rt.alloc(), "alice").expect(&rt, "a client's name");
    let first = SessionId::of(alice, stamp(1, 2));
    let second = second_of(&rt, rt.alloc(), &first);
    let order = (
        first < second,
        first.stamp().is_earlier(&second.stamp()),
        second.stamp().is_earlier(&first.stamp()),
    );
    assert_eq!(rt; order, (true, true, false));
    let said = format!(in rt.alloc(); "{} {first} {second}", first.stamp());
    expect_text(&rt, said.expect(&rt, "memory"), "1.2 alice/1.2 alice/2.1");
}

#[test]
fn sessions_are_copied(rt: HostRuntime) {
    let session = session(&rt, rt.alloc(), "alice");
    let copied = session.copy(rt.alloc()).expect(&rt, "memory");
    assert!(rt; copied == session);
}

fn session_in(rt: &impl Abort, alloc: Global, text: &str) -> Option<SessionId> {
    let value = Value::from_str(alloc, text).expect(rt, "JSON");
    let session = read_session(alloc, &value);
    drop(value);
    session.expect(rt, "a session")
}

// The JSON of the session and of its stamp.
fn session_json(rt: &impl Abort, alloc: Global, session: &SessionId) -> String {
    let whole = json_text(
        rt,
        alloc,
        session_value(alloc, session).expect(rt, "memory"),
    );
    let stamp = json_text(
        rt,
        alloc,
        stamp_value(alloc, session.stamp()).expect(rt, "memory"),
    );
    format!(in alloc; "{whole} {stamp}").expect(rt, "memory")
}

// The JSON of a session's JSON, or `none`.
fn session_answer(rt: &impl Abort, alloc: Global, text: &str) -> String {
    match session_in(rt, alloc, text) {
        Some(session) => session_json(rt, alloc, &session),
        None => String::from_str(alloc, "none").expect(rt, "memory"),
    }
}

// ---- messages to the server

fn message_text(rt: &impl Abort, alloc: Global, message: Up) -> String {
    let text = message.encode(alloc);
    drop(message);
    text.expect(rt, "memory")
}

fn copied_text(rt: &impl Abort, alloc: Global, message: Up) -> String {
    let copied = message.copy(alloc);
    drop(message);
    message_text(rt, alloc, copied.expect(rt, "memory"))
}

// The text that the message of a text is printed as.
fn printed_again(rt: &impl Abort, alloc: Global, text: &str) -> String {
    let message = Up::decode(alloc, text).expect(rt, "a message");
    copied_text(rt, alloc, message)
}

// The printed text, or `same` where it is this one.
fn or_same(rt: &impl Abort, alloc: Global, printed: String, text: &str) -> String {
    if printed.as_str() == text {
        return String::from_str(alloc, "same").expect(rt, "memory");
    }
    printed
}

// The text that the message of a text is printed as, or `same`.
fn message_answer(rt: &impl Abort, alloc: Global, text: &str) -> String {
    or_same(rt, alloc, printed_again(rt, alloc, text), text)
}

// The text of the client's write 1, of a case such as `2 OPERATION`.
fn write_text(rt: &impl Abort, alloc: Global, case: &str) -> String {
    let (q, op) = case.split_once(' ').expect(rt, "an operation");
    let text = format!(in alloc; r#"{{"m":"op","n":1,"op":{op},"q":{q},"s":["alice",1,1]}}"#);
    text.expect(rt, "memory")
}

// The text of a Left, of a case such as `2 OPERATION`.
fn left_text(rt: &impl Abort, alloc: Global, case: &str) -> String {
    let (q, op) = case.split_once(' ').expect(rt, "an operation");
    format!(in alloc; r#"{{"m":"left","op":{op},"q":{q},"s":["alice",1,1]}}"#).expect(rt, "memory")
}

const HELLO: &str = r#"{"m":"hello","s":["a",1,1]}"#;

// A Hello, filled up with spaces to this many bytes, and an end, of a case such as `40+x`.
fn filled_text(rt: &impl Abort, alloc: Global, case: &str) -> String {
    let (bytes, end) = case.split_once('+').expect(rt, "an end");
    let bytes: usize = bytes.parse().expect(rt, "a number");
    let mut text = String::from_str(alloc, HELLO).expect(rt, "memory");
    for _ in HELLO.len()..bytes {
        text.push(' ').expect(rt, "memory");
    }
    text.push_str(end).expect(rt, "memory");
    text
}

fn fault_of(rt: &impl Abort, alloc: Global, text: &str) -> WireFault {
    Up::decode(alloc, text).err().expect(rt, "a refusal")
}

// The number and the name of a text's refusal, and the refusal.
fn refusal(rt: &impl Abort, alloc: Global, text: &str) -> String {
    let fault = fault_of(rt, alloc, text);
    format!(in alloc; "{} {} {fault:?}", fault.number(), fault.name()).expect(rt, "memory")
}

// The refusal of the message with the value between its parts.
fn refusal_of(rt: &impl Abort, alloc: Global, before: &str, value: &str, after: &str) -> String {
    let text = format!(in alloc; "{before}{value}{after}").expect(rt, "memory");
    refusal(rt, alloc, text.as_str())
}

// The message with each value in the place of `_`: its refusal, where another one follows.
fn field_refusals(rt: &impl Abort, alloc: Global, message: &str, values: &str) -> String {
    let (before, after) = message.split_once('_').expect(rt, "a place");
    let mut last = String::new(alloc);
    let mut all = String::new(alloc);
    for value in values.split(" ; ") {
        let said = refusal_of(rt, alloc, before, value, after);
        if said != last {
            all.push_str(said.as_str()).expect(rt, "memory");
        }
        last = said;
    }
    all
}

fn fields_answer(rt: &impl Abort, alloc: Global, case: &str) -> String {
    let (message, values) = case.split_once(" with ").expect(rt, "values");
    field_refusals(rt, alloc, message, values)
}

// What a case answers in a table with this heading.
fn answer(rt: &impl Abort, alloc: Global, heading: &str, case: &str) -> String {
    match heading {
        "ids" => id_answer(rt, alloc, case),
        "sessions" => session_answer(rt, alloc, case),
        "messages" => message_answer(rt, alloc, case),
        "writes" => message_answer(rt, alloc, write_text(rt, alloc, case).as_str()),
        "actions" => message_answer(rt, alloc, left_text(rt, alloc, case).as_str()),
        "the longest" => message_answer(rt, alloc, filled_text(rt, alloc, case).as_str()),
        "refusals" => refusal(rt, alloc, case),
        "refused writes" => refusal(rt, alloc, write_text(rt, alloc, case).as_str()),
        "refused actions" => refusal(rt, alloc, left_text(rt, alloc, case).as_str()),
        "too long" => refusal(rt, alloc, filled_text(rt, alloc, case).as_str()),
        "fields" => fields_answer(rt, alloc, case),
        "messages to clients" => read_answer(rt, alloc, case),
        "refused by clients" => unread_answer(rt, alloc, case),
        _ => panic!(rt; "no heading"),
    }
}

const IDS: &str = "ids:
a-Z_09 => a-Z_09
a! => refused
a b => refused
 => refused";

const SESSIONS: &str = r#"sessions:
[ "alice", 1, 2 ] => ["alice",1,2] [1,2]
["alice",1] => none
["alice",0,1] => none
["",1,1] => none
{"client":"alice"} => none"#;

// The last one is a Bye with spaces around it, its members in another order, and a further member.
const MESSAGES: &str = r#"messages:
{"m":"hello","s":["alice",1,1]} => same
{"m":"beat","s":["alice",1,1]} => same
{"m":"cancel","path":"/a/b","q":2,"s":["alice",1,1]} => same
{"m":"on","path":"/a","q":1,"s":["bob",1,1]} => same
{"m":"off","path":"/a","q":2,"s":["bob",1,1]} => same
{"m":"cancel","path":"","q":2,"s":["a",1,1]} => {"m":"cancel","path":"/","q":2,"s":["a",1,1]}
 {"s":["a",9007199254740991,2],"q":9007199254740991,"m":"bye","more":{"q":0}}  => {"m":"bye","q":9007199254740991,"s":["a",9007199254740991,2]}"#;

const LEFT: &str = r#"actions:
1 {"op":"set","path":"/a","value":1} => same
1 {"op":"update","path":"/","values":{"last":{".sv":"timestamp"},"online":null}} => same"#;

const WRITES: &str = r#"writes:
1 {"op":"set","path":"/a","value":1} => same
1 {"op":"update","path":"/","values":{"last":{".sv":"timestamp"},"online":null}} => same
2 {"expect":0,"op":"tx","path":"/n","value":1} => same"#;

const REFUSALS: &str = r#"refusals:
 => 2 NotJson NotJson
{"m":"beat" => 2 NotJson NotJson
[] => 4 NoSuchMessage NoSuchMessage
{} => 4 NoSuchMessage NoSuchMessage
{"m":"hi"} => 4 NoSuchMessage NoSuchMessage
{"m":1} => 4 NoSuchMessage NoSuchMessage
{"m":"hello"} => 5 Field Field(Session)
{"m":"hello","s":["a!",1,1]} => 5 Field Field(Session)
{"m":"hello","s":["a",0,1]} => 5 Field Field(Session)
{"m":"bye","q":0,"s":["a",1,1]} => 5 Field Field(Q)
{"m":"op","q":1,"n":1} => 5 Field Field(Session)
{"m":"op","s":["a",1,1],"n":1} => 5 Field Field(Q)
{"m":"op","s":["a",1,1],"q":1} => 5 Field Field(N)
{"m":"op","s":["a",1,1],"q":1,"n":1} => 5 Field Field(Op)
{"m":"op","s":["a",1,1],"q":1,"n":1,"op":null} => 6 Write Write(Shape)
{"m":"bye","q":1} => 5 Field Field(Session)
{"m":"bye","s":["a",1,1]} => 5 Field Field(Q)
{"m":"beat"} => 5 Field Field(Session)
{"m":"left","q":1,"op":null} => 5 Field Field(Session)
{"m":"left","s":["a",1,1],"op":null} => 5 Field Field(Q)
{"m":"left","s":["a",1,1],"q":1} => 5 Field Field(Op)
{"m":"cancel","q":1,"path":"/a"} => 5 Field Field(Session)
{"m":"cancel","s":["a",1,1],"path":"/a"} => 5 Field Field(Q)
{"m":"cancel","s":["a",1,1],"q":1} => 5 Field Field(Path)
{"m":"cancel","s":["a",1,1],"q":1,"path":["a"]} => 5 Field Field(Path)
{"m":"cancel","s":["a",1,1],"q":1,"path":"/a.b"} => 5 Field Field(Path)
{"m":"on","q":1,"path":"/a"} => 5 Field Field(Session)
{"m":"on","s":["a",1,1],"q":0,"path":"/a"} => 5 Field Field(Q)
{"m":"on","s":["a",1,1],"q":1} => 5 Field Field(Path)
{"m":"on","s":["a",1,1],"q":1,"path":"/a.b"} => 5 Field Field(Path)
{"m":"off","q":1,"path":"/a"} => 5 Field Field(Session)
{"m":"off","s":["a",1,1],"path":"/a"} => 5 Field Field(Q)
{"m":"off","s":["a",1,1],"q":1,"path":null} => 5 Field Field(Path)"#;

const REFUSED_LEFT: &str = r#"refused actions:
1 {"expect":0,"op":"tx","path":"/n","value":1} => 5 Field Field(Op)
1 {"op":"tx","path":"/a.b"} => 5 Field Field(Op)
1 {"op":"set","path":"/a.b","value":1} => 6 Write Write(Tree(BadKey))
1 null => 6 Write Write(Shape)"#;

const REFUSED_WRITES: &str = r#"refused writes:
1 {"op":"set","path":"/a.b","value":1} => 6 Write Write(Tree(BadKey))
1 {"op":"update","path":"/","values":{"a":2,"a/b":1}} => 6 Write Write(Overlap)"#;

const FIELDS: &str = r#"fields:
{"m":"hello","s":_} with null ; {"s":1} ; ["a",1] => 5 Field Field(Session)
{"m":"hello","s":_} with ["a",1,1,1] ; [1,1,1] ; ["",1,1] => 5 Field Field(Session)
{"m":"hello","s":_} with ["a",9007199254740992,1] ; ["a",1,"1"] => 5 Field Field(Session)
{"m":"op","q":0,"s":_} with null ; "a" ; [] ; ["a",1,0] => 5 Field Field(Session)
{"m":"op","q":0,"s":_} with ["a",1.0,1] ; ["a",1,9007199254740992] => 5 Field Field(Session)
{"m":"op","q":0,"s":_} with ["a b",1,1] ; [null,1,1] => 5 Field Field(Session)
{"m":"bye","q":1,"s":_} with null ; true ; ["a"] => 5 Field Field(Session)
{"m":"bye","q":1,"s":_} with ["a",0,1] ; ["a",1,-1] => 5 Field Field(Session)
{"m":"bye","q":1,"s":_} with ["a",1,18446744073709551616] => 5 Field Field(Session)
{"m":"bye","q":1,"s":_} with ["ä",1,1] ; [["a"],1,1] => 5 Field Field(Session)
{"m":"op","s":["a",1,1],"q":_} with null ; 0 ; 1.0 ; -1 => 5 Field Field(Q)
{"m":"op","s":["a",1,1],"q":_} with 9007199254740992 ; "1" ; [1] ; true => 5 Field Field(Q)
{"m":"op","op":{},"q":1,"s":["a",1,1],"n":_} with null ; 0 ; 1e2 ; -1 => 5 Field Field(N)
{"m":"op","op":{},"q":1,"s":["a",1,1],"n":_} with 9007199254740992 => 5 Field Field(N)
{"m":"op","op":{},"q":1,"s":["a",1,1],"n":_} with "1" ; {} ; false => 5 Field Field(N)
{"m":"bye","s":["a",1,1],"q":_} with null ; 0 ; -0 ; "1" ; [] ; true => 5 Field Field(Q)
{"m":"bye","s":["a",1,1],"q":_} with 9007199254740992 => 5 Field Field(Q)
{"m":"bye","s":["a",1,1],"q":_} with 18446744073709551616 => 5 Field Field(Q)"#;

#[test]
fn refusals_are_displayed(rt: HostRuntime) {
    let told = WireFault::Field(Field::N)
        .to_string(rt.alloc())
        .expect(&rt, "memory");
    expect_text(&rt, told, "the field n is missing or wrong");
}

fn q_of(rt: &impl Abort, alloc: Global, text: &str) -> Option<Number> {
    let message = Up::decode(alloc, text).expect(rt, "a message");
    let q = message.q();
    drop(message);
    q
}

#[test]
fn messages_are_numbered(rt: HostRuntime) {
    let cancel = r#"{"m":"cancel","path":"/","q":2,"s":["a",1,1]}"#;
    assert_eq!(rt; q_of(&rt, rt.alloc(), cancel), Some(number(2)));
    assert_eq!(rt;
        q_of(&rt, rt.alloc(), r#"{"m":"beat","q":2,"s":["a",1,1]}"#),
        None
    );
}

const LONGEST: &str = r#"the longest:
1048576+ => {"m":"hello","s":["a",1,1]}"#;

const TOO_LONG: &str = "too long:
1048576+x => 3 TooLong TooLong";

// ---- messages to clients

fn encoded(rt: &impl Abort, alloc: Global, message: Down) -> String {
    let text = message.encode(alloc);
    drop(message);
    text.expect(rt, "memory")
}

fn printed(rt: &impl Abort, alloc: Global, message: Down) -> String {
    let copied = message.copy(alloc);
    drop(message);
    encoded(rt, alloc, copied.expect(rt, "memory"))
}

fn read_text(rt: &impl Abort, alloc: Global, text: &str) -> String {
    let message = Down::decode(alloc, text).expect(rt, "a message");
    printed(rt, alloc, message)
}

// The text that the message to a client of a text is printed as, or `same`.
fn read_answer(rt: &impl Abort, alloc: Global, text: &str) -> String {
    or_same(rt, alloc, read_text(rt, alloc, text), text)
}

// Why the text is refused as a message to a client.
fn unread_answer(rt: &impl Abort, alloc: Global, text: &str) -> String {
    let fault = Down::decode(alloc, text).err().expect(rt, "a refusal");
    format!(in alloc; "{fault:?}").expect(rt, "memory")
}

const READ: &str = r#"messages to clients:
{"m":"welcome","ops":0,"s":["alice",1,1],"z":1} => same
{"done":5,"m":"reply","n":1,"out":"wrote","q":2,"r":2,"s":["alice",1,1],"z":5} => same
{"done":7,"m":"reply","n":1,"out":{"stale":1},"q":2,"r":3,"s":["bob",1,1],"z":7} => same
{"m":"gone","r":3,"s":["alice",1,1],"why":"lost","z":6} => same
{"m":"armed","q":2,"r":3,"s":["alice",1,1],"z":6} => same
{"m":"denied","q":2,"r":3,"s":["alice",1,1],"why":1,"z":6} => same
{"m":"denied","q":2,"r":3,"s":["alice",1,1],"why":2,"z":6} => same
{"m":"snap","path":"/a","q":1,"r":1,"s":["bob",1,1],"value":null,"z":3} => same
{"m":"snap","path":"/a","q":1,"r":1,"s":["bob",1,1],"value":1,"z":3} => same
{"m":"push","r":2,"s":["bob",1,1],"values":[["/a/b",null]],"z":4} => same
{"m":"push","r":2,"s":["bob",1,1],"values":[["/a",null],["/a/b",null]],"z":4} => same
{"m":"push","r":2,"s":["bob",1,1],"values":[],"z":4} => same
{"m":"offdone","q":2,"r":3,"s":["bob",1,1],"z":5} => same
{"code":4,"m":"fault","s":["alice",1,1]} => same
{"code":2,"last":[1,1],"m":"fault","s":["alice",1,1]} => same
{"code":1,"m":"fault","s":null} => same"#;

const UNREAD: &str = r#"refused by clients:
 => NotJson
[] => NoSuchMessage
{} => NoSuchMessage
{"m":"hi"} => NoSuchMessage
{"m":"welcome","ops":0,"s":["alice",1,1],"z":0} => Field(Z)
{"done":5,"m":"reply","n":1,"q":2,"r":2,"s":["alice",1,1],"z":5} => Field(Out)
{"done":5,"m":"reply","n":1,"out":{"stale":1.5},"q":2,"r":2,"s":["a",1,1],"z":5} => Field(Out)
{"m":"denied","q":2,"r":3,"s":["alice",1,1],"why":3,"z":6} => Field(Why)
{"m":"gone","r":3,"s":["alice",1,1],"why":"x","z":6} => Field(Why)
{"code":9,"m":"fault","s":null} => Field(Code)
{"code":2,"m":"fault","s":["alice",1,1]} => Field(Last)
{"code":1,"m":"fault"} => Field(Session)
{"m":"push","r":2,"s":["bob",1,1],"values":[["/a",1],["/a",2]],"z":4} => Field(Values)
{"m":"push","r":2,"s":["bob",1,1],"values":[["/a/b",null],["/a",null]],"z":4} => Field(Values)
{"m":"snap","path":"/a.b","q":1,"r":1,"s":["bob",1,1],"value":null,"z":3} => Field(Path)
{"m":"snap","path":"/a","q":1,"r":1,"s":["bob",1,1],"value":1.5,"z":3} => Field(Value)"#;

#[test]
fn cases_have_their_answers(rt: HostRuntime) {
    let tables = [
        IDS,
        SESSIONS,
        MESSAGES,
        WRITES,
        LEFT,
        LONGEST,
        REFUSALS,
        REFUSED_WRITES,
        REFUSED_LEFT,
        TOO_LONG,
        FIELDS,
        READ,
        UNREAD,
    ];
    check_tables(
        &rt,
        &tables,
        |heading, case| answer(&rt, rt.alloc(), heading, case),
    );
    assert_eq!(rt; MAX_TEXT_BYTES, 1048576);
}
