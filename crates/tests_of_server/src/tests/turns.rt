//! Runs of a server. A run is a text of steps, with a blank line between two: a step and, after
//! `=>`, its expected result. A step is a moment and an input, with its answers as result (`1000
//! {..}`, or in place of a message `lost`, `slow` and a session, `restart` and a client, or
//! `tick`); the same after `see`, whose result is what is seen of the server afterwards, or after
//! `abandon`, whose commit is refused; or a question about the server: `seen`, `log`, `moments`,
//! `counts`, `value` and a path, `history` and a client; or `replay`, from which on the server is
//! one that is rebuilt from all batches, or that and numbers of batches, whose result is what
//! becomes of these in a server of their own; or `base`, whose result is the server's base, `above`
//! and a number, whose result is that with the answers alone that were made after the number,
//! `resume`, from which on the server is one that begins from its base, or `add again`, whose
//! result is what becomes of all batches after its base; or `group` and, each on a line, a moment
//! and an input, whose turns share a commit, or the same after `abandon group`, whose commit is
//! refused.

use crate::tests::bases::{base_above_text, base_text, refused_after, resumed};
use crate::tests::groups::{grouped, refused_group};
use crate::tests::replays::{ordered, replayed};
use crate::tests::said::expect_said;
use pres_batch_json::print_entries;
use pres_server::{
    Batch, Busy, ClientId, Count, Down, Fault, Input, Moment, Path, Row, Server, SessionId, Turn,
    Up,
};
use pres_tree::TreeJson;
use std::alloc::Global;
use std::process::Abort;

pub(crate) const ALICE: &str = r#"["alice",1,1]"#;

pub(crate) const BOB: &str = r#"["bob",1,1]"#;

// The session of `["alice",1,1]`.
pub(crate) fn session(rt: &impl Abort, alloc: Global, text: &str) -> SessionId {
    let hello = format!(in alloc; r#"{{"m":"hello","s":{text}}}"#).expect(rt, "memory");
    let up = Up::decode(alloc, hello.as_str()).expect(rt, "a message");
    up.session().copy(alloc).expect(rt, "memory")
}

// The input of a line: `lost` or `slow` and a session, `restart` and a client, `tick`, or a message.
fn input(rt: &impl Abort, alloc: Global, line: &str) -> Input {
    if line == "tick" {
        return Input::Tick;
    }
    match line.split_once(' ') {
        Some(("lost", text)) => Input::Lost(session(rt, alloc, text)),
        Some(("slow", text)) => Input::Slow(session(rt, alloc, text)),
        Some(("restart", text)) => {
            let client = ClientId::parse(alloc, text).expect(rt, "a client's name");
            Input::Restart(client)
        }
        _ => Input::Up(Up::decode(alloc, line).expect(rt, "a message")),
    }
}

// What comes, and when.
pub(crate) fn given(rt: &impl Abort, alloc: Global, text: &str) -> (Input, Moment) {
    let (millis, line) = text.split_once(' ').expect(rt, "a moment");
    let now = Moment::at(millis.parse().expect(rt, "a number"));
    (input(rt, alloc, line), now)
}

// The texts of the answers, each on a line.
pub(crate) fn texts(rt: &impl Abort, alloc: Global, answers: &[Down]) -> String {
    let mut joined = String::new(alloc);
    for answer in answers {
        if !joined.is_empty() {
            joined.push('\n').expect(rt, "memory");
        }
        joined
            .push_str(answer.encode(alloc).expect(rt, "memory").as_str())
            .expect(rt, "memory");
    }
    joined
}

// The code of a fault, and the stamp that comes with it.
fn fault_text(rt: &impl Abort, alloc: Global, fault: Fault) -> String {
    let code = fault.code().number();
    let text = match &fault {
        Fault::Old(last) => {
            let (incarnation, attempt) = (last.incarnation.get(), last.attempt.get());
            format!(in alloc; "fault {code} [{incarnation},{attempt}]")
        }
        _ => format!(in alloc; "fault {code}"),
    };
    text.expect(rt, "memory")
}

// The server after the commit, whose batch is appended to those before, and its answers.
fn done(rt: &impl Abort, alloc: Global, busy: Busy, log: &mut Vec<Batch>) -> (Server, String) {
    let batch = busy.batch().copy(alloc).expect(rt, "memory");
    log.push(batch).expect(rt, "memory");
    let (server, answers) = busy.done().expect(rt, "memory");
    let said = texts(rt, alloc, answers.as_slice());
    (server, said)
}

// `quiet` and the answers.
fn quiet(rt: &impl Abort, alloc: Global, answers: &[Down]) -> String {
    let mut text = String::from_str(alloc, "quiet").expect(rt, "memory");
    text.push_str(texts(rt, alloc, answers).as_str())
        .expect(rt, "memory");
    text
}

// The server after the input, and what it answers.
pub(crate) fn turn(
    rt: &impl Abort,
    alloc: Global,
    server: Server,
    log: &mut Vec<Batch>,
    case: &str,
) -> (Server, String) {
    let (input, now) = given(rt, alloc, case);
    match server.prepare(input, now) {
        Ok(Turn::Busy(busy)) => done(rt, alloc, busy, log),
        Ok(Turn::Quiet(server, answers)) => (server, quiet(rt, alloc, answers.as_slice())),
        Err((fault, server)) => (server, fault_text(rt, alloc, fault)),
    }
}

// The server after a turn whose commit was refused.
fn given_back(rt: &impl Abort, alloc: Global, server: Server, case: &str) -> Server {
    let (input, now) = given(rt, alloc, case);
    match server.prepare(input, now) {
        Ok(Turn::Busy(busy)) => busy.abandon(),
        Ok(Turn::Quiet(_, _)) => panic!(rt; "quiet"),
        Err(_) => panic!(rt; "refused"),
    }
}

// The number of the batch's first entry, its moment, and its entries as they are saved.
fn batch_text(rt: &impl Abort, alloc: Global, batch: &Batch) -> String {
    let body = print_entries(alloc, batch.entries()).expect(rt, "memory");
    let (first, moment) = (batch.first().get(), batch.moment().millis());
    format!(in alloc; "{first} {moment} {body}").expect(rt, "memory")
}

// The batches, each on a line.
fn log_text(rt: &impl Abort, alloc: Global, log: &[Batch]) -> String {
    let mut text = String::new(alloc);
    for batch in log {
        if !text.is_empty() {
            text.push('\n').expect(rt, "memory");
        }
        text.push_str(batch_text(rt, alloc, batch).as_str())
            .expect(rt, "memory");
    }
    text
}

// The moments of the log's batches.
fn moments(rt: &impl Abort, alloc: Global, log: &[Batch]) -> String {
    let mut moments = Vec::new(alloc);
    for batch in log {
        moments.push(batch.moment().millis()).expect(rt, "memory");
    }
    format!(in alloc; "{moments:?}").expect(rt, "memory")
}

// The value at the path.
fn value(rt: &impl Abort, alloc: Global, server: &Server, path: &str) -> String {
    let path = Path::parse(alloc, path).expect(rt, "a path");
    let Some(tree) = server.value_at(&path) else {
        return String::from_str(alloc, "null").expect(rt, "memory");
    };
    let value = tree.to_value(alloc).expect(rt, "memory");
    value.to_string(alloc).expect(rt, "memory")
}

// The numbers at which writes were done.
fn numbers(rt: &impl Abort, alloc: Global, rows: &[Row]) -> String {
    let mut numbers = Vec::new(alloc);
    for row in rows {
        numbers.push(row.done.get()).expect(rt, "memory");
    }
    format!(in alloc; "{numbers:?}").expect(rt, "memory")
}

// The numbers at which the client's writes were done.
fn history(rt: &impl Abort, alloc: Global, server: &Server, client: &str) -> String {
    let client = ClientId::parse(alloc, client).expect(rt, "a client's name");
    let rows = server.history_of(&client).expect(rt, "memory");
    numbers(rt, alloc, rows.as_slice())
}

// When alice was heard of last, in milliseconds.
fn heard(rt: &impl Abort, alloc: Global, server: &Server) -> Option<u64> {
    let alice = ClientId::parse(alloc, "alice").expect(rt, "a client's name");
    server.heard(&alice).map(Moment::millis)
}

// Whether alice's first session is open, and how many of its messages were accepted.
fn standing(rt: &impl Abort, alloc: Global, server: &Server) -> (bool, Option<u64>) {
    let session = session(rt, alloc, ALICE);
    let open = server.is_open(&session);
    (open, server.count(&session).map(Count::get))
}

// What is seen of the server.
fn seen(rt: &impl Abort, alloc: Global, server: &Server) -> String {
    let number = server.number();
    let (open, count) = standing(rt, alloc, server);
    let heard = heard(rt, alloc, server);
    let tree = value(rt, alloc, server, "/");
    let text = format!(in alloc; "{number} entries, {open} {count:?}, heard {heard:?}, {tree}");
    text.expect(rt, "memory")
}

// What the server's own log counts, and which of its last entry and last batch it lends.
fn counts(rt: &impl Abort, alloc: Global, server: &Server) -> String {
    let log = server.log();
    let (entries, above, batches) = (log.len(), log.base_number(), log.batches());
    let entry = log.entry(entries).is_some();
    let batch = log.batch(batches).is_some();
    let text = format!(in alloc;
        "{entries} entries, {batches} batches, above {above}, {entry} {batch}"
    );
    text.expect(rt, "memory")
}

// The answer to a question about the server, whose log these batches are.
fn answer(
    rt: &impl Abort,
    alloc: Global,
    server: &Server,
    log: &[Batch],
    question: &str,
) -> String {
    match question.split_once(' ') {
        Some(("value", path)) => value(rt, alloc, server, path),
        Some(("history", client)) => history(rt, alloc, server, client),
        Some(("above", number)) => base_above_text(rt, alloc, server, number),
        _ => match question {
            "log" => log_text(rt, alloc, log),
            "moments" => moments(rt, alloc, log),
            "counts" => counts(rt, alloc, server),
            "base" => base_text(rt, alloc, server),
            "add again" => refused_after(rt, alloc, server, log),
            _ => seen(rt, alloc, server),
        },
    }
}

// The server after a question, and the answer.
fn asked(
    rt: &impl Abort,
    alloc: Global,
    server: Server,
    log: &[Batch],
    question: &str,
) -> (Server, String) {
    let text = answer(rt, alloc, &server, log, question);
    (server, text)
}

// The server after a turn, and what is seen of it.
fn watched(
    rt: &impl Abort,
    alloc: Global,
    server: Server,
    log: &mut Vec<Batch>,
    case: &str,
) -> (Server, String) {
    let (server, _) = turn(rt, alloc, server, log, case);
    asked(rt, alloc, server, log.as_slice(), "seen")
}

// The server after a turn whose commit was refused, and what is seen of it.
fn abandoned(
    rt: &impl Abort,
    alloc: Global,
    server: Server,
    log: &[Batch],
    case: &str,
) -> (Server, String) {
    let server = given_back(rt, alloc, server, case);
    asked(rt, alloc, server, log, "seen")
}

// The server after a step, and what it says. The log is that of the server, which holds none.
fn step(
    rt: &impl Abort,
    alloc: Global,
    server: Server,
    log: &mut Vec<Batch>,
    case: &str,
) -> (Server, String) {
    if case.starts_with(|c: char| c.is_ascii_digit()) {
        return turn(rt, alloc, server, log, case);
    }
    if let Some(inputs) = case.strip_prefix("group\n") {
        return grouped(rt, alloc, server, log, inputs);
    }
    if let Some(inputs) = case.strip_prefix("abandon group\n") {
        return refused_group(rt, alloc, server, inputs);
    }
    match case.split_once(' ') {
        Some(("see", case)) => watched(rt, alloc, server, log, case),
        Some(("abandon", case)) => abandoned(rt, alloc, server, log.as_slice(), case),
        Some(("replay", order)) => ordered(rt, alloc, server, log.as_slice(), order),
        None if case == "replay" => replayed(rt, alloc, server, log.as_slice()),
        None if case == "resume" => resumed(rt, alloc, server),
        _ => asked(rt, alloc, server, log.as_slice(), case),
    }
}

/// Each step of the run has to say what it must.
pub(crate) fn check(rt: &impl Abort, alloc: Global, run: &str) {
    let mut server = Server::new(alloc);
    let mut log = Vec::new(alloc);
    for text in run.split("\n\n") {
        let (case, wanted) = text.split_once("\n=> ").expect(rt, "an answer");
        let (after, said) = step(rt, alloc, server, &mut log, case);
        server = after;
        expect_said(rt, case, said, wanted);
    }
    drop(server);
    drop(log);
}

/// Each run has to say what it must.
pub(crate) fn check_runs(rt: &impl Abort, alloc: Global, runs: &[&str]) {
    for run in runs {
        check(rt, alloc, run);
    }
}

/// The first steps, then a step for each number up to this one, and the last steps have to say what
/// they must.
pub(crate) fn check_long<F: Fn(u64) -> String>(
    rt: &impl Abort,
    alloc: Global,
    first: &str,
    count: u64,
    step: F,
    last: &str,
)
    requires { F.IsAlwaysCallable step }
{
    let mut run = String::from_str(alloc, first).expect(rt, "memory");
    for number in 1..=count {
        run.push_str(step(number).as_str()).expect(rt, "memory");
    }
    run.push_str(last).expect(rt, "memory");
    check(rt, alloc, run.as_str());
}

const SUPERSEDED: &str = r#"1000 {"m":"hello","s":["alice",1,1]}
=> {"m":"welcome","ops":0,"s":["alice",1,1],"z":1}

1000 {"m":"hello","s":["alice",1,2]}
=> {"m":"gone","r":1,"s":["alice",1,1],"why":"superseded","z":2}
{"m":"welcome","ops":0,"s":["alice",1,2],"z":3}

1000 {"m":"op","n":1,"op":{"op":"set","path":"/a","value":1},"q":1,"s":["alice",1,1]}
=> fault 3

1000 {"m":"op","n":1,"op":{"op":"set","path":"/a","value":1},"q":1,"s":["alice",1,2]}
=> {"done":4,"m":"reply","n":1,"out":"wrote","q":1,"r":1,"s":["alice",1,2],"z":4}

log
=> 1 1000 [{"e":"open","s":["alice",1,1]}]
2 1000 [{"e":"ended","q":null,"rows":[],"s":["alice",1,1],"why":"superseded"},{"e":"open","s":["alice",1,2]}]
4 1000 [{"e":"op","n":1,"op":{"op":"set","path":"/a","value":1},"out":{"wrote":[["/a",1]]},"q":1,"s":["alice",1,2]}]

counts
=> 4 entries, 3 batches, above 4, false false"#;

const SENT_AGAIN: &str = r#"1000 {"m":"hello","s":["alice",1,1]}
=> {"m":"welcome","ops":0,"s":["alice",1,1],"z":1}

1000 {"m":"op","n":1,"op":{"op":"set","path":"/a","value":1},"q":1,"s":["alice",1,1]}
=> {"done":2,"m":"reply","n":1,"out":"wrote","q":1,"r":1,"s":["alice",1,1],"z":2}

1000 lost ["alice",1,1]
=> {"m":"gone","r":2,"s":["alice",1,1],"why":"lost","z":3}

1000 {"m":"hello","s":["alice",1,2]}
=> {"m":"welcome","ops":1,"s":["alice",1,2],"z":4}

1000 {"m":"op","n":1,"op":{"op":"set","path":"/a","value":1},"q":1,"s":["alice",1,2]}
=> {"done":2,"m":"reply","n":1,"out":"wrote","q":1,"r":1,"s":["alice",1,2],"z":5}

log
=> 1 1000 [{"e":"open","s":["alice",1,1]}]
2 1000 [{"e":"op","n":1,"op":{"op":"set","path":"/a","value":1},"out":{"wrote":[["/a",1]]},"q":1,"s":["alice",1,1]}]
3 1000 [{"e":"ended","q":null,"rows":[],"s":["alice",1,1],"why":"lost"}]
4 1000 [{"e":"open","s":["alice",1,2]}]
5 1000 [{"e":"again","n":1,"q":1,"s":["alice",1,2]}]

history alice
=> [2]"#;

// The writes of two clients, which come in turns and are counted apart.
const COUNTED_APART: &str = r#"1000 {"m":"hello","s":["alice",1,1]}
=> {"m":"welcome","ops":0,"s":["alice",1,1],"z":1}

1000 {"m":"hello","s":["bob",1,1]}
=> {"m":"welcome","ops":0,"s":["bob",1,1],"z":2}

1000 {"m":"op","n":2,"op":{"op":"set","path":"/a","value":1},"q":1,"s":["alice",1,1]}
=> fault 4

1000 {"m":"op","n":1,"op":{"op":"set","path":"/a","value":1},"q":1,"s":["alice",1,1]}
=> {"done":3,"m":"reply","n":1,"out":"wrote","q":1,"r":1,"s":["alice",1,1],"z":3}

1000 {"m":"op","n":1,"op":{"op":"set","path":"/b","value":1},"q":1,"s":["bob",1,1]}
=> {"done":4,"m":"reply","n":1,"out":"wrote","q":1,"r":1,"s":["bob",1,1],"z":4}

1000 {"m":"op","n":2,"op":{"op":"set","path":"/a","value":2},"q":2,"s":["alice",1,1]}
=> {"done":5,"m":"reply","n":2,"out":"wrote","q":2,"r":2,"s":["alice",1,1],"z":5}

1000 {"m":"op","n":1,"op":{"op":"set","path":"/a","value":9},"q":3,"s":["alice",1,1]}
=> {"done":3,"m":"reply","n":1,"out":"wrote","q":3,"r":3,"s":["alice",1,1],"z":6}

1000 {"m":"op","n":2,"op":{"op":"set","path":"/b","value":2},"q":2,"s":["bob",1,1]}
=> {"done":7,"m":"reply","n":2,"out":"wrote","q":2,"r":2,"s":["bob",1,1],"z":7}

1000 {"m":"op","n":4,"op":{"op":"set","path":"/a","value":9},"q":4,"s":["alice",1,1]}
=> fault 4

value /
=> {"a":2,"b":2}

history alice
=> [3, 5]

history bob
=> [4, 7]

history carol
=> []"#;

const OLD_STAMPS: &str = r#"1000 {"m":"hello","s":["alice",1,1]}
=> {"m":"welcome","ops":0,"s":["alice",1,1],"z":1}

1000 {"m":"hello","s":["alice",1,1]}
=> fault 2 [1,1]

1000 {"m":"hello","s":["alice",2,1]}
=> {"m":"gone","r":1,"s":["alice",1,1],"why":"superseded","z":2}
{"m":"welcome","ops":0,"s":["alice",2,1],"z":3}

1000 {"m":"hello","s":["alice",1,2]}
=> fault 2 [2,1]"#;

const ORDER: &str = r#"1000 {"m":"hello","s":["alice",1,1]}
=> {"m":"welcome","ops":0,"s":["alice",1,1],"z":1}

1000 {"m":"op","n":1,"op":{"op":"set","path":"/a","value":1},"q":2,"s":["alice",1,1]}
=> fault 4

1000 {"m":"op","n":2,"op":{"op":"set","path":"/a","value":1},"q":1,"s":["alice",1,1]}
=> fault 4

1000 {"m":"op","n":1,"op":{"op":"set","path":"/a","value":1},"q":1,"s":["alice",1,1]}
=> {"done":2,"m":"reply","n":1,"out":"wrote","q":1,"r":1,"s":["alice",1,1],"z":2}

1000 {"m":"op","n":1,"op":{"op":"set","path":"/a","value":1},"q":1,"s":["alice",1,1]}
=> quiet

1000 {"m":"bye","q":2,"s":["alice",1,1]}
=> {"m":"gone","r":2,"s":["alice",1,1],"why":"bye","z":3}

log
=> 1 1000 [{"e":"open","s":["alice",1,1]}]
2 1000 [{"e":"op","n":1,"op":{"op":"set","path":"/a","value":1},"out":{"wrote":[["/a",1]]},"q":1,"s":["alice",1,1]}]
3 1000 [{"e":"ended","q":2,"rows":[],"s":["alice",1,1],"why":"bye"}]"#;

const ABANDONED: &str = r#"1000 {"m":"hello","s":["alice",1,1]}
=> {"m":"welcome","ops":0,"s":["alice",1,1],"z":1}

abandon 2000 {"m":"op","n":1,"op":{"op":"set","path":"/a","value":1},"q":1,"s":["alice",1,1]}
=> 1 entries, true Some(0), heard Some(1000), null

abandon 2000 {"m":"hello","s":["alice",1,2]}
=> 1 entries, true Some(0), heard Some(1000), null

abandon 2000 {"m":"bye","q":1,"s":["alice",1,1]}
=> 1 entries, true Some(0), heard Some(1000), null

abandon 2000 lost ["alice",1,1]
=> 1 entries, true Some(0), heard Some(1000), null

1500 {"m":"op","n":1,"op":{"op":"set","path":"/a","value":1},"q":1,"s":["alice",1,1]}
=> {"done":2,"m":"reply","n":1,"out":"wrote","q":1,"r":1,"s":["alice",1,1],"z":2}

seen
=> 2 entries, true Some(1), heard Some(1500), {"a":1}"#;

const HEARD: &str = r#"see 1000 {"m":"hello","s":["alice",1,1]}
=> 1 entries, true Some(0), heard Some(1000), null

see 2000 {"m":"op","n":1,"op":{"op":"set","path":"/a","value":1},"q":1,"s":["alice",1,1]}
=> 2 entries, true Some(1), heard Some(2000), {"a":1}

see 3000 {"m":"op","n":1,"op":{"op":"set","path":"/a","value":1},"q":1,"s":["alice",1,1]}
=> 2 entries, true Some(1), heard Some(3000), {"a":1}

see 500 {"m":"op","n":1,"op":{"op":"set","path":"/a","value":1},"q":1,"s":["alice",1,1]}
=> 2 entries, true Some(1), heard Some(3000), {"a":1}

see 4000 {"m":"hello","s":["alice",1,1]}
=> 2 entries, true Some(1), heard Some(3000), {"a":1}

see 5000 {"m":"hello","s":["bob",1,1]}
=> 3 entries, true Some(1), heard Some(3000), {"a":1}

see 4000 {"m":"op","n":1,"op":{"op":"set","path":"/a","value":1},"q":1,"s":["alice",1,1]}
=> 3 entries, true Some(1), heard Some(5000), {"a":1}

see 6000 {"m":"bye","q":2,"s":["alice",1,1]}
=> 4 entries, false None, heard None, {"a":1}

see 100 {"m":"hello","s":["alice",1,2]}
=> 5 entries, false None, heard Some(6000), {"a":1}"#;

const MOMENTS: &str = r#"see 5 {"m":"hello","s":["alice",1,1]}
=> 1 entries, true Some(0), heard Some(5), null

see 7 {"m":"op","n":1,"q":1,"s":["alice",1,1],
"op":{"op":"set","path":"/t","value":{".sv":"timestamp"}}}
=> 2 entries, true Some(1), heard Some(7), {"t":7}

see 3 {"m":"op","n":2,"q":2,"s":["alice",1,1],
"op":{"op":"set","path":"/t","value":{".sv":"timestamp"}}}
=> 3 entries, true Some(2), heard Some(7), {"t":7}

see 8 {"m":"op","n":3,"q":3,"s":["alice",1,1],
"op":{"op":"update","path":"/","values":{"a/b":1,"t":{".sv":"timestamp"}}}}
=> 4 entries, true Some(3), heard Some(8), {"a":{"b":1},"t":8}

see 8 {"m":"op","n":4,"q":4,"s":["alice",1,1],
"op":{"expect":1,"op":"tx","path":"/a/b","value":2}}
=> 5 entries, true Some(4), heard Some(8), {"a":{"b":2},"t":8}

see 8 {"m":"op","n":5,"op":{"op":"remove","path":"/a/b"},"q":5,"s":["alice",1,1]}
=> 6 entries, true Some(5), heard Some(8), {"t":8}

moments
=> [5, 7, 7, 8, 8, 8]"#;

const STALE: &str = r#"1000 {"m":"hello","s":["alice",1,1]}
=> {"m":"welcome","ops":0,"s":["alice",1,1],"z":1}

1000 {"m":"op","n":1,"q":1,"s":["alice",1,1],
"op":{"expect":null,"op":"tx","path":"/n","value":1}}
=> {"done":2,"m":"reply","n":1,"out":"wrote","q":1,"r":1,"s":["alice",1,1],"z":2}

1000 {"m":"op","n":2,"q":2,"s":["alice",1,1],
"op":{"expect":null,"op":"tx","path":"/n","value":1}}
=> {"done":3,"m":"reply","n":2,"out":{"stale":1},"q":2,"r":2,"s":["alice",1,1],"z":3}

1000 lost ["alice",1,1]
=> {"m":"gone","r":3,"s":["alice",1,1],"why":"lost","z":4}

1000 {"m":"hello","s":["alice",1,2]}
=> {"m":"welcome","ops":2,"s":["alice",1,2],"z":5}

1000 {"m":"op","n":2,"op":{"op":"set","path":"/n","value":9},"q":1,"s":["alice",1,2]}
=> {"done":3,"m":"reply","n":2,"out":{"stale":1},"q":1,"r":1,"s":["alice",1,2],"z":6}

value /n
=> 1

value /m
=> null"#;

const FULL: &str = r#"1000 {"m":"hello","s":["alice",1,1]}
=> fault 5

1000 {"m":"hello","s":["c7",1,2]}
=> {"m":"gone","r":1,"s":["c7",1,1],"why":"superseded","z":1025}
{"m":"welcome","ops":0,"s":["c7",1,2],"z":1026}

seen
=> 1026 entries, false None, heard None, null"#;

// A run in which alice's session ends for this reason, by the line with that word.
fn end(rt: &impl Abort, alloc: Global, line: &str, why: &str) -> String {
    format!(in alloc;
        r#"1000 {line}
=> quiet

1000 {{"m":"hello","s":["alice",1,1]}}
=> {{"m":"welcome","ops":0,"s":["alice",1,1],"z":1}}

1000 lost ["alice",1,2]
=> quiet

1000 slow ["bob",1,1]
=> quiet

1000 restart bob
=> quiet

1000 {line}
=> {{"m":"gone","r":1,"s":["alice",1,1],"why":"{why}","z":2}}

1000 {line}
=> quiet

log
=> 1 1000 [{{"e":"open","s":["alice",1,1]}}]
2 1000 [{{"e":"ended","q":null,"rows":[],"s":["alice",1,1],"why":"{why}"}}]"#
    )
    .expect(rt, "memory")
}

// The Hello of one of many clients, and its Welcome.
fn opening(rt: &impl Abort, alloc: Global, client: u64) -> String {
    format!(in alloc;
        r#"1000 {{"m":"hello","s":["c{client}",1,1]}}
=> {{"m":"welcome","ops":0,"s":["c{client}",1,1],"z":{client}}}

"#
    )
    .expect(rt, "memory")
}

// A run in which alice's session ends for this reason has to say what it must.
fn check_end(rt: &impl Abort, alloc: Global, line: &str, why: &str) {
    check(rt, alloc, end(rt, alloc, line, why).as_str());
}

#[test]
fn runs_say_what_they_must(rt: HostRuntime) {
    let runs = [
        SUPERSEDED,
        SENT_AGAIN,
        COUNTED_APART,
        OLD_STAMPS,
        ORDER,
        ABANDONED,
        HEARD,
        MOMENTS,
        STALE,
    ];
    check_runs(&rt, rt.alloc(), &runs);
}

#[test]
fn a_lost_session_ends(rt: HostRuntime) {
    check_end(&rt, rt.alloc(), r#"lost ["alice",1,1]"#, "lost");
}

#[test]
fn a_slow_session_ends(rt: HostRuntime) {
    check_end(&rt, rt.alloc(), r#"slow ["alice",1,1]"#, "slow");
}

#[test]
fn a_restart_ends_the_session(rt: HostRuntime) {
    check_end(&rt, rt.alloc(), "restart alice", "restart");
}

#[test]
fn so_many_sessions_may_be_open(rt: HostRuntime) {
    let alloc = rt.alloc();
    check_long(
        &rt,
        alloc,
        "",
        1024,
        |client| opening(&rt, alloc, client),
        FULL,
    );
}
