//! Turns that share a commit.

use crate::tests::turns::{check, given, texts};
use pres_server::{Batch, Down, Group, Items, Server};
use std::alloc::Global;
use std::process::Abort;

// Adds a line after those of before.
fn add_line(rt: &impl Abort, text: &mut String, line: &str) {
    if !text.is_empty() {
        text.push('\n').expect(rt, "memory");
    }
    text.push_str(line).expect(rt, "memory");
}

// Which of the inputs joined, each by a word on a line. Each input comes with its moment.
fn joined(rt: &impl Abort, alloc: Global, group: &mut Group, inputs: &str) -> String {
    let mut words = String::new(alloc);
    for line in inputs.lines() {
        let (input, now) = given(rt, alloc, line);
        let word = match group.add(input, now) {
            Ok(()) => "joined",
            Err(input) => {
                drop(input);
                "waits"
            }
        };
        add_line(rt, &mut words, word);
    }
    words
}

// Copies of the batches go after those of before.
fn keep(rt: &impl Abort, alloc: Global, batches: &[Batch], log: &mut Vec<Batch>) {
    for batch in batches {
        let copy = batch.copy(alloc).expect(rt, "memory");
        log.push(copy).expect(rt, "memory");
    }
}

// Adds the answers of each turn, in words after its place.
fn add_answers(rt: &impl Abort, alloc: Global, text: &mut String, answers: &[Items<Down>]) {
    for (place, outs) in answers.iter().enumerate() {
        let said = texts(rt, alloc, outs.as_slice());
        let line = format!(in alloc; "at {place}: {said}").expect(rt, "memory");
        add_line(rt, text, line.as_str());
    }
}

/// The server after the commit of the turns, whose batches are appended to those before; which of
/// the inputs joined, and what each turn answers.
pub(crate) fn grouped(
    rt: &impl Abort,
    alloc: Global,
    server: Server,
    log: &mut Vec<Batch>,
    inputs: &str,
) -> (Server, String) {
    let mut group = Group::new(server);
    let mut said = joined(rt, alloc, &mut group, inputs);
    keep(rt, alloc, group.batches(), log);
    let (server, answers) = group.done().expect(rt, "memory");
    add_answers(rt, alloc, &mut said, answers.as_slice());
    (server, said)
}

/// The server after turns whose commit was refused, and which of the inputs joined.
pub(crate) fn refused_group(
    rt: &impl Abort,
    alloc: Global,
    server: Server,
    inputs: &str,
) -> (Server, String) {
    let mut group = Group::new(server);
    let said = joined(rt, alloc, &mut group, inputs);
    (group.abandon(), said)
}

// Alice writes, and bob's transaction reads what alice wrote. An input that is no operation waits.
const SHARED: &str = r#"1000 {"m":"hello","s":["alice",1,1]}
=> {"m":"welcome","ops":0,"s":["alice",1,1],"z":1}

1000 {"m":"hello","s":["bob",1,1]}
=> {"m":"welcome","ops":0,"s":["bob",1,1],"z":2}

abandon group
2000 {"m":"op","n":1,"op":{"op":"set","path":"/n","value":1},"q":1,"s":["alice",1,1]}
2000 {"m":"op","n":1,"op":{"op":"set","path":"/n","value":2},"q":1,"s":["bob",1,1]}
=> joined
joined

seen
=> 2 entries, true Some(0), heard Some(1000), null

group
2000 {"m":"op","n":1,"op":{"op":"set","path":"/n","value":1},"q":1,"s":["alice",1,1]}
2000 {"m":"op","n":1,"op":{"expect":1,"op":"tx","path":"/n","value":2},"q":1,"s":["bob",1,1]}
2000 lost ["alice",1,1]
=> joined
joined
waits
at 0: {"done":3,"m":"reply","n":1,"out":"wrote","q":1,"r":1,"s":["alice",1,1],"z":3}
at 1: {"done":4,"m":"reply","n":1,"out":"wrote","q":1,"r":1,"s":["bob",1,1],"z":4}

seen
=> 4 entries, true Some(1), heard Some(2000), {"n":2}

2000 lost ["alice",1,1]
=> {"m":"gone","r":2,"s":["alice",1,1],"why":"lost","z":5}

log
=> 1 1000 [{"e":"open","s":["alice",1,1]}]
2 1000 [{"e":"open","s":["bob",1,1]}]
3 2000 [{"e":"op","n":1,"op":{"op":"set","path":"/n","value":1},"out":{"wrote":[["/n",1]]},"q":1,"s":["alice",1,1]}]
4 2000 [{"e":"op","n":1,"op":{"expect":1,"op":"tx","path":"/n","value":2},"out":{"wrote":[["/n",2]]},"q":1,"s":["bob",1,1]}]
5 2000 [{"e":"ended","q":null,"rows":[],"s":["alice",1,1],"why":"lost"}]

replay
=> replayed"#;

#[test]
fn turns_share_a_commit(rt: HostRuntime) {
    check(&rt, rt.alloc(), SHARED);
}
