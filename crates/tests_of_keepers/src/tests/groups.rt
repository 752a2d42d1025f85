//! Turns that share a commit, by a keeper, and by an engine over one.

use crate::tests::refusing::{Refusing, log_text, tree_text};
use crate::tests::turns::texts;
use crate::tests::words::expect_text;
use pres_keeper::{Engine, Keeper, MemKeeper, Supposed, TurnResult};
use pres_server::{Group, Input, Moment, Up};
use std::alloc::Global;
use std::marker::Brand;
use std::process::Abort;

// The inputs of these messages, each on a line.
fn inputs(rt: &impl Abort, alloc: Global, lines: &str) -> Vec<Input> {
    let mut inputs = Vec::new(alloc);
    for line in lines.lines() {
        let up = Up::decode(alloc, line).expect(rt, "a message");
        inputs.push(Input::Up(up)).expect(rt, "memory");
    }
    inputs
}

// What a turn answers, or why it isn't done.
fn result_text(rt: &impl Abort, alloc: Global, turn: &TurnResult) -> String {
    match turn {
        Ok(answers) => texts(rt, alloc, answers.as_slice()),
        Err(fault) => format!(in alloc; "refused: {fault}").expect(rt, "memory"),
    }
}

// The same of each turn, on a line.
fn results_text(rt: &impl Abort, alloc: Global, turns: &[TurnResult]) -> String {
    let mut text = String::new(alloc);
    for turn in turns {
        text.push_str(result_text(rt, alloc, turn).as_str())
            .expect(rt, "memory");
        text.push('\n').expect(rt, "memory");
    }
    text
}

/// What the engine says to these messages, each on a line.
pub(crate) fn said<K: Keeper + Drop, R: Abort>(
    rt: &R,
    alloc: Global,
    engine: &mut Engine<K>,
    lines: &str,
) -> String {
    let inputs = inputs(rt, alloc, lines);
    match engine.turn_all(alloc, inputs, Moment::at(1000)) {
        Ok(results) => results_text(rt, alloc, results.as_slice()),
        Err(_) => panic!(rt; "out of memory"),
    }
}

pub(crate) const HELLOS: &str = r#"{"m":"hello","s":["alice",1,1]}
{"m":"hello","s":["bob",1,1]}"#;

pub(crate) const WELCOMES: &str = r#"{"m":"welcome","ops":0,"s":["alice",1,1],"z":1}
{"m":"welcome","ops":0,"s":["bob",1,1],"z":2}
"#;

/// Alice writes, and bob's transaction reads what alice wrote.
pub(crate) const WRITES: &str =
    r#"{"m":"op","n":1,"op":{"op":"set","path":"/n","value":1},"q":1,"s":["alice",1,1]}
{"m":"op","n":1,"op":{"expect":1,"op":"tx","path":"/n","value":2},"q":1,"s":["bob",1,1]}"#;

pub(crate) const REPLIES: &str =
    r#"{"done":3,"m":"reply","n":1,"out":"wrote","q":1,"r":1,"s":["alice",1,1],"z":3}
{"done":4,"m":"reply","n":1,"out":"wrote","q":1,"r":1,"s":["bob",1,1],"z":4}
"#;

// The commit of both is refused.
const REFUSALS: &str = "refused: the database failed\nrefused: the database failed\n";

const OPENED: &str = r#"[{"e":"open","s":["alice",1,1]}]
[{"e":"open","s":["bob",1,1]}]
"#;

pub(crate) const WRITTEN: &str = r#"[{"e":"open","s":["alice",1,1]}]
[{"e":"open","s":["bob",1,1]}]
[{"e":"op","n":1,"op":{"op":"set","path":"/n","value":1},"out":{"wrote":[["/n",1]]},"q":1,"s":["alice",1,1]}]
[{"e":"op","n":1,"op":{"expect":1,"op":"tx","path":"/n","value":2},"out":{"wrote":[["/n",2]]},"q":1,"s":["bob",1,1]}]
"#;

/// One client writes twice.
pub(crate) const MORE: &str =
    r#"{"m":"op","n":2,"op":{"op":"set","path":"/n","value":3},"q":2,"s":["alice",1,1]}
{"m":"op","n":3,"op":{"op":"remove","path":"/n"},"q":3,"s":["alice",1,1]}"#;

/// What both batches hold, after those of before.
pub(crate) const ADDED: &str =
    r#"[{"e":"op","n":2,"op":{"op":"set","path":"/n","value":3},"out":{"wrote":[["/n",3]]},"q":2,"s":["alice",1,1]}]
[{"e":"op","n":3,"op":{"op":"set","path":"/n","value":null},"out":{"wrote":[["/n",null]]},"q":3,"s":["alice",1,1]}]
"#;

/// An engine over the keeper.
pub(crate) fn opened<K: Keeper + Drop, R: Abort>(rt: &R, keeper: K) -> Engine<K>
    requires { K.ready keeper }
{
    match Engine::open(keeper) {
        Ok(engine) => engine,
        Err(_) => panic!(rt; "no engine"),
    }
}

// The keeper after both clients came and wrote.
fn written<K: Keeper + Drop, R: Abort>(rt: &R, alloc: Global, keeper: K) -> K
    requires { K.ready keeper }
{
    let mut engine = opened(rt, keeper);
    expect_text(rt, said(rt, alloc, &mut engine, HELLOS), WELCOMES);
    expect_text(rt, said(rt, alloc, &mut engine, WRITES), REPLIES);
    engine.into_keeper()
}

#[test]
fn operations_share_a_commit_in_memory(rt: HostRuntime) {
    let mut keeper = written(&rt, rt.alloc(), MemKeeper::new(rt.alloc()));
    expect_text(&rt, log_text(&rt, rt.alloc(), &mut keeper), WRITTEN);
    expect_text(&rt, tree_text(&rt, rt.alloc(), &mut keeper), r#"{"n":2}"#);
}

#[test]
fn operations_share_a_commit_of_a_supposed_keeper(rt: HostRuntime) {
    let keeper = Supposed::<MemKeeper, Brand>::new(MemKeeper::new(rt.alloc()));
    let mut keeper = written(&rt, rt.alloc(), keeper).into_inner();
    expect_text(&rt, log_text(&rt, rt.alloc(), &mut keeper), WRITTEN);
}

#[test]
fn a_commit_that_is_refused_refuses_all(rt: HostRuntime) {
    let alloc = rt.alloc();
    let mut engine = opened(&rt, Refusing::at(alloc, &[2]));
    expect_text(&rt, said(&rt, alloc, &mut engine, HELLOS), WELCOMES);
    expect_text(&rt, said(&rt, alloc, &mut engine, WRITES), REFUSALS);
    assert_eq!(&rt; engine.number(), 2);
    let mut keeper = engine.into_keeper();
    expect_text(&rt, log_text(&rt, alloc, &mut keeper), OPENED);
    let mut engine = opened(&rt, keeper);
    expect_text(&rt, said(&rt, alloc, &mut engine, WRITES), REPLIES);
    let mut keeper = engine.into_keeper();
    expect_text(&rt, log_text(&rt, alloc, &mut keeper), WRITTEN);
}

// The keeper after it was given the batches of these messages, all at once.
fn given_all<K: Keeper + Drop, R: Abort>(rt: &R, alloc: Global, keeper: K, lines: &str) -> K {
    let mut keeper = keeper;
    let (server, _) = keeper.server().expect(rt, "a server");
    let mut group = Group::new(server);
    for input in inputs(rt, alloc, lines) {
        if group.add(input, Moment::at(1000)).is_err() {
            panic!(rt; "it waits");
        }
    }
    keeper.commit_all(group.batches()).expect(rt, "memory");
    drop(group.abandon());
    keeper
}

#[test]
fn batches_are_kept_at_once(rt: HostRuntime) {
    let keeper = written(&rt, rt.alloc(), MemKeeper::new(rt.alloc()));
    let mut keeper = given_all(&rt, rt.alloc(), keeper, MORE);
    let log = format!(in rt.alloc(); "{WRITTEN}{ADDED}").expect(&rt, "memory");
    expect_text(&rt, log_text(&rt, rt.alloc(), &mut keeper), log.as_str());
}
