//! Runs in which a server is rebuilt from its batches.

use crate::tests::said::expect_text;
use crate::tests::turns::check;
use pres_server::{Batch, Items, Number, Replay, ReplayFault, Server};
use std::alloc::Global;
use std::process::Abort;

fn said(rt: &impl Abort, alloc: Global, word: &str) -> String {
    String::from_str(alloc, word).expect(rt, "memory")
}

// The server that is rebuilt from all batches of this one's log.
pub(crate) fn replayed(
    rt: &impl Abort,
    alloc: Global,
    server: Server,
    log: &[Batch],
) -> (Server, String) {
    let made = Server::replay(alloc, log);
    drop(server);
    (
        made.expect(rt, "the same batches"),
        said(rt, alloc, "replayed"),
    )
}

// The batch's entries, as a batch whose first one has this number.
fn renumbered(rt: &impl Abort, alloc: Global, first: u64, batch: &Batch) -> Batch {
    let first = Number::new(first).expect(rt, "a number");
    let mut copies = Vec::new(alloc);
    for entry in batch.entries() {
        copies
            .push(entry.copy(alloc).expect(rt, "memory"))
            .expect(rt, "memory");
    }
    if !Batch::may_hold(copies.as_slice()) {
        panic!(rt; "no batch");
    }
    Batch::new(first, batch.moment(), Items::of(copies))
}

// The number of the batch that is refused.
fn refusal(rt: &impl Abort, alloc: Global, fault: ReplayFault) -> String {
    let ReplayFault::NotLegal(number) = fault else {
        return said(rt, alloc, "out of memory");
    };
    let place = number.get();
    format!(in alloc; "refused {place}").expect(rt, "memory")
}

// What becomes of the batch, whose first entry has this number, and the number of the next one.
fn added(
    rt: &impl Abort,
    alloc: Global,
    replay: &mut Replay,
    batch: &Batch,
    first: u64,
) -> (String, u64) {
    let next = first.saturating_add(batch.entries().len() as u64);
    let batch = renumbered(rt, alloc, first, batch);
    match replay.add(batch) {
        Ok(()) => (said(rt, alloc, "added"), next),
        Err(fault) => (refusal(rt, alloc, fault), first),
    }
}

// What becomes of these of the batches, one after another.
fn all_added(
    rt: &impl Abort,
    alloc: Global,
    replay: &mut Replay,
    batches: &[Batch],
    order: &str,
) -> String {
    let mut words = String::new(alloc);
    let mut number = 1;
    for place in order.split(' ') {
        let place: usize = place.parse().expect(rt, "a number");
        let batch = batches
            .get(place.saturating_sub(1))
            .expect(rt, "such a batch");
        let (word, next) = added(rt, alloc, replay, batch, number);
        words.push_str(word.as_str()).expect(rt, "memory");
        words.push_str(", ").expect(rt, "memory");
        number = next;
    }
    words
}

// The server, and what becomes of the batches of its log, added by their numbers in this order.
pub(crate) fn ordered(
    rt: &impl Abort,
    alloc: Global,
    server: Server,
    log: &[Batch],
    order: &str,
) -> (Server, String) {
    let mut replay = Replay::new(alloc);
    let words = all_added(rt, alloc, &mut replay, log, order);
    let number = replay.finish().number();
    let said = format!(in alloc; "{words}{number} entries").expect(rt, "memory");
    (server, said)
}

const REPLAYED: &str = r#"1000 {"m":"hello","s":["alice",1,1]}
=> {"m":"welcome","ops":0,"s":["alice",1,1],"z":1}

2000 {"m":"op","n":1,"op":{"op":"set","path":"/a","value":{"b":1}},"q":1,"s":["alice",1,1]}
=> {"done":2,"m":"reply","n":1,"out":"wrote","q":1,"r":1,"s":["alice",1,1],"z":2}

2000 {"m":"left","op":{"op":"set","path":"/p","value":5},"q":2,"s":["alice",1,1]}
=> {"m":"armed","q":2,"r":2,"s":["alice",1,1],"z":3}

2500 {"m":"on","path":"/a","q":3,"s":["alice",1,1]}
=> {"m":"snap","path":"/a","q":3,"r":3,"s":["alice",1,1],"value":{"b":1},"z":4}

3000 {"m":"hello","s":["bob",1,1]}
=> {"m":"welcome","ops":0,"s":["bob",1,1],"z":5}

3000 {"m":"op","n":1,"q":1,"s":["bob",1,1],
"op":{"expect":2,"op":"tx","path":"/a/b","value":3}}
=> {"done":6,"m":"reply","n":1,"out":{"stale":1},"q":1,"r":1,"s":["bob",1,1],"z":6}

4000 {"m":"cancel","path":"/q","q":4,"s":["alice",1,1]}
=> {"m":"armed","q":4,"r":4,"s":["alice",1,1],"z":7}

4000 {"m":"off","path":"/a","q":5,"s":["alice",1,1]}
=> {"m":"offdone","q":5,"r":5,"s":["alice",1,1],"z":8}

5000 {"m":"hello","s":["alice",1,2]}
=> {"m":"gone","r":6,"s":["alice",1,1],"why":"superseded","z":9}
{"m":"welcome","ops":1,"s":["alice",1,2],"z":10}

5000 {"m":"op","n":1,"op":{"op":"set","path":"/a","value":7},"q":1,"s":["alice",1,2]}
=> {"done":2,"m":"reply","n":1,"out":"wrote","q":1,"r":1,"s":["alice",1,2],"z":11}

6000 {"m":"bye","q":2,"s":["bob",1,1]}
=> {"m":"gone","r":2,"s":["bob",1,1],"why":"bye","z":12}

seen
=> 12 entries, false None, heard Some(5000), {"a":{"b":1},"p":5}

replay
=> replayed

seen
=> 12 entries, false None, heard Some(6000), {"a":{"b":1},"p":5}

moments
=> [1000, 2000, 2000, 2500, 3000, 3000, 4000, 4000, 5000, 5000, 6000]

history alice
=> [2]

history bob
=> [6]

value /p
=> 5

6000 {"m":"op","n":2,"op":{"op":"remove","path":"/a"},"q":2,"s":["alice",1,2]}
=> {"done":13,"m":"reply","n":2,"out":"wrote","q":2,"r":2,"s":["alice",1,2],"z":13}

66000 tick
=> quiet

66001 tick
=> {"m":"gone","r":3,"s":["alice",1,2],"why":"lease","z":14}

replay
=> replayed

seen
=> 14 entries, false None, heard None, {"p":5}"#;

const ORDERED: &str = r#"1000 {"m":"hello","s":["alice",1,1]}
=> {"m":"welcome","ops":0,"s":["alice",1,1],"z":1}

1000 {"m":"hello","s":["bob",1,1]}
=> {"m":"welcome","ops":0,"s":["bob",1,1],"z":2}

1000 {"m":"op","n":1,"op":{"op":"set","path":"/n","value":1},"q":1,"s":["alice",1,1]}
=> {"done":3,"m":"reply","n":1,"out":"wrote","q":1,"r":1,"s":["alice",1,1],"z":3}

1000 {"m":"op","n":1,"q":1,"s":["bob",1,1],
"op":{"expect":null,"op":"tx","path":"/n","value":2}}
=> {"done":4,"m":"reply","n":1,"out":{"stale":1},"q":1,"r":1,"s":["bob",1,1],"z":4}

1000 {"m":"bye","q":2,"s":["alice",1,1]}
=> {"m":"gone","r":2,"s":["alice",1,1],"why":"bye","z":5}

3000 {"m":"hello","s":["carol",1,1]}
=> {"m":"welcome","ops":0,"s":["carol",1,1],"z":6}

3000 {"m":"hello","s":["carol",1,2]}
=> {"m":"gone","r":1,"s":["carol",1,1],"why":"superseded","z":7}
{"m":"welcome","ops":0,"s":["carol",1,2],"z":8}

replay 1 1 2
=> added, refused 2, added, 2 entries

replay 1 2 3 4 5 5 6 7 7
=> added, added, added, added, added, refused 6, added, added, refused 8, 8 entries

replay 1 2 4 3 4
=> added, added, refused 3, added, added, 4 entries

replay 1 5 3 5 3
=> added, refused 2, added, added, refused 4, 3 entries

replay 1 6 2
=> added, added, refused 3, 2 entries

replay 3 7 2
=> refused 1, refused 1, added, 1 entries"#;

#[test]
fn batches_are_replayed(rt: HostRuntime) {
    let alloc = rt.alloc();
    check(&rt, alloc, REPLAYED);
    check(&rt, alloc, ORDERED);
}

#[test]
fn faults_are_numbered_and_named(rt: HostRuntime) {
    let refused = ReplayFault::NotLegal(Number::first());
    assert_eq!(rt; (ReplayFault::Memory.number(), refused.number()), (1, 2));
    assert_eq!(rt; refused.name(), "NotLegal");
    let text = refused.to_string(rt.alloc()).expect(&rt, "memory");
    expect_text(&rt, text, "batch 1 may not follow");
}
