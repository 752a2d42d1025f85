//! A reader in a thread of its own that takes nothing while another one writes.

use crate::tests::callers::{Caller, Left, joined, leave, say, write_all};
use crate::tests::scene::{SeatedClient, taken};
use pres_hub::{Gate, Hub, Keeper, NoBell};
use pres_server::Up;
use std::alloc::Global;
use std::process::Abort;
use std::sync::ledger::Ledger;
use std::sync::{Barrier, Wait};

const LEAVES: &str =
    r#"{"m":"left","op":{"op":"set","path":"/b","value":true},"q":1,"s":["bob",1,1]}"#;

const LISTENS: &str = r#"{"m":"on","path":"/a","q":2,"s":["bob",1,1]}"#;

// Bob says the message.
fn say_text<L: Ledger, K: Keeper + Drop, G: Gate, R: Wait + Abort>(
    rt: &R,
    alloc: Global,
    hub: &Hub<L, K, NoBell, G>,
    place: &mut SeatedClient<L>,
    caller: Caller,
    text: &str,
) {
    let up = Up::decode(alloc, text).expect(rt, "a message");
    say(rt, hub, &mut place.seat, up, caller);
}

/// Bob's thread: he makes a write, listens and takes his first three messages, and then nothing
/// until the other one has left. Returns what he took first, and then.
pub(crate) fn read_late<L: Ledger, K: Keeper + Drop, G: Gate, R: Wait + Abort>(
    rt: &R,
    alloc: Global,
    hub: &Hub<L, K, NoBell, G>,
    barrier: &Barrier,
    caller: Caller,
) -> Left<L> {
    let mut place = joined(rt, alloc, hub, caller);
    say_text(rt, alloc, hub, &mut place, caller, LEAVES);
    say_text(rt, alloc, hub, &mut place, caller, LISTENS);
    let first = taken(rt, alloc, &mut place.outbox, 3);
    barrier.wait(rt);
    barrier.wait(rt);
    let rest = taken(rt, alloc, &mut place.outbox, 300);
    let parting = leave(rt, hub, place, caller);
    let read = format!(in alloc; "{first}\n{rest}").expect(rt, "memory");
    Left {
        parting,
        read: Some(read),
    }
}

/// What the other thread does meanwhile: it joins, says its writes and leaves. What its last write was
/// answered.
pub(crate) fn write_later<L: Ledger, K: Keeper + Drop, G: Gate, R: Wait + Abort>(
    rt: &R,
    alloc: Global,
    hub: &Hub<L, K, NoBell, G>,
    barrier: &Barrier,
    caller: Caller,
) -> Left<L> {
    barrier.wait(rt);
    let mut place = joined(rt, alloc, hub, caller);
    let number = write_all(rt, alloc, hub, &mut place, caller);
    let parting = leave(rt, hub, place, caller);
    barrier.wait(rt);
    let read = number.to_string(alloc).expect(rt, "memory");
    Left {
        parting,
        read: Some(read),
    }
}
