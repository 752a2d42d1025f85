//! Callers of a hub, each in a thread of its own.

use crate::tests::scene::{SeatedClient, next_text, session};
use pres_dispatch::Outbox;
use pres_hub::{Gate, Hub, Keeper, NoBell, Parting, Seat};
use pres_server::{Moment, Up, Why};
use std::alloc::Global;
use std::process::Abort;
use std::sync::ledger::Ledger;
use std::sync::{Barrier, Wait};

/// In which order a thread does what it does.
#[derive(Clone, Copy)]
pub(crate) enum Role {
    /// It writes, and listens once both have written.
    Visits,
    /// It joins and writes once the other one has read its first messages, and leaves before that
    /// one reads again.
    WritesLater,
    /// It makes a write, listens and takes its first messages, and nothing more until the other one
    /// has left.
    ReadsLate,
}

/// What a thread does: whose session it opens, how often it writes to which path, where it listens
/// before it leaves, and in which order.
#[derive(Clone, Copy)]
pub(crate) struct Caller {
    pub(crate) number: u64,
    pub(crate) client: &'static str,
    pub(crate) path: &'static str,
    pub(crate) writes: u64,
    pub(crate) listens: Option<&'static str>,
    pub(crate) role: Role,
}

/// What a thread leaves: its seat's parting, and what it read.
#[derive(Drop)]
pub(crate) struct Left<L: Ledger> {
    pub(crate) parting: Parting<L>,
    pub(crate) read: Option<String>,
}

// The caller's write number n, which sets its path to n.
fn write(rt: &impl Abort, alloc: Global, caller: Caller, n: u64) -> Up {
    let (client, path) = (caller.client, caller.path);
    let text = format!(in alloc;
        r#"{{"m":"op","n":{n},"op":{{"op":"set","path":"{path}","value":{n}}},"q":{n},"s":["{client}",1,1]}}"#
    );
    Up::decode(alloc, text.expect(rt, "memory").as_str()).expect(rt, "a message")
}

// The caller's listen to the path, after its writes.
fn listen(rt: &impl Abort, alloc: Global, caller: Caller, path: &str) -> Up {
    let (client, q) = (caller.client, caller.writes.saturating_add(1));
    let text = format!(in alloc; r#"{{"m":"on","path":"{path}","q":{q},"s":["{client}",1,1]}}"#);
    Up::decode(alloc, text.expect(rt, "memory").as_str()).expect(rt, "a message")
}

/// The moment of all calls.
pub(crate) fn now() -> Moment {
    Moment::at(1000)
}

/// Opens the caller's session.
pub(crate) fn joined<L: Ledger, K: Keeper + Drop, G: Gate, R: Wait + Abort>(
    rt: &R,
    alloc: Global,
    hub: &Hub<L, K, NoBell, G>,
    caller: Caller,
) -> SeatedClient<L> {
    let session = session(rt, alloc, caller.client);
    let joined = hub.enter(rt, caller.number).join(&session, now());
    drop(session);
    let (seat, outbox) = joined.expect(rt, "a seat");
    SeatedClient { seat, outbox }
}

/// Sends the message, which must not be refused: neither as Behind nor as Apart, nor for another
/// reason. Returns the number that is answered.
pub(crate) fn say<L: Ledger, K: Keeper + Drop, G: Gate, R: Wait + Abort>(
    rt: &R,
    hub: &Hub<L, K, NoBell, G>,
    seat: &mut Seat<L>,
    up: Up,
    caller: Caller,
) -> u64 {
    let said = hub.enter(rt, caller.number).say(seat, up, now());
    match said {
        Ok(said) => said.number,
        Err(fault) => panic!(rt; "{fault}"),
    }
}

/// Says the caller's writes, and takes what is put for it after each. The number that the last one is
/// answered.
pub(crate) fn write_all<L: Ledger, K: Keeper + Drop, G: Gate, R: Wait + Abort>(
    rt: &R,
    alloc: Global,
    hub: &Hub<L, K, NoBell, G>,
    place: &mut SeatedClient<L>,
    caller: Caller,
) -> u64 {
    let mut number = 0;
    for n in 1..=caller.writes {
        let up = write(rt, alloc, caller, n);
        number = say(rt, hub, &mut place.seat, up, caller);
        drop(last_taken(rt, alloc, &mut place.outbox));
    }
    number
}

/// The caller's connection is lost. That may not be refused.
pub(crate) fn leave<L: Ledger, K: Keeper + Drop, G: Gate, R: Wait + Abort>(
    rt: &R,
    hub: &Hub<L, K, NoBell, G>,
    place: SeatedClient<L>,
    caller: Caller,
) -> Parting<L> {
    let SeatedClient { seat, outbox } = place;
    drop(outbox);
    let parting = hub.enter(rt, caller.number).leave(seat, Why::Lost, now());
    assert!(rt; parting.fault().is_none());
    parting
}

// The last message that is taken, without its number.
fn last_taken(rt: &impl Abort, alloc: Global, outbox: &mut Outbox) -> Option<String> {
    let mut last = None;
    for _ in 0..300 {
        let Some(text) = next_text(rt, alloc, outbox) else {
            break;
        };
        last = Some(text);
    }
    let text = last?;
    let (front, _) = text.as_str().split_once(r#","z":"#)?;
    Some(String::from_str(alloc, front).expect(rt, "memory"))
}

// Listens where the caller is to listen, if anywhere. What is read there.
fn listen_on<L: Ledger, K: Keeper + Drop, G: Gate, R: Wait + Abort>(
    rt: &R,
    alloc: Global,
    hub: &Hub<L, K, NoBell, G>,
    place: &mut SeatedClient<L>,
    caller: Caller,
) -> Option<String> {
    let path = caller.listens?;
    let up = listen(rt, alloc, caller, path);
    say(rt, hub, &mut place.seat, up, caller);
    last_taken(rt, alloc, &mut place.outbox)
}

/// What a thread does that listens once both have written.
pub(crate) fn visit<L: Ledger, K: Keeper + Drop, G: Gate, R: Wait + Abort>(
    rt: &R,
    alloc: Global,
    hub: &Hub<L, K, NoBell, G>,
    barrier: &Barrier,
    caller: Caller,
) -> Left<L> {
    let mut place = joined(rt, alloc, hub, caller);
    let _ = write_all(rt, alloc, hub, &mut place, caller);
    barrier.wait(rt);
    let read = listen_on(rt, alloc, hub, &mut place, caller);
    let parting = leave(rt, hub, place, caller);
    Left { parting, read }
}
