//! A seat whose session has had a message that the seat doesn't know of.

ghost use Rattle.std.specs.Prelude.{◌≡◌, ◌^◌};

use super::{Core, is_apart, take_message};
use pres_accounting::Seat;
use pres_dispatch::{Bell, Fault, Keeper, MemKeeper, Moment, NoBell, SessionId, Up, Why};
use pres_faults::HubFault;
use pres_ids::{ClientId, Number, Stamp};
use std::alloc::Global;
use std::marker::Brand;
use std::process::Abort;
use std::sync::ledger::{Blank, Ledger};

// The first session of the client.
fn session(rt: &impl Abort, alloc: Global, client: &str) -> SessionId {
    let stamp = Stamp {
        incarnation: Number::first(),
        attempt: Number::first(),
    };
    let client = ClientId::parse(alloc, client).expect(rt, "a client's name");
    SessionId::of(client, stamp)
}

// Opens the first session of the client, and gives its seat.
fn join<L: Ledger, K: Keeper + Drop>(
    rt: &impl Abort,
    core: &mut Core<L, K, NoBell>,
    client: &str,
    now: Moment,
) -> Seat<L> {
    let session = session(rt, core.alloc, client);
    match core.join(&session, now) {
        Ok((seat, outbox)) => {
            drop(outbox);
            seat
        }
        Err(fault) => panic!(rt; "{fault}"),
    }
}

// Takes the message to the server, and counts it at the seat, whoever's that is.
fn say_for<L: Ledger, K: Keeper + Drop, B: Bell + Clone + Drop>(
    core: &mut Core<L, K, B>,
    seat: &mut Seat<L>,
    up: Up,
    now: Moment,
) -> Result<(), HubFault> {
    let Some(server) = core.dispatcher.server() else {
        drop(up);
        return Err(HubFault::Down);
    };
    if matches!(up, Up::Hello { .. }) {
        drop(up);
        return Err(HubFault::Refused(Fault::Bad));
    }
    if is_apart(server, up.session(), seat.q()) {
        drop(up);
        return Err(HubFault::Refused(Fault::Session));
    }
    // it ensures that the history is legal
    let _ = core.dispatcher.number();
    take_message(&mut core.dispatcher, &mut core.tally, seat, up, now)?;
    core.dispatcher.end_slow(core.alloc, now);
    Ok(())
}

// What Alice's second message answers at her seat, after her first one was counted at Bob's.
fn second_of_alice<L: Ledger, R: Abort>(rt: &R, alloc: Global, blank: Blank) -> String
    requires name { blank.name ≡ L.name }
    requires parts { blank.parts ≡ L.parts }
    requires whole { blank.parts ≡ 2 ^ 53 }
{
    let now = Moment::at(0);
    let keeper = MemKeeper::new(alloc);
    let mut core = match Core::<L, MemKeeper, NoBell>::start(alloc, blank, keeper, now) {
        Ok(core) => core,
        Err((fault, _)) => panic!(rt; "{fault}"),
    };
    let mut alice = join(rt, &mut core, "alice", now);
    let mut bob = join(rt, &mut core, "bob", now);
    let first =
        r#"{"m":"op","n":1,"op":{"op":"set","path":"/a","value":1},"q":1,"s":["alice",1,1]}"#;
    let first = Up::decode(alloc, first).expect(rt, "a message");
    say_for(&mut core, &mut bob, first, now).expect(rt, "an answer");
    let second =
        r#"{"m":"op","n":2,"op":{"op":"set","path":"/a","value":2},"q":2,"s":["alice",1,1]}"#;
    let second = Up::decode(alloc, second).expect(rt, "a message");
    let answer = match core.say(&mut alice, second, now) {
        Ok(said) => said.number.to_string(alloc),
        Err(fault) => fault.to_string(alloc),
    };
    drop(core.leave(alice, Why::Lost, now));
    drop(core.leave(bob, Why::Lost, now));
    drop(core.finish());
    answer.expect(rt, "memory")
}

#[test]
fn a_message_that_the_seat_does_not_know_of_sets_it_apart(rt: HostRuntime) {
    let alloc = rt.alloc();
    let blank = Blank::new(1 << 53);
    let answer = second_of_alice::<Brand, HostRuntime>(&rt, alloc, blank);
    assert_eq!(rt; answer.as_str(), "the seat's next message is 1");
}
