//! Two seats of one tally, and the names of a hub's faults.

ghost use Rattle.std.specs.Prelude.{◌≡◌, ◌^◌, IfSome};

use crate::tests::scene::session;
use crate::tests::words::expect_text;
use pres_accounting::Tally;
use pres_faults::{EngineFault, HubFault};
use pres_hub::Seat;
use pres_server::{Count, Number, SessionId, Stamp};
use std::alloc::Global;
use std::marker::Brand;
use std::process::Abort;
use std::sync::ledger::{Blank, Ledger};

// What a run of two seats came to.
#[derive(Clone, Copy)]
struct Ended {
    stamp: Stamp,
    q: Count,
    seen: u64,
    out: u64,
    made: (u64, u64),
    refused: (bool, bool),
    number: u64,
    accepted: u64,
    seats_out: u64,
    total_of_one: Option<u64>,
    total: Option<u64>,
    keeper: u64,
}

// This many more messages of the seat are accepted, and the number of each is sent to it.
fn say<L: Ledger>(tally: &mut Tally<L>, seat: &mut Seat<L>, times: u64) {
    for _ in 0..times {
        let accepted = tally.counts().accepted;
        let Some(q) = seat.q().next() else {
            return;
        };
        if accepted < 1 << 53 {
            tally.add(seat, Count::up_to(q));
            seat.see(seat.seen().max(accepted + 1));
        }
    }
}

// Two seats send 3 and 2 messages and leave, the second one with a fault. The one that is named is
// gathered first.
fn run<L: Ledger>(blank: Blank, first: SessionId, second: SessionId, is_turned: bool) -> Ended
    requires name { blank.name ≡ L.name }
    requires parts { blank.parts ≡ L.parts }
    requires whole { blank.parts ≡ 2 ^ 53 }
    ensures { IfSome result.total (λ n. n ≡ result.accepted) }
{
    let mut tally = Tally::<L>::open(blank);
    let mut first = tally.seat(first, 1);
    let mut second = tally.seat(second, 2);
    say(&mut tally, &mut first, 3);
    say(&mut tally, &mut second, 2);
    let (stamp, q, seen) = (first.session().stamp(), first.q(), first.seen());
    let first = tally.take(first, None);
    let out = tally.counts().out;
    let second = tally.take(second, Some(HubFault::Down));
    let made = (first.made(), second.made());
    let refused = (first.fault().is_some(), second.fault().is_some());
    let mut report = tally.close(7, 100);
    let (one, other) = if is_turned {
        (second, first)
    } else {
        (first, second)
    };
    report.gather(one);
    let total_of_one = report.total();
    report.gather(other);
    Ended {
        stamp,
        q,
        seen,
        out,
        made,
        refused,
        number: report.number(),
        accepted: report.accepted(),
        seats_out: report.seats_out(),
        total_of_one,
        total: report.total(),
        keeper: report.into_keeper(),
    }
}

// A run of alice and bob.
fn run_two(rt: &impl Abort, alloc: Global, is_turned: bool) -> Ended {
    let (first, second) = (session(rt, alloc, "alice"), session(rt, alloc, "bob"));
    run::<Brand>(Blank::new(1 << 53), first, second, is_turned)
}

// What was accepted is what the seats made, whichever is gathered first.
fn check_sums(rt: &impl Abort, ended: Ended) {
    let sums = (ended.made, ended.accepted, ended.total_of_one, ended.total);
    assert_eq!(rt; sums, ((4, 3), 7, None, Some(7)));
}

#[test]
fn what_was_accepted_is_what_the_seats_made(rt: HostRuntime) {
    check_sums(&rt, run_two(&rt, rt.alloc(), false));
    check_sums(&rt, run_two(&rt, rt.alloc(), true));
}

#[test]
fn a_seat_is_out_until_it_is_taken(rt: HostRuntime) {
    let ended = run_two(&rt, rt.alloc(), false);
    assert_eq!(rt; (ended.out, ended.seats_out), (1, 0));
    assert_eq!(rt; ended.refused, (false, true));
    assert_eq!(rt; (ended.number, ended.keeper), (7, 100));
}

#[test]
fn a_seat_knows_how_far_it_is(rt: HostRuntime) {
    let ended = run_two(&rt, rt.alloc(), false);
    assert_eq!(rt; ended.stamp.attempt, Number::first());
    assert_eq!(rt; (ended.q.get(), ended.seen), (3, 5));
}

// The fault in words.
fn check_fault(rt: &impl Abort, alloc: Global, fault: HubFault, wanted: &str) {
    let text = fault.to_string(alloc);
    drop(fault);
    expect_text(rt, text.expect(rt, "memory"), wanted);
}

#[test]
fn an_engine_that_is_down_is_a_hub_that_is_down(rt: HostRuntime) {
    let behind = HubFault::Behind { have: 1, seen: 2 };
    check_fault(&rt, rt.alloc(), HubFault::from(EngineFault::Down), "down");
    check_fault(
        &rt,
        rt.alloc(),
        behind,
        "the server has 1 entries, and the seat was told of 2",
    );
}
