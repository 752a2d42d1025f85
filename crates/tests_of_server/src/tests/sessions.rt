//! Tests of sessions: their counts, their end, and a plan that owes rows.

ghost use Rattle.std.specs.Prelude.{◌≡◌};

use pres_session::{Due, Gone, Live, NoPlan, Pays, SessionFault, first};
use pres_tree::Path;
use pres_wire::{Number, Stamp, Why};
use pres_write::{Basic, Items, Moment, copy_writes};
use std::alloc::Global;
use std::process::Abort;

fn stamp(rt: &impl Abort, incarnation: u64, attempt: u64) -> Stamp {
    Stamp {
        incarnation: Number::new(incarnation).expect(rt, "a number"),
        attempt: Number::new(attempt).expect(rt, "a number"),
    }
}

// The number of one message more from the client.
fn accepted(rt: &impl Abort, live: &mut Live<NoPlan>) -> u64 {
    live.accept().expect(rt, "one message more").get()
}

// The number of one message more to the client.
fn emitted(rt: &impl Abort, live: &mut Live<NoPlan>) -> u64 {
    live.emit().expect(rt, "one message more").get()
}

// This many messages must have come from the client and gone to it.
fn check_counts(rt: &impl Abort, live: &Live<NoPlan>, count: u64, sent: u64) {
    assert_eq!(rt; (live.count().get(), live.sent().get()), (count, sent));
}

#[test]
fn a_session_counts_its_messages(rt: HostRuntime) {
    let mut live = first(stamp(&rt, 1, 1), Moment::at(1000), NoPlan);
    live.hear(Moment::at(3000));
    live.hear(Moment::at(2000));
    assert_eq!(rt; live.heard().millis(), 3000);
    assert_eq!(rt; accepted(&rt, &mut live), 1);
    assert_eq!(rt; accepted(&rt, &mut live), 2);
    assert_eq!(rt; emitted(&rt, &mut live), 1);
    let due = live.end(Why::Lost);
    assert_eq!(rt; due.why(), Why::Lost);
    check_counts(&rt, &due.put_back(), 2, 1);
}

// A client that comes again with the stamp that it had is refused.
fn refused(rt: &impl Abort, gone: Gone) -> (Gone, NoPlan) {
    let Err((fault, gone, plan)) = gone.open(stamp(rt, 1, 1), Moment::at(4000), NoPlan) else {
        panic!(rt; "an equal stamp was accepted");
    };
    assert_eq!(rt; fault, SessionFault::Old(stamp(rt, 1, 1)));
    assert_eq!(rt; gone.last(), stamp(rt, 1, 1));
    (gone, plan)
}

#[test]
fn a_client_comes_and_goes(rt: HostRuntime) {
    let live = first(stamp(&rt, 1, 1), Moment::at(1000), NoPlan);
    let gone = live.end(Why::Bye).spend(&[]);
    let (gone, plan) = refused(&rt, gone);
    let Ok(live) = gone.open(stamp(&rt, 1, 2), Moment::at(4000), plan) else {
        panic!(rt; "a greater stamp was refused");
    };
    assert_eq!(rt; live.stamp(), stamp(&rt, 1, 2));
    check_counts(&rt, &live, 0, 0);
}

// A plan that owes the rows that were put into it, in their order.
#[derive(Drop)]
struct Rows {
    rows: Vec<Basic>,
}

impl Pays for Rows {
    ghost owed = { λ plan tree moment. plan.rows.items };
}

impl Rows {
    // A row more, which removes what stands at the path.
    fn remove(&mut self, rt: &impl Abort, path: Path) {
        let row = Basic::new(path, None).expect(rt, "a removal");
        self.rows.push(row).expect(rt, "memory");
    }

    // Equal rows.
    fn copy(&self, rt: &impl Abort, alloc: Global) -> Items<Basic>
        ensures { result ≡ self.now.rows.items }
    {
        copy_writes(alloc, self.rows.as_slice()).expect(rt, "memory")
    }
}

// Leaves a row for the end of the session.
fn leave(rt: &impl Abort, alloc: Global, live: &mut Live<Rows>, text: &str) {
    let path = Path::parse(alloc, text).expect(rt, "a path");
    live.plan_mut().remove(rt, path);
}

// Pays what the session owes: which client went, and how many rows it left.
fn pay(rt: &impl Abort, alloc: Global, due: Due<Rows>) -> (Gone, usize) {
    let rows = due.plan().copy(rt, alloc);
    let gone = due.spend(rows.as_slice());
    (gone, rows.as_slice().len())
}

#[test]
fn an_end_pays_the_rows_of_its_plan(rt: HostRuntime) {
    let alloc = rt.alloc();
    let plan = Rows {
        rows: Vec::new(alloc),
    };
    let mut live = first(stamp(&rt, 1, 1), Moment::at(1000), plan);
    leave(&rt, alloc, &mut live, "/online");
    leave(&rt, alloc, &mut live, "/last");
    assert_eq!(rt; live.plan().rows.len(), 2);
    let (gone, count) = pay(&rt, alloc, live.end(Why::Lost));
    assert_eq!(rt; count, 2);
    assert_eq!(rt; gone.last(), stamp(&rt, 1, 1));
}
