//! Tests of logs: operations of one writer, and sessions of one client. Each helper makes one value
//! of another, so that few are alive at once.

use crate::tests::said::expect_text;
use pres_log::{Batch, Entry, Fault, Log, Plain};
use pres_tree::TreeJson;
use pres_wire::{ClientId, Number, SessionId, Stamp, Why};
use pres_write::{Items, Kept, Moment, Op, OpJson};
use serde_json::Value;
use std::alloc::Global;
use std::process::Abort;

fn op_of(rt: &impl Abort, alloc: Global, text: &str) -> Op {
    let value = Value::from_str(alloc, text).expect(rt, "JSON");
    Op::from_value(alloc, &value).expect(rt, "a value of its kind")
}

// The operation that puts the moment under the name.
fn stamping(rt: &impl Abort, alloc: Global, name: &str) -> Op {
    let text = format!(in alloc;
        r#"{{"op":"set","path":"/{name}","value":{{".sv":"timestamp"}}}}"#
    ).expect(rt, "memory");
    op_of(rt, alloc, text.as_str())
}

// The number of an operation that wrote.
fn wrote(answer: Result<(Number, Kept), Fault>) -> Option<u64> {
    let (number, kept) = answer.ok()?;
    match kept {
        Kept::Wrote => Some(number.get()),
        Kept::Stale(_) => None,
    }
}

fn applied(rt: &impl Abort, alloc: Global, log: &mut Plain, name: &str, now: u64) -> Option<u64> {
    let op = stamping(rt, alloc, name);
    wrote(log.apply(&op, Moment::at(now)))
}

fn moved(rt: &impl Abort, alloc: Global, log: &mut Plain, name: &str, now: u64) -> Option<u64> {
    let op = stamping(rt, alloc, name);
    wrote(log.apply_owned(op, Moment::at(now)))
}

fn left(rt: &impl Abort, alloc: Global, log: &Plain) -> String {
    let value = log.tree().to_value(alloc).expect(rt, "memory");
    value.to_string(alloc).expect(rt, "memory")
}

// The operation that puts the moment under the name gets the number.
fn check_applied(
    rt: &impl Abort,
    alloc: Global,
    log: &mut Plain,
    name: &str,
    now: u64,
    number: u64,
) {
    assert_eq!(rt; applied(rt, alloc, log, name, now), Some(number));
    assert_eq!(rt; log.number().get(), number);
}

#[test]
fn moments_never_fall(rt: HostRuntime) {
    let alloc = rt.alloc();
    let mut log = Plain::new(alloc);
    check_applied(&rt, alloc, &mut log, "t", 5, 1);
    check_applied(&rt, alloc, &mut log, "u", 3, 2);
    check_applied(&rt, alloc, &mut log, "v", 7, 3);
    expect_text(&rt, left(&rt, alloc, &log), r#"{"t":5,"u":5,"v":7}"#);
    assert_eq!(rt; moved(&rt, alloc, &mut log, "t", 6), Some(4));
    expect_text(&rt, left(&rt, alloc, &log), r#"{"t":7,"u":5,"v":7}"#);
}

fn session(rt: &impl Abort, alloc: Global, attempt: u64) -> SessionId {
    let stamp = Stamp {
        incarnation: Number::first(),
        attempt: Number::new(attempt).expect(rt, "a number"),
    };
    SessionId::of(
        ClientId::parse(alloc, "alice").expect(rt, "a client's name"),
        stamp,
    )
}

fn opened(rt: &impl Abort, alloc: Global, attempt: u64) -> Entry {
    Entry::Open {
        session: session(rt, alloc, attempt),
    }
}

fn ended(rt: &impl Abort, alloc: Global, attempt: u64) -> Entry {
    Entry::Ended {
        session: session(rt, alloc, attempt),
        q: None,
        why: Why::Superseded,
        rows: Items::of(Vec::new(alloc)),
    }
}

fn first_opened(rt: &impl Abort, alloc: Global) -> Items<Entry> {
    Items::one(alloc, opened(rt, alloc, 1)).expect(rt, "memory")
}

// The entries of a session that is superseded by the next one.
fn superseded(rt: &impl Abort, alloc: Global) -> Items<Entry> {
    let mut entries = Vec::new(alloc);
    entries.push(ended(rt, alloc, 1)).expect(rt, "memory");
    entries.push(opened(rt, alloc, 2)).expect(rt, "memory");
    Items::of(entries)
}

// A copy of the batch of these entries goes into the log.
fn commit(rt: &impl Abort, alloc: Global, log: &mut Log, now: u64, entries: Items<Entry>) {
    if !Batch::may_hold(entries.as_slice()) {
        panic!(rt; "no batch");
    }
    let Some(first) = log.len().checked_add(1).and_then(Number::new) else {
        panic!(rt; "no number");
    };
    let batch = Batch::new(first, Moment::at(now), entries);
    let batch = batch.copy(alloc).expect(rt, "memory");
    log.push(batch).expect(rt, "memory");
}

// A log of both sessions.
fn log_of_two(rt: &impl Abort, alloc: Global) -> Log {
    let mut log = Log::new(alloc);
    commit(rt, alloc, &mut log, 1000, first_opened(rt, alloc));
    commit(rt, alloc, &mut log, 2000, superseded(rt, alloc));
    log
}

// The attempt of the session that the entry with the number opens or ends.
fn attempt_at(log: &Log, number: u64) -> Option<u64> {
    match log.entry(number)? {
        Entry::Open { session } => Some(session.attempt.get()),
        Entry::Ended { session, .. } => Some(session.attempt.get() + 100),
        _ => None,
    }
}

// The entry with the number has this attempt, as `attempt_at` tells it.
fn check_entry(rt: &impl Abort, log: &Log, number: u64, wanted: Option<u64>) {
    assert_eq!(rt; attempt_at(log, number), wanted, "at {number}");
}

#[test]
fn entries_are_numbered(rt: HostRuntime) {
    assert!(rt; Log::new(rt.alloc()).is_empty());
    let log = log_of_two(&rt, rt.alloc());
    assert_eq!(rt; log.len(), 3);
    check_entry(&rt, &log, 0, None);
    check_entry(&rt, &log, 1, Some(1));
    check_entry(&rt, &log, 2, Some(101));
    check_entry(&rt, &log, 3, Some(2));
    check_entry(&rt, &log, 4, None);
}

// The batch begins with this number, and has this moment and this many entries.
fn check_batch(rt: &impl Abort, batch: &Batch, first: u64, now: u64, count: usize) {
    assert_eq!(rt; batch.first().get(), first);
    assert_eq!(rt; batch.moment(), Moment::at(now));
    assert_eq!(rt; batch.entries().len(), count);
}

#[test]
fn the_last_batch_is_popped(rt: HostRuntime) {
    let mut log = log_of_two(&rt, rt.alloc());
    let Some(batch) = log.pop() else {
        panic!(rt; "no batch");
    };
    check_batch(&rt, &batch, 2, 2000, 2);
    assert_eq!(rt; log.len(), 1);
    assert!(rt; log.pop().is_some());
    assert!(rt; log.pop().is_none());
}

#[test]
fn batches_are_kept_in_order(rt: HostRuntime) {
    let log = log_of_two(&rt, rt.alloc());
    let [first, second] = log.batches() else {
        panic!(rt; "no two batches");
    };
    check_batch(&rt, first, 1, 1000, 1);
    check_batch(&rt, second, 2, 2000, 2);
}

// The number of the first entry of the batch at the place.
fn first_at(log: &Log, place: u64) -> Option<u64> {
    Some(log.batch(place)?.first().get())
}

#[test]
fn batches_have_places(rt: HostRuntime) {
    let log = log_of_two(&rt, rt.alloc());
    assert_eq!(rt; first_at(&log, 0), None);
    assert_eq!(rt; first_at(&log, 1), Some(1));
    assert_eq!(rt; first_at(&log, 2), Some(2));
    assert_eq!(rt; first_at(&log, 3), None);
}

#[test]
fn batches_hold_one_entry_or_an_end_and_an_opening(rt: HostRuntime) {
    let alloc = rt.alloc();
    assert!(rt; Batch::may_hold(superseded(&rt, alloc).as_slice()));
    let mut entries = superseded(&rt, alloc).into_vec();
    entries.reverse();
    assert!(rt; !Batch::may_hold(&entries));
    assert!(rt; !Batch::may_hold(&[]));
}

#[test]
fn faults_have_codes(rt: HostRuntime) {
    let last = Stamp {
        incarnation: Number::first(),
        attempt: Number::first(),
    };
    let codes = (
        Fault::Bad.code().number(),
        Fault::Old(last).code().number(),
        Fault::Session.code().number(),
        Fault::Order.code().number(),
        Fault::Full.code().number(),
        Fault::Busy.code().number(),
        Fault::Spent.code().number(),
    );
    assert_eq!(rt; codes, (1, 2, 3, 4, 5, 6, 7));
}
