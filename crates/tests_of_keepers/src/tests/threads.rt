//! Hubs with a thread for each client.

ghost use Rattle.std.specs.Prelude.{◌≡◌, ◌^◌};

use crate::tests::callers::{Caller, Left, Role, visit};
use crate::tests::gates::Holding;
use crate::tests::refusing::{log_text, replayed_text};
use crate::tests::scene::{Counts, counted};
use crate::tests::slow::{read_late, write_later};
use pres_hub::{Core, Gate, Hub, Keeper, MemKeeper, NoBell, OpenGate, Report};
use pres_saved::SqlKeeper;
use pres_server::Moment;
use sqlite::Connection;
use std::alloc::Global;
use std::marker::Brand;
use std::process::Abort;
use std::sync::ledger::{Blank, Ledger};
use std::sync::{Barrier, Wait};
use std::thread;
use std::thread::Threads;
use std::time::Clock;

// What a run of two threads or more came to: what was counted, what was read, each on a line of its
// own, the log that is kept, and what its replay gives.
#[derive(Drop)]
struct Outcome {
    counts: Counts,
    reads: String,
    log: String,
    replayed: String,
}

impl Outcome {
    // So much has to be counted.
    fn expect_counts(&self, rt: &impl Abort, wanted: Counts) {
        assert_eq!(rt; self.counts, wanted);
    }

    // This has to be read.
    fn expect_reads(&self, rt: &impl Abort, wanted: &str) {
        assert_eq!(rt; self.reads.as_str(), wanted);
    }

    // The batch with this index has to be this.
    fn expect_batch(&self, rt: &impl Abort, index: usize, wanted: &str) {
        assert_eq!(rt; self.log.lines().nth(index), Some(wanted));
    }

    // The replay must give this many entries and this tree.
    fn expect_replayed(&self, rt: &impl Abort, wanted: &str) {
        assert_eq!(rt; self.replayed.as_str(), wanted);
    }
}

// What a thread does.
fn act<L: Ledger, K: Keeper + Drop, G: Gate, R: Wait + Abort>(
    rt: &R,
    alloc: Global,
    hub: &Hub<L, K, NoBell, G>,
    barrier: &Barrier,
    caller: Caller,
) -> Left<L> {
    match caller.role {
        Role::Visits => visit(rt, alloc, hub, barrier, caller),
        Role::WritesLater => write_later(rt, alloc, hub, barrier, caller),
        Role::ReadsLate => read_late(rt, alloc, hub, barrier, caller),
    }
}

// Two threads, each with one of the callers.
fn pair<
    L: Ledger + Send + Sync,
    K: Keeper + Drop + Send,
    G: Gate + Sync,
    R: Threads + Wait + Abort + Sync,
>(
    rt: &R,
    alloc: Global,
    hub: &Hub<L, K, NoBell, G>,
    callers: (Caller, Caller),
) -> (Left<L>, Left<L>) {
    let (first, second) = callers;
    let barrier = Barrier::new(2);
    let shared = &barrier;
    thread::join(
        rt,
        move || act(rt, alloc, hub, shared, first),
        move || act(rt, alloc, hub, shared, second),
    )
}

// Adds what a thread left: what it read.
fn gather<L: Ledger, K>(report: &mut Report<L, K>, left: Left<L>) -> Option<String> {
    let Left { parting, read } = left;
    report.gather(parting);
    read
}

// Adds what was read, on a line of its own.
fn add_line(rt: &impl Abort, lines: &mut String, read: Option<String>) {
    if let Some(read) = read {
        lines.push_str(read.as_str()).expect(rt, "memory");
        lines.push('\n').expect(rt, "memory");
    }
}

// What the report and its keeper tell, with what two threads left.
fn reported<L: Ledger, K: Keeper + Drop>(
    rt: &impl Abort,
    alloc: Global,
    mut report: Report<L, K>,
    left: (Left<L>, Left<L>),
) -> Outcome {
    let mut reads = String::new(alloc);
    add_line(rt, &mut reads, gather(&mut report, left.0));
    add_line(rt, &mut reads, gather(&mut report, left.1));
    let counts = counted(&report);
    let mut keeper = report.into_keeper();
    let log = log_text(rt, alloc, &mut keeper);
    let replayed = replayed_text(rt, alloc, &mut keeper);
    Outcome {
        counts,
        reads,
        log,
        replayed,
    }
}

// A hub over what the keeper holds, with a gate.
fn opened<L: Ledger, K: Keeper + Drop, G: Gate + Drop, R: Abort>(
    rt: &R,
    alloc: Global,
    blank: Blank,
    keeper: K,
    gate: G,
) -> Hub<L, K, NoBell, G>
    requires name { blank.name ≡ L.name }
    requires parts { blank.parts ≡ L.parts }
    requires whole { blank.parts ≡ 2 ^ 53 }
    requires ready { K.ready keeper }
{
    match Core::<L, K, NoBell>::start(alloc, blank, keeper, Moment::at(0)) {
        Ok(core) => Hub::new(core, gate),
        Err((fault, _)) => panic!(rt; "{fault}"),
    }
}

// A hub and two threads, with a ledger that the caller picks.
fn two_with<
    L: Ledger + Send + Sync,
    K: Keeper + Drop + Send,
    G: Gate + Drop + Sync,
    R: Threads + Wait + Abort + Sync,
>(rt: &R, alloc: Global, blank: Blank, keeper: K, gate: G, callers: (Caller, Caller)) -> Outcome
    requires name { blank.name ≡ L.name }
    requires parts { blank.parts ≡ L.parts }
    requires whole { blank.parts ≡ 2 ^ 53 }
    requires ready { K.ready keeper }
{
    let hub = opened::<L, K, G, R>(rt, alloc, blank, keeper, gate);
    let left = pair(rt, alloc, &hub, callers);
    let report = hub.into_core().finish();
    reported(rt, alloc, report, left)
}

// A hub with a gate, and two threads.
fn two<G: Gate + Drop + Sync, R: Threads + Wait + Abort + Sync>(
    rt: &R,
    alloc: Global,
    gate: G,
    callers: (Caller, Caller),
) -> Outcome {
    let keeper = MemKeeper::new(alloc);
    two_with::<Brand, MemKeeper, G, R>(rt, alloc, Blank::new(1 << 53), keeper, gate, callers)
}

// A hub and four threads, with a ledger that the caller picks.
fn four_with<L: Ledger + Send + Sync, K: Keeper + Drop + Send, R: Threads + Wait + Abort + Sync>(
    rt: &R,
    alloc: Global,
    blank: Blank,
    keeper: K,
    callers: ((Caller, Caller), (Caller, Caller)),
) -> Outcome
    requires name { blank.name ≡ L.name }
    requires parts { blank.parts ≡ L.parts }
    requires whole { blank.parts ≡ 2 ^ 53 }
    requires ready { K.ready keeper }
{
    let hub = opened::<L, K, OpenGate, R>(rt, alloc, blank, keeper, OpenGate);
    let shared = &hub;
    let ((first, second), (third, fourth)) = callers;
    let ((a, b), (c, d)) = thread::join(
        rt,
        move || pair(rt, alloc, shared, (first, second)),
        move || pair(rt, alloc, shared, (third, fourth)),
    );
    let mut report = hub.into_core().finish();
    drop(gather(&mut report, a));
    drop(gather(&mut report, b));
    reported(rt, alloc, report, (c, d))
}

// A hub over what the keeper holds, and four threads.
fn four<K: Keeper + Drop + Send, R: Threads + Wait + Abort + Sync>(
    rt: &R,
    alloc: Global,
    keeper: K,
) -> Outcome
    requires { K.ready keeper }
{
    let callers = (
        (writer(1, "a", "/a", 50), writer(2, "b", "/b", 50)),
        (writer(3, "c", "/c", 50), writer(4, "d", "/d", 50)),
    );
    four_with::<Brand, K, R>(rt, alloc, Blank::new(1 << 53), keeper, callers)
}

// A thread that writes to a path of its own.
fn writer(number: u64, client: &'static str, path: &'static str, writes: u64) -> Caller {
    Caller {
        number,
        client,
        path,
        writes,
        listens: None,
        role: Role::Visits,
    }
}

// The number, what was accepted and the total are exact in each order of the threads.
#[test]
fn two_threads_are_counted_exactly(rt: HostRuntime) {
    let callers = (
        writer(1, "alice", "/alice", 100),
        writer(2, "bob", "/bob", 100),
    );
    let outcome = two(&rt, rt.alloc(), OpenGate, callers);
    outcome.expect_counts(&rt, (204, 202, 0, Some(202)));
    outcome.expect_replayed(&rt, r#"204 entries, {"alice":100,"bob":100}"#);
}

const READ: &str = r#"{"m":"snap","path":"/bob","q":101,"r":101,"s":["alice",1,1],"value":100
{"m":"snap","path":"/alice","q":101,"r":101,"s":["bob",1,1],"value":100
"#;

#[test]
fn two_threads_read_what_the_other_wrote(rt: HostRuntime) {
    let (alice, bob) = (
        writer(1, "alice", "/alice", 100),
        writer(2, "bob", "/bob", 100),
    );
    let callers = (
        Caller {
            listens: Some("/bob"),
            ..alice
        },
        Caller {
            listens: Some("/alice"),
            ..bob
        },
    );
    let outcome = two(&rt, rt.alloc(), OpenGate, callers);
    outcome.expect_counts(&rt, (206, 204, 0, Some(204)));
    outcome.expect_reads(&rt, READ);
}

const READ_LATE: &str = r#"262
3, the last {"m":"snap","path":"/a","q":2,"r":2,"s":["bob",1,1],"value":null,"z":3}
256, the last {"m":"push","r":258,"s":["bob",1,1],"values":[["/a",256]],"z":260}
"#;

// The batch of entry 262.
const SLOW_END: &str =
    r#"[{"e":"ended","q":null,"rows":[["/b",true]],"s":["bob",1,1],"why":"slow"}]"#;

// Bob takes his first three messages, and nothing more until Alice has ended: her 256th write fills his
// ring, and the next one ends him.
#[test]
fn a_reader_that_takes_nothing_is_ended(rt: HostRuntime) {
    let alice = Caller {
        role: Role::WritesLater,
        ..writer(1, "alice", "/a", 257)
    };
    let bob = Caller {
        role: Role::ReadsLate,
        ..writer(2, "bob", "/b", 0)
    };
    let outcome = two(&rt, rt.alloc(), OpenGate, (alice, bob));
    outcome.expect_counts(&rt, (263, 261, 0, Some(261)));
    outcome.expect_reads(&rt, READ_LATE);
    outcome.expect_batch(&rt, 261, SLOW_END);
    outcome.expect_replayed(&rt, r#"263 entries, {"a":257,"b":true}"#);
}

// Two threads, of which one is held at its first call while a call of the other is answered.
fn held<R: Threads + Wait + Abort + Clock + Sync>(rt: &R, alloc: Global, held: u64) -> Outcome {
    let callers = (writer(1, "alice", "/alice", 1), writer(2, "bob", "/bob", 1));
    two(rt, alloc, Holding::of(rt, held), callers)
}

// The gate fails where the other isn't answered meanwhile.
#[test]
fn a_caller_that_is_held_holds_no_other(rt: HostRuntime) {
    for caller in 1..=2 {
        let outcome = held(&rt, rt.alloc(), caller);
        outcome.expect_counts(&rt, (6, 4, 0, Some(4)));
        outcome.expect_replayed(&rt, r#"6 entries, {"alice":1,"bob":1}"#);
    }
}

const FOUR: &str = r#"208 entries, {"a":50,"b":50,"c":50,"d":50}"#;

#[test]
fn four_threads_leave_their_last_values(rt: HostRuntime) {
    let outcome = four(&rt, rt.alloc(), MemKeeper::new(rt.alloc()));
    outcome.expect_counts(&rt, (208, 204, 0, Some(204)));
    outcome.expect_replayed(&rt, FOUR);
}

// The same over a database in memory.
fn four_in_database<R: Threads + Wait + Abort + Sync>(rt: &R, alloc: Global) -> Outcome {
    let connection = Connection::open_in_memory(alloc).expect(rt, "a database");
    match SqlKeeper::create(alloc, connection) {
        Ok(keeper) => four(rt, alloc, keeper),
        Err((fault, _)) => panic!(rt; "{fault}"),
    }
}

#[test]
fn four_threads_leave_their_last_values_in_a_database(rt: HostRuntime) {
    let outcome = four_in_database(&rt, rt.alloc());
    outcome.expect_counts(&rt, (208, 204, 0, Some(204)));
    outcome.expect_replayed(&rt, FOUR);
}
