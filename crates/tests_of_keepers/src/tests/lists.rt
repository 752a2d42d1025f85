//! Messages of one client that a hub takes in one list.

ghost use Rattle.std.specs.Prelude.{◌≡◌, ◌^◌};

use crate::tests::callers::now;
use crate::tests::refusing::Refusing;
use crate::tests::scene::{Counts, counted, session, taken};
use crate::tests::words::expect_text;
use pres_hub::{Core, Gate, Hub, Keeper, NoBell, OpenGate, Outcome};
use pres_server::{Moment, Up, Why};
use std::alloc::Global;
use std::collections::VecDeque;
use std::marker::Brand;
use std::process::Abort;
use std::sync::Wait;
use std::sync::ledger::{Blank, Ledger};
use std::thread;
use std::thread::Threads;
use std::time::Clock;

// How many messages are in the list of each thread.
const WRITES_EACH: u64 = 8;

// The client's message number q, which sets its place to n by its write number n.
fn write(rt: &impl Abort, alloc: Global, client: &str, q: u64, n: u64) -> Up {
    let text = format!(in alloc;
        r#"{{"m":"op","n":{n},"op":{{"op":"set","path":"/{client}","value":{n}}},"q":{q},"s":["{client}",1,1]}}"#
    );
    Up::decode(alloc, text.expect(rt, "memory").as_str()).expect(rt, "a message")
}

// The client's writes, in their order.
fn writes(rt: &impl Abort, alloc: Global, client: &str) -> VecDeque<Up> {
    let mut messages = VecDeque::new(alloc);
    for n in 1..=WRITES_EACH {
        let message = write(rt, alloc, client, n, n);
        messages.push_back(message).expect(rt, "memory");
    }
    messages
}

// Two writes, and between them a message that is numbered too high.
fn unordered(rt: &impl Abort, alloc: Global, client: &str) -> VecDeque<Up> {
    let mut messages = VecDeque::new(alloc);
    for (q, n) in [(1, 1), (3, 2), (2, 2)] {
        let message = write(rt, alloc, client, q, n);
        messages.push_back(message).expect(rt, "memory");
    }
    messages
}

// Each outcome in words.
fn outcomes_text(rt: &impl Abort, alloc: Global, outcomes: &[Outcome]) -> String {
    let mut text = String::new(alloc);
    for outcome in outcomes {
        let word = match outcome {
            Ok(_) => String::from_str(alloc, "taken"),
            Err(fault) => fault.to_string(alloc),
        };
        text.push_str(word.expect(rt, "memory").as_str())
            .expect(rt, "memory");
        text.push_str(", ").expect(rt, "memory");
    }
    text
}

// The client joins, says these messages in one list and leaves: what each was answered, how many
// messages it can take then, and the last of them.
fn said<L: Ledger, K: Keeper + Drop, G: Gate, R: Wait + Clock + Abort>(
    rt: &R,
    alloc: Global,
    hub: &Hub<L, K, NoBell, G>,
    client: &str,
    messages: VecDeque<Up>,
) -> String {
    let session = session(rt, alloc, client);
    let joined = hub.enter(rt, 1).join(&session, now());
    drop(session);
    let (seat, mut outbox) = joined.expect(rt, "a seat");
    let mut due = Vec::new(alloc);
    let (seat, outcomes) = hub.say_each(rt, 1, seat, messages, now(), &mut due);
    drop(due);
    let answers = outcomes_text(rt, alloc, outcomes.as_slice());
    drop(outcomes);
    let told = taken(rt, alloc, &mut outbox, 9);
    drop(outbox);
    drop(hub.enter(rt, 1).leave(seat, Why::Lost, now()));
    format!(in alloc; "{answers}{told}").expect(rt, "memory")
}

// A hub over a new keeper that counts its commits.
fn opened<L: Ledger, R: Abort>(
    rt: &R,
    alloc: Global,
    blank: Blank,
) -> Hub<L, Refusing, NoBell, OpenGate>
    requires name { blank.name ≡ L.name }
    requires parts { blank.parts ≡ L.parts }
    requires whole { blank.parts ≡ 2 ^ 53 }
{
    let keeper = Refusing::at(alloc, &[]);
    match Core::<L, Refusing, NoBell>::start(alloc, blank, keeper, Moment::at(0)) {
        Ok(core) => Hub::new(core, OpenGate),
        Err((fault, _)) => panic!(rt; "{fault}"),
    }
}

// What a list with a message out of order is answered.
fn unordered_with<L: Ledger, R: Wait + Clock + Abort>(rt: &R, alloc: Global, blank: Blank) -> String
    requires name { blank.name ≡ L.name }
    requires parts { blank.parts ≡ L.parts }
    requires whole { blank.parts ≡ 2 ^ 53 }
{
    let hub = opened::<L, R>(rt, alloc, blank);
    let text = said(rt, alloc, &hub, "alice", unordered(rt, alloc, "alice"));
    drop(hub.into_core().finish().into_keeper());
    text
}

const OUT_OF_ORDER: &str =
    r#"taken, out of order, taken, 3, the last {"done":3,"m":"reply","n":2,"out":"wrote","q":2,"r":2,"s":["alice",1,1],"z":3}"#;

#[test]
fn each_message_of_a_list_is_answered_in_its_place(rt: HostRuntime) {
    let text = unordered_with::<Brand, HostRuntime>(&rt, rt.alloc(), Blank::new(1 << 53));
    expect_text(&rt, text, OUT_OF_ORDER);
}

// What the texts of the threads begin with: each of their writes is taken, and answered after the
// Welcome.
const ALL_TAKEN: &str = "taken, taken, taken, taken, taken, taken, taken, taken, 9, the last ";

// What the thread with this number does: whether all of its writes were taken.
fn write_at_once<L: Ledger, K: Keeper + Drop, G: Gate, R: Wait + Clock + Abort>(
    rt: &R,
    alloc: Global,
    hub: &Hub<L, K, NoBell, G>,
    number: u64,
) -> bool {
    let client = format!(in alloc; "c{number}").expect(rt, "memory");
    let messages = writes(rt, alloc, client.as_str());
    let text = said(rt, alloc, hub, client.as_str(), messages);
    text.starts_with(ALL_TAKEN)
}

fn both(taken: (bool, bool)) -> bool {
    taken.0 && taken.1
}

// Two threads, from this number on: whether all writes of each were taken.
fn two<L: Ledger + Send + Sync, K: Keeper + Drop + Send, R: Threads + Wait + Clock + Abort + Sync>(
    rt: &R,
    alloc: Global,
    hub: &Hub<L, K, NoBell, OpenGate>,
    number: u64,
) -> (bool, bool) {
    thread::join(
        rt,
        move || write_at_once(rt, alloc, hub, number),
        move || write_at_once(rt, alloc, hub, number.wrapping_add(1)),
    )
}

// The same of four threads.
fn four<L: Ledger + Send + Sync, K: Keeper + Drop + Send, R: Threads + Wait + Clock + Abort + Sync>(
    rt: &R,
    alloc: Global,
    hub: &Hub<L, K, NoBell, OpenGate>,
    number: u64,
) -> (bool, bool) {
    thread::join(
        rt,
        move || both(two(rt, alloc, hub, number)),
        move || both(two(rt, alloc, hub, number.wrapping_add(2))),
    )
}

// The same of eight threads.
fn eight<
    L: Ledger + Send + Sync,
    K: Keeper + Drop + Send,
    R: Threads + Wait + Clock + Abort + Sync,
>(rt: &R, alloc: Global, hub: &Hub<L, K, NoBell, OpenGate>, number: u64) -> (bool, bool) {
    thread::join(
        rt,
        move || both(four(rt, alloc, hub, number)),
        move || both(four(rt, alloc, hub, number.wrapping_add(4))),
    )
}

// The same of sixteen threads.
fn sixteen<
    L: Ledger + Send + Sync,
    K: Keeper + Drop + Send,
    R: Threads + Wait + Clock + Abort + Sync,
>(rt: &R, alloc: Global, hub: &Hub<L, K, NoBell, OpenGate>, number: u64) -> (bool, bool) {
    thread::join(
        rt,
        move || both(eight(rt, alloc, hub, number)),
        move || both(eight(rt, alloc, hub, number.wrapping_add(8))),
    )
}

// What was counted after all threads, and how many commits there were.
fn written_with<L: Ledger + Send + Sync, R: Threads + Wait + Clock + Abort + Sync>(
    rt: &R,
    alloc: Global,
    blank: Blank,
) -> (Counts, u64)
    requires name { blank.name ≡ L.name }
    requires parts { blank.parts ≡ L.parts }
    requires whole { blank.parts ≡ 2 ^ 53 }
{
    let hub = opened::<L, R>(rt, alloc, blank);
    let taken = sixteen(rt, alloc, &hub, 1);
    assert!(rt; both(taken));
    let report = hub.into_core().finish();
    let counts = counted(&report);
    let keeper = report.into_keeper();
    let commits = keeper.commits();
    drop(keeper);
    (counts, commits)
}

// Each client comes, writes eight times and goes. The commits are fewer than the writes.
#[test]
fn sixteen_threads_share_commits(rt: HostRuntime) {
    let (counts, commits) = written_with::<Brand, HostRuntime>(
        &rt,
        rt.alloc(),
        Blank::new(1 << 53),
    );
    assert_eq!(rt; counts, (160, 144, 0, None));
    assert!(rt; commits < 128);
}
