//! Tests of an engine with the lines of its sessions.

ghost use Rattle.std.specs.Prelude.{◌≡◌, false};
ghost use Rattle.pres_dispatch.specs.Dispatches.{is_hello};
ghost use Rattle.pres_server.specs.declared.input.Input.TheVariants.{Up as Message};

use crate::tests::said::expect_text;
use crate::tests::turns::{ALICE, BOB, session};
use pres_dispatch::{Bell, Dispatcher, Input, Keeper, MemKeeper, Moment, Outbox, Up, Why};
use std::alloc::Global;
use std::ops::Range;
use std::process::Abort;

// A bell that has a number, and that nobody hears.
#[derive(Clone, Copy, Drop)]
struct Numbered(u32);

impl Bell for Numbered {
    fn ring(&self) {}
}

// The moment of all turns.
fn now() -> Moment {
    Moment::at(1000)
}

// A dispatcher over what the keeper holds.
fn started<K: Keeper + Drop>(rt: &impl Abort, alloc: Global, keeper: K) -> Dispatcher<K, Numbered>
    requires ready { K.ready keeper }
{
    match Dispatcher::start(alloc, keeper, now()) {
        Ok(dispatcher) => dispatcher,
        Err((fault, _)) => panic!(rt; "{fault}"),
    }
}

fn join<K: Keeper + Drop>(
    rt: &impl Abort,
    alloc: Global,
    dispatcher: &mut Dispatcher<K, Numbered>,
    text: &str,
) -> Outbox {
    let session = session(rt, alloc, text);
    dispatcher
        .join(alloc, &session, now())
        .expect(rt, "an outbox")
}

fn say<K: Keeper + Drop>(
    rt: &impl Abort,
    alloc: Global,
    dispatcher: &mut Dispatcher<K, Numbered>,
    text: &str,
) {
    let up = Up::decode(alloc, text).expect(rt, "a message");
    if matches!(up, Up::Hello { .. }) {
        panic!(rt; "a Hello");
    }
    let turned = dispatcher.turn(Input::Up(up), now());
    dispatcher.end_slow(alloc, now());
    turned.expect(rt, "a turn");
}

// Bob's write number n.
fn set(rt: &impl Abort, alloc: Global, n: u32) -> String {
    format!(in alloc;
        r#"{{"m":"op","n":{n},"op":{{"op":"set","path":"/a","value":{n}}},"q":{n},"s":{BOB}}}"#
    ).expect(rt, "memory")
}

// Alice listens and takes nothing, and Bob writes this often where she listens: the number after
// it.
fn listened<K: Keeper + Drop>(
    rt: &impl Abort,
    alloc: Global,
    dispatcher: &mut Dispatcher<K, Numbered>,
    writes: u32,
) -> u64 {
    drop(join(rt, alloc, dispatcher, ALICE));
    drop(join(rt, alloc, dispatcher, BOB));
    let on = format!(in alloc; r#"{{"m":"on","path":"/a","q":1,"s":{ALICE}}}"#);
    let on = on.expect(rt, "memory");
    say(rt, alloc, dispatcher, on.as_str());
    for write in 0..writes {
        say(rt, alloc, dispatcher, set(rt, alloc, write + 1).as_str());
    }
    dispatcher.number()
}

// The number after this many writes.
fn number_after<K: Keeper + Drop>(rt: &impl Abort, alloc: Global, keeper: K, writes: u32) -> u64
    requires ready { K.ready keeper }
{
    let mut dispatcher = started(rt, alloc, keeper);
    let number = listened(rt, alloc, &mut dispatcher, writes);
    drop(dispatcher.into_keeper());
    number
}

// her Welcome, the answer to her listen and 254 values are the 256 messages that her ring has room for
#[test]
fn a_session_that_is_slow_is_ended(rt: HostRuntime) {
    let alloc = rt.alloc();
    assert_eq!(rt;
        number_after(&rt, alloc, MemKeeper::new(alloc), 254),
        3 + 254
    );
    assert_eq!(rt;
        number_after(&rt, alloc, MemKeeper::new(alloc), 255),
        3 + 255 + 1
    );
}

// The messages that can be taken.
fn all_taken(rt: &impl Abort, alloc: Global, outbox: &mut Outbox) -> Vec<String> {
    let mut texts = Vec::new(alloc);
    for _ in 0..300 {
        let Some(message) = outbox.take() else {
            break;
        };
        texts
            .push(message.encode(alloc).expect(rt, "memory"))
            .expect(rt, "memory");
    }
    texts
}

// Where Alice takes her messages, after a write of her own.
fn written<K: Keeper + Drop>(
    rt: &impl Abort,
    alloc: Global,
    dispatcher: &mut Dispatcher<K, Numbered>,
) -> Outbox {
    let outbox = join(rt, alloc, dispatcher, ALICE);
    let op = format!(in alloc;
        r#"{{"m":"op","n":1,"op":{{"op":"set","path":"/a","value":1}},"q":1,"s":{ALICE}}}"#
    ).expect(rt, "memory");
    say(rt, alloc, dispatcher, op.as_str());
    outbox
}

// What Alice takes after a write of her own.
fn taken<K: Keeper + Drop>(
    rt: &impl Abort,
    alloc: Global,
    dispatcher: &mut Dispatcher<K, Numbered>,
) -> Vec<String> {
    let mut outbox = written(rt, alloc, dispatcher);
    all_taken(rt, alloc, &mut outbox)
}

// How many messages Alice took, and whether she is marked as lost when that is noted.
fn lost<K: Keeper + Drop>(
    rt: &impl Abort,
    alloc: Global,
    dispatcher: &mut Dispatcher<K, Numbered>,
) -> (usize, bool) {
    let count = taken(rt, alloc, dispatcher).len();
    let alice = session(rt, alloc, ALICE);
    dispatcher.strike(&alice, Why::Lost);
    let is_marked =
        matches!(dispatcher.first_marked(alloc), Some(Ok((found, Why::Lost))) if found == alice);
    (count, is_marked)
}

// The same over what the keeper holds, and whether there was a server.
fn answered<K: Keeper + Drop>(rt: &impl Abort, alloc: Global, keeper: K) -> (bool, usize, bool)
    requires ready { K.ready keeper }
{
    let mut dispatcher = started(rt, alloc, keeper);
    let runs = dispatcher.server().is_some();
    let (count, is_marked) = lost(rt, alloc, &mut dispatcher);
    drop(dispatcher.into_keeper());
    (runs, count, is_marked)
}

#[test]
fn answers_are_put_on_lines(rt: HostRuntime) {
    let alloc = rt.alloc();
    assert_eq!(rt;
        answered(&rt, alloc, MemKeeper::new(alloc)),
        (true, 2, true)
    );
}

// What a checkpoint of this rise answers: a number, or none where it isn't due.
fn kept<K: Keeper + Drop>(
    rt: &impl Abort,
    dispatcher: &mut Dispatcher<K, Numbered>,
    rise: u64,
) -> Option<u64> {
    dispatcher.checkpoint(rise).expect(rt, "a keeper")
}

// What checkpoints answer after Alice's two entries and after Bob's Hello, and how many messages she
// takes after the first of them.
fn checkpointed<K: Keeper + Drop>(
    rt: &impl Abort,
    alloc: Global,
    dispatcher: &mut Dispatcher<K, Numbered>,
) -> ([Option<u64>; 5], usize) {
    let mut outbox = written(rt, alloc, dispatcher);
    let early = kept(rt, dispatcher, 3);
    let first = kept(rt, dispatcher, 2);
    let again = kept(rt, dispatcher, 1);
    let count = all_taken(rt, alloc, &mut outbox).len();
    drop(join(rt, alloc, dispatcher, BOB));
    let short = kept(rt, dispatcher, 2);
    let second = kept(rt, dispatcher, 1);
    ([early, first, again, short, second], count)
}

// The same over what the keeper holds, and the number after it.
fn checkpointed_over<K: Keeper + Drop>(
    rt: &impl Abort,
    alloc: Global,
    keeper: K,
) -> ([Option<u64>; 5], usize, u64)
    requires ready { K.ready keeper }
{
    let mut dispatcher = started(rt, alloc, keeper);
    let (numbers, count) = checkpointed(rt, alloc, &mut dispatcher);
    let number = dispatcher.number();
    drop(dispatcher.into_keeper());
    (numbers, count, number)
}

// Each counts from the one before, and what was put on the lines stays.
#[test]
fn a_checkpoint_waits_for_its_rise(rt: HostRuntime) {
    let alloc = rt.alloc();
    let (numbers, count, number) = checkpointed_over(&rt, alloc, MemKeeper::new(alloc));
    assert_eq!(rt; numbers, [None, Some(2), None, None, Some(3)]);
    assert_eq!(rt; (count, number), (2, 3));
}

// Alice's bell is 1, and Bob's is 2.
fn hang<K: Keeper + Drop>(
    rt: &impl Abort,
    alloc: Global,
    dispatcher: &mut Dispatcher<K, Numbered>,
) {
    dispatcher
        .hang(alloc, &session(rt, alloc, ALICE), Numbered(1))
        .expect(rt, "a session");
    dispatcher
        .hang(alloc, &session(rt, alloc, BOB), Numbered(2))
        .expect(rt, "a session");
}

// Bob writes, this many times from this number on: the bells that are due then, except this one's
// own.
fn due<K: Keeper + Drop>(
    rt: &impl Abort,
    alloc: Global,
    dispatcher: &mut Dispatcher<K, Numbered>,
    writes: Range<u32>,
    own: &str,
) -> String {
    for write in writes {
        say(rt, alloc, dispatcher, set(rt, alloc, write).as_str());
    }
    let own = session(rt, alloc, own);
    let mut bells = Vec::new(alloc);
    dispatcher.take_due(Some(&own), &mut bells);
    let mut numbers = String::new(alloc);
    for bell in bells.iter() {
        numbers
            .push_str(bell.0.to_string(alloc).expect(rt, "memory").as_str())
            .expect(rt, "memory");
    }
    if bells.is_empty() {
        numbers.push_str("-").expect(rt, "memory");
    }
    numbers
}

// Adds the bells that are due after these writes.
fn add_due<K: Keeper + Drop>(
    rt: &impl Abort,
    alloc: Global,
    dispatcher: &mut Dispatcher<K, Numbered>,
    said: &mut String,
    writes: Range<u32>,
    own: &str,
) {
    let due = due(rt, alloc, dispatcher, writes, own);
    said.push(' ').expect(rt, "memory");
    said.push_str(due.as_str()).expect(rt, "memory");
}

// The bells that are due: after a write, again, after two, where Alice asks, and where hers is
// removed; then where she takes nothing, until her ring is full and after that.
fn rung<K: Keeper + Drop>(
    rt: &impl Abort,
    alloc: Global,
    dispatcher: &mut Dispatcher<K, Numbered>,
) -> String {
    listened(rt, alloc, dispatcher, 0);
    hang(rt, alloc, dispatcher);
    let mut said = String::new(alloc);
    add_due(rt, alloc, dispatcher, &mut said, 1..2, BOB);
    add_due(rt, alloc, dispatcher, &mut said, 2..2, BOB);
    add_due(rt, alloc, dispatcher, &mut said, 2..4, BOB);
    add_due(rt, alloc, dispatcher, &mut said, 4..5, ALICE);
    add_due(rt, alloc, dispatcher, &mut said, 5..6, BOB);
    dispatcher.take_down(&session(rt, alloc, ALICE));
    add_due(rt, alloc, dispatcher, &mut said, 6..7, BOB);
    hang(rt, alloc, dispatcher);
    add_due(rt, alloc, dispatcher, &mut said, 7..255, BOB);
    add_due(rt, alloc, dispatcher, &mut said, 255..256, BOB);
    add_due(rt, alloc, dispatcher, &mut said, 256..257, BOB);
    said
}

// The same over what the keeper holds.
fn rung_over<K: Keeper + Drop>(rt: &impl Abort, alloc: Global, keeper: K) -> String
    requires ready { K.ready keeper }
{
    let mut dispatcher = started(rt, alloc, keeper);
    let said = rung(rt, alloc, &mut dispatcher);
    drop(dispatcher.into_keeper());
    said
}

#[test]
fn each_due_bell_is_handed_out_once(rt: HostRuntime) {
    let alloc = rt.alloc();
    let said = rung_over(&rt, alloc, MemKeeper::new(alloc));
    expect_text(&rt, said, " 1 - 1 2 1 - 1 1 -");
}
