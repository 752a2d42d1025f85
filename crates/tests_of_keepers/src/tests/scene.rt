//! A core with the places of Alice and Bob, and what its calls answer in words.

ghost use Rattle.std.specs.Prelude.{◌≡◌, ◌^◌};
ghost use Rattle.pres_log.specs.declared.fault.Fault.{Fault};

use crate::tests::refusing::{log_text, tree_text};
use crate::tests::words::expect_said;
use pres_dispatch::Outbox;
use pres_faults::HubFault;
use pres_hub::{Core, Keeper, NoBell, Parting, Report, Seat};
use pres_server::{ClientId, Moment, Number, SessionId, Stamp, Up, Why};
use std::alloc::Global;
use std::marker::Brand;
use std::process::Abort;
use std::sync::ledger::{Blank, Ledger};

/// A seat, and the end from which its messages are taken.
pub(crate) struct SeatedClient<L: Ledger> {
    pub(crate) seat: Seat<L>,
    pub(crate) outbox: Outbox,
}

/// A report's number, what was accepted, how many seats are out, and the total.
pub(crate) type Counts = (u64, u64, u64, Option<u64>);

/// What the report counts.
pub(crate) fn counted<L: Ledger, K>(report: &Report<L, K>) -> Counts {
    (
        report.number(),
        report.accepted(),
        report.seats_out(),
        report.total(),
    )
}

// A core, the places of Alice and Bob while they have them, and what remained of their seats.
struct Scene<L: Ledger, K: Keeper + Drop> {
    alloc: Global,
    core: Core<L, K, NoBell>,
    alice: Option<SeatedClient<L>>,
    bob: Option<SeatedClient<L>>,
    partings: Vec<Parting<L>>,
}

/// What a run came to: what was counted, and the log and the tree that are kept.
#[derive(Drop)]
pub(crate) struct RunResult {
    counts: Counts,
    log: String,
    tree: String,
}

impl RunResult {
    /// So much has to be counted.
    pub(crate) fn expect_counts(&self, rt: &impl Abort, wanted: Counts) {
        assert_eq!(rt; self.counts, wanted);
    }

    /// The log has to be this.
    pub(crate) fn expect_log(&self, rt: &impl Abort, wanted: &str) {
        assert_eq!(rt; self.log.as_str(), wanted);
    }

    /// The entry with this index has to be this.
    pub(crate) fn expect_entry(&self, rt: &impl Abort, index: usize, wanted: &str) {
        assert_eq!(rt; self.log.lines().nth(index), Some(wanted));
    }

    /// The tree has to be this.
    pub(crate) fn expect_tree(&self, rt: &impl Abort, wanted: &str) {
        assert_eq!(rt; self.tree.as_str(), wanted);
    }
}

/// The first session of the client.
pub(crate) fn session(rt: &impl Abort, alloc: Global, client: &str) -> SessionId {
    let stamp = Stamp {
        incarnation: Number::first(),
        attempt: Number::first(),
    };
    let client = ClientId::parse(alloc, client).expect(rt, "a client's name");
    SessionId::of(client, stamp)
}

/// The text of the next message, where there is one to take.
pub(crate) fn next_text(rt: &impl Abort, alloc: Global, outbox: &mut Outbox) -> Option<String> {
    let message = outbox.take()?;
    let text = message.encode(alloc);
    drop(message);
    Some(text.expect(rt, "memory"))
}

// The number, or the refusal in words.
fn answer_text(rt: &impl Abort, alloc: Global, answer: &Result<u64, HubFault>) -> String {
    let text = match answer {
        Ok(number) => number.to_string(alloc),
        Err(fault) => fault.to_string(alloc),
    };
    text.expect(rt, "memory")
}

// What the seat made, and why its end was refused, where it was.
fn parting_text<L: Ledger>(rt: &impl Abort, alloc: Global, parting: &Parting<L>) -> String {
    let made = parting.made();
    let text = match parting.fault() {
        Some(fault) => format!(in alloc; "made {made}, {fault}"),
        None => format!(in alloc; "made {made}, no fault"),
    };
    text.expect(rt, "memory")
}

/// How many messages are taken, at most this many, and the last of them.
pub(crate) fn taken(rt: &impl Abort, alloc: Global, outbox: &mut Outbox, most: u64) -> String {
    let mut count: u64 = 0;
    let mut last = String::from_str(alloc, "none").expect(rt, "memory");
    for _ in 0..most {
        let Some(text) = next_text(rt, alloc, outbox) else {
            break;
        };
        count = count.saturating_add(1);
        last = text;
    }
    format!(in alloc; "{count}, the last {last}").expect(rt, "memory")
}

// The text of the write number n of Alice, which sets `/a` to n.
fn set_text(rt: &impl Abort, alloc: Global, n: u64) -> String {
    let text = format!(in alloc;
        r#"{{"m":"op","n":{n},"op":{{"op":"set","path":"/a","value":{n}}},"q":{n},"s":["alice",1,1]}}"#
    );
    text.expect(rt, "memory")
}

// The first and the last number of a range.
fn range(rt: &impl Abort, words: &str) -> (u64, u64) {
    let (first, last) = words.split_once(' ').expect(rt, "a range");
    let first = first.parse().expect(rt, "a number");
    (first, last.parse().expect(rt, "a number"))
}

// What the message answers at the place.
fn say_at<L: Ledger, K: Keeper + Drop>(
    core: &mut Core<L, K, NoBell>,
    place: &mut Option<SeatedClient<L>>,
    up: Up,
    now: Moment,
) -> Option<Result<u64, HubFault>> {
    let Some(place) = place else {
        drop(up);
        return None;
    };
    match core.say(&mut place.seat, up, now) {
        Ok(said) => Some(Ok(said.number)),
        Err(fault) => Some(Err(fault)),
    }
}

// Takes the place's seat, whose connection was lost.
fn vacate<L: Ledger, K: Keeper + Drop>(
    core: &mut Core<L, K, NoBell>,
    place: Option<SeatedClient<L>>,
    now: Moment,
) -> Option<Parting<L>> {
    let SeatedClient { seat, outbox } = place?;
    drop(outbox);
    Some(core.leave(seat, Why::Lost, now))
}

impl<L: Ledger, K: Keeper + Drop> Scene<L, K> {
    // Where the client's place is.
    fn place(&mut self, client: &str) -> &mut Option<SeatedClient<L>> {
        if client == "bob" {
            &mut self.bob
        } else {
            &mut self.alice
        }
    }

    // The answer to a join: the greatest number that was sent to the seat.
    fn join(&mut self, rt: &impl Abort, client: &str, now: Moment) -> String {
        let session = session(rt, self.alloc, client);
        let joined = self.core.join(&session, now);
        drop(session);
        let answer = match joined {
            Ok((seat, outbox)) => {
                let number = seat.seen();
                let old = self.place(client).replace(SeatedClient { seat, outbox });
                drop(vacate(&mut self.core, old, now));
                Ok(number)
            }
            Err(fault) => Err(fault),
        };
        answer_text(rt, self.alloc, &answer)
    }

    // What a message answers.
    fn say(&mut self, rt: &impl Abort, client: &str, text: &str, now: Moment) -> String {
        let up = Up::decode(self.alloc, text).expect(rt, "a message");
        let said = match client {
            "bob" => say_at(&mut self.core, &mut self.bob, up, now),
            _ => say_at(&mut self.core, &mut self.alice, up, now),
        };
        answer_text(rt, self.alloc, &said.expect(rt, "a seat"))
    }

    // Alice's write number n, after which her messages are taken.
    fn set(&mut self, rt: &impl Abort, n: u64, now: Moment) -> String {
        let text = set_text(rt, self.alloc, n);
        let answer = self.say(rt, "alice", text.as_str(), now);
        drop(self.take(rt, "alice", 9));
        answer
    }

    // Alice's writes with the numbers from the first to the last one. What the last one answers.
    fn sets(&mut self, rt: &impl Abort, words: &str, now: Moment) -> String {
        let (first, last) = range(rt, words);
        let mut answer = String::new(self.alloc);
        for n in first..=last {
            answer = self.set(rt, n, now);
        }
        answer
    }

    // How many messages are taken, and the last of them.
    fn take(&mut self, rt: &impl Abort, client: &str, most: u64) -> String {
        let alloc = self.alloc;
        match self.place(client) {
            Some(place) => taken(rt, alloc, &mut place.outbox, most),
            None => panic!(rt; "no seat"),
        }
    }

    // What the end of the client's seat answers: what it made, and the refusal where there is one.
    fn leave(&mut self, rt: &impl Abort, client: &str, now: Moment) -> String {
        let place = self.place(client).take();
        let Some(parting) = vacate(&mut self.core, place, now) else {
            panic!(rt; "no seat");
        };
        let text = parting_text(rt, self.alloc, &parting);
        self.partings.push(parting).expect(rt, "memory");
        text
    }

    // Shows the client's seat the number, as if the server had answered it: the greatest that it saw.
    fn see(&mut self, rt: &impl Abort, client: &str, number: u64) -> String {
        let alloc = self.alloc;
        let Some(place) = self.place(client) else {
            panic!(rt; "no seat");
        };
        let seat = &mut place.seat;
        seat.see(number.max(seat.seen()));
        seat.seen().to_string(alloc).expect(rt, "memory")
    }

    fn tick(&mut self, rt: &impl Abort, now: Moment) -> String {
        let answer = self.core.tick(now);
        answer_text(rt, self.alloc, &answer)
    }

    // What a checkpoint of this rise answers: the number, or `none` where it isn't due.
    fn checkpoint(&mut self, rt: &impl Abort, rise: &str) -> String {
        let rise: u64 = rise.parse().expect(rt, "a number");
        let answer = match self.core.checkpoint(rise) {
            Ok(Some(number)) => Ok(number),
            Ok(None) => return String::from_str(self.alloc, "none").expect(rt, "memory"),
            Err(fault) => Err(fault),
        };
        answer_text(rt, self.alloc, &answer)
    }

    // What a step answers: a moment, a word and what it is about.
    fn step(&mut self, rt: &impl Abort, step: &str) -> String {
        let (millis, call) = step.split_once(' ').expect(rt, "a moment");
        let now = Moment::at(millis.parse().expect(rt, "a number"));
        let (word, rest) = call.split_once(' ').unwrap_or((call, ""));
        let (client, more) = rest.split_once(' ').unwrap_or((rest, ""));
        match word {
            "join" => self.join(rt, client, now),
            "say" => self.say(rt, client, more, now),
            "sets" => self.sets(rt, rest, now),
            "take" => self.take(rt, client, more.parse().expect(rt, "a number")),
            "see" => self.see(rt, client, more.parse().expect(rt, "a number")),
            "lost" => self.leave(rt, client, now),
            "tick" => self.tick(rt, now),
            "checkpoint" => self.checkpoint(rt, rest),
            _ => panic!(rt; "no such step"),
        }
    }

    // Carries out the step of each line, which has to answer what it says.
    fn check(&mut self, rt: &impl Abort, lines: &str) {
        for line in lines.lines() {
            let (step, wanted) = line.split_once(" => ").expect(rt, "an answer");
            expect_said(rt, step, self.step(rt, step), wanted);
        }
    }

    // Ends the run: what was counted, and the keeper. Whoever still has a place loses it first.
    fn finish(self) -> (Counts, K) {
        let Scene {
            alloc: _,
            mut core,
            alice,
            bob,
            partings,
        } = self;
        let alice = vacate(&mut core, alice, Moment::at(0));
        let bob = vacate(&mut core, bob, Moment::at(0));
        let mut report = core.finish();
        for parting in partings {
            report.gather(parting);
        }
        if let Some(parting) = alice {
            report.gather(parting);
        }
        if let Some(parting) = bob {
            report.gather(parting);
        }
        (counted(&report), report.into_keeper())
    }
}

// The steps over what the keeper holds, with a ledger that the caller picks.
fn run_with<L: Ledger, K: Keeper + Drop, R: Abort>(
    rt: &R,
    alloc: Global,
    blank: Blank,
    keeper: K,
    lines: &String,
) -> (Counts, K)
    requires name { blank.name ≡ L.name }
    requires parts { blank.parts ≡ L.parts }
    requires whole { blank.parts ≡ 2 ^ 53 }
    requires ready { K.ready keeper }
{
    let core = match Core::<L, K, NoBell>::start(alloc, blank, keeper, Moment::at(0)) {
        Ok(core) => core,
        Err((fault, _)) => panic!(rt; "{fault}"),
    };
    let mut scene = Scene {
        alloc,
        core,
        alice: None,
        bob: None,
        partings: Vec::new(alloc),
    };
    scene.check(rt, lines.as_str());
    scene.finish()
}

/// The steps over what the keeper holds. A step is a moment, a call and, after ` => `, its answer.
pub(crate) fn run<K: Keeper + Drop, R: Abort>(
    rt: &R,
    alloc: Global,
    keeper: K,
    lines: &str,
) -> (RunResult, K)
    requires { K.ready keeper }
{
    let lines = String::from_str(alloc, lines).expect(rt, "memory");
    let blank = Blank::new(1 << 53);
    let (counts, mut keeper) = run_with::<Brand, K, R>(rt, alloc, blank, keeper, &lines);
    let log = log_text(rt, alloc, &mut keeper);
    let tree = tree_text(rt, alloc, &mut keeper);
    let told = RunResult { counts, log, tree };
    (told, keeper)
}
