//! Which parts are those of a base: a base of one session and one write, and the same with one part
//! changed, which fails that part's check and comes back.

use pres_base::{Base, BaseParts, ClientPart, SessionPart};
use pres_ids::{ClientId, Count, Number, SessionId, Stamp};
use pres_plan::{Action, PlanRow};
use pres_retry::Answers;
use pres_tree::{Path, Tree};
use pres_write::{Draft, DraftJson, Items, Kept, Moment, Placement};
use serde_json::Value;
use std::alloc::Global;
use std::process::Abort;

fn number(rt: &impl Abort, value: u64) -> Number {
    Number::new(value).expect(rt, "a number")
}

fn count(rt: &impl Abort, value: u64) -> Count {
    Count::new(value).expect(rt, "a count")
}

fn client(rt: &impl Abort, alloc: Global, text: &str) -> ClientId {
    ClientId::parse(alloc, text).expect(rt, "a client id")
}

fn stamp(rt: &impl Abort, attempt: u64) -> Stamp {
    Stamp {
        incarnation: Number::first(),
        attempt: number(rt, attempt),
    }
}

fn path(rt: &impl Abort, alloc: Global, text: &str) -> Path {
    Path::parse(alloc, text).expect(rt, "a path")
}

// What may differ of a base of one client.
#[derive(Clone, Copy)]
struct Plain<'a> {
    number: u64,
    batches: u64,
    // at which numbers the client's writes were done
    done: &'a [u64],
    // the attempt of its last session, and of the open one
    last: u64,
    open: u64,
    q: u64,
    r: u64,
    // which places the session listens to, and its plan: `q path draft`, without a draft a keep
    listens: &'a str,
    plan: &'a str,
}

// A client's session is open, and its one write was done: entries 1 and 2.
const FIRST: Plain<'static> = Plain {
    number: 2,
    batches: 2,
    done: &[2],
    last: 1,
    open: 1,
    q: 1,
    r: 1,
    listens: "",
    plan: "",
};

fn answers(rt: &impl Abort, alloc: Global, done: &[u64]) -> Answers {
    let mut made = Answers::new(alloc);
    for value in done {
        let n = made.count().next().expect(rt, "a number");
        made.push(alloc, n, number(rt, *value), Kept::Wrote)
            .expect(rt, "memory");
    }
    made
}

fn listens(rt: &impl Abort, alloc: Global, text: &str) -> Items<Path> {
    let mut made = Vec::new(alloc);
    for part in text.split_ascii_whitespace() {
        made.push(path(rt, alloc, part)).expect(rt, "memory");
    }
    Items::of(made)
}

fn draft(rt: &impl Abort, alloc: Global, text: &str) -> Draft {
    let value = Value::from_str(alloc, text).expect(rt, "JSON");
    let draft = Draft::from_value(alloc, &value);
    drop(value);
    draft.expect(rt, "a value")
}

fn row(rt: &impl Abort, alloc: Global, text: &str) -> PlanRow {
    let (q, rest) = text.split_once(' ').expect(rt, "a number");
    let q = number(rt, q.parse::<u64>().expect(rt, "a number"));
    let action = match rest.split_once(' ') {
        Some((place, value)) => {
            let placement = Placement::new(path(rt, alloc, place), draft(rt, alloc, value));
            Action::Put(placement.expect(rt, "a placement"))
        }
        None => Action::Keep(path(rt, alloc, rest)),
    };
    PlanRow { q, action }
}

fn plan(rt: &impl Abort, alloc: Global, text: &str) -> Items<PlanRow> {
    let mut made = Vec::new(alloc);
    for part in text.split(", ").filter(|part| !part.is_empty()) {
        made.push(row(rt, alloc, part)).expect(rt, "memory");
    }
    Items::of(made)
}

fn parts(rt: &impl Abort, alloc: Global, plain: Plain<'_>) -> BaseParts {
    let alice = ClientPart {
        id: client(rt, alloc, "alice"),
        last: stamp(rt, plain.last),
        rows: answers(rt, alloc, plain.done),
    };
    let open = SessionPart {
        session: SessionId::of(client(rt, alloc, "alice"), stamp(rt, plain.open)),
        q: count(rt, plain.q),
        r: count(rt, plain.r),
        listens: listens(rt, alloc, plain.listens),
        plan: plan(rt, alloc, plain.plan),
    };
    BaseParts {
        batches: count(rt, plain.batches),
        moment: Moment::at(0),
        number: count(rt, plain.number),
        tree: Tree::empty(),
        clients: Items::one(alloc, alice).expect(rt, "memory"),
        sessions: Items::one(alloc, open).expect(rt, "memory"),
    }
}

// Whether the parts are those of a base. Where they aren't, they come back.
fn is_base(rt: &impl Abort, alloc: Global, plain: Plain<'_>) -> bool {
    match Base::from_parts(parts(rt, alloc, plain)) {
        Ok(base) => {
            let copy = base.copy(alloc).expect(rt, "memory");
            assert_eq!(rt; copy.parts().number.get(), plain.number);
            true
        }
        Err(back) => {
            assert_eq!(rt; back.number.get(), plain.number);
            false
        }
    }
}

#[test]
fn a_base_is_accepted(rt: HostRuntime) {
    let alloc = rt.alloc();
    assert!(&rt; is_base(&rt, alloc, FIRST));
    let plan = "1 /a {\"b\":1}, 1 /a/c, 2 /d true";
    let whole = Plain {
        number: 4,
        q: 2,
        listens: "/a /a/b /c",
        plan,
        ..FIRST
    };
    assert!(&rt; is_base(&rt, alloc, whole));
}

#[test]
fn each_check_refuses_alone(rt: HostRuntime) {
    let alloc = rt.alloc();
    let cases = [
        Plain {
            done: &[3],
            ..FIRST
        },
        Plain {
            done: &[2, 2],
            ..FIRST
        },
        Plain {
            done: &[2, 1],
            ..FIRST
        },
        Plain { last: 2, ..FIRST },
        Plain { q: 3, ..FIRST },
        Plain { r: 5, ..FIRST },
        Plain {
            batches: 3,
            ..FIRST
        },
        Plain {
            number: (1 << 52) - 1,
            ..FIRST
        },
        Plain {
            listens: "/a /a",
            ..FIRST
        },
        Plain {
            listens: "/b /a",
            ..FIRST
        },
        Plain {
            plan: "2 /a 1",
            ..FIRST
        },
        Plain {
            plan: "1 /a",
            ..FIRST
        },
        Plain {
            plan: "1 /b 1, 1 /a 1",
            ..FIRST
        },
        Plain {
            q: 2,
            plan: "1 /a/b 1, 2 /a 1",
            ..FIRST
        },
        Plain {
            q: 2,
            plan: "1 /a/b, 2 /a 1",
            ..FIRST
        },
    ];
    for plain in cases {
        assert!(&rt; !is_base(&rt, alloc, plain));
    }
}

// A client of a crowd, by its place.
fn one_of(rt: &impl Abort, alloc: Global, place: u64) -> ClientId {
    let text = format!(in alloc; "c{place}").expect(rt, "memory");
    client(rt, alloc, text.as_str())
}

fn stranger(rt: &impl Abort, alloc: Global, place: u64) -> ClientPart {
    ClientPart {
        id: one_of(rt, alloc, place),
        last: stamp(rt, 1),
        rows: Answers::new(alloc),
    }
}

fn opened(rt: &impl Abort, alloc: Global, place: u64) -> SessionPart {
    SessionPart {
        session: SessionId::of(one_of(rt, alloc, place), stamp(rt, 1)),
        q: Count::zero(),
        r: Count::zero(),
        listens: Items::of(Vec::new(alloc)),
        plan: Items::of(Vec::new(alloc)),
    }
}

// Clients at these places, of whom those at the others have a session open.
fn crowd(rt: &impl Abort, alloc: Global, clients: &[u64], open: &[u64]) -> BaseParts {
    let mut known = Vec::new(alloc);
    for place in clients {
        known.push(stranger(rt, alloc, *place)).expect(rt, "memory");
    }
    let mut sessions = Vec::new(alloc);
    for place in open {
        sessions
            .push(opened(rt, alloc, *place))
            .expect(rt, "memory");
    }
    BaseParts {
        batches: count(rt, 2000),
        moment: Moment::at(0),
        number: count(rt, 2000),
        tree: Tree::empty(),
        clients: Items::of(known),
        sessions: Items::of(sessions),
    }
}

// This many numbers from 1001 on, whose texts are in byte order.
fn places(rt: &impl Abort, alloc: Global, count: u64) -> Vec<u64> {
    let mut made = Vec::new(alloc);
    for place in 0..count {
        made.push(place.saturating_add(1001)).expect(rt, "memory");
    }
    made
}

#[test]
fn clients_and_sessions_stand_in_order(rt: HostRuntime) {
    let alloc = rt.alloc();
    let is_base = |clients: &[u64], open: &[u64]| {
        let parts = crowd(&rt, alloc, clients, open);
        Base::from_parts(parts).is_ok()
    };
    assert!(&rt; is_base(&[1, 2], &[1, 2]));
    assert!(&rt; is_base(&[1, 2, 3], &[2]));
    assert!(&rt; !is_base(&[2, 1], &[]));
    assert!(&rt; !is_base(&[1, 1], &[1]));
    assert!(&rt; !is_base(&[1, 2], &[2, 1]));
    assert!(&rt; !is_base(&[1, 2], &[1, 1]));
    assert!(&rt; !is_base(&[1], &[2]));
}

#[test]
fn at_most_1024_sessions_are_open(rt: HostRuntime) {
    let alloc = rt.alloc();
    let most = places(&rt, alloc, 1024);
    let parts = crowd(&rt, alloc, most.as_slice(), most.as_slice());
    assert!(&rt; Base::from_parts(parts).is_ok());
    let more = places(&rt, alloc, 1025);
    let parts = crowd(&rt, alloc, more.as_slice(), more.as_slice());
    assert!(&rt; Base::from_parts(parts).is_err());
}

// Text of this many paths to listen to, or of a draft at each.
fn each_place(rt: &impl Abort, alloc: Global, count: u64, plan: bool) -> String {
    let mut text = String::new(alloc);
    for place in places(rt, alloc, count) {
        let part = if plan {
            format!(in alloc; ", 1 /p{place} 1")
        } else {
            format!(in alloc; " /p{place}")
        };
        text.push_str(part.expect(rt, "memory").as_str())
            .expect(rt, "memory");
    }
    text
}

#[test]
fn a_session_has_at_most_256_places_and_rows(rt: HostRuntime) {
    let alloc = rt.alloc();
    for (count, wanted) in [(256, true), (257, false)] {
        let listens = each_place(&rt, alloc, count, false);
        let listening = Plain {
            listens: listens.as_str(),
            ..FIRST
        };
        assert!(&rt; is_base(&rt, alloc, listening) == wanted);
        let plan = each_place(&rt, alloc, count, true);
        let leaving = Plain {
            plan: plan.as_str(),
            ..FIRST
        };
        assert!(&rt; is_base(&rt, alloc, leaving) == wanted);
    }
}
