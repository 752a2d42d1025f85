//! Bodies of checkpoints: what is printed of a base and read again, and which texts are none. A table
//! is a text of lines, each a body and what it must answer.

use pres_base::{Base, BaseParts, ClientPart, SessionPart};
use pres_base_json::{print_base, read_base};
use pres_ids::{ClientId, Count, Number, SessionId, Stamp};
use pres_plan::{Action, PlanRow};
use pres_retry::Answers;
use pres_tree::{Path, Tree, TreeJson};
use pres_write::{Draft, DraftJson, Items, Kept, Moment, Placement};
use serde_json::Value;
use std::alloc::Global;
use std::process::Abort;

// A client with an open session whose one write was done.
const ONE_WRITE: &str =
    r#"{"clients":[{"id":"alice","last":[1,1],"rows":[[2,"wrote"]]}],"number":2,"sessions":[{"listens":[],"plan":[],"q":1,"r":1,"s":["alice",1,1]}],"tree":{"a":1}}"#;

const EMPTY: &str = r#"{"clients":[],"number":0,"sessions":[],"tree":null}"#;

// One of each part.
const ALL: &str =
    r#"{"clients":[{"id":"alice","last":[1,2],"rows":[[2,"wrote"],[3,{"stale":{"b":"x"}}],[4,{"stale":null}]]},{"id":"bob","last":[7,1],"rows":[]}],"number":9,"sessions":[{"listens":["/","/a/b"],"plan":[[1,"/a",{"b":{".sv":"timestamp"}}],[1,"/a/c"],[2,"/d",null]],"q":2,"r":18,"s":["alice",1,2]}],"tree":{"a":{"b":-5},"c":true}}"#;

// They are read and printed again.
const BODIES: [&str; 3] = [ONE_WRITE, EMPTY, ALL];

// JSON that says the same in another form.
const UNTIDY: &str = r#" {"clients":[],"number":0,"sessions":[],"tree":null}
{"clients": [],"number":0,"sessions":[],"tree":null}
{"clients":[],"number":0,"tree":null,"sessions":[]}
{"number":0,"clients":[],"sessions":[],"tree":null}
{"clients":[],"number":0,"sessions":[],"tree":{}}
{"clients":[],"number":0,"sessions":[],"tree":[]}
{"clients":[],"number":0,"sessions":[],"tree":{"a":null}}
{"clients":[],"number":0,"sessions":[],"tree":{"b":1,"a":1}}
{"clients":[],"number":0,"sessions":[],"tree":"\u0061"}
{"clients":[],"number":0,"sessions":[],"tree":null,"tree":null}
{"clients":[],"more":1,"number":0,"sessions":[],"tree":null}
{"clients":[{"id":"a","last":[1,1],"more":1,"rows":[]}],"number":1,"sessions":[],"tree":null}
{"clients":[{"id":"a","last":[1,1],"rows":[[1,{"more":1,"stale":2}]]}],"number":1,"sessions":[],"tree":null}
{"clients":[{"id":"a","last":[1,1],"rows":[]}],"number":2,"sessions":[{"listens":["a"],"plan":[],"q":1,"r":1,"s":["a",1,1]}],"tree":null}"#;

// Parts that are missing or wrong.
const NO_PARTS: &str = r#"
[]
null
{}
{"number":0,"sessions":[],"tree":null}
{"clients":[],"sessions":[],"tree":null}
{"clients":[],"number":0,"tree":null}
{"clients":[],"number":0,"sessions":[]}
{"clients":{},"number":0,"sessions":[],"tree":null}
{"clients":[1],"number":0,"sessions":[],"tree":null}
{"clients":[],"number":"0","sessions":[],"tree":null}
{"clients":[],"number":-1,"sessions":[],"tree":null}
{"clients":[],"number":0,"sessions":[],"tree":1.5}
{"clients":[{"id":"a!","last":[1,1],"rows":[]}],"number":1,"sessions":[],"tree":null}
{"clients":[{"id":"a","last":[1],"rows":[]}],"number":1,"sessions":[],"tree":null}
{"clients":[{"id":"a","last":[1,0],"rows":[]}],"number":1,"sessions":[],"tree":null}
{"clients":[{"id":"a","last":[1,1]}],"number":1,"sessions":[],"tree":null}
{"clients":[{"id":"a","last":[1,1],"rows":[[1]]}],"number":1,"sessions":[],"tree":null}
{"clients":[{"id":"a","last":[1,1],"rows":[[0,"wrote"]]}],"number":1,"sessions":[],"tree":null}
{"clients":[{"id":"a","last":[1,1],"rows":[[1,"write"]]}],"number":1,"sessions":[],"tree":null}
{"clients":[{"id":"a","last":[1,1],"rows":[[1,{"wrote":[]}]]}],"number":1,"sessions":[],"tree":null}
{"clients":[{"id":"a","last":[1,1],"rows":[[1,"wrote",1]]}],"number":1,"sessions":[],"tree":null}
{"clients":[{"id":"a","last":[1,1],"rows":[]}],"number":2,"sessions":[{"listens":[],"plan":[[1]],"q":1,"r":1,"s":["a",1,1]}],"tree":null}
{"clients":[{"id":"a","last":[1,1],"rows":[]}],"number":2,"sessions":[{"listens":[],"plan":[[1,"/a",1,1]],"q":1,"r":1,"s":["a",1,1]}],"tree":null}
{"clients":[{"id":"a","last":[1,1],"rows":[]}],"number":2,"sessions":[{"listens":[],"plan":[[1,"/a",{".sv":"now"}]],"q":1,"r":1,"s":["a",1,1]}],"tree":null}
{"clients":[{"id":"a","last":[1,1],"rows":[]}],"number":2,"sessions":[{"listens":[],"plan":[],"q":1,"r":1,"s":["a",1]}],"tree":null}
{"clients":[{"id":"a","last":[1,1],"rows":[]}],"number":2,"sessions":[{"listens":[],"plan":[],"q":1,"s":["a",1,1]}],"tree":null}"#;

// Parts that are those of no base: a client twice, in another order, a session of no client, a write
// done after the number, `q` above the number, a kept place without a put above it.
const NO_BASES: &str =
    r#"{"clients":[{"id":"a","last":[1,1],"rows":[]},{"id":"a","last":[1,1],"rows":[]}],"number":1,"sessions":[],"tree":null}
{"clients":[{"id":"b","last":[1,1],"rows":[]},{"id":"a","last":[1,1],"rows":[]}],"number":2,"sessions":[],"tree":null}
{"clients":[],"number":2,"sessions":[{"listens":[],"plan":[],"q":1,"r":1,"s":["a",1,1]}],"tree":null}
{"clients":[{"id":"a","last":[1,1],"rows":[[3,"wrote"]]}],"number":2,"sessions":[],"tree":null}
{"clients":[{"id":"a","last":[1,1],"rows":[]}],"number":2,"sessions":[{"listens":[],"plan":[],"q":3,"r":1,"s":["a",1,1]}],"tree":null}
{"clients":[{"id":"a","last":[1,1],"rows":[]}],"number":2,"sessions":[{"listens":[],"plan":[[1,"/a"]],"q":1,"r":1,"s":["a",1,1]}],"tree":null}"#;

// The base that the text is the body of, beside no batch and this moment.
fn found(rt: &impl Abort, alloc: Global, text: &str) -> Option<Base> {
    read_base(alloc, Count::zero(), Moment::at(5), text).expect(rt, "memory")
}

fn printed(rt: &impl Abort, alloc: Global, base: &Base) -> String {
    print_base(alloc, base).expect(rt, "memory")
}

#[test]
fn bodies_are_read_and_printed(rt: HostRuntime) {
    let alloc = rt.alloc();
    for text in BODIES {
        let base = found(&rt, alloc, text).expect(&rt, "a body");
        assert_eq!(&rt; base.parts().moment.millis(), 5);
        assert_eq!(&rt; printed(&rt, alloc, &base).as_str(), text);
    }
}

#[test]
fn nothing_stands_after_a_body(rt: HostRuntime) {
    let alloc = rt.alloc();
    for text in BODIES {
        for more in [" ", "\n", ",", "}", "null"] {
            let longer = format!(in alloc; "{text}{more}").expect(&rt, "memory");
            assert!(&rt;
                found(&rt, alloc, longer.as_str()).is_none(),
                "{text}{more}"
            );
        }
    }
}

#[test]
fn other_texts_are_no_bodies(rt: HostRuntime) {
    let alloc = rt.alloc();
    for table in [UNTIDY, NO_PARTS, NO_BASES] {
        for text in table.split('\n') {
            assert!(&rt; found(&rt, alloc, text).is_none(), "{text}");
        }
    }
}

#[test]
fn the_count_of_batches_stands_beside_the_body(rt: HostRuntime) {
    let alloc = rt.alloc();
    let with = |batches: u64| {
        let batches = Count::new(batches).expect(&rt, "a count");
        read_base(alloc, batches, Moment::at(0), ONE_WRITE).expect(&rt, "memory")
    };
    let base = with(2).expect(&rt, "a body");
    assert_eq!(&rt; base.parts().batches.get(), 2);
    assert!(&rt; with(3).is_none());
}

fn number(rt: &impl Abort, value: u64) -> Number {
    Number::new(value).expect(rt, "a number")
}

fn path(rt: &impl Abort, alloc: Global, text: &str) -> Path {
    Path::parse(alloc, text).expect(rt, "a path")
}

fn tree(rt: &impl Abort, alloc: Global, text: &str) -> Tree {
    let value = Value::from_str(alloc, text).expect(rt, "JSON");
    let tree = Tree::from_value(alloc, &value);
    drop(value);
    tree.expect(rt, "a value")
}

fn draft(rt: &impl Abort, alloc: Global, text: &str) -> Draft {
    let value = Value::from_str(alloc, text).expect(rt, "JSON");
    let draft = Draft::from_value(alloc, &value);
    drop(value);
    draft.expect(rt, "a value")
}

fn put(rt: &impl Abort, alloc: Global, q: u64, place: &str, text: &str) -> PlanRow {
    let placement = Placement::new(path(rt, alloc, place), draft(rt, alloc, text));
    PlanRow {
        q: number(rt, q),
        action: Action::Put(placement.expect(rt, "a placement")),
    }
}

fn stamp(rt: &impl Abort, incarnation: u64, attempt: u64) -> Stamp {
    Stamp {
        incarnation: number(rt, incarnation),
        attempt: number(rt, attempt),
    }
}

fn client_id(rt: &impl Abort, alloc: Global, text: &str) -> ClientId {
    ClientId::parse(alloc, text).expect(rt, "a client id")
}

fn items<T: Drop, const N: usize>(rt: &impl Abort, alloc: Global, items: [T; N]) -> Items<T> {
    Items::of(Vec::from_array(alloc, items).expect(rt, "memory"))
}

// A write that wrote, and two that were stale.
fn answers(rt: &impl Abort, alloc: Global) -> Answers {
    let mut made = Answers::new(alloc);
    let stale = Kept::Stale(Some(tree(rt, alloc, r#"{"b":"x"}"#)));
    for (done, kept) in [(2, Kept::Wrote), (3, stale), (4, Kept::Stale(None))] {
        let n = made.count().next().expect(rt, "a number");
        made.push(alloc, n, number(rt, done), kept)
            .expect(rt, "memory");
    }
    made
}

fn session(rt: &impl Abort, alloc: Global) -> SessionPart {
    let keep = PlanRow {
        q: number(rt, 1),
        action: Action::Keep(path(rt, alloc, "/a/c")),
    };
    let rows = [
        put(rt, alloc, 1, "/a", r#"{"b":{".sv":"timestamp"}}"#),
        keep,
        put(rt, alloc, 2, "/d", "null"),
    ];
    SessionPart {
        session: SessionId::of(client_id(rt, alloc, "alice"), stamp(rt, 1, 2)),
        q: Count::new(2).expect(rt, "a count"),
        r: Count::new(18).expect(rt, "a count"),
        listens: items(rt, alloc, [path(rt, alloc, "/"), path(rt, alloc, "/a/b")]),
        plan: items(rt, alloc, rows),
    }
}

// The base of `ALL`.
fn whole(rt: &impl Abort, alloc: Global) -> Base {
    let alice = ClientPart {
        id: client_id(rt, alloc, "alice"),
        last: stamp(rt, 1, 2),
        rows: answers(rt, alloc),
    };
    let bob = ClientPart {
        id: client_id(rt, alloc, "bob"),
        last: stamp(rt, 7, 1),
        rows: Answers::new(alloc),
    };
    let parts = BaseParts {
        batches: Count::zero(),
        moment: Moment::at(0),
        number: Count::new(9).expect(rt, "a count"),
        tree: tree(rt, alloc, r#"{"a":{"b":-5},"c":true}"#),
        clients: items(rt, alloc, [alice, bob]),
        sessions: items(rt, alloc, [session(rt, alloc)]),
    };
    match Base::from_parts(parts) {
        Ok(base) => base,
        Err(_) => rt.abort(),
    }
}

#[test]
fn a_base_is_printed(rt: HostRuntime) {
    let alloc = rt.alloc();
    assert_eq!(&rt; printed(&rt, alloc, &whole(&rt, alloc)).as_str(), ALL);
}

// A base of a client whose one write was stale, where its place held null.
fn of_null(rt: &impl Abort, alloc: Global, held: Option<Tree>) -> String {
    let mut rows = Answers::new(alloc);
    rows.push(alloc, Number::first(), Number::first(), Kept::Stale(held))
        .expect(rt, "memory");
    let client = ClientPart {
        id: client_id(rt, alloc, "a"),
        last: stamp(rt, 1, 1),
        rows,
    };
    let parts = BaseParts {
        batches: Count::zero(),
        moment: Moment::at(0),
        number: Count::new(1).expect(rt, "a count"),
        tree: Tree::empty(),
        clients: items(rt, alloc, [client]),
        sessions: Items::of(Vec::new(alloc)),
    };
    let base = Base::from_parts(parts).ok().expect(rt, "a base");
    printed(rt, alloc, &base)
}

#[test]
fn held_null_has_one_form(rt: HostRuntime) {
    let alloc = rt.alloc();
    let text = of_null(&rt, alloc, None);
    assert_eq!(&rt;
        of_null(&rt, alloc, Some(Tree::empty())).as_str(),
        text.as_str()
    );
    assert!(&rt; found(&rt, alloc, text.as_str()).is_some());
}
