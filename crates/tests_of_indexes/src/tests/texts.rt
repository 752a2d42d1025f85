//! What the texts of calls and of tables name, and tables of cases.

ghost use Rattle.std.specs.Prelude.{◌<◌, All, IsTrue};

use pres_ids::{ClientId, Number, SessionId, Stamp};
use pres_plan::Plan;
use pres_tree::{Path, Tree, TreeJson};
use pres_write::{Basic, Draft, DraftJson, Placement, Puts};
use serde_json::Value;
use std::alloc::Global;
use std::process::Abort;

/// Each line of the table is a case and, after ` => `, its answer.
pub(crate) fn check_table<F: Fn(&str) -> String>(rt: &impl Abort, table: &str, answer: F)
    requires { F.IsAlwaysCallable answer }
{
    for line in table.lines() {
        let (case, wanted) = line.split_once(" => ").expect(rt, "an answer");
        let said = answer(case);
        assert_eq!(rt; said.as_str(), wanted, "at {case}");
    }
}

fn value_of(rt: &impl Abort, alloc: Global, text: &str) -> Value {
    Value::from_str(alloc, text).expect(rt, "JSON")
}

pub(crate) fn tree_of(rt: &impl Abort, alloc: Global, text: &str) -> Tree {
    let value = value_of(rt, alloc, text);
    let tree = Tree::from_value(alloc, &value);
    drop(value);
    tree.expect(rt, "a tree")
}

fn draft_of(rt: &impl Abort, alloc: Global, text: &str) -> Draft {
    let value = value_of(rt, alloc, text);
    let draft = Draft::from_value(alloc, &value);
    drop(value);
    draft.expect(rt, "a value")
}

pub(crate) fn path_of(rt: &impl Abort, alloc: Global, text: &str) -> Path {
    Path::parse(alloc, text).expect(rt, "a path")
}

/// A path and a value after it.
pub(crate) fn placement_of(rt: &impl Abort, alloc: Global, text: &str) -> Placement {
    let (path, value) = text.split_once(' ').expect(rt, "a value");
    let draft = draft_of(rt, alloc, value);
    Placement::new(path_of(rt, alloc, path), draft).expect(rt, "a placement")
}

/// The puts of paths, each with a value after it.
pub(crate) fn puts_of(rt: &impl Abort, alloc: Global, text: &str) -> Puts {
    let mut places = Vec::new(alloc);
    for part in text.split(", ") {
        places
            .push(placement_of(rt, alloc, part))
            .expect(rt, "memory");
    }
    Puts::new(places).expect(rt, "places in path order, and apart")
}

/// Whether the number is later than that of each row.
pub(crate) fn is_later(plan: &Plan, q: Number) -> bool
    ensures { IsTrue result → All (λ row. row.q < q) plan.now }
{
    for (number, _, _) in plan.rows() {
        if number >= q {
            return false;
        }
    }
    true
}

fn number(rt: &impl Abort, text: &str) -> Number {
    Number::new(text.parse().expect(rt, "a number")).expect(rt, "a number")
}

/// The session of a text as `alice/1.2`.
pub(crate) fn session_of(rt: &impl Abort, alloc: Global, text: &str) -> SessionId {
    let (client, stamp) = text.split_once('/').expect(rt, "a stamp");
    let (incarnation, attempt) = stamp.split_once('.').expect(rt, "an attempt");
    let stamp = Stamp {
        incarnation: number(rt, incarnation),
        attempt: number(rt, attempt),
    };
    SessionId::of(
        ClientId::parse(alloc, client).expect(rt, "a client's name"),
        stamp,
    )
}

/// The session of a text, and the path after it.
pub(crate) fn listener_of(rt: &impl Abort, alloc: Global, text: &str) -> (SessionId, Path) {
    let (session, path) = text.split_once(' ').expect(rt, "a path");
    (session_of(rt, alloc, session), path_of(rt, alloc, path))
}

/// Writes that remove at these paths.
pub(crate) fn writes_at(rt: &impl Abort, alloc: Global, paths: &str) -> Vec<Basic> {
    let mut writes = Vec::new(alloc);
    for path in paths.split(' ') {
        let write = Basic::new(path_of(rt, alloc, path), None).expect(rt, "a write");
        writes.push(write).expect(rt, "memory");
    }
    writes
}
