//! Plans do what a plain list of their rows does: over stored lists of calls both have the same
//! room and refuse the same, and have the same rows and the same due rows, in the same order.

use crate::tests::list_plan::{ListPlan, parts};
use crate::tests::plan_lists::LISTS;
use crate::tests::texts::{is_later, path_of, placement_of, puts_of, tree_of};
use pres_ids::Number;
use pres_plan::{Plan, PlanFault};
use pres_tree::{Nested, Path, PrintedForm, Scalar, ScalarForm, to_value};
use pres_write::{Basic, Draft, DraftLeaf, DraftLeafForm, Moment};
use std::alloc::Global;
use std::process::Abort;

// A plan, its rows as a plain list, and what each has said.
#[derive(Drop)]
struct Both {
    plan: Plan,
    list: ListPlan,
    said: String,
    wanted: String,
}

fn printed<L, P: PrintedForm<L>>(rt: &impl Abort, alloc: Global, tree: &Nested<L>) -> String {
    let value = to_value::<L, P>(alloc, tree).expect(rt, "memory");
    let text = value.to_string(alloc);
    drop(value);
    text.expect(rt, "memory")
}

// Tells a row by its parts.
fn tell_row(
    rt: &impl Abort,
    alloc: Global,
    said: &mut String,
    row: (Number, &Path, Option<&Draft>),
) {
    let (q, path, draft) = row;
    let text = match draft {
        Some(draft) => printed::<DraftLeaf, DraftLeafForm>(rt, alloc, draft),
        None => String::from_str(alloc, "kept").expect(rt, "memory"),
    };
    let part = format!(in alloc; " {} {path} {text};", q.get()).expect(rt, "memory");
    said.push_str(part.as_str()).expect(rt, "memory");
}

fn tell_rows(rt: &impl Abort, alloc: Global, both: &mut Both) {
    for row in both.plan.rows() {
        tell_row(rt, alloc, &mut both.said, row);
    }
    for row in &both.list.rows {
        tell_row(rt, alloc, &mut both.wanted, parts(row));
    }
}

// Tells a write that is due.
fn tell_due(rt: &impl Abort, alloc: Global, said: &mut String, q: Number, basic: &Basic) {
    let text = match basic.value() {
        Some(value) => printed::<Scalar, ScalarForm>(rt, alloc, value),
        None => String::from_str(alloc, "null").expect(rt, "memory"),
    };
    let part = format!(in alloc; " due {} {} {text};", q.get(), basic.path());
    said.push_str(part.expect(rt, "memory").as_str())
        .expect(rt, "memory");
}

// The session ends with the tree.
fn end(rt: &impl Abort, alloc: Global, both: &mut Both, text: &str) {
    let tree = tree_of(rt, alloc, text);
    let moment = Moment::at(5000);
    let due = both.plan.due(alloc, &tree, moment).expect(rt, "memory");
    let wanted = both.list.due(alloc, &tree, moment).expect(rt, "writes");
    for row in &due {
        tell_due(rt, alloc, &mut both.said, row.q, &row.basic);
    }
    for (q, basic) in &wanted {
        tell_due(rt, alloc, &mut both.wanted, *q, basic);
    }
}

// Tells whether there is room, and why the call is refused, if it is.
fn tell(
    rt: &impl Abort,
    alloc: Global,
    said: &mut String,
    room: bool,
    answer: Result<(), PlanFault>,
) {
    let part = format!(in alloc; " {room} {:?};", answer.err()).expect(rt, "memory");
    said.push_str(part.as_str()).expect(rt, "memory");
}

fn put(rt: &impl Abort, alloc: Global, both: &mut Both, q: Number, text: &str) {
    if !is_later(&both.plan, q) {
        panic!(rt; "an earlier number");
    }
    let puts = puts_of(rt, alloc, text);
    let room = both.plan.may_update(&puts);
    let answer = both.plan.put(alloc, q, placement_of(rt, alloc, text));
    tell(rt, alloc, &mut both.said, room, answer);
    let room = both.list.may_update(puts.as_slice());
    let answer = both.list.update(q, puts);
    tell(rt, alloc, &mut both.wanted, room, answer);
}

fn update(rt: &impl Abort, alloc: Global, both: &mut Both, q: Number, text: &str) {
    if !is_later(&both.plan, q) {
        panic!(rt; "an earlier number");
    }
    let puts = puts_of(rt, alloc, text);
    let room = both.plan.may_update(&puts);
    let answer = both.plan.update(alloc, q, puts);
    tell(rt, alloc, &mut both.said, room, answer);
    let puts = puts_of(rt, alloc, text);
    let room = both.list.may_update(puts.as_slice());
    let answer = both.list.update(q, puts);
    tell(rt, alloc, &mut both.wanted, room, answer);
}

fn cancel(rt: &impl Abort, alloc: Global, both: &mut Both, q: Number, text: &str) {
    if !is_later(&both.plan, q) {
        panic!(rt; "an earlier number");
    }
    let path = path_of(rt, alloc, text);
    let room = both.plan.may_cancel(&path);
    let answer = both.plan.cancel(alloc, q, &path);
    tell(rt, alloc, &mut both.said, room, answer);
    let room = both.list.may_cancel(&path);
    let answer = both.list.cancel(alloc, q, &path);
    tell(rt, alloc, &mut both.wanted, room, answer);
}

// Both do the call.
fn act(rt: &impl Abort, alloc: Global, both: &mut Both, q: u64, call: &str) {
    let q = Number::new(q).expect(rt, "a number");
    match call.split_once(' ') {
        Some(("p", text)) => put(rt, alloc, both, q, text),
        Some(("u", text)) => update(rt, alloc, both, q, text),
        Some(("c", text)) => cancel(rt, alloc, both, q, text),
        Some(("e", text)) => end(rt, alloc, both, text),
        _ => panic!(rt; "no call"),
    }
}

// Both do the call this many times, with each number in its turn: the last one's number.
fn repeat(rt: &impl Abort, alloc: Global, both: &mut Both, q: u64, times: u64, call: &str) -> u64 {
    let (before, behind) = call.split_once('%').expect(rt, "a place for the number");
    for number in 0..times {
        let call = format!(in alloc; "{before}{number}{behind}").expect(rt, "memory");
        act(rt, alloc, both, q.saturating_add(number), call.as_str());
    }
    q.saturating_add(times)
}

// The results of both over the calls.
fn done(rt: &impl Abort, alloc: Global, line: &str) -> Both {
    let mut both = Both {
        plan: Plan::new(alloc),
        list: ListPlan::new(alloc),
        said: String::new(alloc),
        wanted: String::new(alloc),
    };
    let mut q = 1;
    for call in line.split("; ") {
        match call.split_once(' ') {
            Some((times, call)) if times.parse::<u64>().is_ok() => {
                let times = times.parse().expect(rt, "a number");
                q = repeat(rt, alloc, &mut both, q, times, call);
            }
            _ => {
                act(rt, alloc, &mut both, q, call);
                q = q.saturating_add(1);
            }
        }
        tell_rows(rt, alloc, &mut both);
    }
    both
}

#[test]
fn plans_do_what_lists_do(rt: HostRuntime) {
    for line in LISTS.lines() {
        let both = done(&rt, rt.alloc(), line);
        assert_eq!(rt; both.said.as_str(), both.wanted.as_str(), "at {line}");
    }
}
