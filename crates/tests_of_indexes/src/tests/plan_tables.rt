//! Tests of plans: what puts, updates and cancels leave, and what is written at the end. A table is
//! a text of lines, each a case and what it must answer. A case of an end is a tree and actions,
//! numbered from 1; it answers the rows, what is due at the moment 5000, and the tree after it. A
//! case of room is how many puts were left, and one action more; it answers whether there is room,
//! why the action is refused, and how many rows there are then.

use crate::tests::texts::{check_table, is_later, path_of, placement_of, puts_of, tree_of};
use pres_ids::Number;
use pres_plan::{Plan, PlanFault};
use pres_tree::{Tree, TreeJson};
use pres_write::{Basic, Moment, apply};
use std::alloc::Global;
use std::process::Abort;

fn printed(rt: &impl Abort, alloc: Global, tree: &Tree) -> String {
    let value = tree.to_value(alloc).expect(rt, "memory");
    let text = value.to_string(alloc);
    drop(value);
    text.expect(rt, "memory")
}

// Why the action is refused, where it is.
fn refusal(
    rt: &impl Abort,
    alloc: Global,
    plan: &mut Plan,
    q: Number,
    action: &str,
) -> Option<PlanFault> {
    if !is_later(plan, q) {
        panic!(rt; "an earlier number");
    }
    match action.split_once(' ') {
        Some(("put", text)) => plan.put(alloc, q, placement_of(rt, alloc, text)).err(),
        Some(("update", text)) => plan.update(alloc, q, puts_of(rt, alloc, text)).err(),
        Some(("cancel", text)) => plan.cancel(alloc, q, &path_of(rt, alloc, text)).err(),
        _ => panic!(rt; "no action"),
    }
}

// The plan after the action.
fn acted(rt: &impl Abort, alloc: Global, mut plan: Plan, q: u64, action: &str) -> Plan {
    let q = Number::new(q).expect(rt, "a number");
    if let Some(fault) = refusal(rt, alloc, &mut plan, q, action) {
        panic!(rt; "{fault}");
    }
    plan
}

// What the actions leave.
fn left(rt: &impl Abort, alloc: Global, actions: &str) -> Plan {
    let mut plan = Plan::new(alloc);
    for (q, action) in (1..).zip(actions.split("; ")) {
        plan = acted(rt, alloc, plan, q, action);
    }
    plan
}

// The kinds of the rows.
fn kinds(rt: &impl Abort, alloc: Global, plan: &Plan) -> String {
    let mut text = String::new(alloc);
    for (_, _, draft) in plan.rows() {
        let kind = if draft.is_some() { "put " } else { "keep " };
        text.push_str(kind).expect(rt, "memory");
    }
    text
}

fn written(rt: &impl Abort, alloc: Global, write: &Basic) -> String {
    let mut text = write.path().text(alloc).expect(rt, "memory");
    text.push(' ').expect(rt, "memory");
    match write.value() {
        Some(value) => text
            .push_str(printed(rt, alloc, value).as_str())
            .expect(rt, "memory"),
        None => text.push_str("null").expect(rt, "memory"),
    }
    text
}

// What is due, each write after the number of its message.
fn due(rt: &impl Abort, alloc: Global, plan: &Plan, tree: Tree) -> String {
    let rows = plan.due(alloc, &tree, Moment::at(5000));
    drop(tree);
    let mut text = String::new(alloc);
    for row in &rows.expect(rt, "memory") {
        let write = written(rt, alloc, &row.basic);
        let part = format!(in alloc; "; {} {write}", row.q.get()).expect(rt, "memory");
        text.push_str(part.as_str()).expect(rt, "memory");
    }
    text
}

// The tree after the writes.
fn left_by(rt: &impl Abort, alloc: Global, tree: &mut Tree, writes: &[Basic]) -> String {
    apply(alloc, tree, writes).expect(rt, "writes that fit");
    printed(rt, alloc, tree)
}

// The tree after the due writes.
fn after(rt: &impl Abort, alloc: Global, plan: &Plan, mut tree: Tree) -> String {
    let due = plan.due_writes(alloc, &tree, Moment::at(5000));
    let writes = due.expect(rt, "memory");
    let said = left_by(rt, alloc, &mut tree, writes.as_slice());
    drop(tree);
    said
}

// The end of a session with the plan: its rows, what is due, and the tree after it.
fn end(rt: &impl Abort, alloc: Global, plan: &Plan, text: &str) -> String {
    let kinds = kinds(rt, alloc, plan);
    let due = due(rt, alloc, plan, tree_of(rt, alloc, text));
    let after = after(rt, alloc, plan, tree_of(rt, alloc, text));
    format!(in alloc; "{kinds}{due}; {after}").expect(rt, "memory")
}

fn ended(rt: &impl Abort, alloc: Global, case: &str) -> String {
    let (tree, actions) = case.split_once("; ").expect(rt, "actions");
    let plan = left(rt, alloc, actions);
    end(rt, alloc, &plan, tree)
}

// A plan of this many puts.
fn filled(rt: &impl Abort, alloc: Global, rows: u64) -> Plan {
    let mut plan = Plan::new(alloc);
    for q in 1..=rows {
        let action = format!(in alloc; "put /k{q} 1").expect(rt, "memory");
        plan = acted(rt, alloc, plan, q, action.as_str());
    }
    plan
}

// Whether the plan has room for the action.
fn has_room(rt: &impl Abort, alloc: Global, plan: &Plan, action: &str) -> bool {
    match action.split_once(' ') {
        Some(("cancel", text)) => plan.may_cancel(&path_of(rt, alloc, text)),
        Some((_, text)) => plan.may_update(&puts_of(rt, alloc, text)),
        _ => panic!(rt; "no action"),
    }
}

// Why the message 300 is refused, and how many rows there are then.
fn refused(rt: &impl Abort, alloc: Global, mut plan: Plan, action: &str) -> String {
    let q = Number::new(300).expect(rt, "a number");
    let fault = refusal(rt, alloc, &mut plan, q, action);
    format!(in alloc; "{fault:?} {}", plan.rows().count()).expect(rt, "memory")
}

// Whether a plan of this many puts has room for the action, and the action's result.
fn tried(rt: &impl Abort, alloc: Global, case: &str) -> String {
    let (rows, action) = case.split_once(' ').expect(rt, "an action");
    let plan = filled(rt, alloc, rows.parse().expect(rt, "a number"));
    let room = has_room(rt, alloc, &plan, action);
    let after = refused(rt, alloc, plan, action);
    format!(in alloc; "{room} {after}").expect(rt, "memory")
}

const ENDS: &str =
    r#"{"u":{"a":9,"c":3}}; put /u {"a":1,"b":2}; cancel /u/a => put keep ; 1 /u {"a":1,"b":2}; 2 /u/a 9; {"u":{"a":9,"b":2}}
{"a":5}; put /a/b 1; cancel /a/b => ; {"a":5}
{"a":5}; put /a {"b":1,"c":2}; cancel /a/b => put keep ; 1 /a {"b":1,"c":2}; 2 /a/b null; {"a":{"c":2}}
null; put /x {"a":1}; cancel /x/a; put /x 2 => put ; 3 /x 2; {"x":2}
{"t":1}; put /t {".sv":"timestamp"} => put ; 1 /t 5000; {"t":5000}
{"a":1}; put /b 2; put /a null => put put ; 1 /b 2; 2 /a null; {"b":2}
null; put /a/b 1; update /a 2, /b {"c":{".sv":"timestamp"}} => put put ; 2 /a 2; 2 /b {"c":5000}; {"a":2,"b":{"c":5000}}
{"a":{"b":{"c":7}}}; put /a {}; cancel /a/b; cancel /a/b/c => put keep keep ; 1 /a null; 2 /a/b {"c":7}; 3 /a/b/c 7; {"a":{"b":{"c":7}}}
{"a":{"b":7}}; put /a 1; cancel /a/b; cancel / => ; {"a":{"b":7}}"#;

#[test]
fn an_end_pays_what_is_left(rt: HostRuntime) {
    check_table(&rt, ENDS, |case| ended(&rt, rt.alloc(), case));
}

const ROOMS: &str = "255 put /a 1 => true None 256
255 update /a 1, /b 2 => false Some(Full) 255
255 update /a 1, /k1 2 => true None 256
256 put /a 1 => false Some(Full) 256
256 put /k1/a 1 => false Some(Full) 256
256 put /k1 2 => true None 256
256 put / 1 => true None 1
256 cancel /k1/a => false Some(Full) 256
256 cancel /k1 => true None 255";

#[test]
fn a_plan_has_at_most_256_rows(rt: HostRuntime) {
    check_table(&rt, ROOMS, |case| tried(&rt, rt.alloc(), case));
    let numbers = (PlanFault::Memory.number(), PlanFault::Full.number());
    assert_eq!(rt; numbers, (1, 2));
    assert_eq!(rt; PlanFault::Full.name(), "Full");
    let text = PlanFault::Full.to_string(rt.alloc()).expect(&rt, "memory");
    assert_eq!(rt; text.as_str(), "a session leaves more than 256 rows");
}
