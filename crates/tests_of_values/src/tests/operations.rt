//! Tests of operations as JSON texts: what they leave in a tree, and why they are refused. A table
//! is a text of lines, each a case and what it must answer. Each helper holds few values at once.

ghost use Rattle.pres_write.specs.Basics.{Apart};
ghost use Rattle.pres_write.specs.Outcomes.{writes_in};

use crate::tests::said::{check_tables, expect_text, json_text};
use pres_tree::{Path, Scalar, Tree, TreeFault, TreeJson, to_value};
use pres_write::{
    Basic, Draft, DraftJson, DraftLeaf, DraftLeafForm, Items, Kept, Moment, Op, OpJson, Outcome,
    Placement, Puts, Transaction, Unconditional, WriteFault, apply, apply_all, copy_writes,
    read_unconditional, unconditional_value,
};
use serde_json::Value;
use std::alloc::Global;
use std::process::Abort;

fn printed(rt: &impl Abort, alloc: Global, tree: Tree) -> String {
    let value = tree.to_value(alloc);
    drop(tree);
    json_text(rt, alloc, value.expect(rt, "memory"))
}

fn value_of(rt: &impl Abort, alloc: Global, text: &str) -> Value {
    Value::from_str(alloc, text).expect(rt, "JSON")
}

fn tree_of(rt: &impl Abort, alloc: Global, text: &str) -> Tree {
    let value = value_of(rt, alloc, text);
    let tree = Tree::from_value(alloc, &value);
    drop(value);
    tree.expect(rt, "a tree")
}

fn draft_of(rt: &impl Abort, alloc: Global, text: &str) -> Draft {
    let value = value_of(rt, alloc, text);
    let draft = Draft::from_value(alloc, &value);
    drop(value);
    draft.expect(rt, "a value")
}

fn op_of(rt: &impl Abort, alloc: Global, text: &str) -> Op {
    let value = value_of(rt, alloc, text);
    let op = Op::from_value(alloc, &value);
    drop(value);
    op.expect(rt, "an operation")
}

fn fault_of(rt: &impl Abort, alloc: Global, text: &str) -> Option<WriteFault> {
    let value = value_of(rt, alloc, text);
    let op = Op::from_value(alloc, &value);
    drop(value);
    op.err()
}

fn resolved(rt: &impl Abort, alloc: Global, op: &Op) -> Outcome
    ensures { Apart (writes_in result) }
{
    let tree = Tree::empty();
    let outcome = op.resolve(alloc, &tree, Moment::at(5));
    drop(tree);
    outcome.expect(rt, "memory")
}

fn outcome_of(rt: &impl Abort, alloc: Global, op: &Op) -> Outcome
    ensures { Apart (writes_in result) }
{
    let outcome = resolved(rt, alloc, op);
    let copied = outcome.copy(alloc);
    drop(outcome);
    copied.expect(rt, "memory")
}

// What the operation writes on the empty tree at the moment 5.
fn writes_of(rt: &impl Abort, alloc: Global, op: &Op) -> Items<Basic>
    ensures { Apart result }
{
    match outcome_of(rt, alloc, op) {
        Outcome::Wrote(writes) => writes,
        Outcome::Stale(_) => panic!(rt; "stale"),
    }
}

fn left(rt: &impl Abort, alloc: Global, op: &Op) -> String {
    let writes = writes_of(rt, alloc, op);
    let mut tree = Tree::empty();
    apply(alloc, &mut tree, writes.as_slice()).expect(rt, "writes that fit");
    drop(writes);
    printed(rt, alloc, tree)
}

fn left_together(rt: &impl Abort, alloc: Global, op: &Op) -> String {
    let writes = writes_of(rt, alloc, op);
    let mut tree = Tree::empty();
    apply_all(alloc, &mut tree, writes).expect(rt, "writes that fit");
    printed(rt, alloc, tree)
}

// The same of a copy that is resolved by its parts.
fn left_moved(rt: &impl Abort, alloc: Global, op: &Op) -> String {
    let copied = op.copy(alloc).expect(rt, "memory");
    let mut tree = Tree::empty();
    let outcome = copied.resolve_owned(alloc, &tree, Moment::at(5));
    let Outcome::Wrote(writes) = outcome.expect(rt, "memory") else {
        panic!(rt; "stale");
    };
    apply_all(alloc, &mut tree, writes).expect(rt, "writes that fit");
    printed(rt, alloc, tree)
}

// The tree that the operation leaves, which each way to apply its writes has to leave.
fn carried_out(rt: &impl Abort, alloc: Global, op: &Op) -> String {
    let text = left(rt, alloc, op);
    if text != left_together(rt, alloc, op) {
        panic!(rt; "the writes together left another tree");
    }
    if text != left_moved(rt, alloc, op) {
        panic!(rt; "the moved writes left another tree");
    }
    text
}

fn form_of(rt: &impl Abort, alloc: Global, op: Op) -> String {
    let value = op.to_value(alloc);
    drop(op);
    json_text(rt, alloc, value.expect(rt, "memory"))
}

fn copied_form(rt: &impl Abort, alloc: Global, op: Op) -> String {
    let copied = op.copy(alloc);
    drop(op);
    form_of(rt, alloc, copied.expect(rt, "memory"))
}

fn left_by(rt: &impl Abort, alloc: Global, text: &str) -> String {
    let op = op_of(rt, alloc, text);
    let said = carried_out(rt, alloc, &op);
    drop(op);
    said
}

fn again(rt: &impl Abort, alloc: Global, text: &str) -> String {
    let op = op_of(rt, alloc, text);
    copied_form(rt, alloc, op)
}

// The tree that the operation leaves, and the operation as it is printed.
fn left_and_printed(rt: &impl Abort, alloc: Global, text: &str) -> String {
    let left = left_by(rt, alloc, text);
    let printed = again(rt, alloc, text);
    format!(in alloc; "{left} by {printed}").expect(rt, "memory")
}

fn refused(rt: &impl Abort, alloc: Global, text: &str) -> String {
    let fault = fault_of(rt, alloc, text).expect(rt, "a refusal");
    format!(in alloc; "{} {}", fault.number(), fault.name()).expect(rt, "memory")
}

// The number of the operation's refusal, or 0.
fn number_of(rt: &impl Abort, alloc: Global, text: &str) -> u8 {
    match fault_of(rt, alloc, text) {
        Some(fault) => fault.number(),
        None => 0,
    }
}

fn number_text(rt: &impl Abort, alloc: Global, text: &str) -> String {
    number_of(rt, alloc, text)
        .to_string(alloc)
        .expect(rt, "memory")
}

// A path of this many keys.
fn path_of(rt: &impl Abort, alloc: Global, keys: usize) -> String {
    let mut text = String::new(alloc);
    for _ in 0..keys {
        text.push_str("/k").expect(rt, "memory");
    }
    text
}

// The set of a value below this many keys.
fn set_below(rt: &impl Abort, alloc: Global, case: &str) -> String {
    let (keys, value) = case.split_once(' ').expect(rt, "a value");
    let path = path_of(rt, alloc, keys.parse().expect(rt, "a number"));
    format!(in alloc; r#"{{"op":"set","path":"{path}","value":{value}}}"#).expect(rt, "memory")
}

// An update of this many places.
fn update_of(rt: &impl Abort, alloc: Global, case: &str) -> String {
    let places: usize = case.parse().expect(rt, "a number");
    let text = String::from_str(alloc, r#"{"op":"update","path":"/","values":{"p":1"#);
    let mut text = text.expect(rt, "memory");
    for place in 1..places {
        let part = format!(in alloc; ",\"p{place}\":1").expect(rt, "memory");
        text.push_str(part.as_str()).expect(rt, "memory");
    }
    text.push_str("}}").expect(rt, "memory");
    text
}

// An update of one place by its name and value, below 31 keys.
fn update_below(rt: &impl Abort, alloc: Global, case: &str) -> String {
    let (name, value) = case.split_once(' ').expect(rt, "a value");
    let path = path_of(rt, alloc, 31);
    let text = format!(in alloc;
        r#"{{"op":"update","path":"{path}","values":{{"{name}":{value}}}}}"#
    );
    text.expect(rt, "memory")
}

fn compare(rt: &impl Abort, alloc: Global, expect: &str) -> Op {
    let text = format!(in alloc; r#"{{"expect":{expect},"op":"tx","path":"/n","value":1}}"#);
    let text = text.expect(rt, "memory");
    op_of(rt, alloc, text.as_str())
}

// The result of the comparison on a tree.
fn compared(rt: &impl Abort, alloc: Global, expect: &str) -> Outcome {
    let tree = tree_of(rt, alloc, r#"{"n":{"0":1,"2":{"a":"x"}}}"#);
    let op = compare(rt, alloc, expect);
    let outcome = op.resolve_owned(alloc, &tree, Moment::at(5));
    drop(tree);
    outcome.expect(rt, "memory")
}

fn kept_of(rt: &impl Abort, alloc: Global, expect: &str) -> Kept {
    let outcome = compared(rt, alloc, expect);
    let kept = outcome.kept(alloc);
    drop(outcome);
    kept.expect(rt, "memory")
}

fn copied_kept(rt: &impl Abort, alloc: Global, expect: &str) -> Kept {
    let kept = kept_of(rt, alloc, expect);
    let copied = kept.copy(alloc);
    drop(kept);
    copied.expect(rt, "memory")
}

// The value held where a transaction is stale, or none.
fn held(rt: &impl Abort, alloc: Global, expect: &str) -> String {
    match copied_kept(rt, alloc, expect) {
        Kept::Stale(Some(held)) => printed(rt, alloc, held),
        Kept::Stale(None) => panic!(rt; "null"),
        Kept::Wrote => String::from_str(alloc, "none").expect(rt, "memory"),
    }
}

fn basic_of(rt: &impl Abort, alloc: Global, path: &str, value: &str) -> Result<Basic, TreeFault> {
    let path = Path::parse(alloc, path).expect(rt, "a path");
    let tree = tree_of(rt, alloc, value);
    Basic::new(path, Some(tree))
}

fn write_text(rt: &impl Abort, alloc: Global, write: &Basic) -> String {
    let mut text = write.path().text(alloc).expect(rt, "memory");
    text.push(' ').expect(rt, "memory");
    match write.value() {
        Some(value) => text
            .push_str(printed(rt, alloc, value.copy(alloc).expect(rt, "memory")).as_str())
            .expect(rt, "memory"),
        None => text.push_str("none").expect(rt, "memory"),
    }
    text
}

// Copies of the write alone.
fn copies_of(rt: &impl Abort, alloc: Global, write: Basic) -> Items<Basic> {
    let one = Items::one(alloc, write).expect(rt, "memory");
    let copies = copy_writes(alloc, one.as_slice());
    drop(one);
    copies.expect(rt, "memory")
}

// The first of copies of the write alone.
fn copied_write(rt: &impl Abort, alloc: Global, write: Basic) -> String {
    let copies = copies_of(rt, alloc, write);
    write_text(rt, alloc, copies.as_slice().first().expect(rt, "a write"))
}

// The write of a value at a path, or the name of its refusal.
fn write_of(rt: &impl Abort, alloc: Global, case: &str) -> String {
    let (path, value) = case.split_once(' ').expect(rt, "a value");
    match basic_of(rt, alloc, path, value) {
        Ok(write) => copied_write(rt, alloc, write),
        Err(fault) => String::from_str(alloc, fault.name()).expect(rt, "memory"),
    }
}

fn placed(rt: &impl Abort, alloc: Global, path: &str, value: &str) -> Op {
    let path = Path::parse(alloc, path).expect(rt, "a path");
    let draft = draft_of(rt, alloc, value);
    Op::Set(Placement::new(path, draft).expect(rt, "a placement"))
}

fn expecting(rt: &impl Abort, alloc: Global, path: &str, value: &str) -> Op {
    let path = Path::parse(alloc, path).expect(rt, "a path");
    let draft = draft_of(rt, alloc, value);
    let expect = Tree::scalar(Scalar::Int(1));
    Op::Tx(Transaction::new(path, expect, draft).expect(rt, "a transaction"))
}

// The set of a value at a path, as it is printed.
fn set_form(rt: &impl Abort, alloc: Global, case: &str) -> String {
    let (path, value) = case.split_once(' ').expect(rt, "a value");
    let op = placed(rt, alloc, path, value);
    form_of(rt, alloc, op)
}

// The transaction that expects 1 at a path, as it is printed.
fn tx_form(rt: &impl Abort, alloc: Global, case: &str) -> String {
    let (path, value) = case.split_once(' ').expect(rt, "a value");
    let op = expecting(rt, alloc, path, value);
    form_of(rt, alloc, op)
}

fn unconditional_of(rt: &impl Abort, alloc: Global, text: &str) -> Option<Unconditional> {
    let value = value_of(rt, alloc, text);
    let op = read_unconditional(alloc, &value);
    drop(value);
    op.expect(rt, "an operation")
}

// The same, printed and read again.
fn read_again(rt: &impl Abort, alloc: Global, op: Unconditional) -> Unconditional {
    let value = unconditional_value(alloc, &op);
    drop(op);
    let value = value.expect(rt, "memory");
    let again = read_unconditional(alloc, &value);
    drop(value);
    again.expect(rt, "an operation").expect(rt, "a transaction")
}

fn copied_unconditional(rt: &impl Abort, alloc: Global, op: Unconditional) -> Unconditional {
    let again = read_again(rt, alloc, op);
    let copied = again.copy(alloc);
    drop(again);
    copied.expect(rt, "memory")
}

fn copied_puts(rt: &impl Abort, alloc: Global, puts: Puts) -> Puts {
    let copied = puts.copy(alloc);
    drop(puts);
    copied.expect(rt, "memory")
}

fn puts_of(rt: &impl Abort, alloc: Global, op: Unconditional) -> Puts {
    let op = copied_unconditional(rt, alloc, op);
    let puts = op.puts(alloc);
    drop(op);
    copied_puts(rt, alloc, puts.expect(rt, "memory"))
}

fn put_text(rt: &impl Abort, alloc: Global, put: &Placement) -> String {
    let path = put.path().text(alloc).expect(rt, "memory");
    let value = to_value::<DraftLeaf, DraftLeafForm>(alloc, put.draft()).expect(rt, "memory");
    format!(in alloc; " {path} {value}").expect(rt, "memory")
}

fn puts_text(rt: &impl Abort, alloc: Global, op: Unconditional) -> String {
    let puts = puts_of(rt, alloc, op).into_items();
    let mut said = String::from_str(alloc, "puts").expect(rt, "memory");
    for put in puts.as_slice() {
        said.push_str(put_text(rt, alloc, put).as_str())
            .expect(rt, "memory");
    }
    said
}

// What the operation puts where, which is left for a disconnection.
fn put_by(rt: &impl Abort, alloc: Global, text: &str) -> String {
    match unconditional_of(rt, alloc, text) {
        Some(op) => puts_text(rt, alloc, op),
        None => String::from_str(alloc, "transaction").expect(rt, "memory"),
    }
}

// What a case answers in a table with this heading.
fn answer(rt: &impl Abort, alloc: Global, heading: &str, case: &str) -> String {
    match heading {
        "trees" => left_and_printed(rt, alloc, case),
        "refusals" => refused(rt, alloc, case),
        "depths" => number_text(rt, alloc, set_below(rt, alloc, case).as_str()),
        "places" => number_text(rt, alloc, update_of(rt, alloc, case).as_str()),
        "names" => number_text(rt, alloc, update_below(rt, alloc, case).as_str()),
        "expected values" => held(rt, alloc, case),
        "writes" => write_of(rt, alloc, case),
        "sets" => set_form(rt, alloc, case),
        "transactions" => tx_form(rt, alloc, case),
        "puts" => put_by(rt, alloc, case),
        _ => panic!(rt; "no heading"),
    }
}

const REFUSED: &str = r#"refusals:
{"op":"remove"} => 11 Shape
{"op":"set","path":"/a"} => 11 Shape
{"op":"update","path":"/a","value":{}} => 11 Shape
{"op":"update","path":"/a","values":[]} => 11 Shape
{"op":"tx","path":"/a","value":1} => 11 Shape
{"op":"tx","path":"/a","expect":1} => 11 Shape
{"op":"update","path":"/","values":{"a/b":1,"a":2}} => 9 Overlap
{"op":"update","path":"/","values":{"/a":1,"a":2}} => 9 Overlap
{"op":"update","path":"/","values":{"":1,"a":null}} => 9 Overlap
{"op":"update","path":"/","values":{"/a":1,"a":2,"b":{"$":1}}} => 4 BadKey
{"expect":{".sv":"timestamp"},"op":"tx","path":"/","value":1.0} => 8 Placeholder
{"expect":1.0,"op":"tx","path":"/","value":{".sv":"now"}} => 6 NotWhole
[] => 11 Shape
{"op":"set","path":"/a.b","value":1.0} => 4 BadKey
{"op":"set","path":"/a","value":{"":1}} => 2 EmptyKey
{"op":"set","path":"/a","value":{".sv":"timestamp","x":1}} => 8 Placeholder
{"op":"set","path":"/a","value":{".sv":"time"}} => 8 Placeholder
{"op":"set","path":"/a","value":{".sv":null}} => 8 Placeholder
{"op":"set","path":"/a","value":{".sv":1}} => 8 Placeholder
{"op":"set","path":"/a","value":{".sv":{}}} => 8 Placeholder
{"op":"set","path":"/a","value":{".sv":{"increment":"x"}}} => 8 Placeholder
{"op":"set","path":"/a","value":{".sv":{"increment":null}}} => 8 Placeholder
{"op":"set","path":"/a","value":{".sv":{"increment":{".sv":"timestamp"}}}} => 8 Placeholder
{"op":"set","path":"/a","value":{".sv":{"increment":1.5,"x":1}}} => 8 Placeholder
{"op":"set","path":"/a","value":{".sv":{"increment":1.5},"x":1}} => 8 Placeholder
{"op":"set","path":"/a","value":{".sv":{"decrement":1}}} => 8 Placeholder
{"op":"set","path":"/a","value":{".sv":{"increment":1.5}}} => 6 NotWhole
{"op":"set","path":"/a","value":{".sv":{"increment":-0}}} => 6 NotWhole
{"op":"set","path":"/a","value":{".sv":{"increment":9223372036854775808}}} => 7 Range
{"expect":{".sv":{"increment":1}},"op":"tx","path":"/","value":1.0} => 8 Placeholder
{"op":"set","path":"/a","value":9223372036854775808} => 7 Range
{"op":"set","path":"/a","value":18446744073709551616} => 6 NotWhole
{"op":"set","path":"/a","value":1.0} => 6 NotWhole
{"op":"set","path":"/a","value":1e2} => 6 NotWhole"#;

const DEPTHS: &str = r#"depths:
31 {"x":1} => 0
31 {"x":{"y":1}} => 5
31 {"x":{"y":{".sv":"timestamp"}}} => 5
31 {"x":{"y":{".sv":{"increment":1.5}}}} => 5
31 {"x":{".sv":{"increment":1}}} => 0
32 1 => 0
33 1 => 5
33 null => 5"#;

const NAMES: &str = r#"names:
x 1 => 0
x {"y":1} => 5
x/y null => 5"#;

const COMPARES: &str = r#"expected values:
[1,null,{"a":"x"}] => none
{"2":{"a":"x","b":{}},"0":1} => none
null => {"0":1,"2":{"a":"x"}}
[1,null,{"a":"y"}] => {"0":1,"2":{"a":"x"}}"#;

const TREES: &str = r#"trees:
{"op":"set","path":"/v","value":[1,null,2]} => {"v":{"0":1,"2":2}} by {"op":"set","path":"/v","value":{"0":1,"2":2}}
{"op":"set","path":"/t","value":{".sv":"timestamp"}} => {"t":5} by {"op":"set","path":"/t","value":{".sv":"timestamp"}}
{"op":"set","path":"/t","value":{".sv":{"increment":-2}}} => {"t":-2} by {"op":"set","path":"/t","value":{".sv":{"increment":-2}}}
{"op":"set","path":"/t","value":[{".sv":{"increment":1}},{".sv":"timestamp"}]} => {"t":{"0":1,"1":5}} by {"op":"set","path":"/t","value":{"0":{".sv":{"increment":1}},"1":{".sv":"timestamp"}}}
{"op":"set","path":"a//b/","value":{"c":[],"d":true}} => {"a":{"b":{"d":true}}} by {"op":"set","path":"/a/b","value":{"d":true}}
{"op":"set","path":"/","value":9223372036854775807} => 9223372036854775807 by {"op":"set","path":"/","value":9223372036854775807}
{"op":"set","path":"/a","value":null} => null by {"op":"set","path":"/a","value":null}
{"op":"remove","path":"/a","value":1} => null by {"op":"set","path":"/a","value":null}
{"op":"update","path":"/","values":{"a/b":1,"a/c":null}} => {"a":{"b":1}} by {"op":"update","path":"/","values":{"a/b":1,"a/c":null}}
{"op":"update","path":"/p","values":{"/a-b":1,"a/b/":{".sv":"timestamp"}}} => {"p":{"a":{"b":5},"a-b":1}} by {"op":"update","path":"/p","values":{"a-b":1,"a/b":{".sv":"timestamp"}}}
{"op":"update","path":"/p","values":{"//":1}} => {"p":1} by {"op":"update","path":"/p","values":{"":1}}
{"op":"update","path":"/","values":{}} => null by {"op":"update","path":"/","values":{}}
{"expect":[null,{}],"op":"tx","path":"/n","value":{"a":2}} => {"n":{"a":2}} by {"expect":null,"op":"tx","path":"/n","value":{"a":2}}"#;

const WRITES: &str = r#"writes:
/a/b {"c":[1]} => /a/b {"c":{"0":1}}
/a {"b":{}} => /a none
/k/k/k/k/k/k/k/k/k/k/k/k/k/k/k/k/k/k/k/k/k/k/k/k/k/k/k/k/k/k/k/k {"x":1} => TooDeep"#;

const SETS: &str = r#"sets:
/a {".sv":"timestamp"} => {"op":"set","path":"/a","value":{".sv":"timestamp"}}"#;

const TXS: &str = r#"transactions:
/a 2 => {"expect":1,"op":"tx","path":"/a","value":2}"#;

const PUTS: &str = r#"puts:
{"op":"set","path":"/a","value":{"b":1}} => puts /a {"b":1}
{"op":"remove","path":"/a"} => puts /a null
{"op":"update","path":"/u","values":{"z":2,"a/b":1}} => puts /u/a/b 1 /u/z 2
{"op":"set","path":"/t","value":{".sv":"timestamp"}} => puts /t {".sv":"timestamp"}
{"op":"set","path":"/t","value":{".sv":{"increment":2}}} => puts /t {".sv":{"increment":2}}
{"op":"update","path":"/","values":{}} => puts
{"expect":0,"op":"tx","path":"/n","value":1} => transaction
{"op":"tx","path":"/a.b"} => transaction"#;

const PLACES: &str = "places:
256 => 0
257 => 10";

#[test]
fn moments_are_compared_and_printed(rt: HostRuntime) {
    let early = Moment::at(5);
    let late = early.max(Moment::at(7));
    assert!(rt; early < late);
    assert_eq!(rt; late.millis(), 7);
    let said = format!(in rt.alloc(); "{early} {}", Moment::at(u64::MAX));
    expect_text(&rt, said.expect(&rt, "memory"), "5 9007199254740991");
}

#[test]
fn cases_have_their_answers(rt: HostRuntime) {
    let tables = [
        TREES, REFUSED, DEPTHS, PLACES, NAMES, COMPARES, WRITES, SETS, TXS, PUTS,
    ];
    check_tables(
        &rt,
        &tables,
        |heading, case| answer(&rt, rt.alloc(), heading, case),
    );
}
