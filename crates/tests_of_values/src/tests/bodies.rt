//! Tests of saved bodies: what is read and printed again, and which texts are none. A table is a
//! text of lines, each a case and what it must answer.

use crate::tests::said::{check_tables, expect_text};
use pres_batch_json::{print_entries, read_entries};
use pres_log::Entry;
use pres_write::Items;
use std::alloc::Global;
use std::process::Abort;

// The text of the entries.
fn printed(rt: &impl Abort, alloc: Global, entries: Items<Entry>) -> String {
    let text = print_entries(alloc, entries.as_slice());
    drop(entries);
    text.expect(rt, "memory")
}

// The text that the entries of a text are printed as, `same` where it is the text, or `none`.
fn body_answer(rt: &impl Abort, alloc: Global, text: &str) -> String {
    let Some(entries) = read_entries(alloc, text).expect(rt, "memory") else {
        return String::from_str(alloc, "none").expect(rt, "memory");
    };
    let again = printed(rt, alloc, entries);
    if again.as_str() == text {
        return String::from_str(alloc, "same").expect(rt, "memory");
    }
    again
}

const SAVED: &str = r#"saved:
[{"e":"open","s":["alice",1,1]}] => same
[{"e":"op","n":1,"op":{"op":"set","path":"/a","value":1},"out":{"wrote":[["/a",1]]},"q":1,"s":["alice",1,1]}] => same
[{"e":"op","n":2,"op":{"op":"update","path":"/","values":{"a":null,"b":{".sv":"timestamp"}}},"out":{"wrote":[["/a",null],["/b",5]]},"q":2,"s":["alice",1,1]}] => same
[{"e":"op","n":3,"op":{"expect":0,"op":"tx","path":"/n","value":1},"out":{"stale":null},"q":3,"s":["alice",1,1]}] => same
[{"e":"op","n":3,"op":{"expect":0,"op":"tx","path":"/n","value":1},"out":{"stale":{"b":2}},"q":3,"s":["alice",1,1]}] => same
[{"e":"again","n":1,"q":2,"s":["bob",2,3]}] => same
[{"e":"left","q":1,"rows":[["/last",{".sv":"timestamp"}],["/online",null]],"s":["alice",1,1]}] => same
[{"e":"left","q":1,"rows":[["/count",{".sv":{"increment":-1}}]],"s":["alice",1,1]}] => same
[{"e":"left","q":1,"rows":[],"s":["alice",1,1]}] => same
[{"e":"cancelled","path":"/a/b","q":2,"s":["alice",1,1]}] => same
[{"e":"denied","q":2,"s":["alice",1,1],"why":1}] => same
[{"e":"denied","q":2,"s":["alice",1,1],"why":2}] => same
[{"e":"on","path":"/a","q":1,"s":["bob",1,1]}] => same
[{"e":"off","path":"/","q":9007199254740991,"s":["bob",1,1]}] => same
[{"e":"ended","q":4,"rows":[["/b",null],["/a",{"c":true}],["/b","x"]],"s":["alice",1,1],"why":"bye"}] => same
[{"e":"ended","q":null,"rows":[],"s":["alice",1,1],"why":"lost"}] => same
[{"e":"ended","q":null,"rows":[],"s":["alice",1,1],"why":"lease"}] => same
[{"e":"ended","q":null,"rows":[],"s":["alice",1,1],"why":"slow"}] => same
[{"e":"ended","q":null,"rows":[],"s":["alice",1,1],"why":"restart"}] => same
[{"e":"ended","q":null,"rows":[],"s":["alice",1,1],"why":"superseded"},{"e":"open","s":["alice",1,2]}] => same"#;

// Spaces, other names and orders, paths and values in other forms.
const UNTIDY: &str = r#"untidy:
 [ {"s":["a",1,1],"more":{"e":"off"},"e":"on","path":"a//b/","q":2} ] => [{"e":"on","path":"/a/b","q":2,"s":["a",1,1]}]
[{"e":"ended","q":null,"rows":[["a",[null,{}]]],"s":["a",1,1],"why":"lost"}] => [{"e":"ended","q":null,"rows":[["/a",null]],"s":["a",1,1],"why":"lost"}]
[{"e":"op","n":1,"op":{"op":"remove","path":"a"},"out":{"stale":1,"wrote":[]},"q":1,"s":["a",1,1]}] => [{"e":"op","n":1,"op":{"op":"set","path":"/a","value":null},"out":{"wrote":[]},"q":1,"s":["a",1,1]}]
[{"e":"op","n":1,"op":{"op":"remove","path":"a"},"out":{"stale":[null]},"q":1,"s":["a",1,1]}] => [{"e":"op","n":1,"op":{"op":"set","path":"/a","value":null},"out":{"stale":null},"q":1,"s":["a",1,1]}]"#;

// No lists of one entry, or of an end and an opening.
const NO_BATCHES: &str = r#"no batches:
[ => none
 => none
null => none
{} => none
{"e":"open","s":["a",1,1]} => none
[] => none
[1] => none
[{}] => none
[{"s":["a",1,1]}] => none
[{"e":1,"s":["a",1,1]}] => none
[{"e":"opened","s":["a",1,1]}] => none
[{"e":"open","s":["a",1,1]},{"e":"open","s":["a",1,2]}] => none
[{"e":"open","s":["a",1,2]},{"e":"ended","q":null,"rows":[],"s":["a",1,1],"why":"lost"}] => none
[{"e":"ended","q":null,"rows":[],"s":["a",1,1],"why":"lost"},{"e":"on","path":"/","q":1,"s":["a",1,2]}] => none
[{"e":"ended","q":null,"rows":[],"s":["a",1,1],"why":"lost"},{"e":"open","s":["a",1,2]},{"e":"open","s":["a",1,3]}] => none
[{"e":"open","s":["a",1,1]},null] => none"#;

// Fields that are missing or wrong.
const NO_ENTRIES: &str = r#"no entries:
[{"e":"open"}] => none
[{"e":"open","s":["a!",1,1]}] => none
[{"e":"open","s":["a",0,1]}] => none
[{"e":"again","n":1,"q":0,"s":["a",1,1]}] => none
[{"e":"again","n":9007199254740992,"q":1,"s":["a",1,1]}] => none
[{"e":"again","n":1,"s":["a",1,1]}] => none
[{"e":"again","q":1,"s":["a",1,1]}] => none
[{"e":"on","path":1,"q":1,"s":["a",1,1]}] => none
[{"e":"off","path":"/a.b","q":1,"s":["a",1,1]}] => none
[{"e":"cancelled","q":1,"s":["a",1,1]}] => none
[{"e":"denied","q":1,"s":["a",1,1],"why":3}] => none
[{"e":"denied","q":1,"s":["a",1,1],"why":"plan"}] => none
[{"e":"ended","rows":[],"s":["a",1,1],"why":"lost"}] => none
[{"e":"ended","q":0,"rows":[],"s":["a",1,1],"why":"bye"}] => none
[{"e":"ended","q":null,"rows":[],"s":["a",1,1],"why":"gone"}] => none
[{"e":"ended","q":null,"s":["a",1,1],"why":"lost"}] => none
[{"e":"ended","q":null,"rows":{},"s":["a",1,1],"why":"lost"}] => none
[{"e":"ended","q":null,"rows":[["/a"]],"s":["a",1,1],"why":"lost"}] => none
[{"e":"ended","q":null,"rows":[["/a",1,2]],"s":["a",1,1],"why":"lost"}] => none
[{"e":"ended","q":null,"rows":[["/a",1.5]],"s":["a",1,1],"why":"lost"}] => none
[{"e":"ended","q":null,"rows":[["/a",{".sv":"timestamp"}]],"s":["a",1,1],"why":"lost"}] => none
[{"e":"ended","q":null,"rows":[["/a",{".sv":{"increment":1}}]],"s":["a",1,1],"why":"lost"}] => none
[{"e":"op","n":1,"op":null,"out":{"wrote":[]},"q":1,"s":["a",1,1]}] => none
[{"e":"op","n":1,"op":{"op":"remove","path":"a"},"q":1,"s":["a",1,1]}] => none
[{"e":"op","n":1,"op":{"op":"remove","path":"a"},"out":"wrote","q":1,"s":["a",1,1]}] => none
[{"e":"op","n":1,"op":{"op":"remove","path":"a"},"out":{},"q":1,"s":["a",1,1]}] => none
[{"e":"op","n":1,"op":{"op":"remove","path":"a"},"out":{"stale":1,"wrote":null},"q":1,"s":["a",1,1]}] => none"#;

// Rows of a Left that aren't puts.
const NO_PUTS: &str = r#"no puts:
[{"e":"left","q":1,"rows":[["/b",1],["/a",2]],"s":["a",1,1]}] => none
[{"e":"left","q":1,"rows":[["/a",1],["/a",2]],"s":["a",1,1]}] => none
[{"e":"left","q":1,"rows":[["/a",1],["/a/b",2]],"s":["a",1,1]}] => none
[{"e":"left","q":1,"rows":[["/a/b",1],["/a/c",2],["/b",3]],"s":["a",1,1]}] => same
[{"e":"left","q":1,"rows":[["/a",{".sv":"now"}]],"s":["a",1,1]}] => none
[{"e":"left","q":1,"rows":[["/a",{".sv":{"increment":1.5}}]],"s":["a",1,1]}] => none"#;

#[test]
fn bodies_are_read_and_printed(rt: HostRuntime) {
    let tables = [SAVED, UNTIDY, NO_BATCHES, NO_ENTRIES, NO_PUTS];
    check_tables(&rt, &tables, |_, case| body_answer(&rt, rt.alloc(), case));
}

// An end with a write of the value at a path of this many keys.
fn deep_text(rt: &impl Abort, alloc: Global, keys: usize, value: &str) -> String {
    let mut path = String::new(alloc);
    for _ in 0..keys {
        path.push_str("/a").expect(rt, "memory");
    }
    format!(in alloc;
        r#"[{{"e":"ended","q":null,"rows":[["{path}",{value}]],"s":["a",1,1],"why":"lost"}}]"#
    ).expect(rt, "memory")
}

fn deep_answer(rt: &impl Abort, alloc: Global, keys: usize, value: &str) -> String {
    let text = deep_text(rt, alloc, keys, value);
    body_answer(rt, alloc, text.as_str())
}

#[test]
fn writes_reach_32_keys(rt: HostRuntime) {
    expect_text(&rt, deep_answer(&rt, rt.alloc(), 32, "1"), "same");
    expect_text(&rt, deep_answer(&rt, rt.alloc(), 31, r#"{"b":1}"#), "same");
    expect_text(&rt, deep_answer(&rt, rt.alloc(), 32, r#"{"b":1}"#), "none");
    expect_text(&rt, deep_answer(&rt, rt.alloc(), 33, "null"), "none");
}

// A Left with a row for each number from 1000 to before the end, at paths that rise.
fn wide_text(rt: &impl Abort, alloc: Global, end: usize) -> String {
    let mut all = String::new(alloc);
    for row in 1000..end {
        let comma = if row == 1000 { "" } else { "," };
        let row = format!(in alloc; r#"{comma}["/k{row}",null]"#).expect(rt, "memory");
        all.push_str(row.as_str()).expect(rt, "memory");
    }
    format!(in alloc; r#"[{{"e":"left","q":1,"rows":[{all}],"s":["a",1,1]}}]"#).expect(rt, "memory")
}

fn wide_answer(rt: &impl Abort, alloc: Global, end: usize) -> String {
    let text = wide_text(rt, alloc, end);
    body_answer(rt, alloc, text.as_str())
}

#[test]
fn lefts_hold_256_rows(rt: HostRuntime) {
    expect_text(&rt, wide_answer(&rt, rt.alloc(), 1256), "same");
    expect_text(&rt, wide_answer(&rt, rt.alloc(), 1257), "none");
}
