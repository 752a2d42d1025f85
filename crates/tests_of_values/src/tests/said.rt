//! What is said and what it must be, and tables of cases.

use serde_json::Value;
use std::alloc::Global;
use std::process::Abort;

/// Each table is a heading and lines of cases, each with its answer after ` => `.
pub(crate) fn check_tables<F: Fn(&str, &str) -> String>(rt: &impl Abort, tables: &[&str], answer: F)
    requires { F.IsAlwaysCallable answer }
{
    for table in tables {
        let (heading, lines) = table.split_once(":\n").expect(rt, "a heading");
        for line in lines.lines() {
            let (case, wanted) = line.split_once(" => ").expect(rt, "an answer");
            let said = answer(heading, case);
            assert_eq!(rt; said.as_str(), wanted, "{heading}, at {case}");
        }
    }
}

/// The text has to be this one.
pub(crate) fn expect_text(rt: &impl Abort, said: String, wanted: &str) {
    assert_eq!(rt; said.as_str(), wanted);
}

/// The text of the JSON value.
pub(crate) fn json_text(rt: &impl Abort, alloc: Global, value: Value) -> String {
    let text = value.to_string(alloc);
    drop(value);
    text.expect(rt, "memory")
}
