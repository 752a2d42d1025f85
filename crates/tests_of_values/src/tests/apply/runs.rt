//! Inputs and what is answered to them.

use crate::tests::apply::streams::{Drops, End, answers};
use std::alloc::Global;
use std::process::Abort;

const WORKED: &str = r#"{"now":1000,"op":"set","path":"/a","value":1}
{"now":1001,"op":"set","path":"/a/b","value":2}
{"now":1002,"op":"remove","path":"/a/b"}
"#;

// Lines without anything are passed over, and the last line needs no end.
const UNENDED: &str = r#"

{"now":1000,"op":"set","path":"/a","value":1}

{"now":1001,"op":"set","path":"/a/b","value":2}"#;

const TIMES: &str = r#"{"now":5,"op":"set","path":"/t","value":{".sv":"timestamp"}}
{"now":3,"op":"set","path":"/t","value":{".sv":"timestamp"}}
"#;

const INCREMENTS: &str = r#"{"now":1,"op":"set","path":"/n","value":5}
{"now":1,"op":"set","path":"/n","value":{".sv":{"increment":2}}}
{"now":1,"op":"set","path":"/m","value":{".sv":{"increment":3}}}
{"now":1,"op":"set","path":"/n","value":{".sv":{"increment":9223372036854775807}}}
"#;

// No number stands at `/p`, nor at `/p/t`; `/p/n` is the number at that place.
const PLACES: &str =
    r#"{"now":1,"op":"set","path":"/p","value":{"l":-9223372036854775808,"n":7,"t":"x"}}
{"now":5,"op":"update","path":"/p","values":{"l":{".sv":{"increment":-1}},"m/n":{".sv":{"increment":4}},"n":{".sv":{"increment":-9}},"t":{".sv":{"increment":3}}}}
{"expect":-2,"now":5,"op":"tx","path":"/p/n","value":{"a":{".sv":{"increment":1}},"b":{".sv":"timestamp"}}}
{"now":5,"op":"set","path":"/p/n","value":{"a":{".sv":{"increment":1}},"b":{".sv":{"increment":0}},"c":2}}
"#;

const NO_INCREMENT: &str = r#"{"now":1,"op":"set","path":"/n","value":{".sv":{"increment":1.5}}}
{"now":1,"op":"set","path":"/n","value":{".sv":{"increment":9223372036854775808}}}
{"now":1,"op":"set","path":"/n","value":{".sv":{"increment":"x"}}}
"#;

const NOT_JSON: &str = r#"{"now":1,"op":"set","path":"/é","value":"ß"}
x
{"now":1,"op":"remove","path":"/b"}
"#;

const NULLS: &str = r#"{"now":1,"op":"set","path":"/","value":null}
{"now":1,"op":"update","path":"/","values":{}}
"#;

const OVERLAP: &str = r#"{"now":1,"op":"update","path":"/","values":{"a/b":1,"a":2}}
{"now":1,"op":"update","path":"/","values":{"a/b":1,"a/c":null}}
"#;

const STALE: &str = r#"{"expect":null,"now":1,"op":"tx","path":"/n","value":1}
{"expect":null,"now":1,"op":"tx","path":"/n","value":1}
{"expect":2,"now":1,"op":"tx","path":"/m","value":1}
"#;

// The input has to be answered so, also where it comes a byte at a time.
fn check_bytes(rt: &impl Abort, alloc: Global, input: &[u8], output: &str, end: End) {
    let text = std::str::from_utf8(input).unwrap_or("bytes that are no text");
    let mut whole = input;
    assert!(rt; answers(alloc, &mut whole, output, end), "whole: {text}");
    let mut drops = Drops {
        rest: input,
        fails: false,
    };
    assert!(rt; answers(alloc, &mut drops, output, end), "by bytes: {text}");
}

// The lines are all taken, and answered so.
fn check_taken(rt: &impl Abort, alloc: Global, input: &str, output: &str) {
    check_bytes(rt, alloc, input.as_bytes(), output, End::Taken);
}

// One of the lines is refused, and they are answered so.
fn check_refused(rt: &impl Abort, alloc: Global, input: &str, output: &str) {
    check_bytes(rt, alloc, input.as_bytes(), output, End::Refused);
}

#[test]
fn answers_inputs(rt: HostRuntime) {
    for (input, output) in [
        ("", "tree null\n"),
        ("\n\n", "tree null\n"),
        (WORKED, "1 wrote\n2 wrote\n3 wrote\ntree null\n"),
        (UNENDED, "1 wrote\n2 wrote\ntree {\"a\":{\"b\":2}}\n"),
        (TIMES, "1 wrote\n2 wrote\ntree {\"t\":5}\n"),
        (
            INCREMENTS,
            "1 wrote\n2 wrote\n3 wrote\n4 wrote\ntree {\"m\":3,\"n\":9223372036854775807}\n",
        ),
        (
            PLACES,
            "1 wrote\n2 wrote\n3 wrote\n4 wrote\ntree {\"p\":{\"l\":-9223372036854775808,\"m\":{\"n\":4},\"n\":{\"a\":2,\"b\":5,\"c\":2},\"t\":3}}\n",
        ),
        (NULLS, "1 wrote\n2 wrote\ntree null\n"),
        (STALE, "1 wrote\n2 stale 1\n3 stale null\ntree {\"n\":1}\n"),
        (
            r#"{"now":1,"op":"set","path":"/v","value":[1,null,2]}"#,
            "1 wrote\ntree {\"v\":{\"0\":1,\"2\":2}}\n",
        ),
        (
            r#"{"now":9007199254740991,"op":"remove","path":"/"}"#,
            "1 wrote\ntree null\n",
        ),
    ] {
        check_taken(&rt, rt.alloc(), input, output);
    }
}

#[test]
fn goes_on_behind_a_line_that_is_refused(rt: HostRuntime) {
    let alloc = rt.alloc();
    let not_json = "1 wrote\nrefused 12 NotJson\n2 wrote\ntree {\"é\":\"ß\"}\n";
    check_refused(&rt, alloc, NOT_JSON, not_json);
    let overlap = "refused 9 Overlap\n1 wrote\ntree {\"a\":{\"b\":1}}\n";
    check_refused(&rt, alloc, OVERLAP, overlap);
    let no_increment = "refused 6 NotWhole\nrefused 7 Range\nrefused 8 Placeholder\ntree null\n";
    check_refused(&rt, alloc, NO_INCREMENT, no_increment);
}

// The line is refused with the fault.
fn check_fault(rt: &impl Abort, alloc: Global, line: &[u8], fault: &str) {
    let output = format!(in alloc; "refused {fault}\ntree null\n").expect(rt, "memory");
    check_bytes(rt, alloc, line, output.as_str(), End::Refused);
}

#[test]
fn refuses_lines(rt: HostRuntime) {
    for (line, fault) in [
        (
            r#"{"now":9007199254740992,"op":"remove","path":"/"}"#,
            "13 NoMoment",
        ),
        (r#"{"now":-1,"op":"remove","path":"/"}"#, "13 NoMoment"),
        (r#"{"now":1.0,"op":"remove","path":"/"}"#, "13 NoMoment"),
        (r#"{"op":"remove","path":"/"}"#, "13 NoMoment"),
        (r#"[1]"#, "13 NoMoment"),
        (r#"{"now":"#, "12 NotJson"),
        ("\r", "12 NotJson"),
        (r#"{"now":1,"op":"move","path":"/"}"#, "11 Shape"),
        (r#"{"now":1,"op":"set","path":"/"}"#, "11 Shape"),
        (
            r#"{"now":1,"op":"set","path":"/","value":9223372036854775808}"#,
            "7 Range",
        ),
        (
            r#"{"now":1,"op":"set","path":"/","value":1.0}"#,
            "6 NotWhole",
        ),
        (
            r#"{"now":1,"op":"set","path":"/a.b","value":1}"#,
            "4 BadKey",
        ),
    ] {
        check_fault(&rt, rt.alloc(), line.as_bytes(), fault);
    }
    check_fault(&rt, rt.alloc(), b"\"\xff\"\n", "12 NotJson");
}

// A `set` of null at the path of this many parts, with spaces after it up to this many bytes.
fn padded(rt: &impl Abort, alloc: Global, part: &str, count: usize, bytes: usize) -> String {
    let path = part.repeat(alloc, count).expect(rt, "memory");
    let line = format!(in alloc; r#"{{"now":1,"op":"set","path":"{path}","value":null}}"#);
    let line = line.expect(rt, "memory");
    let missing = bytes.saturating_sub(line.len());
    let spaces = " ".repeat(alloc, missing).expect(rt, "memory");
    format!(in alloc; "{line}{spaces}\n").expect(rt, "memory")
}

#[test]
fn keeps_to_its_bounds(rt: HostRuntime) {
    let alloc = rt.alloc();
    let taken = "1 wrote\ntree null\n";
    check_taken(&rt, alloc, padded(&rt, alloc, "k", 768, 0).as_str(), taken);
    check_taken(&rt, alloc, padded(&rt, alloc, "/k", 32, 0).as_str(), taken);
    check_taken(
        &rt,
        alloc,
        padded(&rt, alloc, "/k", 1, 1048576).as_str(),
        taken,
    );
}

#[test]
fn refuses_what_is_above_its_bounds(rt: HostRuntime) {
    let alloc = rt.alloc();
    let long = padded(&rt, alloc, "k", 769, 0);
    check_fault(&rt, alloc, long.as_bytes(), "3 LongKey");
    let deep = padded(&rt, alloc, "/k", 33, 0);
    check_fault(&rt, alloc, deep.as_bytes(), "5 TooDeep");
    let whole = padded(&rt, alloc, "/k", 1, 1048577);
    check_fault(&rt, alloc, whole.as_bytes(), "14 TooLong");
}
