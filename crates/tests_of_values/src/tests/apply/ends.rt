//! Inputs that can't be read to their end, and outputs that take no more.

use crate::tests::apply::streams::{Clogs, Drops, End, answers, ended};
use std::alloc::Global;
use std::process::Abort;

const SET_A: &str = r#"{"now":1000,"op":"set","path":"/a","value":1}"#;

const SET_AB: &str = r#"{"now":1001,"op":"set","path":"/a/b","value":2}"#;

// An input that breaks after these bytes must be answered so.
fn check_broken(rt: &impl Abort, alloc: Global, bytes: &[u8], output: &str) {
    let mut input = Drops {
        rest: bytes,
        fails: true,
    };
    assert!(rt; answers(alloc, &mut input, output, End::Early), "{output}");
}

#[test]
fn stops_where_a_read_fails(rt: HostRuntime) {
    let alloc = rt.alloc();
    let line = format!(in alloc; "{SET_A}\n").expect(&rt, "memory");
    let text = format!(in alloc; "{line}x\n{SET_AB}").expect(&rt, "memory");
    check_broken(&rt, alloc, b"", "");
    check_broken(&rt, alloc, SET_A.as_bytes(), "");
    check_broken(&rt, alloc, line.as_bytes(), "1 wrote\n");
    check_broken(&rt, alloc, text.as_bytes(), "1 wrote\nrefused 12 NotJson\n");
}

// An output that takes this many writes must hold this, and the run must end so.
fn check_clogged(rt: &impl Abort, alloc: Global, writes: usize, wanted: &str, end: End) {
    let text = format!(in alloc; "{SET_A}\n{SET_AB}\n").expect(rt, "memory");
    let mut input = Drops {
        rest: text.as_bytes(),
        fails: false,
    };
    let mut output = Clogs {
        taken: Vec::new(alloc),
        writes,
    };
    let came = ended(alloc, &mut input, &mut output);
    assert!(rt; came == end, "after {writes} writes");
    assert!(rt;
        output.taken.as_slice() == wanted.as_bytes(),
        "after {writes} writes"
    );
}

#[test]
fn stops_where_a_write_fails(rt: HostRuntime) {
    let alloc = rt.alloc();
    check_clogged(&rt, alloc, 0, "", End::Early);
    check_clogged(&rt, alloc, 1, "1 wrote\n", End::Early);
    check_clogged(&rt, alloc, 2, "1 wrote\n2 wrote\n", End::Early);
    check_clogged(
        &rt,
        alloc,
        3,
        "1 wrote\n2 wrote\ntree {\"a\":{\"b\":2}}\n",
        End::Taken,
    );
}
