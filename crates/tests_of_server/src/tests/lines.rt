//! Tests of lines that have no ring yet.

use crate::tests::turns::{ALICE, BOB, session};
use pres_ring::Lines;
use pres_server::{SessionId, Why};
use std::alloc::Global;
use std::process::Abort;

// The lines of Bob and Alice, without a ring.
fn reserved(rt: &impl Abort, alloc: Global, alice: &SessionId, bob: &SessionId) -> Lines {
    let mut lines = Lines::new(alloc);
    let both = lines.reserve(alloc, bob).is_ok() && lines.reserve(alloc, alice).is_ok();
    if !both {
        drop(lines);
        panic!(rt; "out of memory");
    }
    lines
}

#[test]
fn lines_are_made_once(rt: HostRuntime) {
    let alloc = rt.alloc();
    let alice = session(&rt, alloc, ALICE);
    let mut lines = Lines::new(alloc);
    assert!(rt; !lines.has(&alice));
    assert!(rt; lines.reserve(alloc, &alice) == Ok(true));
    assert!(rt; lines.reserve(alloc, &alice) == Ok(false));
    assert!(rt; lines.has(&alice));
    lines.remove(&alice);
    assert!(rt; !lines.has(&alice));
}

// The first line that is marked has to be that of the session, for this reason.
fn check_marked(rt: &impl Abort, alloc: Global, lines: &Lines, session: &SessionId, why: Why) {
    let Some(Ok((found, marked))) = lines.first_marked(alloc) else {
        panic!(rt; "none is marked");
    };
    assert!(rt; found == *session && marked == why);
}

// The one line that is slow has to be that of the session.
fn check_slow(rt: &impl Abort, alloc: Global, lines: &mut Lines, session: &SessionId) {
    assert!(rt; matches!(lines.next_slow(alloc), Some(Ok(found)) if found == *session));
    assert!(rt; lines.next_slow(alloc).is_none());
}

#[test]
fn slow_lines_are_marked_in_order(rt: HostRuntime) {
    let alloc = rt.alloc();
    let alice = session(&rt, alloc, ALICE);
    let bob = session(&rt, alloc, BOB);
    let mut lines = reserved(&rt, alloc, &alice, &bob);
    assert!(rt; lines.first_marked(alloc).is_none());
    lines.strike(&bob, Why::Lost);
    check_slow(&rt, alloc, &mut lines, &alice);
    lines.strike(&alice, Why::Lost);
    check_marked(&rt, alloc, &lines, &alice, Why::Slow);
    lines.remove(&alice);
    check_marked(&rt, alloc, &lines, &bob, Why::Lost);
}
