//! Tests of listeners: whom a write touches, and how many places a session listens to. A table is a
//! text of lines, each a case and what it must answer. A case of a touch is what sessions did, and
//! the places of one write or more; it answers the sessions, each with its touched places. A case
//! of room is to how many places the session `a/1.1` listens, a session, and one place more; it
//! answers whether there is room, why the place is refused, and how many places that session has
//! then.

use crate::tests::texts::{check_table, listener_of, session_of, writes_at};
use pres_fan::{FanFault, Listeners, Touched};
use std::alloc::Global;
use std::process::Abort;

fn act(rt: &impl Abort, alloc: Global, listeners: &mut Listeners, action: &str) {
    match action.split_once(' ') {
        Some(("on", text)) => {
            let (session, path) = listener_of(rt, alloc, text);
            listeners.on(alloc, &session, path).expect(rt, "memory");
        }
        Some(("off", text)) => {
            let (session, path) = listener_of(rt, alloc, text);
            listeners.off(&session, &path);
        }
        Some(("drop", text)) => listeners.drop_session(&session_of(rt, alloc, text)),
        _ => panic!(rt; "no action"),
    }
}

// Who listens after the actions.
fn acted(rt: &impl Abort, alloc: Global, actions: &str) -> Listeners {
    let mut listeners = Listeners::new(alloc);
    for action in actions.split("; ") {
        act(rt, alloc, &mut listeners, action);
    }
    listeners
}

// A session with its touched places.
fn printed(rt: &impl Abort, alloc: Global, row: &Touched) -> String {
    let mut text = row.session().to_string(alloc).expect(rt, "memory");
    for path in row.paths() {
        let path = path.text(alloc).expect(rt, "memory");
        let part = format!(in alloc; " {path}").expect(rt, "memory");
        text.push_str(part.as_str()).expect(rt, "memory");
    }
    text
}

// Whom writes at the places touch.
fn touched(rt: &impl Abort, alloc: Global, listeners: &Listeners, paths: &str) -> String {
    let writes = writes_at(rt, alloc, paths);
    let mut text = String::new(alloc);
    for row in &listeners
        .touched(alloc, writes.as_slice())
        .expect(rt, "memory")
    {
        let row = printed(rt, alloc, row);
        let part = format!(in alloc; "[{row}]").expect(rt, "memory");
        text.push_str(part.as_str()).expect(rt, "memory");
    }
    text
}

fn touches(rt: &impl Abort, alloc: Global, case: &str) -> String {
    let (actions, paths) = case.split_once("; write ").expect(rt, "a write");
    let listeners = acted(rt, alloc, actions);
    touched(rt, alloc, &listeners, paths)
}

// The session `a/1.1` listens to this many places.
fn filled(rt: &impl Abort, alloc: Global, places: u64) -> Listeners {
    let mut listeners = Listeners::new(alloc);
    for place in 1..=places {
        let action = format!(in alloc; "on a/1.1 /k{place}").expect(rt, "memory");
        act(rt, alloc, &mut listeners, action.as_str());
    }
    listeners
}

// Whether there is room for the place, and the result.
fn tried(rt: &impl Abort, alloc: Global, mut listeners: Listeners, text: &str) -> String {
    let (session, path) = listener_of(rt, alloc, text);
    let room = listeners.may_listen(&session, &path);
    let fault: Option<FanFault> = listeners.on(alloc, &session, path).err();
    let count = listeners.count(&session);
    format!(in alloc; "{room} {fault:?} {count}").expect(rt, "memory")
}

fn rooms(rt: &impl Abort, alloc: Global, case: &str) -> String {
    let (places, text) = case.split_once(' ').expect(rt, "a place");
    let listeners = filled(rt, alloc, places.parse().expect(rt, "a number"));
    tried(rt, alloc, listeners, text)
}

const TOUCHES: &str = "on a/1.1 /x; on a/1.1 /x; write /x => [a/1.1 /x]
on a/1.1 /x/y; write /x => [a/1.1 /x/y]
on a/1.1 /x; write /x/y/z => [a/1.1 /x]
on a/1.1 /x; on b/1.1 /y; write /y => [b/1.1 /y]
on a/1.1 /xy; on b/1.1 /; write /x => [b/1.1 /]
on a/1.1 /z; on a/1.1 /y; on a/1.1 /x; write /x/1 /y /x/2 => [a/1.1 /x /y]
on a/1.1 /b; on a/1.1 /a/z; on a/1.1 /a; write / => [a/1.1 /a /a/z /b]
on b/1.1 /x; on B/9.9 /x; on ab/1.1 /x; on a/1.1 /x; write / => [B/9.9 /x][a/1.1 /x][ab/1.1 /x][b/1.1 /x]
on a/2.1 /x; on a/1.10 /x; on a/1.9 /y; write / => [a/1.9 /y][a/1.10 /x][a/2.1 /x]
on a/1.1 /x; on a/1.1 /x/y; off a/1.1 /x; off a/1.1 /z; write /x => [a/1.1 /x/y]
on a/1.1 /x; on b/1.1 /x; off b/1.1 /x; write /x => [a/1.1 /x]
on a/1.1 /x; on a/1.2 /x; on a/1.1 /y; drop a/1.1; write / => [a/1.2 /x]";

#[test]
fn writes_touch_places_that_meet_theirs(rt: HostRuntime) {
    check_table(&rt, TOUCHES, |case| touches(&rt, rt.alloc(), case));
}

const ROOMS: &str = "0 a/1.1 /p => true None 1
255 a/1.1 /p => true None 256
256 a/1.1 /p => false Some(Full) 256
256 a/1.1 /k7 => true None 256
256 a/1.2 /p => true None 1";

#[test]
fn a_session_listens_to_at_most_256_places(rt: HostRuntime) {
    check_table(&rt, ROOMS, |case| rooms(&rt, rt.alloc(), case));
    let numbers = (FanFault::Memory.number(), FanFault::Full.number());
    assert_eq!(rt; numbers, (1, 2));
    assert_eq!(rt; FanFault::Full.name(), "Full");
    let text = FanFault::Full.to_string(rt.alloc()).expect(&rt, "memory");
    assert_eq!(rt; text.as_str(), "a session listens to more than 256 places");
}
