//! Runs of one core with the places of two clients.

use crate::tests::refusing::Refusing;
use crate::tests::scene::{RunResult, run};
use pres_hub::MemKeeper;
use std::alloc::Global;
use std::process::Abort;

const REFUSED: &str = r#"1000 join alice => 1
1000 say alice {"m":"op","n":1,"op":{"op":"set","path":"/a","value":1},"q":1,"s":["alice",1,1]} => the database failed
1000 say alice {"m":"op","n":1,"op":{"op":"set","path":"/a","value":1},"q":1,"s":["alice",1,1]} => 2
1000 lost alice => made 2, the database failed
1000 tick => 1"#;

const REFUSED_LOG: &str = r#"[{"e":"open","s":["alice",1,1]}]
[{"e":"op","n":1,"op":{"op":"set","path":"/a","value":1},"out":{"wrote":[["/a",1]]},"q":1,"s":["alice",1,1]}]
[{"e":"ended","q":null,"rows":[],"s":["alice",1,1],"why":"lost"}]
"#;

const LEASE: &str = r#"1000 join alice => 1
61000 tick => 0
500 tick => 0
61001 tick => 1
61002 say alice {"m":"beat","s":["alice",1,1]} => the session is not open
61002 lost alice => made 1, no fault"#;

const KEPT_BACK: &str = r#"1000 join alice => 1
1000 say alice {"m":"hello","s":["alice",1,1]} => not a message
1000 say alice {"m":"hello","s":["bob",1,1]} => not a message
1000 say alice {"m":"beat","s":["bob",1,1]} => the session is not open
1000 say alice {"m":"beat","s":["alice",1,2]} => the session is not open
1000 say alice {"m":"op","n":1,"op":{"op":"set","path":"/a","value":1},"q":2,"s":["alice",1,1]} => out of order
1000 say alice {"m":"beat","s":["alice",1,1]} => 1
1000 lost alice => made 1, no fault"#;

// A seat that saw a greater number than the server's: another session's message is refused before
// that, and the same message is taken once the server has this many entries.
const BEHIND: &str = r#"1000 join alice => 1
1000 join bob => 2
1000 see alice 3 => 3
1000 say alice {"m":"beat","s":["bob",1,1]} => the session is not open
1000 say alice {"m":"op","n":1,"op":{"op":"set","path":"/a","value":1},"q":1,"s":["alice",1,1]} => the server has 2 entries, and the seat was told of 3
1000 say bob {"m":"op","n":1,"op":{"op":"set","path":"/b","value":1},"q":1,"s":["bob",1,1]} => 3
1000 say alice {"m":"op","n":1,"op":{"op":"set","path":"/a","value":1},"q":1,"s":["alice",1,1]} => 4
1000 lost alice => made 2, no fault
1000 lost bob => made 2, no fault"#;

const SLOW: &str = r#"1000 join bob => 1
1000 say bob {"m":"left","op":{"op":"set","path":"/b","value":true},"q":1,"s":["bob",1,1]} => 2
1000 say bob {"m":"on","path":"/a","q":2,"s":["bob",1,1]} => 3
1000 take bob 3 => 3, the last {"m":"snap","path":"/a","q":2,"r":2,"s":["bob",1,1],"value":null,"z":3}
1000 join alice => 4
1000 sets 1 256 => 260
1000 sets 257 257 => 262
1000 take bob 300 => 256, the last {"m":"push","r":258,"s":["bob",1,1],"values":[["/a",256]],"z":260}
1000 take bob 1 => 0, the last none
1000 sets 258 260 => 265
1000 say bob {"m":"beat","s":["bob",1,1]} => the session is not open
1000 lost bob => made 3, no fault
1000 lost alice => made 261, no fault"#;

// The body of entry 262.
const SLOW_END: &str =
    r#"[{"e":"ended","q":null,"rows":[["/b",true]],"s":["bob",1,1],"why":"slow"}]"#;

const IN_TIME: &str = r#"1000 join bob => 1
1000 say bob {"m":"left","op":{"op":"set","path":"/b","value":true},"q":1,"s":["bob",1,1]} => 2
1000 say bob {"m":"on","path":"/a","q":2,"s":["bob",1,1]} => 3
1000 take bob 3 => 3, the last {"m":"snap","path":"/a","q":2,"r":2,"s":["bob",1,1],"value":null,"z":3}
1000 join alice => 4
1000 sets 1 256 => 260
1000 take bob 1 => 1, the last {"m":"push","r":3,"s":["bob",1,1],"values":[["/a",1]],"z":5}
1000 sets 257 257 => 261
1000 say bob {"m":"beat","s":["bob",1,1]} => 261
1000 take bob 300 => 256, the last {"m":"push","r":259,"s":["bob",1,1],"values":[["/a",257]],"z":261}
1000 lost alice => made 258, no fault
1000 lost bob => made 3, no fault"#;

const LEFT_OPEN: &str = r#"1000 join alice => 1
1000 say alice {"m":"op","n":1,"op":{"op":"set","path":"/a","value":1},"q":1,"s":["alice",1,1]} => 2
1000 join bob => 3
1000 lost alice => made 2, the database failed
1000 lost bob => made 1, the database failed"#;

const STARTED_OVER: &str = r#"2000 tick => 0
2000 join alice => not newer than the last session"#;

const STARTED_OVER_LOG: &str = r#"[{"e":"open","s":["alice",1,1]}]
[{"e":"op","n":1,"op":{"op":"set","path":"/a","value":1},"out":{"wrote":[["/a",1]]},"q":1,"s":["alice",1,1]}]
[{"e":"open","s":["bob",1,1]}]
[{"e":"ended","q":null,"rows":[],"s":["alice",1,1],"why":"restart"}]
[{"e":"ended","q":null,"rows":[],"s":["bob",1,1],"why":"restart"}]
"#;

const MARKED: &str = r#"1000 join bob => 1
1000 join alice => 2
1000 lost bob => made 1, the database failed
1000 lost alice => made 1, the database failed
1000 tick => 2"#;

const MARKED_LOG: &str = r#"[{"e":"open","s":["bob",1,1]}]
[{"e":"open","s":["alice",1,1]}]
[{"e":"ended","q":null,"rows":[],"s":["alice",1,1],"why":"lost"}]
[{"e":"ended","q":null,"rows":[],"s":["bob",1,1],"why":"lost"}]
"#;

// A checkpoint waits until the number rose by that much since the last one.
const CHECKPOINTS: &str = r#"1000 join alice => 1
1000 checkpoint 2 => none
1000 say alice {"m":"op","n":1,"op":{"op":"set","path":"/a","value":1},"q":1,"s":["alice",1,1]} => 2
1000 checkpoint 2 => 2
1000 checkpoint 1 => none
1000 take alice 9 => 2, the last {"done":2,"m":"reply","n":1,"out":"wrote","q":1,"r":1,"s":["alice",1,1],"z":2}
1000 join bob => 3
1000 checkpoint 2 => none
1000 checkpoint 1 => 3
1000 say alice {"m":"beat","s":["alice",1,1]} => 3
1000 lost alice => made 2, no fault
1000 lost bob => made 1, no fault"#;

const CHECKPOINTS_LOG: &str = r#"[{"e":"ended","q":null,"rows":[],"s":["alice",1,1],"why":"lost"}]
[{"e":"ended","q":null,"rows":[],"s":["bob",1,1],"why":"lost"}]
"#;

const REFUSED_CHECKPOINT: &str = r#"1000 join alice => 1
1000 say alice {"m":"op","n":1,"op":{"op":"set","path":"/a","value":1},"q":1,"s":["alice",1,1]} => 2
1000 checkpoint 2 => the database failed
1000 take alice 9 => 2, the last {"done":2,"m":"reply","n":1,"out":"wrote","q":1,"r":1,"s":["alice",1,1],"z":2}
1000 lost alice => made 2, no fault"#;

const LEFT_BEHIND: &str = r#"1000 join alice => 1
1000 say alice {"m":"left","op":{"op":"set","path":"/b","value":true},"q":1,"s":["alice",1,1]} => 2
1000 join bob => 3
1000 checkpoint 3 => 3
1000 lost alice => made 2, the database failed
1000 lost bob => made 1, the database failed"#;

const BEHIND_LOG: &str =
    r#"[{"e":"ended","q":null,"rows":[["/b",true]],"s":["alice",1,1],"why":"restart"}]
[{"e":"ended","q":null,"rows":[],"s":["bob",1,1],"why":"restart"}]
"#;

// What a run came to over a new keeper, of which these commits are refused.
fn refusing(rt: &impl Abort, alloc: Global, commits: &'static [u64], lines: &str) -> RunResult {
    let (told, keeper) = run(rt, alloc, Refusing::at(alloc, commits), lines);
    drop(keeper);
    told
}

// What a run came to over a new keeper.
fn kept(rt: &impl Abort, alloc: Global, lines: &str) -> RunResult {
    let (told, keeper) = run(rt, alloc, MemKeeper::new(alloc), lines);
    drop(keeper);
    told
}

// A refused message is taken when it comes again, and a refused end is carried out by a tick.
#[test]
fn refused_commits_leave_the_core(rt: HostRuntime) {
    let told = refusing(&rt, rt.alloc(), &[1, 3], REFUSED);
    told.expect_counts(&rt, (3, 2, 0, Some(2)));
    told.expect_log(&rt, REFUSED_LOG);
}

// Alice comes before Bob.
#[test]
fn a_tick_ends_marked_sessions_in_order(rt: HostRuntime) {
    let told = refusing(&rt, rt.alloc(), &[2, 3], MARKED);
    told.expect_counts(&rt, (4, 2, 0, Some(2)));
    told.expect_log(&rt, MARKED_LOG);
}

#[test]
fn a_tick_ends_who_was_silent_for_a_lease(rt: HostRuntime) {
    kept(&rt, rt.alloc(), LEASE).expect_counts(&rt, (2, 1, 0, Some(1)));
}

#[test]
fn messages_are_kept_back_in_order(rt: HostRuntime) {
    kept(&rt, rt.alloc(), KEPT_BACK).expect_counts(&rt, (2, 1, 0, Some(1)));
}

#[test]
fn a_seat_ahead_of_the_server_is_refused(rt: HostRuntime) {
    let told = kept(&rt, rt.alloc(), BEHIND);
    told.expect_counts(&rt, (6, 4, 0, Some(4)));
    told.expect_tree(&rt, r#"{"a":1,"b":1}"#);
}

// Who takes nothing is ended in the call that fills the ring, and what was put stays to be taken.
#[test]
fn slow_readers_are_ended(rt: HostRuntime) {
    let told = kept(&rt, rt.alloc(), SLOW);
    told.expect_counts(&rt, (266, 264, 0, Some(264)));
    told.expect_entry(&rt, 261, SLOW_END);
    told.expect_tree(&rt, r#"{"a":260,"b":true}"#);
}

#[test]
fn readers_in_time_stay(rt: HostRuntime) {
    kept(&rt, rt.alloc(), IN_TIME).expect_counts(&rt, (263, 261, 0, Some(261)));
}

// What was answered stays in the log, and sessions whose ends were refused are ended first.
#[test]
fn open_sessions_are_ended_at_the_start(rt: HostRuntime) {
    let keeper = Refusing::at(rt.alloc(), &[3, 4]);
    let (told, keeper) = run(&rt, rt.alloc(), keeper, LEFT_OPEN);
    told.expect_counts(&rt, (3, 3, 0, Some(3)));
    drop(told);
    let (told, keeper) = run(&rt, rt.alloc(), keeper, STARTED_OVER);
    drop(keeper);
    told.expect_counts(&rt, (5, 0, 0, Some(0)));
    told.expect_log(&rt, STARTED_OVER_LOG);
}

#[test]
fn a_checkpoint_waits_for_its_rise(rt: HostRuntime) {
    let told = kept(&rt, rt.alloc(), CHECKPOINTS);
    told.expect_counts(&rt, (5, 3, 0, Some(3)));
    told.expect_log(&rt, CHECKPOINTS_LOG);
    told.expect_tree(&rt, r#"{"a":1}"#);
}

#[test]
fn a_refused_checkpoint_leaves_the_core(rt: HostRuntime) {
    let told = refusing(&rt, rt.alloc(), &[2], REFUSED_CHECKPOINT);
    told.expect_counts(&rt, (3, 2, 0, Some(2)));
    told.expect_log(&rt, REFUSED_LOG);
}

// A start over the keeper ends the sessions behind its checkpoint, where that isn't done yet.
fn started_behind(rt: &impl Abort, alloc: Global, keeper: Refusing) -> Refusing {
    let (told, keeper) = run(rt, alloc, keeper, "2000 tick => 0");
    told.expect_counts(rt, (5, 0, 0, Some(0)));
    told.expect_log(rt, BEHIND_LOG);
    told.expect_tree(rt, r#"{"b":true}"#);
    keeper
}

#[test]
fn sessions_behind_a_checkpoint_are_ended_once(rt: HostRuntime) {
    let keeper = Refusing::at(rt.alloc(), &[4, 5]);
    let (told, keeper) = run(&rt, rt.alloc(), keeper, LEFT_BEHIND);
    told.expect_counts(&rt, (3, 3, 0, Some(3)));
    drop(told);
    let keeper = started_behind(&rt, rt.alloc(), keeper);
    drop(started_behind(&rt, rt.alloc(), keeper));
}
