//! Runs of a server in which sessions leave what is to be done at their end, and fall silent.

use crate::tests::turns::{check, check_long, check_runs};
use std::alloc::Global;
use std::process::Abort;

const CANCELLED_CHILD: &str = r#"1000 {"m":"hello","s":["alice",1,1]}
=> {"m":"welcome","ops":0,"s":["alice",1,1],"z":1}

1000 {"m":"op","n":1,"op":{"op":"set","path":"/u","value":{"a":9,"c":3}},"q":1,"s":["alice",1,1]}
=> {"done":2,"m":"reply","n":1,"out":"wrote","q":1,"r":1,"s":["alice",1,1],"z":2}

1000 {"m":"left","op":{"op":"set","path":"/u","value":{"a":1,"b":2}},"q":2,"s":["alice",1,1]}
=> {"m":"armed","q":2,"r":2,"s":["alice",1,1],"z":3}

1000 {"m":"cancel","path":"/u/a","q":3,"s":["alice",1,1]}
=> {"m":"armed","q":3,"r":3,"s":["alice",1,1],"z":4}

value /
=> {"u":{"a":9,"c":3}}

2000 lost ["alice",1,1]
=> {"m":"gone","r":4,"s":["alice",1,1],"why":"lost","z":5}

value /
=> {"u":{"a":9,"b":2}}

log
=> 1 1000 [{"e":"open","s":["alice",1,1]}]
2 1000 [{"e":"op","n":1,"op":{"op":"set","path":"/u","value":{"a":9,"c":3}},"out":{"wrote":[["/u",{"a":9,"c":3}]]},"q":1,"s":["alice",1,1]}]
3 1000 [{"e":"left","q":2,"rows":[["/u",{"a":1,"b":2}]],"s":["alice",1,1]}]
4 1000 [{"e":"cancelled","path":"/u/a","q":3,"s":["alice",1,1]}]
5 2000 [{"e":"ended","q":null,"rows":[["/u",{"a":1,"b":2}],["/u/a",9]],"s":["alice",1,1],"why":"lost"}]"#;

const CANCELLED_BELOW_A_SCALAR: &str = r#"1000 {"m":"hello","s":["alice",1,1]}
=> {"m":"welcome","ops":0,"s":["alice",1,1],"z":1}

1000 {"m":"op","n":1,"op":{"op":"set","path":"/a","value":5},"q":1,"s":["alice",1,1]}
=> {"done":2,"m":"reply","n":1,"out":"wrote","q":1,"r":1,"s":["alice",1,1],"z":2}

1000 {"m":"left","op":{"op":"set","path":"/a/b","value":1},"q":2,"s":["alice",1,1]}
=> {"m":"armed","q":2,"r":2,"s":["alice",1,1],"z":3}

1000 {"m":"cancel","path":"/a/b","q":3,"s":["alice",1,1]}
=> {"m":"armed","q":3,"r":3,"s":["alice",1,1],"z":4}

2000 lost ["alice",1,1]
=> {"m":"gone","r":4,"s":["alice",1,1],"why":"lost","z":5}

value /
=> {"a":5}"#;

const CANCELLED_IN_AN_OBJECT: &str = r#"1000 {"m":"hello","s":["alice",1,1]}
=> {"m":"welcome","ops":0,"s":["alice",1,1],"z":1}

1000 {"m":"op","n":1,"op":{"op":"set","path":"/a","value":5},"q":1,"s":["alice",1,1]}
=> {"done":2,"m":"reply","n":1,"out":"wrote","q":1,"r":1,"s":["alice",1,1],"z":2}

1000 {"m":"left","op":{"op":"set","path":"/a","value":{"b":1,"c":2}},"q":2,"s":["alice",1,1]}
=> {"m":"armed","q":2,"r":2,"s":["alice",1,1],"z":3}

1000 {"m":"cancel","path":"/a/b","q":3,"s":["alice",1,1]}
=> {"m":"armed","q":3,"r":3,"s":["alice",1,1],"z":4}

2000 lost ["alice",1,1]
=> {"m":"gone","r":4,"s":["alice",1,1],"why":"lost","z":5}

value /
=> {"a":{"c":2}}"#;

const LEFT_AGAIN: &str = r#"1000 {"m":"hello","s":["alice",1,1]}
=> {"m":"welcome","ops":0,"s":["alice",1,1],"z":1}

1000 {"m":"op","n":1,"op":{"op":"set","path":"/x","value":1},"q":1,"s":["alice",1,1]}
=> {"done":2,"m":"reply","n":1,"out":"wrote","q":1,"r":1,"s":["alice",1,1],"z":2}

1000 {"m":"left","op":{"op":"set","path":"/x","value":{"a":1}},"q":2,"s":["alice",1,1]}
=> {"m":"armed","q":2,"r":2,"s":["alice",1,1],"z":3}

1000 {"m":"cancel","path":"/x/a","q":3,"s":["alice",1,1]}
=> {"m":"armed","q":3,"r":3,"s":["alice",1,1],"z":4}

1000 {"m":"left","op":{"op":"set","path":"/x","value":2},"q":4,"s":["alice",1,1]}
=> {"m":"armed","q":4,"r":4,"s":["alice",1,1],"z":5}

2000 lost ["alice",1,1]
=> {"m":"gone","r":5,"s":["alice",1,1],"why":"lost","z":6}

value /
=> {"x":2}"#;

const TIMESTAMP_AND_REMOVAL: &str = r#"1000 {"m":"hello","s":["alice",1,1]}
=> {"m":"welcome","ops":0,"s":["alice",1,1],"z":1}

1000 {"m":"left","op":{"op":"update","path":"/","values":{"last":{".sv":"timestamp"},"online":null}},"q":1,"s":["alice",1,1]}
=> {"m":"armed","q":1,"r":1,"s":["alice",1,1],"z":2}

2000 {"m":"op","n":1,"op":{"op":"set","path":"/online","value":true},"q":2,"s":["alice",1,1]}
=> {"done":3,"m":"reply","n":1,"out":"wrote","q":2,"r":2,"s":["alice",1,1],"z":3}

value /
=> {"online":true}

9000 lost ["alice",1,1]
=> {"m":"gone","r":3,"s":["alice",1,1],"why":"lost","z":4}

value /
=> {"last":9000}"#;

const ORDER: &str = r#"1000 {"m":"hello","s":["alice",1,1]}
=> {"m":"welcome","ops":0,"s":["alice",1,1],"z":1}

1000 {"m":"cancel","path":"/x","q":2,"s":["alice",1,1]}
=> fault 4

1000 {"m":"cancel","path":"/x","q":1,"s":["alice",1,1]}
=> {"m":"armed","q":1,"r":1,"s":["alice",1,1],"z":2}

1000 {"m":"cancel","path":"/x","q":1,"s":["alice",1,1]}
=> quiet

1000 {"m":"op","n":2,"op":{"op":"set","path":"/a","value":1},"q":2,"s":["alice",1,1]}
=> fault 4

1000 {"m":"left","op":{"op":"set","path":"/a","value":1},"q":2,"s":["alice",1,1]}
=> {"m":"armed","q":2,"r":2,"s":["alice",1,1],"z":3}

1000 {"m":"left","op":{"op":"set","path":"/a","value":1},"q":1,"s":["bob",1,1]}
=> fault 3"#;

// Two clients count themselves in, and leave to be counted out; one is lost.
const COUNTED: &str = r#"1000 {"m":"hello","s":["alice",1,1]}
=> {"m":"welcome","ops":0,"s":["alice",1,1],"z":1}

1000 {"m":"hello","s":["bob",1,1]}
=> {"m":"welcome","ops":0,"s":["bob",1,1],"z":2}

1000 {"m":"left","op":{"op":"set","path":"/count","value":{".sv":{"increment":-1}}},"q":1,"s":["alice",1,1]}
=> {"m":"armed","q":1,"r":1,"s":["alice",1,1],"z":3}

1000 {"m":"op","n":1,"op":{"op":"set","path":"/count","value":{".sv":{"increment":1}}},"q":2,"s":["alice",1,1]}
=> {"done":4,"m":"reply","n":1,"out":"wrote","q":2,"r":2,"s":["alice",1,1],"z":4}

value /count
=> 1

1000 {"m":"left","op":{"op":"set","path":"/count","value":{".sv":{"increment":-1}}},"q":1,"s":["bob",1,1]}
=> {"m":"armed","q":1,"r":1,"s":["bob",1,1],"z":5}

1000 {"m":"op","n":1,"op":{"op":"set","path":"/count","value":{".sv":{"increment":1}}},"q":2,"s":["bob",1,1]}
=> {"done":6,"m":"reply","n":1,"out":"wrote","q":2,"r":2,"s":["bob",1,1],"z":6}

value /count
=> 2

2000 lost ["alice",1,1]
=> {"m":"gone","r":3,"s":["alice",1,1],"why":"lost","z":7}

value /count
=> 1

log
=> 1 1000 [{"e":"open","s":["alice",1,1]}]
2 1000 [{"e":"open","s":["bob",1,1]}]
3 1000 [{"e":"left","q":1,"rows":[["/count",{".sv":{"increment":-1}}]],"s":["alice",1,1]}]
4 1000 [{"e":"op","n":1,"op":{"op":"set","path":"/count","value":{".sv":{"increment":1}}},"out":{"wrote":[["/count",1]]},"q":2,"s":["alice",1,1]}]
5 1000 [{"e":"left","q":1,"rows":[["/count",{".sv":{"increment":-1}}]],"s":["bob",1,1]}]
6 1000 [{"e":"op","n":1,"op":{"op":"set","path":"/count","value":{".sv":{"increment":1}}},"out":{"wrote":[["/count",2]]},"q":2,"s":["bob",1,1]}]
7 2000 [{"e":"ended","q":null,"rows":[["/count",1]],"s":["alice",1,1],"why":"lost"}]

replay
=> replayed

value /count
=> 1

3000 lost ["bob",1,1]
=> {"m":"gone","r":3,"s":["bob",1,1],"why":"lost","z":8}

value /count
=> 0"#;

// What is left for a place below another one reads what is put there before it.
const COUNTED_BELOW: &str = r#"1000 {"m":"hello","s":["alice",1,1]}
=> {"m":"welcome","ops":0,"s":["alice",1,1],"z":1}

1000 {"m":"op","n":1,"op":{"op":"set","path":"/a/b","value":5},"q":1,"s":["alice",1,1]}
=> {"done":2,"m":"reply","n":1,"out":"wrote","q":1,"r":1,"s":["alice",1,1],"z":2}

1000 {"m":"left","op":{"op":"set","path":"/a","value":{"b":1}},"q":2,"s":["alice",1,1]}
=> {"m":"armed","q":2,"r":2,"s":["alice",1,1],"z":3}

1000 {"m":"left","op":{"op":"set","path":"/a/b","value":{".sv":{"increment":1}}},"q":3,"s":["alice",1,1]}
=> {"m":"armed","q":3,"r":3,"s":["alice",1,1],"z":4}

replay
=> replayed

2000 lost ["alice",1,1]
=> {"m":"gone","r":4,"s":["alice",1,1],"why":"lost","z":5}

log
=> 1 1000 [{"e":"open","s":["alice",1,1]}]
2 1000 [{"e":"op","n":1,"op":{"op":"set","path":"/a/b","value":5},"out":{"wrote":[["/a/b",5]]},"q":1,"s":["alice",1,1]}]
3 1000 [{"e":"left","q":2,"rows":[["/a",{"b":1}]],"s":["alice",1,1]}]
4 1000 [{"e":"left","q":3,"rows":[["/a/b",{".sv":{"increment":1}}]],"s":["alice",1,1]}]
5 2000 [{"e":"ended","q":null,"rows":[["/a",{"b":1}],["/a/b",2]],"s":["alice",1,1],"why":"lost"}]

replay
=> replayed

value /
=> {"a":{"b":2}}"#;

const LEASE: &str = r#"1000 {"m":"hello","s":["alice",1,1]}
=> {"m":"welcome","ops":0,"s":["alice",1,1],"z":1}

61000 tick
=> quiet

500 tick
=> quiet

61001 tick
=> {"m":"gone","r":1,"s":["alice",1,1],"why":"lease","z":2}

61002 {"m":"beat","s":["alice",1,1]}
=> fault 3

61002 tick
=> quiet"#;

const BEATS: &str = r#"1000 {"m":"hello","s":["alice",1,1]}
=> {"m":"welcome","ops":0,"s":["alice",1,1],"z":1}

50000 {"m":"beat","s":["alice",1,1]}
=> quiet

2000 {"m":"beat","s":["alice",1,1]}
=> quiet

110000 tick
=> quiet

seen
=> 1 entries, true Some(0), heard Some(50000), null

110001 tick
=> {"m":"gone","r":1,"s":["alice",1,1],"why":"lease","z":2}"#;

const FIRST_CLIENT_ENDS_FIRST: &str = r#"1000 {"m":"hello","s":["bob",1,1]}
=> {"m":"welcome","ops":0,"s":["bob",1,1],"z":1}

2000 {"m":"hello","s":["alice",1,1]}
=> {"m":"welcome","ops":0,"s":["alice",1,1],"z":2}

70000 tick
=> {"m":"gone","r":1,"s":["alice",1,1],"why":"lease","z":3}

70000 tick
=> {"m":"gone","r":1,"s":["bob",1,1],"why":"lease","z":4}

70000 tick
=> quiet"#;

// What is seen of the server after an end of alice's session.
const ENDED: &str = r#"3 entries, false None, heard None, {"p":1}"#;

// A run in which alice leaves a value and her session is ended.
fn ending(rt: &impl Abort, alloc: Global, end: &str, wanted: &str) -> String {
    format!(in alloc;
        r#"1000 {{"m":"hello","s":["alice",1,1]}}
=> {{"m":"welcome","ops":0,"s":["alice",1,1],"z":1}}

1000 {{"m":"left","op":{{"op":"set","path":"/p","value":1}},"q":1,"s":["alice",1,1]}}
=> {{"m":"armed","q":1,"r":1,"s":["alice",1,1],"z":2}}

see 70000 {end}
=> {wanted}"#
    )
    .expect(rt, "memory")
}

// A message that leaves a value at a place of its own, and its answer.
fn leaving(rt: &impl Abort, alloc: Global, q: u64) -> String {
    let (place, z) = (q.saturating_sub(1), q.saturating_add(1));
    format!(in alloc;
        r#"1000 {{"m":"left","op":{{"op":"set","path":"/p/{place}","value":1}},"q":{q},"s":["alice",1,1]}}
=> {{"m":"armed","q":{q},"r":{q},"s":["alice",1,1],"z":{z}}}

"#
    )
    .expect(rt, "memory")
}

const OPENING: &str = r#"1000 {"m":"hello","s":["alice",1,1]}
=> {"m":"welcome","ops":0,"s":["alice",1,1],"z":1}

"#;

const ONE_TOO_MANY: &str =
    r#"1000 {"m":"left","op":{"op":"set","path":"/p/256","value":1},"q":257,"s":["alice",1,1]}
=> {"m":"denied","q":257,"r":257,"s":["alice",1,1],"why":1,"z":258}

1000 {"m":"left","op":{"op":"set","path":"/p/0","value":2},"q":258,"s":["alice",1,1]}
=> {"m":"armed","q":258,"r":258,"s":["alice",1,1],"z":259}

1000 lost ["alice",1,1]
=> {"m":"gone","r":259,"s":["alice",1,1],"why":"lost","z":260}

value /p/0
=> 2

value /p/255
=> 1

value /p/256
=> null"#;

#[test]
fn what_is_left_is_done_at_the_end(rt: HostRuntime) {
    let runs = [
        CANCELLED_CHILD,
        CANCELLED_BELOW_A_SCALAR,
        CANCELLED_IN_AN_OBJECT,
        LEFT_AGAIN,
        TIMESTAMP_AND_REMOVAL,
        ORDER,
    ];
    check_runs(&rt, rt.alloc(), &runs);
}

#[test]
fn what_is_left_counts_on_what_stands(rt: HostRuntime) {
    let alloc = rt.alloc();
    check(&rt, alloc, COUNTED);
    check(&rt, alloc, COUNTED_BELOW);
}

#[test]
fn silent_sessions_end(rt: HostRuntime) {
    check_runs(&rt, rt.alloc(), &[LEASE, BEATS, FIRST_CLIENT_ENDS_FIRST]);
}

#[test]
fn each_end_pays_what_was_left(rt: HostRuntime) {
    let superseded = r#"4 entries, false None, heard Some(70000), {"p":1}"#;
    for (end, wanted) in [
        (r#"lost ["alice",1,1]"#, ENDED),
        (r#"slow ["alice",1,1]"#, ENDED),
        ("restart alice", ENDED),
        ("tick", ENDED),
        (r#"{"m":"bye","q":2,"s":["alice",1,1]}"#, ENDED),
        (r#"{"m":"hello","s":["alice",1,2]}"#, superseded),
    ] {
        check(
            &rt,
            rt.alloc(),
            ending(&rt, rt.alloc(), end, wanted).as_str(),
        );
    }
}

#[test]
fn so_many_rows_may_be_left(rt: HostRuntime) {
    let alloc = rt.alloc();
    check_long(
        &rt,
        alloc,
        OPENING,
        256,
        |q| leaving(&rt, alloc, q),
        ONE_TOO_MANY,
    );
}
