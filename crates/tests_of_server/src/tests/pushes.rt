//! Runs of a server in which sessions listen.

use crate::tests::turns::{check_long, check_runs};
use std::alloc::Global;
use std::process::Abort;

const PRESENCE: &str = r#"1000 {"m":"hello","s":["alice",1,1]}
=> {"m":"welcome","ops":0,"s":["alice",1,1],"z":1}

1000 {"m":"hello","s":["bob",1,1]}
=> {"m":"welcome","ops":0,"s":["bob",1,1],"z":2}

1000 {"m":"on","path":"/last","q":1,"s":["bob",1,1]}
=> {"m":"snap","path":"/last","q":1,"r":1,"s":["bob",1,1],"value":null,"z":3}

1000 {"m":"on","path":"/online","q":2,"s":["bob",1,1]}
=> {"m":"snap","path":"/online","q":2,"r":2,"s":["bob",1,1],"value":null,"z":4}

1000 {"m":"left","op":{"op":"update","path":"/","values":{"last":{".sv":"timestamp"},"online":null}},"q":1,"s":["alice",1,1]}
=> {"m":"armed","q":1,"r":1,"s":["alice",1,1],"z":5}

2000 {"m":"op","n":1,"op":{"op":"set","path":"/online","value":true},"q":2,"s":["alice",1,1]}
=> {"m":"push","r":3,"s":["bob",1,1],"values":[["/online",true]],"z":6}
{"done":6,"m":"reply","n":1,"out":"wrote","q":2,"r":2,"s":["alice",1,1],"z":6}

9000 lost ["alice",1,1]
=> {"m":"push","r":4,"s":["bob",1,1],"values":[["/last",9000],["/online",null]],"z":7}
{"m":"gone","r":3,"s":["alice",1,1],"why":"lost","z":7}

value /
=> {"last":9000}

log
=> 1 1000 [{"e":"open","s":["alice",1,1]}]
2 1000 [{"e":"open","s":["bob",1,1]}]
3 1000 [{"e":"on","path":"/last","q":1,"s":["bob",1,1]}]
4 1000 [{"e":"on","path":"/online","q":2,"s":["bob",1,1]}]
5 1000 [{"e":"left","q":1,"rows":[["/last",{".sv":"timestamp"}],["/online",null]],"s":["alice",1,1]}]
6 2000 [{"e":"op","n":1,"op":{"op":"set","path":"/online","value":true},"out":{"wrote":[["/online",true]]},"q":2,"s":["alice",1,1]}]
7 9000 [{"e":"ended","q":null,"rows":[["/last",9000],["/online",null]],"s":["alice",1,1],"why":"lost"}]"#;

const PUSH_BEFORE_REPLY: &str = r#"1000 {"m":"hello","s":["alice",1,1]}
=> {"m":"welcome","ops":0,"s":["alice",1,1],"z":1}

1000 {"m":"on","path":"/a/b","q":1,"s":["alice",1,1]}
=> {"m":"snap","path":"/a/b","q":1,"r":1,"s":["alice",1,1],"value":null,"z":2}

1000 {"m":"op","n":1,"op":{"op":"set","path":"/a","value":5},"q":2,"s":["alice",1,1]}
=> {"m":"push","r":2,"s":["alice",1,1],"values":[["/a/b",null]],"z":3}
{"done":3,"m":"reply","n":1,"out":"wrote","q":2,"r":3,"s":["alice",1,1],"z":3}

1000 {"m":"op","n":2,"op":{"op":"set","path":"/a","value":5},"q":3,"s":["alice",1,1]}
=> {"m":"push","r":4,"s":["alice",1,1],"values":[["/a/b",null]],"z":4}
{"done":4,"m":"reply","n":2,"out":"wrote","q":3,"r":5,"s":["alice",1,1],"z":4}

1000 {"m":"off","path":"/a/b","q":4,"s":["alice",1,1]}
=> {"m":"offdone","q":4,"r":6,"s":["alice",1,1],"z":5}

1000 {"m":"op","n":3,"op":{"op":"set","path":"/a","value":6},"q":5,"s":["alice",1,1]}
=> {"done":6,"m":"reply","n":3,"out":"wrote","q":5,"r":7,"s":["alice",1,1],"z":6}"#;

const ORDER: &str = r#"1000 {"m":"hello","s":["alice",1,1]}
=> {"m":"welcome","ops":0,"s":["alice",1,1],"z":1}

1000 {"m":"on","path":"/x","q":2,"s":["alice",1,1]}
=> fault 4

1000 {"m":"cancel","path":"/x","q":1,"s":["alice",1,1]}
=> {"m":"armed","q":1,"r":1,"s":["alice",1,1],"z":2}

1000 {"m":"cancel","path":"/x","q":1,"s":["alice",1,1]}
=> quiet

1000 {"m":"op","n":2,"op":{"op":"set","path":"/a","value":1},"q":2,"s":["alice",1,1]}
=> fault 4

1000 {"m":"off","path":"/x","q":2,"s":["alice",1,1]}
=> {"m":"offdone","q":2,"r":2,"s":["alice",1,1],"z":3}

1000 {"m":"on","path":"/x","q":1,"s":["bob",1,1]}
=> fault 3"#;

const ACROSS_A_LOSS: &str = r#"1000 {"m":"hello","s":["alice",1,1]}
=> {"m":"welcome","ops":0,"s":["alice",1,1],"z":1}

1000 {"m":"hello","s":["bob",1,1]}
=> {"m":"welcome","ops":0,"s":["bob",1,1],"z":2}

1000 {"m":"on","path":"/a","q":1,"s":["bob",1,1]}
=> {"m":"snap","path":"/a","q":1,"r":1,"s":["bob",1,1],"value":null,"z":3}

1000 {"m":"op","n":1,"op":{"op":"set","path":"/a","value":1},"q":1,"s":["alice",1,1]}
=> {"m":"push","r":2,"s":["bob",1,1],"values":[["/a",1]],"z":4}
{"done":4,"m":"reply","n":1,"out":"wrote","q":1,"r":1,"s":["alice",1,1],"z":4}

1000 lost ["bob",1,1]
=> {"m":"gone","r":3,"s":["bob",1,1],"why":"lost","z":5}

1000 {"m":"op","n":2,"op":{"op":"set","path":"/a","value":2},"q":2,"s":["alice",1,1]}
=> {"done":6,"m":"reply","n":2,"out":"wrote","q":2,"r":2,"s":["alice",1,1],"z":6}

1000 {"m":"hello","s":["bob",1,2]}
=> {"m":"welcome","ops":0,"s":["bob",1,2],"z":7}

1000 {"m":"on","path":"/a","q":1,"s":["bob",1,2]}
=> {"m":"snap","path":"/a","q":1,"r":1,"s":["bob",1,2],"value":2,"z":8}"#;

const OWN_END: &str = r#"1000 {"m":"hello","s":["alice",1,1]}
=> {"m":"welcome","ops":0,"s":["alice",1,1],"z":1}

1000 {"m":"on","path":"/a","q":1,"s":["alice",1,1]}
=> {"m":"snap","path":"/a","q":1,"r":1,"s":["alice",1,1],"value":null,"z":2}

1000 {"m":"left","op":{"op":"set","path":"/a/b","value":1},"q":2,"s":["alice",1,1]}
=> {"m":"armed","q":2,"r":2,"s":["alice",1,1],"z":3}

1000 {"m":"bye","q":3,"s":["alice",1,1]}
=> {"m":"push","r":3,"s":["alice",1,1],"values":[["/a",{"b":1}]],"z":4}
{"m":"gone","r":4,"s":["alice",1,1],"why":"bye","z":4}"#;

const TWO_LISTEN: &str = r#"1000 {"m":"hello","s":["bob",1,1]}
=> {"m":"welcome","ops":0,"s":["bob",1,1],"z":1}

1000 {"m":"hello","s":["alice",1,1]}
=> {"m":"welcome","ops":0,"s":["alice",1,1],"z":2}

1000 {"m":"on","path":"/","q":1,"s":["bob",1,1]}
=> {"m":"snap","path":"/","q":1,"r":1,"s":["bob",1,1],"value":null,"z":3}

1000 {"m":"on","path":"/b","q":1,"s":["alice",1,1]}
=> {"m":"snap","path":"/b","q":1,"r":1,"s":["alice",1,1],"value":null,"z":4}

1000 {"m":"on","path":"/a","q":2,"s":["alice",1,1]}
=> {"m":"snap","path":"/a","q":2,"r":2,"s":["alice",1,1],"value":null,"z":5}

1000 {"m":"op","n":1,"op":{"op":"update","path":"/","values":{"a":1,"b":2}},"q":2,"s":["bob",1,1]}
=> {"m":"push","r":3,"s":["alice",1,1],"values":[["/a",1],["/b",2]],"z":6}
{"m":"push","r":2,"s":["bob",1,1],"values":[["/",{"a":1,"b":2}]],"z":6}
{"done":6,"m":"reply","n":1,"out":"wrote","q":2,"r":3,"s":["bob",1,1],"z":6}

1000 {"m":"op","n":2,"op":{"op":"set","path":"/c","value":3},"q":3,"s":["bob",1,1]}
=> {"m":"push","r":4,"s":["bob",1,1],"values":[["/",{"a":1,"b":2,"c":3}]],"z":7}
{"done":7,"m":"reply","n":2,"out":"wrote","q":3,"r":5,"s":["bob",1,1],"z":7}"#;

const OPENING: &str = r#"1000 {"m":"hello","s":["alice",1,1]}
=> {"m":"welcome","ops":0,"s":["alice",1,1],"z":1}

"#;

const ONE_TOO_MANY: &str = r#"1000 {"m":"on","path":"/p/257","q":257,"s":["alice",1,1]}
=> {"m":"denied","q":257,"r":257,"s":["alice",1,1],"why":2,"z":258}

1000 {"m":"on","path":"/p/1","q":258,"s":["alice",1,1]}
=> {"m":"snap","path":"/p/1","q":258,"r":258,"s":["alice",1,1],"value":null,"z":259}"#;

// A step in which alice listens by her message `q`.
fn listening(rt: &impl Abort, alloc: Global, q: u64) -> String {
    let z = q.saturating_add(1);
    format!(in alloc;
        r#"1000 {{"m":"on","path":"/p/{q}","q":{q},"s":["alice",1,1]}}
=> {{"m":"snap","path":"/p/{q}","q":{q},"r":{q},"s":["alice",1,1],"value":null,"z":{z}}}

"#
    )
    .expect(rt, "memory")
}

#[test]
fn listeners_see_each_write(rt: HostRuntime) {
    let runs = [
        PRESENCE,
        PUSH_BEFORE_REPLY,
        ORDER,
        ACROSS_A_LOSS,
        OWN_END,
        TWO_LISTEN,
    ];
    check_runs(&rt, rt.alloc(), &runs);
}

#[test]
fn so_many_paths_may_be_listened_to(rt: HostRuntime) {
    let alloc = rt.alloc();
    check_long(
        &rt,
        alloc,
        OPENING,
        256,
        |q| listening(&rt, alloc, q),
        ONE_TOO_MANY,
    );
}
