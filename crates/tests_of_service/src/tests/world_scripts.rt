//! The scripts of worlds, and what each makes.

pub(crate) const PRESENCE: &str = "clients alice bob
call alice online
up 1 1000
down 1
call bob online
up 2 1000
down 2
call bob listen /on
up 3 1000
down 3
call alice od-remove /on
up 4 1000
down 4
call alice set /on true
up 5 2000
down 5
drop alice 9000
down 7
down 99";

pub(crate) const PRESENCE_MAKES: &str = r#"up 1 {"m":"hello","s":["alice",1,1]}
down 1 {"m":"welcome","ops":0,"s":["alice",1,1],"z":1}
note alice connected true
up 2 {"m":"hello","s":["bob",1,1]}
down 2 {"m":"welcome","ops":0,"s":["bob",1,1],"z":2}
note bob connected true
up 3 {"m":"on","path":"/on","q":1,"s":["bob",1,1]}
down 3 {"m":"snap","path":"/on","q":1,"r":1,"s":["bob",1,1],"value":null,"z":3}
note bob value /on 3 null
up 4 {"m":"left","op":{"op":"set","path":"/on","value":null},"q":1,"s":["alice",1,1]}
down 4 {"m":"armed","q":1,"r":1,"s":["alice",1,1],"z":4}
note alice armed 1
up 5 {"m":"op","n":1,"op":{"op":"set","path":"/on","value":true},"q":2,"s":["alice",1,1]}
down 5 {"m":"push","r":2,"s":["bob",1,1],"values":[["/on",true]],"z":5}
down 6 {"done":5,"m":"reply","n":1,"out":"wrote","q":2,"r":2,"s":["alice",1,1],"z":5}
note bob value /on 5 true
down 7 {"m":"push","r":3,"s":["bob",1,1],"values":[["/on",null]],"z":6}
down 8 {"m":"gone","r":3,"s":["alice",1,1],"why":"lost","z":6}
note bob value /on 6 null
nosuch
number 6
tree null
view bob /on 6 null
status 0
"#;

// A Hello is committed, the server stops, and starts again: the same Hello is an old one.
pub(crate) const STOPPED: &str = "clients a
call a online
up-stop 1 5
up 1 6
restart-server 7
up 1 8";

pub(crate) const STOPPED_MAKES: &str = r#"up 1 {"m":"hello","s":["a",1,1]}
down 1 {"code":2,"last":[1,1],"m":"fault","s":["a",1,1]}
number 2
tree null
status 0
"#;

// A write is committed and its answer is lost; a start ends both sessions, and one more adds nothing.
pub(crate) const UNANSWERED: &str = "clients alice bob
call alice online
up 1 1000
call bob online
up 2 1000
down 2
call bob set /x 7
up-stop 3 1000
restart-server 5000
restart-server 5000";

pub(crate) const UNANSWERED_MAKES: &str = r#"up 1 {"m":"hello","s":["alice",1,1]}
down 1 {"m":"welcome","ops":0,"s":["alice",1,1],"z":1}
up 2 {"m":"hello","s":["bob",1,1]}
down 2 {"m":"welcome","ops":0,"s":["bob",1,1],"z":2}
note bob connected true
up 3 {"m":"op","n":1,"op":{"op":"set","path":"/x","value":7},"q":1,"s":["bob",1,1]}
number 5
tree {"x":7}
status 0
"#;

// A commit is refused: the server is busy, and takes the same message later. A client that starts
// again goes on in its next incarnation, and its old session runs out.
pub(crate) const REFUSED: &str = "clients a
call a online
up-refuse 1 1000
up 1 1000
restart-client a
tick 61000
tick 61001
call a online";

pub(crate) const REFUSED_MAKES: &str = r#"up 1 {"m":"hello","s":["a",1,1]}
down 1 {"code":6,"m":"fault","s":["a",1,1]}
down 2 {"m":"welcome","ops":0,"s":["a",1,1],"z":1}
down 3 {"m":"gone","r":1,"s":["a",1,1],"why":"lease","z":2}
up 2 {"m":"hello","s":["a",2,1]}
number 2
tree null
status 0
"#;

// What a script that ends early has made, and where its line says nothing.
pub(crate) const BAD: &[(&str, &str)] = &[
    ("", "bad line 1\nstatus 1\n"),
    ("clients", "bad line 1\nstatus 1\n"),
    ("clients a b a", "bad line 1\nstatus 1\n"),
    ("clients a.b", "bad line 1\nstatus 1\n"),
    ("clients a\nup 1", "bad line 2\nstatus 1\n"),
    ("clients a\nup 1 -5", "bad line 2\nstatus 1\n"),
    ("clients a\nup 1 +5", "bad line 2\nstatus 1\n"),
    ("clients a\nup +1 5", "bad line 2\nstatus 1\n"),
    ("clients a\ndown +1", "bad line 2\nstatus 1\n"),
    ("clients a\ncall a abort +1", "bad line 2\nstatus 1\n"),
    ("clients a\ncall a answer +1 1", "bad line 2\nstatus 1\n"),
    (
        "clients a\ntick 18446744073709551616",
        "bad line 2\nstatus 1\n",
    ),
    ("clients a\ncall a", "bad line 2\nstatus 1\n"),
    ("clients a\ncall a wait 1", "bad line 2\nstatus 1\n"),
    ("clients a\nnosuch 1", "bad line 2\nstatus 1\n"),
    ("clients a\ncheckpoint 1", "bad line 2\nstatus 1\n"),
    ("clients a\ncheckpoint ", "bad line 2\nstatus 1\n"),
    ("clients a\nCheckpoint", "bad line 2\nstatus 1\n"),
    ("clients a\ntick 1\n\ntick 2", "bad line 3\nstatus 1\n"),
    (
        "clients a\ncall a od-remove /x",
        "refused 2\nnumber 0\ntree null\nstatus 0\n",
    ),
    (
        "clients a\ncall a set /x.y 1\ncall a set /x {",
        "refused 5\nrefused 5\nnumber 0\ntree null\nstatus 0\n",
    ),
    (
        "clients a\ncall b online\nup 1 1\ndown 0",
        "nosuch\nnosuch\nnosuch\nnumber 0\ntree null\nstatus 0\n",
    ),
];

// Writes that are made before a session is open go out at its Welcome. A goodbye ends the session, and
// the client passes its Gone over.
pub(crate) const BEFORE_ONLINE: &str = r#"clients alice
call alice set /a 1
call alice set /a 2
call alice od-set /a 3
> refused 2
call alice od-cancel /a
> refused 2
call alice online
> up 1 {"m":"hello","s":["alice",1,1]}
up 1 1000
> down 1 {"m":"welcome","ops":0,"s":["alice",1,1],"z":1}
down 1
> up 2 {"m":"op","n":1,"op":{"op":"set","path":"/a","value":1},"q":1,"s":["alice",1,1]}
> up 3 {"m":"op","n":2,"op":{"op":"set","path":"/a","value":2},"q":2,"s":["alice",1,1]}
> note alice connected true
up 2 1000
> down 2 {"done":2,"m":"reply","n":1,"out":"wrote","q":1,"r":1,"s":["alice",1,1],"z":2}
up 3 1000
> down 3 {"done":3,"m":"reply","n":2,"out":"wrote","q":2,"r":2,"s":["alice",1,1],"z":3}
down 2
> note alice done 1 2
down 3
> note alice done 2 3
call alice offline
> up 4 {"m":"bye","q":3,"s":["alice",1,1]}
> note alice connected false
up 4 1000
> down 4 {"m":"gone","r":3,"s":["alice",1,1],"why":"bye","z":4}
down 4
> number 4
> tree {"a":2}
> status 0"#;

// A goodbye carries out what was left for the end.
pub(crate) const LEFT: &str = r#"clients alice
call alice online
up 1 1000
down 1
> note alice connected true
call alice set /a 1
call alice od-set /a 3
up 2 1000
up 3 1000
down 2
> note alice done 1 2
down 3
> note alice armed 2
call alice offline
> note alice connected false
up 4 1000
down 4
> number 4
> tree {"a":3}
> status 0"#;

// A client that starts again goes on after the writes that the server has. The first Hello of its
// second start is lost.
pub(crate) const RESTARTED: &str = r#"clients alice
call alice set /a 1
call alice online
up 1 1000
down 1
> note alice connected true
up 2 1000
down 2
> note alice done 1 2
restart-client alice
call alice set /a 2
call alice online
call alice resend
up 4 1000
down 4
> note alice connected true
up 5 1000
down 5
> note alice done 1 5
> number 5
> tree {"a":2}
> status 0"#;

// A write whose answer was lost is carried out once.
pub(crate) const LOST_ANSWER: &str = r#"clients alice
call alice online
up 1 1000
down 1
> note alice connected true
call alice set /a 1
up 2 1000
drop alice 1000
call alice lost
> note alice connected false
call alice online
up 3 1000
down 4
> note alice connected true
up 4 1000
down 5
> note alice done 1 2
> number 5
> tree {"a":1}
> status 0"#;

// So it is where the server starts again from a base that has the answer.
pub(crate) const KEPT_ANSWER: &str = r#"clients alice
call alice online
up 1 1000
down 1
> note alice connected true
call alice set /a 1
up 2 1000
checkpoint
restart-server 1000
call alice lost
> note alice connected false
call alice online
up 3 1000
down 3
> note alice connected true
up 4 1000
down 4
> note alice done 1 2
> number 5
> tree {"a":1}
> status 0"#;

// What a session left is carried out once where the server starts again from a base that has it, and
// from one that has its end.
pub(crate) const KEPT_PLAN: &str = r#"clients alice
call alice online
up 1 1000
down 1
> note alice connected true
call alice od-set /b true
up 2 1000
checkpoint
restart-server 2000
checkpoint
restart-server 3000
restart-server 4000
> number 3
> tree {"b":true}
> status 0"#;

// What was sent in a session that was left comes late, and its answers are passed over.
pub(crate) const LATE: &str = r#"clients alice
call alice online
up 1 1000
down 1
> note alice connected true
call alice set /a 1
call alice od-set /b 1
call alice lost
> note alice connected false
> note alice lost 2
call alice online
up 2 1000
up 3 1000
up 4 1000
down 2
down 3
down 4
down 5
> note alice connected true
up 5 1000
down 6
> note alice done 1 2
> number 6
> tree {"a":1,"b":1}
> status 0"#;

// A stamp that was there before is refused, and the next one isn't.
pub(crate) const OLD: &str = r#"clients alice
call alice online
up-stop 1 1000
restart-server 2000
call alice resend
up 2 3000
down 1
> note alice faulted 2
call alice online
up 3 3000
down 2
> note alice connected true
> number 3
> tree null
> status 0"#;

// A client that starts again opens the first session of its next incarnation. The Welcome of its old
// session arrives again, before the new one is open and after that, and a Hello of the old incarnation
// arrives late.
pub(crate) const OLD_STAMPS: &str = r#"clients alice
call alice online
> up 1 {"m":"hello","s":["alice",1,1]}
up 1 1000
> down 1 {"m":"welcome","ops":0,"s":["alice",1,1],"z":1}
down 1
> note alice connected true
up 1 1000
> down 2 {"code":2,"last":[1,1],"m":"fault","s":["alice",1,1]}
call alice lost
> note alice connected false
call alice online
> up 2 {"m":"hello","s":["alice",1,2]}
restart-client alice
call alice online
> up 3 {"m":"hello","s":["alice",2,1]}
down 1
up 3 1000
> down 3 {"m":"gone","r":1,"s":["alice",1,1],"why":"superseded","z":2}
> down 4 {"m":"welcome","ops":0,"s":["alice",2,1],"z":3}
down 1
down 4
> note alice connected true
down 1
up 2 1000
> down 5 {"code":2,"last":[2,1],"m":"fault","s":["alice",1,2]}
> number 3
> tree null
> status 0"#;

// A path that is listened to again shows the value of its new Snap, and what comes after it.
pub(crate) const AGAIN: &str = r#"clients bob
call bob online
call bob listen /a
up 1 1000
down 1
> note bob connected true
up 2 1000
down 2
> note bob value /a 2 null
call bob unlisten /a
call bob listen /a
call bob set /a 1
up 3 1000
up 4 1000
up 5 1000
down 3
down 4
> note bob value /a 4 null
down 5
> note bob value /a 5 1
down 6
> note bob done 3 5
> number 5
> tree {"a":1}
> view bob /a 5 1
> status 0"#;

// What a client shows of a path stays over the end of its session, until the next one sends it
// again; once it doesn't listen any more it shows nothing. Each part goes on from those before it,
// and ends with how the world is then.
pub(crate) const ACROSS_A_LOSS: &[(&str, &str)] = &[
    (
        r#"clients alice bob
call alice online
> up 1 {"m":"hello","s":["alice",1,1]}
up 1 1000
> down 1 {"m":"welcome","ops":0,"s":["alice",1,1],"z":1}
down 1
> note alice connected true
call bob online
> up 2 {"m":"hello","s":["bob",1,1]}
up 2 1000
> down 2 {"m":"welcome","ops":0,"s":["bob",1,1],"z":2}
down 2
> note bob connected true
call bob listen /a
> up 3 {"m":"on","path":"/a","q":1,"s":["bob",1,1]}
up 3 1000
> down 3 {"m":"snap","path":"/a","q":1,"r":1,"s":["bob",1,1],"value":null,"z":3}
down 3
> note bob value /a 3 null
call alice set /a 1
> up 4 {"m":"op","n":1,"op":{"op":"set","path":"/a","value":1},"q":1,"s":["alice",1,1]}
up 4 1000
> down 4 {"m":"push","r":2,"s":["bob",1,1],"values":[["/a",1]],"z":4}
> down 5 {"done":4,"m":"reply","n":1,"out":"wrote","q":1,"r":1,"s":["alice",1,1],"z":4}
down 4
> note bob value /a 4 1
"#,
        r#"> number 4
> tree {"a":1}
> view bob /a 4 1
> status 0"#,
    ),
    (
        r#"drop bob 1000
> down 6 {"m":"gone","r":3,"s":["bob",1,1],"why":"lost","z":5}
call bob lost
> note bob connected false
call alice set /a 2
> up 5 {"m":"op","n":2,"op":{"op":"set","path":"/a","value":2},"q":2,"s":["alice",1,1]}
up 5 1000
> down 7 {"done":6,"m":"reply","n":2,"out":"wrote","q":2,"r":2,"s":["alice",1,1],"z":6}
"#,
        r#"> number 6
> tree {"a":2}
> view bob /a 4 1
> status 0"#,
    ),
    (
        r#"call bob online
> up 6 {"m":"hello","s":["bob",1,2]}
up 6 1000
> down 8 {"m":"welcome","ops":0,"s":["bob",1,2],"z":7}
down 8
> up 7 {"m":"on","path":"/a","q":1,"s":["bob",1,2]}
> note bob connected true
"#,
        r#"> number 7
> tree {"a":2}
> view bob /a 4 1
> status 0"#,
    ),
    (
        r#"up 7 1000
> down 9 {"m":"snap","path":"/a","q":1,"r":1,"s":["bob",1,2],"value":2,"z":8}
down 9
> note bob value /a 8 2
"#,
        r#"> number 8
> tree {"a":2}
> view bob /a 8 2
> status 0"#,
    ),
    (
        r#"call bob unlisten /a
> up 8 {"m":"off","path":"/a","q":2,"s":["bob",1,2]}
"#,
        r#"> number 8
> tree {"a":2}
> status 0"#,
    ),
];

// What was put for a session arrives late, and the next one passes it over.
pub(crate) const VIEW_ANEW: &str = r#"clients alice bob
call alice online
up 1 1000
down 1
> note alice connected true
call bob online
call bob listen /a
up 2 1000
down 2
> note bob connected true
up 3 1000
down 3
> note bob value /a 3 null
call bob lost
> note bob connected false
call bob online
call alice set /a 2
up 5 1000
up 4 1000
down 4
down 7
> note bob connected true
up 6 1000
down 8
> note bob value /a 7 2
call bob unlisten /a
> number 7
> tree {"a":2}
> status 0"#;

// Of two transactions that race the later one asks again. Both clients listen, so that each gets the
// written value before the answer to its own try.
pub(crate) const RACE: &str = r#"clients alice bob
call alice online
> up 1 {"m":"hello","s":["alice",1,1]}
up 1 1000
> down 1 {"m":"welcome","ops":0,"s":["alice",1,1],"z":1}
down 1
> note alice connected true
call bob online
> up 2 {"m":"hello","s":["bob",1,1]}
up 2 1000
> down 2 {"m":"welcome","ops":0,"s":["bob",1,1],"z":2}
down 2
> note bob connected true
call alice set /n 0
> up 3 {"m":"op","n":1,"op":{"op":"set","path":"/n","value":0},"q":1,"s":["alice",1,1]}
up 3 1000
> down 3 {"done":3,"m":"reply","n":1,"out":"wrote","q":1,"r":1,"s":["alice",1,1],"z":3}
down 3
> note alice done 1 3
call alice listen /n
> up 4 {"m":"on","path":"/n","q":2,"s":["alice",1,1]}
up 4 1000
> down 4 {"m":"snap","path":"/n","q":2,"r":2,"s":["alice",1,1],"value":0,"z":4}
down 4
> note alice value /n 4 0
call bob listen /n
> up 5 {"m":"on","path":"/n","q":1,"s":["bob",1,1]}
up 5 1000
> down 5 {"m":"snap","path":"/n","q":1,"r":1,"s":["bob",1,1],"value":0,"z":5}
down 5
> note bob value /n 5 0
call alice transact /n
> note alice ask 3 1 0
call bob transact /n
> note bob ask 2 1 0
call alice answer 3 1
> up 6 {"m":"op","n":2,"op":{"expect":0,"op":"tx","path":"/n","value":1},"q":3,"s":["alice",1,1]}
call bob answer 2 1
> up 7 {"m":"op","n":1,"op":{"expect":0,"op":"tx","path":"/n","value":1},"q":2,"s":["bob",1,1]}
up 6 1000
> down 6 {"m":"push","r":3,"s":["alice",1,1],"values":[["/n",1]],"z":6}
> down 7 {"m":"push","r":2,"s":["bob",1,1],"values":[["/n",1]],"z":6}
> down 8 {"done":6,"m":"reply","n":2,"out":"wrote","q":3,"r":4,"s":["alice",1,1],"z":6}
up 7 1000
> down 9 {"done":7,"m":"reply","n":1,"out":{"stale":1},"q":2,"r":3,"s":["bob",1,1],"z":7}
down 6
> note alice value /n 6 1
down 8
> note alice done 3 6
down 7
> note bob value /n 6 1
down 9
> note bob ask 2 2 1
call bob answer 2 2
> up 8 {"m":"op","n":2,"op":{"expect":1,"op":"tx","path":"/n","value":2},"q":3,"s":["bob",1,1]}
up 8 1000
> down 10 {"m":"push","r":5,"s":["alice",1,1],"values":[["/n",2]],"z":8}
> down 11 {"m":"push","r":4,"s":["bob",1,1],"values":[["/n",2]],"z":8}
> down 12 {"done":8,"m":"reply","n":2,"out":"wrote","q":3,"r":5,"s":["bob",1,1],"z":8}
down 11
> note bob value /n 8 2
down 12
> note bob done 2 8
call alice transact /n
> note alice ask 4 1 1
call alice abort 4
> note alice aborted 4
call alice answer 4 1
> refused 3
call alice answer 99 1
> refused 3
> number 8
> tree {"n":2}
> view alice /n 6 1
> view bob /n 8 2
> status 0"#;

// Updates are written all or none, now and at the end of a session.
pub(crate) const UPDATES: &str = r#"clients alice
call alice online
up 1 1000
down 1
> note alice connected true
call alice update /a {"b":1,"c":2}
call alice od-update /a {"b":3,"d":4}
call alice od-remove /a/c
call alice update /a {"b":1,"b/c":2}
> refused 5
call alice od-update /a {"b":1,"/b":2}
> refused 5
up 2 1000
up 3 1000
up 4 1000
down 2
> note alice done 1 2
down 3
> note alice armed 2
down 4
> note alice armed 3
call alice offline
> note alice connected false
up 5 1000
> number 5
> tree {"a":{"b":3,"d":4}}
> status 0"#;

// A message is taken where it is the next, and else passed over.
pub(crate) const IN_ORDER: &str = r#"clients alice bob
call alice online
up 1 1000
down 1
> note alice connected true
call bob online
up 2 1000
down 2
> note bob connected true
call alice listen /a
up 3 1000
down 3
> note alice value /a 3 null
call bob set /a 2
up 4 1000
call bob set /a 3
up 5 1000
call bob set /b 1
up 6 1000
down 6
down 4
> note alice value /a 4 2
down 4
down 6
> note alice value /a 5 3
down 1
down 3
down 5
> note bob done 1 4
> number 6
> tree {"a":3,"b":1}
> view alice /a 5 3
> status 0"#;

// What goes out at the Welcome goes out again as it was, until it is answered.
pub(crate) const RESENT: &str = "clients alice
call alice set /a 1
call alice remove /b
call alice online
call alice beat
call alice resend
up 2 1000
down 1
call alice resend
call alice beat
up 3 1000
up 5 1000
down 2
call alice resend
up 8 1000
down 3";

pub(crate) const RESENT_MAKES: &str = r#"up 1 {"m":"hello","s":["alice",1,1]}
up 2 {"m":"hello","s":["alice",1,1]}
down 1 {"m":"welcome","ops":0,"s":["alice",1,1],"z":1}
up 3 {"m":"op","n":1,"op":{"op":"set","path":"/a","value":1},"q":1,"s":["alice",1,1]}
up 4 {"m":"op","n":2,"op":{"op":"set","path":"/b","value":null},"q":2,"s":["alice",1,1]}
note alice connected true
up 5 {"m":"op","n":1,"op":{"op":"set","path":"/a","value":1},"q":1,"s":["alice",1,1]}
up 6 {"m":"op","n":2,"op":{"op":"set","path":"/b","value":null},"q":2,"s":["alice",1,1]}
up 7 {"m":"beat","s":["alice",1,1]}
down 2 {"done":2,"m":"reply","n":1,"out":"wrote","q":1,"r":1,"s":["alice",1,1],"z":2}
note alice done 1 2
up 8 {"m":"op","n":2,"op":{"op":"set","path":"/b","value":null},"q":2,"s":["alice",1,1]}
down 3 {"done":3,"m":"reply","n":2,"out":"wrote","q":2,"r":2,"s":["alice",1,1],"z":3}
note alice done 2 3
number 3
tree {"a":1}
status 0
"#;
