//! Messages of one connection that came together.

use crate::tests::connections::check_closed;
use std::alloc::Global;
use std::process::Abort;

const THREE: &str = r#"text {"m":"hello","s":["alice",1,1]}
text {"m":"op","n":1,"op":{"op":"set","path":"/a","value":1},"q":1,"s":["alice",1,1]}
+ text {"m":"on","path":"/a","q":2,"s":["alice",1,1]}
+ text {"m":"op","n":2,"op":{"op":"set","path":"/a","value":2},"q":3,"s":["alice",1,1]}
close"#;

const THREE_ANSWERS: &str = r#"{"m":"welcome","ops":0,"s":["alice",1,1],"z":1}
{"done":2,"m":"reply","n":1,"out":"wrote","q":1,"r":1,"s":["alice",1,1],"z":2}
{"m":"snap","path":"/a","q":2,"r":2,"s":["alice",1,1],"value":1,"z":3}
{"m":"push","r":3,"s":["alice",1,1],"values":[["/a",2]],"z":4}
{"done":4,"m":"reply","n":2,"out":"wrote","q":3,"r":4,"s":["alice",1,1],"z":4}
close
"#;

// Each is answered by the state after the one before it.
#[test]
fn each_is_answered_in_its_order(rt: HostRuntime) {
    check_closed(&rt, rt.alloc(), THREE, THREE_ANSWERS, (5, 4));
}

const NONE_BETWEEN: &str = r#"text {"m":"hello","s":["alice",1,1]}
text {"m":"op","n":1,"op":{"op":"set","path":"/a","value":1},"q":1,"s":["alice",1,1]}
+ text {"m":"op"
+ binary 1
+ text {"m":"beat","s":["alice",1,1]}
+ text {"m":"op","n":2,"op":{"op":"set","path":"/a","value":2},"q":2,"s":["alice",1,1]}
close"#;

const NONE_BETWEEN_ANSWERS: &str = r#"{"m":"welcome","ops":0,"s":["alice",1,1],"z":1}
{"done":2,"m":"reply","n":1,"out":"wrote","q":1,"r":1,"s":["alice",1,1],"z":2}
{"code":1,"m":"fault","s":["alice",1,1]}
{"code":1,"m":"fault","s":["alice",1,1]}
{"done":3,"m":"reply","n":2,"out":"wrote","q":2,"r":2,"s":["alice",1,1],"z":3}
close
"#;

#[test]
fn what_is_no_message_is_answered_between_them(rt: HostRuntime) {
    check_closed(&rt, rt.alloc(), NONE_BETWEEN, NONE_BETWEEN_ANSWERS, (4, 3));
}

const CLOSED_AT_ONCE: &str = r#"text {"m":"hello","s":["alice",1,1]}
text {"m":"op","n":1,"op":{"op":"set","path":"/a","value":1},"q":1,"s":["alice",1,1]}
+ text {"m":"op","n":2,"op":{"op":"set","path":"/a","value":2},"q":2,"s":["alice",1,1]}
+ close"#;

const CLOSED_AT_ONCE_ANSWERS: &str = r#"{"m":"welcome","ops":0,"s":["alice",1,1],"z":1}
close
"#;

// What came with a close is carried out, and not answered.
#[test]
fn nothing_follows_a_close(rt: HostRuntime) {
    check_closed(
        &rt,
        rt.alloc(),
        CLOSED_AT_ONCE,
        CLOSED_AT_ONCE_ANSWERS,
        (4, 3),
    );
}

// The second one skips a number, and so do those that follow it.
const SKIPS: &str = r#"text {"m":"hello","s":["alice",1,1]}
text {"m":"op","n":1,"op":{"op":"set","path":"/a","value":1},"q":1,"s":["alice",1,1]}
+ text {"m":"op","n":3,"op":{"op":"set","path":"/a","value":3},"q":3,"s":["alice",1,1]}
+ text {"m":"op","n":4,"op":{"op":"set","path":"/a","value":4},"q":4,"s":["alice",1,1]}
+ text {"m":"op","n":2,"op":{"op":"set","path":"/a","value":2},"q":2,"s":["alice",1,1]}
close"#;

const SKIPS_ANSWERS: &str = r#"{"m":"welcome","ops":0,"s":["alice",1,1],"z":1}
{"done":2,"m":"reply","n":1,"out":"wrote","q":1,"r":1,"s":["alice",1,1],"z":2}
{"code":4,"m":"fault","s":["alice",1,1]}
{"code":4,"m":"fault","s":["alice",1,1]}
{"done":3,"m":"reply","n":2,"out":"wrote","q":2,"r":2,"s":["alice",1,1],"z":3}
close
"#;

#[test]
fn each_refusal_has_its_place(rt: HostRuntime) {
    check_closed(&rt, rt.alloc(), SKIPS, SKIPS_ANSWERS, (4, 3));
}

// The write of this number of the client skips one, though its message doesn't.
const REFUSED_AT_LAST: &str = r#"text {"m":"hello","s":["alice",1,1]}
text {"m":"op","n":1,"op":{"op":"set","path":"/a","value":1},"q":1,"s":["alice",1,1]}
+ text {"m":"op","n":9,"op":{"op":"set","path":"/a","value":9},"q":2,"s":["alice",1,1]}
+ text {"m":"op","n":2,"op":{"op":"set","path":"/a","value":2},"q":3,"s":["alice",1,1]}
close"#;

const REFUSED_AT_LAST_ANSWERS: &str = r#"{"m":"welcome","ops":0,"s":["alice",1,1],"z":1}
{"done":2,"m":"reply","n":1,"out":"wrote","q":1,"r":1,"s":["alice",1,1],"z":2}
{"code":4,"m":"fault","s":["alice",1,1]}
{"code":4,"m":"fault","s":["alice",1,1]}
close
"#;

// One that is refused is followed by refusals.
#[test]
fn refusals_come_last(rt: HostRuntime) {
    check_closed(
        &rt,
        rt.alloc(),
        REFUSED_AT_LAST,
        REFUSED_AT_LAST_ANSWERS,
        (3, 2),
    );
}

const BYE_BETWEEN: &str = r#"text {"m":"hello","s":["alice",1,1]}
text {"m":"op","n":1,"op":{"op":"set","path":"/a","value":1},"q":1,"s":["alice",1,1]}
+ text {"m":"bye","q":2,"s":["alice",1,1]}
+ text {"m":"op","n":2,"op":{"op":"set","path":"/a","value":2},"q":3,"s":["alice",1,1]}
close"#;

const BYE_BETWEEN_ANSWERS: &str = r#"{"m":"welcome","ops":0,"s":["alice",1,1],"z":1}
{"done":2,"m":"reply","n":1,"out":"wrote","q":1,"r":1,"s":["alice",1,1],"z":2}
{"m":"gone","r":2,"s":["alice",1,1],"why":"bye","z":3}
close
"#;

// What comes after a Bye is not answered.
#[test]
fn a_bye_ends_them(rt: HostRuntime) {
    check_closed(&rt, rt.alloc(), BYE_BETWEEN, BYE_BETWEEN_ANSWERS, (3, 3));
}

// This many writes come together, which are more than are said at once.
const MANY: u64 = 150;

// The writes in lines, and their answers.
fn many(rt: &impl Abort, alloc: Global) -> (String, String) {
    let mut lines = String::from_str(alloc, r#"text {"m":"hello","s":["alice",1,1]}"#).expect(
        rt, "memory",
    );
    let mut answers = String::from_str(
        alloc,
        r#"{"m":"welcome","ops":0,"s":["alice",1,1],"z":1}"#,
    ).expect(rt, "memory");
    for n in 1..=MANY {
        let plus = if n == 1 { "" } else { "+ " };
        let z = n.saturating_add(1);
        let line = format!(in alloc;
            "\n{plus}text {{\"m\":\"op\",\"n\":{n},\"op\":{{\"op\":\"set\",\"path\":\"/a\",\"value\":{n}}},\"q\":{n},\"s\":[\"alice\",1,1]}}"
        );
        lines
            .push_str(line.expect(rt, "memory").as_str())
            .expect(rt, "memory");
        let answer = format!(in alloc;
            "\n{{\"done\":{z},\"m\":\"reply\",\"n\":{n},\"out\":\"wrote\",\"q\":{n},\"r\":{n},\"s\":[\"alice\",1,1],\"z\":{z}}}"
        );
        answers
            .push_str(answer.expect(rt, "memory").as_str())
            .expect(rt, "memory");
    }
    lines.push_str("\nclose").expect(rt, "memory");
    answers.push_str("\nclose\n").expect(rt, "memory");
    (lines, answers)
}

#[test]
fn many_are_answered_in_their_order(rt: HostRuntime) {
    let (lines, answers) = many(&rt, rt.alloc());
    check_closed(
        &rt,
        rt.alloc(),
        lines.as_str(),
        answers.as_str(),
        (MANY + 2, MANY + 1),
    );
}
