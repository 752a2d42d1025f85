//! Bases of servers, and servers that begin from them.

use crate::tests::turns::check;
use pres_plan::{Action, PlanRow};
use pres_retry::{Answers, KeptRef};
use pres_server::{
    Base, BaseParts, Batch, ClientPart, Count, Moment, Path, Replay, Server, SessionId, SessionPart,
};
use pres_tree::{Tree, TreeJson};
use pres_write::settle;
use std::alloc::Global;
use std::process::Abort;

// The texts in brackets, with a comma between two.
fn list(rt: &impl Abort, alloc: Global, texts: Vec<String>) -> String {
    let mut joined = String::from_str(alloc, "[").expect(rt, "memory");
    for text in texts {
        if joined.len() > 1 {
            joined.push(',').expect(rt, "memory");
        }
        joined.push_str(text.as_str()).expect(rt, "memory");
    }
    joined.push(']').expect(rt, "memory");
    joined
}

fn tree_text(rt: &impl Abort, alloc: Global, tree: &Tree) -> String {
    let value = tree.to_value(alloc).expect(rt, "memory");
    value.to_string(alloc).expect(rt, "memory")
}

// What a write came to.
fn kept_text(rt: &impl Abort, alloc: Global, kept: KeptRef<'_>) -> String {
    let text = match kept {
        KeptRef::Wrote => String::from_str(alloc, r#""wrote""#),
        KeptRef::Stale(None) => String::from_str(alloc, r#"{"stale":null}"#),
        KeptRef::Stale(Some(held)) => {
            let held = tree_text(rt, alloc, held);
            format!(in alloc; r#"{{"stale":{held}}}"#)
        }
    };
    text.expect(rt, "memory")
}

// The answers, each with the number at which it was done.
fn answers_text(rt: &impl Abort, alloc: Global, answers: &Answers) -> String {
    let mut texts = Vec::new(alloc);
    for answer in answers.iter() {
        let done = answer.done.get();
        let kept = kept_text(rt, alloc, answer.kept);
        let text = format!(in alloc; "[{done},{kept}]").expect(rt, "memory");
        texts.push(text).expect(rt, "memory");
    }
    list(rt, alloc, texts)
}

fn client_text(rt: &impl Abort, alloc: Global, client: &ClientPart) -> String {
    let id = client.id.text();
    let (incarnation, attempt) = (client.last.incarnation.get(), client.last.attempt.get());
    let rows = answers_text(rt, alloc, &client.rows);
    let text = format!(in alloc;
        r#"{{"id":"{id}","last":[{incarnation},{attempt}],"rows":{rows}}}"#
    );
    text.expect(rt, "memory")
}

// The path in quotes. The runs have no path whose text JSON writes otherwise.
fn path_text(rt: &impl Abort, alloc: Global, path: &Path) -> String {
    let text = path.text(alloc).expect(rt, "memory");
    format!(in alloc; r#""{text}""#).expect(rt, "memory")
}

// A row of a plan: its message, its path, and its draft at moment 0, none where it keeps.
fn row_text(rt: &impl Abort, alloc: Global, row: &PlanRow) -> String {
    let q = row.q.get();
    let path = path_text(rt, alloc, row.action.path());
    let text = match &row.action {
        Action::Put(placement) => {
            let tree = settle(alloc, placement.draft(), None, Moment::at(0)).expect(rt, "memory");
            let draft = tree_text(rt, alloc, &tree);
            format!(in alloc; "[{q},{path},{draft}]")
        }
        Action::Keep(_) => format!(in alloc; "[{q},{path}]"),
    };
    text.expect(rt, "memory")
}

fn session_text(rt: &impl Abort, alloc: Global, session: &SessionId) -> String {
    let id = session.client.text();
    let (incarnation, attempt) = (session.incarnation.get(), session.attempt.get());
    format!(in alloc; r#"["{id}",{incarnation},{attempt}]"#).expect(rt, "memory")
}

fn paths_text(rt: &impl Abort, alloc: Global, paths: &[Path]) -> String {
    let mut texts = Vec::new(alloc);
    for path in paths {
        texts.push(path_text(rt, alloc, path)).expect(rt, "memory");
    }
    list(rt, alloc, texts)
}

fn plan_text(rt: &impl Abort, alloc: Global, plan: &[PlanRow]) -> String {
    let mut texts = Vec::new(alloc);
    for row in plan {
        texts.push(row_text(rt, alloc, row)).expect(rt, "memory");
    }
    list(rt, alloc, texts)
}

fn open_text(rt: &impl Abort, alloc: Global, open: &SessionPart) -> String {
    let listens = paths_text(rt, alloc, open.listens.as_slice());
    let plan = plan_text(rt, alloc, open.plan.as_slice());
    let (q, r) = (open.q.get(), open.r.get());
    let s = session_text(rt, alloc, &open.session);
    let text = format!(in alloc;
        r#"{{"listens":{listens},"plan":{plan},"q":{q},"r":{r},"s":{s}}}"#
    );
    text.expect(rt, "memory")
}

fn clients_text(rt: &impl Abort, alloc: Global, clients: &[ClientPart]) -> String {
    let mut texts = Vec::new(alloc);
    for client in clients {
        texts
            .push(client_text(rt, alloc, client))
            .expect(rt, "memory");
    }
    list(rt, alloc, texts)
}

fn sessions_text(rt: &impl Abort, alloc: Global, sessions: &[SessionPart]) -> String {
    let mut texts = Vec::new(alloc);
    for open in sessions {
        texts.push(open_text(rt, alloc, open)).expect(rt, "memory");
    }
    list(rt, alloc, texts)
}

// The parts: how many batches there are, the greatest moment, and the rest as JSON.
fn parts_text(rt: &impl Abort, alloc: Global, parts: &BaseParts) -> String {
    let (batches, moment) = (parts.batches.get(), parts.moment.millis());
    let clients = clients_text(rt, alloc, parts.clients.as_slice());
    let number = parts.number.get();
    let sessions = sessions_text(rt, alloc, parts.sessions.as_slice());
    let tree = tree_text(rt, alloc, &parts.tree);
    let text = format!(in alloc;
        r#"{batches} {moment} {{"clients":{clients},"number":{number},"sessions":{sessions},"tree":{tree}}}"#
    );
    text.expect(rt, "memory")
}

// The server's base.
pub(crate) fn base_of(rt: &impl Abort, server: &Server) -> Base {
    let Ok(base) = server.base() else {
        panic!(rt; "out of memory");
    };
    base
}

/// What the server's base says.
pub(crate) fn base_text(rt: &impl Abort, alloc: Global, server: &Server) -> String {
    parts_text(rt, alloc, base_of(rt, server).parts())
}

/// What the server's base says, with the answers alone that were made after the number.
pub(crate) fn base_above_text(
    rt: &impl Abort,
    alloc: Global,
    server: &Server,
    number: &str,
) -> String {
    let number = Count::new(number.parse().expect(rt, "a number")).expect(rt, "a number");
    let Ok(base) = server.base_above(number) else {
        panic!(rt; "out of memory");
    };
    parts_text(rt, alloc, base.parts())
}

/// The server that begins from the base.
pub(crate) fn begun(rt: &impl Abort, alloc: Global, base: Base) -> Server {
    let Ok(replay) = Replay::resume(alloc, base) else {
        panic!(rt; "out of memory");
    };
    replay.finish()
}

/// What becomes of the batches of the log, added once more after the server's base, which has them.
pub(crate) fn refused_after(
    rt: &impl Abort,
    alloc: Global,
    server: &Server,
    log: &[Batch],
) -> String {
    let Ok(mut replay) = Replay::resume(alloc, base_of(rt, server)) else {
        panic!(rt; "out of memory");
    };
    let mut texts = Vec::new(alloc);
    for batch in log {
        let batch = batch.copy(alloc).expect(rt, "memory");
        let text = match replay.add(batch) {
            Ok(()) => String::from_str(alloc, "added"),
            Err(fault) => fault.to_string(alloc),
        };
        texts.push(text.expect(rt, "memory")).expect(rt, "memory");
    }
    let number = replay.number();
    drop(replay);
    let said = list(rt, alloc, texts);
    format!(in alloc; "{said}, {number} entries").expect(rt, "memory")
}

/// The server that begins from this one's base.
pub(crate) fn resumed(rt: &impl Abort, alloc: Global, server: Server) -> (Server, String) {
    let base = base_of(rt, &server);
    drop(server);
    let said = String::from_str(alloc, "resumed").expect(rt, "memory");
    (begun(rt, alloc, base), said)
}

const WROTE: &str = r#"1000 {"m":"hello","s":["alice",1,1]}
=> {"m":"welcome","ops":0,"s":["alice",1,1],"z":1}

1000 {"m":"op","n":1,"op":{"op":"set","path":"/a","value":1},"q":1,"s":["alice",1,1]}
=> {"done":2,"m":"reply","n":1,"out":"wrote","q":1,"r":1,"s":["alice",1,1],"z":2}

base
=> 2 1000 {"clients":[{"id":"alice","last":[1,1],"rows":[[2,"wrote"]]}],"number":2,"sessions":[{"listens":[],"plan":[],"q":1,"r":1,"s":["alice",1,1]}],"tree":{"a":1}}

add again
=> [batch 3 may not follow,batch 3 may not follow], 2 entries

resume
=> resumed

counts
=> 2 entries, 2 batches, above 2, false false

1000 restart alice
=> {"m":"gone","r":2,"s":["alice",1,1],"why":"restart","z":3}

1000 {"m":"hello","s":["alice",1,2]}
=> {"m":"welcome","ops":1,"s":["alice",1,2],"z":4}

1000 {"m":"op","n":1,"op":{"op":"set","path":"/a","value":1},"q":1,"s":["alice",1,2]}
=> {"done":2,"m":"reply","n":1,"out":"wrote","q":1,"r":1,"s":["alice",1,2],"z":5}

history alice
=> [2]

base
=> 5 1000 {"clients":[{"id":"alice","last":[1,2],"rows":[[2,"wrote"]]}],"number":5,"sessions":[{"listens":[],"plan":[],"q":1,"r":1,"s":["alice",1,2]}],"tree":{"a":1}}"#;

const LEFT: &str = r#"1000 {"m":"hello","s":["alice",1,1]}
=> {"m":"welcome","ops":0,"s":["alice",1,1],"z":1}

1000 {"m":"left","op":{"op":"set","path":"/b","value":true},"q":1,"s":["alice",1,1]}
=> {"m":"armed","q":1,"r":1,"s":["alice",1,1],"z":2}

base
=> 2 1000 {"clients":[{"id":"alice","last":[1,1],"rows":[]}],"number":2,"sessions":[{"listens":[],"plan":[[1,"/b",true]],"q":1,"r":1,"s":["alice",1,1]}],"tree":null}

resume
=> resumed

1000 restart alice
=> {"m":"gone","r":2,"s":["alice",1,1],"why":"restart","z":3}

value /
=> {"b":true}

resume
=> resumed

1000 restart alice
=> quiet

seen
=> 3 entries, false None, heard None, {"b":true}"#;

// Places, a cancelled child, a stale write, a client that is gone and one whose session is open again.
const WHOLE: &str = r#"1000 {"m":"hello","s":["bob",1,1]}
=> {"m":"welcome","ops":0,"s":["bob",1,1],"z":1}

1000 {"m":"hello","s":["alice",1,1]}
=> {"m":"welcome","ops":0,"s":["alice",1,1],"z":2}

2000 {"m":"op","n":1,"op":{"expect":2,"op":"tx","path":"/a","value":3},"q":1,"s":["bob",1,1]}
=> {"done":3,"m":"reply","n":1,"out":{"stale":null},"q":1,"r":1,"s":["bob",1,1],"z":3}

2000 {"m":"bye","q":2,"s":["bob",1,1]}
=> {"m":"gone","r":2,"s":["bob",1,1],"why":"bye","z":4}

2000 {"m":"on","path":"/u","q":1,"s":["alice",1,1]}
=> {"m":"snap","path":"/u","q":1,"r":1,"s":["alice",1,1],"value":null,"z":5}

2000 {"m":"on","path":"/a","q":2,"s":["alice",1,1]}
=> {"m":"snap","path":"/a","q":2,"r":2,"s":["alice",1,1],"value":null,"z":6}

2000 {"m":"left","op":{"op":"set","path":"/u","value":{"a":1}},"q":3,"s":["alice",1,1]}
=> {"m":"armed","q":3,"r":3,"s":["alice",1,1],"z":7}

2000 {"m":"cancel","path":"/u/a","q":4,"s":["alice",1,1]}
=> {"m":"armed","q":4,"r":4,"s":["alice",1,1],"z":8}

3000 {"m":"hello","s":["carol",1,1]}
=> {"m":"welcome","ops":0,"s":["carol",1,1],"z":9}

base
=> 9 3000 {"clients":[{"id":"alice","last":[1,1],"rows":[]},{"id":"bob","last":[1,1],"rows":[[3,{"stale":null}]]},{"id":"carol","last":[1,1],"rows":[]}],"number":9,"sessions":[{"listens":["/a","/u"],"plan":[[3,"/u",{"a":1}],[4,"/u/a"]],"q":4,"r":4,"s":["alice",1,1]},{"listens":[],"plan":[],"q":0,"r":0,"s":["carol",1,1]}],"tree":null}

seen
=> 9 entries, true Some(4), heard Some(2000), null

resume
=> resumed

seen
=> 9 entries, true Some(4), heard Some(3000), null

3000 {"m":"op","n":1,"op":{"op":"set","path":"/u/a","value":7},"q":1,"s":["carol",1,1]}
=> {"m":"push","r":5,"s":["alice",1,1],"values":[["/u",{"a":7}]],"z":10}
{"done":10,"m":"reply","n":1,"out":"wrote","q":1,"r":1,"s":["carol",1,1],"z":10}

3000 {"m":"hello","s":["bob",1,1]}
=> fault 2 [1,1]

3000 lost ["alice",1,1]
=> {"m":"push","r":6,"s":["alice",1,1],"values":[["/u",{"a":7}]],"z":11}
{"m":"gone","r":7,"s":["alice",1,1],"why":"lost","z":11}

value /
=> {"u":{"a":7}}"#;

// The answers of two clients, the last of them stale.
const ABOVE: &str = r#"1000 {"m":"hello","s":["alice",1,1]}
=> {"m":"welcome","ops":0,"s":["alice",1,1],"z":1}

1000 {"m":"hello","s":["bob",1,1]}
=> {"m":"welcome","ops":0,"s":["bob",1,1],"z":2}

1000 {"m":"op","n":1,"op":{"op":"set","path":"/a","value":1},"q":1,"s":["alice",1,1]}
=> {"done":3,"m":"reply","n":1,"out":"wrote","q":1,"r":1,"s":["alice",1,1],"z":3}

1000 {"m":"op","n":1,"op":{"op":"set","path":"/b","value":1},"q":1,"s":["bob",1,1]}
=> {"done":4,"m":"reply","n":1,"out":"wrote","q":1,"r":1,"s":["bob",1,1],"z":4}

1000 {"m":"op","n":2,"op":{"op":"set","path":"/a","value":2},"q":2,"s":["alice",1,1]}
=> {"done":5,"m":"reply","n":2,"out":"wrote","q":2,"r":2,"s":["alice",1,1],"z":5}

1000 {"m":"op","n":2,"op":{"expect":2,"op":"tx","path":"/b","value":3},"q":2,"s":["bob",1,1]}
=> {"done":6,"m":"reply","n":2,"out":{"stale":1},"q":2,"r":2,"s":["bob",1,1],"z":6}

above 0
=> 6 1000 {"clients":[{"id":"alice","last":[1,1],"rows":[[3,"wrote"],[5,"wrote"]]},{"id":"bob","last":[1,1],"rows":[[4,"wrote"],[6,{"stale":1}]]}],"number":6,"sessions":[{"listens":[],"plan":[],"q":2,"r":2,"s":["alice",1,1]},{"listens":[],"plan":[],"q":2,"r":2,"s":["bob",1,1]}],"tree":{"a":2,"b":1}}

above 4
=> 6 1000 {"clients":[{"id":"alice","last":[1,1],"rows":[[5,"wrote"]]},{"id":"bob","last":[1,1],"rows":[[6,{"stale":1}]]}],"number":6,"sessions":[{"listens":[],"plan":[],"q":2,"r":2,"s":["alice",1,1]},{"listens":[],"plan":[],"q":2,"r":2,"s":["bob",1,1]}],"tree":{"a":2,"b":1}}

above 5
=> 6 1000 {"clients":[{"id":"alice","last":[1,1],"rows":[]},{"id":"bob","last":[1,1],"rows":[[6,{"stale":1}]]}],"number":6,"sessions":[{"listens":[],"plan":[],"q":2,"r":2,"s":["alice",1,1]},{"listens":[],"plan":[],"q":2,"r":2,"s":["bob",1,1]}],"tree":{"a":2,"b":1}}

above 6
=> 6 1000 {"clients":[{"id":"alice","last":[1,1],"rows":[]},{"id":"bob","last":[1,1],"rows":[]}],"number":6,"sessions":[{"listens":[],"plan":[],"q":2,"r":2,"s":["alice",1,1]},{"listens":[],"plan":[],"q":2,"r":2,"s":["bob",1,1]}],"tree":{"a":2,"b":1}}"#;

#[test]
fn answers_after_a_number_are_in_a_base(rt: HostRuntime) {
    check(&rt, rt.alloc(), ABOVE);
}

#[test]
fn answers_and_plans_outlast_a_base(rt: HostRuntime) {
    let alloc = rt.alloc();
    check(&rt, alloc, WROTE);
    check(&rt, alloc, LEFT);
}

#[test]
fn all_parts_outlast_a_base(rt: HostRuntime) {
    check(&rt, rt.alloc(), WHOLE);
}
