//! Tests that a tree of listeners answers as a list that is walked: over each of the stored lists of
//! calls both tell the same refusals and the same touched listeners, in the same order.

use crate::tests::listener_lists::LISTS;
use crate::tests::texts::{listener_of, session_of, writes_at};
use pres_fan::{FanFault, Listener, Listeners, MOST_PATHS, Touched};
use pres_ids::SessionId;
use pres_tree::Path;
use pres_write::Basic;
use std::alloc::Global;
use std::process::Abort;

// Listeners as one list in order, which each call walks.
#[derive(Drop)]
struct ListListeners {
    list: Vec<Listener>,
}

impl ListListeners {
    fn new(alloc: Global) -> ListListeners {
        ListListeners {
            list: Vec::new(alloc),
        }
    }

    // How many paths the session listens to.
    fn count(&self, session: &SessionId) -> usize {
        self.list
            .iter()
            .filter(|listener| listener.session == *session)
            .count()
    }

    fn on(&mut self, rt: &impl Abort, listener: Listener) -> Result<(), FanFault> {
        if self.list.contains(&listener) {
            return Ok(());
        }
        if self.count(&listener.session) >= MOST_PATHS {
            return Err(FanFault::Full);
        }
        self.list.push(listener).expect(rt, "memory");
        self.list.sort_unstable();
        Ok(())
    }

    fn off(&mut self, listener: &Listener) {
        self.list.retain(|other| other != listener);
    }

    fn drop_session(&mut self, session: &SessionId) {
        self.list.retain(|listener| listener.session != *session);
    }

    // The listeners whose paths the writes touch, as a text: each session, and its paths.
    fn touched(&self, rt: &impl Abort, alloc: Global, writes: &[Basic]) -> String {
        let mut said = String::new(alloc);
        let mut last: Option<&SessionId> = None;
        for listener in &self.list {
            if is_touched(writes, &listener.path) {
                if last != Some(&listener.session) {
                    say_session(rt, alloc, &mut said, &listener.session);
                }
                say_path(rt, alloc, &mut said, &listener.path);
                last = Some(&listener.session);
            }
        }
        said
    }
}

// Whether one of the writes is at the path, above it or below it.
fn is_touched(writes: &[Basic], path: &Path) -> bool {
    writes.iter().any(|write| write.path().is_prefix_of(path) || path.is_prefix_of(write.path()))
}

fn say_session(rt: &impl Abort, alloc: Global, said: &mut String, session: &SessionId) {
    let part = format!(in alloc; "|{session}").expect(rt, "memory");
    said.push_str(part.as_str()).expect(rt, "memory");
}

fn say_path(rt: &impl Abort, alloc: Global, said: &mut String, path: &Path) {
    let part = format!(in alloc; " {path}").expect(rt, "memory");
    said.push_str(part.as_str()).expect(rt, "memory");
}

// The rows of touched sessions, as the same text.
fn rows_said(rt: &impl Abort, alloc: Global, rows: &[Touched]) -> String {
    let mut said = String::new(alloc);
    for row in rows {
        say_session(rt, alloc, &mut said, row.session());
        for path in row.paths() {
            say_path(rt, alloc, &mut said, path);
        }
    }
    said
}

// The tree and the list, and the results of each so far.
#[derive(Drop)]
struct Both {
    tree: Listeners,
    list: ListListeners,
    said: String,
    wanted: String,
}

impl Both {
    fn new(alloc: Global) -> Both {
        Both {
            tree: Listeners::new(alloc),
            list: ListListeners::new(alloc),
            said: String::new(alloc),
            wanted: String::new(alloc),
        }
    }

    fn on(&mut self, rt: &impl Abort, alloc: Global, text: &str) {
        let (session, path) = listener_of(rt, alloc, text);
        say_refusal(
            rt,
            alloc,
            &mut self.said,
            self.tree.on(alloc, &session, path),
        );
        let refusal = self.list.on(rt, listener(rt, alloc, text));
        say_refusal(rt, alloc, &mut self.wanted, refusal);
    }

    // This many calls, with the numbers from 0 on after the path.
    fn on_each(&mut self, rt: &impl Abort, alloc: Global, calls: u64, text: &str) {
        for number in 0..calls {
            let text = format!(in alloc; "{text}{number}").expect(rt, "memory");
            self.on(rt, alloc, text.as_str());
        }
    }

    fn off(&mut self, rt: &impl Abort, alloc: Global, text: &str) {
        let gone = listener(rt, alloc, text);
        self.tree.off(&gone.session, &gone.path);
        self.list.off(&gone);
    }

    fn drop_session(&mut self, rt: &impl Abort, alloc: Global, text: &str) {
        let session = session_of(rt, alloc, text);
        self.tree.drop_session(&session);
        self.list.drop_session(&session);
    }

    fn write(&mut self, rt: &impl Abort, alloc: Global, paths: &str) {
        let writes = writes_at(rt, alloc, paths);
        let rows = self
            .tree
            .touched(alloc, writes.as_slice())
            .expect(rt, "memory");
        say(rt, &mut self.said, rows_said(rt, alloc, rows.as_slice()));
        let wanted = self.list.touched(rt, alloc, writes.as_slice());
        say(rt, &mut self.wanted, wanted);
    }

    fn call(&mut self, rt: &impl Abort, alloc: Global, call: &str) {
        match call.split_once(' ').expect(rt, "a call") {
            ("on", text) => self.on(rt, alloc, text),
            ("off", text) => self.off(rt, alloc, text),
            ("drop", text) => self.drop_session(rt, alloc, text),
            ("w", paths) => self.write(rt, alloc, paths),
            (calls, text) => {
                let text = text.strip_prefix("on ").expect(rt, "a call");
                self.on_each(rt, alloc, calls.parse().expect(rt, "a number"), text);
            }
        }
    }
}

// The result of a call, on a line of its own.
fn say(rt: &impl Abort, said: &mut String, text: String) {
    said.push_str(text.as_str()).expect(rt, "memory");
    said.push('\n').expect(rt, "memory");
}

// Why a listener was refused, if it was.
fn say_refusal(rt: &impl Abort, alloc: Global, said: &mut String, answer: Result<(), FanFault>) {
    let refusal: Option<FanFault> = answer.err();
    say(
        rt,
        said,
        format!(in alloc; "{refusal:?}").expect(rt, "memory"),
    );
}

// The listener of a session and a path after it.
fn listener(rt: &impl Abort, alloc: Global, text: &str) -> Listener {
    let (session, path) = listener_of(rt, alloc, text);
    Listener { session, path }
}

// The results of the tree and of the list, once all calls of a line were made.
fn told(rt: &impl Abort, alloc: Global, calls: &str) -> (String, String) {
    let mut both = Both::new(alloc);
    for call in calls.split("; ") {
        both.call(rt, alloc, call);
    }
    let Both { said, wanted, .. } = both;
    (said, wanted)
}

#[test]
fn a_tree_answers_as_a_list_that_is_walked(rt: HostRuntime) {
    for calls in LISTS.lines() {
        let (said, wanted) = told(&rt, rt.alloc(), calls);
        assert_eq!(rt; said.as_str(), wanted.as_str(), "at {calls}");
    }
}
