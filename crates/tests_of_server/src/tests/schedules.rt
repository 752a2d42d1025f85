//! Stored schedules: at each point of one, a server that begins from the base of the one that goes on
//! gives the same answers to the rest.

use crate::tests::bases::{base_of, begun};
use crate::tests::schedule_lists::SCHEDULES;
use crate::tests::turns::turn;
use pres_server::{Batch, Server};
use std::alloc::Global;
use std::process::Abort;

// The word at the place, none past the last one.
fn word<'a>(words: &[&'a str], place: usize) -> &'a str {
    match words.get(place) {
        Some(word) => word,
        None => "",
    }
}

// An operation at the path that is the word at the place: what follows says which.
fn op_text(rt: &impl Abort, alloc: Global, words: &[&str], place: usize) -> String {
    let (path, value) = (word(words, place), word(words, place.saturating_add(1)));
    let text = match words.get(place.saturating_add(2)) {
        Some(next) => format!(in alloc;
            r#"{{"expect":{value},"op":"tx","path":"{path}","value":{next}}}"#
        ),
        None => format!(in alloc; r#"{{"op":"set","path":"{path}","value":{value}}}"#),
    };
    text.expect(rt, "memory")
}

// The message of a session: `s`, and what it asks for.
fn message_text(rt: &impl Abort, alloc: Global, words: &[&str]) -> String {
    let (client, attempt, q) = (word(words, 2), word(words, 3), word(words, 4));
    let n = word(words, 5);
    let s = format!(in alloc; r#"["{client}",1,{attempt}]"#).expect(rt, "memory");
    let text = match word(words, 1) {
        "h" => format!(in alloc; r#"{{"m":"hello","s":{s}}}"#),
        "o" | "t" => {
            let op = op_text(rt, alloc, words, 6);
            format!(in alloc; r#"{{"m":"op","n":{n},"op":{op},"q":{q},"s":{s}}}"#)
        }
        "l" => {
            let op = op_text(rt, alloc, words, 5);
            format!(in alloc; r#"{{"m":"left","op":{op},"q":{q},"s":{s}}}"#)
        }
        "c" => format!(in alloc; r#"{{"m":"cancel","path":"{n}","q":{q},"s":{s}}}"#),
        "+" => format!(in alloc; r#"{{"m":"on","path":"{n}","q":{q},"s":{s}}}"#),
        "-" => format!(in alloc; r#"{{"m":"off","path":"{n}","q":{q},"s":{s}}}"#),
        "b" => format!(in alloc; r#"{{"m":"bye","q":{q},"s":{s}}}"#),
        _ => format!(in alloc; "lost {s}"),
    };
    text.expect(rt, "memory")
}

// The turn as a step of a run: its moment and its input.
fn case_of(rt: &impl Abort, alloc: Global, text: &str) -> String {
    let mut words = Vec::new(alloc);
    for word in text.split(' ') {
        words.push(word).expect(rt, "memory");
    }
    let second = word(words.as_slice(), 0);
    let input = match word(words.as_slice(), 1) {
        "k" => String::from_str(alloc, "tick"),
        "r" => {
            let client = word(words.as_slice(), 2);
            format!(in alloc; "restart {client}")
        }
        _ => Ok(message_text(rt, alloc, words.as_slice())),
    };
    let input = input.expect(rt, "memory");
    format!(in alloc; "{second}000 {input}").expect(rt, "memory")
}

fn cases_of(rt: &impl Abort, alloc: Global, schedule: &str) -> Vec<String> {
    let mut cases = Vec::new(alloc);
    for text in schedule.split("; ") {
        cases.push(case_of(rt, alloc, text)).expect(rt, "memory");
    }
    cases
}

// What the server answers to each case.
fn said_to(rt: &impl Abort, alloc: Global, server: Server, cases: &[String]) -> Vec<String> {
    let mut server = server;
    let mut log: Vec<Batch> = Vec::new(alloc);
    let mut said = Vec::new(alloc);
    for case in cases {
        let (after, text) = turn(rt, alloc, server, &mut log, case.as_str());
        server = after;
        said.push(text).expect(rt, "memory");
    }
    drop(server);
    drop(log);
    said
}

// A server that begins from the base has to answer the cases so.
fn check_rest(
    rt: &impl Abort,
    alloc: Global,
    server: &Server,
    cases: &[String],
    wanted: &[String],
) {
    let begun = begun(rt, alloc, base_of(rt, server));
    assert_eq!(rt; begun.number(), server.number());
    let said = said_to(rt, alloc, begun, cases);
    assert_eq!(rt; said.as_slice(), wanted);
}

// At each point of the schedule.
fn check_schedule(rt: &impl Abort, alloc: Global, schedule: &str) {
    let cases = cases_of(rt, alloc, schedule);
    let wanted = said_to(rt, alloc, Server::new(alloc), cases.as_slice());
    let mut server = Server::new(alloc);
    let mut log = Vec::new(alloc);
    let (mut rest, mut wanted_rest) = (cases.as_slice(), wanted.as_slice());
    while let (Some((case, later)), Some((_, wanted_later))) = (
        rest.split_first(),
        wanted_rest.split_first(),
    ) {
        check_rest(rt, alloc, &server, rest, wanted_rest);
        let (after, _) = turn(rt, alloc, server, &mut log, case.as_str());
        server = after;
        rest = later;
        wanted_rest = wanted_later;
    }
    drop(server);
    drop(log);
}

// This many schedules, after the given number of others.
fn check_some(rt: &impl Abort, alloc: Global, after: usize, count: usize) {
    for schedule in SCHEDULES.lines().skip(after).take(count) {
        check_schedule(rt, alloc, schedule);
    }
}

#[test]
fn servers_go_on_from_their_bases(rt: HostRuntime) {
    check_some(&rt, rt.alloc(), 0, 250);
}

#[test]
fn later_schedules_go_on_too(rt: HostRuntime) {
    check_some(&rt, rt.alloc(), 250, 250);
}
