//! Scripts of a world, and what each makes. A script is data, so a new one costs no proof. A whole
//! script has, after each line, what it makes, and at its end how the world is, each line after `>
//! `. A told script has the same without the packets.

use crate::tests::counters::{AT_THE_END, COUNTED, COUNTED_ONCE};
use crate::tests::world_scripts::{
    ACROSS_A_LOSS, AGAIN, BAD, BEFORE_ONLINE, IN_ORDER, KEPT_ANSWER, KEPT_PLAN, LATE, LEFT,
    LOST_ANSWER, OLD, OLD_STAMPS, PRESENCE, PRESENCE_MAKES, RACE, REFUSED, REFUSED_MAKES, RESENT,
    RESENT_MAKES, RESTARTED, STOPPED, STOPPED_MAKES, UNANSWERED, UNANSWERED_MAKES, UPDATES,
    VIEW_ANEW,
};
use pres_service::ServiceFault;
use pres_sim::sim_run;
use std::alloc::Global;
use std::process::Abort;

// What the script makes, and the exit status.
fn made(rt: &impl Abort, alloc: Global, script: &str) -> String {
    let mut output = Vec::new(alloc);
    let status = match sim_run(alloc, &mut script.as_bytes(), &mut output) {
        Ok(()) => 0,
        Err(fault) => ServiceFault::from(fault).status(),
    };
    let text = String::from_utf8(output).expect(rt, "text");
    format!(in alloc; "{text}status {status}\n").expect(rt, "memory")
}

// The script has to make this.
fn check(rt: &impl Abort, alloc: Global, script: &str, makes: &str) {
    let made = made(rt, alloc, script);
    assert_eq!(rt; made.as_str(), makes, "{script}");
}

// The lines of a told script that are expected, or the others.
fn lines_of(rt: &impl Abort, alloc: Global, script: &str, told: bool) -> String {
    let mut lines = String::new(alloc);
    for line in script.lines() {
        let (text, is_told) = match line.strip_prefix("> ") {
            Some(text) => (text, true),
            None => (line, false),
        };
        if is_told == told {
            lines.push_str(text).expect(rt, "memory");
            lines.push('\n').expect(rt, "memory");
        }
    }
    lines
}

// The script with a checkpoint behind the line at the place.
fn with_checkpoint(rt: &impl Abort, alloc: Global, script: &str, place: usize) -> String {
    let mut lines = String::new(alloc);
    for (at, line) in script.lines().enumerate() {
        lines.push_str(line).expect(rt, "memory");
        lines.push('\n').expect(rt, "memory");
        if at == place {
            lines.push_str("checkpoint\n").expect(rt, "memory");
        }
    }
    lines
}

// What was made, without the packets.
fn without_packets(rt: &impl Abort, alloc: Global, made: &str) -> String {
    let mut lines = String::new(alloc);
    for line in made.lines() {
        if !line.starts_with("up ") && !line.starts_with("down ") {
            lines.push_str(line).expect(rt, "memory");
            lines.push('\n').expect(rt, "memory");
        }
    }
    lines
}

// The whole script has to make what it says.
fn check_whole(rt: &impl Abort, alloc: Global, script: &str) {
    let made = made(rt, alloc, lines_of(rt, alloc, script, false).as_str());
    let wanted = lines_of(rt, alloc, script, true);
    assert_eq!(rt; made.as_str(), wanted.as_str(), "{script}");
}

// The whole script of these parts has to make what it says, up to the end of each part.
fn check_parts(rt: &impl Abort, alloc: Global, parts: &[(&str, &str)]) {
    let mut script = String::new(alloc);
    for (part, end) in parts {
        script.push_str(part).expect(rt, "memory");
        let ended = format!(in alloc; "{script}{end}").expect(rt, "memory");
        check_whole(rt, alloc, ended.as_str());
    }
}

// The script has to make what it tells.
fn check_told(rt: &impl Abort, alloc: Global, script: &str) {
    let made = made(rt, alloc, lines_of(rt, alloc, script, false).as_str());
    let said = without_packets(rt, alloc, made.as_str());
    let wanted = lines_of(rt, alloc, script, true);
    assert_eq!(rt; said.as_str(), wanted.as_str(), "{script}");
}

#[test]
fn clients_and_a_server_get_on(rt: HostRuntime) {
    for script in [
        LEFT,
        RESTARTED,
        LOST_ANSWER,
        KEPT_ANSWER,
        KEPT_PLAN,
        LATE,
        OLD,
        AGAIN,
        VIEW_ANEW,
        UPDATES,
        IN_ORDER,
    ] {
        check_told(&rt, rt.alloc(), script);
    }
}

#[test]
fn counters_count(rt: HostRuntime) {
    let alloc = rt.alloc();
    check_told(&rt, alloc, COUNTED);
    check_told(&rt, alloc, COUNTED_ONCE);
    for script in AT_THE_END {
        check_told(&rt, alloc, script);
    }
}

#[test]
fn sessions_come_and_go(rt: HostRuntime) {
    check_whole(&rt, rt.alloc(), BEFORE_ONLINE);
    check_whole(&rt, rt.alloc(), OLD_STAMPS);
    check_parts(&rt, rt.alloc(), ACROSS_A_LOSS);
}

#[test]
fn the_later_of_two_transactions_asks_again(rt: HostRuntime) {
    check_whole(&rt, rt.alloc(), RACE);
}

#[test]
fn scripts_make_what_they_say(rt: HostRuntime) {
    for (script, makes) in [
        (PRESENCE, PRESENCE_MAKES),
        (STOPPED, STOPPED_MAKES),
        (UNANSWERED, UNANSWERED_MAKES),
        (REFUSED, REFUSED_MAKES),
        (RESENT, RESENT_MAKES),
    ] {
        check(&rt, rt.alloc(), script, makes);
    }
}

#[test]
fn checkpoints_are_never_seen(rt: HostRuntime) {
    let alloc = rt.alloc();
    for (script, makes) in [
        (STOPPED, STOPPED_MAKES),
        (UNANSWERED, UNANSWERED_MAKES),
        (REFUSED, REFUSED_MAKES),
    ] {
        for place in 0..script.lines().count() {
            let kept = with_checkpoint(&rt, alloc, script, place);
            check(&rt, alloc, kept.as_str(), makes);
        }
    }
}

#[test]
fn bad_scripts_are_told(rt: HostRuntime) {
    for (script, makes) in BAD {
        check(&rt, rt.alloc(), script, makes);
    }
}
