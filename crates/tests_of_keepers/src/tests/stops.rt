//! Stops: from some call on each call on one of the two files fails, and then the machine comes back,
//! with what was synced alone or with all that was written. What is opened then has the batches
//! that were committed, with or without the one at which it stopped, or is no file of ours, where it
//! was never answered that the tables were made.

ghost use Rattle.std.specs.Prelude.{IsTrue};

use crate::tests::turns::{listed, step};
use crate::tests::words::{expect_text, refused, said};
use pres_keeper::Keeper;
use pres_saved::{Commit, SqlKeeper, Watch, Watched};
use sqlite::{Alter, Connection, FileStore, Files, Options};
use sqlite_disk::{Crash, Disk, Fuse, Memory};
use std::alloc::Global;
use std::process::Abort;
use std::sync::atomic::{AtomicUsize, Ordering};

// The turns of a run, each with its batch. The server stops after the commit of the last one.
const TURNS: &str =
    r#"1000 {"m":"hello","s":["alice",1,1]} => 1 1000 [{"e":"open","s":["alice",1,1]}]
2000 {"m":"hello","s":["bob",1,1]} => 2 2000 [{"e":"open","s":["bob",1,1]}]
stop 3000 {"m":"op","n":1,"op":{"op":"set","path":"/x","value":7},"q":1,"s":["bob",1,1]} => 3 3000 [{"e":"op","n":1,"op":{"op":"set","path":"/x","value":7},"out":{"wrote":[["/x",7]]},"q":1,"s":["bob",1,1]}]"#;

// The first turn that writes is this one.
const WRITES_AT: usize = 3;

// How far a run came.
#[derive(Clone, Copy)]
struct Ran {
    created: bool,
    commits: usize,
    stopped: bool,
}

const NOT_OPENED: Ran = Ran {
    created: false,
    commits: 0,
    stopped: true,
};

// A log that is copied into the database's file every few commits.
fn options() -> Options {
    Options {
        checkpoint_frames: 3,
        ..Options::new(7)
    }
}

// The batches of this many turns.
fn batches(rt: &impl Abort, alloc: Global, count: usize) -> String {
    let mut text = said(rt, alloc, "batches");
    for line in TURNS.lines().take(count) {
        let (_, batch) = line.split_once(" => ").expect(rt, "a batch");
        text.push_str(", ").expect(rt, "memory");
        text.push_str(batch).expect(rt, "memory");
    }
    text
}

// What must be found after this many commits: the batches, and the server that they make.
fn wanted(rt: &impl Abort, alloc: Global, commits: usize) -> String {
    let batches = batches(rt, alloc, commits);
    let tree = if commits < WRITES_AT {
        "null"
    } else {
        r#"{"x":7}"#
    };
    format!(in alloc; "{batches}; {commits} entries, {tree}").expect(rt, "memory")
}

// The batches, and the server that they make.
pub(crate) fn read<K: Keeper>(rt: &impl Abort, alloc: Global, keeper: &mut K) -> String {
    let batches = listed(rt, alloc, keeper);
    let server = step(rt, alloc, keeper, "server");
    format!(in alloc; "{batches}; {server}").expect(rt, "memory")
}

// Whether the keeper refuses to load the batches, of which there must be this many.
fn refuses_load<K: Keeper>(rt: &impl Abort, alloc: Global, keeper: &mut K, commits: usize) -> bool {
    let text = read(rt, alloc, keeper);
    if text.ends_with("Database") {
        return true;
    }
    expect_text(rt, text, wanted(rt, alloc, commits).as_str());
    false
}

// Makes the turns, up to the first that the keeper refuses, and then loads what is kept, as each of two
// restarts does.
fn kept<K: Keeper>(rt: &impl Abort, alloc: Global, keeper: &mut K) -> Ran {
    let mut ran = Ran {
        created: true,
        commits: 0,
        stopped: true,
    };
    for line in TURNS.lines() {
        let (turn, _) = line.split_once(" => ").expect(rt, "a batch");
        let text = step(rt, alloc, keeper, turn);
        if text.as_str() == "Database" {
            return ran;
        }
        ran.commits = ran.commits.saturating_add(1);
    }
    for _ in 0..2 {
        if refuses_load(rt, alloc, keeper, ran.commits) {
            return ran;
        }
    }
    Ran {
        stopped: false,
        ..ran
    }
}

// A whole run over a new database.
fn run<S: Alter + Drop>(
    rt: &impl Abort,
    alloc: Global,
    connection: Connection<S>,
) -> (Connection<S>, Ran) {
    if !connection.is_autocommit() {
        panic!(rt; "a transaction is open");
    }
    match SqlKeeper::create(alloc, connection) {
        Ok(keeper) => {
            let mut keeper = keeper;
            let ran = kept(rt, alloc, &mut keeper);
            (keeper.into_connection(), ran)
        }
        Err((_, connection)) => (connection, NOT_OPENED),
    }
}

// Copies the log into the database's file, and gives both back.
fn closed<D: Disk + Drop>(connection: Connection<FileStore<D>>, ran: Ran) -> (Files<D>, Ran) {
    match connection.close_files() {
        Ok(files) => (files, ran),
        Err((_, store)) => (
            store.close(),
            Ran {
                stopped: true,
                ..ran
            },
        ),
    }
}

// The database in the files, or the files where it isn't opened.
pub(crate) fn opened<D: Disk + Drop>(
    alloc: Global,
    files: Files<D>,
) -> Result<Connection<FileStore<D>>, Files<D>>
    requires log { IsTrue (D.Disk.is_usable files.log) }
    requires db { IsTrue (D.Disk.is_usable files.db) }
{
    match Connection::open_files(alloc, files, options()) {
        Ok(connection) => Ok(connection),
        Err((_, left)) => Err(left.into_files()),
    }
}

// What a run over these files, which hold nothing, leaves in them.
fn left<D: Disk + Drop>(rt: &impl Abort, alloc: Global, files: Files<D>) -> (Files<D>, Ran)
    requires log { IsTrue (D.Disk.is_usable files.log) }
    requires db { IsTrue (D.Disk.is_usable files.db) }
{
    match opened(alloc, files) {
        Ok(connection) => {
            let (connection, ran) = run(rt, alloc, connection);
            closed(connection, ran)
        }
        Err(files) => (files, NOT_OPENED),
    }
}

// What is found in a database.
pub(crate) fn found<S: Alter + Drop>(
    rt: &impl Abort,
    alloc: Global,
    connection: Connection<S>,
) -> String {
    if !connection.is_autocommit() {
        panic!(rt; "a transaction is open");
    }
    match SqlKeeper::open(alloc, connection) {
        Ok(keeper) => {
            let mut keeper = keeper;
            let text = read(rt, alloc, &mut keeper);
            drop(keeper);
            text
        }
        Err((fault, connection)) => {
            drop(connection);
            refused(rt, alloc, fault)
        }
    }
}

// What is found in the files once the machine comes back, which loses what wasn't synced.
fn reopened<D: Crash + Drop>(rt: &impl Abort, alloc: Global, mut files: Files<D>) -> String {
    files.log.crash();
    files.db.crash();
    match opened(alloc, files) {
        Ok(connection) => found(rt, alloc, connection),
        Err(files) => {
            drop(files);
            said(rt, alloc, "not opened")
        }
    }
}

// A file of these bytes, all of them synced.
fn synced(rt: &impl Abort, alloc: Global, bytes: &[u8]) -> Fuse<Memory> {
    let mut memory = Memory::new(alloc);
    memory.write_at(0, bytes).expect(rt, "memory");
    memory.sync().expect(rt, "memory");
    Fuse::new(memory, u64::MAX)
}

// The files with all that was written, as after the death of the process alone.
pub(crate) fn with_all_written(
    rt: &impl Abort,
    alloc: Global,
    files: &Files<Fuse<Memory>>,
) -> Files<Fuse<Memory>> {
    let log = synced(rt, alloc, files.log.inner().bytes());
    let db = synced(rt, alloc, files.db.inner().bytes());
    Files { log, db }
}

// The result of a run whose files fail after this many calls, and what is found afterwards.
fn one(rt: &impl Abort, alloc: Global, calls: (u64, u64), loses: bool) -> (String, Ran) {
    let files = Files {
        log: Fuse::new(Memory::new(alloc), calls.0),
        db: Fuse::new(Memory::new(alloc), calls.1),
    };
    let (files, ran) = left(rt, alloc, files);
    if loses {
        return (reopened(rt, alloc, files), ran);
    }
    let files = with_all_written(rt, alloc, &files);
    (reopened(rt, alloc, files), ran)
}

// Whether what was found after a run is right, in a word.
fn verdict(rt: &impl Abort, alloc: Global, found: &str, ran: Ran) -> &'static str {
    if found == "NotOurs" && !ran.created {
        return "none";
    }
    if found == wanted(rt, alloc, ran.commits).as_str() {
        return "without";
    }
    let more = wanted(rt, alloc, ran.commits.saturating_add(1));
    if ran.created && ran.stopped && found == more.as_str() {
        return "with";
    }
    "wrong"
}

// What all runs with a stop came to.
#[derive(Clone, Copy)]
struct Seen {
    none: u64,
    without: u64,
    with: u64,
}

// Counts a run by the word on it.
fn count(rt: &impl Abort, seen: &mut Seen, calls: (u64, u64), word: &str) {
    match word {
        "none" => seen.none = seen.none.saturating_add(1),
        "without" => seen.without = seen.without.saturating_add(1),
        "with" => seen.with = seen.with.saturating_add(1),
        _ => panic!(rt; "at {} {}", calls.0, calls.1),
    }
}

// What the runs with stops at each call on one of the files came to, up to the first run without
// a stop, which is to find all that it kept.
fn stops(rt: &impl Abort, alloc: Global, on_log: bool, loses: bool) -> Seen {
    let mut seen = Seen {
        none: 0,
        without: 0,
        with: 0,
    };
    for number in 0..1000 {
        let calls = if on_log {
            (number, u64::MAX)
        } else {
            (u64::MAX, number)
        };
        let (found, ran) = one(rt, alloc, calls, loses);
        let word = verdict(rt, alloc, found.as_str(), ran);
        if ran.stopped || word == "wrong" {
            count(rt, &mut seen, calls, word);
        }
        if !ran.stopped {
            return seen;
        }
    }
    panic!(rt; "no run without a stop")
}

#[test]
fn stops_of_the_log_leave_what_was_committed(rt: HostRuntime) {
    let seen = stops(&rt, rt.alloc(), true, true);
    assert!(rt; seen.none > 0 && seen.without > 0);
    let seen = stops(&rt, rt.alloc(), true, false);
    assert!(rt; seen.none > 0 && seen.without > 0 && seen.with > 0);
}

#[test]
fn stops_of_the_database_leave_what_was_committed(rt: HostRuntime) {
    for loses in [true, false] {
        let seen = stops(&rt, rt.alloc(), false, loses);
        assert!(rt; seen.none > 0 && seen.without > 0);
    }
}

// How often each kind of commit was reported to a watch.
#[derive(Drop)]
struct Reports {
    taken: AtomicUsize,
    refused: AtomicUsize,
    shut: AtomicUsize,
}

// Counts the commits that are reported to it.
#[derive(Drop)]
struct Counting<'a> {
    reports: &'a Reports,
}

impl Watch for Counting<'_> {
    fn note(&self, commit: Commit) {
        let count = match commit {
            Commit::Taken => &self.reports.taken,
            Commit::Refused => &self.reports.refused,
            Commit::Shut => &self.reports.shut,
        };
        count.fetch_add(1, Ordering::SeqCst);
    }
}

// A run over a keeper that is watched.
fn watched<S: Alter + Drop>(
    rt: &impl Abort,
    alloc: Global,
    connection: Connection<S>,
    reports: &Reports,
) -> Ran {
    if !connection.is_autocommit() {
        panic!(rt; "a transaction is open");
    }
    match SqlKeeper::create(alloc, connection) {
        Ok(keeper) => {
            let mut keeper = Watched::new(keeper, Counting { reports });
            let ran = kept(rt, alloc, &mut keeper);
            drop(keeper);
            ran
        }
        Err((_, connection)) => {
            drop(connection);
            NOT_OPENED
        }
    }
}

// The result of a run whose log fails after this many calls, and how often commits were reported as
// taken, refused, and refused by a store that was shut.
fn reports_of(rt: &impl Abort, alloc: Global, calls: u64) -> (Ran, [usize; 3]) {
    let reports = Reports {
        taken: AtomicUsize::new(0),
        refused: AtomicUsize::new(0),
        shut: AtomicUsize::new(0),
    };
    let files = Files {
        log: Fuse::new(Memory::new(alloc), calls),
        db: Fuse::new(Memory::new(alloc), u64::MAX),
    };
    let ran = match opened(alloc, files) {
        Ok(connection) => watched(rt, alloc, connection, &reports),
        Err(files) => {
            drop(files);
            NOT_OPENED
        }
    };
    let counts = [
        reports.taken.load(Ordering::SeqCst),
        reports.refused.load(Ordering::SeqCst),
        reports.shut.load(Ordering::SeqCst),
    ];
    (ran, counts)
}

// Each commit is reported once, and where a sync of the log failed, the store as shut.
#[test]
fn each_commit_is_reported(rt: HostRuntime) {
    let mut all_shut: usize = 0;
    for number in 0..1000 {
        let (ran, [taken, refused, shut]) = reports_of(&rt, rt.alloc(), number);
        let refusals = refused.saturating_add(shut);
        all_shut = all_shut.saturating_add(shut);
        assert!(rt; taken == ran.commits && refusals <= 1);
        if !ran.stopped {
            assert!(rt; refusals == 0 && all_shut > 0);
            return;
        }
    }
    panic!(rt; "no run without a stop")
}
