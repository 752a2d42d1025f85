//! Stops while a file of format 1 is opened, which brings it to format 2: from some call on each call
//! on one of the two files fails, and then the machine comes back, with what was synced alone or with
//! all that was written. The file is of format 1 or 2 then, and its batches are the same.

ghost use Rattle.std.specs.Prelude.{IsTrue};
ghost use Rattle.sqlite_disk.specs.Memory.{memory_is_usable};

use crate::tests::keepers::meta;
use crate::tests::stops::{found, opened, read, with_all_written};
use crate::tests::words::expect_text;
use pres_saved::SqlKeeper;
use sqlite::{Alter, Connection, FileStore, Files};
use sqlite_disk::{Crash, Disk, Fuse, Memory};
use std::alloc::Global;
use std::process::Abort;

// The statements by which a file of format 1 with two batches was made.
const STATEMENTS: [&str; 5] = [
    "CREATE TABLE meta(name TEXT PRIMARY KEY, value INTEGER NOT NULL)",
    "CREATE TABLE batch(k INTEGER PRIMARY KEY, moment INTEGER NOT NULL, body TEXT NOT NULL)",
    "INSERT INTO meta(name, value) VALUES('format', 1)",
    r#"INSERT INTO batch(k, moment, body) VALUES(1, 1000, '[{"e":"open","s":["alice",1,1]}]')"#,
    r#"INSERT INTO batch(k, moment, body) VALUES(2, 1000, '[{"e":"op","n":1,"op":{"op":"set","path":"/a","value":1},"out":{"wrote":[["/a",1]]},"q":1,"s":["alice",1,1]}]')"#,
];

// The batches, and the server that they make.
const HELD: &str =
    r#"batches, 1 1000 [{"e":"open","s":["alice",1,1]}], 2 1000 [{"e":"op","n":1,"op":{"op":"set","path":"/a","value":1},"out":{"wrote":[["/a",1]]},"q":1,"s":["alice",1,1]}]; 2 entries, {"a":1}"#;

// The files that the statements leave.
fn made<D: Disk + Drop>(rt: &impl Abort, alloc: Global, files: Files<D>) -> Files<D>
    requires log { IsTrue (D.Disk.is_usable files.log) }
    requires db { IsTrue (D.Disk.is_usable files.db) }
{
    let mut connection = match opened(alloc, files) {
        Ok(connection) => connection,
        Err(files) => return files,
    };
    for statement in STATEMENTS {
        connection
            .execute(statement, &[])
            .expect(rt, "a statement that is run");
    }
    match connection.close_files() {
        Ok(files) => files,
        Err((_, store)) => store.close(),
    }
}

// A file in memory with these bytes, all of them synced.
pub(crate) fn holding(rt: &impl Abort, alloc: Global, bytes: &[u8]) -> Memory
    ensures { IsTrue (memory_is_usable result) }
{
    let mut memory = Memory::new(alloc);
    memory.write_at(0, bytes).expect(rt, "memory");
    memory.sync().expect(rt, "memory");
    memory.crash();
    memory
}

// How far a run came.
#[derive(Clone, Copy)]
struct Ran {
    upgraded: bool,
    stopped: bool,
}

const NOT_UPGRADED: Ran = Ran {
    upgraded: false,
    stopped: true,
};

// Opens the tables and reads them, and gives the connection back.
fn upgraded<S: Alter + Drop>(
    rt: &impl Abort,
    alloc: Global,
    connection: Connection<S>,
) -> (Connection<S>, Ran) {
    if !connection.is_autocommit() {
        panic!(rt; "a transaction is open");
    }
    match SqlKeeper::open(alloc, connection) {
        Ok(keeper) => {
            let mut keeper = keeper;
            let text = read(rt, alloc, &mut keeper);
            let stopped = text.ends_with("Database");
            if !stopped {
                expect_text(rt, text, HELD);
            }
            let ran = Ran {
                upgraded: true,
                stopped,
            };
            (keeper.into_connection(), ran)
        }
        Err((_, connection)) => (connection, NOT_UPGRADED),
    }
}

// The same over files, which are given back.
fn run<D: Disk + Drop>(rt: &impl Abort, alloc: Global, files: Files<D>) -> (Files<D>, Ran)
    requires log { IsTrue (D.Disk.is_usable files.log) }
    requires db { IsTrue (D.Disk.is_usable files.db) }
{
    let connection = match opened(alloc, files) {
        Ok(connection) => connection,
        Err(files) => return (files, NOT_UPGRADED),
    };
    let (connection, ran) = upgraded(rt, alloc, connection);
    match connection.close_files() {
        Ok(files) => (files, ran),
        Err((_, store)) => (
            store.close(),
            Ran {
                stopped: true,
                ..ran
            },
        ),
    }
}

// The format in the files once the machine comes back, and what is read of them when they are opened.
fn reopened<D: Crash + Drop>(
    rt: &impl Abort,
    alloc: Global,
    mut files: Files<D>,
) -> (String, String) {
    files.log.crash();
    files.db.crash();
    match opened(alloc, files) {
        Ok(connection) => {
            let (connection, format) = meta(rt, alloc, connection);
            (format, found(rt, alloc, connection))
        }
        Err(files) => {
            drop(files);
            panic!(rt; "not opened")
        }
    }
}

// A run over files of format 1 that fail after this many calls: how far it came, and what is found
// afterwards.
fn one(
    rt: &impl Abort,
    alloc: Global,
    old: &Files<Memory>,
    calls: (u64, u64),
    loses: bool,
) -> (Ran, (String, String)) {
    let log = holding(rt, alloc, old.log.bytes());
    let db = holding(rt, alloc, old.db.bytes());
    let files = Files {
        log: Fuse::new(log, calls.0),
        db: Fuse::new(db, calls.1),
    };
    let (files, ran) = run(rt, alloc, files);
    if loses {
        return (ran, reopened(rt, alloc, files));
    }
    let files = with_all_written(rt, alloc, &files);
    (ran, reopened(rt, alloc, files))
}

// How often each format was found.
#[derive(Clone, Copy)]
struct Seen {
    one: u64,
    two: u64,
}

// Counts the format, which is 2 where the file was answered to be opened.
fn count(rt: &impl Abort, seen: &mut Seen, ran: Ran, format: &str) {
    match format {
        "1" if !ran.upgraded => seen.one = seen.one.saturating_add(1),
        "2" => seen.two = seen.two.saturating_add(1),
        _ => panic!(rt; "format {format}"),
    }
}

// Stops at each call on one of the files, up to the first run without a stop. What is read is the same
// after each.
fn stops(rt: &impl Abort, alloc: Global, on_log: bool, loses: bool) -> Seen {
    let none = Files {
        log: Memory::new(alloc),
        db: Memory::new(alloc),
    };
    let old = made(rt, alloc, none);
    let mut seen = Seen { one: 0, two: 0 };
    for number in 0..1000 {
        let calls = if on_log {
            (number, u64::MAX)
        } else {
            (u64::MAX, number)
        };
        let (ran, (format, text)) = one(rt, alloc, &old, calls, loses);
        count(rt, &mut seen, ran, format.as_str());
        expect_text(rt, text, HELD);
        if !ran.stopped {
            drop(old);
            return seen;
        }
    }
    panic!(rt; "no run without a stop")
}

#[test]
fn stops_of_an_upgrade_leave_the_batches(rt: HostRuntime) {
    for loses in [true, false] {
        for on_log in [true, false] {
            let seen = stops(&rt, rt.alloc(), on_log, loses);
            assert!(rt; seen.one > 0 && seen.two > 0);
        }
    }
}
