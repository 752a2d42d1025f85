//! Looks at the file of a server that isn't running: `presence check`, `tree` and `history`.

use crate::tests::command::{Ran, run};
use crate::tests::files::{ServerFiles, new_place};
use sqlite::{Connection, FileStore, params};
use std::fs;
use std::net::{Net, TcpListener, TcpStream};
use std::process::Abort;
use std::random::RandomSource;
use std::sync::Wait;
use std::thread::Threads;
use std::time::Clock;

const OPEN: &str = r#"[{"e":"open","s":["alice",1,1]}]"#;

const SET: &str =
    r#"[{"e":"op","n":1,"op":{"op":"set","path":"/a/b","value":1},"out":{"wrote":[["/a/b",1]]},"q":1,"s":["alice",1,1]}]"#;

const SUPERSEDED: &str =
    r#"[{"e":"ended","q":null,"rows":[],"s":["alice",1,1],"why":"superseded"},{"e":"open","s":["alice",1,2]}]"#;

// A batch that may follow no `SET`: its message has the number of that one.
const TWICE: &str = r#"[{"e":"off","path":"/a","q":1,"s":["alice",1,1]}]"#;

type Database = Connection<FileStore<sqlite::File>>;

// A database with the tables of a server, and these rows, each a moment and a body.
fn make(
    host: &HostRuntime,
    rt: &impl Abort,
    place: &ServerFiles,
    rows: &[(i64, &str)],
) -> Database {
    place.clear(host);
    let mut database = Connection::open(host, place.file.as_str()).expect(rt, "a database");
    let made = database.execute_batch(
        "CREATE TABLE meta(name TEXT PRIMARY KEY, value INTEGER NOT NULL);
         CREATE TABLE batch(k INTEGER PRIMARY KEY, moment INTEGER NOT NULL, body TEXT NOT NULL);
         INSERT INTO meta(name, value) VALUES('format', 1)",
    );
    made.expect(rt, "tables");
    for (moment, body) in rows {
        let row = "INSERT INTO batch(moment, body) VALUES(?1, ?2)";
        let added = database.execute(row, params![*moment, *body]);
        added.expect(rt, "a row");
    }
    database
}

// Runs a command over the place's file, with further words.
fn look<
    H: Net<Listener = TcpListener, Stream = TcpStream>
        + Threads
        + Wait
        + Clock
        + RandomSource
        + Abort
        + Copy
        + Sync,
>(host: &HostRuntime, rt: &H, place: &ServerFiles, command: &str, more: &[&str]) -> Ran {
    let mut words = Vec::from_slice(
        host.alloc(),
        &["presence", command, place.file.as_str()],
    ).expect(rt, "memory");
    words.extend_from_slice(more).expect(rt, "memory");
    run(host, rt, words.as_slice(), &mut b"".as_slice())
}

#[test]
fn shows_a_history(rt: HostRuntime) {
    let place = new_place(&rt, &rt, "shown");
    drop(make(
        &rt,
        &rt,
        &place,
        &[(1_000, OPEN), (2_000, SET), (3_000, SUPERSEDED)],
    ));
    let counts = "number 4\nbatches 3\nopen sessions 1\nlegal\n";
    look(&rt, &rt, &place, "check", &[]).expect(&rt, 0, counts, "");
    let tree = "tree {\"a\":{\"b\":1}}\n";
    look(&rt, &rt, &place, "tree", &[]).expect(&rt, 0, tree, "");
    look(&rt, &rt, &place, "tree", &["/a"]).expect(&rt, 0, "tree {\"b\":1}\n", "");
    look(&rt, &rt, &place, "tree", &["a/b"]).expect(&rt, 0, "tree 1\n", "");
    look(&rt, &rt, &place, "tree", &["/b"]).expect(&rt, 0, "tree null\n", "");
    let first = r#"{"entry":{"e":"open","s":["alice",1,1]},"moment":1000,"number":1}
{"entry":{"e":"op","n":1,"op":{"op":"set","path":"/a/b","value":1},"out":{"wrote":[["/a/b",1]]},"q":1,"s":["alice",1,1]},"moment":2000,"number":2}
{"entry":{"e":"ended","q":null,"rows":[],"s":["alice",1,1],"why":"superseded"},"moment":3000,"number":3}
"#;
    let last = r#"{"entry":{"e":"open","s":["alice",1,2]},"moment":3000,"number":4}
"#;
    let all = format!(in rt.alloc(); "{first}{last}").expect(&rt, "memory");
    look(&rt, &rt, &place, "history", &[]).expect(&rt, 0, all.as_str(), "");
    look(&rt, &rt, &place, "history", &["--from", "4"]).expect(&rt, 0, last, "");
    look(&rt, &rt, &place, "history", &["--from", "5"]).expect(&rt, 0, "", "");
    place.clear(&rt);
}

const BAD_ROW: &str =
    "presence: store refused 4\npresence: a row of the file is bad: `presence check` says which\n";

#[test]
fn tells_the_first_bad_row(rt: HostRuntime) {
    let place = new_place(&rt, &rt, "bad");
    drop(make(
        &rt,
        &rt,
        &place,
        &[(1_000, OPEN), (2_000, SET), (3_000, "[]"), (3_000, TWICE)],
    ));
    look(&rt, &rt, &place, "check", &[]).expect(&rt, 3, "row 3 unreadable\n", BAD_ROW);
    look(&rt, &rt, &place, "tree", &[]).expect(&rt, 3, "", BAD_ROW);
    look(&rt, &rt, &place, "history", &[]).expect(&rt, 3, "", BAD_ROW);
    drop(make(
        &rt,
        &rt,
        &place,
        &[(1_000, OPEN), (2_000, SET), (3_000, TWICE), (3_000, "[]")],
    ));
    look(&rt, &rt, &place, "check", &[]).expect(&rt, 3, "row 3 not legal\n", BAD_ROW);
    look(&rt, &rt, &place, "tree", &[]).expect(&rt, 3, "", BAD_ROW);
    look(&rt, &rt, &place, "history", &[]).expect(&rt, 3, "", BAD_ROW);
    place.clear(&rt);
}

// Each command is refused so, and prints nothing.
fn expect_refused<
    H: Net<Listener = TcpListener, Stream = TcpStream>
        + Threads
        + Wait
        + Clock
        + RandomSource
        + Abort
        + Copy
        + Sync,
>(host: &HostRuntime, rt: &H, place: &ServerFiles, faults: &str) {
    for command in ["check", "tree", "history"] {
        look(host, rt, place, command, &[]).expect(rt, 3, "", faults);
    }
}

// A lock is its process's, so no test here finds a file in use: `.ci/operations` looks at one.
#[test]
fn refuses_a_file(rt: HostRuntime) {
    let place = new_place(&rt, &rt, "refused");
    let missing = "presence: store refused 2\npresence: there is no such file\n";
    expect_refused(&rt, &rt, &place, missing);
    assert!(rt; fs::metadata(&rt, place.file.as_str()).is_err());
    fs::write(
        &rt,
        place.file.as_str(),
        "no database at all, and too short for one",
    )
    .expect(&rt, "a file");
    let unread =
        "presence: store refused 2\npresence: the file can't be read, or it is no SQLite database\n";
    expect_refused(&rt, &rt, &place, unread);
    let mut other = make(&rt, &rt, &place, &[]);
    other
        .execute("UPDATE meta SET value = 3", &[])
        .expect(&rt, "another format");
    drop(other);
    let version =
        "presence: store refused 5\npresence: the file is of another version of this program\n";
    expect_refused(&rt, &rt, &place, version);
    let foreign = ServerFiles {
        address: String::new(rt.alloc()),
        file: place.foreign(&rt, &rt),
    };
    let not_ours = "presence: store refused 3\npresence: the file is another program's database\n";
    expect_refused(&rt, &rt, &foreign, not_ours);
    place.clear(&rt);
}

// A file without a byte holds no history yet, as for a server.
#[test]
fn takes_an_empty_file_as_a_new_one(rt: HostRuntime) {
    let place = new_place(&rt, &rt, "empty");
    fs::write(&rt, place.file.as_str(), "").expect(&rt, "a file");
    let counts = "number 0\nbatches 0\nopen sessions 0\nlegal\n";
    look(&rt, &rt, &place, "check", &[]).expect(&rt, 0, counts, "");
    look(&rt, &rt, &place, "tree", &[]).expect(&rt, 0, "tree null\n", "");
    look(&rt, &rt, &place, "history", &[]).expect(&rt, 0, "", "");
    let left = fs::metadata(&rt, place.file.as_str()).expect(&rt, "the file");
    assert_eq!(rt; left.len(), 0);
    place.clear(&rt);
}

// The bytes of the place's file and of its log.
fn bytes_of(host: &HostRuntime, rt: &impl Abort, place: &ServerFiles) -> (Vec<u8>, Vec<u8>) {
    let log = format!(in host.alloc(); "{}-wal", place.file).expect(rt, "memory");
    (
        fs::read(host, place.file.as_str()).expect(rt, "the file"),
        fs::read(host, log.as_str()).expect(rt, "its log"),
    )
}

#[test]
fn writes_nothing(rt: HostRuntime) {
    let place = new_place(&rt, &rt, "read");
    drop(make(&rt, &rt, &place, &[(1_000, OPEN), (2_000, SET)]));
    let (file, log) = bytes_of(&rt, &rt, &place);
    for command in ["check", "tree", "history"] {
        drop(look(&rt, &rt, &place, command, &[]));
    }
    let (file_after, log_after) = bytes_of(&rt, &rt, &place);
    assert!(rt; file_after.as_slice() == file.as_slice());
    assert!(rt; log_after.as_slice() == log.as_slice());
    place.clear(&rt);
}
