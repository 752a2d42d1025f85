//! Command lines, and their exit statuses.

use pres_command::presence_run;
use std::io;
use std::io::{Read, Write};
use std::net::{Net, TcpListener, TcpStream};
use std::process::Abort;
use std::random::RandomSource;
use std::sync::Wait;
use std::thread::Threads;
use std::time::Clock;

// Takes nothing.
#[derive(Drop)]
struct Clogged;

impl Write for Clogged {
    fn write(&mut self, _buf: &[u8]) -> io::Result<usize> {
        Err(io::Error::from(io::ErrorKind::BrokenPipe))
    }

    fn flush(&mut self) -> io::Result<()> {
        Ok(())
    }
}

/// What a run wrote, and its exit status.
#[derive(Drop)]
pub(crate) struct Ran {
    status: u8,
    output: Vec<u8>,
    faults: Vec<u8>,
}

impl Ran {
    /// It must have written this, with this status.
    pub(crate) fn expect(&self, rt: &impl Abort, status: u8, output: &str, faults: &str) {
        assert_eq!(rt; self.status, status, "{output}");
        assert!(rt; self.output.as_slice() == output.as_bytes(), "{output}");
        assert!(rt; self.faults.as_slice() == faults.as_bytes(), "{output}");
    }

    // Its status must be this: with 0 it wrote only what was asked for, and else only why.
    fn expect_status(&self, rt: &impl Abort, words: &[&str], status: u8) {
        assert_eq!(rt; self.status, status, "{words:?}");
        assert_eq!(rt; self.output.is_empty(), status != 0, "{words:?}");
        assert_eq!(rt; self.faults.is_empty(), status == 0, "{words:?}");
    }
}

/// Runs the program with the words and the input.
pub(crate) fn run<
    H: Net<Listener = TcpListener, Stream = TcpStream>
        + Threads
        + Wait
        + Clock
        + RandomSource
        + Copy
        + Sync,
    R: Read,
>(host: &HostRuntime, rt: &H, words: &[&str], input: &mut R) -> Ran {
    let alloc = host.alloc();
    let mut output = Vec::new(alloc);
    let mut faults = Vec::new(alloc);
    let status = presence_run(host, rt, words, input, None, &mut output, &mut faults);
    Ran {
        status,
        output,
        faults,
    }
}

#[test]
fn applies_lines(rt: HostRuntime) {
    let words = ["presence", "apply"];
    let ran = run(&rt, &rt, &words, &mut b"".as_slice());
    ran.expect(&rt, 0, "tree null\n", "");
    let set = r#"{"now":1000,"op":"set","path":"/a","value":1}"#;
    let ran = run(&rt, &rt, &words, &mut set.as_bytes());
    ran.expect(&rt, 0, "1 wrote\ntree {\"a\":1}\n", "");
    let ran = run(&rt, &rt, &words, &mut b"x\n".as_slice());
    let refused = "refused 12 NotJson\ntree null\n";
    ran.expect(&rt, 1, refused, "presence: input refused\n");
}

// The words, each after a blank, must give this status.
fn check<
    H: Net<Listener = TcpListener, Stream = TcpStream>
        + Threads
        + Wait
        + Clock
        + RandomSource
        + Abort
        + Copy
        + Sync,
>(host: &HostRuntime, rt: &H, words: &str, status: u8) {
    let mut list = Vec::new(host.alloc());
    for word in words.split(' ') {
        list.push(word).expect(rt, "memory");
    }
    let ran = run(host, rt, list.as_slice(), &mut b"".as_slice());
    ran.expect_status(rt, list.as_slice(), status);
}

#[test]
fn reads_its_words(rt: HostRuntime) {
    for (words, status) in [
        ("presence", 2),
        ("presence nosuch", 2),
        ("presence apply x", 2),
        ("presence serve 127.0.0.1:1", 2),
        ("presence serve 127.0.0.1:1 f --connections 0", 2),
        ("presence serve 127.0.0.1:1 f --connections 1025", 2),
        ("presence serve 127.0.0.1:1 /no/such/folder/f", 3),
        ("presence client 127.0.0.1:1 alice", 2),
        ("presence client 127.0.0.1:1 alice 0", 2),
        ("presence client 127.0.0.1:1 a! 1", 2),
        ("presence client 127.0.0.1:1 alice 1", 4),
        ("presence check", 2),
        ("presence check f g", 2),
        ("presence check /no/such/folder/f", 3),
        ("presence tree", 2),
        ("presence tree f /a.b", 2),
        ("presence tree f /a /b", 2),
        ("presence tree /no/such/folder/f", 3),
        ("presence history", 2),
        ("presence history f --from 0", 2),
        ("presence history f --from 9007199254740992", 2),
        ("presence history f --from", 2),
        ("presence history /no/such/folder/f", 3),
        ("presence --help", 0),
        ("presence check --help", 0),
        ("presence tree --help", 0),
        ("presence history --help", 0),
        ("presence --version", 0),
        ("presence apply", 0),
    ] {
        check(&rt, &rt, words, status);
    }
}

// A help that can't be written.
#[test]
fn tells_that_a_write_failed(rt: HostRuntime) {
    let mut faults = Vec::new(rt.alloc());
    let words = ["presence", "--help"];
    let mut input = b"".as_slice();
    let ended = presence_run(
        &rt,
        &rt,
        &words,
        &mut input,
        None,
        &mut Clogged,
        &mut faults,
    );
    assert_eq!(rt; ended, 1);
}
