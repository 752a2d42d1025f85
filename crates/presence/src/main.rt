//! The presence server: the command line, over the process's words and streams.
#![tactic(auto)]

use pres_command::{explain_unread, presence_run};
use std::alloc::AllocError;
use std::net::{Net, TcpListener, TcpStream};
use std::os::fd::AsRawFd;
use std::process::ExitCode;
use std::random::RandomSource;
use std::sync::Wait;
use std::thread::Threads;
use std::time::Clock;
use std::{env, io};

// Runs the program over the process's words and streams.
fn run<
    H: Net<Listener = TcpListener, Stream = TcpStream>
        + Threads
        + Wait
        + Clock
        + RandomSource
        + Copy
        + Sync,
>(host: &HostRuntime, rt: &H) -> io::Result<u8> {
    let all: Vec<String> = env::args(host)?.collect(host.alloc())?;
    let mut words = Vec::new(host.alloc());
    for word in &all {
        words.push(word.as_str()).map_err(AllocError::from)?;
    }
    Ok(presence_run(
        host,
        rt,
        words.as_slice(),
        &mut host.reader(),
        Some(host.stdin().as_raw_fd()),
        &mut host.stdout(),
        &mut host.stderr(),
    ))
}

fn main(rt: HostRuntime) -> ExitCode {
    match run(&rt, &rt) {
        Ok(status) => ExitCode::from(status),
        Err(error) => ExitCode::from(explain_unread(&error, &mut rt.stderr())),
    }
}
