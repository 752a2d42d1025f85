//! Plays scenarios of a hub and of what it keeps, each named by a word, for runs in which an
//! allocation is refused. Each prints its results in lines. A call that is refused for lack of
//! memory is made again; where a hub goes down, it is started again from what its keeper holds.
//!
//! - `down`: two clients write, one after the other, each to a hub of its own over the same keeper;
//! - `slow-reader`: a client writes until another one, who takes nothing, is ended;
//! - `saved-rows`: batches are kept as rows of a database;
//! - `bad-frames`: a connection brings what is no message.
#![tactic(auto)]

mod callers;
mod frames;
mod guests;
mod hub;
mod reader;
mod rows;

use crate::guests::{down, slow_reader};
use anyhow::{Result, anyhow};
use std::env;
use std::sync::Wait;
use std::thread::Threads;
use std::time::Clock;

// What the scenario shows.
fn played<R: Wait + Threads + Clock + Sync>(
    host: &HostRuntime,
    rt: &R,
    name: &str,
) -> Result<String> {
    let alloc = host.alloc();
    match name {
        "down" => down(alloc),
        "slow-reader" => slow_reader(alloc),
        "saved-rows" => rows::play(alloc),
        "bad-frames" => frames::play(rt, alloc),
        _ => Err(anyhow!("no such scenario")),
    }
}

// Plays the scenarios that the words name.
fn run<R: Wait + Threads + Clock + Sync>(host: &HostRuntime, rt: &R) -> Result<()> {
    let words: Vec<String> = env::args(host)?.collect(host.alloc())?;
    // the first word is the program's name
    for word in words.iter().skip(1) {
        let lines = played(host, rt, word.as_str())?;
        print!(host; "{lines}")?;
    }
    Ok(())
}

fn main(rt: HostRuntime) -> Result<()> {
    run(&rt, &rt)
}
