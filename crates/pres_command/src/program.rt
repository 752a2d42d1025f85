//! The program: its words and its streams.

ghost use Rattle.std.specs.Prelude.{◌≡◌, ◌⊎◌, ◌≢◌, ◌++◌, ℕ, IfSome, IsOk, List, OnOk, codes, map};
ghost use Rattle.std.specs.Io.KnownBytes.{Appends};
ghost use Rattle.clap.specs.Words.{Row, kind_of};
ghost use Rattle.pres_apply.specs.Lines.{Finished, Stopped};
ghost use Rattle.pres_service.specs.Outputs.{listening_line, number_line};
ghost use Rattle.pres_sim.specs.Scripts.{IsScript};
ghost use Rattle.pres_service.specs.ClientRuns.{HasRunClient};
ghost use Rattle.pres_inspect.specs.Reports.{PrintsSomeHistory, check_text, tree_text};
ghost use Rattle.pres_command.specs.Runs.{Asks, HasCalled, HasListed, HasServed, HasViewed, path_given};
ghost use Rattle.pres_command.specs.Statuses.{IsStatus};
ghost use Rattle.pres_command.specs.Words.{AreTaken, AsksApply, AsksAnother, IsMistake};

use crate::advice::{client_advice, server_advice};
use crate::words::{ClientWords, Request, ServerWords, Viewing, read_words};
use clap::Error;
use clap::error::ErrorKind;
use pres_apply::{RunFault, apply_run};
use pres_faults::SavedFault;
use pres_ids::{ClientId, IdFault};
use pres_inspect::{InspectFault, check_run, history_run, is_in_use, tree_run};
use pres_service::{ClientOptions, InputEnd, NoRequest, ServiceFault, client_run, serve_run};
use pres_sim::sim_run;
use pres_tree::{Path, TreeFault};
use std::alloc::Global;
use std::io;
use std::io::{Read, Write};
use std::net::{Net, TcpListener, TcpStream};
use std::os::fd::RawFd;
use std::random::RandomSource;
use std::sync::Wait;
use std::thread::Threads;
use std::time::Clock;

// Exit statuses. Those of a server and of a client that end early are the service's.
const DONE: u8 = 0;

const REFUSED: u8 = 1;

const BAD_WORDS: u8 = 2;

const NO_MEMORY: u8 = 5;

/// Runs the program with the words of its command line, its own name first, and returns the exit
/// status: 0 done, 1 input refused, 2 bad words, 3 file refused, 4 socket refused, 5 out of memory.
/// A server without a count of connections runs on, unless it ends with the input. The descriptor is
/// the input's, none if a read of it doesn't wait.
pub fn presence_run<
    H: Net<Listener = TcpListener, Stream = TcpStream>
        + Threads
        + Wait
        + Clock
        + RandomSource
        + Copy
        + Sync,
    R: Read,
    W: Write,
    F: Write,
>(
    host: &HostRuntime,
    rt: &H,
    words: &[&str],
    input: &mut R,
    descriptor: Option<RawFd>,
    output: &mut W,
    faults: &mut F,
) -> u8
    ensures status { IsStatus result }
    ensures asked { AsksApply (map (λ word. word.now) words.now) → result ≢ 2 }
    ensures applied { AsksApply (map (λ word. word.now) words.now) → result ≡ 0
        → Finished (R.remaining input.old) (W.contents output.old) (W.contents output.new) }
    ensures served { (rows : List Row)
        → Asks (codes "serve") rows (map (λ word. word.now) words.now) → result ≡ 0
        → HasServed rows (W.contents output.old) (W.contents output.new) }
    ensures called { (rows : List Row)
        → Asks (codes "client") rows (map (λ word. word.now) words.now) → result ≡ 0
        → HasCalled rows (R.remaining input.old) (W.contents output.old) (W.contents output.new) }
    ensures played { (rows : List Row)
        → Asks (codes "sim") rows (map (λ word. word.now) words.now) → result ≡ 0
        → IfSome (R.remaining input.old) IsScript }
    ensures checked { (rows : List Row)
        → Asks (codes "check") rows (map (λ word. word.now) words.now) → result ≡ 0
        → PrintsSomeHistory check_text (W.contents output.old) (W.contents output.new) }
    ensures viewed { (rows : List Row)
        → Asks (codes "tree") rows (map (λ word. word.now) words.now) → result ≡ 0
        → HasViewed rows (W.contents output.old) (W.contents output.new) }
    ensures listed { (rows : List Row)
        → Asks (codes "history") rows (map (λ word. word.now) words.now) → result ≡ 0
        → HasListed rows (W.contents output.old) (W.contents output.new) }
    ensures untaken { ¬ AreTaken (map (λ word. word.now) words.now) → input.new ≡ input.old }
    ensures done { ¬ AsksAnother (map (λ word. word.now) words.now) → result ≡ 0
        → Finished (R.remaining input.old) (W.contents output.old) (W.contents output.new)
        ⊎ (input.new ≡ input.old) }
    ensures words { result ≡ 2 → (input.new ≡ input.old) × (output.new ≡ output.old) }
    ensures memory { ¬ AsksAnother (map (λ word. word.now) words.now) → result ≡ 5
        → Stopped (R.remaining input.old) (R.remaining input.new)
        (W.contents output.old) (W.contents output.new) }
{
    let alloc = host.alloc();
    match read_words(alloc, words) {
        Ok(Request::Apply) => {
            let status = apply_status(alloc, input, output);
            tell(status, faults);
            status
        }
        Ok(Request::Sim) => sim_status(alloc, input, output, faults),
        Ok(Request::Serve(words)) => {
            serve_status(host, rt, alloc, words, input, descriptor, output, faults)
        }
        Ok(Request::Client(calling)) => client_status(rt, alloc, calling, input, output, faults),
        Ok(Request::Check(file)) => status_of(check_run(host, file, output), faults),
        Ok(Request::Tree(viewing)) => tree_status(host, viewing, output, faults),
        Ok(Request::History(listing)) => {
            let from = listing.from.unwrap_or(1);
            status_of(history_run(host, listing.file, from, output), faults)
        }
        Err(error) => explain(&error, output, faults),
    }
}

// Runs `presence apply`, and returns the exit status.
fn apply_status<R: Read, W: Write>(alloc: Global, input: &mut R, output: &mut W) -> u8
    ensures status { IsStatus result }
    ensures words { result ≢ 2 }
    ensures done { result ≡ 0 → Finished (R.remaining input.old)
        (W.contents output.old) (W.contents output.new) }
    ensures memory { result ≡ 5 → Stopped (R.remaining input.old) (R.remaining input.new)
        (W.contents output.old) (W.contents output.new) }
{
    match apply_run(alloc, input, output) {
        Ok(false) => DONE,
        Ok(true) => REFUSED,
        Err(RunFault::Memory) => NO_MEMORY,
        Err(_) => REFUSED,
    }
}

// Runs `presence sim`, and returns the exit status.
fn sim_status<R: Read, W: Write, F: Write>(
    alloc: Global,
    input: &mut R,
    output: &mut W,
    faults: &mut F,
) -> u8
    ensures status { IsStatus result }
    ensures words { result ≢ 2 }
    ensures done { result ≡ 0 → IfSome (R.remaining input.old) IsScript }
{
    match sim_run(alloc, input, output) {
        Ok(()) => DONE,
        Err(fault) => tell_fault(&ServiceFault::from(fault), faults),
    }
}

// Runs `presence serve`, and returns the exit status.
fn serve_status<
    H: Net<Listener = TcpListener, Stream = TcpStream>
        + Threads
        + Wait
        + Clock
        + RandomSource
        + Copy
        + Sync,
    R: Read,
    W: Write,
    F: Write,
>(
    host: &HostRuntime,
    rt: &H,
    alloc: Global,
    words: ServerWords<'_>,
    input: &mut R,
    descriptor: Option<RawFd>,
    output: &mut W,
    faults: &mut F,
) -> u8
    ensures status { IsStatus result }
    ensures words { result ≢ 2 }
    ensures done { result ≡ 0 → (number : ℕ) × Appends
        (W.contents output.old) (W.contents output.new)
        (listening_line words.entry.serving.address.now ++ number_line number) }
{
    match serve(host, rt, alloc, words, input, descriptor, output, faults) {
        Ok(()) => DONE,
        Err(fault) => {
            let status = tell_fault(&fault, faults);
            let is_in_use = matches!(fault, ServiceFault::Store(SavedFault::Database))
                && is_in_use(host, words.serving.file);
            tell_advice(server_advice(is_in_use, &fault), faults);
            status
        }
    }
}

// Runs a server, until the input ends if the words say so.
fn serve<
    H: Net<Listener = TcpListener, Stream = TcpStream>
        + Threads
        + Wait
        + Clock
        + RandomSource
        + Copy
        + Sync,
    R: Read,
    W: Write,
    F: Write,
>(
    host: &HostRuntime,
    rt: &H,
    alloc: Global,
    words: ServerWords<'_>,
    input: &mut R,
    descriptor: Option<RawFd>,
    output: &mut W,
    faults: &mut F,
) -> Result<(), ServiceFault>
    ensures said { OnOk result ((number : ℕ) × Appends
        (W.contents output.old) (W.contents output.new)
        (listening_line words.entry.serving.address.now ++ number_line number)) }
{
    let serving = words.serving;
    if words.until_stdin_ends {
        let mut end = InputEnd::of(rt, alloc, input, descriptor);
        return serve_run(host, rt, alloc, serving, &mut end, output, faults);
    }
    serve_run(host, rt, alloc, serving, &mut NoRequest, output, faults)
}

// Runs `presence client`, and returns the exit status: that of bad words if the client's id is
// invalid.
fn client_status<
    H: Net<Listener = TcpListener, Stream = TcpStream>
        + Threads
        + Wait
        + Clock
        + RandomSource
        + Copy
        + Sync,
    R: Read,
    W: Write,
    F: Write,
>(
    rt: &H,
    alloc: Global,
    calling: ClientWords<'_>,
    input: &mut R,
    output: &mut W,
    faults: &mut F,
) -> u8
    ensures status { IsStatus result }
    ensures words { result ≡ 2 → (input.new ≡ input.old) × (output.new ≡ output.old) }
    ensures done { result ≡ 0 → HasRunClient calling.entry.id.now calling.entry.incarnation
        (R.remaining input.old) (W.contents output.old) (W.contents output.new) }
{
    let id = match ClientId::parse(alloc, calling.id) {
        Ok(id) => id,
        Err(IdFault::Memory) => {
            tell(NO_MEMORY, faults);
            return NO_MEMORY;
        }
        Err(_) => {
            let _ = faults.write_all(b"presence: bad client id\n");
            return BAD_WORDS;
        }
    };
    let visit = ClientOptions {
        address: calling.address,
        id,
        incarnation: calling.incarnation,
    };
    match client_run(rt, alloc, visit, input, output) {
        Ok(()) => DONE,
        Err(fault) => {
            let status = tell_fault(&fault, faults);
            tell_advice(client_advice(&fault), faults);
            status
        }
    }
}

// Runs `presence tree`, and returns the exit status: that of bad words if the path is invalid.
fn tree_status<W: Write, F: Write>(
    host: &HostRuntime,
    viewing: Viewing<'_>,
    output: &mut W,
    faults: &mut F,
) -> u8
    ensures status { IsStatus result }
    ensures words { result ≡ 2 → output.new ≡ output.old }
    ensures done { result ≡ 0 → PrintsSomeHistory (tree_text (path_given viewing.entry))
        (W.contents output.old) (W.contents output.new) }
{
    let path = match Path::parse(host.alloc(), viewing.path.unwrap_or("")) {
        Ok(path) => path,
        Err(TreeFault::Memory) => {
            tell(NO_MEMORY, faults);
            return NO_MEMORY;
        }
        Err(_) => {
            let _ = faults.write_all(b"presence: bad path\n");
            return BAD_WORDS;
        }
    };
    let status = status_of(tree_run(host, viewing.file, &path, output), faults);
    drop(path);
    status
}

// The exit status of a look at a file. If it ended early, prints on the error stream why, and what to
// do.
fn status_of<F: Write>(looked: Result<(), InspectFault>, faults: &mut F) -> u8
    ensures status { IsStatus result }
    ensures words { result ≢ 2 }
    ensures done { result ≡ 0 → IsOk looked }
{
    match looked {
        Ok(()) => DONE,
        Err(fault) => {
            let status = fault.status();
            let _ = write!(faults, "presence: {fault}\npresence: {}\n", fault.advice());
            status
        }
    }
}

// Prints on the error stream why a server, a client or a script ended early, and returns the exit
// status.
fn tell_fault<F: Write>(fault: &ServiceFault, faults: &mut F) -> u8
    ensures status { IsStatus result }
    ensures words { result ≢ 2 }
    ensures early { result ≢ 0 }
{
    let _ = write!(faults, "presence: {fault}\n");
    fault.status()
}

// Prints on the error stream what to do about it, in a line.
fn tell_advice<F: Write>(advice: &str, faults: &mut F) {
    let _ = write!(faults, "presence: {advice}\n");
}

// Prints on the error stream why the status is not 0. If that stream fails there is nothing left to
// do.
fn tell<F: Write>(status: u8, faults: &mut F) {
    let line: &[u8] = match status {
        REFUSED => b"presence: input refused\n",
        NO_MEMORY => b"presence: out of memory\n",
        _ => b"",
    };
    let _ = faults.write_all(line);
}

// Help and the version go to the output, with status 0; a mistake in the words goes to the error
// stream, with status 2.
fn explain<W: Write, F: Write>(error: &Error, output: &mut W, faults: &mut F) -> u8
    ensures status { IsStatus result }
    ensures words { result ≡ 2 → output.new ≡ output.old }
    ensures memory { result ≡ 5 → output.new ≡ output.old }
    ensures refused { kind_of error.now ≡ ErrorKind.OutOfMemory → result ≡ 5 }
    ensures mistake { IsMistake (kind_of error.now) → result ≢ 0 }
{
    if error.kind() == ErrorKind::OutOfMemory {
        tell(NO_MEMORY, faults);
        return NO_MEMORY;
    }
    if error.use_stderr() {
        let _ = write!(faults, "{error}");
        return BAD_WORDS;
    }
    if write!(output, "{error}").is_err() {
        tell(REFUSED, faults);
        return REFUSED;
    }
    DONE
}

/// Prints on the error stream why the command line could not be parsed, and returns the exit
/// status: 5 for lack of memory, else 2.
pub fn explain_unread<F: Write>(error: &io::Error, faults: &mut F) -> u8
    ensures { (result ≡ 2) ⊎ (result ≡ 5) }
{
    if error.kind() == io::ErrorKind::OutOfMemory {
        tell(NO_MEMORY, faults);
        return NO_MEMORY;
    }
    let _ = faults.write_all(b"presence: the command line could not be read\n");
    BAD_WORDS
}
