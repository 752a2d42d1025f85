//! `presence client`: the calls of a client over TCP.

ghost use Rattle.std.specs.Prelude.{◌≡◌, ◌⊎◌, ℕ, map, IfOk, IfErr, IfSome, OnOk, MatchResult, Some, option_map};
ghost use Rattle.pres_service.specs.declared.client.LinesFault.TheVariants as unmade;
ghost use Rattle.pres_service.specs.declared.fault.ServiceFault.TheVariants as fault;
ghost use Rattle.pres_service.specs.ClientRuns.{HasRunClient, RunsClient};
ghost use Rattle.pres_script.specs.Lines.{AreLines, first_bad, line_of_bytes, lines_in, lines_of, without_last_feed, as_parsed};

use crate::fault::ServiceFault;
use pres_client::Client;
use pres_client_connection::drive_client;
use pres_ids::{ClientId, Number};
use pres_script::{Line, ScriptFault, bytes_of, line_of, texts_of};
use std::alloc::{AllocError, AllocFailed, Global};
use std::io::{Read, Write};
use std::net::{Net, TcpListener, TcpStream};
use std::random::RandomSource;
use std::time::Duration;
use tungstenite::RandomKeys;

// How long a read waits for the server, in milliseconds.
const READ_MILLIS: u64 = 50;

/// Where a client goes, and as whom.
#[derive(Drop)]
pub struct ClientOptions<'a> {
    /// The server's address.
    pub address: &'a str,
    /// The client.
    pub id: ClientId,
    /// Which start of the client this is, greater than those before.
    pub incarnation: Number,
}

/// Takes a client online at the address, does what the lines of the input say, and takes it
/// offline; its notices go to the output. All lines are read first: for the first bad one it prints
/// `bad line` and its number, and refuses it as Input before it connects.
pub fn client_run<
    R: Net<Listener = TcpListener, Stream = TcpStream> + RandomSource + Copy,
    I: Read,
    W: Write,
>(
    rt: &R,
    alloc: Global,
    visit: ClientOptions<'_>,
    input: &mut I,
    output: &mut W,
) -> Result<(), ServiceFault>
    ensures lines { MatchResult result
        (λ _. IfSome (I.remaining input.old) AreLines)
        (λ e. (e ≡ fault.Memory) ⊎ ((e ≡ fault.Input) ⊎ IfSome (I.remaining input.old) AreLines)) }
    ensures visited { OnOk result (HasRunClient visit.entry.id visit.entry.incarnation
        (I.remaining input.old) (W.contents output.old) (W.contents output.new)) }
    ensures unreached { IfErr result (λ e. e ≡ fault.Address → output.new ≡ output.old) }
{
    let lines = lines_from(alloc, input, output)?;
    follow(rt, alloc, visit, lines, output)
}

// Reads the lines of the input. The first bad one is printed.
fn lines_from<I: Read, W: Write>(
    alloc: Global,
    input: &mut I,
    output: &mut W,
) -> Result<Vec<Line>, ServiceFault>
    ensures lines { IfOk result (λ lines. IfSome (I.remaining input.old) (λ bytes.
        lines_in bytes ≡ map (λ line. Some (as_parsed line)) lines.items)) }
    ensures good { IfOk result (λ _. IfSome (I.remaining input.old) AreLines) }
    ensures quiet { OnOk result (output.new ≡ output.old) }
    ensures err { IfErr result (λ e. (e ≡ fault.Memory) ⊎ (e ≡ fault.Input)) }
{
    let bytes = input_bytes(alloc, input)?;
    match lines_of(alloc, bytes.as_slice()) {
        Ok(lines) => Ok(lines),
        Err(LinesFault::Memory) => Err(ServiceFault::Memory),
        Err(LinesFault::BadLine(number)) => {
            let _ = write!(output, "bad line {number}\n");
            Err(ServiceFault::Input)
        }
    }
}

// All of the input, with the script's refusals as the client's.
fn input_bytes<I: Read>(alloc: Global, input: &mut I) -> Result<Vec<u8>, ServiceFault>
    ensures read { IfOk result (λ read. IfSome (I.remaining input.old) (λ bytes.
        read.items ≡ bytes)) }
    ensures err { IfErr result (λ e. (e ≡ fault.Memory) ⊎ (e ≡ fault.Input)) }
{
    match bytes_of(alloc, input) {
        Ok(bytes) => Ok(bytes),
        Err(ScriptFault::Memory) => Err(ServiceFault::Memory),
        Err(ScriptFault::Input) => Err(ServiceFault::Input),
    }
}

// Connects, and does what the lines say.
fn follow<R: Net<Listener = TcpListener, Stream = TcpStream> + RandomSource + Copy, W: Write>(
    rt: &R,
    alloc: Global,
    visit: ClientOptions<'_>,
    lines: Vec<Line>,
    output: &mut W,
) -> Result<(), ServiceFault>
    ensures visited { OnOk result (RunsClient visit.entry.id visit.entry.incarnation lines.items
        (W.contents output.old) (W.contents output.new)) }
    ensures unreached { IfErr result (λ e. e ≡ fault.Address → output.new ≡ output.old) }
{
    let ClientOptions {
        address,
        id,
        incarnation,
    } = visit;
    let Ok(stream) = TcpStream::connect(rt, address) else {
        drop(lines);
        return Err(ServiceFault::Address);
    };
    let _ = stream.set_nodelay(true);
    let _ = stream.set_read_timeout(Some(Duration::from_millis(READ_MILLIS)));
    let client = Client::new(alloc, id, incarnation);
    match drive_client(alloc, client, stream, RandomKeys::new(*rt), lines, output) {
        Ok(client) => {
            drop(client);
            Ok(())
        }
        Err((fault, client)) => {
            drop(client);
            Err(ServiceFault::from(fault))
        }
    }
}

// Why there is no list of lines.
#[derive(Drop)]
enum LinesFault {
    // The line of this number, from 1 on, says nothing.
    BadLine(u64),
    // An allocation was refused.
    Memory,
}

impl From<AllocError> for LinesFault {
    ghost use Rattle.std.specs.Prelude.{◌≡◌};

    ghost from_gives = { λ _ e. e ≡ unmade.Memory };

    fn from(_refused: AllocError) -> LinesFault {
        LinesFault::Memory
    }
}

impl<T: Drop> From<AllocFailed<T>> for LinesFault {
    ghost use Rattle.std.specs.Prelude.{◌≡◌};

    ghost from_gives = { λ _ e. e ≡ unmade.Memory };

    fn from(_refused: AllocFailed<T>) -> LinesFault {
        LinesFault::Memory
    }
}

// What the lines of the input say.
fn lines_of(alloc: Global, input: &[u8]) -> Result<Vec<Line>, LinesFault>
    ensures lines { IfOk result (λ lines. lines_in input.now
        ≡ map (λ line. Some (as_parsed line)) lines.items) }
    ensures bad { IfErr result (λ e. (e ≡ unmade.Memory)
        ⊎ ((k : ℕ) × (e ≡ unmade.BadLine k) × (first_bad 1 (lines_in input.now) ≡ Some k))) }
{
    let texts = texts_of(alloc, input)?;
    let mut lines = Vec::new(alloc);
    for bytes in texts.iter() {
        match line_in(alloc, bytes)? {
            Some(line) => lines.push(line)?,
            None => return Err(LinesFault::BadLine(lines.len() as u64 + 1)),
        }
    }
    Ok(lines)
}

// What the bytes of a line say.
fn line_in(alloc: Global, bytes: &[u8]) -> Result<Option<Line>, AllocError>
    ensures { IfOk result (λ line. option_map as_parsed line ≡ line_of_bytes bytes.now) }
{
    match std::str::from_utf8(bytes) {
        Ok(text) => line_of(alloc, text),
        Err(_) => Ok(None),
    }
}
