//! The client's side of a connection.

ghost use Rattle.std.specs.Prelude.{◌≡◌, ◌∷◌, ◌++◌, true, false, [], Some, IfOk, IfErr, IfSome, OnOk};
ghost use Rattle.std.specs.Io.KnownBytes.{Appends};
ghost use Rattle.pres_client.specs.declared.call.Call.TheVariants.{GoOnline, GoOffline};
ghost use Rattle.pres_client.specs.Steps.{IsMessage};
ghost use Rattle.pres_client_connection.specs.DrivenClients.{Drives, IsSettled, asked_in};
ghost use Rattle.pres_script.specs.NoticeTexts.{notice_lines, refusal_text, line_of};
ghost use Rattle.pres_websocket.specs.ConnectionFaults.{is_handshake};

use pres_client::{Call, Client, ClientFault, Notice};
use pres_script::{Line, notice_line};
use pres_websocket::{Received, SockFault, Socket, close, connect, flush, read, write};
use pres_wire::{Down, Up, WireFault};
use std::alloc::Global;
use std::io::{Read, Write};
use tungstenite::{Error, MaskKeys};

// The name by which a call with refused JSON or a refused path is printed.
const REFUSED: u8 = 5;

/// Takes a client online over the stream, does what each line says, and takes it offline. Once it
/// is online, and after each line, it reads until nothing waits for an answer. Each of its notices
/// goes to the output as a line, and a refused call as `refused` and its number. At the end nothing
/// is left to send or to print. A refusal hands back the client as it is then, unchanged where the
/// handshake failed; a connection that the server closes is a fault of the stream.
pub fn drive_client<S: Read + Write + Drop, M: MaskKeys + Drop, W: Write>(
    alloc: Global,
    mut client: Client,
    stream: S,
    keys: M,
    lines: Vec<Line>,
    output: &mut W,
) -> Result<Client, (SockFault, Client)>
    ensures driven { IfOk result (λ c.
        Drives client (Some GoOnline ∷ asked_in lines.items ++ Some GoOffline ∷ []) c
        (W.contents output.old) (W.contents output.new)) }
    ensures sent { IfOk result (λ client. client.sends ≡ []) }
    ensures told { IfOk result (λ client. client.notices ≡ []) }
    ensures handshake { IfErr result (λ e. is_handshake e.0 ≡ true →
        (e.1 ≡ client) × (output.new ≡ output.old)) }
{
    let mut socket = match connect(alloc, stream, keys) {
        Ok(socket) => socket,
        Err(fault) => {
            drop(lines);
            return Err((fault, client));
        }
    };
    match drive(alloc, &mut socket, &mut client, lines, output) {
        Ok(()) => {
            close(&mut socket);
            Ok(client)
        }
        Err(fault) => Err((fault, client)),
    }
}

// Online, what each line says, and offline.
fn drive<S: Read + Write + Drop, M: MaskKeys + Drop, W: Write>(
    alloc: Global,
    socket: &mut Socket<S, M>,
    client: &mut Client,
    lines: Vec<Line>,
    output: &mut W,
) -> Result<(), SockFault>
    ensures driven { OnOk result
        (Drives client.old (Some GoOnline ∷ asked_in lines.items ++ Some GoOffline ∷ []) client.new
        (W.contents output.old) (W.contents output.new)) }
    ensures sent { OnOk result (client.new.sends ≡ []) }
    ensures told { OnOk result (client.new.notices ≡ []) }
    ensures err { IfErr result (λ e. is_handshake e ≡ false) }
{
    make(alloc, client, Call::GoOnline, output)?;
    settle(alloc, socket, client, output)?;
    for line in lines {
        follow(alloc, socket, client, line, output)?;
        settle(alloc, socket, client, output)?;
    }
    make(alloc, client, Call::GoOffline, output)?;
    hand_out(alloc, socket, client, output)
}

// What the line says.
fn follow<S: Read + Write + Drop, M: MaskKeys + Drop, W: Write>(
    alloc: Global,
    socket: &mut Socket<S, M>,
    client: &mut Client,
    line: Line,
    output: &mut W,
) -> Result<(), SockFault>
    ensures driven { OnOk result (Drives client.old (asked_in (line ∷ [])) client.new
        (W.contents output.old) (W.contents output.new)) }
    ensures err { IfErr result (λ e. is_handshake e ≡ false) }
{
    match line {
        Line::Call(call) => make(alloc, client, call, output),
        Line::Refused => tell_refusal(alloc, output, REFUSED),
        Line::Wait(count) => {
            'reads: for _ in 0..count {
                receive(alloc, socket, client, output)?;
            }
            Ok(())
        }
    }
}

// Makes the call, and prints its refusal.
fn make<W: Write>(
    alloc: Global,
    client: &mut Client,
    call: Call,
    output: &mut W,
) -> Result<(), SockFault>
    ensures driven { OnOk result (Drives client.old (Some call ∷ []) client.new
        (W.contents output.old) (W.contents output.new)) }
    ensures err { IfErr result (λ e. is_handshake e ≡ false) }
{
    let Err(fault) = client.make(call) else {
        return Ok(());
    };
    match fault {
        ClientFault::Memory => Err(SockFault::Memory),
        _ => tell_refusal(alloc, output, fault.number()),
    }
}

// Reads until nothing waits for an answer.
fn settle<S: Read + Write + Drop, M: MaskKeys + Drop, W: Write>(
    alloc: Global,
    socket: &mut Socket<S, M>,
    client: &mut Client,
    output: &mut W,
) -> Result<(), SockFault>
    ensures driven { OnOk result (Drives client.old [] client.new
        (W.contents output.old) (W.contents output.new)) }
    ensures settled { OnOk result (IsSettled client.new) }
    ensures err { IfErr result (λ e. is_handshake e ≡ false) }
{
    hand_out(alloc, socket, client, output)?;
    'reads: for _ in 0..u64::MAX {
        if client.unanswered() == 0 {
            return Ok(());
        }
        receive(alloc, socket, client, output)?;
    }
    Err(SockFault::Turns)
}

// Reads one message, and hands out what it makes.
fn receive<S: Read + Write + Drop, M: MaskKeys + Drop, W: Write>(
    alloc: Global,
    socket: &mut Socket<S, M>,
    client: &mut Client,
    output: &mut W,
) -> Result<(), SockFault>
    ensures driven { OnOk result (Drives client.old [] client.new
        (W.contents output.old) (W.contents output.new)) }
    ensures sent { OnOk result (client.new.sends ≡ []) }
    ensures told { OnOk result (client.new.notices ≡ []) }
    ensures err { IfErr result (λ e. is_handshake e ≡ false) }
{
    let message = next_message(alloc, socket)?;
    match client.receive(message) {
        Ok(()) => hand_out(alloc, socket, client, output),
        Err(_) => Err(SockFault::Memory),
    }
}

// The next message of a server. Texts that are no message are passed over.
fn next_message<S: Read + Write + Drop, M: MaskKeys + Drop>(
    alloc: Global,
    socket: &mut Socket<S, M>,
) -> Result<Down, SockFault>
    ensures message { IfOk result IsMessage }
    ensures err { IfErr result (λ e. is_handshake e ≡ false) }
{
    for _ in 0..u64::MAX {
        match message_in(alloc, read(socket)?) {
            Ok(Some(message)) => return Ok(message),
            Ok(None) => {}
            Err(fault) => return Err(fault),
        }
    }
    Err(SockFault::Turns)
}

// The message of a server, if the text is one.
fn message_in(alloc: Global, came: Received) -> Result<Option<Down>, SockFault>
    ensures message { IfOk result (λ message. IfSome message IsMessage) }
    ensures err { IfErr result (λ e. is_handshake e ≡ false) }
{
    let text = match came {
        Received::Text(text) => text,
        Received::Binary | Received::Nothing => return Ok(None),
        Received::Close => return Err(SockFault::Stream(Error::ConnectionClosed)),
    };
    match Down::decode(alloc, text.as_str()) {
        Ok(message) => Ok(Some(message)),
        Err(WireFault::Memory) => Err(SockFault::Memory),
        Err(_) => Ok(None),
    }
}

// Sends what the client has to send, and prints its notices.
fn hand_out<S: Read + Write + Drop, M: MaskKeys + Drop, W: Write>(
    alloc: Global,
    socket: &mut Socket<S, M>,
    client: &mut Client,
    output: &mut W,
) -> Result<(), SockFault>
    ensures driven { OnOk result (Drives client.old [] client.new
        (W.contents output.old) (W.contents output.new)) }
    ensures sent { OnOk result (client.new.sends ≡ []) }
    ensures told { OnOk result (client.new.notices ≡ []) }
    ensures err { IfErr result (λ e. is_handshake e ≡ false) }
{
    send_all(alloc, socket, client.take_sends())?;
    tell_all(alloc, output, client.take_notices())
}

// Sends the messages.
fn send_all<S: Read + Write + Drop, M: MaskKeys + Drop>(
    alloc: Global,
    socket: &mut Socket<S, M>,
    messages: Vec<Up>,
) -> Result<(), SockFault>
    ensures { IfErr result (λ e. is_handshake e ≡ false) }
{
    for message in messages.iter() {
        put(alloc, socket, message)?;
    }
    flush(socket)
}

// Writes the message to the send buffer.
fn put<S: Read + Write + Drop, M: MaskKeys + Drop>(
    alloc: Global,
    socket: &mut Socket<S, M>,
    message: &Up,
) -> Result<(), SockFault>
    ensures { IfErr result (λ e. is_handshake e ≡ false) }
{
    let text = message.encode(alloc)?;
    write(alloc, socket, text.as_str())
}

// Prints the notices, each as a line.
fn tell_all<W: Write>(alloc: Global, output: &mut W, notices: Vec<Notice>) -> Result<(), SockFault>
    ensures told { OnOk result (Appends (W.contents output.old) (W.contents output.new)
        (notice_lines notices.items)) }
    ensures err { IfErr result (λ e. is_handshake e ≡ false) }
{
    for notice in notices {
        let line = notice_line(alloc, &notice);
        drop(notice);
        tell(output, line?.as_slice())?;
    }
    Ok(())
}

// Writes the line.
fn tell<W: Write>(output: &mut W, line: &[u8]) -> Result<(), SockFault>
    ensures told { OnOk result (Appends (W.contents output.old) (W.contents output.new) line.now) }
    ensures err { IfErr result (λ e. is_handshake e ≡ false) }
{
    match output.write_all(line) {
        Ok(()) => Ok(()),
        Err(error) => Err(SockFault::Stream(Error::Io(error))),
    }
}

// Prints that a call was refused, and why.
fn tell_refusal<W: Write>(alloc: Global, output: &mut W, number: u8) -> Result<(), SockFault>
    ensures told { OnOk result (Appends (W.contents output.old) (W.contents output.new)
        (line_of (refusal_text number))) }
    ensures err { IfErr result (λ e. is_handshake e ≡ false) }
{
    tell(output, format!(in alloc; "refused {number}\n")?.as_bytes())
}
