//! A WebSocket over any stream.

ghost use Rattle.std.specs.Prelude.{◌≡◌, ◌≢◌, ℕ, List, [], false, Some, Result, Err, IfOk, IfErr, OnOk};
ghost use Rattle.tungstenite.specs.Failure.{WriteFails, IsIo};
ghost use Rattle.tungstenite.specs.Heads.{Connected, Serves};
ghost use Rattle.tungstenite.specs.Socket.{Reads, Writes, Flushed};
ghost use Rattle.tungstenite.specs.declared.error.Error.{Error as Cause};
ghost use Rattle.tungstenite.specs.declared.message.Message.{Message as Given};
ghost use Rattle.tungstenite.specs.Connection.{write_step};
ghost use Rattle.tungstenite.specs.Content.{text as text_content};
ghost use Rattle.pres_websocket.specs.CloseHandshake.{Closes};
ghost use Rattle.pres_websocket.specs.ConnectionFaults.{is_handshake, of_shake, of_stream};
ghost use Rattle.pres_websocket.specs.SocketReads.{IsReadAs, IsOfShake};
ghost use Rattle.pres_websocket.specs.declared.fault.SockFault.TheVariants.{Memory};

use crate::fault::{SockFault, stream_fault};
use crate::meter::Metered;
use crate::nonblocking::Nonblocking;
use std::alloc::Global;
use std::io::{ErrorKind, Read, Write};
use tungstenite::handshake::{client, server};
use tungstenite::{
    CloseCode, CloseFrame, Error, HandshakeError, MaskKeys, Message, NoCallback, NoMask, Utf8Bytes,
    WebSocket, WebSocketConfig,
};

/// A socket whose reads are counted: a client's frames are masked, and a server's are not.
pub type Socket<S, M> = WebSocket<Metered<S>, M>;

// How many bytes a read asks for.
const READ_SIZE: usize = 1024;

// The most reads that wait for the peer's part of a close.
const CLOSE_READS: u32 = 20;

// The sizes of a connection's buffers.
fn config() -> WebSocketConfig {
    WebSocketConfig::default().read_buffer_size(READ_SIZE)
}

/// A server's handshake of RFC 6455, tried again after each read that gives nothing. Its room on the
/// stack is given back before a connection is idle.
#[inline(never)]
pub fn accept<S: Read + Write + Drop>(
    alloc: Global,
    stream: S,
) -> Result<Socket<S, NoMask>, SockFault>
    ensures serves { IfOk result Serves }
    ensures refused { IfErr result IsOfShake }
{
    let mut mid = server::start(alloc, Metered::new(stream), NoCallback, Some(config()));
    for _ in 0..u64::MAX {
        mid = match mid.handshake() {
            Ok(socket) => return Ok(socket),
            Err(HandshakeError::Failure(error)) => return Err(shake_fault(error)),
            Err(HandshakeError::Interrupted(next)) => {
                if next.get_ref().is_spent() {
                    return Err(SockFault::Turns);
                }
                next
            }
        };
    }
    Err(SockFault::Turns)
}

// The fault of a handshake's error; a failed allocation is a fault of its own.
fn shake_fault(error: Error) -> SockFault
    ensures { result ≡ of_shake error }
{
    match error {
        Error::OutOfMemory => SockFault::Memory,
        other => SockFault::Handshake(other),
    }
}

// The nonce of a handshake (RFC 6455, 4.1), from four keys.
fn nonce_of<M: MaskKeys>(keys: &mut M) -> [u8; 16] {
    let mut nonce = [0; 16];
    for part in nonce.chunks_mut(4) {
        part.copy_from_slice(&keys.next_key()[..part.len().min(4)]);
    }
    nonce
}

/// A client's handshake, tried again after each read that gives nothing.
pub fn connect<S: Read + Write + Drop, M: MaskKeys + Drop>(
    alloc: Global,
    stream: S,
    mut keys: M,
) -> Result<Socket<S, M>, SockFault>
    ensures connected { IfOk result (λ socket. (key : List ℕ) × Connected key socket) }
    ensures refused { IfErr result IsOfShake }
{
    let nonce = nonce_of(&mut keys);
    let request = client::request_of(alloc, "ws://presence/").map_err(shake_fault)?;
    let stream = Metered::new(stream);
    let mut mid = client::start(alloc, nonce, keys, request, stream, Some(config())).map_err(
        shake_fault,
    )?;
    for _ in 0..u64::MAX {
        mid = match mid.handshake() {
            Ok((socket, _)) => return Ok(socket),
            Err(HandshakeError::Failure(error)) => return Err(shake_fault(error)),
            Err(HandshakeError::Interrupted(next)) => {
                if next.get_ref().is_spent() {
                    return Err(SockFault::Turns);
                }
                next
            }
        };
    }
    Err(SockFault::Turns)
}

/// What a read brought.
#[derive(Drop)]
pub enum Received {
    /// A text message.
    Text(Utf8Bytes),
    /// A binary message.
    Binary,
    /// The peer's close.
    Close,
    /// Nothing of interest.
    Nothing,
}

// What an error of a read means: the peer's close, or nothing where the stream would block.
fn told<S>(stream: &Metered<S>, error: Error) -> Result<Received, SockFault>
    ensures told { IsReadAs stream.now (Err error) result }
    ensures shaken { IfErr result (λ e. is_handshake e ≡ false) }
{
    match error {
        Error::ConnectionClosed => Ok(Received::Close),
        Error::Io(error) => {
            if error.kind() != ErrorKind::WouldBlock {
                return Err(SockFault::Stream(Error::Io(error)));
            }
            if stream.is_spent() {
                return Err(SockFault::Turns);
            }
            Ok(Received::Nothing)
        }
        other => Err(stream_fault(other)),
    }
}

/// One read. A ping is answered by the socket itself.
pub fn read<S: Read + Write + Drop, M: MaskKeys + Drop>(
    socket: &mut Socket<S, M>,
) -> Result<Received, SockFault>
    ensures came { (given : Result Given Cause)
        × Reads (λ meter. S.remaining meter.stream) socket.old socket.new given
        × IsReadAs socket.new.stream given result }
    ensures shaken { IfErr result (λ e. is_handshake e ≡ false) }
{
    match socket.read() {
        Ok(Message::Text(text)) => Ok(Received::Text(text)),
        Ok(Message::Binary(_)) => Ok(Received::Binary),
        Ok(Message::Ping(_)) | Ok(Message::Pong(_)) => Ok(Received::Nothing),
        Ok(Message::Close(_)) => Ok(Received::Close),
        Err(error) => told(socket.get_ref(), error),
    }
}

/// A read that doesn't wait: it brings a message where the bytes that the stream has read already
/// hold all of it, and else nothing. Those of a part are kept for the next read.
pub fn read_ahead<S: Read + Write + Nonblocking + Drop, M: MaskKeys + Drop>(
    socket: &mut Socket<S, M>,
) -> Result<Received, SockFault>
    ensures came { (given : Result Given Cause)
        × Reads (λ meter. S.remaining meter.stream) socket.old socket.new given
        × IsReadAs socket.new.stream given result }
    ensures shaken { IfErr result (λ e. is_handshake e ≡ false) }
{
    socket.get_ref().set_nonblocking(true);
    let came = read(socket);
    socket.get_ref().set_nonblocking(false);
    came
}

/// Writes the text to the send buffer, as a message.
pub fn write<S: Read + Write + Drop, M: MaskKeys + Drop>(
    alloc: Global,
    socket: &mut Socket<S, M>,
    text: &str,
) -> Result<(), SockFault>
    ensures wrote { OnOk result (Writes (λ meter. S.contents meter.stream) socket.old socket.new
        (write_step socket.old.conn (text_content text.now))) }
    ensures failed { IfErr result (λ e. (e ≢ Memory) → (cause : Cause)
        × WriteFails (write_step socket.old.conn (text_content text.now)) cause
        × (e ≡ of_stream cause)) }
    ensures shaken { IfErr result (λ e. is_handshake e ≡ false) }
{
    socket
        .write(Message::text(alloc, text)?)
        .map_err(stream_fault)
}

/// Sends what was written.
pub fn flush<S: Read + Write + Drop, M: MaskKeys + Drop>(
    socket: &mut Socket<S, M>,
) -> Result<(), SockFault>
    ensures sent { Flushed (λ meter. S.contents meter.stream) socket.old socket.new }
    ensures empty { OnOk result (socket.new.output ≡ []) }
    ensures failed { IfErr result (λ e. (cause : Cause) × IsIo cause × (e ≡ of_stream cause)) }
    ensures shaken { IfErr result (λ e. is_handshake e ≡ false) }
{
    socket.flush().map_err(stream_fault)
}

/// Closes the connection as RFC 6455, 7.1.1, has it: what the peer has still sent is read, so that
/// it gets the close. Whatever fails then, the connection is over.
pub fn close<S: Read + Write + Drop, M: MaskKeys + Drop>(socket: &mut Socket<S, M>)
    ensures { Closes (λ meter. S.remaining meter.stream) (λ meter. S.contents meter.stream)
        (Some (record { code = CloseCode.Normal; reason = [] })) socket.old socket.new }
{
    let frame = CloseFrame {
        code: CloseCode::Normal,
        reason: Utf8Bytes::from_static(""),
    };
    let _ = socket.close(Some(frame));
    for _ in 0..CLOSE_READS {
        match socket.read() {
            Ok(_) | Err(Error::Io(_)) => {}
            Err(_error) => return,
        }
    }
}
