//! The server's side of a connection.

ghost use Rattle.std.specs.Prelude.{◌≡◌, ◌≤◌, ◌⊎◌, ⊤, true, false, None, Ok, OnOk, OnErr, IfOk, IfErr, IfSome, IfNone, OnSome};
ghost use Rattle.serde_json.specs.Written.{compact_text};
ghost use Rattle.tungstenite.specs.Connection.{write_step};
ghost use Rattle.tungstenite.specs.Content.{text};
ghost use Rattle.tungstenite.specs.Socket.{Writes};
ghost use Rattle.pres_wire.specs.DownForms.{down_json};
ghost use Rattle.pres_wire.specs.UpForms.{decoded};
ghost use Rattle.pres_wire.specs.declared.down.Code.TheVariants.{Bad, Busy};
ghost use Rattle.pres_wire.specs.declared.up.Up.TheVariants.{Hello};
ghost use Rattle.pres_websocket.specs.ConnectionFaults.{is_handshake, fails_to_shake};
ghost use Rattle.pres_sock.specs.Refusals.{IsNoHello, IsHelloRefusal, is_last};
ghost use Rattle.pres_sock.specs.Bells.{left_of};

use crate::joined_session::{HubAccess, JoinedSession, code_of, join, ring};
use crate::together::{Asked, asked_by, read_together};
use pres_hub::{Bell, Gate, Hub, HubFault, Keeper, Moment, Parting, Said, SessionId, Up};
use pres_websocket::{Nonblocking, Received, SockFault, Socket, accept, close, flush, read, write};
use pres_wire::{Code, Down, WireFault};
use std::alloc::Global;
use std::collections::VecDeque;
use std::io::{Read, Write};
use std::sync::Wait;
use std::sync::ledger::Ledger;
use std::thread::Threads;
use std::{thread, time};
use tungstenite::NoMask;

/// The time in milliseconds since 1970, as a log has it.
pub trait Clock {
    /// The moment.
    fn now(&mut self) -> u64;
}

// Whether the connection goes on, and else who ends it.
#[derive(Drop)]
enum Progress {
    GoOn,
    Closed,
    Close,
}

// A connection whose session was opened, the bells that are to be rung, and whether it goes on.
struct Served<L: Ledger, B, S> {
    socket: Socket<S, NoMask>,
    place: JoinedSession<L>,
    due: Vec<B>,
    step: Result<Progress, SockFault>,
    ghost shaken: { fails_to_shake step ≡ false },
}

impl<L: Ledger, B, S> Served<L, B, S> {
    fn goes_on(&self) -> bool {
        matches!(self.step, Ok(Progress::GoOn))
    }

    // The connection is over for this fault.
    fn stop(&mut self, fault: SockFault)
        requires { is_handshake fault ≡ false }
    {
        self.step = Err(fault);
    }
}

impl<L: Ledger, B, S: Read + Write + Nonblocking + Drop> Served<L, B, S> {
    // Sends what waits.
    fn send(&mut self, alloc: Global) {
        self.step = send_all(alloc, &mut self.socket, &mut self.place);
    }

    // Answers this read, and sends what waits for the session. Returns what was read after it.
    fn turn<K: Keeper + Drop, G: Gate, R: Wait + time::Clock, C: Clock>(
        &mut self,
        visit: &HubAccess<'_, L, K, B, G, R>,
        came: Received,
        clock: &mut C,
    ) -> Result<Received, SockFault>
    where
        B: Bell + Clone + Drop,
        ensures { IfErr result (λ e. is_handshake e ≡ false) }
    {
        let (socket, place, due) = (&mut self.socket, &mut self.place, &mut self.due);
        let (step, next) = turn(visit, socket, place, due, came, clock);
        self.step = step;
        next
    }

    // What was read already, or else what a read brings.
    fn next(&mut self, already: Result<Received, SockFault>) -> Result<Received, SockFault>
        requires { IfErr already (λ e. is_handshake e ≡ false) }
        ensures { IfErr result (λ e. is_handshake e ≡ false) }
    {
        match already {
            Ok(Received::Nothing) => read(&mut self.socket),
            other => other,
        }
    }
}

// The most messages that are taken between two reads, which is what a ring has room for.
const BURST: usize = 256;

// How many reads in a row give nothing before a connection rests.
const RESTS_BEHIND: u32 = 20;

/// Serves one connection until it is over: its seat's parting, where a session was opened, and why
/// the connection ended, where it wasn't closed. The seat that it joins is given to `leave`, so a
/// parting counts a Hello at least, and there is none where the handshake failed. The bell is the
/// connection's own: it is rung where something is to be sent, and ends a read that waits. It is taken
/// exactly where a session is opened, so a bell that was given is gone where there is a parting, and is
/// still there where there is none.
///
/// Messages are answered in a thread of their own, which ends once nothing has come for 20 reads: so
/// a connection that only listens keeps no more of a stack than its reads take. Where no such thread
/// can be made, they are answered in the caller's.
#[inline(never)]
pub fn serve_stream<
    L: Ledger + Send + Sync,
    K: Keeper + Drop + Send,
    B: Bell + Clone + Drop + Send,
    G: Gate + Sync,
    R: Wait + Threads + time::Clock + Sync,
    S: Read + Write + Nonblocking + Drop + Send,
    C: Clock + Send,
>(
    rt: &R,
    alloc: Global,
    hub: &Hub<L, K, B, G>,
    stream: S,
    bell: &mut Option<B>,
    clock: &mut C,
) -> (Option<Parting<L>>, Result<(), SockFault>)
    ensures left { IfSome result.0 (λ parting. 1 ≤ parting.made) }
    ensures taken { OnSome result.0 (bell.new ≡ None) }
    ensures kept { IfNone result.0 (bell.new ≡ bell.old) }
    ensures handshake { IfErr result.1 (λ e. is_handshake e ≡ true → result.0 ≡ None) }
{
    let visit = HubAccess { rt, alloc, hub };
    let arrival = Arrival {
        visit: &visit,
        stream,
        bell: bell.take(),
        clock: &mut *clock,
    };
    let Begun { served, bell: rest } = apart(rt, arrival);
    *bell = rest;
    let mut served = match served {
        Ok(Some(served)) => served,
        Ok(None) => return (None, Ok(())),
        Err(fault) => return (None, Err(fault)),
    };
    serve(&visit, &mut served, &mut *clock);
    let Served {
        mut socket,
        place,
        mut due,
        step,
    } = served;
    let parting = place.leave(&visit, &mut due, Moment::at(clock.now()));
    ring(&mut due);
    let ended = match step {
        Ok(Progress::Close) => {
            close(&mut socket);
            Ok(())
        }
        Ok(_) => Ok(()),
        Err(fault) => Err(fault),
    };
    (Some(parting), ended)
}

// Work that is done in a thread of its own, or in the caller's if no thread can be made.
trait Task {
    type Output;

    // Holds of the work and its result.
    ghost gives: { Self → Self.Output → Type 0 } = { λ _ _. ⊤ };

    fn run(self) -> Self::Output
        ensures { gives self result };
}

#[inline(never)]
fn apart<R: Threads, T: Task<Output = A> + Send + Drop, A: Send>(rt: &R, task: T) -> A
    ensures { T.gives task result }
{
    thread::join(rt, move || task.run(), || ()).0
}

// The first work for a connection: the handshake, a session, and what comes first.
#[derive(Drop)]
struct Arrival<'a, L: Ledger, K: Keeper + Drop, B, G: Gate, R, S, C> {
    visit: &'a HubAccess<'a, L, K, B, G, R>,
    stream: S,
    bell: Option<B>,
    clock: &'a mut C,
}

impl<
    'a,
    L: Ledger,
    K: Keeper + Drop,
    B: Bell + Clone + Drop,
    G: Gate,
    R: Wait + time::Clock,
    S: Read + Write + Nonblocking + Drop,
    C: Clock,
> Task for Arrival<'a, L, K, B, G, R, S, C> {
    type Output = Begun<L, B, S>;

    ghost gives = { λ arrival begun. begun.bell ≡ left_of arrival.bell begun.served };

    fn run(self) -> Begun<L, B, S> {
        let Arrival {
            visit,
            stream,
            mut bell,
            clock,
        } = self;
        let served = open(visit, stream, &mut bell, clock);
        Begun { served, bell }
    }
}

// The result of the first work for a connection: the session that was opened, where one was, and
// the bell, where that wasn't taken. None where the connection is over before a session.
struct Begun<L: Ledger, B, S> {
    served: Result<Option<Served<L, B, S>>, SockFault>,
    bell: Option<B>,
}

// The handshake, a session, and what comes first. None where the connection is over before a session.
fn open<
    L: Ledger,
    K: Keeper + Drop,
    B: Bell + Clone + Drop,
    G: Gate,
    R: Wait + time::Clock,
    S: Read + Write + Nonblocking + Drop,
    C: Clock,
>(
    visit: &HubAccess<'_, L, K, B, G, R>,
    stream: S,
    bell: &mut Option<B>,
    clock: &mut C,
) -> Result<Option<Served<L, B, S>>, SockFault>
    ensures { bell.new ≡ left_of bell.old result }
{
    let mut socket = accept(visit.alloc, stream)?;
    let mut due = Vec::new(visit.alloc);
    let Some(place) = greet(visit, &mut socket, &mut *bell, &mut due, &mut *clock)? else {
        return Ok(None);
    };
    let mut served = Served {
        socket,
        place,
        due,
        step: Ok(Progress::GoOn),
    };
    turns(visit, &mut served, Received::Nothing, clock);
    Ok(Some(served))
}

// Before a session is open: reads until one is. None where the connection is over before.
#[inline(never)]
fn greet<
    L: Ledger,
    K: Keeper + Drop,
    B: Bell + Clone + Drop,
    G: Gate,
    R: Wait,
    S: Read + Write + Drop,
    C: Clock,
>(
    visit: &HubAccess<'_, L, K, B, G, R>,
    socket: &mut Socket<S, NoMask>,
    bell: &mut Option<B>,
    due: &mut Vec<B>,
    clock: &mut C,
) -> Result<Option<JoinedSession<L>>, SockFault>
    ensures bell { bell.new ≡ left_of bell.old result }
{
    'asked: for _ in 0..u64::MAX {
        let Some(asked) = next_asked(visit.alloc, socket)? else {
            return Ok(None);
        };
        match admit(visit, asked, &mut *bell, due, &mut *clock)? {
            Ok(place) => return Ok(Some(place)),
            Err(fault) => if refuse(visit.alloc, socket, fault)? {
                return Ok(None);
            },
        }
    }
    Err(SockFault::Turns)
}

// The session that is asked for next, or the code of what is no Hello. None where the peer closes.
fn next_asked<S: Read + Write + Drop>(
    alloc: Global,
    socket: &mut Socket<S, NoMask>,
) -> Result<Option<Result<SessionId, Code>>, SockFault>
    ensures { IfErr result (λ e. is_handshake e ≡ false) }
{
    for _ in 0..u64::MAX {
        match read(socket)? {
            Received::Nothing => {}
            Received::Text(text) => return Ok(Some(hello_in(alloc, text.as_str()))),
            Received::Binary => return Ok(Some(Err(Code::Bad))),
            Received::Close => {
                flush(socket)?;
                return Ok(None);
            }
        }
    }
    Err(SockFault::Turns)
}

// The place of the session that is asked for, or the fault message that refuses it.
fn admit<L: Ledger, K: Keeper + Drop, B: Bell + Clone + Drop, G: Gate, R: Wait, C: Clock>(
    visit: &HubAccess<'_, L, K, B, G, R>,
    asked: Result<SessionId, Code>,
    bell: &mut Option<B>,
    due: &mut Vec<B>,
    clock: &mut C,
) -> Result<Result<JoinedSession<L>, Down>, SockFault>
    ensures joined { IfOk result (λ found. IfOk found (λ place.
        IfSome place.seat (λ seat. seat.made ≡ 1))) }
    ensures opened { IfOk result (λ found. IfOk found (λ place.
        IfSome place.seat (λ seat. asked ≡ Ok seat.session))) }
    ensures refused { IfOk result (λ found. IfErr found (IsHelloRefusal asked)) }
    ensures taken { IfOk result (λ found. OnOk found (bell.new ≡ None)) }
    ensures kept { IfOk result (λ found. OnErr found (bell.new ≡ bell.old)) }
    ensures failed { OnErr result (bell.new ≡ bell.old) }
    ensures err { IfErr result (λ e. is_handshake e ≡ false) }
{
    match asked {
        Ok(session) => match join(visit, &session, bell, due, Moment::at(clock.now())) {
            Ok(place) => Ok(Ok(place)),
            Err(fault) => Ok(Err(Down::Fault {
                session: Some(session),
                code: code_of(fault)?,
            })),
        },
        Err(code) => Ok(Err(Down::Fault {
            session: None,
            code,
        })),
    }
}

// Sends the fault message, and closes the connection where it is the last.
fn refuse<S: Read + Write + Drop>(
    alloc: Global,
    socket: &mut Socket<S, NoMask>,
    fault: Down,
) -> Result<bool, SockFault>
    ensures last { IfOk result (λ ended. ended ≡ is_last fault) }
    ensures err { IfErr result (λ e. is_handshake e ≡ false) }
{
    let ended = is_last(&fault);
    let put = put(alloc, socket, &fault);
    drop(fault);
    put?;
    flush(socket)?;
    if ended {
        close(socket);
    }
    Ok(ended)
}

// Writes the message to the send buffer.
fn put<S: Read + Write + Drop>(
    alloc: Global,
    socket: &mut Socket<S, NoMask>,
    message: &Down,
) -> Result<(), SockFault>
    ensures wrote { OnOk result (Writes (λ meter. S.contents meter.stream) socket.old socket.new
        (write_step socket.old.conn (text (compact_text (down_json message.now))))) }
    ensures err { IfErr result (λ e. is_handshake e ≡ false) }
{
    let text = message.encode(alloc)?;
    write(alloc, socket, text.as_str())
}

// Whether the connection ends after it: before a session is open, anything but a Hello ends it.
fn is_last(fault: &Down) -> bool
    ensures { result ≡ is_last fault.now }
{
    matches!(
        fault,
        Down::Fault {
            session: None,
            code: Code::Bad,
        }
    )
}

// The session of a Hello, or the code that answers another text.
fn hello_in(alloc: Global, text: &str) -> Result<SessionId, Code>
    ensures hello { IfOk result (λ session. decoded text.now ≡ Ok (Hello session)) }
    ensures bad { IfErr result (λ code. (code ≡ Busy)
        ⊎ ((code ≡ Bad) × IsNoHello (decoded text.now))) }
{
    match Up::decode(alloc, text) {
        Ok(Up::Hello { session }) => Ok(session),
        Err(WireFault::Memory) => Err(Code::Busy),
        _ => Err(Code::Bad),
    }
}

// Rests until something comes, which is answered in a thread of its own, until the connection is over.
fn serve<
    L: Ledger + Send + Sync,
    K: Keeper + Drop + Send,
    B: Bell + Clone + Drop + Send,
    G: Gate + Sync,
    R: Wait + Threads + time::Clock + Sync,
    S: Read + Write + Nonblocking + Drop + Send,
    C: Clock + Send,
>(visit: &HubAccess<'_, L, K, B, G, R>, served: &mut Served<L, B, S>, clock: &mut C) {
    for _ in 0..u64::MAX {
        if !served.goes_on() {
            return;
        }
        match read(&mut served.socket) {
            Ok(Received::Nothing) => served.send(visit.alloc),
            Ok(came) => apart(
                visit.rt,
                Waking {
                    visit: &*visit,
                    served: &mut *served,
                    came,
                    clock: &mut *clock,
                },
            ),
            Err(fault) => served.stop(fault),
        }
    }
    served.stop(SockFault::Turns);
}

// The work for a connection that rested: what came is answered, and then what follows.
#[derive(Drop)]
struct Waking<'a, L: Ledger, K: Keeper + Drop, B, G: Gate, R, S, C> {
    visit: &'a HubAccess<'a, L, K, B, G, R>,
    served: &'a mut Served<L, B, S>,
    came: Received,
    clock: &'a mut C,
}

impl<
    'a,
    L: Ledger,
    K: Keeper + Drop,
    B: Bell + Clone + Drop,
    G: Gate,
    R: Wait + time::Clock,
    S: Read + Write + Nonblocking + Drop,
    C: Clock,
> Task for Waking<'a, L, K, B, G, R, S, C> {
    type Output = ();

    fn run(self) {
        let Waking {
            visit,
            served,
            came,
            clock,
        } = self;
        turns(visit, served, came, clock)
    }
}

// One turn after the other, until this many reads in a row gave nothing, or the connection is over.
fn turns<
    L: Ledger,
    K: Keeper + Drop,
    B: Bell + Clone + Drop,
    G: Gate,
    R: Wait + time::Clock,
    S: Read + Write + Nonblocking + Drop,
    C: Clock,
>(
    visit: &HubAccess<'_, L, K, B, G, R>,
    served: &mut Served<L, B, S>,
    came: Received,
    clock: &mut C,
) {
    let mut idle = 0;
    let mut came = came;
    for _ in 0..u64::MAX {
        let next = served.turn(visit, came, &mut *clock);
        ring(&mut served.due);
        if !served.goes_on() || idle >= RESTS_BEHIND {
            return;
        }
        came = match served.next(next) {
            Ok(came) => came,
            Err(fault) => {
                served.stop(fault);
                return;
            }
        };
        idle = if matches!(came, Received::Nothing) {
            idle + 1
        } else {
            0
        };
    }
    served.stop(SockFault::Turns);
}

// Answers this read, and sends what waits for the session: whether the connection goes on, and what was
// read after it.
#[inline(never)]
fn turn<
    L: Ledger,
    K: Keeper + Drop,
    B: Bell + Clone + Drop,
    G: Gate,
    R: Wait + time::Clock,
    S: Read + Write + Nonblocking + Drop,
    C: Clock,
>(
    visit: &HubAccess<'_, L, K, B, G, R>,
    socket: &mut Socket<S, NoMask>,
    place: &mut JoinedSession<L>,
    due: &mut Vec<B>,
    came: Received,
    clock: &mut C,
) -> (Result<Progress, SockFault>, Result<Received, SockFault>)
    ensures step { IfErr result.0 (λ e. is_handshake e ≡ false) }
    ensures next { IfErr result.1 (λ e. is_handshake e ≡ false) }
{
    match asked_by(visit.alloc, place, came) {
        Ok(Asked::Messages(mut messages)) => {
            let next = read_together(visit.alloc, socket, &mut messages);
            let step = if matches!(next, Ok(Received::Close)) {
                // nothing may follow the answer to a close (RFC 6455, 5.5.1)
                let _ = place.say_each(visit, due, messages, Moment::at(clock.now()));
                closed(socket)
            } else {
                say(visit, socket, place, due, messages, clock)
            };
            (step, next)
        }
        Ok(Asked::Answer(answer)) => {
            let step = answer_with(visit.alloc, socket, place, answer);
            (step, Ok(Received::Nothing))
        }
        Ok(Asked::Close) => (closed(socket), Ok(Received::Nothing)),
        Err(fault) => (Err(fault), Ok(Received::Nothing)),
    }
}

// The peer closed: sends what waits for it.
fn closed<S: Read + Write + Drop>(socket: &mut Socket<S, NoMask>) -> Result<Progress, SockFault>
    ensures err { IfErr result (λ e. is_handshake e ≡ false) }
{
    flush(socket)?;
    Ok(Progress::Closed)
}

// Takes the messages to the hub, and sends what answers them and what waits for the session. Once the hub
// refuses one it takes none after it, so the refusals go out after the answers to those that it took.
fn say<
    L: Ledger,
    K: Keeper + Drop,
    B: Bell + Clone + Drop,
    G: Gate,
    R: Wait + time::Clock,
    S: Read + Write + Drop,
    C: Clock,
>(
    visit: &HubAccess<'_, L, K, B, G, R>,
    socket: &mut Socket<S, NoMask>,
    place: &mut JoinedSession<L>,
    due: &mut Vec<B>,
    messages: VecDeque<Up>,
    clock: &mut C,
) -> Result<Progress, SockFault>
    ensures err { IfErr result (λ e. is_handshake e ≡ false) }
{
    let count = messages.len();
    let said = place.say_each(visit, due, messages, Moment::at(clock.now()));
    if matches!(said.first(), Some(Ok(_))) {
        let step = send_all(visit.alloc, socket, place)?;
        if !matches!(step, Progress::GoOn) {
            return Ok(step);
        }
    }
    put_refusals(visit.alloc, socket, place, said, count)?;
    send_all(visit.alloc, socket, place)
}

// Writes a fault message to the send buffer for each of this many messages that was refused. One of which
// is not said what it came to was refused for lack of memory.
fn put_refusals<L: Ledger, S: Read + Write + Drop>(
    alloc: Global,
    socket: &mut Socket<S, NoMask>,
    place: &JoinedSession<L>,
    said: Vec<Result<Said, HubFault>>,
    count: usize,
) -> Result<(), SockFault>
    ensures err { IfErr result (λ e. is_handshake e ≡ false) }
{
    let mut rest = said.into_iter();
    for _ in 0..count {
        if let Err(fault) = rest.next().unwrap_or(Err(HubFault::Memory)) {
            let refusal = place.fault(alloc, code_of(fault)?)?;
            put_answer(alloc, socket, Some(refusal))?;
        }
    }
    Ok(())
}

// Sends the answer, if there is one, and what waits for the session.
fn answer_with<L: Ledger, S: Read + Write + Drop>(
    alloc: Global,
    socket: &mut Socket<S, NoMask>,
    place: &mut JoinedSession<L>,
    answer: Option<Down>,
) -> Result<Progress, SockFault>
    ensures seat { place.new.seat ≡ place.old.seat }
    ensures err { IfErr result (λ e. is_handshake e ≡ false) }
{
    put_answer(alloc, socket, answer)?;
    send_all(alloc, socket, place)
}

// Writes the answer to the send buffer, if there is one.
fn put_answer<S: Read + Write + Drop>(
    alloc: Global,
    socket: &mut Socket<S, NoMask>,
    answer: Option<Down>,
) -> Result<(), SockFault>
    ensures wrote { OnOk result (IfSome answer (λ message.
        Writes (λ meter. S.contents meter.stream) socket.old socket.new
        (write_step socket.old.conn (text (compact_text (down_json message)))))) }
    ensures err { IfErr result (λ e. is_handshake e ≡ false) }
{
    match answer {
        Some(answer) => put(alloc, socket, &answer),
        None => Ok(()),
    }
}

// Sends what waits. After Gone the connection is to be closed.
fn send_all<L: Ledger, S: Read + Write + Drop>(
    alloc: Global,
    socket: &mut Socket<S, NoMask>,
    place: &mut JoinedSession<L>,
) -> Result<Progress, SockFault>
    ensures seat { place.new.seat ≡ place.old.seat }
    ensures err { IfErr result (λ e. is_handshake e ≡ false) }
{
    let mut step = Progress::GoOn;
    'messages: for _ in 0..BURST {
        let Some(is_gone) = put_next(alloc, socket, place)? else {
            break;
        };
        if is_gone {
            step = Progress::Close;
        }
    }
    flush(socket)?;
    Ok(step)
}

// Writes the next message to the send buffer, if there is one, and returns whether it is Gone.
fn put_next<L: Ledger, S: Read + Write + Drop>(
    alloc: Global,
    socket: &mut Socket<S, NoMask>,
    place: &mut JoinedSession<L>,
) -> Result<Option<bool>, SockFault>
    ensures seat { place.new.seat ≡ place.old.seat }
    ensures err { IfErr result (λ e. is_handshake e ≡ false) }
{
    let Some(message) = place.take() else {
        return Ok(None);
    };
    let is_gone = matches!(message, Down::Gone { .. });
    let put = put(alloc, socket, &message);
    drop(message);
    put?;
    Ok(Some(is_gone))
}
