//! `presence serve`: a server over TCP, kept in a file.

ghost use Rattle.std.specs.Prelude.{◌≡◌, ◌≢◌, true, false, ◌^◌, ◌++◌, ℕ, IfErr, OnOk};
ghost use Rattle.std.specs.Io.KnownBytes.{Appends};
ghost use Rattle.pres_file.specs.FileOpening.{HoldsOurs};
ghost use Rattle.pres_service.specs.declared.fault.ServiceFault.TheVariants as fault;
ghost use Rattle.pres_service.specs.Faults.{is_halt};
ghost use Rattle.pres_service.specs.Outputs.{listening_line, number_line};

use crate::counted::CountedKeeper;
use crate::fault::ServiceFault;
use pres_file::{OpenedFile, connect, keeper_for};
use pres_keeper::{Premise, Supposed};
use pres_saved::{Commit, Watch, Watched};
use pres_tcp::{
    Core, EndRequest, Halt, Health, Hub, Keeper, Meter, Moment, OpenGate, StreamBell, WallClock,
    serve_connections,
};
use sqlite::{Alter, Connection, Unknown};
use std::alloc::Global;
use std::fs;
use std::io::Write;
use std::marker::Brand;
use std::net::{Net, TcpListener, TcpStream};
use std::sync::Wait;
use std::sync::ledger::{Blank, Ledger};
use std::thread::Threads;
use std::time::{Clock, Instant};

/// What a server is asked for: where it listens, where it keeps its history, and how many
/// connections it serves, none if it runs on.
#[derive(Clone, Copy)]
pub struct ServeOptions<'a> {
    pub address: &'a str,
    pub file: &'a str,
    pub connections: Option<u32>,
}

/// Opens the file, or makes it if it is absent or holds nothing, goes over what it holds, listens
/// at the address, and serves connections, until the end is requested. It prints on the output where it
/// listens, once it does, and at its end the number of the last entry; on the error stream, over an old
/// file, how many entries it has and how long it took to read them, and when commits begin and end to
/// be refused. It ends early if it can't go on, because its store was shut or its hub is down.
pub fn serve_run<R, E: EndRequest, W: Write, F: Write>(
    host: &HostRuntime,
    rt: &R,
    alloc: Global,
    serving: ServeOptions<'_>,
    request: &mut E,
    output: &mut W,
    faults: &mut F,
) -> Result<(), ServiceFault>
where
    R: Net<Listener = TcpListener, Stream = TcpStream> + Threads + Wait + Clock + Sync,
    ensures said { OnOk result ((number : ℕ) × Appends
        (W.contents output.old) (W.contents output.new)
        (listening_line serving.entry.address.now ++ number_line number)) }
    ensures silent { IfErr result (λ e. e ≢ fault.Input → is_halt e ≡ false
        → output.new ≡ output.old) }
    ensures halted { IfErr result (λ e. is_halt e ≡ true
        → Appends (W.contents output.old) (W.contents output.new)
        (listening_line serving.entry.address.now)) }
{
    let connection = connect(host, serving.file, Unknown)?;
    let health = Health::new();
    let mut watched = WatchedFile {
        host,
        file: serving.file,
        meter: health.meter(),
        request,
    };
    let number = granted(
        rt,
        alloc,
        connection,
        &health,
        serving,
        &mut watched,
        output,
        faults,
    )?;
    match writeln!(output, "number {number}") {
        Ok(()) => Ok(()),
        Err(_) => Err(ServiceFault::Input),
    }
}

// A server's file, whose length is looked up each time the server asks whether its end is requested.
#[derive(Drop)]
struct WatchedFile<'a, E> {
    host: &'a HostRuntime,
    file: &'a str,
    meter: &'a Meter,
    request: &'a mut E,
}

impl<E: EndRequest> EndRequest for WatchedFile<'_, E> {
    fn is_made(&mut self) -> bool {
        if let Ok(found) = fs::metadata(self.host, self.file) {
            self.meter.note_file_bytes(found.len());
        }
        self.request.is_made()
    }
}

// The number of the last entry. It is assumed that the tables which were found are those of the
// statements.
fn granted<S: Alter + Drop + Send, R, E: EndRequest, W: Write, F: Write>(
    rt: &R,
    alloc: Global,
    connection: Connection<S>,
    health: &Health,
    serving: ServeOptions<'_>,
    request: &mut E,
    output: &mut W,
    faults: &mut F,
) -> Result<u64, ServiceFault>
where
    R: Net<Listener = TcpListener, Stream = TcpStream> + Threads + Wait + Clock + Sync,
    requires mode { connection.in_transaction ≡ false }
    ensures said { OnOk result (Appends (W.contents output.old) (W.contents output.new)
        (listening_line serving.entry.address.now)) }
    ensures silent { IfErr result (λ e. e ≢ fault.Input → is_halt e ≡ false
        → output.new ≡ output.old) }
    ensures halted { IfErr result (λ e. is_halt e ≡ true
        → Appends (W.contents output.old) (W.contents output.new)
        (listening_line serving.entry.address.now)) }
{
    supposing::<Brand, S, R, E, W, F>(
        rt, alloc, connection, health, serving, request, output, faults,
    )
}

// The same, where a premise says that what was found was made by our statements.
fn supposing<P: Premise + Send, S: Alter + Drop + Send, R, E: EndRequest, W: Write, F: Write>(
    rt: &R,
    alloc: Global,
    connection: Connection<S>,
    health: &Health,
    serving: ServeOptions<'_>,
    request: &mut E,
    output: &mut W,
    faults: &mut F,
) -> Result<u64, ServiceFault>
where
    R: Net<Listener = TcpListener, Stream = TcpStream> + Threads + Wait + Clock + Sync,
    requires mode { connection.in_transaction ≡ false }
    requires ours { P.holds → HoldsOurs S.Store connection }
    ensures said { OnOk result (Appends (W.contents output.old) (W.contents output.new)
        (listening_line serving.entry.address.now)) }
    ensures silent { IfErr result (λ e. e ≢ fault.Input → is_halt e ≡ false
        → output.new ≡ output.old) }
    ensures halted { IfErr result (λ e. is_halt e ≡ true
        → Appends (W.contents output.old) (W.contents output.new)
        (listening_line serving.entry.address.now)) }
{
    let OpenedFile { keeper, is_new } = keeper_for(alloc, connection)?;
    let keeper = Watched::new(keeper, Noted { health });
    let keeper = Supposed::<Watched<S, Noted<'_>>, P>::new(keeper);
    counted::<Supposed<Watched<S, Noted<'_>>, P>, R, E, W, F>(
        rt, alloc, keeper, health, serving, request, is_new, output, faults,
    )
}

// Takes note of what becomes of commits.
#[derive(Drop)]
struct Noted<'a> {
    health: &'a Health,
}

impl Watch for Noted<'_> {
    fn note(&self, commit: Commit) {
        match commit {
            Commit::Taken => self.health.note_commit(false),
            Commit::Refused => self.health.note_commit(true),
            Commit::Shut => self.health.end(Halt::Shut),
        }
    }
}

// The same over a keeper.
fn counted<K: Keeper + Drop + Send, R, E: EndRequest, W: Write, F: Write>(
    rt: &R,
    alloc: Global,
    keeper: K,
    health: &Health,
    serving: ServeOptions<'_>,
    request: &mut E,
    is_new: bool,
    output: &mut W,
    faults: &mut F,
) -> Result<u64, ServiceFault>
where
    R: Net<Listener = TcpListener, Stream = TcpStream> + Threads + Wait + Clock + Sync,
    requires ready { K.ready keeper }
    ensures said { OnOk result (Appends (W.contents output.old) (W.contents output.new)
        (listening_line serving.entry.address.now)) }
    ensures silent { IfErr result (λ e. e ≢ fault.Input → is_halt e ≡ false
        → output.new ≡ output.old) }
    ensures halted { IfErr result (λ e. is_halt e ≡ true
        → Appends (W.contents output.old) (W.contents output.new)
        (listening_line serving.entry.address.now)) }
{
    let blank = Blank::new(1 << 53);
    let keeper = CountedKeeper::new(keeper, health.meter(), rt);
    served::<Brand, CountedKeeper<'_, K, R>, R, E, W, F>(
        rt, alloc, blank, keeper, health, serving, request, is_new, output, faults,
    )
}

// The same with a ledger that the caller picks.
fn served<L: Ledger + Send + Sync, K: Keeper + Drop + Send, R, E: EndRequest, W: Write, F: Write>(
    rt: &R,
    alloc: Global,
    blank: Blank,
    keeper: K,
    health: &Health,
    serving: ServeOptions<'_>,
    request: &mut E,
    is_new: bool,
    output: &mut W,
    faults: &mut F,
) -> Result<u64, ServiceFault>
where
    R: Net<Listener = TcpListener, Stream = TcpStream> + Threads + Wait + Clock + Sync,
    requires name { blank.name ≡ L.name }
    requires parts { blank.parts ≡ L.parts }
    requires whole { blank.parts ≡ 2 ^ 53 }
    requires ready { K.ready keeper }
    ensures said { OnOk result (Appends (W.contents output.old) (W.contents output.new)
        (listening_line serving.entry.address.now)) }
    ensures silent { IfErr result (λ e. e ≢ fault.Input → is_halt e ≡ false
        → output.new ≡ output.old) }
    ensures halted { IfErr result (λ e. is_halt e ≡ true
        → Appends (W.contents output.old) (W.contents output.new)
        (listening_line serving.entry.address.now)) }
{
    let start = Instant::now(rt).ok();
    let now = Moment::at(pres_tcp::Clock::now(&mut WallClock::new(rt)));
    let core = match Core::<L, K, StreamBell>::start(alloc, blank, keeper, now) {
        Ok(core) => core,
        Err((fault, keeper)) => {
            drop(keeper);
            return Err(ServiceFault::from(fault));
        }
    };
    health.meter().begin(core.number(), now);
    if !is_new {
        tell_start(rt, core.number(), start, faults);
    }
    match listening(rt, serving.address, output) {
        Ok(listener) => {
            let hub = Hub::new(core, OpenGate);
            let count = serving.connections;
            let ended = serve_connections(
                rt, alloc, &hub, listener, count, request, health, faults,
            );
            let number = hub.into_core().finish().number();
            match ended {
                Ok(()) => Ok(number),
                Err(halt) => Err(ServiceFault::from(halt)),
            }
        }
        Err(fault) => {
            drop(core.finish());
            Err(fault)
        }
    }
}

// Listens at the address, and prints so.
fn listening<R: Net<Listener = TcpListener, Stream = TcpStream>, W: Write>(
    rt: &R,
    address: &str,
    output: &mut W,
) -> Result<TcpListener, ServiceFault>
    ensures said { OnOk result (Appends (W.contents output.old) (W.contents output.new)
        (listening_line address.now)) }
    ensures silent { IfErr result (λ e. e ≢ fault.Input → output.new ≡ output.old) }
    ensures early { IfErr result (λ e. is_halt e ≡ false) }
{
    let Ok(listener) = TcpListener::bind(rt, address) else {
        return Err(ServiceFault::Address);
    };
    let told = match writeln!(output, "listening {address}") {
        Ok(()) => output.flush(),
        Err(error) => Err(error),
    };
    match told {
        Ok(()) => Ok(listener),
        Err(_) => Err(ServiceFault::Input),
    }
}

// How many entries an old file has, and how long it took to read them.
fn tell_start<R: Clock, F: Write>(rt: &R, number: u64, start: Option<Instant>, faults: &mut F) {
    let Some(start) = start else {
        return;
    };
    let Ok(spent) = start.elapsed(rt) else {
        return;
    };
    let millis = spent.as_millis();
    let _ = writeln!(faults, "presence: {number} entries read in {millis} ms");
}
