//! `presence sim`: a script of a world, and what it makes.

ghost use Rattle.std.specs.Prelude.{◌≡◌, ◌⊎◌, None, map, IfErr, IfOk, IfSome, MatchResult};
ghost use Rattle.pres_script.specs.declared.fault.ScriptFault.TheVariants as fault;
ghost use Rattle.pres_world.specs.Distinct.{AreDistinct};
ghost use Rattle.pres_sim.specs.Scripts.{AreSteps, IsScript};

use crate::script::{ScriptStep, client_of, step_in};
use pres_client::{Call, Client, ClientFault, Notice};
use pres_ids::ClientId;
use pres_script::{ScriptFault, bytes_of, notice_line, texts_of};
use pres_tree::{Path, Tree, TreeJson};
use pres_wire::{Down, Up};
use pres_world::{Event, World, WorldFault, distinct};
use std::alloc::{AllocError, Global};
use std::collections::BTreeSet;
use std::io::{Read, Write};

// The number of the first line after the one that names the clients.
const FIRST_STEP: u64 = 2;

/// Makes a world of the clients that the first line of the input names, and does what each further
/// line says. What each makes goes to the output: the packets that clients and the server sent,
/// each with its number, and what clients note; or why it is refused. At the end go the server's
/// number and its tree, or `stopped`, and what each client shows. The first line that says nothing
/// prints as `bad line` and its number, and ends the run, refused as Input; an output that can't be
/// written ends it too.
pub fn sim_run<I: Read, W: Write>(
    alloc: Global,
    input: &mut I,
    output: &mut W,
) -> Result<(), ScriptFault>
    ensures lines { MatchResult result
        (λ _. IfSome (I.remaining input.old) IsScript)
        (λ e. (e ≡ fault.Memory) ⊎ (e ≡ fault.Input)) }
{
    let bytes = bytes_of(alloc, input)?;
    let texts = texts_of(alloc, bytes.as_slice())?;
    match texts.split_first() {
        Some((first, rest)) => play_script(alloc, first, rest, output),
        None => Err(bad_line(output, 1)),
    }
}

// Does what the lines say in a world of the clients that the first names.
fn play_script<W: Write>(
    alloc: Global,
    first: &[u8],
    rest: &[&[u8]],
    output: &mut W,
) -> Result<(), ScriptFault>
    ensures good { IfOk result (λ _. AreSteps (map (λ text. text.now) rest.now)) }
    ensures err { IfErr result (λ e. (e ≡ fault.Memory) ⊎ (e ≡ fault.Input)) }
{
    match clients_in(alloc, first)? {
        Some(clients) => play_with(alloc, clients, rest, output),
        None => Err(bad_line(output, 1)),
    }
}

// Does what the lines say in a world of these clients.
fn play_with<W: Write>(
    alloc: Global,
    clients: Vec<ClientId>,
    rest: &[&[u8]],
    output: &mut W,
) -> Result<(), ScriptFault>
    requires { AreDistinct clients.items }
    ensures good { IfOk result (λ _. AreSteps (map (λ text. text.now) rest.now)) }
    ensures err { IfErr result (λ e. (e ≡ fault.Memory) ⊎ (e ≡ fault.Input)) }
{
    let mut play = Play::new(alloc, clients)?;
    let ended = play.all(rest, output);
    drop(play);
    ended
}

// Prints the bad line.
fn bad_line<W: Write>(output: &mut W, number: u64) -> ScriptFault
    ensures { result ≡ fault.Input }
{
    let _ = write!(output, "bad line {number}\n");
    ScriptFault::Input
}

// The clients that the first line names, where it names some and none twice.
fn clients_in(alloc: Global, bytes: &[u8]) -> Result<Option<Vec<ClientId>>, AllocError>
    ensures { IfOk result (λ clients. IfSome clients (λ ids. AreDistinct ids.items)) }
{
    let Ok(text) = std::str::from_utf8(bytes) else {
        return Ok(None);
    };
    let Some(("clients", names)) = text.split_once(' ') else {
        return Ok(None);
    };
    let mut clients = Vec::new(alloc);
    for name in names.split(' ') {
        let Some(client) = client_of(alloc, name)? else {
            return Ok(None);
        };
        clients.push(client)?;
    }
    if !distinct(clients.as_slice()) {
        return Ok(None);
    }
    Ok(Some(clients))
}

fn in_byte_order(alloc: Global, clients: Vec<ClientId>) -> Result<BTreeSet<ClientId>, AllocError> {
    let mut by_id = BTreeSet::new(alloc);
    for client in clients {
        by_id.insert(client)?;
    }
    Ok(by_id)
}

// What the lines say, up to the first that says nothing, and the number of that one.
fn steps_of(alloc: Global, texts: &[&[u8]]) -> Result<(Vec<ScriptStep>, Option<u64>), AllocError>
    ensures { IfOk result (λ r. r.1 ≡ None → AreSteps (map (λ text. text.now) texts.now)) }
{
    let mut steps = Vec::new(alloc);
    for bytes in texts.iter() {
        match step_in(alloc, bytes)? {
            Some(step) => steps.push(step)?,
            None => {
                let number = FIRST_STEP + steps.len() as u64;
                return Ok((steps, Some(number)));
            }
        }
    }
    Ok((steps, None))
}

// A world while its script runs: its clients, the paths that were listened to, and how many packets
// were printed.
#[derive(Drop)]
struct Play {
    alloc: Global,
    world: World,
    clients: BTreeSet<ClientId>,
    paths: BTreeSet<Path>,
    ups: usize,
    downs: usize,
}

impl Play {
    fn new(alloc: Global, clients: Vec<ClientId>) -> Result<Play, AllocError>
        requires { AreDistinct clients.items }
    {
        let world = World::new(alloc, clients.as_slice())?;
        let clients = in_byte_order(alloc, clients)?;
        Ok(Play {
            alloc,
            world,
            clients,
            paths: BTreeSet::new(alloc),
            ups: 0,
            downs: 0,
        })
    }

    // Does what each line says, up to the first that says nothing.
    fn all<W: Write>(&mut self, lines: &[&[u8]], output: &mut W) -> Result<(), ScriptFault>
        ensures good { IfOk result (λ _. AreSteps (map (λ text. text.now) lines.now)) }
        ensures err { IfErr result (λ e. (e ≡ fault.Memory) ⊎ (e ≡ fault.Input)) }
    {
        let (steps, bad) = steps_of(self.alloc, lines)?;
        self.finish(steps, bad, output)
    }

    // Does what each step says, and prints the state of the world then, or which line is bad.
    fn finish<W: Write>(
        &mut self,
        steps: Vec<ScriptStep>,
        bad: Option<u64>,
        output: &mut W,
    ) -> Result<(), ScriptFault>
        ensures good { IfOk result (λ _. bad ≡ None) }
        ensures err { IfErr result (λ e. (e ≡ fault.Memory) ⊎ (e ≡ fault.Input)) }
    {
        self.run(steps, output)?;
        match bad {
            Some(number) => Err(bad_line(output, number)),
            None => self.end(output),
        }
    }

    // Does what each step says.
    fn run<W: Write>(&mut self, steps: Vec<ScriptStep>, output: &mut W) -> Result<(), ScriptFault>
        ensures { IfErr result (λ e. (e ≡ fault.Memory) ⊎ (e ≡ fault.Input)) }
    {
        for step in steps {
            match step {
                ScriptStep::Event(event) => self.step(event, output)?,
                ScriptStep::Refused => tell(output, b"refused 5\n")?,
            }
        }
        Ok(())
    }

    // Remembers the path of a call that listens.
    fn remember(&mut self, event: &Event) -> Result<(), AllocError> {
        if let Event::Call {
            call: Call::Listen(path),
            ..
        } = event
        {
            self.paths.insert(path.copy(self.alloc)?)?;
        }
        Ok(())
    }

    // Does the event, and prints what it made, or why it is refused.
    fn step<W: Write>(&mut self, event: Event, output: &mut W) -> Result<(), ScriptFault>
        ensures { IfErr result (λ e. (e ≡ fault.Memory) ⊎ (e ≡ fault.Input)) }
    {
        if self.remember(&event).is_err() {
            drop(event);
            return Err(ScriptFault::Memory);
        }
        match self.world.step(event) {
            Ok(()) => self.tell_news(output),
            Err(WorldFault::Memory) => Err(ScriptFault::Memory),
            Err(WorldFault::NoSuch) => tell(output, b"nosuch\n"),
            Err(WorldFault::Client(fault)) => tell_refusal(self.alloc, output, fault),
        }
    }

    // Prints the packets that are new, and what clients noted.
    fn tell_news<W: Write>(&mut self, output: &mut W) -> Result<(), ScriptFault>
        ensures { IfErr result (λ e. (e ≡ fault.Memory) ⊎ (e ≡ fault.Input)) }
    {
        self.tell_ups(output)?;
        self.tell_downs(output)?;
        self.tell_notes(output)
    }

    // Prints the packets that clients have sent since.
    fn tell_ups<W: Write>(&mut self, output: &mut W) -> Result<(), ScriptFault>
        ensures { IfErr result (λ e. (e ≡ fault.Memory) ⊎ (e ≡ fault.Input)) }
    {
        let packets = self.world.packets_up();
        for (number, packet) in (1..).zip(packets).skip(self.ups) {
            tell_up(self.alloc, output, number, packet)?;
        }
        self.ups = packets.len();
        Ok(())
    }

    // Prints the packets that the server has sent since.
    fn tell_downs<W: Write>(&mut self, output: &mut W) -> Result<(), ScriptFault>
        ensures { IfErr result (λ e. (e ≡ fault.Memory) ⊎ (e ≡ fault.Input)) }
    {
        let packets = self.world.packets_down();
        for (number, packet) in (1..).zip(packets).skip(self.downs) {
            tell_down(self.alloc, output, number, packet)?;
        }
        self.downs = packets.len();
        Ok(())
    }

    // Prints what clients have noted since.
    fn tell_notes<W: Write>(&mut self, output: &mut W) -> Result<(), ScriptFault>
        ensures { IfErr result (λ e. (e ≡ fault.Memory) ⊎ (e ≡ fault.Input)) }
    {
        for client in self.clients.iter() {
            let notices = self.world.take_notices(client);
            tell_notices(self.alloc, output, client, notices)?;
        }
        Ok(())
    }

    // Prints the state of the world at the end.
    fn end<W: Write>(&self, output: &mut W) -> Result<(), ScriptFault>
        ensures { IfErr result (λ e. (e ≡ fault.Memory) ⊎ (e ≡ fault.Input)) }
    {
        self.tell_server(output)?;
        for id in self.clients.iter() {
            if let Some(client) = self.world.client(id) {
                self.tell_views(output, id, client)?;
            }
        }
        Ok(())
    }

    // Prints the server's number and its tree.
    fn tell_server<W: Write>(&self, output: &mut W) -> Result<(), ScriptFault>
        ensures { IfErr result (λ e. (e ≡ fault.Memory) ⊎ (e ≡ fault.Input)) }
    {
        let Some(server) = self.world.server() else {
            return tell(output, b"stopped\n");
        };
        let mut line = format!(in self.alloc; "number {}\ntree ", server.number())?.into_bytes();
        match server.value_at(&Path::root(self.alloc)) {
            Some(tree) => tree.print(self.alloc, &mut line)?,
            None => line.extend_from_slice(b"null")?,
        }
        line.push(b'\n')?;
        tell(output, line.as_slice())
    }

    // Prints what the client shows of each path that was listened to.
    fn tell_views<W: Write>(
        &self,
        output: &mut W,
        id: &ClientId,
        client: &Client,
    ) -> Result<(), ScriptFault>
        ensures { IfErr result (λ e. (e ≡ fault.Memory) ⊎ (e ≡ fault.Input)) }
    {
        for path in self.paths.iter() {
            if let Some((number, value)) = client.view(path) {
                let line = view_line(self.alloc, id, path, number, value)?;
                tell(output, line.as_slice())?;
            }
        }
        Ok(())
    }
}

// Writes the line.
fn tell<W: Write>(output: &mut W, line: &[u8]) -> Result<(), ScriptFault>
    ensures { IfErr result (λ e. (e ≡ fault.Memory) ⊎ (e ≡ fault.Input)) }
{
    match output.write_all(line) {
        Ok(()) => Ok(()),
        Err(_) => Err(ScriptFault::Input),
    }
}

fn tell_refusal<W: Write>(
    alloc: Global,
    output: &mut W,
    refusal: ClientFault,
) -> Result<(), ScriptFault>
    ensures { IfErr result (λ e. (e ≡ fault.Memory) ⊎ (e ≡ fault.Input)) }
{
    tell(
        output,
        format!(in alloc; "refused {}\n", refusal.number())?.as_bytes(),
    )
}

fn tell_up<W: Write>(
    alloc: Global,
    output: &mut W,
    number: usize,
    packet: &Up,
) -> Result<(), ScriptFault>
    ensures { IfErr result (λ e. (e ≡ fault.Memory) ⊎ (e ≡ fault.Input)) }
{
    let text = packet.encode(alloc)?;
    tell(
        output,
        format!(in alloc; "up {number} {text}\n")?.as_bytes(),
    )
}

fn tell_down<W: Write>(
    alloc: Global,
    output: &mut W,
    number: usize,
    packet: &Down,
) -> Result<(), ScriptFault>
    ensures { IfErr result (λ e. (e ≡ fault.Memory) ⊎ (e ≡ fault.Input)) }
{
    let text = packet.encode(alloc)?;
    tell(
        output,
        format!(in alloc; "down {number} {text}\n")?.as_bytes(),
    )
}

// Prints what the client noted.
fn tell_notices<W: Write>(
    alloc: Global,
    output: &mut W,
    client: &ClientId,
    notices: Vec<Notice>,
) -> Result<(), ScriptFault>
    ensures { IfErr result (λ e. (e ≡ fault.Memory) ⊎ (e ≡ fault.Input)) }
{
    for notice in notices {
        let line = notice_line(alloc, &notice);
        drop(notice);
        tell(output, format!(in alloc; "note {client} ")?.as_bytes())?;
        tell(output, line?.as_slice())?;
    }
    Ok(())
}

// What the client shows of the path.
fn view_line(
    alloc: Global,
    id: &ClientId,
    path: &Path,
    number: u64,
    value: &Tree,
) -> Result<Vec<u8>, AllocError> {
    let text = path.text(alloc)?;
    let mut line = format!(in alloc; "view {id} {text} {number} ")?.into_bytes();
    value.print(alloc, &mut line)?;
    line.push(b'\n')?;
    Ok(line)
}
