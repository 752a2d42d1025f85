//! The lines of a script of a world.

ghost use Rattle.std.specs.Prelude.{◌≡◌, IfOk, option_map};
ghost use Rattle.pres_ids.specs.Forms.{client_in};
ghost use Rattle.pres_script.specs.Lines.{whole_in};
ghost use Rattle.pres_sim.specs.Scripts.{scripted, moment_in, call_line, arrival_line, delivery_line, loss_line, tick_line, client_start_line, server_start_line, lone_line, word_line, script_line, script_bytes};

use pres_ids::{ClientId, IdFault};
use pres_script::{Line, line_of, number_of};
use pres_world::{Ending, Event};
use pres_write::Moment;
use std::alloc::{AllocError, Global};

/// What a line of a script says.
#[derive(Drop)]
pub enum ScriptStep {
    /// It is an event.
    Event(Event),
    /// It is a call with a refused path or refused JSON.
    Refused,
}

/// What the bytes of a line say: none where it is no line of a script.
pub fn step_in(alloc: Global, bytes: &[u8]) -> Result<Option<ScriptStep>, AllocError>
    ensures { IfOk result (λ step. option_map scripted step ≡ script_bytes bytes.now) }
{
    match std::str::from_utf8(bytes) {
        Ok(text) => step_of(alloc, text),
        Err(_) => Ok(None),
    }
}

fn step_of(alloc: Global, text: &str) -> Result<Option<ScriptStep>, AllocError>
    ensures { IfOk result (λ step. option_map scripted step ≡ script_line text.now) }
{
    match text.split_once(' ') {
        Some((word, given)) => step_with(alloc, word, given),
        None => Ok(step_alone(text)),
    }
}

// The step of a word that is given nothing.
fn step_alone(word: &str) -> Option<ScriptStep>
    ensures { option_map scripted result ≡ lone_line word.now }
{
    match word {
        "checkpoint" => Some(ScriptStep::Event(Event::Checkpoint)),
        _ => None,
    }
}

// The step of a word with what it is given.
fn step_with(alloc: Global, word: &str, given: &str) -> Result<Option<ScriptStep>, AllocError>
    ensures { IfOk result (λ step. option_map scripted step ≡ word_line word.now given.now) }
{
    match word {
        "call" => called(alloc, given),
        "up" => Ok(arrival(given, Ending::Answered)),
        "up-stop" => Ok(arrival(given, Ending::Stopped)),
        "up-refuse" => Ok(arrival(given, Ending::Refused)),
        "down" => Ok(delivery(given)),
        "drop" => loss(alloc, given),
        "tick" => Ok(tick(given)),
        "restart-client" => client_start(alloc, given),
        "restart-server" => Ok(server_start(given)),
        _ => Ok(None),
    }
}

// A client's call.
fn called(alloc: Global, given: &str) -> Result<Option<ScriptStep>, AllocError>
    ensures { IfOk result (λ step. option_map scripted step ≡ call_line given.now) }
{
    let Some((name, text)) = given.split_once(' ') else {
        return Ok(None);
    };
    let Some(client) = client_of(alloc, name)? else {
        return Ok(None);
    };
    match line_of(alloc, text)? {
        Some(Line::Call(call)) => Ok(Some(ScriptStep::Event(Event::Call { client, call }))),
        Some(Line::Refused) => Ok(Some(ScriptStep::Refused)),
        Some(Line::Wait(_)) | None => Ok(None),
    }
}

/// The client of a name: none where it is no client's.
pub fn client_of(alloc: Global, name: &str) -> Result<Option<ClientId>, AllocError>
    ensures { IfOk result (λ id. id ≡ client_in name.now) }
{
    match ClientId::parse(alloc, name) {
        Ok(id) => Ok(Some(id)),
        Err(IdFault::NotAnId) => Ok(None),
        Err(IdFault::Memory) => Err(AllocError),
    }
}

fn moment_of(text: &str) -> Option<Moment>
    ensures { result ≡ moment_in text.now }
{
    Some(Moment::at(number_of(text)?))
}

// A packet from a client arrives at the server.
fn arrival(given: &str, ending: Ending) -> Option<ScriptStep>
    ensures { option_map scripted result ≡ arrival_line ending given.now }
{
    let (packet, now) = given.split_once(' ')?;
    let packet = number_of(packet)? as usize;
    let now = moment_of(now)?;
    Some(ScriptStep::Event(Event::Up {
        packet,
        now,
        ending,
    }))
}

// A packet from the server arrives at its client.
fn delivery(given: &str) -> Option<ScriptStep>
    ensures { option_map scripted result ≡ delivery_line given.now }
{
    let packet = number_of(given)? as usize;
    Some(ScriptStep::Event(Event::Down { packet }))
}

// A client's connection is lost.
fn loss(alloc: Global, given: &str) -> Result<Option<ScriptStep>, AllocError>
    ensures { IfOk result (λ step. option_map scripted step ≡ loss_line given.now) }
{
    let Some((name, now)) = given.split_once(' ') else {
        return Ok(None);
    };
    let Some(client) = client_of(alloc, name)? else {
        return Ok(None);
    };
    match moment_of(now) {
        Some(now) => Ok(Some(ScriptStep::Event(Event::Loss { client, now }))),
        None => Ok(None),
    }
}

fn tick(given: &str) -> Option<ScriptStep>
    ensures { option_map scripted result ≡ tick_line given.now }
{
    let now = moment_of(given)?;
    Some(ScriptStep::Event(Event::Tick { now }))
}

fn client_start(alloc: Global, given: &str) -> Result<Option<ScriptStep>, AllocError>
    ensures { IfOk result (λ step. option_map scripted step ≡ client_start_line given.now) }
{
    match client_of(alloc, given)? {
        Some(client) => Ok(Some(ScriptStep::Event(Event::RestartClient { client }))),
        None => Ok(None),
    }
}

fn server_start(given: &str) -> Option<ScriptStep>
    ensures { option_map scripted result ≡ server_start_line given.now }
{
    let now = moment_of(given)?;
    Some(ScriptStep::Event(Event::RestartServer { now }))
}
