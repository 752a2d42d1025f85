//! Batches that are kept as rows of a database in memory, and a checkpoint in their place.

ghost use Rattle.std.specs.Prelude.{IfOk};
ghost use Rattle.pres_keeper.specs.Keepers.{KeepsOneNull};

use crate::callers::{TRIES, log_text, now, too_often};
use anyhow::{Result, anyhow};
use pres_faults::SavedFault;
use pres_keeper::{Keeper, Unsettled, settle};
use pres_saved::SqlKeeper;
use pres_server::{Busy, Fault, Input, Server, Turn, Up};
use sqlite::{Alter, Connection};
use std::alloc::Global;

// The messages, each of which makes a batch.
const MESSAGES: [&str; 2] = [
    r#"{"m":"hello","s":["alice",1,1]}"#,
    r#"{"m":"op","n":1,"op":{"op":"set","path":"/a","value":1},"q":1,"s":["alice",1,1]}"#,
];

// Nothing where memory was refused, so that the call may be made again.
fn again(fault: SavedFault) -> Result<()> {
    if matches!(fault, SavedFault::Memory) {
        drop(fault);
        return Ok(());
    }
    Err(anyhow!(fault.name()))
}

// The lines of what the keeper holds.
fn kept<K: Keeper>(alloc: Global, keeper: &mut K) -> Result<String> {
    for _ in 0..TRIES {
        match keeper.batches() {
            Ok(batches) => {
                let text = log_text(alloc, &batches);
                drop(batches);
                return text;
            }
            Err(fault) => again(fault)?,
        }
    }
    Err(too_often())
}

// The server of what the keeper holds.
fn server_of<K: Keeper>(keeper: &mut K) -> Result<Server>
    ensures { IfOk result (λ server. KeepsOneNull server.sum) }
{
    for _ in 0..TRIES {
        match keeper.server() {
            Ok((server, _)) => return Ok(server),
            Err(fault) => again(fault)?,
        }
    }
    Err(too_often())
}

// Whether the batch is kept, or else memory was refused before.
fn is_kept<K: Keeper>(keeper: &mut K, busy: Busy) -> Result<bool> {
    match settle(keeper, busy) {
        Ok((server, answers)) => {
            drop(server);
            drop(answers);
            Ok(true)
        }
        Err(Unsettled::Refused(fault, server)) => {
            drop(server);
            again(fault)?;
            Ok(false)
        }
        // it is kept, and the next server is made of the rows
        Err(Unsettled::Reopen) => Ok(true),
    }
}

// Whether the batch of the message is kept, or else memory was refused before.
fn is_taken<K: Keeper>(keeper: &mut K, server: Server, up: Up) -> Result<bool> {
    match server.prepare(Input::Up(up), now()) {
        Ok(Turn::Busy(busy)) => is_kept(keeper, busy),
        Ok(Turn::Quiet(server, answers)) => {
            drop(server);
            drop(answers);
            Err(anyhow!("a message made no batch"))
        }
        Err((Fault::Busy, server)) => {
            drop(server);
            Ok(false)
        }
        Err((fault, server)) => {
            drop(server);
            Err(anyhow!("{fault}"))
        }
    }
}

// Keeps the batch of the message. A refusal has to leave the rows.
fn commit<K: Keeper>(alloc: Global, keeper: &mut K, text: &str) -> Result<()> {
    let before = kept(alloc, keeper)?;
    for _ in 0..TRIES {
        let up = Up::decode(alloc, text)?;
        let server = server_of(keeper)?;
        if is_taken(keeper, server, up)? {
            return Ok(());
        }
        let after = kept(alloc, keeper)?;
        if after.as_str() != before.as_str() {
            return Err(anyhow!("a refused commit changed the rows"));
        }
    }
    Err(too_often())
}

// Makes a checkpoint of what the keeper holds. A refusal has to leave the rows.
fn checkpoint<K: Keeper>(alloc: Global, keeper: &mut K) -> Result<()> {
    let before = kept(alloc, keeper)?;
    for _ in 0..TRIES {
        let server = server_of(keeper)?;
        let made = keeper.checkpoint(&server);
        drop(server);
        match made {
            Ok(()) => return Ok(()),
            Err(fault) => again(fault)?,
        }
        let after = kept(alloc, keeper)?;
        if after.as_str() != before.as_str() {
            return Err(anyhow!("a refused checkpoint changed the rows"));
        }
    }
    Err(too_often())
}

// How many entries the server has of what the keeper holds.
fn number_of<K: Keeper>(keeper: &mut K) -> Result<u64> {
    let server = server_of(keeper)?;
    let number = server.number();
    drop(server);
    Ok(number)
}

// Keeps the batches of the messages, and then a checkpoint in their place: each time the rows, and how
// many entries their server has.
fn committed<K: Keeper>(alloc: Global, keeper: &mut K) -> Result<String> {
    for text in MESSAGES {
        commit(alloc, keeper, text)?;
    }
    let rows = kept(alloc, keeper)?;
    let number = number_of(keeper)?;
    checkpoint(alloc, keeper)?;
    let left = kept(alloc, keeper)?;
    let found = number_of(keeper)?;
    let text = format!(in alloc;
        "{rows}{number} entries\n{left}{found} entries behind a checkpoint\n"
    )?;
    Ok(text)
}

// A keeper over the database, whose tables are made.
fn created<S: Alter + Drop>(
    alloc: Global,
    connection: Connection<S>,
) -> Result<Result<SqlKeeper<S>, Connection<S>>> {
    if !connection.is_autocommit() {
        return Err(anyhow!("a transaction is open"));
    }
    match SqlKeeper::create(alloc, connection) {
        Ok(keeper) => Ok(Ok(keeper)),
        Err((fault, connection)) => {
            again(fault)?;
            Ok(Err(connection))
        }
    }
}

// What comes of the messages over the database.
fn played<S: Alter + Drop>(alloc: Global, mut connection: Connection<S>) -> Result<String> {
    for _ in 0..TRIES {
        match created(alloc, connection)? {
            Ok(mut keeper) => return committed(alloc, &mut keeper),
            Err(refused) => connection = refused,
        }
    }
    Err(too_often())
}

/// Two batches are kept as rows, and then a checkpoint in their place. Each time the rows, and how many
/// entries their server has.
pub(crate) fn play(alloc: Global) -> Result<String> {
    for _ in 0..TRIES {
        if let Ok(connection) = Connection::open_in_memory(alloc) {
            return played(alloc, connection);
        }
    }
    Err(too_often())
}
