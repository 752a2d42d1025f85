//! A hub over what the keeper holds, and its callers.

ghost use Rattle.std.specs.Prelude.{◌≡◌, ◌^◌};

use crate::callers::{Place, join, leave, now, say, session, tick};
use crate::reader::read_late;
use anyhow::{Result, anyhow};
use pres_hub::{Core, MemKeeper, NoBell};
use std::alloc::Global;
use std::marker::Brand;
use std::sync::ledger::{Blank, Ledger};

// How many messages a writer has.
const MESSAGES: u64 = 12;

/// The callers of a hub.
#[derive(Clone, Copy)]
pub(crate) enum Guest {
    /// This client, who writes.
    Writer(&'static str),
    /// A client who reads late, and one who writes meanwhile.
    SlowReader,
    /// Nobody.
    Nobody,
}

/// What a visit came to: how many messages of a writer were answered, or how many the reader took at last,
/// and whether the hub went down.
#[derive(Clone, Copy)]
pub(crate) struct Outcome {
    pub(crate) count: u64,
    pub(crate) down: bool,
}

// The client's message number n, a write.
fn write_text(alloc: Global, client: &str, n: u64) -> Result<String> {
    let text = format!(in alloc;
        r#"{{"m":"op","n":{n},"op":{{"op":"set","path":"/{client}/{n}","value":{n}}},"q":{n},"s":["{client}",1,1]}}"#
    )?;
    Ok(text)
}

// Says the client's messages in order: how many were answered, and whether the hub stays up.
fn say_all<L: Ledger>(
    alloc: Global,
    core: &mut Core<L, MemKeeper, NoBell>,
    place: &mut Place<L>,
    client: &str,
) -> Result<(u64, bool)> {
    let mut count = 0;
    for n in 1..=MESSAGES {
        let text = write_text(alloc, client, n)?;
        if !say(alloc, core, &mut place.seat, text.as_str())? {
            return Ok((count, false));
        }
        count = n;
    }
    Ok((count, true))
}

// Opens the client's session, says its messages, and ends it.
fn write_all<L: Ledger>(
    alloc: Global,
    core: &mut Core<L, MemKeeper, NoBell>,
    client: &str,
) -> Result<(u64, bool)> {
    let session = session(alloc, client)?;
    let Some(mut place) = join(core, &session)? else {
        return Ok((0, false));
    };
    let said = say_all(alloc, core, &mut place, client);
    let is_up = leave(core, place);
    let (count, said) = said?;
    let is_up = said && is_up && tick(core)?;
    Ok((count, is_up))
}

// The result of a guest's visit: a number, and whether the hub stays up.
fn received<L: Ledger>(
    alloc: Global,
    core: &mut Core<L, MemKeeper, NoBell>,
    guest: Guest,
) -> Result<(u64, bool)> {
    match guest {
        Guest::Writer(client) => write_all(alloc, core, client),
        Guest::SlowReader => read_late(alloc, core),
        Guest::Nobody => Ok((0, true)),
    }
}

// A hub over what the keeper holds, with a ledger that the caller picks.
fn visited_with<L: Ledger>(
    alloc: Global,
    blank: Blank,
    keeper: MemKeeper,
    guest: Guest,
) -> Result<(Outcome, MemKeeper)>
    requires name { blank.name ≡ L.name }
    requires parts { blank.parts ≡ L.parts }
    requires whole { blank.parts ≡ 2 ^ 53 }
{
    match Core::<L, MemKeeper, NoBell>::start(alloc, blank, keeper, now()) {
        Ok(mut core) => {
            let received = received(alloc, &mut core, guest);
            let keeper = core.finish().into_keeper();
            let (count, is_up) = received?;
            let down = !is_up;
            Ok((Outcome { count, down }, keeper))
        }
        Err((fault, keeper)) => {
            drop(keeper);
            Err(anyhow!("{fault}"))
        }
    }
}

/// A guest visits a hub that is started over what the keeper holds, and then the hub ends.
pub(crate) fn visited(
    alloc: Global,
    keeper: MemKeeper,
    guest: Guest,
) -> Result<(Outcome, MemKeeper)> {
    visited_with::<Brand>(alloc, Blank::new(1 << 53), keeper, guest)
}
