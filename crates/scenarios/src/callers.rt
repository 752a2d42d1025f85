//! Calls of a hub, which are made again where memory is refused.

use anyhow::{Result, anyhow};
use pres_batch_json::print_entries;
use pres_dispatch::Outbox;
use pres_faults::{HubFault, SavedFault};
use pres_hub::{Core, Keeper, NoBell, Seat};
use pres_server::{Batch, ClientId, Moment, Number, SessionId, Stamp, Up, Why};
use std::alloc::Global;
use std::sync::ledger::Ledger;

/// How often a call is made. One allocation of a run is refused.
pub(crate) const TRIES: u32 = 3;

/// A seat, and the end from which its messages are taken.
pub(crate) struct Place<L: Ledger> {
    pub(crate) seat: Seat<L>,
    pub(crate) outbox: Outbox,
}

/// The moment of all calls.
pub(crate) fn now() -> Moment {
    Moment::at(1000)
}

/// The first session of the client.
pub(crate) fn session(alloc: Global, client: &str) -> Result<SessionId> {
    let stamp = Stamp {
        incarnation: Number::first(),
        attempt: Number::first(),
    };
    Ok(SessionId::of(ClientId::parse(alloc, client)?, stamp))
}

/// The error of a call that was refused each time.
pub(crate) fn too_often() -> anyhow::Error {
    anyhow!("a call was refused too often")
}

// Nothing where memory was refused, so that the call may be made again.
fn again(fault: HubFault) -> Result<()> {
    match fault {
        HubFault::Memory | HubFault::Keeper(SavedFault::Memory) => Ok(()),
        fault => Err(anyhow!("{fault}")),
    }
}

/// Opens the session. None where the hub is down.
pub(crate) fn join<L: Ledger, K: Keeper + Drop>(
    core: &mut Core<L, K, NoBell>,
    session: &SessionId,
) -> Result<Option<Place<L>>> {
    for _ in 0..TRIES {
        match core.join(session, now()) {
            Ok((seat, outbox)) => return Ok(Some(Place { seat, outbox })),
            Err(HubFault::Down) => return Ok(None),
            Err(fault) => again(fault)?,
        }
    }
    Err(too_often())
}

/// Says the message: whether it was taken, or else the hub is down.
pub(crate) fn say<L: Ledger, K: Keeper + Drop>(
    alloc: Global,
    core: &mut Core<L, K, NoBell>,
    seat: &mut Seat<L>,
    text: &str,
) -> Result<bool> {
    for _ in 0..TRIES {
        match core.say(seat, Up::decode(alloc, text)?, now()) {
            Ok(_) => return Ok(true),
            Err(HubFault::Down) => return Ok(false),
            Err(fault) => again(fault)?,
        }
    }
    Err(too_often())
}

/// A tick of the hub: whether it was carried out, or else the hub is down.
pub(crate) fn tick<L: Ledger, K: Keeper + Drop>(core: &mut Core<L, K, NoBell>) -> Result<bool> {
    for _ in 0..TRIES {
        match core.tick(now()) {
            Ok(_) => return Ok(true),
            Err(HubFault::Down) => return Ok(false),
            Err(fault) => again(fault)?,
        }
    }
    Err(too_often())
}

/// Gives the seat back, whose connection was lost: whether the hub isn't down. Where memory is refused a
/// tick ends the session.
pub(crate) fn leave<L: Ledger, K: Keeper + Drop>(
    core: &mut Core<L, K, NoBell>,
    place: Place<L>,
) -> bool {
    let Place { seat, outbox } = place;
    drop(outbox);
    let parting = core.leave(seat, Why::Lost, now());
    let is_up = !matches!(parting.fault(), Some(HubFault::Down));
    drop(parting);
    is_up
}

/// How many messages are taken, at most this many.
pub(crate) fn take(outbox: &mut Outbox, most: u64) -> u64 {
    let mut count: u64 = 0;
    for _ in 0..most {
        let Some(message) = outbox.take() else {
            break;
        };
        drop(message);
        count = count.saturating_add(1);
    }
    count
}

/// The entries of the batches, each batch's on a line of its own.
pub(crate) fn log_text(alloc: Global, batches: &[Batch]) -> Result<String> {
    let mut text = String::new(alloc);
    for batch in batches {
        let entries = print_entries(alloc, batch.entries())?;
        text.push_str(entries.as_str())?;
        text.push('\n')?;
    }
    Ok(text)
}
