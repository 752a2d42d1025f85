//! Scenarios of hubs over one keeper in memory, one after the other.

use crate::callers::log_text;
use crate::hub::{Guest, visited};
use anyhow::{Result, anyhow};
use pres_hub::{Keeper, MemKeeper};
use std::alloc::Global;

// The lines of what the keeper holds.
fn kept(alloc: Global, mut keeper: MemKeeper) -> Result<String> {
    let batches = keeper.batches().map_err(|fault| anyhow!("{fault}"))?;
    drop(keeper);
    let text = log_text(alloc, &batches);
    drop(batches);
    text
}

/// Alice says messages to a hub until one is answered that it is down, and her run is ended. Then Bob says
/// his to a hub that is started again. How many of each were answered, and whether the hub went down; and
/// the log.
pub(crate) fn down(alloc: Global) -> Result<String> {
    let (alice, keeper) = visited(alloc, MemKeeper::new(alloc), Guest::Writer("alice"))?;
    let (bob, keeper) = visited(alloc, keeper, Guest::Writer("bob"))?;
    let log = kept(alloc, keeper)?;
    let text = format!(in alloc;
        "alice {} {}\nbob {} {}\n{log}",
        alice.count, alice.down, bob.count, bob.down
    )?;
    Ok(text)
}

/// Bob reads late. A hub that went down is started again. How many messages he took at last, whether the hub
/// went down, and the log.
pub(crate) fn slow_reader(alloc: Global) -> Result<String> {
    let (bob, keeper) = visited(alloc, MemKeeper::new(alloc), Guest::SlowReader)?;
    let keeper = if bob.down {
        let (_, keeper) = visited(alloc, keeper, Guest::Nobody)?;
        keeper
    } else {
        keeper
    };
    let log = kept(alloc, keeper)?;
    let text = format!(in alloc; "bob {} {}\n{log}", bob.count, bob.down)?;
    Ok(text)
}
