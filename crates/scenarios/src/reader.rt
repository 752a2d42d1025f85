//! A reader who takes nothing while another client writes.

use crate::callers::{Place, join, leave, say, session, take, tick};
use anyhow::Result;
use pres_hub::{Core, MemKeeper, NoBell};
use std::alloc::Global;
use std::sync::ledger::Ledger;

const LEAVES: &str =
    r#"{"m":"left","op":{"op":"set","path":"/b","value":true},"q":1,"s":["bob",1,1]}"#;

const LISTENS: &str = r#"{"m":"on","path":"/a","q":2,"s":["bob",1,1]}"#;

// This many writes are one more than the reader's ring has room for.
const WRITES: u64 = 257;

// The write number n of Alice, which sets `/a` to n.
fn write_text(alloc: Global, n: u64) -> Result<String> {
    let text = format!(in alloc;
        r#"{{"m":"op","n":{n},"op":{{"op":"set","path":"/a","value":{n}}},"q":{n},"s":["alice",1,1]}}"#
    )?;
    Ok(text)
}

// Alice's writes, with her messages taken after each, and a tick: whether the hub stays up.
fn write<L: Ledger>(
    alloc: Global,
    core: &mut Core<L, MemKeeper, NoBell>,
    place: &mut Place<L>,
) -> Result<bool> {
    for n in 1..=WRITES {
        let text = write_text(alloc, n)?;
        if !say(alloc, core, &mut place.seat, text.as_str())? {
            return Ok(false);
        }
        let _ = take(&mut place.outbox, 9);
    }
    tick(core)
}

// Alice joins, writes and is lost: whether the hub stays up.
fn visit<L: Ledger>(alloc: Global, core: &mut Core<L, MemKeeper, NoBell>) -> Result<bool> {
    let session = session(alloc, "alice")?;
    let Some(mut place) = join(core, &session)? else {
        return Ok(false);
    };
    let written = write(alloc, core, &mut place);
    let is_up = leave(core, place);
    Ok(written? && is_up)
}

// Bob makes a write, listens and takes three messages, and nothing more until Alice is gone:
// whether the hub stays up.
fn listen<L: Ledger>(
    alloc: Global,
    core: &mut Core<L, MemKeeper, NoBell>,
    place: &mut Place<L>,
) -> Result<bool> {
    for text in [LEAVES, LISTENS] {
        if !say(alloc, core, &mut place.seat, text)? {
            return Ok(false);
        }
    }
    let _ = take(&mut place.outbox, 3);
    visit(alloc, core)
}

/// Bob reads late, and is lost. How many messages he takes then, and whether the hub stays up.
pub(crate) fn read_late<L: Ledger>(
    alloc: Global,
    core: &mut Core<L, MemKeeper, NoBell>,
) -> Result<(u64, bool)> {
    let session = session(alloc, "bob")?;
    let Some(mut place) = join(core, &session)? else {
        return Ok((0, false));
    };
    let listened = listen(alloc, core, &mut place);
    let count = take(&mut place.outbox, 300);
    let is_up = leave(core, place);
    let is_up = listened? && is_up && tick(core)?;
    Ok((count, is_up))
}
