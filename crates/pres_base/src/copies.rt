//! Copies of parts.

ghost use Rattle.std.specs.Prelude.{◌≡◌, IfOk};

use crate::parts::{BaseParts, ClientPart, SessionPart};
use pres_plan::PlanRow;
use pres_tree::Path;
use pres_write::Items;
use std::alloc::{AllocError, Global};

// An equal client.
fn copy_client(alloc: Global, client: &ClientPart) -> Result<ClientPart, AllocError>
    ensures { IfOk result (λ made. made ≡ client.now) }
{
    Ok(ClientPart {
        id: client.id.copy(alloc)?,
        last: client.last,
        rows: client.rows.copy(alloc)?,
    })
}

fn copy_clients(alloc: Global, clients: &[ClientPart]) -> Result<Items<ClientPart>, AllocError>
    ensures { IfOk result (λ made. made ≡ clients.now) }
{
    let mut made = Vec::with_capacity(alloc, clients.len())?;
    for client in clients {
        made.push(copy_client(alloc, client)?)?;
    }
    Ok(Items::of(made))
}

fn copy_rows(alloc: Global, rows: &[PlanRow]) -> Result<Items<PlanRow>, AllocError>
    ensures { IfOk result (λ made. made ≡ rows.now) }
{
    let mut made = Vec::with_capacity(alloc, rows.len())?;
    for row in rows {
        made.push(row.copy(alloc)?)?;
    }
    Ok(Items::of(made))
}

fn copy_paths(alloc: Global, paths: &[Path]) -> Result<Items<Path>, AllocError>
    ensures { IfOk result (λ made. made ≡ paths.now) }
{
    let mut made = Vec::with_capacity(alloc, paths.len())?;
    for path in paths {
        made.push(path.copy(alloc)?)?;
    }
    Ok(Items::of(made))
}

// An equal session.
fn copy_session(alloc: Global, session: &SessionPart) -> Result<SessionPart, AllocError>
    ensures { IfOk result (λ made. made ≡ session.now) }
{
    Ok(SessionPart {
        session: session.session.copy(alloc)?,
        q: session.q,
        r: session.r,
        listens: copy_paths(alloc, session.listens.as_slice())?,
        plan: copy_rows(alloc, session.plan.as_slice())?,
    })
}

fn copy_sessions(alloc: Global, sessions: &[SessionPart]) -> Result<Items<SessionPart>, AllocError>
    ensures { IfOk result (λ made. made ≡ sessions.now) }
{
    let mut made = Vec::with_capacity(alloc, sessions.len())?;
    for session in sessions {
        made.push(copy_session(alloc, session)?)?;
    }
    Ok(Items::of(made))
}

/// Equal parts.
pub(crate) fn copy_parts(alloc: Global, parts: &BaseParts) -> Result<BaseParts, AllocError>
    ensures { IfOk result (λ made. made ≡ parts.now) }
{
    Ok(BaseParts {
        batches: parts.batches,
        moment: parts.moment,
        number: parts.number,
        tree: parts.tree.copy(alloc)?,
        clients: copy_clients(alloc, parts.clients.as_slice())?,
        sessions: copy_sessions(alloc, parts.sessions.as_slice())?,
    })
}
