//! Servers that begin from a base.

ghost use Rattle.std.specs.Prelude.{◌≡◌, ◌++◌, ℕ, [], All, map, IfOk, OnOk};
ghost use Rattle.std.specs.BTreeMap.{get, IsOrdered};
ghost use Rattle.std.specs.FinMap.Entries.{find};
ghost use Rattle.std.specs.List.Sorted.{IsStrictlySortedBy};
ghost use Rattle.pres_ids.specs.Ids.{ClientId, client_cmp};
ghost use Rattle.pres_retry.specs.Tables.{rows_of};
ghost use Rattle.pres_fan.specs.Listeners.{IsListeners, listener_of};
ghost use Rattle.pres_base.specs.Bases.{IsOpenPart, IsBase};
ghost use Rattle.pres_base.specs.AnswersApart.{answers_for};
ghost use Rattle.pres_server.specs.BaseSums.{listeners_for, sum_for};
ghost use Rattle.pres_server.specs.InternalBases.{lasts_in, live_in, with_answers};
ghost use Rattle.pres_server.specs.InternalSums.{Agrees};

use crate::client_sessions::ClientSessions;
use crate::index::Index;
use pres_base::{BaseParts, ClientPart, SessionPart, plan_of_rows};
use pres_fan::{FanFault, Listeners};
use pres_plan::Plan;
use pres_retry::{Answers, RetryTable};
use pres_session::{Gone, Live};
use pres_tree::Path;
use pres_wire::{ClientId, SessionId};
use pres_write::{Items, Moment};
use std::alloc::{AllocError, Global};
use std::collections::BTreeMap;

// Keeps the answers to the writes of a client that has none so far.
fn keep_all(
    retry: &mut RetryTable,
    alloc: Global,
    client: &ClientId,
    answers: Answers,
) -> Result<(), AllocError>
    requires { rows_of client.now retry.old ≡ [] }
    ensures { OnOk result (retry.new ≡ with_answers client.now answers retry.old) }
{
    if answers.count().get() == 0 {
        return Ok(());
    }
    let client = client.copy(alloc)?;
    match retry.insert(client, answers) {
        Ok(()) => Ok(()),
        Err(_) => Err(AllocError),
    }
}

// The last sessions of the clients, and the answers to their writes.
fn known(
    alloc: Global,
    clients: Items<ClientPart>,
) -> Result<(BTreeMap<ClientId, Gone>, RetryTable), AllocError>
    requires { IsStrictlySortedBy client_cmp (map (λ c. c.id) clients) }
    ensures gone { IfOk result (λ made. (c : ClientId) → get client_cmp made.0 c
        ≡ find client_cmp c (lasts_in clients)) }
    ensures ordered { IfOk result (λ made. IsOrdered client_cmp made.0) }
    ensures rows { IfOk result (λ made. made.1 ≡ answers_for clients) }
{
    let mut gone = BTreeMap::new(alloc);
    let mut retry = RetryTable::new(alloc);
    for client in clients.into_vec() {
        let ClientPart { id, last, rows } = client;
        keep_all(&mut retry, alloc, &id, rows)?;
        drop(gone.insert(id, Gone::known(last))?);
    }
    Ok((gone, retry))
}

// The session listens to the places too.
fn listen_all(
    listeners: &mut Listeners,
    alloc: Global,
    session: &SessionId,
    places: Items<Path>,
) -> Result<(), AllocError>
    requires { IsListeners (listeners.old ++ map (listener_of session.now) places) }
    ensures { OnOk result
        (listeners.new ≡ listeners.old ++ map (listener_of session.now) places) }
{
    for path in places.into_vec() {
        match listeners.on(alloc, session, path) {
            Ok(()) => {}
            Err(FanFault::Memory) => return Err(AllocError),
            Err(FanFault::Full) => unreachable!(),
        }
    }
    Ok(())
}

// The open sessions, whose clients count as heard of at the moment, and who listens to what.
fn reopened(
    alloc: Global,
    moment: Moment,
    sessions: Items<SessionPart>,
) -> Result<(BTreeMap<ClientId, Live<Plan>>, Listeners), AllocError>
    requires each { (n : ℕ) × All (IsOpenPart n) sessions }
    requires in_order { IsStrictlySortedBy client_cmp (map (λ s. s.session.client) sessions) }
    ensures live { IfOk result (λ made. (c : ClientId) → get client_cmp made.0 c
        ≡ find client_cmp c (live_in moment sessions)) }
    ensures ordered { IfOk result (λ made. IsOrdered client_cmp made.0) }
    ensures listeners { IfOk result (λ made. made.1 ≡ listeners_for sessions) }
{
    let mut live = BTreeMap::new(alloc);
    let mut listeners = Listeners::new(alloc);
    for part in sessions.into_vec() {
        let SessionPart {
            session,
            q,
            r,
            listens,
            plan,
        } = part;
        let plan = plan_of_rows(alloc, plan.as_slice())?;
        listen_all(&mut listeners, alloc, &session, listens)?;
        let reopened = Live::resumed(session.stamp(), moment, q, r, plan);
        drop(live.insert(session.client, reopened)?);
    }
    Ok((live, listeners))
}

impl Index {
    /// The index of a base. The client of each open session counts as heard of at the base's moment.
    pub(crate) fn of_base(alloc: Global, parts: BaseParts) -> Result<Index, AllocError>
        requires { IsBase parts }
        ensures agrees { IfOk result (λ index. Agrees index (sum_for parts)) }
        ensures live { IfOk result (λ index. IsOrdered client_cmp index.places.live) }
        ensures gone { IfOk result (λ index. IsOrdered client_cmp index.places.gone) }
    {
        let BaseParts {
            batches: _,
            moment,
            number: _,
            tree,
            clients,
            sessions,
        } = parts;
        let (gone, retry) = known(alloc, clients)?;
        let (live, listeners) = reopened(alloc, moment, sessions)?;
        Ok(Index {
            places: ClientSessions { live, gone },
            retry,
            listeners,
            tree,
        })
    }
}
