//! Where each client stands.

ghost use Rattle.std.specs.Prelude.{◌≡◌, ◌+◌, nat_lt, [], map, IfSome, OnOk, OnErr, IfOk, IsSome, false, Some, None, option_map, option_copied};
ghost use Rattle.std.specs.BTreeMap.{get, Updates, IsOrdered, IsUnchanged};
ghost use Rattle.pres_ids.specs.Ids.{ClientId, client_cmp, same_client, stamp_of};
ghost use Rattle.pres_server.specs.InternalSessions.{began, next_number, last_stamp, open_count, MayOpen, MayLeave, MayLeaveAt, AreDueAt, HasRoom, MaySend, sent_one, answered, answered_at, live_after, heard_at, heard_only, heard_of_all};
ghost use Rattle.pres_server.specs.ServerStates.{lease, first_client, late_client};
ghost use Rattle.pres_log.specs.declared.entry.Entry.TheVariants as entry;

use crate::reopen::Reopen;
use pres_plan::{Plan, PlanFault};
use pres_session::{Gone, Live, first};
use pres_tree::Path;
use pres_wire::{ClientId, Number, SessionId, Stamp, Why};
use pres_write::{Basic, Moment, Puts};
use std::alloc::{AllocError, Global};
use std::collections::BTreeMap;
use std::mem::replace;

// How long a client may be silent, in milliseconds.
const LEASE: u64 = 60_000;

/// Where each client stands that had a session. The open sessions stand apart from those that are
/// gone, so that who looks at each open session sees no other client.
#[derive(Drop)]
pub(crate) struct ClientSessions {
    /// The open session of each client that has one.
    pub(crate) live: BTreeMap<ClientId, Live<Plan>>,
    /// The last session of each other client.
    pub(crate) gone: BTreeMap<ClientId, Gone>,
}

// Takes the client's entry out of the map.
fn take<V>(map: &mut BTreeMap<ClientId, V>, client: &ClientId) -> Option<(ClientId, V)>
    ensures client { IfSome result (λ e. e.0 ≡ client.now) }
    ensures value { option_map (λ e. e.1) result ≡ get client_cmp map.old client.now }
    ensures taken { Updates client_cmp map.old map.new client.now None }
{
    map.remove_entry(client)
}

// Counts a message of the session, which was accepted at the moment, and its answer: the answer's
// number.
fn answer_in(live: &mut Live<Plan>, moment: Moment) -> Number
    requires { HasRoom (Some live.old) }
    ensures number { Some result ≡ next_number (Some live.old) }
    ensures session { live.new ≡ answered moment live.old.plan live.old }
{
    live.hear(moment);
    let Ok(_) = live.accept() else { unreachable!() };
    let Ok(number) = live.emit() else {
        unreachable!()
    };
    number
}

// The session leaves what its message `q` puts: the number of its answer.
fn leave_in(
    live: &mut Live<Plan>,
    alloc: Global,
    session: &SessionId,
    q: Number,
    puts: Puts,
    moment: Moment,
) -> Result<Number, Reopen>
    requires room { HasRoom (Some live.old) }
    requires may { MayLeave live.old q (entry.Left session.now q puts) }
    ensures number { IfOk result (λ r. Some r ≡ next_number (Some live.old)) }
    ensures session { OnOk result
        (Some live.new ≡ live_after moment (entry.Left session.now q puts) (Some live.old)) }
    ensures unchanged { OnErr result (live.new ≡ live.old) }
{
    match live.plan_mut().update(alloc, q, puts) {
        Ok(()) => Ok(answer_in(live, moment)),
        Err(PlanFault::Memory) => Err(Reopen),
        Err(PlanFault::Full) => unreachable!(),
    }
}

// The session takes back what it left at the path, by its message `q`: the number of its answer.
fn cancel_in(
    live: &mut Live<Plan>,
    alloc: Global,
    session: &SessionId,
    q: Number,
    path: &Path,
    moment: Moment,
) -> Result<Number, Reopen>
    requires room { HasRoom (Some live.old) }
    requires may { MayLeave live.old q (entry.Cancelled session.now q path.now) }
    ensures number { IfOk result (λ r. Some r ≡ next_number (Some live.old)) }
    ensures session { OnOk result
        (Some live.new ≡ live_after moment (entry.Cancelled session.now q path.now)
        (Some live.old)) }
    ensures unchanged { OnErr result (live.new ≡ live.old) }
{
    match live.plan_mut().cancel(alloc, q, path) {
        Ok(()) => Ok(answer_in(live, moment)),
        Err(PlanFault::Memory) => Err(Reopen),
        Err(PlanFault::Full) => unreachable!(),
    }
}

// Whether a client that was heard of last then is silent for longer than its lease.
fn is_late(heard: Moment, moment: Moment) -> bool
    ensures { result ≡ nat_lt (heard + lease) moment }
{
    heard.millis() + LEASE < moment.millis()
}

impl ClientSessions {
    /// No client stands anywhere.
    pub(crate) fn new(alloc: Global) -> ClientSessions
        ensures live { result.live.entries ≡ [] }
        ensures gone { result.gone.entries ≡ [] }
        ensures ordered { IsOrdered client_cmp result.live }
    {
        ClientSessions {
            live: BTreeMap::new(alloc),
            gone: BTreeMap::new(alloc),
        }
    }

    /// How many sessions are open.
    pub(crate) fn open_count(&self) -> u64
        ensures count { result ≡ open_count self.now }
        ensures ordered { IsOrdered client_cmp self.now.live }
        ensures gone { IsOrdered client_cmp self.now.gone }
    {
        // it ensures that those that are gone are in order
        let _ = self.gone.len();
        self.live.len() as u64
    }

    // Keeps the client's session, which begins.
    fn begin(&mut self, client: ClientId, live: Live<Plan>) -> Result<(), AllocError>
        ensures live { OnOk result
            (Updates client_cmp self.old.live self.new.live client (Some live)) }
        ensures gone { self.new.gone ≡ self.old.gone }
        ensures unchanged { OnErr result (IsUnchanged self.old.live self.new.live) }
    {
        drop(self.live.insert(client, live)?);
        Ok(())
    }

    /// Opens a session of a client that has none open. Where memory is refused nothing is changed.
    pub(crate) fn open(
        &mut self,
        alloc: Global,
        session: &SessionId,
        moment: Moment,
    ) -> Result<(), AllocError>
        requires { MayOpen self.old session.now }
        ensures live { OnOk result (Updates client_cmp self.old.live self.new.live
            session.now.client (Some (began (stamp_of session.now) moment))) }
        ensures gone { OnOk result (Updates client_cmp self.old.gone self.new.gone
            session.now.client None) }
        ensures unchanged { OnErr result (IsUnchanged self.old.live self.new.live
            × (self.new.gone ≡ self.old.gone)) }
    {
        let client = session.client.copy(alloc)?;
        self.begin(client, first(session.stamp(), moment, Plan::new(alloc)))?;
        drop(take(&mut self.gone, &session.client));
        Ok(())
    }

    /// A newer session of the client takes the place of its open one. It takes no memory.
    pub(crate) fn supersede(&mut self, alloc: Global, session: &SessionId, moment: Moment)
        requires { IsSome (get client_cmp self.old.live session.now.client) }
        ensures live { Updates client_cmp self.old.live self.new.live session.now.client
            (Some (began (stamp_of session.now) moment)) }
        ensures gone { self.new.gone ≡ self.old.gone }
    {
        let Some(live) = self.live.get_mut(&session.client) else {
            unreachable!()
        };
        drop(replace(live, first(session.stamp(), moment, Plan::new(alloc))));
    }

    /// Makes room for the last stamp of a client that has a session open, so that its end takes no
    /// memory.
    pub(crate) fn make_room(&mut self, alloc: Global, client: &ClientId) -> Result<(), AllocError>
        requires { IsSome (get client_cmp self.old.live client.now) }
        ensures live { self.new.live ≡ self.old.live }
        ensures room { OnOk result (IsSome (get client_cmp self.new.gone client.now)) }
        ensures others { (other : ClientId) → same_client client.now other ≡ false
            → get client_cmp self.new.gone other ≡ get client_cmp self.old.gone other }
    {
        let Some(live) = self.live.get(client) else {
            unreachable!()
        };
        // a session with the stamp that leaves nothing, so that nothing is due
        let blank = first(live.stamp(), live.heard(), Plan::new(alloc));
        let gone = blank.end(Why::Superseded).spend(&[]);
        drop(self.gone.insert(client.copy(alloc)?, gone)?);
        Ok(())
    }

    /// Counts a message of the client's open session, which was accepted at the moment, and its
    /// answer: the answer's number.
    pub(crate) fn answer(&mut self, client: &ClientId, moment: Moment) -> Number
        requires { HasRoom (get client_cmp self.old.live client.now) }
        ensures number { Some result ≡ next_number (get client_cmp self.old.live client.now) }
        ensures live { Updates client_cmp self.old.live self.new.live client.now
            (answered_at moment (get client_cmp self.old.live client.now)) }
        ensures gone { self.new.gone ≡ self.old.gone }
    {
        let Some(live) = self.live.get_mut(client) else {
            unreachable!()
        };
        answer_in(live, moment)
    }

    /// Counts a message to the client's open session: its number.
    pub(crate) fn emit(&mut self, client: &ClientId) -> Number
        requires { MaySend (get client_cmp self.old.live client.now) }
        ensures number { Some result ≡ next_number (get client_cmp self.old.live client.now) }
        ensures live { Updates client_cmp self.old.live self.new.live client.now
            (sent_one (get client_cmp self.old.live client.now)) }
        ensures gone { self.new.gone ≡ self.old.gone }
    {
        let Some(live) = self.live.get_mut(client) else {
            unreachable!()
        };
        let Ok(number) = live.emit() else {
            unreachable!()
        };
        number
    }

    /// The open session leaves what its message `q` puts, which was accepted at the moment: the
    /// number of its answer.
    pub(crate) fn leave(
        &mut self,
        alloc: Global,
        session: &SessionId,
        q: Number,
        puts: Puts,
        moment: Moment,
    ) -> Result<Number, Reopen>
        requires room { HasRoom (get client_cmp self.old.live session.now.client) }
        requires may { MayLeaveAt (get client_cmp self.old.live session.now.client) q
            (entry.Left session.now q puts) }
        ensures number { IfOk result
            (λ r. Some r ≡ next_number (get client_cmp self.old.live session.now.client)) }
        ensures live { OnOk result (Updates client_cmp self.old.live self.new.live
            session.now.client (live_after moment (entry.Left session.now q puts)
            (get client_cmp self.old.live session.now.client))) }
        ensures gone { self.new.gone ≡ self.old.gone }
        ensures unchanged { OnErr result (Updates client_cmp self.old.live self.new.live
            session.now.client (get client_cmp self.old.live session.now.client)) }
    {
        let Some(live) = self.live.get_mut(&session.client) else {
            unreachable!()
        };
        leave_in(live, alloc, session, q, puts, moment)
    }

    /// The open session takes back what it left at the path, by its message `q`, which was accepted
    /// at the moment: the number of its answer.
    pub(crate) fn cancel(
        &mut self,
        alloc: Global,
        session: &SessionId,
        q: Number,
        path: &Path,
        moment: Moment,
    ) -> Result<Number, Reopen>
        requires room { HasRoom (get client_cmp self.old.live session.now.client) }
        requires may { MayLeaveAt (get client_cmp self.old.live session.now.client) q
            (entry.Cancelled session.now q path.now) }
        ensures number { IfOk result
            (λ r. Some r ≡ next_number (get client_cmp self.old.live session.now.client)) }
        ensures live { OnOk result (Updates client_cmp self.old.live self.new.live
            session.now.client (live_after moment (entry.Cancelled session.now q path.now)
            (get client_cmp self.old.live session.now.client))) }
        ensures gone { self.new.gone ≡ self.old.gone }
        ensures unchanged { OnErr result (Updates client_cmp self.old.live self.new.live
            session.now.client (get client_cmp self.old.live session.now.client)) }
    {
        let Some(live) = self.live.get_mut(&session.client) else {
            unreachable!()
        };
        cancel_in(live, alloc, session, q, path, moment)
    }

    /// Ends the client's open session, whose due writes these are: the number of its last message.
    /// Memory is refused only where there is no room for the client's last stamp.
    pub(crate) fn end(
        &mut self,
        client: &ClientId,
        why: Why,
        rows: &[Basic],
    ) -> Result<Number, AllocError>
        requires room { HasRoom (get client_cmp self.old.live client.now) }
        requires due { AreDueAt (get client_cmp self.old.live client.now) rows.now }
        ensures number { IfOk result
            (λ r. Some r ≡ next_number (get client_cmp self.old.live client.now)) }
        ensures live { OnOk result (Updates client_cmp self.old.live self.new.live client.now None) }
        ensures gone { OnOk result (Updates client_cmp self.old.gone self.new.gone client.now
            (last_stamp (get client_cmp self.old.live client.now)
            (get client_cmp self.old.gone client.now))) }
        ensures refused { OnErr result (get client_cmp self.old.gone client.now ≡ None) }
    {
        let Some((client, mut live)) = take(&mut self.live, client) else {
            unreachable!()
        };
        let Ok(number) = live.emit() else {
            unreachable!()
        };
        let gone = live.end(why).spend(rows);
        drop(self.gone.insert(client, gone)?);
        Ok(number)
    }

    /// The client was heard of at the moment, where a session of it is open.
    pub(crate) fn hear(&mut self, client: &ClientId, moment: Moment)
        ensures known { IsSome (get client_cmp self.old.live client.now)
            → Updates client_cmp self.old.live self.new.live client.now
            (heard_at moment (get client_cmp self.old.live client.now)) }
        ensures stranger { get client_cmp self.old.live client.now ≡ None
            → self.new.live.entries ≡ self.old.live.entries }
        ensures gone { self.new.gone ≡ self.old.gone }
        ensures ordered { IsOrdered client_cmp self.new.live }
    {
        if let Some(live) = self.live.get_mut(client) {
            live.hear(moment);
        }
    }

    /// The client of each open session counts as heard of at the moment. It takes no memory.
    pub(crate) fn hear_anew(&mut self, moment: Moment)
        ensures live { self.new.live.entries
            ≡ map (λ e. (e.0, heard_only moment e.1)) self.old.live.entries }
        ensures gone { self.new.gone ≡ self.old.gone }
        ensures ordered { IsOrdered client_cmp self.new.live }
    {
        self.live.retain(|_client, live| {
            live.set_heard(moment);
            true
        });
    }

    /// The first client, in byte order, that is silent for longer than its lease.
    pub(crate) fn late(&self, moment: Moment) -> Option<&ClientId>
        ensures { option_copied result ≡ late_client moment (heard_of_all self.now) }
    {
        for (client, live) in self.live.iter() {
            if is_late(live.heard(), moment) {
                return Some(client);
            }
        }
        None
    }

    /// The first client, in byte order, that has a session open.
    pub(crate) fn first(&self) -> Option<&ClientId>
        ensures { option_copied result ≡ first_client (heard_of_all self.now) }
    {
        let (client, _) = self.live.iter().next()?;
        Some(client)
    }

    /// The client's open session.
    pub(crate) fn session(&self, client: &ClientId) -> Option<&Live<Plan>>
        ensures { option_copied result ≡ get client_cmp self.now.live client.now }
    {
        self.live.get(client)
    }

    /// The stamp of the client's last session.
    pub(crate) fn last(&self, client: &ClientId) -> Option<Stamp>
        ensures { result ≡ last_stamp (get client_cmp self.now.live client.now)
            (get client_cmp self.now.gone client.now) }
    {
        if let Some(live) = self.live.get(client) {
            return Some(live.stamp());
        }
        Some(self.gone.get(client)?.last())
    }
}
