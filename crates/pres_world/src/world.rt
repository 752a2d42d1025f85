//! A world.

ghost use Rattle.std.specs.Prelude.{◌≡◌, List, [], None, IfOk, IfErr, OnOk, OnErr, option_copied, option_map};
ghost use Rattle.std.specs.FinMap.Entries.{find, put};
ghost use Rattle.pres_ids.specs.Ids.{ClientId, client_cmp};
ghost use Rattle.pres_client.specs.Clients.{ClientState};
ghost use Rattle.pres_log.specs.Logs.{item_at};
ghost use Rattle.pres_history.specs.LegalLog.{IsLegal};
ghost use Rattle.pres_world.specs.Distinct.{AreDistinct};
ghost use Rattle.pres_world.specs.Orderly.{CancelsStand, EndsStand, SessionsStand, WritesStand};
ghost use Rattle.pres_world.specs.Safe.{IsSafe, Occurrence, Reaches};
ghost use Rattle.pres_world.specs.ServerSides.{ServerSideInvariant, by_sum};
ghost use Rattle.pres_world.specs.Worlds.{IsCall, IsClient, IsArrival, IsDelivery, IsLoss, IsStart, IsRestart, IsStep, IsStop, IsRefused, IsCutShort, Lacks, RunsTo, new_world};
ghost use Rattle.pres_world.specs.declared.event.Ending.TheVariants as ending;
ghost use Rattle.pres_world.specs.declared.event.Event.TheVariants as event;
ghost use Rattle.pres_world.specs.declared.fault.WorldFault.TheVariants.{Memory};

use crate::event::{Ending, Event};
use crate::fault::WorldFault;
use crate::laws::legal_logs_are_orderly;
use crate::members::Members;
use crate::server_side::ServerSide;
use pres_client::{Client, Notice};
use pres_server::{Batch, ClientId, Down, Input, Moment, Server, Up};
use std::alloc::{AllocError, Global};
use std::marker::Model;

/// A server, its clients and the packets between them. Contracts see it as plain data.
pub struct World {
    alloc: Global,
    serving: ServerSide,
    members: Members,
    ups: Vec<Up>,
    acks: Vec<Down>,
}

// Written out so that dropping a world is one step of a proof, in the crates above too.
impl Drop for World {
    fn drop(self) {
        let World {
            alloc: _,
            serving: _,
            members: _,
            ups: _,
            acks: _,
        } = self;
    }
}

impl Model for World {
    ghost use Rattle.pres_world.specs.Worlds.{World as Plain};

    ghost Value = { Plain };

    ghost view = { λ w. record { serving = w.serving; clients = w.members; ups = w.ups.items; acks = w.acks.items } };
}

// The item with the number, where they are numbered from 1 on.
fn item_at<T>(items: &[T], number: usize) -> Option<&T>
    ensures { option_copied result ≡ item_at items.now number }
{
    items.get(number.checked_sub(1)?)
}

impl World {
    /// A world of these clients, of which none has started before.
    pub fn new(alloc: Global, ids: &[ClientId]) -> Result<World, AllocError>
        requires { AreDistinct ids.now }
        ensures { IfOk result (λ w. w ≡ new_world ids.now) }
    {
        let mut members = Members::new(alloc);
        for id in ids {
            members.join(id.copy(alloc)?)?;
        }
        Ok(World {
            alloc,
            serving: ServerSide::new(alloc),
            members,
            ups: Vec::new(alloc),
            acks: Vec::new(alloc),
        })
    }

    /// The server, while it runs.
    pub fn server(&self) -> Option<&Server>
        ensures server { option_copied result ≡ option_map by_sum self.now.serving.server }
        ensures serves { ServerSideInvariant self.now.serving }
    {
        self.serving.server()
    }

    /// The batches that were committed: a legal log, in which each write of a client stands once, in
    /// the order of the writes' numbers, the entries of a client stand in the order of its sessions,
    /// and each session ends once, with all that is due and nothing that was cancelled, before any
    /// entry of a later session of its client.
    pub fn history(&self) -> &[Batch]
        ensures history { result.now ≡ self.now.serving.history }
        ensures legal { IsLegal result.now }
        ensures writes { WritesStand result.now }
        ensures sessions { SessionsStand result.now }
        ensures ends { EndsStand result.now }
        ensures cancels { CancelsStand result.now }
    {
        legal_logs_are_orderly();
        self.serving.history()
    }

    /// The client with the id.
    pub fn client(&self, id: &ClientId) -> Option<&Client>
        ensures { option_copied result ≡ find client_cmp id.now self.now.clients }
    {
        self.members.get(id)
    }

    /// What clients sent, in that order.
    pub fn packets_up(&self) -> &[Up]
        ensures { result.now ≡ self.now.ups }
    {
        self.ups.as_slice()
    }

    /// What the server sent, in that order.
    pub fn packets_down(&self) -> &[Down]
        ensures { result.now ≡ self.now.serving.downs }
    {
        self.serving.downs()
    }

    /// What clients took, in that order: Welcomes, and messages of their streams.
    pub fn acks(&self) -> &[Down]
        ensures { result.now ≡ self.now.acks }
    {
        self.acks.as_slice()
    }

    /// What the client noted since the last time: nothing where there is no such client.
    pub fn take_notices(&mut self, id: &ClientId) -> Vec<Notice>
        ensures given { (c : ClientState) → IsClient self.old id.now c → result.items ≡ c.notices }
        ensures left { (c : ClientState) → IsClient self.old id.now c → self.new ≡ record self.old {
          clients = put client_cmp id.now (record c { notices = [] }) self.old.clients;
        } }
        ensures stranger { find client_cmp id.now self.old.clients ≡ None
            → (result.items ≡ []) × (self.new ≡ self.old) }
    {
        self.members.take_notices(id)
    }

    // The packet arrives at the server.
    fn arrive(&mut self, packet: usize, now: Moment, ending: Ending) -> Result<(), WorldFault>
        ensures ok { OnOk result (IsArrival self.old packet now ending self.new) }
        ensures err { IfErr result (IsRefused self.old (event.Up packet now ending) self.new) }
    {
        let Some(message) = item_at(self.ups.as_slice(), packet) else {
            return Err(WorldFault::NoSuch);
        };
        let message = message.copy(self.alloc)?;
        self.serving.turn(Input::Up(message), now, ending)
    }

    // The packet arrives at the client that it is for.
    fn deliver(&mut self, packet: usize) -> Result<(), WorldFault>
        ensures ok { OnOk result (IsDelivery self.old packet self.new) }
        ensures err { IfErr result (IsRefused self.old (event.Down packet) self.new) }
    {
        let Some(message) = item_at(self.serving.downs(), packet) else {
            return Err(WorldFault::NoSuch);
        };
        let Some(session) = message.session() else {
            return Err(WorldFault::NoSuch);
        };
        self.members
            .receive(&session.client, message, &mut self.ups, &mut self.acks)
    }

    // The server hears that the connection of the client's open session is lost.
    fn lose(&mut self, client: &ClientId, now: Moment) -> Result<(), WorldFault>
        ensures ok { OnOk result (IsLoss self.old client.now now Ending.Answered self.new) }
        ensures err { IfErr result (IsRefused self.old (event.Loss client.now now) self.new) }
    {
        if self.members.get(client).is_none() {
            return Err(WorldFault::NoSuch);
        }
        self.serving.lose(client, now)
    }

    /// One event. Refused as NoSuch where there is no such packet or client, also while the server
    /// is stopped; as Client where the client refuses the call; or as Memory.
    pub fn step(&mut self, event: Event) -> Result<(), WorldFault>
        ensures ok { OnOk result (IsStep self.old event self.new) }
        ensures err { IfErr result (IsRefused self.old event self.new) }
    {
        match event {
            Event::Call { client, call } => self.members.make(&client, call, &mut self.ups),
            Event::Up {
                packet,
                now,
                ending,
            } => self.arrive(packet, now, ending),
            Event::Down { packet } => self.deliver(packet),
            Event::Loss { client, now } => self.lose(&client, now),
            Event::Tick { now } => self.serving.turn(Input::Tick, now, Ending::Answered),
            Event::RestartClient { client } => self.members.start_again(&client),
            Event::RestartServer { now } => self.serving.restart(now),
            Event::Checkpoint => self.serving.checkpoint(),
        }
    }

    /// The events, one after the other, up to the first that is refused. Whatever happened to a new
    /// world before, it is safe then: what a client shows of a path at a number is what stood there
    /// after that many entries, so two clients' values of one path with the same number are equal;
    /// each write whose reply a client took stands in the history, once, where the reply says, in
    /// its client's order, and with the outcome that it says; each action for a session's end that
    /// was acknowledged stands there as it was sent; and each session that ended did so once, by
    /// all that was due and nothing that was cancelled, before any entry of a later session of its
    /// client.
    pub fn run(&mut self, events: Vec<Event>) -> Result<(), WorldFault>
        ensures ok { OnOk result (RunsTo self.old events.items self.new) }
        ensures err { IfErr result (IsCutShort self.old events.items self.new) }
        ensures safe { (ids : List ClientId) (before : List Occurrence)
            → Reaches (new_world ids) before self.old → IsSafe self.new }
    {
        for event in events {
            self.step(event)?;
        }
        Ok(())
    }
}
