//! The clients of a world.

ghost use Rattle.std.specs.Prelude.{◌≡◌, ◌⊎◌, ◌++◌, [], Some, None, IfOk, IfErr, OnOk, OnErr, option_copied};
ghost use Rattle.std.specs.FinMap.Entries.{find, put};
ghost use Rattle.pres_ids.specs.Ids.{client_cmp};
ghost use Rattle.pres_client.specs.Calls.{refusal, after_call};
ghost use Rattle.pres_client.specs.Clients.{ClientState};
ghost use Rattle.pres_client.specs.ReceivedMessages.{after_receive};
ghost use Rattle.pres_world.specs.Faults.{fault_of};
ghost use Rattle.pres_world.specs.WorldClients.{acknowledged, handed_out, started_again};
ghost use Rattle.pres_world.specs.Worlds.{joined};
ghost use Rattle.pres_world.specs.declared.fault.WorldFault.TheVariants.{Memory, NoSuch};

use crate::fault::WorldFault;
use crate::member::Member;
use pres_client::{Call, Client, Notice};
use pres_server::{ClientId, Down, Number, Up};
use std::alloc::{AllocError, Global};
use std::collections::BTreeMap;
use std::marker::Model;

/// The clients by their ids. Contracts see the list of them, in byte order of ids.
#[derive(Drop)]
pub(crate) struct Members {
    alloc: Global,
    by_id: BTreeMap<ClientId, Member>,
}

impl Model for Members {
    ghost use Rattle.std.specs.List.Sorted.{IsStrictlySortedBy};
    ghost use Rattle.std.specs.Map.{keys_of};
    ghost use Rattle.pres_ids.specs.Ids.{client_cmp};
    ghost use Rattle.pres_world.specs.Worlds.{Clients};

    ghost Value = { Clients };

    ghost view = { λ m. m.by_id.entries };

    ghost invariant = { λ m. IsStrictlySortedBy client_cmp (keys_of m.by_id.entries) };
}

impl Members {
    /// No clients.
    pub(crate) fn new(alloc: Global) -> Members
        ensures { result ≡ [] }
    {
        Members {
            alloc,
            by_id: BTreeMap::new(alloc),
        }
    }

    /// A client starts for the first time.
    pub(crate) fn join(&mut self, id: ClientId) -> Result<(), AllocError>
        ensures ok { OnOk result (self.new ≡ joined self.old id) }
        ensures err { OnErr result (self.new ≡ self.old) }
    {
        let client = Member::new(self.alloc, id.copy(self.alloc)?, Number::first());
        drop(self.by_id.insert(id, client)?);
        Ok(())
    }

    /// The client with the id.
    pub(crate) fn get(&self, id: &ClientId) -> Option<&Client>
        ensures { option_copied result ≡ find client_cmp id.now self.now }
    {
        match self.by_id.get(id) {
            Some(member) => Some(member.client()),
            None => None,
        }
    }

    /// What the client noted since the last time: nothing where there is no such client.
    pub(crate) fn take_notices(&mut self, id: &ClientId) -> Vec<Notice>
        ensures given { (c : ClientState) → find client_cmp id.now self.old ≡ Some c
            → result.items ≡ c.notices }
        ensures left { (c : ClientState) → find client_cmp id.now self.old ≡ Some c
            → self.new ≡ put client_cmp id.now (record c { notices = [] }) self.old }
        ensures stranger { find client_cmp id.now self.old ≡ None
            → (result.items ≡ []) × (self.new ≡ self.old) }
    {
        let Some(member) = self.by_id.get_mut(id) else {
            return Vec::new(self.alloc);
        };
        member.take_notices()
    }

    /// The client makes the call. What it has to send is appended to the packets.
    pub(crate) fn make(
        &mut self,
        id: &ClientId,
        call: Call,
        ups: &mut Vec<Up>,
    ) -> Result<(), WorldFault>
        ensures ok { OnOk result ((c : ClientState) × (find client_cmp id.now self.old ≡ Some c)
            × (refusal c call ≡ None)
            × (self.new ≡ put client_cmp id.now (handed_out (after_call c call)) self.old)
            × (ups.new.items ≡ ups.old.items ++ (after_call c call).sends)) }
        ensures refused { IfErr result (λ e. (e ≡ Memory)
            ⊎ (((e ≡ NoSuch) × (find client_cmp id.now self.old ≡ None))
            ⊎ ((c : ClientState) × (f : _) × (find client_cmp id.now self.old ≡ Some c)
            × (refusal c call ≡ Some f) × (e ≡ fault_of f)))) }
        ensures stays { OnErr result ((self.new ≡ self.old) × (ups.new.items ≡ ups.old.items)) }
    {
        let Some(member) = self.by_id.get_mut(id) else {
            drop(call);
            return Err(WorldFault::NoSuch);
        };
        member.make(call, ups)
    }

    /// The message arrives at the client. What it has to send is appended to the packets, and the
    /// message to those that were taken, where it is.
    pub(crate) fn receive(
        &mut self,
        id: &ClientId,
        message: &Down,
        ups: &mut Vec<Up>,
        acks: &mut Vec<Down>,
    ) -> Result<(), WorldFault>
        ensures ok { OnOk result ((c : ClientState) × (find client_cmp id.now self.old ≡ Some c)
            × (self.new ≡ put client_cmp id.now (handed_out (after_receive c message.now)) self.old)
            × (ups.new.items ≡ ups.old.items ++ (after_receive c message.now).sends)
            × (acks.new.items ≡ acks.old.items ++ acknowledged c message.now)) }
        ensures refused { IfErr result (λ e. (e ≡ Memory)
            ⊎ ((e ≡ NoSuch) × (find client_cmp id.now self.old ≡ None))) }
        ensures stays { OnErr result ((self.new ≡ self.old)
            × (ups.new.items ≡ ups.old.items) × (acks.new.items ≡ acks.old.items)) }
    {
        let Some(member) = self.by_id.get_mut(id) else {
            return Err(WorldFault::NoSuch);
        };
        member.receive(self.alloc, message, ups, acks)
    }

    /// The client's program starts again.
    pub(crate) fn start_again(&mut self, id: &ClientId) -> Result<(), WorldFault>
        ensures ok { OnOk result ((c : ClientState) × (find client_cmp id.now self.old ≡ Some c)
            × (self.new ≡ put client_cmp id.now (started_again id.now c) self.old)) }
        ensures refused { IfErr result (λ e. (e ≡ Memory)
            ⊎ ((e ≡ NoSuch) × (find client_cmp id.now self.old ≡ None))) }
        ensures stays { OnErr result (self.new ≡ self.old) }
    {
        let Some(member) = self.by_id.get_mut(id) else {
            return Err(WorldFault::NoSuch);
        };
        member.start_again(self.alloc, id)?;
        Ok(())
    }
}
