//! A client of a world.

ghost use Rattle.std.specs.Prelude.{◌≡◌, ◌⊎◌, ◌++◌, [], Some, None, IfOk, IfErr, OnOk, OnErr};
ghost use Rattle.pres_client.specs.Calls.{refusal, after_call};
ghost use Rattle.pres_client.specs.Clients.{start};
ghost use Rattle.pres_client.specs.ReceivedMessages.{after_receive};
ghost use Rattle.pres_world.specs.Faults.{fault_of};
ghost use Rattle.pres_world.specs.WorldClients.{acknowledged, handed_out, is_fault, started_again};
ghost use Rattle.pres_world.specs.declared.fault.WorldFault.TheVariants.{Memory};

use crate::fault::WorldFault;
use crate::room::put_out;
use pres_client::{Call, Client, Notice};
use pres_server::{ClientId, Down, Number, Up};
use std::alloc::{AllocError, Global};
use std::marker::Model;

/// A client whose outgoing messages were handed out. Contracts see it as the client.
#[derive(Drop)]
pub(crate) struct Member {
    client: Client,
}

impl Model for Member {
    ghost use Rattle.std.specs.Prelude.{◌≡◌, []};
    ghost use Rattle.pres_client.specs.Clients.{ClientState};

    ghost Value = { ClientState };

    ghost view = { λ m. m.client };

    ghost invariant = { λ m. m.client.sends ≡ [] };
}

// Whether it is a Fault.
fn is_fault(message: &Down) -> bool
    ensures { result ≡ is_fault message.now }
{
    matches!(message, Down::Fault { .. })
}

impl Member {
    /// A client that starts.
    pub(crate) fn new(alloc: Global, id: ClientId, incarnation: Number) -> Member
        ensures { result ≡ start id incarnation }
    {
        Member {
            client: Client::new(alloc, id, incarnation),
        }
    }

    /// The client.
    pub(crate) fn client(&self) -> &Client
        ensures { result.now ≡ self.now }
    {
        &self.client
    }

    /// What was noted since the last time.
    pub(crate) fn take_notices(&mut self) -> Vec<Notice>
        ensures given { result.items ≡ self.old.notices }
        ensures left { self.new ≡ record self.old { notices = [] } }
    {
        self.client.take_notices()
    }

    /// Makes the call. What it has to send is appended to the packets.
    pub(crate) fn make(&mut self, call: Call, ups: &mut Vec<Up>) -> Result<(), WorldFault>
        ensures ok { OnOk result ((refusal self.old call ≡ None)
            × (self.new ≡ handed_out (after_call self.old call))
            × (ups.new.items ≡ ups.old.items ++ (after_call self.old call).sends)) }
        ensures refused { IfErr result (λ e.
            (e ≡ Memory) ⊎ ((f : _) × (refusal self.old call ≡ Some f) × (e ≡ fault_of f))) }
        ensures stays { OnErr result ((self.new ≡ self.old) × (ups.new.items ≡ ups.old.items)) }
    {
        if ups.reserve(self.client.most_sends()).is_err() {
            drop(call);
            return Err(WorldFault::Memory);
        }
        self.client.make(call)?;
        put_out(ups, self.client.take_sends());
        Ok(())
    }

    // The message, where the client takes it.
    fn acknowledged(&self, alloc: Global, message: &Down) -> Result<Vec<Down>, AllocError>
        ensures { IfOk result (λ acks. acks.items ≡ acknowledged self.now message.now) }
    {
        let mut acks = Vec::new(alloc);
        if self.client.accepts(message) && !is_fault(message) {
            acks.push(message.copy(alloc)?)?;
        }
        Ok(acks)
    }

    /// The message arrives. What the client has to send is appended to the packets, and the message
    /// to those that were taken, where it is.
    pub(crate) fn receive(
        &mut self,
        alloc: Global,
        message: &Down,
        ups: &mut Vec<Up>,
        acks: &mut Vec<Down>,
    ) -> Result<(), WorldFault>
        ensures ok { OnOk result ((self.new ≡ handed_out (after_receive self.old message.now))
            × (ups.new.items ≡ ups.old.items ++ (after_receive self.old message.now).sends)
            × (acks.new.items ≡ acks.old.items ++ acknowledged self.old message.now)) }
        ensures refused { IfErr result (λ e. e ≡ Memory) }
        ensures stays { OnErr result ((self.new ≡ self.old)
            × (ups.new.items ≡ ups.old.items) × (acks.new.items ≡ acks.old.items)) }
    {
        ups.reserve(self.client.most_sends())?;
        let taken = self.acknowledged(alloc, message)?;
        acks.reserve(taken.len())?;
        self.client.receive(message.copy(alloc)?)?;
        put_out(ups, self.client.take_sends());
        put_out(acks, taken);
        Ok(())
    }

    /// The client's program starts again, as long as there are numbers for that.
    pub(crate) fn start_again(&mut self, alloc: Global, id: &ClientId) -> Result<(), AllocError>
        ensures ok { OnOk result (self.new ≡ started_again id.now self.old) }
        ensures err { OnErr result (self.new ≡ self.old) }
    {
        let Some(incarnation) = self.client.incarnation().next() else {
            return Ok(());
        };
        let client = Client::new(alloc, id.copy(alloc)?, incarnation);
        drop(std::mem::replace(&mut self.client, client));
        Ok(())
    }
}
