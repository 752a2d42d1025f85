//! The client: its actions for a disconnection, and the paths that it listens to.

ghost use Rattle.std.specs.Prelude.{◌≡◌, ◌+◌, IfOk, IfErr, OnOk, OnErr, None, false};
ghost use Rattle.pres_client_state.specs.Watches.{with_watch, fresh};
ghost use Rattle.pres_client_state.specs.Queues.{is_write};
ghost use Rattle.pres_client.specs.Clients.{no_request, no_message};
ghost use Rattle.pres_client.specs.Calls.{action_refusal, after_action, enqueue, with_request, after_listen, watched, Answers, Does, Refuses, IsFew};
ghost use Rattle.pres_client.specs.declared.fault.ClientFault.TheVariants.{Memory};

use crate::call::Call;
use crate::client::Client;
use crate::fault::ClientFault;
use crate::writes::{cleared, placed, updated};
use pres_client_state::Queued;
use pres_tree::Path;
use pres_wire::Count;
use pres_write::{Draft, Unconditional};
use std::alloc::AllocError;

impl Client {
    // Why no action for the end of the session is possible now.
    fn action_fault(&self) -> Option<ClientFault>
        ensures { result ≡ action_refusal self.now None }
    {
        if !self.phase.is_online() {
            return Some(ClientFault::Offline);
        }
        if self.no_request() || self.no_message() {
            return Some(ClientFault::Spent);
        }
        None
    }

    // The next request's message, which is no write.
    fn request(&mut self, queued: Queued) -> Result<u64, ClientFault>
        requires request { no_request self.old ≡ false }
        requires message { no_message self.old ≡ false }
        requires no_write { is_write queued ≡ false }
        ensures ok { IfOk result (λ k. (k ≡ self.old.requests + 1)
            × (self.new ≡ with_request (enqueue self.old queued))) }
        ensures err { IfErr result (λ e. (e ≡ Memory) × (self.new ≡ self.old)) }
    {
        let next = self.next_request();
        self.enqueue(queued)?;
        self.requests = Count::up_to(next);
        Ok(next.get())
    }

    // The next request registers the operation for the end of the session.
    fn leave(&mut self, op: Unconditional) -> Result<u64, ClientFault>
        requires request { no_request self.old ≡ false }
        requires message { no_message self.old ≡ false }
        ensures ok { IfOk result (λ k. (k ≡ self.old.requests + 1)
            × (self.new ≡ after_action self.old op)) }
        ensures err { IfErr result (λ e. (e ≡ Memory) × (self.new ≡ self.old)) }
    {
        let request = self.next_request().get();
        self.request(Queued::Left { request, op })
    }

    /// Registers a set for the end of the session. Returns the request, which Armed names once it
    /// is registered. Refused, in this order: Offline while no session is open, Spent, TooDeep (as
    /// Write), Memory.
    pub fn on_disconnect_set(&mut self, path: Path, draft: Draft) -> Result<u64, ClientFault>
        ensures ok { IfOk result (Answers self.old (Call.OnDisconnectSet path draft) self.new) }
        ensures err { IfErr result (Refuses self.old (Call.OnDisconnectSet path draft) self.new) }
        ensures few { IsFew self.old self.new }
    {
        if let Some(fault) = self.action_fault() {
            drop(draft);
            return Err(fault);
        }
        let placement = placed(path, draft)?;
        self.leave(Unconditional::Set(placement))
    }

    /// Registers an update for the end of the session. Refused, in this order: Offline while no
    /// session is open, Spent, then as Write ManyPaths (above 256), TooDeep and Overlap (a place at
    /// or above another), Memory.
    pub fn on_disconnect_update(
        &mut self,
        path: Path,
        places: Vec<(Path, Draft)>,
    ) -> Result<u64, ClientFault>
        ensures ok { IfOk result
            (Answers self.old (Call.OnDisconnectUpdate path places) self.new) }
        ensures err { IfErr result
            (Refuses self.old (Call.OnDisconnectUpdate path places) self.new) }
        ensures few { IsFew self.old self.new }
    {
        if let Some(fault) = self.action_fault() {
            return Err(fault);
        }
        let update = updated(self.alloc, path, places)?;
        self.leave(Unconditional::Update(update))
    }

    /// Registers a remove for the end of the session. Refused, in this order: Offline while no
    /// session is open, Spent, Memory.
    pub fn on_disconnect_remove(&mut self, path: Path) -> Result<u64, ClientFault>
        ensures ok { IfOk result (Answers self.old (Call.OnDisconnectRemove path) self.new) }
        ensures err { IfErr result (Refuses self.old (Call.OnDisconnectRemove path) self.new) }
        ensures few { IsFew self.old self.new }
    {
        if let Some(fault) = self.action_fault() {
            return Err(fault);
        }
        self.leave(Unconditional::Set(cleared(path)))
    }

    /// Cancels what was registered at the path and below it. If something is registered above it,
    /// the place keeps what it holds at the end of the session. Refused, in this order: Offline
    /// while no session is open, Spent, Memory.
    pub fn on_disconnect_cancel(&mut self, path: Path) -> Result<u64, ClientFault>
        ensures ok { IfOk result (Answers self.old (Call.OnDisconnectCancel path) self.new) }
        ensures err { IfErr result (Refuses self.old (Call.OnDisconnectCancel path) self.new) }
        ensures few { IsFew self.old self.new }
    {
        if let Some(fault) = self.action_fault() {
            return Err(fault);
        }
        let request = self.next_request().get();
        self.request(Queued::Cancel { request, path })
    }

    // The path is listened to from now on, for the request, and the message says so.
    fn watch_by(&mut self, path: Path, request: u64, queued: Queued) -> Result<(), AllocError>
        requires message { no_message self.old ≡ false }
        requires no_write { is_write queued ≡ false }
        ensures ok { OnOk result (self.new ≡ record (enqueue self.old queued) {
          watches = with_watch path (fresh request) self.old.watches;
        }) }
        ensures err { OnErr result (self.new ≡ self.old) }
    {
        let Ok(sends) = self.outgoing_of(&queued) else {
            drop(queued);
            return Err(AllocError);
        };
        let Ok(()) = self.mail.reserve(1, sends.len(), 0) else {
            drop(queued);
            return Err(AllocError);
        };
        let Ok(()) = self.watches.add(path, request) else {
            drop(queued);
            return Err(AllocError);
        };
        self.mail.put(queued, sends, Vec::new(self.alloc));
        Ok(())
    }

    // The path is listened to from now on, for the request.
    fn watch_for(&mut self, path: Path, request: u64) -> Result<(), AllocError>
        requires { no_message self.old ≡ false }
        ensures ok { OnOk result (self.new ≡ watched self.old path request) }
        ensures err { OnErr result (self.new ≡ self.old) }
    {
        if !self.phase.is_online() {
            return self.watches.add(path, request);
        }
        let queued = Queued::On {
            request,
            path: path.copy(self.alloc)?,
        };
        self.watch_by(path, request, queued)
    }

    // The next request listens to the path.
    fn watch(&mut self, path: Path) -> Result<u64, ClientFault>
        requires request { no_request self.old ≡ false }
        requires message { no_message self.old ≡ false }
        ensures ok { IfOk result (λ k. (k ≡ self.old.requests + 1)
            × (self.new ≡ after_listen self.old path None)) }
        ensures err { IfErr result (λ e. (e ≡ Memory) × (self.new ≡ self.old)) }
    {
        let next = self.next_request();
        self.watch_for(path, next.get())?;
        self.requests = Count::up_to(next);
        Ok(next.get())
    }

    /// Listens to the path: the notice Value gives its value, and each value after a write that
    /// touches it. For a path that is listened to already it returns a new request, and does
    /// nothing else. Refused, in this order: Spent, Memory. The server denies a session's 257th
    /// path.
    pub fn listen(&mut self, path: Path) -> Result<u64, ClientFault>
        ensures ok { IfOk result (Answers self.old (Call.Listen path) self.new) }
        ensures err { IfErr result (Refuses self.old (Call.Listen path) self.new) }
        ensures few { IsFew self.old self.new }
    {
        if self.no_request() {
            return Err(ClientFault::Spent);
        }
        if self.watches.get(&path).is_some() {
            let next = self.next_request();
            self.requests = Count::up_to(next);
            return Ok(next.get());
        }
        if self.no_message() {
            return Err(ClientFault::Spent);
        }
        self.watch(path)
    }

    /// Stops listening to the path, and shows nothing of it. For a path that isn't listened to it
    /// does nothing. Refused, in this order: Spent, Memory.
    pub fn unlisten(&mut self, path: &Path) -> Result<(), ClientFault>
        ensures ok { OnOk result (Does self.old (Call.Unlisten path.now) self.new) }
        ensures err { IfErr result (Refuses self.old (Call.Unlisten path.now) self.new) }
        ensures few { IsFew self.old self.new }
    {
        if self.watches.get(path).is_none() {
            return Ok(());
        }
        if self.phase.is_online() {
            if self.no_message() {
                return Err(ClientFault::Spent);
            }
            let path = path.copy(self.alloc)?;
            self.enqueue(Queued::Off { path })?;
        }
        self.watches.remove(path);
        Ok(())
    }
}
