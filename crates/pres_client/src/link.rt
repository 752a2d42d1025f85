//! The client: its sessions.

ghost use Rattle.std.specs.Prelude.{◌≡◌, IfOk, IfErr, OnOk, OnErr, true, false};
ghost use Rattle.pres_client.specs.Clients.{is_online, no_message};
ghost use Rattle.pres_client.specs.Calls.{closed, end_session, outgoing, after_go_offline, Does, Refuses, IsFew};
ghost use Rattle.pres_client.specs.declared.fault.ClientFault.TheVariants.{Memory};

use crate::call::Call;
use crate::client::{Client, Phase};
use crate::fault::ClientFault;
use pres_client_state::sole;
use pres_limits::MAX_SAFE_INTEGER;
use pres_wire::{Code, Count, Number, SessionId, Up};
use std::alloc::AllocError;

impl Client {
    // The session is left, after its notices were added.
    pub(crate) fn close(&mut self)
        ensures { self.new ≡ closed self.old }
    {
        self.phase = Phase::Off;
        self.heard = 0;
        self.taken = Count::zero();
        self.mail.keep_writes();
        self.watches.freeze(self.seen);
    }

    // The session is left.
    pub(crate) fn end_session(&mut self, fault: Option<Code>) -> Result<(), AllocError>
        ensures ok { OnOk result (self.new ≡ end_session self.old fault) }
        ensures err { OnErr result (self.new ≡ self.old) }
    {
        let notices = self.mail.farewell(fault)?;
        self.mail.add(Vec::new(self.alloc), notices)?;
        self.close();
        Ok(())
    }

    // The session that the next Hello asks for.
    fn next_session(&self, attempt: Number) -> Result<SessionId, AllocError>
        ensures { IfOk result (λ s. s ≡ record self.now.session { attempt = attempt }) }
    {
        let mut session = self.session.copy(self.alloc)?;
        session.attempt = attempt;
        Ok(session)
    }

    /// Asks for a session, where none is open or being opened: a Hello goes out, and the client
    /// is Opening. Refused, in this order: Spent, Memory.
    pub fn go_online(&mut self) -> Result<(), ClientFault>
        ensures ok { OnOk result (Does self.old Call.GoOnline self.new) }
        ensures err { IfErr result (Refuses self.old Call.GoOnline self.new) }
        ensures few { IsFew self.old self.new }
    {
        if self.session().is_some() {
            return Ok(());
        }
        let Some(attempt) = self.attempts.next() else {
            return Err(ClientFault::Spent);
        };
        let session = self.next_session(attempt)?;
        let sends = sole(self.alloc, Up::Hello { session })?;
        self.mail.add(sends, Vec::new(self.alloc))?;
        self.session.attempt = attempt;
        self.attempts = Count::up_to(attempt);
        self.phase = Phase::Opening;
        Ok(())
    }

    // Says goodbye, and leaves the session.
    fn say_bye(&mut self) -> Result<(), ClientFault>
        requires online { is_online self.old.phase ≡ true }
        requires message { no_message self.old ≡ false }
        ensures ok { OnOk result (self.new ≡ after_go_offline self.old) }
        ensures err { IfErr result (λ e. (e ≡ Memory) × (self.new ≡ self.old)) }
    {
        let session = self.session.copy(self.alloc)?;
        let goodbye = Up::Bye {
            session,
            q: self.next_q(),
        };
        let sends = sole(self.alloc, goodbye)?;
        let notices = self.mail.farewell(None)?;
        self.mail.add(sends, notices)?;
        self.close();
        Ok(())
    }

    /// Leaves the session: if it is open a Bye goes out, and each action for its end without an
    /// answer is noted as ActionLost. Writes without an answer go out again in the next session.
    /// Refused, in this order: Spent, Memory.
    pub fn go_offline(&mut self) -> Result<(), ClientFault>
        ensures ok { OnOk result (Does self.old Call.GoOffline self.new) }
        ensures err { IfErr result (Refuses self.old Call.GoOffline self.new) }
        ensures few { IsFew self.old self.new }
    {
        if !self.phase.is_online() {
            self.phase = Phase::Off;
            return Ok(());
        }
        if self.no_message() {
            return Err(ClientFault::Spent);
        }
        self.say_bye()
    }

    /// The connection was lost: as `go_offline`, without a Bye. Memory is the one refusal.
    pub fn lost(&mut self) -> Result<(), ClientFault>
        ensures ok { OnOk result (Does self.old Call.Lost self.new) }
        ensures err { IfErr result (Refuses self.old Call.Lost self.new) }
        ensures few { IsFew self.old self.new }
    {
        if !self.phase.is_online() {
            self.phase = Phase::Off;
            return Ok(());
        }
        self.end_session(None)?;
        Ok(())
    }

    /// Sends a Beat where the session is open, so that the server knows that the client is there.
    /// Memory is the one refusal.
    pub fn beat(&mut self) -> Result<(), ClientFault>
        ensures ok { OnOk result (Does self.old Call.Beat self.new) }
        ensures err { IfErr result (Refuses self.old Call.Beat self.new) }
        ensures few { IsFew self.old self.new }
    {
        if !self.phase.is_online() {
            return Ok(());
        }
        let session = self.session.copy(self.alloc)?;
        let sends = sole(self.alloc, Up::Beat { session })?;
        self.mail.add(sends, Vec::new(self.alloc))?;
        Ok(())
    }

    // What goes out again.
    fn outgoing(&self) -> Result<Vec<Up>, AllocError>
        ensures { IfOk result (λ v. v.items ≡ outgoing self.now) }
    {
        if self.phase.is_online() {
            let n = self.base() + self.answered + 1;
            return self.mail.messages(&self.session, self.heard + 1, n);
        }
        if !self.phase.is_opening() {
            return Ok(Vec::new(self.alloc));
        }
        let session = self.session.copy(self.alloc)?;
        sole(self.alloc, Up::Hello { session })
    }

    /// Sends all messages of the session that have no answer again, or the Hello, with the
    /// numbers that they had. Memory is the one refusal.
    pub fn resend(&mut self) -> Result<(), ClientFault>
        ensures ok { OnOk result (Does self.old Call.Resend self.new) }
        ensures err { IfErr result (Refuses self.old Call.Resend self.new) }
        ensures few { IsFew self.old self.new }
    {
        let sends = self.outgoing()?;
        self.mail.add(sends, Vec::new(self.alloc))?;
        Ok(())
    }
}
