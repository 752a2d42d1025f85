//! The calls of a client as values.

ghost use Rattle.std.specs.Prelude.{◌≡◌, IfOk, IfErr, OnOk, MatchResult, Ok, Err, None};
ghost use Rattle.pres_client.specs.Calls.{Does, Refuses, IsFew, request_of};

use crate::client::Client;
use crate::fault::ClientFault;
use pres_tree::Path;
use pres_write::Draft;

/// A caller's answer to a transaction that asks.
#[derive(Drop)]
pub enum Answer {
    /// The draft takes the place of the value.
    New(Draft),
    /// The caller gives the transaction up.
    Abort,
}

/// A call of a client, with its arguments.
#[derive(Drop)]
pub enum Call {
    Set(Path, Draft),
    Update(Path, Vec<(Path, Draft)>),
    Remove(Path),
    Transact(Path),
    Answer(u64, Answer),
    OnDisconnectSet(Path, Draft),
    OnDisconnectUpdate(Path, Vec<(Path, Draft)>),
    OnDisconnectRemove(Path),
    OnDisconnectCancel(Path),
    Listen(Path),
    Unlisten(Path),
    GoOnline,
    GoOffline,
    Lost,
    Beat,
    Resend,
}

// For a call that returns no request.
fn without_request(made: Result<(), ClientFault>) -> Result<Option<u64>, ClientFault>
    ensures { MatchResult result
        (λ k. (k ≡ None) × (made ≡ Ok tt))
        (λ e. made ≡ Err e) }
{
    match made {
        Ok(()) => Ok(None),
        Err(fault) => Err(fault),
    }
}

impl Client {
    /// Makes the call: the request that it returns, none if it returns none. Refused as the call
    /// is.
    pub fn make(&mut self, call: Call) -> Result<Option<u64>, ClientFault>
        ensures ok { OnOk result (Does self.old call self.new) }
        ensures request { IfOk result (λ k. k ≡ request_of self.old call) }
        ensures err { IfErr result (Refuses self.old call self.new) }
        ensures few { IsFew self.old self.new }
    {
        match call {
            Call::Set(path, draft) => self.set(path, draft).map(Some),
            Call::Update(path, places) => self.update(path, places).map(Some),
            Call::Remove(path) => self.remove(path).map(Some),
            Call::Transact(path) => self.transact(path).map(Some),
            Call::OnDisconnectSet(path, draft) => self.on_disconnect_set(path, draft).map(Some),
            Call::OnDisconnectUpdate(path, places) => {
                self.on_disconnect_update(path, places).map(Some)
            }
            Call::OnDisconnectRemove(path) => self.on_disconnect_remove(path).map(Some),
            Call::OnDisconnectCancel(path) => self.on_disconnect_cancel(path).map(Some),
            Call::Listen(path) => self.listen(path).map(Some),
            Call::Answer(request, answer) => without_request(self.answer(request, answer)),
            Call::Unlisten(path) => without_request(self.unlisten(&path)),
            Call::GoOnline => without_request(self.go_online()),
            Call::GoOffline => without_request(self.go_offline()),
            Call::Lost => without_request(self.lost()),
            Call::Beat => without_request(self.beat()),
            Call::Resend => without_request(self.resend()),
        }
    }
}
