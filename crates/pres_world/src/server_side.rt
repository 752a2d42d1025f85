//! The server's part of a world.

ghost use Rattle.std.specs.Prelude.{◌≡◌, ◌<◌, ◌≤◌, ◌⊎◌, ◌+◌, ◌++◌, ◌∷◌, [], ℕ, true, false, List, length, Some, None, IfOk, IfErr, OnOk, IfSome, IfNone, MatchOption, option_copied, option_map};
ghost use Rattle.pres_ids.specs.Ids.{ClientId};
ghost use Rattle.pres_history.specs.ServerStates.{ServerState, blank};
ghost use Rattle.pres_server.specs.ServerStates.{heard_from, first_client};
ghost use Rattle.pres_history.specs.LegalLog.{IsLegal};
ghost use Rattle.pres_server.specs.InternalParts.{session_with};
ghost use Rattle.pres_server.specs.BaseSums.{sum_for};
ghost use Rattle.pres_server.specs.Replays.{resumed};
ghost use Rattle.pres_server.specs.Sums.{has_open_in, nothing, sum_from, sum_of};
ghost use Rattle.pres_server.specs.SumAnswers.{answers_by};
ghost use Rattle.pres_server.specs.SumTurns.{FollowAll, after_commit};
ghost use Rattle.pres_server.specs.Turns.{makes, quiet};
ghost use Rattle.pres_history.specs.Turns.{state_heard};
ghost use Rattle.pres_server.specs.declared.input.Input.{Input};
ghost use Rattle.pres_server.specs.declared.input.Input.TheVariants as input;
ghost use Rattle.pres_world.specs.ServerSides.{ServerSideInvariant, HasLog, of_log, by_sum, fault_for, turned, served, lost, log_with, open_on, checkpointed, resumed_in, EndsAll, IsEndOf, IsRestarted};
ghost use Rattle.pres_world.specs.declared.fault.WorldFault.TheVariants.{Memory};

use crate::event::Ending;
use crate::fault::WorldFault;
use pres_server::{
    Base, Batch, Busy, ClientId, Code, Down, Fault, Input, Moment, Replay, ReplayFault, Server,
    SessionId, Stamp, Turn,
};
use std::alloc::{AllocError, Global};
use std::marker::Model;

/// The server while it runs, the base that was kept last, all batches that were committed, and what
/// went out. The server holds no batch: contracts see it as that of the batches here, of which it
/// holds the sum. The base is that of the first batches.
#[derive(Drop)]
pub(crate) struct ServerSide {
    alloc: Global,
    server: Option<Server>,
    base: Option<Base>,
    history: Vec<Batch>,
    downs: Vec<Down>,
}

impl Model for ServerSide {
    ghost use Rattle.std.specs.Prelude.{option_map};
    ghost use Rattle.pres_world.specs.ServerSides.{ServerSideState, HoldsSum, of_log, base_sum};

    ghost Value = { ServerSideState };

    ghost view = { λ s. record {
      server = option_map (of_log s.history.items) s.server;
      base = base_sum s.base;
      history = s.history.items;
      downs = s.downs.items;
    } };

    ghost invariant = { λ s. HoldsSum s.history.items (base_sum s.base) s.server };
}

// The session whose message the input is.
fn sender(alloc: Global, input: &Input) -> Result<Option<SessionId>, AllocError>
    ensures { IfOk result (λ found. found ≡ heard_from input.now) }
{
    match input {
        Input::Up(message) => Ok(Some(message.session().copy(alloc)?)),
        _ => Ok(None),
    }
}

// The first client, in byte order, that has a session open.
fn first_open(alloc: Global, server: &Server) -> Result<Option<ClientId>, AllocError>
    ensures first { IfOk result (λ found. found ≡ first_client server.now.heard) }
    ensures open { IfOk result
        (λ found. IfSome found (λ c. has_open_in c server.now.sum ≡ true)) }
    ensures none { IfOk result
        (λ found. IfNone found ((c : ClientId) → has_open_in c server.now.sum ≡ false)) }
{
    match server.first_open() {
        Some(client) => Ok(Some(client.copy(alloc)?)),
        None => Ok(None),
    }
}

// The client's open session ends, with its batch after those that ended before.
fn end_one(
    alloc: Global,
    server: Server,
    client: ClientId,
    now: Moment,
    ended: &mut Vec<Batch>,
) -> Result<Server, WorldFault>
    requires { has_open_in client server.sum ≡ true }
    ensures ended { IfOk result (λ after. (s : ServerState) → HasLog server s
        → (t : ServerState) × HasLog after t
        × IsEndOf s client now t ended.old.items ended.new.items) }
    ensures more { IfOk result (λ after. server.sum.number < after.sum.number) }
    ensures refused { IfErr result (λ e. e ≡ Memory) }
{
    let busy = match server.prepare(Input::Restart(client), now) {
        Ok(Turn::Busy(busy)) => busy,
        Ok(Turn::Quiet(..)) => unreachable!(),
        // the end of an open session is refused for lack of memory alone
        Err((_, server)) => {
            drop(server);
            return Err(WorldFault::Memory);
        }
    };
    if !keep(alloc, busy.batch(), ended) {
        drop(busy.abandon());
        return Err(WorldFault::Memory);
    }
    match busy.done() {
        Ok((server, answers)) => {
            drop(answers);
            Ok(server)
        }
        Err(_) => Err(WorldFault::Memory),
    }
}

// Appends the batch to the others, unless memory is refused.
fn keep(alloc: Global, batch: &Batch, batches: &mut Vec<Batch>) -> bool
    ensures kept { result ≡ true → batches.new.items ≡ batches.old.items ++ batch.now ∷ [] }
    ensures stays { result ≡ false → batches.new.items ≡ batches.old.items }
{
    match batch.copy(alloc) {
        Ok(copied) => batches.push(copied).is_ok(),
        Err(_) => false,
    }
}

// Ends each session that is open, with the batches of these ends.
fn end_all(alloc: Global, server: Server, now: Moment) -> Result<(Server, Vec<Batch>), WorldFault>
    ensures ended { IfOk result (λ r. (s : ServerState) → HasLog server s
        → (cs : List ClientId) × (t : ServerState) × HasLog r.0 t
        × EndsAll now cs s t × (t.log ≡ s.log ++ r.1.items)) }
    ensures refused { IfErr result (λ e. e ≡ Memory) }
{
    let mut server = server;
    let mut ended = Vec::new(alloc);
    while let Some(client) = first_open(alloc, &server)? {
        let next = end_one(alloc, server, client, now, &mut ended)?;
        server = next;
        // it ensures that this many entries are within the limit
        let _ = server.number();
    }
    Ok((server, ended))
}

// A replay that begins at the base.
fn begun_at(alloc: Global, base: &Base) -> Result<Replay, WorldFault>
    ensures sum { IfOk result (λ replay. replay ≡ sum_for base.now) }
    ensures refused { IfErr result (λ e. e ≡ Memory) }
{
    match Replay::resume(alloc, base.copy(alloc)?) {
        Ok(replay) => Ok(replay),
        Err(_) => Err(WorldFault::Memory),
    }
}

// The server of the batches, which may follow those of the replay.
fn finished(alloc: Global, mut replay: Replay, batches: &[Batch]) -> Result<Server, WorldFault>
    requires { FollowAll replay batches.now }
    ensures made { IfOk result (λ server. server ≡ resumed (sum_from replay batches.now)) }
    ensures refused { IfErr result (λ e. e ≡ Memory) }
{
    for batch in batches {
        let Ok(batch) = batch.copy(alloc) else {
            drop(replay);
            return Err(WorldFault::Memory);
        };
        match replay.add(batch) {
            Ok(()) => {}
            Err(ReplayFault::Memory) => {
                drop(replay);
                return Err(WorldFault::Memory);
            }
            Err(ReplayFault::NotLegal(_)) => unreachable!(),
        }
    }
    Ok(replay.finish())
}

impl ServerSide {
    /// A server without batches.
    pub(crate) fn new(alloc: Global) -> ServerSide
        ensures { result ≡ record
            { server = Some blank; base = nothing; history = []; downs = [] } }
    {
        ServerSide {
            alloc,
            server: Some(Server::new(alloc)),
            base: None,
            history: Vec::new(alloc),
            downs: Vec::new(alloc),
        }
    }

    /// The server, while it runs.
    pub(crate) fn server(&self) -> Option<&Server>
        ensures server { option_copied result ≡ option_map by_sum self.now.server }
        ensures serves { ServerSideInvariant self.now }
    {
        self.server.as_ref()
    }

    /// The batches that were committed.
    pub(crate) fn history(&self) -> &[Batch]
        ensures history { result.now ≡ self.now.history }
        ensures legal { IsLegal self.now.history }
    {
        self.history.as_slice()
    }

    /// What went out.
    pub(crate) fn downs(&self) -> &[Down]
        ensures { result.now ≡ self.now.downs }
    {
        self.downs.as_slice()
    }

    // The server runs on after a turn that makes nothing, unless it stops.
    fn run_on(&mut self, server: Server, ending: Ending)
        requires waits { self.old.server ≡ None }
        requires sum { server.sum ≡ sum_of self.old.history }
        ensures { (s : ServerState) (moment : ℕ) (i : Input)
            → of_log self.old.history server ≡ state_heard s moment i
            → self.new ≡ turned ending self.old.base self.old.downs quiet s moment i }
    {
        match ending {
            Ending::Stopped => drop(server),
            Ending::Answered | Ending::Refused => drop(self.server.replace(server)),
        }
    }

    // A refusal goes out, where there is a session that it goes to, unless the server stops.
    fn refuse(
        &mut self,
        server: Server,
        session: Option<SessionId>,
        code: Code,
    ) -> Result<(), WorldFault>
        requires sum { server.sum ≡ sum_of self.old.history }
        ensures ok { OnOk result (self.new ≡ record self.old {
          server = Some (of_log self.old.history server);
          downs = self.old.downs ++ fault_for session code;
        }) }
        ensures err { IfErr result (λ e. (e ≡ Memory)
            × (self.new ≡ record self.old { server = Some (of_log self.old.history server) })) }
    {
        drop(self.server.replace(server));
        if session.is_some() {
            self.downs.push(Down::Fault { session, code })?;
        }
        Ok(())
    }

    // A turn whose batch was committed: its answers go out.
    fn finish(&mut self, busy: Busy) -> Result<(), WorldFault>
        requires sum { (after_commit busy.state busy.moment busy.made).sum
            ≡ sum_of self.old.history }
        ensures ok { OnOk result (self.new ≡ record self.old {
          server = Some (of_log self.old.history
              (after_commit busy.state busy.moment busy.made));
          downs = self.old.downs ++ answers_by busy.state.sum busy.made;
        }) }
        ensures err { IfErr result (λ e. (e ≡ Memory) × (self.new ≡ self.old)) }
    {
        let Ok((server, answers)) = busy.done() else {
            return Err(WorldFault::Memory);
        };
        let mut answers = answers.into_vec();
        if self.downs.append(&mut answers).is_err() {
            drop(server);
            drop(answers);
            return Err(WorldFault::Memory);
        }
        drop(self.server.replace(server));
        Ok(())
    }

    // A turn that makes a batch.
    fn settle(
        &mut self,
        busy: Busy,
        session: Option<SessionId>,
        ending: Ending,
    ) -> Result<(), WorldFault>
        requires waits { self.old.server ≡ None }
        requires sum { busy.state.sum ≡ sum_of self.old.history }
        ensures ok { OnOk result ((i : Input) → session ≡ heard_from i → self.new
            ≡ turned ending self.old.base self.old.downs (makes busy.made)
            (of_log self.old.history busy.state) busy.moment i) }
        ensures err { IfErr result (λ e. (e ≡ Memory)
            × ((self.new ≡ record self.old
            { server = Some (of_log self.old.history busy.state) })
            ⊎ (self.new ≡ record self.old { history = log_with self.old.history busy }))) }
    {
        if ending == Ending::Refused {
            return self.refuse(busy.abandon(), session, Code::Busy);
        }
        drop(session);
        if !keep(self.alloc, busy.batch(), &mut self.history) {
            drop(self.server.replace(busy.abandon()));
            return Err(WorldFault::Memory);
        }
        if ending == Ending::Stopped {
            drop(busy.abandon());
            return Ok(());
        }
        self.finish(busy)
    }

    /// One input at the moment. While the server is stopped it changes nothing. Memory is the one
    /// refusal: nothing is changed, or the server has stopped.
    pub(crate) fn turn(
        &mut self,
        input: Input,
        now: Moment,
        ending: Ending,
    ) -> Result<(), WorldFault>
        ensures ok { OnOk result (self.new ≡ served self.old input now ending) }
        ensures err { IfErr result (λ e. (e ≡ Memory) × ((self.new ≡ self.old)
            ⊎ (self.new ≡ served self.old input now Ending.Stopped))) }
    {
        let Ok(session) = sender(self.alloc, &input) else {
            drop(input);
            return Err(WorldFault::Memory);
        };
        let Some(server) = self.server.take() else {
            drop(input);
            drop(session);
            return Ok(());
        };
        match server.prepare(input, now) {
            Ok(Turn::Busy(busy)) => self.settle(busy, session, ending),
            Ok(Turn::Quiet(server, answers)) => {
                drop(answers);
                drop(session);
                self.run_on(server, ending);
                Ok(())
            }
            Err((Fault::Busy, server)) => {
                drop(session);
                drop(self.server.replace(server));
                Err(WorldFault::Memory)
            }
            Err((fault, server)) => {
                if ending == Ending::Stopped {
                    drop(session);
                    drop(server);
                    return Ok(());
                }
                self.refuse(server, session, fault.code())
            }
        }
    }

    // The stamp of the client's open session, while the server runs.
    fn open_stamp(&self, client: &ClientId) -> Option<Stamp>
        ensures { MatchOption result
            (open_on self.now.server client.now ≡ [])
            (λ stamp. open_on self.now.server client.now ≡ session_with client.now stamp ∷ []) }
    {
        self.server.as_ref()?.open_stamp(client)
    }

    /// The server hears that the connection of the client's open session is lost.
    pub(crate) fn lose(&mut self, client: &ClientId, now: Moment) -> Result<(), WorldFault>
        ensures ok { OnOk result (self.new
            ≡ lost (open_on self.old.server client.now) self.old now Ending.Answered) }
        ensures err { IfErr result (λ e. (e ≡ Memory) × ((self.new ≡ self.old) ⊎ (self.new
            ≡ lost (open_on self.old.server client.now) self.old now Ending.Stopped))) }
    {
        let Some(stamp) = self.open_stamp(client) else {
            return Ok(());
        };
        let session = SessionId::of(client.copy(self.alloc)?, stamp);
        self.turn(Input::Lost(session), now, Ending::Answered)
    }

    /// The base of the server is kept, while it runs. Memory is the one refusal, and then nothing is
    /// changed.
    pub(crate) fn checkpoint(&mut self) -> Result<(), WorldFault>
        ensures ok { OnOk result (self.new ≡ checkpointed self.old) }
        ensures err { IfErr result (λ e. (e ≡ Memory) × (self.new ≡ self.old)) }
    {
        let Some(server) = &self.server else {
            return Ok(());
        };
        let Ok(base) = server.base() else {
            return Err(WorldFault::Memory);
        };
        drop(self.base.replace(base));
        Ok(())
    }

    // A replay of the batches up to the kept base.
    fn begun(&self) -> Result<Replay, WorldFault>
        ensures sum { IfOk result (λ replay. replay ≡ self.now.base) }
        ensures refused { IfErr result (λ e. e ≡ Memory) }
    {
        match &self.base {
            None => Ok(Replay::new(self.alloc)),
            Some(base) => begun_at(self.alloc, base),
        }
    }

    // How many batches the kept base has.
    fn base_count(&self) -> usize
        ensures count { result ≡ self.now.base.batches }
        ensures within { result ≤ length self.now.history }
    {
        match &self.base {
            None => 0,
            Some(base) => base.parts().batches.get() as usize,
        }
    }

    // The server that the kept base and the batches after it make.
    fn resumed(&self) -> Result<Server, WorldFault>
        ensures made { IfOk result (λ server. server ≡ resumed_in self.now) }
        ensures refused { IfErr result (λ e. e ≡ Memory) }
    {
        let replay = self.begun()?;
        finished(self.alloc, replay, &self.history[self.base_count()..])
    }

    /// The server starts again from the kept base and the batches after it, and ends the sessions
    /// that are open. Memory is the one refusal, and then nothing is changed.
    pub(crate) fn restart(&mut self, now: Moment) -> Result<(), WorldFault>
        ensures ok { OnOk result (IsRestarted self.old now self.new) }
        ensures err { IfErr result (λ e. (e ≡ Memory) × (self.new ≡ self.old)) }
    {
        let server = self.resumed()?;
        let (server, mut ended) = end_all(self.alloc, server, now)?;
        if self.history.append(&mut ended).is_err() {
            drop(server);
            drop(ended);
            return Err(WorldFault::Memory);
        }
        drop(self.server.replace(server));
        Ok(())
    }
}
