//! Turns that wait for one commit.

ghost use Rattle.std.specs.Prelude.{◌≡◌, ◌≤◌, length, IfOk, IfErr, OnOk, OnErr};
ghost use Rattle.pres_server.specs.SumTurns.{FollowAll};
ghost use Rattle.pres_server.specs.Groups.{begun, state_from, server_after, answers_each, Joins};

use crate::input::Input;
use crate::reopen::Reopen;
use crate::server::Server;
use pres_log::Batch;
use pres_wire::Down;
use pres_write::{Items, Moment};
use std::marker::Model;

/// How many turns one group may hold.
pub const MOST_IN_GROUP: usize = 256;

/// Turns whose batches wait for one commit, each prepared on the server after the batches before
/// it. It must be used: `done` takes it once all batches are committed, `abandon` where the commit
/// was refused. Contracts see the server as it was before the turns, and the batches.
pub struct Group {
    server: Server,
    batches: Vec<Batch>,
    // the greatest moment, once they are committed
    moment: Moment,
}

impl Model for Group {
    ghost use Rattle.pres_server.specs.Groups.{PendingGroup};

    ghost Value = { PendingGroup };

    ghost use Rattle.pres_server.specs.InternalGroups.{IsGroup};

    ghost view = { λ g. record { state = g.server; batches = g.batches.items } };

    ghost invariant = { λ g. IsGroup g.server.sum g.batches.items g.moment };
}

impl Group {
    /// A group without turns. It takes no memory.
    pub fn new(server: Server) -> Group
        ensures { result ≡ begun server }
    {
        let moment = server.moment();
        let batches = Vec::new(server.alloc());
        Group {
            server,
            batches,
            moment,
        }
    }

    /// Prepares the turn that the input asks for, at the later of the given moment and the greatest
    /// one so far, on the server after the batches that wait: its batch waits with them. So the turn
    /// is right as soon as all batches before it are committed. The input is handed back, with the
    /// group as it was, where it has to wait until the group is done: where it is no operation,
    /// where the operation is refused or makes nothing there, where the group has
    /// `MOST_IN_GROUP` turns, and where memory is refused.
    pub fn add(&mut self, input: Input, now: Moment) -> Result<(), Input>
        ensures joins { OnOk result (Joins self.old input now self.new) }
        ensures back { IfErr result (λ back. back ≡ input) }
        ensures unchanged { OnErr result (self.new ≡ self.old) }
    {
        if self.batches.len() >= MOST_IN_GROUP {
            return Err(input);
        }
        // it ensures what holds of every server's sum
        let _ = self.server.number();
        let Ok(()) = self.batches.reserve(1) else {
            return Err(input);
        };
        let batch = self
            .server
            .prepare_after(&self.batches, self.moment, input, now)?;
        self.moment = batch.moment();
        let Ok(()) = self.batches.push(batch) else {
            unreachable!()
        };
        Ok(())
    }

    /// The batches that are to be committed, all or none of them.
    pub fn batches(&self) -> &[Batch]
        ensures batches { result.now ≡ self.now.batches }
        ensures follow { FollowAll self.now.state.sum result.now }
        ensures few { length result.now ≤ 256 }
    {
        self.batches.as_slice()
    }

    /// The server before the turns. It takes no memory.
    pub fn abandon(self) -> Server
        ensures { result ≡ self.state }
    {
        let Group {
            server,
            batches,
            moment: _,
        } = self;
        drop(batches);
        server
    }

    /// The server after the commit, and the answers of each batch, in their order.
    pub fn done(self) -> Result<(Server, Items<Items<Down>>), Reopen>
        ensures server { IfOk result (λ done. done.0 ≡ server_after self) }
        ensures answers { IfOk result
            (λ done. done.1 ≡ answers_each self.state.sum self.batches) }
    {
        let Group {
            server,
            batches,
            moment: _,
        } = self;
        join_all(server, batches)
    }
}

// The server with these batches more, and the answers of each of them, in their order.
fn join_all(server: Server, batches: Vec<Batch>) -> Result<(Server, Items<Items<Down>>), Reopen>
    requires { FollowAll server.sum batches.items }
    ensures server { IfOk result (λ done. done.0 ≡ state_from server batches.items) }
    ensures answers { IfOk result (λ done. done.1 ≡ answers_each server.sum batches.items) }
{
    let mut server = server;
    let mut answers = Vec::new(server.alloc());
    let mut rest = batches.into_iter();
    'turns: while let Some(batch) = rest.next() {
        let (next, outs) = server.join(batch)?;
        server = next;
        answers.push(outs)?;
    }
    Ok((server, Items::of(answers)))
}
