//! Servers that are rebuilt from a base and the batches after it.

ghost use Rattle.std.specs.Prelude.{◌≡◌, ◌+◌, ℕ, IfErr, IfOk, OnErr, OnOk};
ghost use Rattle.pres_server.specs.declared.replay.ReplayFault.TheVariants.{Memory, NotLegal};
ghost use Rattle.pres_server.specs.Faults.{number_of, name_of};
ghost use Rattle.pres_server.specs.Sums.{nothing, sum_with, sum_from};
ghost use Rattle.pres_server.specs.SumTurns.{FollowsSum, FollowAll};
ghost use Rattle.pres_server.specs.Histories.{IsSum};
ghost use Rattle.pres_server.specs.BaseSums.{sum_for};
ghost use Rattle.pres_server.specs.Replays.{resumed, IsNotAdded, IsNoLog};

use crate::reopen::Reopen;
use crate::server::Server;
use pres_base::Base;
use pres_log::Batch;
use pres_wire::Number;
use std::alloc::{AllocError, AllocFailed, Global};
use std::marker::Model;
use thiserror::Error;

/// Why batches are refused as a server's history.
#[derive(Clone, Copy, Debug, Error, PartialEq, Eq)]
pub enum ReplayFault {
    /// An allocation was refused.
    #[error("out of memory")]
    Memory,
    /// The batch with this number, from 1 on, may not follow those before it.
    #[error("batch {0} may not follow")]
    NotLegal(Number),
}

impl ReplayFault {
    /// The number that programs print.
    pub fn number(self) -> u8
        ensures { result ≡ number_of self }
    {
        match self {
            ReplayFault::Memory => 1,
            ReplayFault::NotLegal(_) => 2,
        }
    }

    /// The name that programs print.
    pub fn name(self) -> &'static str
        ensures { result.now ≡ name_of self }
    {
        match self {
            ReplayFault::Memory => "Memory",
            ReplayFault::NotLegal(_) => "NotLegal",
        }
    }
}

impl From<AllocError> for ReplayFault {
    ghost use Rattle.std.specs.Prelude.{◌≡◌};
    ghost use Rattle.pres_server.specs.declared.replay.ReplayFault.TheVariants.{Memory};

    ghost from_gives = { λ _ e. e ≡ Memory };

    fn from(_refused: AllocError) -> ReplayFault {
        ReplayFault::Memory
    }
}

impl<T: Drop> From<AllocFailed<T>> for ReplayFault {
    ghost use Rattle.std.specs.Prelude.{◌≡◌};
    ghost use Rattle.pres_server.specs.declared.replay.ReplayFault.TheVariants.{Memory};

    ghost from_gives = { λ _ e. e ≡ Memory };

    fn from(_refused: AllocFailed<T>) -> ReplayFault {
        ReplayFault::Memory
    }
}

impl From<Reopen> for ReplayFault {
    ghost use Rattle.std.specs.Prelude.{◌≡◌};
    ghost use Rattle.pres_server.specs.declared.replay.ReplayFault.TheVariants.{Memory};

    ghost from_gives = { λ _ e. e ≡ Memory };

    fn from(_refused: Reopen) -> ReplayFault {
        ReplayFault::Memory
    }
}

/// A server that is rebuilt batch by batch. Contracts see it as the sum so far.
#[derive(Drop)]
pub struct Replay {
    server: Server,
}

impl Model for Replay {
    ghost use Rattle.pres_server.specs.Sums.{Sum};

    ghost Value = { Sum };

    ghost view = { λ r. r.server.sum };
}

impl Replay {
    /// No batch so far. It keeps the allocator and takes no memory.
    pub fn new(alloc: Global) -> Replay
        ensures { result ≡ nothing }
    {
        Replay {
            server: Server::new(alloc),
        }
    }

    /// The batches so far are those of the base, which is moved. Memory is the one refusal. What is
    /// added later is numbered after them.
    pub fn resume(alloc: Global, base: Base) -> Result<Replay, ReplayFault>
        ensures resumed { IfOk result (λ replay. replay ≡ sum_for base) }
        ensures memory { IfErr result (λ e. e ≡ Memory) }
    {
        Ok(Replay {
            server: Server::of_base(alloc, base)?,
        })
    }

    /// How many entries there are so far.
    pub fn number(&self) -> u64
        ensures number { result ≡ self.now.number }
        ensures sum { IsSum self.now }
    {
        self.server.number()
    }

    /// How many batches there are so far.
    pub fn batches(&self) -> u64
        ensures batches { result ≡ self.now.batches }
        ensures sum { IsSum self.now }
    {
        self.server.batches()
    }

    // The number of the next batch, which may not follow.
    fn refused(&self) -> ReplayFault
        ensures { (k : ℕ) × (result ≡ NotLegal k) × (k ≡ self.now.batches + 1) }
    {
        let Some(number) = Number::new(self.server.batches() + 1) else {
            unreachable!()
        };
        ReplayFault::NotLegal(number)
    }

    /// Adds a batch that may follow. NotLegal, with one more than the number of the batches so far,
    /// where it may not follow. At a refusal nothing is changed, also where memory is refused.
    pub fn add(&mut self, batch: Batch) -> Result<(), ReplayFault>
        ensures follows { OnOk result (FollowsSum self.old batch) }
        ensures added { OnOk result (self.new ≡ sum_with self.old batch) }
        ensures refused { IfErr result (IsNotAdded self.old batch) }
        ensures unchanged { OnErr result (self.new ≡ self.old) }
    {
        match self.server.may_follow(&batch) {
            Ok(true) => Ok(self.server.grow(batch)?),
            Ok(false) => {
                drop(batch);
                Err(self.refused())
            }
            Err(refused) => {
                drop(batch);
                Err(refused.into())
            }
        }
    }

    /// The server of the batches. The client of each open session counts as heard of at the
    /// greatest moment. It takes no memory.
    pub fn finish(self) -> Server
        ensures server { result ≡ resumed self }
        ensures sum { IsSum self }
    {
        let mut server = self.server;
        server.hear_anew();
        server
    }
}

impl Server {
    /// The server whose log these batches are. The client of each open session counts as heard of
    /// at the greatest moment. Refused as NotLegal with the number of the first batch, from 1
    /// on, that may not follow those before it.
    pub fn replay(alloc: Global, batches: &[Batch]) -> Result<Server, ReplayFault>
        ensures server { IfOk result (λ server. server ≡ resumed (sum_from nothing batches.now)) }
        ensures legal { IfOk result (λ _. FollowAll nothing batches.now) }
        ensures refused { IfErr result (IsNoLog batches.now) }
    {
        let mut replay = Replay::new(alloc);
        for batch in batches {
            let Ok(batch) = batch.copy(alloc) else {
                drop(replay);
                return Err(ReplayFault::Memory);
            };
            if let Err(fault) = replay.add(batch) {
                drop(replay);
                return Err(fault);
            }
        }
        Ok(replay.finish())
    }
}
