//! The log of one writer without sessions.

ghost use Rattle.std.specs.Prelude.{◌≡◌, ◌⊎◌, ◌↔◌, ◌+◌, IfOk, IfErr, IsErrOf, OnErr};
ghost use Rattle.pres_log.specs.Plains.{fresh, last_number, state_after, kept_after};

use crate::fault::Fault;
use pres_tree::Tree;
use pres_wire::{Count, Number};
use pres_write::{Kept, Moment, Op, Outcome, apply_all};
use std::alloc::Global;
use std::marker::Model;

/// The log of one writer: how many operations it took, the greatest moment so far, and the tree
/// that they left. It keeps no operation, so its memory grows with the tree alone.
#[derive(Drop)]
pub struct Plain {
    alloc: Global,
    count: Count,
    moment: Moment,
    tree: Tree,
}

impl Model for Plain {
    ghost use Rattle.pres_log.specs.Plains.{PlainState};

    ghost Value = { PlainState };

    ghost view = { λ p. record { number = p.count; moment = p.moment; tree = p.tree } };
}

impl Plain {
    /// The log before the first operation. It keeps the allocator and takes no memory.
    pub fn new(alloc: Global) -> Plain
        ensures { result ≡ fresh }
    {
        Plain {
            alloc,
            count: Count::zero(),
            moment: Moment::at(0),
            tree: Tree::empty(),
        }
    }

    /// Carries out the operation at the later of the given moment and the greatest one so far, and
    /// returns its number. After Busy and Spent the log is as it was.
    pub fn apply(&mut self, op: &Op, now: Moment) -> Result<(Number, Kept), Fault>
        ensures answer { IfOk result (λ answer.
            answer ≡ (self.old.number + 1, kept_after self.old op.now now)) }
        ensures ok { IfOk result (λ _. self.new ≡ state_after self.old op.now now) }
        ensures spent { IsErrOf result Fault.Spent ↔ (self.old.number ≡ last_number) }
        ensures busy { IfErr result (λ e. (e ≡ Fault.Busy) ⊎ (e ≡ Fault.Spent)) }
        ensures err { OnErr result (self.new ≡ self.old) }
    {
        if self.count.next().is_none() {
            return Err(Fault::Spent);
        }
        let Ok(op) = op.copy(self.alloc) else {
            return Err(Fault::Busy);
        };
        self.apply_owned(op, now)
    }

    /// The same of an operation that isn't needed any more, which is not copied.
    pub fn apply_owned(&mut self, op: Op, now: Moment) -> Result<(Number, Kept), Fault>
        ensures answer { IfOk result (λ answer.
            answer ≡ (self.old.number + 1, kept_after self.old op now)) }
        ensures ok { IfOk result (λ _. self.new ≡ state_after self.old op now) }
        ensures spent { IsErrOf result Fault.Spent ↔ (self.old.number ≡ last_number) }
        ensures busy { IfErr result (λ e. (e ≡ Fault.Busy) ⊎ (e ≡ Fault.Spent)) }
        ensures err { OnErr result (self.new ≡ self.old) }
    {
        let Some(number) = self.count.next() else {
            drop(op);
            return Err(Fault::Spent);
        };
        let moment = self.moment.max(now);
        let Ok(outcome) = op.resolve_owned(self.alloc, &self.tree, moment) else {
            return Err(Fault::Busy);
        };
        match outcome {
            Outcome::Wrote(writes) => {
                let Ok(()) = apply_all(self.alloc, &mut self.tree, writes) else {
                    return Err(Fault::Busy);
                };
                self.reach(number, moment);
                Ok((number, Kept::Wrote))
            }
            Outcome::Stale(held) => {
                // it ensures that the tree's rows are in order
                let _ = self.tree.is_empty();
                self.reach(number, moment);
                Ok((number, Kept::Stale(held)))
            }
        }
    }

    // The last operation has the number, and was carried out at the moment.
    fn reach(&mut self, number: Number, moment: Moment)
        ensures { self.new ≡ record { number = number; moment = moment; tree = self.old.tree } }
    {
        self.count = Count::up_to(number);
        self.moment = moment;
    }

    /// How many operations it took: the number of the last one.
    pub fn number(&self) -> Count
        ensures { result ≡ self.now.number }
    {
        self.count
    }

    /// The tree after all of them.
    pub fn tree(&self) -> &Tree
        ensures { result.now ≡ self.now.tree }
    {
        &self.tree
    }
}
