//! The log of a server.

ghost use Rattle.std.specs.Prelude.{◌≡◌, ◌↔◌, ◌+◌, ◌<◌, ◌≤◌, ◌++◌, ◌∷◌, [], ℕ, IsTrue, OnOk, OnErr, IfErr, MatchOption, Some, length, nat_le, slice_get};
ghost use Rattle.std.specs.Option.{option_copied};
ghost use Rattle.pres_log.specs.Logs.{number, entry_at, batch_at, IsNumbered};
ghost use Rattle.pres_log.specs.declared.entry.Batch.{Batch};

use crate::entry::{Batch, Entry};
use crate::fault::Fault;
use std::alloc::Global;
use std::marker::Model;

/// All batches of a server, in their order. Their entries are numbered 1, 2, .., and each batch
/// names the number of its first one. Contracts see it as the list of its batches.
pub struct Log {
    batches: Vec<Batch>,
}

// Written out so that dropping a log is one step of a proof, in the crates above too.
impl Drop for Log {
    fn drop(self) {
        let Log { batches: _ } = self;
    }
}

impl Model for Log {
    ghost use Rattle.std.specs.Prelude.{List};
    ghost use Rattle.pres_log.specs.declared.entry.Batch.{Batch};
    ghost use Rattle.pres_log.specs.Logs.{IsNumbered};

    ghost Value = { List Batch };

    ghost view = { λ l. l.batches.items };

    ghost invariant = { λ l. IsNumbered l.batches.items };
}

impl Log {
    /// The log without batches. It takes no memory.
    pub fn new(alloc: Global) -> Log
        ensures { result ≡ [] }
    {
        Log {
            batches: Vec::new(alloc),
        }
    }

    /// Adds a batch whose `first` is one more than the number of entries. Busy is the one
    /// refusal, and then the log is as it was.
    pub fn push(&mut self, batch: Batch) -> Result<(), Fault>
        requires { batch.first ≡ number self.old + 1 }
        ensures ok { OnOk result (self.new ≡ self.old ++ batch ∷ []) }
        ensures err { IfErr result (λ e. e ≡ Fault.Busy) }
        ensures stays { OnErr result (self.new ≡ self.old) }
    {
        self.batches.push(batch)?;
        Ok(())
    }

    /// Removes the last batch, if there is one. It takes no memory.
    pub fn pop(&mut self) -> Option<Batch>
        ensures { MatchOption result
            ((self.old ≡ []) × (self.new ≡ []))
            (λ batch. self.old ≡ self.new ++ batch ∷ []) }
    {
        self.batches.pop()
    }

    /// How many entries it has: the number of the last one.
    pub fn len(&self) -> u64
        ensures { result ≡ number self.now }
    {
        match self.batches.last() {
            Some(batch) => batch.first().get() - 1 + batch.entries().len() as u64,
            None => 0,
        }
    }

    /// Whether it has no entry.
    pub fn is_empty(&self) -> bool
        ensures { IsTrue result ↔ (number self.now ≡ 0) }
    {
        self.len() == 0
    }

    /// The entry with the number, none for 0 and above the number of the last one.
    pub fn entry(&self, number: u64) -> Option<&Entry>
        ensures { option_copied result ≡ entry_at self.now number }
    {
        let begun = self.begun(number);
        let batch = self.batches.get(begun.checked_sub(1)?)?;
        let place = number - batch.first().get();
        batch.entries().get(place as usize)
    }

    /// The batch at the place in the log, of which the first is 1: none for 0 and above the number
    /// of batches. It takes no memory.
    pub fn batch(&self, place: u64) -> Option<&Batch>
        ensures { option_copied result ≡ batch_at self.now place }
    {
        let before = place.checked_sub(1)?;
        self.batches.get(before as usize)
    }

    // How many batches begin at the number or before it.
    fn begun(&self, number: u64) -> usize
        ensures bound { result ≤ length self.now }
        ensures begun { (i : ℕ) (b : Batch) → i < result → slice_get self.now i ≡ Some b
            → b.first ≤ number }
        ensures rest { (b : Batch) → slice_get self.now result ≡ Some b → number < b.first }
    {
        self.batches.as_slice().partition_point(
            |batch: &Batch| -> bool
                ensures { result ≡ nat_le batch.now.first number }
            { batch.first().get() <= number },
        )
    }

    /// Its batches.
    pub fn batches(&self) -> &[Batch]
        ensures batches { result.now ≡ self.now }
        ensures numbered { IsNumbered self.now }
    {
        &self.batches
    }

    /// Its batches, which are moved.
    pub fn into_batches(self) -> Vec<Batch>
        ensures batches { result.items ≡ self }
        ensures numbered { IsNumbered self }
    {
        let Log { batches } = self;
        batches
    }
}
