//! Logs that count their entries and hold none of them.

ghost use Rattle.std.specs.Prelude.{◌≡◌, None};
ghost use Rattle.std.specs.Option.{option_copied};

use crate::entry::{Batch, Entry};
use crate::log::Log;
use std::marker::Model;

/// A log that stands above its number: it counts entries and batches, and holds none of them. Whoever
/// wants an entry asks where batches are saved. Contracts see the two counts.
#[derive(Drop)]
pub struct LogAbove {
    number: u64,
    batches: u64,
}

impl Model for LogAbove {
    ghost use Rattle.pres_log.specs.LogsAbove.{AboveNumber};

    ghost Value = { AboveNumber };

    ghost view = { λ l. record { number = l.number; batches = l.batches } };
}

impl Log {
    /// The log that stands above this many entries and batches. It takes no memory.
    pub fn above(number: u64, batches: u64) -> LogAbove
        ensures { result ≡ record { number = number; batches = batches } }
    {
        LogAbove { number, batches }
    }
}

impl LogAbove {
    /// How many entries it has: the number of the last one.
    pub fn len(&self) -> u64
        ensures { result ≡ self.now.number }
    {
        self.number
    }

    /// The number below which it holds no entry, and at which it holds none.
    pub fn base_number(&self) -> u64
        ensures { result ≡ self.now.number }
    {
        self.number
    }

    /// How many batches it has.
    pub fn batches(&self) -> u64
        ensures { result ≡ self.now.batches }
    {
        self.batches
    }

    /// None: no entry is held.
    pub fn entry(&self, _number: u64) -> Option<&Entry>
        ensures { option_copied result ≡ None }
    {
        None
    }

    /// None: no batch is held.
    pub fn batch(&self, _place: u64) -> Option<&Batch>
        ensures { option_copied result ≡ None }
    {
        None
    }
}
