//! How long a stream doesn't hear its bell.

ghost use Rattle.std.specs.Prelude.{◌≡◌, ◌≤◌, ◌*◌, min, max};

use std::marker::Model;

/// How long a stream doesn't hear its bell after it heard it, so that what is put meanwhile goes out
/// together. A steady flow to many listeners without rests is nothing but wakes, and a rest that has
/// nothing to gather only delays: so a stream rests longer as it finds more, and not at all after it
/// found one message. Contracts see the milliseconds.
#[derive(Drop)]
pub(crate) struct Rest {
    millis: u64,
}

impl Model for Rest {
    ghost use Rattle.std.specs.Prelude.{ℕ, ◌≤◌};

    ghost Value = { ℕ };

    ghost view = { λ rest. rest.millis };

    ghost invariant = { λ rest. rest.millis ≤ 16 };
}

impl Rest {
    /// No rest.
    pub(crate) fn new() -> Rest
        ensures { result ≡ 0 }
    {
        Rest { millis: 0 }
    }

    /// The next rest, after the bell was rung this often since it was heard last: no longer than
    /// this, in milliseconds.
    pub(crate) fn note(&mut self, rings: usize, longest: u64)
        requires least { 1 ≤ longest }
        requires most { longest ≤ 16 }
        ensures calm { rings ≤ 1 → self.new ≡ 0 }
        ensures longer { 2 ≤ rings → self.new ≡ min (max (2 * self.old) 1) longest }
    {
        self.millis = if rings <= 1 {
            0
        } else {
            (2 * self.millis).clamp(1, longest)
        };
    }

    /// How long it is, in milliseconds.
    pub(crate) fn millis(&self) -> u64
        ensures { result ≡ self.now }
    {
        self.millis
    }
}
