//! Moments in time.

ghost use Rattle.std.specs.Prelude.{◌≡◌, ◌≤◌, min, max};
ghost use Rattle.pres_write.specs.Moments.{last_moment};

use pres_limits::MAX_SAFE_INTEGER;
use std::fmt;
use std::marker::Model;

/// A moment: milliseconds since the Unix epoch, at most 2^53 - 1. Contracts see it as that
/// number.
#[derive(Clone, Copy, Debug, PartialEq, Eq, PartialOrd, Ord)]
pub struct Moment {
    millis: u64,
}

impl Model for Moment {
    ghost use Rattle.std.specs.Prelude.{ℕ, ◌≤◌};
    ghost use Rattle.pres_write.specs.Moments.{last_moment};

    ghost Value = { ℕ };

    ghost view = { λ m. m.millis };

    ghost invariant = { λ m. m.millis ≤ last_moment };

    ghost inverse = { λ n. record { millis = n } };
}

impl Moment {
    /// The moment of this many milliseconds; more than 2^53 - 1 count as 2^53 - 1.
    pub fn at(millis: u64) -> Moment
        ensures { result ≡ min millis last_moment }
    {
        Moment {
            millis: millis.min(MAX_SAFE_INTEGER),
        }
    }

    /// Milliseconds since the Unix epoch.
    pub fn millis(self) -> u64
        ensures millis { result ≡ self }
        ensures bound { self ≤ last_moment }
    {
        self.millis
    }

    /// The later of two moments.
    pub fn max(self, other: Moment) -> Moment
        ensures { result ≡ max self other }
    {
        Moment {
            millis: self.millis.max(other.millis),
        }
    }
}

impl fmt::Display for Moment {
    ghost use Rattle.std.specs.Prelude.{Some};
    ghost use Rattle.std.specs.Fmt.{decimal};

    ghost output = { λ m. Some (decimal m) };

    /// The number of milliseconds.
    fn fmt<W: fmt::Write>(&self, f: &mut fmt::Formatter<W>) -> fmt::Result {
        let millis = self.millis;
        write!(f, "{millis}")
    }
}
