//! Numbers that messages carry.

ghost use Rattle.std.specs.Prelude.{◌≡◌, ◌+◌, ◌<◌, ◌≤◌, MatchOption};
ghost use Rattle.std.specs.Option.{SomeIff};
ghost use Rattle.pres_ids.specs.Numbers.{greatest_number, IsNumber};

use pres_limits::MAX_SAFE_INTEGER;
use std::fmt;
use std::marker::Model;

/// A whole number from 1 to 2^53 - 1. Contracts see it as that number.
#[derive(Clone, Copy, Debug, PartialEq, Eq, PartialOrd, Ord)]
pub struct Number {
    value: u64,
}

impl Model for Number {
    ghost use Rattle.std.specs.Prelude.{ℕ};
    ghost use Rattle.pres_ids.specs.Numbers.{IsNumber};

    ghost Value = { ℕ };

    ghost view = { λ n. n.value };

    ghost invariant = { λ n. IsNumber n.value };

    ghost inverse = { λ n. record { value = n } };
}

impl Number {
    /// The number of this value, none where it is 0 or above 2^53 - 1.
    pub fn new(value: u64) -> Option<Number>
        ensures { SomeIff result (IsNumber value) value }
    {
        if value == 0 || value > MAX_SAFE_INTEGER {
            return None;
        }
        Some(Number { value })
    }

    /// The number 1.
    pub fn first() -> Number
        ensures { result ≡ 1 }
    {
        Number { value: 1 }
    }

    /// Its value.
    pub fn get(self) -> u64
        ensures value { result ≡ self }
        ensures number { IsNumber self }
    {
        self.value
    }

    /// The number after it, none after 2^53 - 1.
    pub fn next(self) -> Option<Number>
        ensures { MatchOption result
            (self ≡ greatest_number)
            (λ n. (self < greatest_number) × (n ≡ self + 1)) }
    {
        Count::up_to(self).next()
    }
}

impl fmt::Display for Number {
    fn fmt<W: fmt::Write>(&self, f: &mut fmt::Formatter<W>) -> fmt::Result {
        write!(f, "{}", self.value)
    }
}

/// How many: a whole number from 0 to 2^53 - 1. Contracts see it as that number.
#[derive(Clone, Copy, Debug, PartialEq, Eq, PartialOrd, Ord)]
pub struct Count {
    value: u64,
}

impl Model for Count {
    ghost use Rattle.std.specs.Prelude.{ℕ, ◌≤◌};
    ghost use Rattle.pres_ids.specs.Numbers.{greatest_number};

    ghost Value = { ℕ };

    ghost view = { λ c. c.value };

    ghost invariant = { λ c. c.value ≤ greatest_number };

    ghost inverse = { λ n. record { value = n } };
}

impl Count {
    /// The count of this value, none where it is above 2^53 - 1.
    pub fn new(value: u64) -> Option<Count>
        ensures { SomeIff result (value ≤ greatest_number) value }
    {
        if value > MAX_SAFE_INTEGER {
            return None;
        }
        Some(Count { value })
    }

    /// The count 0.
    pub fn zero() -> Count
        ensures { result ≡ 0 }
    {
        Count { value: 0 }
    }

    /// The count that ends with the number.
    pub fn up_to(last: Number) -> Count
        ensures { result ≡ last }
    {
        Count { value: last.value }
    }

    /// Its value.
    pub fn get(self) -> u64
        ensures value { result ≡ self }
        ensures bound { self ≤ greatest_number }
    {
        self.value
    }

    /// The number this many after it, none after 2^53 - 1.
    pub fn next(self) -> Option<Number>
        ensures { MatchOption result
            (self ≡ greatest_number)
            (λ n. (self < greatest_number) × (n ≡ self + 1)) }
    {
        if self.value == MAX_SAFE_INTEGER {
            return None;
        }
        Some(Number {
            value: self.value + 1,
        })
    }
}

impl fmt::Display for Count {
    fn fmt<W: fmt::Write>(&self, f: &mut fmt::Formatter<W>) -> fmt::Result {
        write!(f, "{}", self.value)
    }
}
