//! Rows in the order of their numbers.

ghost use Rattle.std.specs.Prelude.{◌≡◌, ◌<◌, ◌==◌, ◌++◌, ◌∷◌, [], All, not, length, filter, IfSome, MatchOption, OnOk, OnErr};
ghost use Rattle.std.specs.List.Sorted.{IsStrictlySortedBy};
ghost use Rattle.std.specs.Map.{keys_of, lookup};
ghost use Rattle.std.specs.BTreeMap.{is_at};
ghost use Rattle.std.specs.Ordering.{nat_cmp};

use crate::row::PlanRow;
use std::alloc::{AllocError, Global};
use std::marker::Model;

/// Rows with their numbers, in one list, which binary search reads: a plan has few. Contracts see
/// the list, in the order of the numbers.
#[derive(Drop)]
pub(crate) struct Numbered {
    list: Vec<(u64, PlanRow)>,
}

impl Model for Numbered {
    ghost use Rattle.std.specs.List.Sorted.{IsStrictlySortedBy};
    ghost use Rattle.std.specs.Map.{keys_of};
    ghost use Rattle.std.specs.Ordering.{nat_cmp};
    ghost use Rattle.pres_plan.specs.Standing.{Entries};

    ghost Value = { Entries };

    ghost view = { λ n. n.list.items };

    ghost invariant = { λ n. IsStrictlySortedBy nat_cmp (keys_of n.list.items) };
}

impl Numbered {
    // None. It takes no memory.
    pub(crate) fn new(alloc: Global) -> Numbered
        ensures { result ≡ [] }
    {
        Numbered {
            list: Vec::new(alloc),
        }
    }

    // How many there are.
    pub(crate) fn len(&self) -> usize
        ensures len { result ≡ length self.now }
        ensures ordered { IsStrictlySortedBy nat_cmp (keys_of self.now) }
    {
        self.list.len()
    }

    // The rows with their numbers, in order.
    pub(crate) fn as_slice(&self) -> &[(u64, PlanRow)]
        ensures { result.now ≡ self.now }
    {
        self.list.as_slice()
    }

    // A number after those of all rows. None is left after 2^64 rows; that is refused as a failed
    // allocation is.
    pub(crate) fn next_number(&self) -> Option<u64>
        ensures { IfSome result (λ n. All (λ e. e.0 < n) self.now) }
    {
        match self.list.last() {
            Some((last, _)) => last.checked_add(1),
            None => Some(0),
        }
    }

    // Puts the row last. At a refusal nothing has changed.
    pub(crate) fn push(&mut self, number: u64, row: PlanRow) -> Result<(), AllocError>
        requires { All (λ e. e.0 < number) self.old }
        ensures pushed { OnOk result (self.new ≡ self.old ++ (number, row) ∷ []) }
        ensures unchanged { OnErr result (self.new ≡ self.old) }
    {
        self.list.push((number, row))?;
        Ok(())
    }

    // Takes the last row. It takes no memory.
    pub(crate) fn pop(&mut self) -> Option<(u64, PlanRow)>
        ensures last { MatchOption result (self.old ≡ []) (λ e. self.old ≡ self.new ++ e ∷ []) }
        ensures ordered { IsStrictlySortedBy nat_cmp (keys_of self.old) }
    {
        self.list.pop()
    }

    // Takes the row of the number, if there is one. It takes no memory.
    pub(crate) fn remove(&mut self, number: u64) -> Option<PlanRow>
        ensures row { result ≡ lookup (is_at (nat_cmp number)) self.old }
        ensures left { self.new ≡ filter (λ e. not (number == e.0)) self.old }
        ensures ordered { IsStrictlySortedBy nat_cmp (keys_of self.old) }
    {
        let at = self.list.partition_point(|entry| entry.0 < number);
        match self.list.get(at) {
            Some(entry) if entry.0 == number => Some(self.list.remove(at).1),
            _ => None,
        }
    }
}
