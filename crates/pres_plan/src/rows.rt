//! Walks through the rows of a plan.

ghost use Rattle.std.specs.Prelude.{◌≡◌, length};
ghost use Rattle.std.specs.Map.{values_of};
ghost use Rattle.std.specs.Iterator.{at_most};
ghost use Rattle.std.specs.Map.Iter.{TakesFirst};
ghost use Rattle.pres_plan.specs.Plans.{lent_row};

use crate::row::PlanRow;
use pres_ids::Number;
use pres_tree::Path;
use pres_write::Draft;
use std::marker::Model;

/// The rows of a plan that are left to go over, in order: of each the number of the message that
/// asked for it, its path, and its draft, none where the place keeps its value. Contracts see the
/// list of the rows.
#[derive(Drop)]
pub struct PlanRows<'a> {
    rest: &'a [(u64, PlanRow)],
}

impl<'a> Model for PlanRows<'a> {
    ghost use Rattle.std.specs.Prelude.{List};
    ghost use Rattle.std.specs.Map.{values_of};
    ghost use Rattle.pres_plan.specs.declared.row.PlanRow.{PlanRow};

    ghost Value = { List PlanRow };

    ghost view = { λ it. values_of it.rest.now };
}

impl<'a> PlanRows<'a> {
    // Those of the list.
    pub(crate) fn of(rows: &'a [(u64, PlanRow)]) -> PlanRows<'a>
        ensures { result ≡ values_of rows.now }
    {
        PlanRows { rest: rows }
    }
}

impl<'a> Iterator for PlanRows<'a> {
    type Item = (Number, &'a Path, Option<&'a Draft>);

    ghost next_gives = { TakesFirst lent_row };

    ghost remaining = { λ s. at_most (length s) };

    fn next(&mut self) -> Option<(Number, &'a Path, Option<&'a Draft>)> {
        let ((_, row), rest) = self.rest.split_first()?;
        self.rest = rest;
        Some(row.parts())
    }
}
