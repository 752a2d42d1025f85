//! A plan as a plain list of rows, each of which is looked at for each call.

use pres_ids::Number;
use pres_plan::{Action, MOST_ROWS, PlanFault, PlanRow};
use pres_tree::{Path, Tree, TreeFault};
use pres_write::{Basic, Draft, Moment, Placement, Puts, apply, settle};
use std::alloc::{AllocError, Global};
use std::slice::from_ref;

/// The rows, in the order of their messages.
#[derive(Drop)]
pub(crate) struct ListPlan {
    pub(crate) rows: Vec<PlanRow>,
}

/// Its number, its path and its draft, none where the place keeps its value.
pub(crate) fn parts(row: &PlanRow) -> (Number, &Path, Option<&Draft>) {
    match &row.action {
        Action::Put(placement) => (row.q, placement.path(), Some(placement.draft())),
        Action::Keep(path) => (row.q, path, None),
    }
}

fn is_replaced(row: &PlanRow, placements: &[Placement]) -> bool {
    for placement in placements {
        if placement.path().is_prefix_of(row.action.path()) {
            return true;
        }
    }
    false
}

fn is_put_above(row: &PlanRow, path: &Path) -> bool {
    let place = row.action.path();
    row.action.is_put() && place.is_prefix_of(path) && !path.is_prefix_of(place)
}

// What the action writes, where the session's end found the first tree and its rows before this
// one left the second.
fn written(
    alloc: Global,
    action: &Action,
    tree: &Tree,
    after: &Tree,
    moment: Moment,
) -> Result<Basic, TreeFault> {
    let path = action.path().copy(alloc)?;
    let value = match action {
        Action::Put(placement) => settle(alloc, placement.draft(), after.at(&path), moment)?,
        Action::Keep(place) => tree.copy_at(alloc, place)?,
    };
    Basic::new(path, Some(value))
}

impl ListPlan {
    pub(crate) fn new(alloc: Global) -> ListPlan {
        ListPlan {
            rows: Vec::new(alloc),
        }
    }

    fn count_left(&self, placements: &[Placement]) -> usize {
        self.rows
            .iter()
            .filter(|row| !is_replaced(row, placements))
            .count()
    }

    fn has_put_above(&self, path: &Path) -> bool {
        self.rows.iter().any(|row| is_put_above(row, path))
    }

    pub(crate) fn may_update(&self, placements: &[Placement]) -> bool {
        placements.len() <= MOST_ROWS.saturating_sub(self.count_left(placements))
    }

    pub(crate) fn may_cancel(&self, path: &Path) -> bool {
        let left = self
            .rows
            .iter()
            .filter(|row| !path.is_prefix_of(row.action.path()))
            .count();
        left < MOST_ROWS || !self.has_put_above(path)
    }

    // The drafts, in the place of all rows at their paths and below them.
    pub(crate) fn update(&mut self, q: Number, puts: Puts) -> Result<(), PlanFault> {
        if !self.may_update(puts.as_slice()) {
            return Err(PlanFault::Full);
        }
        self.rows.retain(|row| !is_replaced(row, puts.as_slice()));
        for placement in puts.into_items().into_vec() {
            let action = Action::Put(placement);
            self.rows.push(PlanRow { q, action })?;
        }
        Ok(())
    }

    // What was left at the path and below it is taken back.
    pub(crate) fn cancel(
        &mut self,
        alloc: Global,
        q: Number,
        path: &Path,
    ) -> Result<(), PlanFault> {
        if !self.may_cancel(path) {
            return Err(PlanFault::Full);
        }
        let keeps = self.has_put_above(path);
        self.rows
            .retain(|row| !path.is_prefix_of(row.action.path()));
        if keeps {
            let action = Action::Keep(path.copy(alloc)?);
            self.rows.push(PlanRow { q, action })?;
        }
        Ok(())
    }

    // The writes of the rows.
    pub(crate) fn due(
        &self,
        alloc: Global,
        tree: &Tree,
        moment: Moment,
    ) -> Result<Vec<(Number, Basic)>, TreeFault> {
        let mut made = Vec::new(alloc);
        let mut after = tree.copy(alloc)?;
        for row in &self.rows {
            let write = written(alloc, &row.action, tree, &after, moment)?;
            let Ok(()) = apply(alloc, &mut after, from_ref(&write)) else {
                return Err(TreeFault::Memory);
            };
            made.push((row.q, write))?;
        }
        Ok(made)
    }
}
