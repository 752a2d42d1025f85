//! Actions, the rows of a plan, and the writes that they make.

ghost use Rattle.std.specs.Prelude.{◌≡◌, false, IfOk, option_copied};
ghost use Rattle.std.specs.List.{list_any};
ghost use Rattle.pres_tree.specs.Paths.{is_prefix};
ghost use Rattle.pres_tree.specs.Rows.{Fits, rows_in, value_at};
ghost use Rattle.pres_write.specs.Basics.{applied, basic};
ghost use Rattle.pres_write.specs.Settling.{settled};
ghost use Rattle.pres_plan.specs.Plans.{path_of, is_put, lent_row, due_write};

use pres_ids::Number;
use pres_tree::{Path, Tree};
use pres_write::{Basic, Draft, Moment, Placement, looks, settle};
use std::alloc::{AllocError, Global};

/// An action for a place.
#[derive(Drop)]
pub enum Action {
    /// The draft is written there.
    Put(Placement),
    /// The place keeps its value, which the put of a place above it would overwrite.
    Keep(Path),
}

impl Action {
    /// The place.
    pub fn path(&self) -> &Path
        ensures { result.now ≡ path_of self.now }
    {
        match self {
            Action::Put(placement) => placement.path(),
            Action::Keep(path) => path,
        }
    }

    /// Whether it writes a draft.
    pub fn is_put(&self) -> bool
        ensures { result ≡ is_put self.now }
    {
        matches!(self, Action::Put(_))
    }

    // The write that it makes at the moment, after the writes that were due before it: none of
    // these is at its path or below it.
    pub(crate) fn write(
        &self,
        alloc: Global,
        tree: &Tree,
        before: &[Basic],
        moment: Moment,
    ) -> Result<Basic, AllocError>
        requires { list_any (λ b. is_prefix (path_of self.now) b.path) before.now ≡ false }
        ensures { IfOk result (λ made. made ≡ due_write tree.now before.now moment self.now) }
    {
        match self {
            Action::Put(placement) => {
                let path = placement.path().copy(alloc)?;
                let draft = placement.draft();
                let held = held_for(tree, before, &path, draft, moment);
                let value = settle(alloc, draft, held, moment)?;
                Ok(fitting(path, value))
            }
            Action::Keep(path) => {
                let value = tree.copy_at(alloc, path)?;
                Ok(fitting(path.copy(alloc)?, value))
            }
        }
    }
}

// What the draft reads at the path after the writes, where it has an increment.
fn held_for<'a>(
    tree: &'a Tree,
    before: &'a [Basic],
    path: &Path,
    draft: &Draft,
    moment: Moment,
) -> Option<&'a Tree>
    requires { list_any (λ b. is_prefix path.now b.path) before.now ≡ false }
    ensures { settled (rows_in (option_copied result)) moment draft.now
        ≡ settled (value_at path.now (applied tree.now before.now)) moment draft.now }
{
    if looks(draft, moment) {
        held_after(tree, before, path)
    } else {
        None
    }
}

// What stands at the path after the writes, of which none is at it or below it: what the last one
// above it put there, or what the tree holds. It takes no memory.
fn held_after<'a>(tree: &'a Tree, before: &'a [Basic], path: &Path) -> Option<&'a Tree>
    requires { list_any (λ b. is_prefix path.now b.path) before.now ≡ false }
    ensures { rows_in (option_copied result) ≡ value_at path.now (applied tree.now before.now) }
{
    // it ensures that the tree's rows are in order
    let _ = tree.is_empty();
    let Some((last, earlier)) = before.split_last() else {
        return tree.at(path);
    };
    if !is_above(last, path) {
        return held_after(tree, earlier, path);
    }
    let value = last.value()?;
    // it ensures that the value's rows are in order
    let _ = value.is_empty();
    value.at_below(path, last.path().len())
}

// Whether the write, which isn't at the path or below it, is above it. Of most writes the length
// of the path tells.
fn is_above(write: &Basic, path: &Path) -> bool
    requires { is_prefix path.now write.now.path ≡ false }
    ensures { result ≡ is_prefix write.now.path path.now }
{
    write.path().len() < path.len() && write.path().is_prefix_of(path)
}

// The write of a value that may stand at the path.
fn fitting(path: Path, value: Tree) -> Basic
    requires { Fits path value }
    ensures { result ≡ basic path value }
{
    // it ensures that the path is one
    let _ = path.len();
    match Basic::new(path, Some(value)) {
        Ok(made) => made,
        Err(_) => unreachable!(),
    }
}

/// An action with the number of the message that asked for it.
#[derive(Drop)]
pub struct PlanRow {
    pub q: Number,
    pub action: Action,
}

impl PlanRow {
    /// An equal row.
    pub fn copy(&self, alloc: Global) -> Result<PlanRow, AllocError>
        ensures { IfOk result (λ made. made ≡ self.now) }
    {
        let action = match &self.action {
            Action::Put(placement) => Action::Put(placement.copy(alloc)?),
            Action::Keep(path) => Action::Keep(path.copy(alloc)?),
        };
        Ok(PlanRow { q: self.q, action })
    }

    // Its number, its path, and its draft, none where the place keeps its value.
    pub(crate) fn parts(&self) -> (Number, &Path, Option<&Draft>)
        ensures { lent_row result ≡ self.now }
    {
        match &self.action {
            Action::Put(placement) => (self.q, placement.path(), Some(placement.draft())),
            Action::Keep(path) => (self.q, path, None),
        }
    }
}

/// A write that is due at the end of a session, with the number of the message that asked for it.
#[derive(Drop)]
pub struct DueRow {
    pub q: Number,
    pub basic: Basic,
}
