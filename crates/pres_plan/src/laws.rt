//! Laws of plans, for the crates that keep logs of actions.

ghost use Rattle.std.specs.Prelude.{ℕ, List};
ghost use Rattle.pres_tree.specs.Paths.{Path};
ghost use Rattle.pres_tree.specs.Rows.{Rows};
ghost use Rattle.pres_tree.specs.declared.scalar.Scalar.{Scalar};
ghost use Rattle.pres_plan.specs.Plans.{PlanGrows, CancelKeeps};
ghost use Rattle.pres_plan.specs.declared.row.PlanRow.{PlanRow};

/// To add actions to a plan is to plan all actions: its rows stand for what made them.
pub fn plans_grow()
    ensures { (old new : List PlanRow) → PlanGrows old new }
{}

/// A cancelled place that no later action meets holds after the due writes what it held before.
pub fn cancels_keep()
    ensures { (tree : Rows Scalar) (moment q : ℕ) (path : Path) (before later : List PlanRow)
        → CancelKeeps tree moment before q path later }
{}
