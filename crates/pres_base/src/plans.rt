//! Plans made from the rows of a base.

ghost use Rattle.std.specs.Prelude.{◌≡◌, ◌++◌, ◌∷◌, [], IfOk, OnOk};
ghost use Rattle.pres_plan.specs.Plans.{IsPlan};

use pres_plan::{Action, Plan, PlanFault, PlanRow};
use std::alloc::{AllocError, Global};

// The plan with the row too, which comes after its rows and covers none of them.
fn add_row(alloc: Global, plan: &mut Plan, row: PlanRow) -> Result<(), AllocError>
    requires { IsPlan (plan.old ++ row ∷ []) }
    ensures { OnOk result (plan.new ≡ plan.old ++ row ∷ []) }
{
    let PlanRow { q, action } = row;
    let left = match action {
        Action::Put(placement) => plan.put(alloc, q, placement),
        Action::Keep(path) => plan.cancel(alloc, q, &path),
    };
    match left {
        Ok(()) => Ok(()),
        Err(PlanFault::Memory) => Err(AllocError),
        Err(PlanFault::Full) => unreachable!(),
    }
}

/// The plan of the rows, of which it keeps copies.
pub fn plan_of_rows(alloc: Global, rows: &[PlanRow]) -> Result<Plan, AllocError>
    requires { IsPlan rows.now }
    ensures { IfOk result (λ plan. plan ≡ rows.now) }
{
    let mut plan = Plan::new(alloc);
    for row in rows {
        add_row(alloc, &mut plan, row.copy(alloc)?)?;
    }
    Ok(plan)
}
