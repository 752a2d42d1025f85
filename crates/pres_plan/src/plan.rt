//! Plans: the rows that a session leaves.

ghost use Rattle.std.specs.Prelude.{◌≡◌, ◌↔◌, ◌<◌, ◌≤◌, ◌++◌, ◌∷◌, ℕ, [], All, false, length, map, nat_le, if◌then◌else◌, IfOk, IfErr, IsErrOf, OnOk, OnErr};
ghost use Rattle.std.specs.List.{list_any};
ghost use Rattle.std.specs.List.Sorted.{IsStrictlySortedBy};
ghost use Rattle.pres_tree.specs.Paths.{overlap};
ghost use Rattle.pres_plan.specs.Plans.{IsPlan, most_rows, row_cmp, ComesLast, puts_above, plan_of, puts, cancels, due, due_rows};
ghost use Rattle.pres_plan.specs.declared.fault.PlanFault.TheVariants.{Full, Memory};

use crate::fault::PlanFault;
use crate::row::{Action, DueRow, PlanRow};
use crate::rows::PlanRows;
use crate::standing::Standing;
use pres_ids::Number;
use pres_session::Pays;
use pres_tree::{Path, Tree};
use pres_write::{Basic, Items, Moment, Placement, Puts};
use std::alloc::{AllocError, Global};
use std::marker::Model;
use std::slice::from_ref;

/// The most rows of a plan.
pub const MOST_ROWS: usize = 256;

/// What a session leaves: the rows that result from its puts, updates and cancels, at most
/// `MOST_ROWS`. Contracts see the list of the rows, in the order of the messages that asked for
/// them. They are found by their paths, so a put or a cancel looks at no row but those that it
/// meets.
#[derive(Drop)]
pub struct Plan {
    standing: Standing,
}

impl Model for Plan {
    ghost use Rattle.std.specs.Prelude.{List};
    ghost use Rattle.std.specs.Map.{values_of};
    ghost use Rattle.pres_plan.specs.declared.row.PlanRow.{PlanRow};
    ghost use Rattle.pres_plan.specs.Standing.{IsStanding};

    ghost Value = { List PlanRow };

    ghost view = { λ p. values_of p.standing.rows };

    ghost invariant = { λ p. IsStanding p.standing.rows p.standing.places };
}

impl Pays for Plan {
    ghost use Rattle.pres_plan.specs.Plans.{due};

    ghost owed = { λ plan tree moment. due tree moment plan };
}

impl Plan {
    /// The plan of a session that left nothing. It takes no memory.
    pub fn new(alloc: Global) -> Plan
        ensures { result ≡ [] }
    {
        Plan {
            standing: Standing::new(alloc),
        }
    }

    /// Its rows, in the order of their messages, and those of one message in path order. They take
    /// no memory.
    pub fn rows(&self) -> PlanRows<'_>
        ensures rows { result ≡ self.now }
        ensures plan { plan_of self.now ≡ self.now }
        ensures few { length self.now ≤ most_rows }
        ensures in_order { IsStrictlySortedBy row_cmp self.now }
    {
        PlanRows::of(self.standing.rows.as_slice())
    }

    /// Copies of its rows, in order. Memory is the one refusal.
    pub fn copy_rows(&self, alloc: Global) -> Result<Vec<PlanRow>, AllocError>
        ensures rows { IfOk result (λ made. made.items ≡ self.now) }
        ensures plan { IsPlan self.now }
    {
        let mut made = Vec::with_capacity(alloc, self.standing.rows.len())?;
        for (_, row) in self.standing.rows.as_slice() {
            made.push(row.copy(alloc)?)?;
        }
        Ok(made)
    }

    /// Whether an update of these places leaves at most `MOST_ROWS` rows.
    pub fn may_update(&self, placements: &Puts) -> bool
        ensures { (q : ℕ) →
            result ≡ nat_le (length (plan_of (self.now ++ puts q placements.now))) most_rows }
    {
        self.has_room(placements.as_slice())
    }

    // Whether puts of these placements, of which none is at or above another, leave at most
    // `MOST_ROWS` rows.
    fn has_room(&self, placements: &[Placement]) -> bool
        requires { overlap (map (λ p. p.0) placements.now) ≡ false }
        ensures { (q : ℕ) →
            result ≡ nat_le (length (plan_of (self.now ++ puts q placements.now))) most_rows }
    {
        let rows = self.standing.rows.len();
        let covered = self.standing.count_covered(placements);
        let left = rows - covered;
        placements.len() <= MOST_ROWS - left
    }

    /// Whether a cancel of the path leaves at most `MOST_ROWS` rows.
    pub fn may_cancel(&self, path: &Path) -> bool
        ensures { (q : ℕ) →
            result ≡ nat_le (length (plan_of (self.now ++ cancels q path.now))) most_rows }
    {
        let rows = self.standing.rows.len();
        let below = self.standing.count_below(path);
        let left = rows - below;
        left < MOST_ROWS || !self.has_put_above(path)
    }

    // Whether a row puts a draft above the path.
    fn has_put_above(&self, path: &Path) -> bool
        ensures { result ≡ list_any (puts_above path.now) self.now }
    {
        self.standing.top_above(path).is_some()
    }

    /// Registers a draft, which replaces all that was registered at the path and below it. Full if
    /// the plan would have more than `MOST_ROWS` rows.
    pub fn put(&mut self, alloc: Global, q: Number, placement: Placement) -> Result<(), PlanFault>
        requires last { ComesLast q placement.0 self.old }
        ensures ok { OnOk result (self.new ≡ plan_of (self.old ++ puts q (placement ∷ []))) }
        ensures full { IsErrOf result Full
            ↔ (most_rows < length (plan_of (self.old ++ puts q (placement ∷ [])))) }
        ensures unchanged { OnErr result (self.new ≡ self.old) }
    {
        if !self.has_room(from_ref(&placement)) {
            return Err(PlanFault::Full);
        }
        let action = Action::Put(placement);
        let rows = Items::one(alloc, PlanRow { q, action })?.into_vec();
        self.standing.replace(alloc, rows)?;
        Ok(())
    }

    /// Registers drafts at several places, as puts in path order. Full if the plan would have more
    /// than `MOST_ROWS` rows.
    pub fn update(&mut self, alloc: Global, q: Number, placements: Puts) -> Result<(), PlanFault>
        requires last { All (λ p. ComesLast q p.0 self.old) placements }
        ensures ok { OnOk result (self.new ≡ plan_of (self.old ++ puts q placements)) }
        ensures full { IsErrOf result Full
            ↔ (most_rows < length (plan_of (self.old ++ puts q placements))) }
        ensures unchanged { OnErr result (self.new ≡ self.old) }
    {
        if !self.may_update(&placements) {
            return Err(PlanFault::Full);
        }
        let rows = put_rows(alloc, q, placements.into_items())?;
        self.standing.replace(alloc, rows)?;
        Ok(())
    }

    /// Cancels what was registered at the path and below it. If a put above the path stays, a row
    /// lets the place keep its value; Full if the plan would have more than `MOST_ROWS` rows.
    pub fn cancel(&mut self, alloc: Global, q: Number, path: &Path) -> Result<(), PlanFault>
        requires last { ComesLast q path.now self.old }
        ensures ok { OnOk result (self.new ≡ plan_of (self.old ++ cancels q path.now)) }
        ensures full { IsErrOf result Full
            ↔ (most_rows < length (plan_of (self.old ++ cancels q path.now))) }
        ensures unchanged { OnErr result (self.new ≡ self.old) }
    {
        if !self.has_put_above(path) {
            self.standing.take_back(alloc, path)?;
            return Ok(());
        }
        if !self.may_cancel(path) {
            return Err(PlanFault::Full);
        }
        let action = Action::Keep(path.copy(alloc)?);
        let rows = Items::one(alloc, PlanRow { q, action })?.into_vec();
        self.standing.replace(alloc, rows)?;
        Ok(())
    }

    /// What is due if the session ends with this tree at the moment, in the order of the rows.
    /// Memory is the one refusal.
    pub fn due(&self, alloc: Global, tree: &Tree, moment: Moment) -> Result<Vec<DueRow>, PlanFault>
        ensures rows { IfOk result (λ made. made.items ≡ due_rows tree.now moment self.now) }
        ensures err { IfErr result (λ e. e ≡ Memory) }
    {
        let writes = self.due_writes(alloc, tree, moment)?.into_vec();
        let mut made = Vec::with_capacity(alloc, writes.len())?;
        let mut rest = writes.into_iter();
        for (_, row) in self.standing.rows.as_slice() {
            let Some(basic) = rest.next() else {
                unreachable!();
            };
            made.push(DueRow { q: row.q, basic })?;
        }
        Ok(made)
    }

    /// The writes alone of what is due. The numbers of their messages are those of the rows.
    pub fn due_writes(
        &self,
        alloc: Global,
        tree: &Tree,
        moment: Moment,
    ) -> Result<Items<Basic>, PlanFault>
        ensures writes { IfOk result (λ made. made ≡ due tree.now moment self.now) }
        ensures err { IfErr result (λ e. e ≡ Memory) }
    {
        let mut writes = Vec::with_capacity(alloc, self.standing.rows.len())?;
        for (_, row) in self.standing.rows.as_slice() {
            let write = row.action.write(alloc, tree, writes.as_slice(), moment)?;
            writes.push(write)?;
        }
        Ok(Items::of(writes))
    }
}

// A row for each put.
fn put_rows(
    alloc: Global,
    q: Number,
    placements: Items<Placement>,
) -> Result<Vec<PlanRow>, AllocError>
    ensures { IfOk result (λ made. made.items ≡ puts q placements) }
{
    let mut made = Vec::new(alloc);
    for placement in placements.into_vec() {
        let action = Action::Put(placement);
        made.push(PlanRow { q, action })?;
    }
    Ok(made)
}
