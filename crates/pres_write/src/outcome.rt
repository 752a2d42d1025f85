//! Outcomes of operations.

ghost use Rattle.std.specs.Prelude.{◌≡◌, ◌↔◌, IsTrue, IfOk};
ghost use Rattle.pres_tree.specs.Rows.{Fits};
ghost use Rattle.pres_write.specs.Basics.{Apart};
ghost use Rattle.pres_write.specs.Outcomes.{kept_of, resolved, writes_in};
ghost use Rattle.pres_write.specs.declared.op.Op.TheVariants.{Set};

use crate::basic::{
    Basic, copy_value, copy_writes, equal_value, equal_writes, moved_write, settled_write,
};
use crate::draft::Draft;
use crate::items::Items;
use crate::moment::Moment;
use pres_tree::{Path, Tree};
use std::alloc::{AllocError, Global};

/// The outcome of an operation at a moment.
#[derive(Drop)]
pub enum Outcome {
    /// These writes, of which no path is at or above another's.
    Wrote(Items<Basic>),
    /// Nothing: the place of a transaction held this value, and not the expected one.
    Stale(Option<Tree>),
}

/// An outcome without its writes.
#[derive(Drop)]
pub enum Kept {
    Wrote,
    Stale(Option<Tree>),
}

impl Outcome {
    /// The outcome without its writes.
    pub fn kept(&self, alloc: Global) -> Result<Kept, AllocError>
        ensures { IfOk result (λ kept. kept ≡ kept_of self.now) }
    {
        match self {
            Outcome::Wrote(_) => Ok(Kept::Wrote),
            Outcome::Stale(held) => Ok(Kept::Stale(copy_value(alloc, held.as_ref())?)),
        }
    }

    /// An equal outcome.
    pub fn copy(&self, alloc: Global) -> Result<Outcome, AllocError>
        ensures { IfOk result (λ made. made ≡ self.now) }
    {
        match self {
            Outcome::Wrote(writes) => Ok(Outcome::Wrote(copy_writes(alloc, writes.as_slice())?)),
            Outcome::Stale(held) => Ok(Outcome::Stale(copy_value(alloc, held.as_ref())?)),
        }
    }

    /// Whether both are the same. It takes no memory.
    pub fn equal(&self, other: &Outcome) -> bool
        ensures { IsTrue result ↔ (self.now ≡ other.now) }
    {
        match self {
            Outcome::Wrote(writes) => match other {
                Outcome::Wrote(others) => equal_writes(writes.as_slice(), others.as_slice()),
                Outcome::Stale(_) => false,
            },
            Outcome::Stale(held) => match other {
                Outcome::Wrote(_) => false,
                Outcome::Stale(other) => equal_value(held.as_ref(), other.as_ref()),
            },
        }
    }
}

impl Kept {
    /// An equal outcome.
    pub fn copy(&self, alloc: Global) -> Result<Kept, AllocError>
        ensures { IfOk result (λ made. made ≡ self.now) }
    {
        match self {
            Kept::Wrote => Ok(Kept::Wrote),
            Kept::Stale(held) => Ok(Kept::Stale(copy_value(alloc, held.as_ref())?)),
        }
    }
}

// The value of the draft at its path on the tree at the moment.
pub(crate) fn one_write(
    alloc: Global,
    path: Path,
    draft: &Draft,
    tree: &Tree,
    moment: Moment,
) -> Result<Outcome, AllocError>
    requires { Fits path draft.now }
    ensures outcome { IfOk result (λ outcome.
        outcome ≡ resolved tree.now moment (Set (path, draft.now))) }
    ensures apart { IfOk result (λ outcome. Apart (writes_in outcome)) }
{
    let write = settled_write(alloc, path, draft, tree, moment)?;
    Ok(Outcome::Wrote(Items::one(alloc, write)?))
}

// The same of a draft that isn't needed any more, which is moved.
pub(crate) fn one_moved(
    alloc: Global,
    path: Path,
    draft: Draft,
    tree: &Tree,
    moment: Moment,
) -> Result<Outcome, AllocError>
    requires { Fits path draft }
    ensures outcome { IfOk result (λ outcome.
        outcome ≡ resolved tree.now moment (Set (path, draft))) }
    ensures apart { IfOk result (λ outcome. Apart (writes_in outcome)) }
{
    let write = moved_write(alloc, path, draft, tree, moment)?;
    Ok(Outcome::Wrote(Items::one(alloc, write)?))
}
