//! Basic writes, and how they change the tree.

ghost use Rattle.std.specs.Prelude.{◌≡◌, ◌↔◌, ◌+◌, ◌<◌, [], IsTrue, IfOk, IfErr, MatchResult, length, option_copied};
ghost use Rattle.pres_tree.specs.Paths.{max_depth};
ghost use Rattle.pres_tree.specs.Rows.{Fits, depth_of, option_of, rows_in};
ghost use Rattle.pres_tree.specs.declared.fault.TreeFault.TheVariants.{Memory};
ghost use Rattle.pres_write.specs.Basics.{Apart, basic, FitsThere, AppliesFirst, applied};
ghost use Rattle.pres_write.specs.Settling.{settled_write};
ghost use Rattle.pres_write.specs.declared.fault.WriteFault.TheVariants.{Tree as TreeRefused};

use crate::draft::{Draft, settle_at, settle_at_owned};
use crate::fault::WriteFault;
use crate::items::Items;
use crate::moment::Moment;
use pres_tree::{MAX_DEPTH, Path, Tree, TreeFault};
use std::alloc::{AllocError, Global};
use std::marker::Model;

/// One write: a value that takes the place of all that stands at the path, or none, which
/// removes it. No leaf of the value is more than `MAX_DEPTH` keys from the root, and null has one
/// form, none. Contracts see it as the record of both.
pub struct Basic {
    path: Path,
    value: Option<Tree>,
}

// Written out so that dropping a write is one step of a proof, in the crates above too.
impl Drop for Basic {
    fn drop(self) {
        let Basic { path: _, value: _ } = self;
    }
}

impl Model for Basic {
    ghost use Rattle.pres_write.specs.Basics.{BasicWrite, IsBasic};

    ghost Value = { BasicWrite };

    ghost view = { λ b. record { path = b.path; value = b.value } };

    ghost invariant = { λ b. IsBasic (record { path = b.path; value = b.value }) };
}

impl Basic {
    /// The write of the value at the path, refused as TooDeep where a leaf would stand below
    /// `MAX_DEPTH` keys. An empty value counts as none.
    pub fn new(path: Path, value: Option<Tree>) -> Result<Basic, TreeFault>
        ensures { MatchResult result
            (λ made. made ≡ basic path (rows_in value))
            (λ e. (e ≡ TreeFault.TooDeep) × (max_depth < length path + depth_of (rows_in value))) }
    {
        let value = value.unwrap_or(Tree::empty());
        if path.len() + value.depth() > MAX_DEPTH {
            drop(value);
            return Err(TreeFault::TooDeep);
        }
        Ok(Basic {
            path,
            value: some_value(value),
        })
    }

    /// The same where the value is known to fit.
    pub fn fitting(path: Path, value: Tree) -> Basic
        requires { Fits path value }
        ensures { result ≡ basic path value }
    {
        let value = some_value(value);
        Basic { path, value }
    }

    /// The path.
    pub fn path(&self) -> &Path
        ensures path { result.now ≡ self.now.path }
        ensures fits { FitsThere self.now }
    {
        &self.path
    }

    /// The value, none where the write removes.
    pub fn value(&self) -> Option<&Tree>
        ensures value { option_copied result ≡ self.now.value }
        ensures one_form { self.now.value ≡ option_of (rows_in self.now.value) }
    {
        self.value.as_ref()
    }

    /// The path and the value, which are moved.
    pub fn into_parts(self) -> (Path, Option<Tree>)
        ensures parts { result ≡ (self.path, self.value) }
        ensures fits { Fits result.0 (rows_in result.1) }
    {
        let Basic { path, value } = self;
        (path, value)
    }

    /// An equal write.
    pub fn copy(&self, alloc: Global) -> Result<Basic, AllocError>
        ensures { IfOk result (λ made. made ≡ self.now) }
    {
        Ok(Basic {
            path: self.path.copy(alloc)?,
            value: copy_value(alloc, self.value.as_ref())?,
        })
    }

    /// Whether both put the same value at the same path. It takes no memory.
    pub fn equal(&self, other: &Basic) -> bool
        ensures { IsTrue result ↔ (self.now ≡ other.now) }
    {
        self.path == other.path && equal_value(self.value.as_ref(), other.value.as_ref())
    }
}

// Whether both are the same value, or both none.
pub(crate) fn equal_value(value: Option<&Tree>, other: Option<&Tree>) -> bool
    ensures { IsTrue result ↔ (option_copied value.entry ≡ option_copied other.entry) }
{
    match value {
        Some(value) => match other {
            Some(other) => value.equal(other),
            None => false,
        },
        None => other.is_none(),
    }
}

/// Whether the writes are the same, in the same order. It takes no memory.
pub fn equal_writes(writes: &[Basic], others: &[Basic]) -> bool
    ensures { IsTrue result ↔ (writes.now ≡ others.now) }
{
    let mut rest = others.iter();
    for write in writes {
        let Some(other) = rest.next() else {
            return false;
        };
        if !write.equal(other) {
            return false;
        }
    }
    rest.next().is_none()
}

// An equal value, or none.
pub(crate) fn copy_value(alloc: Global, value: Option<&Tree>) -> Result<Option<Tree>, AllocError>
    ensures { IfOk result (λ made. made ≡ option_copied value.entry) }
{
    match value {
        Some(value) => Ok(Some(value.copy(alloc)?)),
        None => Ok(None),
    }
}

/// Equal writes.
pub fn copy_writes(alloc: Global, writes: &[Basic]) -> Result<Items<Basic>, AllocError>
    ensures { IfOk result (λ made. made ≡ writes.now) }
{
    let mut made = Vec::new(alloc);
    for write in writes {
        made.push(write.copy(alloc)?)?;
    }
    Ok(Items::of(made))
}

// The write of a draft at its path, resolved on the tree at the moment.
pub(crate) fn settled_write(
    alloc: Global,
    path: Path,
    draft: &Draft,
    tree: &Tree,
    moment: Moment,
) -> Result<Basic, AllocError>
    requires { Fits path draft.now }
    ensures { IfOk result (λ made. made ≡ settled_write tree.now moment (path, draft.now)) }
{
    let value = some_value(settle_at(alloc, draft, tree, &path, moment)?);
    Ok(Basic { path, value })
}

// The same of a draft that isn't needed any more, which is moved.
pub(crate) fn moved_write(
    alloc: Global,
    path: Path,
    draft: Draft,
    tree: &Tree,
    moment: Moment,
) -> Result<Basic, AllocError>
    requires { Fits path draft }
    ensures { IfOk result (λ made. made ≡ settled_write tree.now moment (path, draft)) }
{
    let value = settle_at_owned(alloc, draft, tree, &path, moment)?;
    Ok(Basic::fitting(path, value))
}

// Null as none.
fn some_value(value: Tree) -> Option<Tree>
    ensures { result ≡ option_of value }
{
    if value.is_empty() {
        drop(value);
        None
    } else {
        Some(value)
    }
}

/// Applies the writes in their order, with copies of their values. At Memory, the one refusal, a
/// prefix of the writes stands, none of them in part.
pub fn apply(alloc: Global, tree: &mut Tree, writes: &[Basic]) -> Result<(), WriteFault>
    ensures ok { IfOk result (λ _. tree.new ≡ applied tree.old writes.now) }
    ensures err { IfErr result
        (λ e. (e ≡ TreeRefused Memory) × AppliesFirst writes.now tree.old tree.new) }
{
    // it ensures that the tree's rows are in order
    let _ = tree.is_empty();
    for write in writes {
        let value = copy_value(alloc, write.value.as_ref())?;
        tree.set(alloc, &write.path, value)?;
    }
    Ok(())
}

/// Applies writes of which no path is at or above another's, and moves their values into the tree:
/// all of them or, at Memory, the one refusal, none.
pub fn apply_all(alloc: Global, tree: &mut Tree, writes: Items<Basic>) -> Result<(), WriteFault>
    requires { Apart writes }
    ensures ok { IfOk result (λ _. tree.new ≡ applied tree.old writes) }
    ensures err { IfErr result (λ e. (e ≡ TreeRefused Memory) × (tree.new ≡ tree.old)) }
{
    let mut writes = writes.into_vec();
    put_last_first(alloc, tree, &mut writes)
}

// The writes from the last to the first. A put is taken back where a later one is refused, and
// what is to be removed is removed once all puts stand, so that no memory is needed to undo.
fn put_last_first(alloc: Global, tree: &mut Tree, writes: &mut Vec<Basic>) -> Result<(), WriteFault>
    requires { Apart writes.old.items }
    ensures ok { IfOk result (λ _. tree.new ≡ applied tree.old writes.old.items) }
    ensures err { IfErr result (λ e. (e ≡ TreeRefused Memory) × (tree.new ≡ tree.old)) }
{
    // it ensures that the tree's rows are in order
    let _ = tree.is_empty();
    let Some(write) = writes.pop() else {
        return Ok(());
    };
    let (path, value) = write.into_parts();
    let value = value.unwrap_or(Tree::empty());
    if value.is_empty() {
        drop(value);
        put_last_first(alloc, tree, writes)?;
        tree.remove(&path);
        return Ok(());
    }
    let (depth, replaced) = tree.replace(alloc, &path, value)?;
    if let Err(fault) = put_last_first(alloc, tree, writes) {
        tree.put_back(&path, depth, replaced);
        return Err(fault);
    }
    drop(replaced);
    Ok(())
}
