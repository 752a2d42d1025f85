//! Values whose leaves are changed by what another value holds at their places.

ghost use Rattle.std.specs.Prelude.{◌≡◌, ◌∷◌, [], MatchOption, IfOk, false};
ghost use Rattle.std.specs.BTreeMap.{IsOrdered};
ghost use Rattle.pres_tree.specs.Keys.{key_cmp};
ghost use Rattle.pres_tree.specs.Rows.{Rows, value_at, with_leaves, children_with};
ghost use Rattle.pres_tree.specs.LeavesOn.{leaves_on, children_on};

use crate::children::Children;
use crate::key::Key;
use crate::nested::{Change, Nested, Node};
use std::alloc::{AllocError, Global};

/// How a leaf is made of one of another kind and of what its place holds.
pub trait ChangeOn<L, M>: Change<L, M> {
    ghost use Rattle.std.specs.Prelude.{◌≡◌, false, Option, Some, None, IfOk};

    ghost makes_on: { Self → Option M → L → M };

    /// Whether it matters what the place holds. It takes no memory.
    fn looks(&self, leaf: &L) -> bool
        ensures { result ≡ false → (held : Option M)
            → makes_on self.now held leaf.now ≡ Self.makes self.now leaf.now };

    /// The leaf of the other kind, where the place holds this one.
    fn change_on(&self, alloc: Global, leaf: &L, held: &M) -> Result<M, AllocError>
        ensures { IfOk result (λ made. made ≡ makes_on self.now (Some held.now) leaf.now) };

    // Where the place holds nothing, the leaf is changed alone.
    ghost alone: { (how : Self) (leaf : L)
        → makes_on how None leaf ≡ Self.Change.makes how leaf };
}

impl<L> Nested<L> {
    /// Whether it matters to one of the leaves what its place holds. It takes no memory.
    #[cycle(looks)]
    pub fn looks<M, C: ChangeOn<L, M>>(&self, how: &C) -> bool
        ensures { result ≡ false → (held : Rows M)
            → leaves_on (C.makes_on how.now) held self.now ≡ with_leaves (C.makes how.now) self.now }
    {
        match &self.node {
            Node::Empty => false,
            Node::Leaf(leaf) => how.looks(leaf),
            Node::Object(children) => one_looks(children, how),
        }
    }
}

// Whether it matters to a leaf of one of the children what its place holds.
#[cycle(looks)]
fn one_looks<L, M, C: ChangeOn<L, M>>(children: &Children<Nested<L>>, how: &C) -> bool
    ensures { result ≡ false → (held : Rows M)
        → children_on (C.makes_on how.now) held children.now.entries
        ≡ children_with (C.makes how.now) children.now.entries }
{
    for (_, child) in children.iter() {
        if child.looks(how) {
            return true;
        }
    }
    false
}

// The child at the key, where there is one.
fn child_at<'a, M>(held: &'a Nested<M>, key: &Key) -> Option<&'a Nested<M>>
    ensures { MatchOption result
        (value_at (key.now ∷ []) held.now ≡ [])
        (λ t. value_at (key.now ∷ []) held.now ≡ t.now) }
{
    match &held.node {
        Node::Object(children) => children.get(key),
        _ => None,
    }
}

impl<L> Nested<L> {
    /// The value with each leaf changed by what its place holds, made in one walk over both.
    #[cycle(changed_on)]
    pub fn changed_on<M: Drop, C: ChangeOn<L, M>>(
        &self,
        alloc: Global,
        held: &Nested<M>,
        how: &C,
    ) -> Result<Nested<M>, AllocError>
        ensures { IfOk result (λ t. t ≡ leaves_on (C.makes_on how.now) held.now self.now) }
    {
        match &self.node {
            Node::Empty => Ok(Nested::empty()),
            Node::Leaf(leaf) => match held.as_scalar() {
                Some(held) => Ok(Nested::scalar(how.change_on(alloc, leaf, held)?)),
                None => Ok(Nested::scalar(how.change(alloc, leaf)?)),
            },
            Node::Object(children) => {
                let changed = changed_children(alloc, children, held, how)?;
                Ok(Nested {
                    node: Node::Object(changed),
                })
            }
        }
    }

    // The same of the child at the key, by what is held below that key.
    #[cycle(changed_on)]
    fn changed_below<M: Drop, C: ChangeOn<L, M>>(
        &self,
        alloc: Global,
        key: &Key,
        held: &Nested<M>,
        how: &C,
    ) -> Result<Nested<M>, AllocError>
        ensures { IfOk result (λ t.
            t ≡ leaves_on (C.makes_on how.now) (value_at (key.now ∷ []) held.now) self.now) }
    {
        match child_at(held, key) {
            Some(below) => self.changed_on(alloc, below, how),
            None => self.changed(alloc, how),
        }
    }
}

#[cycle(changed_on)]
fn changed_children<L, M: Drop, C: ChangeOn<L, M>>(
    alloc: Global,
    children: &Children<Nested<L>>,
    held: &Nested<M>,
    how: &C,
) -> Result<Children<Nested<M>>, AllocError>
    ensures entries { IfOk result (λ m.
        m.entries ≡ children_on (C.makes_on how.now) held.now children.now.entries) }
    ensures ordered { IfOk result (λ m. IsOrdered key_cmp m) }
{
    let mut changed = Children::new(alloc);
    for (key, child) in children.iter() {
        let name = key.copy(alloc)?;
        drop(changed.insert(alloc, name, child.changed_below(alloc, key, held, how)?)?);
    }
    Ok(changed)
}
