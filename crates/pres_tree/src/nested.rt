//! Values: nothing, one leaf, or values under keys.

ghost use Rattle.std.specs.Prelude.{◌≡◌, ◌∷◌, ◌≤◌, MatchOption, IfOk, IfErr, false, [], length, take, drop, option_map};
ghost use Rattle.std.specs.BTreeMap.{IsOrdered};
ghost use Rattle.pres_tree.specs.declared.fault.TreeFault.TheVariants.{Memory};
ghost use Rattle.pres_tree.specs.Keys.{key_cmp};
ghost use Rattle.pres_tree.specs.Paths.{path_cmp, sorted_by};
ghost use Rattle.pres_tree.specs.Layer.{Children as AreChildren, IsNode, child_rows, deepest_of, rows_of_node};
ghost use Rattle.pres_tree.specs.Rows.{IsValue, Fits, is_null, leaf_at, value_at, depth_of, with_leaves, children_with, rows_in};
ghost use Rattle.pres_tree.specs.Writes.{Undoes, write, after};

use crate::children::Children;
use crate::fault::TreeFault;
use crate::key::Key;
use crate::path::Path;
use std::alloc::{AllocError, Global};
use std::marker::Model;
use std::mem::replace;

/// What may stand at a place of a value. A separate form says how JSON writes it, so that code that
/// names no JSON needn't know it.
pub trait Leaf: Drop {
    ghost use Rattle.std.specs.Prelude.{◌≡◌, ◌↔◌, IsTrue, IfOk};

    /// An equal leaf.
    fn copy(&self, alloc: Global) -> Result<Self, AllocError>
        ensures { IfOk result (λ made. made ≡ self.now) };

    /// Whether both are the same leaf.
    fn equal(&self, other: &Self) -> bool
        ensures { IsTrue result ↔ (self.now ≡ other.now) };
}

/// A value over leaves of the type `L`: null, one leaf, or values under keys. Null has one form:
/// no object stands without children, and no child is null.
#[cycle(tree)]
pub struct Nested<L> {
    pub(crate) node: Node<L>,
}

#[cycle(tree)]
#[derive(Drop)]
pub(crate) enum Node<L> {
    Empty,
    Leaf(L),
    Object(Children<Nested<L>>),
}

// Written out so that dropping a value is one step of a proof, whatever it holds.
impl<L: Drop> Drop for Nested<L> {
    #[cycle(dropped)]
    fn drop(self) {
        let Nested { node } = self;
        drop(node);
    }
}

impl<L> Model for Nested<L> {
    ghost use Rattle.pres_tree.specs.Rows.{Rows, height};

    ghost Value = { Rows L };

    ghost use Rattle.pres_tree.specs.Layer.{rows_of_node, IsNode};

    ghost view = { λ t. rows_of_node t.node };

    ghost invariant = { λ t. IsNode t.node };

    ghost size = { height };

    ghost use Rattle.pres_tree.specs.Falls.{falls};

    ghost size_decreases = { λ t h. falls t.node h };
}

impl<L> Nested<L> {
    /// Null.
    pub fn empty() -> Nested<L>
        ensures { result ≡ [] }
    {
        Nested { node: Node::Empty }
    }

    /// The value that is one leaf.
    pub fn scalar(leaf: L) -> Nested<L>
        ensures { result ≡ ([], leaf) ∷ [] }
    {
        Nested {
            node: Node::Leaf(leaf),
        }
    }

    /// Whether it is null.
    pub fn is_empty(&self) -> bool
        ensures null { result ≡ is_null self.now }
        ensures value { IsValue self.now }
    {
        matches!(&self.node, Node::Empty)
    }

    /// The leaf that is all of it.
    pub fn as_scalar(&self) -> Option<&L>
        ensures { option_map (λ leaf. leaf.now) result ≡ leaf_at self.now [] }
    {
        match &self.node {
            Node::Leaf(leaf) => Some(leaf),
            _ => None,
        }
    }

    /// The value at the path, where something stands there: the value of a null is `None`.
    pub fn at(&self, path: &Path) -> Option<&Nested<L>>
        ensures { MatchOption result
            (value_at path.now self.now ≡ [])
            (λ t. (is_null t.now ≡ false) × IsValue t.now × (value_at path.now self.now ≡ t.now)) }
    {
        self.find(path.keys())
    }

    /// What stands at the path without its first keys: without this many of them, or all.
    pub fn at_below(&self, path: &Path, depth: usize) -> Option<&Nested<L>>
        ensures { MatchOption result
            (value_at (drop depth path.now) self.now ≡ [])
            (λ t. (is_null t.now ≡ false) × IsValue t.now
            × (value_at (drop depth path.now) self.now ≡ t.now)) }
    {
        self.find(without_first(path.keys(), depth))
    }

    // The value at the place that the keys name, where something stands there.
    fn find(&self, keys: &[Key]) -> Option<&Nested<L>>
        ensures { MatchOption result
            (value_at keys.now self.now ≡ [])
            (λ t. (is_null t.now ≡ false) × IsValue t.now × (value_at keys.now self.now ≡ t.now)) }
    {
        match keys.split_first() {
            None => { if self.is_empty() { None } else { Some(self) } }
            Some((key, rest)) => match &self.node {
                Node::Object(children) => match children.get(key) {
                    Some(child) => child.find(rest),
                    None => None,
                },
                _ => None,
            },
        }
    }

    /// The most keys from its root to a leaf, 0 for null and for a leaf alone.
    #[cycle(depth)]
    pub fn depth(&self) -> usize
        ensures depth { result ≡ depth_of self.now }
        ensures value { IsValue self.now }
    {
        match &self.node {
            Node::Object(children) => deepest(children),
            _ => 0,
        }
    }
}

// The most keys to a leaf, from the root above these children.
#[cycle(depth)]
fn deepest<L>(children: &Children<Nested<L>>) -> usize
    ensures { result ≡ deepest_of children.now.entries }
{
    let mut deepest = 0;
    for (_, child) in children.iter() {
        let depth = child.depth() + 1;
        if depth > deepest {
            deepest = depth;
        }
    }
    deepest
}

// The first keys: the given number of them, or all.
fn first(keys: &[Key], count: usize) -> &[Key]
    ensures { result.now ≡ take count keys.now }
{
    &keys[..count.min(keys.len())]
}

// The keys without the first ones: without the given number of them, or all.
fn without_first(keys: &[Key], depth: usize) -> &[Key]
    ensures { result.now ≡ drop depth keys.now }
{
    &keys[depth.min(keys.len())..]
}

impl<L: Drop> Nested<L> {
    // The value with these children.
    pub(crate) fn of_children(children: Children<Nested<L>>) -> Nested<L>
        requires some { AreChildren children.entries }
        requires order { IsOrdered key_cmp children }
        requires value { IsValue (sorted_by path_cmp (child_rows children.entries)) }
        ensures { result ≡ sorted_by path_cmp (child_rows children.entries) }
    {
        if children.is_empty() {
            Nested { node: Node::Empty }
        } else {
            Nested {
                node: Node::Object(children),
            }
        }
    }

    /// Replaces all that stands at the path by the value; none removes it. A scalar above the path
    /// goes if something is put, and stays if nothing is. After Memory, the one refusal, the value
    /// is as it was.
    pub fn set(
        &mut self,
        alloc: Global,
        path: &Path,
        value: Option<Nested<L>>,
    ) -> Result<(), TreeFault>
        requires { Fits path.now (rows_in value) }
        ensures ok { IfOk result (λ _.
            self.new ≡ after self.old (write path.now (rows_in value) ∷ [])) }
        ensures err { IfErr result (λ e. (e ≡ Memory) × (self.new ≡ self.old)) }
    {
        match value {
            Some(value) => {
                if value.is_empty() {
                    self.clear(path.keys());
                } else {
                    drop(self.put(alloc, path.keys(), value)?);
                }
            }
            None => self.clear(path.keys()),
        }
        Ok(())
    }

    /// Removes what stands at or below the path. It takes no memory.
    pub fn remove(&mut self, path: &Path)
        ensures { self.new ≡ after self.old (write path.now [] ∷ []) }
    {
        let keys = path.keys();
        self.clear(keys);
    }

    /// Puts a value that isn't null, as `set` does, and returns what it replaced: all that was at
    /// this many first keys of the path.
    pub fn replace(
        &mut self,
        alloc: Global,
        path: &Path,
        value: Nested<L>,
    ) -> Result<(usize, Nested<L>), TreeFault>
        requires some { is_null value ≡ false }
        requires fits { Fits path.now value }
        ensures ok { IfOk result (λ _. self.new ≡ after self.old (write path.now value ∷ [])) }
        ensures back { IfOk result (λ place.
            Undoes (take place.0 path.now) place.1 self.old self.new) }
        ensures err { IfErr result (λ e. (e ≡ Memory) × (self.new ≡ self.old)) }
    {
        // it ensures that the value is one
        let _ = value.is_empty();
        Ok(self.put(alloc, path.keys(), value)?)
    }

    /// Puts a value where something stands, at this many first keys of the path. It takes no
    /// memory.
    pub fn put_back(&mut self, path: &Path, depth: usize, value: Nested<L>)
        requires stands { is_null (value_at (take depth path.now) self.old) ≡ false }
        requires fits { Fits (take depth path.now) value }
        ensures { self.new ≡ after self.old (write (take depth path.now) value ∷ []) }
    {
        // it ensures that the value is one
        if value.is_empty() {
            self.clear(first(path.keys(), depth));
        } else {
            self.put_over(first(path.keys(), depth), value);
        }
    }

    // Puts a value that is not null where something stands.
    fn put_over(&mut self, keys: &[Key], value: Nested<L>)
        requires some { is_null value ≡ false }
        requires value { IsValue value }
        requires fits { Fits keys.now value }
        requires stands { is_null (value_at keys.now self.old) ≡ false }
        ensures { self.new ≡ after self.old (write keys.now value ∷ []) }
    {
        let Some((key, rest)) = keys.split_first() else {
            drop(replace(self, value));
            return;
        };
        let Node::Object(children) = &mut self.node else {
            return;
        };
        let Some(child) = children.get_mut(key) else {
            return;
        };
        child.put_over(rest, value);
    }

    // The value with `value` alone, below the keys.
    fn branch(alloc: Global, keys: &[Key], value: Nested<L>) -> Result<Nested<L>, AllocError>
        requires some { is_null value ≡ false }
        requires value { IsValue value }
        requires fits { Fits keys.now value }
        ensures { IfOk result (λ t. t ≡ after [] (write keys.now value ∷ [])) }
    {
        match keys.split_first() {
            None => Ok(value),
            Some((key, rest)) => {
                let child = Nested::branch(alloc, rest, value)?;
                let mut children = Children::new(alloc);
                drop(children.insert(alloc, key.copy(alloc)?, child)?);
                Ok(Nested {
                    node: Node::Object(children),
                })
            }
        }
    }

    // Puts a value that is not null, and returns what it replaced: all that was at this many first
    // keys.
    fn put(
        &mut self,
        alloc: Global,
        keys: &[Key],
        value: Nested<L>,
    ) -> Result<(usize, Nested<L>), AllocError>
        requires some { is_null value ≡ false }
        requires value { IsValue value }
        requires fits { Fits keys.now value }
        ensures ok { IfOk result (λ _. self.new ≡ after self.old (write keys.now value ∷ [])) }
        ensures depth { IfOk result (λ place. place.0 ≤ length keys.now) }
        ensures back { IfOk result (λ place.
            Undoes (take place.0 keys.now) place.1 self.old self.new) }
        ensures err { IfErr result (λ _. self.new ≡ self.old) }
    {
        let Some((key, rest)) = keys.split_first() else {
            let old = replace(self, value);
            // it ensures that the rows are in order
            let _ = old.is_empty();
            return Ok((0, old));
        };
        if let Node::Object(children) = &mut self.node {
            if let Some(child) = children.get_mut(key) {
                let (depth, old) = child.put(alloc, rest, value)?;
                return Ok((depth + 1, old));
            }
            let child = Nested::branch(alloc, rest, value)?;
            drop(children.insert(alloc, key.copy(alloc)?, child)?);
            return Ok((1, Nested::empty()));
        }
        let branch = Nested::branch(alloc, keys, value)?;
        Ok((0, replace(self, branch)))
    }

    // Removes what stands at or below the keys.
    fn clear(&mut self, keys: &[Key])
        ensures { self.new ≡ after self.old (write keys.now [] ∷ []) }
    {
        let Some((key, rest)) = keys.split_first() else {
            self.node = Node::Empty;
            return;
        };
        if let Node::Object(children) = &mut self.node {
            let Some(child) = children.get_mut(key) else {
                return;
            };
            child.clear(rest);
            if !child.is_empty() {
                return;
            }
            children.remove(key);
            if children.is_empty() {
                self.node = Node::Empty;
            }
        }
    }
}

/// How a leaf is copied into one of another kind.
pub trait Change<L, M>: Drop {
    ghost makes: { Self → L → M };

    /// The leaf of the other kind.
    fn change(&self, alloc: Global, leaf: &L) -> Result<M, AllocError>
        ensures { IfOk result (λ made. made ≡ makes self.now leaf.now) };

    /// The same of a leaf that isn't needed any more, which is moved.
    fn change_owned(&self, leaf: L) -> M
        ensures { result ≡ makes self.now leaf };
}

// Leaves are copied as they are.
#[derive(Drop)]
struct Same {}

impl<L: Leaf> Change<L, L> for Same {
    ghost makes = { λ _ leaf. leaf };

    fn change(&self, alloc: Global, leaf: &L) -> Result<L, AllocError> {
        leaf.copy(alloc)
    }

    fn change_owned(&self, leaf: L) -> L {
        leaf
    }
}

impl<L: Leaf> Nested<L> {
    /// An equal value.
    pub fn copy(&self, alloc: Global) -> Result<Nested<L>, AllocError>
        ensures { IfOk result (λ t. t ≡ self.now) }
    {
        self.changed(alloc, &Same {})
    }

    /// What stands at the path, copied: null where nothing does.
    pub fn copy_at(&self, alloc: Global, path: &Path) -> Result<Nested<L>, AllocError>
        ensures value { IfOk result (λ made. made ≡ value_at path.now self.now) }
        ensures fits { IfOk result (λ made. Fits path.now made) }
    {
        // it ensures that this is a value
        let _ = self.is_empty();
        match self.at(path) {
            Some(value) => value.copy(alloc),
            None => Ok(Nested::empty()),
        }
    }
}

impl<L> Nested<L> {
    /// The value with each leaf changed, made in one walk.
    #[cycle(changed)]
    pub fn changed<M: Drop, C: Change<L, M>>(
        &self,
        alloc: Global,
        how: &C,
    ) -> Result<Nested<M>, AllocError>
        ensures { IfOk result (λ t. t ≡ with_leaves (C.makes how.now) self.now) }
    {
        match &self.node {
            Node::Empty => Ok(Nested::empty()),
            Node::Leaf(leaf) => Ok(Nested::scalar(how.change(alloc, leaf)?)),
            Node::Object(children) => {
                let changed = changed_children(alloc, children, how)?;
                Ok(Nested {
                    node: Node::Object(changed),
                })
            }
        }
    }
}

#[cycle(changed)]
fn changed_children<L, M: Drop, C: Change<L, M>>(
    alloc: Global,
    children: &Children<Nested<L>>,
    how: &C,
) -> Result<Children<Nested<M>>, AllocError>
    ensures entries { IfOk result (λ m.
        m.entries ≡ children_with (C.makes how.now) children.now.entries) }
    ensures ordered { IfOk result (λ m. IsOrdered key_cmp m) }
{
    let mut changed = Children::new(alloc);
    for (key, child) in children.iter() {
        let name = key.copy(alloc)?;
        drop(changed.insert(alloc, name, child.changed(alloc, how)?)?);
    }
    Ok(changed)
}

impl<L: Drop> Nested<L> {
    // What the value is made of.
    fn into_node(self) -> Node<L>
        ensures rows { rows_of_node result ≡ self }
        ensures sound { IsNode result }
    {
        let Nested { node } = self;
        node
    }

    /// The same of a value that isn't needed any more: its keys and leaves are moved.
    pub fn into_changed<M: Drop, C: Change<L, M>>(
        self,
        alloc: Global,
        how: &C,
    ) -> Result<Nested<M>, AllocError>
        ensures { IfOk result (λ t. t ≡ with_leaves (C.makes how.now) self) }
    {
        moved(alloc, self, how)
    }
}

// The value with each leaf changed, by moves.
#[cycle(moved)]
fn moved<L: Drop, M: Drop, C: Change<L, M>>(
    alloc: Global,
    value: Nested<L>,
    how: &C,
) -> Result<Nested<M>, AllocError>
    ensures { IfOk result (λ t. t ≡ with_leaves (C.makes how.now) value) }
{
    match value.into_node() {
        Node::Empty => Ok(Nested::empty()),
        Node::Leaf(leaf) => Ok(Nested::scalar(how.change_owned(leaf))),
        Node::Object(children) => {
            let changed = moved_children(alloc, children, how)?;
            Ok(Nested {
                node: Node::Object(changed),
            })
        }
    }
}

// The last child goes first, so that each is put before those that are changed already.
#[cycle(moved)]
fn moved_children<L: Drop, M: Drop, C: Change<L, M>>(
    alloc: Global,
    mut children: Children<Nested<L>>,
    how: &C,
) -> Result<Children<Nested<M>>, AllocError>
    ensures entries { IfOk result (λ m.
        m.entries ≡ children_with (C.makes how.now) children.entries) }
    ensures ordered { IfOk result (λ m. IsOrdered key_cmp m) }
{
    // it ensures that the keys rise
    let _ = children.is_empty();
    let mut changed = Children::new(alloc);
    'children: while let Some((key, child)) = children.pop_last() {
        let child = moved(alloc, child, how)?;
        drop(changed.insert(alloc, key, child)?);
    }
    Ok(changed)
}
