//! Values from JSON.

ghost use Rattle.std.specs.Prelude.{◌≡◌, ◌+◌, ◌-◌, ◌≤◌, ◌⊎◌, MatchResult, IfOk, Some, None, length, option_map};
ghost use Rattle.serde_json.specs.View.{view, items_view, members_view};
ghost use Rattle.pres_tree.specs.declared.fault.TreeFault.TheVariants.{Memory};
ghost use Rattle.pres_tree.specs.Paths.{max_depth, path_cmp, sorted_by};
ghost use Rattle.pres_tree.specs.Rows.{Fits};
ghost use Rattle.pres_tree.specs.JsonReading.{levels_below, rows_of, fault_of, items_rows, items_fault, members_rows, members_fault, first_of, fault_in, Shallow};

use crate::children::Children;
use crate::fault::TreeFault;
use crate::key::Key;
use crate::nested::Nested;
use crate::path::{MAX_DEPTH, Path};
use serde_json::{Map, Value};
use std::alloc::Global;

// The places on the way from the root to the deepest leaf.
const LEVELS: usize = MAX_DEPTH + 1;

// A fault, and the key of the item that has it.
type KeyedFault = (Key, TreeFault);

/// How JSON writes the leaves of a value. A type of its own stands for each form.
pub trait LeafForm<L> {
    ghost use Rattle.std.specs.Prelude.{◌≡◌, ◌⊎◌, true, MatchResult};
    ghost use Rattle.serde_json.specs.Data.{Data};
    ghost use Rattle.serde_json.specs.View.{view};
    ghost use Rattle.pres_tree.specs.JsonReading.{Reading, leaf, bad, is_leaf};
    ghost use Rattle.pres_tree.specs.declared.fault.TreeFault.TheVariants.{Memory};

    ghost reading: { Data → Reading L };

    /// Whether the JSON value is a leaf, or refused as one.
    fn is_leaf(value: &Value) -> bool
        ensures { result ≡ is_leaf (reading (view value.now)) };

    /// The leaf of a JSON value.
    fn read(alloc: Global, value: &Value) -> Result<L, TreeFault>
        requires { is_leaf (reading (view value.now)) ≡ true }
        ensures { MatchResult result
            (λ made. reading (view value.now) ≡ leaf made)
            (λ e. (e ≡ Memory) ⊎ (reading (view value.now) ≡ bad e)) };
}

/// The value of a JSON value: arrays under their indexes, nulls and objects without
/// children left out. The first fault of a depth-first walk in byte order of keys is
/// answered: at a key EmptyKey, LongKey, BadKey, at a leaf TooDeep and then what its form
/// refuses.
pub fn from_value<L: Drop, F: LeafForm<L>>(
    alloc: Global,
    value: &Value,
) -> Result<Nested<L>, TreeFault>
    ensures { MatchResult result
        (λ t. (fault_of F.reading (max_depth + 1) (view value.now) ≡ None)
        × (t ≡ rows_of F.reading (view value.now)))
        (λ e. (e ≡ Memory) ⊎ (fault_of F.reading (max_depth + 1) (view value.now) ≡ Some e)) }
{
    read_at::<L, F>(alloc, value, LEVELS)
}

/// The same for a value that is to stand at the path, whose keys count as depth.
pub fn from_value_below<L: Drop, F: LeafForm<L>>(
    alloc: Global,
    value: &Value,
    path: &Path,
) -> Result<Nested<L>, TreeFault>
    ensures read { MatchResult result
        (λ t. (fault_of F.reading (levels_below path.now) (view value.now) ≡ None)
        × (t ≡ rows_of F.reading (view value.now)))
        (λ e. (e ≡ Memory)
        ⊎ (fault_of F.reading (levels_below path.now) (view value.now) ≡ Some e)) }
    ensures fits { IfOk result (λ t. Fits path.now t) }
{
    read_at::<L, F>(alloc, value, LEVELS - path.len())
}

/// The same for a value that is to stand below this many keys.
pub fn from_value_under<L: Drop, F: LeafForm<L>>(
    alloc: Global,
    value: &Value,
    depth: usize,
) -> Result<Nested<L>, TreeFault>
    requires { depth ≤ max_depth }
    ensures read { MatchResult result
        (λ t. (fault_of F.reading (max_depth + 1 - depth) (view value.now) ≡ None)
        × (t ≡ rows_of F.reading (view value.now)))
        (λ e. (e ≡ Memory)
        ⊎ (fault_of F.reading (max_depth + 1 - depth) (view value.now) ≡ Some e)) }
    ensures shallow { IfOk result (λ t. Shallow (max_depth + 1 - depth) t) }
{
    read_at::<L, F>(alloc, value, LEVELS - depth)
}

// The value, with this many levels left for its leaves.
#[cycle(read)]
fn read_at<L: Drop, F: LeafForm<L>>(
    alloc: Global,
    value: &Value,
    left: usize,
) -> Result<Nested<L>, TreeFault>
    requires { left ≤ max_depth + 1 }
    ensures read { MatchResult result
        (λ t. (fault_of F.reading left (view value.now) ≡ None)
        × (t ≡ rows_of F.reading (view value.now)))
        (λ e. (e ≡ Memory) ⊎ (fault_of F.reading left (view value.now) ≡ Some e)) }
    ensures shallow { IfOk result (λ t. Shallow left t) }
{
    if F::is_leaf(value) {
        if left == 0 {
            return Err(TreeFault::TooDeep);
        }
        return Ok(Nested::scalar(F::read(alloc, value)?));
    }
    match value {
        Value::Array(items) => read_items::<L, F>(alloc, items, left.saturating_sub(1)),
        Value::Object(members) => read_members::<L, F>(alloc, members, left.saturating_sub(1)),
        _ => Ok(Nested::empty()),
    }
}

#[cycle(read)]
fn read_items<L: Drop, F: LeafForm<L>>(
    alloc: Global,
    items: &Vec<Value>,
    left: usize,
) -> Result<Nested<L>, TreeFault>
    requires { left ≤ max_depth }
    ensures read { MatchResult result
        (λ t. (items_fault F.reading left 0 (items_view items.now.items) ≡ None)
        × (t ≡ sorted_by path_cmp (items_rows F.reading 0 (items_view items.now.items))))
        (λ e. (e ≡ Memory)
        ⊎ (fault_in (items_fault F.reading left 0 (items_view items.now.items)) ≡ Some e)) }
    ensures shallow { IfOk result (λ t. Shallow (left + 1) t) }
{
    let mut children = Children::new(alloc);
    let mut first = None;
    let mut index: usize = 0;
    for item in items {
        let key = Key::of_index(alloc, index)?;
        match read_at::<L, F>(alloc, item, left) {
            Ok(child) => if !child.is_empty() {
                drop(children.insert(alloc, key, child)?);
            },
            Err(fault) => match fault {
                TreeFault::Memory => return Err(fault),
                _ => first = Some(earlier(first, key, fault)),
            },
        }
        index += 1;
    }
    match first {
        Some((_, fault)) => Err(fault),
        None => Ok(Nested::of_children(children)),
    }
}

// The fault whose key comes first.
fn earlier(first: Option<KeyedFault>, key: Key, fault: TreeFault) -> KeyedFault
    ensures { Some result ≡ first_of first (Some (key, fault)) }
{
    match first {
        Some(first) => if key < first.0 { (key, fault) } else { first },
        None => (key, fault),
    }
}

#[cycle(read)]
fn read_members<L: Drop, F: LeafForm<L>>(
    alloc: Global,
    members: &Map<String, Value>,
    left: usize,
) -> Result<Nested<L>, TreeFault>
    requires { left ≤ max_depth }
    ensures read { MatchResult result
        (λ t. (members_fault F.reading left (members_view members.now.entries) ≡ None)
        × (t ≡ sorted_by path_cmp (members_rows F.reading (members_view members.now.entries))))
        (λ e. (e ≡ Memory)
        ⊎ (members_fault F.reading left (members_view members.now.entries) ≡ Some e)) }
    ensures shallow { IfOk result (λ t. Shallow (left + 1) t) }
{
    let mut children = Children::new(alloc);
    for (name, member) in members.iter() {
        let key = Key::parse(alloc, name.as_str())?;
        let child = read_at::<L, F>(alloc, member, left)?;
        if !child.is_empty() {
            drop(children.insert(alloc, key, child)?);
        }
    }
    Ok(Nested::of_children(children))
}
