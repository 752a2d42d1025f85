//! Values under keys, in key order: a short list, or an ordered map.

ghost use Rattle.std.specs.Prelude.{◌≡◌, ◌<◌, ◌≤◌, ◌++◌, ◌↔◌, ◌∷◌, [], IsTrue, MatchOption, Some, None, IfSome, IfOk, OnOk, OnErr, length, slice_get, insert, vec_capacity};
ghost use Rattle.std.specs.Option.{option_copied, option_copied_mut};
ghost use Rattle.std.specs.Borrow.{sem};
ghost use Rattle.std.specs.List.{IsAmong};
ghost use Rattle.std.specs.List.Sorted.{IsStrictlySortedBy};
ghost use Rattle.std.specs.Map.{keys_of, values_of, lookup, remove_entry};
ghost use Rattle.std_collections.specs.Layout.Columns.{set_value_at};
ghost use Rattle.std.specs.Map.Iter.{TakesFirst, deref_pair};
ghost use Rattle.std.specs.BTreeMap.{IsOrdered, IsEmpty, IsUnchanged, Updates, UpdatesBy, btree_map_len, get, get_by, is_at, insert_entry, values};
ghost use Rattle.std.specs.Iterator.{at_most};
ghost use Rattle.pres_tree.specs.Keys.{key_cmp};
ghost use Rattle.pres_tree.specs.Children.{place_of, few_lends};

use crate::key::Key;
use std::alloc::{AllocError, Global};
use std::cmp::Ordering;
use std::collections::{BTreeMap, btree_map};
use std::marker::Model;
use std::mem::replace;

// The most entries of a list.
const FEW: usize = 32;

/// Values under keys, in key order. Contracts see them as they see an ordered map: by their
/// entries.
pub struct Children<V> {
    store: Store<V>,
}

// Where they are kept: up to 32 in a list with room for little more, more than that in a map. A
// map that shrinks stays one.
#[derive(Drop)]
pub(crate) enum Store<V> {
    Few(Vec<(Key, V)>),
    Many(BTreeMap<Key, V>),
}

// Written out so that dropping children is one step of a proof, however they are kept.
impl<V: Drop> Drop for Children<V> {
    fn drop(self) {
        let Children { store } = self;
        drop(store);
    }
}

impl<V> Model for Children<V> {
    ghost use Rattle.std.specs.BTreeMap.{BTreeMap as Map};
    ghost use Rattle.std_collections.specs.Layout.BTreeMap.{btree_map_code};
    ghost use Rattle.pres_tree.specs.Keys.{Key as KeyBytes};
    ghost use Rattle.std.specs.Coded.{coded_list, coded_ℕ};

    ghost Value = { Map KeyBytes V };

    ghost coded = { btree_map_code (coded_list coded_ℕ) V.code };

    ghost use Rattle.pres_tree.specs.Stores.{seen, IsSound};

    ghost view = { λ c. seen c.store };

    ghost invariant = { λ c. IsSound c.store };
}

// Where the key stands in a list, or where it is to go.
fn place<V>(few: &[(Key, V)], key: &Key) -> Result<usize, usize>
    ensures { result ≡ place_of (key_cmp key.now) few.now }
{
    let mut at: usize = 0;
    for entry in few {
        match key.cmp(&entry.0) {
            Ordering::Less => return Err(at),
            Ordering::Equal => return Ok(at),
            Ordering::Greater => at += 1,
        }
    }
    Err(at)
}

// The value under the key in a list, for writing.
fn few_mut<'a, V>(few: &'a mut Vec<(Key, V)>, key: &Key) -> Option<&'a mut V>
    requires { IsStrictlySortedBy key_cmp (keys_of few.old.items) }
    ensures* writes_back { sem 𝓛 (few_lends V.row few.entry key.now result) }
    ensures value { option_copied_mut result ≡ lookup (is_at (key_cmp key.now)) few.old.items }
{
    match place(few, key) {
        Ok(at) => {
            let entry = &mut few[at];
            Some(&mut entry.1)
        }
        Err(_) => None,
    }
}

// Replaces the value at the place, and returns the old one.
fn set_at<V>(few: &mut Vec<(Key, V)>, at: usize, value: V) -> V
    requires { at < length few.old.items }
    ensures old { Some result ≡ slice_get (values_of few.old.items) at }
    ensures items { few.new.items ≡ set_value_at few.old.items at value }
{
    let entry = &mut few[at];
    replace(&mut entry.1, value)
}

// Puts an entry at its place in a list, which has room for it alone afterwards.
fn put_at<V: Drop>(few: &mut Vec<(Key, V)>, at: usize, key: Key, value: V) -> Result<(), AllocError>
    requires { at ≤ length few.old.items }
    ensures ok { OnOk result (few.new.items ≡ insert few.old.items at (key, value)) }
    ensures err { OnErr result (few.new.items ≡ few.old.items) }
{
    few.reserve_exact(1)?;
    few.insert(at, (key, value))?;
    Ok(())
}

// Moves the entries of a list into a map, the last one first: the entries of both together stay
// what they are, also where memory is refused.
fn spill<V: Drop>(few: &mut Vec<(Key, V)>, many: &mut BTreeMap<Key, V>) -> Result<(), AllocError>
    requires { IsStrictlySortedBy key_cmp (keys_of (few.old.items ++ many.old.entries)) }
    ensures entries { few.new.items ++ many.new.entries ≡ few.old.items ++ many.old.entries }
    ensures room { vec_capacity few.new ≡ vec_capacity few.old }
    ensures ok { OnOk result (few.new.items ≡ []) }
{
    'entries: while let Some((key, value)) = few.pop() {
        match many.insert(key, value) {
            Ok(old) => drop(old),
            Err(refused) => {
                few.push_reserved(refused.value);
                return Err(AllocError);
            }
        }
    }
    Ok(())
}

// Appends the entries of a map to those of a list.
fn refill<V: Drop>(few: &mut Vec<(Key, V)>, many: BTreeMap<Key, V>)
    requires { length (few.old.items ++ many.entries) ≤ vec_capacity few.old }
    ensures { few.new.items ≡ few.old.items ++ many.entries }
{
    for entry in many {
        few.push_reserved(entry);
    }
}

// The map of a list's entries and one more. Where memory is refused, the list is as it was.
fn to_map<V: Drop>(
    alloc: Global,
    few: &mut Vec<(Key, V)>,
    key: Key,
    value: V,
) -> Result<BTreeMap<Key, V>, AllocError>
    requires { IsStrictlySortedBy key_cmp (keys_of few.old.items) }
    ensures entries { IfOk result (λ many.
        many.entries ≡ insert_entry key_cmp few.old.items key value) }
    ensures ordered { IfOk result (λ many. IsOrdered key_cmp many) }
    ensures err { OnErr result (few.new.items ≡ few.old.items) }
{
    let mut many = BTreeMap::new(alloc);
    if let Err(refused) = spill(few, &mut many) {
        refill(few, many);
        return Err(refused);
    }
    match many.insert(key, value) {
        Ok(old) => {
            drop(old);
            Ok(many)
        }
        Err(refused) => {
            drop(refused);
            refill(few, many);
            Err(AllocError)
        }
    }
}

impl<V> Store<V> {
    ghost use Rattle.pres_tree.specs.Stores.{seen};
    ghost use Rattle.pres_tree.specs.StoreLends.{store_lends};

    // The value under the key, for writing.
    fn get_mut(&mut self, key: &Key) -> Option<&mut V>
        requires { IsOrdered key_cmp (seen self.old) }
        ensures* writes_back { sem 𝓛 (store_lends V.row self.entry key.now result) }
        ensures value { option_copied_mut result ≡ get_by (key_cmp key.now) (seen self.old) }
    {
        match self {
            Store::Few(few) => few_mut(few, key),
            Store::Many(many) => many.get_mut(key),
        }
    }
}

impl<V: Drop> Store<V> {
    ghost use Rattle.pres_tree.specs.Stores.{seen};

    // Puts a value under the key.
    fn insert(&mut self, alloc: Global, key: Key, value: V) -> Result<Option<V>, AllocError>
        requires { IsOrdered key_cmp (seen self.old) }
        ensures old { IfOk result (λ old. old ≡ get key_cmp (seen self.old) key) }
        ensures updates { OnOk result (Updates key_cmp (seen self.old) (seen self.new) key (Some value)) }
        ensures entries { OnOk result ((seen self.new).entries ≡ insert_entry key_cmp (seen self.old).entries key value) }
        ensures err { OnErr result ((seen self.new).entries ≡ (seen self.old).entries) }
        ensures ordered { IsOrdered key_cmp (seen self.new) }
    {
        match self {
            Store::Few(few) => match place(few, &key) {
                Ok(at) => Ok(Some(set_at(few, at, value))),
                Err(at) => {
                    if few.len() < FEW {
                        put_at(few, at, key, value)?;
                        return Ok(None);
                    }
                    let many = to_map(alloc, few, key, value)?;
                    drop(replace(self, Store::Many(many)));
                    Ok(None)
                }
            },
            Store::Many(many) => Ok(many.insert(key, value)?),
        }
    }

    // Takes away the value under the key.
    fn remove(&mut self, key: &Key) -> Option<V>
        requires { IsOrdered key_cmp (seen self.old) }
        ensures value { result ≡ get_by (key_cmp key.now) (seen self.old) }
        ensures updates { UpdatesBy key_cmp (key_cmp key.now) (seen self.old) (seen self.new) None }
        ensures entries { (seen self.new).entries ≡ remove_entry (is_at (key_cmp key.now)) (seen self.old).entries }
        ensures ordered { IsOrdered key_cmp (seen self.new) }
    {
        match self {
            Store::Few(few) => match place(few, key) {
                Ok(at) => {
                    let (_, value) = few.remove(at);
                    Some(value)
                }
                Err(_) => None,
            },
            Store::Many(many) => many.remove(key),
        }
    }

    // Takes the last entry.
    fn pop_last(&mut self) -> Option<(Key, V)>
        requires { IsOrdered key_cmp (seen self.old) }
        ensures entries { MatchOption result
            ((seen self.old).entries ≡ [])
            (λ e. (seen self.old).entries ≡ (seen self.new).entries ++ e ∷ []) }
        ensures ordered { IsOrdered key_cmp (seen self.new) }
    {
        match self {
            Store::Few(few) => few.pop(),
            Store::Many(many) => many.pop_last(),
        }
    }
}

impl<V> Children<V> {
    ghost use Rattle.pres_tree.specs.Lends.{children_lend};

    /// None.
    pub fn new(alloc: Global) -> Children<V>
        ensures empty { IsEmpty result }
        ensures ordered { IsOrdered key_cmp result }
    {
        Children {
            store: Store::Few(Vec::new(alloc)),
        }
    }

    /// Whether there are none.
    pub fn is_empty(&self) -> bool
        ensures none { IsTrue result ↔ (btree_map_len self.now ≡ 0) }
        ensures ordered { IsOrdered key_cmp self.now }
    {
        match &self.store {
            Store::Few(few) => few.is_empty(),
            Store::Many(many) => many.is_empty(),
        }
    }

    /// The value under the key.
    pub fn get(&self, key: &Key) -> Option<&V>
        ensures value { option_copied result ≡ get_by (key_cmp key.now) self.now }
        ensures member { IfSome result (λ v. IsAmong (values self.now) v.now) }
        ensures ordered { IsOrdered key_cmp self.now }
    {
        match &self.store {
            Store::Few(few) => match place(few, key) {
                Ok(at) => Some(&few[at].1),
                Err(_) => None,
            },
            Store::Many(many) => many.get(key),
        }
    }

    /// The value under the key, for writing.
    pub fn get_mut(&mut self, key: &Key) -> Option<&mut V>
        ensures* writes_back { sem 𝓛 (children_lend V.row self.entry key.now result) }
        ensures value { option_copied_mut result ≡ get_by (key_cmp key.now) self.old }
        ensures member { IfSome result (λ v. IsAmong (values self.old) v.now) }
        ensures ordered { IsOrdered key_cmp self.old }
    {
        self.store.get_mut(key)
    }
}

impl<V: Drop> Children<V> {
    /// Puts the value under the key, and returns the one that was there. After a failed allocation
    /// they are as they were.
    pub fn insert(&mut self, alloc: Global, key: Key, value: V) -> Result<Option<V>, AllocError>
        ensures old { IfOk result (λ old. old ≡ get key_cmp self.old key) }
        ensures updates { OnOk result (Updates key_cmp self.old self.new key (Some value)) }
        ensures entries { OnOk result (self.new.entries ≡ insert_entry key_cmp self.old.entries key value) }
        ensures some { OnOk result (0 < btree_map_len self.new) }
        ensures err { OnErr result (IsUnchanged self.old self.new) }
        ensures ordered { IsOrdered key_cmp self.new }
    {
        self.store.insert(alloc, key, value)
    }

    /// Removes the value under the key, and returns it. It takes no memory.
    pub fn remove(&mut self, key: &Key) -> Option<V>
        ensures value { result ≡ get_by (key_cmp key.now) self.old }
        ensures updates { UpdatesBy key_cmp (key_cmp key.now) self.old self.new None }
        ensures entries { self.new.entries ≡ remove_entry (is_at (key_cmp key.now)) self.old.entries }
        ensures ordered { IsOrdered key_cmp self.new }
    {
        self.store.remove(key)
    }

    /// Takes the last entry. It takes no memory.
    pub fn pop_last(&mut self) -> Option<(Key, V)>
        ensures entries { MatchOption result
            (self.old.entries ≡ [])
            (λ e. self.old.entries ≡ self.new.entries ++ e ∷ []) }
    {
        self.store.pop_last()
    }
}

/// The entries that are left, in order.
#[derive(Drop)]
pub struct Iter<'a, V> {
    rest: Rest<'a, V>,
}

#[derive(Drop)]
pub(crate) enum Rest<'a, V> {
    Few(&'a [(Key, V)]),
    Many(btree_map::Iter<'a, Key, V>),
}

impl<'a, V> Model for Iter<'a, V> {
    ghost use Rattle.std.specs.Prelude.{List};
    ghost use Rattle.pres_tree.specs.Keys.{Key as KeyBytes};

    ghost Value = { List (KeyBytes × V) };

    ghost use Rattle.pres_tree.specs.Rest.{left};

    ghost view = { λ it. left it.rest };
}

impl<V> Children<V> {
    /// The entries, in order.
    pub fn iter(&self) -> Iter<'_, V>
        ensures rest { result ≡ self.now.entries }
        ensures ordered { IsOrdered key_cmp self.now }
    {
        match &self.store {
            Store::Few(few) => Iter {
                rest: Rest::Few(few),
            },
            Store::Many(many) => Iter {
                rest: Rest::Many(many.iter()),
            },
        }
    }
}

impl<'a, V> Iterator for Iter<'a, V> {
    type Item = (&'a Key, &'a V);

    ghost next_gives = { TakesFirst deref_pair };

    ghost remaining = { λ s. at_most (length s) };

    fn next(&mut self) -> Option<(&'a Key, &'a V)> {
        match &mut self.rest {
            Rest::Few(few) => {
                let (entry, rest) = few.split_first()?;
                *few = rest;
                Some((&entry.0, &entry.1))
            }
            Rest::Many(many) => many.next(),
        }
    }
}
