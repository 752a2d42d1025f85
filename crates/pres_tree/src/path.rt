//! Paths: the keys from the root to a place.

ghost use Rattle.std.specs.Prelude.{◌≡◌, ◌⊎◌, ◌↔◌, ◌+◌, ◌<◌, ◌++◌, [], length, take, drop, IsTrue, IfOk, IfErr, IsErrOf, OnOk, MatchResult, Some, None, option_map, string_bytes};
ghost use Rattle.pres_tree.specs.Keys.{key_cmp};
ghost use Rattle.pres_tree.specs.Paths.{max_depth, IsPath, below, is_prefix, segments, path_fault, path_text, keys_text};
ghost use Rattle.pres_tree.specs.declared.fault.TreeFault.TheVariants.{Memory, TooDeep};

use crate::fault::TreeFault;
use crate::key::Key;
use std::alloc::{AllocError, Global};
use std::cmp::Ordering;
use std::fmt;
use std::marker::Model;

/// The keys from the root to the deepest scalar: Firebase Realtime Database nests data at most 32
/// levels.
pub const MAX_DEPTH: usize = 32;

/// A path: at most `MAX_DEPTH` keys from the root to a place. Contracts see it as the list of its
/// keys. Paths are ordered key by key in byte order, a prefix first.
#[derive(Drop)]
pub struct Path {
    keys: Vec<Key>,
}

impl Model for Path {
    ghost use Rattle.std.specs.Prelude.{ℕ, List};
    ghost use Rattle.pres_tree.specs.Paths.{IsPath};

    ghost Value = { List (List ℕ) };

    ghost view = { λ p. p.keys.items };

    ghost invariant = { λ p. IsPath p.keys.items };
}

impl Path {
    /// The path of the root. It keeps the allocator and takes no memory.
    pub fn root(alloc: Global) -> Path
        ensures { result ≡ [] }
    {
        Path {
            keys: Vec::new(alloc),
        }
    }

    /// The path of a text, its keys after slashes. The leading slash is optional and empty
    /// pieces are skipped. Refused where a key is (LongKey, BadKey), all keys in their order, and
    /// then where there are more than `MAX_DEPTH` (TooDeep).
    pub fn parse(alloc: Global, text: &str) -> Result<Path, TreeFault>
        ensures path { MatchResult result
            (λ p. (p ≡ segments text.now) × (path_fault text.now ≡ None))
            (λ e. (e ≡ Memory) ⊎ (path_fault text.now ≡ Some e)) }
    {
        let mut keys = Vec::new(alloc);
        let mut is_deep = false;
        for piece in text.split('/') {
            if piece.is_empty() {
                continue;
            }
            if keys.len() < MAX_DEPTH {
                keys.push(Key::parse(alloc, piece)?)?;
            } else {
                Key::check(piece)?;
                is_deep = true;
            }
        }
        if is_deep {
            return Err(TreeFault::TooDeep);
        }
        Ok(Path { keys })
    }

    /// Its text: a slash for the root, else each key after a slash. The text is parsed as this
    /// path.
    pub fn text(&self, alloc: Global) -> Result<String, AllocError>
        ensures text { IfOk result (λ t. string_bytes t ≡ path_text self.now) }
        ensures reads_back { IfOk result (λ t.
            (segments (string_bytes t) ≡ self.now) × (path_fault (string_bytes t) ≡ None)) }
    {
        if self.keys.is_empty() {
            return String::from_str(alloc, "/");
        }
        let mut text = String::new(alloc);
        push_keys(&mut text, &self.keys)?;
        Ok(text)
    }

    /// Its text without the leading slash, which is empty for the root. The text is parsed as this
    /// path.
    pub fn name(&self, alloc: Global) -> Result<String, AllocError>
        ensures name { IfOk result (λ t. string_bytes t ≡ drop 1 (path_text self.now)) }
        ensures reads_back { IfOk result (λ t.
            (segments (string_bytes t) ≡ self.now) × (path_fault (string_bytes t) ≡ None)) }
    {
        let Some((first, rest)) = self.keys.split_first() else {
            return Ok(String::new(alloc));
        };
        let mut name = String::from_str(alloc, first.text())?;
        push_keys(&mut name, rest)?;
        Ok(name)
    }

    /// Its keys, from the root on.
    pub fn keys(&self) -> &[Key]
        ensures keys { result.now ≡ self.now }
        ensures path { IsPath self.now }
    {
        &self.keys
    }

    /// How many keys it has.
    pub fn len(&self) -> usize
        ensures len { result ≡ length self.now }
        ensures path { IsPath self.now }
    {
        self.keys.len()
    }

    /// Whether it is the root.
    pub fn is_root(&self) -> bool
        ensures { IsTrue result ↔ (self.now ≡ []) }
    {
        self.keys.is_empty()
    }

    /// Whether the other path is this one or below it.
    pub fn is_prefix_of(&self, other: &Path) -> bool
        ensures { result ≡ is_prefix self.now other.now }
    {
        rest(&self.keys, &other.keys).is_some()
    }

    /// The path that goes on with the keys of the other one. Refused as TooDeep where both have
    /// more than `MAX_DEPTH` keys together.
    pub fn join(&self, alloc: Global, other: &Path) -> Result<Path, TreeFault>
        ensures path { IfOk result (λ p. p ≡ self.now ++ other.now) }
        ensures deep { IsErrOf result TreeFault.TooDeep
            ↔ (max_depth < length self.now + length other.now) }
        ensures err { IfErr result (λ e. (e ≡ TooDeep) ⊎ (e ≡ Memory)) }
    {
        if self.keys.len() + other.keys.len() > MAX_DEPTH {
            return Err(TreeFault::TooDeep);
        }
        let mut keys = copies(alloc, &self.keys)?;
        for key in &other.keys {
            keys.push(key.copy(alloc)?)?;
        }
        Ok(Path { keys })
    }

    /// The same of keys that aren't needed any more, which are moved.
    pub fn join_owned(&self, alloc: Global, other: Path) -> Result<Path, TreeFault>
        ensures path { IfOk result (λ p. p ≡ self.now ++ other) }
        ensures deep { IsErrOf result TreeFault.TooDeep
            ↔ (max_depth < length self.now + length other) }
        ensures err { IfErr result (λ e. (e ≡ TooDeep) ⊎ (e ≡ Memory)) }
    {
        if self.keys.len() + other.keys.len() > MAX_DEPTH {
            return Err(TreeFault::TooDeep);
        }
        let mut keys = copies(alloc, &self.keys)?;
        let mut rest = other.keys;
        keys.append(&mut rest)?;
        drop(rest);
        Ok(Path { keys })
    }

    /// The other path with this one cut off, where it is this one or below it.
    pub fn below(&self, alloc: Global, other: &Path) -> Result<Option<Path>, AllocError>
        ensures { IfOk result (λ found. found ≡ below self.now other.now) }
    {
        match rest(&self.keys, &other.keys) {
            Some(keys) => Ok(Some(Path {
                keys: copies(alloc, keys)?,
            })),
            None => Ok(None),
        }
    }

    /// The path of its first keys, as many as these, or all where it has no more: this path or one
    /// above it.
    pub fn prefix(&self, alloc: Global, len: usize) -> Result<Path, AllocError>
        ensures { IfOk result (λ p. p ≡ take len self.now) }
    {
        let (keys, _) = self.keys.split_at(len.min(self.keys.len()));
        Ok(Path {
            keys: copies(alloc, keys)?,
        })
    }

    /// An equal path.
    pub fn copy(&self, alloc: Global) -> Result<Path, AllocError>
        ensures { IfOk result (λ p. p ≡ self.now) }
    {
        Ok(Path {
            keys: copies(alloc, &self.keys)?,
        })
    }
}

// Puts the keys at the end of the text, each after a slash.
fn push_keys(text: &mut String, keys: &[Key]) -> Result<(), AllocError>
    ensures { OnOk result (string_bytes text.new ≡ string_bytes text.old ++ keys_text keys.now) }
{
    for key in keys {
        text.push('/')?;
        text.push_str(key.text())?;
    }
    Ok(())
}

fn copies(alloc: Global, keys: &[Key]) -> Result<Vec<Key>, AllocError>
    ensures { IfOk result (λ made. made.items ≡ keys.now) }
{
    let mut made = Vec::new(alloc);
    for key in keys {
        made.push(key.copy(alloc)?)?;
    }
    Ok(made)
}

// The keys after these first ones.
fn rest<'a>(prefix: &[Key], keys: &'a [Key]) -> Option<&'a [Key]>
    ensures rest { option_map (λ ks. ks.now) result ≡ below prefix.now keys.now }
{
    let Some((key, prefix)) = prefix.split_first() else {
        return Some(keys);
    };
    let (other, keys) = keys.split_first()?;
    if key == other {
        rest(prefix, keys)
    } else {
        None
    }
}

impl PartialEq for Path {
    ghost use Rattle.std.specs.Prelude.{◌==◌};
    ghost use Rattle.std.specs.Cmp.Lexicographic.{pointwise};
    ghost use Rattle.std.proofs.Common.{rules};
    ghost use Rattle.std.specs.Cmp.Rules.{comparing};

    ghost eq = { pointwise (pointwise ◌==◌) };

    ghost laws = { Prim.search (comparing, rules) };

    fn eq(&self, other: &Path) -> bool {
        self.keys == other.keys
    }
}

impl Eq for Path {
    ghost use Rattle.std.proofs.Common.{rules};
    ghost use Rattle.std.specs.Cmp.Rules.{comparing};

    ghost laws = { Prim.search (comparing, rules) };
}

impl PartialOrd for Path {
    ghost use Rattle.std.specs.Ordering.{nat_cmp, as_partial_cmp};
    ghost use Rattle.std.specs.Cmp.Lexicographic.{slice_cmp, lists_ties, texts_ties};
    ghost use Rattle.std.specs.Cmp.{partial_order_from_own_ties};
    ghost use Rattle.std.proofs.Common.{rules};
    ghost use Rattle.std.specs.Cmp.Rules.{comparing};

    ghost partial_cmp = { as_partial_cmp (slice_cmp (slice_cmp nat_cmp)) };

    ghost laws = { partial_order_from_own_ties (Prim.search (comparing, rules))
        (lists_ties (slice_cmp nat_cmp) texts_ties) };

    fn partial_cmp(&self, other: &Path) -> Option<Ordering> {
        Some(self.cmp(other))
    }
}

impl Ord for Path {
    ghost use Rattle.std.specs.Ordering.{nat_cmp};
    ghost use Rattle.std.specs.Cmp.Lexicographic.{slice_cmp, lists_ties, texts_ties};
    ghost use Rattle.std.proofs.Common.{rules};
    ghost use Rattle.std.specs.Cmp.Rules.{comparing};

    ghost cmp = { slice_cmp (slice_cmp nat_cmp) };

    ghost total = { Prim.search (comparing, rules) };

    ghost matches_partial_cmp = { Prim.search (comparing, rules) };

    ghost matches_eq = { lists_ties (slice_cmp nat_cmp) texts_ties };

    fn cmp(&self, other: &Path) -> Ordering {
        self.keys.cmp(&other.keys)
    }
}

impl fmt::Display for Path {
    fn fmt<W: fmt::Write>(&self, f: &mut fmt::Formatter<W>) -> fmt::Result {
        if self.is_root() {
            return f.write_str("/");
        }
        for key in self.keys() {
            write!(f, "/{key}")?;
        }
        Ok(())
    }
}
