//! Finds the listeners that writes touch, in the tree of paths.

ghost use Rattle.std.specs.Prelude.{◌≡◌, ◌<◌, ◌++◌, ◌∷◌, [], Bool, true, length, take, IfOk, OnOk};
ghost use Rattle.std.specs.List.{list_any, AllByRecursion};
ghost use Rattle.std.specs.List.Sorted.{IsStrictlySortedBy};
ghost use Rattle.pres_tree.specs.Paths.{Path, IsPath, max_depth, meet};
ghost use Rattle.pres_ids.specs.Ids.{same_session};
ghost use Rattle.pres_ids.specs.declared.id.SessionId.{SessionId};
ghost use Rattle.pres_fan.specs.Listeners.{listener_cmp, listener_of, same_listener, is_touched};
ghost use Rattle.pres_fan.specs.Levels.{heard};
ghost use Rattle.pres_fan.specs.declared.listeners.Listener.{Listener};

use crate::level::Level;
use crate::listeners::Listener;
use crate::sessions::Sessions;
use pres_tree::{Key, Path};
use pres_write::Basic;
use std::alloc::{AllocError, Global};

// Adds the sessions as listeners at the path.
fn add_here(
    found: &mut Vec<Listener>,
    alloc: Global,
    sessions: &Sessions,
    path: &Path,
) -> Result<(), AllocError>
    ensures kept { OnOk result ((l : Listener) → list_any (same_listener l) found.old.items ≡ true
        → list_any (same_listener l) found.new.items ≡ true) }
    ensures here { OnOk result ((s : SessionId) → list_any (same_session s) sessions.now ≡ true
        → list_any (same_listener (listener_of s path.now)) found.new.items ≡ true) }
    ensures only { OnOk result ((t : Listener → Bool)
        → AllByRecursion (λ l. t l ≡ true) found.old.items
        → ((s : SessionId) → list_any (same_session s) sessions.now ≡ true
        → t (listener_of s path.now) ≡ true)
        → AllByRecursion (λ l. t l ≡ true) found.new.items) }
{
    for session in sessions.as_slice() {
        let session = session.copy(alloc)?;
        let path = path.copy(alloc)?;
        found.push(Listener { session, path })?;
    }
    Ok(())
}

// The path with one key more. No level stands deeper than a path is long, so memory is the one
// refusal where a level stands there.
fn goes_on(alloc: Global, path: &Path, key: &Key) -> Result<Path, AllocError>
    ensures path { IfOk result (λ made. made ≡ path.now ++ key.now ∷ []) }
    ensures room { OnOk result (length path.now < max_depth) }
{
    let Ok(last) = Path::parse(alloc, key.text()) else {
        return Err(AllocError);
    };
    match path.join_owned(alloc, last) {
        Ok(made) => Ok(made),
        Err(_) => Err(AllocError),
    }
}

// Adds the listeners at the level, whose path this is, and below it.
fn add_below(
    found: &mut Vec<Listener>,
    alloc: Global,
    level: &Level,
    path: &Path,
) -> Result<(), AllocError>
    ensures kept { OnOk result ((l : Listener) → list_any (same_listener l) found.old.items ≡ true
        → list_any (same_listener l) found.new.items ≡ true) }
    ensures below { OnOk result ((p : Path) (s : SessionId) → heard p s level.now ≡ true
        → list_any (same_listener (listener_of s (path.now ++ p))) found.new.items ≡ true) }
    ensures only { OnOk result ((t : Listener → Bool)
        → AllByRecursion (λ l. t l ≡ true) found.old.items
        → ((p : Path) (s : SessionId) → heard p s level.now ≡ true
        → t (listener_of s (path.now ++ p)) ≡ true)
        → AllByRecursion (λ l. t l ≡ true) found.new.items) }
{
    add_here(found, alloc, &level.sessions, path)?;
    let Some(below) = &level.below else {
        return Ok(());
    };
    for (key, child) in below.iter() {
        let path = goes_on(alloc, path, key)?;
        add_below(found, alloc, child, &path)?;
    }
    Ok(())
}

// Adds the listeners at the level, which is this many keys down the path.
fn add_above(
    found: &mut Vec<Listener>,
    alloc: Global,
    sessions: &Sessions,
    path: &Path,
    depth: usize,
) -> Result<(), AllocError>
    ensures kept { OnOk result ((l : Listener) → list_any (same_listener l) found.old.items ≡ true
        → list_any (same_listener l) found.new.items ≡ true) }
    ensures here { OnOk result ((s : SessionId) → list_any (same_session s) sessions.now ≡ true
        → list_any (same_listener (listener_of s (take depth path.now))) found.new.items ≡ true) }
    ensures only { OnOk result ((t : Listener → Bool)
        → AllByRecursion (λ l. t l ≡ true) found.old.items
        → ((s : SessionId) → list_any (same_session s) sessions.now ≡ true
        → t (listener_of s (take depth path.now)) ≡ true)
        → AllByRecursion (λ l. t l ≡ true) found.new.items) }
{
    if sessions.is_empty() {
        return Ok(());
    }
    add_here(found, alloc, sessions, &path.prefix(alloc, depth)?)
}

// Adds the listeners at the path, above it and below it, of those at the level and below it. The
// level is this many keys down the path, and these keys remain of the path.
fn add_met(
    found: &mut Vec<Listener>,
    alloc: Global,
    level: &Level,
    path: &Path,
    depth: usize,
    keys: &[Key],
) -> Result<(), AllocError>
    requires place { path.now ≡ take depth path.now ++ keys.now }
    requires path { IsPath path.now }
    ensures kept { OnOk result ((l : Listener) → list_any (same_listener l) found.old.items ≡ true
        → list_any (same_listener l) found.new.items ≡ true) }
    ensures met { OnOk result ((p : Path) (s : SessionId) → meet keys.now p ≡ true
        → heard p s level.now ≡ true
        → list_any (same_listener (listener_of s (take depth path.now ++ p))) found.new.items
        ≡ true) }
    ensures only { OnOk result ((t : Listener → Bool)
        → AllByRecursion (λ l. t l ≡ true) found.old.items
        → ((p : Path) (s : SessionId) → meet keys.now p ≡ true → heard p s level.now ≡ true
        → t (listener_of s (take depth path.now ++ p)) ≡ true)
        → AllByRecursion (λ l. t l ≡ true) found.new.items) }
{
    let Some((key, rest)) = keys.split_first() else {
        return add_below(found, alloc, level, path);
    };
    add_above(found, alloc, &level.sessions, path, depth)?;
    match level.child(key) {
        Some(child) => add_met(found, alloc, child, path, depth + 1, rest),
        None => Ok(()),
    }
}

// The listeners whose paths the writes touch, each once and in order.
pub(crate) fn met(
    alloc: Global,
    root: &Level,
    writes: &[Basic],
) -> Result<Vec<Listener>, AllocError>
    ensures ordered { IfOk result (λ found. IsStrictlySortedBy listener_cmp found.items) }
    ensures all { IfOk result (λ found. (l : Listener) → is_touched writes.now l.path ≡ true
        → heard l.path l.session root.now ≡ true
        → list_any (same_listener l) found.items ≡ true) }
    ensures only { IfOk result (λ found. (l : Listener)
        → list_any (same_listener l) found.items ≡ true
        → (is_touched writes.now l.path ≡ true)
        × (heard l.path l.session root.now ≡ true)) }
{
    let mut found = Vec::new(alloc);
    for write in writes {
        let path = write.path();
        add_met(&mut found, alloc, root, path, 0, path.keys())?;
    }
    found.sort_unstable();
    found.dedup();
    Ok(found)
}
