//! Listeners, and whom writes touch.

ghost use Rattle.std.specs.Prelude.{List, ◌≡◌, ◌↔◌, ◌<◌, ◌++◌, ◌∷◌, ◌&&◌, not, [], length, nat_le, IfOk, IfErr, IsErrOf, OnOk, OnErr};
ghost use Rattle.std.specs.List.{list_any};
ghost use Rattle.std.specs.List.Sorted.{IsStrictlySortedBy};
ghost use Rattle.pres_tree.specs.Paths.{Path, same_path};
ghost use Rattle.pres_ids.specs.Ids.{same_session};
ghost use Rattle.pres_ids.specs.declared.id.SessionId.{SessionId};
ghost use Rattle.pres_fan.specs.Levels.{heard, IsTidy};
ghost use Rattle.pres_fan.specs.Listeners.{most_paths, IsListeners, paths_of, listener_of, same_listener, with_listener, without, without_session, touched, by_session, listener_cmp};
ghost use Rattle.pres_fan.specs.declared.fault.FanFault.TheVariants.{Full, Memory};
ghost use Rattle.pres_fan.specs.declared.listeners.Listener.{Listener};

use crate::fault::FanFault;
use crate::index::met;
use crate::level::Level;
use crate::paths::SessionPaths;
use pres_ids::SessionId;
use pres_tree::Path;
use pres_write::{Basic, Items};
use std::alloc::{AllocError, Global};
use std::collections::BTreeSet;
use std::marker::Model;

/// The most places that a session listens to.
pub const MOST_PATHS: usize = 256;

/// A session and a place that it listens to. Ordered by session, then by path.
#[derive(Drop, PartialEq, Eq, PartialOrd, Ord)]
pub struct Listener {
    pub session: SessionId,
    pub path: Path,
}

/// A session that writes touch, with the places that it listens to and that they touch. Contracts
/// see it as the pair.
#[derive(Drop)]
pub struct Touched {
    session: SessionId,
    paths: Vec<Path>,
}

impl Model for Touched {
    ghost use Rattle.std.specs.Prelude.{List};
    ghost use Rattle.pres_tree.specs.Paths.{Path};
    ghost use Rattle.pres_ids.specs.declared.id.SessionId.{SessionId};

    ghost Value = { SessionId × List Path };

    ghost view = { λ t. (t.session, t.paths.items) };
}

impl Touched {
    // A session with one place.
    fn one(alloc: Global, session: SessionId, path: Path) -> Result<Touched, AllocError>
        ensures { IfOk result (λ made. made ≡ (session, path ∷ [])) }
    {
        let mut paths = Vec::new(alloc);
        paths.push(path)?;
        Ok(Touched { session, paths })
    }

    // One place more.
    fn push(&mut self, path: Path) -> Result<(), AllocError>
        ensures { OnOk result (self.new ≡ (self.old.0, self.old.1 ++ path ∷ [])) }
    {
        self.paths.push(path)?;
        Ok(())
    }

    /// The session.
    pub fn session(&self) -> &SessionId
        ensures { result.now ≡ self.now.0 }
    {
        &self.session
    }

    /// The places, in path order.
    pub fn paths(&self) -> &[Path]
        ensures { result.now ≡ self.now.1 }
    {
        self.paths.as_slice()
    }

    /// The session and the places, which are moved.
    pub fn into_parts(self) -> (SessionId, Items<Path>)
        ensures { result ≡ self }
    {
        (self.session, Items::of(self.paths))
    }
}

/// Which sessions listen to which places, at most `MOST_PATHS` each. Contracts see the list of the
/// listeners, in order.
#[derive(Drop)]
pub struct Listeners {
    paths: SessionPaths,
    // Who listens at each path, by which those that a write touches are found.
    root: Level,
}

impl Model for Listeners {
    ghost use Rattle.std.specs.Prelude.{List};
    ghost use Rattle.pres_fan.specs.Listeners.{IsListeners};
    ghost use Rattle.pres_fan.specs.Levels.{AreHeard};
    ghost use Rattle.pres_fan.specs.declared.listeners.Listener.{Listener};

    ghost Value = { List Listener };

    ghost view = { λ l. l.paths };

    ghost invariant = { λ l. IsListeners l.paths × AreHeard l.paths l.root };
}

impl Listeners {
    /// Nobody listens. It takes no memory.
    pub fn new(alloc: Global) -> Listeners
        ensures { result ≡ [] }
    {
        Listeners {
            paths: SessionPaths::new(alloc),
            root: Level::new(alloc),
        }
    }

    /// How many places the session listens to. It takes no memory.
    pub fn count(&self, session: &SessionId) -> usize
        ensures count { result ≡ length (paths_of session.now self.now) }
        ensures listeners { IsListeners self.now }
    {
        self.paths.count(session)
    }

    /// Copies of the places that the session listens to, in path order. Memory is the one refusal.
    pub fn copy_paths(&self, alloc: Global, session: &SessionId) -> Result<Vec<Path>, AllocError>
        ensures paths { IfOk result (λ made. made.items ≡ paths_of session.now self.now) }
        ensures listeners { IsListeners self.now }
    {
        self.paths.copy_paths(alloc, session)
    }

    /// Whether the session listens to at most `MOST_PATHS` places with this one. It takes no
    /// memory.
    pub fn may_listen(&self, session: &SessionId, path: &Path) -> bool
        ensures room { result ≡ nat_le
            (length (paths_of session.now (with_listener session.now path.now self.now)))
            most_paths }
        ensures listeners { IsListeners self.now }
    {
        self.paths.has(session, path) || self.paths.count(session) < MOST_PATHS
    }

    /// The session listens to the place; twice is as once. Full where it would listen to more than
    /// `MOST_PATHS` places; at a refusal nothing has changed.
    pub fn on(&mut self, alloc: Global, session: &SessionId, path: Path) -> Result<(), FanFault>
        ensures ok { OnOk result (self.new ≡ with_listener session.now path self.old) }
        ensures full { IsErrOf result Full ↔ (most_paths
            < length (paths_of session.now (with_listener session.now path self.old))) }
        ensures unchanged { OnErr result (self.new ≡ self.old) }
        ensures listeners { IsListeners self.old }
    {
        if !self.may_listen(session, &path) {
            return Err(FanFault::Full);
        }
        if self.paths.has(session, &path) {
            return Ok(());
        }
        self.paths.add(alloc, session, path.copy(alloc)?)?;
        if let Err(_) = self.root.add(alloc, path.keys(), session) {
            drop(self.paths.remove(session, &path));
            return Err(FanFault::Memory);
        }
        Ok(())
    }

    /// The session listens to the place no more. It takes no memory, and nothing is refused.
    pub fn off(&mut self, session: &SessionId, path: &Path)
        ensures { self.new ≡ without session.now path.now self.old }
    {
        drop(self.paths.remove(session, path));
        self.root.remove(path.keys(), session);
    }

    /// The session listens to nothing more. It takes no memory, and nothing is refused.
    pub fn drop_session(&mut self, session: &SessionId)
        ensures { self.new ≡ without_session session.now self.old }
    {
        if let Some(paths) = self.paths.remove_session(session) {
            remove_all(&mut self.root, session, paths);
        }
    }

    /// The sessions that listen to a place that the writes touch, each once, with those places, in
    /// order. Memory is the one refusal.
    pub fn touched(&self, alloc: Global, writes: &[Basic]) -> Result<Vec<Touched>, FanFault>
        ensures rows { IfOk result (λ rows. rows.items ≡ touched writes.now self.now) }
        ensures err { IfErr result (λ e. e ≡ Memory) }
        ensures listeners { IsListeners self.now }
    {
        let mut rows = Vec::new(alloc);
        for listener in met(alloc, &self.root, writes)? {
            add(&mut rows, alloc, listener)?;
        }
        Ok(rows)
    }
}

// The session listens at the paths no more.
fn remove_all(root: &mut Level, session: &SessionId, paths: BTreeSet<Path>)
    ensures left { (p : Path) (s : SessionId) → heard p s root.new
        ≡ (not (same_session session.now s && list_any (same_path p) paths.keys)
        && heard p s root.old) }
    ensures tidy { IsTidy root.old → IsTidy root.new }
{
    for path in paths {
        root.remove(path.keys(), session);
    }
}

// Appends a listener after those of the rows: its place goes to the last row, or to a new row where
// the last one is of another session.
fn add(rows: &mut Vec<Touched>, alloc: Global, listener: Listener) -> Result<(), AllocError>
    ensures { (before : List Listener)
        → IsStrictlySortedBy listener_cmp (before ++ listener ∷ [])
        → rows.old.items ≡ by_session before
        → OnOk result (rows.new.items ≡ by_session (before ++ listener ∷ [])) }
{
    let Listener { session, path } = listener;
    if let Some(last) = rows.last_mut() {
        if last.session == session {
            last.push(path)?;
            return Ok(());
        }
    }
    rows.push(Touched::one(alloc, session, path)?)?;
    Ok(())
}
