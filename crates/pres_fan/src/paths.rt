//! What each session listens to.

ghost use Rattle.std.specs.Prelude.{List, ◌≡◌, [], length, is_some, IfOk, IfSome, OnOk, OnErr};
ghost use Rattle.std.specs.List.{list_any};
ghost use Rattle.pres_fan.specs.Listeners.{paths_of, listener_of, same_listener, with_listener, without, without_session};
ghost use Rattle.pres_fan.specs.Sets.{keys_in};

use pres_ids::SessionId;
use pres_tree::Path;
use std::alloc::{AllocError, Global};
use std::collections::{BTreeMap, BTreeSet};
use std::marker::Model;

/// The paths that each session listens to. Contracts see the list of the listeners, in order.
#[derive(Drop)]
pub(crate) struct SessionPaths {
    // A session that listens to nothing more may keep an empty set until it ends.
    sets: BTreeMap<SessionId, BTreeSet<Path>>,
}

impl Model for SessionPaths {
    ghost use Rattle.std.specs.Prelude.{List};
    ghost use Rattle.pres_fan.specs.Sets.{listeners_in, AreInOrder};
    ghost use Rattle.pres_fan.specs.declared.listeners.Listener.{Listener};

    ghost Value = { List Listener };

    ghost view = { λ p. listeners_in p.sets.entries };

    ghost invariant = { λ p. AreInOrder p.sets.entries };
}

// Copies of the paths, in order.
fn copy_set(alloc: Global, paths: &BTreeSet<Path>) -> Result<Vec<Path>, AllocError>
    ensures { IfOk result (λ made. made.items ≡ paths.now.keys) }
{
    let mut made = Vec::with_capacity(alloc, paths.len())?;
    for path in paths.iter() {
        made.push(path.copy(alloc)?)?;
    }
    Ok(made)
}

impl SessionPaths {
    // Nobody listens to anything. It takes no memory.
    pub(crate) fn new(alloc: Global) -> SessionPaths
        ensures { result ≡ [] }
    {
        SessionPaths {
            sets: BTreeMap::new(alloc),
        }
    }

    // How many paths the session listens to.
    pub(crate) fn count(&self, session: &SessionId) -> usize
        ensures { result ≡ length (paths_of session.now self.now) }
    {
        match self.sets.get(session) {
            Some(paths) => paths.len(),
            None => 0,
        }
    }

    // Whether the session listens to the path.
    pub(crate) fn has(&self, session: &SessionId, path: &Path) -> bool
        ensures { result ≡ list_any (same_listener (listener_of session.now path.now)) self.now }
    {
        match self.sets.get(session) {
            Some(paths) => paths.contains(path),
            None => false,
        }
    }

    // Copies of the paths that the session listens to, in order.
    pub(crate) fn copy_paths(
        &self,
        alloc: Global,
        session: &SessionId,
    ) -> Result<Vec<Path>, AllocError>
        ensures { IfOk result (λ made. made.items ≡ paths_of session.now self.now) }
    {
        match self.sets.get(session) {
            Some(paths) => copy_set(alloc, paths),
            None => Ok(Vec::new(alloc)),
        }
    }

    // The session listens to the path too. At a refusal nothing has changed.
    pub(crate) fn add(
        &mut self,
        alloc: Global,
        session: &SessionId,
        path: Path,
    ) -> Result<(), AllocError>
        ensures added { OnOk result (self.new ≡ with_listener session.now path self.old) }
        ensures unchanged { OnErr result (self.new ≡ self.old) }
    {
        if let Some(paths) = self.sets.get_mut(session) {
            paths.insert(path)?;
            return Ok(());
        }
        let session = session.copy(alloc)?;
        let mut paths = BTreeSet::new(alloc);
        paths.insert(path)?;
        drop(self.sets.insert(session, paths)?);
        Ok(())
    }

    // The session listens to the path no more: the path, if it did. It takes no memory.
    pub(crate) fn remove(&mut self, session: &SessionId, path: &Path) -> Option<Path>
        ensures left { self.new ≡ without session.now path.now self.old }
        ensures path { IfSome result (λ taken. taken ≡ path.now) }
        ensures listened { is_some result
            ≡ list_any (same_listener (listener_of session.now path.now)) self.old }
    {
        match self.sets.get_mut(session) {
            Some(paths) => paths.take(path),
            None => None,
        }
    }

    // The session listens to nothing more: what it listened to, if it has a set. It takes no memory.
    pub(crate) fn remove_session(&mut self, session: &SessionId) -> Option<BTreeSet<Path>>
        ensures left { self.new ≡ without_session session.now self.old }
        ensures paths { keys_in result ≡ paths_of session.now self.old }
    {
        self.sets.remove(session)
    }
}
