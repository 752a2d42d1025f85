//! Who listens at a path, at each path below it, and so on: a tree of paths.

ghost use Rattle.std.specs.Prelude.{◌≡◌, ◌||◌, ◌&&◌, ◌↔◌, not, IsTrue, OnOk, OnErr, option_map};
ghost use Rattle.pres_tree.specs.Paths.{Path};
ghost use Rattle.pres_ids.specs.declared.id.SessionId.{SessionId};
ghost use Rattle.pres_fan.specs.Listeners.{listener_of, same_listener};
ghost use Rattle.pres_fan.specs.Levels.{child_at, heard, size_of, IsUsed, IsTidy, IsBare};

use crate::sessions::Sessions;
use pres_ids::SessionId;
use pres_tree::{Children, Key};
use std::alloc::{AllocError, Global};

/// The sessions that listen at a path, and the levels at the paths that go on by one key.
#[derive(Drop)]
pub(crate) struct Level {
    pub(crate) sessions: Sessions,
    // `None` stands for no level, as it does without children.
    pub(crate) below: Option<Children<Level>>,
}

impl Level {
    // Nobody listens there or below. It takes no memory.
    pub(crate) fn new(alloc: Global) -> Level
        ensures { IsBare result }
    {
        Level {
            sessions: Sessions::new(alloc),
            below: None,
        }
    }

    // The level that the key leads to.
    pub(crate) fn child(&self, key: &Key) -> Option<&Level>
        ensures { option_map (λ c. c.now) result ≡ child_at key.now self.now }
    {
        match &self.below {
            Some(below) => below.get(key),
            None => None,
        }
    }

    // Whether it has neither a session nor a level below it.
    fn is_empty(&self) -> bool
        ensures { IsTrue result ↔ (size_of self.now ≡ 0) }
    {
        match &self.below {
            Some(below) => below.is_empty() && self.sessions.is_empty(),
            None => self.sessions.is_empty(),
        }
    }

    // The session listens at the keys too. At a refusal nothing has changed.
    pub(crate) fn add(
        &mut self,
        alloc: Global,
        keys: &[Key],
        session: &SessionId,
    ) -> Result<(), AllocError>
        ensures added { OnOk result ((p : Path) (s : SessionId) → heard p s self.new
            ≡ (same_listener (listener_of session.now keys.now) (listener_of s p)
            || heard p s self.old)) }
        ensures unchanged { OnErr result ((p : Path) (s : SessionId)
            → heard p s self.new ≡ heard p s self.old) }
        ensures used { OnOk result (IsUsed self.new) }
        ensures stays_used { IsUsed self.old → IsUsed self.new }
        ensures tidy { IsTidy self.old → IsTidy self.new }
    {
        let Some((key, rest)) = keys.split_first() else {
            return self.sessions.add(alloc, session);
        };
        let below = self.below.get_or_insert(Children::new(alloc));
        if let Some(child) = below.get_mut(key) {
            return child.add(alloc, rest, session);
        }
        let mut child = Level::new(alloc);
        child.add(alloc, rest, session)?;
        drop(below.insert(alloc, key.copy(alloc)?, child)?);
        Ok(())
    }

    // The session listens at the keys no more. It takes no memory, and no empty level stays.
    pub(crate) fn remove(&mut self, keys: &[Key], session: &SessionId)
        ensures left { (p : Path) (s : SessionId) → heard p s self.new
            ≡ (not (same_listener (listener_of session.now keys.now) (listener_of s p))
            && heard p s self.old) }
        ensures tidy { IsTidy self.old → IsTidy self.new }
    {
        let Some((key, rest)) = keys.split_first() else {
            self.sessions.remove(session);
            return;
        };
        let Some(below) = &mut self.below else {
            return;
        };
        let Some(child) = below.get_mut(key) else {
            return;
        };
        child.remove(rest, session);
        if child.is_empty() {
            drop(below.remove(key));
            if below.is_empty() {
                self.below = None;
            }
        }
    }
}
