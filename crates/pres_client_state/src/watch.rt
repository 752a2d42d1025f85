//! The paths that a client listens to, and what it shows of them.

ghost use Rattle.std.specs.Prelude.{◌≡◌, ◌<◌, ◌^◌, [], map, length, IfOk, OnOk, OnErr, MatchOption, option_copied, Some, None};
ghost use Rattle.pres_client_state.specs.Watches.{kept, frozen, watch_of, with_watch, without_watch, tell, is_shown_live, is_live, shown_at, fresh};
ghost use Rattle.pres_client_state.specs.Watches.{on_of};

use crate::queued::Queued;
use pres_tree::{Path, Tree};
use pres_wire::Count;
use std::alloc::{AllocError, Global};
use std::collections::{BTreeMap, VecDeque};
use std::marker::Model;

/// What a client shows of a path.
#[derive(Drop)]
pub enum Shown {
    /// Nothing yet.
    Nothing,
    /// The value of an earlier session, and the server's number at which that session was left.
    Kept { number: Count, value: Tree },
    /// The value that this session sent last. It holds at the number of the last message.
    Live { value: Tree },
}

impl Shown {
    /// The number and the value, where the last message that was taken has the number `seen`.
    pub fn at(&self, seen: Count) -> Option<(u64, &Tree)>
        ensures { MatchOption result
            (shown_at seen self.now ≡ None)
            (λ v. shown_at seen self.now ≡ Some (v.0, v.1.now)) }
    {
        match self {
            Shown::Nothing => None,
            Shown::Kept { number, value } => Some((number.get(), value)),
            Shown::Live { value } => Some((seen.get(), value)),
        }
    }

    /// Whether this session sent it.
    pub fn is_live(&self) -> bool
        ensures { result ≡ is_shown_live self.now }
    {
        matches!(self, Shown::Live { .. })
    }

    // What stays of it when the session is left at the number.
    pub(crate) fn kept(self, seen: Count) -> Shown
        ensures { result ≡ kept seen self }
    {
        match self {
            Shown::Live { value } => Shown::Kept {
                number: seen,
                value,
            },
            shown => shown,
        }
    }
}

/// A path that is listened to.
#[derive(Drop)]
pub struct Watch {
    /// The request that asked for it.
    pub request: u64,
    pub shown: Shown,
}

/// The paths that are listened to. Contracts see the list of them, in path order.
#[derive(Drop)]
pub struct Watches {
    alloc: Global,
    by_path: BTreeMap<Path, Watch>,
}

impl Model for Watches {
    ghost use Rattle.std.specs.List.Sorted.{IsStrictlySortedBy};
    ghost use Rattle.std.specs.Map.{keys_of};
    ghost use Rattle.pres_tree.specs.Paths.{path_cmp};
    ghost use Rattle.pres_client_state.specs.Watches.{Watches};

    ghost Value = { Watches };

    ghost view = { λ w. w.by_path.entries };

    ghost invariant = { λ w. IsStrictlySortedBy path_cmp (keys_of w.by_path.entries) };
}

impl Watches {
    /// No path is listened to.
    pub fn new(alloc: Global) -> Watches
        ensures { result ≡ [] }
    {
        Watches {
            alloc,
            by_path: BTreeMap::new(alloc),
        }
    }

    /// How many paths.
    pub fn len(&self) -> usize
        ensures len { result ≡ length self.now }
        ensures fits { length self.now < 2 ^ 63 }
    {
        self.by_path.len()
    }

    /// That of the path.
    pub fn get(&self, path: &Path) -> Option<&Watch>
        ensures { option_copied result ≡ watch_of path.now self.now }
    {
        self.by_path.get(path)
    }

    /// Whether this session sent a value of the path.
    pub fn is_live(&self, path: &Path) -> bool
        ensures { result ≡ is_live (watch_of path.now self.now) }
    {
        match self.get(path) {
            Some(watch) => watch.shown.is_live(),
            None => false,
        }
    }

    /// The path is listened to for the request, in place of what was there.
    pub fn add(&mut self, path: Path, request: u64) -> Result<(), AllocError>
        ensures ok { OnOk result (self.new ≡ with_watch path (fresh request) self.old) }
        ensures err { OnErr result (self.new ≡ self.old) }
    {
        let watch = Watch {
            request,
            shown: Shown::Nothing,
        };
        drop(self.by_path.insert(path, watch)?);
        Ok(())
    }

    /// The path isn't listened to any more.
    pub fn remove(&mut self, path: &Path)
        ensures { self.new ≡ without_watch path.now self.old }
    {
        drop(self.by_path.remove(path));
    }

    /// This session sent the value of the path, where that is listened to.
    pub fn tell(&mut self, path: &Path, value: Tree)
        ensures { self.new ≡ tell path.now value self.old }
    {
        let Some(watch) = self.by_path.get_mut(path) else {
            drop(value);
            return;
        };
        drop(std::mem::replace(&mut watch.shown, Shown::Live { value }));
    }

    /// The session is left at the number: what it showed stays.
    pub fn freeze(&mut self, seen: Count)
        ensures { self.new ≡ frozen seen self.old }
    {
        self.by_path.retain(|_path, watch| {
            let shown = std::mem::replace(&mut watch.shown, Shown::Nothing);
            watch.shown = shown.kept(seen);
            true
        });
    }

    /// A listen for each path, in path order.
    pub fn listens(&self) -> Result<VecDeque<Queued>, AllocError>
        ensures { IfOk result (λ q. q.items ≡ map on_of self.now) }
    {
        let mut listens = VecDeque::new(self.alloc);
        for (path, watch) in self.by_path.iter() {
            let path = path.copy(self.alloc)?;
            listens.push_back(Queued::On {
                request: watch.request,
                path,
            })?;
        }
        Ok(listens)
    }
}
