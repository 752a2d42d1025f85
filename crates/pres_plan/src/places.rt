//! The spots of the paths at which rows stand, in path order.

ghost use Rattle.std.specs.Prelude.{◌≡◌, ◌≤◌, [], ℕ, List, Some, None, true, false, length, take, drop, filter, if◌then◌else◌, IfSome, OnOk, OnErr};
ghost use Rattle.std.specs.Ordering.{is_lt};
ghost use Rattle.std.specs.declared.cmp.Ordering.TheVariants.{Less};
ghost use Rattle.std.specs.List.{AllByRecursion};
ghost use Rattle.std.specs.List.Sorted.{IsStrictlySortedBy};
ghost use Rattle.std.specs.Map.{keys_of};
ghost use Rattle.std.specs.Option.{option_map};
ghost use Rattle.pres_tree.specs.Paths.{Path, path_cmp, same_path, is_prefix};
ghost use Rattle.pres_plan.specs.Places.{spot_at, Sets, IsBefore, place_of};
ghost use Rattle.pres_plan.specs.Standing.{numbers_of, without, AreTops};
ghost use Rattle.pres_plan.specs.declared.row.PlanRow.{PlanRow};

use pres_tree::Path;
use std::alloc::{AllocError, Global};
use std::marker::Model;

/// Where the row of a path stands.
#[derive(Clone, Copy)]
pub(crate) struct Spot {
    /// Its number.
    pub(crate) row: u64,
    /// The number of the row in whose place it comes, until that one is gone.
    pub(crate) before: Option<u64>,
    /// How many keys the shortest path has at which a row stands, of the path and those above it.
    pub(crate) top: usize,
}

impl Spot {
    // What it is without the row of the number: none where no other stands there.
    fn without(self, number: u64) -> Option<Spot>
        ensures numbers { numbers_of result ≡ without number (numbers_of (Some self)) }
        ensures top { IfSome result (λ left. left.top ≡ self.top) }
    {
        let before = match self.before {
            Some(other) if other != number => Some(other),
            _ => None,
        };
        if self.row != number {
            return Some(Spot { before, ..self });
        }
        match before {
            Some(row) => Some(Spot {
                row,
                before: None,
                top: self.top,
            }),
            None => None,
        }
    }
}

/// The spots by their paths, in one list, which binary search reads: a plan has few. Contracts see
/// the list, in path order.
#[derive(Drop)]
pub(crate) struct Places {
    list: Vec<(Path, Spot)>,
}

impl Model for Places {
    ghost use Rattle.std.specs.List.Sorted.{IsStrictlySortedBy};
    ghost use Rattle.std.specs.Map.{keys_of};
    ghost use Rattle.pres_tree.specs.Paths.{path_cmp};
    ghost use Rattle.pres_plan.specs.Places.{Spots};

    ghost Value = { Spots };

    ghost view = { λ p. p.list.items };

    ghost invariant = { λ p. IsStrictlySortedBy path_cmp (keys_of p.list.items) };
}

impl Places {
    // None. It takes no memory.
    pub(crate) fn new(alloc: Global) -> Places
        ensures { result ≡ [] }
    {
        Places {
            list: Vec::new(alloc),
        }
    }

    // How many there are.
    pub(crate) fn len(&self) -> usize
        ensures len { result ≡ length self.now }
        ensures ordered { IsStrictlySortedBy path_cmp (keys_of self.now) }
    {
        self.list.len()
    }

    // How many come before the path.
    fn count_before(&self, path: &Path) -> usize
        ensures bound { result ≤ length self.now }
        ensures before { AllByRecursion (λ e. path_cmp e.0 path.now ≡ Less) (take result self.now) }
        ensures after { AllByRecursion (λ e. is_lt (path_cmp e.0 path.now) ≡ false) (drop result self.now) }
    {
        self.list.partition_point(|entry| entry.0.cmp(path).is_lt())
    }

    // Where the path stands, or where it is to go.
    fn place(&self, path: &Path) -> Result<usize, usize>
        ensures { result ≡ place_of path.now self.now }
    {
        let at = self.count_before(path);
        match self.list.get(at) {
            Some(entry) if entry.0 == *path => Ok(at),
            _ => Err(at),
        }
    }

    // The spot of the path.
    pub(crate) fn get(&self, path: &Path) -> Option<&Spot>
        ensures { option_map (λ s. s.now) result ≡ spot_at path.now self.now }
    {
        match self.place(path) {
            Ok(at) => Some(&self.list[at].1),
            Err(_) => None,
        }
    }

    // The spots of the path and of those below it.
    pub(crate) fn below(&self, path: &Path) -> &[(Path, Spot)]
        ensures entries { result.now ≡ filter (λ e. is_prefix path.now e.0) self.now }
        ensures ordered { IsStrictlySortedBy path_cmp (keys_of self.now) }
    {
        let rest = &self.list[self.count_before(path)..];
        let end = rest.partition_point(|entry| path.is_prefix_of(&entry.0));
        &rest[..end]
    }

    // The last spot before the path, with its own.
    pub(crate) fn last_before(&self, path: &Path) -> Option<&(Path, Spot)>
        ensures some { IfSome result (λ e. IsBefore self.now path.now e.now.0 e.now.1) }
        ensures none { result ≡ None
            → (q : Path) → path_cmp q path.now ≡ Less → spot_at q self.now ≡ None }
    {
        self.list[..self.count_before(path)].last()
    }

    // Puts the spot at the path, in place of the one that stands there. At a refusal nothing has
    // changed.
    pub(crate) fn insert(&mut self, path: Path, spot: Spot) -> Result<(), AllocError>
        ensures ok { OnOk result (Sets path (Some spot) self.old self.new) }
        ensures err { OnErr result (self.new ≡ self.old) }
    {
        match self.place(&path) {
            Ok(at) => {
                let entry = &mut self.list[at];
                entry.1 = spot;
            }
            Err(at) => self.list.insert(at, (path, spot))?,
        }
        Ok(())
    }

    // The path's spot no longer has the row of the number. It takes no memory.
    pub(crate) fn forget(&mut self, path: &Path, number: u64)
        ensures told { (other : Path) → numbers_of (spot_at other self.new)
            ≡ (if same_path other path.now then without number (numbers_of (spot_at other self.old))
            else numbers_of (spot_at other self.old)) }
        ensures tops { (rows : List PlanRow) → AreTops rows self.old → AreTops rows self.new }
    {
        let Ok(at) = self.place(path) else {
            return;
        };
        match self.list[at].1.without(number) {
            Some(left) => {
                let entry = &mut self.list[at];
                entry.1 = left;
            }
            None => drop(self.list.remove(at)),
        }
    }
}
