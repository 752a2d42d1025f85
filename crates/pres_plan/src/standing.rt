//! The rows that stand, by their numbers and by their paths.

ghost use Rattle.std.specs.Prelude.{◌≡◌, ◌<◌, ◌≤◌, ◌==◌, ◌++◌, ◌∷◌, ℕ, List, [], All, false, Some, not, is_some, length, map, filter, take, unwrap_or, IfOk, IfSome, OnOk, OnErr};
ghost use Rattle.std.specs.List.{list_any};
ghost use Rattle.std.specs.List.Sorted.{IsStrictlySortedBy};
ghost use Rattle.std.specs.Map.{keys_of, values_of};
ghost use Rattle.std.specs.Ordering.{nat_cmp};
ghost use Rattle.pres_tree.specs.Paths.{path_cmp, is_prefix, overlap};
ghost use Rattle.pres_plan.specs.Plans.{path_of, is_left, IsPlan};
ghost use Rattle.pres_plan.specs.declared.row.PlanRow.{PlanRow};
ghost use Rattle.pres_plan.specs.Standing.{Entries, numbers_at, before_of, numbers_below, above, Tells, IsTop, AreTops, IsStanding};

use crate::numbered::Numbered;
use crate::places::{Places, Spot};
use crate::row::PlanRow;
use pres_tree::Path;
use pres_write::Placement;
use std::alloc::{AllocError, Global};

/// A row that is to come, its path once more, and the top of its spot.
#[derive(Drop)]
pub(crate) struct Arrival {
    pub(crate) row: PlanRow,
    pub(crate) place: Path,
    pub(crate) top: usize,
}

/// Rows in the order of their numbers, and for each of their paths the spot of its row.
#[derive(Drop)]
pub(crate) struct Standing {
    pub(crate) rows: Numbered,
    pub(crate) places: Places,
}

impl Standing {
    // No rows. It takes no memory.
    pub(crate) fn new(alloc: Global) -> Standing
        ensures rows { result.rows ≡ [] }
        ensures places { result.places ≡ [] }
    {
        Standing {
            rows: Numbered::new(alloc),
            places: Places::new(alloc),
        }
    }

    // How many rows stand at the path and below it.
    pub(crate) fn count_below(&self, path: &Path) -> usize
        requires { IsStanding self.now.rows self.now.places }
        ensures { result ≡ length (filter (λ row. is_prefix path.now (path_of row.action))
            (values_of self.now.rows)) }
    {
        self.places.below(path).len()
    }

    // How many rows stand at the placements' paths and below them, of which none is at or above
    // another.
    pub(crate) fn count_covered(&self, placements: &[Placement]) -> usize
        requires standing { IsStanding self.now.rows self.now.places }
        requires apart { overlap (map (λ p. p.0) placements.now) ≡ false }
        ensures { result ≡ length (filter
            (λ row. list_any (λ p. is_prefix p.0 (path_of row.action)) placements.now)
            (values_of self.now.rows)) }
    {
        let mut count = 0;
        for placement in placements {
            count += self.count_below(placement.path());
        }
        count
    }

    // Adds the numbers of the rows at the path and below it.
    fn push_below(&self, path: &Path, numbers: &mut Vec<u64>) -> Result<(), AllocError>
        ensures numbers { OnOk result (numbers.new.items
            ≡ numbers.old.items ++ numbers_below path.now self.now.places) }
        ensures ordered { IsStrictlySortedBy path_cmp (keys_of self.now.places) }
    {
        for (_, spot) in self.places.below(path) {
            numbers.push(spot.row)?;
        }
        Ok(())
    }

    // How many keys the shortest path above this one has at which a row stands, if there is one.
    pub(crate) fn top_above(&self, path: &Path) -> Option<usize>
        requires tells { Tells self.now.places self.now.rows }
        requires tops { AreTops (values_of self.now.rows) self.now.places }
        ensures above { is_some result ≡ above path.now (values_of self.now.rows) }
        ensures top { IsTop (values_of self.now.rows) path.now
            (unwrap_or result (length path.now)) }
    {
        let (place, spot) = self.places.last_before(path)?;
        let start = &place.keys()[..spot.top];
        if spot.top < path.len() && path.keys().starts_with(start) {
            Some(spot.top)
        } else {
            None
        }
    }

    // The number of the row at the path, if one stands there.
    fn row_at(&self, path: &Path) -> Option<u64>
        requires tells { Tells self.now.places self.now.rows }
        requires one { length (numbers_at path.now self.now.rows) ≤ 1 }
        ensures { before_of result ≡ numbers_at path.now self.now.rows }
    {
        match self.places.get(path) {
            Some(spot) => Some(spot.row),
            None => None,
        }
    }

    // Puts the row last, which takes its place from the one that stands there. At a refusal
    // nothing has changed.
    fn add(&mut self, new: Arrival) -> Result<(), AllocError>
        requires tells { Tells self.old.places self.old.rows }
        requires place { new.place ≡ path_of new.row.action }
        requires one { length (numbers_at new.place self.old.rows) ≤ 1 }
        ensures tells { Tells self.new.places self.new.rows }
        ensures tops { (rows : List PlanRow) → AreTops rows self.old.places
            → IsTop rows new.place new.top → AreTops rows self.new.places }
        ensures added { OnOk result ((n : ℕ)
            × (self.new.rows ≡ self.old.rows ++ (n, new.row) ∷ [])) }
        ensures unchanged { OnErr result (self.new.rows ≡ self.old.rows) }
    {
        let Some(row) = self.rows.next_number() else {
            return Err(AllocError);
        };
        let Arrival {
            row: new,
            place,
            top,
        } = new;
        let before = self.row_at(&place);
        self.rows.push(row, new)?;
        let spot = Spot { row, before, top };
        match self.places.insert(place, spot) {
            Ok(()) => Ok(()),
            Err(refused) => {
                drop(self.rows.pop());
                Err(refused)
            }
        }
    }

    // Takes the row of the number away, if there is one. It takes no memory.
    fn remove(&mut self, number: u64)
        requires tells { Tells self.old.places self.old.rows }
        ensures tells { Tells self.new.places self.new.rows }
        ensures tops { (rows : List PlanRow) → AreTops rows self.old.places
            → AreTops rows self.new.places }
        ensures rows { self.new.rows
            ≡ filter (λ e. not (number == e.0)) self.old.rows }
    {
        let Some(row) = self.rows.remove(number) else {
            return;
        };
        self.places.forget(row.action.path(), number);
    }

    // Takes the rows of the numbers away. It takes no memory.
    fn remove_all(&mut self, numbers: &[u64])
        requires tells { Tells self.old.places self.old.rows }
        ensures tells { Tells self.new.places self.new.rows }
        ensures tops { (rows : List PlanRow) → AreTops rows self.old.places
            → AreTops rows self.new.places }
        ensures rows { self.new.rows
            ≡ filter (λ e. not (list_any (λ n. n == e.0) numbers.now)) self.old.rows }
        ensures ordered { IsStrictlySortedBy nat_cmp (keys_of self.old.rows) }
    {
        // it ensures that they are in order
        let _ = self.rows.len();
        for number in numbers {
            self.remove(*number);
        }
    }

    // Removes the last rows and keeps this many. It takes no memory.
    fn cut(&mut self, len: usize)
        requires tells { Tells self.old.places self.old.rows }
        ensures tells { Tells self.new.places self.new.rows }
        ensures tops { (rows : List PlanRow) → AreTops rows self.old.places
            → AreTops rows self.new.places }
        ensures rows { self.new.rows ≡ take len self.old.rows }
    {
        while self.rows.len() > len {
            let Some((number, row)) = self.rows.pop() else {
                return;
            };
            self.places.forget(row.action.path(), number);
        }
    }

    // Puts the rows last, or some first ones of them at a refusal.
    fn add_all(&mut self, new: Vec<Arrival>) -> Result<(), AllocError>
        requires tells { Tells self.old.places self.old.rows }
        requires plan { IsPlan (values_of self.old.rows) }
        requires places { All (λ a. a.place ≡ path_of a.row.action) new.items }
        requires apart { overlap (map (λ a. path_of a.row.action) new.items) ≡ false }
        ensures tells { Tells self.new.places self.new.rows }
        ensures tops { (rows : List PlanRow) → AreTops rows self.old.places
            → All (λ a. IsTop rows a.place a.top) new.items → AreTops rows self.new.places }
        ensures added { OnOk result ((more : Entries)
            × (self.new.rows ≡ self.old.rows ++ more)
            × (values_of more ≡ map (λ a. a.row) new.items)) }
        ensures some { OnErr result ((more : Entries)
            × (self.new.rows ≡ self.old.rows ++ more)) }
    {
        for arrival in new {
            self.add(arrival)?;
        }
        Ok(())
    }

    // The numbers of the rows that these cover.
    fn covered(&self, alloc: Global, rows: &[PlanRow]) -> Result<Vec<u64>, AllocError>
        ensures numbers { IfOk result (λ made. (n : ℕ) → list_any (λ m. m == n) made.items
            ≡ list_any (λ row. list_any (λ m. m == n)
            (numbers_below (path_of row.action) self.now.places)) rows.now) }
        ensures ordered { IsStrictlySortedBy path_cmp (keys_of self.now.places) }
    {
        // it ensures that they are in order
        let _ = self.places.len();
        let mut made = Vec::new(alloc);
        for row in rows {
            self.push_below(row.action.path(), &mut made)?;
        }
        Ok(made)
    }

    // The rows with copies of their paths, and the tops of their spots.
    fn arrivals(&self, alloc: Global, rows: Vec<PlanRow>) -> Result<Vec<Arrival>, AllocError>
        requires tells { Tells self.now.places self.now.rows }
        requires tops { AreTops (values_of self.now.rows) self.now.places }
        ensures rows { IfOk result (λ made. map (λ a. a.row) made.items ≡ rows.items) }
        ensures places { IfOk result (λ made. All (λ a. a.place ≡ path_of a.row.action) made.items) }
        ensures tops { IfOk result
            (λ made. All (λ a. IsTop (values_of self.now.rows) a.place a.top) made.items) }
    {
        let mut made = Vec::new(alloc);
        for row in rows {
            let place = row.action.path().copy(alloc)?;
            let above = self.top_above(&place);
            let keys = place.len();
            let top = above.unwrap_or(keys);
            made.push(Arrival { row, place, top })?;
        }
        Ok(made)
    }

    /// Puts the rows last, in place of those that they cover. At a refusal no row has changed.
    pub(crate) fn replace(&mut self, alloc: Global, rows: Vec<PlanRow>) -> Result<(), AllocError>
        requires standing { IsStanding self.old.rows self.old.places }
        requires apart { overlap (map (λ row. path_of row.action) rows.items) ≡ false }
        ensures ok { OnOk result (values_of self.new.rows
            ≡ filter (is_left rows.items) (values_of self.old.rows) ++ rows.items) }
        ensures err { OnErr result
            (values_of self.new.rows ≡ values_of self.old.rows) }
        ensures tells { Tells self.new.places self.new.rows }
        ensures tops { AreTops (values_of self.new.rows) self.new.places }
    {
        let covered = self.covered(alloc, &rows)?;
        let arrivals = self.arrivals(alloc, rows)?;
        let len = self.rows.len();
        match self.add_all(arrivals) {
            Ok(()) => {
                self.remove_all(&covered);
                Ok(())
            }
            Err(refused) => {
                self.cut(len);
                Err(refused)
            }
        }
    }

    /// Takes the rows away that are at the path or below it. At a refusal no row has changed.
    pub(crate) fn take_back(&mut self, alloc: Global, path: &Path) -> Result<(), AllocError>
        requires standing { IsStanding self.old.rows self.old.places }
        ensures ok { OnOk result (values_of self.new.rows
            ≡ filter (λ row. not (is_prefix path.now (path_of row.action)))
            (values_of self.old.rows)) }
        ensures err { OnErr result
            (values_of self.new.rows ≡ values_of self.old.rows) }
        ensures tells { Tells self.new.places self.new.rows }
        ensures tops { AreTops (values_of self.new.rows) self.new.places }
    {
        let mut covered = Vec::new(alloc);
        self.push_below(path, &mut covered)?;
        self.remove_all(&covered);
        Ok(())
    }
}
