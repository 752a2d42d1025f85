//! The puts of one operation.

ghost use Rattle.std.specs.Prelude.{◌≡◌, ◌≤◌, ◌&&◌, ◌∷◌, [], true, false, not, IfOk, length};
ghost use Rattle.std.specs.List.Sorted.{IsStrictlySortedBy};
ghost use Rattle.std.specs.Map.{keys_of};
ghost use Rattle.std.specs.Ordering.{is_lt};
ghost use Rattle.pres_tree.specs.Paths.{path_cmp, is_prefix, overlap};
ghost use Rattle.pres_write.specs.Unconditionals.{ArePuts, may_be_puts, as_puts};
ghost use Rattle.pres_write.specs.Updates.{most_places};

use crate::items::Items;
use crate::placement::Placement;
use crate::update::MOST;
use std::alloc::{AllocError, Global};
use std::marker::Model;

// Whether the path of the first is before that of the second and not above it.
fn is_apart_before(first: &Placement, second: &Placement) -> bool
    ensures { result ≡ (is_lt (path_cmp first.now.0 second.now.0)
        && not (is_prefix first.now.0 second.now.0)) }
{
    let (first, second) = (first.path(), second.path());
    first < second && !first.is_prefix_of(second)
}

// Whether the placements may be the puts of one operation.
fn may_be_puts(placements: &[Placement]) -> bool
    ensures { result ≡ may_be_puts placements.now }
{
    placements.len() <= MOST && placements.is_sorted_by(is_apart_before)
}

/// Drafts at 0 to 256 paths in path order, of which none is at or above another. Contracts see
/// the list of the paths with their drafts.
#[derive(Drop)]
pub struct Puts {
    placements: Vec<Placement>,
}

impl Model for Puts {
    ghost use Rattle.pres_write.specs.Unconditionals.{ArePuts};
    ghost use Rattle.pres_write.specs.Updates.{Places};

    ghost Value = { Places };

    ghost view = { λ p. p.placements.items };

    ghost invariant = { λ p. ArePuts p.placements.items };
}

impl Puts {
    /// Those of the placements, which are moved; none where they aren't in path order, or one is
    /// at or above another, or they are more than 256.
    pub fn new(placements: Vec<Placement>) -> Option<Puts>
        ensures { result ≡ as_puts placements.items }
    {
        if !may_be_puts(placements.as_slice()) {
            return None;
        }
        Some(Puts { placements })
    }

    // Those of placements that are in order and apart.
    pub(crate) fn of(placements: Vec<Placement>) -> Puts
        requires { ArePuts placements.items }
        ensures { result ≡ placements.items }
    {
        Puts { placements }
    }

    // The one of a placement.
    pub(crate) fn one(alloc: Global, placement: Placement) -> Result<Puts, AllocError>
        ensures { IfOk result (λ puts. puts ≡ placement ∷ []) }
    {
        let mut placements = Vec::new(alloc);
        placements.push(placement)?;
        Ok(Puts { placements })
    }

    /// The drafts at their paths.
    pub fn as_slice(&self) -> &[Placement]
        ensures placements { result.now ≡ self.now }
        ensures in_order { IsStrictlySortedBy path_cmp (keys_of self.now) }
        ensures apart { overlap (keys_of self.now) ≡ false }
        ensures few { length self.now ≤ most_places }
        ensures puts { may_be_puts self.now ≡ true }
    {
        self.placements.as_slice()
    }

    /// The drafts at their paths, which are moved.
    pub fn into_items(self) -> Items<Placement>
        ensures placements { result ≡ self }
        ensures in_order { IsStrictlySortedBy path_cmp (keys_of self) }
        ensures apart { overlap (keys_of self) ≡ false }
        ensures few { length self ≤ most_places }
    {
        Items::of(self.placements)
    }

    /// Equal puts.
    pub fn copy(&self, alloc: Global) -> Result<Puts, AllocError>
        ensures { IfOk result (λ made. made ≡ self.now) }
    {
        let mut placements = Vec::new(alloc);
        for placement in &self.placements {
            placements.push(placement.copy(alloc)?)?;
        }
        Ok(Puts { placements })
    }
}
