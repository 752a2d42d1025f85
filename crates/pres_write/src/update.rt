//! Updates: drafts at several places, written all or none.

ghost use Rattle.std.specs.Prelude.{◌≡◌, ◌⊎◌, ◌≤◌, ◌++◌, All, IfOk, MatchResult, Ok, Err, Some, None, false, length, unwrap_or};
ghost use Rattle.std.specs.BTreeMap.{IsOrdered};
ghost use Rattle.std.specs.List.{list_any};
ghost use Rattle.std.specs.Map.{keys_of};
ghost use Rattle.serde_json.specs.View.{view, members_view};
ghost use Rattle.pres_tree.specs.Paths.{IsPath, segments, path_cmp, sorted_by, meet, overlap};
ghost use Rattle.pres_tree.specs.JsonReading.{rows_of};
ghost use Rattle.pres_tree.specs.declared.fault.TreeFault.TheVariants.{Memory};
ghost use Rattle.pres_write.specs.Basics.{Apart};
ghost use Rattle.pres_write.specs.Drafts.{slot_reading};
ghost use Rattle.pres_write.specs.OpForms.{below_read, place_fault, values_json};
ghost use Rattle.pres_write.specs.Unconditionals.{puts_below};
ghost use Rattle.pres_write.specs.Updates.{FitsBelow, most_places, is_deep_below, update_fault, update_of, update_writes};
ghost use Rattle.pres_write.specs.declared.fault.WriteFault.TheVariants.{Tree as TreeRefused};

use crate::basic::{Basic, moved_write, settled_write};
use crate::draft::{Draft, DraftLeaf, DraftLeafForm};
use crate::fault::WriteFault;
use crate::items::Items;
use crate::moment::Moment;
use crate::placement::Placement;
use crate::puts::Puts;
use pres_tree::{MAX_DEPTH, Path, Tree, TreeFault, from_value_under, to_value};
use serde_json::{Map, Value};
use std::alloc::{AllocError, Global};
use std::collections::BTreeMap;
use std::marker::Model;

// The places of the largest update.
pub(crate) const MOST: usize = 256;

/// Drafts at 0 to 256 places below a path, of which none is at or above another. Contracts see
/// the path, and the places in path order with the path cut off.
pub struct Update {
    path: Path,
    places: BTreeMap<Path, Draft>,
}

// Written out so that dropping an update is one step of a proof, in the crates above too.
impl Drop for Update {
    fn drop(self) {
        let Update { path: _, places: _ } = self;
    }
}

impl Model for Update {
    ghost use Rattle.pres_write.specs.Updates.{PlacesBelow, IsUpdate};

    ghost Value = { PlacesBelow };

    ghost view = { λ u. record { path = u.path; places = u.places.entries } };

    ghost invariant = { λ u. IsUpdate (record { path = u.path; places = u.places.entries }) };
}

// Whether a place is no path below the path, or its draft is nested too deep there.
fn has_deep(path: &Path, places: &[(Path, Draft)]) -> bool
    ensures deep { result ≡ list_any (is_deep_below path.now) places.now }
    ensures fit { result ≡ false → All (FitsBelow path.now) places.now }
{
    let Some(((place, draft), rest)) = places.split_first() else {
        return false;
    };
    if path.len() + place.len() + draft.depth() > MAX_DEPTH {
        return true;
    }
    has_deep(path, rest)
}

// Whether the place is at or above one of these, or one of these is above it.
fn meets_any(place: &Path, others: &[(Path, Draft)]) -> bool
    ensures { result ≡ list_any (meet place.now) (keys_of others.now) }
{
    let Some(((other, _), rest)) = others.split_first() else {
        return false;
    };
    if place.is_prefix_of(other) || other.is_prefix_of(place) {
        return true;
    }
    meets_any(place, rest)
}

// Whether one of the places is at or above another. It takes no memory, so that a failed allocation
// comes after it.
fn meet_anywhere(places: &[(Path, Draft)]) -> bool
    ensures { result ≡ overlap (keys_of places.now) }
{
    let Some(((place, _), rest)) = places.split_first() else {
        return false;
    };
    if meets_any(place, rest) {
        return true;
    }
    meet_anywhere(rest)
}

// The drafts in the order of their places, of which none is at another.
fn in_order(
    alloc: Global,
    mut places: Vec<(Path, Draft)>,
) -> Result<BTreeMap<Path, Draft>, AllocError>
    ensures { IfOk result (λ drafts. (drafts.entries ≡ sorted_by path_cmp places.items)
        × IsOrdered path_cmp drafts) }
{
    let mut drafts = BTreeMap::new(alloc);
    while let Some((place, draft)) = places.pop() {
        drop(drafts.insert(place, draft)?);
    }
    Ok(drafts)
}

impl Update {
    // The update of the drafts under their names, path texts below the path. Refused, in this
    // order: ManyPaths, then in byte order of the names what a name is refused for as a path,
    // TooDeep, what its draft is refused for, and at last Overlap. Memory comes only where
    // the names are not too many.
    pub(crate) fn from_members(
        alloc: Global,
        path: Path,
        members: &Map<String, Value>,
    ) -> Result<Update, WriteFault>
        ensures { MatchResult result
            (λ update. below_read path (members_view members.now.entries) ≡ Ok update)
            (λ e. ((e ≡ TreeRefused Memory) × (length members.now.entries ≤ most_places))
            ⊎ (below_read path (members_view members.now.entries) ≡ Err e)) }
    {
        if members.len() > MOST {
            return Err(WriteFault::ManyPaths);
        }
        let mut places = BTreeMap::new(alloc);
        let mut is_twice = false;
        for (name, value) in members.iter() {
            let (place, draft) = read_place(alloc, &path, name.as_str(), value)?;
            let earlier = places.insert(place, draft)?;
            let is_again = earlier.is_some();
            drop(earlier);
            if is_again {
                is_twice = true;
            }
        }
        if is_twice || overlaps(&places) {
            drop(places);
            return Err(WriteFault::Overlap);
        }
        Ok(Update { path, places })
    }

    /// The update of the drafts at places below the path. Refused, in this order: ManyPaths,
    /// TooDeep, Overlap, Memory.
    pub fn new(alloc: Global, path: Path, places: Vec<(Path, Draft)>) -> Result<Update, WriteFault>
        ensures { MatchResult result
            (λ u. (u ≡ update_of path places.items) × (update_fault path places.items ≡ None))
            (λ e. e ≡ unwrap_or (update_fault path places.items) (TreeRefused Memory)) }
    {
        if places.len() > MOST {
            return Err(WriteFault::ManyPaths);
        }
        if has_deep(&path, places.as_slice()) {
            return Err(WriteFault::Tree(TreeFault::TooDeep));
        }
        if meet_anywhere(places.as_slice()) {
            return Err(WriteFault::Overlap);
        }
        let places = in_order(alloc, places)?;
        Ok(Update { path, places })
    }

    /// The path.
    pub fn path(&self) -> &Path
        ensures path { result.now ≡ self.now.path }
        ensures keys { IsPath self.now.path }
    {
        // it ensures that the path is one
        let _ = self.path.len();
        &self.path
    }

    // The JSON object of the drafts under their names. Read again, it is the same update.
    pub(crate) fn values(&self, alloc: Global) -> Result<Map<String, Value>, AllocError>
        ensures json { IfOk result (λ made.
            members_view made.entries ≡ values_json self.now.places) }
        ensures reads_back { IfOk result (λ made.
            below_read self.now.path (members_view made.entries) ≡ Ok self.now) }
    {
        let mut values = Map::new(alloc);
        for (place, draft) in self.places.iter() {
            let name = place.name(alloc)?;
            let value = to_value::<DraftLeaf, DraftLeafForm>(alloc, draft)?;
            drop(values.insert(name, value)?);
        }
        Ok(values)
    }

    /// Its writes on the tree at the moment, in path order.
    pub fn writes(
        &self,
        alloc: Global,
        tree: &Tree,
        moment: Moment,
    ) -> Result<Items<Basic>, AllocError>
        ensures writes { IfOk result (λ writes. writes ≡ update_writes tree.now moment self.now) }
        ensures apart { IfOk result (λ writes. Apart writes) }
    {
        let mut writes = Vec::new(alloc);
        for (place, draft) in self.places.iter() {
            let path = whole_path(alloc, &self.path, place)?;
            writes.push(settled_write(alloc, path, draft, tree, moment)?)?;
        }
        Ok(Items::of(writes))
    }

    // The same of an update that isn't needed any more: its keys and drafts are moved.
    pub(crate) fn into_writes(
        self,
        alloc: Global,
        tree: &Tree,
        moment: Moment,
    ) -> Result<Items<Basic>, AllocError>
        ensures writes { IfOk result (λ writes. writes ≡ update_writes tree.now moment self) }
        ensures apart { IfOk result (λ writes. Apart writes) }
    {
        let Update { path, places } = self;
        let mut writes = Vec::new(alloc);
        for (place, draft) in places {
            let whole = moved_path(alloc, &path, place)?;
            writes.push(moved_write(alloc, whole, draft, tree, moment)?)?;
        }
        Ok(Items::of(writes))
    }

    /// Its drafts at their whole paths.
    pub fn puts(&self, alloc: Global) -> Result<Puts, AllocError>
        ensures { IfOk result (λ puts. puts ≡ puts_below self.now) }
    {
        let mut placements = Vec::new(alloc);
        for (place, draft) in self.places.iter() {
            let path = whole_path(alloc, &self.path, place)?;
            let draft = draft.copy(alloc)?;
            placements.push(Placement::fitting(path, draft))?;
        }
        Ok(Puts::of(placements))
    }

    /// An equal update.
    pub fn copy(&self, alloc: Global) -> Result<Update, AllocError>
        ensures { IfOk result (λ made. made ≡ self.now) }
    {
        let mut places = BTreeMap::new(alloc);
        for (place, draft) in self.places.iter() {
            let place = place.copy(alloc)?;
            drop(places.insert(place, draft.copy(alloc)?)?);
        }
        Ok(Update {
            path: self.path.copy(alloc)?,
            places,
        })
    }
}

// The place of a name below the path, and the draft there. Refused for the name as a path, then
// where the place has too many keys, then for its draft.
fn read_place(
    alloc: Global,
    path: &Path,
    name: &str,
    value: &Value,
) -> Result<(Path, Draft), TreeFault>
    ensures read { MatchResult result
        (λ place. (place_fault path.now name.now (view value.now) ≡ None)
        × (place ≡ (segments name.now, rows_of slot_reading (view value.now))))
        (λ e. (e ≡ Memory) ⊎ (place_fault path.now name.now (view value.now) ≡ Some e)) }
    ensures fits { IfOk result (λ place. FitsBelow path.now place) }
{
    let place = Path::parse(alloc, name)?;
    let depth = path.len() + place.len();
    if depth > MAX_DEPTH {
        return Err(TreeFault::TooDeep);
    }
    let draft = from_value_under::<DraftLeaf, DraftLeafForm>(alloc, value, depth)?;
    Ok((place, draft))
}

// Whether one of the places is above another.
fn overlaps(places: &BTreeMap<Path, Draft>) -> bool
    requires { IsOrdered path_cmp places.now }
    ensures { result ≡ overlap (keys_of places.now.entries) }
{
    let mut last: Option<&Path> = None;
    for (place, _) in places.iter() {
        if let Some(above) = last {
            if above.is_prefix_of(place) {
                return true;
            }
        }
        last = Some(place);
    }
    false
}

// The path of a place below the path.
fn whole_path(alloc: Global, path: &Path, place: &Path) -> Result<Path, AllocError>
    requires { IsPath (path.now ++ place.now) }
    ensures { IfOk result (λ whole. whole ≡ path.now ++ place.now) }
{
    match path.join(alloc, place) {
        Ok(whole) => Ok(whole),
        Err(TreeFault::Memory) => Err(AllocError),
        Err(_) => unreachable!(),
    }
}

// The same of keys that aren't needed any more, which are moved.
fn moved_path(alloc: Global, path: &Path, place: Path) -> Result<Path, AllocError>
    requires { IsPath (path.now ++ place) }
    ensures { IfOk result (λ whole. whole ≡ path.now ++ place) }
{
    match path.join_owned(alloc, place) {
        Ok(whole) => Ok(whole),
        Err(TreeFault::Memory) => Err(AllocError),
        Err(_) => unreachable!(),
    }
}
