//! Lists in the text of a batch.

ghost use Rattle.std.specs.Prelude.{◌≡◌, ◌≤◌, ◌+◌, IfOk, Some, map};
ghost use Rattle.serde_json.specs.Data.{depth};
ghost use Rattle.serde_json.specs.View.{view, items_view};
ghost use Rattle.std.specs.Option.{option_map};
ghost use Rattle.pres_batch_json.specs.Entries.{list_json};
ghost use Rattle.pres_batch_json.specs.Reads.{all_of, list_of};

use pres_write::Items;
use serde_json::Value;
use std::alloc::{AllocError, Global};

// An item of such a list: it is printed, and read again.
pub(crate) trait BatchJson: Drop {
    ghost use Rattle.std.specs.Prelude.{◌≡◌, ◌≤◌, ℕ, Option, Some, IfOk};
    ghost use Rattle.serde_json.specs.Data.{Data, depth};
    ghost use Rattle.serde_json.specs.View.{view};

    // its JSON
    ghost json: { Self → Data };

    // the one of a JSON value
    ghost found: { Data → Option Self };

    // the one that its JSON is read as
    ghost kept: { Self → Self };

    // how many levels its JSON nests at most
    ghost levels: { ℕ };

    // Its JSON value, which is read again, and nests few levels.
    fn to_json(&self, alloc: Global) -> Result<Value, AllocError>
        ensures json { IfOk result (λ made. view made ≡ json self.now) }
        ensures reads_back { IfOk result (λ _. found (json self.now) ≡ Some (kept self.now)) }
        ensures low { IfOk result (λ _. depth (json self.now) ≤ levels) };

    // The one of a JSON value, none where it isn't the value of one.
    fn from_json(alloc: Global, value: &Value) -> Result<Option<Self>, AllocError>
        ensures { IfOk result (λ made. made ≡ found (view value.now)) };
}

// The JSON list of these, which is read again, and nests few levels.
pub(crate) fn list_value<T: BatchJson>(alloc: Global, saved: &[T]) -> Result<Value, AllocError>
    ensures json { IfOk result (λ made. view made ≡ list_json T.json saved.now) }
    ensures reads_back { IfOk result (λ _.
        list_of T.found (list_json T.json saved.now) ≡ Some (map T.kept saved.now)) }
    ensures low { IfOk result (λ _. depth (list_json T.json saved.now) ≤ T.levels + 1) }
{
    let mut items = Vec::new(alloc);
    for one in saved {
        items.push(one.to_json(alloc)?)?;
    }
    Ok(Value::Array(items))
}

// Those that the items of a list are, none where one item isn't.
fn read_items<T: BatchJson>(alloc: Global, items: &Vec<Value>) -> Result<Option<Vec<T>>, AllocError>
    ensures { IfOk result (λ found.
        option_map (λ made. made.items) found ≡ all_of T.found (items_view items.now.items)) }
{
    let mut made = Vec::new(alloc);
    for item in items {
        let Some(one) = T::from_json(alloc, item)? else {
            return Ok(None);
        };
        made.push(one)?;
    }
    Ok(Some(made))
}

// Those of a JSON list, none where it is no list or one item isn't.
pub(crate) fn read_list<T: BatchJson>(
    alloc: Global,
    value: &Value,
) -> Result<Option<Items<T>>, AllocError>
    ensures { IfOk result (λ found. found ≡ list_of T.found (view value.now)) }
{
    let Some(items) = value.as_array() else {
        return Ok(None);
    };
    match read_items(alloc, items)? {
        Some(made) => Ok(Some(Items::of(made))),
        None => Ok(None),
    }
}
