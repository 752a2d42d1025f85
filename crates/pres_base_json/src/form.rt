//! Parts of a body: how each is written and read, alone, in a field and in a list.

ghost use Rattle.std.specs.Prelude.{◌≡◌, ◌≤◌, ◌+◌, ◌++◌, ◌∷◌, IfOk, OnOk, Some, map};
ghost use Rattle.std.specs.Option.{option_map};
ghost use Rattle.json.specs.Token.{key};
ghost use Rattle.serde_json.specs.Data.{depth};
ghost use Rattle.serde_json.specs.View.{view, items_view};
ghost use Rattle.pres_tree.specs.JsonPrinting.{tokens_of, IsPlain};
ghost use Rattle.pres_wire.specs.Fields.{field_of};
ghost use Rattle.pres_batch_json.specs.Entries.{list_json};
ghost use Rattle.pres_batch_json.specs.Reads.{all_of, list_of};

use json::Writer;
use pres_write::Items;
use serde_json::Value;
use std::alloc::{AllocError, Global};

/// A part of a body: it is written, and read again.
pub(crate) trait BodyJson: Drop {
    ghost use Rattle.std.specs.Prelude.{◌≡◌, ◌≤◌, ◌++◌, ℕ, Option, Some, IfOk, OnOk};
    ghost use Rattle.serde_json.specs.Data.{Data, depth};
    ghost use Rattle.serde_json.specs.View.{view};
    ghost use Rattle.pres_tree.specs.JsonPrinting.{tokens_of, IsPlain};

    // its JSON
    ghost json: { Self → Data };

    // the one of a JSON value
    ghost found: { Data → Option Self };

    // the one that its JSON is read as
    ghost kept: { Self → Self };

    // how many levels its JSON nests at most
    ghost levels: { ℕ };

    // Writes its JSON value, which is read again, and nests few levels. At AllocError some of it may
    // have been written.
    fn write(&self, alloc: Global, out: &mut Writer) -> Result<(), AllocError>
        ensures ok { OnOk result (out.new.tokens ≡ out.old.tokens ++ tokens_of (json self.now)) }
        ensures before { out.new.before ≡ out.old.before }
        ensures plain { OnOk result (IsPlain (json self.now)) }
        ensures reads_back { OnOk result (found (json self.now) ≡ Some (kept self.now)) }
        ensures low { OnOk result (depth (json self.now) ≤ levels) };

    // The one of a JSON value, none where it isn't the value of one.
    fn read(alloc: Global, value: &Value) -> Result<Option<Self>, AllocError>
        ensures { IfOk result (λ made. made ≡ found (view value.now)) };
}

// Writes the part under the name.
pub(crate) fn write_field<T: BodyJson>(
    alloc: Global,
    out: &mut Writer,
    name: &str,
    part: &T,
) -> Result<(), AllocError>
    ensures ok { OnOk result (out.new.tokens
        ≡ out.old.tokens ++ key name.now ∷ tokens_of (T.json part.now)) }
    ensures before { out.new.before ≡ out.old.before }
    ensures plain { OnOk result (IsPlain (T.json part.now)) }
    ensures reads_back { OnOk result (T.found (T.json part.now) ≡ Some (T.kept part.now)) }
    ensures low { OnOk result (depth (T.json part.now) ≤ T.levels) }
{
    out.key(name)?;
    part.write(alloc, out)
}

// The part under the name, none where the JSON value has none.
pub(crate) fn read_field<T: BodyJson>(
    alloc: Global,
    object: &Value,
    name: &str,
) -> Result<Option<T>, AllocError>
    ensures { IfOk result (λ found. found ≡ field_of T.found name.now (view object.now)) }
{
    match object.get(name) {
        Some(value) => T::read(alloc, value),
        None => Ok(None),
    }
}

// Writes the list of the parts.
fn write_list<T: BodyJson>(alloc: Global, out: &mut Writer, parts: &[T]) -> Result<(), AllocError>
    ensures ok { OnOk result (out.new.tokens
        ≡ out.old.tokens ++ tokens_of (list_json T.json parts.now)) }
    ensures before { out.new.before ≡ out.old.before }
    ensures plain { OnOk result (IsPlain (list_json T.json parts.now)) }
    ensures reads_back { OnOk result
        (list_of T.found (list_json T.json parts.now) ≡ Some (map T.kept parts.now)) }
    ensures low { OnOk result (depth (list_json T.json parts.now) ≤ T.levels + 1) }
{
    out.begin_array()?;
    for part in parts {
        part.write(alloc, out)?;
    }
    out.end_array()
}

// The parts that the items of a list are, none where one item isn't.
fn read_items<T: BodyJson>(alloc: Global, items: &Vec<Value>) -> Result<Option<Vec<T>>, AllocError>
    ensures { IfOk result (λ found.
        option_map (λ made. made.items) found ≡ all_of T.found (items_view items.now.items)) }
{
    let mut made = Vec::new(alloc);
    for item in items {
        let Some(part) = T::read(alloc, item)? else {
            return Ok(None);
        };
        made.push(part)?;
    }
    Ok(Some(made))
}

impl<T: BodyJson> BodyJson for Items<T> {
    ghost use Rattle.std.specs.Prelude.{◌+◌, map};
    ghost use Rattle.pres_batch_json.specs.Entries.{list_json};
    ghost use Rattle.pres_batch_json.specs.Reads.{list_of};

    ghost json = { list_json T.json };

    ghost found = { list_of T.found };

    ghost kept = { map T.kept };

    ghost levels = { T.levels + 1 };

    fn write(&self, alloc: Global, out: &mut Writer) -> Result<(), AllocError> {
        write_list(alloc, out, self.as_slice())
    }

    fn read(alloc: Global, value: &Value) -> Result<Option<Items<T>>, AllocError> {
        let Some(items) = value.as_array() else {
            return Ok(None);
        };
        match read_items(alloc, items)? {
            Some(made) => Ok(Some(Items::of(made))),
            None => Ok(None),
        }
    }
}
