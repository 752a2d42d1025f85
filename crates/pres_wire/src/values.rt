//! Values at paths, as a listener gets them.

ghost use Rattle.std.specs.Prelude.{◌≡◌, ◌≤◌, ◌++◌, IfOk, OnOk, Some};
ghost use Rattle.std.specs.Option.{SomeIff, option_map};
ghost use Rattle.std.specs.Ordering.{is_lt};
ghost use Rattle.serde_json.specs.Data.{depth};
ghost use Rattle.serde_json.specs.View.{view, items_view};
ghost use Rattle.pres_tree.specs.Paths.{path_cmp};
ghost use Rattle.pres_tree.specs.JsonPrinting.{tokens_of, IsPlain};
ghost use Rattle.pres_wire.specs.Values.{Rising};
ghost use Rattle.pres_wire.specs.DownForms.{path_value_json, values_json};
ghost use Rattle.pres_wire.specs.DownReads.{path_value_of, values_of_items, values_of};

use crate::part::{path_of, tree_of, tree_value, write_tree};
use json::Writer;
use pres_ids::pair_of;
use pres_tree::{Path, Tree};
use serde_json::Value;
use std::alloc::{AllocError, Global};
use std::marker::Model;

/// A path, and the value that stands there.
#[derive(Drop)]
pub struct PathValue {
    pub path: Path,
    pub value: Tree,
}

impl PathValue {
    /// An equal one.
    pub fn copy(&self, alloc: Global) -> Result<PathValue, AllocError>
        ensures { IfOk result (λ made. made ≡ self.now) }
    {
        let path = self.path.copy(alloc)?;
        let value = self.value.copy(alloc)?;
        Ok(PathValue { path, value })
    }

    // Its JSON value: `[path,value]`. It is read again as this one.
    fn to_value(&self, alloc: Global) -> Result<Value, AllocError>
        ensures json { IfOk result (λ made. view made ≡ path_value_json self.now) }
        ensures reads_back { IfOk result (λ _.
            path_value_of (path_value_json self.now) ≡ Some self.now) }
        ensures low { IfOk result (λ _. depth (path_value_json self.now) ≤ 34) }
    {
        let mut pair = Vec::new(alloc);
        pair.push(Value::String(self.path.text(alloc)?))?;
        pair.push(tree_value(alloc, &self.value)?)?;
        Ok(Value::Array(pair))
    }

    // Writes its JSON value. It is read again as this one.
    pub(crate) fn write(&self, alloc: Global, out: &mut Writer) -> Result<(), AllocError>
        ensures ok { OnOk result
            (out.new.tokens ≡ out.old.tokens ++ tokens_of (path_value_json self.now)) }
        ensures before { out.new.before ≡ out.old.before }
        ensures plain { OnOk result (IsPlain (path_value_json self.now)) }
        ensures reads_back { OnOk result
            (path_value_of (path_value_json self.now) ≡ Some self.now) }
        ensures low { OnOk result (depth (path_value_json self.now) ≤ 34) }
    {
        let text = self.path.text(alloc)?;
        out.begin_array()?;
        out.string(text.as_str())?;
        write_tree(out, &self.value)?;
        out.end_array()
    }

    // The one that a JSON value is, none where it isn't the value of one.
    fn from_value(alloc: Global, value: &Value) -> Result<Option<PathValue>, AllocError>
        ensures { IfOk result (λ found. found ≡ path_value_of (view value.now)) }
    {
        let Some((path, value)) = pair_of(value) else {
            return Ok(None);
        };
        let Some(path) = path_of(alloc, path)? else {
            return Ok(None);
        };
        let Some(value) = tree_of(alloc, value)? else {
            return Ok(None);
        };
        Ok(Some(PathValue { path, value }))
    }
}

// Those that the items of a list are, none where one item isn't.
fn read_items(alloc: Global, items: &Vec<Value>) -> Result<Option<Vec<PathValue>>, AllocError>
    ensures { IfOk result (λ found.
        option_map (λ made. made.items) found ≡ values_of_items (items_view items.now.items)) }
{
    let mut made = Vec::new(alloc);
    for item in items {
        let Some(value) = PathValue::from_value(alloc, item)? else {
            return Ok(None);
        };
        made.push(value)?;
    }
    Ok(Some(made))
}

// Whether the first path is before the second.
fn is_before(first: &PathValue, second: &PathValue) -> bool
    ensures { result ≡ is_lt (path_cmp first.now.path second.now.path) }
{
    first.path < second.path
}

/// Values at paths that rise strictly, in path order. Contracts see the list of them.
#[derive(Drop)]
pub struct Values {
    items: Vec<PathValue>,
}

impl Model for Values {
    ghost use Rattle.std.specs.Prelude.{List};
    ghost use Rattle.pres_wire.specs.declared.values.PathValue.{PathValue};
    ghost use Rattle.pres_wire.specs.Values.{Rising};

    ghost Value = { List PathValue };

    ghost view = { λ v. v.items.items };

    ghost invariant = { λ v. Rising v.items.items };
}

impl Values {
    /// Those of the list, which is moved, none where its paths don't rise.
    pub fn new(items: Vec<PathValue>) -> Option<Values>
        ensures { SomeIff result (Rising items.items) items.items }
    {
        if !items.is_sorted_by(is_before) {
            return None;
        }
        Some(Values { items })
    }

    /// The list of them.
    pub fn as_slice(&self) -> &[PathValue]
        ensures values { result.now ≡ self.now }
        ensures rising { Rising self.now }
    {
        self.items.as_slice()
    }

    /// The list of them, which is moved.
    pub fn into_vec(self) -> Vec<PathValue>
        ensures values { result.items ≡ self }
        ensures rising { Rising self }
    {
        self.items
    }

    /// Equal values.
    pub fn copy(&self, alloc: Global) -> Result<Values, AllocError>
        ensures { IfOk result (λ made. made ≡ self.now) }
    {
        let mut items = Vec::new(alloc);
        for item in &self.items {
            items.push(item.copy(alloc)?)?;
        }
        Ok(Values { items })
    }

    // Their JSON value: a list of `[path,value]`. It is read again as these.
    pub(crate) fn to_value(&self, alloc: Global) -> Result<Value, AllocError>
        ensures json { IfOk result (λ made. view made ≡ values_json self.now) }
        ensures reads_back { IfOk result (λ _. values_of (values_json self.now) ≡ Some self.now) }
        ensures low { IfOk result (λ _. depth (values_json self.now) ≤ 35) }
    {
        let mut items = Vec::new(alloc);
        for item in &self.items {
            items.push(item.to_value(alloc)?)?;
        }
        Ok(Value::Array(items))
    }

    // Those that a JSON value is, none where it isn't the value of any.
    pub(crate) fn from_value(alloc: Global, value: &Value) -> Result<Option<Values>, AllocError>
        ensures { IfOk result (λ found. found ≡ values_of (view value.now)) }
    {
        let Some(items) = value.as_array() else {
            return Ok(None);
        };
        let Some(items) = read_items(alloc, items)? else {
            return Ok(None);
        };
        Ok(Values::new(items))
    }
}
