//! Parts of fields, read and printed: for messages, and for other JSON that holds the same.

ghost use Rattle.std.specs.Prelude.{◌≡◌, ◌≤◌, ◌++◌, IfOk, IsOk, OnOk, Some, None, Ok};
ghost use Rattle.serde_json.specs.Find.{as_str};
ghost use Rattle.serde_json.specs.Data.{depth};
ghost use Rattle.serde_json.specs.View.{view};
ghost use Rattle.pres_tree.specs.Rows.{option_of, rows_in};
ghost use Rattle.pres_tree.specs.JsonPrinting.{json_of, tokens_of, IsPlain};
ghost use Rattle.pres_tree.specs.Scalars.{scalar_printing};
ghost use Rattle.pres_write.specs.OpForms.{op_json, op_read};
ghost use Rattle.pres_wire.specs.Fields.{path_in, path_of};
ghost use Rattle.pres_wire.specs.DownReads.{value_of};

use json::Writer;
use pres_tree::{Path, Scalar, ScalarForm, Tree, TreeFault, from_value, to_value, write_value};
use pres_write::Op;
use serde_json::Value;
use std::alloc::{AllocError, Global};

// The path of a text.
fn path_in(alloc: Global, text: &str) -> Result<Option<Path>, AllocError>
    ensures { IfOk result (λ found. found ≡ path_in text.now) }
{
    match Path::parse(alloc, text) {
        Ok(path) => Ok(Some(path)),
        Err(TreeFault::Memory) => Err(AllocError),
        Err(_) => Ok(None),
    }
}

/// The path that a JSON value is the text of, none where it isn't the text of one.
pub fn path_of(alloc: Global, value: &Value) -> Result<Option<Path>, AllocError>
    ensures path { IfOk result (λ found. found ≡ path_of (view value.now)) }
    // a value that is no text takes no memory
    ensures no_text { as_str (view value.now) ≡ None → IsOk result }
{
    match value.as_str() {
        Some(text) => path_in(alloc, text),
        None => Ok(None),
    }
}

/// The tree of a JSON value, none where it is refused.
pub fn tree_of(alloc: Global, value: &Value) -> Result<Option<Tree>, AllocError>
    ensures { IfOk result (λ found. found ≡ value_of (view value.now)) }
{
    match from_value::<Scalar, ScalarForm>(alloc, value) {
        Ok(tree) => Ok(Some(tree)),
        Err(TreeFault::Memory) => Err(AllocError),
        Err(_) => Ok(None),
    }
}

/// The JSON value of a tree, which is read as the tree, and nests few levels.
pub fn tree_value(alloc: Global, tree: &Tree) -> Result<Value, AllocError>
    ensures json { IfOk result (λ made. view made ≡ json_of scalar_printing tree.now) }
    ensures reads_back { IfOk result (λ _.
        value_of (json_of scalar_printing tree.now) ≡ Some tree.now) }
    ensures low { IfOk result (λ _. depth (json_of scalar_printing tree.now) ≤ 33) }
{
    // it ensures that the tree is a value
    let _ = tree.depth();
    to_value::<Scalar, ScalarForm>(alloc, tree)
}

/// Writes the JSON value of a tree, which is read as the tree, and nests few levels. At AllocError
/// some of it may have been written.
pub fn write_tree(out: &mut Writer, tree: &Tree) -> Result<(), AllocError>
    ensures ok { OnOk result (out.new.tokens
        ≡ out.old.tokens ++ tokens_of (json_of scalar_printing tree.now)) }
    ensures before { out.new.before ≡ out.old.before }
    ensures plain { OnOk result (IsPlain (json_of scalar_printing tree.now)) }
    ensures reads_back { OnOk result
        (value_of (json_of scalar_printing tree.now) ≡ Some tree.now) }
    ensures low { OnOk result (depth (json_of scalar_printing tree.now) ≤ 33) }
{
    // it ensures that the tree is a value
    let _ = tree.depth();
    write_value::<Scalar, ScalarForm>(tree, out)
}

/// A place's value, none where nothing stands there.
pub fn held_of(tree: Tree) -> Option<Tree>
    ensures { result ≡ option_of tree }
{
    if tree.is_empty() { None } else { Some(tree) }
}

/// The JSON value of a value that a place held, null for none. It nests few levels.
pub fn held_value(alloc: Global, held: &Option<Tree>) -> Result<Value, AllocError>
    ensures json { IfOk result (λ made. view made ≡ json_of scalar_printing (rows_in held.now)) }
    ensures reads_back { IfOk result (λ _.
        value_of (json_of scalar_printing (rows_in held.now)) ≡ Some (rows_in held.now)) }
    ensures low { IfOk result (λ _. depth (json_of scalar_printing (rows_in held.now)) ≤ 33) }
{
    match held {
        Some(value) => tree_value(alloc, value),
        None => Ok(Value::Null),
    }
}

/// The JSON value of an operation, which is read as the operation, and nests few levels.
pub fn op_value(alloc: Global, op: &Op) -> Result<Value, AllocError>
    ensures json { IfOk result (λ made. view made ≡ op_json op.now) }
    ensures reads_back { IfOk result (λ _. op_read (op_json op.now) ≡ Ok op.now) }
    ensures low { IfOk result (λ _. depth (op_json op.now) ≤ 64) }
{
    pres_write::op_value(alloc, op)
}
