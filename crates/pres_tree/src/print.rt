//! JSON from values.

ghost use Rattle.std.specs.Prelude.{◌≡◌, ◌≤◌, ◌++◌, [], Some, string_bytes, IfOk, OnOk, OnErr};
ghost use Rattle.serde_json.specs.Data.{Data, depth};
ghost use Rattle.serde_json.specs.Read.{read, max_depth};
ghost use Rattle.serde_json.specs.View.{view, members_view};
ghost use Rattle.serde_json.specs.Written.{compact_text};
ghost use Rattle.pres_tree.specs.JsonPrinting.{json_of, members_of, ReadsBack, MembersReadBack, IsPlain, MembersArePlain, tokens_of, tokens_of_members};

use crate::children::Children;
use crate::nested::{Nested, Node};
use crate::read::LeafForm;
use json::Writer;
use serde_json::{Map, Value};
use std::alloc::{AllocError, Global};
use std::mem::replace;

/// A form that leaves are printed in too, so that they are read again.
pub trait PrintedForm<L>: LeafForm<L> {
    ghost use Rattle.std.specs.Prelude.{◌≡◌, ◌++◌, IfOk, OnOk};
    ghost use Rattle.serde_json.specs.Data.{Data, Members, null, object};
    ghost use Rattle.serde_json.specs.View.{view};
    ghost use Rattle.pres_tree.specs.JsonPrinting.{tokens_of, IsPlain};
    ghost use Rattle.pres_tree.specs.JsonReading.{HasKeys, branch, leaf};

    ghost printing: { L → Data };

    /// The JSON value of the leaf.
    fn print(alloc: Global, held: &L) -> Result<Value, AllocError>
        ensures json { IfOk result (λ made. view made ≡ printing held.now) }
        ensures reads_back { IfOk result (λ made. Self.reading (view made) ≡ leaf held.now) };

    /// Writes the JSON value of the leaf.
    fn write(held: &L, out: &mut Writer) -> Result<(), AllocError>
        ensures ok { OnOk result
            (out.new.tokens ≡ out.old.tokens ++ tokens_of (printing held.now)) }
        ensures before { out.new.before ≡ out.old.before }
        ensures plain { OnOk result (IsPlain (printing held.now)) }
        ensures reads_back { OnOk result (Self.reading (printing held.now) ≡ leaf held.now) };

    // Null is no leaf, and neither is an object whose names are keys.
    ghost null_is_branch: { Self.reading null ≡ branch };

    ghost object_is_branch: { (members : Members) → HasKeys members
        → Self.reading (object members) ≡ branch };
}

/// The JSON value: null, the leaf, or the object of the children. Read again, it is the
/// same value.
#[cycle(print)]
pub fn to_value<L, P: PrintedForm<L>>(alloc: Global, tree: &Nested<L>) -> Result<Value, AllocError>
    ensures json { IfOk result (λ made. view made ≡ json_of P.printing tree.now) }
    ensures reads_back { IfOk result (λ made. ReadsBack P.reading tree.now (view made)) }
{
    match &tree.node {
        Node::Empty => Ok(Value::Null),
        Node::Leaf(leaf) => P::print(alloc, leaf),
        Node::Object(children) => Ok(Value::Object(printed::<L, P>(alloc, children)?)),
    }
}

#[cycle(print)]
fn printed<L, P: PrintedForm<L>>(
    alloc: Global,
    children: &Children<Nested<L>>,
) -> Result<Map<String, Value>, AllocError>
    ensures json { IfOk result (λ made.
        members_view made.entries ≡ members_of P.printing children.now.entries) }
    ensures reads_back { IfOk result (λ made.
        MembersReadBack P.reading children.now.entries (members_view made.entries)) }
{
    let mut members = Map::new(alloc);
    for (key, child) in children.iter() {
        let name = String::from_str(alloc, key.text())?;
        drop(members.insert(name, to_value::<L, P>(alloc, child)?)?);
    }
    Ok(members)
}

// Adds the JSON text to the bytes; at AllocError they are as they were. It makes no JSON value of
// the tree.
pub(crate) fn print_value<L, P: PrintedForm<L>>(
    alloc: Global,
    tree: &Nested<L>,
    out: &mut Vec<u8>,
) -> Result<(), AllocError>
    ensures ok { OnOk result
        (out.new.items ≡ out.old.items ++ compact_text (json_of P.printing tree.now)) }
    ensures err { OnErr result (out.new.items ≡ out.old.items) }
{
    let start = out.len();
    let mut writer = Writer::new(replace(out, Vec::new(alloc)));
    let written = write_value::<L, P>(tree, &mut writer);
    *out = writer.into_inner();
    if written.is_err() {
        out.truncate(start);
    }
    written
}

/// Writes the JSON value: null, the leaf, or the object of the children. Read again, it is the
/// same value. At AllocError some of it may have been written.
#[cycle(write)]
pub fn write_value<L, P: PrintedForm<L>>(
    tree: &Nested<L>,
    out: &mut Writer,
) -> Result<(), AllocError>
    ensures ok { OnOk result
        (out.new.tokens ≡ out.old.tokens ++ tokens_of (json_of P.printing tree.now)) }
    ensures before { out.new.before ≡ out.old.before }
    ensures plain { OnOk result (IsPlain (json_of P.printing tree.now)) }
    ensures reads_back { OnOk result
        (ReadsBack P.reading tree.now (json_of P.printing tree.now)) }
{
    match &tree.node {
        Node::Empty => out.null(),
        Node::Leaf(leaf) => P::write(leaf, out),
        Node::Object(children) => {
            out.begin_object()?;
            write_members::<L, P>(children, out)
        }
    }
}

// Writes the members of an object, and its end.
#[cycle(write)]
fn write_members<L, P: PrintedForm<L>>(
    children: &Children<Nested<L>>,
    out: &mut Writer,
) -> Result<(), AllocError>
    ensures ok { OnOk result (out.new.tokens
        ≡ out.old.tokens ++ tokens_of_members (members_of P.printing children.now.entries)) }
    ensures before { out.new.before ≡ out.old.before }
    ensures plain { OnOk result
        (MembersArePlain (members_of P.printing children.now.entries)) }
    ensures reads_back { OnOk result (MembersReadBack P.reading children.now.entries
        (members_of P.printing children.now.entries)) }
{
    for (key, child) in children.iter() {
        out.key(key.text())?;
        write_value::<L, P>(child, out)?;
    }
    out.end_object()
}

/// The text of what was written to a writer that began with nothing: that of a JSON value, which is
/// read again from it.
pub fn text_of(out: Writer) -> String
    requires { out.before ≡ [] }
    ensures text { (d : Data) → out.tokens ≡ tokens_of d → string_bytes result ≡ compact_text d }
    ensures reads_back { (d : Data) → out.tokens ≡ tokens_of d → depth d ≤ max_depth → IsPlain d
        → read (string_bytes result) ≡ Some d }
{
    let Ok(text) = String::from_utf8(out.into_inner()) else {
        unreachable!()
    };
    text
}
