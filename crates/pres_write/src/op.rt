//! Operations, in code and in JSON, and their outcomes.

ghost use Rattle.std.specs.Prelude.{◌≡◌, ◌++◌, [], IfOk, IfErr, OnOk, Ok, Err, MatchResult, codes, string_bytes};
ghost use Rattle.std.specs.Option.{option_and_then};
ghost use Rattle.serde_json.specs.Data.{null, object, string, put as with_member};
ghost use Rattle.serde_json.specs.View.{view, members_view};
ghost use Rattle.pres_tree.specs.JsonPrinting.{tokens_of, IsPlain};
ghost use Rattle.pres_tree.specs.declared.fault.TreeFault.TheVariants.{Memory};
ghost use Rattle.serde_json.specs.Find.{as_object, get};
ghost use Rattle.pres_write.specs.Basics.{Apart};
ghost use Rattle.pres_write.specs.Outcomes.{named_path, resolved, resolved_after, writes_in};
ghost use Rattle.pres_write.specs.OpForms.{op_read, form_read, set_read, update_read, tx_read, with_part, IsRefusal, op_json, set_form, update_form, tx_form};
ghost use Rattle.pres_write.specs.declared.fault.WriteFault.TheVariants.{Tree as TreeRefused};

use crate::basic::{Basic, apply};
use crate::draft::{DraftLeaf, DraftLeafForm, FixedForm};
use crate::fault::WriteFault;
use crate::moment::Moment;
use crate::outcome::{Outcome, one_moved, one_write};
use crate::placement::Placement;
use crate::transaction::Transaction;
use crate::update::Update;
use json::Writer;
use pres_tree::{Path, Scalar, ScalarForm, Tree, from_value_below, to_value, write_value};
use serde_json::{Map, Value};
use std::alloc::{AllocError, Global};

/// What a client asks of the tree.
#[derive(Drop)]
pub enum Op {
    /// Replaces all that stands at the path by a value; null removes it.
    Set(Placement),
    /// Puts values at several places, all of them or none.
    Update(Update),
    /// Puts a value where the path holds exactly an expected one.
    Tx(Transaction),
}

// The JSON object of an operation: the members of its form, with its word and the path of the text.
fn form_value(
    alloc: Global,
    word: &str,
    path: String,
    mut members: Map<String, Value>,
) -> Result<Value, AllocError>
    ensures { IfOk result (λ made. view made
        ≡ object (with_member (codes "path") (string (string_bytes path))
        (with_member (codes "op") (string word.now) (members_view members.entries)))) }
{
    serde_json::put(&mut members, alloc, "op", Value::try_from_str(alloc, word)?)?;
    serde_json::put(&mut members, alloc, "path", Value::String(path))?;
    Ok(Value::Object(members))
}

// The JSON value of a set at the path of the text.
fn set_form(alloc: Global, path: String, value: Value) -> Result<Value, AllocError>
    ensures { IfOk result (λ made. view made ≡ set_form (string_bytes path) (view value)) }
{
    let mut members = Map::new(alloc);
    serde_json::put(&mut members, alloc, "value", value)?;
    form_value(alloc, "set", path, members)
}

// The JSON value of an update at the path of the text.
fn update_form(alloc: Global, path: String, values: Value) -> Result<Value, AllocError>
    ensures { IfOk result (λ made. view made ≡ update_form (string_bytes path) (view values)) }
{
    let mut members = Map::new(alloc);
    serde_json::put(&mut members, alloc, "values", values)?;
    form_value(alloc, "update", path, members)
}

// The JSON value of a transaction at the path of the text.
fn tx_form(alloc: Global, path: String, expect: Value, value: Value) -> Result<Value, AllocError>
    ensures { IfOk result (λ made.
        view made ≡ tx_form (string_bytes path) (view expect) (view value)) }
{
    let mut members = Map::new(alloc);
    let Ok(()) = serde_json::put(&mut members, alloc, "expect", expect) else {
        drop(value);
        return Err(AllocError);
    };
    serde_json::put(&mut members, alloc, "value", value)?;
    form_value(alloc, "tx", path, members)
}

// The JSON value of an update.
pub(crate) fn update_value(alloc: Global, update: &Update) -> Result<Value, AllocError>
    ensures json { IfOk result (λ made. view made ≡ op_json (Op.Update update.now)) }
    ensures reads_back { IfOk result (λ made. op_read (view made) ≡ Ok (Op.Update update.now)) }
{
    let path = update.path().text(alloc)?;
    let values = update.values(alloc)?;
    update_form(alloc, path, Value::Object(values))
}

// The JSON value of a transaction.
fn tx_value(alloc: Global, tx: &Transaction) -> Result<Value, AllocError>
    ensures json { IfOk result (λ made. view made ≡ op_json (Op.Tx tx.now)) }
    ensures reads_back { IfOk result (λ made. op_read (view made) ≡ Ok (Op.Tx tx.now)) }
{
    let path = tx.path().text(alloc)?;
    let expect = to_value::<Scalar, ScalarForm>(alloc, tx.expect())?;
    let Ok(value) = to_value::<DraftLeaf, DraftLeafForm>(alloc, tx.draft()) else {
        drop(expect);
        return Err(AllocError);
    };
    tx_form(alloc, path, expect, value)
}

// The JSON value of the set of a draft at its path.
pub(crate) fn set_value(alloc: Global, placement: &Placement) -> Result<Value, AllocError>
    ensures json { IfOk result (λ made. view made ≡ op_json (Op.Set placement.now)) }
    ensures reads_back { IfOk result (λ made. op_read (view made) ≡ Ok (Op.Set placement.now)) }
{
    let path = placement.path().text(alloc)?;
    let value = to_value::<DraftLeaf, DraftLeafForm>(alloc, placement.draft())?;
    set_form(alloc, path, value)
}

// The set of a path's text and a JSON value.
fn read_set(alloc: Global, text: &str, value: &Value) -> Result<Op, WriteFault>
    ensures { MatchResult result
        (λ op. set_read text.now (view value.now) ≡ Ok op)
        (λ e. IsRefusal (set_read text.now (view value.now)) e) }
{
    let path = Path::parse(alloc, text)?;
    let draft = from_value_below::<DraftLeaf, DraftLeafForm>(alloc, value, &path)?;
    Ok(Op::Set(Placement::fitting(path, draft)))
}

// The set of null at a path's text.
fn read_remove(alloc: Global, text: &str) -> Result<Op, WriteFault>
    ensures { MatchResult result
        (λ op. set_read text.now null ≡ Ok op)
        (λ e. IsRefusal (set_read text.now null) e) }
{
    read_set(alloc, text, &Value::Null)
}

// The set of the JSON value of its form, at a path's text.
fn read_put(alloc: Global, value: &Value, text: &str) -> Result<Op, WriteFault>
    ensures { MatchResult result
        (λ op. with_part (get (codes "value") (view value.now)) (set_read text.now) ≡ Ok op)
        (λ e. IsRefusal (with_part (get (codes "value") (view value.now)) (set_read text.now)) e) }
{
    let Some(new) = value.get("value") else {
        return Err(WriteFault::Shape);
    };
    read_set(alloc, text, new)
}

// The update of the JSON value of its form, at a path's text.
fn read_update(alloc: Global, value: &Value, text: &str) -> Result<Op, WriteFault>
    ensures { MatchResult result
        (λ op. with_part (option_and_then as_object (get (codes "values") (view value.now)))
        (update_read text.now) ≡ Ok op)
        (λ e. IsRefusal (with_part (option_and_then as_object (get (codes "values") (view value.now)))
        (update_read text.now)) e) }
{
    let Some(members) = value.get("values").and_then(Value::as_object) else {
        return Err(WriteFault::Shape);
    };
    let path = Path::parse(alloc, text)?;
    Ok(Op::Update(Update::from_members(alloc, path, members)?))
}

// The transaction of a path's text and two JSON values.
fn read_comparison(
    alloc: Global,
    text: &str,
    expect: &Value,
    value: &Value,
) -> Result<Op, WriteFault>
    ensures { MatchResult result
        (λ op. tx_read text.now (view expect.now) (view value.now) ≡ Ok op)
        (λ e. IsRefusal (tx_read text.now (view expect.now) (view value.now)) e) }
{
    let path = Path::parse(alloc, text)?;
    let expect = from_value_below::<Scalar, FixedForm>(alloc, expect, &path)?;
    match from_value_below::<DraftLeaf, DraftLeafForm>(alloc, value, &path) {
        Ok(new) => Ok(Op::Tx(Transaction::fitting(path, expect, new))),
        Err(fault) => {
            drop(expect);
            Err(WriteFault::Tree(fault))
        }
    }
}

// The transaction of the JSON value of its form, at a path's text.
fn read_tx(alloc: Global, value: &Value, text: &str) -> Result<Op, WriteFault>
    ensures { MatchResult result
        (λ op. with_part (get (codes "expect") (view value.now)) (λ expect.
        with_part (get (codes "value") (view value.now)) (tx_read text.now expect)) ≡ Ok op)
        (λ e. IsRefusal (with_part (get (codes "expect") (view value.now)) (λ expect.
        with_part (get (codes "value") (view value.now)) (tx_read text.now expect))) e) }
{
    let Some(expect) = value.get("expect") else {
        return Err(WriteFault::Shape);
    };
    let Some(new) = value.get("value") else {
        return Err(WriteFault::Shape);
    };
    read_comparison(alloc, text, expect, new)
}

// The operation of the form that the word names, at a path's text.
fn read_form(alloc: Global, value: &Value, word: &str, text: &str) -> Result<Op, WriteFault>
    ensures { MatchResult result
        (λ op. form_read (view value.now) word.now text.now ≡ Ok op)
        (λ e. IsRefusal (form_read (view value.now) word.now text.now) e) }
{
    match word {
        "remove" => read_remove(alloc, text),
        "set" => read_put(alloc, value, text),
        "update" => read_update(alloc, value, text),
        "tx" => read_tx(alloc, value, text),
        _ => Err(WriteFault::Shape),
    }
}

/// The operation of a JSON value. Unknown names are ignored. Refused, in this order: Shape; what
/// the path is refused for; for a set what the value is refused for below that path, for an update
/// ManyPaths, then in byte order of the names what each name as a path and its value are refused
/// for, then Overlap, for a transaction what the expected value and then the new one are refused
/// for. Memory comes only if it isn't Shape.
pub fn read_op(alloc: Global, value: &Value) -> Result<Op, WriteFault>
    ensures { MatchResult result
        (λ op. op_read (view value.now) ≡ Ok op)
        (λ e. IsRefusal (op_read (view value.now)) e) }
{
    let Some(word) = value.get("op").and_then(Value::as_str) else {
        return Err(WriteFault::Shape);
    };
    let Some(text) = value.get("path").and_then(Value::as_str) else {
        return Err(WriteFault::Shape);
    };
    read_form(alloc, value, word, text)
}

/// The JSON value of the operation. Read again, it is an equal operation.
pub fn op_value(alloc: Global, op: &Op) -> Result<Value, AllocError>
    ensures json { IfOk result (λ made. view made ≡ op_json op.now) }
    ensures reads_back { IfOk result (λ made. op_read (view made) ≡ Ok op.now) }
{
    match op {
        Op::Set(placement) => set_value(alloc, placement),
        Op::Update(update) => update_value(alloc, update),
        Op::Tx(tx) => tx_value(alloc, tx),
    }
}

/// Writes the JSON value of the set of a draft at its path. Read again, it is an equal operation.
/// At AllocError some of it may have been written.
pub fn write_set(alloc: Global, placement: &Placement, out: &mut Writer) -> Result<(), AllocError>
    ensures ok { OnOk result
        (out.new.tokens ≡ out.old.tokens ++ tokens_of (op_json (Op.Set placement.now))) }
    ensures before { out.new.before ≡ out.old.before }
    ensures plain { OnOk result (IsPlain (op_json (Op.Set placement.now))) }
    ensures reads_back { OnOk result (op_read (op_json (Op.Set placement.now)) ≡ Ok (Op.Set placement.now)) }
{
    // it ensures that the draft fits at the path
    let text = placement.path().text(alloc)?;
    out.begin_object()?;
    out.key("op")?;
    out.string("set")?;
    out.key("path")?;
    out.string(text.as_str())?;
    out.key("value")?;
    write_value::<DraftLeaf, DraftLeafForm>(placement.draft(), out)?;
    out.end_object()
}

impl Op {
    /// The outcome of the operation on the tree at the moment. Memory is the one refusal.
    pub fn resolve(&self, alloc: Global, tree: &Tree, moment: Moment) -> Result<Outcome, WriteFault>
        ensures outcome { IfOk result (λ outcome. outcome ≡ resolved tree.now moment self.now) }
        ensures apart { IfOk result (λ outcome. Apart (writes_in outcome)) }
        ensures err { IfErr result (λ e. e ≡ TreeRefused Memory) }
    {
        match self {
            Op::Set(placement) => {
                let path = placement.path().copy(alloc)?;
                Ok(one_write(alloc, path, placement.draft(), tree, moment)?)
            }
            Op::Update(update) => Ok(Outcome::Wrote(update.writes(alloc, tree, moment)?)),
            Op::Tx(tx) => Ok(tx.compare(alloc, tree, moment)?),
        }
    }

    /// The same of an operation that isn't needed any more: its paths and drafts are moved.
    pub fn resolve_owned(
        self,
        alloc: Global,
        tree: &Tree,
        moment: Moment,
    ) -> Result<Outcome, WriteFault>
        ensures outcome { IfOk result (λ outcome. outcome ≡ resolved tree.now moment self) }
        ensures apart { IfOk result (λ outcome. Apart (writes_in outcome)) }
        ensures err { IfErr result (λ e. e ≡ TreeRefused Memory) }
    {
        match self {
            Op::Set(placement) => {
                let (path, draft) = placement.into_parts();
                Ok(one_moved(alloc, path, draft, tree, moment)?)
            }
            Op::Update(update) => Ok(Outcome::Wrote(update.into_writes(alloc, tree, moment)?)),
            Op::Tx(tx) => Ok(tx.into_outcome(alloc, tree, moment)?),
        }
    }

    /// The path that it names.
    pub fn path(&self) -> &Path
        ensures { result.now ≡ named_path self.now }
    {
        match self {
            Op::Set(placement) => placement.path(),
            Op::Update(update) => update.path(),
            Op::Tx(tx) => tx.path(),
        }
    }

    /// The outcome of the operation on the tree after these writes; `resolve` is the case with
    /// none. It copies what stands at its path, and no more of the tree. Memory is the one refusal.
    pub fn resolve_after(
        &self,
        alloc: Global,
        tree: &Tree,
        before: &[Basic],
        moment: Moment,
    ) -> Result<Outcome, WriteFault>
        ensures outcome { IfOk result (λ outcome.
            outcome ≡ resolved_after tree.now before.now moment self.now) }
        ensures apart { IfOk result (λ outcome. Apart (writes_in outcome)) }
        ensures err { IfErr result (λ e. e ≡ TreeRefused Memory) }
    {
        // it ensures that the tree's rows are in order
        let _ = tree.is_empty();
        let path = self.path();
        let held = tree.copy_at(alloc, path)?;
        let mut after = Tree::empty();
        after.set(alloc, path, Some(held))?;
        apply(alloc, &mut after, before)?;
        self.resolve(alloc, &after, moment)
    }

    /// An equal operation.
    pub fn copy(&self, alloc: Global) -> Result<Op, AllocError>
        ensures { IfOk result (λ made. made ≡ self.now) }
    {
        match self {
            Op::Set(placement) => Ok(Op::Set(placement.copy(alloc)?)),
            Op::Update(update) => Ok(Op::Update(update.copy(alloc)?)),
            Op::Tx(tx) => Ok(Op::Tx(tx.copy(alloc)?)),
        }
    }
}
