//! Parts of entries: rows, outcomes of operations, puts.

ghost use Rattle.std.specs.Prelude.{◌≡◌, ◌≤◌, ◌++◌, IfOk, OnOk, IfSome, Some, None};
ghost use Rattle.serde_json.specs.Data.{depth};
ghost use Rattle.serde_json.specs.View.{view};
ghost use Rattle.pres_tree.specs.Rows.{Fits, rows_in};
ghost use Rattle.pres_tree.specs.JsonPrinting.{json_of, tokens_of, IsPlain};
ghost use Rattle.pres_wire.specs.Fields.{path_json, path_of};
ghost use Rattle.pres_batch_json.specs.Entries.{row_json, write_json, outcome_json, list_json, put_json, number_or_null};
ghost use Rattle.pres_batch_json.specs.Reads.{rows_below, row_of, write_in, op_in, outcome_by, outcome_in, one_null, puts_in, number_or_none};

use crate::list::{BatchJson, list_value, read_list};
use json::Writer;
use pres_ids::{Number, pair_of};
use pres_tree::{
    LeafForm, Nested, Path, PrintedForm, Scalar, ScalarForm, Tree, TreeFault, from_value_below,
    to_value, write_value,
};
use pres_wire::part::{held_of, held_value, path_of, tree_of};
use pres_write::{Basic, DraftLeaf, DraftLeafForm, Op, Outcome, Placement, Puts, WriteFault};
use serde_json::{Value, json};
use std::alloc::{AllocError, Global};

// The JSON value of a path and what is there: `[path,value]`. It is read again as both.
fn row_value<L, P: PrintedForm<L>>(
    alloc: Global,
    path: &Path,
    rows: &Nested<L>,
) -> Result<Value, AllocError>
    requires { Fits path.now rows.now }
    ensures json { IfOk result (λ made.
        view made ≡ row_json path.now (json_of P.printing rows.now)) }
    ensures path { IfOk result (λ _. path_of (path_json path.now) ≡ Some path.now) }
    ensures rows { IfOk result (λ _.
        rows_below P.reading path.now (json_of P.printing rows.now) ≡ Some rows.now) }
{
    let mut pair = Vec::new(alloc);
    pair.push(Value::String(path.text(alloc)?))?;
    pair.push(to_value::<L, P>(alloc, rows)?)?;
    Ok(Value::Array(pair))
}

// Writes a path and what is there: `[path,value]`. It is read again as both.
fn write_row<L, P: PrintedForm<L>>(
    alloc: Global,
    out: &mut Writer,
    path: &Path,
    rows: &Nested<L>,
) -> Result<(), AllocError>
    requires { Fits path.now rows.now }
    ensures ok { OnOk result (out.new.tokens ≡ out.old.tokens
        ++ tokens_of (row_json path.now (json_of P.printing rows.now))) }
    ensures before { out.new.before ≡ out.old.before }
    ensures plain { OnOk result (IsPlain (row_json path.now (json_of P.printing rows.now))) }
    ensures path { OnOk result (path_of (path_json path.now) ≡ Some path.now) }
    ensures rows { OnOk result
        (rows_below P.reading path.now (json_of P.printing rows.now) ≡ Some rows.now) }
{
    let text = path.text(alloc)?;
    out.begin_array()?;
    out.string(text.as_str())?;
    write_value::<L, P>(rows, out)?;
    out.end_array()
}

// Writes a write: null where it removes. It is read again.
pub(crate) fn write_write(alloc: Global, out: &mut Writer, write: &Basic) -> Result<(), AllocError>
    ensures ok { OnOk result
        (out.new.tokens ≡ out.old.tokens ++ tokens_of (write_json write.now)) }
    ensures before { out.new.before ≡ out.old.before }
    ensures plain { OnOk result (IsPlain (write_json write.now)) }
    ensures reads_back { OnOk result (write_in (write_json write.now) ≡ Some write.now) }
    ensures low { OnOk result (depth (write_json write.now) ≤ 34) }
{
    let null = Tree::empty();
    let value = write.value().unwrap_or(&null);
    let made = write_row::<Scalar, ScalarForm>(alloc, out, write.path(), value);
    drop(null);
    made
}

// The path and the value of a row, none where it isn't a list of both, or the value may not stand
// at the path.
fn read_row<L: Drop, P: LeafForm<L>>(
    alloc: Global,
    value: &Value,
) -> Result<Option<(Path, Nested<L>)>, AllocError>
    ensures found { IfOk result (λ found. found ≡ row_of P.reading (view value.now)) }
    ensures fits { IfOk result (λ found. IfSome found (λ row. Fits row.0 row.1)) }
{
    let Some((path, value)) = pair_of(value) else {
        return Ok(None);
    };
    let Some(path) = path_of(alloc, path)? else {
        return Ok(None);
    };
    match from_value_below::<L, P>(alloc, value, &path) {
        Ok(rows) => Ok(Some((path, rows))),
        Err(TreeFault::Memory) => Err(AllocError),
        Err(_) => Ok(None),
    }
}

impl BatchJson for Basic {
    ghost use Rattle.pres_batch_json.specs.Entries.{write_json};
    ghost use Rattle.pres_batch_json.specs.Reads.{write_in};

    ghost json = { write_json };

    ghost found = { write_in };

    ghost kept = { λ write. write };

    ghost levels = { 34 };

    fn to_json(&self, alloc: Global) -> Result<Value, AllocError> {
        let null = Tree::empty();
        let value = self.value().unwrap_or(&null);
        let made = row_value::<Scalar, ScalarForm>(alloc, self.path(), value);
        drop(null);
        made
    }

    fn from_json(alloc: Global, value: &Value) -> Result<Option<Basic>, AllocError> {
        match read_row::<Scalar, ScalarForm>(alloc, value)? {
            Some((path, tree)) => Ok(Some(Basic::fitting(path, tree))),
            None => Ok(None),
        }
    }
}

impl BatchJson for Placement {
    ghost use Rattle.pres_batch_json.specs.Entries.{put_json};
    ghost use Rattle.pres_batch_json.specs.Reads.{put_in};

    ghost json = { put_json };

    ghost found = { put_in };

    ghost kept = { λ put. put };

    ghost levels = { 35 };

    fn to_json(&self, alloc: Global) -> Result<Value, AllocError> {
        row_value::<DraftLeaf, DraftLeafForm>(alloc, self.path(), self.draft())
    }

    fn from_json(alloc: Global, value: &Value) -> Result<Option<Placement>, AllocError> {
        match read_row::<DraftLeaf, DraftLeafForm>(alloc, value)? {
            Some((path, draft)) => Ok(Some(Placement::fitting(path, draft))),
            None => Ok(None),
        }
    }
}

// The JSON list of the puts, which is read again as them.
pub(crate) fn puts_value(alloc: Global, puts: &Puts) -> Result<Value, AllocError>
    ensures json { IfOk result (λ made. view made ≡ list_json put_json puts.now) }
    ensures reads_back { IfOk result (λ _. puts_in (list_json put_json puts.now) ≡ Some puts.now) }
    ensures low { IfOk result (λ _. depth (list_json put_json puts.now) ≤ 36) }
{
    list_value(alloc, puts.as_slice())
}

// The puts of a JSON list, none where it isn't the list of any.
pub(crate) fn read_puts(alloc: Global, value: &Value) -> Result<Option<Puts>, AllocError>
    ensures { IfOk result (λ found. found ≡ puts_in (view value.now)) }
{
    match read_list(alloc, value)? {
        Some(placements) => Ok(Puts::new(placements.into_vec())),
        None => Ok(None),
    }
}

// The JSON value of an operation's outcome, which is read again, a null as none.
pub(crate) fn outcome_value(alloc: Global, outcome: &Outcome) -> Result<Value, AllocError>
    ensures json { IfOk result (λ made. view made ≡ outcome_json outcome.now) }
    ensures reads_back { IfOk result (λ _.
        outcome_in (outcome_json outcome.now) ≡ Some (one_null outcome.now)) }
    ensures low { IfOk result (λ _. depth (outcome_json outcome.now) ≤ 36) }
{
    match outcome {
        Outcome::Wrote(writes) => {
            let writes = list_value(alloc, writes.as_slice())?;
            json!(in alloc; {"wrote": writes})
        }
        Outcome::Stale(held) => {
            let held = held_value(alloc, held)?;
            json!(in alloc; {"stale": held})
        }
    }
}

// The outcome of a stale operation.
fn read_stale(alloc: Global, value: &Value) -> Result<Option<Outcome>, AllocError>
    ensures { IfOk result (λ found. found ≡ outcome_by None (view value.now)) }
{
    let Some(held) = value.get("stale") else {
        return Ok(None);
    };
    match tree_of(alloc, held)? {
        Some(tree) => Ok(Some(Outcome::Stale(held_of(tree)))),
        None => Ok(None),
    }
}

// The outcome of an operation, none if the JSON value is none.
pub(crate) fn read_outcome(alloc: Global, value: &Value) -> Result<Option<Outcome>, AllocError>
    ensures { IfOk result (λ found. found ≡ outcome_in (view value.now)) }
{
    let Some(writes) = value.get("wrote") else {
        return read_stale(alloc, value);
    };
    match read_list(alloc, writes)? {
        Some(writes) => Ok(Some(Outcome::Wrote(writes))),
        None => Ok(None),
    }
}

// The operation of a JSON value, none where it is refused.
pub(crate) fn read_op(alloc: Global, value: &Value) -> Result<Option<Op>, AllocError>
    ensures { IfOk result (λ found. found ≡ op_in (view value.now)) }
{
    match pres_write::read_op(alloc, value) {
        Ok(op) => Ok(Some(op)),
        Err(WriteFault::Tree(TreeFault::Memory)) => Err(AllocError),
        Err(_) => Ok(None),
    }
}

// The JSON value of a number, or null.
pub(crate) fn number_value(number: Option<Number>) -> Value
    ensures json { view result ≡ number_or_null number }
    ensures reads_back { number_or_none (number_or_null number) ≡ Some number }
    ensures low { depth (number_or_null number) ≡ 0 }
{
    match number {
        Some(number) => Value::from(number.get()),
        None => Value::Null,
    }
}

// The number that a JSON value is, or none of null; none where it is neither.
pub(crate) fn read_number(value: &Value) -> Option<Option<Number>>
    ensures { result ≡ number_or_none (view value.now) }
{
    if value.is_null() {
        return Some(None);
    }
    Some(Some(pres_ids::read_number(value)?))
}
