//! The rows of a session's plan in a body.

ghost use Rattle.std.specs.Prelude.{◌≡◌, ◌≤◌, ◌++◌, IfOk, OnOk, Some};
ghost use Rattle.json.specs.Tree.{items_tokens};
ghost use Rattle.serde_json.specs.Data.{array, depth};
ghost use Rattle.serde_json.specs.Written.{items_outline};
ghost use Rattle.serde_json.specs.View.{view, items_view};
ghost use Rattle.pres_tree.specs.JsonPrinting.{IsPlain};
ghost use Rattle.pres_plan.specs.declared.row.Action.TheVariants as action;
ghost use Rattle.pres_base_json.specs.Forms.{action_items};
ghost use Rattle.pres_base_json.specs.Reads.{keep_in, put_in, action_in};

use crate::form::BodyJson;
use json::Writer;
use pres_ids::{read_number, write_number};
use pres_plan::{Action, PlanRow};
use pres_tree::{Path, TreeFault, from_value_below, write_value};
use pres_wire::part::path_of;
use pres_write::{DraftLeaf, DraftLeafForm, Placement};
use serde_json::Value;
use std::alloc::{AllocError, Global};

// Writes the path of a place that keeps its value, and the end of the row.
fn write_keep(alloc: Global, out: &mut Writer, path: &Path) -> Result<(), AllocError>
    ensures ok { OnOk result (out.new.tokens ≡ out.old.tokens
        ++ items_tokens (items_outline (action_items (action.Keep path.now)))) }
    ensures before { out.new.before ≡ out.old.before }
    ensures plain { OnOk result (IsPlain (array (action_items (action.Keep path.now)))) }
    ensures reads_back { OnOk result
        (action_in (action_items (action.Keep path.now)) ≡ Some (action.Keep path.now)) }
    ensures low { OnOk result (depth (array (action_items (action.Keep path.now))) ≤ 36) }
{
    path.write(alloc, out)?;
    out.end_array()
}

// Writes the path and the draft that is put there, and the end of the row.
fn write_put(alloc: Global, out: &mut Writer, placement: &Placement) -> Result<(), AllocError>
    ensures ok { OnOk result (out.new.tokens ≡ out.old.tokens
        ++ items_tokens (items_outline (action_items (action.Put placement.now)))) }
    ensures before { out.new.before ≡ out.old.before }
    ensures plain { OnOk result (IsPlain (array (action_items (action.Put placement.now)))) }
    ensures reads_back { OnOk result
        (action_in (action_items (action.Put placement.now)) ≡ Some (action.Put placement.now)) }
    ensures low { OnOk result (depth (array (action_items (action.Put placement.now))) ≤ 36) }
{
    placement.path().write(alloc, out)?;
    write_value::<DraftLeaf, DraftLeafForm>(placement.draft(), out)?;
    out.end_array()
}

// Writes what the row does, and its end.
fn write_action(alloc: Global, out: &mut Writer, action: &Action) -> Result<(), AllocError>
    ensures ok { OnOk result (out.new.tokens
        ≡ out.old.tokens ++ items_tokens (items_outline (action_items action.now))) }
    ensures before { out.new.before ≡ out.old.before }
    ensures plain { OnOk result (IsPlain (array (action_items action.now))) }
    ensures reads_back { OnOk result (action_in (action_items action.now) ≡ Some action.now) }
    ensures low { OnOk result (depth (array (action_items action.now)) ≤ 36) }
{
    match action {
        Action::Put(placement) => write_put(alloc, out, placement),
        Action::Keep(path) => write_keep(alloc, out, path),
    }
}

// The action that keeps the place at the path, none where it isn't the text of one.
fn read_keep(alloc: Global, path: &Value) -> Result<Option<Action>, AllocError>
    ensures { IfOk result (λ found. found ≡ keep_in (view path.now)) }
{
    match path_of(alloc, path)? {
        Some(path) => Ok(Some(Action::Keep(path))),
        None => Ok(None),
    }
}

// The action that puts the draft at the path, none where it may not stand there.
fn read_put(alloc: Global, path: &Value, draft: &Value) -> Result<Option<Action>, AllocError>
    ensures { IfOk result (λ found. found ≡ put_in (view path.now) (view draft.now)) }
{
    let Some(path) = path_of(alloc, path)? else {
        return Ok(None);
    };
    match from_value_below::<DraftLeaf, DraftLeafForm>(alloc, draft, &path) {
        Ok(draft) => Ok(Some(Action::Put(Placement::fitting(path, draft)))),
        Err(TreeFault::Memory) => Err(AllocError),
        Err(_) => Ok(None),
    }
}

// What a row does, none where the items after its number don't say it.
fn read_action(alloc: Global, items: &[Value]) -> Result<Option<Action>, AllocError>
    ensures { IfOk result (λ found. found ≡ action_in (items_view items.now)) }
{
    match items {
        [path] => read_keep(alloc, path),
        [path, draft] => read_put(alloc, path, draft),
        _ => Ok(None),
    }
}

impl BodyJson for PlanRow {
    ghost use Rattle.pres_base_json.specs.Forms.{plan_row_json};
    ghost use Rattle.pres_base_json.specs.Reads.{plan_row_in};

    ghost json = { plan_row_json };

    ghost found = { plan_row_in };

    ghost kept = { λ row. row };

    ghost levels = { 36 };

    fn write(&self, alloc: Global, out: &mut Writer) -> Result<(), AllocError> {
        out.begin_array()?;
        write_number(self.q, out)?;
        write_action(alloc, out, &self.action)
    }

    fn read(alloc: Global, value: &Value) -> Result<Option<PlanRow>, AllocError> {
        let Some(items) = value.as_array() else {
            return Ok(None);
        };
        let Some((first, rest)) = items.as_slice().split_first() else {
            return Ok(None);
        };
        let Some(q) = read_number(first) else {
            return Ok(None);
        };
        match read_action(alloc, rest)? {
            Some(action) => Ok(Some(PlanRow { q, action })),
            None => Ok(None),
        }
    }
}
