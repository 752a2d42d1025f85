//! The fields of entries, read.

ghost use Rattle.std.specs.Prelude.{◌≡◌, IfOk, codes};
ghost use Rattle.serde_json.specs.View.{view};
ghost use Rattle.pres_wire.specs.Fields.{field_of};
ghost use Rattle.pres_ids.specs.Forms.{why_in};
ghost use Rattle.pres_wire.specs.DownReads.{limit_in};
ghost use Rattle.pres_batch_json.specs.Reads.{session_field, number_field, path_field, op_in, outcome_in, puts_in, list_of, write_in, number_or_none};

use crate::list::read_list;
use crate::part::{read_number, read_op, read_outcome, read_puts};
use pres_ids::{read_session, read_why};
use pres_tree::Path;
use pres_wire::part::path_of;
use pres_wire::{Limit, Number, SessionId, Why, read_limit};
use pres_write::{Basic, Items, Op, Outcome, Puts};
use serde_json::Value;
use std::alloc::{AllocError, Global};

// The session of an entry.
pub(crate) fn session_field(alloc: Global, entry: &Value) -> Result<Option<SessionId>, AllocError>
    ensures { IfOk result (λ found. found ≡ session_field (view entry.now)) }
{
    match entry.get("s") {
        Some(value) => read_session(alloc, value),
        None => Ok(None),
    }
}

// The number of this name.
pub(crate) fn number_field(entry: &Value, name: &str) -> Option<Number>
    ensures { result ≡ number_field name.now (view entry.now) }
{
    pres_ids::read_number(entry.get(name)?)
}

// The number of a message, or none of null.
pub(crate) fn number_or_null_field(entry: &Value) -> Option<Option<Number>>
    ensures { result ≡ field_of number_or_none (codes "q") (view entry.now) }
{
    read_number(entry.get("q")?)
}

// The write's outcome under its field.
pub(crate) fn why_field(entry: &Value) -> Option<Why>
    ensures { result ≡ field_of why_in (codes "why") (view entry.now) }
{
    read_why(entry.get("why")?)
}

// The limit that a message met.
pub(crate) fn limit_field(entry: &Value) -> Option<Limit>
    ensures { result ≡ field_of limit_in (codes "why") (view entry.now) }
{
    read_limit(entry.get("why")?)
}

// The path of an entry.
pub(crate) fn path_field(alloc: Global, entry: &Value) -> Result<Option<Path>, AllocError>
    ensures { IfOk result (λ found. found ≡ path_field (view entry.now)) }
{
    match entry.get("path") {
        Some(value) => path_of(alloc, value),
        None => Ok(None),
    }
}

// The operation of an entry.
pub(crate) fn op_field(alloc: Global, entry: &Value) -> Result<Option<Op>, AllocError>
    ensures { IfOk result (λ found. found ≡ field_of op_in (codes "op") (view entry.now)) }
{
    match entry.get("op") {
        Some(value) => read_op(alloc, value),
        None => Ok(None),
    }
}

// The outcome of an entry's operation.
pub(crate) fn out_field(alloc: Global, entry: &Value) -> Result<Option<Outcome>, AllocError>
    ensures { IfOk result (λ found. found ≡ field_of outcome_in (codes "out") (view entry.now)) }
{
    match entry.get("out") {
        Some(value) => read_outcome(alloc, value),
        None => Ok(None),
    }
}

// The writes of a session's end.
pub(crate) fn writes_field(alloc: Global, entry: &Value) -> Result<Option<Items<Basic>>, AllocError>
    ensures { IfOk result (λ found.
        found ≡ field_of (list_of write_in) (codes "rows") (view entry.now)) }
{
    match entry.get("rows") {
        Some(value) => read_list(alloc, value),
        None => Ok(None),
    }
}

// The puts of an entry.
pub(crate) fn puts_field(alloc: Global, entry: &Value) -> Result<Option<Puts>, AllocError>
    ensures { IfOk result (λ found. found ≡ field_of puts_in (codes "rows") (view entry.now)) }
{
    match entry.get("rows") {
        Some(value) => read_puts(alloc, value),
        None => Ok(None),
    }
}
