//! Entries, read.

ghost use Rattle.std.specs.Prelude.{◌≡◌, IfOk};
ghost use Rattle.serde_json.specs.View.{view};
ghost use Rattle.pres_batch_json.specs.Reads.{open_read, done_in, op_entry_read, again_read, ended_read, left_read, denied_read, placed_in, cancelled_read, on_read, off_read, entry_read};

use crate::field::{
    limit_field, number_field, number_or_null_field, op_field, out_field, path_field, puts_field,
    session_field, why_field, writes_field,
};
use pres_log::Entry;
use pres_tree::Path;
use pres_wire::{Number, SessionId};
use pres_write::{Op, Outcome};
use serde_json::Value;
use std::alloc::{AllocError, Global};

// The entry of a JSON value, none where it isn't the value of one.
pub(crate) fn read_entry(alloc: Global, value: &Value) -> Result<Option<Entry>, AllocError>
    ensures { IfOk result (λ found. found ≡ entry_read (view value.now)) }
{
    let Some(word) = value.get("e").and_then(Value::as_str) else {
        return Ok(None);
    };
    match word {
        "open" => read_open(alloc, value),
        "op" => read_done(alloc, value),
        "again" => read_again(alloc, value),
        "ended" => read_ended(alloc, value),
        "left" => read_left(alloc, value),
        "cancelled" => read_cancelled(alloc, value),
        "denied" => read_denied(alloc, value),
        "on" => read_on(alloc, value),
        "off" => read_off(alloc, value),
        _ => Ok(None),
    }
}

fn read_open(alloc: Global, entry: &Value) -> Result<Option<Entry>, AllocError>
    ensures { IfOk result (λ found. found ≡ open_read (view entry.now)) }
{
    match session_field(alloc, entry)? {
        Some(session) => Ok(Some(Entry::Open { session })),
        None => Ok(None),
    }
}

// The operation of an entry, and its outcome.
fn operation(alloc: Global, entry: &Value) -> Result<Option<(Op, Outcome)>, AllocError>
    ensures { IfOk result (λ found. found ≡ done_in (view entry.now)) }
{
    let Some(op) = op_field(alloc, entry)? else {
        return Ok(None);
    };
    match out_field(alloc, entry) {
        Ok(Some(outcome)) => Ok(Some((op, outcome))),
        Ok(None) => {
            drop(op);
            Ok(None)
        }
        Err(error) => {
            drop(op);
            Err(error)
        }
    }
}

fn read_done(alloc: Global, entry: &Value) -> Result<Option<Entry>, AllocError>
    ensures { IfOk result (λ found. found ≡ op_entry_read (view entry.now)) }
{
    let Some(q) = number_field(entry, "q") else {
        return Ok(None);
    };
    let Some(n) = number_field(entry, "n") else {
        return Ok(None);
    };
    let Some(session) = session_field(alloc, entry)? else {
        return Ok(None);
    };
    match operation(alloc, entry) {
        Ok(Some((op, outcome))) => Ok(Some(Entry::Op {
            session,
            q,
            n,
            op,
            outcome,
        })),
        Ok(None) => {
            drop(session);
            Ok(None)
        }
        Err(error) => {
            drop(session);
            Err(error)
        }
    }
}

fn read_again(alloc: Global, entry: &Value) -> Result<Option<Entry>, AllocError>
    ensures { IfOk result (λ found. found ≡ again_read (view entry.now)) }
{
    let Some(q) = number_field(entry, "q") else {
        return Ok(None);
    };
    let Some(n) = number_field(entry, "n") else {
        return Ok(None);
    };
    match session_field(alloc, entry)? {
        Some(session) => Ok(Some(Entry::Again { session, q, n })),
        None => Ok(None),
    }
}

fn read_ended(alloc: Global, entry: &Value) -> Result<Option<Entry>, AllocError>
    ensures { IfOk result (λ found. found ≡ ended_read (view entry.now)) }
{
    let Some(q) = number_or_null_field(entry) else {
        return Ok(None);
    };
    let Some(why) = why_field(entry) else {
        return Ok(None);
    };
    let Some(session) = session_field(alloc, entry)? else {
        return Ok(None);
    };
    match writes_field(alloc, entry) {
        Ok(Some(rows)) => Ok(Some(Entry::Ended {
            session,
            q,
            why,
            rows,
        })),
        Ok(None) => {
            drop(session);
            Ok(None)
        }
        Err(error) => {
            drop(session);
            Err(error)
        }
    }
}

fn read_left(alloc: Global, entry: &Value) -> Result<Option<Entry>, AllocError>
    ensures { IfOk result (λ found. found ≡ left_read (view entry.now)) }
{
    let Some(q) = number_field(entry, "q") else {
        return Ok(None);
    };
    let Some(session) = session_field(alloc, entry)? else {
        return Ok(None);
    };
    match puts_field(alloc, entry) {
        Ok(Some(puts)) => Ok(Some(Entry::Left { session, q, puts })),
        Ok(None) => {
            drop(session);
            Ok(None)
        }
        Err(error) => {
            drop(session);
            Err(error)
        }
    }
}

fn read_denied(alloc: Global, entry: &Value) -> Result<Option<Entry>, AllocError>
    ensures { IfOk result (λ found. found ≡ denied_read (view entry.now)) }
{
    let Some(q) = number_field(entry, "q") else {
        return Ok(None);
    };
    let Some(why) = limit_field(entry) else {
        return Ok(None);
    };
    match session_field(alloc, entry)? {
        Some(session) => Ok(Some(Entry::Denied { session, q, why })),
        None => Ok(None),
    }
}

// The session of an entry, the number of its message, and the path.
fn placed(alloc: Global, entry: &Value) -> Result<Option<(SessionId, Number, Path)>, AllocError>
    ensures { IfOk result (λ found. found ≡ placed_in (view entry.now)) }
{
    let Some(q) = number_field(entry, "q") else {
        return Ok(None);
    };
    let Some(session) = session_field(alloc, entry)? else {
        return Ok(None);
    };
    match path_field(alloc, entry) {
        Ok(Some(path)) => Ok(Some((session, q, path))),
        Ok(None) => {
            drop(session);
            Ok(None)
        }
        Err(error) => {
            drop(session);
            Err(error)
        }
    }
}

fn read_cancelled(alloc: Global, entry: &Value) -> Result<Option<Entry>, AllocError>
    ensures { IfOk result (λ found. found ≡ cancelled_read (view entry.now)) }
{
    match placed(alloc, entry)? {
        Some((session, q, path)) => Ok(Some(Entry::Cancelled { session, q, path })),
        None => Ok(None),
    }
}

fn read_on(alloc: Global, entry: &Value) -> Result<Option<Entry>, AllocError>
    ensures { IfOk result (λ found. found ≡ on_read (view entry.now)) }
{
    match placed(alloc, entry)? {
        Some((session, q, path)) => Ok(Some(Entry::On { session, q, path })),
        None => Ok(None),
    }
}

fn read_off(alloc: Global, entry: &Value) -> Result<Option<Entry>, AllocError>
    ensures { IfOk result (λ found. found ≡ off_read (view entry.now)) }
{
    match placed(alloc, entry)? {
        Some((session, q, path)) => Ok(Some(Entry::Off { session, q, path })),
        None => Ok(None),
    }
}
