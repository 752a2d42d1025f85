//! The fields of messages to a client, read.

ghost use Rattle.std.specs.Prelude.{◌≡◌, ◌⊎◌, IfOk, MatchResult, Ok, Err};
ghost use Rattle.serde_json.specs.View.{view};
ghost use Rattle.pres_wire.specs.DownReads.{out_of, session_or_none, ops_field, out_field, why_field, limit_field, value_field, values_field, session_or_null_field, last_field, code_of, code_field};
ghost use Rattle.pres_wire.specs.declared.fault.WireFault.TheVariants.{Memory};

use crate::down::{Code, Limit, read_limit};
use crate::fault::{Field, WireFault};
use crate::field::number_field;
use crate::part::{held_of, tree_of};
use crate::values::Values;
use pres_ids::{
    Count, Number, SessionId, Stamp, Why, read_count, read_session, read_stamp, read_why,
};
use pres_tree::Tree;
use pres_write::Kept;
use serde_json::Value;
use std::alloc::{AllocError, Global};

// How many writes of the client there are.
pub(crate) fn ops_field(message: &Value) -> Result<Count, WireFault>
    ensures { result ≡ ops_field (view message.now) }
{
    message
        .get(Field::Ops.name())
        .and_then(|value| read_count(value))
        .ok_or(WireFault::Field(Field::Ops))
}

// Why a session ended.
pub(crate) fn why_field(message: &Value) -> Result<Why, WireFault>
    ensures { result ≡ why_field (view message.now) }
{
    message
        .get(Field::Why.name())
        .and_then(|value| read_why(value))
        .ok_or(WireFault::Field(Field::Why))
}

// The limit that a message met.
pub(crate) fn limit_field(message: &Value) -> Result<Limit, WireFault>
    ensures { result ≡ limit_field (view message.now) }
{
    message
        .get(Field::Why.name())
        .and_then(|value| read_limit(value))
        .ok_or(WireFault::Field(Field::Why))
}

// The client's last stamp.
fn last_field(message: &Value) -> Result<Stamp, WireFault>
    ensures { result ≡ last_field (view message.now) }
{
    message
        .get(Field::Last.name())
        .and_then(|value| read_stamp(value))
        .ok_or(WireFault::Field(Field::Last))
}

// Why a message was refused, as the number says.
fn code_of(number: Number, message: &Value) -> Result<Code, WireFault>
    ensures { result ≡ code_of number (view message.now) }
{
    match number.get() {
        1 => Ok(Code::Bad),
        2 => Ok(Code::Old(last_field(message)?)),
        3 => Ok(Code::Session),
        4 => Ok(Code::Order),
        5 => Ok(Code::Full),
        6 => Ok(Code::Busy),
        7 => Ok(Code::Spent),
        8 => Ok(Code::Down),
        _ => Err(WireFault::Field(Field::Code)),
    }
}

// Why a message was refused.
pub(crate) fn code_field(message: &Value) -> Result<Code, WireFault>
    ensures { result ≡ code_field (view message.now) }
{
    let number = number_field(message, Field::Code)?;
    code_of(number, message)
}

// None of null, or a session.
fn session_or_none(alloc: Global, value: &Value) -> Result<Option<Option<SessionId>>, AllocError>
    ensures { IfOk result (λ found. found ≡ session_or_none (view value.now)) }
{
    if value.is_null() {
        return Ok(Some(None));
    }
    match read_session(alloc, value)? {
        Some(session) => Ok(Some(Some(session))),
        None => Ok(None),
    }
}

// The outcome of a write, from a text or an object.
fn out_of(alloc: Global, value: &Value) -> Result<Option<Kept>, AllocError>
    ensures { IfOk result (λ found. found ≡ out_of (view value.now)) }
{
    if let Some(word) = value.as_str() {
        return match word {
            "wrote" => Ok(Some(Kept::Wrote)),
            _ => Ok(None),
        };
    }
    let Some(held) = value.get("stale") else {
        return Ok(None);
    };
    match tree_of(alloc, held)? {
        Some(tree) => Ok(Some(Kept::Stale(held_of(tree)))),
        None => Ok(None),
    }
}

// The session of a Fault, or none.
pub(crate) fn session_or_null_field(
    alloc: Global,
    message: &Value,
) -> Result<Option<SessionId>, WireFault>
    ensures { MatchResult result
        (λ found. session_or_null_field (view message.now) ≡ Ok found)
        (λ e. (e ≡ Memory) ⊎ (session_or_null_field (view message.now) ≡ Err e)) }
{
    let Some(value) = message.get(Field::Session.name()) else {
        return Err(WireFault::Field(Field::Session));
    };
    match session_or_none(alloc, value)? {
        Some(found) => Ok(found),
        None => Err(WireFault::Field(Field::Session)),
    }
}

// The outcome of a write.
pub(crate) fn out_field(alloc: Global, message: &Value) -> Result<Kept, WireFault>
    ensures { MatchResult result
        (λ found. out_field (view message.now) ≡ Ok found)
        (λ e. (e ≡ Memory) ⊎ (out_field (view message.now) ≡ Err e)) }
{
    let Some(value) = message.get(Field::Out.name()) else {
        return Err(WireFault::Field(Field::Out));
    };
    match out_of(alloc, value)? {
        Some(found) => Ok(found),
        None => Err(WireFault::Field(Field::Out)),
    }
}

// The value at a path.
pub(crate) fn value_field(alloc: Global, message: &Value) -> Result<Tree, WireFault>
    ensures { MatchResult result
        (λ found. value_field (view message.now) ≡ Ok found)
        (λ e. (e ≡ Memory) ⊎ (value_field (view message.now) ≡ Err e)) }
{
    let Some(value) = message.get(Field::Value.name()) else {
        return Err(WireFault::Field(Field::Value));
    };
    match tree_of(alloc, value)? {
        Some(found) => Ok(found),
        None => Err(WireFault::Field(Field::Value)),
    }
}

// Values at paths that rise.
pub(crate) fn values_field(alloc: Global, message: &Value) -> Result<Values, WireFault>
    ensures { MatchResult result
        (λ found. values_field (view message.now) ≡ Ok found)
        (λ e. (e ≡ Memory) ⊎ (values_field (view message.now) ≡ Err e)) }
{
    let Some(value) = message.get(Field::Values.name()) else {
        return Err(WireFault::Field(Field::Values));
    };
    match Values::from_value(alloc, value)? {
        Some(found) => Ok(found),
        None => Err(WireFault::Field(Field::Values)),
    }
}
