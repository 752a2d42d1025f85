//! The fields of messages, read.

ghost use Rattle.std.specs.Prelude.{◌≡◌, ◌≢◌, ◌⊎◌, MatchResult, Some, None, codes};
ghost use Rattle.serde_json.specs.Find.{get};
ghost use Rattle.serde_json.specs.View.{view};
ghost use Rattle.pres_write.specs.declared.fault.WriteFault.TheVariants.{Tree};
ghost use Rattle.pres_wire.specs.UpForms.{session_field, number_field, op_field, left_field, path_field};
ghost use Rattle.pres_wire.specs.declared.fault.WireFault.TheVariants.{Memory};

use crate::fault::{Field, WireFault};
use pres_ids::{Number, SessionId, read_number, read_session};
use pres_tree::{Path, TreeFault};
use pres_write::{Op, Unconditional, WriteFault, read_op, read_unconditional};
use serde_json::Value;
use std::alloc::Global;

// The session of a message.
pub(crate) fn session_field(alloc: Global, message: &Value) -> Result<SessionId, WireFault>
    ensures { MatchResult result
        (λ s. session_field (view message.now) ≡ Ok s)
        (λ e. (e ≡ Memory) ⊎ (session_field (view message.now) ≡ Err e)) }
{
    let Some(value) = message.get(Field::Session.name()) else {
        return Err(WireFault::Field(Field::Session));
    };
    match read_session(alloc, value)? {
        Some(session) => Ok(session),
        None => Err(WireFault::Field(Field::Session)),
    }
}

// The number of this name in a message.
pub(crate) fn number_field(message: &Value, field: Field) -> Result<Number, WireFault>
    ensures { result ≡ number_field field (view message.now) }
{
    message
        .get(field.name())
        .and_then(|value| read_number(value))
        .ok_or(WireFault::Field(field))
}

// The JSON value under the name of operations.
fn op_value(message: &Value) -> Result<&Value, WireFault>
    ensures { MatchResult result
        (λ v. get (codes "op") (view message.now) ≡ Some (view v.now))
        (λ e. (get (codes "op") (view message.now) ≡ None) × (e ≡ WireFault.Field Field.Op)) }
{
    message
        .get(Field::Op.name())
        .ok_or(WireFault::Field(Field::Op))
}

// The refusal of a message whose operation is refused.
fn refusal(fault: WriteFault) -> WireFault
    ensures memory { fault ≡ Tree TreeFault.Memory → result ≡ Memory }
    ensures write { (fault ≢ Tree TreeFault.Memory) → result ≡ WireFault.Write fault }
{
    match fault {
        WriteFault::Tree(TreeFault::Memory) => WireFault::Memory,
        _ => WireFault::Write(fault),
    }
}

// The operation of a message.
pub(crate) fn op_field(alloc: Global, message: &Value) -> Result<Op, WireFault>
    ensures { MatchResult result
        (λ op. op_field (view message.now) ≡ Ok op)
        (λ e. (e ≡ Memory) ⊎ (op_field (view message.now) ≡ Err e)) }
{
    let value = op_value(message)?;
    match read_op(alloc, value) {
        Ok(op) => Ok(op),
        Err(fault) => Err(refusal(fault)),
    }
}

// The operation of a Left.
pub(crate) fn left_field(alloc: Global, message: &Value) -> Result<Unconditional, WireFault>
    ensures { MatchResult result
        (λ op. left_field (view message.now) ≡ Ok op)
        (λ e. (e ≡ Memory) ⊎ (left_field (view message.now) ≡ Err e)) }
{
    let value = op_value(message)?;
    match read_unconditional(alloc, value) {
        Ok(Some(op)) => Ok(op),
        Ok(None) => Err(WireFault::Field(Field::Op)),
        Err(fault) => Err(refusal(fault)),
    }
}

// The path of a message.
pub(crate) fn path_field(alloc: Global, message: &Value) -> Result<Path, WireFault>
    ensures { MatchResult result
        (λ p. path_field (view message.now) ≡ Ok p)
        (λ e. (e ≡ Memory) ⊎ (path_field (view message.now) ≡ Err e)) }
{
    let Some(text) = message.get(Field::Path.name()).and_then(Value::as_str) else {
        return Err(WireFault::Field(Field::Path));
    };
    match Path::parse(alloc, text) {
        Ok(path) => Ok(path),
        Err(TreeFault::Memory) => Err(WireFault::Memory),
        Err(_) => Err(WireFault::Field(Field::Path)),
    }
}
