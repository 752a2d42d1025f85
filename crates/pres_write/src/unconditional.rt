//! Operations that are carried out whatever stands.

ghost use Rattle.std.specs.Prelude.{◌≡◌, IfOk, Ok, Some, MatchResult};
ghost use Rattle.serde_json.specs.View.{view};
ghost use Rattle.pres_write.specs.OpForms.{IsRefusal, is_tx, op_json, op_read};
ghost use Rattle.pres_write.specs.Unconditionals.{as_op, puts_of, unconditional_of, unconditional_read};

use crate::fault::WriteFault;
use crate::op::{Op, read_op, set_value, update_value};
use crate::placement::Placement;
use crate::puts::Puts;
use crate::update::Update;
use serde_json::Value;
use std::alloc::{AllocError, Global};

/// An operation that is carried out whatever stands, so that it may be registered for a disconnection:
/// each but a transaction.
#[derive(Drop)]
pub enum Unconditional {
    /// Replaces all that stands at the path by a value; null removes it.
    Set(Placement),
    /// Puts values at several places, all of them or none.
    Update(Update),
}

// Whether the JSON value is a transaction's by its word.
fn is_tx(value: &Value) -> bool
    ensures { result ≡ is_tx (view value.now) }
{
    match value.get("op").and_then(Value::as_str) {
        Some(word) => word == "tx",
        None => false,
    }
}

/// The operation of a JSON value, none for a transaction: an object whose `op` is the text
/// "tx", whatever else it holds. Refused as `read_op` refuses.
pub fn read_unconditional(alloc: Global, value: &Value) -> Result<Option<Unconditional>, WriteFault>
    ensures { MatchResult result
        (λ found. unconditional_read (view value.now) ≡ Ok found)
        (λ e. IsRefusal (unconditional_read (view value.now)) e) }
{
    if is_tx(value) {
        return Ok(None);
    }
    let op = read_op(alloc, value)?;
    Ok(Unconditional::of(op))
}

/// The JSON value of the operation. Read again, it is an equal one.
pub fn unconditional_value(alloc: Global, op: &Unconditional) -> Result<Value, AllocError>
    ensures json { IfOk result (λ made. view made ≡ op_json (as_op op.now)) }
    ensures reads_back { IfOk result (λ made. op_read (view made) ≡ Ok (as_op op.now)) }
    ensures reads_so { IfOk result (λ made.
        unconditional_read (view made) ≡ Ok (Some op.now)) }
{
    match op {
        Unconditional::Set(placement) => set_value(alloc, placement),
        Unconditional::Update(update) => update_value(alloc, update),
    }
}

impl Unconditional {
    /// The operation, which is moved; none where it is a transaction.
    pub fn of(op: Op) -> Option<Unconditional>
        ensures { result ≡ unconditional_of op }
    {
        match op {
            Op::Set(placement) => Some(Unconditional::Set(placement)),
            Op::Update(update) => Some(Unconditional::Update(update)),
            Op::Tx(tx) => {
                drop(tx);
                None
            }
        }
    }

    /// Its puts.
    pub fn puts(&self, alloc: Global) -> Result<Puts, AllocError>
        ensures { IfOk result (λ puts. puts ≡ puts_of self.now) }
    {
        match self {
            Unconditional::Set(placement) => Puts::one(alloc, placement.copy(alloc)?),
            Unconditional::Update(update) => update.puts(alloc),
        }
    }

    /// An equal operation.
    pub fn copy(&self, alloc: Global) -> Result<Unconditional, AllocError>
        ensures { IfOk result (λ made. made ≡ self.now) }
    {
        match self {
            Unconditional::Set(placement) => Ok(Unconditional::Set(placement.copy(alloc)?)),
            Unconditional::Update(update) => Ok(Unconditional::Update(update.copy(alloc)?)),
        }
    }
}
