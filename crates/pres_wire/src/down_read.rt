//! Messages to a client, read.

ghost use Rattle.std.specs.Prelude.{◌≡◌, ◌⊎◌, ℕ, Result, MatchResult, Ok, Err};
ghost use Rattle.serde_json.specs.View.{view};
ghost use Rattle.pres_wire.specs.UpForms.{and_then, number_field};
ghost use Rattle.pres_wire.specs.declared.fault.Field.TheVariants as field;
ghost use Rattle.pres_wire.specs.DownReads.{welcome_read, reply_read, gone_read, fault_read, armed_read, denied_read, snap_read, push_read, off_done_read, down_read};
ghost use Rattle.pres_wire.specs.declared.fault.WireFault.{WireFault};
ghost use Rattle.pres_wire.specs.declared.fault.WireFault.TheVariants.{Memory};
ghost use Rattle.pres_wire.specs.declared.down.Down.{Down};

use crate::down::{Down, Limit};
use crate::down_field::{
    code_field, limit_field, ops_field, out_field, session_or_null_field, value_field,
    values_field, why_field,
};
use crate::fault::{Field, WireFault};
use crate::field::{number_field, path_field, session_field};
use pres_ids::{Number, SessionId};
use serde_json::Value;
use std::alloc::Global;

// The message of a JSON value.
pub(crate) fn read_down(alloc: Global, value: &Value) -> Result<Down, WireFault>
    ensures { MatchResult result
        (λ m. down_read (view value.now) ≡ Ok m)
        (λ e. (e ≡ Memory) ⊎ (down_read (view value.now) ≡ Err e)) }
{
    let Some(word) = value.get("m").and_then(Value::as_str) else {
        return Err(WireFault::NoSuchMessage);
    };
    match word {
        "welcome" => read_welcome(alloc, value),
        "reply" => read_reply(alloc, value),
        "gone" => read_gone(alloc, value),
        "fault" => read_fault(alloc, value),
        "armed" => read_armed(alloc, value),
        "denied" => read_denied(alloc, value),
        "snap" => read_snap(alloc, value),
        "push" => read_push(alloc, value),
        "offdone" => read_off_done(alloc, value),
        _ => Err(WireFault::NoSuchMessage),
    }
}

fn read_welcome(alloc: Global, message: &Value) -> Result<Down, WireFault>
    ensures { MatchResult result
        (λ m. welcome_read (view message.now) ≡ Ok m)
        (λ e. (e ≡ Memory) ⊎ (welcome_read (view message.now) ≡ Err e)) }
{
    let session = session_field(alloc, message)?;
    let z = number_field(message, Field::Z)?;
    let ops = ops_field(message)?;
    Ok(Down::Welcome { session, z, ops })
}

fn read_reply(alloc: Global, message: &Value) -> Result<Down, WireFault>
    ensures { MatchResult result
        (λ m. reply_read (view message.now) ≡ Ok m)
        (λ e. (e ≡ Memory) ⊎ (reply_read (view message.now) ≡ Err e)) }
{
    let session = session_field(alloc, message)?;
    let r = number_field(message, Field::R)?;
    let z = number_field(message, Field::Z)?;
    let q = number_field(message, Field::Q)?;
    let n = number_field(message, Field::N)?;
    let done = number_field(message, Field::Done)?;
    let out = out_field(alloc, message)?;
    Ok(Down::Reply {
        session,
        r,
        z,
        q,
        n,
        done,
        out,
    })
}

fn read_gone(alloc: Global, message: &Value) -> Result<Down, WireFault>
    ensures { MatchResult result
        (λ m. gone_read (view message.now) ≡ Ok m)
        (λ e. (e ≡ Memory) ⊎ (gone_read (view message.now) ≡ Err e)) }
{
    let session = session_field(alloc, message)?;
    let r = number_field(message, Field::R)?;
    let z = number_field(message, Field::Z)?;
    let why = why_field(message)?;
    Ok(Down::Gone { session, r, z, why })
}

fn read_fault(alloc: Global, message: &Value) -> Result<Down, WireFault>
    ensures { MatchResult result
        (λ m. fault_read (view message.now) ≡ Ok m)
        (λ e. (e ≡ Memory) ⊎ (fault_read (view message.now) ≡ Err e)) }
{
    let session = session_or_null_field(alloc, message)?;
    let code = code_field(message)?;
    Ok(Down::Fault { session, code })
}

// The numbers `r` and `z` of a message that a session is sent, and the number `q` that it answers.
fn answer_numbers(message: &Value) -> Result<(Number, Number, Number), WireFault>
    ensures { MatchResult result
        (λ found. (number_field field.R (view message.now) ≡ Ok found.0)
        × (number_field field.Z (view message.now) ≡ Ok found.1)
        × (number_field field.Q (view message.now) ≡ Ok found.2))
        (λ e. (f : ℕ → ℕ → ℕ → Result Down WireFault)
        → and_then (number_field field.R (view message.now)) (λ r.
        and_then (number_field field.Z (view message.now)) (λ z.
        and_then (number_field field.Q (view message.now)) (λ q. f r z q))) ≡ Err e) }
{
    let r = number_field(message, Field::R)?;
    let z = number_field(message, Field::Z)?;
    let q = number_field(message, Field::Q)?;
    Ok((r, z, q))
}

fn read_armed(alloc: Global, message: &Value) -> Result<Down, WireFault>
    ensures { MatchResult result
        (λ m. armed_read (view message.now) ≡ Ok m)
        (λ e. (e ≡ Memory) ⊎ (armed_read (view message.now) ≡ Err e)) }
{
    let session = session_field(alloc, message)?;
    match answer_numbers(message) {
        Ok((r, z, q)) => Ok(Down::Armed { session, r, z, q }),
        Err(fault) => {
            drop(session);
            Err(fault)
        }
    }
}

// The Denied of these, unless the limit was refused.
fn denied_of(
    session: SessionId,
    r: Number,
    z: Number,
    q: Number,
    limit: Result<Limit, WireFault>,
) -> Result<Down, WireFault>
    ensures { result ≡ and_then limit (λ why. Ok (Down.Denied session r z q why)) }
{
    match limit {
        Ok(why) => Ok(Down::Denied {
            session,
            r,
            z,
            q,
            why,
        }),
        Err(fault) => {
            drop(session);
            Err(fault)
        }
    }
}

fn read_denied(alloc: Global, message: &Value) -> Result<Down, WireFault>
    ensures { MatchResult result
        (λ m. denied_read (view message.now) ≡ Ok m)
        (λ e. (e ≡ Memory) ⊎ (denied_read (view message.now) ≡ Err e)) }
{
    let session = session_field(alloc, message)?;
    match answer_numbers(message) {
        Ok((r, z, q)) => denied_of(session, r, z, q, limit_field(message)),
        Err(fault) => {
            drop(session);
            Err(fault)
        }
    }
}

fn read_snap(alloc: Global, message: &Value) -> Result<Down, WireFault>
    ensures { MatchResult result
        (λ m. snap_read (view message.now) ≡ Ok m)
        (λ e. (e ≡ Memory) ⊎ (snap_read (view message.now) ≡ Err e)) }
{
    let session = session_field(alloc, message)?;
    let r = number_field(message, Field::R)?;
    let z = number_field(message, Field::Z)?;
    let q = number_field(message, Field::Q)?;
    let path = path_field(alloc, message)?;
    let value = value_field(alloc, message)?;
    Ok(Down::Snap {
        session,
        r,
        z,
        q,
        path,
        value,
    })
}

fn read_push(alloc: Global, message: &Value) -> Result<Down, WireFault>
    ensures { MatchResult result
        (λ m. push_read (view message.now) ≡ Ok m)
        (λ e. (e ≡ Memory) ⊎ (push_read (view message.now) ≡ Err e)) }
{
    let session = session_field(alloc, message)?;
    let r = number_field(message, Field::R)?;
    let z = number_field(message, Field::Z)?;
    let values = values_field(alloc, message)?;
    Ok(Down::Push {
        session,
        r,
        z,
        values,
    })
}

fn read_off_done(alloc: Global, message: &Value) -> Result<Down, WireFault>
    ensures { MatchResult result
        (λ m. off_done_read (view message.now) ≡ Ok m)
        (λ e. (e ≡ Memory) ⊎ (off_done_read (view message.now) ≡ Err e)) }
{
    let session = session_field(alloc, message)?;
    match answer_numbers(message) {
        Ok((r, z, q)) => Ok(Down::OffDone { session, r, z, q }),
        Err(fault) => {
            drop(session);
            Err(fault)
        }
    }
}
