//! Numbers, stamps, sessions and reasons from JSON values, and JSON values of them. They are
//! functions and no methods, so that a crate that calls none of them is built without JSON.

ghost use Rattle.std.specs.Prelude.{◌≡◌, ◌++◌, Some, IfOk, OnOk};
ghost use Rattle.serde_json.specs.View.{view};
ghost use Rattle.pres_tree.specs.JsonPrinting.{tokens_of, IsPlain};
ghost use Rattle.pres_ids.specs.Forms.{whole, message_number, message_count, stamp_json, stamp_in, session_json, session_of, why_in, why_of};

use crate::id::{ClientId, IdFault, SessionId, Stamp, Why};
use crate::number::{Count, Number};
use crate::pair::pair_of;
use json::Writer;
use serde_json::{Value, json};
use std::alloc::{AllocError, Global};

/// The number of a JSON value, none where it isn't the value of one.
pub fn read_number(value: &Value) -> Option<Number>
    ensures { result ≡ message_number (view value.now) }
{
    Number::new(value.as_u64()?)
}

/// Writes the JSON value of the number, which is read again as this number.
pub fn write_number(number: Number, out: &mut Writer) -> Result<(), AllocError>
    ensures ok { OnOk result (out.new.tokens ≡ out.old.tokens ++ tokens_of (whole number)) }
    ensures before { out.new.before ≡ out.old.before }
    ensures plain { OnOk result (IsPlain (whole number)) }
    ensures reads_back { message_number (whole number) ≡ Some number }
{
    out.u64(number.get())
}

/// The count of a JSON value, none where it isn't the value of one.
pub fn read_count(value: &Value) -> Option<Count>
    ensures { result ≡ message_count (view value.now) }
{
    Count::new(value.as_u64()?)
}

/// The JSON value of the stamp: `[incarnation,attempt]`.
pub fn stamp_value(alloc: Global, stamp: Stamp) -> Result<Value, AllocError>
    ensures json { IfOk result (λ made. view made ≡ stamp_json stamp) }
    ensures reads_back { IfOk result (λ made. stamp_in (view made) ≡ Some stamp) }
{
    json!(in alloc; [stamp.incarnation.get(), stamp.attempt.get()])
}

/// The stamp of a JSON value, none where it isn't the value of one.
pub fn read_stamp(value: &Value) -> Option<Stamp>
    ensures { result ≡ stamp_in (view value.now) }
{
    let (incarnation, attempt) = pair_of(value)?;
    Some(Stamp {
        incarnation: read_number(incarnation)?,
        attempt: read_number(attempt)?,
    })
}

/// The JSON value of the session: `[client,incarnation,attempt]`. It is read again as this session.
pub fn session_value(alloc: Global, session: &SessionId) -> Result<Value, AllocError>
    ensures json { IfOk result (λ made. view made ≡ session_json session.now) }
    ensures reads_back { IfOk result (λ made. session_of (view made) ≡ Some session.now) }
{
    json!(in alloc; [session.client.text(), session.incarnation.get(), session.attempt.get()])
}

/// Writes the JSON value of the session, which is read again as this session.
pub fn write_session(session: &SessionId, out: &mut Writer) -> Result<(), AllocError>
    ensures ok { OnOk result
        (out.new.tokens ≡ out.old.tokens ++ tokens_of (session_json session.now)) }
    ensures before { out.new.before ≡ out.old.before }
    ensures plain { OnOk result (IsPlain (session_json session.now)) }
    ensures reads_back { OnOk result (session_of (session_json session.now) ≡ Some session.now) }
{
    out.begin_array()?;
    out.string(session.client.text())?;
    write_number(session.incarnation, out)?;
    write_number(session.attempt, out)?;
    out.end_array()
}

/// The session of a JSON value, none where it isn't the value of one.
pub fn read_session(alloc: Global, value: &Value) -> Result<Option<SessionId>, AllocError>
    ensures { IfOk result (λ found. found ≡ session_of (view value.now)) }
{
    let Some(items) = value.as_array() else {
        return Ok(None);
    };
    let [client, incarnation, attempt] = items.as_slice() else {
        return Ok(None);
    };
    let Some(text) = client.as_str() else {
        return Ok(None);
    };
    let Some(incarnation) = read_number(incarnation) else {
        return Ok(None);
    };
    let Some(attempt) = read_number(attempt) else {
        return Ok(None);
    };
    match ClientId::parse(alloc, text) {
        Ok(client) => Ok(Some(SessionId {
            client,
            incarnation,
            attempt,
        })),
        Err(IdFault::NotAnId) => Ok(None),
        Err(IdFault::Memory) => Err(AllocError),
    }
}

/// The reason whose word a JSON value is, none where it is no such word.
pub fn read_why(value: &Value) -> Option<Why>
    ensures { result ≡ why_in (view value.now) }
{
    why_of_word(value.as_str()?)
}

// The reason that the word is for.
fn why_of_word(word: &str) -> Option<Why>
    ensures { result ≡ why_of word.now }
{
    match word {
        "bye" => Some(Why::Bye),
        "lost" => Some(Why::Lost),
        "lease" => Some(Why::Lease),
        "superseded" => Some(Why::Superseded),
        "slow" => Some(Why::Slow),
        "restart" => Some(Why::Restart),
        _ => None,
    }
}
