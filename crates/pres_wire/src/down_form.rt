//! The JSON values of messages to a client.

ghost use Rattle.std.specs.Prelude.{◌≡◌, ◌≤◌, ◌∷◌, [], IfOk, Some, codes};
ghost use Rattle.serde_json.specs.Data.{depth};
ghost use Rattle.serde_json.specs.View.{view, members_view};
ghost use Rattle.pres_tree.specs.JsonPrinting.{json_of};
ghost use Rattle.pres_tree.specs.Scalars.{scalar_printing};
ghost use Rattle.pres_ids.specs.Forms.{whole, stamp_json, session_json, message_number, session_of, stamp_in};
ghost use Rattle.pres_wire.specs.Fields.{message, members_of, path_json, path_of};
ghost use Rattle.pres_wire.specs.DownForms.{out_json, session_or_null, down_json};
ghost use Rattle.pres_wire.specs.DownReads.{session_or_none, one_null, out_of, value_of, HasForm};

use crate::down::{Code, Down, Limit};
use crate::form::MessageForm;
use crate::part::{held_value, tree_value};
use crate::values::Values;
use pres_ids::{Count, Number, SessionId, Stamp, Why, session_value, stamp_value};
use pres_tree::{Path, Tree};
use pres_write::Kept;
use serde_json::{Value, json};
use std::alloc::{AllocError, Global};

// The JSON value of a Welcome.
pub(crate) fn welcome_value(
    alloc: Global,
    session: &SessionId,
    z: Number,
    ops: Count,
) -> Result<Value, AllocError>
    ensures json { IfOk result (λ made. view made ≡ down_json (Down.Welcome session.now z ops)) }
    ensures form { IfOk result (λ _. HasForm (Down.Welcome session.now z ops)) }
{
    let form = MessageForm::new(alloc).value(alloc, "ops", Value::from(ops.get()))?;
    let form = form.number(alloc, "z", z)?;
    form.message(alloc, "welcome", session)
}

// The JSON value of a Gone.
pub(crate) fn gone_value(
    alloc: Global,
    session: &SessionId,
    r: Number,
    z: Number,
    why: Why,
) -> Result<Value, AllocError>
    ensures json { IfOk result (λ made. view made ≡ down_json (Down.Gone session.now r z why)) }
    ensures form { IfOk result (λ _. HasForm (Down.Gone session.now r z why)) }
{
    let word = Value::try_from_str(alloc, why.word())?;
    let form = MessageForm::new(alloc).value(alloc, "why", word)?;
    form.sent(alloc, "gone", session, r, z)
}

// The JSON value of a write's outcome.
fn out_value(alloc: Global, out: &Kept) -> Result<Value, AllocError>
    ensures json { IfOk result (λ made. view made ≡ out_json out.now) }
    ensures form { IfOk result (λ _. out_of (out_json out.now) ≡ Some (one_null out.now)) }
    ensures low { IfOk result (λ _. depth (out_json out.now) ≤ 34) }
{
    match out {
        Kept::Wrote => json!(in alloc; "wrote"),
        Kept::Stale(held) => {
            let held = held_value(alloc, held)?;
            json!(in alloc; {"stale": held})
        }
    }
}

// The fields of a Reply that say which write it answers, and how.
pub(crate) fn write_form(
    alloc: Global,
    q: Number,
    n: Number,
    done: Number,
    out: &Kept,
) -> Result<MessageForm, AllocError>
    ensures fields { IfOk result (λ made. members_view made.members.entries
        ≡ members_of ((codes "q", whole q) ∷ (codes "n", whole n) ∷ (codes "done", whole done)
        ∷ (codes "out", out_json out.now) ∷ [])) }
    ensures q { IfOk result (λ _. message_number (whole q) ≡ Some q) }
    ensures n { IfOk result (λ _. message_number (whole n) ≡ Some n) }
    ensures done { IfOk result (λ _. message_number (whole done) ≡ Some done) }
    ensures out { IfOk result (λ _. out_of (out_json out.now) ≡ Some (one_null out.now)) }
    ensures low { IfOk result (λ _. depth (out_json out.now) ≤ 34) }
{
    let out = out_value(alloc, out)?;
    let form = MessageForm::new(alloc).value(alloc, "out", out)?;
    let form = form.number(alloc, "done", done)?;
    let form = form.number(alloc, "n", n)?;
    form.number(alloc, "q", q)
}

fn session_or_null(alloc: Global, session: &Option<SessionId>) -> Result<Value, AllocError>
    ensures json { IfOk result (λ made. view made ≡ session_or_null session.now) }
    ensures form { IfOk result (λ _.
        session_or_none (session_or_null session.now) ≡ Some session.now) }
    ensures low { IfOk result (λ _. depth (session_or_null session.now) ≤ 1) }
{
    match session {
        Some(session) => session_value(alloc, session),
        None => Ok(Value::Null),
    }
}

// The JSON value of a Fault without a stamp.
fn plain_fault(alloc: Global, session: &Option<SessionId>, number: u8) -> Result<Value, AllocError>
    ensures json { IfOk result (λ made. view made ≡ message (codes "fault")
        ((codes "s", session_or_null session.now) ∷ (codes "code", whole number) ∷ [])) }
    ensures form { IfOk result (λ _.
        session_or_none (session_or_null session.now) ≡ Some session.now) }
    ensures low { IfOk result (λ _. depth (session_or_null session.now) ≤ 1) }
{
    let session = session_or_null(alloc, session)?;
    let form = MessageForm::new(alloc).value(alloc, "s", session)?;
    let form = form.value(alloc, "code", Value::from(number))?;
    form.done(alloc, "fault")
}

// The JSON value of a Fault with the client's last stamp.
fn old_fault(
    alloc: Global,
    session: &Option<SessionId>,
    number: u8,
    last: Stamp,
) -> Result<Value, AllocError>
    ensures json { IfOk result (λ made. view made ≡ message (codes "fault")
        ((codes "s", session_or_null session.now) ∷ (codes "code", whole number)
        ∷ (codes "last", stamp_json last) ∷ [])) }
    ensures form { IfOk result (λ _.
        session_or_none (session_or_null session.now) ≡ Some session.now) }
    ensures low { IfOk result (λ _. depth (session_or_null session.now) ≤ 1) }
    ensures last { IfOk result (λ _. stamp_in (stamp_json last) ≡ Some last) }
{
    let last = stamp_value(alloc, last)?;
    let form = MessageForm::new(alloc).value(alloc, "last", last)?;
    let form = form.value(alloc, "code", Value::from(number))?;
    let session = session_or_null(alloc, session)?;
    let form = form.value(alloc, "s", session)?;
    form.done(alloc, "fault")
}

// The JSON value of a Fault.
pub(crate) fn fault_value(
    alloc: Global,
    session: &Option<SessionId>,
    code: Code,
) -> Result<Value, AllocError>
    ensures json { IfOk result (λ made. view made ≡ down_json (Down.Fault session.now code)) }
    ensures form { IfOk result (λ _. HasForm (Down.Fault session.now code)) }
    ensures low { IfOk result (λ _. depth (down_json (Down.Fault session.now code)) ≤ 127) }
{
    let number = code.number();
    match &code {
        Code::Old(last) => old_fault(alloc, session, number, *last),
        _ => plain_fault(alloc, session, number),
    }
}

// The JSON value of a message of this word that answers the message `q`, and has no further field.
pub(crate) fn answer_value(
    alloc: Global,
    word: &str,
    session: &SessionId,
    r: Number,
    z: Number,
    q: Number,
) -> Result<Value, AllocError>
    ensures json { IfOk result (λ made. view made ≡ message word.now
        ((codes "s", session_json session.now) ∷ (codes "r", whole r) ∷ (codes "z", whole z)
        ∷ (codes "q", whole q) ∷ [])) }
    ensures session { IfOk result (λ _.
        session_of (session_json session.now) ≡ Some session.now) }
    ensures r { IfOk result (λ _. message_number (whole r) ≡ Some r) }
    ensures z { IfOk result (λ _. message_number (whole z) ≡ Some z) }
    ensures q { IfOk result (λ _. message_number (whole q) ≡ Some q) }
{
    let form = MessageForm::new(alloc).number(alloc, "q", q)?;
    form.sent(alloc, word, session, r, z)
}

// The JSON value of a Denied.
pub(crate) fn denied_value(
    alloc: Global,
    session: &SessionId,
    r: Number,
    z: Number,
    q: Number,
    why: Limit,
) -> Result<Value, AllocError>
    ensures json { IfOk result (λ made.
        view made ≡ down_json (Down.Denied session.now r z q why)) }
    ensures form { IfOk result (λ _. HasForm (Down.Denied session.now r z q why)) }
{
    let form = MessageForm::new(alloc).value(alloc, "why", Value::from(why.number()))?;
    let form = form.number(alloc, "q", q)?;
    form.sent(alloc, "denied", session, r, z)
}

// The fields of a Snap that say which On it answers, and what stands there.
pub(crate) fn place_form(
    alloc: Global,
    q: Number,
    path: &Path,
    value: &Tree,
) -> Result<MessageForm, AllocError>
    ensures fields { IfOk result (λ made. members_view made.members.entries
        ≡ members_of ((codes "q", whole q) ∷ (codes "path", path_json path.now)
        ∷ (codes "value", json_of scalar_printing value.now) ∷ [])) }
    ensures q { IfOk result (λ _. message_number (whole q) ≡ Some q) }
    ensures path { IfOk result (λ _. path_of (path_json path.now) ≡ Some path.now) }
    ensures value { IfOk result (λ _.
        value_of (json_of scalar_printing value.now) ≡ Some value.now) }
    ensures low { IfOk result (λ _. depth (json_of scalar_printing value.now) ≤ 33) }
{
    let value = tree_value(alloc, value)?;
    let form = MessageForm::new(alloc).value(alloc, "value", value)?;
    let Ok(text) = path.text(alloc) else {
        drop(form);
        return Err(AllocError);
    };
    let form = form.value(alloc, "path", Value::String(text))?;
    form.number(alloc, "q", q)
}

// The JSON value of a Push.
pub(crate) fn push_value(
    alloc: Global,
    session: &SessionId,
    r: Number,
    z: Number,
    values: &Values,
) -> Result<Value, AllocError>
    ensures json { IfOk result (λ made.
        view made ≡ down_json (Down.Push session.now r z values.now)) }
    ensures form { IfOk result (λ _. HasForm (Down.Push session.now r z values.now)) }
    ensures low { IfOk result (λ _. depth (down_json (Down.Push session.now r z values.now)) ≤ 127) }
{
    let values = values.to_value(alloc)?;
    let form = MessageForm::new(alloc).value(alloc, "values", values)?;
    form.sent(alloc, "push", session, r, z)
}
