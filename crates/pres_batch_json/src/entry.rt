//! The JSON values of entries.

ghost use Rattle.std.specs.Prelude.{◌≡◌, ◌≤◌, ◌∷◌, [], IfOk, Some, codes};
ghost use Rattle.serde_json.specs.Data.{object, string, depth, put as with_member};
ghost use Rattle.serde_json.specs.View.{view, members_view};
ghost use Rattle.pres_ids.specs.Forms.{whole, session_json, message_number, session_of};
ghost use Rattle.pres_wire.specs.Fields.{path_json, path_of};
ghost use Rattle.pres_batch_json.specs.Entries.{entry_object, entry_json};
ghost use Rattle.pres_batch_json.specs.Reads.{HasForm};
ghost use Rattle.pres_log.specs.declared.entry.Entry.TheVariants as entry;

use crate::list::list_value;
use crate::part::{number_value, outcome_value, puts_value};
use pres_ids::session_value;
use pres_log::Entry;
use pres_tree::Path;
use pres_wire::part::op_value;
use pres_wire::{Limit, MessageForm, Number, SessionId, Why};
use pres_write::{Basic, Op, Outcome, Puts};
use serde_json::Value;
use std::alloc::{AllocError, Global};

// The object of the fields, with the word and the session of the entry.
fn entry_value(
    alloc: Global,
    word: &str,
    session: &SessionId,
    form: MessageForm,
) -> Result<Value, AllocError>
    ensures json { IfOk result (λ made. view made
        ≡ object (with_member (codes "e") (string word.now)
        (with_member (codes "s") (session_json session.now)
        (members_view form.members.entries)))) }
    ensures reads_back { IfOk result (λ _.
        session_of (session_json session.now) ≡ Some session.now) }
{
    let Ok(session) = session_value(alloc, session) else {
        drop(form);
        return Err(AllocError);
    };
    let form = form.value(alloc, "s", session)?;
    let Ok(word) = Value::try_from_str(alloc, word) else {
        drop(form);
        return Err(AllocError);
    };
    let form = form.value(alloc, "e", word)?;
    Ok(form.object())
}

// The JSON value of an opening.
fn open_value(alloc: Global, session: &SessionId) -> Result<Value, AllocError>
    ensures json { IfOk result (λ made. view made ≡ entry_json (entry.Open session.now)) }
    ensures form { IfOk result (λ _. HasForm (entry.Open session.now)) }
{
    entry_value(alloc, "open", session, MessageForm::new(alloc))
}

// The JSON value of a write.
fn done_value(
    alloc: Global,
    session: &SessionId,
    q: Number,
    n: Number,
    op: &Op,
    outcome: &Outcome,
) -> Result<Value, AllocError>
    ensures json { IfOk result (λ made.
        view made ≡ entry_json (entry.Op session.now q n op.now outcome.now)) }
    ensures form { IfOk result (λ _. HasForm (entry.Op session.now q n op.now outcome.now)) }
    ensures low { IfOk result (λ _.
        depth (entry_json (entry.Op session.now q n op.now outcome.now)) ≤ 65) }
{
    let outcome = outcome_value(alloc, outcome)?;
    let form = MessageForm::new(alloc).value(alloc, "out", outcome)?;
    let Ok(op) = op_value(alloc, op) else {
        drop(form);
        return Err(AllocError);
    };
    let form = form.value(alloc, "op", op)?;
    let form = form.number(alloc, "n", n)?.number(alloc, "q", q)?;
    entry_value(alloc, "op", session, form)
}

// The JSON value of a write that came again.
fn again_value(
    alloc: Global,
    session: &SessionId,
    q: Number,
    n: Number,
) -> Result<Value, AllocError>
    ensures json { IfOk result (λ made. view made ≡ entry_json (entry.Again session.now q n)) }
    ensures form { IfOk result (λ _. HasForm (entry.Again session.now q n)) }
{
    let form = MessageForm::new(alloc).number(alloc, "n", n)?;
    let form = form.number(alloc, "q", q)?;
    entry_value(alloc, "again", session, form)
}

// The JSON value of an end.
fn ended_value(
    alloc: Global,
    session: &SessionId,
    q: Option<Number>,
    why: Why,
    rows: &[Basic],
) -> Result<Value, AllocError>
    ensures json { IfOk result (λ made.
        view made ≡ entry_json (entry.Ended session.now q why rows.now)) }
    ensures form { IfOk result (λ _. HasForm (entry.Ended session.now q why rows.now)) }
    ensures low { IfOk result (λ _.
        depth (entry_json (entry.Ended session.now q why rows.now)) ≤ 65) }
{
    let rows = list_value(alloc, rows)?;
    let form = MessageForm::new(alloc).value(alloc, "rows", rows)?;
    let form = form.value(alloc, "q", number_value(q))?;
    let Ok(word) = Value::try_from_str(alloc, why.word()) else {
        drop(form);
        return Err(AllocError);
    };
    let form = form.value(alloc, "why", word)?;
    entry_value(alloc, "ended", session, form)
}

// The JSON value of puts that were left.
fn left_value(
    alloc: Global,
    session: &SessionId,
    q: Number,
    puts: &Puts,
) -> Result<Value, AllocError>
    ensures json { IfOk result (λ made.
        view made ≡ entry_json (entry.Left session.now q puts.now)) }
    ensures form { IfOk result (λ _. HasForm (entry.Left session.now q puts.now)) }
    ensures low { IfOk result (λ _.
        depth (entry_json (entry.Left session.now q puts.now)) ≤ 65) }
{
    let rows = puts_value(alloc, puts)?;
    let form = MessageForm::new(alloc).value(alloc, "rows", rows)?;
    let form = form.number(alloc, "q", q)?;
    entry_value(alloc, "left", session, form)
}

// The JSON value of an entry of this word that has a path.
fn placed_value(
    alloc: Global,
    word: &str,
    session: &SessionId,
    q: Number,
    path: &Path,
) -> Result<Value, AllocError>
    ensures json { IfOk result (λ made. view made ≡ entry_object word.now session.now
        ((codes "q", whole q) ∷ (codes "path", path_json path.now) ∷ [])) }
    ensures session { IfOk result (λ _.
        session_of (session_json session.now) ≡ Some session.now) }
    ensures q { IfOk result (λ _. message_number (whole q) ≡ Some q) }
    ensures path { IfOk result (λ _. path_of (path_json path.now) ≡ Some path.now) }
{
    let text = Value::String(path.text(alloc)?);
    let form = MessageForm::new(alloc).value(alloc, "path", text)?;
    let form = form.number(alloc, "q", q)?;
    entry_value(alloc, word, session, form)
}

// The JSON value of a denial.
fn denied_value(
    alloc: Global,
    session: &SessionId,
    q: Number,
    why: Limit,
) -> Result<Value, AllocError>
    ensures json { IfOk result (λ made. view made ≡ entry_json (entry.Denied session.now q why)) }
    ensures form { IfOk result (λ _. HasForm (entry.Denied session.now q why)) }
{
    let form = MessageForm::new(alloc).value(alloc, "why", Value::from(why.number()))?;
    let form = form.number(alloc, "q", q)?;
    entry_value(alloc, "denied", session, form)
}

// The JSON value of an entry, which is the form of no other, and nests few levels.
pub(crate) fn value_of(alloc: Global, saved: &Entry) -> Result<Value, AllocError>
    ensures json { IfOk result (λ made. view made ≡ entry_json saved.now) }
    ensures form { IfOk result (λ _. HasForm saved.now) }
    ensures low { IfOk result (λ _. depth (entry_json saved.now) ≤ 65) }
{
    match saved {
        Entry::Open { session } => open_value(alloc, session),
        Entry::Op {
            session,
            q,
            n,
            op,
            outcome,
        } => done_value(alloc, session, *q, *n, op, outcome),
        Entry::Again { session, q, n } => again_value(alloc, session, *q, *n),
        Entry::Ended {
            session,
            q,
            why,
            rows,
        } => ended_value(alloc, session, *q, *why, rows.as_slice()),
        Entry::Left { session, q, puts } => left_value(alloc, session, *q, puts),
        Entry::Cancelled { session, q, path } => {
            placed_value(alloc, "cancelled", session, *q, path)
        }
        Entry::Denied { session, q, why } => denied_value(alloc, session, *q, *why),
        Entry::On { session, q, path } => placed_value(alloc, "on", session, *q, path),
        Entry::Off { session, q, path } => placed_value(alloc, "off", session, *q, path),
    }
}
