//! The texts of the most frequent messages, written at once, without a JSON value.

ghost use Rattle.std.specs.Prelude.{◌≡◌, ◌≤◌, ◌++◌, ◌∷◌, [], Some, codes, string_bytes, IfOk, OnOk};
ghost use Rattle.json.specs.Token.{key, string};
ghost use Rattle.serde_json.specs.Data.{depth};
ghost use Rattle.serde_json.specs.Read.{read};
ghost use Rattle.serde_json.specs.Written.{compact_text};
ghost use Rattle.pres_tree.specs.JsonPrinting.{json_of, tokens_of, IsPlain};
ghost use Rattle.pres_tree.specs.Scalars.{scalar_printing};
ghost use Rattle.pres_ids.specs.Forms.{whole, session_json, message_number, session_of};
ghost use Rattle.pres_wire.specs.Fields.{path_json, path_of};
ghost use Rattle.pres_wire.specs.DownForms.{values_json, down_json};
ghost use Rattle.pres_wire.specs.DownReads.{value_of, values_of, HasForm};
ghost use Rattle.pres_write.specs.declared.outcome.Kept.TheVariants.{Wrote};

use crate::down::Down;
use crate::field_text::{number_field, session_field, text_field};
use crate::part::write_tree;
use crate::values::PathValue;
use json::Writer;
use pres_ids::{Number, SessionId};
use pres_tree::{Path, Tree, text_of};
use std::alloc::{AllocError, Global};

// How many bytes most texts have at most.
const ROOM: usize = 256;

// Writes the first fields of the answer to a write that wrote, in byte order of their names.
fn reply_head(out: &mut Writer, q: Number, n: Number, done: Number) -> Result<(), AllocError>
    ensures ok { OnOk result (out.new.tokens ≡ out.old.tokens
        ++ key (codes "done") ∷ (tokens_of (whole done)
        ++ key (codes "m") ∷ string (codes "reply")
        ∷ key (codes "n") ∷ (tokens_of (whole n)
        ++ key (codes "out") ∷ string (codes "wrote")
        ∷ key (codes "q") ∷ tokens_of (whole q)))) }
    ensures before { out.new.before ≡ out.old.before }
    ensures plain { OnOk result (IsPlain (whole done) × IsPlain (whole n) × IsPlain (whole q)) }
    ensures done { message_number (whole done) ≡ Some done }
    ensures n { message_number (whole n) ≡ Some n }
    ensures q { message_number (whole q) ≡ Some q }
{
    number_field(out, "done", done)?;
    text_field(out, "m", "reply")?;
    number_field(out, "n", n)?;
    text_field(out, "out", "wrote")?;
    number_field(out, "q", q)
}

// Writes the last ones.
fn reply_tail(out: &mut Writer, session: &SessionId, r: Number, z: Number) -> Result<(), AllocError>
    ensures ok { OnOk result (out.new.tokens ≡ out.old.tokens
        ++ key (codes "r") ∷ (tokens_of (whole r)
        ++ key (codes "s") ∷ (tokens_of (session_json session.now)
        ++ key (codes "z") ∷ tokens_of (whole z)))) }
    ensures before { out.new.before ≡ out.old.before }
    ensures plain { OnOk result
        (IsPlain (whole r) × IsPlain (session_json session.now) × IsPlain (whole z)) }
    ensures session { OnOk result (session_of (session_json session.now) ≡ Some session.now) }
    ensures r { message_number (whole r) ≡ Some r }
    ensures z { message_number (whole z) ≡ Some z }
{
    number_field(out, "r", r)?;
    session_field(out, session)?;
    number_field(out, "z", z)
}

// The text of the answer to a write that wrote.
pub(crate) fn reply_text(
    alloc: Global,
    session: &SessionId,
    r: Number,
    z: Number,
    q: Number,
    n: Number,
    done: Number,
) -> Result<String, AllocError>
    ensures text { IfOk result (λ t. string_bytes t
        ≡ compact_text (down_json (Down.Reply session.now r z q n done Wrote))) }
    ensures form { IfOk result (λ _. HasForm (Down.Reply session.now r z q n done Wrote)) }
    ensures reads_back { IfOk result (λ t. read (string_bytes t)
        ≡ Some (down_json (Down.Reply session.now r z q n done Wrote))) }
{
    let mut out = Writer::new(Vec::with_capacity(alloc, ROOM)?);
    out.begin_object()?;
    reply_head(&mut out, q, n, done)?;
    reply_tail(&mut out, session, r, z)?;
    out.end_object()?;
    Ok(text_of(out))
}

// Writes the first fields of a Push, in byte order of their names.
fn push_head(out: &mut Writer, session: &SessionId, r: Number) -> Result<(), AllocError>
    ensures ok { OnOk result (out.new.tokens ≡ out.old.tokens
        ++ key (codes "m") ∷ string (codes "push")
        ∷ key (codes "r") ∷ (tokens_of (whole r)
        ++ key (codes "s") ∷ tokens_of (session_json session.now))) }
    ensures before { out.new.before ≡ out.old.before }
    ensures plain { OnOk result (IsPlain (whole r) × IsPlain (session_json session.now)) }
    ensures session { OnOk result (session_of (session_json session.now) ≡ Some session.now) }
    ensures r { message_number (whole r) ≡ Some r }
{
    text_field(out, "m", "push")?;
    number_field(out, "r", r)?;
    session_field(out, session)
}

// Writes the list of the one value under its name.
fn values_field(alloc: Global, out: &mut Writer, value: &PathValue) -> Result<(), AllocError>
    ensures ok { OnOk result (out.new.tokens ≡ out.old.tokens
        ++ key (codes "values") ∷ tokens_of (values_json (value.now ∷ []))) }
    ensures before { out.new.before ≡ out.old.before }
    ensures plain { OnOk result (IsPlain (values_json (value.now ∷ []))) }
    ensures reads_back { OnOk result
        (values_of (values_json (value.now ∷ [])) ≡ Some (value.now ∷ [])) }
    ensures low { OnOk result (depth (values_json (value.now ∷ [])) ≤ 35) }
{
    out.key("values")?;
    out.begin_array()?;
    value.write(alloc, out)?;
    out.end_array()
}

// The text of a Push of one value.
pub(crate) fn push_text(
    alloc: Global,
    session: &SessionId,
    r: Number,
    z: Number,
    value: &PathValue,
) -> Result<String, AllocError>
    ensures text { IfOk result (λ t. string_bytes t
        ≡ compact_text (down_json (Down.Push session.now r z (value.now ∷ [])))) }
    ensures form { IfOk result (λ _. HasForm (Down.Push session.now r z (value.now ∷ []))) }
    ensures reads_back { IfOk result (λ t. read (string_bytes t)
        ≡ Some (down_json (Down.Push session.now r z (value.now ∷ [])))) }
{
    let mut out = Writer::new(Vec::with_capacity(alloc, ROOM)?);
    out.begin_object()?;
    push_head(&mut out, session, r)?;
    values_field(alloc, &mut out, value)?;
    number_field(&mut out, "z", z)?;
    out.end_object()?;
    Ok(text_of(out))
}

// Writes the first fields of a Snap, in byte order of their names.
fn snap_head(alloc: Global, out: &mut Writer, q: Number, path: &Path) -> Result<(), AllocError>
    ensures ok { OnOk result (out.new.tokens ≡ out.old.tokens
        ++ key (codes "m") ∷ string (codes "snap")
        ∷ key (codes "path") ∷ (tokens_of (path_json path.now)
        ++ key (codes "q") ∷ tokens_of (whole q))) }
    ensures before { out.new.before ≡ out.old.before }
    ensures plain { OnOk result (IsPlain (whole q)) }
    ensures path { OnOk result (path_of (path_json path.now) ≡ Some path.now) }
    ensures q { message_number (whole q) ≡ Some q }
{
    let text = path.text(alloc)?;
    text_field(out, "m", "snap")?;
    text_field(out, "path", text.as_str())?;
    number_field(out, "q", q)
}

// Writes the value under its name.
fn value_field(out: &mut Writer, value: &Tree) -> Result<(), AllocError>
    ensures ok { OnOk result (out.new.tokens ≡ out.old.tokens
        ++ key (codes "value") ∷ tokens_of (json_of scalar_printing value.now)) }
    ensures before { out.new.before ≡ out.old.before }
    ensures plain { OnOk result (IsPlain (json_of scalar_printing value.now)) }
    ensures reads_back { OnOk result
        (value_of (json_of scalar_printing value.now) ≡ Some value.now) }
    ensures low { OnOk result (depth (json_of scalar_printing value.now) ≤ 33) }
{
    out.key("value")?;
    write_tree(out, value)
}

// Writes the last ones.
fn snap_tail(
    out: &mut Writer,
    session: &SessionId,
    r: Number,
    z: Number,
    value: &Tree,
) -> Result<(), AllocError>
    ensures ok { OnOk result (out.new.tokens ≡ out.old.tokens
        ++ key (codes "r") ∷ (tokens_of (whole r)
        ++ key (codes "s") ∷ (tokens_of (session_json session.now)
        ++ key (codes "value") ∷ (tokens_of (json_of scalar_printing value.now)
        ++ key (codes "z") ∷ tokens_of (whole z))))) }
    ensures before { out.new.before ≡ out.old.before }
    ensures plain { OnOk result (IsPlain (whole r) × IsPlain (session_json session.now)
        × IsPlain (json_of scalar_printing value.now) × IsPlain (whole z)) }
    ensures session { OnOk result (session_of (session_json session.now) ≡ Some session.now) }
    ensures r { message_number (whole r) ≡ Some r }
    ensures z { message_number (whole z) ≡ Some z }
    ensures value { OnOk result
        (value_of (json_of scalar_printing value.now) ≡ Some value.now) }
    ensures low { OnOk result (depth (json_of scalar_printing value.now) ≤ 33) }
{
    number_field(out, "r", r)?;
    session_field(out, session)?;
    value_field(out, value)?;
    number_field(out, "z", z)
}

// The text of a Snap.
pub(crate) fn snap_text(
    alloc: Global,
    session: &SessionId,
    r: Number,
    z: Number,
    q: Number,
    path: &Path,
    value: &Tree,
) -> Result<String, AllocError>
    ensures text { IfOk result (λ t. string_bytes t
        ≡ compact_text (down_json (Down.Snap session.now r z q path.now value.now))) }
    ensures form { IfOk result (λ _. HasForm (Down.Snap session.now r z q path.now value.now)) }
    ensures reads_back { IfOk result (λ t. read (string_bytes t)
        ≡ Some (down_json (Down.Snap session.now r z q path.now value.now))) }
{
    let mut out = Writer::new(Vec::with_capacity(alloc, ROOM)?);
    out.begin_object()?;
    snap_head(alloc, &mut out, q, path)?;
    snap_tail(&mut out, session, r, z, value)?;
    out.end_object()?;
    Ok(text_of(out))
}
