//! The text of a batch of one set that wrote, written at once, without a JSON value.

ghost use Rattle.std.specs.Prelude.{◌≡◌, ◌≤◌, ◌++◌, ◌∷◌, [], Ok, Some, codes, string_bytes, IfOk, OnOk};
ghost use Rattle.json.specs.Token.{begin_object, begin_array, key, string};
ghost use Rattle.serde_json.specs.Data.{depth};
ghost use Rattle.serde_json.specs.Read.{read};
ghost use Rattle.serde_json.specs.Written.{compact_text};
ghost use Rattle.pres_tree.specs.JsonPrinting.{tokens_of, IsPlain};
ghost use Rattle.pres_ids.specs.Forms.{whole, session_json, message_number, session_of};
ghost use Rattle.pres_write.specs.OpForms.{op_json, op_read};
ghost use Rattle.pres_write.specs.declared.op.Op.TheVariants as op;
ghost use Rattle.pres_write.specs.declared.outcome.Outcome.TheVariants as outcome;
ghost use Rattle.pres_log.specs.declared.entry.Entry.TheVariants as entry;
ghost use Rattle.pres_batch_json.specs.Entries.{list_json, write_json, outcome_json, entry_json, entries_json};
ghost use Rattle.pres_batch_json.specs.Reads.{list_of, write_in, outcome_in, HasForm};

use crate::part::write_write;
use json::Writer;
use pres_tree::text_of;
use pres_wire::field_text::{number_field, session_field, text_field};
use pres_wire::{Number, SessionId};
use pres_write::{Basic, Placement, write_set};
use std::alloc::{AllocError, Global};

// How many bytes most texts have at most.
const ROOM: usize = 512;

// Writes the operation under its name.
fn op_field(alloc: Global, out: &mut Writer, placement: &Placement) -> Result<(), AllocError>
    ensures ok { OnOk result (out.new.tokens
        ≡ out.old.tokens ++ key (codes "op") ∷ tokens_of (op_json (op.Set placement.now))) }
    ensures before { out.new.before ≡ out.old.before }
    ensures plain { OnOk result (IsPlain (op_json (op.Set placement.now))) }
    ensures reads_back { OnOk result
        (op_read (op_json (op.Set placement.now)) ≡ Ok (op.Set placement.now)) }
{
    out.key("op")?;
    write_set(alloc, placement, out)
}

// Writes the list of the one write.
fn write_list(alloc: Global, out: &mut Writer, write: &Basic) -> Result<(), AllocError>
    ensures ok { OnOk result (out.new.tokens
        ≡ out.old.tokens ++ tokens_of (list_json write_json (write.now ∷ []))) }
    ensures before { out.new.before ≡ out.old.before }
    ensures plain { OnOk result (IsPlain (list_json write_json (write.now ∷ []))) }
    ensures reads_back { OnOk result (list_of write_in (list_json write_json (write.now ∷ []))
        ≡ Some (write.now ∷ [])) }
    ensures low { OnOk result (depth (list_json write_json (write.now ∷ [])) ≤ 35) }
{
    out.begin_array()?;
    write_write(alloc, out, write)?;
    out.end_array()
}

// Writes the operation's outcome under its name.
fn out_field(alloc: Global, out: &mut Writer, write: &Basic) -> Result<(), AllocError>
    ensures ok { OnOk result (out.new.tokens ≡ out.old.tokens
        ++ key (codes "out") ∷ tokens_of (outcome_json (outcome.Wrote (write.now ∷ [])))) }
    ensures before { out.new.before ≡ out.old.before }
    ensures plain { OnOk result (IsPlain (outcome_json (outcome.Wrote (write.now ∷ [])))) }
    ensures reads_back { OnOk result (outcome_in (outcome_json (outcome.Wrote (write.now ∷ [])))
        ≡ Some (outcome.Wrote (write.now ∷ []))) }
    ensures low { OnOk result (depth (outcome_json (outcome.Wrote (write.now ∷ []))) ≤ 36) }
{
    out.key("out")?;
    out.begin_object()?;
    out.key("wrote")?;
    write_list(alloc, out, write)?;
    out.end_object()
}

// Writes the first fields of the entry of a set, in byte order of their names.
fn set_head(
    alloc: Global,
    out: &mut Writer,
    n: Number,
    placement: &Placement,
    write: &Basic,
) -> Result<(), AllocError>
    ensures ok { OnOk result (out.new.tokens ≡ out.old.tokens
        ++ key (codes "e") ∷ string (codes "op")
        ∷ key (codes "n") ∷ (tokens_of (whole n)
        ++ key (codes "op") ∷ (tokens_of (op_json (op.Set placement.now))
        ++ key (codes "out") ∷ tokens_of (outcome_json (outcome.Wrote (write.now ∷ [])))))) }
    ensures before { out.new.before ≡ out.old.before }
    ensures plain { OnOk result (IsPlain (whole n) × IsPlain (op_json (op.Set placement.now))
        × IsPlain (outcome_json (outcome.Wrote (write.now ∷ [])))) }
    ensures n { message_number (whole n) ≡ Some n }
    ensures op { OnOk result
        (op_read (op_json (op.Set placement.now)) ≡ Ok (op.Set placement.now)) }
    ensures out { OnOk result (outcome_in (outcome_json (outcome.Wrote (write.now ∷ [])))
        ≡ Some (outcome.Wrote (write.now ∷ []))) }
    ensures low { OnOk result (depth (outcome_json (outcome.Wrote (write.now ∷ []))) ≤ 36) }
{
    text_field(out, "e", "op")?;
    number_field(out, "n", n)?;
    op_field(alloc, out, placement)?;
    out_field(alloc, out, write)
}

// Writes the last ones.
fn set_tail(out: &mut Writer, session: &SessionId, q: Number) -> Result<(), AllocError>
    ensures ok { OnOk result (out.new.tokens ≡ out.old.tokens
        ++ key (codes "q") ∷ (tokens_of (whole q)
        ++ key (codes "s") ∷ tokens_of (session_json session.now))) }
    ensures before { out.new.before ≡ out.old.before }
    ensures plain { OnOk result (IsPlain (whole q) × IsPlain (session_json session.now)) }
    ensures q { message_number (whole q) ≡ Some q }
    ensures session { OnOk result (session_of (session_json session.now) ≡ Some session.now) }
{
    number_field(out, "q", q)?;
    session_field(out, session)
}

/// The text of a batch of one set that made one write.
pub(crate) fn set_text(
    alloc: Global,
    session: &SessionId,
    q: Number,
    n: Number,
    placement: &Placement,
    write: &Basic,
) -> Result<String, AllocError>
    ensures text { IfOk result (λ t. string_bytes t ≡ compact_text (entries_json
        (entry.Op session.now q n (op.Set placement.now) (outcome.Wrote (write.now ∷ [])) ∷ []))) }
    ensures form { IfOk result (λ _. HasForm
        (entry.Op session.now q n (op.Set placement.now) (outcome.Wrote (write.now ∷ [])))) }
    ensures reads_back { IfOk result (λ t. read (string_bytes t) ≡ Some (entries_json
        (entry.Op session.now q n (op.Set placement.now) (outcome.Wrote (write.now ∷ [])) ∷ []))) }
{
    let mut out = Writer::new(Vec::with_capacity(alloc, ROOM)?);
    out.begin_array()?;
    out.begin_object()?;
    set_head(alloc, &mut out, n, placement, write)?;
    set_tail(&mut out, session, q)?;
    out.end_object()?;
    out.end_array()?;
    Ok(text_of(out))
}
