//! The body of a checkpoint.

ghost use Rattle.std.specs.Prelude.{◌≡◌, ◌≤◌, ◌++◌, IfOk, IfSome, OnOk, MatchOption, Some, None, option_and_then, string_bytes};
ghost use Rattle.serde_json.specs.Data.{depth};
ghost use Rattle.serde_json.specs.Read.{read};
ghost use Rattle.serde_json.specs.View.{view};
ghost use Rattle.pres_tree.specs.JsonPrinting.{tokens_of, IsPlain};
ghost use Rattle.pres_base.specs.declared.parts.BaseParts.{BaseParts};
ghost use Rattle.pres_base_json.specs.Forms.{base_json, body_text};
ghost use Rattle.pres_base_json.specs.Reads.{parts_in, with_one_null, IsBody};
ghost use Rattle.pres_base_json.specs.Checks.{base_of_parts, base_of_body};

use crate::form::{read_field, write_field};
use json::Writer;
use pres_base::{Base, BaseParts};
use pres_ids::Count;
use pres_tree::text_of;
use pres_write::Moment;
use serde_json::Value;
use std::alloc::{AllocError, Global};

// How many bytes there is room for at first.
const ROOM: usize = 512;

// Writes the parts.
fn write_parts(alloc: Global, out: &mut Writer, parts: &BaseParts) -> Result<(), AllocError>
    ensures ok { OnOk result
        (out.new.tokens ≡ out.old.tokens ++ tokens_of (base_json parts.now)) }
    ensures before { out.new.before ≡ out.old.before }
    ensures plain { OnOk result (IsPlain (base_json parts.now)) }
    ensures reads_back { OnOk result
        (parts_in parts.now.batches parts.now.moment (base_json parts.now)
        ≡ Some (with_one_null parts.now)) }
    ensures low { OnOk result (depth (base_json parts.now) ≤ 40) }
{
    out.begin_object()?;
    write_field(alloc, out, "clients", &parts.clients)?;
    write_field(alloc, out, "number", &parts.number)?;
    write_field(alloc, out, "sessions", &parts.sessions)?;
    write_field(alloc, out, "tree", &parts.tree)?;
    out.end_object()
}

/// The body of a checkpoint of the base: its JSON text, without how many batches its log has and
/// without its moment. Reading it gives the base back, with null that a stale write's place held as
/// none.
pub fn print_base(alloc: Global, base: &Base) -> Result<String, AllocError>
    ensures text { IfOk result (λ t. string_bytes t ≡ body_text base.now) }
    ensures reads_back { IfOk result (λ t.
        IsBody base.now.batches base.now.moment (string_bytes t) (with_one_null base.now)) }
{
    let mut out = Writer::new(Vec::with_capacity(alloc, ROOM)?);
    write_parts(alloc, &mut out, base.parts())?;
    Ok(text_of(out))
}

// The parts that a JSON value holds, with the count of batches and the moment beside it; none where
// it lacks one or has a wrong one.
fn parts_of(
    alloc: Global,
    batches: Count,
    moment: Moment,
    value: &Value,
) -> Result<Option<BaseParts>, AllocError>
    ensures { IfOk result (λ found. found ≡ parts_in batches moment (view value.now)) }
{
    let Some(number) = read_field(alloc, value, "number")? else {
        return Ok(None);
    };
    let Some(tree) = read_field(alloc, value, "tree")? else {
        return Ok(None);
    };
    let Some(clients) = read_field(alloc, value, "clients")? else {
        return Ok(None);
    };
    let Some(sessions) = read_field(alloc, value, "sessions")? else {
        return Ok(None);
    };
    Ok(Some(BaseParts {
        batches,
        moment,
        number,
        tree,
        clients,
        sessions,
    }))
}

// The same of a text.
fn read_parts(
    alloc: Global,
    batches: Count,
    moment: Moment,
    text: &str,
) -> Result<Option<BaseParts>, AllocError>
    ensures { IfOk result (λ found.
        found ≡ option_and_then (parts_in batches moment) (read text.now)) }
{
    match Value::from_str(alloc, text) {
        Ok(value) => {
            let found = parts_of(alloc, batches, moment, &value);
            drop(value);
            found
        }
        Err(error) => if error.is_memory() {
            Err(AllocError)
        } else {
            Ok(None)
        },
    }
}

// The base of the parts, none where a check fails, or where the body isn't the text that is printed
// of them.
fn base_of_parts(alloc: Global, parts: BaseParts, body: &str) -> Result<Option<Base>, AllocError>
    ensures { IfOk result (λ found. found ≡ base_of_parts body.now parts) }
{
    let Ok(base) = Base::from_parts(parts) else {
        return Ok(None);
    };
    let text = print_base(alloc, &base)?;
    if text.as_str() == body {
        Ok(Some(base))
    } else {
        Ok(None)
    }
}

/// The base of a checkpoint with this count of batches, this moment and this body; none where the
/// body isn't exactly the text that is printed of a base: it is no JSON, lacks a part, has a wrong
/// one or one more, has its names in another order or a space, or its parts fail a check of
/// `Base::from_parts`.
pub fn read_base(
    alloc: Global,
    batches: Count,
    moment: Moment,
    body: &str,
) -> Result<Option<Base>, AllocError>
    ensures exact { IfOk result (λ found. MatchOption found
        ((parts : BaseParts) → ¬ IsBody batches moment body.now parts)
        (λ base. IsBody batches moment body.now base)) }
    ensures base { IfOk result (λ found. found ≡ base_of_body batches moment body.now) }
    ensures nulls { IfOk result (λ found. IfSome found (λ base. with_one_null base ≡ base)) }
{
    match read_parts(alloc, batches, moment, body)? {
        Some(parts) => base_of_parts(alloc, parts, body),
        None => Ok(None),
    }
}
