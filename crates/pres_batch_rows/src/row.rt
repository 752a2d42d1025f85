//! One saved row, and how it is read.

ghost use Rattle.std.specs.Prelude.{◌≡◌, ◌⊎◌, ◌<◌, ◌^◌, IfSome, Some, None, MatchOption, MatchResult, option_copied};
ghost use Rattle.sqlite.specs.declared.types.Value.TheVariants.{Int, Text};
ghost use Rattle.sqlite.specs.Order.{column};
ghost use Rattle.pres_batch_rows.specs.RowContents.{saved_row, saved_of, whole_of, text_of};

use pres_faults::SavedFault;
use pres_ids::{Count, Number};
use pres_limits::MAX_SAFE_INTEGER;
use pres_write::Moment;
use sqlite::Row;
use sqlite::types::ValueRef;
use std::alloc::Global;

/// A row's contents: a moment and a text.
#[derive(Debug, Drop)]
pub struct SavedRow {
    pub moment: Moment,
    pub body: String,
}

// The number, unless it is below 0.
pub(crate) fn whole(n: i64) -> Option<u64>
    ensures value { result ≡ whole_of (Int n) }
    ensures bound { IfSome result (λ m. m < 2 ^ 63) }
{
    if n < 0 { None } else { Some(n.unsigned_abs()) }
}

// The whole number in a column, none where it holds another value or a number below 0.
pub(crate) fn whole_at(row: &Row, at: usize) -> Option<u64>
    ensures { result ≡ whole_of (column row.now at) }
{
    match row.get_ref(at) {
        Ok(ValueRef::Int(n)) => whole(n),
        _ => None,
    }
}

// The bytes as text, none where they are no UTF-8.
fn text(bytes: &[u8]) -> Option<&str>
    ensures { option_copied result ≡ text_of (Text bytes.now) }
{
    match std::str::from_utf8(bytes) {
        Ok(text) => Some(text),
        Err(_) => None,
    }
}

// The text in a column, none where it holds another value or bytes that are no UTF-8.
pub(crate) fn text_at(row: &Row, at: usize) -> Option<&str>
    ensures { option_copied result ≡ text_of (column row.now at) }
{
    match row.get_ref(at) {
        Ok(ValueRef::Text(bytes)) => text(bytes),
        _ => None,
    }
}

// The moment and the text of a shown row, if its number is the one that is due.
fn parts(row: &Row, due: Number) -> Option<(Moment, &str)>
    ensures { MatchOption result
        (saved_row due row.now ≡ None)
        (λ p. saved_row due row.now ≡ Some (record { moment = p.0; body = p.1.now })) }
{
    let number = whole_at(row, 0)?;
    let millis = whole_at(row, 1)?;
    let body = text_at(row, 2)?;
    if number != due.get() || millis > MAX_SAFE_INTEGER {
        return None;
    }
    Some((Moment::at(millis), body))
}

// What a shown row saves, if its number is the one that is due.
pub(crate) fn read_row(alloc: Global, row: &Row, due: Number) -> Result<SavedRow, SavedFault>
    ensures { MatchResult result
        (λ r. saved_row due row.now ≡ Some (saved_of r))
        (λ e. (e ≡ SavedFault.Memory)
        ⊎ ((e ≡ SavedFault.BadRow due) × (saved_row due row.now ≡ None))) }
{
    let Some((moment, body)) = parts(row, due) else {
        return Err(SavedFault::BadRow(Count::up_to(due)));
    };
    Ok(SavedRow {
        moment,
        body: String::from_str(alloc, body)?,
    })
}
