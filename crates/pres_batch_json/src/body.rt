//! The text of a batch's entries.

ghost use Rattle.std.specs.Prelude.{◌≡◌, IsTrue, IfOk, IfSome, Some, map, string_bytes};
ghost use Rattle.serde_json.specs.Read.{read};
ghost use Rattle.serde_json.specs.View.{view};
ghost use Rattle.serde_json.specs.Written.{compact_text};
ghost use Rattle.pres_log.specs.Batches.{may_hold};
ghost use Rattle.pres_batch_json.specs.Entries.{entries_json};
ghost use Rattle.pres_batch_json.specs.Reads.{with_one_null, list_of, entry_read, entries_read, entries_in};

use crate::entry::value_of;
use crate::list::{BatchJson, list_value, read_list};
use crate::read::read_entry;
use crate::set::set_text;
use pres_log::{Batch, Entry};
use pres_write::{Items, Op, Outcome};
use serde_json::Value;
use std::alloc::{AllocError, Global};

impl BatchJson for Entry {
    ghost use Rattle.pres_batch_json.specs.Entries.{entry_json};
    ghost use Rattle.pres_batch_json.specs.Reads.{with_one_null, entry_read};

    ghost json = { entry_json };

    ghost found = { entry_read };

    ghost kept = { with_one_null };

    ghost levels = { 65 };

    fn to_json(&self, alloc: Global) -> Result<Value, AllocError> {
        value_of(alloc, self)
    }

    fn from_json(alloc: Global, value: &Value) -> Result<Option<Entry>, AllocError> {
        read_entry(alloc, value)
    }
}

// The text of a batch of one set that made one write; none for other entries.
fn set_of(alloc: Global, entries: &[Entry]) -> Option<Result<String, AllocError>>
    ensures text { IfSome result (λ r. IfOk r (λ t.
        string_bytes t ≡ compact_text (entries_json entries.now))) }
    ensures reads { IfSome result (λ r. IfOk r (λ _.
        list_of entry_read (entries_json entries.now) ≡ Some (map with_one_null entries.now))) }
    ensures reads_back { IfSome result (λ r. IfOk r (λ t.
        read (string_bytes t) ≡ Some (entries_json entries.now))) }
{
    let [
        Entry::Op {
            session,
            q,
            n,
            op: Op::Set(placement),
            outcome: Outcome::Wrote(writes),
        },
    ] = entries
    else {
        return None;
    };
    let [write] = writes.as_slice() else {
        return None;
    };
    Some(set_text(alloc, session, *q, *n, placement, write))
}

/// The text of the entries. Reading it gives the entries of a batch back, with a held null as none:
/// so no two batches have the same text.
pub fn print_entries(alloc: Global, entries: &[Entry]) -> Result<String, AllocError>
    ensures text { IfOk result (λ t. string_bytes t ≡ compact_text (entries_json entries.now)) }
    ensures reads_back { IfOk result (λ t. IsTrue (may_hold entries.now)
        → entries_in (string_bytes t) ≡ Some (map with_one_null entries.now)) }
{
    if let Some(text) = set_of(alloc, entries) {
        return text;
    }
    let value = list_value(alloc, entries)?;
    let text = value.to_string(alloc);
    drop(value);
    text
}

// The entries of a JSON value, none where it isn't the value of entries that a batch may hold.
fn read_value(alloc: Global, value: &Value) -> Result<Option<Items<Entry>>, AllocError>
    ensures { IfOk result (λ found. found ≡ entries_read (view value.now)) }
{
    let Some(entries) = read_list(alloc, value)? else {
        return Ok(None);
    };
    if Batch::may_hold(entries.as_slice()) {
        Ok(Some(entries))
    } else {
        drop(entries);
        Ok(None)
    }
}

/// The entries of a text, which a batch may hold; none if it is the text of no such entries: no
/// JSON list of one entry, or of an end and an opening, or an entry lacks a field or has a wrong
/// one. Unknown names are ignored.
pub fn read_entries(alloc: Global, text: &str) -> Result<Option<Items<Entry>>, AllocError>
    ensures found { IfOk result (λ found. found ≡ entries_in text.now) }
    ensures together { IfOk result (λ found. IfSome found (λ es. IsTrue (may_hold es))) }
{
    match Value::from_str(alloc, text) {
        Ok(value) => {
            let found = read_value(alloc, &value);
            drop(value);
            found
        }
        Err(error) => if error.is_memory() {
            Err(AllocError)
        } else {
            Ok(None)
        },
    }
}
