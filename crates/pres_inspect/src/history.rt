//! `presence history`: the checkpoint and the entries of a file's history, a line of JSON each.

ghost use Rattle.std.specs.Prelude.{◌≡◌, ◌⊎◌, ◌++◌, IfErr, IfOk, OnOk, string_bytes};
ghost use Rattle.std.specs.Io.KnownBytes.{Appends};
ghost use Rattle.pres_inspect.specs.Copies.{history_of, image_of, IsRefusal};
ghost use Rattle.pres_inspect.specs.Reports.{PrintsHistory, PrintsSomeHistory, batch_text, checkpoint_line, entry_text, history_text, listed_text, log_text};

use crate::check::put;
use crate::checkpoint::Checkpoint;
use crate::copied::{Copied, copied_from};
use crate::fault::InspectFault;
use crate::found::{FoundHistory, found_history};
use pres_batch_json::print_entries;
use pres_server::{Batch, Entry};
use std::alloc::{AllocError, Global};
use std::io::Write;

/// Prints the entries of the history in the file from this number on, each with its number and its
/// moment. The checkpoint at which the history begins, if at one with such a number, comes first:
/// entries before it are kept no more.
pub fn history_run<W: Write>(
    host: &HostRuntime,
    file: &str,
    from: u64,
    output: &mut W,
) -> Result<(), InspectFault>
    ensures listed { OnOk result
        (PrintsSomeHistory (history_text from) (W.contents output.old) (W.contents output.new)) }
{
    let copied = copied_from(host, file)?;
    history_of(host.alloc(), copied, from, output)
}

/// The same of files that are copied already.
pub fn history_of<W: Write>(
    alloc: Global,
    copied: Copied,
    from: u64,
    output: &mut W,
) -> Result<(), InspectFault>
    ensures listed { OnOk result (PrintsHistory (image_of copied) (history_text from)
        (W.contents output.old) (W.contents output.new)) }
    ensures refused { IfErr result (IsRefusal (image_of copied)) }
{
    let found = found_history(alloc, copied)?;
    let listed = list(alloc, &found, from, output);
    drop(found);
    listed
}

// Prints the checkpoint and the entries.
fn list<W: Write>(
    alloc: Global,
    found: &FoundHistory,
    from: u64,
    output: &mut W,
) -> Result<(), InspectFault>
    ensures listed { OnOk result (Appends (W.contents output.old) (W.contents output.new)
        (listed_text from (history_of found.now))) }
    ensures err { IfErr result (λ e. (e ≡ InspectFault.Memory) ⊎ (e ≡ InspectFault.Output)) }
{
    let line = checkpoint_line(alloc, from, Checkpoint::of(&found.base))?;
    put(output, line.as_bytes())?;
    list_batches(alloc, found.batches.as_slice(), from, output)
}

// The line of a checkpoint, empty without one with such a number.
fn checkpoint_line(
    alloc: Global,
    from: u64,
    checkpoint: Option<Checkpoint>,
) -> Result<String, AllocError>
    ensures { IfOk result (λ line. string_bytes line ≡ checkpoint_line from checkpoint) }
{
    let Some(checkpoint) = checkpoint else {
        return Ok(String::new(alloc));
    };
    let number = checkpoint.number.get();
    if number < from {
        return Ok(String::new(alloc));
    }
    let batches = checkpoint.batches.get();
    let moment = checkpoint.moment.millis();
    format!(in alloc;
        "{{\"checkpoint\":{{\"batches\":{batches}}},\"moment\":{moment},\"number\":{number}}}\n"
    )
}

// Prints the entries of the batches.
fn list_batches<W: Write>(
    alloc: Global,
    batches: &[Batch],
    from: u64,
    output: &mut W,
) -> Result<(), InspectFault>
    ensures listed { OnOk result (Appends (W.contents output.old) (W.contents output.new)
        (log_text from batches.now)) }
    ensures err { IfErr result (λ e. (e ≡ InspectFault.Memory) ⊎ (e ≡ InspectFault.Output)) }
{
    for batch in batches {
        let lines = batch_lines(alloc, batch, from)?;
        put(output, lines.as_slice())?;
    }
    Ok(())
}

// The lines of a batch.
fn batch_lines(alloc: Global, batch: &Batch, from: u64) -> Result<Vec<u8>, AllocError>
    ensures { IfOk result (λ lines. lines.items ≡ batch_text from batch.now) }
{
    let moment = batch.moment().millis();
    let mut number = batch.first().get();
    let entries = batch.entries();
    let mut lines = Vec::new(alloc);
    for entry in entries {
        if number >= from {
            add_line(alloc, number, moment, entry, &mut lines)?;
        }
        number += 1;
    }
    Ok(lines)
}

// Adds the line of an entry. Its JSON is that of a list of it alone, without the brackets.
fn add_line(
    alloc: Global,
    number: u64,
    moment: u64,
    entry: &Entry,
    lines: &mut Vec<u8>,
) -> Result<(), AllocError>
    ensures { OnOk result
        (lines.new.items ≡ lines.old.items ++ entry_text number moment entry.now) }
{
    let text = print_entries(alloc, std::slice::from_ref(entry))?;
    let list = text.as_bytes();
    let tail = format!(in alloc; ",\"moment\":{moment},\"number\":{number}}}\n")?;
    lines.extend_from_slice(b"{\"entry\":")?;
    lines.extend_from_slice(&list[1..list.len() - 1])?;
    lines.extend_from_slice(tail.as_bytes())
}
