//! `presence check`: whether a file's history is legal.

ghost use Rattle.std.specs.Prelude.{◌≡◌, ◌≢◌, ◌⊎◌, IfErr, IfOk, OnOk, length, string_bytes};
ghost use Rattle.std.specs.Io.KnownBytes.{Appends};
ghost use Rattle.pres_inspect.specs.Copies.{image_of, IsRefusal};
ghost use Rattle.pres_inspect.specs.Reports.{PrintsHistory, PrintsSomeHistory, check_text, checkpoint_lines, flaw_text, state_text};

use crate::checkpoint::Checkpoint;
use crate::copied::{Copied, copied_from};
use crate::fault::InspectFault;
use crate::found::{FoundServer, found_server};
use pres_server::Server;
use std::alloc::{AllocError, Global};
use std::io::Write;

/// Prints how many entries, batches and open sessions the history in the file at the path has, at
/// which checkpoint it begins, if at one, and that it is legal; or which row is the first bad one, and
/// why.
pub fn check_run<W: Write>(
    host: &HostRuntime,
    path: &str,
    output: &mut W,
) -> Result<(), InspectFault>
    ensures checked { OnOk result
        (PrintsSomeHistory check_text (W.contents output.old) (W.contents output.new)) }
{
    let copied = copied_from(host, path)?;
    check_copied(host.alloc(), copied, output)
}

/// The same of files that are copied already.
#[tactic(auto, using(crate::proofs::Printing::nothing_more))]
pub fn check_copied<W: Write>(
    alloc: Global,
    copied: Copied,
    output: &mut W,
) -> Result<(), InspectFault>
    ensures checked { OnOk result (PrintsHistory (image_of copied) check_text
        (W.contents output.old) (W.contents output.new)) }
    ensures refused { IfErr result (IsRefusal (image_of copied)) }
    ensures told { IfErr result (λ e. e ≢ InspectFault.Output
        → Appends (W.contents output.old) (W.contents output.new) (flaw_text e)) }
{
    let found = match found_server(alloc, copied) {
        Ok(found) => found,
        Err(fault) => return Err(tell_flaw(alloc, fault, output)),
    };
    let text = state_text(alloc, &found)?;
    drop(found);
    put(output, text.as_bytes())
}

/// Writes all of it.
pub(crate) fn put<W: Write>(output: &mut W, bytes: &[u8]) -> Result<(), InspectFault>
    ensures ok { OnOk result
        (Appends (W.contents output.old) (W.contents output.new) bytes.now) }
    ensures err { IfErr result (λ e. e ≡ InspectFault.Output) }
{
    match output.write_all(bytes) {
        Ok(()) => Ok(()),
        Err(_) => Err(InspectFault::Output),
    }
}

// Prints which row is bad, if one is, and returns the fault, or why it couldn't be printed.
#[tactic(auto, using(crate::proofs::Printing::nothing_more))]
fn tell_flaw<W: Write>(alloc: Global, fault: InspectFault, output: &mut W) -> InspectFault
    ensures same { (result ≡ fault)
        ⊎ ((result ≡ InspectFault.Memory) ⊎ (result ≡ InspectFault.Output)) }
    ensures told { result ≢ InspectFault.Output
        → Appends (W.contents output.old) (W.contents output.new) (flaw_text result) }
{
    let Ok(line) = flaw_line(alloc, &fault) else {
        return InspectFault::Memory;
    };
    match put(output, line.as_bytes()) {
        Ok(()) => fault,
        Err(unprinted) => unprinted,
    }
}

// The line that says which row is bad, empty where none is.
fn flaw_line(alloc: Global, fault: &InspectFault) -> Result<String, AllocError>
    ensures { IfOk result (λ line. string_bytes line ≡ flaw_text fault.now) }
{
    match fault {
        InspectFault::BadCheckpoint => String::from_str(alloc, "checkpoint unreadable\n"),
        InspectFault::Unreadable(row) => format!(in alloc; "row {} unreadable\n", row.get()),
        InspectFault::NotLegal(row) => format!(in alloc; "row {} not legal\n", row.get()),
        InspectFault::Memory
        | InspectFault::Output
        | InspectFault::Missing
        | InspectFault::InUse
        | InspectFault::Store(_) => Ok(String::new(alloc)),
    }
}

// What is printed of a server and the checkpoint.
fn state_text(alloc: Global, found: &FoundServer) -> Result<String, AllocError>
    ensures { IfOk result (λ text.
        string_bytes text ≡ state_text found.now.checkpoint found.now.server.sum) }
{
    let number = found.server.number();
    let batches = found.server.log().batches();
    let sessions = open_count(&found.server)?;
    let lines = checkpoint_lines(alloc, found.checkpoint)?;
    format!(in alloc;
        "number {number}\nbatches {batches}\nopen sessions {sessions}\n{lines}legal\n"
    )
}

// The lines of a checkpoint, none without one.
fn checkpoint_lines(alloc: Global, checkpoint: Option<Checkpoint>) -> Result<String, AllocError>
    ensures { IfOk result (λ lines. string_bytes lines ≡ checkpoint_lines checkpoint) }
{
    let Some(checkpoint) = checkpoint else {
        return Ok(String::new(alloc));
    };
    let number = checkpoint.number.get();
    let batches = checkpoint.batches.get();
    let moment = checkpoint.moment.millis();
    format!(in alloc;
        "checkpoint number {number}\ncheckpoint batches {batches}\ncheckpoint moment {moment}\n"
    )
}

// How many sessions are open.
fn open_count(server: &Server) -> Result<usize, AllocError>
    ensures { IfOk result (λ count. count ≡ length server.now.sum.sessions) }
{
    let Ok(base) = server.base() else {
        return Err(AllocError);
    };
    let count = base.parts().sessions.as_slice().len();
    drop(base);
    Ok(count)
}
