//! `presence apply`: lines of operations in, lines of replies and the tree out.

ghost use Rattle.std.specs.Prelude.{◌≡◌, ◌-◌, ◌^◌, IfOk, IfSome, IfErr, IsErrOf, OnOk, vec_len};
ghost use Rattle.std.specs.Io.KnownBytes.{Appends};
ghost use Rattle.pres_apply.specs.Lines.{output_of, end_state, Reached, ReachedPast, Stopped};

use crate::faults::RunFault;
use crate::feeder::Feeder;
use std::alloc::{AllocError, Global};
use std::io::{Read, Write};

// How many reads may pass before the end of the input.
const MOST_READS: u64 = 4294967295;

// The bytes that one read may bring.
const ROOM: usize = 65536;

/// Answers each line of the input with a line, and writes the tree at its end. Replies are written
/// before each further read, and also before a run ends because memory is refused. Returns whether
/// a line was refused.
pub fn apply_run<R: Read, W: Write>(
    alloc: Global,
    input: &mut R,
    output: &mut W,
) -> Result<bool, RunFault>
    ensures output { IfOk result (λ refused. IfSome (R.remaining input.old) (λ bytes.
        Appends (W.contents output.old) (W.contents output.new) (output_of bytes))) }
    ensures status { IfOk result (λ refused. IfSome (R.remaining input.old) (λ bytes.
        refused ≡ (end_state bytes).refused)) }
    ensures read { IsErrOf result RunFault.Read → Reached (R.remaining input.old)
        (R.remaining input.new) (W.contents output.old) (W.contents output.new) }
    ensures endless { IsErrOf result RunFault.Endless → ReachedPast (2 ^ 32 - 1)
        (R.remaining input.old) (R.remaining input.new)
        (W.contents output.old) (W.contents output.new) }
    ensures memory { IsErrOf result RunFault.Memory → Stopped (R.remaining input.old)
        (R.remaining input.new) (W.contents output.old) (W.contents output.new) }
    ensures unspent { ¬ IsErrOf result RunFault.Spent }
{
    let mut feeder = Feeder::new(alloc);
    let mut out = Vec::new(alloc);
    let mut room = zeros(alloc, ROOM)?;
    let piece = room.as_mut_slice();
    'reads: for _turn in 0..MOST_READS {
        let Ok(count) = input.read(piece) else {
            return Err(RunFault::Read);
        };
        out.clear();
        if count == 0 {
            feeder.finish(&mut out)?;
            put(output, &out)?;
            return Ok(feeder.has_refused());
        }
        let fed = feeder.feed(&piece[..count], &mut out);
        put(output, &out)?;
        fed?;
    }
    Err(RunFault::Endless)
}

// This many zero bytes.
fn zeros(alloc: Global, count: usize) -> Result<Vec<u8>, AllocError>
    ensures { IfOk result (λ made. vec_len made ≡ count) }
{
    vec![in alloc; 0u8; count]
}

// Writes all of it, and flushes the writer.
fn put<W: Write>(output: &mut W, bytes: &[u8]) -> Result<(), RunFault>
    ensures ok { OnOk result
        (Appends (W.contents output.old) (W.contents output.new) bytes.now) }
    ensures err { IfErr result (λ e. e ≡ RunFault.Write) }
{
    if bytes.is_empty() {
        return Ok(());
    }
    match output.write_all(bytes) {
        Ok(()) => Ok(()),
        Err(_) => Err(RunFault::Write),
    }
}
