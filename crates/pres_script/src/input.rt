//! The lines of an input.

ghost use Rattle.std.specs.Prelude.{◌≡◌, ◌⊎◌, map, IfOk, IfErr, IfSome};
ghost use Rattle.pres_script.specs.declared.fault.ScriptFault.TheVariants as fault;
ghost use Rattle.pres_script.specs.Lines.{lines_of, without_last_feed};

use crate::fault::ScriptFault;
use std::alloc::{AllocError, Global};
use std::io;
use std::io::{ErrorKind, Read};

// How many reads may pass before the end of the input.
const MOST_READS: u64 = 4_294_967_295;

// The bytes that one read of the input may bring.
const ROOM: usize = 65_536;

/// All of the input.
pub fn bytes_of<I: Read>(alloc: Global, input: &mut I) -> Result<Vec<u8>, ScriptFault>
    ensures read { IfOk result (λ read. IfSome (I.remaining input.old) (λ bytes.
        read.items ≡ bytes)) }
    ensures err { IfErr result (λ e. (e ≡ fault.Memory) ⊎ (e ≡ fault.Input)) }
{
    let mut bytes = Vec::new(alloc);
    let mut room = vec![in alloc; 0u8; ROOM]?;
    let piece = room.as_mut_slice();
    for _ in 0..MOST_READS {
        match input.read(piece) {
            Ok(0) => return Ok(bytes),
            Ok(count) => bytes.extend_from_slice(&piece[..count])?,
            Err(error) => return Err(input_fault(&error)),
        }
    }
    Err(ScriptFault::Input)
}

/// The lines of the input, without what ends them.
pub fn texts_of(alloc: Global, input: &[u8]) -> Result<Vec<&[u8]>, AllocError>
    ensures { IfOk result (λ texts. map (λ text. text.now) texts.items ≡ lines_of input.now) }
{
    if input.is_empty() {
        return Ok(Vec::new(alloc));
    }
    without_last_feed(input)
        .split(|byte| *byte == b'\n')
        .collect(alloc)
}

// The input without the line feed that ends its last line.
fn without_last_feed(input: &[u8]) -> &[u8]
    ensures { result.now ≡ without_last_feed input.now }
{
    match input.strip_suffix(b"\n") {
        Some(rest) => rest,
        None => input,
    }
}

// The fault of the input's error; a failed allocation is a fault of its own.
fn input_fault(error: &io::Error) -> ScriptFault
    ensures { (result ≡ fault.Memory) ⊎ (result ≡ fault.Input) }
{
    match error.kind() {
        ErrorKind::OutOfMemory => ScriptFault::Memory,
        _ => ScriptFault::Input,
    }
}
