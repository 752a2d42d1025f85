//! An input and an output that tests break, and one run over them.

use pres_apply::apply_run;
use std::alloc::Global;
use std::io;
use std::io::{Read, Write};

// Gives its bytes one at a time, and then ends or fails.
#[derive(Drop)]
pub(crate) struct Drops<'a> {
    pub(crate) rest: &'a [u8],
    pub(crate) fails: bool,
}

impl<'a> Read for Drops<'a> {
    fn read(&mut self, buf: &mut [u8]) -> io::Result<usize> {
        if buf.is_empty() {
            return Ok(0);
        }
        let Some((first, rest)) = self.rest.split_first() else {
            if self.fails {
                return Err(io::Error::from(io::ErrorKind::BrokenPipe));
            }
            return Ok(0);
        };
        buf[0] = *first;
        self.rest = rest;
        Ok(1)
    }
}

// Takes what it is given for this many writes, and fails from then on.
#[derive(Drop)]
pub(crate) struct Clogs {
    pub(crate) taken: Vec<u8>,
    pub(crate) writes: usize,
}

impl Write for Clogs {
    fn write(&mut self, buf: &[u8]) -> io::Result<usize> {
        if self.writes == 0 {
            return Err(io::Error::from(io::ErrorKind::BrokenPipe));
        }
        self.writes -= 1;
        self.taken.extend_from_slice(buf)?;
        Ok(buf.len())
    }

    fn flush(&mut self) -> io::Result<()> {
        Ok(())
    }
}

/// What a run came to: whether a line was refused, or that it ended early.
#[derive(Clone, Copy, PartialEq, Eq)]
pub(crate) enum End {
    Taken,
    Refused,
    Early,
}

/// One run.
pub(crate) fn ended<R: Read, W: Write>(alloc: Global, input: &mut R, output: &mut W) -> End {
    match apply_run(alloc, input, output) {
        Ok(false) => End::Taken,
        Ok(true) => End::Refused,
        Err(_) => End::Early,
    }
}

/// Whether a run over the input writes this, and ends so.
pub(crate) fn answers<R: Read>(alloc: Global, input: &mut R, wanted: &str, end: End) -> bool {
    let mut output = Vec::new(alloc);
    let came = ended(alloc, input, &mut output);
    came == end && output.as_slice() == wanted.as_bytes()
}
