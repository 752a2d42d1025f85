//! The unfinished line.

ghost use Rattle.std.specs.Prelude.{◌≡◌, ◌≤◌, ◌++◌, List, ℕ, [], OnOk, vec_len, false};
ghost use Rattle.pres_wire.specs.UpForms.{longest_text};
ghost use Rattle.pres_apply.specs.Lines.{KeepsLine};

use pres_wire::MAX_TEXT_BYTES;
use std::alloc::{AllocError, Global};

/// The unfinished line, or that it is longer than a message may be. Nothing is kept of a line that
/// is too long.
#[derive(Drop)]
pub(crate) struct PendingLine {
    bytes: Vec<u8>,
    cut: bool,
    ghost short: { vec_len bytes ≤ longest_text },
}

impl PendingLine {
    /// An empty line.
    pub(crate) fn new(alloc: Global) -> PendingLine
        ensures { KeepsLine [] result.bytes.items result.cut }
    {
        PendingLine {
            bytes: Vec::new(alloc),
            cut: false,
        }
    }

    /// More of the line.
    pub(crate) fn push(&mut self, piece: &[u8]) -> Result<(), AllocError>
        ensures { OnOk result ((line : List ℕ) → KeepsLine line self.old.bytes.items self.old.cut
            → KeepsLine (line ++ piece.now) self.new.bytes.items self.new.cut) }
    {
        if self.cut {
            return Ok(());
        }
        if piece.len() > MAX_TEXT_BYTES - self.bytes.len() {
            self.bytes.clear();
            self.cut = true;
            return Ok(());
        }
        self.bytes.extend_from_slice(piece)?;
        Ok(())
    }

    /// Whether the line is too long.
    pub(crate) fn is_cut(&self) -> bool
        ensures { result ≡ self.now.cut }
    {
        self.cut
    }

    /// The line, unless it is too long.
    pub(crate) fn bytes(&self) -> &[u8]
        ensures { result.now ≡ self.now.bytes.items }
    {
        self.bytes.as_slice()
    }

    /// Begins the next line.
    pub(crate) fn clear(&mut self)
        ensures { KeepsLine [] self.new.bytes.items self.new.cut }
    {
        self.bytes.clear();
        self.cut = false;
    }
}
