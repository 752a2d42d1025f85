//! Splits pieces of any size into lines.

ghost use Rattle.std.specs.Prelude.{◌≡◌, ◌++◌, ◌∷◌, [], List, ℕ, OnOk, OnErr, IfErr, MatchOption, length, ◌+◌, ◌≤◌};
ghost use Rattle.pres_apply.specs.Replies.{start, reply, next, tree_line};
ghost use Rattle.pres_apply.specs.Faults.{EndsAt};
ghost use Rattle.pres_apply.specs.Lines.{AnswersSome, KeepsLine, IsFeedless, TakesLines};

use crate::applier::Applier;
use crate::faults::{LineFault, RunFault};
use crate::pending::PendingLine;
use memchr::memchr;
use std::alloc::Global;

/// The state after the lines so far, and the unfinished line.
#[derive(Drop)]
pub(crate) struct Feeder {
    applier: Applier,
    pending: PendingLine,
}

impl Feeder {
    /// Before the first piece.
    pub(crate) fn new(alloc: Global) -> Feeder
        ensures applier { result.applier ≡ start }
        ensures pending { KeepsLine [] result.pending.bytes.items result.pending.cut }
    {
        Feeder {
            applier: Applier::new(alloc),
            pending: PendingLine::new(alloc),
        }
    }

    /// Whether a line was refused.
    pub(crate) fn has_refused(&self) -> bool
        ensures { result ≡ self.now.applier.refused }
    {
        self.applier.has_refused()
    }

    // The line ends.
    #[tactic(auto, unfolding(crate::specs::Replies::reply, crate::specs::Replies::next))]
    fn end_line(&mut self, out: &mut Vec<u8>) -> Result<(), RunFault>
        ensures text { OnOk result ((line : List ℕ)
            → KeepsLine line self.old.pending.bytes.items self.old.pending.cut
            → out.new.items ≡ out.old.items ++ reply self.old.applier line) }
        ensures state { OnOk result ((line : List ℕ)
            → KeepsLine line self.old.pending.bytes.items self.old.pending.cut
            → self.new.applier ≡ next self.old.applier line) }
        ensures begins { OnOk result
            (KeepsLine [] self.new.pending.bytes.items self.new.pending.cut) }
        ensures count { OnOk result
            (self.new.applier.log.number ≤ self.old.applier.log.number + 1) }
        ensures err { IfErr result (EndsAt self.old.applier.log.number) }
        ensures silent { OnErr result (out.new.items ≡ out.old.items) }
    {
        if self.pending.is_cut() {
            self.applier.refuse(LineFault::TooLong, out)?;
        } else if !self.pending.bytes().is_empty() {
            self.applier.line(self.pending.bytes(), out)?;
        }
        self.pending.clear();
        Ok(())
    }

    /// A piece of the input, answered as far as its lines have ended. Where a line can't be
    /// answered, the replies to those before it stand.
    pub(crate) fn feed(&mut self, piece: &[u8], out: &mut Vec<u8>) -> Result<(), RunFault>
        ensures taken { OnOk result ((line : List ℕ) → IsFeedless line
            → KeepsLine line self.old.pending.bytes.items self.old.pending.cut
            → (said : List ℕ) × (out.new.items ≡ out.old.items ++ said)
            × TakesLines self.old.applier self.new.applier (line ++ piece.now)
            self.new.pending.bytes.items self.new.pending.cut said) }
        ensures count { OnOk result
            (self.new.applier.log.number ≤ self.old.applier.log.number + length piece.now) }
        ensures err { IfErr result
            (EndsAt (self.old.applier.log.number + length piece.now)) }
        ensures stopped { OnErr result ((line : List ℕ) → IsFeedless line
            → KeepsLine line self.old.pending.bytes.items self.old.pending.cut
            → (said : List ℕ) × (out.new.items ≡ out.old.items ++ said)
            × AnswersSome self.old.applier line piece.now said) }
    {
        let mut rest = piece;
        'lines: while let Some((line, more)) = split_line(rest) {
            self.pending.push(line)?;
            self.end_line(out)?;
            rest = more;
        }
        self.pending.push(rest)?;
        Ok(())
    }

    /// The input ends.
    pub(crate) fn finish(&mut self, out: &mut Vec<u8>) -> Result<(), RunFault>
        ensures text { OnOk result ((line : List ℕ)
            → KeepsLine line self.old.pending.bytes.items self.old.pending.cut
            → out.new.items ≡ out.old.items ++ reply self.old.applier line
            ++ tree_line (next self.old.applier line)) }
        ensures state { OnOk result ((line : List ℕ)
            → KeepsLine line self.old.pending.bytes.items self.old.pending.cut
            → self.new.applier ≡ next self.old.applier line) }
        ensures err { IfErr result (EndsAt self.old.applier.log.number) }
    {
        self.end_line(out)?;
        self.applier.tree_line(out)
    }
}

// The bytes before the first line feed, and those after it.
fn split_line(bytes: &[u8]) -> Option<(&[u8], &[u8])>
    ensures { MatchOption result (IsFeedless bytes.now) (λ p. IsFeedless p.0.now
        × (bytes.now ≡ p.0.now ++ 10 ∷ p.1.now)) }
{
    let end = memchr(b'\n', bytes)?;
    Some((&bytes[..end], &bytes[end + 1..]))
}
