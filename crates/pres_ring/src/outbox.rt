//! The end from which messages are taken.

ghost use Rattle.std.specs.Prelude.{◌≡◌, ◌++◌, ◌∷◌, ◌<◌, [], length, IfSome, IfNone, IsSome};
ghost use mathlib.Core.List.{IsPrefix};
ghost use Rattle.pres_ring.specs.Transcripts.{StartsWithWelcome, MayStartWithWelcome};
ghost use Rattle.pres_ring.specs.HistoryTranscripts.{BeginsTranscriptIn};
ghost use Rattle.rtrb.specs.Ring.{received, known_items};

use crate::rule::Rule;
use pres_wire::{Down, SessionId};
use rtrb::Consumer;
use std::alloc::Global;
use std::marker::Model;

/// The end of a session's ring from which its connection takes messages. Contracts see the session,
/// what was taken, and what is known to come next; what was taken is at all times a beginning of
/// the session's transcript in some history in which it was opened, and at whose base no session
/// was open: nothing, or its Welcome and what was answered to it since.
#[derive(Drop)]
pub struct Outbox {
    session: SessionId,
    ring: Consumer<Down, Global, Rule>,
}

impl Model for Outbox {
    ghost use Rattle.std.specs.Prelude.{◌++◌};
    ghost use Rattle.rtrb.specs.Ring.{received, known_items};
    ghost use Rattle.pres_ring.specs.Transcripts.{StartsWithWelcome};
    ghost use Rattle.pres_ring.specs.HistoryTranscripts.{BeginsTranscriptIn};
    ghost use Rattle.pres_ring.specs.RingEnds.{OutboxState};

    ghost Value = { OutboxState };

    ghost view = { λ o. record
        { session = o.session; taken = received o.ring; ahead = known_items o.ring } };

    ghost invariant = { λ o. BeginsTranscriptIn o.session (received o.ring)
        × StartsWithWelcome o.session (received o.ring ++ known_items o.ring) };
}

impl Outbox {
    // The end of a new ring that holds the session's Welcome.
    pub(crate) fn new(session: SessionId, ring: Consumer<Down, Global, Rule>) -> Outbox
        requires told { BeginsTranscriptIn session (received ring) }
        requires starts { StartsWithWelcome session (received ring ++ known_items ring) }
        ensures { result ≡ record
            { session = session; taken = received ring; ahead = known_items ring } }
    {
        Outbox { session, ring }
    }

    /// Whose messages they are.
    pub fn session(&self) -> &SessionId
        ensures session { result.now ≡ self.now.session }
        ensures told { BeginsTranscriptIn self.now.session self.now.taken }
        ensures begins { MayStartWithWelcome self.now.session self.now.taken }
    {
        &self.session
    }

    /// The next message, none where no more is seen on the ring. It doesn't wait.
    pub fn take(&mut self) -> Option<Down>
        ensures session { self.new.session ≡ self.old.session }
        ensures took { IfSome result (λ m. self.new.taken ≡ self.old.taken ++ m ∷ []) }
        ensures next { IfSome result (λ m. IsPrefix self.old.ahead (m ∷ self.new.ahead)) }
        ensures known { 0 < length self.old.ahead → IsSome result }
        ensures none { IfNone result (self.new.taken ≡ self.old.taken) }
        ensures told { BeginsTranscriptIn self.old.session self.new.taken }
        ensures begins { MayStartWithWelcome self.old.session self.new.taken }
    {
        let Ok(message) = self.ring.pop() else {
            return None;
        };
        Some(message)
    }
}
