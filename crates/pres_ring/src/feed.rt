//! The end on which messages are put.

ghost use Rattle.std.specs.Prelude.{◌≡◌, ◌++◌, ◌∷◌, ◌+◌, ◌≤◌, [], length, not, IfSome, Some, None, is_some};
ghost use Rattle.pres_ring.specs.HistoryTranscripts.{BeginsTranscriptIn};
ghost use Rattle.pres_ring.specs.RingEnds.{Puts, Fits};
ghost use Rattle.rtrb.specs.Ring.{sent, known_free};

use crate::rule::Rule;
use pres_wire::{Down, SessionId};
use rtrb::Producer;
use std::alloc::Global;
use std::marker::Model;

/// The end of a session's ring on which its messages are put. To put takes no memory and doesn't
/// wait: a message that finds no room is given up with all later ones, and none that was put is
/// lost. Contracts see the session and what was put, none once a message was given up.
#[derive(Drop)]
pub struct Feed {
    session: SessionId,
    ring: Option<Producer<Down, Global, Rule>>,
}

impl Model for Feed {
    ghost use Rattle.std.specs.Option.{option_map};
    ghost use Rattle.std.specs.Prelude.{◌+◌, ◌≤◌, IfSome, length};
    ghost use Rattle.rtrb.specs.Ring.{sent, known_free};
    ghost use Rattle.pres_ring.specs.RingEnds.{FeedState};

    ghost Value = { FeedState };

    ghost view = { λ f. record { session = f.session; sent = option_map sent f.ring } };

    ghost invariant = { λ f. IfSome f.ring (λ p. 256 ≤ known_free p + length (sent p)) };
}

impl Feed {
    // The end of a new ring, after its first message.
    pub(crate) fn new(session: SessionId, ring: Producer<Down, Global, Rule>) -> Feed
        requires { 256 ≤ known_free ring + length (sent ring) }
        ensures { result ≡ record { session = session; sent = Some (sent ring) } }
    {
        Feed {
            session,
            ring: Some(ring),
        }
    }

    /// Whose messages they are.
    pub fn session(&self) -> &SessionId
        ensures { result.now ≡ self.now.session }
    {
        &self.session
    }

    /// Whether a message was given up: then nothing more is put.
    pub fn is_given_up(&self) -> bool
        ensures { result ≡ not (is_some self.now.sent) }
    {
        self.ring.is_none()
    }

    /// Appends the message to the earlier ones, or gives it up with all later ones where the ring
    /// is full. The first `CAPACITY` messages find room.
    pub fn put(&mut self, message: Down)
        requires told { IfSome self.old.sent
            (λ sent. BeginsTranscriptIn self.old.session (sent ++ message ∷ [])) }
        ensures session { self.new.session ≡ self.old.session }
        ensures puts { Puts self.old.sent message self.new.sent }
        ensures fits { Fits 256 self.old.sent message self.new.sent }
    {
        let Some(producer) = &mut self.ring else {
            drop(message);
            return;
        };
        if producer.push(message).is_err() {
            self.ring = None;
        }
    }
}
