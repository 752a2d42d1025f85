//! A ring whose session isn't open yet.

ghost use Rattle.std.specs.Prelude.{◌≡◌, ◌∷◌, [], IfOk, Some};
ghost use Rattle.pres_ring.specs.HistoryTranscripts.{BeginsTranscriptIn};
ghost use Rattle.rtrb.specs.Ring.{sent, known_items};

use crate::feed::Feed;
use crate::outbox::Outbox;
use crate::rule::{CAPACITY, Rule};
use pres_wire::{Down, SessionId};
use rtrb::{Consumer, Producer, RingBuffer};
use std::alloc::{AllocError, Global};
use std::marker::Model;

/// An empty ring for a session whose opening isn't committed yet. It has all the memory that its
/// ends need. Contracts see the session.
#[derive(Drop)]
pub struct Opening {
    session: SessionId,
    same: SessionId,
    producer: Producer<Down, Global, Rule>,
    consumer: Consumer<Down, Global, Rule>,
}

impl Model for Opening {
    ghost use Rattle.std.specs.Prelude.{◌≡◌};
    ghost use Rattle.pres_ids.specs.declared.id.SessionId.{SessionId};
    ghost use Rattle.pres_ring.specs.RingEnds.{IsBlank};

    ghost Value = { SessionId };

    ghost view = { λ o. o.session };

    ghost invariant = { λ o. (o.same ≡ o.session) × IsBlank o.producer o.consumer };
}

/// An empty ring for the session, with room for `CAPACITY` messages. Make it before the opening is
/// committed, since nothing after the commit may allocate.
pub fn open(alloc: Global, session: &SessionId) -> Result<Opening, AllocError>
    ensures { IfOk result (λ opening. opening ≡ session.now) }
{
    let same = session.copy(alloc)?;
    let session = session.copy(alloc)?;
    let (producer, consumer) = RingBuffer::with_protocol::<Global, Rule>(alloc, CAPACITY)?;
    Ok(Opening {
        session,
        same,
        producer,
        consumer,
    })
}

impl Opening {
    /// Puts the Welcome of the session, whose opening is committed, and hands out the two ends. It
    /// can't fail, and the first `take` gives the Welcome.
    pub fn welcome(self, message: Down) -> (Feed, Outbox)
        requires { BeginsTranscriptIn self (message ∷ []) }
        ensures feed { result.0 ≡ record { session = self; sent = Some (message ∷ []) } }
        ensures outbox { result.1 ≡ record { session = self; taken = []; ahead = message ∷ [] } }
    {
        let Opening {
            session,
            same,
            mut producer,
            mut consumer,
        } = self;
        producer.push_reserved(message);
        consumer.slots_beside(&mut producer);
        (Feed::new(session, producer), Outbox::new(same, consumer))
    }
}
