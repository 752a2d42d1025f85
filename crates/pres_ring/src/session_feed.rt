//! Where the feed of one session stands.

ghost use Rattle.std.specs.Prelude.{◌≡◌, ◌++◌, ◌∷◌, [], Some, None, IfSome};
ghost use Rattle.pres_ids.specs.declared.id.SessionId.{SessionId};
ghost use Rattle.pres_ring.specs.RingEnds.{Puts, Fits};
ghost use Rattle.pres_ring.specs.HistoryTranscripts.{BeginsTranscriptIn};
ghost use Rattle.pres_ring.specs.Lines.{blank, fed, is_slow, struck};
ghost use Rattle.pres_ring.specs.InternalFeeds.{line_of, sent_on, IsOwn};

use crate::feed::Feed;
use pres_wire::{Down, Why};

/// A place for a session's feed, and why the session is still to end, where its end was refused.
#[derive(Drop)]
pub(crate) struct SessionFeed {
    pub(crate) feed: Option<Feed>,
    pub(crate) mark: Option<Why>,
}

impl SessionFeed {
    /// Without a feed and without a mark.
    pub(crate) fn new() -> SessionFeed
        ensures line { line_of result ≡ blank }
        ensures feed { result.feed ≡ None }
    {
        SessionFeed {
            feed: None,
            mark: None,
        }
    }

    /// The feed stands there, without a mark.
    pub(crate) fn attach(&mut self, feed: Feed)
        ensures line { line_of self.new ≡ fed feed }
        ensures feed { self.new.feed ≡ Some feed }
    {
        drop(self.feed.replace(feed));
        self.mark = None;
    }

    /// Puts the message on the feed, where there is one.
    pub(crate) fn put(&mut self, message: Down)
        requires told { IfSome self.old.feed (λ feed. IfSome feed.sent
            (λ sent. BeginsTranscriptIn feed.session (sent ++ message ∷ []))) }
        ensures puts { Puts (sent_on self.old.feed) message (sent_on self.new.feed) }
        ensures fits { Fits 256 (sent_on self.old.feed) message (sent_on self.new.feed) }
        ensures mark { self.new.mark ≡ self.old.mark }
        ensures own { (s : SessionId) → IsOwn s self.old → IsOwn s self.new }
    {
        let Some(feed) = &mut self.feed else {
            drop(message);
            return;
        };
        feed.put(message);
    }

    /// Whether nothing is put on it, and it isn't marked.
    pub(crate) fn is_slow(&self) -> bool
        ensures { result ≡ is_slow (line_of self.now) }
    {
        let is_fed = match &self.feed {
            Some(feed) => !feed.is_given_up(),
            None => false,
        };
        !is_fed && self.mark.is_none()
    }

    /// The feed goes, and the place is marked, unless it has a mark.
    pub(crate) fn strike(&mut self, why: Why)
        ensures line { line_of self.new ≡ struck why (line_of self.old) }
        ensures feed { self.new.feed ≡ None }
    {
        drop(self.feed.take());
        if self.mark.is_none() {
            self.mark = Some(why);
        }
    }
}
