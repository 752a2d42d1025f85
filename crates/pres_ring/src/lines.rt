//! The feeds of the sessions' rings, by session.

ghost use Rattle.std.specs.Prelude.{◌≡◌, ◌≤◌, ◌<◌, ◌∷◌, [], true, false, not, is_some, IfSome, IfNone, IfOk, OnOk, OnErr, IsSomeAnd, Some, None, option_map};
ghost use Rattle.std.specs.List.Sorted.{IsStrictlySortedBy};
ghost use Rattle.std.specs.Map.{keys_of};
ghost use Rattle.pres_ids.specs.declared.id.SessionId.{SessionId};
ghost use Rattle.pres_ids.specs.declared.id.Why.TheVariants.{Slow};
ghost use Rattle.pres_fan.specs.Listeners.{session_cmp};
ghost use Rattle.pres_ring.specs.Transcripts.{is_gone};
ghost use Rattle.pres_ring.specs.Lines.{line_at, has_line, fed, is_slow, struck, marked, first_slow, first_marked, mark_first_slow, unmarked, kept_or_blank, IsFirstSlow, IsFirstMarked, ChangesAt};
ghost use Rattle.pres_ring.specs.Deliveries.{FitsTranscript, LineAfter, LineFits};

use crate::feed::Feed;
use crate::session_feed::SessionFeed;
use pres_wire::{Down, SessionId, Why};
use pres_write::Items;
use std::alloc::{AllocError, Global};
use std::collections::BTreeMap;
use std::marker::Model;

/// A line for each session that has a ring, or is to have one: its feed, and why the session is
/// still to end, where its end was refused. Contracts see the list of the lines, in order of the
/// sessions. A look for a slow session passes over the lines only where one may have become slow since
/// the last look found none.
#[derive(Drop)]
pub struct Lines {
    by_session: BTreeMap<SessionId, SessionFeed>,
    /// Known to be so: where it is false, one may be slow.
    none_slow: bool,
}

impl Model for Lines {
    ghost use Rattle.std.specs.Prelude.{◌≡◌, true};
    ghost use Rattle.pres_ring.specs.Lines.{Lines};
    ghost use Rattle.pres_ring.specs.InternalFeeds.{lines_of, AreOwn, AreFast};

    ghost Value = { Lines };

    ghost view = { λ l. lines_of l.by_session.entries };

    ghost invariant = { λ l. AreOwn l.by_session
        × (l.none_slow ≡ true → AreFast l.by_session) };
}

impl Lines {
    /// No session has a line. It takes no memory.
    pub fn new(alloc: Global) -> Lines
        ensures { result ≡ [] }
    {
        Lines {
            by_session: BTreeMap::new(alloc),
            none_slow: true,
        }
    }

    /// Whether the session has a line.
    pub fn has(&self, session: &SessionId) -> bool
        ensures { result ≡ has_line session.now self.now }
    {
        self.by_session.contains_key(session)
    }

    /// Makes a line for the session without a feed and without a mark, where it has none, and
    /// returns whether it is new. Call it before the session's opening is committed, since nothing
    /// after the commit may allocate. After a refusal each line is as before.
    pub fn reserve(&mut self, alloc: Global, session: &SessionId) -> Result<bool, AllocError>
        ensures new { IfOk result (λ is_new. is_new ≡ not (has_line session.now self.old)) }
        ensures line { OnOk result (ChangesAt session.now kept_or_blank self.old self.new) }
        ensures err { OnErr result (self.new ≡ self.old) }
    {
        if self.by_session.contains_key(session) {
            return Ok(false);
        }
        let session = session.copy(alloc)?;
        drop(self.by_session.insert(session, SessionFeed::new())?);
        self.none_slow = false;
        Ok(true)
    }

    /// The session has no line any more, and its feed goes. It takes no memory.
    pub fn remove(&mut self, session: &SessionId)
        ensures line { ChangesAt session.now (λ line. None) self.old self.new }
        ensures fewer { unmarked self.new ≤ unmarked self.old }
    {
        drop(self.by_session.remove(session));
    }

    /// The feed stands on its session's line, which was made for it, and the line has no mark. It
    /// takes no memory.
    pub fn attach(&mut self, feed: Feed)
        requires { has_line feed.session self.old ≡ true }
        ensures { ChangesAt feed.session (λ line. Some (fed feed)) self.old self.new }
    {
        let Some(place) = self.by_session.get_mut(feed.session()) else {
            unreachable!()
        };
        place.attach(feed);
        self.none_slow = false;
    }

    // Puts the message, which tells the session that it is gone, on its line, which leaves.
    fn part(&mut self, message: Down)
        requires gone { is_gone message ≡ true }
        requires told { (s : SessionId) → FitsTranscript s (message ∷ []) (line_at s self.old) }
        ensures sent { (s : SessionId)
            → LineAfter s (message ∷ []) (line_at s self.old) (line_at s self.new) }
        ensures fits { (s : SessionId)
            → LineFits s (message ∷ []) (line_at s self.old) (line_at s self.new) }
        ensures fewer { unmarked self.new ≤ unmarked self.old }
    {
        let Some(session) = message.session() else {
            drop(message);
            return;
        };
        let Some(mut place) = self.by_session.remove(session) else {
            drop(message);
            return;
        };
        place.put(message);
        drop(place);
    }

    // Puts the message, which tells no session that it is gone, on the line of its session.
    fn put(&mut self, message: Down)
        requires stays { is_gone message ≡ false }
        requires told { (s : SessionId) → FitsTranscript s (message ∷ []) (line_at s self.old) }
        ensures sent { (s : SessionId)
            → LineAfter s (message ∷ []) (line_at s self.old) (line_at s self.new) }
        ensures fits { (s : SessionId)
            → LineFits s (message ∷ []) (line_at s self.old) (line_at s self.new) }
        ensures fewer { unmarked self.new ≤ unmarked self.old }
    {
        let Some(session) = message.session() else {
            drop(message);
            return;
        };
        let Some(place) = self.by_session.get_mut(session) else {
            drop(message);
            return;
        };
        place.put(message);
        self.none_slow &= !place.is_slow();
    }

    // Puts one message on the line of its session. Gone removes the line.
    fn send(&mut self, message: Down)
        requires told { (s : SessionId) → FitsTranscript s (message ∷ []) (line_at s self.old) }
        ensures sent { (s : SessionId)
            → LineAfter s (message ∷ []) (line_at s self.old) (line_at s self.new) }
        ensures fits { (s : SessionId)
            → LineFits s (message ∷ []) (line_at s self.old) (line_at s self.new) }
        ensures fewer { unmarked self.new ≤ unmarked self.old }
    {
        if is_gone(&message) {
            self.part(message);
        } else {
            self.put(message);
        }
    }

    /// Puts each message on the line of its session, in their order. A message that finds no room
    /// is given up with all later ones for its session, and a session that gets Gone has no line
    /// any more. Messages for no session, or for one without a line, are passed over. It takes no
    /// memory.
    pub fn deliver(&mut self, answers: Items<Down>)
        requires told { (s : SessionId) → FitsTranscript s answers (line_at s self.old) }
        ensures delivered { (s : SessionId)
            → LineAfter s answers (line_at s self.old) (line_at s self.new) }
        ensures fits { (s : SessionId)
            → LineFits s answers (line_at s self.old) (line_at s self.new) }
        ensures fewer { unmarked self.new ≤ unmarked self.old }
    {
        for message in answers.into_vec() {
            self.send(message);
        }
    }

    /// The first session in order on whose line nothing more is put, and that isn't marked yet: it
    /// is marked as slow, also where its id can't be copied. None where there is no such session.
    pub fn next_slow(&mut self, alloc: Global) -> Option<Result<SessionId, AllocError>>
        ensures found { is_some result ≡ is_some (first_slow self.old) }
        ensures session { IfSome result (λ r. IfOk r (λ s. first_slow self.old ≡ Some s)) }
        ensures first { IfSome (first_slow self.old) (λ s. IsFirstSlow s self.old) }
        ensures marked { IfSome (first_slow self.old)
            (λ s. ChangesAt s (option_map (marked Slow)) self.old self.new) }
        ensures fewer { IfSome result (λ r. unmarked self.new < unmarked self.old) }
        ensures none { IfNone result (self.new ≡ self.old) }
        ensures none_slow { IfNone result
            ((s : SessionId) → IfSome (line_at s self.old) (λ l. is_slow l ≡ false)) }
    {
        if self.none_slow {
            return None;
        }
        let found = self.first_slow(alloc);
        if found.is_some() {
            self.mark_first_slow();
        } else {
            self.none_slow = true;
        }
        found
    }

    // The first session in order whose line is slow.
    fn first_slow(&self, alloc: Global) -> Option<Result<SessionId, AllocError>>
        ensures found { is_some result ≡ is_some (first_slow self.now) }
        ensures session { IfSome result (λ r. IfOk r (λ s. first_slow self.now ≡ Some s)) }
    {
        for (session, place) in self.by_session.iter() {
            if place.is_slow() {
                return Some(session.copy(alloc));
            }
        }
        None
    }

    // Marks the first line that is slow, where there is one.
    fn mark_first_slow(&mut self)
        ensures marked { self.new ≡ mark_first_slow self.old }
        ensures ordered { IsStrictlySortedBy session_cmp (keys_of self.old) }
    {
        self.none_slow = false;
        let mut is_due = true;
        self.by_session.retain(move |_session, place| {
            if is_due && place.is_slow() {
                place.mark = Some(Why::Slow);
                is_due = false;
            }
            true
        });
    }

    /// The first session in order that is marked, and why it is to end.
    pub fn first_marked(&self, alloc: Global) -> Option<Result<(SessionId, Why), AllocError>>
        ensures found { is_some result ≡ is_some (first_marked self.now) }
        ensures session { IfSome result (λ r. IfOk r (λ e. first_marked self.now ≡ Some e)) }
        ensures first { IfSome (first_marked self.now) (λ e. IsFirstMarked e self.now) }
        ensures none { IfNone result
            ((s : SessionId) → IfSome (line_at s self.now) (λ l. l.mark ≡ None)) }
        ensures ordered { IsStrictlySortedBy session_cmp (keys_of self.now) }
    {
        for (session, place) in self.by_session.iter() {
            if let Some(why) = place.mark {
                return Some(copied(alloc, session, why));
            }
        }
        None
    }

    /// Nothing more is put on the session's line, whose feed goes: it is marked, unless it has a
    /// mark. A session without a line is passed over. It takes no memory.
    pub fn strike(&mut self, session: &SessionId, why: Why)
        ensures line { ChangesAt session.now (option_map (struck why)) self.old self.new }
        ensures fewer { unmarked self.new ≤ unmarked self.old }
    {
        let Some(place) = self.by_session.get_mut(session) else {
            return;
        };
        place.strike(why);
    }
}

// Whether the message tells its session that it is gone.
fn is_gone(message: &Down) -> bool
    ensures { result ≡ is_gone message.now }
{
    matches!(message, Down::Gone { .. })
}

// Copies the session of a marked line.
fn copied(alloc: Global, session: &SessionId, why: Why) -> Result<(SessionId, Why), AllocError>
    ensures { IfOk result (λ e. e ≡ (session.now, why)) }
{
    Ok((session.copy(alloc)?, why))
}
