//! The bells of connections, which wake a connection that waits when something is put for its
//! session.

use pres_server::{Down, Items, SessionId};
use std::alloc::{AllocError, Global};
use std::collections::BTreeMap;

/// Ends the wait of one connection. It may not wait itself, and may be rung for nothing. No clause
/// says that anyone hears it: a connection also looks when its read has timed out.
pub trait Bell {
    /// From now on it is rung whenever something is put for its session, or given up.
    fn hang(&self) {}

    /// Ends the wait, or the next one.
    fn ring(&self);
}

/// A bell that nobody hears.
#[derive(Clone, Copy, Debug, Drop)]
pub struct NoBell;

impl Bell for NoBell {
    fn ring(&self) {}
}

// A session's bell, its number, and the last round in which it was due.
#[derive(Drop)]
struct SessionBell<B> {
    bell: B,
    number: u64,
    due_in: Option<u64>,
}

// A bell that is to be rung, and its number.
#[derive(Drop)]
struct DueBell<B> {
    bell: B,
    number: u64,
}

/// The bells of sessions, and those of them that are due, since something was put for their
/// sessions, or given up, after they were handed out last. No contract covers them.
#[derive(Drop)]
pub(crate) struct Bells<B> {
    hung: BTreeMap<SessionId, SessionBell<B>>,
    due: Vec<DueBell<B>>,
    next: u64,
    round: u64,
}

impl<B: Bell + Clone + Drop> Bells<B> {
    /// No session has a bell. It takes no memory.
    pub(crate) fn new(alloc: Global) -> Bells<B> {
        Bells {
            hung: BTreeMap::new(alloc),
            due: Vec::new(alloc),
            next: 0,
            round: 0,
        }
    }

    /// Sets the session's bell, in place of an earlier one.
    pub(crate) fn hang(&mut self, session: SessionId, bell: B) -> Result<(), AllocError> {
        let hung = SessionBell {
            bell,
            number: self.next,
            due_in: None,
        };
        hung.bell.hang();
        drop(self.hung.insert(session, hung)?);
        self.next = self.next.wrapping_add(1);
        Ok(())
    }

    /// Removes the session's bell.
    pub(crate) fn remove(&mut self, session: &SessionId) {
        drop(self.hung.remove(session));
    }

    /// The session's bell isn't due by what is put for it until bells are handed out next.
    pub(crate) fn pass_over(&mut self, session: &SessionId) {
        if let Some(hung) = self.hung.get_mut(session) {
            hung.due_in = Some(self.round);
        }
    }

    /// The bells of these messages' sessions are due.
    pub(crate) fn note(&mut self, answers: &Items<Down>) {
        if self.hung.is_empty() {
            return;
        }
        for message in answers.as_slice() {
            if let Some(session) = message.session() {
                self.mark(session);
            }
        }
    }

    // The session's bell is due. It is rung at once if there is no memory for its copy.
    fn mark(&mut self, session: &SessionId) {
        let Some(hung) = self.hung.get_mut(session) else {
            return;
        };
        if hung.due_in == Some(self.round) {
            return;
        }
        if self.due.reserve(1).is_err() {
            hung.bell.ring();
            return;
        }
        let Ok(bell) = hung.bell.clone() else {
            hung.bell.ring();
            return;
        };
        hung.due_in = Some(self.round);
        self.due.push_reserved(DueBell {
            bell,
            number: hung.number,
        });
    }

    // The number of the session's bell.
    fn number_of(&self, session: Option<&SessionId>) -> Option<u64> {
        let hung = self.hung.get(session?)?;
        Some(hung.number)
    }

    /// Hands out the bells that are due, except this session's. One for which the list has no
    /// memory is rung at once.
    pub(crate) fn take_due(&mut self, but: Option<&SessionId>, bells: &mut Vec<B>) {
        let own = self.number_of(but);
        self.round = self.round.wrapping_add(1);
        for due in self.due.drain(..) {
            if own != Some(due.number) {
                hand_out(due.bell, bells);
            }
        }
    }
}

// Puts the bell on the list, or rings it.
fn hand_out<B: Bell + Drop>(bell: B, bells: &mut Vec<B>) {
    if bells.reserve(1).is_err() {
        bell.ring();
        drop(bell);
        return;
    }
    bells.push_reserved(bell);
}
