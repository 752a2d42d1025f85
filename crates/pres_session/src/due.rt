//! Sessions that ended and whose plans are still to be carried out.

ghost use Rattle.std.specs.Prelude.{◌≡◌};
ghost use Rattle.pres_session.specs.OwedRows.{AreOwed};

use crate::gone::Gone;
use crate::live::Live;
use crate::plan::Pays;
use pres_ids::Why;
use pres_write::Basic;
use std::marker::Model;

/// A session that ended, with its plan still to be carried out. It must not be dropped: it is spent
/// with the rows that its plan owes, or put back. Contracts see the session as it was, and why it
/// ended.
pub struct Due<P> {
    session: Live<P>,
    why: Why,
}

impl<P> Model for Due<P> {
    ghost use Rattle.pres_session.specs.EndedSessions.{EndedSession};

    ghost Value = { EndedSession P };

    ghost view = { λ d. record { session = d.session; why = d.why } };
}

impl<P> Due<P> {
    pub(crate) fn of(session: Live<P>, why: Why) -> Due<P>
        ensures session { result.session ≡ session }
        ensures why { result.why ≡ why }
    {
        Due { session, why }
    }

    /// What is owed.
    pub fn plan(&self) -> &P
        ensures { result.now ≡ self.now.session.plan }
    {
        self.session.plan()
    }

    /// Why the session ended.
    pub fn why(&self) -> Why
        ensures { result ≡ self.now.why }
    {
        self.why
    }

    /// The session as it was before its end.
    pub fn put_back(self) -> Live<P>
        ensures { result ≡ self.session }
    {
        let Due { session, why: _ } = self;
        session
    }
}

impl<P: Pays + Drop> Due<P> {
    /// Ends with the session: its plan owes these rows by some tree and moment, and they are
    /// written.
    pub fn spend(self, rows: &[Basic]) -> Gone
        requires { AreOwed P.owed self.session.plan rows.now }
        ensures { result ≡ self.session.stamp }
    {
        let live = self.put_back();
        Gone::known(live.stamp())
    }
}
