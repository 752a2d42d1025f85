//! Sessions that ended and whose plans were carried out.

ghost use Rattle.std.specs.Prelude.{◌≡◌, IsTrue, MatchResult, false};
ghost use Rattle.pres_ids.specs.Ids.{is_earlier};
ghost use Rattle.pres_session.specs.LiveSessions.{opened};
ghost use Rattle.pres_session.specs.declared.fault.SessionFault.TheVariants.{Old};

use crate::fault::SessionFault;
use crate::live::{Live, first};
use pres_ids::Stamp;
use pres_write::Moment;
use std::marker::Model;

/// A client without an open session that had one. Contracts see it as the stamp of the last one.
#[derive(Drop)]
pub struct Gone {
    last: Stamp,
}

impl Model for Gone {
    ghost use Rattle.pres_ids.specs.declared.id.Stamp.{Stamp};

    ghost Value = { Stamp };

    ghost view = { λ g. g.last };
}

impl Gone {
    /// A client whose last session had this stamp, as a base keeps it. It takes no memory.
    pub fn known(last: Stamp) -> Gone
        ensures { result ≡ last }
    {
        Gone { last }
    }

    /// The stamp of the client's last session.
    pub fn last(&self) -> Stamp
        ensures { result ≡ self.now }
    {
        self.last
    }

    /// The client's next session. Refused as Old, with all that was given, where the stamp isn't
    /// greater than the last one.
    pub fn open<P>(
        self,
        stamp: Stamp,
        heard: Moment,
        plan: P,
    ) -> Result<Live<P>, (SessionFault, Gone, P)>
        ensures { MatchResult result
            (λ live. (live ≡ opened stamp heard plan) × IsTrue (is_earlier self stamp))
            (λ e. (e ≡ (Old self, self, plan)) × (is_earlier self stamp ≡ false)) }
    {
        if self.last < stamp {
            return Ok(first(stamp, heard, plan));
        }
        Err((SessionFault::Old(self.last), self, plan))
    }
}
