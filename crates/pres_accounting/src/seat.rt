//! Places at the hub.

ghost use Rattle.std.specs.Prelude.{◌≡◌, ◌≤◌, option_copied};

use pres_faults::HubFault;
use pres_server::{Count, SessionId};
use std::marker::Model;
use std::sync::ledger::{Ledger, Share};

/// The place of a connection at the hub. It can't be dropped: `Tally::take` takes it back.
/// Contracts see its session, the number of its last message, the greatest number that was sent to
/// it, and how many of its messages were accepted, its Hello too.
pub struct Seat<L: Ledger> {
    pub(crate) session: SessionId,
    pub(crate) q: Count,
    pub(crate) seen: u64,
    pub(crate) made: u64,
    pub(crate) share: Share<L>,
}

impl<L: Ledger> Model for Seat<L> {
    ghost use Rattle.std.specs.Prelude.{◌≡◌, ◌≤◌};
    ghost use Rattle.pres_accounting.specs.Seats.{SeatState};

    ghost Value = { SeatState };

    ghost view = { λ s. record { session = s.session; q = s.q; seen = s.seen; made = s.made } };

    ghost invariant = { λ s. (s.share.parts ≡ 1) × (s.share.amount ≡ s.made) × (1 ≤ s.made) };
}

impl<L: Ledger> Seat<L> {
    /// Its session.
    pub fn session(&self) -> &SessionId
        ensures { result.now ≡ self.now.session }
    {
        &self.session
    }

    /// The number of the seat's last message, 0 if there was none.
    pub fn q(&self) -> Count
        ensures { result ≡ self.now.q }
    {
        self.q
    }

    /// The greatest number that was sent to it.
    pub fn seen(&self) -> u64
        ensures { result ≡ self.now.seen }
    {
        self.seen
    }

    /// How many of its messages were accepted, its Hello too.
    pub fn made(&self) -> u64
        ensures made { result ≡ self.now.made }
        ensures joined { 1 ≤ result }
    {
        self.made
    }

    /// Notes a number that was sent to it, no smaller than the ones before.
    pub fn see(&mut self, number: u64)
        requires { self.old.seen ≤ number }
        ensures { self.new ≡ record self.old { seen = number } }
    {
        self.seen = number;
    }
}

/// What remains of a seat. Contracts see how many of its messages were accepted, and why its
/// session could not be ended, where that failed: then the session is marked and ended later.
#[derive(Drop)]
pub struct Parting<L: Ledger> {
    pub(crate) made: u64,
    pub(crate) fault: Option<HubFault>,
    pub(crate) share: Share<L>,
}

impl<L: Ledger> Model for Parting<L> {
    ghost use Rattle.std.specs.Prelude.{◌≡◌};
    ghost use Rattle.pres_accounting.specs.Seats.{PartingState};

    ghost Value = { PartingState };

    ghost view = { λ p. record { made = p.made; fault = p.fault } };

    ghost invariant = { λ p. (p.share.parts ≡ 1) × (p.share.amount ≡ p.made) };
}

impl<L: Ledger> Parting<L> {
    // What remains of the seat.
    pub(crate) fn of(seat: Seat<L>, fault: Option<HubFault>) -> Parting<L>
        ensures { result ≡ record { made = seat.made; fault = fault } }
    {
        let Seat {
            session: _,
            q: _,
            seen: _,
            made,
            share,
        } = seat;
        Parting { made, fault, share }
    }

    /// How many of its messages were accepted.
    pub fn made(&self) -> u64
        ensures { result ≡ self.now.made }
    {
        self.made
    }

    /// Why its session's end was refused, if it was.
    pub fn fault(&self) -> Option<&HubFault>
        ensures { option_copied result ≡ self.now.fault }
    {
        self.fault.as_ref()
    }
}
