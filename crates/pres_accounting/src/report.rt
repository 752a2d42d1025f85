//! The report of a run.

ghost use Rattle.std.specs.Prelude.{◌≡◌, ◌+◌, ◌↔◌, ◌^◌, IfSome, IsSome};
ghost use Rattle.pres_accounting.specs.Seats.{IsReport};

use crate::seat::Parting;
use crate::tally::Counts;
use std::marker::Model;
use std::sync::ledger::{Ledger, Share, Total};

/// The report of a run: the server's last number, how many messages were accepted since the start
/// (each Hello too), how many seats are still out, and the keeper. Contracts see these, how many
/// seats were made and gathered, and the sum of the gathered seats' messages.
pub struct Report<L: Ledger, K> {
    number: u64,
    accepted: u64,
    seats_out: u64,
    keeper: K,
    seats: u64,
    gathered: u64,
    sum: u64,
    total: Total<L>,
    rest: Share<L>,
}

impl<L: Ledger, K> Model for Report<L, K> {
    ghost use Rattle.std.specs.Prelude.{◌≡◌};
    ghost use Rattle.pres_accounting.specs.Seats.{ReportState, IsReport};

    ghost Value = { ReportState K };

    ghost view = { λ r. record {
      number = r.number;
      accepted = r.accepted;
      seats_out = r.seats_out;
      keeper = r.keeper;
      seats = r.seats;
      gathered = r.gathered;
      sum = r.sum;
    } };

    ghost invariant = { λ r. (r.total.parts ≡ L.parts)
        × IsReport L.parts r.total.amount r.rest.parts r.rest.amount
        (record {
          number = r.number;
          accepted = r.accepted;
          seats_out = r.seats_out;
          keeper = r.keeper;
          seats = r.seats;
          gathered = r.gathered;
          sum = r.sum;
        }) };
}

impl<L: Ledger, K: Drop> Drop for Report<L, K> {
    fn drop(self) {
        let Report {
            number: _,
            accepted: _,
            seats_out: _,
            keeper: _,
            seats: _,
            gathered: _,
            sum: _,
            total: _,
            rest: _,
        } = self;
    }
}

impl<L: Ledger, K> Report<L, K> {
    // The report of a run with these numbers. Nothing is gathered yet.
    pub(crate) fn of(
        tallied: Counts,
        number: u64,
        keeper: K,
        total: Total<L>,
        rest: Share<L>,
    ) -> Report<L, K>
        requires parts { total.parts ≡ L.parts }
        requires report { IsReport L.parts total.amount rest.parts rest.amount
            (record {
              number = number;
              accepted = tallied.accepted;
              seats_out = tallied.out;
              keeper = keeper;
              seats = tallied.seats;
              gathered = 0;
              sum = 0;
            }) }
        ensures { result ≡ record {
          number = number;
          accepted = tallied.accepted;
          seats_out = tallied.out;
          keeper = keeper;
          seats = tallied.seats;
          gathered = 0;
          sum = 0;
        } }
    {
        Report {
            number,
            accepted: tallied.accepted,
            seats_out: tallied.out,
            keeper,
            seats: tallied.seats,
            gathered: 0,
            sum: 0,
            total,
            rest,
        }
    }

    /// The number of the last entry that was answered.
    pub fn number(&self) -> u64
        ensures { result ≡ self.now.number }
    {
        self.number
    }

    /// How many messages were accepted since the start.
    pub fn accepted(&self) -> u64
        ensures { result ≡ self.now.accepted }
    {
        self.accepted
    }

    /// How many seats were made and not taken back.
    pub fn seats_out(&self) -> u64
        ensures { result ≡ self.now.seats_out }
    {
        self.seats_out
    }

    /// Adds the seat's messages.
    pub fn gather(&mut self, parting: Parting<L>)
        ensures { self.new ≡ record self.old {
          gathered = self.old.gathered + 1;
          sum = self.old.sum + parting.made;
        } }
    {
        let Parting {
            made,
            fault: _,
            share,
        } = parting;
        self.rest.merge(share);
        self.total.audit(&mut self.rest);
        self.gathered += 1;
        self.sum += made;
    }

    /// The messages of all seats, if as many were gathered as were made: this equals the number of
    /// accepted messages.
    pub fn total(&self) -> Option<u64>
        ensures gathered { IsSome result ↔ (self.now.gathered ≡ self.now.seats) }
        ensures sum { IfSome result (λ n. n ≡ self.now.sum) }
        ensures accepted { IfSome result (λ n. n ≡ self.now.accepted) }
    {
        if self.gathered != self.seats {
            return None;
        }
        Some(self.sum)
    }

    /// The keeper.
    pub fn into_keeper(self) -> K
        ensures { result ≡ self.keeper }
    {
        let Report {
            number: _,
            accepted: _,
            seats_out: _,
            keeper,
            seats: _,
            gathered: _,
            sum: _,
            total: _,
            rest: _,
        } = self;
        keeper
    }
}
