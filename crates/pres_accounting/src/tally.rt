//! What was accepted, and by which seats.

ghost use Rattle.std.specs.Prelude.{◌≡◌, ◌+◌, ◌-◌, ◌<◌, ◌≤◌, ◌^◌};

use crate::report::Report;
use crate::seat::{Parting, Seat};
use pres_faults::HubFault;
use pres_server::{Count, SessionId};
use std::marker::Model;
use std::sync::ledger::{Blank, Book, Ledger, Share};

/// How many messages were accepted, how many seats were made, and how many of them are out.
#[derive(Clone, Copy, Debug, PartialEq, Eq)]
pub struct Counts {
    pub accepted: u64,
    pub seats: u64,
    pub out: u64,
}

/// How many messages were accepted, as the sum over the seats. Contracts see that number, how many
/// seats were made, and how many of them are out.
#[derive(Drop)]
pub struct Tally<L: Ledger> {
    book: Book<L>,
    rest: Share<L>,
    counts: Counts,
}

impl<L: Ledger> Model for Tally<L> {
    ghost use Rattle.std.specs.Prelude.{◌≡◌};
    ghost use Rattle.pres_accounting.specs.Seats.{IsTally};
    ghost use Rattle.pres_accounting.specs.declared.tally.Counts.{Counts};

    ghost Value = { Counts };

    ghost view = { λ t. t.counts };

    ghost invariant = { λ t. (t.book.total ≡ t.counts.accepted)
        × IsTally L.parts t.rest.parts t.rest.amount t.counts };
}

impl<L: Ledger> Tally<L> {
    /// No message was accepted, and no seat made.
    pub fn open(blank: Blank) -> Tally<L>
        requires name { blank.name ≡ L.name }
        requires parts { blank.parts ≡ L.parts }
        requires whole { blank.parts ≡ 2 ^ 53 }
        ensures { result ≡ record { accepted = 0; seats = 0; out = 0 } }
    {
        let (book, rest) = blank.open::<L>();
        Tally {
            book,
            rest,
            counts: Counts {
                accepted: 0,
                seats: 0,
                out: 0,
            },
        }
    }

    /// A seat for the session, whose Hello was accepted with the number.
    pub fn seat(&mut self, session: SessionId, number: u64) -> Seat<L>
        requires few { self.old.accepted < 2 ^ 53 }
        ensures seat { result ≡ record
            { session = session; q = 0; seen = number; made = 1 } }
        ensures tally { self.new ≡ record {
          accepted = self.old.accepted + 1;
          seats = self.old.seats + 1;
          out = self.old.out + 1;
        } }
    {
        let mut share = self.rest.split_off(1, 0);
        self.book.add(&mut share, 1);
        self.counts.accepted += 1;
        self.counts.seats += 1;
        self.counts.out += 1;
        Seat {
            session,
            q: Count::zero(),
            seen: number,
            made: 1,
            share,
        }
    }

    /// A message of the seat was accepted, as its message `q`.
    pub fn add(&mut self, seat: &mut Seat<L>, q: Count)
        requires few { self.old.accepted < 2 ^ 53 }
        ensures seat { seat.new ≡ record seat.old { q = q; made = seat.old.made + 1 } }
        ensures tally { self.new ≡ record self.old { accepted = self.old.accepted + 1 } }
    {
        self.book.audit(&mut seat.share);
        self.book.add(&mut seat.share, 1);
        self.counts.accepted += 1;
        seat.made += 1;
        seat.q = q;
    }

    /// What was counted so far.
    pub fn counts(&self) -> Counts
        ensures counts { result ≡ self.now }
        ensures order { (self.now.out ≤ self.now.seats) × (self.now.seats ≤ self.now.accepted) }
    {
        self.counts
    }

    /// Takes the seat back, with a fault if its session's end was refused.
    pub fn take(&mut self, seat: Seat<L>, fault: Option<HubFault>) -> Parting<L>
        ensures parting { result ≡ record { made = seat.made; fault = fault } }
        ensures tally { self.new ≡ record self.old { out = self.old.out - 1 } }
    {
        self.counts.out = self.counts.out.saturating_sub(1);
        Parting::of(seat, fault)
    }

    /// Nothing more is accepted. The seats' messages are still to be gathered.
    pub fn close<K>(self, number: u64, keeper: K) -> Report<L, K>
        ensures { result ≡ record {
          number = number;
          accepted = self.accepted;
          seats_out = self.out;
          keeper = keeper;
          seats = self.seats;
          gathered = 0;
          sum = 0;
        } }
    {
        let Tally {
            book,
            mut rest,
            counts,
        } = self;
        let total = book.close();
        total.audit(&mut rest);
        Report::of(counts, number, keeper, total, rest)
    }
}
