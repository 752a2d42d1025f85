//! Open sessions.

ghost use Rattle.std.specs.Prelude.{◌≡◌, ◌+◌, IfOk, IfErr, OnErr, max};
ghost use Rattle.std.specs.Borrow.{sem, Lends};
ghost use Rattle.pres_ids.specs.Numbers.{greatest_number};
ghost use Rattle.pres_session.specs.LiveSessions.{opened};
ghost use Rattle.pres_session.specs.declared.fault.SessionFault.TheVariants.{Spent};
ghost use Rattle.pres_session.specs.contracts.live.Live.{the_row};

use crate::due::Due;
use crate::fault::SessionFault;
use pres_ids::{Count, Number, Stamp, Why};
use pres_write::Moment;
use std::marker::Model;

/// An open session. Contracts see its stamp, its two counts, when its client was heard of last, and
/// the plan that is owed at its end.
#[derive(Drop)]
pub struct Live<P> {
    stamp: Stamp,
    count: Count,
    sent: Count,
    heard: Moment,
    plan: P,
}

impl<P> Model for Live<P> {
    ghost use Rattle.pres_session.specs.LiveSessions.{LiveState};

    ghost Value = { LiveState P };

    ghost view = { λ l. record {
      stamp = l.stamp;
      count = l.count;
      sent = l.sent;
      heard = l.heard;
      plan = l.plan;
    } };
}

/// The session of a client that had none.
pub fn first<P>(stamp: Stamp, heard: Moment, plan: P) -> Live<P>
    ensures { result ≡ opened stamp heard plan }
{
    Live {
        stamp,
        count: Count::zero(),
        sent: Count::zero(),
        heard,
        plan,
    }
}

impl<P> Live<P> {
    /// A session that was open before, as a base keeps it: how many messages of its client were
    /// accepted, how many messages to it were numbered, and the plan of its end. It takes no memory.
    pub fn resumed(stamp: Stamp, heard: Moment, count: Count, sent: Count, plan: P) -> Live<P>
        ensures { result ≡ record {
          stamp = stamp;
          count = count;
          sent = sent;
          heard = heard;
          plan = plan;
        } }
    {
        Live {
            stamp,
            count,
            sent,
            heard,
            plan,
        }
    }

    /// Which session of its client it is.
    pub fn stamp(&self) -> Stamp
        ensures { result ≡ self.now.stamp }
    {
        self.stamp
    }

    /// How many messages of the client were accepted.
    pub fn count(&self) -> Count
        ensures { result ≡ self.now.count }
    {
        self.count
    }

    /// How many messages to the client were numbered.
    pub fn sent(&self) -> Count
        ensures { result ≡ self.now.sent }
    {
        self.sent
    }

    /// When the client was heard of last.
    pub fn heard(&self) -> Moment
        ensures { result ≡ self.now.heard }
    {
        self.heard
    }

    /// What is owed at its end.
    pub fn plan(&self) -> &P
        ensures { result.now ≡ self.now.plan }
    {
        &self.plan
    }

    /// What is owed at its end, to be changed.
    pub fn plan_mut(&mut self) -> &mut P
        ensures value { result.now ≡ self.old.plan }
        ensures* writes_back { sem 𝓛 (Lends (the_row P.row) P.row self.entry result
            (λ w. record self.old { plan = w })) }
    {
        &mut self.plan
    }

    /// The client was heard of at the moment. An earlier one than before changes nothing.
    pub fn hear(&mut self, now: Moment)
        ensures { self.new ≡ record self.old { heard = max self.old.heard now } }
    {
        self.heard = self.heard.max(now);
    }

    /// The client counts as heard of at this moment, also where it was heard of later: whoever
    /// rebuilds a server doesn't know when that was.
    pub fn set_heard(&mut self, moment: Moment)
        ensures { self.new ≡ record self.old { heard = moment } }
    {
        self.heard = moment;
    }

    /// The number of the client's next message, from 1 on. Spent after 2^53 - 1.
    pub fn accept(&mut self) -> Result<Number, SessionFault>
        ensures number { IfOk result (λ q. q ≡ self.old.count + 1) }
        ensures counted { IfOk result (λ q. self.new ≡ record self.old { count = q }) }
        ensures spent { IfErr result (λ e. (e ≡ Spent) × (self.old.count ≡ greatest_number)) }
        ensures unchanged { OnErr result (self.new ≡ self.old) }
    {
        let Some(number) = self.count.next() else {
            return Err(SessionFault::Spent);
        };
        self.count = Count::up_to(number);
        Ok(number)
    }

    /// The number of the next message to the client, from 1 on. Spent after 2^53 - 1.
    pub fn emit(&mut self) -> Result<Number, SessionFault>
        ensures number { IfOk result (λ r. r ≡ self.old.sent + 1) }
        ensures counted { IfOk result (λ r. self.new ≡ record self.old { sent = r }) }
        ensures spent { IfErr result (λ e. (e ≡ Spent) × (self.old.sent ≡ greatest_number)) }
        ensures unchanged { OnErr result (self.new ≡ self.old) }
    {
        let Some(number) = self.sent.next() else {
            return Err(SessionFault::Spent);
        };
        self.sent = Count::up_to(number);
        Ok(number)
    }

    /// Ends the session. What its plan owes is due.
    pub fn end(self, why: Why) -> Due<P>
        ensures session { result.session ≡ self }
        ensures why { result.why ≡ why }
    {
        Due::of(self, why)
    }
}
