//! A connection's place at its hub.

ghost use Rattle.std.specs.Prelude.{◌≡◌, ◌≤◌, false, true, is_some, Some, None, OnOk, OnErr, IfOk, IfErr, IfSome};
ghost use Rattle.pres_wire.specs.declared.down.Down.TheVariants.{Fault};
ghost use Rattle.pres_websocket.specs.ConnectionFaults.{is_handshake};
ghost use Rattle.pres_sock.specs.Refusals as refusal;

use pres_faults::HubFault;
use pres_hub::{Bell, Gate, Hub, Keeper, Moment, Outbox, Parting, Said, Seat, SessionId, Up, Why};
use pres_websocket::SockFault;
use pres_wire::{Code, Down};
use std::alloc::Global;
use std::collections::VecDeque;
use std::sync::Wait;
use std::sync::ledger::Ledger;
use std::time::Clock;

/// Where a connection was let in.
#[derive(Drop)]
pub(crate) struct HubAccess<'a, L: Ledger, K: Keeper + Drop, B, G: Gate, R> {
    pub(crate) rt: &'a R,
    pub(crate) alloc: Global,
    pub(crate) hub: &'a Hub<L, K, B, G>,
}

/// The seat of a connection's session, and the end from which its messages are taken.
pub(crate) struct JoinedSession<L: Ledger> {
    // none only while the hub has it with messages
    seat: Option<Seat<L>>,
    outbox: Outbox,
    ghost seated: { is_some seat ≡ true },
}

/// Opens the session, and sets its bell, which is taken exactly if the session is opened. The bells
/// of others that are due then are added to these.
pub(crate) fn join<L: Ledger, K: Keeper + Drop, B: Bell + Clone + Drop, G: Gate, R: Wait>(
    visit: &HubAccess<'_, L, K, B, G, R>,
    session: &SessionId,
    bell: &mut Option<B>,
    due: &mut Vec<B>,
    now: Moment,
) -> Result<JoinedSession<L>, HubFault>
    ensures joined { IfOk result (λ place. IfSome place.seat (λ seat. seat.made ≡ 1)) }
    ensures opened { IfOk result (λ place.
        IfSome place.seat (λ seat. seat.session ≡ session.now)) }
    ensures taken { OnOk result (bell.new ≡ None) }
    ensures kept { OnErr result (bell.new ≡ bell.old) }
{
    let mut core = visit.hub.enter(visit.rt, 0);
    let (seat, outbox) = core.join(session, now)?;
    if let Some(bell) = bell.take() {
        // without memory for it the connection only looks from time to time
        let _ = core.hang(&seat, bell);
    }
    core.take_due(Some(session), due);
    Ok(JoinedSession {
        seat: Some(seat),
        outbox,
    })
}

impl<L: Ledger> JoinedSession<L> {
    // The seat.
    fn seat(&self) -> &Seat<L>
        ensures { self.now.seat ≡ Some result.now }
    {
        let Some(seat) = &self.seat else {
            unreachable!()
        };
        seat
    }

    /// A fault message to the seat's session.
    pub(crate) fn fault(&self, alloc: Global, code: Code) -> Result<Down, SockFault>
        ensures message { IfOk result (λ m.
            IfSome self.now.seat (λ seat. m ≡ Fault (Some seat.session) code)) }
        ensures err { IfErr result (λ e. is_handshake e ≡ false) }
    {
        Ok(Down::Fault {
            session: Some(self.seat().session().copy(alloc)?),
            code,
        })
    }

    /// The next message for the session.
    pub(crate) fn take(&mut self) -> Option<Down>
        ensures { self.new.seat ≡ self.old.seat }
    {
        self.outbox.take()
    }

    /// Takes messages to the hub, which has the seat meanwhile: what each of them comes to, in their
    /// order; none where memory for that is refused. The bells of others that are due then are added
    /// to these.
    pub(crate) fn say_each<K: Keeper + Drop, B: Bell + Clone + Drop, G: Gate, R: Wait + Clock>(
        &mut self,
        visit: &HubAccess<'_, L, K, B, G, R>,
        due: &mut Vec<B>,
        messages: VecDeque<Up>,
        now: Moment,
    ) -> Vec<Result<Said, HubFault>> {
        let Some(seat) = self.seat.take() else {
            unreachable!()
        };
        let (seat, said) = visit.hub.say_each(visit.rt, 0, seat, messages, now, due);
        fill(&mut self.seat, seat);
        said
    }

    /// Gives the seat back. The bells of others that are due then are added to these.
    pub(crate) fn leave<K: Keeper + Drop, B: Bell + Clone + Drop, G: Gate, R: Wait>(
        self,
        visit: &HubAccess<'_, L, K, B, G, R>,
        due: &mut Vec<B>,
        now: Moment,
    ) -> Parting<L>
        ensures made { IfSome self.seat (λ seat. result.made ≡ seat.made) }
        ensures joined { 1 ≤ result.made }
    {
        let JoinedSession { seat, outbox: _ } = self;
        let Some(seat) = seat else { unreachable!() };
        // it ensures that the seat made a Hello at least
        let _ = seat.made();
        let mut core = visit.hub.enter(visit.rt, 0);
        let parting = core.leave(seat, Why::Lost, now);
        core.take_due(None, due);
        parting
    }
}

// Puts the seat where none is.
fn fill<L: Ledger>(place: &mut Option<Seat<L>>, seat: Seat<L>)
    requires { place.old ≡ None }
    ensures { place.new ≡ Some seat }
{
    match place.replace(seat) {
        None => {}
        Some(_) => unreachable!(),
    }
}

/// The code of a refusal. The faults Behind and Apart have none.
pub(crate) fn code_of(fault: HubFault) -> Result<Code, SockFault>
    ensures code { IfOk result (λ code. refusal.code_of fault ≡ Some code) }
    ensures none { IfErr result (λ _. refusal.code_of fault ≡ None) }
    ensures err { IfErr result (λ e. is_handshake e ≡ false) }
{
    match fault {
        HubFault::Memory => Ok(Code::Busy),
        HubFault::Refused(fault) => Ok(fault.code()),
        HubFault::Keeper(_) => Ok(Code::Busy),
        HubFault::Down => Ok(Code::Down),
        other => Err(SockFault::Hub(other)),
    }
}

/// Rings these bells.
pub(crate) fn ring<B: Bell + Drop>(due: &mut Vec<B>) {
    for bell in due.iter() {
        bell.ring();
    }
    due.clear();
}
