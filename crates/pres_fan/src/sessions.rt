//! Sessions in order, each once.

ghost use Rattle.std.specs.Prelude.{◌≡◌, ◌<◌, ◌||◌, ◌&&◌, not, [], IsTrue, ◌↔◌, length, OnOk, OnErr};
ghost use Rattle.std.specs.List.{list_any};
ghost use Rattle.pres_ids.specs.Ids.{same_session};
ghost use Rattle.pres_ids.specs.declared.id.SessionId.{SessionId};

use pres_ids::SessionId;
use std::alloc::{AllocError, Global};
use std::marker::Model;

/// Sessions in a short list. Contracts see the list, in order.
#[derive(Drop)]
pub(crate) struct Sessions {
    list: Vec<SessionId>,
}

impl Model for Sessions {
    ghost use Rattle.std.specs.Prelude.{List};
    ghost use Rattle.std.specs.List.Sorted.{IsStrictlySortedBy};
    ghost use Rattle.pres_ids.specs.declared.id.SessionId.{SessionId};
    ghost use Rattle.pres_fan.specs.Listeners.{session_cmp};

    ghost Value = { List SessionId };

    ghost view = { λ s. s.list.items };

    ghost invariant = { λ s. IsStrictlySortedBy session_cmp s.list.items };
}

impl Sessions {
    // None. It takes no memory.
    pub(crate) fn new(alloc: Global) -> Sessions
        ensures { result ≡ [] }
    {
        Sessions {
            list: Vec::new(alloc),
        }
    }

    // Whether there are none.
    pub(crate) fn is_empty(&self) -> bool
        ensures { IsTrue result ↔ (length self.now ≡ 0) }
    {
        self.list.is_empty()
    }

    // The sessions, in order.
    pub(crate) fn as_slice(&self) -> &[SessionId]
        ensures { result.now ≡ self.now }
    {
        self.list.as_slice()
    }

    // The session too. At a refusal nothing has changed.
    pub(crate) fn add(&mut self, alloc: Global, session: &SessionId) -> Result<(), AllocError>
        ensures added { OnOk result ((s : SessionId) → list_any (same_session s) self.new
            ≡ (same_session session.now s || list_any (same_session s) self.old)) }
        ensures some { OnOk result (0 < length self.new) }
        ensures unchanged { OnErr result (self.new ≡ self.old) }
    {
        let Err(at) = self.list.binary_search(session) else {
            return Ok(());
        };
        let session = session.copy(alloc)?;
        make_room(&mut self.list)?;
        self.list.insert(at, session)?;
        Ok(())
    }

    // The session no more. It takes no memory.
    pub(crate) fn remove(&mut self, session: &SessionId)
        ensures { (s : SessionId) → list_any (same_session s) self.new
            ≡ (not (same_session session.now s) && list_any (same_session s) self.old) }
    {
        if let Ok(at) = self.list.binary_search(session) {
            drop(self.list.remove(at));
        }
    }
}

// Room for one session, in a list of none: most lists have no more than one.
fn make_room(list: &mut Vec<SessionId>) -> Result<(), AllocError>
    ensures { list.new.items ≡ list.old.items }
{
    if list.is_empty() {
        list.reserve_exact(1)?;
    }
    Ok(())
}
