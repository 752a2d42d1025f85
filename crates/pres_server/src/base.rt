//! The parts of a server's base, copied.

ghost use Rattle.std.specs.Prelude.{◌≡◌, All, List, map, IfOk};
ghost use Rattle.std.specs.BTreeMap.{get, IsOrdered};
ghost use Rattle.pres_ids.specs.declared.id.Stamp.{Stamp};
ghost use Rattle.pres_ids.specs.Ids.{ClientId, client_cmp};
ghost use Rattle.pres_retry.specs.Tables.{rows_of};
ghost use Rattle.pres_retry.specs.Above.{rows_above, AreRising};
ghost use Rattle.pres_plan.specs.Plans.{IsPlan};
ghost use Rattle.pres_server.specs.InternalSessions.{last_stamp};
ghost use Rattle.pres_server.specs.InternalSums.{open_of, sessions_in};
ghost use Rattle.pres_server.specs.InternalBases.{client_part_above, session_part, AreLastsAt};

use crate::client_sessions::ClientSessions;
use crate::index::Index;
use pres_base::{ClientPart, SessionPart};
use pres_plan::Plan;
use pres_retry::Answers;
use pres_session::Live;
use pres_wire::{ClientId, Count, SessionId, Stamp};
use pres_write::Items;
use std::alloc::{AllocError, Global};
use std::collections::BTreeMap;

impl ClientSessions {
    // The stamp of the last session of each client, in one map: of the open one, or of the one that
    // is gone.
    fn lasts(&self, alloc: Global) -> Result<BTreeMap<ClientId, Stamp>, AllocError>
        ensures found { IfOk result (λ lasts. (c : ClientId) → get client_cmp lasts c
            ≡ last_stamp (get client_cmp self.now.live c) (get client_cmp self.now.gone c)) }
        ensures ordered { IfOk result (λ lasts. IsOrdered client_cmp lasts) }
    {
        let mut lasts = BTreeMap::new(alloc);
        for (client, gone) in self.gone.iter() {
            drop(lasts.insert(client.copy(alloc)?, gone.last())?);
        }
        for (id, live) in self.live.iter() {
            drop(lasts.insert(id.copy(alloc)?, live.stamp())?);
        }
        Ok(lasts)
    }
}

impl Index {
    // Copies of the answers to the client's writes that were made after the number.
    fn copy_answers(
        &self,
        alloc: Global,
        client: &ClientId,
        number: Count,
    ) -> Result<Answers, AllocError>
        requires { AreRising 0 (rows_of client.now self.now.retry) }
        ensures { IfOk result
            (λ made. made ≡ rows_above number (rows_of client.now self.now.retry)) }
    {
        match self.retry.answers(client) {
            Some(answers) => answers.copy_above(alloc, number),
            None => Ok(Answers::new(alloc)),
        }
    }

    /// The clients of its base, with the answers alone that were made after the number.
    pub(crate) fn client_parts(
        &self,
        alloc: Global,
        number: Count,
    ) -> Result<Items<ClientPart>, AllocError>
        requires { (client : ClientId) → AreRising 0 (rows_of client self.now.retry) }
        ensures { IfOk result (λ made. (lasts : List (ClientId × Stamp)) × AreLastsAt self.now lasts
            × (made ≡ map (client_part_above number self.now.retry) lasts)) }
    {
        let lasts = self.places.lasts(alloc)?;
        let mut made = Vec::with_capacity(alloc, lasts.len())?;
        for (id, last) in lasts {
            let rows = self.copy_answers(alloc, &id, number)?;
            made.push(ClientPart { id, last, rows })?;
        }
        Ok(Items::of(made))
    }

    // The client's open session, as a base has it.
    fn session_part(
        &self,
        alloc: Global,
        client: &ClientId,
        live: &Live<Plan>,
    ) -> Result<SessionPart, AllocError>
        ensures part { IfOk result (λ made. made
            ≡ session_part self.now.listeners (client.now, open_of live.now)) }
        ensures plan { IfOk result (λ _. IsPlan live.now.plan) }
    {
        let session = SessionId::of(client.copy(alloc)?, live.stamp());
        let listens = self.listeners.copy_paths(alloc, &session)?;
        let plan = live.plan().copy_rows(alloc)?;
        Ok(SessionPart {
            session,
            q: live.count(),
            r: live.sent(),
            listens: Items::of(listens),
            plan: Items::of(plan),
        })
    }

    /// The open sessions of its base.
    pub(crate) fn session_parts(&self, alloc: Global) -> Result<Items<SessionPart>, AllocError>
        ensures parts { IfOk result (λ made. made
            ≡ map (session_part self.now.listeners) (sessions_in self.now)) }
        ensures plans { IfOk result (λ _. All (λ e. IsPlan e.1.plan) (sessions_in self.now)) }
    {
        let mut made = Vec::with_capacity(alloc, self.places.live.len())?;
        for (client, live) in self.places.live.iter() {
            made.push(self.session_part(alloc, client, live)?)?;
        }
        Ok(Items::of(made))
    }
}
