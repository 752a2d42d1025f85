//! The table of kept answers.

ghost use Rattle.std.specs.Prelude.{◌≡◌, ◌≢◌, ◌+◌, ◌++◌, ◌∷◌, ◌<◌, [], length, IfErr, IfOk, MatchOption, OnOk};
ghost use Rattle.std.specs.FinMap.Entries.{put};
ghost use Rattle.pres_ids.specs.Ids.{ClientId, client_cmp};
ghost use Rattle.pres_retry.specs.Tables.{row, recorded, rows_of, with_row};
ghost use Rattle.pres_retry.specs.Verdicts.{verdict, status_of};
ghost use Rattle.pres_retry.specs.declared.fault.RetryFault.TheVariants.{Memory};

use crate::answers::{Answers, Verdict};
use crate::fault::RetryFault;
use pres_ids::{ClientId, Count, Number};
use pres_write::Kept;
use std::alloc::{AllocError, Global};
use std::collections::BTreeMap;
use std::marker::Model;

/// What is kept of an answered write.
#[derive(Drop)]
pub struct Row {
    /// The server's number at which it was done.
    pub done: Number,
    /// What it came to.
    pub kept: Kept,
}

impl Row {
    /// An equal row.
    pub fn copy(&self, alloc: Global) -> Result<Row, AllocError>
        ensures { IfOk result (λ made. made ≡ self.now) }
    {
        Ok(Row {
            done: self.done,
            kept: self.kept.copy(alloc)?,
        })
    }
}

/// The answers to the writes of each client, which are numbered 1, 2, .. Contracts see the list of
/// the clients that have any, in byte order, each with its rows in the order of their numbers.
#[derive(Drop)]
pub struct RetryTable {
    alloc: Global,
    clients: BTreeMap<ClientId, Answers>,
}

impl Model for RetryTable {
    ghost use Rattle.pres_retry.specs.Tables.{Table, AreNumbered};

    ghost Value = { Table };

    ghost view = { λ t. t.clients.entries };

    ghost invariant = { λ t. AreNumbered t.clients.entries };
}

// Keeps the answer to the client's next write. Memory is the one refusal.
fn push(
    clients: &mut BTreeMap<ClientId, Answers>,
    alloc: Global,
    client: ClientId,
    n: Number,
    new: Row,
) -> Result<(), RetryFault>
    requires { n ≡ length (rows_of client clients.old.entries) + 1 }
    ensures pushed { OnOk result
        (clients.new.entries ≡ with_row client new clients.old.entries) }
    ensures err { IfErr result
        (λ e. (e ≡ Memory) × (clients.new.entries ≡ clients.old.entries)) }
{
    let Row { done, kept } = new;
    if let Some(answers) = clients.get_mut(&client) {
        return answers.push(alloc, n, done, kept);
    }
    let mut answers = Answers::new(alloc);
    answers.push(alloc, n, done, kept)?;
    drop(clients.insert(client, answers)?);
    Ok(())
}

impl RetryTable {
    /// The table without answers. It keeps the allocator and takes no memory.
    pub fn new(alloc: Global) -> RetryTable
        ensures { result ≡ [] }
    {
        RetryTable {
            alloc,
            clients: BTreeMap::new(alloc),
        }
    }

    /// The answers to the client's writes, none for a stranger. It takes no memory.
    pub fn answers(&self, client: &ClientId) -> Option<&Answers>
        ensures { MatchOption result (rows_of client.now self.now ≡ [])
            (λ answers. answers.now ≡ rows_of client.now self.now) }
    {
        self.clients.get(client)
    }

    /// The number of the client's last write that has an answer, 0 for a stranger.
    pub fn last(&self, client: &ClientId) -> Count
        ensures { result ≡ length (rows_of client.now self.now) }
    {
        match self.answers(client) {
            Some(answers) => answers.count(),
            None => Count::zero(),
        }
    }

    /// Keeps all answers of a client that has none so far. Memory is the one refusal.
    pub fn insert(&mut self, client: ClientId, answers: Answers) -> Result<(), RetryFault>
        requires stranger { rows_of client self.old ≡ [] }
        requires some { 0 < length answers }
        ensures inserted { OnOk result (self.new ≡ put client_cmp client answers self.old) }
        ensures own { OnOk result (rows_of client self.new ≡ answers) }
        ensures err { IfErr result (λ e. (e ≡ Memory) × (self.new ≡ self.old)) }
    {
        // it ensures that they are few
        let _ = answers.count().get();
        drop(self.clients.insert(client, answers)?);
        Ok(())
    }

    /// What is kept of the client's writes, in their order, copied.
    pub fn rows(&self, alloc: Global, client: &ClientId) -> Result<Vec<Row>, RetryFault>
        ensures rows { IfOk result (λ rows. rows.items ≡ rows_of client.now self.now) }
        ensures err { IfErr result (λ e. e ≡ Memory) }
    {
        match self.answers(client) {
            Some(answers) => answers.rows(alloc),
            None => Ok(Vec::new(alloc)),
        }
    }

    /// What the client's write with the number is. It takes no memory.
    pub fn find(&self, client: &ClientId, n: Number) -> Verdict<'_>
        ensures { status_of result ≡ verdict n (rows_of client.now self.now) }
    {
        match self.answers(client) {
            Some(answers) => answers.find(n),
            None if n.get() == 1 => Verdict::New,
            None => Verdict::Gap,
        }
    }

    /// Keeps the answer to the client's next write. Memory is the one refusal.
    pub fn record(
        &mut self,
        client: ClientId,
        n: Number,
        done: Number,
        kept: Kept,
    ) -> Result<(), RetryFault>
        requires { n ≡ length (rows_of client self.old) + 1 }
        ensures recorded { OnOk result (self.new ≡ recorded client n (row done kept) self.old) }
        ensures own { OnOk result
            (rows_of client self.new ≡ rows_of client self.old ++ row done kept ∷ []) }
        ensures others { OnOk result ((other : ClientId) → other ≢ client
            → rows_of other self.new ≡ rows_of other self.old) }
        ensures err { IfErr result (λ e. (e ≡ Memory) × (self.new ≡ self.old)) }
    {
        // it ensures that no number is past the greatest one
        let _ = n.get();
        push(&mut self.clients, self.alloc, client, n, Row { done, kept })?;
        Ok(())
    }
}
