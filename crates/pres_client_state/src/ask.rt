//! Transactions that wait for their callers' answers.

ghost use Rattle.std.specs.Prelude.{◌≡◌, ◌∷◌, [], false, IfOk, OnOk, OnErr, option_copied};
ghost use Rattle.pres_write.specs.Transactions.{comparison};
ghost use Rattle.pres_client_state.specs.Asks.{is_too_deep};
ghost use Rattle.pres_client_state.specs.Asks.{ask_of, with_ask, without_ask};

use crate::notice::{Notice, alone};
use pres_tree::{MAX_DEPTH, Path, Tree};
use pres_write::{Draft, Transaction};
use std::alloc::{AllocError, Global};
use std::collections::BTreeMap;
use std::marker::Model;

/// A transaction that waits for its caller's answer.
#[derive(Drop)]
pub struct Ask {
    pub path: Path,
    /// Which of its attempts the answer makes, from 1 on.
    pub attempt: u64,
    /// The value that it was asked with, which the attempt expects.
    pub value: Tree,
}

impl Ask {
    /// Whether data is nested too deep for the attempt that the draft makes.
    pub fn is_too_deep(&self, draft: &Draft) -> bool
        ensures { result ≡ is_too_deep self.now draft.now }
    {
        let room = MAX_DEPTH - self.path.len();
        self.value.depth() > room || draft.depth() > room
    }

    /// The transaction that puts the draft in the place of the value.
    pub fn into_transaction(self, draft: Draft) -> Transaction
        requires { is_too_deep self draft ≡ false }
        ensures { result ≡ comparison self.path self.value draft }
    {
        let Ask { path, value, .. } = self;
        let Ok(transaction) = Transaction::new(path, value, draft) else {
            unreachable!()
        };
        transaction
    }

    /// The notice that asks, in a list of its own.
    pub fn notices(&self, alloc: Global, request: u64) -> Result<Vec<Notice>, AllocError>
        ensures { IfOk result (λ v. v.items
            ≡ Notice.Ask request self.now.attempt self.now.value ∷ []) }
    {
        let value = self.value.copy(alloc)?;
        let attempt = self.attempt;
        alone(
            alloc,
            Notice::Ask {
                request,
                attempt,
                value,
            },
        )
    }

    /// The same of copies.
    pub fn transaction(&self, alloc: Global, draft: &Draft) -> Result<Transaction, AllocError>
        requires { is_too_deep self.now draft.now ≡ false }
        ensures { IfOk result (λ t. t ≡ comparison self.now.path self.now.value draft.now) }
    {
        let copy = Ask {
            path: self.path.copy(alloc)?,
            attempt: self.attempt,
            value: self.value.copy(alloc)?,
        };
        let Ok(draft) = draft.copy(alloc) else {
            drop(copy);
            return Err(AllocError);
        };
        Ok(copy.into_transaction(draft))
    }
}

/// The transactions that wait, by their requests. Contracts see the list of them, in the order of
/// their requests.
#[derive(Drop)]
pub struct Asks {
    by_request: BTreeMap<u64, Ask>,
}

impl Model for Asks {
    ghost use Rattle.std.specs.List.Sorted.{IsStrictlySortedBy};
    ghost use Rattle.std.specs.Map.{keys_of};
    ghost use Rattle.std.specs.Ordering.{nat_cmp};
    ghost use Rattle.pres_client_state.specs.Asks.{Asks};

    ghost Value = { Asks };

    ghost view = { λ a. a.by_request.entries };

    ghost invariant = { λ a. IsStrictlySortedBy nat_cmp (keys_of a.by_request.entries) };
}

impl Asks {
    /// None waits.
    pub fn new(alloc: Global) -> Asks
        ensures { result ≡ [] }
    {
        Asks {
            by_request: BTreeMap::new(alloc),
        }
    }

    /// The one with the request.
    pub fn get(&self, request: u64) -> Option<&Ask>
        ensures { option_copied result ≡ ask_of request self.now }
    {
        self.by_request.get(&request)
    }

    /// It waits, in the place of one with its request.
    pub fn add(&mut self, request: u64, ask: Ask) -> Result<(), AllocError>
        ensures ok { OnOk result (self.new ≡ with_ask request ask self.old) }
        ensures err { OnErr result (self.new ≡ self.old) }
    {
        drop(self.by_request.insert(request, ask)?);
        Ok(())
    }

    /// The one with the request waits no more.
    pub fn take(&mut self, request: u64) -> Option<Ask>
        ensures ask { result ≡ ask_of request self.old }
        ensures left { self.new ≡ without_ask request self.old }
    {
        self.by_request.remove(&request)
    }
}
