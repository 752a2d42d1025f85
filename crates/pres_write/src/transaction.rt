//! Transactions: a new draft for a place, if that holds the expected value.

ghost use Rattle.std.specs.Prelude.{◌≡◌, ◌↔◌, ◌+◌, ◌<◌, ◌⊎◌, IfOk, IsTrue, MatchResult, length, option_copied};
ghost use Rattle.pres_tree.specs.Paths.{IsPath, max_depth};
ghost use Rattle.pres_tree.specs.Rows.{Fits, depth_of, rows_in};
ghost use Rattle.pres_write.specs.Basics.{Apart};
ghost use Rattle.pres_write.specs.Outcomes.{compared, writes_in};

use crate::basic::copy_value;
use crate::draft::Draft;
use crate::moment::Moment;
use crate::outcome::{Outcome, one_moved, one_write};
use pres_tree::{MAX_DEPTH, Path, Tree, TreeFault};
use std::alloc::{AllocError, Global};
use std::marker::Model;

/// A draft for the path, which is written if the path holds exactly the expected value. No leaf of
/// either is more than `MAX_DEPTH` keys from the root.
pub struct Transaction {
    path: Path,
    expect: Tree,
    new: Draft,
}

// Written out so that dropping a transaction is one step of a proof, in the crates above too.
impl Drop for Transaction {
    fn drop(self) {
        let Transaction {
            path: _,
            expect: _,
            new: _,
        } = self;
    }
}

impl Model for Transaction {
    ghost use Rattle.pres_write.specs.Transactions.{Comparison, comparison, IsTransaction};

    ghost Value = { Comparison };

    ghost view = { λ t. comparison t.path t.expect t.new };

    ghost invariant = { λ t. IsTransaction (comparison t.path t.expect t.new) };
}

impl Transaction {
    /// The transaction, refused as TooDeep where a leaf of one of its values would stand below
    /// `MAX_DEPTH` keys.
    pub fn new(path: Path, expect: Tree, new: Draft) -> Result<Transaction, TreeFault>
        ensures { MatchResult result
            (λ t. t ≡ record { path = path; expect = expect; new = new })
            (λ e. (e ≡ TreeFault.TooDeep)
            × ((max_depth < length path + depth_of expect)
            ⊎ (max_depth < length path + depth_of new))) }
    {
        let keys = path.len();
        if keys + expect.depth() > MAX_DEPTH || keys + new.depth() > MAX_DEPTH {
            drop(expect);
            drop(new);
            return Err(TreeFault::TooDeep);
        }
        Ok(Transaction { path, expect, new })
    }

    // The same where it is known to fit.
    pub(crate) fn fitting(path: Path, expect: Tree, new: Draft) -> Transaction
        requires expect { Fits path expect }
        requires new { Fits path new }
        ensures { result ≡ record { path = path; expect = expect; new = new } }
    {
        Transaction { path, expect, new }
    }

    /// The path.
    pub fn path(&self) -> &Path
        ensures path { result.now ≡ self.now.path }
        ensures keys { IsPath self.now.path }
        ensures expect { Fits self.now.path self.now.expect }
        ensures new { Fits self.now.path self.now.new }
    {
        // it ensures that the path is one
        let _ = self.path.len();
        &self.path
    }

    /// The value that the path is to hold.
    pub fn expect(&self) -> &Tree
        ensures { result.now ≡ self.now.expect }
    {
        &self.expect
    }

    /// The draft that takes its place.
    pub fn draft(&self) -> &Draft
        ensures { result.now ≡ self.now.new }
    {
        &self.new
    }

    // Whether the value held is the expected one.
    fn is_expected(&self, held: Option<&Tree>) -> bool
        ensures { IsTrue result ↔ (rows_in (option_copied held.entry) ≡ self.now.expect) }
    {
        match held {
            Some(held) => held.equal(&self.expect),
            None => self.expect.is_empty(),
        }
    }

    /// Its outcome on the tree at the moment.
    pub fn compare(&self, alloc: Global, tree: &Tree, moment: Moment) -> Result<Outcome, AllocError>
        ensures outcome { IfOk result (λ outcome. outcome ≡ compared tree.now moment self.now) }
        ensures apart { IfOk result (λ outcome. Apart (writes_in outcome)) }
    {
        let held = tree.at(&self.path);
        if !self.is_expected(held) {
            return Ok(Outcome::Stale(copy_value(alloc, held)?));
        }
        let path = self.path.copy(alloc)?;
        one_write(alloc, path, &self.new, tree, moment)
    }

    // The same of a transaction that isn't needed any more: its path and its draft are moved.
    pub(crate) fn into_outcome(
        self,
        alloc: Global,
        tree: &Tree,
        moment: Moment,
    ) -> Result<Outcome, AllocError>
        ensures outcome { IfOk result (λ outcome. outcome ≡ compared tree.now moment self) }
        ensures apart { IfOk result (λ outcome. Apart (writes_in outcome)) }
    {
        let held = tree.at(&self.path);
        if !self.is_expected(held) {
            return Ok(Outcome::Stale(copy_value(alloc, held)?));
        }
        let Transaction { path, expect, new } = self;
        drop(expect);
        one_moved(alloc, path, new, tree, moment)
    }

    /// An equal transaction.
    pub fn copy(&self, alloc: Global) -> Result<Transaction, AllocError>
        ensures { IfOk result (λ made. made ≡ self.now) }
    {
        let path = self.path.copy(alloc)?;
        let expect = self.expect.copy(alloc)?;
        let Ok(new) = self.new.copy(alloc) else {
            drop(expect);
            return Err(AllocError);
        };
        Ok(Transaction { path, expect, new })
    }
}
