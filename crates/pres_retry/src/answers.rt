//! The answers to the writes of one client.

ghost use Rattle.std.specs.Prelude.{◌≡◌, ◌≢◌, ◌+◌, ◌-◌, ◌++◌, ◌∷◌, ◌<◌, ◌≤◌, ℕ, [], drop, length, nat_lt, slice_get, Some, IfErr, IfOk, OnOk};
ghost use Rattle.std.specs.Option.{option_map};
ghost use Rattle.std.specs.Iterator.{YieldsFirstBy, item_count};
ghost use Rattle.pres_ids.specs.Numbers.{greatest_number};
ghost use Rattle.pres_retry.specs.Above.{AreRising, rows_above};
ghost use Rattle.pres_retry.specs.Shelves.{shelf_length, numbers_in, AreFull, kept_at, stale_at};
ghost use Rattle.pres_retry.specs.Tables.{row};
ghost use Rattle.pres_retry.specs.Verdicts.{lent_kept, lent_row, verdict, status_of};
ghost use Rattle.pres_retry.specs.declared.table.Row.{Row};
ghost use Rattle.pres_retry.specs.declared.fault.RetryFault.TheVariants.{Memory};

use crate::fault::RetryFault;
use crate::shelf::Shelf;
use crate::table::Row;
use pres_ids::{Count, Number};
use pres_tree::Tree;
use pres_write::Kept;
use std::alloc::{AllocError, Global};
use std::collections::BTreeMap;
use std::marker::Model;
use std::mem;

/// How many numbers a shelf holds.
const SHELF: usize = 1024;

/// What an answered write came to, lent.
#[derive(Clone, Copy)]
pub enum KeptRef<'a> {
    /// The operation was carried out.
    Wrote,
    /// Nothing: the place of a transaction held this value, and not the expected one.
    Stale(Option<&'a Tree>),
}

impl KeptRef<'_> {
    /// What it lends, copied.
    pub fn copy(self, alloc: Global) -> Result<Kept, AllocError>
        ensures { IfOk result (λ made. made ≡ lent_kept self.entry) }
    {
        match self {
            KeptRef::Wrote => Ok(Kept::Wrote),
            KeptRef::Stale(None) => Ok(Kept::Stale(None)),
            KeptRef::Stale(Some(held)) => Ok(Kept::Stale(Some(held.copy(alloc)?))),
        }
    }
}

/// The answer to a write, with what it came to lent.
#[derive(Clone, Copy)]
pub struct Answer<'a> {
    /// The server's number at which the write was done.
    pub done: Number,
    /// What it came to.
    pub kept: KeptRef<'a>,
}

impl Answer<'_> {
    /// The row that it lends, copied.
    pub fn row(self, alloc: Global) -> Result<Row, AllocError>
        ensures { IfOk result (λ made. made ≡ lent_row self.entry) }
    {
        Ok(Row {
            done: self.done,
            kept: self.kept.copy(alloc)?,
        })
    }
}

/// What a write with a number is.
#[derive(Drop)]
pub enum Verdict<'a> {
    /// The client's next one.
    New,
    /// One that was answered, with what was kept of it.
    Again(Answer<'a>),
    /// One past the next.
    Gap,
}

// Puts the last shelf after the full ones, where it is full too. The numbers stay the same, also
// where memory is refused.
fn shelve(alloc: Global, full: &mut Vec<Shelf>, last: &mut Shelf) -> Result<(), AllocError>
    requires shelves { AreFull full.old.items }
    requires room { length last.old ≤ shelf_length }
    ensures numbers { numbers_in full.new.items last.new ≡ numbers_in full.old.items last.old }
    ensures shelves { AreFull full.new.items }
    ensures room { length last.new ≤ shelf_length }
    ensures more { OnOk result (length last.new < shelf_length) }
{
    if last.count() < SHELF {
        return Ok(());
    }
    let shelf = mem::replace(last, Shelf::new(alloc));
    match full.push(shelf) {
        Ok(()) => Ok(()),
        Err(refused) => {
            *last = refused.value;
            Err(AllocError)
        }
    }
}

// How many numbers there are.
fn count_in(full: &[Shelf], last: &Shelf) -> u64
    requires shelves { AreFull full.now }
    requires few { length (numbers_in full.now last.now) ≤ greatest_number }
    ensures { result ≡ length (numbers_in full.now last.now) }
{
    (full.len() * SHELF + last.count()) as u64
}

// The number at the place, none past the last.
fn number_at(full: &[Shelf], last: &Shelf, place: usize) -> Option<Number>
    requires { AreFull full.now }
    ensures { result ≡ slice_get (numbers_in full.now last.now) place }
{
    if let Some(shelf) = full.get(place / SHELF) {
        return shelf.get(place % SHELF);
    }
    last.get(place - full.len() * SHELF)
}

// Keeps what the place of the next write held, where it is stale. At a refusal nothing has changed.
fn keep_held(stale: &mut BTreeMap<u64, Option<Tree>>, n: u64, kept: Kept) -> Result<(), RetryFault>
    requires { stale_at n stale.old.entries ≡ None }
    ensures kept { OnOk result (kept_at n stale.new.entries ≡ kept) }
    ensures others { (m : ℕ) → m ≢ n
        → stale_at m stale.new.entries ≡ stale_at m stale.old.entries }
    ensures err { IfErr result (λ e. (e ≡ Memory) × (stale.new.entries ≡ stale.old.entries)) }
{
    match kept {
        Kept::Wrote => Ok(()),
        Kept::Stale(held) => {
            drop(stale.insert(n, held)?);
            Ok(())
        }
    }
}

// Keeps the number at which the next write was done, and what its place held, where it is stale.
// At a refusal nothing has changed.
fn keep_next(
    alloc: Global,
    last: &mut Shelf,
    stale: &mut BTreeMap<u64, Option<Tree>>,
    n: u64,
    done: Number,
    kept: Kept,
) -> Result<(), RetryFault>
    requires { stale_at n stale.old.entries ≡ None }
    ensures number { OnOk result (last.new ≡ last.old ++ done ∷ []) }
    ensures kept { OnOk result (kept_at n stale.new.entries ≡ kept) }
    ensures others { (m : ℕ) → m ≢ n
        → stale_at m stale.new.entries ≡ stale_at m stale.old.entries }
    ensures err { IfErr result (λ e. (e ≡ Memory)
        × ((last.new ≡ last.old) × (stale.new.entries ≡ stale.old.entries))) }
{
    last.push(alloc, done)?;
    if let Err(refused) = keep_held(stale, n, kept) {
        last.pop();
        return Err(refused);
    }
    Ok(())
}

/// The answers to the writes of one client, which are numbered 1, 2, .. Contracts see the list of
/// their rows. One that wrote takes a few bytes, and a growing list copies at most one shelf of
/// them.
#[derive(Drop)]
pub struct Answers {
    // The numbers at which the writes were done, in shelves of which each but the last is full.
    full: Vec<Shelf>,
    last: Shelf,
    // By the numbers of the stale writes, what their places held.
    stale: BTreeMap<u64, Option<Tree>>,
}

impl Model for Answers {
    ghost use Rattle.std.specs.Prelude.{List};
    ghost use Rattle.pres_retry.specs.Shelves.{AreKept, rows_in};
    ghost use Rattle.pres_retry.specs.declared.table.Row.{Row};

    ghost Value = { List Row };

    ghost view = { λ a. rows_in a.full.items a.last a.stale.entries };

    ghost invariant = { λ a. AreKept a.full.items a.last a.stale.entries };
}

impl Answers {
    /// No answers. It takes no memory.
    pub fn new(alloc: Global) -> Answers
        ensures { result ≡ [] }
    {
        Answers {
            full: Vec::new(alloc),
            last: Shelf::new(alloc),
            stale: BTreeMap::new(alloc),
        }
    }

    /// How many there are.
    pub fn count(&self) -> Count
        ensures { result ≡ length self.now }
    {
        let Some(count) = Count::new(count_in(self.full.as_slice(), &self.last)) else {
            unreachable!()
        };
        count
    }

    // The answer at the place, none past the last. It takes no memory.
    fn at(&self, place: usize) -> Option<Answer<'_>>
        ensures answer { option_map lent_row result ≡ slice_get self.now place }
        ensures few { length self.now ≤ greatest_number }
    {
        let done = number_at(self.full.as_slice(), &self.last, place)?;
        let kept = match self.stale.get(&(place as u64 + 1)) {
            Some(held) => KeptRef::Stale(held.as_ref()),
            None => KeptRef::Wrote,
        };
        Some(Answer { done, kept })
    }

    /// The answer to the write with the number, none past the last. It takes no memory.
    pub fn get(&self, n: Number) -> Option<Answer<'_>>
        ensures { option_map lent_row result ≡ slice_get self.now (n - 1) }
    {
        self.at((n.get() - 1) as usize)
    }

    /// What a write with the number is. It takes no memory.
    pub fn find(&self, n: Number) -> Verdict<'_>
        ensures { status_of result ≡ verdict n self.now }
    {
        if n.get() == self.count().get() + 1 {
            return Verdict::New;
        }
        match self.get(n) {
            Some(answer) => Verdict::Again(answer),
            None => Verdict::Gap,
        }
    }

    /// The answers in order. It takes no memory.
    pub fn iter(&self) -> AnswersIter<'_>
        ensures { result ≡ self.now }
    {
        AnswersIter {
            answers: self,
            place: 0,
        }
    }

    /// The rows, copied.
    pub fn rows(&self, alloc: Global) -> Result<Vec<Row>, RetryFault>
        ensures rows { IfOk result (λ rows. rows.items ≡ self.now) }
        ensures err { IfErr result (λ e. e ≡ Memory) }
    {
        let mut rows = Vec::new(alloc);
        for answer in self.iter() {
            rows.push(answer.row(alloc)?)?;
        }
        Ok(rows)
    }

    /// Equal answers.
    pub fn copy(&self, alloc: Global) -> Result<Answers, AllocError>
        ensures { IfOk result (λ made. made ≡ self.now) }
    {
        self.iter().copied(alloc)
    }

    // Whether the write at the place was done after the number.
    fn is_above(&self, place: usize, number: Count) -> bool
        requires { place < length self.now }
        ensures { (row : Row) → slice_get self.now place ≡ Some row
            → result ≡ nat_lt number row.done }
    {
        let Some(answer) = self.at(place) else {
            unreachable!()
        };
        number.get() < answer.done.get()
    }

    // How many writes were done at the number or before it, by halves. It takes no memory.
    fn count_up_to(&self, number: Count) -> usize
        requires { AreRising 0 self.now }
        ensures { drop result self.now ≡ rows_above number self.now }
    {
        let mut low = 0;
        let mut high = self.count().get() as usize;
        'halves: while low < high {
            let middle = low + (high - low) / 2;
            if self.is_above(middle, number) {
                high = middle;
            } else {
                low = middle + 1;
            }
        }
        low
    }

    /// The answers to the writes that were done after the number, copied; each write was done after
    /// the one before it. It reads few of the others, and copies none.
    pub fn copy_above(&self, alloc: Global, number: Count) -> Result<Answers, AllocError>
        requires { AreRising 0 self.now }
        ensures { IfOk result (λ made. made ≡ rows_above number self.now) }
    {
        let later = AnswersIter {
            answers: self,
            place: self.count_up_to(number),
        };
        later.copied(alloc)
    }

    /// Keeps the answer to the next write. Memory is the one refusal.
    pub fn push(
        &mut self,
        alloc: Global,
        n: Number,
        done: Number,
        kept: Kept,
    ) -> Result<(), RetryFault>
        requires { n ≡ length self.old + 1 }
        ensures pushed { OnOk result (self.new ≡ self.old ++ row done kept ∷ []) }
        ensures err { IfErr result (λ e. (e ≡ Memory) × (self.new ≡ self.old)) }
    {
        let number = n.get();
        shelve(alloc, &mut self.full, &mut self.last)?;
        keep_next(alloc, &mut self.last, &mut self.stale, number, done, kept)?;
        Ok(())
    }
}

/// The answers of a client that are left to go over, in order. Contracts see the list of their
/// rows.
#[derive(Drop)]
pub struct AnswersIter<'a> {
    answers: &'a Answers,
    place: usize,
}

impl<'a> Model for AnswersIter<'a> {
    ghost use Rattle.std.specs.Prelude.{List, drop};
    ghost use Rattle.pres_retry.specs.declared.table.Row.{Row};

    ghost Value = { List Row };

    ghost view = { λ it. drop it.place it.answers.now };
}

impl AnswersIter<'_> {
    // Those that are left, copied.
    fn copied(self, alloc: Global) -> Result<Answers, AllocError>
        ensures { IfOk result (λ made. made ≡ self.entry) }
    {
        // it ensures that they are few
        let _ = self.answers.count().get();
        let mut made = Answers::new(alloc);
        for answer in self {
            let Some(n) = made.count().next() else {
                unreachable!()
            };
            let Ok(()) = made.push(alloc, n, answer.done, answer.kept.copy(alloc)?) else {
                return Err(AllocError);
            };
        }
        Ok(made)
    }
}

impl<'a> Iterator for AnswersIter<'a> {
    type Item = Answer<'a>;

    ghost next_gives = { YieldsFirstBy lent_row (λ s. s) };

    ghost remaining = { item_count (λ s. s) };

    fn next(&mut self) -> Option<Answer<'a>> {
        let answers = self.answers;
        let Some(answer) = answers.at(self.place) else {
            return None;
        };
        self.place += 1;
        Some(answer)
    }
}
