//! A shelf of numbers, which take few bytes where they rise.

ghost use Rattle.std.specs.Prelude.{◌≡◌, All, ◌-◌, ◌++◌, ◌∷◌, [], length, slice_get, take, if◌then◌else◌, IfOk, OnOk, OnErr};
ghost use Rattle.pres_ids.specs.Numbers.{IsNumber};
ghost use Rattle.pres_retry.specs.Offsets.{offsets_of, numbers_from};

use pres_ids::Number;
use std::alloc::{AllocError, Global};
use std::marker::Model;

/// How far numbers are from a first one, each in as many bytes as one of them needs.
#[derive(Drop)]
pub(crate) enum Offsets {
    TwoBytes(Vec<u16>),
    FourBytes(Vec<u32>),
    EightBytes(Vec<u64>),
}

// The offsets in four bytes each. Its room doubles up to that of a full shelf.
fn in_four_bytes(alloc: Global, offsets: &[u16]) -> Result<Vec<u32>, AllocError>
    ensures { IfOk result (λ wide. wide.items ≡ offsets.now) }
{
    let mut wide = Vec::new(alloc);
    for offset in offsets {
        wide.push(u32::from(*offset))?;
    }
    Ok(wide)
}

impl Offsets {
    // How many there are.
    fn count(&self) -> usize
        ensures { result ≡ length (offsets_of self.now) }
    {
        match self {
            Offsets::TwoBytes(offsets) => offsets.len(),
            Offsets::FourBytes(offsets) => offsets.len(),
            Offsets::EightBytes(offsets) => offsets.len(),
        }
    }

    // The offset at the place, none past the last.
    fn get(&self, place: usize) -> Option<u64>
        ensures { result ≡ slice_get (offsets_of self.now) place }
    {
        match self {
            Offsets::TwoBytes(offsets) => offsets.get(place).copied().map(u64::from),
            Offsets::FourBytes(offsets) => offsets.get(place).copied().map(u64::from),
            Offsets::EightBytes(offsets) => offsets.get(place).copied(),
        }
    }

    // Takes the last one off.
    fn pop(&mut self)
        ensures { offsets_of self.new ≡ take (length (offsets_of self.old) - 1) (offsets_of self.old) }
    {
        match self {
            Offsets::TwoBytes(offsets) => drop(offsets.pop()),
            Offsets::FourBytes(offsets) => drop(offsets.pop()),
            Offsets::EightBytes(offsets) => drop(offsets.pop()),
        }
    }

    // Appends the offset. Those of two bytes widen to four, and it is false where that is too few:
    // then nothing has changed, as at a refusal.
    fn push(&mut self, alloc: Global, offset: u64) -> Result<bool, AllocError>
        ensures pushed { IfOk result (λ fits. offsets_of self.new
            ≡ (if fits then offsets_of self.old ++ offset ∷ [] else offsets_of self.old)) }
        ensures err { OnErr result (offsets_of self.new ≡ offsets_of self.old) }
    {
        match self {
            Offsets::TwoBytes(offsets) => {
                if let Ok(short) = u16::try_from(offset) {
                    offsets.push(short)?;
                    return Ok(true);
                }
                let Ok(long) = u32::try_from(offset) else {
                    return Ok(false);
                };
                let mut wide = in_four_bytes(alloc, offsets.as_slice())?;
                wide.push(long)?;
                *self = Offsets::FourBytes(wide);
            }
            Offsets::FourBytes(offsets) => {
                let Ok(long) = u32::try_from(offset) else {
                    return Ok(false);
                };
                offsets.push(long)?;
            }
            Offsets::EightBytes(offsets) => offsets.push(offset)?,
        }
        Ok(true)
    }
}

// Where the offsets start once the number stands among them: the first number of a shelf.
fn start_with(start: u64, offsets: &Offsets, number: u64) -> u64
    ensures { numbers_from result offsets.now ≡ numbers_from start offsets.now }
{
    if offsets.count() == 0 { number } else { start }
}

// Appends the number as its offset. It is false where the number is below the first or too far past
// it: then nothing has changed, as at a refusal.
fn append(alloc: Global, start: u64, offsets: &mut Offsets, number: u64) -> Result<bool, AllocError>
    ensures pushed { IfOk result (λ fits. numbers_from start offsets.new
        ≡ (if fits then numbers_from start offsets.old ++ number ∷ []
        else numbers_from start offsets.old)) }
    ensures err { OnErr result
        (numbers_from start offsets.new ≡ numbers_from start offsets.old) }
{
    match number.checked_sub(start) {
        Some(offset) => offsets.push(alloc, offset),
        None => Ok(false),
    }
}

// The numbers in eight bytes each.
fn in_eight_bytes(alloc: Global, start: u64, offsets: &Offsets) -> Result<Vec<u64>, AllocError>
    requires { All IsNumber (numbers_from start offsets.now) }
    ensures { IfOk result (λ numbers. numbers.items ≡ numbers_from start offsets.now) }
{
    let mut numbers = Vec::new(alloc);
    for place in 0..offsets.count() {
        let Some(offset) = offsets.get(place) else {
            unreachable!()
        };
        numbers.push(start + offset)?;
    }
    Ok(numbers)
}

/// Numbers in order. Contracts see the list of them. It holds how far each is from the first, in two
/// or four bytes, and takes eight for each where a number is too far from the first, or below it.
#[derive(Drop)]
pub(crate) struct Shelf {
    // The first number, and 0 where the offsets are the numbers.
    start: u64,
    offsets: Offsets,
}

impl Model for Shelf {
    ghost use Rattle.std.specs.Prelude.{List, ℕ, All};
    ghost use Rattle.pres_ids.specs.Numbers.{IsNumber};
    ghost use Rattle.pres_retry.specs.Offsets.{numbers_from};

    ghost Value = { List ℕ };

    ghost view = { λ s. numbers_from s.start s.offsets };

    ghost invariant = { λ s. All IsNumber (numbers_from s.start s.offsets) };
}

impl Shelf {
    /// A shelf without numbers. It takes no memory.
    pub(crate) fn new(alloc: Global) -> Shelf
        ensures { result ≡ [] }
    {
        Shelf {
            start: 0,
            offsets: Offsets::TwoBytes(Vec::new(alloc)),
        }
    }

    /// How many numbers it holds.
    pub(crate) fn count(&self) -> usize
        ensures { result ≡ length self.now }
    {
        self.offsets.count()
    }

    /// The number at the place, none past the last.
    pub(crate) fn get(&self, place: usize) -> Option<Number>
        ensures { result ≡ slice_get self.now place }
    {
        let offset = self.offsets.get(place)?;
        Number::new(self.start + offset)
    }

    /// Takes the last number off.
    pub(crate) fn pop(&mut self)
        ensures { self.new ≡ take (length self.old - 1) self.old }
    {
        self.offsets.pop();
    }

    /// Appends the number. Memory is the one refusal, and then nothing has changed.
    pub(crate) fn push(&mut self, alloc: Global, number: Number) -> Result<(), AllocError>
        ensures pushed { OnOk result (self.new ≡ self.old ++ number ∷ []) }
        ensures err { OnErr result (self.new ≡ self.old) }
    {
        let value = number.get();
        self.start = start_with(self.start, &self.offsets, value);
        if append(alloc, self.start, &mut self.offsets, value)? {
            return Ok(());
        }
        let mut numbers = in_eight_bytes(alloc, self.start, &self.offsets)?;
        numbers.push(value)?;
        self.start = 0;
        self.offsets = Offsets::EightBytes(numbers);
        Ok(())
    }
}
