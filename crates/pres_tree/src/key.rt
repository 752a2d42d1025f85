//! Keys: short texts without the characters that paths and placeholders use.

ghost use Rattle.std.specs.Prelude.{◌≡◌, ◌⊎◌, IsTrue, IfOk, MatchResult, MatchOption, Some, None};
ghost use Rattle.std.specs.List.{list_any};
ghost use Rattle.std.specs.Fmt.{decimal};
ghost use Rattle.pres_tree.specs.Keys.{is_key, is_banned, key_fault};
ghost use Rattle.pres_tree.specs.declared.fault.TreeFault.TheVariants.{Memory};

use crate::fault::TreeFault;
use crate::text::Text;
use std::alloc::{AllocError, Global};
use std::fmt;
use std::marker::Model;

// The bytes of the longest key.
const LONGEST: usize = 768;

/// A key: 1 to 768 bytes of UTF-8, without control characters, byte 127 and `.` `$` `#` `[` `]`
/// `/`. Contracts see it as its bytes.
#[derive(Drop, PartialEq, Eq, PartialOrd, Ord)]
pub struct Key {
    text: Text,
}

impl Model for Key {
    ghost use Rattle.std.specs.Prelude.{ℕ, List, IsTrue};
    ghost use Rattle.pres_tree.specs.Keys.{is_key};

    ghost Value = { List ℕ };

    ghost view = { λ k. k.text };

    ghost invariant = { λ k. IsTrue (is_key k.text) };

    ghost inverse = { λ bytes. record { text = bytes } };
}

// Whether no key has the byte.
fn is_banned(byte: u8) -> bool
    ensures { result ≡ is_banned byte }
{
    matches!(byte, 0..=31 | 127 | b'.' | b'$' | b'#' | b'[' | b']' | b'/')
}

fn has_banned(text: &str) -> bool
    ensures { result ≡ list_any is_banned text.now }
{
    text.bytes().any(is_banned)
}

// What is wrong with the text as a key, the first that applies.
fn fault_of(text: &str) -> Option<TreeFault>
    ensures { result ≡ key_fault text.now }
{
    if text.is_empty() {
        return Some(TreeFault::EmptyKey);
    }
    if text.len() > LONGEST {
        return Some(TreeFault::LongKey);
    }
    if has_banned(text) {
        return Some(TreeFault::BadKey);
    }
    None
}

impl Key {
    /// The key of a text. Refused, in this order: EmptyKey, LongKey, BadKey, Memory.
    pub fn parse(alloc: Global, text: &str) -> Result<Key, TreeFault>
        ensures key { MatchResult result
            (λ k. (k ≡ text.now) × (key_fault text.now ≡ None))
            (λ e. ((e ≡ Memory) × (key_fault text.now ≡ None)) ⊎ (key_fault text.now ≡ Some e)) }
    {
        if let Some(fault) = fault_of(text) {
            return Err(fault);
        }
        let text = Text::from_str(alloc, text)?;
        Ok(Key { text })
    }

    // Refuses the text where it is no key.
    pub(crate) fn check(text: &str) -> Result<(), TreeFault>
        ensures { MatchResult result
            (λ _. key_fault text.now ≡ None)
            (λ e. key_fault text.now ≡ Some e) }
    {
        match fault_of(text) {
            Some(fault) => Err(fault),
            None => Ok(()),
        }
    }

    // The key of an array's item.
    pub(crate) fn of_index(alloc: Global, index: usize) -> Result<Key, AllocError>
        ensures { IfOk result (λ k. k ≡ decimal index) }
    {
        let text = format!(in alloc; "{index}")?;
        Ok(Key {
            text: Text::of(text),
        })
    }

    /// Its text.
    pub fn text(&self) -> &str
        ensures text { result.now ≡ self.now }
        ensures key { IsTrue (is_key self.now) }
    {
        self.text.as_str()
    }

    /// An equal key.
    pub fn copy(&self, alloc: Global) -> Result<Key, AllocError>
        ensures { IfOk result (λ k. k ≡ self.now) }
    {
        Ok(Key {
            text: self.text.copy(alloc)?,
        })
    }
}

impl fmt::Display for Key {
    fn fmt<W: fmt::Write>(&self, f: &mut fmt::Formatter<W>) -> fmt::Result {
        f.write_str(self.text())
    }
}
