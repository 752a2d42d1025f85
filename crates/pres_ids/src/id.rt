//! Clients, their sessions, and why a session ended.

ghost use Rattle.std.specs.Prelude.{◌≡◌, IsTrue, IfOk, MatchResult, Some, if◌then◌else◌};
ghost use Rattle.std.specs.List.{list_all};
ghost use Rattle.pres_ids.specs.Forms.{why_word, why_of};
ghost use Rattle.pres_ids.specs.Ids.{is_id_byte, is_client_id, is_earlier, stamp_of};
ghost use Rattle.pres_ids.specs.declared.id.IdFault.TheVariants.{Memory, NotAnId};

use crate::number::Number;
use pres_tree::Text;
use std::alloc::{AllocError, Global};
use std::fmt;
use std::marker::Model;
use thiserror::Error;

// The bytes of the longest client id.
const LONGEST: usize = 128;

/// Why a text is refused as a client id.
#[derive(Clone, Copy, Debug, Error, PartialEq, Eq)]
pub enum IdFault {
    /// An allocation was refused.
    #[error("out of memory")]
    Memory,
    /// It isn't 1 to 128 bytes of `A-Z` `a-z` `0-9` `_` `-`.
    #[error("not a client id")]
    NotAnId,
}

impl From<AllocError> for IdFault {
    ghost use Rattle.std.specs.Prelude.{◌≡◌};
    ghost use Rattle.pres_ids.specs.declared.id.IdFault.TheVariants.{Memory};

    ghost from_gives = { λ _ e. e ≡ Memory };

    fn from(_refused: AllocError) -> IdFault {
        IdFault::Memory
    }
}

/// A client id: 1 to 128 bytes of `A-Z` `a-z` `0-9` `_` `-`. Contracts see it as its bytes.
#[derive(Drop, PartialEq, Eq, PartialOrd, Ord)]
pub struct ClientId {
    text: Text,
}

impl Model for ClientId {
    ghost use Rattle.std.specs.Prelude.{ℕ, List, IsTrue};

    ghost Value = { List ℕ };

    ghost use Rattle.pres_ids.specs.Ids.{is_client_id};

    ghost view = { λ c. c.text };

    ghost invariant = { λ c. IsTrue (is_client_id c.text) };

    ghost inverse = { λ bytes. record { text = bytes } };
}

// Whether a client id may have the byte.
fn is_id_byte(byte: u8) -> bool
    ensures { result ≡ is_id_byte byte }
{
    byte.is_ascii_alphanumeric() || matches!(byte, b'_' | b'-')
}

fn has_id_bytes(text: &str) -> bool
    ensures { result ≡ list_all is_id_byte text.now }
{
    text.bytes().all(is_id_byte)
}

// Whether the text is a client id.
fn is_client_id(text: &str) -> bool
    ensures { result ≡ is_client_id text.now }
{
    !text.is_empty() && text.len() <= LONGEST && has_id_bytes(text)
}

impl ClientId {
    /// The client id of a text. Refused, in this order: NotAnId, Memory.
    pub fn parse(alloc: Global, text: &str) -> Result<ClientId, IdFault>
        ensures { MatchResult result
            (λ id. (id ≡ text.now) × IsTrue (is_client_id text.now))
            (λ e. e ≡ (if is_client_id text.now then Memory else NotAnId)) }
    {
        if !is_client_id(text) {
            return Err(IdFault::NotAnId);
        }
        let text = Text::from_str(alloc, text)?;
        Ok(ClientId { text })
    }

    /// Its text.
    pub fn text(&self) -> &str
        ensures text { result.now ≡ self.now }
        ensures client_id { IsTrue (is_client_id self.now) }
    {
        self.text.as_str()
    }

    /// An equal client id.
    pub fn copy(&self, alloc: Global) -> Result<ClientId, AllocError>
        ensures { IfOk result (λ id. id ≡ self.now) }
    {
        Ok(ClientId {
            text: self.text.copy(alloc)?,
        })
    }
}

impl fmt::Display for ClientId {
    fn fmt<W: fmt::Write>(&self, f: &mut fmt::Formatter<W>) -> fmt::Result {
        f.write_str(self.text())
    }
}

/// Which session of its client a session is: a client counts its starts (incarnations), and in
/// each the sessions that it asks for (attempts).
#[derive(Clone, Copy, Debug, PartialEq, Eq, PartialOrd, Ord)]
pub struct Stamp {
    pub incarnation: Number,
    pub attempt: Number,
}

impl Stamp {
    /// Whether it comes before the other: by incarnation, then by attempt.
    pub fn is_earlier(&self, other: &Stamp) -> bool
        ensures { result ≡ is_earlier self.now other.now }
    {
        self < other
    }
}

/// The incarnation and the attempt, as `1.2`.
impl fmt::Display for Stamp {
    fn fmt<W: fmt::Write>(&self, f: &mut fmt::Formatter<W>) -> fmt::Result {
        write!(f, "{}.{}", self.incarnation, self.attempt)
    }
}

/// A session: the client, and which of its sessions it is. Ordered by client, then by stamp.
#[derive(Drop, PartialEq, Eq, PartialOrd, Ord)]
pub struct SessionId {
    pub client: ClientId,
    pub incarnation: Number,
    pub attempt: Number,
}

impl SessionId {
    /// The client's session with this stamp.
    pub fn of(client: ClientId, stamp: Stamp) -> SessionId
        ensures client { result.client ≡ client }
        ensures stamp { stamp_of result ≡ stamp }
    {
        SessionId {
            client,
            incarnation: stamp.incarnation,
            attempt: stamp.attempt,
        }
    }

    /// Which session of its client it is.
    pub fn stamp(&self) -> Stamp
        ensures { result ≡ stamp_of self.now }
    {
        Stamp {
            incarnation: self.incarnation,
            attempt: self.attempt,
        }
    }

    /// An equal session id.
    pub fn copy(&self, alloc: Global) -> Result<SessionId, AllocError>
        ensures { IfOk result (λ session. session ≡ self.now) }
    {
        Ok(SessionId::of(self.client.copy(alloc)?, self.stamp()))
    }
}

/// The client and the stamp, as `alice/1.2`.
impl fmt::Display for SessionId {
    fn fmt<W: fmt::Write>(&self, f: &mut fmt::Formatter<W>) -> fmt::Result {
        write!(f, "{}/{}", self.client, self.stamp())
    }
}

/// Why a session ended.
#[derive(Clone, Copy, Debug, PartialEq, Eq)]
pub enum Why {
    /// The client said goodbye.
    Bye,
    /// Its connection was lost.
    Lost,
    /// Nothing was heard of it for the length of a lease.
    Lease,
    /// A newer session of the client took its place.
    Superseded,
    /// It didn't take its messages in time.
    Slow,
    /// The server was started again.
    Restart,
}

impl Why {
    /// The word for it.
    pub fn word(self) -> &'static str
        ensures word { result.now ≡ why_word self }
        ensures form { why_of (why_word self) ≡ Some self }
    {
        match self {
            Why::Bye => "bye",
            Why::Lost => "lost",
            Why::Lease => "lease",
            Why::Superseded => "superseded",
            Why::Slow => "slow",
            Why::Restart => "restart",
        }
    }
}
