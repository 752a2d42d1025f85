//! Why a text is refused as a message.

ghost use Rattle.std.specs.Prelude.{◌≡◌};
ghost use Rattle.pres_wire.specs.Faults.{number_of, name_of, field_name};

use pres_write::WriteFault;
use std::alloc::AllocError;
use std::fmt;
use thiserror::Error;

/// A field of a message.
#[derive(Clone, Copy, Debug, PartialEq, Eq)]
pub enum Field {
    /// The session: `[client, incarnation, attempt]`.
    Session,
    /// The message's number in its session.
    Q,
    /// The number of a write among those of its client.
    N,
    /// The operation.
    Op,
    /// The path.
    Path,
    /// The number of a message among those that a session is sent.
    R,
    /// The server's number.
    Z,
    /// The server's number at which a write stands.
    Done,
    /// How many writes of the client there are.
    Ops,
    /// The outcome of a write.
    Out,
    /// The value at a path.
    Value,
    /// Values at paths.
    Values,
    /// Why a session ended, or which limit a message met.
    Why,
    /// Why a message was refused.
    Code,
    /// The client's last stamp.
    Last,
}

impl Field {
    /// Its name in JSON.
    pub fn name(self) -> &'static str
        ensures { result.now ≡ field_name self }
    {
        match self {
            Field::Session => "s",
            Field::Q => "q",
            Field::N => "n",
            Field::Op => "op",
            Field::Path => "path",
            Field::R => "r",
            Field::Z => "z",
            Field::Done => "done",
            Field::Ops => "ops",
            Field::Out => "out",
            Field::Value => "value",
            Field::Values => "values",
            Field::Why => "why",
            Field::Code => "code",
            Field::Last => "last",
        }
    }
}

impl fmt::Display for Field {
    fn fmt<W: fmt::Write>(&self, f: &mut fmt::Formatter<W>) -> fmt::Result {
        f.write_str(self.name())
    }
}

/// Why a text is refused as a message.
#[derive(Clone, Copy, Debug, Error, PartialEq, Eq)]
pub enum WireFault {
    /// An allocation was refused.
    #[error("out of memory")]
    Memory,
    /// The text is no JSON (RFC 8259).
    #[error("not JSON")]
    NotJson,
    /// It has more than 1,048,576 bytes.
    #[error("more than 1048576 bytes")]
    TooLong,
    /// It is no object with a word for a message as its `m`.
    #[error("not a message")]
    NoSuchMessage,
    /// The first field, in the order of the message's table, that is missing or wrong.
    #[error("the field {0} is missing or wrong")]
    Field(Field),
    /// The operation that the message carries is refused.
    #[error("{0}")]
    Write(WriteFault),
}

impl WireFault {
    /// The number that programs give.
    pub fn number(self) -> u8
        ensures { result ≡ number_of self }
    {
        match self {
            WireFault::Memory => 1,
            WireFault::NotJson => 2,
            WireFault::TooLong => 3,
            WireFault::NoSuchMessage => 4,
            WireFault::Field(_) => 5,
            WireFault::Write(_) => 6,
        }
    }

    /// The name that programs print.
    pub fn name(self) -> &'static str
        ensures { result.now ≡ name_of self }
    {
        match self {
            WireFault::Memory => "Memory",
            WireFault::NotJson => "NotJson",
            WireFault::TooLong => "TooLong",
            WireFault::NoSuchMessage => "NoSuchMessage",
            WireFault::Field(_) => "Field",
            WireFault::Write(_) => "Write",
        }
    }
}

impl From<AllocError> for WireFault {
    ghost use Rattle.std.specs.Prelude.{◌≡◌};
    ghost use Rattle.pres_wire.specs.declared.fault.WireFault.TheVariants.{Memory};

    ghost from_gives = { λ _ e. e ≡ Memory };

    fn from(_refused: AllocError) -> WireFault {
        WireFault::Memory
    }
}
