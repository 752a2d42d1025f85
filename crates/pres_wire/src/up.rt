//! Messages to the server.

ghost use Rattle.std.specs.Prelude.{◌≡◌, ◌<◌, ◌≤◌, ◌⊎◌, ◌∷◌, [], ℕ, List, Result, IfOk, IsErrOf, MatchResult, Ok, Err, Some, codes, length, string_bytes};
ghost use Rattle.serde_json.specs.Data.{depth};
ghost use Rattle.serde_json.specs.View.{view};
ghost use Rattle.serde_json.specs.Written.{compact_text};
ghost use Rattle.pres_write.specs.OpForms.{op_json};
ghost use Rattle.pres_write.specs.Unconditionals.{as_op, unconditional_read};
ghost use Rattle.pres_ids.specs.Forms.{whole, session_json, message_number, session_of};
ghost use Rattle.pres_wire.specs.Fields.{message, path_json, path_of};
ghost use Rattle.pres_wire.specs.Messages.{session_in, q_in};
ghost use Rattle.pres_wire.specs.UpForms.{and_then, number_field, path_field, up_json, up_read, hello_read, op_message_read, bye_read, left_read, cancel_read, beat_read, on_read, off_read, decoded, longest_text};
ghost use Rattle.pres_wire.specs.declared.up.Up.{Up};
ghost use Rattle.pres_wire.specs.declared.fault.Field.TheVariants as field;
ghost use Rattle.pres_wire.specs.declared.fault.WireFault.{WireFault};
ghost use Rattle.pres_wire.specs.declared.fault.WireFault.TheVariants.{Memory, TooLong};

use crate::fault::{Field, WireFault};
use crate::field::{left_field, number_field, op_field, path_field, session_field};
use crate::form::MessageForm;
use crate::part::op_value;
use pres_ids::{Number, SessionId};
use pres_tree::Path;
use pres_write::{Op, Unconditional};
use serde_json::Value;
use std::alloc::{AllocError, Global};

/// The bytes of the longest text of a message that is read.
pub const MAX_TEXT_BYTES: usize = 1_048_576;

/// A message from a client to the server.
#[derive(Drop)]
pub enum Up {
    /// Opens the session.
    Hello {
        session: SessionId,
    },
    /// The client's write `n`, as message `q` of the session.
    Op {
        session: SessionId,
        q: Number,
        n: Number,
        op: Op,
    },
    /// Ends the session, as its message `q`.
    Bye {
        session: SessionId,
        q: Number,
    },
    /// Registers the operation for the end of the session, as its message `q`.
    Left {
        session: SessionId,
        q: Number,
        op: Unconditional,
    },
    /// Cancels what was registered at the path and below it, as message `q` of the session.
    Cancel {
        session: SessionId,
        q: Number,
        path: Path,
    },
    /// Says that the client is there.
    Beat {
        session: SessionId,
    },
    /// Listens to the path, as message `q` of the session.
    On {
        session: SessionId,
        q: Number,
        path: Path,
    },
    /// Listens no more to the path, as message `q` of the session.
    Off {
        session: SessionId,
        q: Number,
        path: Path,
    },
}

impl Up {
    /// The session that it names.
    pub fn session(&self) -> &SessionId
        ensures { result.now ≡ session_in self.now }
    {
        match self {
            Up::Hello { session } => session,
            Up::Op { session, .. } => session,
            Up::Bye { session, .. } => session,
            Up::Left { session, .. } => session,
            Up::Cancel { session, .. } => session,
            Up::Beat { session } => session,
            Up::On { session, .. } => session,
            Up::Off { session, .. } => session,
        }
    }

    /// Its number in its session, none in a Hello and a Beat.
    pub fn q(&self) -> Option<Number>
        ensures { result ≡ q_in self.now }
    {
        match self {
            Up::Hello { .. } | Up::Beat { .. } => None,
            Up::Op { q, .. } => Some(*q),
            Up::Bye { q, .. } => Some(*q),
            Up::Left { q, .. } => Some(*q),
            Up::Cancel { q, .. } => Some(*q),
            Up::On { q, .. } => Some(*q),
            Up::Off { q, .. } => Some(*q),
        }
    }

    /// An equal message.
    pub fn copy(&self, alloc: Global) -> Result<Up, AllocError>
        ensures { IfOk result (λ made. made ≡ self.now) }
    {
        let session = self.session().copy(alloc)?;
        match self {
            Up::Hello { .. } => Ok(Up::Hello { session }),
            Up::Op { q, n, op, .. } => Ok(Up::Op {
                session,
                q: *q,
                n: *n,
                op: op.copy(alloc)?,
            }),
            Up::Bye { q, .. } => Ok(Up::Bye { session, q: *q }),
            Up::Left { q, op, .. } => Ok(Up::Left {
                session,
                q: *q,
                op: op.copy(alloc)?,
            }),
            Up::Cancel { q, path, .. } => Ok(Up::Cancel {
                session,
                q: *q,
                path: path.copy(alloc)?,
            }),
            Up::Beat { .. } => Ok(Up::Beat { session }),
            Up::On { q, path, .. } => Ok(Up::On {
                session,
                q: *q,
                path: path.copy(alloc)?,
            }),
            Up::Off { q, path, .. } => Ok(Up::Off {
                session,
                q: *q,
                path: path.copy(alloc)?,
            }),
        }
    }

    /// The message of a text. Refused, in this order: TooLong, for which nothing is allocated,
    /// NotJson, NoSuchMessage, Field of the first field that is missing or wrong (session, q, n,
    /// and op or path; a transaction is no operation of a Left), Write. Unknown names are ignored.
    pub fn decode(alloc: Global, text: &str) -> Result<Up, WireFault>
        ensures message { MatchResult result
            (λ m. decoded text.now ≡ Ok m)
            (λ e. (e ≡ Memory) ⊎ (decoded text.now ≡ Err e)) }
        // a text that is too long takes no memory
        ensures too_long { longest_text < length text.now → IsErrOf result TooLong }
    {
        if text.len() > MAX_TEXT_BYTES {
            return Err(WireFault::TooLong);
        }
        match Value::from_str(alloc, text) {
            Ok(value) => Up::from_value(alloc, &value),
            Err(error) => if error.is_memory() {
                Err(WireFault::Memory)
            } else {
                Err(WireFault::NotJson)
            },
        }
    }

    // The message of a JSON value.
    fn from_value(alloc: Global, value: &Value) -> Result<Up, WireFault>
        ensures { MatchResult result
            (λ m. up_read (view value.now) ≡ Ok m)
            (λ e. (e ≡ Memory) ⊎ (up_read (view value.now) ≡ Err e)) }
    {
        let Some(word) = value.get("m").and_then(Value::as_str) else {
            return Err(WireFault::NoSuchMessage);
        };
        match word {
            "hello" => read_hello(alloc, value),
            "op" => read_op(alloc, value),
            "bye" => read_bye(alloc, value),
            "left" => read_left(alloc, value),
            "cancel" => read_cancel(alloc, value),
            "beat" => read_beat(alloc, value),
            "on" => read_on(alloc, value),
            "off" => read_off(alloc, value),
            _ => Err(WireFault::NoSuchMessage),
        }
    }

    /// The JSON text of the message. A text of at most 1,048,576 bytes is decoded as an equal
    /// message.
    pub fn encode(&self, alloc: Global) -> Result<String, AllocError>
        ensures text { IfOk result (λ t. string_bytes t ≡ compact_text (up_json self.now)) }
        ensures form { IfOk result (λ _. up_read (up_json self.now) ≡ Ok self.now) }
        ensures reads_back { IfOk result (λ t. length (string_bytes t) ≤ longest_text
            → decoded (string_bytes t) ≡ Ok self.now) }
    {
        self.to_value(alloc)?.to_string(alloc)
    }

    // The JSON value of the message, which is read as the message, and nests few levels.
    fn to_value(&self, alloc: Global) -> Result<Value, AllocError>
        ensures json { IfOk result (λ made. view made ≡ up_json self.now) }
        ensures reads_back { IfOk result (λ _. up_read (up_json self.now) ≡ Ok self.now) }
        ensures low { IfOk result (λ _. depth (up_json self.now) ≤ 127) }
    {
        match self {
            Up::Hello { session } => bare_value(alloc, "hello", session),
            Up::Op { session, q, n, op } => operation_value(alloc, session, *q, *n, op),
            Up::Bye { session, q } => bye_value(alloc, session, *q),
            Up::Left { session, q, op } => left_value(alloc, session, *q, op),
            Up::Cancel { session, q, path } => path_value(alloc, "cancel", session, *q, path),
            Up::Beat { session } => bare_value(alloc, "beat", session),
            Up::On { session, q, path } => path_value(alloc, "on", session, *q, path),
            Up::Off { session, q, path } => path_value(alloc, "off", session, *q, path),
        }
    }
}

fn read_hello(alloc: Global, message: &Value) -> Result<Up, WireFault>
    ensures { MatchResult result
        (λ m. hello_read (view message.now) ≡ Ok m)
        (λ e. (e ≡ Memory) ⊎ (hello_read (view message.now) ≡ Err e)) }
{
    let session = session_field(alloc, message)?;
    Ok(Up::Hello { session })
}

fn read_op(alloc: Global, message: &Value) -> Result<Up, WireFault>
    ensures { MatchResult result
        (λ m. op_message_read (view message.now) ≡ Ok m)
        (λ e. (e ≡ Memory) ⊎ (op_message_read (view message.now) ≡ Err e)) }
{
    let session = session_field(alloc, message)?;
    let q = number_field(message, Field::Q)?;
    let n = number_field(message, Field::N)?;
    let op = op_field(alloc, message)?;
    Ok(Up::Op { session, q, n, op })
}

fn read_bye(alloc: Global, message: &Value) -> Result<Up, WireFault>
    ensures { MatchResult result
        (λ m. bye_read (view message.now) ≡ Ok m)
        (λ e. (e ≡ Memory) ⊎ (bye_read (view message.now) ≡ Err e)) }
{
    let session = session_field(alloc, message)?;
    let q = number_field(message, Field::Q)?;
    Ok(Up::Bye { session, q })
}

fn read_left(alloc: Global, message: &Value) -> Result<Up, WireFault>
    ensures { MatchResult result
        (λ m. left_read (view message.now) ≡ Ok m)
        (λ e. (e ≡ Memory) ⊎ (left_read (view message.now) ≡ Err e)) }
{
    let session = session_field(alloc, message)?;
    let q = number_field(message, Field::Q)?;
    let op = left_field(alloc, message)?;
    Ok(Up::Left { session, q, op })
}

// The number and the path of a message, as they are read after its session.
fn place_parts(alloc: Global, message: &Value) -> Result<(Number, Path), WireFault>
    ensures { MatchResult result
        (λ found. (number_field field.Q (view message.now) ≡ Ok found.0)
        × (path_field (view message.now) ≡ Ok found.1))
        (λ e. (e ≡ Memory) ⊎ ((f : ℕ → List (List ℕ) → Result Up WireFault)
        → and_then (number_field field.Q (view message.now)) (λ q.
        and_then (path_field (view message.now)) (λ path. f q path)) ≡ Err e)) }
{
    let q = number_field(message, Field::Q)?;
    let path = path_field(alloc, message)?;
    Ok((q, path))
}

fn read_cancel(alloc: Global, message: &Value) -> Result<Up, WireFault>
    ensures { MatchResult result
        (λ m. cancel_read (view message.now) ≡ Ok m)
        (λ e. (e ≡ Memory) ⊎ (cancel_read (view message.now) ≡ Err e)) }
{
    let session = session_field(alloc, message)?;
    match place_parts(alloc, message) {
        Ok((q, path)) => Ok(Up::Cancel { session, q, path }),
        Err(fault) => {
            drop(session);
            Err(fault)
        }
    }
}

fn read_beat(alloc: Global, message: &Value) -> Result<Up, WireFault>
    ensures { MatchResult result
        (λ m. beat_read (view message.now) ≡ Ok m)
        (λ e. (e ≡ Memory) ⊎ (beat_read (view message.now) ≡ Err e)) }
{
    let session = session_field(alloc, message)?;
    Ok(Up::Beat { session })
}

fn read_on(alloc: Global, message: &Value) -> Result<Up, WireFault>
    ensures { MatchResult result
        (λ m. on_read (view message.now) ≡ Ok m)
        (λ e. (e ≡ Memory) ⊎ (on_read (view message.now) ≡ Err e)) }
{
    let session = session_field(alloc, message)?;
    match place_parts(alloc, message) {
        Ok((q, path)) => Ok(Up::On { session, q, path }),
        Err(fault) => {
            drop(session);
            Err(fault)
        }
    }
}

fn read_off(alloc: Global, message: &Value) -> Result<Up, WireFault>
    ensures { MatchResult result
        (λ m. off_read (view message.now) ≡ Ok m)
        (λ e. (e ≡ Memory) ⊎ (off_read (view message.now) ≡ Err e)) }
{
    let session = session_field(alloc, message)?;
    match place_parts(alloc, message) {
        Ok((q, path)) => Ok(Up::Off { session, q, path }),
        Err(fault) => {
            drop(session);
            Err(fault)
        }
    }
}

// The JSON value of a message of this word that has no field but its session.
fn bare_value(alloc: Global, word: &str, session: &SessionId) -> Result<Value, AllocError>
    ensures json { IfOk result (λ made. view made
        ≡ message word.now ((codes "s", session_json session.now) ∷ [])) }
    ensures reads_back { IfOk result (λ _.
        session_of (session_json session.now) ≡ Some session.now) }
{
    MessageForm::new(alloc).message(alloc, word, session)
}

// The JSON value of a Bye.
fn bye_value(alloc: Global, session: &SessionId, q: Number) -> Result<Value, AllocError>
    ensures json { IfOk result (λ made. view made ≡ up_json (Up.Bye session.now q)) }
    ensures reads_back { IfOk result (λ _.
        up_read (up_json (Up.Bye session.now q)) ≡ Ok (Up.Bye session.now q)) }
{
    let form = MessageForm::new(alloc).number(alloc, "q", q)?;
    form.message(alloc, "bye", session)
}

// The JSON value of an Op.
fn operation_value(
    alloc: Global,
    session: &SessionId,
    q: Number,
    n: Number,
    op: &Op,
) -> Result<Value, AllocError>
    ensures json { IfOk result (λ made. view made ≡ up_json (Up.Op session.now q n op.now)) }
    ensures reads_back { IfOk result (λ _.
        up_read (up_json (Up.Op session.now q n op.now)) ≡ Ok (Up.Op session.now q n op.now)) }
    ensures low { IfOk result (λ _. depth (up_json (Up.Op session.now q n op.now)) ≤ 127) }
{
    let op = op_value(alloc, op)?;
    let form = MessageForm::new(alloc).value(alloc, "op", op)?;
    let form = form.number(alloc, "n", n)?.number(alloc, "q", q)?;
    form.message(alloc, "op", session)
}

// The JSON value of a Left.
fn left_value(
    alloc: Global,
    session: &SessionId,
    q: Number,
    op: &Unconditional,
) -> Result<Value, AllocError>
    ensures json { IfOk result (λ made. view made ≡ up_json (Up.Left session.now q op.now)) }
    ensures reads_back { IfOk result (λ _.
        up_read (up_json (Up.Left session.now q op.now)) ≡ Ok (Up.Left session.now q op.now)) }
    ensures low { IfOk result (λ _. depth (up_json (Up.Left session.now q op.now)) ≤ 127) }
{
    let op = unconditional_value(alloc, op)?;
    let form = MessageForm::new(alloc).value(alloc, "op", op)?;
    let form = form.number(alloc, "q", q)?;
    form.message(alloc, "left", session)
}

// The JSON value of a message of this word that has a path.
fn path_value(
    alloc: Global,
    word: &str,
    session: &SessionId,
    q: Number,
    path: &Path,
) -> Result<Value, AllocError>
    ensures json { IfOk result (λ made. view made ≡ message word.now
        ((codes "s", session_json session.now) ∷ (codes "q", whole q)
        ∷ (codes "path", path_json path.now) ∷ [])) }
    ensures session { IfOk result (λ _.
        session_of (session_json session.now) ≡ Some session.now) }
    ensures q { IfOk result (λ _. message_number (whole q) ≡ Some q) }
    ensures path { IfOk result (λ _. path_of (path_json path.now) ≡ Some path.now) }
{
    let text = Value::String(path.text(alloc)?);
    let form = MessageForm::new(alloc).value(alloc, "path", text)?;
    let form = form.number(alloc, "q", q)?;
    form.message(alloc, word, session)
}

// The JSON value of an operation of a Left, which is read as the operation, and nests few levels.
fn unconditional_value(alloc: Global, op: &Unconditional) -> Result<Value, AllocError>
    ensures json { IfOk result (λ made. view made ≡ op_json (as_op op.now)) }
    ensures reads_back { IfOk result (λ _.
        unconditional_read (op_json (as_op op.now)) ≡ Ok (Some op.now)) }
    ensures low { IfOk result (λ _. depth (op_json (as_op op.now)) ≤ 64) }
{
    pres_write::unconditional_value(alloc, op)
}
