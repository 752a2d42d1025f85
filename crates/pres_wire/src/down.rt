//! Messages to a client.

ghost use Rattle.std.specs.Prelude.{◌≡◌, ◌≤◌, ◌⊎◌, IfOk, IfSome, MatchResult, Ok, Err, Some, option_map, string_bytes};
ghost use Rattle.serde_json.specs.Data.{depth};
ghost use Rattle.serde_json.specs.Read.{read};
ghost use Rattle.serde_json.specs.View.{view};
ghost use Rattle.serde_json.specs.Written.{compact_text};
ghost use Rattle.pres_wire.specs.Messages.{session_for, number_in};
ghost use Rattle.pres_wire.specs.DownForms.{code_number, limit_number, down_json};
ghost use Rattle.pres_wire.specs.DownReads.{limit_of, limit_in, with_one_null, decoded, HasForm};
ghost use Rattle.pres_wire.specs.declared.fault.WireFault.TheVariants.{Memory};

use crate::down_form::{
    answer_value, denied_value, fault_value, gone_value, place_form, push_value, welcome_value,
    write_form,
};
use crate::down_read::read_down;
use crate::down_text::{push_text, reply_text, snap_text};
use crate::fault::WireFault;
use crate::values::Values;
use pres_ids::{Count, Number, SessionId, Stamp, Why, read_number};
use pres_tree::{Path, Tree};
use pres_write::Kept;
use serde_json::Value;
use std::alloc::{AllocError, Global};

/// Why a message was refused.
#[derive(Clone, Copy, Debug, PartialEq, Eq)]
pub enum Code {
    /// It is no message, or not one that may come here.
    Bad,
    /// A Hello whose stamp isn't greater than the client's last, which is this.
    Old(Stamp),
    /// Its session isn't open.
    Session,
    /// Its number, or that of its write, skips numbers.
    Order,
    /// As many sessions are open as the server takes.
    Full,
    /// An allocation was refused.
    Busy,
    /// No numbers are left.
    Spent,
    /// The server has to be started again.
    Down,
}

/// The limit that a message met.
#[derive(Clone, Copy, Debug, PartialEq, Eq)]
pub enum Limit {
    /// The rows that a session may have registered for its end.
    Plan,
    /// The places that a session may listen to.
    Listens,
}

/// A message from the server to a client.
#[derive(Drop)]
pub enum Down {
    /// The session is open since the server's number `z`; the client's writes so far are `ops`.
    Welcome {
        session: SessionId,
        z: Number,
        ops: Count,
    },
    /// The outcome of the client's write `n`, which the session's message `q` carried: it stands at
    /// the server's number `done`, and this answer at `z`.
    Reply {
        session: SessionId,
        r: Number,
        z: Number,
        q: Number,
        n: Number,
        done: Number,
        out: Kept,
    },
    /// The session ended at the server's number `z`.
    Gone {
        session: SessionId,
        r: Number,
        z: Number,
        why: Why,
    },
    /// A message was refused. It names no session where none was open on the connection.
    Fault {
        session: Option<SessionId>,
        code: Code,
    },
    /// What the session's message `q` registered or cancelled stands at the server's number `z`.
    Armed {
        session: SessionId,
        r: Number,
        z: Number,
        q: Number,
    },
    /// The session's message `q` did nothing, since it met a limit. This stands at the server's
    /// number `z`.
    Denied {
        session: SessionId,
        r: Number,
        z: Number,
        q: Number,
        why: Limit,
    },
    /// The session listens to the path, as its message `q` asked. The value stands there at the
    /// server's number `z`: null if nothing does.
    Snap {
        session: SessionId,
        r: Number,
        z: Number,
        q: Number,
        path: Path,
        value: Tree,
    },
    /// The server's number `z` wrote at, above or below a place that the session listens to:
    /// values at paths.
    Push {
        session: SessionId,
        r: Number,
        z: Number,
        values: Values,
    },
    /// The session listens no more to the path of its message `q`, since the server's number `z`.
    OffDone {
        session: SessionId,
        r: Number,
        z: Number,
        q: Number,
    },
}

impl Code {
    /// The number in the message.
    pub fn number(self) -> u8
        ensures { result ≡ code_number self }
    {
        match self {
            Code::Bad => 1,
            Code::Old(_) => 2,
            Code::Session => 3,
            Code::Order => 4,
            Code::Full => 5,
            Code::Busy => 6,
            Code::Spent => 7,
            Code::Down => 8,
        }
    }
}

impl Limit {
    /// The number in the message.
    pub fn number(self) -> u8
        ensures { result ≡ limit_number self }
    {
        match self {
            Limit::Plan => 1,
            Limit::Listens => 2,
        }
    }

    // The limit of the number.
    fn of_number(number: Number) -> Option<Limit>
        ensures { result ≡ limit_of number }
    {
        match number.get() {
            1 => Some(Limit::Plan),
            2 => Some(Limit::Listens),
            _ => None,
        }
    }
}

/// The limit whose number a JSON value is, none where it is no such number.
pub fn read_limit(value: &Value) -> Option<Limit>
    ensures { result ≡ limit_in (view value.now) }
{
    Limit::of_number(read_number(value)?)
}

impl Down {
    /// The session that it is for.
    pub fn session(&self) -> Option<&SessionId>
        ensures { option_map (λ s. s.now) result ≡ session_for self.now }
    {
        match self {
            Down::Welcome { session, .. } => Some(session),
            Down::Reply { session, .. } => Some(session),
            Down::Gone { session, .. } => Some(session),
            Down::Fault { session, .. } => session.as_ref(),
            Down::Armed { session, .. } => Some(session),
            Down::Denied { session, .. } => Some(session),
            Down::Snap { session, .. } => Some(session),
            Down::Push { session, .. } => Some(session),
            Down::OffDone { session, .. } => Some(session),
        }
    }

    /// The server's number in it, 0 in a Fault.
    pub fn number(&self) -> Count
        ensures { result ≡ number_in self.now }
    {
        match self {
            Down::Welcome { z, .. } => Count::up_to(*z),
            Down::Reply { z, .. } => Count::up_to(*z),
            Down::Gone { z, .. } => Count::up_to(*z),
            Down::Fault { .. } => Count::zero(),
            Down::Armed { z, .. } => Count::up_to(*z),
            Down::Denied { z, .. } => Count::up_to(*z),
            Down::Snap { z, .. } => Count::up_to(*z),
            Down::Push { z, .. } => Count::up_to(*z),
            Down::OffDone { z, .. } => Count::up_to(*z),
        }
    }

    /// An equal message.
    pub fn copy(&self, alloc: Global) -> Result<Down, AllocError>
        ensures { IfOk result (λ made. made ≡ self.now) }
    {
        match *self {
            Down::Welcome {
                ref session,
                z,
                ops,
            } => {
                let session = session.copy(alloc)?;
                Ok(Down::Welcome { session, z, ops })
            }
            Down::Reply {
                ref session,
                r,
                z,
                q,
                n,
                done,
                ref out,
            } => {
                let (session, out) = copied_outcome(alloc, session, out)?;
                Ok(Down::Reply {
                    session,
                    r,
                    z,
                    q,
                    n,
                    done,
                    out,
                })
            }
            Down::Gone {
                ref session,
                r,
                z,
                why,
            } => {
                let session = session.copy(alloc)?;
                Ok(Down::Gone { session, r, z, why })
            }
            Down::Fault { ref session, code } => {
                let session = copied_session(alloc, session)?;
                Ok(Down::Fault { session, code })
            }
            Down::Armed {
                ref session,
                r,
                z,
                q,
            } => {
                let session = session.copy(alloc)?;
                Ok(Down::Armed { session, r, z, q })
            }
            Down::Denied {
                ref session,
                r,
                z,
                q,
                why,
            } => copied_denied(alloc, session, r, z, q, why),
            Down::Snap {
                ref session,
                r,
                z,
                q,
                ref path,
                ref value,
            } => copied_snap(alloc, session, r, z, q, path, value),
            Down::Push {
                ref session,
                r,
                z,
                ref values,
            } => copied_push(alloc, session, r, z, values),
            Down::OffDone {
                ref session,
                r,
                z,
                q,
            } => {
                let session = session.copy(alloc)?;
                Ok(Down::OffDone { session, r, z, q })
            }
        }
    }

    /// The message of a text. Refused, in this order: NotJson, NoSuchMessage, Field of the first
    /// field that is missing or wrong, in the order of the message's table. Unknown names are
    /// ignored.
    pub fn decode(alloc: Global, text: &str) -> Result<Down, WireFault>
        ensures { MatchResult result
            (λ m. decoded text.now ≡ Ok m)
            (λ e. (e ≡ Memory) ⊎ (decoded text.now ≡ Err e)) }
    {
        match Value::from_str(alloc, text) {
            Ok(value) => read_down(alloc, &value),
            Err(error) => if error.is_memory() {
                Err(WireFault::Memory)
            } else {
                Err(WireFault::NotJson)
            },
        }
    }

    /// The JSON text of the message. It is decoded as an equal message, a null that was held as
    /// none: so no JSON is two messages' form.
    pub fn encode(&self, alloc: Global) -> Result<String, AllocError>
        ensures text { IfOk result (λ t. string_bytes t ≡ compact_text (down_json self.now)) }
        ensures form { IfOk result (λ _. HasForm self.now) }
        ensures reads_back { IfOk result (λ t.
            decoded (string_bytes t) ≡ Ok (with_one_null self.now)) }
    {
        if let Some(text) = self.text_at_once(alloc) {
            return text;
        }
        self.to_value(alloc)?.to_string(alloc)
    }

    // The text of a message of the most frequent kinds; none for others.
    fn text_at_once(&self, alloc: Global) -> Option<Result<String, AllocError>>
        ensures text { IfSome result (λ r. IfOk r (λ t.
            string_bytes t ≡ compact_text (down_json self.now))) }
        ensures form { IfSome result (λ r. IfOk r (λ _. HasForm self.now)) }
        ensures reads_back { IfSome result (λ r. IfOk r (λ t.
            read (string_bytes t) ≡ Some (down_json self.now))) }
    {
        match self {
            Down::Reply {
                session,
                r,
                z,
                q,
                n,
                done,
                out: Kept::Wrote,
            } => Some(reply_text(alloc, session, *r, *z, *q, *n, *done)),
            Down::Snap {
                session,
                r,
                z,
                q,
                path,
                value,
            } => Some(snap_text(alloc, session, *r, *z, *q, path, value)),
            Down::Push {
                session,
                r,
                z,
                values,
            } => {
                let [value] = values.as_slice() else {
                    return None;
                };
                Some(push_text(alloc, session, *r, *z, value))
            }
            _ => None,
        }
    }

    // The JSON value of the message, which is the form of no other, and nests few levels.
    fn to_value(&self, alloc: Global) -> Result<Value, AllocError>
        ensures json { IfOk result (λ made. view made ≡ down_json self.now) }
        ensures form { IfOk result (λ _. HasForm self.now) }
        ensures low { IfOk result (λ _. depth (down_json self.now) ≤ 127) }
    {
        match self {
            Down::Welcome { session, z, ops } => welcome_value(alloc, session, *z, *ops),
            Down::Reply {
                session,
                r,
                z,
                q,
                n,
                done,
                out,
            } => {
                let form = write_form(alloc, *q, *n, *done, out)?;
                form.sent(alloc, "reply", session, *r, *z)
            }
            Down::Gone { session, r, z, why } => gone_value(alloc, session, *r, *z, *why),
            Down::Fault { session, code } => fault_value(alloc, session, *code),
            Down::Armed { session, r, z, q } => {
                answer_value(alloc, "armed", session, *r, *z, *q)
            }
            Down::Denied {
                session,
                r,
                z,
                q,
                why,
            } => denied_value(alloc, session, *r, *z, *q, *why),
            Down::Snap {
                session,
                r,
                z,
                q,
                path,
                value,
            } => {
                let form = place_form(alloc, *q, path, value)?;
                form.sent(alloc, "snap", session, *r, *z)
            }
            Down::Push {
                session,
                r,
                z,
                values,
            } => push_value(alloc, session, *r, *z, values),
            Down::OffDone { session, r, z, q } => {
                answer_value(alloc, "offdone", session, *r, *z, *q)
            }
        }
    }
}

fn copied_session(
    alloc: Global,
    session: &Option<SessionId>,
) -> Result<Option<SessionId>, AllocError>
    ensures { IfOk result (λ made. made ≡ session.now) }
{
    match session {
        Some(session) => Ok(Some(session.copy(alloc)?)),
        None => Ok(None),
    }
}

// An equal session, and an equal outcome of a write.
fn copied_outcome(
    alloc: Global,
    session: &SessionId,
    out: &Kept,
) -> Result<(SessionId, Kept), AllocError>
    ensures { IfOk result (λ made. made ≡ (session.now, out.now)) }
{
    let session = session.copy(alloc)?;
    let out = out.copy(alloc)?;
    Ok((session, out))
}

// An equal path, and an equal value.
fn copied_place(alloc: Global, path: &Path, value: &Tree) -> Result<(Path, Tree), AllocError>
    ensures { IfOk result (λ made. made ≡ (path.now, value.now)) }
{
    let path = path.copy(alloc)?;
    let value = value.copy(alloc)?;
    Ok((path, value))
}

// A Denied of these.
fn copied_denied(
    alloc: Global,
    session: &SessionId,
    r: Number,
    z: Number,
    q: Number,
    why: Limit,
) -> Result<Down, AllocError>
    ensures { IfOk result (λ made. made ≡ Down.Denied session.now r z q why) }
{
    let session = session.copy(alloc)?;
    Ok(Down::Denied {
        session,
        r,
        z,
        q,
        why,
    })
}

// A Snap of these.
fn copied_snap(
    alloc: Global,
    session: &SessionId,
    r: Number,
    z: Number,
    q: Number,
    path: &Path,
    value: &Tree,
) -> Result<Down, AllocError>
    ensures { IfOk result (λ made.
        made ≡ Down.Snap session.now r z q path.now value.now) }
{
    let session = session.copy(alloc)?;
    let (path, value) = copied_place(alloc, path, value)?;
    Ok(Down::Snap {
        session,
        r,
        z,
        q,
        path,
        value,
    })
}

// A Push of these.
fn copied_push(
    alloc: Global,
    session: &SessionId,
    r: Number,
    z: Number,
    values: &Values,
) -> Result<Down, AllocError>
    ensures { IfOk result (λ made. made ≡ Down.Push session.now r z values.now) }
{
    let session = session.copy(alloc)?;
    let values = values.copy(alloc)?;
    Ok(Down::Push {
        session,
        r,
        z,
        values,
    })
}
