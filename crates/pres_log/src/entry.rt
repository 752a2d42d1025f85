//! Entries of the log, and the batches in which they are made.

ghost use Rattle.std.specs.Prelude.{◌≡◌, IsTrue, IfOk};
ghost use Rattle.pres_log.specs.Batches.{may_hold};
ghost use Rattle.pres_log.specs.Logs.{writes_of};
ghost use Rattle.pres_log.specs.declared.entry.Entry.TheVariants as entry;

use pres_tree::Path;
use pres_wire::{Limit, Number, SessionId, Why};
use pres_write::{Basic, Items, Moment, Op, Outcome, Puts, copy_writes};
use std::alloc::{AllocError, Global};
use std::marker::Model;

/// What happened on the server.
#[derive(Drop)]
pub enum Entry {
    /// The session was opened.
    Open {
        session: SessionId,
    },
    /// The session's message `q` carried out its client's write `n`, with the outcome.
    Op {
        session: SessionId,
        q: Number,
        n: Number,
        op: Op,
        outcome: Outcome,
    },
    /// The session's message `q` sent its client's write `n` again. It was done already.
    Again {
        session: SessionId,
        q: Number,
        n: Number,
    },
    /// The session ended, by its message `q` where its client said so, and its due writes were
    /// carried out.
    Ended {
        session: SessionId,
        q: Option<Number>,
        why: Why,
        rows: Items<Basic>,
    },
    /// The session's message `q` registered the puts for its end.
    Left {
        session: SessionId,
        q: Number,
        puts: Puts,
    },
    /// The session's message `q` cancelled what it had registered at the path and below it.
    Cancelled {
        session: SessionId,
        q: Number,
        path: Path,
    },
    /// The session's message `q` met the limit, and did nothing.
    Denied {
        session: SessionId,
        q: Number,
        why: Limit,
    },
    /// The session's message `q` listens to the path.
    On {
        session: SessionId,
        q: Number,
        path: Path,
    },
    /// The session's message `q` listens to the path no more.
    Off {
        session: SessionId,
        q: Number,
        path: Path,
    },
}

// An equal entry of a write.
fn copied_op(
    alloc: Global,
    session: &SessionId,
    q: Number,
    n: Number,
    op: &Op,
    outcome: &Outcome,
) -> Result<Entry, AllocError>
    ensures { IfOk result (λ made. made ≡ entry.Op session.now q n op.now outcome.now) }
{
    let session = session.copy(alloc)?;
    let op = op.copy(alloc)?;
    let Ok(outcome) = outcome.copy(alloc) else {
        drop(op);
        return Err(AllocError);
    };
    Ok(Entry::Op {
        session,
        q,
        n,
        op,
        outcome,
    })
}

// An equal entry of an end.
fn copied_end(
    alloc: Global,
    session: &SessionId,
    q: Option<Number>,
    why: Why,
    rows: &[Basic],
) -> Result<Entry, AllocError>
    ensures { IfOk result (λ made. made ≡ entry.Ended session.now q why rows.now) }
{
    Ok(Entry::Ended {
        session: session.copy(alloc)?,
        q,
        why,
        rows: copy_writes(alloc, rows)?,
    })
}

// An equal entry of registered puts.
fn copied_left(
    alloc: Global,
    session: &SessionId,
    q: Number,
    puts: &Puts,
) -> Result<Entry, AllocError>
    ensures { IfOk result (λ made. made ≡ entry.Left session.now q puts.now) }
{
    Ok(Entry::Left {
        session: session.copy(alloc)?,
        q,
        puts: puts.copy(alloc)?,
    })
}

// An equal session and an equal path.
fn copied_place(
    alloc: Global,
    session: &SessionId,
    path: &Path,
) -> Result<(SessionId, Path), AllocError>
    ensures { IfOk result (λ made. (made.0 ≡ session.now) × (made.1 ≡ path.now)) }
{
    let session = session.copy(alloc)?;
    let path = path.copy(alloc)?;
    Ok((session, path))
}

impl Entry {
    /// An equal entry.
    pub fn copy(&self, alloc: Global) -> Result<Entry, AllocError>
        ensures { IfOk result (λ made. made ≡ self.now) }
    {
        match self {
            Entry::Open { session } => Ok(Entry::Open {
                session: session.copy(alloc)?,
            }),
            Entry::Op {
                session,
                q,
                n,
                op,
                outcome,
            } => copied_op(alloc, session, *q, *n, op, outcome),
            Entry::Again { session, q, n } => Ok(Entry::Again {
                session: session.copy(alloc)?,
                q: *q,
                n: *n,
            }),
            Entry::Ended {
                session,
                q,
                why,
                rows,
            } => copied_end(alloc, session, *q, *why, rows.as_slice()),
            Entry::Left { session, q, puts } => copied_left(alloc, session, *q, puts),
            Entry::Cancelled { session, q, path } => {
                let (session, path) = copied_place(alloc, session, path)?;
                Ok(Entry::Cancelled {
                    session,
                    q: *q,
                    path,
                })
            }
            Entry::Denied { session, q, why } => Ok(Entry::Denied {
                session: session.copy(alloc)?,
                q: *q,
                why: *why,
            }),
            Entry::On { session, q, path } => {
                let (session, path) = copied_place(alloc, session, path)?;
                Ok(Entry::On {
                    session,
                    q: *q,
                    path,
                })
            }
            Entry::Off { session, q, path } => {
                let (session, path) = copied_place(alloc, session, path)?;
                Ok(Entry::Off {
                    session,
                    q: *q,
                    path,
                })
            }
        }
    }

    /// The writes that it makes: those of an operation's outcome, or those due at an end.
    pub fn writes(&self) -> &[Basic]
        ensures { result.now ≡ writes_of self.now }
    {
        match self {
            Entry::Op { outcome, .. } => match outcome {
                Outcome::Wrote(writes) => writes.as_slice(),
                Outcome::Stale(_) => &[],
            },
            Entry::Ended { rows, .. } => rows.as_slice(),
            _ => &[],
        }
    }
}

/// Entries that are made at one moment: one, or the end of a session and the opening of one, which
/// in a server's log is the next of its client. Its first entry has the number `first` in the log.
/// Contracts see it as the record of the three.
pub struct Batch {
    first: Number,
    moment: Moment,
    entries: Items<Entry>,
}

// Written out so that dropping a batch is one step of a proof, in the crates above too.
impl Drop for Batch {
    fn drop(self) {
        let Batch {
            first: _,
            moment: _,
            entries: _,
        } = self;
    }
}

impl Model for Batch {
    ghost use Rattle.std.specs.Prelude.{IsTrue};
    ghost use Rattle.pres_log.specs.Batches.{MadeTogether, may_hold};

    ghost Value = { MadeTogether };

    ghost view = { λ b. record { first = b.first; moment = b.moment; entries = b.entries } };

    ghost invariant = { λ b. IsTrue (may_hold b.entries) };
}

impl Batch {
    /// Whether a batch may hold the entries: one, or the end of a session and the opening of one.
    pub fn may_hold(entries: &[Entry]) -> bool
        ensures { result ≡ may_hold entries.now }
    {
        matches!(entries, [_] | [Entry::Ended { .. }, Entry::Open { .. }])
    }

    /// The batch of the entries at the moment, of which the first has the number.
    pub fn new(first: Number, moment: Moment, entries: Items<Entry>) -> Batch
        requires { IsTrue (may_hold entries) }
        ensures { result ≡ record { first = first; moment = moment; entries = entries } }
    {
        Batch {
            first,
            moment,
            entries,
        }
    }

    /// The number of its first entry.
    pub fn first(&self) -> Number
        ensures { result ≡ self.now.first }
    {
        self.first
    }

    /// The moment of all its entries.
    pub fn moment(&self) -> Moment
        ensures { result ≡ self.now.moment }
    {
        self.moment
    }

    /// Its entries.
    pub fn entries(&self) -> &[Entry]
        ensures entries { result.now ≡ self.now.entries }
        ensures together { IsTrue (may_hold self.now.entries) }
    {
        self.entries.as_slice()
    }

    /// An equal batch.
    pub fn copy(&self, alloc: Global) -> Result<Batch, AllocError>
        ensures { IfOk result (λ made. made ≡ self.now) }
    {
        Ok(Batch {
            first: self.first,
            moment: self.moment,
            entries: copy_entries(alloc, self.entries.as_slice())?,
        })
    }
}

// Equal entries.
fn copy_entries(alloc: Global, entries: &[Entry]) -> Result<Items<Entry>, AllocError>
    ensures { IfOk result (λ made. made ≡ entries.now) }
{
    let mut made = Vec::new(alloc);
    for entry in entries {
        made.push(entry.copy(alloc)?)?;
    }
    Ok(Items::of(made))
}
