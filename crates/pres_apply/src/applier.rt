//! What the lines of operations do, and what is answered to each.

ghost use Rattle.std.specs.Prelude.{◌≡◌, ◌++◌, OnOk, OnErr, IfOk, IfErr, option_map, string_bytes, take, length};
ghost use Rattle.serde_json.specs.View.{view};
ghost use Rattle.pres_apply.specs.Replies.{start, refuse, carry_out, taken, tree_line, value_text, kept_line, data_of, moment_in};
ghost use Rattle.pres_tree.specs.Rows.{rows_in};
ghost use Rattle.pres_apply.specs.Faults.{EndsAt};

use crate::faults::{LineFault, RunFault};
use itoa::Buffer;
use pres_limits::MAX_SAFE_INTEGER;
use pres_log::{Fault, Plain};
use pres_tree::{Tree, TreeFault, TreeJson};
use pres_write::{Kept, Moment, Op, OpJson, WriteFault};
use serde_json::Value;
use std::alloc::{AllocError, Global};
use std::marker::Model;

/// The log that the lines so far have made, and whether one of them was refused.
#[derive(Drop)]
pub(crate) struct Applier {
    alloc: Global,
    plain: Plain,
    refused: bool,
}

impl Model for Applier {
    ghost use Rattle.pres_apply.specs.Replies.{ApplyState};

    ghost Value = { ApplyState };

    ghost view = { λ a. record { log = a.plain; refused = a.refused } };
}

impl Applier {
    /// Before the first line.
    pub(crate) fn new(alloc: Global) -> Applier
        ensures { result ≡ start }
    {
        Applier {
            alloc,
            plain: Plain::new(alloc),
            refused: false,
        }
    }

    /// Whether a line was refused.
    pub(crate) fn has_refused(&self) -> bool
        ensures { result ≡ self.now.refused }
    {
        self.refused
    }

    /// Takes a line that isn't too long, and adds its reply to the output.
    pub(crate) fn line(&mut self, line: &[u8], out: &mut Vec<u8>) -> Result<(), RunFault>
        ensures text { OnOk result (out.new.items ≡ out.old.items ++ (taken self.old line.now).0) }
        ensures state { OnOk result (self.new ≡ (taken self.old line.now).1) }
        ensures err { IfErr result (EndsAt self.old.log.number) }
        ensures silent { OnErr result (out.new.items ≡ out.old.items) }
    {
        let Some(value) = json_of(self.alloc, line)? else {
            return self.refuse(LineFault::NotJson, out);
        };
        let Some(now) = moment_of(&value) else {
            return self.refuse(LineFault::NoMoment, out);
        };
        match Op::from_value(self.alloc, &value) {
            Ok(op) => self.carry_out(op, now, out),
            Err(WriteFault::Tree(TreeFault::Memory)) => Err(RunFault::Memory),
            Err(fault) => self.refuse(LineFault::Write(fault), out),
        }
    }

    fn carry_out(&mut self, op: Op, now: Moment, out: &mut Vec<u8>) -> Result<(), RunFault>
        ensures text { OnOk result
            (out.new.items ≡ out.old.items ++ (carry_out self.old op now).0) }
        ensures state { OnOk result (self.new ≡ (carry_out self.old op now).1) }
        ensures err { IfErr result (EndsAt self.old.log.number) }
        ensures silent { OnErr result (out.new.items ≡ out.old.items) }
    {
        let (number, kept) = match self.plain.apply_owned(op, now) {
            Ok(answer) => answer,
            Err(Fault::Spent) => return Err(RunFault::Spent),
            Err(_) => return Err(RunFault::Memory),
        };
        match kept {
            Kept::Wrote => wrote_line(number.get(), out)?,
            Kept::Stale(held) => stale_line(self.alloc, number.get(), &held, out)?,
        }
        Ok(())
    }

    /// Refuses a line.
    pub(crate) fn refuse(&mut self, fault: LineFault, out: &mut Vec<u8>) -> Result<(), RunFault>
        ensures text { OnOk result (out.new.items ≡ out.old.items ++ (refuse self.old fault).0) }
        ensures state { OnOk result (self.new ≡ (refuse self.old fault).1) }
        ensures err { IfErr result (λ e. e ≡ RunFault.Memory) }
        ensures silent { OnErr result (out.new.items ≡ out.old.items) }
    {
        let number = fault.number();
        let name = fault.name();
        let text = format!(in self.alloc; "refused {number} {name}\n")?;
        out.extend_from_slice(text.as_bytes())?;
        self.refused = true;
        Ok(())
    }

    /// Adds the last line, which shows the tree.
    pub(crate) fn tree_line(&self, out: &mut Vec<u8>) -> Result<(), RunFault>
        ensures text { OnOk result (out.new.items ≡ out.old.items ++ tree_line self.now) }
        ensures err { IfErr result (λ e. e ≡ RunFault.Memory) }
    {
        out.extend_from_slice(b"tree ")?;
        self.plain.tree().print(self.alloc, out)?;
        out.extend_from_slice(b"\n")?;
        Ok(())
    }
}

// Adds the line that replies to an operation that wrote.
fn wrote_line(number: u64, out: &mut Vec<u8>) -> Result<(), AllocError>
    ensures ok { OnOk result (out.new.items ≡ out.old.items ++ kept_line number Kept.Wrote) }
    ensures err { OnErr result (out.new.items ≡ out.old.items) }
{
    let before = out.len();
    out.extend_from_slice(Buffer::new().format(number).as_bytes())?;
    if out.extend_from_slice(b" wrote\n").is_err() {
        out.truncate(before);
        return Err(AllocError);
    }
    Ok(())
}

// Adds the line that replies to a transaction that met another value.
fn stale_line(
    alloc: Global,
    number: u64,
    held: &Option<Tree>,
    out: &mut Vec<u8>,
) -> Result<(), AllocError>
    ensures ok { OnOk result
        (out.new.items ≡ out.old.items ++ kept_line number (Kept.Stale held.now)) }
    ensures err { OnErr result (out.new.items ≡ out.old.items) }
{
    let start = out.len();
    let put = put_stale(alloc, number, held, out);
    if put.is_err() {
        out.truncate(start);
    }
    put
}

// Adds that line; where memory is refused, a beginning of it may stay.
fn put_stale(
    alloc: Global,
    number: u64,
    held: &Option<Tree>,
    out: &mut Vec<u8>,
) -> Result<(), AllocError>
    ensures ok { OnOk result
        (out.new.items ≡ out.old.items ++ kept_line number (Kept.Stale held.now)) }
    ensures before { OnErr result (take (length out.old.items) out.new.items ≡ out.old.items) }
{
    out.extend_from_slice(Buffer::new().format(number).as_bytes())?;
    out.extend_from_slice(b" stale ")?;
    match held {
        Some(tree) => tree.print(alloc, out)?,
        None => out.extend_from_slice(b"null")?,
    }
    out.push(b'\n')?;
    Ok(())
}

// The JSON value that a line is.
fn json_of(alloc: Global, line: &[u8]) -> Result<Option<Value>, AllocError>
    ensures { IfOk result (λ o. option_map view o ≡ data_of line.now) }
{
    match Value::from_slice(alloc, line) {
        Ok(value) => Ok(Some(value)),
        Err(error) => if error.is_memory() {
            Err(AllocError)
        } else {
            Ok(None)
        },
    }
}

// The moment that a line names.
fn moment_of(value: &Value) -> Option<Moment>
    ensures { result ≡ moment_in (view value.now) }
{
    let now = value.get("now").and_then(Value::as_u64)?;
    if now > MAX_SAFE_INTEGER {
        return None;
    }
    Some(Moment::at(now))
}
