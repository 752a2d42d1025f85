//! Drafts and operations from JSON values, and JSON values of operations.

ghost use Rattle.std.specs.Prelude.{◌≡◌};

use crate::draft::{Draft, DraftLeaf, DraftLeafForm};
use crate::fault::WriteFault;
use crate::op::{Op, op_value, read_op};
use pres_tree::{TreeFault, from_value};
use serde_json::Value;
use std::alloc::{AllocError, Global};

/// The trait's implementors: drafts alone.
pub trait OfDraft {
    ghost use Rattle.std.specs.Prelude.{◌≡◌};
    ghost use Rattle.pres_tree.specs.Rows.{Rows};
    ghost use Rattle.pres_write.specs.declared.draft.DraftLeaf.{DraftLeaf};

    ghost rows: { Self → Rows DraftLeaf };

    /// Itself, which is moved.
    fn of_draft(draft: Draft) -> Self
        ensures { rows result ≡ draft };
}

impl OfDraft for Draft {
    ghost rows = { λ draft. draft };

    fn of_draft(draft: Draft) -> Draft {
        draft
    }
}

/// Drafts from JSON values. A trait has this, so that a crate that doesn't call it is built without
/// JSON.
pub trait DraftJson {
    ghost use Rattle.std.specs.Prelude.{◌≡◌, ◌+◌, ◌⊎◌, MatchResult, Some, None};
    ghost use Rattle.serde_json.specs.View.{view};
    ghost use Rattle.pres_tree.specs.Paths.{max_depth};
    ghost use Rattle.pres_tree.specs.JsonReading.{rows_of, fault_of};
    ghost use Rattle.pres_tree.specs.Rows.{Rows};
    ghost use Rattle.pres_tree.specs.declared.fault.TreeFault.TheVariants.{Memory};
    ghost use Rattle.pres_write.specs.Drafts.{slot_reading};
    ghost use Rattle.pres_write.specs.declared.draft.DraftLeaf.{DraftLeaf};

    ghost rows: { Self → Rows DraftLeaf };

    /// The draft of a JSON value: arrays under their indexes, nulls and objects without
    /// children left out. The first fault of a depth-first walk in byte order of keys is
    /// answered: at a key EmptyKey, LongKey, BadKey, at a leaf TooDeep, NotWhole, Range, at an
    /// object with the name `.sv` TooDeep, Placeholder.
    fn from_value(alloc: Global, value: &Value) -> Result<Self, TreeFault>
        ensures { MatchResult result
            (λ t. (fault_of slot_reading (max_depth + 1) (view value.now) ≡ None)
            × (rows t ≡ rows_of slot_reading (view value.now)))
            (λ e. (e ≡ Memory)
            ⊎ (fault_of slot_reading (max_depth + 1) (view value.now) ≡ Some e)) };
}

impl<T: OfDraft> DraftJson for T {
    ghost rows = { T.rows };

    fn from_value(alloc: Global, value: &Value) -> Result<T, TreeFault> {
        Ok(T::of_draft(from_value::<DraftLeaf, DraftLeafForm>(alloc, value)?))
    }
}

/// The trait's implementors: operations alone.
pub trait OfOp {
    ghost use Rattle.std.specs.Prelude.{◌≡◌};
    ghost use Rattle.pres_write.specs.declared.op.Op.{Op};

    ghost operation: { Self → Op };

    /// Itself, which is moved.
    fn of_op(op: Op) -> Self
        ensures { operation result ≡ op };

    /// Itself.
    fn as_op(&self) -> &Op
        ensures { result.now ≡ operation self.now };
}

impl OfOp for Op {
    ghost operation = { λ op. op };

    fn of_op(op: Op) -> Op {
        op
    }

    fn as_op(&self) -> &Op {
        self
    }
}

/// Operations from JSON values, and JSON values of them.
pub trait OpJson {
    ghost use Rattle.std.specs.Prelude.{◌≡◌, MatchResult, IfOk, Ok};
    ghost use Rattle.serde_json.specs.View.{view};
    ghost use Rattle.pres_write.specs.OpForms.{op_read, op_json, IsRefusal};
    ghost use Rattle.pres_write.specs.declared.op.Op.{Op};

    ghost operation: { Self → Op };

    /// The operation of a JSON value, read and refused as by `read_op`.
    fn from_value(alloc: Global, value: &Value) -> Result<Self, WriteFault>
        ensures { MatchResult result
            (λ made. op_read (view value.now) ≡ Ok (operation made))
            (λ e. IsRefusal (op_read (view value.now)) e) };

    /// The JSON value of the operation. Read again, it is an equal operation.
    fn to_value(&self, alloc: Global) -> Result<Value, AllocError>
        ensures json { IfOk result (λ made. view made ≡ op_json (operation self.now)) }
        ensures reads_back { IfOk result (λ made. op_read (view made) ≡ Ok (operation self.now)) };
}

impl<T: OfOp> OpJson for T {
    ghost operation = { T.operation };

    fn from_value(alloc: Global, value: &Value) -> Result<T, WriteFault> {
        Ok(T::of_op(read_op(alloc, value)?))
    }

    fn to_value(&self, alloc: Global) -> Result<Value, AllocError> {
        op_value(alloc, self.as_op())
    }
}
