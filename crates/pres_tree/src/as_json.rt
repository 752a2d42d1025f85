//! Trees of scalars from JSON values, and JSON values of them.

ghost use Rattle.std.specs.Prelude.{◌≡◌};

use crate::Tree;
use crate::fault::TreeFault;
use crate::print::{print_value, to_value};
use crate::read::from_value;
use crate::scalar::{Scalar, ScalarForm};
use serde_json::Value;
use std::alloc::{AllocError, Global};

/// The trait's implementors: trees alone.
pub trait OfTree {
    ghost use Rattle.std.specs.Prelude.{◌≡◌};
    ghost use Rattle.pres_tree.specs.Rows.{Rows};
    ghost use Rattle.pres_tree.specs.declared.scalar.Scalar.{Scalar};

    ghost rows: { Self → Rows Scalar };

    /// Itself, which is moved.
    fn of_tree(tree: Tree) -> Self
        ensures { rows result ≡ tree };

    /// Itself.
    fn as_tree(&self) -> &Tree
        ensures { result.now ≡ rows self.now };
}

impl OfTree for Tree {
    ghost rows = { λ tree. tree };

    fn of_tree(tree: Tree) -> Tree {
        tree
    }

    fn as_tree(&self) -> &Tree {
        self
    }
}

/// Trees from JSON values, and JSON values of them. A trait has these, so that a crate that calls
/// none of them is built without JSON.
pub trait TreeJson {
    ghost use Rattle.std.specs.Prelude.{◌≡◌, ◌+◌, ◌++◌, ◌⊎◌, MatchResult, IfOk, OnOk, OnErr, Some, None};
    ghost use Rattle.serde_json.specs.View.{view};
    ghost use Rattle.serde_json.specs.Written.{compact_text};
    ghost use Rattle.pres_tree.specs.Paths.{max_depth};
    ghost use Rattle.pres_tree.specs.JsonPrinting.{json_of, ReadsBack};
    ghost use Rattle.pres_tree.specs.JsonReading.{rows_of, fault_of};
    ghost use Rattle.pres_tree.specs.Rows.{Rows};
    ghost use Rattle.pres_tree.specs.Scalars.{scalar_reading, scalar_printing};
    ghost use Rattle.pres_tree.specs.declared.fault.TreeFault.TheVariants.{Memory};
    ghost use Rattle.pres_tree.specs.declared.scalar.Scalar.{Scalar};

    ghost rows: { Self → Rows Scalar };

    /// The value of a JSON value: arrays under their indexes, nulls and objects without
    /// children left out. The first fault of a depth-first walk in byte order of keys is
    /// answered: at a key EmptyKey, LongKey, BadKey, at a leaf TooDeep, NotWhole, Range.
    fn from_value(alloc: Global, value: &Value) -> Result<Self, TreeFault>
        ensures { MatchResult result
            (λ t. (fault_of scalar_reading (max_depth + 1) (view value.now) ≡ None)
            × (rows t ≡ rows_of scalar_reading (view value.now)))
            (λ e. (e ≡ Memory)
            ⊎ (fault_of scalar_reading (max_depth + 1) (view value.now) ≡ Some e)) };

    /// The JSON value: null, the scalar, or the object of the children. Read again, it is the
    /// same value.
    fn to_value(&self, alloc: Global) -> Result<Value, AllocError>
        ensures json { IfOk result (λ made. view made ≡ json_of scalar_printing (rows self.now)) }
        ensures reads_back { IfOk result (λ made.
            ReadsBack scalar_reading (rows self.now) (view made)) };

    /// Adds the JSON text to the bytes; at AllocError they are as they were. It makes no JSON
    /// value of the tree.
    fn print(&self, alloc: Global, out: &mut Vec<u8>) -> Result<(), AllocError>
        ensures ok { OnOk result (out.new.items
            ≡ out.old.items ++ compact_text (json_of scalar_printing (rows self.now))) }
        ensures err { OnErr result (out.new.items ≡ out.old.items) };
}

impl<T: OfTree> TreeJson for T {
    ghost rows = { T.rows };

    fn from_value(alloc: Global, value: &Value) -> Result<T, TreeFault> {
        Ok(T::of_tree(from_value::<Scalar, ScalarForm>(alloc, value)?))
    }

    fn to_value(&self, alloc: Global) -> Result<Value, AllocError> {
        to_value::<Scalar, ScalarForm>(alloc, self.as_tree())
    }

    fn print(&self, alloc: Global, out: &mut Vec<u8>) -> Result<(), AllocError> {
        print_value::<Scalar, ScalarForm>(alloc, self.as_tree(), out)
    }
}
