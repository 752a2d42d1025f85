//! What a place of a tree holds.

use crate::fault::TreeFault;
use crate::nested::Leaf;
use crate::print::PrintedForm;
use crate::read::LeafForm;
use crate::text::Text;
use json::Writer;
use serde_json::Value;
use std::alloc::{AllocError, Global};

/// What a place of a tree holds: a truth, a whole number of 64 bits, or a text.
#[derive(Drop)]
pub enum Scalar {
    Bool(bool),
    Int(i64),
    Text(Text),
}

impl Leaf for Scalar {
    fn copy(&self, alloc: Global) -> Result<Scalar, AllocError> {
        match self {
            Scalar::Bool(truth) => Ok(Scalar::Bool(*truth)),
            Scalar::Int(number) => Ok(Scalar::Int(*number)),
            Scalar::Text(text) => Ok(Scalar::Text(text.copy(alloc)?)),
        }
    }

    fn equal(&self, other: &Scalar) -> bool {
        match (self, other) {
            (Scalar::Bool(truth), Scalar::Bool(other)) => truth == other,
            (Scalar::Int(number), Scalar::Int(other)) => number == other,
            (Scalar::Text(text), Scalar::Text(other)) => text == other,
            _ => false,
        }
    }
}

/// The form of scalars: truths, whole numbers and texts are themselves.
pub struct ScalarForm {}

impl LeafForm<Scalar> for ScalarForm {
    ghost use Rattle.pres_tree.specs.Scalars.{scalar_reading};

    ghost reading = { scalar_reading };

    fn is_leaf(value: &Value) -> bool {
        matches!(value, Value::Bool(_) | Value::Number(_) | Value::String(_))
    }

    fn read(alloc: Global, value: &Value) -> Result<Scalar, TreeFault> {
        match value {
            Value::Bool(truth) => Ok(Scalar::Bool(*truth)),
            Value::String(text) => Ok(Scalar::Text(Text::from_str(alloc, text.as_str())?)),
            Value::Number(number) => match number.as_i64() {
                Some(whole) => Ok(Scalar::Int(whole)),
                None => {
                    if number.is_u64() {
                        Err(TreeFault::Range)
                    } else {
                        Err(TreeFault::NotWhole)
                    }
                }
            },
            _ => unreachable!(),
        }
    }
}

impl PrintedForm<Scalar> for ScalarForm {
    ghost use Rattle.pres_tree.specs.Scalars.{scalar_printing};

    ghost printing = { scalar_printing };

    fn print(alloc: Global, scalar: &Scalar) -> Result<Value, AllocError> {
        match scalar {
            Scalar::Bool(truth) => Ok(Value::Bool(*truth)),
            Scalar::Int(number) => Ok(Value::from(*number)),
            Scalar::Text(text) => Ok(Value::String(String::from_str(alloc, text.as_str())?)),
        }
    }

    fn write(scalar: &Scalar, out: &mut Writer) -> Result<(), AllocError> {
        match scalar {
            Scalar::Bool(truth) => out.boolean(*truth),
            Scalar::Int(number) => out.i64(*number),
            Scalar::Text(text) => out.string(text.as_str()),
        }
    }

    ghost use Rattle.std.specs.Prelude.{refl};

    ghost null_is_branch = { refl };

    ghost object_is_branch = { λ _ _. refl };
}
