//! Keys, paths and values of the shared JSON tree.
//!
//! A contract sees a value as the list of its rows, the path and the leaf of each place that
//! holds one, in path order. Null is the empty list.
#![tactic(auto)]

mod as_json;
mod change_on;
pub mod children;
mod equal;
mod fault;
mod key;
pub mod laws;
mod nested;
mod path;
mod print;
mod read;
mod scalar;
mod text;

pub use as_json::{OfTree, TreeJson};
pub use change_on::ChangeOn;
pub use children::Children;
pub use fault::TreeFault;
pub use key::Key;
pub use nested::{Change, Leaf, Nested};
pub use path::{MAX_DEPTH, Path};
pub use print::{PrintedForm, text_of, to_value, write_value};
pub use read::{LeafForm, from_value, from_value_below, from_value_under};
pub use scalar::{Scalar, ScalarForm};
pub use text::Text;

/// A value: null, a scalar, or an object of values under keys.
pub type Tree = Nested<Scalar>;
