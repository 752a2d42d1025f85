//! Operations on the tree: what they ask for, and the writes that they make.
#![tactic(auto)]

mod as_json;
mod basic;
mod draft;
mod fault;
mod items;
mod moment;
mod op;
mod outcome;
mod placement;
mod puts;
mod transaction;
mod unconditional;
mod update;

pub use as_json::{DraftJson, OfDraft, OfOp, OpJson};
pub use basic::{Basic, apply, apply_all, copy_writes, equal_writes};
pub use draft::{Draft, DraftLeaf, DraftLeafForm, FixedForm, looks, settle};
pub use fault::WriteFault;
pub use items::Items;
pub use moment::Moment;
pub use op::{Op, op_value, read_op, write_set};
pub use outcome::{Kept, Outcome};
pub use placement::Placement;
pub use puts::Puts;
pub use transaction::Transaction;
pub use unconditional::{Unconditional, read_unconditional, unconditional_value};
pub use update::Update;
