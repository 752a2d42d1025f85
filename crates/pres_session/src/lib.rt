//! The life of a session: asked for, open, ended, and gone once its plan was carried out.
//!
//! The types keep the steps in their order. A session that ended is a `Due`, which must not be
//! dropped: either what its plan owes is written and the value spent, or the session is put back.
#![tactic(auto)]

mod due;
mod fault;
mod gone;
mod live;
mod plan;
mod slot;

pub use due::Due;
pub use fault::SessionFault;
pub use gone::Gone;
pub use live::{Live, first};
pub use plan::{NoPlan, Pays};
pub use slot::Slot;
