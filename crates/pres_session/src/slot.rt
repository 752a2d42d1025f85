//! Where a client stands.

use crate::gone::Gone;
use crate::live::Live;

/// Where a client stands: it never had a session, its last one is gone, or one is open.
#[derive(Drop)]
pub enum Slot<P> {
    Never,
    Gone(Gone),
    Live(Live<P>),
}
