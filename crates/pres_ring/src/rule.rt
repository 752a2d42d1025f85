//! The rule of every ring, and its room.

use pres_wire::Down;
use rtrb::Protocol;

/// At most this many messages wait on a ring.
pub const CAPACITY: usize = 256;

/// What is put on a ring is a beginning of some session's transcript in some history in which it was
/// opened, and at whose base no session was open.
pub struct Rule;

impl Protocol<Down> for Rule {
    ghost use Rattle.pres_ring.specs.HistoryTranscripts.{MayPutIn};

    ghost allows = { MayPutIn };
}
