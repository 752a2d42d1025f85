//! What a client does next.

use pres_client::Call;

/// What a client does next.
#[derive(Drop)]
pub enum Line {
    /// It makes this call.
    Call(Call),
    /// It makes none, since the call's JSON or its path was refused.
    Refused,
    /// It waits for this many messages.
    Wait(u64),
}
