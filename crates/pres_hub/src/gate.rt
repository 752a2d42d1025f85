//! What a call passes before it takes the lock.

/// What a call passes before it takes the lock.
pub trait Gate {
    /// Lets the caller through, now or later. It may not wait for the lock.
    fn pass(&self, caller: u64);
}

/// Lets each caller through at once.
#[derive(Drop)]
pub struct OpenGate;

impl Gate for OpenGate {
    fn pass(&self, _caller: u64) {}
}
