//! Streams whose reads can be kept from waiting.

/// A stream whose reads can be kept from waiting. What it says by default is right for one whose
/// reads never wait.
pub trait Nonblocking {
    /// Whether reads wait for bytes, from now on. One that doesn't wait gives bytes that the stream
    /// has read already, and `WouldBlock` where there are none.
    fn set_nonblocking(&self, _nonblocking: bool) {}
}

impl<S: Nonblocking> Nonblocking for &mut S {
    fn set_nonblocking(&self, nonblocking: bool) {
        (**self).set_nonblocking(nonblocking);
    }
}
