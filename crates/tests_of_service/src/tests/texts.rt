//! What is said, and what it must be.

use pres_websocket::SockFault;
use std::process::Abort;

/// The text has to be this one.
pub(crate) fn expect_text(rt: &impl Abort, said: String, wanted: &str) {
    assert_eq!(rt; said.as_str(), wanted);
}

/// Why a connection ended, in a word.
pub(crate) fn fault_word(fault: &SockFault) -> &'static str {
    match fault {
        SockFault::Handshake(_) => "handshake",
        SockFault::Stream(_) => "stream",
        SockFault::Hub(_) => "hub",
        SockFault::Memory => "memory",
        SockFault::Turns => "turns",
    }
}
