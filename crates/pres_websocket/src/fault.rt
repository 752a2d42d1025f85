//! Why a connection ended.

ghost use Rattle.std.specs.Prelude.{◌≡◌, false};
ghost use Rattle.pres_websocket.specs.ConnectionFaults.{is_handshake, number_of, of_stream};

use pres_faults::HubFault;
use std::alloc::AllocError;
use thiserror::Error;
use tungstenite::Error;

/// Why a connection ended, where it wasn't closed.
#[derive(Debug, Drop, Error)]
pub enum SockFault {
    /// The handshake failed: RFC 6455, 4.2.
    #[error("the handshake failed: {0}")]
    Handshake(Error),
    /// The stream failed, or brought something that is no frame of RFC 6455.
    #[error("the stream failed: {0}")]
    Stream(Error),
    /// The hub refused the message, and no message to the client can say why.
    #[error("{0}")]
    Hub(HubFault),
    /// An allocation was refused.
    #[error("out of memory")]
    Memory,
    /// 2,000 reads in a row gave nothing, or there were 2^32 - 1 in all.
    #[error("no turn is left")]
    Turns,
}

impl SockFault {
    /// The number that programs print.
    pub fn number(&self) -> u8
        ensures { result ≡ number_of self.now }
    {
        match self {
            SockFault::Handshake(_) => 1,
            SockFault::Stream(_) => 2,
            SockFault::Hub(_) => 3,
            SockFault::Memory => 4,
            SockFault::Turns => 5,
        }
    }
}

/// The fault of a stream's error; a failed allocation is a fault of its own.
pub(crate) fn stream_fault(error: Error) -> SockFault
    ensures fault { result ≡ of_stream error }
    ensures behind { is_handshake result ≡ false }
{
    match error {
        Error::OutOfMemory => SockFault::Memory,
        other => SockFault::Stream(other),
    }
}

impl From<AllocError> for SockFault {
    ghost use Rattle.std.specs.Prelude.{◌≡◌};
    ghost use Rattle.pres_websocket.specs.declared.fault.SockFault.TheVariants.{Memory};

    ghost from_gives = { λ _ e. e ≡ Memory };

    fn from(_refused: AllocError) -> SockFault {
        SockFault::Memory
    }
}
