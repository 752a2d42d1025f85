//! What a stream has read, and not given yet.

ghost use Rattle.std.specs.Prelude.{◌≡◌, ◌≤◌, ◌↔◌, [], length, take, drop, min, IsTrue, IfOk, OnOk, OnErr};
ghost use Rattle.std.specs.Io.KnownBytes.{Consumes};

use std::alloc::Global;
use std::io;
use std::io::Read;
use std::marker::Model;
use std::net::TcpStream;

/// How many bytes a read of the system asks for.
pub(crate) const READ_SIZE: usize = 4_096;

/// A stream that may have read more than it has given.
pub(crate) trait Buffered {
    /// Whether it has: then a read doesn't wait.
    fn has_bytes(&self) -> bool;
}

impl Buffered for TcpStream {
    fn has_bytes(&self) -> bool {
        false
    }
}

/// Bytes that were read, and not given yet. It takes no memory while there are none. Contracts see the
/// bytes.
#[derive(Drop)]
pub(crate) struct Buffer {
    alloc: Global,
    bytes: Vec<u8>,
    // How many of them were given.
    given: usize,
}

impl Model for Buffer {
    ghost use Rattle.std.specs.Prelude.{ℕ, List, ◌≤◌, drop, length};

    ghost Value = { List ℕ };

    ghost view = { λ b. drop b.given b.bytes.items };

    ghost invariant = { λ b. b.given ≤ length b.bytes.items };
}

impl Buffer {
    /// Nothing was read.
    pub(crate) fn new(alloc: Global) -> Buffer
        ensures { result ≡ [] }
    {
        Buffer {
            alloc,
            bytes: Vec::new(alloc),
            given: 0,
        }
    }

    /// Whether all was given.
    pub(crate) fn is_empty(&self) -> bool
        ensures { IsTrue result ↔ (length self.now ≡ 0) }
    {
        self.given == self.bytes.len()
    }

    /// Reads once from the stream: how many bytes came.
    pub(crate) fn fill<S: Read>(&mut self, stream: &mut S) -> io::Result<usize>
        requires { length self.old ≡ 0 }
        ensures count { IfOk result (λ count. count ≡ length self.new) }
        ensures most { length self.new ≤ 4096 }
        ensures bytes { OnOk result
            (Consumes (S.remaining stream.old) (S.remaining stream.new) self.new) }
        ensures none { OnErr result (self.new ≡ []) }
    {
        let mut bytes = Vec::new(self.alloc);
        bytes.resize(READ_SIZE, 0)?;
        let count = stream.read(&mut bytes)?;
        bytes.truncate(count);
        *self = Buffer {
            alloc: self.alloc,
            bytes,
            given: 0,
        };
        Ok(count)
    }

    /// Gives the first bytes, as many as there is room for: how many.
    pub(crate) fn give(&mut self, buf: &mut [u8]) -> usize
        ensures count { result ≡ min (length self.old) (length buf.old) }
        ensures given { take result buf.new ≡ take result self.old }
        ensures left { self.new ≡ drop result self.old }
    {
        let rest = &self.bytes[self.given..];
        let count = rest.len().min(buf.len());
        buf[..count].copy_from_slice(&rest[..count]);
        self.given += count;
        if self.is_empty() {
            *self = Buffer::new(self.alloc);
        }
        count
    }
}
