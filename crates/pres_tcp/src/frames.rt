//! The messages that pass over the stream of a WebSocket, found by their frames (RFC 6455, 5.2).

use crate::meter::Meter;

// How many of a text's first bytes say which message it is.
const FIRST: usize = 9;

/// Counts the messages that pass over a stream, both ways.
#[derive(Drop)]
pub(crate) struct Traffic {
    incoming: Frames,
    outgoing: Frames,
}

impl Traffic {
    /// Nothing has passed yet.
    pub(crate) fn new() -> Traffic {
        Traffic {
            incoming: Frames::new(Direction::In),
            outgoing: Frames::new(Direction::Out),
        }
    }

    /// These bytes were read.
    pub(crate) fn read(&mut self, bytes: &[u8], meter: &Meter) {
        self.incoming.pass(bytes, meter);
    }

    /// These bytes were written.
    pub(crate) fn write(&mut self, bytes: &[u8], meter: &Meter) {
        self.outgoing.pass(bytes, meter);
    }
}

// Which way a stream's bytes go.
#[derive(Clone, Copy)]
enum Direction {
    In,
    Out,
}

// What comes next in a direction.
#[derive(Clone, Copy)]
enum Part {
    // The head of HTTP, of whose last four bytes this many came.
    Head {
        seen: u8,
    },
    // The first byte of a frame.
    Start,
    // The second one. A message begins with the frame, or none does.
    Length {
        begins: bool,
    },
    // This many more bytes of a long length.
    LongLength {
        begins: bool,
        is_masked: bool,
        left: u8,
        length: u64,
    },
    // This many more bytes of the frame, with its mask. A message that isn't counted yet begins with them, or
    // none does.
    Rest {
        begins: bool,
        left: u64,
    },
}

// Follows one direction of a stream from its first byte on, and counts its messages.
#[derive(Drop)]
struct Frames {
    direction: Direction,
    part: Part,
    // The first bytes of the message that begins.
    first: [u8; FIRST],
    filled: usize,
}

impl Frames {
    fn new(direction: Direction) -> Frames {
        Frames {
            direction,
            part: Part::Head { seen: 0 },
            first: [0; FIRST],
            filled: 0,
        }
    }

    // These bytes pass.
    fn pass(&mut self, bytes: &[u8], meter: &Meter) {
        let mut rest = bytes;
        for _ in 0..bytes.len() {
            if let Part::Rest {
                begins: false,
                left,
            } = self.part
            {
                rest = self.skip(left, rest);
            } else if let Some((byte, after)) = rest.split_first() {
                self.part = self.after(*byte, meter);
                rest = after;
            }
            if rest.is_empty() {
                return;
            }
        }
    }

    // What is left of the bytes after the rest of a frame.
    fn skip<'a>(&mut self, left: u64, bytes: &'a [u8]) -> &'a [u8] {
        let count = bytes.len().min(usize::try_from(left).unwrap_or(usize::MAX));
        self.part = match left.saturating_sub(count as u64) {
            0 => Part::Start,
            left => Part::Rest {
                begins: false,
                left,
            },
        };
        &bytes[count..]
    }

    // What comes after this byte.
    fn after(&mut self, byte: u8, meter: &Meter) -> Part {
        match self.part {
            Part::Head { seen } => after_head(seen, byte),
            // a text or a binary message; the others continue one, or are the connection's own
            Part::Start => Part::Length {
                begins: matches!(byte & 0x0f, 1 | 2),
            },
            Part::Length { begins } => {
                let is_masked = byte >= 0x80;
                match byte & 0x7f {
                    126 => long_length(begins, is_masked, 2),
                    127 => long_length(begins, is_masked, 8),
                    length => self.begin(begins, is_masked, u64::from(length), meter),
                }
            }
            Part::LongLength {
                begins,
                is_masked,
                left,
                length,
            } => {
                let length = length << 8 | u64::from(byte);
                if left > 1 {
                    return Part::LongLength {
                        begins,
                        is_masked,
                        left: left - 1,
                        length,
                    };
                }
                self.begin(begins, is_masked, length, meter)
            }
            Part::Rest { begins, left } => self.fill(begins, left, byte, meter),
        }
    }

    // The rest of a frame of this length begins.
    fn begin(&mut self, begins: bool, is_masked: bool, length: u64, meter: &Meter) -> Part {
        self.filled = 0;
        let left = length.saturating_add(if is_masked { 4 } else { 0 });
        if left > 0 {
            return Part::Rest { begins, left };
        }
        if begins {
            self.count(meter);
        }
        Part::Start
    }

    // What comes after a byte of a frame's rest.
    fn fill(&mut self, begins: bool, left: u64, byte: u8, meter: &Meter) -> Part {
        if let Some(place) = self.first.get_mut(self.filled) {
            *place = byte;
            self.filled += 1;
        }
        let is_over = left <= 1;
        let is_full = self.filled >= FIRST;
        if begins && (is_over || is_full) {
            self.count(meter);
        }
        if is_over {
            return Part::Start;
        }
        Part::Rest {
            begins: begins && !is_full,
            left: left - 1,
        }
    }

    // Counts the message that begins with the bytes that came first.
    fn count(&mut self, meter: &Meter) {
        match self.direction {
            Direction::In => meter.note_received(),
            Direction::Out => if self.filled >= FIRST {
                meter.note_sent(&self.first);
            },
        }
    }
}

// What comes after a byte of the head of HTTP, which a blank line ends.
fn after_head(seen: u8, byte: u8) -> Part {
    match (seen, byte) {
        (0 | 2, b'\r') => Part::Head { seen: seen + 1 },
        (1, b'\n') => Part::Head { seen: 2 },
        (3, b'\n') => Part::Start,
        (_, b'\r') => Part::Head { seen: 1 },
        _ => Part::Head { seen: 0 },
    }
}

fn long_length(begins: bool, is_masked: bool, left: u8) -> Part {
    Part::LongLength {
        begins,
        is_masked,
        left,
        length: 0,
    }
}
