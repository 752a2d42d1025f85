//! Tests of operations from lines, without a server.

mod ends;
mod runs;
mod streams;
