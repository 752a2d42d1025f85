//! Tests of connections over streams of known bytes and over TCP, of a server that is kept in a file,
//! of its clients, of scripts of worlds, of looks at a file, and of the command line, over the public calls of the crates
//! from `pres_websocket` to `pres_command`. They stand in a crate of their own, since a crate with tests is
//! proved twice.
#![tactic(auto)]

#[cfg(test)]
mod tests;
