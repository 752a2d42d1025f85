//! Tests of sessions, plans, listeners, logs and the server, with the answers that it keeps, and of what
//! sessions are sent: of their lines and an engine with lines, over the public calls of the crates
//! from `pres_session` to `pres_dispatch`. They stand in a crate of their own, since a crate with tests
//! is proved twice.
#![tactic(auto)]

#[cfg(test)]
mod tests;
