//! Tests that compare indexes with simple bodies that walk lists, over the public calls of the
//! crates that keep one. They need no server, and are a crate of their own, since a crate with
//! tests is proved twice.
#![tactic(auto)]

#[cfg(test)]
mod tests;
