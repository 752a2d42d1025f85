//! Tests of saved rows, of keepers, of hubs over them, of seats, and of hubs with many
//! callers, over public calls. They stand in a crate of their own, since a crate with tests is proved twice.
#![tactic(auto)]

#[cfg(test)]
mod tests;
