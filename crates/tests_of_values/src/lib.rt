//! Tests of values, operations, messages, saved bodies and operations from lines, over the public
//! calls of `pres_tree`, `pres_write`, `pres_wire`, `pres_batch_json` and `pres_apply`. They stand in a
//! crate of their own, since a crate with tests is proved twice.
#![tactic(auto)]

#[cfg(test)]
mod tests;
