//! The tests, by what they are about.

mod apply;
mod bodies;
mod false_texts;
mod messages;
mod operations;
mod said;
mod trees;
