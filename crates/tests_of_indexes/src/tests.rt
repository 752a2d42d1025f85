//! The tests, by what they are about.

mod list_plan;
mod listener_lists;
mod listener_tables;
mod listeners;
mod plan_lists;
mod plan_tables;
mod plans;
mod texts;
