//! The tests, by what they are about.

mod bases;
mod disconnections;
mod dispatchers;
mod groups;
mod lines;
mod logs;
mod pushes;
mod replays;
mod said;
mod schedule_lists;
mod schedules;
mod sessions;
mod turns;
