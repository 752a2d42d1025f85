//! The tests, by what they are about.

mod board;
mod broken;
mod checkpoints;
mod command;
mod connections;
mod counters;
mod drives;
mod files;
mod halts;
mod looks;
mod pages;
mod script;
mod streams;
mod texts;
mod together;
mod visits;
mod wakes;
mod world_scripts;
mod worlds;
