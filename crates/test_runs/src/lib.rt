//! Tables of worked modules with their traces, of actions with their outcomes, and of the words of command lines.
#![tactic(auto)]

mod actions;
mod cases;
mod devices;
mod modules;
mod options;
mod tables;
mod values;

pub use tables::judge;
