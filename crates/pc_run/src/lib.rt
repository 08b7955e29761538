//! A tracer: carries out the plain run of a module and returns its events and its end.
#![tactic(auto)]

mod calls;
mod collecting;
mod evaluate;
mod forms;
mod items;
mod loops;
mod running;
mod statements;
mod trace;

pub use pc_machine::plain_runs_are_runs;
pub use running::run;
pub use trace::{End, Trace, trace_text};
