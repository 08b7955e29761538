//! Laws on plain runs: there is exactly one for each fuel and choices, and more fuel only extends it.
#![tactic(auto)]

mod laws;

pub use laws::{every_module_runs_plainly, less_fuel_gives_a_beginning, one_plain_run};
