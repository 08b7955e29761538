//! Laws on plain runs: there is exactly one for each fuel and choices, and more fuel only extends it.

ghost use Rattle.pc_plain_runs.specs.PlainRuns.{EveryModuleRunsPlainly, LessFuelGivesABeginning, OnePlainRun};

/// The law that any two plain runs of a module for the same fuel and choices have the same events, in the same order,
/// and the same end. Own rule of the profile.
pub fn one_plain_run()
    ensures { OnePlainRun }
{}

/// The law that each module has a plain run for each fuel and choices. It does not depend on the bound on nested steps,
/// as long as the bound is above the fuel. Own rule of the profile.
pub fn every_module_runs_plainly()
    ensures { EveryModuleRunsPlainly }
{}

/// The law that the events of a plain run are a prefix of those with more fuel and the same choices. If the run with
/// less fuel is not cut off, the two runs are the same. Own rule of the profile.
pub fn less_fuel_gives_a_beginning()
    ensures { LessFuelGivesABeginning }
{}
