//! The law that a plain run is one of the runs of the model.

ghost use Rattle.pc_machine.specs.Runs.{PlainRunsAreRuns};

/// A law of the definitions: every plain run of a module, for any fuel and choices, is one of the runs of the module.
/// Own rule of the profile.
pub fn plain_runs_are_runs()
    ensures { PlainRunsAreRuns }
{}
