//! The example of the target of a `for` read after the loop.

ghost use Rattle.pc_module_rules.specs.Modules.{HasLabelling};
ghost use Rattle.pc_machine.specs.Runs.{Run};
ghost use Rattle.pc_sound.specs.Examples.{FindsJust};
ghost use Rattle.pc_sound.specs.AssignmentExample.{program, findings, events, end};

/// The law of a module that reads the target of a `for` after the loop: it has a lawful labelling; it has one finding,
/// an error; and its run, in which the loop has no turn, raises an UnboundLocalError.
pub fn example_of_assignment()
    ensures labelled { HasLabelling program }
    ensures found { FindsJust program findings }
    ensures runs { Run program events end }
{}
