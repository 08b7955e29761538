//! The example of a loop that rebinds a narrowed parameter.

ghost use Rattle.pc_module_rules.specs.Modules.{HasLabelling};
ghost use Rattle.pc_machine.specs.Runs.{Run};
ghost use Rattle.pc_sound.specs.Examples.{FindsJust};
ghost use Rattle.pc_sound.specs.LoopExample.{program, findings, events, end};

/// The law of a module whose loop rebinds a narrowed parameter: it has a lawful labelling; it has one finding, an
/// error; and its run raises a TypeError in the second turn.
pub fn example_of_loops()
    ensures labelled { HasLabelling program }
    ensures found { FindsJust program findings }
    ensures runs { Run program events end }
{}
