//! The example of a method overridden twice.

ghost use Rattle.pc_module_rules.specs.Modules.{HasLabelling};
ghost use Rattle.pc_machine.specs.Runs.{Run};
ghost use Rattle.pc_sound.specs.Examples.{FindsJust};
ghost use Rattle.pc_sound.specs.DispatchExample.{end, events, findings, program};

/// The law of a module that overrides a method twice: its findings are exactly the two overrides, each as A8, and a run
/// of it enters the second override with a text and ends in a TypeError.
pub fn example_of_dispatch()
    ensures labelled { HasLabelling program }
    ensures found { FindsJust program findings }
    ensures runs { Run program events end }
{}
