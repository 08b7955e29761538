//! The example of tests for a list.

ghost use Rattle.pc_module_rules.specs.Modules.{HasLabelling};
ghost use Rattle.pc_machine.specs.Runs.{Run};
ghost use Rattle.pc_sound.specs.Examples.{FindsJust};
ghost use Rattle.pc_sound.specs.NarrowingExample.{end, events, findings, program};

/// The law of a module that tests a parameter of type Any for a list, and then one of a union: its only finding is the
/// first test, as A7, and a run of it narrows both and ends normally.
pub fn example_of_narrowing()
    ensures labelled { HasLabelling program }
    ensures found { FindsJust program findings }
    ensures runs { Run program events end }
{}
