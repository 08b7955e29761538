//! The example of a constant that reads a later one.

ghost use Rattle.pc_module_rules.specs.Modules.{HasLabelling};
ghost use Rattle.pc_machine.specs.Runs.{Run};
ghost use Rattle.pc_sound.specs.Examples.{FindsJust};
ghost use Rattle.pc_sound.specs.OrderExample.{end, events, findings, program};

/// The law of a module whose first constant reads the second: its only finding is that name, as E03, and a run of it
/// evaluates the name and ends in a NameError.
pub fn example_of_order()
    ensures labelled { HasLabelling program }
    ensures found { FindsJust program findings }
    ensures runs { Run program events end }
{}
