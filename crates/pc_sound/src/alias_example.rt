//! The example of one list passed as three types.

ghost use Rattle.pc_module_rules.specs.Modules.{HasLabelling};
ghost use Rattle.pc_machine.specs.Runs.{Run};
ghost use Rattle.pc_sound.specs.Examples.{FindsJust};
ghost use Rattle.pc_sound.specs.AliasExample.{program, findings, events, end};

/// The law of a module that passes a `list[int]` as `list[int | str]`, as `list[Any]` and as `Any`: it has a lawful
/// labelling; the first flow is an error, the second a dynamic place, the third neither; and its run ends normally.
pub fn example_of_aliases()
    ensures labelled { HasLabelling program }
    ensures found { FindsJust program findings }
    ensures runs { Run program events end }
{}
