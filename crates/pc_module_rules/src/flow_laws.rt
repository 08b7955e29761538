//! The laws of flows, each as the contract of a function.

ghost use Rattle.pc_module_rules.specs.Laws.Flows.{DynamicFlowsAreComputed, DynamicFlowsAreDynamic};
ghost use Rattle.pc_module_rules.specs.Laws.Flows.{DynamicFlowsAreFound};
ghost use Rattle.pc_module_rules.specs.Laws.Flows.{DynamicFlowsAreUnique, DynamicFlowsAreWellFormed};
ghost use Rattle.pc_module_rules.specs.Laws.Flows.{FirstFlowsAreNoted, FlowsAreComputed};
ghost use Rattle.pc_module_rules.specs.Laws.Flows.{WrongFlowsAreFound};
ghost use Rattle.pc_module_rules.specs.Laws.Flows.{WrongFlowsAreWellFormed, WrongFlowsAreWrong};

/// The law that A1 is found at a place of a module exactly if a type flows dynamically there: if a flow under its
/// lawful labelling has that code.
pub fn dynamic_flows_are_found()
    ensures { DynamicFlowsAreFound }
{}

/// The law that a type that flows dynamically into another is assignable to it but not a static subtype of it; and that
/// both are in normal form, without absorbed members and of at most 256 nodes.
pub fn dynamic_flows_are_dynamic()
    ensures flows { DynamicFlowsAreDynamic }
    ensures types { DynamicFlowsAreWellFormed }
{}

/// The law that the two types that a walk computes at a place of a module are those of the first dynamic flow there
/// under its lawful labelling; and that no other two flow dynamically there. So the computed pair is the one that the
/// rules define.
pub fn dynamic_flows_stand_under_labels()
    ensures computed { DynamicFlowsAreComputed }
    ensures unique { DynamicFlowsAreUnique }
{}

/// The law that E12 is found at a place of a module exactly if a type flows wrongly there: if a flow under its lawful
/// labelling has that code.
pub fn wrong_flows_are_found()
    ensures { WrongFlowsAreFound }
{}

/// The law that a type that flows wrongly into another is not assignable to it; and that both are in normal form,
/// without absorbed members and of at most 256 nodes.
pub fn wrong_flows_are_wrong()
    ensures flows { WrongFlowsAreWrong }
    ensures types { WrongFlowsAreWellFormed }
{}

/// The law that the two types that a walk computes for a code at a place of a module are those of the first flow there
/// with that code, under its lawful labelling.
pub fn computed_flows_stand_under_labels()
    ensures { FlowsAreComputed }
{}

/// The law that the first flow with a code that a walk notes at a place, where it keeps types, is the first flow there
/// with that code, under the module's lawful labelling.
pub fn first_flows_are_noted()
    ensures { FirstFlowsAreNoted }
{}
