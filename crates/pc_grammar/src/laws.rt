//! Laws of the grammar. Each function states one and does nothing.

ghost use Rattle.pc_grammar.specs.Faults.{OneModule};
ghost use Rattle.pc_grammar.specs.Fronts.{FrontsAgree};

/// A list of tokens spells at most one module. Language Reference 10 "Full Grammar specification".
pub fn one_module()
    ensures { OneModule }
{}

/// The tokens with which some module begins are those that lead to some state of the machine that reads one. Own rule
/// of the profile.
pub fn fronts()
    ensures { FrontsAgree }
{}
