//! The laws of lawful labels of expressions.

ghost use Rattle.std.specs.Prelude.{◌≡◌, Option, List, length};
ghost use Rattle.pc_types.specs.Tree.{Tree};
ghost use Rattle.pc_tree.specs.Tree.{Expr};
ghost use Rattle.pc_flow.specs.Environment.{Env};
ghost use Rattle.pc_rules.specs.Computed.Expressions.{LabelsAreLawful};
ghost use Rattle.pc_rules.specs.Computed.Findings.{LabelFindingsAreListed};
ghost use Rattle.pc_rules.specs.Context.{Context};
ghost use Rattle.pc_rules.specs.Labels.{Labels};
ghost use Rattle.pc_rules.specs.Lawful.{Lawful};
ghost use Rattle.pc_rules.specs.Laws.ListTests.{ListTestsAreDynamicPlaces};
ghost use Rattle.pc_rules.specs.Laws.WellFormed.{ExpressionsHaveLabels, LawfulLabelsAreWellFormed};
ghost use Rattle.pc_rules.specs.Laws.WellFormed.{BodyContextsAreWellFormed, InitializerContextsAreWellFormed};

/// The law that an expression has at most one lawful labelling in a given context and environment, for a given expected
/// type.
pub fn one_labelling_of_expressions()
    ensures { (ctx : Context) (declared : List Tree) (env : Env) → length declared ≡ length env
        → (want : Option Tree) (e : Expr) (labels others : Labels e) → Lawful ctx declared env want e labels
        → Lawful ctx declared env want e others → labels ≡ others }
{}

/// The law that an expression has a lawful labelling, if the types of everything it may name, of the locals and the
/// expected type are in normal form, without absorbed members and of at most 256 nodes; and that every type in any
/// lawful labelling of it is such a type.
pub fn expressions_have_labels()
    ensures labels { ExpressionsHaveLabels }
    ensures types { LawfulLabelsAreWellFormed }
{}

/// The law that the computed labels of an expression are lawful, under the same premises. It ties the computed twin of
/// the rules to the rules.
pub fn labels_are_lawful()
    ensures { LabelsAreLawful }
{}

/// The law that the types of everything a body or an initializer may name are in normal form, without absorbed members
/// and of at most 256 nodes, if those of the constants are.
pub fn contexts_are_well_formed()
    ensures bodies { BodyContextsAreWellFormed }
    ensures initializers { InitializerContextsAreWellFormed }
{}

/// The law that the list of the findings of an expression holds exactly the findings under its labels, except those of
/// scope analysis.
pub fn findings_are_listed()
    ensures { LabelFindingsAreListed }
{}

/// The law that a test of a local for a list, `isinstance(x, list)`, is a dynamic place (`A7`) if a member of the
/// local's current type is Any or object: the list may have items of any type.
pub fn list_tests_are_dynamic_places()
    ensures { ListTestsAreDynamicPlaces }
{}
