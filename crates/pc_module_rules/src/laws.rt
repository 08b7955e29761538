//! The laws on lawful labellings of statements and modules.

ghost use Rattle.std.specs.Prelude.{◌≡◌, ℕ, List, None, Option, Some};
ghost use Rattle.pc_source.specs.declared.place.Place.{Place};
ghost use Rattle.pc_tree.specs.declared.code.Finding.{Finding};
ghost use Rattle.pc_tree.specs.Tree.{Expr, Module, Name, Stmts, for_loop, returns};
ghost use Rattle.pc_scope_findings.specs.Findings.{ScopeFinds};
ghost use Rattle.pc_types.specs.Tree.{Tree};
ghost use Rattle.pc_types.specs.Below.{Static};
ghost use Rattle.pc_flow.specs.Environment.{Env, current};
ghost use Rattle.pc_rules.specs.Context.{Context};
ghost use Rattle.pc_rules.specs.Labels.{type_of};
ghost use Rattle.pc_module_rules.specs.StatementLabels.{StmtLabels};
ghost use Rattle.pc_module_rules.specs.Statements.{LawfulStmt, NamesBound, StmtFinds};
ghost use Rattle.pc_module_rules.specs.Laws.Agreement.{AgreesWithScopes};
ghost use Rattle.pc_module_rules.specs.Laws.Labellings.{StatementsAreLabelled, SuitesAreLabelled, FunctionsAreLabelled};
ghost use Rattle.pc_module_rules.specs.Laws.Labellings.{ClassesAreLabelled};
ghost use Rattle.pc_module_rules.specs.Laws.Walks.{WalksOfStatementsSayWhatLabelsSay, WalksOfSuitesSayWhatLabelsSay};
ghost use Rattle.pc_module_rules.specs.Laws.Walks.{BodiesFindWhatLabelsSay};
ghost use Rattle.pc_module_rules.specs.Laws.Modules.{ConstantsHaveTheTypesOfLabels, SignaturesFindWhatLabelsSay};
ghost use Rattle.pc_module_rules.specs.Laws.Modules.{ModulesFindWhatLabelsSay, ModulesFindWhatLabelsFind};
ghost use Rattle.pc_module_rules.specs.Laws.Modules.{FindingsOfModulesAreComputed};
ghost use Rattle.pc_module_rules.specs.Modules.{Labelling, IsLawful, IsFinding, HasLabelling, HasOneLabelling};
ghost use Rattle.pc_module_rules.specs.Modules.{HasExactlyOneLabelling};

/// The law that a module has at most one lawful labelling.
pub fn one_labelling()
    ensures { (m : Module) → HasOneLabelling m }
{}

/// The law that each statement and each suite has lawful labels, given a table of declared types and an environment
/// that depend only on the names bound so far, with types in normal form, without absorbed members and of at most 256
/// nodes; and that the same holds of the table and the environment after it.
pub fn suites_have_labels()
    ensures statement { StatementsAreLabelled }
    ensures suite { SuitesAreLabelled }
{}

/// The law that each function, and the members of each class, have lawful labels, if the types of the constants are in
/// normal form, without absorbed members and of at most 256 nodes.
pub fn functions_have_labels()
    ensures function { FunctionsAreLabelled }
    ensures members { ClassesAreLabelled }
{}

/// The law that each module has a lawful labelling.
pub fn every_module_has_a_labelling()
    ensures { (m : Module) → HasLabelling m }
{}

/// The law that each module has exactly one lawful labelling.
pub fn every_module_has_exactly_one_labelling()
    ensures { (m : Module) → HasExactlyOneLabelling m }
{}

/// The law that the findings of scope analysis are findings of a module.
pub fn findings_of_scopes()
    ensures { (m : Module) (f : Finding) → ScopeFinds m f → IsFinding m f }
{}

/// The law that a lawful labelling has E02 and E03 exactly where scope analysis finds them. Both are reported by scope
/// analysis alone; labels have them for their types.
pub fn labels_agree_with_scopes()
    ensures { (m : Module) (labels : Labelling m) → IsLawful m labels → AgreesWithScopes m labels }
{}

/// The law that a local that is not assigned before a `for` is not assigned after it, its target included: the loop may
/// run no iteration.
pub fn loops_may_take_no_turn()
    ensures { (m : Module) (ctx : Context) (declared : List Tree) (returned : Tree) (seen : NamesBound)
        (env after : Env) (p : Place) (n : Name) (e : Expr) (b : Stmts) (labels : StmtLabels (for_loop p n e b)) (x : ℕ)
        → LawfulStmt m ctx declared returned seen env (for_loop p n e b) labels (Some after) → current env x ≡ None
        → current after x ≡ None }
{}

/// The law that if nothing is found at a `return`, the type of its value is a static subtype of the return type.
pub fn returned_values_flow()
    ensures { (m : Module) (ctx : Context) (declared : List Tree) (returned : Tree) (seen : NamesBound) (env : Env)
        (out : Option Env) (p : Place) (e : Expr) (labels : StmtLabels (returns p (Some e)))
        → LawfulStmt m ctx declared returned seen env (returns p (Some e)) labels out
        → ((f : Finding) → ¬ (StmtFinds m ctx seen (returns p (Some e)) labels f))
        → Static ctx.bases (type_of e labels.value) returned }
{}

/// The law that a walk over a statement or a suite, from a table of declared types and an environment that fit its
/// lawful labels, reaches the environments of the labels and finds exactly what is under them, except E02 and E03,
/// which scope analysis reports. The same holds of the walk over the body of a function, with E21 at its name.
pub fn walks_say_what_labels_say()
    ensures statement { WalksOfStatementsSayWhatLabelsSay }
    ensures suite { WalksOfSuitesSayWhatLabelsSay }
    ensures body { BodiesFindWhatLabelsSay }
{}

/// The law that everything computed of a module agrees with its lawful labelling: the types of its constants are those
/// of the labels, and the walks over its signatures, its constants and its bodies find exactly what is under the
/// labels, except E02 and E03. The findings of a module are then those of scope analysis, those of classes, and those
/// of these walks.
pub fn modules_find_what_labels_say()
    ensures constants { ConstantsHaveTheTypesOfLabels }
    ensures signatures { SignaturesFindWhatLabelsSay }
    ensures adds { ModulesFindWhatLabelsSay }
    ensures found { ModulesFindWhatLabelsFind }
    ensures all { FindingsOfModulesAreComputed }
{}
