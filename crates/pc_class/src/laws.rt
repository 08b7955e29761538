//! Laws of the findings about classes and of overrides.

ghost use Rattle.std.specs.Prelude.{◌≡◌, ℕ, List, true, Contains, Some, bytes_eq};
ghost use Rattle.pc_tree.specs.Tree.{ClassDef, FuncDef, Module};
ghost use Rattle.pc_types.specs.Tree.{Class};
ghost use Rattle.pc_types.specs.Below.{Below};
ghost use Rattle.pc_class.specs.Bases.{base_named, bases_of};
ghost use Rattle.pc_class.specs.ClassFindingsLaw.{ClashesStop, ClassesFindJustTheirLists};
ghost use Rattle.pc_class.specs.Facts.{Method, class_facts_at, classes_of, method_made};
ghost use Rattle.pc_class.specs.NameFindings.{BasesAreFound, LateFieldsAreFound, ClassFindingsAreListed};
ghost use Rattle.pc_class.specs.Overrides.{IsJudgedOnce, overridden};
ghost use Rattle.pc_class.specs.OverrideFindings.{OverridesAreFound};
ghost use Rattle.pc_class.specs.Findings.{base_class};
ghost use Rattle.pc_class.specs.WellFormed.{ClassesAreWellFormed};

/// The law that a method of a class is judged against the methods of its name that the class's ancestors have, with
/// exactly one result: it is good and static, good but not static (`A8`), or not good (`E11`).
pub fn methods_are_judged_once()
    ensures { (m : Module) (c number : ℕ) (class : ClassDef) (f : FuncDef)
        → IsJudgedOnce (bases_of m) (overridden (base_class m c class).methods f.name.text) (method_made m c number f) }
{}

/// The law that a method of a class is judged against the methods of its name of each ancestor, including the farther
/// ones.
pub fn methods_are_judged_against_each_ancestor()
    ensures { (m : Module) (c b a : ℕ) (class : ClassDef) (name : List ℕ) (old : Method)
        → base_named m c class.base ≡ Some b → Below (bases_of m) (Class b) (Class a)
        → Contains (class_facts_at (classes_of m) a).methods old → bytes_eq name old.name ≡ true
        → Contains (overridden (base_class m c class).methods name) old }
{}

/// The law that the types of the fields and methods of a module's classes are in normal form, without absorbed members
/// and of at most 256 nodes.
pub fn classes_are_well_formed()
    ensures { ClassesAreWellFormed }
{}

/// The law that the lists of missing bases (E07) and of late fields (E08) are exactly those that the rules find; so is
/// the list of findings made while building a class table, with the names that clash (E06) by the entries of the
/// classes.
pub fn names_are_found()
    ensures bases { BasesAreFound }
    ensures late_fields { LateFieldsAreFound }
    ensures all { ClassFindingsAreListed }
{}

/// The law that the list of findings about overriding has exactly the methods that are not good against those that they
/// override (E11), and those that are good but not static (A8), by the rule.
pub fn overrides_are_found()
    ensures { OverridesAreFound }
{}

/// The law that the lists of findings about classes, by names (E06, E07, E08) and by overriding (E11, A8), together are
/// exactly the findings about classes. The members that clash (E06), found by the numbers of the bases, are in the same
/// order those that stop a run, which are found by the names of the bases among earlier items.
pub fn class_findings_are_exact()
    ensures clashes { ClashesStop }
    ensures all { ClassesFindJustTheirLists }
{}
