//! Laws of annotations and of the bases of classes, as contracts of functions that do nothing.

ghost use Rattle.pc_tree.specs.Tree.{Module};
ghost use Rattle.pc_types.specs.Below.{AreSmaller};
ghost use Rattle.pc_annotations.specs.Bases.{bases_of};
ghost use Rattle.pc_annotations.specs.Listed.{AnnFindingsAreListed, OptionalFindingsAreListed};
ghost use Rattle.pc_annotations.specs.WellFormed.{AnnotationsAreWellFormed, OptionalAnnotationsAreWellFormed};

/// The law that the list of the findings of an annotation has exactly its findings. The same is true of an annotation
/// that may be missing.
pub fn findings_are_listed()
    ensures annotation { AnnFindingsAreListed }
    ensures optional { OptionalFindingsAreListed }
{}

/// The law that the type of an annotation, also of a missing one, is in normal form, has no absorbed member and has at
/// most 256 nodes.
pub fn annotations_are_well_formed()
    ensures annotation { AnnotationsAreWellFormed }
    ensures optional { OptionalAnnotationsAreWellFormed }
{}

/// The law that the base of each class of a module comes before the class.
pub fn bases_stand_before()
    ensures { (m : Module) → AreSmaller (bases_of m) }
{}
