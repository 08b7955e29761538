//! Laws of details: a detail is given exactly where its rule is broken.

ghost use Rattle.pc_detail_rules.specs.Annotations.{ClashesAreExact};
ghost use Rattle.pc_detail_rules.specs.CallLaws.{MethodMisfitsAreExact, NameMisfitsAreExact, ValueMisfitsAreExact};
ghost use Rattle.pc_detail_rules.specs.Calls.{MisfitsAreExact};
ghost use Rattle.pc_detail_rules.specs.Laws.{DynamicDetailsAreFlows, DynamicFlowsAreNotStatic};
ghost use Rattle.pc_detail_rules.specs.Laws.{EveryFindingIsExplained, WrongCallsHaveMisfits};
ghost use Rattle.pc_detail_rules.specs.Laws.{WrongFlowsAreNotAssignable};
ghost use Rattle.pc_detail_rules.specs.Noted.{AnnotationsAreReadOffNotes, DetailsAreReadOffNotes, NotesTellWhatIsKnown};
ghost use Rattle.pc_detail_rules.specs.Operations.{LackingIsExact};
ghost use Rattle.pc_detail_rules.specs.Overrides.{OverrideFaultsAreExact, OverridesAreExplained};
ghost use Rattle.pc_detail_rules.specs.Texts.{EveryFindingOfTextsIsExplained, TextsHaveOwnPlaces};
ghost use Rattle.pc_detail_rules.specs.Texts.{WrongCallsOfTextsHaveMisfits};

/// A call suits a signature exactly if its arguments have no misfit.
pub fn misfits_are_exact()
    ensures { MisfitsAreExact }
{}

/// A call of a value is an error at the call exactly if there is a misfit.
pub fn value_misfits_are_exact()
    ensures { ValueMisfitsAreExact }
{}

/// A method call on a member of the object's type is an error at the call exactly if there is a misfit.
pub fn method_misfits_are_exact()
    ensures { MethodMisfitsAreExact }
{}

/// A call of a name in a body is an error at the call exactly if there is a misfit.
pub fn name_misfits_are_exact()
    ensures { NameMisfitsAreExact }
{}

/// An operation is an error on a type exactly if there is a member of the type on which it is.
pub fn lacking_is_exact()
    ensures { LackingIsExact }
{}

/// Parts make a union exactly if there is no clash among them.
pub fn clashes_are_exact()
    ensures { ClashesAreExact }
{}

/// A method is good against one above exactly if no part differs, and static to it likewise.
pub fn override_faults_are_exact()
    ensures { OverrideFaultsAreExact }
{}

/// A method has a detail exactly if there is a method above that it does not fit.
pub fn overrides_are_explained()
    ensures { OverridesAreExplained }
{}

/// The notes of a check that keeps types tell what is known under the module's lawful labelling: the type at each
/// place, and the first wrong and the first dynamic flow there.
pub fn notes_tell_what_is_known()
    ensures { NotesTellWhatIsKnown }
{}

/// A detail explains a finding exactly if the rule of its code gives it over what the notes of such a check tell.
pub fn details_are_read_off_notes()
    ensures { DetailsAreReadOffNotes }
{}

/// An annotation is that of the target of a finding exactly if it is by what the notes of such a check tell.
pub fn annotations_are_read_off_notes()
    ensures { AnnotationsAreReadOffNotes }
{}

/// The two types of a detail of A1 are those that flow dynamically at its place: the first is assignable to the second,
/// but not static to it.
pub fn dynamic_details_are_flows()
    ensures flows { DynamicDetailsAreFlows }
    ensures types { DynamicFlowsAreNotStatic }
{}

/// The first type of a detail of E12 is not assignable to the second.
pub fn wrong_details_are_wrong()
    ensures { WrongFlowsAreNotAssignable }
{}

/// Where E14 is found there is a misfit, if at each place there is at most one expression.
pub fn wrong_calls_have_misfits()
    ensures { WrongCallsHaveMisfits }
{}

/// Each finding of a module has a detail. The rules of A1, E12, E14, E20 and E23 ask for types by their places, those
/// of E11 and A8 for a function by the place of its name, and those of E09 and E10 write types out: of these codes it
/// holds where no two expressions are at one place, no two functions are named at one, and no type is too large to be
/// written out.
pub fn every_finding_is_explained()
    ensures { EveryFindingIsExplained }
{}

/// In a module that a text spells no two expressions are at one place, and no two functions are named at one.
pub fn texts_have_own_places()
    ensures { TextsHaveOwnPlaces }
{}

/// Each finding of a module that a text spells has a detail; of `E09` and `E10`, if no type is too large to be written
/// out.
pub fn every_finding_of_texts_is_explained()
    ensures { EveryFindingOfTextsIsExplained }
{}

/// Where E14 is found in a module that a text spells there is a misfit.
pub fn wrong_calls_of_texts_have_misfits()
    ensures { WrongCallsOfTextsHaveMisfits }
{}
