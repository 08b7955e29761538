//! The laws on the types and the bound names of a module, each as the contract of a function.

ghost use Rattle.pc_module_rules.specs.Laws.Names.{NamesAreNoted};
ghost use Rattle.pc_module_rules.specs.Laws.Types.{FirstTypesAreNoted, TypesAreNoted};

/// The law that a walk over a module that keeps types shows exactly the types under the module's lawful labelling,
/// without those of callees that are names or attributes: each at the place of its expression, in the order of the
/// walk.
pub fn types_are_noted()
    ensures { TypesAreNoted }
{}

/// The law that the first type that such a walk notes at a place, shown or not, is the first there under the module's
/// lawful labelling, where the types of all callees count.
pub fn first_types_are_noted()
    ensures { FirstTypesAreNoted }
{}

/// The law that a walk over a module that keeps types notes exactly the constants and the locals that are bound under
/// the module's lawful labelling: each at the place of its name, with its declared type and its type after the binding,
/// in the order of the walk.
pub fn names_are_noted()
    ensures { NamesAreNoted }
{}
