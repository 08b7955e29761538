//! The signatures and constants of a module.
#![tactic(auto, using(pc_rules::proofs::TypingStates::goes_further))]

ghost use Rattle.std.specs.Prelude.{◌≡◌, map, slice_get, IfOk, OnOk};
ghost use Rattle.std.specs.Option.{option_copied};
ghost use Rattle.pc_annotations.specs.ModuleOutlines.{module_in, IsModuleOutline};
ghost use Rattle.pc_class.specs.Facts.{classes_of};
ghost use Rattle.pc_class.specs.Tables.{HasEntries, classes_with};
ghost use Rattle.pc_rules.specs.Signatures.{signatures_of};
ghost use Rattle.pc_rules.specs.Computed.Signatures.{constants_of, method_signatures, signatures_find};
ghost use Rattle.pc_signatures.specs.SignaturesHeld.{HeldSignatures, methods_seen, method_numbered, HasSigned};
ghost use Rattle.pc_signatures.specs.SignaturesHeld.{all_signatures_with};
ghost use Rattle.pc_rules.specs.Computed.Standing.{signature_with};
ghost use Rattle.pc_rules.specs.Computed.TypingStates.{AddsNotes, StateKept};

use crate::constants::read_items;
use pc_annotations::ModuleOutline;
use pc_callables::read_functions;
use pc_class::ClassTable;
use pc_rules::{ModuleContext, Signature, TypingState};
use pc_source::OutOfMemory;
use pc_types::TypeStore;
use std::marker::Model;

/// The types of the constants of a module, and the signatures of its functions and of the methods of its classes, each
/// in text order. Contracts see it as these lists.
///
/// Language Reference 3.12, 8.7 "Function definitions"; typing specification, "Type annotations".
#[derive(Drop)]
pub struct Signatures<Ty: Drop> {
    constants: Vec<Ty>,
    functions: Vec<Signature<Ty>>,
    methods: Vec<Vec<Signature<Ty>>>,
}

impl<Ty: Drop> Model for Signatures<Ty> {
    ghost Value = { HeldSignatures Ty };

    ghost view = { λ s. record {
      constants = s.constants.items;
      functions = s.functions.items;
      methods = methods_seen s.methods.items;
    } };
}

impl<Ty: Drop> Signatures<Ty> {
    /// Returns the types of the constants, in text order.
    pub fn constants(&self) -> &[Ty]
        ensures { result.now ≡ self.now.constants }
    {
        &self.constants
    }

    /// Returns the signatures of the functions, in text order.
    pub fn functions(&self) -> &[Signature<Ty>]
        ensures { result.now ≡ self.now.functions }
    {
        &self.functions
    }

    /// Returns the signature of the function with this number, if there is one.
    pub fn function(&self, number: usize) -> Option<&Signature<Ty>>
        ensures { option_copied result ≡ slice_get self.now.functions number }
    {
        self.functions.get(number)
    }

    /// Returns the signature, without `self`, of the method with this number of a class, if there is one.
    pub fn method(&self, class: usize, number: usize) -> Option<&Signature<Ty>>
        ensures { option_copied result ≡ method_numbered self.now.methods class number }
    {
        match self.methods.get(class) {
            None => None,
            Some(methods) => methods.get(number),
        }
    }
}

/// Reads the signatures and the constants of a module, and returns them. Appends the findings in annotations, at
/// defaults, in initializers and of their flows: first those of functions, then those of classes and constants in text
/// order. Findings in the annotations of fields and of methods that bind their names are not among them: `class_table`
/// appends those, and has the types. If `keeps`, the types of the labels in initializers are noted too.
///
/// Language Reference 3.12, 7.2 "Assignment statements" and 8.7 "Function definitions"; library reference,
/// `dataclasses`; typing specification, "Type annotations"; own rules of the profile.
#[tactic(auto, using(pc_rules::proofs::TypingStates::goes_further), unfolding(pc_rules::specs::Computed::Signatures::signatures_find))]
pub fn read_signatures<S: TypeStore>(
    state: &mut TypingState<'_, S>,
    outline: &ModuleOutline,
    classes: &ClassTable<S::Ty>,
    keeps: bool,
) -> Result<Signatures<S::Ty>, OutOfMemory>
    requires outline { IsModuleOutline outline.now }
    requires classes { classes_with S.tree classes.now ≡ classes_of (module_in outline.now) }
    requires entries { HasEntries (S.has state.old.store.now) classes.now }
    ensures held { IfOk result (HasSigned (S.has state.new.store.now)) }
    ensures constants { IfOk result (λ s. map S.tree s.constants ≡ constants_of (module_in outline.now)) }
    ensures functions { IfOk result
        (λ s. map (signature_with S.tree) s.functions ≡ signatures_of (module_in outline.now)) }
    ensures methods { IfOk result (λ s. all_signatures_with S.tree s.methods ≡ method_signatures
        (module_in outline.now)) }
    ensures found { OnOk result (AddsNotes state.old state.new
        (signatures_find (module_in outline.now) keeps)) }
    ensures goes_on { StateKept S.TypeStore state.old state.new }
{
    let functions = read_functions(state, outline)?;
    let globals = ModuleContext {
        outline,
        classes,
        functions: &functions,
        constants: &[],
        known: 0,
        keeps,
    };
    let read = read_items(state, &globals)?;
    Ok(Signatures {
        constants: read.constants,
        functions,
        methods: read.methods,
    })
}
