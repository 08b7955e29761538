//! Calls of functions and classes.

ghost use Rattle.std.specs.Prelude.{map, All, IfOk, slice_get};
ghost use Rattle.pc_types.specs.Store.{KeepsTypes};
ghost use Rattle.pc_class.specs.Tables.{HasEntries, classes_with};
ghost use Rattle.pc_rules.specs.Calls.{signature_offer, class_signature, function_offer};
ghost use Rattle.pc_rules.specs.Computed.Standing.{signature_with, HasSignature};
ghost use Rattle.pc_calls.specs.JudgedCalls.{given_with, IsCallOffer};

use crate::arguments::Given;
use crate::call_offers::{CallOffer, call_of_list, fails_at_call};
use pc_class::{ClassTable, Listing};
use pc_rules::Signature;
use pc_source::OutOfMemory;
use pc_tree::Code;
use pc_types::TypeStore;
use std::alloc::Global;

/// Returns the result of calling the function of this number; A6, as for a value of type `Any`, if there is none.
pub fn function_offer<'t, S: TypeStore>(
    store: &mut S,
    alloc: Global,
    given: &Given,
    functions: &'t [Signature<S::Ty>],
    function: usize,
) -> Result<CallOffer<'t, S::Ty>, OutOfMemory>
    requires { All (HasSignature (S.has store.old)) functions.now }
    ensures offer { IfOk result
        (λ o. IsCallOffer S.has S.tree store.new o
        (function_offer (given_with given.now) (slice_get (map (signature_with S.tree) functions.now) function))) }
    ensures kept { KeepsTypes S.has store.old store.new }
{
    if function >= functions.len() {
        return fails_at_call(store, alloc, Code::A6);
    }
    let signature = &functions[function];
    let returns = store.copy(alloc, &signature.ret)?;
    let offer = call_of_list(
        store,
        alloc,
        given,
        Listing::Parameters(&signature.params),
        returns,
    )?;
    Ok(offer)
}

/// Returns the result of calling a class, which takes its fields.
pub fn class_offer<'t, S: TypeStore>(
    store: &mut S,
    alloc: Global,
    given: &Given,
    classes: &'t ClassTable<S::Ty>,
    class: usize,
) -> Result<CallOffer<'t, S::Ty>, OutOfMemory>
    requires { HasEntries (S.has store.old) classes.now }
    ensures offer { IfOk result
        (λ o. IsCallOffer S.has S.tree store.new o
        (signature_offer (given_with given.now) (class_signature (classes_with S.tree classes.now) class))) }
    ensures kept { KeepsTypes S.has store.old store.new }
{
    let returns = store.class(alloc, class)?;
    call_of_list(
        store,
        alloc,
        given,
        Listing::Fields(classes, class),
        returns,
    )
}
