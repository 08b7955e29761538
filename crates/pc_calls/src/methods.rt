//! Callees `e.m`: a method of a class, a list or a dict, or the value of a field.

ghost use Rattle.std.specs.Prelude.{◌≡◌, ◌++◌, None, map, All, IfOk, OnOk};
ghost use Rattle.pc_types.specs.Store.{KeepsTypes};
ghost use Rattle.pc_tree.specs.Tree.{name_of};
ghost use Rattle.pc_class.specs.Facts.{field_by_name, method_by_name, class_facts_at};
ghost use Rattle.pc_class.specs.Tables.{HasEntries, HasMethod, classes_with, method_with};
ghost use Rattle.pc_rules.specs.Calls.{GivenArguments as GivenOf, signature_offer, method_signature, class_offers};
ghost use Rattle.pc_rules.specs.Calls.{list_offers, dict_offers, method_offers, method_callee};
ghost use Rattle.pc_rules.specs.Computed.Standing.{context_with};
ghost use Rattle.pc_calls.specs.JudgedCalls.{given_with, class_in_head, offer_called, HasCallOffer, IsCallOffer};
ghost use Rattle.pc_calls.specs.JudgedCalls.{IsOnlyOffer, AreCallOffers, IsCallee, other_offers};

use crate::arguments::Given;
use crate::call_offers::{
    CallOffer, CallRule, call_of_builtin, call_of_list, fails_at_callee, push_offer,
    push_value_offers,
};
use crate::callee::TypedCallee;
use crate::calling::codes_at_callee;
use pc_class::{ClassTable, Listing, Method};
use pc_flow::join_or_object;
use pc_rules::{ExprContext, Label};
use pc_source::OutOfMemory;
use pc_tree::{Code, Name};
use pc_types::{Head, Parents, TypeStore};
use std::alloc::Global;

/// A call of a method: its name, and the arguments that it gives.
#[derive(Drop)]
struct MethodCall<'c> {
    name: &'c str,
    given: &'c Given<'c>,
}

/// Returns the result of calling a method of a class, without its parameter `self`.
fn method_offer<'t, S: TypeStore>(
    store: &mut S,
    alloc: Global,
    given: &Given,
    method: &'t Method<S::Ty>,
) -> Result<CallOffer<'t, S::Ty>, OutOfMemory>
    requires { HasMethod (S.has store.old) method.now }
    ensures offer { IfOk result
        (λ o. IsCallOffer S.has S.tree store.new o
        (signature_offer (given_with given.now) (method_signature (method_with S.tree method.now)))) }
    ensures kept { KeepsTypes S.has store.old store.new }
{
    let returns = store.copy(alloc, &method.ret)?;
    let offer = call_of_list(
        store,
        alloc,
        given,
        Listing::Parameters(&method.params),
        returns,
    )?;
    Ok(offer)
}

/// Appends the results of calling the value of a field of a class; E15 if the class has no such field.
fn push_field_offers<'t, S: TypeStore>(
    store: &mut S,
    alloc: Global,
    classes: &'t ClassTable<S::Ty>,
    word: &str,
    class: usize,
    offers: &mut Vec<CallOffer<'t, S::Ty>>,
) -> Result<(), OutOfMemory>
    requires classes { HasEntries (S.has store.old) classes.now }
    requires offers { All (HasCallOffer (S.has store.old)) offers.old.items }
    ensures offers { (g : GivenOf)
        → OnOk result (AreCallOffers S.has S.tree store.new offers.new.items
        (map (offer_called S.tree) offers.old.items
        ++ class_offers g None (field_by_name
        (class_facts_at (classes_with S.tree classes.now) class).fields word.now))) }
    ensures kept { KeepsTypes S.has store.old store.new }
{
    match classes.field(class, word) {
        Some(field) => {
            push_value_offers(store, alloc, &field.ty, offers)?;
            Ok(())
        }
        None => {
            let offer = fails_at_callee(store, alloc, Code::E15)?;
            push_offer(offers, offer)?;
            Ok(())
        }
    }
}

/// Appends the results of calling a member of a class: a method, or else the value of a field.
fn push_class_offers<'t, S: TypeStore>(
    store: &mut S,
    alloc: Global,
    classes: &'t ClassTable<S::Ty>,
    call: &MethodCall,
    class: usize,
    offers: &mut Vec<CallOffer<'t, S::Ty>>,
) -> Result<(), OutOfMemory>
    requires classes { HasEntries (S.has store.old) classes.now }
    requires offers { All (HasCallOffer (S.has store.old)) offers.old.items }
    ensures offers { OnOk result
        (AreCallOffers S.has S.tree store.new offers.new.items
        (map (offer_called S.tree) offers.old.items
        ++ class_offers (given_with call.now.given.now)
        (method_by_name (class_facts_at (classes_with S.tree classes.now) class).methods call.now.name.now)
        (field_by_name (class_facts_at (classes_with S.tree classes.now) class).fields call.now.name.now))) }
    ensures kept { KeepsTypes S.has store.old store.new }
{
    match classes.method(class, call.name) {
        Some(method) => {
            let offer = method_offer(store, alloc, call.given, method)?;
            push_offer(offers, offer)?;
            Ok(())
        }
        None => {
            push_field_offers(store, alloc, classes, call.name, class, offers)?;
            Ok(())
        }
    }
}

/// Returns the result of calling a method of a list of these items: `append(T)` gives None, `pop()` gives T, any other
/// is E15. Own rule of the profile.
fn list_offer<'t, S: TypeStore>(
    store: &mut S,
    alloc: Global,
    call: &MethodCall,
    item: S::Ty,
) -> Result<CallOffer<'t, S::Ty>, OutOfMemory>
    requires { S.has store.old item }
    ensures offer { IfOk result
        (λ o. IsOnlyOffer S.has S.tree store.new o (list_offers (given_with call.now.given.now) call.now.name.now
        (S.tree item))) }
    ensures kept { KeepsTypes S.has store.old store.new }
{
    let mut types = Vec::new(alloc);
    if call.name == "append" {
        types.push(item)?;
        let none = store.none(alloc)?;
        return call_of_builtin(store, alloc, call.given, types, none);
    }
    if call.name == "pop" {
        return call_of_builtin(store, alloc, call.given, types, item);
    }
    fails_at_callee(store, alloc, Code::E15)
}

/// Returns the result of calling a method of a dict of these keys and values: `get(K)` gives the join of V and None,
/// any other is E15. Own rule of the profile.
fn dict_offer<'t, S: TypeStore>(
    store: &mut S,
    alloc: Global,
    parents: &Parents,
    call: &MethodCall,
    key: S::Ty,
    value: S::Ty,
) -> Result<CallOffer<'t, S::Ty>, OutOfMemory>
    requires key { S.has store.old key }
    requires value { S.has store.old value }
    ensures offer { IfOk result
        (λ o. IsOnlyOffer S.has S.tree store.new o
        (dict_offers parents.now (given_with call.now.given.now) call.now.name.now (S.tree key) (S.tree value))) }
    ensures kept { KeepsTypes S.has store.old store.new }
{
    if call.name != "get" {
        return fails_at_callee(store, alloc, Code::E15);
    }
    let mut types = Vec::new(alloc);
    types.push(key)?;
    let none = store.none(alloc)?;
    let returns = join_or_object(store, alloc, parents, &value, &none)?;
    call_of_builtin(store, alloc, call.given, types, returns)
}

/// Returns the result of calling a method on a member that is not an instance of a class.
fn other_offer<'t, S: TypeStore>(
    store: &mut S,
    alloc: Global,
    parents: &Parents,
    call: &MethodCall,
    member: &S::Ty,
) -> Result<CallOffer<'t, S::Ty>, OutOfMemory>
    requires member { S.has store.old member.now }
    ensures offer { IfOk result
        (λ o. IsOnlyOffer S.has S.tree store.new o
        (other_offers parents.now (given_with call.now.given.now) call.now.name.now (S.tree member.now))) }
    ensures kept { KeepsTypes S.has store.old store.new }
{
    match store.head(member) {
        Head::List => {
            let item = store.part(alloc, member, 0)?;
            list_offer(store, alloc, call, item)
        }
        Head::Dict => {
            let key = store.part(alloc, member, 0)?;
            let value = store.part(alloc, member, 1)?;
            dict_offer(store, alloc, parents, call, key, value)
        }
        Head::Any => fails_at_callee(store, alloc, Code::A4),
        _ => fails_at_callee(store, alloc, Code::E15),
    }
}

/// Returns the class whose instances have this head, if it is that of a class.
fn class_of(head: Head) -> Option<usize>
    ensures { result ≡ class_in_head head }
{
    match head {
        Head::Class(class) => Some(class),
        _ => None,
    }
}

/// Appends the results of a method call on one member.
fn push_method_offers<'t, S: TypeStore>(
    store: &mut S,
    alloc: Global,
    context: &ExprContext<'t, S::Ty>,
    call: &MethodCall,
    member: &S::Ty,
    offers: &mut Vec<CallOffer<'t, S::Ty>>,
) -> Result<(), OutOfMemory>
    requires classes { HasEntries (S.has store.old) context.now.globals.now.classes.now }
    requires member { S.has store.old member.now }
    requires offers { All (HasCallOffer (S.has store.old)) offers.old.items }
    ensures offers { OnOk result
        (AreCallOffers S.has S.tree store.new offers.new.items
        (map (offer_called S.tree) offers.old.items
        ++ method_offers (context_with S.tree context.now) (given_with call.now.given.now) call.now.name.now
        (S.tree member.now))) }
    ensures kept { KeepsTypes S.has store.old store.new }
{
    match class_of(store.head(member)) {
        Some(class) => {
            push_class_offers(store, alloc, context.globals.classes, call, class, offers)?;
            Ok(())
        }
        None => {
            let offer = other_offer(store, alloc, context.globals.outline.parents, call, member)?;
            push_offer(offers, offer)?;
            Ok(())
        }
    }
}

/// Returns the callee `e.m`, where `e` has this type. Language Reference 6.3.4 "Calls".
pub fn callee_of_method<'t, S: TypeStore>(
    store: &mut S,
    alloc: Global,
    context: &ExprContext<'t, S::Ty>,
    given: &Given,
    field: &Name,
    object: &S::Ty,
) -> Result<TypedCallee<'t, S::Ty>, OutOfMemory>
    requires classes { HasEntries (S.has store.old) context.now.globals.now.classes.now }
    requires object { S.has store.old object.now }
    ensures callee { IfOk result
        (λ c. IsCallee S.has S.tree store.new c
        (method_callee (context_with S.tree context.now) (given_with given.now) (name_of field.now).text
        (S.tree object.now))) }
    ensures kept { KeepsTypes S.has store.old store.new }
{
    let members = store.members(alloc, object)?;
    let word = field.text.as_str();
    let call = MethodCall { name: word, given };
    let mut offers = Vec::new(alloc);
    for i in 0..members.len() {
        push_method_offers(store, alloc, context, &call, &members[i], &mut offers)?;
    }
    let ty = store.any(alloc)?;
    let codes = codes_at_callee(alloc, &offers)?;
    Ok(TypedCallee {
        label: Label { ty, codes },
        rule: CallRule::Member,
        offers,
    })
}
