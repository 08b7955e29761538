//! Stores to attributes and items, member by member of the object's type.
#![tactic(auto, using(crate::proofs::StoredByHead::stored_by_head))]

ghost use Rattle.std.specs.Prelude.{◌≡◌, All, IfOk, map};
ghost use Rattle.std.specs.Option.{option_map};
ghost use Rattle.pc_types.specs.Tree.{Tree};
ghost use Rattle.pc_types.specs.Shape.{members};
ghost use Rattle.pc_types.specs.Store.{KeepsTypes};
ghost use Rattle.pc_class.specs.Tables.{HasEntries, classes_with};
ghost use Rattle.pc_rules.specs.Operations.{store_with, store_attribute_member, store_index_member, store_codes};
ghost use Rattle.pc_rules.specs.Operations.{store_index_types, stored_types, only_type};
ghost use Rattle.pc_rules.specs.Computed.Findings.{once};
ghost use Rattle.pc_rules.specs.Computed.Standing.{HasIfAny};
ghost use Rattle.pc_statements.specs.Storing.{store_on, store_offer_with, HasStoreOffer, IsStoreOffer};

use pc_class::ClassTable;
use pc_operations::{add_copy, has_error};
use pc_rules::add_found;
use pc_source::OutOfMemory;
use pc_tree::Code;
use pc_types::{Head, TypeStore};
use std::alloc::Global;

/// The result of a store on one member: the code found, the type that the index flows into, and the type that the
/// stored value flows into.
#[derive(Drop)]
pub(crate) struct StoreOffer<Ty: Drop> {
    pub found: Option<Code>,
    pub takes: Option<Ty>,
    pub stores: Option<Ty>,
}

/// The part of an object that is stored to. Language Reference 7.2 "Assignment statements".
#[derive(Clone, Copy)]
pub(crate) enum StoreTarget<'n> {
    /// `e.name = v`
    Attribute(&'n str),
    /// `e[i] = v`
    Index,
}

/// Returns the result of a store that only has this code: neither its index nor its value flows into a type.
fn store_with<Ty: Drop>(code: Code) -> StoreOffer<Ty>
    ensures is { (tree : Ty → Tree) → store_offer_with tree result ≡ store_with code }
    ensures takes { result.takes ≡ None }
    ensures stores { result.stores ≡ None }
{
    StoreOffer {
        found: Some(code),
        takes: None,
        stores: None,
    }
}

/// Returns the result of a store to an attribute of this name, for one member of the object's type: a field of an
/// instance takes a value of the field's type. Else the result has only a code: A4 for `Any`, E23 for a method, E15 for
/// any other.
fn attribute_store<S: TypeStore>(
    store: &S,
    alloc: Global,
    classes: &ClassTable<S::Ty>,
    name: &str,
    member: &S::Ty,
) -> Result<StoreOffer<S::Ty>, OutOfMemory>
    requires member { S.has store.now member.now }
    requires classes { HasEntries (S.has store.now) classes.now }
    ensures { IfOk result (λ o.
        IsStoreOffer S.has S.tree store.now o
        (store_attribute_member (classes_with S.tree classes.now) name.now (S.tree member.now))) }
{
    let class = match store.head(member) {
        Head::Class(class) => class,
        Head::Any => return Ok(store_with(Code::A4)),
        _ => return Ok(store_with(Code::E15)),
    };
    if let Some(field) = classes.field(class, name) {
        let stores = store.copy(alloc, &field.ty)?;
        return Ok(StoreOffer {
            found: None,
            takes: None,
            stores: Some(stores),
        });
    }
    match classes.method(class, name) {
        Some(_) => Ok(store_with(Code::E23)),
        None => Ok(store_with(Code::E15)),
    }
}

/// Returns the result of a store to an item, for one member of the object's type: a list takes an int and an item, a
/// dict a key and a value. Else the result has only a code: A3 for `Any`, E17 for any other.
fn index_store<S: TypeStore>(
    store: &mut S,
    alloc: Global,
    member: &S::Ty,
) -> Result<StoreOffer<S::Ty>, OutOfMemory>
    requires { S.has store.old member.now }
    ensures value { IfOk result (λ o. IsStoreOffer S.has S.tree store.new o (store_index_member (S.tree member.now))) }
    ensures kept { KeepsTypes S.has store.old store.new }
{
    match store.head(member) {
        Head::List => {
            let stores = store.part(alloc, member, 0)?;
            let takes = store.int(alloc)?;
            Ok(StoreOffer {
                found: None,
                takes: Some(takes),
                stores: Some(stores),
            })
        }
        Head::Dict => {
            let takes = store.part(alloc, member, 0)?;
            let stores = store.part(alloc, member, 1)?;
            Ok(StoreOffer {
                found: None,
                takes: Some(takes),
                stores: Some(stores),
            })
        }
        Head::Any => Ok(store_with(Code::A3)),
        _ => Ok(store_with(Code::E17)),
    }
}

/// Returns the result of a store to this part of an object, for one member of the object's type: the code found, or the
/// types that the index and the stored value flow into.
fn store_on<S: TypeStore>(
    store: &mut S,
    alloc: Global,
    classes: &ClassTable<S::Ty>,
    target: StoreTarget<'_>,
    member: &S::Ty,
) -> Result<StoreOffer<S::Ty>, OutOfMemory>
    requires member { S.has store.old member.now }
    requires classes { HasEntries (S.has store.old) classes.now }
    ensures value { IfOk result
        (λ o. IsStoreOffer S.has S.tree store.new o
        (store_on (classes_with S.tree classes.now) target.entry (S.tree member.now))) }
    ensures kept { KeepsTypes S.has store.old store.new }
{
    match target {
        StoreTarget::Attribute(name) => attribute_store(store, alloc, classes, name, member),
        StoreTarget::Index => index_store(store, alloc, member),
    }
}

/// Returns the results of a store on each member of a type, in order. Language Reference 7.2 "Assignment statements";
/// own rule of the profile.
pub(crate) fn store_offers<S: TypeStore>(
    store: &mut S,
    alloc: Global,
    classes: &ClassTable<S::Ty>,
    target: StoreTarget<'_>,
    ty: &S::Ty,
) -> Result<Vec<StoreOffer<S::Ty>>, OutOfMemory>
    requires ty { S.has store.old ty.now }
    requires classes { HasEntries (S.has store.old) classes.now }
    ensures held { IfOk result (λ os. All (HasStoreOffer (S.has store.new)) os.items) }
    ensures value { IfOk result
        (λ os. map (store_offer_with S.tree) os.items
        ≡ map (store_on (classes_with S.tree classes.now) target.entry) (members (S.tree ty.now))) }
    ensures kept { KeepsTypes S.has store.old store.new }
{
    let members = store.members(alloc, ty)?;
    let mut offers = Vec::new(alloc);
    for i in 0..members.len() {
        let offer = store_on(store, alloc, classes, target, &members[i])?;
        offers.push(offer)?;
    }
    Ok(offers)
}

/// Returns the codes of a store on all members, each once.
pub(crate) fn store_codes<Ty: Drop>(
    alloc: Global,
    offers: &[StoreOffer<Ty>],
) -> Result<Vec<Code>, OutOfMemory>
    ensures { (tree : Ty → Tree)
        → IfOk result (λ cs. cs.items ≡ once (store_codes (map (store_offer_with tree) offers.now))) }
{
    let mut codes = Vec::new(alloc);
    for offer in offers {
        add_found(&mut codes, offer.found)?;
    }
    Ok(codes)
}

/// Returns the types that the index of a store flows into on all members, none if one of them is in error.
pub(crate) fn store_index_types<S: TypeStore>(
    store: &S,
    alloc: Global,
    offers: &[StoreOffer<S::Ty>],
) -> Result<Vec<S::Ty>, OutOfMemory>
    requires { All (HasStoreOffer (S.has store.now)) offers.now }
    ensures held { IfOk result (λ ts. All (S.has store.now) ts.items) }
    ensures value { IfOk result
        (λ ts. map S.tree ts.items ≡ store_index_types (map (store_offer_with S.tree) offers.now)) }
{
    let codes = store_codes(alloc, offers)?;
    let mut types = Vec::new(alloc);
    if has_error(&codes) {
        return Ok(types);
    }
    for offer in offers {
        add_copy(store, alloc, &offer.takes, &mut types)?;
    }
    Ok(types)
}

/// Returns the types that a stored value flows into on all members, none if one of them is in error.
pub(crate) fn stored_types<S: TypeStore>(
    store: &S,
    alloc: Global,
    offers: &[StoreOffer<S::Ty>],
) -> Result<Vec<S::Ty>, OutOfMemory>
    requires { All (HasStoreOffer (S.has store.now)) offers.now }
    ensures held { IfOk result (λ ts. All (S.has store.now) ts.items) }
    ensures value { IfOk result (λ ts. map S.tree ts.items ≡ stored_types (map (store_offer_with S.tree) offers.now)) }
{
    let codes = store_codes(alloc, offers)?;
    let mut types = Vec::new(alloc);
    if has_error(&codes) {
        return Ok(types);
    }
    for offer in offers {
        add_copy(store, alloc, &offer.stores, &mut types)?;
    }
    Ok(types)
}

/// Returns the expected type of a stored value: the type that it flows into, if there is exactly one member and one
/// such type.
pub(crate) fn only_type<S: TypeStore>(
    store: &S,
    alloc: Global,
    offers: &[StoreOffer<S::Ty>],
    types: &[S::Ty],
) -> Result<Option<S::Ty>, OutOfMemory>
    requires { All (S.has store.now) types.now }
    ensures held { IfOk result (λ t. HasIfAny (S.has store.now) t) }
    ensures value { IfOk result
        (λ t. option_map S.tree t ≡ only_type (map (store_offer_with S.tree) offers.now) (map S.tree types.now)) }
{
    match (offers, types) {
        ([_], [ty]) => Ok(Some(store.copy(alloc, ty)?)),
        _ => Ok(None),
    }
}
