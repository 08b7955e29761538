//! The result of a call on one member of its callee's type.

ghost use Rattle.std.specs.Prelude.{◌≡◌, ◌++◌, ◌∷◌, [], None, map, All, IfOk, OnOk};
ghost use Rattle.pc_types.specs.Tree.{Tree};
ghost use Rattle.pc_types.specs.Store.{KeepsTypes};
ghost use Rattle.pc_rules.specs.Calls.{signature_offer, plain_call, fails_at_call, fails_at_callee, value_offer};
ghost use Rattle.pc_rules.specs.Calls.{value_offers, builtin_signature};
ghost use Rattle.pc_class.specs.Listings.{listed_in};
ghost use Rattle.pc_class.specs.Tables.{HasParameter};
ghost use Rattle.pc_calls.specs.JudgedCalls.{given_with, signature_listed, offer_called, HasCallOffer, IsCallOffer};
ghost use Rattle.pc_calls.specs.JudgedCalls.{AreCallOffers};

use crate::arguments::Given;
use crate::listed::suits_list;
use crate::params::is_suited_by;
use pc_class::Listing;
use pc_source::OutOfMemory;
use pc_tree::Code;
use pc_types::{Head, TypeStore};
use std::alloc::Global;

/// A list of parameters to call: of a function, a method or a class; or the parameter types of a method of a built-in
/// type, which cannot be given by name.
#[derive(Drop)]
pub enum Called<'t, Ty: Drop> {
    Listed(Listing<'t, Ty>),
    Builtin(Vec<Ty>),
}

/// The result of a call on one member: the codes at the callee and at the call, the type that it gives, and the
/// parameters called, if any.
#[derive(Drop)]
pub struct CallOffer<'t, Ty: Drop> {
    pub at_callee: Option<Code>,
    pub at_call: Option<Code>,
    pub gives: Ty,
    pub calls: Option<Called<'t, Ty>>,
}

/// The rule of a call: by the members of the callee, as `len`, or as an instance test.
#[derive(Clone, Copy, Debug, PartialEq, Eq)]
pub enum CallRule {
    Member,
    Length,
    Test,
}

/// Returns a call that gives a type, without codes, whose arguments flow nowhere.
pub fn plain_call<'t, Ty: Drop>(gives: Ty) -> CallOffer<'t, Ty>
    ensures offer { (tree : Ty → Tree) → offer_called tree result ≡ plain_call (tree gives) }
    ensures gives { result.gives ≡ gives }
    ensures calls { result.calls ≡ None }
{
    CallOffer {
        at_callee: None,
        at_call: None,
        gives,
        calls: None,
    }
}

/// Returns a call with this code at the call, which gives `Any`.
pub fn fails_at_call<'t, S: TypeStore>(
    store: &mut S,
    alloc: Global,
    code: Code,
) -> Result<CallOffer<'t, S::Ty>, OutOfMemory>
    ensures offer { IfOk result (λ o. IsCallOffer S.has S.tree store.new o (fails_at_call code)) }
    ensures kept { KeepsTypes S.has store.old store.new }
{
    let gives = store.any(alloc)?;
    Ok(CallOffer {
        at_callee: None,
        at_call: Some(code),
        gives,
        calls: None,
    })
}

/// Returns a call with this code at the callee, which gives `Any`.
pub fn fails_at_callee<'t, S: TypeStore>(
    store: &mut S,
    alloc: Global,
    code: Code,
) -> Result<CallOffer<'t, S::Ty>, OutOfMemory>
    ensures offer { IfOk result (λ o. IsCallOffer S.has S.tree store.new o (fails_at_callee code)) }
    ensures kept { KeepsTypes S.has store.old store.new }
{
    let gives = store.any(alloc)?;
    Ok(CallOffer {
        at_callee: Some(code),
        at_call: None,
        gives,
        calls: None,
    })
}

/// Returns the result of calling this list of parameters, with this return type: E14 if the arguments do not suit.
/// Language Reference 6.3.4 "Calls".
pub fn call_of_list<'t, S: TypeStore>(
    store: &mut S,
    alloc: Global,
    given: &Given,
    params: Listing<'t, S::Ty>,
    returns: S::Ty,
) -> Result<CallOffer<'t, S::Ty>, OutOfMemory>
    requires params { All (HasParameter (S.has store.old)) (listed_in params) }
    requires returns { S.has store.old returns }
    ensures offer { IfOk result
        (λ o. IsCallOffer S.has S.tree store.new o
        (signature_offer (given_with given.now)
        (signature_listed S.tree (S.tree returns) (listed_in params.entry)))) }
    ensures kept { KeepsTypes S.has store.old store.new }
{
    if !suits_list(given, &params) {
        return fails_at_call(store, alloc, Code::E14);
    }
    Ok(CallOffer {
        at_callee: None,
        at_call: None,
        gives: returns,
        calls: Some(Called::Listed(params)),
    })
}

/// Returns the result of calling a method of a built-in type, with parameters of these types and this return type: E14
/// if the arguments do not suit.
pub fn call_of_builtin<'t, S: TypeStore>(
    store: &mut S,
    alloc: Global,
    given: &Given,
    types: Vec<S::Ty>,
    returns: S::Ty,
) -> Result<CallOffer<'t, S::Ty>, OutOfMemory>
    requires types { All (S.has store.old) types.items }
    requires returns { S.has store.old returns }
    ensures offer { IfOk result
        (λ o. IsCallOffer S.has S.tree store.new o
        (signature_offer (given_with given.now) (builtin_signature (map S.tree types.items) (S.tree returns)))) }
    ensures kept { KeepsTypes S.has store.old store.new }
{
    if !is_suited_by(given, types.len()) {
        return fails_at_call(store, alloc, Code::E14);
    }
    Ok(CallOffer {
        at_callee: None,
        at_call: None,
        gives: returns,
        calls: Some(Called::Builtin(types)),
    })
}

/// Returns the result of calling a value of one member type: A6 for `Any`, else E14.
fn value_offer<'t, S: TypeStore>(
    store: &mut S,
    alloc: Global,
    member: &S::Ty,
) -> Result<CallOffer<'t, S::Ty>, OutOfMemory>
    requires { S.has store.old member.now }
    ensures offer { IfOk result (λ o. IsCallOffer S.has S.tree store.new o (value_offer (S.tree member.now))) }
    ensures kept { KeepsTypes S.has store.old store.new }
{
    match store.head(member) {
        Head::Any => fails_at_call(store, alloc, Code::A6),
        _ => fails_at_call(store, alloc, Code::E14),
    }
}

/// Appends the result of a call on one member.
pub fn push_offer<'t, Ty: Drop>(
    offers: &mut Vec<CallOffer<'t, Ty>>,
    offer: CallOffer<'t, Ty>,
) -> Result<(), OutOfMemory>
    ensures { OnOk result (offers.new.items ≡ offers.old.items ++ offer.entry ∷ []) }
{
    offers.push(offer)?;
    Ok(())
}

/// Appends the results of calling a value on each member of its type.
pub fn push_value_offers<'t, S: TypeStore>(
    store: &mut S,
    alloc: Global,
    ty: &S::Ty,
    offers: &mut Vec<CallOffer<'t, S::Ty>>,
) -> Result<(), OutOfMemory>
    requires ty { S.has store.old ty.now }
    requires offers { All (HasCallOffer (S.has store.old)) offers.old.items }
    ensures offers { OnOk result
        (AreCallOffers S.has S.tree store.new offers.new.items
        (map (offer_called S.tree) offers.old.items ++ value_offers (S.tree ty.now))) }
    ensures kept { KeepsTypes S.has store.old store.new }
{
    let members = store.members(alloc, ty)?;
    for i in 0..members.len() {
        let offer = value_offer(store, alloc, &members[i])?;
        push_offer(offers, offer)?;
    }
    Ok(())
}
