//! The label of a call by the members of its callee, and the test for members `Any` and `object`.

ghost use Rattle.std.specs.Prelude.{◌≡◌, map, All, IfOk};
ghost use Rattle.std.specs.List.{list_any};
ghost use Rattle.pc_tree.specs.Stopping.{has_none};
ghost use Rattle.pc_types.specs.Tree.{Tree};
ghost use Rattle.pc_types.specs.Shape.{members};
ghost use Rattle.pc_types.specs.Store.{KeepsTypes, Means};
ghost use Rattle.pc_flow.specs.Environment.{join_all};
ghost use Rattle.pc_rules.specs.Computed.Findings.{once};
ghost use Rattle.pc_rules.specs.Calls.{call_codes, call_label, is_object_or_any};
ghost use Rattle.pc_rules.specs.Computed.Standing.{MeansLabel};
ghost use Rattle.pc_calls.specs.JudgedCalls.{is_head_of_any, offer_called, found_at_callee, found_at_call};
ghost use Rattle.pc_calls.specs.JudgedCalls.{HasCallOffer};

use crate::call_offers::CallOffer;
use crate::seats::is_in_error;
use pc_flow::join_or_object;
use pc_rules::{Label, add_found};
use pc_source::OutOfMemory;
use pc_tree::Code;
use pc_types::{Head, Parents, TypeStore};
use std::alloc::Global;

/// Returns the codes at the callee on all members, each once.
pub fn codes_at_callee<Ty: Drop>(
    alloc: Global,
    offers: &[CallOffer<'_, Ty>],
) -> Result<Vec<Code>, OutOfMemory>
    ensures { IfOk result (λ codes. codes.items ≡ once (found_at_callee offers.now)) }
{
    let mut codes = Vec::new(alloc);
    for offer in offers {
        add_found(&mut codes, offer.at_callee)?;
    }
    Ok(codes)
}

/// Returns the codes at the call on all members, each once.
fn codes_at_call<Ty: Drop>(
    alloc: Global,
    offers: &[CallOffer<'_, Ty>],
) -> Result<Vec<Code>, OutOfMemory>
    ensures { IfOk result (λ codes. codes.items ≡ once (found_at_call offers.now)) }
{
    let mut codes = Vec::new(alloc);
    for offer in offers {
        add_found(&mut codes, offer.at_call)?;
    }
    Ok(codes)
}

/// Returns whether there are no codes.
fn are_none(codes: &[Code]) -> bool
    ensures { result ≡ has_none codes.now }
{
    match codes {
        [] => true,
        _ => false,
    }
}

/// Returns the codes at a call on all members, each once; none if there is a code at its callee.
pub fn call_codes<Ty: Drop>(
    alloc: Global,
    offers: &[CallOffer<'_, Ty>],
) -> Result<Vec<Code>, OutOfMemory>
    ensures { (tree : Ty → Tree)
        → IfOk result (λ codes. codes.items ≡ once (call_codes (map (offer_called tree) offers.now))) }
{
    let at_callee = codes_at_callee(alloc, offers)?;
    if !are_none(&at_callee) {
        return Ok(Vec::new(alloc));
    }
    let codes = codes_at_call(alloc, offers)?;
    Ok(codes)
}

/// Returns the join of the types that a call gives on each member.
fn join_given<S: TypeStore>(
    store: &mut S,
    alloc: Global,
    parents: &Parents,
    offers: &[CallOffer<'_, S::Ty>],
) -> Result<S::Ty, OutOfMemory>
    requires { All (HasCallOffer (S.has store.old)) offers.now }
    ensures value { IfOk result
        (λ t. Means S.has S.tree store.new t
        (join_all parents.now (map (λ o. o.gives) (map (offer_called S.tree) offers.now)))) }
    ensures kept { KeepsTypes S.has store.old store.new }
{
    let mut joined = store.never(alloc)?;
    for i in 0..offers.len() {
        joined = join_or_object(store, alloc, parents, &joined, &offers[i].gives)?;
    }
    Ok(joined)
}

/// Returns the label of a call by the members of its callee: the join of the types that they give, `Any` if there is an
/// error. Language Reference 6.3.4 "Calls".
pub fn members_label<S: TypeStore>(
    store: &mut S,
    alloc: Global,
    parents: &Parents,
    offers: &[CallOffer<'_, S::Ty>],
) -> Result<Label<S::Ty>, OutOfMemory>
    requires { All (HasCallOffer (S.has store.old)) offers.now }
    ensures label { IfOk result
        (λ l. MeansLabel S.has S.tree store.new l (call_label parents.now (map (offer_called S.tree) offers.now))) }
    ensures kept { KeepsTypes S.has store.old store.new }
{
    let codes = call_codes(alloc, offers)?;
    if is_in_error(offers) {
        let ty = store.any(alloc)?;
        return Ok(Label { ty, codes });
    }
    let ty = join_given(store, alloc, parents, offers)?;
    Ok(Label { ty, codes })
}

/// Returns whether a head is that of `Any` or `object`.
fn is_object_or_any(head: Head) -> bool
    ensures { result ≡ is_head_of_any head }
{
    matches!(head, Head::Any | Head::Object)
}

/// Returns whether a member of a type is `Any` or `object`.
pub fn has_object_or_any<S: TypeStore>(
    store: &S,
    alloc: Global,
    ty: &S::Ty,
) -> Result<bool, OutOfMemory>
    requires { S.has store.now ty.now }
    ensures { IfOk result (λ b. b ≡ list_any is_object_or_any (members (S.tree ty.now))) }
{
    let members = store.members(alloc, ty)?;
    for i in 0..members.len() {
        if is_object_or_any(store.head(&members[i])) {
            return Ok(true);
        }
    }
    Ok(false)
}
