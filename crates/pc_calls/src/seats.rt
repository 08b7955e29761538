//! The seats of the arguments of a call: their expected types, and the types that they flow into.

ghost use Rattle.std.specs.Prelude.{◌≡◌, ◌++◌, map, flat_map, All, IfOk, OnOk, option_to_list};
ghost use Rattle.std.specs.Option.{option_map};
ghost use Rattle.pc_tree.specs.Tree.{name_of};
ghost use Rattle.pc_types.specs.Tree.{Tree};
ghost use Rattle.pc_rules.specs.Operations.{has_error};
ghost use Rattle.pc_rules.specs.Calls.{all_codes, expected_type, positional_seat, named_seat, builtin_signature};
ghost use Rattle.pc_rules.specs.Lawful.{keyword_seat};
ghost use Rattle.pc_rules.specs.Computed.Standing.{HasIfAny};
ghost use Rattle.pc_calls.specs.JudgedCalls.{names_in, number_for, builtin_number, offer_called, HasCalled};
ghost use Rattle.pc_calls.specs.JudgedCalls.{signature_called};
ghost use Rattle.pc_class.specs.Listed.{names_listed};
ghost use Rattle.pc_class.specs.Listings.{listed_in};
ghost use Rattle.pc_class.specs.Tables.{HasParameter};
ghost use Rattle.pc_calls.specs.JudgedCalls.{HasCallOffer, types_at, seat_of, IsSeat, signature_listed};

use crate::arguments::{KeywordNames, is_among};
use crate::call_offers::{CallOffer, Called};
use pc_class::Listing;
use pc_source::OutOfMemory;
use pc_tree::{Code, Name};
use pc_types::TypeStore;
use std::alloc::Global;

/// The expected type of an argument or an item, if there is one, and the types that it flows into.
#[derive(Drop)]
pub struct Seat<Ty: Drop> {
    pub want: Option<Ty>,
    pub into: Vec<Ty>,
}

/// An argument by position, or by name.
#[derive(Clone, Copy)]
pub enum Argument<'n> {
    Position(usize),
    Name(&'n str),
}

/// Returns the number of the parameter in a list that an argument is for: its own position, or the first parameter of
/// its name.
fn listed_place<Ty: Drop>(params: &Listing<'_, Ty>, argument: Argument) -> Option<usize>
    ensures { result ≡ number_for argument.entry (names_listed (listed_in params.now)) }
{
    match argument {
        Argument::Position(position) => Some(position),
        Argument::Name(name) => params.place(name),
    }
}

/// Returns the type of the parameter in a list that an argument is for, if there is one.
fn listed_type<S: TypeStore>(
    store: &S,
    alloc: Global,
    params: &Listing<'_, S::Ty>,
    argument: Argument,
) -> Result<Option<S::Ty>, OutOfMemory>
    requires { All (HasParameter (S.has store.now)) (listed_in params.now) }
    ensures held { IfOk result (λ t. HasIfAny (S.has store.now) t) }
    ensures value { IfOk result
        (λ t. (returns : Tree) → option_to_list (option_map S.tree t)
        ≡ types_at argument.entry (signature_listed S.tree returns (listed_in params.now))) }
{
    match listed_place(params, argument) {
        None => Ok(None),
        Some(place) => match params.at(place) {
            None => Ok(None),
            Some(param) => {
                let ty = store.copy(alloc, &param.ty)?;
                Ok(Some(ty))
            }
        },
    }
}

/// Returns the number of the parameter of a built-in that an argument is for: its position. Its parameters all have the
/// empty name, so an argument of that name is for the first.
fn builtin_number(argument: Argument) -> Option<usize>
    ensures { result ≡ builtin_number argument.entry }
{
    match argument {
        Argument::Position(position) => Some(position),
        Argument::Name(name) => { if name == "" { Some(0) } else { None } }
    }
}

/// Returns the type that an argument of a built-in flows into, if there is such a parameter.
fn builtin_type<S: TypeStore>(
    store: &S,
    alloc: Global,
    types: &[S::Ty],
    argument: Argument,
) -> Result<Option<S::Ty>, OutOfMemory>
    requires { All (S.has store.now) types.now }
    ensures held { IfOk result (λ t. HasIfAny (S.has store.now) t) }
    ensures value { IfOk result
        (λ t. (returns : Tree) → option_to_list (option_map S.tree t)
        ≡ types_at argument.entry (builtin_signature (map S.tree types.now) returns)) }
{
    match builtin_number(argument) {
        None => Ok(None),
        Some(number) => {
            if number >= types.len() {
                return Ok(None);
            }
            let ty = store.copy(alloc, &types[number])?;
            Ok(Some(ty))
        }
    }
}

/// Returns the type of the parameter that an argument is for: the one at its position, or the first of its name.
fn type_for<S: TypeStore>(
    store: &S,
    alloc: Global,
    called: &Called<'_, S::Ty>,
    argument: Argument,
) -> Result<Option<S::Ty>, OutOfMemory>
    requires { HasCalled (S.has store.now) called.now }
    ensures held { IfOk result (λ t. HasIfAny (S.has store.now) t) }
    ensures value { IfOk result
        (λ t. (returns : Tree) → option_to_list (option_map S.tree t)
        ≡ types_at argument.entry (signature_called S.tree returns called.now)) }
{
    match called {
        Called::Listed(params) => listed_type(store, alloc, params, argument),
        Called::Builtin(types) => builtin_type(store, alloc, types, argument),
    }
}

/// Returns the type that an argument flows into on one member, if a signature is called there.
fn offered_type<S: TypeStore>(
    store: &S,
    alloc: Global,
    offer: &CallOffer<'_, S::Ty>,
    argument: Argument,
) -> Result<Option<S::Ty>, OutOfMemory>
    requires { HasCallOffer (S.has store.now) offer.now }
    ensures held { IfOk result (λ t. HasIfAny (S.has store.now) t) }
    ensures value { IfOk result
        (λ t. option_to_list (option_map S.tree t)
        ≡ flat_map (types_at argument.entry) (offer_called S.tree offer.now).calls) }
{
    match &offer.calls {
        Some(called) => type_for(store, alloc, called, argument),
        None => Ok(None),
    }
}

/// Appends a type, if there is one.
fn push_type<Ty: Drop>(types: &mut Vec<Ty>, ty: Option<Ty>) -> Result<(), OutOfMemory>
    ensures { OnOk result (types.new.items ≡ types.old.items ++ option_to_list ty) }
{
    if let Some(ty) = ty {
        types.push(ty)?;
    }
    Ok(())
}

/// Returns the types that an argument flows into, one for each member with such a parameter.
fn types_for<S: TypeStore>(
    store: &S,
    alloc: Global,
    offers: &[CallOffer<'_, S::Ty>],
    argument: Argument,
) -> Result<Vec<S::Ty>, OutOfMemory>
    requires { All (HasCallOffer (S.has store.now)) offers.now }
    ensures held { IfOk result (λ ts. All (S.has store.now) ts.items) }
    ensures value { IfOk result
        (λ ts. map S.tree ts.items
        ≡ flat_map (types_at argument.entry) (flat_map (λ o. o.calls) (map (offer_called S.tree) offers.now))) }
{
    let mut types = Vec::new(alloc);
    for i in 0..offers.len() {
        let ty = offered_type(store, alloc, &offers[i], argument)?;
        push_type(&mut types, ty)?;
    }
    Ok(types)
}

/// Returns whether an error is found at the callee or at the call.
pub fn is_in_error<Ty: Drop>(offers: &[CallOffer<'_, Ty>]) -> bool
    ensures { (tree : Ty → Tree) → result ≡ has_error (all_codes (map (offer_called tree) offers.now)) }
{
    for offer in offers {
        if is_error(offer.at_callee) || is_error(offer.at_call) {
            return true;
        }
    }
    false
}

/// Returns whether there is a code and it is an error.
fn is_error(code: Option<Code>) -> bool
    ensures { result ≡ has_error (option_to_list code) }
{
    match code {
        Some(code) => code.is_error(),
        None => false,
    }
}

/// Returns the types that an argument flows into; none if there is an error at the callee or at the call.
fn flow_types<S: TypeStore>(
    store: &S,
    alloc: Global,
    offers: &[CallOffer<'_, S::Ty>],
    argument: Argument,
) -> Result<Vec<S::Ty>, OutOfMemory>
    requires { All (HasCallOffer (S.has store.now)) offers.now }
    ensures held { IfOk result (λ ts. All (S.has store.now) ts.items) }
    ensures value { IfOk result
        (λ ts. map S.tree ts.items ≡ (seat_of (map (offer_called S.tree) offers.now) argument.entry).into) }
{
    if is_in_error(offers) {
        return Ok(Vec::new(alloc));
    }
    let types = types_for(store, alloc, offers, argument)?;
    Ok(types)
}

/// Returns the expected type of an argument: the type that it flows into, if one member is called and there is one such
/// type.
fn wanted<S: TypeStore>(
    store: &S,
    alloc: Global,
    only_member: bool,
    types: &[S::Ty],
) -> Result<Option<S::Ty>, OutOfMemory>
    requires { All (S.has store.now) types.now }
    ensures held { IfOk result (λ t. HasIfAny (S.has store.now) t) }
    ensures value { IfOk result (λ t. option_map S.tree t ≡ expected_type only_member (map S.tree types.now)) }
{
    if only_member && types.len() == 1 {
        return Ok(Some(store.copy(alloc, &types[0])?));
    }
    Ok(None)
}

/// Returns the seat of an argument: it flows into its parameter on each member that is called, and that type is
/// expected if one member is called. Language Reference 6.3.4 "Calls".
fn seat_of<S: TypeStore>(
    store: &S,
    alloc: Global,
    offers: &[CallOffer<'_, S::Ty>],
    argument: Argument,
) -> Result<Seat<S::Ty>, OutOfMemory>
    requires { All (HasCallOffer (S.has store.now)) offers.now }
    ensures { IfOk result (λ s.
        IsSeat S.has S.tree store.now s (seat_of (map (offer_called S.tree) offers.now) argument.entry)) }
{
    let into = flow_types(store, alloc, offers, argument)?;
    let want = wanted(store, alloc, offers.len() == 1, &into)?;
    Ok(Seat { want, into })
}

/// Returns the seat of an argument by position. Language Reference 6.3.4 "Calls".
pub fn positional_seat<S: TypeStore>(
    store: &S,
    alloc: Global,
    offers: &[CallOffer<'_, S::Ty>],
    position: usize,
) -> Result<Seat<S::Ty>, OutOfMemory>
    requires { All (HasCallOffer (S.has store.now)) offers.now }
    ensures { IfOk result (λ s.
        IsSeat S.has S.tree store.now s (positional_seat (map (offer_called S.tree) offers.now) position)) }
{
    seat_of(store, alloc, offers, Argument::Position(position))
}

/// Returns the seat of an argument by name. Language Reference 6.3.4 "Calls".
pub fn named_seat<S: TypeStore>(
    store: &S,
    alloc: Global,
    offers: &[CallOffer<'_, S::Ty>],
    name: &str,
) -> Result<Seat<S::Ty>, OutOfMemory>
    requires { All (HasCallOffer (S.has store.now)) offers.now }
    ensures { IfOk result (λ s.
        IsSeat S.has S.tree store.now s (named_seat (map (offer_called S.tree) offers.now) name.now)) }
{
    seat_of(store, alloc, offers, Argument::Name(name))
}

/// Returns the seat of an argument by name after arguments of these names. One whose name was given before flows
/// nowhere. Own rule of the profile.
pub fn keyword_seat<S: TypeStore>(
    store: &S,
    alloc: Global,
    offers: &[CallOffer<'_, S::Ty>],
    before: &KeywordNames,
    name: &Name,
) -> Result<Seat<S::Ty>, OutOfMemory>
    requires { All (HasCallOffer (S.has store.now)) offers.now }
    ensures { IfOk result (λ s.
        IsSeat S.has S.tree store.now s
        (keyword_seat (named_seat (map (offer_called S.tree) offers.now)) (names_in before.now) (name_of name.now))) }
{
    if is_among(before, name.text.as_str()) {
        return Ok(Seat {
            want: None,
            into: Vec::new(alloc),
        });
    }
    named_seat(store, alloc, offers, name.text.as_str())
}
