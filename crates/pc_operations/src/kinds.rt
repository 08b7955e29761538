//! The kinds of operands, and the types that operators give for them.
#![tactic(auto, using(crate::proofs::Operators::by_operator))]

ghost use Rattle.std.specs.Prelude.{◌≡◌, ◌||◌, ◌∷◌, [], false, All, IfOk, IsTrue, map};
ghost use Rattle.std.specs.List.{list_all};
ghost use Rattle.std.specs.Option.{option_map};
ghost use Rattle.pc_types.specs.Tree.{Bool};
ghost use Rattle.pc_types.specs.Shape.{members};
ghost use Rattle.pc_types.specs.Store.{Means, KeepsTypes};
ghost use Rattle.pc_rules.specs.Operations.{kind_of, has_side, is_never, is_any};
ghost use Rattle.pc_operations.specs.Internal.OperandPairs.{kind_with, meet, common, takes_of, gives_of, dynamic_of};

use pc_source::OutOfMemory;
use pc_tree::BinaryOperator;
use pc_types::{Head, TypeStore};
use std::alloc::Global;

/// The kind of an operand that operators take: `int` (and `bool`), or `str`.
#[derive(Clone, Copy)]
pub(crate) enum Kind {
    Whole,
    Text,
}

/// An operator that depends on the kinds of its operands: one of `+ - * // %`, or one of `< <= > >=`.
#[derive(Clone, Copy)]
pub(crate) enum KindOperator {
    Arithmetic(BinaryOperator),
    Order,
}

/// Returns the kind of a type, `None` if operators do not take it.
fn kind_of<S: TypeStore>(store: &S, ty: &S::Ty) -> Option<Kind>
    requires { S.has store.now ty.now }
    ensures { option_map kind_with result ≡ kind_of (S.tree ty.now) }
{
    match store.head(ty) {
        Head::Int | Head::Bool => Some(Kind::Whole),
        Head::Str => Some(Kind::Text),
        _ => None,
    }
}

/// Returns the kind that two have in common, if they have one.
pub(crate) fn meet(first: Option<Kind>, second: Option<Kind>) -> Option<Kind>
    ensures { option_map kind_with result ≡ meet (option_map kind_with first) (option_map kind_with second) }
{
    match (first, second) {
        (Some(Kind::Whole), Some(Kind::Whole)) => Some(Kind::Whole),
        (Some(Kind::Text), Some(Kind::Text)) => Some(Kind::Text),
        _ => None,
    }
}

/// Returns the kind that all of several types share; `None` if they share none or there are no types.
fn common_kind<S: TypeStore>(store: &S, types: &[S::Ty]) -> Option<Kind>
    requires { All (S.has store.now) types.now }
    ensures { option_map kind_with result ≡ common (map S.tree types.now) }
{
    let mut common = match types {
        [first, ..] => kind_of(store, first),
        [] => return None,
    };
    for ty in types {
        common = meet(common, kind_of(store, ty));
    }
    common
}

/// Returns whether a type is its own only member: neither a union nor `Never`.
pub(crate) fn is_single<S: TypeStore>(store: &S, ty: &S::Ty) -> bool
    requires { S.has store.now ty.now }
    ensures { IsTrue result → members (S.tree ty.now) ≡ S.tree ty.now ∷ [] }
{
    !matches!(store.head(ty), Head::Never | Head::Union(_))
}

/// Returns the kind that all members of a type share; `None` if they share none or there are no members. A type that is
/// its own only member is not copied.
pub(crate) fn kind_of_members<S: TypeStore>(
    store: &S,
    alloc: Global,
    ty: &S::Ty,
) -> Result<Option<Kind>, OutOfMemory>
    requires { S.has store.now ty.now }
    ensures { IfOk result (λ k. option_map kind_with k ≡ common (members (S.tree ty.now))) }
{
    if is_single(store, ty) {
        return Ok(kind_of(store, ty));
    }
    let members = store.members(alloc, ty)?;
    Ok(common_kind(store, &members))
}

/// Returns whether an operator takes a kind.
pub(crate) fn takes(operator: KindOperator, kind: Kind) -> bool
    ensures { result ≡ takes_of operator (kind_with kind) }
{
    match (operator, kind) {
        (KindOperator::Order, _) | (_, Kind::Whole) => true,
        (KindOperator::Arithmetic(operator), Kind::Text) => operator == BinaryOperator::Add,
    }
}

/// Returns the type that an operator gives for a kind that it takes.
pub(crate) fn given_type<S: TypeStore>(
    store: &mut S,
    alloc: Global,
    operator: KindOperator,
    kind: Kind,
) -> Result<S::Ty, OutOfMemory>
    ensures value { IfOk result (λ t. Means S.has S.tree store.new t (gives_of operator (kind_with kind))) }
    ensures kept { KeepsTypes S.has store.old store.new }
{
    match (operator, kind) {
        (KindOperator::Order, _) => store.bool(alloc),
        (KindOperator::Arithmetic(_), Kind::Whole) => store.int(alloc),
        (KindOperator::Arithmetic(_), Kind::Text) => store.str(alloc),
    }
}

/// Returns the type that an operator gives at a dynamic place.
pub(crate) fn dynamic_type<S: TypeStore>(
    store: &mut S,
    alloc: Global,
    operator: KindOperator,
) -> Result<S::Ty, OutOfMemory>
    ensures value { IfOk result (λ t. Means S.has S.tree store.new t (dynamic_of operator)) }
    ensures kept { KeepsTypes S.has store.old store.new }
{
    match operator {
        KindOperator::Order => store.bool(alloc),
        KindOperator::Arithmetic(_) => store.any(alloc),
    }
}

/// Returns whether a type is `Any`.
pub(crate) fn is_any<S: TypeStore>(store: &S, ty: &S::Ty) -> bool
    requires { S.has store.now ty.now }
    ensures { result ≡ is_any (S.tree ty.now) }
{
    store.head(ty) == Head::Any
}

/// Returns whether a type is `Never`.
pub(crate) fn is_never<S: TypeStore>(store: &S, ty: &S::Ty) -> bool
    requires { S.has store.now ty.now }
    ensures { result ≡ is_never (S.tree ty.now) }
{
    store.head(ty) == Head::Never
}

/// Returns whether a type is `Any` or of a kind that an operator takes.
fn may_suit<S: TypeStore>(store: &S, operator: KindOperator, ty: &S::Ty) -> bool
    requires { S.has store.now ty.now }
    ensures { result ≡ (is_any (S.tree ty.now) || has_side (takes_of operator) (S.tree ty.now)) }
{
    if is_any(store, ty) {
        return true;
    }
    match kind_of(store, ty) {
        Some(kind) => takes(operator, kind),
        None => false,
    }
}

/// Returns whether each of several types is `Any` or of a kind that an operator takes.
pub(crate) fn may_suit_all<S: TypeStore>(store: &S, operator: KindOperator, types: &[S::Ty]) -> bool
    requires { All (S.has store.now) types.now }
    ensures { result ≡ list_all (λ t. is_any t || has_side (takes_of operator) t) (map S.tree types.now) }
{
    for ty in types {
        if !may_suit(store, operator, ty) {
            return false;
        }
    }
    true
}
