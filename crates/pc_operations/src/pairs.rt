//! Operators and comparisons on two operands, by the kind that all members of their types share.
#![tactic(auto, using(crate::proofs::Operators::by_operator))]

ghost use Rattle.std.specs.Prelude.{◌≡◌, ◌&&◌, ◌||◌, false, All, IfOk, map};
ghost use Rattle.std.specs.List.{list_all};
ghost use Rattle.std.specs.Option.{option_map};
ghost use Rattle.pc_types.specs.Tree.{Bool};
ghost use Rattle.pc_types.specs.Below.{Bases};
ghost use Rattle.pc_types.specs.Shape.{members};
ghost use Rattle.pc_types.specs.Store.{KeepsTypes};
ghost use Rattle.pc_rules.specs.Operations.{has_side, is_never, is_any, is_dynamic, pair_offers, offers_label};
ghost use Rattle.pc_rules.specs.Operations.{clean, binary_label, order_label};
ghost use Rattle.pc_rules.specs.Lawful.{contain_offers, compare_label, compare_types};
ghost use Rattle.pc_operations.specs.Internal.OperandPairs.{kind_with, meet, common, takes_of, gives_of};
ghost use Rattle.pc_operations.specs.Internal.OperandPairs.{operator_label, dynamic_label, kind_label};
ghost use Rattle.pc_rules.specs.Computed.Standing.{HasOffer, offer_with, MeansLabel};

use crate::kinds::{
    Kind, KindOperator, dynamic_type, given_type, is_any, is_never, kind_of_members, may_suit_all,
    meet, takes,
};
use crate::members::contain_offer;
use crate::offers::{offers_label, operand_types};
use pc_rules::{Label, Offer, clean, in_error};
use pc_source::OutOfMemory;
use pc_tree::{BinaryOperator, Code, ComparisonOperator};
use pc_types::{Parents, TypeStore};
use std::alloc::Global;

/// Returns the label of an operator, given the kind that both operands share: E13 if there is none or the operator does
/// not take it.
fn kind_label<S: TypeStore>(
    store: &mut S,
    alloc: Global,
    operator: KindOperator,
    common: Option<Kind>,
) -> Result<Label<S::Ty>, OutOfMemory>
    ensures value { IfOk result
        (λ l. MeansLabel S.has S.tree store.new l
        (kind_label (takes_of operator) (gives_of operator) (option_map kind_with common))) }
    ensures kept { KeepsTypes S.has store.old store.new }
{
    let Some(kind) = common else {
        return in_error(store, alloc, Code::E13);
    };
    if takes(operator, kind) {
        let ty = given_type(store, alloc, operator, kind)?;
        return Ok(clean(alloc, ty));
    }
    in_error(store, alloc, Code::E13)
}

/// Returns the label of an operator at a dynamic place: A2, with the type that the operator gives there.
fn dynamic_label<S: TypeStore>(
    store: &mut S,
    alloc: Global,
    operator: KindOperator,
) -> Result<Label<S::Ty>, OutOfMemory>
    ensures value { IfOk result (λ l. MeansLabel S.has S.tree store.new l (dynamic_label operator)) }
    ensures kept { KeepsTypes S.has store.old store.new }
{
    let ty = dynamic_type(store, alloc, operator)?;
    let mut codes = Vec::new(alloc);
    codes.push(Code::A2)?;
    Ok(Label { ty, codes })
}

/// Returns whether the first type is `Any`, and each member of the second is `Any` or of a kind that the operator
/// takes.
fn is_open<S: TypeStore>(
    store: &S,
    alloc: Global,
    operator: KindOperator,
    s: &S::Ty,
    t: &S::Ty,
) -> Result<bool, OutOfMemory>
    requires left { S.has store.now s.now }
    requires right { S.has store.now t.now }
    ensures { IfOk result (λ b. b
        ≡ (is_any (S.tree s.now)
        && list_all (λ m. is_any m || has_side (takes_of operator) m) (members (S.tree t.now)))) }
{
    if !is_any(store, s) {
        return Ok(false);
    }
    let members = store.members(alloc, t)?;
    Ok(may_suit_all(store, operator, &members))
}

/// Returns whether one operand is `Any`, and each member of the other is `Any` or of a kind that the operator takes.
fn is_dynamic<S: TypeStore>(
    store: &S,
    alloc: Global,
    operator: KindOperator,
    s: &S::Ty,
    t: &S::Ty,
) -> Result<bool, OutOfMemory>
    requires left { S.has store.now s.now }
    requires right { S.has store.now t.now }
    ensures { IfOk result (λ b. b ≡ is_dynamic (takes_of operator) (S.tree s.now) (S.tree t.now)) }
{
    if is_open(store, alloc, operator, s, t)? {
        return Ok(true);
    }
    is_open(store, alloc, operator, t, s)
}

/// Returns the label of an operator on the members of two types, neither `Never`: all members must be of one kind that
/// it takes.
fn pairs_label<S: TypeStore>(
    store: &mut S,
    alloc: Global,
    operator: KindOperator,
    s: &S::Ty,
    t: &S::Ty,
) -> Result<Label<S::Ty>, OutOfMemory>
    requires left { S.has store.old s.now }
    requires right { S.has store.old t.now }
    requires members { (is_never (S.tree s.now) || is_never (S.tree t.now)) ≡ false }
    ensures value { (bases : Bases)
        → IfOk result (λ l. MeansLabel S.has S.tree store.new l
        (offers_label bases (pair_offers (takes_of operator) (gives_of operator) (members (S.tree s.now))
        (members (S.tree t.now))))) }
    ensures kept { KeepsTypes S.has store.old store.new }
{
    let left = kind_of_members(store, alloc, s)?;
    let right = kind_of_members(store, alloc, t)?;
    kind_label(store, alloc, operator, meet(left, right))
}

/// Returns the label of an operator on two operands: `Never` if one of them is `Never`, a dynamic place if `Any` makes
/// it one, else by their members.
fn operator_label<S: TypeStore>(
    store: &mut S,
    alloc: Global,
    operator: KindOperator,
    s: &S::Ty,
    t: &S::Ty,
) -> Result<Label<S::Ty>, OutOfMemory>
    requires left { S.has store.old s.now }
    requires right { S.has store.old t.now }
    ensures value { (bases : Bases)
        → IfOk result (λ l. MeansLabel S.has S.tree store.new l
        (operator_label bases operator (S.tree s.now) (S.tree t.now))) }
    ensures kept { KeepsTypes S.has store.old store.new }
{
    if is_never(store, s) || is_never(store, t) {
        let ty = store.never(alloc)?;
        return Ok(clean(alloc, ty));
    }
    if is_dynamic(store, alloc, operator, s, t)? {
        return dynamic_label(store, alloc, operator);
    }
    if is_any(store, s) || is_any(store, t) {
        return in_error(store, alloc, Code::E13);
    }
    pairs_label(store, alloc, operator, s, t)
}

/// Returns the label of `+`, `-`, `*`, `//` or `%` on operands of two types. Language Reference 6.7 "Binary arithmetic
/// operations"; own rule of the profile.
pub fn binary_label<S: TypeStore>(
    store: &mut S,
    alloc: Global,
    parents: &Parents,
    operator: BinaryOperator,
    s: &S::Ty,
    t: &S::Ty,
) -> Result<Label<S::Ty>, OutOfMemory>
    requires left { S.has store.old s.now }
    requires right { S.has store.old t.now }
    ensures value { IfOk result
        (λ l. MeansLabel S.has S.tree store.new l (binary_label parents.now operator (S.tree s.now) (S.tree t.now))) }
    ensures kept { KeepsTypes S.has store.old store.new }
{
    operator_label(store, alloc, KindOperator::Arithmetic(operator), s, t)
}

/// Returns the results of `in` on each member of its right operand's type.
fn contain_offers<S: TypeStore>(
    store: &mut S,
    alloc: Global,
    ty: &S::Ty,
) -> Result<Vec<Offer<S::Ty>>, OutOfMemory>
    requires { S.has store.old ty.now }
    ensures held { IfOk result (λ os. All (HasOffer (S.has store.new)) os.items) }
    ensures value { IfOk result (λ os. map (offer_with S.tree) os.items ≡ contain_offers (S.tree ty.now)) }
    ensures kept { KeepsTypes S.has store.old store.new }
{
    let members = store.members(alloc, ty)?;
    let mut offers = Vec::new(alloc);
    for i in 0..members.len() {
        let offer = contain_offer(store, alloc, &members[i])?;
        offers.push(offer)?;
    }
    Ok(offers)
}

/// Returns the label of `<`, `<=`, `>` or `>=` on operands of two types.
fn order_label<S: TypeStore>(
    store: &mut S,
    alloc: Global,
    parents: &Parents,
    s: &S::Ty,
    t: &S::Ty,
) -> Result<Label<S::Ty>, OutOfMemory>
    requires left { S.has store.old s.now }
    requires right { S.has store.old t.now }
    ensures value { IfOk result
        (λ l. MeansLabel S.has S.tree store.new l (order_label parents.now (S.tree s.now) (S.tree t.now))) }
    ensures kept { KeepsTypes S.has store.old store.new }
{
    operator_label(store, alloc, KindOperator::Order, s, t)
}

/// Returns the label `bool`, without codes.
fn truth_label<S: TypeStore>(store: &mut S, alloc: Global) -> Result<Label<S::Ty>, OutOfMemory>
    ensures value { IfOk result (λ l. MeansLabel S.has S.tree store.new l (clean Bool)) }
    ensures kept { KeepsTypes S.has store.old store.new }
{
    let ty = store.bool(alloc)?;
    Ok(clean(alloc, ty))
}

/// Returns the label of a comparison of operands of two types: `==` and `!=` take anything, `in` and `not in` follow
/// the right one. Language Reference 6.10 "Comparisons"; own rule of the profile.
pub(crate) fn compare_label<S: TypeStore>(
    store: &mut S,
    alloc: Global,
    parents: &Parents,
    operator: ComparisonOperator,
    s: &S::Ty,
    t: &S::Ty,
) -> Result<Label<S::Ty>, OutOfMemory>
    requires left { S.has store.old s.now }
    requires right { S.has store.old t.now }
    ensures value { IfOk result
        (λ l. MeansLabel S.has S.tree store.new l (compare_label parents.now operator (S.tree s.now) (S.tree t.now))) }
    ensures kept { KeepsTypes S.has store.old store.new }
{
    match operator {
        ComparisonOperator::Equal | ComparisonOperator::NotEqual => truth_label(store, alloc),
        ComparisonOperator::In | ComparisonOperator::NotIn => {
            let offers = contain_offers(store, alloc, t)?;
            offers_label(store, alloc, parents, &offers)
        }
        ComparisonOperator::Less
        | ComparisonOperator::LessEqual
        | ComparisonOperator::Greater
        | ComparisonOperator::GreaterEqual => order_label(store, alloc, parents, s, t),
    }
}

/// Returns the types that the left operand of a comparison flows into: with `in` and `not in` those that the right one
/// takes, else none.
pub(crate) fn compare_types<S: TypeStore>(
    store: &mut S,
    alloc: Global,
    operator: ComparisonOperator,
    t: &S::Ty,
) -> Result<Vec<S::Ty>, OutOfMemory>
    requires { S.has store.old t.now }
    ensures held { IfOk result (λ ts. All (S.has store.new) ts.items) }
    ensures value { IfOk result (λ ts. map S.tree ts.items ≡ compare_types operator (S.tree t.now)) }
    ensures kept { KeepsTypes S.has store.old store.new }
{
    match operator {
        ComparisonOperator::In | ComparisonOperator::NotIn => {
            let offers = contain_offers(store, alloc, t)?;
            operand_types(store, alloc, &offers)
        }
        _ => Ok(Vec::new(alloc)),
    }
}
