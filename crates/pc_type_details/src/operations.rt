//! The details of operators, items and loops, by the types of their parts.

ghost use Rattle.std.specs.Prelude.{◌≡◌, ◌++◌, ◌∷◌, [], All, IfOk, OnOk, filter, if◌then◌else◌, map};
ghost use Rattle.pc_tree.specs.Tree.{expr_of, target_of};
ghost use Rattle.pc_tree.specs.Depth.{place_of};
ghost use Rattle.pc_types.specs.Boxed.{tree_of, IsGiven};
ghost use Rattle.pc_types.specs.Shape.{members};
ghost use Rattle.pc_annotations.specs.Bases.{bases_of};
ghost use Rattle.pc_detail_texts.specs.Details as detail;
ghost use Rattle.pc_detail_texts.specs.Mapped.{map_detail};
ghost use Rattle.pc_detail_texts.specs.Shown.{all_words};
ghost use Rattle.pc_detail_texts.specs.Shown.{type_fault_of_value, words};
ghost use Rattle.pc_detail_facts.specs.Held.{AreFacts, ShowsDetail, ShowsOne, known_held, module_held};
ghost use Rattle.pc_detail_facts.specs.Held.{IsGivenLent, text_held, trees_lent};
ghost use Rattle.pc_detail_rules.specs.Operations.{comparison_detail, index_detail, iterate_detail};
ghost use Rattle.pc_detail_rules.specs.Operations.{operator_detail, store_detail};
ghost use Rattle.pc_type_details.specs.Unsupported.{lacking_by, lacks};

use pc_detail_facts::{Facts, members_of_type};
use pc_detail_texts::{Detail, OperatorUse, TypeFault, Unsupported};
use pc_source::OutOfMemory;
use pc_tree::{BinaryOperator, ComparisonOperator, Expr, Target};
use pc_types::BoxType;
use std::alloc::Global;

/// An operation on an object that its type may not support.
#[derive(Clone, Copy)]
pub(crate) enum ItemOperation {
    Contain,
    Length,
    Index,
    Store,
    Iterate,
}

/// Returns whether an operation is an error on a member of a type.
fn is_lacking(operation: ItemOperation, member: &BoxType) -> bool
    ensures { result ≡ lacks operation (tree_of member.now) }
{
    match member {
        BoxType::Any => false,
        BoxType::List(_) | BoxType::Dict(_, _) => false,
        BoxType::Str | BoxType::Tuple(_) => matches!(operation, ItemOperation::Store),
        _ => true,
    }
}

/// Adds a member to those that lack something, if it does.
pub(crate) fn add_if<'t>(
    lacking: &mut Vec<&'t BoxType>,
    member: &'t BoxType,
    lacks: bool,
) -> Result<(), OutOfMemory>
    requires member { IsGiven member.now }
    requires given { All IsGivenLent lacking.old.items }
    ensures added { OnOk result (trees_lent lacking.new.items
        ≡ trees_lent lacking.old.items ++ (if lacks then tree_of member.now ∷ [] else [])) }
    ensures given { OnOk result (All IsGivenLent lacking.new.items) }
{
    if lacks {
        lacking.push(member)?;
    }
    Ok(())
}

/// Returns the members of a type that do not support an operation.
fn lacking<'t>(
    alloc: Global,
    operation: ItemOperation,
    ty: &'t BoxType,
) -> Result<Vec<&'t BoxType>, OutOfMemory>
    requires { IsGiven ty.now }
    ensures trees { IfOk result (λ v. trees_lent v.items ≡ filter (lacks operation) (members (tree_of ty.now))) }
    ensures given { IfOk result (λ v. All IsGivenLent v.items) }
{
    let members = members_of_type(alloc, ty)?;
    let mut lacking = Vec::new(alloc);
    for member in &members {
        add_if(&mut lacking, *member, is_lacking(operation, *member))?;
    }
    Ok(lacking)
}

/// How an attribute is used: read, called, or assigned.
#[derive(Clone, Copy)]
pub enum Use {
    Read,
    Called,
    Assigned,
}

/// Returns a type and its members that do not support an operation.
#[tactic(auto, using(crate::proofs::Unsupported::lacking_exact_by))]
pub(crate) fn without(
    facts: &Facts<'_, '_>,
    operation: ItemOperation,
    ty: &BoxType,
) -> Result<Unsupported, OutOfMemory>
    requires facts { AreFacts facts.now }
    requires ty { IsGiven ty.now }
    ensures object { IfOk result (λ u. words u.object ≡ text_held facts.now (tree_of ty.now)) }
    ensures lacking { IfOk result (λ u. all_words u.lacking.items
        ≡ map (text_held facts.now) (lacking_by (bases_of (module_held facts.now)) operation (tree_of ty.now))) }
{
    let lacking = lacking(facts.alloc, operation, ty)?;
    facts.unsupported(ty, &lacking)
}

// ---- operators

/// Returns the detail of an operator with two operands.
fn binary(
    facts: &Facts<'_, '_>,
    operator: BinaryOperator,
    left: &Expr,
    right: &Expr,
) -> Result<TypeFault, OutOfMemory>
    requires { AreFacts facts.now }
    ensures { IfOk result (λ f. type_fault_of_value f ≡ map_detail (text_held facts.now)
        (detail.operator (detail.of_binary operator
        ((known_held facts.now).types (place_of (expr_of left.now)))
        ((known_held facts.now).types (place_of (expr_of right.now)))))) }
{
    let left = facts.type_words(facts.type_of(left))?;
    let right = facts.type_words(facts.type_of(right))?;
    Ok(TypeFault::Operator(OperatorUse::Binary(operator, left, right)))
}

/// Returns the detail of a comparison: of `in` with the members of the right operand that cannot be searched.
fn comparison(
    facts: &Facts<'_, '_>,
    operator: ComparisonOperator,
    left: &Expr,
    right: &Expr,
) -> Result<TypeFault, OutOfMemory>
    requires { AreFacts facts.now }
    ensures { IfOk result (λ f. type_fault_of_value f ≡ map_detail (text_held facts.now)
        (comparison_detail (module_held facts.now) (known_held facts.now) operator (expr_of left.now)
        (expr_of right.now))) }
{
    let sought = facts.type_words(facts.type_of(left))?;
    if let ComparisonOperator::In | ComparisonOperator::NotIn = operator {
        let searched = without(facts, ItemOperation::Contain, facts.type_of(right))?;
        return Ok(TypeFault::Contain(sought, searched));
    }
    let right = facts.type_words(facts.type_of(right))?;
    let used = OperatorUse::Comparison(operator, sought, right);
    Ok(TypeFault::Operator(used))
}

/// Returns the detail of `E13`, `E19` and `A2`: the operator, and the types of its operands.
pub fn operator_detail(facts: &Facts<'_, '_>, expr: &Expr) -> Result<Option<Detail>, OutOfMemory>
    requires { AreFacts facts.now }
    ensures { IfOk result (ShowsDetail facts.now
        (operator_detail (module_held facts.now) (known_held facts.now) (expr_of expr.now))) }
{
    match expr {
        Expr::Binary {
            operator,
            left,
            right,
            ..
        } => { Ok(Some(Detail::Types(binary(facts, *operator, left, right)?))) }
        Expr::Compare {
            operator,
            left,
            right,
            ..
        } => { Ok(Some(Detail::Types(comparison(facts, *operator, left, right)?))) }
        Expr::Negative(_, operand) => {
            let operand = facts.type_words(facts.type_of(operand))?;
            let used = OperatorUse::Minus(operand);
            Ok(Some(Detail::Types(TypeFault::Operator(used))))
        }
        _ => Ok(None),
    }
}

// ---- items

/// Returns the detail of `E16` and `A3`: the type of the object, its members without items, and the type of the
/// index.
pub fn index_detail(facts: &Facts<'_, '_>, expr: &Expr) -> Result<Option<Detail>, OutOfMemory>
    requires { AreFacts facts.now }
    ensures { IfOk result (ShowsDetail facts.now (index_detail (module_held facts.now) (known_held facts.now) (expr_of expr.now))) }
{
    let Expr::Index {
        object,
        key: index,
        ..
    } = expr
    else {
        return Ok(None);
    };
    let of = without(facts, ItemOperation::Index, facts.type_of(object))?;
    let index = facts.type_words(facts.type_of(index))?;
    Ok(Some(Detail::Types(TypeFault::Index(of, index))))
}

/// Returns the detail of `E17` and `A3`: the type of the object, and its members whose items cannot be assigned.
pub fn store_detail(facts: &Facts<'_, '_>, target: &Target) -> Result<Option<Detail>, OutOfMemory>
    requires { AreFacts facts.now }
    ensures { IfOk result (ShowsDetail facts.now (store_detail (module_held facts.now) (known_held facts.now) (target_of target.now))) }
{
    let Target::Index { object, .. } = target else {
        return Ok(None);
    };
    let of = without(facts, ItemOperation::Store, facts.type_of(object))?;
    Ok(Some(Detail::Types(TypeFault::Store(of))))
}

/// Returns the detail of `E18` and `A5`: the type of the iterable, and its members that cannot be looped over.
pub(crate) fn iterate_detail(facts: &Facts<'_, '_>, expr: &Expr) -> Result<Detail, OutOfMemory>
    requires { AreFacts facts.now }
    ensures { IfOk result (ShowsOne facts.now (iterate_detail (module_held facts.now) (known_held facts.now) (expr_of expr.now))) }
{
    let of = without(facts, ItemOperation::Iterate, facts.type_of(expr))?;
    Ok(Detail::Types(TypeFault::Iterate(of)))
}
