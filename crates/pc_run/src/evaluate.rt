//! The evaluation of expressions. Its functions are not inlined into each other (`inline(never)`): a single stack frame
//! for all of them would be large, and the deepest runs would overflow the usual stack.

ghost use Rattle.std.specs.Prelude.{◌≤◌, ◌<◌, ℕ, OnOk, if◌then◌else◌};
ghost use Rattle.pc_tree.specs.Tree.{expr_of};
ghost use Rattle.pc_value.specs.Meaning.{value_of};
ghost use Rattle.pc_machine.specs.Runs.{plain_parts};
ghost use Rattle.pc_run.specs.Internal.Nodes.{charged_expr, all_of, entries_in, keywords_in};
ghost use Rattle.pc_machine.specs.Machine.{TellsProgress, progress_of};
ghost use Rattle.pc_run.specs.Internal.Nodes.{values_of_vec, entries_of_vec, named_of_vec};
ghost use Rattle.pc_tree.specs.Lists.{exprs_of_list, entries_of_list, keywords_of_list};
ghost use Rattle.pc_tree.specs.Tree.{tuple, list, dict, negative, negation, binary, compare, is_none, is_not_none};
ghost use Rattle.pc_tree.specs.Tree.{conjunction, disjunction, attribute, index, name_of};

use crate::calls::eval_call;
use crate::collecting::{keep, keep_entry, keep_named};
use crate::forms::is_nothing;
use pc_machine::{Halt, Machine, NamedValue};
use pc_source::Place;
use pc_tree::{BinaryOperator, ComparisonOperator, Entry, Expr, KeywordArgument, Name};
use pc_value::{Action, Value};
use std::alloc::Global;

/// Evaluates an expression: its charge, its parts, its event, its action.
#[cycle(evaluate)]
pub fn eval<'m>(machine: &mut Machine<'m>, alloc: Global, e: &'m Expr) -> Result<Value, Halt>
    ensures plain { (n : ℕ) → machine.old.fuel < n
        → TellsProgress value_of result machine.new ((plain_parts n).eval (expr_of e.now) (progress_of machine.old)) }
    ensures fuel { machine.new.fuel ≤ machine.old.fuel }
    ensures spent { OnOk result (machine.new.fuel < machine.old.fuel) }
{
    machine.charge()?;
    eval_node(machine, alloc, e)
}

/// Evaluates an expression after its charge.
#[cycle(evaluate)]
fn eval_node<'m>(machine: &mut Machine<'m>, alloc: Global, e: &'m Expr) -> Result<Value, Halt>
    ensures plain { (n : ℕ) → machine.old.fuel < n
        → TellsProgress value_of result machine.new (charged_expr n (expr_of e.now) (progress_of machine.old)) }
    ensures fuel { machine.new.fuel ≤ machine.old.fuel }
{
    match e {
        Expr::Name(name) => machine.read_name(alloc, name.place, name.text.as_str()),
        Expr::Int(place, digits) => machine.number(alloc, *place, digits.as_str()),
        Expr::Str(place, text) => machine.text(alloc, *place, text.as_str()),
        Expr::True(place) => machine.give(*place, Value::Bool(true)),
        Expr::False(place) => machine.give(*place, Value::Bool(false)),
        Expr::NoneValue(place) => machine.give(*place, Value::None),
        Expr::Tuple(place, items) => eval_tuple(machine, alloc, *place, items),
        Expr::List(place, items) => eval_list(machine, alloc, *place, items),
        Expr::Dict(place, items) => eval_dict(machine, alloc, *place, items),
        Expr::Negative(place, operand) => eval_negative(machine, alloc, *place, operand),
        Expr::Not(place, operand) => eval_not(machine, alloc, *place, operand),
        Expr::Binary {
            place,
            operator,
            left,
            right,
        } => { eval_binary(machine, alloc, *place, *operator, left, right) }
        Expr::Compare {
            place,
            operator,
            left,
            right,
        } => { eval_compare(machine, alloc, *place, *operator, left, right) }
        Expr::IsNone(place, operand) => eval_none_test(machine, alloc, *place, operand, false),
        Expr::IsNotNone(place, operand) => eval_none_test(machine, alloc, *place, operand, true),
        Expr::And { place, left, right } => eval_and(machine, alloc, *place, left, right),
        Expr::Or { place, left, right } => eval_or(machine, alloc, *place, left, right),
        Expr::Attribute {
            place,
            object,
            name: field,
        } => { eval_attribute(machine, alloc, *place, object, field) }
        Expr::Index { place, object, key } => eval_index(machine, alloc, *place, object, key),
        Expr::Call {
            place,
            callee,
            arguments,
            keywords: by_name,
        } => { eval_call(machine, alloc, *place, callee, arguments, by_name) }
    }
}

/// Evaluates unary `-`. Language Reference 6.6 "Unary arithmetic and bitwise operations".
#[cycle(evaluate)]
#[inline(never)]
fn eval_negative<'m>(
    machine: &mut Machine<'m>,
    alloc: Global,
    place: Place,
    operand: &'m Expr,
) -> Result<Value, Halt>
    ensures plain { (n : ℕ) → machine.old.fuel < n
        → TellsProgress value_of result machine.new
        (charged_expr n (negative place (expr_of operand.now)) (progress_of machine.old)) }
    ensures fuel { machine.new.fuel ≤ machine.old.fuel }
{
    let v = eval(machine, alloc, operand)?;
    machine.perform(alloc, place, Action::Negative(v))
}

/// Evaluates `not`. Language Reference 6.11 "Boolean operations".
#[cycle(evaluate)]
#[inline(never)]
fn eval_not<'m>(
    machine: &mut Machine<'m>,
    alloc: Global,
    place: Place,
    operand: &'m Expr,
) -> Result<Value, Halt>
    ensures plain { (n : ℕ) → machine.old.fuel < n
        → TellsProgress value_of result machine.new
        (charged_expr n (negation place (expr_of operand.now)) (progress_of machine.old)) }
    ensures fuel { machine.new.fuel ≤ machine.old.fuel }
{
    let v = eval(machine, alloc, operand)?;
    machine.perform(alloc, place, Action::Not(v))
}

/// Reads a field or a method: the object, its event, its action.
/// Language Reference 6.3.1 "Attribute references".
#[cycle(evaluate)]
#[inline(never)]
fn eval_attribute<'m>(
    machine: &mut Machine<'m>,
    alloc: Global,
    place: Place,
    object: &'m Expr,
    field: &'m Name,
) -> Result<Value, Halt>
    ensures plain { (n : ℕ) → machine.old.fuel < n
        → TellsProgress value_of result machine.new
        (charged_expr n (attribute place (expr_of object.now) (name_of field.now)) (progress_of machine.old)) }
    ensures fuel { machine.new.fuel ≤ machine.old.fuel }
{
    let v = eval(machine, alloc, object)?;
    machine.read_attribute(alloc, place, v, field.text.as_str())
}

/// Evaluates a tuple display: its items, its event, the tuple.
#[cycle(evaluate)]
#[inline(never)]
fn eval_tuple<'m>(
    machine: &mut Machine<'m>,
    alloc: Global,
    place: Place,
    items: &'m [Expr],
) -> Result<Value, Halt>
    ensures plain { (n : ℕ) → machine.old.fuel < n
        → TellsProgress value_of result machine.new
        (charged_expr n (tuple place (exprs_of_list items.now)) (progress_of machine.old)) }
    ensures fuel { machine.new.fuel ≤ machine.old.fuel }
{
    let values = eval_all(machine, alloc, items)?;
    machine.give(place, Value::Tuple(values))
}

/// Evaluates a list display: its items, its event, its action. Language Reference 6.2.5 "List displays".
#[cycle(evaluate)]
#[inline(never)]
fn eval_list<'m>(
    machine: &mut Machine<'m>,
    alloc: Global,
    place: Place,
    items: &'m [Expr],
) -> Result<Value, Halt>
    ensures plain { (n : ℕ) → machine.old.fuel < n
        → TellsProgress value_of result machine.new
        (charged_expr n (list place (exprs_of_list items.now)) (progress_of machine.old)) }
    ensures fuel { machine.new.fuel ≤ machine.old.fuel }
{
    let values = eval_all(machine, alloc, items)?;
    machine.perform(alloc, place, Action::NewList(values))
}

/// Evaluates a dict display: its entries, its event, its action. Language Reference 6.2.7 "Dictionary displays".
#[cycle(evaluate)]
#[inline(never)]
fn eval_dict<'m>(
    machine: &mut Machine<'m>,
    alloc: Global,
    place: Place,
    items: &'m [Entry],
) -> Result<Value, Halt>
    ensures plain { (n : ℕ) → machine.old.fuel < n
        → TellsProgress value_of result machine.new
        (charged_expr n (dict place (entries_of_list items.now)) (progress_of machine.old)) }
    ensures fuel { machine.new.fuel ≤ machine.old.fuel }
{
    let entries = eval_entries(machine, alloc, items)?;
    machine.perform(alloc, place, Action::NewDict(entries))
}

/// Evaluates a binary operator, the left operand first. Language Reference 6.7 "Binary arithmetic operations".
#[cycle(evaluate)]
#[inline(never)]
fn eval_binary<'m>(
    machine: &mut Machine<'m>,
    alloc: Global,
    place: Place,
    operator: BinaryOperator,
    left: &'m Expr,
    right: &'m Expr,
) -> Result<Value, Halt>
    ensures plain { (n : ℕ) → machine.old.fuel < n
        → TellsProgress value_of result machine.new
        (charged_expr n (binary place operator (expr_of left.now) (expr_of right.now)) (progress_of machine.old)) }
    ensures fuel { machine.new.fuel ≤ machine.old.fuel }
{
    let v = eval(machine, alloc, left)?;
    let w = eval(machine, alloc, right)?;
    machine.perform(alloc, place, Action::Binary(operator, v, w))
}

/// Evaluates a comparison, the left operand first. Language Reference 6.10 "Comparisons".
#[cycle(evaluate)]
#[inline(never)]
fn eval_compare<'m>(
    machine: &mut Machine<'m>,
    alloc: Global,
    place: Place,
    operator: ComparisonOperator,
    left: &'m Expr,
    right: &'m Expr,
) -> Result<Value, Halt>
    ensures plain { (n : ℕ) → machine.old.fuel < n
        → TellsProgress value_of result machine.new
        (charged_expr n (compare place operator (expr_of left.now) (expr_of right.now)) (progress_of machine.old)) }
    ensures fuel { machine.new.fuel ≤ machine.old.fuel }
{
    let v = eval(machine, alloc, left)?;
    let w = eval(machine, alloc, right)?;
    machine.perform(alloc, place, Action::Compare(operator, v, w))
}

/// Evaluates a test `e is None`, or `e is not None` if `negated`.
#[cycle(evaluate)]
#[inline(never)]
fn eval_none_test<'m>(
    machine: &mut Machine<'m>,
    alloc: Global,
    place: Place,
    operand: &'m Expr,
    negated: bool,
) -> Result<Value, Halt>
    ensures plain { (n : ℕ) → machine.old.fuel < n
        → TellsProgress value_of result machine.new
        (charged_expr n (if negated then is_not_none place (expr_of operand.now) else is_none place (expr_of operand.now))
        (progress_of machine.old)) }
    ensures fuel { machine.new.fuel ≤ machine.old.fuel }
{
    let v = eval(machine, alloc, operand)?;
    if negated {
        return machine.give(place, Value::Bool(!is_nothing(&v)));
    }
    machine.give(place, Value::Bool(is_nothing(&v)))
}

/// Evaluates `and`, its right operand only if the left one is true. Language Reference 6.11 "Boolean operations".
#[cycle(evaluate)]
#[inline(never)]
fn eval_and<'m>(
    machine: &mut Machine<'m>,
    alloc: Global,
    place: Place,
    left: &'m Expr,
    right: &'m Expr,
) -> Result<Value, Halt>
    ensures plain { (n : ℕ) → machine.old.fuel < n
        → TellsProgress value_of result machine.new
        (charged_expr n (conjunction place (expr_of left.now) (expr_of right.now)) (progress_of machine.old)) }
    ensures fuel { machine.new.fuel ≤ machine.old.fuel }
{
    let first = eval(machine, alloc, left)?;
    if !machine.is_true(&first) {
        return machine.give(place, first);
    }
    let second = eval(machine, alloc, right)?;
    machine.give(place, second)
}

/// Evaluates `or`, its right operand only if the left one is false. Language Reference 6.11 "Boolean operations".
#[cycle(evaluate)]
#[inline(never)]
fn eval_or<'m>(
    machine: &mut Machine<'m>,
    alloc: Global,
    place: Place,
    left: &'m Expr,
    right: &'m Expr,
) -> Result<Value, Halt>
    ensures plain { (n : ℕ) → machine.old.fuel < n
        → TellsProgress value_of result machine.new
        (charged_expr n (disjunction place (expr_of left.now) (expr_of right.now)) (progress_of machine.old)) }
    ensures fuel { machine.new.fuel ≤ machine.old.fuel }
{
    let first = eval(machine, alloc, left)?;
    if machine.is_true(&first) {
        return machine.give(place, first);
    }
    let second = eval(machine, alloc, right)?;
    machine.give(place, second)
}

/// Reads an item: the object, the key, its event, its action. Language Reference 6.3.2 "Subscriptions".
#[cycle(evaluate)]
#[inline(never)]
fn eval_index<'m>(
    machine: &mut Machine<'m>,
    alloc: Global,
    place: Place,
    object: &'m Expr,
    key: &'m Expr,
) -> Result<Value, Halt>
    ensures plain { (n : ℕ) → machine.old.fuel < n
        → TellsProgress value_of result machine.new
        (charged_expr n (index place (expr_of object.now) (expr_of key.now)) (progress_of machine.old)) }
    ensures fuel { machine.new.fuel ≤ machine.old.fuel }
{
    let v = eval(machine, alloc, object)?;
    let k = eval(machine, alloc, key)?;
    machine.perform(alloc, place, Action::ReadItem(v, k))
}

/// Evaluates expressions from left to right.
#[cycle(evaluate)]
#[inline(never)]
pub(crate) fn eval_all<'m>(
    machine: &mut Machine<'m>,
    alloc: Global,
    items: &'m [Expr],
) -> Result<Vec<Value>, Halt>
    ensures plain { (n : ℕ) → machine.old.fuel < n
        → TellsProgress values_of_vec result machine.new
        (all_of n (exprs_of_list items.now) (progress_of machine.old)) }
    ensures fuel { machine.new.fuel ≤ machine.old.fuel }
{
    let mut values = Vec::new(alloc);
    for item in items {
        let v = eval(machine, alloc, item)?;
        keep(&mut values, v)?;
    }
    Ok(values)
}

/// Evaluates the entries of a dict display: key, value, key, value.
#[cycle(evaluate)]
#[inline(never)]
fn eval_entries<'m>(
    machine: &mut Machine<'m>,
    alloc: Global,
    items: &'m [Entry],
) -> Result<Vec<pc_value::DictEntry>, Halt>
    ensures plain { (n : ℕ) → machine.old.fuel < n
        → TellsProgress entries_of_vec result machine.new
        (entries_in n (entries_of_list items.now) (progress_of machine.old)) }
    ensures fuel { machine.new.fuel ≤ machine.old.fuel }
{
    let mut entries = Vec::new(alloc);
    for item in items {
        let key = eval(machine, alloc, &item.key)?;
        let value = eval(machine, alloc, &item.value)?;
        keep_entry(&mut entries, key, value)?;
    }
    Ok(entries)
}

/// Evaluates arguments by name, in the order of the text.
#[cycle(evaluate)]
#[inline(never)]
pub(crate) fn eval_keywords<'m>(
    machine: &mut Machine<'m>,
    alloc: Global,
    by_name: &'m [KeywordArgument],
) -> Result<Vec<NamedValue<'m>>, Halt>
    ensures plain { (n : ℕ) → machine.old.fuel < n
        → TellsProgress named_of_vec result machine.new
        (keywords_in n (keywords_of_list by_name.now) (progress_of machine.old)) }
    ensures fuel { machine.new.fuel ≤ machine.old.fuel }
{
    let mut named = Vec::new(alloc);
    for argument in by_name {
        let value = eval(machine, alloc, &argument.value)?;
        keep_named(&mut named, argument.name.text.as_str(), value)?;
    }
    Ok(named)
}
