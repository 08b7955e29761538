//! Operators and comparisons.

ghost use Rattle.std.specs.Prelude.{◌≡◌, ◌%◌, IfOk};
ghost use Rattle.pc_value.specs.Meaning.{value_of};
ghost use Rattle.pc_value.specs.Wholes.{made_outcome};
ghost use Rattle.pc_value.specs.Value.{boolean, a_number};
ghost use Rattle.pc_value.specs.Actions.{gives};
ghost use Rattle.pc_value.specs.Seeing.{seen_of};
ghost use Rattle.pc_value.specs.Doing.{outcome_of};
ghost use Rattle.pc_value.specs.Plain.{limited_outcome, free_of};
ghost use Rattle.pc_value.specs.Operators.{sum_of, difference_of, product_of, quotient_of, remainder_of};
ghost use Rattle.pc_value.specs.Operators.{binary_outcome, negative_of, is_equality_free, is_same, is_equal, below};
ghost use Rattle.pc_value.specs.Operators.{is_membership_free, membership_of, opposite, compare_outcome};
ghost use Rattle.pc_value.specs.Operators.{is_comparison_free, is_text_free, text_outcome};

use crate::action::{Exception, Outcome};
use crate::containers::contains_key;
use crate::seen::Seen;
use crate::text::{
    ascii_text, concatenated, occurs_in, same_characters, text_below, text_of_number,
};
use crate::value::{Value, copy_text};
use crate::whole::{difference, floor_div, floor_mod, negated, product, sum};
use pc_source::OutOfMemory;
use pc_tree::{BinaryOperator, ComparisonOperator};
use std::alloc::Global;

/// Gives a computed whole number, or `Cut` if it did not fit 128 signed bits.
pub fn made(number: Option<i128>) -> Outcome
    ensures { outcome_of result ≡ made_outcome number }
{
    match number {
        Some(n) => Outcome::Gives(Value::Int(n)),
        None => Outcome::Cut,
    }
}

/// Evaluates `+` on two ints or two texts. Language Reference 6.7 "Binary arithmetic operations".
fn sum_of(alloc: Global, left: Seen<'_>, right: Seen<'_>) -> Result<Outcome, OutOfMemory>
    ensures { IfOk result (λ o. outcome_of o ≡ limited_outcome (sum_of (seen_of left.entry) (seen_of right.entry))) }
{
    match (left, right) {
        (Seen::Number(x), Seen::Number(y)) => Ok(made(sum(x, y))),
        (Seen::Text(s), Seen::Text(t)) => Ok(Outcome::Gives(Value::Str(concatenated(
            alloc, s, t,
        )?))),
        (Seen::List(_, _), Seen::List(_, _)) => Ok(Outcome::Outside),
        (Seen::Tuple(_), Seen::Tuple(_)) => Ok(Outcome::Outside),
        _ => Ok(Outcome::Raised(Exception::TypeError)),
    }
}

/// Evaluates `-` on two ints. Language Reference 6.7 "Binary arithmetic operations".
fn difference_of(left: Seen<'_>, right: Seen<'_>) -> Outcome
    ensures { outcome_of result ≡ limited_outcome (difference_of (seen_of left.entry) (seen_of right.entry)) }
{
    match (left, right) {
        (Seen::Number(x), Seen::Number(y)) => made(difference(x, y)),
        _ => Outcome::Raised(Exception::TypeError),
    }
}

/// Evaluates `*` on two ints. Language Reference 6.7 "Binary arithmetic operations".
fn product_of(left: Seen<'_>, right: Seen<'_>) -> Outcome
    ensures { outcome_of result ≡ limited_outcome (product_of (seen_of left.entry) (seen_of right.entry)) }
{
    match (left, right) {
        (Seen::Number(x), Seen::Number(y)) => made(product(x, y)),
        (Seen::Number(_), Seen::Text(_)) => Outcome::Outside,
        (Seen::Number(_), Seen::List(_, _)) => Outcome::Outside,
        (Seen::Number(_), Seen::Tuple(_)) => Outcome::Outside,
        (Seen::Text(_), Seen::Number(_)) => Outcome::Outside,
        (Seen::List(_, _), Seen::Number(_)) => Outcome::Outside,
        (Seen::Tuple(_), Seen::Number(_)) => Outcome::Outside,
        _ => Outcome::Raised(Exception::TypeError),
    }
}

/// Evaluates `//` on two ints. Language Reference 6.7 "Binary arithmetic operations".
fn quotient_of(left: Seen<'_>, right: Seen<'_>) -> Outcome
    ensures { outcome_of result ≡ limited_outcome (quotient_of (seen_of left.entry) (seen_of right.entry)) }
{
    match (left, right) {
        (Seen::Number(x), Seen::Number(y)) => quotient(x, y),
        _ => Outcome::Raised(Exception::TypeError),
    }
}

/// Gives the floor quotient of two numbers; division by zero is another exception.
fn quotient(x: i128, y: i128) -> Outcome
    ensures { outcome_of result ≡ limited_outcome (quotient_of (a_number x) (a_number y)) }
{
    if y == 0 {
        Outcome::Other
    } else {
        made(floor_div(x, y))
    }
}

/// Evaluates `%` on two ints. Language Reference 6.7 "Binary arithmetic operations".
fn remainder_of(left: Seen<'_>, right: Seen<'_>) -> Outcome
    ensures { outcome_of result ≡ limited_outcome (remainder_of (seen_of left.entry) (seen_of right.entry)) }
{
    match (left, right) {
        (Seen::Number(x), Seen::Number(y)) => remainder(x, y),
        (Seen::Text(_), _) => Outcome::Outside,
        _ => Outcome::Raised(Exception::TypeError),
    }
}

/// Gives the remainder of floor division; division by zero is another exception.
fn remainder(x: i128, y: i128) -> Outcome
    ensures { outcome_of result ≡ limited_outcome (remainder_of (a_number x) (a_number y)) }
{
    if y == 0 {
        Outcome::Other
    } else {
        made(floor_mod(x, y))
    }
}

/// Evaluates `+`, `-`, `*`, `//` or `%`.
pub fn binary(
    alloc: Global,
    operator: BinaryOperator,
    left: Seen<'_>,
    right: Seen<'_>,
) -> Result<Outcome, OutOfMemory>
    ensures { IfOk result (λ o. outcome_of o
        ≡ limited_outcome (binary_outcome operator (seen_of left.entry) (seen_of right.entry))) }
{
    match operator {
        BinaryOperator::Add => sum_of(alloc, left, right),
        BinaryOperator::Sub => Ok(difference_of(left, right)),
        BinaryOperator::Mul => Ok(product_of(left, right)),
        BinaryOperator::FloorDiv => Ok(quotient_of(left, right)),
        BinaryOperator::Mod => Ok(remainder_of(left, right)),
    }
}

/// Evaluates unary `-` on an int. Language Reference 6.6 "Unary arithmetic and bitwise operations".
pub fn negative(operand: Seen<'_>) -> Outcome
    ensures { outcome_of result ≡ limited_outcome (negative_of (seen_of operand.entry)) }
{
    match operand {
        Seen::Number(x) => made(negated(x)),
        _ => Outcome::Raised(Exception::TypeError),
    }
}

/// Gives a truth value.
pub fn truth(value: bool) -> Outcome
    ensures { outcome_of result ≡ gives (boolean value) }
{
    Outcome::Gives(Value::Bool(value))
}

/// Returns whether `==` has a free answer: on two tuples, lists, dicts or instances.
fn is_equality_free(left: Seen<'_>, right: Seen<'_>) -> bool
    ensures { result ≡ is_equality_free (seen_of left.entry) (seen_of right.entry) }
{
    match (left, right) {
        (Seen::Tuple(_), Seen::Tuple(_)) => true,
        (Seen::List(_, _), Seen::List(_, _)) => true,
        (Seen::Dict(_, _), Seen::Dict(_, _)) => true,
        (Seen::Instance(_, _, _), Seen::Instance(_, _, _)) => true,
        _ => false,
    }
}

/// Evaluates `==` if its answer is not free.
fn is_same(left: Seen<'_>, right: Seen<'_>) -> bool
    ensures { result ≡ is_same (seen_of left.entry) (seen_of right.entry) }
{
    match (left, right) {
        (Seen::Number(x), Seen::Number(y)) => x == y,
        (Seen::Text(s), Seen::Text(t)) => same_characters(s, t),
        (Seen::Nothing, Seen::Nothing) => true,
        _ => false,
    }
}

/// Returns the truth value that a choice byte selects: true if it is odd.
fn chosen_truth(choice: u8) -> bool
    ensures { result ≡ (free_of choice).truth }
{
    choice % 2 == 1
}

/// Evaluates `==`; a free answer comes from the choice byte. Language Reference 6.10.1 "Value comparisons".
fn is_equal(choice: u8, left: Seen<'_>, right: Seen<'_>) -> bool
    ensures { result ≡ is_equal (free_of choice) (seen_of left.entry) (seen_of right.entry) }
{
    if is_equality_free(left, right) {
        chosen_truth(choice)
    } else {
        is_same(left, right)
    }
}

/// Evaluates `<` on two ints or two texts. Language Reference 6.10.1 "Value comparisons".
fn below(left: Seen<'_>, right: Seen<'_>) -> Outcome
    ensures { outcome_of result ≡ below (seen_of left.entry) (seen_of right.entry) }
{
    match (left, right) {
        (Seen::Number(x), Seen::Number(y)) => truth(x < y),
        (Seen::Text(s), Seen::Text(t)) => truth(text_below(s, t)),
        (Seen::List(_, _), Seen::List(_, _)) => Outcome::Outside,
        (Seen::Tuple(_), Seen::Tuple(_)) => Outcome::Outside,
        _ => Outcome::Raised(Exception::TypeError),
    }
}

/// Negates an outcome that is a truth value; leaves any other as it is.
fn opposite(outcome: Outcome) -> Outcome
    ensures { outcome_of result ≡ opposite (outcome_of outcome) }
{
    match outcome {
        Outcome::Gives(Value::Bool(b)) => truth(!b),
        other => other,
    }
}

/// Returns whether `in` has a free answer: on a list or tuple.
fn is_membership_free(right: Seen<'_>) -> bool
    ensures { result ≡ is_membership_free (seen_of right.entry) }
{
    match right {
        Seen::List(_, _) => true,
        Seen::Tuple(_) => true,
        _ => false,
    }
}

/// Evaluates `in`. Language Reference 6.10.2 "Membership test operations".
fn member_of(choice: u8, left: Seen<'_>, right: Seen<'_>) -> Outcome
    ensures { outcome_of result ≡ membership_of (free_of choice) (seen_of left.entry) (seen_of right.entry) }
{
    match (left, right) {
        (Seen::Text(s), Seen::Text(t)) => truth(occurs_in(s, t)),
        (_, Seen::List(_, _)) => truth(chosen_truth(choice)),
        (_, Seen::Tuple(_)) => truth(chosen_truth(choice)),
        (key, Seen::Dict(_, entries)) => contains_key(key, entries),
        _ => Outcome::Raised(Exception::TypeError),
    }
}

/// Evaluates a comparison; a free answer comes from the choice byte. Language Reference 6.10 "Comparisons".
pub fn compare(choice: u8, operator: ComparisonOperator, left: Seen<'_>, right: Seen<'_>) -> Outcome
    ensures { outcome_of result ≡ compare_outcome (free_of choice) operator (seen_of left.entry) (seen_of right.entry) }
{
    match operator {
        ComparisonOperator::Equal => truth(is_equal(choice, left, right)),
        ComparisonOperator::NotEqual => truth(!is_equal(choice, left, right)),
        ComparisonOperator::Less => below(left, right),
        ComparisonOperator::LessEqual => opposite(below(right, left)),
        ComparisonOperator::Greater => below(right, left),
        ComparisonOperator::GreaterEqual => opposite(below(left, right)),
        ComparisonOperator::In => member_of(choice, left, right),
        ComparisonOperator::NotIn => opposite(member_of(choice, left, right)),
    }
}

/// Returns whether a comparison has a free answer.
pub fn is_comparison_free(operator: ComparisonOperator, left: Seen<'_>, right: Seen<'_>) -> bool
    ensures { result ≡ is_comparison_free operator (seen_of left.entry) (seen_of right.entry) }
{
    match operator {
        ComparisonOperator::Equal => is_equality_free(left, right),
        ComparisonOperator::NotEqual => is_equality_free(left, right),
        ComparisonOperator::In => is_membership_free(right),
        ComparisonOperator::NotIn => is_membership_free(right),
        _ => false,
    }
}

/// Returns whether `str` has a free answer: on a tuple, list, dict or instance.
pub fn is_text_free(operand: &Value) -> bool
    ensures { result ≡ is_text_free (value_of operand.now) }
{
    match operand {
        Value::Tuple(_) => true,
        Value::Location(_) => true,
        _ => false,
    }
}

/// Returns the text that a choice byte selects: its remainder by 4 times `x`.
fn chosen_text(alloc: Global, choice: u8) -> Result<Vec<char>, OutOfMemory>
    ensures { IfOk result (λ cs. cs.items ≡ (free_of choice).characters) }
{
    Ok(vec![in alloc; 'x'; (choice % 4) as usize]?)
}

/// Evaluates `str(e)`; a free answer comes from the choice byte. Library Reference, "Built-in Functions".
pub fn text_of(alloc: Global, choice: u8, operand: &Value) -> Result<Outcome, OutOfMemory>
    ensures { IfOk result (λ o. outcome_of o ≡ text_outcome (free_of choice) (value_of operand.now)) }
{
    let characters = match operand {
        Value::Int(n) => text_of_number(alloc, *n)?,
        Value::Bool(true) => ascii_text(alloc, "True")?,
        Value::Bool(false) => ascii_text(alloc, "False")?,
        Value::Str(characters) => copy_text(alloc, characters)?,
        Value::None => ascii_text(alloc, "None")?,
        Value::Tuple(_) => chosen_text(alloc, choice)?,
        Value::Location(_) => chosen_text(alloc, choice)?,
    };
    Ok(Outcome::Gives(Value::Str(characters)))
}
