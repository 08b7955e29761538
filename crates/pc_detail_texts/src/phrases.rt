//! The parts of sentences: names, operators, numbers, members of a union.

ghost use Rattle.std.specs.Prelude.{◌≡◌, ◌+◌, ◌^◌, ◌<◌, ◌++◌, OnOk, string_bytes};
ghost use Rattle.pc_detail_texts.specs.Sentences.{each_after, joined_by, function_text, callable_text, depth_after};
ghost use Rattle.pc_detail_texts.specs.Sentences.{has_bar, operand_text, between_text, binary_text, comparison_text};
ghost use Rattle.pc_detail_texts.specs.Sentences.{operation_text, counted, are_whole, where_it_is, leaving_text};
ghost use Rattle.pc_detail_texts.specs.Shown.{words, all_words, function_of_value, callable_of_value, operator_of_value};
ghost use Rattle.pc_detail_texts.specs.Shown.{leaving_of_value};

use crate::details::{Callable, FunctionName, Leaving, OperatorUse, Unsupported};
use crate::pieces::{push_both, push_name, push_named, push_pair, push_text, push_three};
use pc_source::OutOfMemory;
use pc_tree::{BinaryOperator, ComparisonOperator};
use std::rc::RcStr;

/// Appends texts, each after a separator.
fn push_each_after(text: &mut String, between: &str, parts: &[RcStr]) -> Result<(), OutOfMemory>
    ensures { OnOk result (string_bytes text.new
        ≡ string_bytes text.old ++ each_after between.now (all_words parts.now)) }
{
    for part in parts {
        text.push_str(between)?;
        text.push_str(part)?;
    }
    Ok(())
}

/// Appends texts with a separator between them.
pub(crate) fn push_joined(
    text: &mut String,
    between: &str,
    parts: &[RcStr],
) -> Result<(), OutOfMemory>
    ensures { OnOk result (string_bytes text.new
        ≡ string_bytes text.old ++ joined_by between.now (all_words parts.now)) }
{
    match parts.split_first() {
        None => Ok(()),
        Some((first, rest)) => {
            text.push_str(first)?;
            push_each_after(text, between, rest)
        }
    }
}

/// Appends the name of a function, with its class and a point before it if it is a method.
pub(crate) fn push_function(text: &mut String, function: &FunctionName) -> Result<(), OutOfMemory>
    ensures { OnOk result (string_bytes text.new
        ≡ string_bytes text.old ++ function_text (function_of_value function.now)) }
{
    match &function.class {
        None => push_name(text, &function.name),
        Some(class) => push_pair(text, "", class, ".", &function.name),
    }
}

/// Appends the name of a function, and a text.
pub(crate) fn push_function_and(
    text: &mut String,
    function: &FunctionName,
    after: &str,
) -> Result<(), OutOfMemory>
    ensures { OnOk result (string_bytes text.new
        ≡ string_bytes text.old ++ (function_text (function_of_value function.now) ++ after.now)) }
{
    push_function(text, function)?;
    push_text(text, after)
}

/// Appends the name of a function, and another name after a text.
pub(crate) fn push_function_then(
    text: &mut String,
    function: &FunctionName,
    between: &str,
    name: &RcStr,
) -> Result<(), OutOfMemory>
    ensures { OnOk result (string_bytes text.new ≡ string_bytes text.old
        ++ (function_text (function_of_value function.now) ++ (between.now ++ words name.now))) }
{
    push_function(text, function)?;
    push_named(text, between, name)
}

/// Appends the callee of a call.
pub(crate) fn push_callable(text: &mut String, callable: &Callable) -> Result<(), OutOfMemory>
    ensures { OnOk result (string_bytes text.new
        ≡ string_bytes text.old ++ callable_text (callable_of_value callable.now)) }
{
    match callable {
        Callable::Function(function) => push_function(text, function),
        Callable::Class(name) => push_name(text, name),
        Callable::Builtin(name) => push_name(text, name),
        Callable::Member(object, name) => push_pair(text, "", name, " of ", object),
        Callable::Value(ty) => push_named(text, "a value of type ", ty),
    }
}

/// Appends the callee of a call, and a text.
pub(crate) fn push_callable_and(
    text: &mut String,
    callable: &Callable,
    after: &str,
) -> Result<(), OutOfMemory>
    ensures { OnOk result (string_bytes text.new
        ≡ string_bytes text.old ++ (callable_text (callable_of_value callable.now) ++ after.now)) }
{
    push_callable(text, callable)?;
    push_text(text, after)
}

/// Appends the callee of a call, and a name after a text.
pub(crate) fn push_callable_then(
    text: &mut String,
    callable: &Callable,
    between: &str,
    name: &RcStr,
) -> Result<(), OutOfMemory>
    ensures { OnOk result (string_bytes text.new ≡ string_bytes text.old
        ++ (callable_text (callable_of_value callable.now) ++ (between.now ++ words name.now))) }
{
    push_callable(text, callable)?;
    push_named(text, between, name)
}

/// Returns the number of open brackets after a byte.
fn depth_after(byte: u8, depth: usize) -> usize
    requires { depth + 1 < 2 ^ 64 }
    ensures { result ≡ depth_after byte depth }
{
    if byte == b'[' {
        return depth + 1;
    }
    if byte == b']' {
        return depth.saturating_sub(1);
    }
    depth
}

/// Returns whether the text of a type has a bar outside brackets, as that of a union has.
fn is_union(ty: &str) -> bool
    ensures { result ≡ has_bar 0 ty.now }
{
    let mut depth: usize = 0;
    for byte in ty.as_bytes() {
        if *byte == b'|' && depth == 0 {
            return true;
        }
        depth = depth_after(*byte, depth);
    }
    false
}

/// Appends the type of an operand, in parentheses if it is a union.
fn push_operand(text: &mut String, ty: &str) -> Result<(), OutOfMemory>
    ensures { OnOk result (string_bytes text.new ≡ string_bytes text.old ++ operand_text ty.now) }
{
    if is_union(ty) {
        return push_three(text, "(", ty, ")");
    }
    push_text(text, ty)
}

/// Appends a sign between the types of its operands.
pub(crate) fn push_between(
    text: &mut String,
    left: &RcStr,
    sign: &str,
    right: &RcStr,
) -> Result<(), OutOfMemory>
    ensures { OnOk result (string_bytes text.new
        ≡ string_bytes text.old ++ between_text (words left.now) sign.now (words right.now)) }
{
    push_operand(text, left)?;
    push_three(text, " ", sign, " ")?;
    push_operand(text, right)
}

/// Returns the sign of a binary operator.
fn binary_sign(operator: BinaryOperator) -> &'static str
    ensures { result.now ≡ binary_text operator }
{
    match operator {
        BinaryOperator::Add => "+",
        BinaryOperator::Sub => "-",
        BinaryOperator::Mul => "*",
        BinaryOperator::FloorDiv => "//",
        BinaryOperator::Mod => "%",
    }
}

/// Returns the sign or the words of a comparison.
fn comparison_sign(operator: ComparisonOperator) -> &'static str
    ensures { result.now ≡ comparison_text operator }
{
    match operator {
        ComparisonOperator::Equal => "==",
        ComparisonOperator::NotEqual => "!=",
        ComparisonOperator::Less => "<",
        ComparisonOperator::LessEqual => "<=",
        ComparisonOperator::Greater => ">",
        ComparisonOperator::GreaterEqual => ">=",
        ComparisonOperator::In => "in",
        ComparisonOperator::NotIn => "not in",
    }
}

/// Appends an operator between the types of its operands.
pub(crate) fn push_operator(text: &mut String, operator: &OperatorUse) -> Result<(), OutOfMemory>
    ensures { OnOk result (string_bytes text.new
        ≡ string_bytes text.old ++ operation_text (operator_of_value operator.now)) }
{
    match operator {
        OperatorUse::Binary(sign, left, right) => {
            push_between(text, left, binary_sign(*sign), right)
        }
        OperatorUse::Comparison(sign, left, right) => {
            push_between(text, left, comparison_sign(*sign), right)
        }
        OperatorUse::Minus(operand) => {
            push_text(text, "-")?;
            push_operand(text, operand)
        }
    }
}

/// Appends a number of things, with an `s` unless there is one.
pub(crate) fn push_counted(text: &mut String, number: usize, thing: &str) -> Result<(), OutOfMemory>
    ensures { OnOk result (string_bytes text.new ≡ string_bytes text.old ++ counted number thing.now) }
{
    if number == 0 {
        return push_three(text, "no ", thing, "s");
    }
    if number == 1 {
        return push_both(text, "1 ", thing);
    }
    Ok(write!(text, "{number} {thing}s")?)
}

/// Returns whether the members at fault are the whole type, or there are none.
fn are_whole(of: &Unsupported) -> bool
    ensures { result ≡ are_whole (words of.now.object) (all_words of.now.lacking.items) }
{
    match of.lacking.split_first() {
        None => true,
        Some((first, others)) => {
            if !others.is_empty() {
                return false;
            }
            of.object == *first
        }
    }
}

/// Appends the members at fault, unless the whole type is.
pub(crate) fn push_where(text: &mut String, of: &Unsupported) -> Result<(), OutOfMemory>
    ensures { OnOk result (string_bytes text.new
        ≡ string_bytes text.old ++ where_it_is (words of.now.object) (all_words of.now.lacking.items)) }
{
    if are_whole(of) {
        return Ok(());
    }
    text.push_str(" where it is ")?;
    push_joined(text, " or ", &of.lacking)
}

/// Returns a statement that leaves its suite, in words.
pub(crate) fn leaving_words(leaving: Leaving) -> &'static str
    ensures { result.now ≡ leaving_text (leaving_of_value leaving) }
{
    match leaving {
        Leaving::Return => "return",
        Leaving::Break => "break",
        Leaving::Continue => "continue",
        Leaving::If => "an if that always leaves",
    }
}
