//! Actions on values, and their outcomes.

use crate::value::{DictEntry, Slot, Value};
use pc_tree::{BinaryOperator, ComparisonOperator};

/// An exception that the report names. Library Reference, "Built-in Exceptions".
#[derive(Clone, Copy, Debug, PartialEq, Eq)]
pub enum Exception {
    TypeError,
    AttributeError,
    NameError,
    UnboundLocalError,
}

/// Source of the items of a `for`. Language Reference 8.3 "The for statement".
#[derive(Debug, Drop)]
pub enum Iteration {
    /// The current items of the list at a location.
    List(usize),
    /// The keys of the dict at a location, with the number of its entries at the start.
    Dict(usize, usize),
    /// The characters of a text.
    Text(Vec<char>),
    /// The items of a tuple.
    Tuple(Vec<Value>),
    /// The whole numbers from 0 up to, but not including, this one.
    Range(i128),
}

/// An action on values, with its operands.
/// Language Reference 6 "Expressions", 7.2 "Assignment statements" and 8.3 "The for statement".
#[derive(Debug, Drop)]
pub enum Action {
    /// A whole number as written: whether it has a `-`, and its digits.
    Number(bool, String),
    Binary(BinaryOperator, Value, Value),
    Compare(ComparisonOperator, Value, Value),
    /// `-e`
    Negative(Value),
    /// `not e`
    Not(Value),
    /// The truth of a condition.
    Truth(Value),
    /// `[v, ..]`
    NewList(Vec<Value>),
    /// `{k: v, ..}`
    NewDict(Vec<DictEntry>),
    /// An instance of the class of this number, with its fields.
    NewInstance(usize, Vec<Slot>),
    /// `e[i]`
    ReadItem(Value, Value),
    /// `e[i] = v`
    StoreItem(Value, Value, Value),
    /// `e.f`, and whether the class of e has a method of that name.
    ReadAttribute(Value, String, bool),
    /// `e.f = v`
    StoreAttribute(Value, String, Value),
    /// `e.append(v)`
    Append(Value, Value),
    /// `e.pop()`
    Pop(Value),
    /// `e.get(k)`
    Get(Value, Value),
    /// `len(e)`
    Length(Value),
    /// `str(e)`
    Text(Value),
    /// The start of a `for` over a value.
    Iterate(Value),
    /// The start of a `for` over `range(e)`.
    IterateRange(Value),
    /// A turn of a `for`, counted from 0.
    Turn(Iteration, usize),
}

/// Outcome of an action.
#[derive(Debug, Drop)]
pub enum Outcome {
    /// A value; None where the action has no result of its own.
    Gives(Value),
    /// The source of the items of a `for`.
    Iterates(Iteration),
    /// The `for` has no further turn.
    Finished,
    Raised(Exception),
    /// Any other exception.
    Other,
    /// The run left the profile.
    Outside,
    /// A whole number does not fit 128 signed bits, which cuts the run off.
    Cut,
}
