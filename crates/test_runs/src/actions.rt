//! Tables of actions on values, with ample memory, and the outcome of each.
use crate::values::named;
use pc_tree::{BinaryOperator, ComparisonOperator};
use pc_value::{Action, DictEntry, Heap, Iteration, Value, act, takes_choice};
use std::alloc::{AllocError, Global};
use test_rows::{TableFault, Tally, rows};

/// Returns the binary operator written as this word.
fn binary_of(word: &str) -> Option<BinaryOperator> {
    match word {
        "+" => Some(BinaryOperator::Add),
        "-" => Some(BinaryOperator::Sub),
        "*" => Some(BinaryOperator::Mul),
        "//" => Some(BinaryOperator::FloorDiv),
        "%" => Some(BinaryOperator::Mod),
        _ => None,
    }
}

/// Returns the comparison operator written as this word.
fn comparison_of(word: &str) -> Option<ComparisonOperator> {
    match word {
        "==" => Some(ComparisonOperator::Equal),
        "!=" => Some(ComparisonOperator::NotEqual),
        "<" => Some(ComparisonOperator::Less),
        "<=" => Some(ComparisonOperator::LessEqual),
        "in" => Some(ComparisonOperator::In),
        "not in" => Some(ComparisonOperator::NotIn),
        _ => None,
    }
}

/// Returns the word of an action at an index.
fn word<'w>(words: &[&'w str], at: usize) -> Result<&'w str, TableFault> {
    match words.get(at) {
        Some(word) => Ok(*word),
        None => Err(TableFault::Form),
    }
}

/// Returns the word at an index as a value.
fn value(alloc: Global, heap: &mut Heap, words: &[&str], at: usize) -> Result<Value, TableFault> {
    named(alloc, heap, word(words, at)?)
}

/// Returns the word at an index as a text.
fn text(alloc: Global, words: &[&str], at: usize) -> Result<String, TableFault> {
    Ok(String::from_str(alloc, word(words, at)?)?)
}

/// Returns the word at an index as a number.
fn number(words: &[&str], at: usize) -> Result<usize, TableFault> {
    word(words, at)?.parse().map_err(|_| TableFault::Form)
}

/// Returns entries with the keys from the second word on, each with the value None.
fn entries(alloc: Global, heap: &mut Heap, words: &[&str]) -> Result<Vec<DictEntry>, TableFault> {
    let mut entries = Vec::new(alloc);
    for name in words.iter().skip(1) {
        let key = named(alloc, heap, *name)?;
        let value = Value::None;
        entries.push(DictEntry { key, value })?;
    }
    Ok(entries)
}

/// Returns the action on the value that the second word names.
fn action_on(alloc: Global, heap: &mut Heap, words: &[&str]) -> Result<Action, TableFault> {
    let object = value(alloc, heap, words, 1)?;
    match word(words, 0)? {
        "negative" => Ok(Action::Negative(object)),
        "not" => Ok(Action::Not(object)),
        "length" => Ok(Action::Length(object)),
        "text" => Ok(Action::Text(object)),
        "iterate" => Ok(Action::Iterate(object)),
        "iterate range" => Ok(Action::IterateRange(object)),
        "pop" => Ok(Action::Pop(object)),
        "append" => Ok(Action::Append(object, value(alloc, heap, words, 2)?)),
        "get" => Ok(Action::Get(object, value(alloc, heap, words, 2)?)),
        "read item" => Ok(Action::ReadItem(object, value(alloc, heap, words, 2)?)),
        "store item" => {
            let key = value(alloc, heap, words, 2)?;
            Ok(Action::StoreItem(object, key, value(alloc, heap, words, 3)?))
        }
        "read field" => Ok(Action::ReadAttribute(object, text(alloc, words, 2)?, false)),
        "read method" => Ok(Action::ReadAttribute(object, text(alloc, words, 2)?, true)),
        "store field" => {
            let name = text(alloc, words, 2)?;
            Ok(Action::StoreAttribute(object, name, value(alloc, heap, words, 3)?))
        }
        _ => Err(TableFault::Form),
    }
}

/// Returns the action that words name.
fn action_of(alloc: Global, heap: &mut Heap, words: &[&str]) -> Result<Action, TableFault> {
    let verb = word(words, 0)?;
    if let Some(operator) = binary_of(verb) {
        let left = value(alloc, heap, words, 1)?;
        let right = value(alloc, heap, words, 2)?;
        return Ok(Action::Binary(operator, left, right));
    }
    if let Some(operator) = comparison_of(verb) {
        let left = value(alloc, heap, words, 1)?;
        let right = value(alloc, heap, words, 2)?;
        return Ok(Action::Compare(operator, left, right));
    }
    match verb {
        "number" => Ok(Action::Number(false, text(alloc, words, 1)?)),
        "number below zero" => Ok(Action::Number(true, text(alloc, words, 1)?)),
        "dict" => Ok(Action::NewDict(entries(alloc, heap, words)?)),
        "turn of list" => {
            let list = Iteration::List(number(words, 1)?);
            Ok(Action::Turn(list, number(words, 2)?))
        }
        "turn of dict" => {
            let dict = Iteration::Dict(number(words, 1)?, number(words, 2)?);
            Ok(Action::Turn(dict, number(words, 3)?))
        }
        "turn of range" => {
            let end = word(words, 1)?.parse().map_err(|_| TableFault::Form)?;
            Ok(Action::Turn(Iteration::Range(end), number(words, 2)?))
        }
        _ => action_on(alloc, heap, words),
    }
}

/// Returns the outcome of an action, and for an operation also whether it takes a choice.
fn outcome(
    alloc: Global,
    heap: &mut Heap,
    action: &Action,
    choice: u8,
) -> Result<String, AllocError> {
    let is_operation = matches!(action, Action::Binary(..) | Action::Compare(..));
    let free = is_operation && takes_choice(heap, action);
    match act(alloc, heap, action, choice) {
        Ok(outcome) if free => format!(in alloc; "free: {outcome:?}"),
        Ok(outcome) => format!(in alloc; "{outcome:?}"),
        Err(fault) => format!(in alloc; "{fault}"),
    }
}

/// Describes a value in a heap: its class, whether it is a list, and whether it is true.
fn heap_text(alloc: Global, heap: &Heap, value: &Value) -> Result<String, AllocError> {
    let (class, is_list) = (heap.class_of(value), heap.is_list(value));
    let is_true = heap.is_true(value);
    format!(in alloc; "{class:?}, {is_list}, {is_true}")
}

/// Returns the answer to a row: an action with its operands, and perhaps a choice byte, or a value that is made.
fn answer(alloc: Global, heap: &mut Heap, row: &str) -> Result<String, TableFault> {
    let (action, choice) = match row.rsplit_once(" ; choice ") {
        Some((action, choice)) => (action, choice.parse().map_err(|_| TableFault::Form)?),
        None => (row, 0),
    };
    let words: Vec<&str> = action.split(" ; ").collect(alloc)?;
    if word(&words, 0)? == "new" {
        let made = value(alloc, heap, &words, 1)?;
        return Ok(heap_text(alloc, heap, &made)?);
    }
    let action = action_of(alloc, heap, &words)?;
    Ok(outcome(alloc, heap, &action, choice)?)
}

/// Counts the rows of one heap.
fn count_rows(alloc: Global, lines: &str, tally: &mut Tally) -> Result<(), TableFault> {
    let mut heap = Heap::new(alloc);
    for row in rows(alloc, lines)? {
        let got = answer(alloc, &mut heap, row.text.as_str())?;
        tally.count(row.written.as_str(), row.want, got.as_str())?;
    }
    Ok(())
}

/// Counts the rows of a table, in which an empty line begins a new heap.
pub fn count_actions(alloc: Global, table: &str, tally: &mut Tally) -> Result<(), TableFault> {
    for lines in table.split("\n\n") {
        count_rows(alloc, lines, tally)?;
    }
    Ok(())
}
