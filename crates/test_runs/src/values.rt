//! Values, as tables of actions name them.
use pc_value::{Action, DictEntry, Heap, Outcome, Slot, Value, act};
use std::alloc::{AllocError, Global};
use test_rows::TableFault;

/// Returns a text as a value.
fn text(alloc: Global, characters: &str) -> Result<Value, AllocError> {
    let mut text = Vec::new(alloc);
    for character in characters.chars() {
        text.push(character)?;
    }
    Ok(Value::Str(text))
}

/// Returns the items of a list of one number.
fn alone(alloc: Global, number: i128) -> Result<Vec<Value>, AllocError> {
    let mut values = Vec::new(alloc);
    values.push(Value::Int(number))?;
    Ok(values)
}

/// Returns the entries of a dict with one entry, of numbers.
fn entry(alloc: Global, key: i128, value: i128) -> Result<Vec<DictEntry>, AllocError> {
    let mut entries = Vec::new(alloc);
    entries.push(DictEntry {
        key: Value::Int(key),
        value: Value::Int(value),
    })?;
    Ok(entries)
}

/// Returns the fields of an instance with one field, a number.
fn field(alloc: Global, number: i128) -> Result<Vec<Slot>, AllocError> {
    let mut fields = Vec::new(alloc);
    let name = String::from_str(alloc, "a")?;
    fields.push(Slot {
        name,
        value: Value::Int(number),
    })?;
    Ok(fields)
}

/// Returns the action that makes the value of this name in the heap; `None` if it is not in the heap.
fn made(alloc: Global, name: &str) -> Result<Option<Action>, AllocError> {
    match name {
        "[]" => Ok(Some(Action::NewList(Vec::new(alloc)))),
        "[7]" => Ok(Some(Action::NewList(alone(alloc, 7)?))),
        "{}" => Ok(Some(Action::NewDict(Vec::new(alloc)))),
        "{1: 7}" => Ok(Some(Action::NewDict(entry(alloc, 1, 7)?))),
        "A(7)" => Ok(Some(Action::NewInstance(0, field(alloc, 7)?))),
        _ => Ok(None),
    }
}

/// Returns the value of this name that is not made in the heap.
fn simple(alloc: Global, name: &str) -> Result<Value, TableFault> {
    match name {
        "None" => Ok(Value::None),
        "False" => Ok(Value::Bool(false)),
        "True" => Ok(Value::Bool(true)),
        "least" => Ok(Value::Int(i128::MIN)),
        "greatest" => Ok(Value::Int(i128::MAX)),
        "()" => Ok(Value::Tuple(Vec::new(alloc))),
        "(1,)" => Ok(Value::Tuple(alone(alloc, 1)?)),
        "''" => Ok(text(alloc, "")?),
        _ => {
            if let Some(location) = name.strip_prefix("@") {
                let location = location.parse().map_err(|_| TableFault::Form)?;
                return Ok(Value::Location(location));
            }
            match name.parse() {
                Ok(number) => Ok(Value::Int(number)),
                Err(_) => Ok(text(alloc, name)?),
            }
        }
    }
}

/// Returns the value that a table names: a list, a dict or an instance is made in the heap, `@0` is the first value
/// made there, `least` and `greatest` are whole numbers, `''` is the empty text, and every other word is itself a text.
pub fn named(alloc: Global, heap: &mut Heap, name: &str) -> Result<Value, TableFault> {
    let Some(action) = made(alloc, name)? else {
        return simple(alloc, name);
    };
    match act(alloc, heap, &action, 0) {
        Ok(Outcome::Gives(value)) => Ok(value),
        Ok(_) => Err(TableFault::Form),
        Err(_) => Err(TableFault::OutOfMemory),
    }
}
