//! Lists, dicts, tuples and texts.

ghost use Rattle.std.specs.Prelude.{◌≡◌, IfOk, map, pos, ◌∷◌, []};
ghost use Rattle.pc_value.specs.Meaning.{value_of, entry_of};
ghost use Rattle.pc_value.specs.Seeing.{seen_of};
ghost use Rattle.pc_value.specs.Doing.{outcome_of};
ghost use Rattle.pc_value.specs.Containers.{same_key, value_at, contains_key, gives_item, value_or_none, dict_item};
ghost use Rattle.pc_value.specs.Containers.{dict_get, get_outcome, index_among, item_numbered, gives_character};
ghost use Rattle.pc_value.specs.Containers.{item_outcome, length_outcome};
ghost use Rattle.pc_value.specs.Actions.{gives};
ghost use Rattle.pc_value.specs.Plain.{limited_outcome};
ghost use Rattle.pc_value.specs.Value.{whole, string};
ghost use Rattle.pc_value.specs.Internal.Keys.{key_of, option_value};

use crate::action::{Exception, Outcome};
use crate::operators::truth;
use crate::seen::Seen;
use crate::text::same_characters;
use crate::value::{DictEntry, Value};
use crate::whole::WholeNumber;
use pc_source::OutOfMemory;
use std::alloc::Global;

/// A dict key to look up: a whole number or a text.
#[derive(Clone, Copy)]
pub enum Key<'a> {
    Number(i128),
    Text(&'a [char]),
}

/// Returns whether a stored key equals the one looked up; `bool` counts as `int`.
fn is_key(stored: &Value, key: Key<'_>) -> bool
    ensures { result ≡ same_key (value_of stored.now) (key_of key.entry) }
{
    match (stored, key) {
        (Value::Int(n), Key::Number(k)) => *n == k,
        (Value::Bool(b), Key::Number(k)) => k == if *b { 1 } else { 0 },
        (Value::Str(characters), Key::Text(text)) => same_characters(characters, text),
        _ => false,
    }
}

/// Returns the value of a key, or `None` if no entry has it.
fn value_at<'a>(key: Key<'_>, entries: &'a [DictEntry]) -> Option<&'a Value>
    ensures { option_value result ≡ value_at (key_of key.entry) (map entry_of entries.now) }
{
    for entry in entries {
        if is_key(&entry.key, key) {
            return Some(&entry.value);
        }
    }
    None
}

/// Evaluates `k in d`. Language Reference 6.10.2 "Membership test operations".
pub fn contains_key(key: Seen<'_>, entries: &[DictEntry]) -> Outcome
    ensures { outcome_of result ≡ contains_key (seen_of key.entry) (map entry_of entries.now) }
{
    match key {
        Seen::Number(n) => truth(value_at(Key::Number(n), entries).is_some()),
        Seen::Text(characters) => truth(value_at(Key::Text(characters), entries).is_some()),
        Seen::Nothing => truth(false),
        Seen::Tuple(_) => Outcome::Outside,
        _ => Outcome::Raised(Exception::TypeError),
    }
}

/// Gives the found value, or another exception if there is none.
fn gives_item(alloc: Global, item: Option<&Value>) -> Result<Outcome, OutOfMemory>
    ensures { IfOk result (λ o. outcome_of o ≡ gives_item (option_value item.entry)) }
{
    match item {
        None => Ok(Outcome::Other),
        Some(value) => Ok(Outcome::Gives(value.copy(alloc)?)),
    }
}

/// Gives the found value, or None if there is none.
fn gives_or_none(alloc: Global, item: Option<&Value>) -> Result<Outcome, OutOfMemory>
    ensures { IfOk result (λ o. outcome_of o ≡ gives (value_or_none (option_value item.entry))) }
{
    match item {
        None => Ok(Outcome::Gives(Value::None)),
        Some(value) => Ok(Outcome::Gives(value.copy(alloc)?)),
    }
}

/// Evaluates `d[k]`; an absent key is another exception. Language Reference 6.3.2 "Subscriptions".
fn dict_item(alloc: Global, key: Seen<'_>, entries: &[DictEntry]) -> Result<Outcome, OutOfMemory>
    ensures { IfOk result (λ o. outcome_of o ≡ dict_item (seen_of key.entry) (map entry_of entries.now)) }
{
    match key {
        Seen::Number(n) => gives_item(alloc, value_at(Key::Number(n), entries)),
        Seen::Text(characters) => gives_item(alloc, value_at(Key::Text(characters), entries)),
        Seen::Nothing => Ok(Outcome::Other),
        Seen::Tuple(_) => Ok(Outcome::Outside),
        _ => Ok(Outcome::Raised(Exception::TypeError)),
    }
}

/// Evaluates `d.get(k)`; an absent key gives None. Library Reference, "Mapping Types".
fn dict_get(alloc: Global, key: Seen<'_>, entries: &[DictEntry]) -> Result<Outcome, OutOfMemory>
    ensures { IfOk result (λ o. outcome_of o ≡ dict_get (seen_of key.entry) (map entry_of entries.now)) }
{
    match key {
        Seen::Number(n) => gives_or_none(alloc, value_at(Key::Number(n), entries)),
        Seen::Text(characters) => gives_or_none(alloc, value_at(Key::Text(characters), entries)),
        Seen::Nothing => Ok(Outcome::Gives(Value::None)),
        Seen::Tuple(_) => Ok(Outcome::Outside),
        _ => Ok(Outcome::Raised(Exception::TypeError)),
    }
}

/// Evaluates `e.get(k)`; anything but a dict is out of the profile. Library Reference, "Mapping Types".
pub fn get(alloc: Global, object: Seen<'_>, key: Seen<'_>) -> Result<Outcome, OutOfMemory>
    ensures { IfOk result (λ o. outcome_of o ≡ get_outcome (seen_of object.entry) (seen_of key.entry)) }
{
    match object {
        Seen::Dict(_, entries) => dict_get(alloc, key, entries),
        _ => Ok(Outcome::Outside),
    }
}

/// Returns the position of an index in a list of `count` items, or `None` if it is out of range; negative ones count
/// from the end. Language Reference 6.3.2 "Subscriptions".
pub fn index_among(count: usize, index: i128) -> Option<usize>
    ensures { result ≡ index_among count index }
{
    match WholeNumber::of(index) {
        WholeNumber::AtLeastZero(i) => {
            if i < count as u128 {
                Some(i as usize)
            } else {
                None
            }
        }
        WholeNumber::BelowZero(i) => {
            if i < count as u128 {
                Some(count - 1 - i as usize)
            } else {
                None
            }
        }
    }
}

/// Gives the item at an index, or another exception if it is out of range.
fn value_item(alloc: Global, items: &[Value], index: i128) -> Result<Outcome, OutOfMemory>
    ensures { IfOk result (λ o. outcome_of o ≡ gives_item (item_numbered (map value_of items.now) index)) }
{
    match index_among(items.len(), index) {
        None => Ok(Outcome::Other),
        Some(i) => gives_item(alloc, items.get(i)),
    }
}

/// Returns a text of one character.
pub fn one_character(alloc: Global, character: char) -> Result<Value, OutOfMemory>
    ensures { IfOk result (λ v. value_of v ≡ string (character ∷ [])) }
{
    let mut characters = Vec::new(alloc);
    characters.push(character)?;
    Ok(Value::Str(characters))
}

/// Gives the character at an index as a text, or another exception if it is out of range.
fn character_item(alloc: Global, characters: &[char], index: i128) -> Result<Outcome, OutOfMemory>
    ensures { IfOk result (λ o. outcome_of o ≡ gives_character (item_numbered characters.now index)) }
{
    match index_among(characters.len(), index) {
        None => Ok(Outcome::Other),
        Some(i) => match characters.get(i) {
            None => Ok(Outcome::Other),
            Some(character) => Ok(Outcome::Gives(one_character(alloc, *character)?)),
        },
    }
}

/// Evaluates `e[i]` on a list, text, tuple or dict; other kinds are TypeError.
/// Language Reference 6.3.2 "Subscriptions".
pub fn item(alloc: Global, object: Seen<'_>, key: Seen<'_>) -> Result<Outcome, OutOfMemory>
    ensures { IfOk result (λ o. outcome_of o ≡ item_outcome (seen_of object.entry) (seen_of key.entry)) }
{
    match (object, key) {
        (Seen::List(_, items), Seen::Number(i)) => value_item(alloc, items, i),
        (Seen::Text(characters), Seen::Number(i)) => character_item(alloc, characters, i),
        (Seen::Tuple(items), Seen::Number(i)) => value_item(alloc, items, i),
        (Seen::Dict(_, entries), key) => dict_item(alloc, key, entries),
        _ => Ok(Outcome::Raised(Exception::TypeError)),
    }
}

/// Gives a count as a whole number.
fn count(number: usize) -> Outcome
    ensures { outcome_of result ≡ limited_outcome (gives (whole (pos number))) }
{
    Outcome::Gives(Value::Int(number as i128))
}

/// Evaluates `len(e)`; a text counts its characters. Library Reference, "Built-in Functions".
pub fn length_of(operand: Seen<'_>) -> Outcome
    ensures { outcome_of result ≡ limited_outcome (length_outcome (seen_of operand.entry)) }
{
    match operand {
        Seen::Text(characters) => count(characters.len()),
        Seen::List(_, items) => count(items.len()),
        Seen::Dict(_, entries) => count(entries.len()),
        Seen::Tuple(items) => count(items.len()),
        _ => Outcome::Raised(Exception::TypeError),
    }
}
