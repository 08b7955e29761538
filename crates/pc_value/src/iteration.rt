//! Iteration of a `for`, turn by turn.

ghost use Rattle.std.specs.Prelude.{◌≡◌, IfOk, map, slice_get};
ghost use Rattle.pc_value.specs.Meaning.{value_of, entry_of, heap_of};
ghost use Rattle.pc_value.specs.Seeing.{seen_of};
ghost use Rattle.pc_value.specs.Doing.{outcome_of, iteration_of};
ghost use Rattle.pc_value.specs.Iteration.{iterate_outcome, range_outcome, turn_item, turn_character, list_turn};
ghost use Rattle.pc_value.specs.Iteration.{dict_turn, turn_outcome};
ghost use Rattle.pc_value.specs.Internal.Keys.{option_value};

use crate::action::{Exception, Iteration, Outcome};
use crate::containers::one_character;
use crate::seen::{Seen, see_cell};
use crate::value::{DictEntry, Heap, Value, copy_text, copy_values};
use pc_source::OutOfMemory;
use std::alloc::Global;

/// Returns the source of items that a value gives a `for`; TypeError if it cannot be iterated over.
/// Language Reference 8.3 "The for statement".
pub fn iterate(alloc: Global, iterable: Seen<'_>) -> Result<Outcome, OutOfMemory>
    ensures { IfOk result (λ o. outcome_of o ≡ iterate_outcome (seen_of iterable.entry)) }
{
    match iterable {
        Seen::List(place, _) => Ok(Outcome::Iterates(Iteration::List(place))),
        Seen::Dict(place, entries) => {
            Ok(Outcome::Iterates(Iteration::Dict(place, entries.len())))
        }
        Seen::Text(characters) => {
            Ok(Outcome::Iterates(Iteration::Text(copy_text(alloc, characters)?)))
        }
        Seen::Tuple(items) => Ok(Outcome::Iterates(Iteration::Tuple(copy_values(alloc, items)?))),
        _ => Ok(Outcome::Raised(Exception::TypeError)),
    }
}

/// Returns the source of items of `range(e)`; TypeError if `e` is not an int.
pub fn iterate_range(limit: Seen<'_>) -> Outcome
    ensures { outcome_of result ≡ range_outcome (seen_of limit.entry) }
{
    match limit {
        Seen::Number(n) => Outcome::Iterates(Iteration::Range(n)),
        _ => Outcome::Raised(Exception::TypeError),
    }
}

/// Gives an item, or the end of the loop if there is none.
fn turn_item(alloc: Global, item: Option<&Value>) -> Result<Outcome, OutOfMemory>
    ensures { IfOk result (λ o. outcome_of o ≡ turn_item (option_value item.entry)) }
{
    match item {
        None => Ok(Outcome::Finished),
        Some(value) => Ok(Outcome::Gives(value.copy(alloc)?)),
    }
}

/// Takes a turn over a list, whose current length counts.
fn list_turn(alloc: Global, list: Seen<'_>, index: usize) -> Result<Outcome, OutOfMemory>
    ensures { IfOk result (λ o. outcome_of o ≡ list_turn (seen_of list.entry) index) }
{
    match list {
        Seen::List(_, items) => items_turn(alloc, items, index),
        _ => Ok(Outcome::Finished),
    }
}

/// Takes a turn over a slice of items.
fn items_turn(alloc: Global, items: &[Value], index: usize) -> Result<Outcome, OutOfMemory>
    ensures { IfOk result (λ o. outcome_of o ≡ turn_item (slice_get (map value_of items.now) index)) }
{
    turn_item(alloc, items.get(index))
}

/// Returns the key of the entry at an index, or `None` past the end.
fn key_at(entries: &[DictEntry], index: usize) -> Option<&Value>
    ensures { option_value result ≡ slice_get (map (λ e. e.key) (map entry_of entries.now)) index }
{
    if index < entries.len() {
        Some(&entries[index].key)
    } else {
        None
    }
}

/// Takes a turn over the keys of a dict; another exception if its size changed since the start.
fn dict_turn(
    alloc: Global,
    dict: Seen<'_>,
    size: usize,
    index: usize,
) -> Result<Outcome, OutOfMemory>
    ensures { IfOk result (λ o. outcome_of o ≡ dict_turn (seen_of dict.entry) size index) }
{
    match dict {
        Seen::Dict(_, entries) => {
            if entries.len() == size {
                turn_item(alloc, key_at(entries, index))
            } else {
                Ok(Outcome::Other)
            }
        }
        _ => Ok(Outcome::Finished),
    }
}

/// Takes a turn over the characters of a text.
fn text_turn(alloc: Global, characters: &[char], index: usize) -> Result<Outcome, OutOfMemory>
    ensures { IfOk result (λ o. outcome_of o ≡ turn_character (slice_get characters.now index)) }
{
    match characters.get(index) {
        None => Ok(Outcome::Finished),
        Some(character) => Ok(Outcome::Gives(one_character(alloc, *character)?)),
    }
}

/// Takes a turn of a `for`, counted from 0: gives the next item, or `Finished`.
/// Language Reference 8.3 "The for statement".
pub fn turn(
    alloc: Global,
    heap: &Heap,
    over: &Iteration,
    index: usize,
) -> Result<Outcome, OutOfMemory>
    ensures { IfOk result (λ o. outcome_of o ≡ turn_outcome (heap_of heap.now) (iteration_of over.now) index) }
{
    match over {
        Iteration::List(place) => list_turn(alloc, see_cell(heap, *place), index),
        Iteration::Dict(place, size) => dict_turn(alloc, see_cell(heap, *place), *size, index),
        Iteration::Text(characters) => text_turn(alloc, characters, index),
        Iteration::Tuple(items) => items_turn(alloc, items, index),
        Iteration::Range(limit) => {
            if (index as i128) < *limit {
                Ok(Outcome::Gives(Value::Int(index as i128)))
            } else {
                Ok(Outcome::Finished)
            }
        }
    }
}
