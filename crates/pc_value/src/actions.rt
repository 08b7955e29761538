//! Actions on a heap.

ghost use Rattle.std.specs.Prelude.{◌≡◌, [], IfOk, OnOk, OnErr, map};
ghost use Rattle.pc_value.specs.Meaning.{value_of, entry_of, slot_of, cell_of, heap_of};
ghost use Rattle.pc_value.specs.Value.{whole, list_cell, instance_cell, seen};
ghost use Rattle.pc_value.specs.Actions.{gives};
ghost use Rattle.pc_value.specs.Seeing.{seen_of};
ghost use Rattle.pc_value.specs.Internal.DisplayFaults.{stop_of_key_fault};
ghost use Rattle.pc_value.specs.Doing.{outcome_of, action_of, written_number, ComesTo};
ghost use Rattle.pc_value.specs.Attributes.{store_attribute_outcome};
ghost use Rattle.pc_value.specs.Internal.Changes.{stored_at, stored_key, heap_changed, sets_key};
ghost use Rattle.pc_value.specs.Containers.{with_new_cell, append_outcome, pop_outcome, store_outcome, key_fault};
ghost use Rattle.pc_value.specs.Containers.{first_key_fault, with_entries, dict_display};
ghost use Rattle.pc_value.specs.Outcomes.{takes_choice};
ghost use Rattle.pc_value.specs.Plain.{limited_outcome, plainly_acted, IsAnswer};

use crate::action::{Action, Exception, Outcome};
use crate::attributes::{attribute, field_value};
use crate::cell::{CellChange, change_at, set_key};
use crate::containers::{get, index_among, item, length_of};
use crate::iteration::{iterate, iterate_range, turn};
use crate::operators::{
    binary, compare, is_comparison_free, is_text_free, made, negative, text_of, truth,
};
use crate::seen::{Seen, see};
use crate::value::{Cell, DictEntry, Heap, Slot, Value, copy_slots, copy_values};
use crate::whole::read_number;
use pc_source::OutOfMemory;
use std::alloc::Global;

/// Places a new cell at the first free location of the heap and gives that location.
fn placed(heap: &mut Heap, cell: Cell) -> Result<Outcome, OutOfMemory>
    ensures { ComesTo result heap.old heap.new (with_new_cell (heap_of heap.old) (cell_of cell)) }
{
    let place = heap.cells.len();
    heap.cells.push(cell)?;
    Ok(Outcome::Gives(Value::Location(place)))
}

/// Performs `e.append(v)` on a list; other kinds are out of the profile. Library Reference, "Mutable Sequence Types".
fn append(
    alloc: Global,
    heap: &mut Heap,
    object: &Value,
    value: &Value,
) -> Result<Outcome, OutOfMemory>
    ensures { ComesTo result heap.old heap.new
        (append_outcome (heap_of heap.old) (seen (heap_of heap.old) (value_of object.now)) (value_of value.now)) }
{
    let place = match see(heap, object) {
        Seen::List(place, _) => place,
        _ => return Ok(Outcome::Outside),
    };
    let value = value.copy(alloc)?;
    change_at(heap, place, CellChange::Append(value))
}

/// Performs `e.pop()` on a list; other kinds are out of the profile. Library Reference, "Mutable Sequence Types".
fn pop(heap: &mut Heap, object: &Value) -> Result<Outcome, OutOfMemory>
    ensures { ComesTo result heap.old heap.new
        (pop_outcome (heap_of heap.old) (seen (heap_of heap.old) (value_of object.now))) }
{
    let place = match see(heap, object) {
        Seen::List(place, _) => place,
        _ => return Ok(Outcome::Outside),
    };
    change_at(heap, place, CellChange::Pop)
}

/// Performs `e[i] = v` on a list or a dict; other kinds are TypeError. Language Reference 7.2 "Assignment statements".
fn store_item(
    alloc: Global,
    heap: &mut Heap,
    object: &Value,
    key: &Value,
    value: &Value,
) -> Result<Outcome, OutOfMemory>
    ensures { ComesTo result heap.old heap.new
        (store_outcome (heap_of heap.old) (seen (heap_of heap.old) (value_of object.now))
        (seen (heap_of heap.old) (value_of key.now)) (value_of key.now) (value_of value.now)) }
{
    match see(heap, object) {
        Seen::List(place, items) => {
            let index = match see(heap, key) {
                Seen::Number(index) => index_among(items.len(), index),
                _ => return Ok(Outcome::Raised(Exception::TypeError)),
            };
            store_in_list(alloc, heap, place, index, value)
        }
        Seen::Dict(place, _) => store_in_dict(alloc, heap, place, key, value),
        _ => Ok(Outcome::Raised(Exception::TypeError)),
    }
}

/// Performs `e[i] = v` on the list at a location; without an index in range it is another exception.
fn store_in_list(
    alloc: Global,
    heap: &mut Heap,
    place: usize,
    index: Option<usize>,
    value: &Value,
) -> Result<Outcome, OutOfMemory>
    ensures { ComesTo result heap.old heap.new (stored_at (heap_of heap.old) place index (value_of value.now)) }
{
    match index {
        None => Ok(Outcome::Other),
        Some(index) => {
            let value = value.copy(alloc)?;
            change_at(heap, place, CellChange::SetItem(index, value))
        }
    }
}

/// Performs `e[i] = v` on the dict at a location, by the kind of the key.
fn store_in_dict(
    alloc: Global,
    heap: &mut Heap,
    place: usize,
    key: &Value,
    value: &Value,
) -> Result<Outcome, OutOfMemory>
    ensures { ComesTo result heap.old heap.new
        (stored_key (heap_of heap.old) place (seen (heap_of heap.old) (value_of key.now)) (value_of key.now)
        (value_of value.now)) }
{
    match see(heap, key) {
        Seen::Number(_) => set_in_dict(alloc, heap, place, key, value),
        Seen::Text(_) => set_in_dict(alloc, heap, place, key, value),
        Seen::Nothing => Ok(Outcome::Outside),
        Seen::Tuple(_) => Ok(Outcome::Outside),
        _ => Ok(Outcome::Raised(Exception::TypeError)),
    }
}

/// Sets a key of the dict at a location.
fn set_in_dict(
    alloc: Global,
    heap: &mut Heap,
    place: usize,
    key: &Value,
    value: &Value,
) -> Result<Outcome, OutOfMemory>
    ensures { ComesTo result heap.old heap.new
        (heap_changed (heap_of heap.old) place (sets_key (value_of key.now) (value_of value.now))) }
{
    let key = key.copy(alloc)?;
    let value = value.copy(alloc)?;
    change_at(heap, place, CellChange::SetKey(key, value))
}

/// Performs `e.f = v` on a field that the instance has. Language Reference 7.2 "Assignment statements".
fn store_attribute(
    alloc: Global,
    heap: &mut Heap,
    object: &Value,
    name: &str,
    value: &Value,
) -> Result<Outcome, OutOfMemory>
    ensures { ComesTo result heap.old heap.new
        (store_attribute_outcome (heap_of heap.old) (seen (heap_of heap.old) (value_of object.now)) name.now
        (value_of value.now)) }
{
    let place = match see(heap, object) {
        Seen::Instance(place, _, fields) => {
            if field_value(name, fields).is_none() {
                return Ok(Outcome::Outside);
            }
            place
        }
        _ => return Ok(Outcome::Raised(Exception::AttributeError)),
    };
    let name = String::from_str(alloc, name)?;
    let value = value.copy(alloc)?;
    change_at(heap, place, CellChange::SetField(name, value))
}

/// Outcome that an unusable key gives a dict display.
#[derive(Clone, Copy)]
enum KeyFault {
    Outside,
    TypeError,
}

/// Returns the fault of one key of a dict display, if it has one.
fn key_fault(key: Seen<'_>) -> Option<KeyFault>
    ensures { stop_of_key_fault result ≡ key_fault (seen_of key.entry) }
{
    match key {
        Seen::Number(_) => None,
        Seen::Text(_) => None,
        Seen::Nothing => Some(KeyFault::Outside),
        Seen::Tuple(_) => Some(KeyFault::Outside),
        _ => Some(KeyFault::TypeError),
    }
}

/// Returns the fault of the first unusable key of a dict display, if there is one.
fn first_key_fault(heap: &Heap, entries: &[DictEntry]) -> Option<KeyFault>
    ensures { stop_of_key_fault result ≡ first_key_fault (heap_of heap.now) (map entry_of entries.now) }
{
    for entry in entries {
        let fault = key_fault(see(heap, &entry.key));
        if fault.is_some() {
            return fault;
        }
    }
    None
}

/// Returns the entries of a dict display after setting them one after another; a repeated key keeps its first place.
fn entries_of(alloc: Global, entries: &[DictEntry]) -> Result<Vec<DictEntry>, OutOfMemory>
    ensures { IfOk result (λ es. map entry_of es.items ≡ with_entries [] (map entry_of entries.now)) }
{
    let mut set = Vec::new(alloc);
    for entry in entries {
        let key = entry.key.copy(alloc)?;
        let value = entry.value.copy(alloc)?;
        set_key(&mut set, key, value)?;
    }
    Ok(set)
}

/// Evaluates `{k: v, ..}`: places a new dict in the heap. Language Reference 6.2.7 "Dictionary displays".
fn new_dict(alloc: Global, heap: &mut Heap, entries: &[DictEntry]) -> Result<Outcome, OutOfMemory>
    ensures { ComesTo result heap.old heap.new
        (dict_display (heap_of heap.old) (map entry_of entries.now)
        (first_key_fault (heap_of heap.old) (map entry_of entries.now))) }
{
    match first_key_fault(heap, entries) {
        Some(KeyFault::Outside) => Ok(Outcome::Outside),
        Some(KeyFault::TypeError) => Ok(Outcome::Raised(Exception::TypeError)),
        None => {
            let entries = entries_of(alloc, entries)?;
            placed(heap, Cell::Dict(entries))
        }
    }
}

/// Evaluates `[v, ..]`: places a new list in the heap. Language Reference 6.2.5 "List displays".
fn new_list(alloc: Global, heap: &mut Heap, items: &[Value]) -> Result<Outcome, OutOfMemory>
    ensures { ComesTo result heap.old heap.new (with_new_cell (heap_of heap.old) (list_cell (map value_of items.now))) }
{
    let items = copy_values(alloc, items)?;
    placed(heap, Cell::List(items))
}

/// Places a new instance of a class in the heap.
fn new_instance(
    alloc: Global,
    heap: &mut Heap,
    class: usize,
    fields: &[Slot],
) -> Result<Outcome, OutOfMemory>
    ensures { ComesTo result heap.old heap.new
        (with_new_cell (heap_of heap.old) (instance_cell class (map slot_of fields.now))) }
{
    let fields = copy_slots(alloc, fields)?;
    placed(heap, Cell::Instance(class, fields))
}

/// Gives a whole number as written, or `Cut` if it does not fit 128 signed bits.
fn number(below_zero: bool, digits: &str) -> Outcome
    ensures { outcome_of result ≡ limited_outcome (gives (whole (written_number below_zero digits.now))) }
{
    made(read_number(below_zero, digits.as_bytes()))
}

/// Returns the outcome of an action that leaves the heap unchanged; `Outside` for the actions that change it.
fn answer(alloc: Global, heap: &Heap, action: &Action, choice: u8) -> Result<Outcome, OutOfMemory>
    ensures { IfOk result (λ o. IsAnswer choice (action_of action.now) (heap_of heap.now) (outcome_of o)) }
{
    match action {
        Action::Number(below_zero, digits) => Ok(number(*below_zero, digits)),
        Action::Binary(operator, left, right) => {
            binary(alloc, *operator, see(heap, left), see(heap, right))
        }
        Action::Compare(operator, left, right) => {
            Ok(compare(choice, *operator, see(heap, left), see(heap, right)))
        }
        Action::Negative(operand) => Ok(negative(see(heap, operand))),
        Action::Not(operand) => Ok(truth(!see(heap, operand).is_true())),
        Action::Truth(operand) => Ok(truth(see(heap, operand).is_true())),
        Action::ReadItem(object, key) => item(alloc, see(heap, object), see(heap, key)),
        Action::ReadAttribute(object, name, is_method) => {
            attribute(alloc, see(heap, object), name, *is_method)
        }
        Action::Get(object, key) => get(alloc, see(heap, object), see(heap, key)),
        Action::Length(operand) => Ok(length_of(see(heap, operand))),
        Action::Text(operand) => text_of(alloc, choice, operand),
        Action::Iterate(iterable) => iterate(alloc, see(heap, iterable)),
        Action::IterateRange(limit) => Ok(iterate_range(see(heap, limit))),
        Action::Turn(over, index) => turn(alloc, heap, over, *index),
        _ => Ok(Outcome::Outside),
    }
}

/// Performs an action in a plain run, with free answers from the choice byte.
fn perform(
    alloc: Global,
    heap: &mut Heap,
    action: &Action,
    choice: u8,
) -> Result<Outcome, OutOfMemory>
    ensures { ComesTo result heap.old heap.new (plainly_acted choice (action_of action.now) (heap_of heap.old)) }
{
    match action {
        Action::NewList(items) => new_list(alloc, heap, items),
        Action::NewDict(entries) => new_dict(alloc, heap, entries),
        Action::NewInstance(class, fields) => new_instance(alloc, heap, *class, fields),
        Action::StoreItem(object, key, value) => store_item(alloc, heap, object, key, value),
        Action::StoreAttribute(object, name, value) => {
            store_attribute(alloc, heap, object, name, value)
        }
        Action::Append(object, value) => append(alloc, heap, object, value),
        Action::Pop(object) => pop(heap, object),
        _ => answer(alloc, heap, action, choice),
    }
}

/// Performs an action in a plain run: returns its outcome and updates the heap. A free answer is taken from the choice
/// byte; a whole number that does not fit 128 signed bits is `Cut`. Own rule of the profile.
///
/// # Errors
///
/// If an allocation failed; the heap then means the same as before.
pub fn act(
    alloc: Global,
    heap: &mut Heap,
    action: &Action,
    choice: u8,
) -> Result<Outcome, OutOfMemory>
    ensures outcome { IfOk result
        (λ o. outcome_of o ≡ (plainly_acted choice (action_of action.now) (heap_of heap.old)).outcome) }
    ensures after { OnOk result
        (heap_of heap.new ≡ (plainly_acted choice (action_of action.now) (heap_of heap.old)).heap) }
    ensures unchanged { OnErr result (heap_of heap.new ≡ heap_of heap.old) }
{
    perform(alloc, heap, action, choice)
}

/// Returns whether the action has a free answer, which uses up a choice byte. Own rule of the profile.
pub fn takes_choice(heap: &Heap, action: &Action) -> bool
    ensures { result ≡ takes_choice (heap_of heap.now) (action_of action.now) }
{
    match action {
        Action::Compare(operator, left, right) => {
            is_comparison_free(*operator, see(heap, left), see(heap, right))
        }
        Action::Text(operand) => is_text_free(operand),
        _ => false,
    }
}
