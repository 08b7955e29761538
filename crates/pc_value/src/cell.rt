//! Changes of the cell at one location.

ghost use Rattle.std.specs.Prelude.{◌≡◌, ◌++◌, ◌∷◌, [], ◌≤◌, IfOk, OnOk, OnErr, length, map, slice_set};
ghost use Rattle.pc_value.specs.Meaning.{value_of, entry_of, slot_of, cell_of, heap_of};
ghost use Rattle.pc_value.specs.Value.{none, list_cell};
ghost use Rattle.pc_value.specs.Actions.{gives};
ghost use Rattle.pc_value.specs.Doing.{outcome_of};
ghost use Rattle.pc_value.specs.Containers.{same_key, with_entry, last_of};
ghost use Rattle.pc_value.specs.Attributes.{with_field};
ghost use Rattle.pc_value.specs.Internal.Changes.{change_of, change_result, pop_result, heap_changed, key_place};
ghost use Rattle.pc_value.specs.Internal.Changes.{field_place};

use crate::action::Outcome;
use crate::text::{same_characters, same_name};
use crate::value::{Cell, DictEntry, Heap, Slot, Value};
use pc_source::OutOfMemory;

/// A change of the cell at a location.
#[derive(Debug, Drop)]
pub enum CellChange {
    Append(Value),
    Pop,
    SetItem(usize, Value),
    SetKey(Value, Value),
    SetField(String, Value),
}

/// Returns whether two keys are equal; `bool` counts as `int`.
fn same_key(stored: &Value, key: &Value) -> bool
    ensures { result ≡ same_key (value_of stored.now) (value_of key.now) }
{
    match (stored, key) {
        (Value::Int(n), Value::Int(k)) => *n == *k,
        (Value::Int(n), Value::Bool(k)) => *n == if *k { 1 } else { 0 },
        (Value::Bool(b), Value::Int(k)) => *k == if *b { 1 } else { 0 },
        (Value::Bool(b), Value::Bool(k)) => *b == *k,
        (Value::Str(s), Value::Str(t)) => same_characters(s, t),
        _ => false,
    }
}

/// Returns the index of the first entry with a key, or the number of entries if there is none.
fn key_place(key: &Value, entries: &[DictEntry]) -> usize
    ensures place { result ≡ key_place (value_of key.now) (map entry_of entries.now) }
    ensures within { result ≤ length entries.now }
{
    for (i, entry) in entries.iter().enumerate() {
        if same_key(&entry.key, key) {
            return i;
        }
    }
    entries.len()
}

/// Returns the index of the first field of a name, or the number of fields if there is none.
fn field_place(name: &str, fields: &[Slot]) -> usize
    ensures place { result ≡ field_place name.now (map slot_of fields.now) }
    ensures within { result ≤ length fields.now }
{
    for (i, slot) in fields.iter().enumerate() {
        if same_name(&slot.name, name) {
            return i;
        }
    }
    fields.len()
}

/// Sets a key of a dict: an existing entry keeps its place and key, a new one is appended.
pub fn set_key(entries: &mut Vec<DictEntry>, key: Value, value: Value) -> Result<(), OutOfMemory>
    ensures set { OnOk result
        (map entry_of entries.new.items ≡ with_entry (value_of key) (value_of value) (map entry_of entries.old.items)) }
    ensures unchanged { OnErr result (entries.new.items ≡ entries.old.items) }
{
    let place = key_place(&key, entries);
    if place < entries.len() {
        entries[place].value = value;
        Ok(())
    } else {
        entries.push(DictEntry { key, value })?;
        Ok(())
    }
}

/// Sets a field of an instance; does nothing if it has no field of that name.
fn set_field(fields: &mut Vec<Slot>, name: &str, value: Value)
    ensures { map slot_of fields.new.items ≡ with_field name.now (value_of value) (map slot_of fields.old.items) }
{
    let place = field_place(name, fields);
    if place < fields.len() {
        fields[place].value = value;
    }
}

/// Appends an item to a list and gives None.
fn push_item(items: &mut Vec<Value>, value: Value) -> Result<Outcome, OutOfMemory>
    ensures outcome { IfOk result (λ o. outcome_of o ≡ gives none) }
    ensures after { OnOk result (map value_of items.new.items ≡ map value_of items.old.items ++ value_of value ∷ []) }
    ensures unchanged { OnErr result (items.new.items ≡ items.old.items) }
{
    items.push(value)?;
    Ok(Outcome::Gives(Value::None))
}

/// Removes the last item of a list and gives it; an empty list is another exception.
fn pop_item(items: &mut Vec<Value>) -> Outcome
    ensures outcome { outcome_of result
        ≡ (pop_result (map value_of items.old.items) (last_of (map value_of items.old.items))).outcome }
    ensures after { list_cell (map value_of items.new.items)
        ≡ (pop_result (map value_of items.old.items) (last_of (map value_of items.old.items))).cell }
{
    match items.pop() {
        None => Outcome::Other,
        Some(value) => Outcome::Gives(value),
    }
}

/// Sets an item of a list; does nothing if the index is out of range.
fn set_item(items: &mut Vec<Value>, index: usize, value: Value)
    ensures { map value_of items.new.items ≡ slice_set (map value_of items.old.items) index (value_of value) }
{
    if index < items.len() {
        items[index] = value;
    }
}

/// Applies a change to a cell; a change that does not suit the cell's kind is out of the profile.
fn change_cell(cell: &mut Cell, change: CellChange) -> Result<Outcome, OutOfMemory>
    ensures outcome { IfOk result (λ o. outcome_of o ≡ (change_result (change_of change) (cell_of cell.old)).outcome) }
    ensures after { OnOk result (cell_of cell.new ≡ (change_result (change_of change) (cell_of cell.old)).cell) }
    ensures unchanged { OnErr result (cell_of cell.new ≡ cell_of cell.old) }
{
    match (cell, change) {
        (Cell::List(items), CellChange::Append(value)) => push_item(items, value),
        (Cell::List(items), CellChange::Pop) => Ok(pop_item(items)),
        (Cell::List(items), CellChange::SetItem(index, value)) => {
            set_item(items, index, value);
            Ok(Outcome::Gives(Value::None))
        }
        (Cell::Dict(entries), CellChange::SetKey(key, value)) => {
            set_key(entries, key, value)?;
            Ok(Outcome::Gives(Value::None))
        }
        (Cell::Instance(_, fields), CellChange::SetField(name, value)) => {
            set_field(fields, &name, value);
            Ok(Outcome::Gives(Value::None))
        }
        _ => Ok(Outcome::Outside),
    }
}

/// Applies a change to the cell at a location of the heap; an empty location is out of the profile.
pub fn change_at(heap: &mut Heap, place: usize, change: CellChange) -> Result<Outcome, OutOfMemory>
    ensures outcome { IfOk result
        (λ o. outcome_of o ≡ (heap_changed (heap_of heap.old) place (change_of change)).outcome) }
    ensures after { OnOk result (heap_of heap.new ≡ (heap_changed (heap_of heap.old) place (change_of change)).heap) }
    ensures unchanged { OnErr result (heap_of heap.new ≡ heap_of heap.old) }
{
    if place < heap.cells.len() {
        change_cell(&mut heap.cells[place], change)
    } else {
        Ok(Outcome::Outside)
    }
}
