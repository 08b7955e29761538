//! Values, cells and heaps.

ghost use Rattle.std.specs.Prelude.{◌≡◌, IfOk, map};
ghost use Rattle.pc_value.specs.Meaning.{value_of, slot_of};

use pc_source::OutOfMemory;
use std::alloc::Global;

/// A value of a run.
#[derive(Debug, Drop)]
pub enum Value {
    /// A whole number.
    Int(i128),
    Bool(bool),
    /// A text, as its characters.
    Str(Vec<char>),
    None,
    Tuple(Vec<Value>),
    /// The location of a list, a dict or an instance in the heap.
    Location(usize),
}

/// A key of a dict and its value.
#[derive(Debug, Drop)]
pub struct DictEntry {
    pub key: Value,
    pub value: Value,
}

/// A field of an instance and its value.
#[derive(Debug, Drop)]
pub struct Slot {
    pub name: String,
    pub value: Value,
}

/// Content of a location.
#[derive(Debug, Drop)]
pub enum Cell {
    List(Vec<Value>),
    /// The entries of a dict, in the order in which their keys were first set.
    Dict(Vec<DictEntry>),
    /// The number of a class, and the fields of an instance of that class.
    Instance(usize, Vec<Slot>),
}

/// The content of each location, from 0 on.
#[derive(Debug, Drop)]
pub struct Heap {
    pub(crate) cells: Vec<Cell>,
}

impl Value {
    /// Copies the value.
    #[cycle(copy)]
    pub fn copy(&self, alloc: Global) -> Result<Value, OutOfMemory>
        ensures { IfOk result (λ v. value_of v ≡ value_of self.now) }
    {
        match self {
            Value::Int(n) => Ok(Value::Int(*n)),
            Value::Bool(b) => Ok(Value::Bool(*b)),
            Value::Str(characters) => Ok(Value::Str(copy_text(alloc, characters)?)),
            Value::None => Ok(Value::None),
            Value::Tuple(items) => Ok(Value::Tuple(copy_values(alloc, items)?)),
            Value::Location(place) => Ok(Value::Location(*place)),
        }
    }
}

/// Copies values.
#[cycle(copy)]
pub fn copy_values(alloc: Global, values: &[Value]) -> Result<Vec<Value>, OutOfMemory>
    ensures { IfOk result (λ vs. map value_of vs.items ≡ map value_of values.now) }
{
    let mut copied = Vec::new(alloc);
    for value in values {
        let v = value.copy(alloc)?;
        copied.push(v)?;
    }
    Ok(copied)
}

/// Copies a text.
pub fn copy_text(alloc: Global, characters: &[char]) -> Result<Vec<char>, OutOfMemory>
    ensures { IfOk result (λ cs. cs.items ≡ characters.now) }
{
    Ok(Vec::from_slice(alloc, characters)?)
}

/// Copies fields.
pub fn copy_slots(alloc: Global, slots: &[Slot]) -> Result<Vec<Slot>, OutOfMemory>
    ensures { IfOk result (λ ss. map slot_of ss.items ≡ map slot_of slots.now) }
{
    let mut copied = Vec::new(alloc);
    for slot in slots {
        let name = String::from_str(alloc, &slot.name)?;
        let value = slot.value.copy(alloc)?;
        copied.push(Slot { name, value })?;
    }
    Ok(copied)
}
