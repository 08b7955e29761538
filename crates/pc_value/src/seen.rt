//! Values by kind.

ghost use Rattle.std.specs.Prelude.{◌≡◌, slice_get};
ghost use Rattle.pc_value.specs.Meaning.{value_of, heap_of};
ghost use Rattle.pc_value.specs.Seeing.{seen_of};
ghost use Rattle.pc_value.specs.Value.{seen, seen_cell, is_true_seen};

use crate::value::{Cell, DictEntry, Heap, Slot, Value};

/// A value by its kind; `bool` counts as `int`, and a heap cell comes with its location.
#[derive(Clone, Copy)]
pub enum Seen<'a> {
    Number(i128),
    Text(&'a [char]),
    Nothing,
    Tuple(&'a [Value]),
    List(usize, &'a [Value]),
    Dict(usize, &'a [DictEntry]),
    Instance(usize, usize, &'a [Slot]),
    /// An empty location.
    Stray,
}

/// Returns the content of a location by its kind.
pub fn see_cell(heap: &Heap, place: usize) -> Seen<'_>
    ensures { seen_of result ≡ seen_cell place (slice_get (heap_of heap.now) place) }
{
    match heap.cells.get(place) {
        None => Seen::Stray,
        Some(Cell::List(items)) => Seen::List(place, items),
        Some(Cell::Dict(entries)) => Seen::Dict(place, entries),
        Some(Cell::Instance(class, fields)) => Seen::Instance(place, *class, fields),
    }
}

/// Returns a value by its kind, following a location into the heap.
pub fn see<'a>(heap: &'a Heap, value: &'a Value) -> Seen<'a>
    ensures { seen_of result ≡ seen (heap_of heap.now) (value_of value.now) }
{
    match value {
        Value::Int(n) => Seen::Number(*n),
        Value::Bool(b) => Seen::Number(if *b { 1 } else { 0 }),
        Value::Str(characters) => Seen::Text(characters),
        Value::None => Seen::Nothing,
        Value::Tuple(items) => Seen::Tuple(items),
        Value::Location(place) => see_cell(heap, *place),
    }
}

impl Seen<'_> {
    /// Returns the truth of a value: false for None, False, 0, and the empty text, list, dict and tuple. Language
    /// Reference 6.11 "Boolean operations".
    pub fn is_true(self) -> bool
        ensures { result ≡ is_true_seen (seen_of self.entry) }
    {
        match self {
            Seen::Number(n) => n != 0,
            Seen::Text(characters) => !characters.is_empty(),
            Seen::Nothing => false,
            Seen::Tuple(items) => !items.is_empty(),
            Seen::List(_, items) => !items.is_empty(),
            Seen::Dict(_, entries) => !entries.is_empty(),
            Seen::Instance(_, _, _) => true,
            Seen::Stray => true,
        }
    }
}
