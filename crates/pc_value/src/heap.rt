//! The heap.

ghost use Rattle.std.specs.Prelude.{◌≡◌, []};
ghost use Rattle.pc_value.specs.Meaning.{value_of, heap_of};
ghost use Rattle.pc_value.specs.Value.{seen, class_number_of, is_true, is_list};

use crate::seen::{Seen, see};
use crate::value::{Heap, Value};
use std::alloc::Global;

impl Heap {
    /// Returns an empty heap.
    pub fn new(alloc: Global) -> Heap
        ensures { heap_of result ≡ [] }
    {
        Heap {
            cells: Vec::new(alloc),
        }
    }

    /// Returns the class number of an instance, or `None` for any other value.
    pub fn class_of(&self, value: &Value) -> Option<usize>
        ensures { result ≡ class_number_of (heap_of self.now) (value_of value.now) }
    {
        match see(self, value) {
            Seen::Instance(_, class, _) => Some(class),
            _ => None,
        }
    }

    /// Returns the truth of a value. Language Reference 6.11 "Boolean operations".
    pub fn is_true(&self, value: &Value) -> bool
        ensures { result ≡ is_true (heap_of self.now) (value_of value.now) }
    {
        see(self, value).is_true()
    }

    /// Returns whether a value is a list.
    pub fn is_list(&self, value: &Value) -> bool
        ensures { result ≡ is_list (seen (heap_of self.now) (value_of value.now)) }
    {
        matches!(see(self, value), Seen::List(_, _))
    }
}
