//! Values, heaps, and the outcome of each action on values.
#![tactic(auto)]

mod action;
mod actions;
mod attributes;
mod cell;
mod containers;
mod heap;
mod iteration;
mod operators;
mod seen;
mod text;
mod value;
mod whole;

pub use action::{Action, Exception, Iteration, Outcome};
pub use actions::{act, takes_choice};
pub use seen::{Seen, see};
pub use value::{Cell, DictEntry, Heap, Slot, Value};
pub use whole::read_number;
