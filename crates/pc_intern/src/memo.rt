//! Results that a store remembers: of comparing pairs of its types, and of joining several.

ghost use Rattle.std.specs.Prelude.{◌≡◌, All, ◌+◌, ◌*◌, ◌%◌, ◌^◌, ◌<◌, Contains, IfOk, IfSome, None, Some, slice_set};
ghost use Rattle.std.specs.Prelude.{List, vec_len};
ghost use Rattle.pc_types.specs.Below.{Bases};
ghost use Rattle.pc_types.specs.declared.boxed.BoxType.{BoxType};
ghost use Rattle.pc_intern.specs.Store.{AreJoined, IsJoined};

use crate::table::Numbers;
use pc_source::OutOfMemory;
use std::alloc::Global;

/// The number of slots of a memo.
const PLACES: usize = 4096;

/// The results of comparing a pair of types, given by their numbers.
#[derive(Clone, Copy)]
pub(crate) struct Answers {
    pub(crate) s: usize,
    pub(crate) t: usize,
    pub(crate) is_static: bool,
    pub(crate) is_assignable: bool,
}

/// A table of slots, each of which keeps the results of one pair or is empty.
#[derive(Drop)]
pub(crate) struct Memo {
    places: Vec<Option<Answers>>,
    pub ghost all_places: { vec_len places ≡ 4096 },
}

/// Returns the slot of a pair of numbers. The product and the sum wrap.
fn place_of(s: usize, t: usize) -> usize
    ensures { result ≡ ((31 * s) % 2 ^ 64 + t) % 2 ^ 64 % 4096 }
{
    s.wrapping_mul(31).wrapping_add(t) % PLACES
}

impl Memo {
    /// Returns an empty memo.
    pub(crate) fn new(alloc: Global) -> Result<Memo, OutOfMemory>
        ensures { IfOk result (λ m. All (λ o. o ≡ None) m.places.items) }
    {
        let mut places = Vec::with_capacity(alloc, PLACES)?;
        places.resize(PLACES, None)?;
        Ok(Memo { places })
    }

    /// Returns the results kept of a pair, if there are any.
    pub(crate) fn recall(&self, s: usize, t: usize) -> Option<Answers>
        ensures pair { IfSome result (λ a. (a.s ≡ s) × (a.t ≡ t)) }
        ensures kept { IfSome result (λ a. Contains self.now.places.items (Some a)) }
    {
        let answers = self.places[place_of(s, t)]?;
        if answers.s != s || answers.t != t {
            return None;
        }
        Some(answers)
    }

    /// Keeps the results of a pair in place of those of another pair with the same slot.
    pub(crate) fn keep(&mut self, answers: Answers)
        ensures { self.new.places.items
            ≡ slice_set self.old.places.items (((31 * answers.s) % 2 ^ 64 + answers.t) % 2 ^ 64 % 4096) (Some answers) }
    {
        // A lost result is computed again from the types; so the memo never has to grow.
        let place = place_of(answers.s, answers.t);
        self.places[place] = Some(answers);
    }
}

/// The number of slots of the table of joins.
const JOIN_PLACES: usize = 1024;

/// Types and their join, all given by their numbers.
#[derive(Drop)]
pub(crate) struct Joined {
    pub(crate) types: Numbers,
    pub(crate) joined: usize,
}

/// A table of slots, each of which keeps the join of some types or is empty.
#[derive(Drop)]
pub(crate) struct Joins {
    places: Vec<Option<Joined>>,
    pub ghost all_places: { vec_len places ≡ 1024 },
}

/// Returns the slot of several numbers.
fn place_of_all(numbers: &[usize]) -> usize
    ensures { result < 1024 }
{
    let mut place = 0usize;
    for number in numbers {
        place = place.wrapping_mul(31).wrapping_add(*number);
    }
    place % JOIN_PLACES
}

impl Joins {
    /// Returns an empty table.
    pub(crate) fn new(alloc: Global) -> Result<Joins, OutOfMemory>
        ensures { IfOk result (λ m. All (λ o. o ≡ None) m.places.items) }
    {
        let mut places = Vec::with_capacity(alloc, JOIN_PLACES)?;
        for place in 0..JOIN_PLACES {
            places.push(None)?;
        }
        Ok(Joins { places })
    }

    /// Returns the join kept of these types, if there is one.
    pub(crate) fn recall(&self, types: &Numbers) -> Option<usize>
        ensures { (bases : Bases) (table : List BoxType) → AreJoined bases table self.now.places.items
            → IfSome result (λ n. IsJoined bases table (record { types = types.now; joined = n })) }
    {
        let joined = self.places[place_of_all(types.as_slice())].as_ref()?;
        if joined.types.as_slice() != types.as_slice() {
            return None;
        }
        Some(joined.joined)
    }

    /// Keeps a join of types in place of another with the same slot.
    pub(crate) fn keep(&mut self, joined: Joined)
        ensures { (bases : Bases) (table : List BoxType) → AreJoined bases table self.old.places.items
            → IsJoined bases table joined → AreJoined bases table self.new.places.items }
    {
        let place = place_of_all(joined.types.as_slice());
        self.places[place] = Some(joined);
    }
}
