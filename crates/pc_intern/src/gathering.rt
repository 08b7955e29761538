//! A join in progress, to which types are joined one after another.

ghost use Rattle.std.specs.Prelude.{◌≡◌, ◌⊎◌, [], ℕ, Contains, IfOk, IsTrue, OnOk, unwrap_or};
ghost use Rattle.pc_types.specs.Tree.{Never, Object};
ghost use Rattle.pc_types.specs.Join.{join};
ghost use Rattle.pc_types.specs.Boxed.{tree_of};
ghost use Rattle.pc_intern.specs.Store.{IsGathered, IsInterned, tree_of_type};

use crate::store::{InternStore, TypeId};
use crate::table::Numbers;
use pc_source::OutOfMemory;
use pc_types::{BoxStore, BoxType, Parents, TypeStore, is_same};
use std::alloc::Global;

/// Most numbers kept of the types that change nothing, and of those that were joined before.
const MANY: usize = 64;

/// A join in progress: the join so far; some types known to leave it unchanged; and some that were joined before. These
/// types are given by their numbers.
#[derive(Drop)]
pub(crate) struct Gathered {
    pub(crate) joined: BoxType,
    pub(crate) covered: Numbers,
    pub(crate) seen: Numbers,
}

impl Gathered {
    /// Returns the join of no types.
    pub(crate) fn new(alloc: Global) -> Gathered
        ensures joined { tree_of result.joined ≡ Never }
        ensures covered { result.covered.items ≡ [] }
    {
        Gathered {
            joined: BoxType::Never,
            covered: Numbers::new(alloc),
            seen: Numbers::new(alloc),
        }
    }
}

/// Returns true only if a number is one of these.
fn is_among(numbers: &Numbers, number: usize) -> bool
    ensures { IsTrue result → Contains numbers.now.items number }
{
    let numbers = numbers.as_slice();
    for i in 0..numbers.len() {
        if numbers[i] == number {
            return true;
        }
    }
    false
}

/// Adds a number to others, which are dropped first if there are many.
fn note(numbers: &mut Numbers, number: usize) -> Result<(), OutOfMemory>
    ensures { OnOk result ((n : ℕ) → Contains numbers.new.items n → Contains numbers.old.items n ⊎ (number ≡ n)) }
{
    if numbers.len() >= MANY {
        numbers.clear();
    }
    numbers.push(number)?;
    Ok(())
}

impl InternStore {
    /// Returns a join in progress with one more type. A type known to change nothing is skipped.
    pub(crate) fn gather(
        &self,
        alloc: Global,
        parents: &Parents,
        gathered: Gathered,
        ty: &TypeId,
    ) -> Result<Gathered, OutOfMemory>
        requires ty { IsInterned self.now ty.now }
        requires gathered { IsGathered parents.now self.now gathered }
        ensures gathered { IfOk result (IsGathered parents.now self.now) }
        ensures value { IfOk result (λ g. tree_of g.joined
            ≡ unwrap_or (join parents.now (tree_of gathered.joined) (tree_of_type ty.now)) Object) }
    {
        if is_among(&gathered.covered, ty.number) {
            return Ok(gathered);
        }
        if is_among(&gathered.seen, ty.number) {
            return self.gather_again(alloc, parents, gathered, ty);
        }
        let Gathered {
            joined,
            mut seen,
            ..
        } = gathered;
        note(&mut seen, ty.number)?;
        let joined = BoxStore::new().join_onto(alloc, parents, joined, self.table.ty(ty.number))?;
        let covered = Numbers::new(alloc);
        Ok(Gathered {
            joined,
            covered,
            seen,
        })
    }

    /// Returns a join in progress with one more type that was joined before and may therefore change nothing.
    fn gather_again(
        &self,
        alloc: Global,
        parents: &Parents,
        gathered: Gathered,
        ty: &TypeId,
    ) -> Result<Gathered, OutOfMemory>
        requires ty { IsInterned self.now ty.now }
        requires gathered { IsGathered parents.now self.now gathered }
        ensures gathered { IfOk result (IsGathered parents.now self.now) }
        ensures value { IfOk result (λ g. tree_of g.joined
            ≡ unwrap_or (join parents.now (tree_of gathered.joined) (tree_of_type ty.now)) Object) }
    {
        let Gathered {
            joined,
            mut covered,
            seen,
        } = gathered;
        let store = BoxStore::new();
        let before = store.copy(alloc, &joined)?;
        let joined = store.join_onto(alloc, parents, joined, self.table.ty(ty.number))?;
        if is_same(&joined, &before) {
            note(&mut covered, ty.number)?;
        } else {
            covered.clear();
        }
        Ok(Gathered {
            joined,
            covered,
            seen,
        })
    }
}
