//! The parents of a module's classes.

ghost use Rattle.std.specs.Prelude.{◌≡◌, ◌↔◌, ◌<◌, List, Option, ℕ, IsTrue, IfOk, MatchOption, false, length};
ghost use Rattle.std.specs.Prelude.{slice_get, Some};
ghost use Rattle.std.specs.Option.{SomeIff};
ghost use Rattle.pc_types.specs.Below.{AreSmaller, Below, base_of};
ghost use Rattle.pc_types.specs.Tree.{Class};
ghost use Rattle.pc_types.specs.Join.{reaches};
ghost use Rattle.pc_types.specs.Internal.Leaps.{AreLeaps, IsLeap};
ghost use Rattle.pc_types.specs.Internal.Numbered.{AreNumbers, base_number};

use pc_source::OutOfMemory;
use std::alloc::Global;
use std::marker::Model;

/// Position of a class among its ancestors: their number, and the ancestor to which a search for one further up leaps.
/// A class without a base leaps to itself.
#[derive(Clone, Copy)]
struct Rung {
    depth: usize,
    leap: usize,
}

/// The parents of the classes of a module: for each class number, from 0, the number of its base or none. Contracts see
/// it as that list.
///
/// Python Language Reference 3.12, 8.8 "Class definitions". That a base comes before its class is an own rule of the
/// profile.
#[derive(Drop)]
pub struct Parents {
    bases: Vec<Option<usize>>,
    /// Rungs of the first classes, possibly of none.
    rungs: Vec<Rung>,
    /// For the first classes, possibly none: the number of the base, or the class's own if it has none.
    numbers: Vec<usize>,
}

impl Model for Parents {
    ghost Value = { List (Option ℕ) };

    ghost view = { λ p. p.bases.items };

    ghost invariant = { λ p. AreSmaller p.bases.items × AreLeaps p.bases.items p.rungs.items
        × AreNumbers p.bases.items p.numbers.items };
}

impl Parents {
    /// Returns the parents in the list, or `None` if the number of some base is not smaller than the class's own. The
    /// empty list is accepted; a class beyond the list has no base.
    pub fn new(bases: Vec<Option<usize>>) -> Option<Parents>
        ensures { SomeIff result (AreSmaller bases.items) bases.items }
    {
        for i in 0..bases.len() {
            if !has_smaller_base(&bases, i) {
                return None;
            }
        }
        let alloc = *bases.allocator();
        Some(Parents {
            bases,
            rungs: Vec::new(alloc),
            numbers: Vec::new(alloc),
        })
    }

    /// Returns the same parents with leaps over many classes: for a class with n ancestors, `is_within` then visits at
    /// most about 3 log n of them. `is_same` takes less time if both have leaps.
    pub fn with_leaps(self, alloc: Global) -> Result<Parents, OutOfMemory>
        ensures { IfOk result (λ p. p ≡ self) }
    {
        let bases = self.bases;
        let (rungs, numbers) = steps_of(alloc, &bases)?;
        Ok(Parents {
            bases,
            rungs,
            numbers,
        })
    }

    /// Returns the base of a class, or `None` if it has none or is beyond the list.
    pub fn base(&self, class: usize) -> Option<usize>
        ensures value { result ≡ base_of self.now class }
        ensures ordered { AreSmaller self.now }
    {
        base_in(&self.bases, class)
    }

    /// Returns whether a class is another one or has it as an ancestor.
    pub fn is_within(&self, class: usize, ancestor: usize) -> bool
        ensures below { IsTrue result ↔ Below self.now (Class class) (Class ancestor) }
        ensures steps { result ≡ reaches self.now class class ancestor }
    {
        self.ordered();
        let mut at = class;
        while at > ancestor {
            match self.next_up(at, ancestor) {
                Some(above) => at = above,
                None => return false,
            }
        }
        at == ancestor
    }

    /// Returns the ancestor of a class at which a search for another one continues. None of those it skips is that one.
    fn next_up(&self, class: usize, ancestor: usize) -> Option<usize>
        requires { ancestor < class }
        ensures above { MatchOption result (reaches self.now class class ancestor ≡ false)
            (λ b. (b < class) × (reaches self.now class class ancestor ≡ reaches self.now b b ancestor)) }
    {
        let base = self.base(class)?;
        if class < self.rungs.len() {
            let leap = rung_at(&self.rungs, class).leap;
            if ancestor <= leap && leap < class {
                return Some(leap);
            }
        }
        Some(base)
    }

    /// Returns the number of classes.
    pub fn count(&self) -> usize
        ensures { result ≡ length self.now }
    {
        self.bases.len()
    }

    /// Returns whether two lists of parents are equal.
    pub fn is_same(&self, other: &Parents) -> bool
        ensures { IsTrue result ↔ (self.now ≡ other.now) }
    {
        if self.numbers.len() == self.bases.len() && other.numbers.len() == other.bases.len() {
            return are_same(&self.numbers, &other.numbers);
        }
        self.bases == other.bases
    }

    /// Gives proofs the fact that the base of each class has a smaller number than the class. It does nothing.
    pub fn ordered(&self)
        ensures { AreSmaller self.now }
    {
        let _ = &self.bases;
    }
}

/// Returns the base of a class in a list of bases.
fn base_in(bases: &[Option<usize>], class: usize) -> Option<usize>
    ensures { result ≡ base_of bases.now class }
{
    if class < bases.len() {
        bases[class]
    } else {
        None
    }
}

/// Returns whether the base of a class has a smaller number than the class, also if there is none.
fn has_smaller_base(bases: &[Option<usize>], class: usize) -> bool
    ensures { IsTrue result ↔ ((b : ℕ) → base_of bases.now class ≡ Some b → b < class) }
{
    match base_in(bases, class) {
        Some(base) => base < class,
        None => true,
    }
}

/// Returns the rungs of the classes and the numbers of their bases.
fn steps_of(alloc: Global, bases: &[Option<usize>]) -> Result<(Vec<Rung>, Vec<usize>), OutOfMemory>
    requires { AreSmaller bases.now }
    ensures { IfOk result (λ p. AreLeaps bases.now p.0.items × AreNumbers bases.now p.1.items) }
{
    let rungs = rungs_of(alloc, bases)?;
    Ok((rungs, numbers_of(alloc, bases)?))
}

/// Returns the number of the base of a class, or of the class itself if it has none: a base has a smaller number.
fn base_number(bases: &[Option<usize>], class: usize) -> usize
    ensures { result ≡ base_number bases.now class }
{
    match base_in(bases, class) {
        Some(base) => base,
        None => class,
    }
}

/// Returns, for each class, the number of its base, or its own if it has none.
fn numbers_of(alloc: Global, bases: &[Option<usize>]) -> Result<Vec<usize>, OutOfMemory>
    ensures { IfOk result (λ ns. AreNumbers bases.now ns.items) }
{
    let mut numbers = Vec::with_capacity(alloc, bases.len())?;
    for class in 0..bases.len() {
        numbers.push(base_number(bases, class))?;
    }
    Ok(numbers)
}

/// Whether two lists of numbers are the same. The loop has no early end, so several numbers are compared at once.
fn are_same(left: &[usize], right: &[usize]) -> bool
    ensures { IsTrue result ↔ (left.now ≡ right.now) }
{
    if left.len() != right.len() {
        return false;
    }
    let mut same = true;
    for i in 0..left.len() {
        same &= left[i] == right[i];
    }
    same
}

/// Returns the rung of a class that has one.
fn rung_at(rungs: &[Rung], class: usize) -> Rung
    requires { class < length rungs.now }
    ensures { slice_get rungs.now class ≡ Some result }
{
    rungs[class]
}

/// Returns the rungs of the classes.
fn rungs_of(alloc: Global, bases: &[Option<usize>]) -> Result<Vec<Rung>, OutOfMemory>
    requires { AreSmaller bases.now }
    ensures { IfOk result (λ rungs. AreLeaps bases.now rungs.items) }
{
    let mut rungs = Vec::new(alloc);
    for class in 0..bases.len() {
        rungs.push(rung_of(bases, &rungs, class))?;
    }
    Ok(rungs)
}

/// Returns the rung of a class, given those of the classes before it. Its leap spans the next two leaps from its base
/// if these have the same length, else it goes to the base: so a search leaps ever further.
fn rung_of(bases: &[Option<usize>], rungs: &[Rung], class: usize) -> Rung
    requires bases { AreSmaller bases.now }
    requires rungs { AreLeaps bases.now rungs.now }
    requires before { length rungs.now ≡ class }
    ensures { IsLeap bases.now class result }
{
    let Some(base) = base_in(bases, class) else {
        return Rung {
            depth: 0,
            leap: class,
        };
    };
    let first = rung_at(rungs, base);
    let second = rung_at(rungs, first.leap);
    let third = rung_at(rungs, second.leap);
    // No result depends on a depth: it only measures leaps.
    let depth = first.depth.wrapping_add(1);
    let is_even = first.depth.wrapping_sub(second.depth) == second.depth.wrapping_sub(third.depth);
    let leap = if is_even { second.leap } else { base };
    Rung { depth, leap }
}
