//! The logical lines of a source.
ghost use Rattle.std.specs.Prelude.{◌≡◌, ◌↔◌, List, [], ◌∷◌, ◌++◌, length, map, Result, Ok, Err, IfOk, IfErr};
ghost use Rattle.pc_source.specs.Answers.{OnRefusal};
ghost use Rattle.pc_source.specs.Stream.{RefusesWithin};
ghost use Rattle.pc_source.specs.Within.{IsWithin};
ghost use Rattle.pc_source.specs.declared.fault.Refusal.{Refusal};
ghost use Rattle.pc_token.specs.Lexeme.{LogicalLine};
ghost use Rattle.pc_token.specs.Remaining.{HasLeft, gives, all_read};
ghost use Rattle.pc_token.specs.Splitting.{HasLines, HasOnly};

use crate::stream::Lines;
use crate::token::Line;
use pc_source::{Fault, Source};
use std::alloc::Global;

/// Returns an iterator over the logical lines of a source, up to the first fault.
///
/// Python Language Reference 3.12, 2.1 "Line structure"; the refusals `L1` to `L8` are own rules of the profile.
///
/// # Errors
///
/// An item may be `OutOfMemory`, or the refusal at the lowest byte. After an `Err`, and at the end, `next` always
/// returns `None`.
pub fn lines(alloc: Global, source: &Source) -> Lines<'_>
    ensures one { (xs ys : List (Result LogicalLine Refusal)) → HasLines source.now xs → HasLines source.now ys
        → xs ≡ ys }
    ensures left { (items : List (Result LogicalLine Refusal)) → (HasLeft result items ↔ HasLines source.now items) }
    ensures within { RefusesWithin gives (length source.now) result }
{
    Lines {
        alloc,
        text: source.text(),
        at: 0,
        done: false,
        brackets: Vec::new(alloc),
    }
}

/// Returns the logical lines of a source in a list; for tests, since a check takes them from `lines` one by one.
///
/// Python Language Reference 3.12, 2.1 "Line structure"; the refusals `L1` to `L8` are own rules of the profile.
///
/// # Errors
///
/// The refusal at the lowest byte; `OutOfMemory` if the tokens cannot be allocated.
pub fn tokens(alloc: Global, source: &Source) -> Result<Vec<Line<'_>>, Fault>
    ensures read { IfOk result (λ v. HasOnly source.now (all_read v.items)) }
    ensures refused { IfErr result
        (OnRefusal (λ refusal. (before : List LogicalLine) × HasOnly source.now (map Ok before ++ Err refusal ∷ []))) }
    ensures within { IfErr result (IsWithin (length source.now)) }
{
    let mut found = Vec::new(alloc);
    for line in lines(alloc, source) {
        found.push(line?)?;
    }
    Ok(found)
}
