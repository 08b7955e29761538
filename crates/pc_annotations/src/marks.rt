//! Classes marked by their numbers, for unions of many members.

ghost use Rattle.std.specs.Prelude.{◌≡◌, ◌↔◌, IsTrue, IfOk, length};
ghost use Rattle.std.specs.Option.{option_map};
ghost use Rattle.pc_annotations.specs.Internal.Marks.{class_among_first, other_heads, with_marks, AreUnrelated};

use pc_source::OutOfMemory;
use pc_types::{Head, Parents};
use std::alloc::Global;

/// Returns the class of a head, if it is one of the first `count`.
fn class_below(count: usize, head: Head) -> Option<usize>
    ensures { result ≡ class_among_first count head }
{
    match head {
        Head::Class(class) => { if class < count { Some(class) } else { None } }
        _ => None,
    }
}

/// Returns the heads that are not among the first `count` classes: few of them may be in one union.
pub(crate) fn other_heads(
    alloc: Global,
    count: usize,
    heads: &[Head],
) -> Result<Vec<Head>, OutOfMemory>
    ensures { IfOk result (λ v. v.items ≡ other_heads count heads.now) }
{
    let mut others = Vec::new(alloc);
    for head in heads {
        if class_below(count, *head).is_none() {
            others.push(*head)?;
        }
    }
    Ok(others)
}

/// Returns the marks with those of the classes among heads, or `None` if a class is marked twice.
pub(crate) fn with_marks(marks: Vec<bool>, heads: &[Head]) -> Option<Vec<bool>>
    ensures { option_map (λ v. v.items) result ≡ with_marks (length marks.items) marks.items heads.now }
{
    let mut marks = marks;
    let count = marks.len();
    for head in heads {
        if let Some(class) = class_below(count, *head) {
            if marks[class] {
                return None;
            }
            marks[class] = true;
        }
    }
    Some(marks)
}

/// Returns whether no marked class has another marked class as an ancestor. Since a base has a smaller number than its
/// class, it is known whether the base is within a marked class by the time the class is visited.
pub(crate) fn are_unrelated(parents: &Parents, marks: Vec<bool>) -> bool
    ensures { IsTrue result ↔ AreUnrelated parents.now marks.items }
{
    parents.ordered();
    let mut within = marks;
    for class in 0..within.len() {
        if let Some(base) = parents.base(class) {
            if within[base] {
                if within[class] {
                    return false;
                }
                within[class] = true;
            }
        }
    }
    true
}
