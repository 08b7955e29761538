//! Texts of values, and the order of texts.

ghost use Rattle.std.specs.Prelude.{◌≡◌, ◌++◌, IfOk, length};
ghost use Rattle.pc_value.specs.Texts.{same_text, text_below, occurs_in, text_of_number};

use pc_source::OutOfMemory;
use std::alloc::Global;
use std::cmp::Ordering;

/// Returns whether two texts are the same.
pub fn same_characters(left: &[char], right: &[char]) -> bool
    ensures { result ≡ same_text left.now right.now }
{
    left == right
}

/// Returns whether two names are the same.
pub fn same_name(left: &str, right: &str) -> bool
    ensures { result ≡ same_text left.now right.now }
{
    left == right
}

/// Returns whether one text is ordered before another. Language Reference 6.10 "Comparisons".
pub fn text_below(left: &[char], right: &[char]) -> bool
    ensures { result ≡ text_below left.now right.now }
{
    matches!(left.cmp(&right), Ordering::Less)
}

/// Returns whether `part` occurs in `whole`.
pub fn occurs_in(part: &[char], whole: &[char]) -> bool
    ensures { result ≡ occurs_in part.now whole.now }
{
    for start in 0..whole.len() {
        if whole[start..].starts_with(part) {
            return true;
        }
    }
    part.is_empty()
}

/// Returns `left` followed by `right`.
pub fn concatenated(alloc: Global, left: &[char], right: &[char]) -> Result<Vec<char>, OutOfMemory>
    ensures { IfOk result (λ cs. cs.items ≡ left.now ++ right.now) }
{
    let mut whole = Vec::from_slice(alloc, left)?;
    whole.extend_from_slice(right)?;
    Ok(whole)
}

/// Returns the characters of an ASCII text.
pub fn ascii_text(alloc: Global, text: &str) -> Result<Vec<char>, OutOfMemory>
    ensures { IfOk result (λ cs. cs.items ≡ text.now) }
{
    let mut characters = Vec::new(alloc);
    for byte in text.as_bytes() {
        characters.push(char::from(*byte))?;
    }
    Ok(characters)
}

/// Returns a whole number in decimal digits, with `-` before it if it is negative.
pub fn text_of_number(alloc: Global, number: i128) -> Result<Vec<char>, OutOfMemory>
    ensures { IfOk result (λ cs. cs.items ≡ text_of_number number) }
{
    let digits = format!(in alloc; "{number}")?;
    ascii_text(alloc, &digits)
}
