//! Texts, names and numbers, appended one after the other.

ghost use Rattle.std.specs.Prelude.{◌≡◌, ◌++◌, OnOk, string_bytes};
ghost use Rattle.std.specs.Fmt.{decimal};
ghost use Rattle.pc_detail_texts.specs.Shown.{words};

use pc_source::OutOfMemory;
use std::rc::RcStr;

/// Appends a text.
pub(crate) fn push_text(text: &mut String, more: &str) -> Result<(), OutOfMemory>
    ensures { OnOk result (string_bytes text.new ≡ string_bytes text.old ++ more.now) }
{
    Ok(text.push_str(more)?)
}

/// Appends two texts, one after the other.
pub(crate) fn push_both(text: &mut String, first: &str, second: &str) -> Result<(), OutOfMemory>
    ensures { OnOk result (string_bytes text.new ≡ string_bytes text.old ++ (first.now ++ second.now)) }
{
    Ok(write!(text, "{first}{second}")?)
}

/// Appends three texts, one after the other.
pub(crate) fn push_three(
    text: &mut String,
    first: &str,
    second: &str,
    third: &str,
) -> Result<(), OutOfMemory>
    ensures { OnOk result (string_bytes text.new
        ≡ string_bytes text.old ++ (first.now ++ (second.now ++ third.now))) }
{
    Ok(write!(text, "{first}{second}{third}")?)
}

/// Appends a name.
pub(crate) fn push_name(text: &mut String, name: &RcStr) -> Result<(), OutOfMemory>
    ensures { OnOk result (string_bytes text.new ≡ string_bytes text.old ++ words name.now) }
{
    Ok(text.push_str(name)?)
}

/// Appends a text and a name.
pub(crate) fn push_named(text: &mut String, before: &str, name: &RcStr) -> Result<(), OutOfMemory>
    ensures { OnOk result (string_bytes text.new ≡ string_bytes text.old ++ (before.now ++ words name.now)) }
{
    Ok(write!(text, "{before}{name}")?)
}

/// Appends a name between two texts.
pub(crate) fn push_around(
    text: &mut String,
    before: &str,
    name: &RcStr,
    after: &str,
) -> Result<(), OutOfMemory>
    ensures { OnOk result (string_bytes text.new
        ≡ string_bytes text.old ++ (before.now ++ (words name.now ++ after.now))) }
{
    Ok(write!(text, "{before}{name}{after}")?)
}

/// Appends two names, each after a text.
pub(crate) fn push_pair(
    text: &mut String,
    before: &str,
    first: &RcStr,
    between: &str,
    second: &RcStr,
) -> Result<(), OutOfMemory>
    ensures { OnOk result (string_bytes text.new ≡ string_bytes text.old
        ++ (before.now ++ (words first.now ++ (between.now ++ words second.now)))) }
{
    Ok(write!(text, "{before}{first}{between}{second}")?)
}

/// Appends two names, each after a text, and a last text.
pub(crate) fn push_pair_around(
    text: &mut String,
    before: &str,
    first: &RcStr,
    between: &str,
    second: &RcStr,
    after: &str,
) -> Result<(), OutOfMemory>
    ensures { OnOk result (string_bytes text.new ≡ string_bytes text.old
        ++ (before.now ++ (words first.now ++ (between.now ++ (words second.now ++ after.now))))) }
{
    Ok(write!(text, "{before}{first}{between}{second}{after}")?)
}

/// Appends a text and a number.
pub(crate) fn push_number(text: &mut String, before: &str, number: usize) -> Result<(), OutOfMemory>
    ensures { OnOk result (string_bytes text.new ≡ string_bytes text.old ++ (before.now ++ decimal number)) }
{
    Ok(write!(text, "{before}{number}")?)
}

/// Appends a number between two texts.
pub(crate) fn push_number_around(
    text: &mut String,
    before: &str,
    number: usize,
    after: &str,
) -> Result<(), OutOfMemory>
    ensures { OnOk result (string_bytes text.new
        ≡ string_bytes text.old ++ (before.now ++ (decimal number ++ after.now))) }
{
    Ok(write!(text, "{before}{number}{after}")?)
}
