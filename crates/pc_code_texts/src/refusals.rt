//! Titles and meanings of refusals, and advice on mending them.

ghost use Rattle.std.specs.Prelude.{◌≡◌};
ghost use Rattle.pc_code_texts.specs.Refusals.{refusal_title_of, refusal_meaning_of, refusal_mending_of};

use pc_source::RefusalCode;

/// Returns the title of a refusal with this code.
pub fn refusal_title(code: RefusalCode) -> &'static str
    ensures { result.now ≡ refusal_title_of code }
{
    match code {
        RefusalCode::S1 => "Too long",
        RefusalCode::S2 => "Not UTF-8",
        RefusalCode::S3 => "Byte order mark",
        RefusalCode::S4 => "Control character",
        RefusalCode::S5 => "Other coding",
        RefusalCode::L1 => "Stray character",
        RefusalCode::L2 => "Bad string",
        RefusalCode::L3 => "Bad number",
        RefusalCode::L4 => "Bad name",
        RefusalCode::L5 => "Unmatched bracket",
        RefusalCode::L6 => "Too many brackets",
        RefusalCode::L7 => "Tab in the indentation",
        RefusalCode::L8 => "Number too long",
        RefusalCode::I1 => "Unmatched indentation",
        RefusalCode::I2 => "Unexpected indentation",
        RefusalCode::I3 => "Too many suites",
        RefusalCode::N1 => "Excluded keyword",
        RefusalCode::N2 => "Excluded operator",
        RefusalCode::N3 => "Nested function",
        RefusalCode::N4 => "Nested class",
        RefusalCode::N5 => "Other decorator",
        RefusalCode::G1 => "No module",
        RefusalCode::G2 => "Too deep",
    }
}

/// Returns the meaning of a refusal with this code.
pub fn refusal_meaning(code: RefusalCode) -> &'static str
    ensures { result.now ≡ refusal_meaning_of code }
{
    match code {
        RefusalCode::S1 => "The file has more than 1,048,576 bytes.",
        RefusalCode::S2 => "The bytes of the file are not UTF-8.",
        RefusalCode::S3 => "The file begins with a byte order mark.",
        RefusalCode::S4 => {
            "There is a NUL, a form feed, or a carriage return that no line feed follows."
        }
        RefusalCode::S5 => {
            "A comment on the first or second line names a coding other than `utf-8`."
        }
        RefusalCode::L1 => {
            "There is a character that belongs to no word and no sign of the language."
        }
        RefusalCode::L2 => {
            "A string is of a kind that the profile leaves out, such as an f-string or one in triple quotes."
        }
        RefusalCode::L3 => {
            "A number is of a kind that the profile leaves out, such as one with a decimal point or a leading zero."
        }
        RefusalCode::L4 => {
            "A name begins with two underscores, or is a keyword or a reserved name in other letters."
        }
        RefusalCode::L5 => {
            "A closing bracket does not match the last one opened, or the text ends while a bracket is open."
        }
        RefusalCode::L6 => "More than 64 brackets are open inside one another.",
        RefusalCode::L7 => "There is a tab in the indentation of a line.",
        RefusalCode::L8 => "A number has more than 1,000 digits.",
        RefusalCode::I1 => "A line returns to a column at which no indented block is open.",
        RefusalCode::I2 => {
            "A line is indented more than the one before it, which does not end with a colon."
        }
        RefusalCode::I3 => "More than 50 indented blocks are open inside one another.",
        RefusalCode::N1 => "There is a keyword that the profile leaves out.",
        RefusalCode::N2 => "There is an operator that the profile leaves out.",
        RefusalCode::N3 => "There is a `def` inside a `def`.",
        RefusalCode::N4 => "There is a `class` inside a function or a class.",
        RefusalCode::N5 => "There is a decorator other than `@dataclass`.",
        RefusalCode::G1 => "There is a form that the grammar of the profile does not have.",
        RefusalCode::G2 => "An expression or annotation is more than 64 levels deep.",
    }
}

/// Returns advice on how to mend a refusal with this code.
pub fn refusal_mending(code: RefusalCode) -> &'static str
    ensures { result.now ≡ refusal_mending_of code }
{
    match code {
        RefusalCode::S1 => "Split the file, or generate less of it.",
        RefusalCode::S2 => "Save the file as UTF-8.",
        RefusalCode::S3 => "Save the file as UTF-8 without a byte order mark.",
        RefusalCode::S4 => {
            "Delete it: lines end with a line feed, or with a carriage return and a line feed."
        }
        RefusalCode::S5 => "Save the file as UTF-8 and name that coding, spelled `utf-8`, or none.",
        RefusalCode::L1 => {
            "Remove it; an expression in parentheses may continue on the next line without a backslash."
        }
        RefusalCode::L2 => {
            "Write a plain string, join strings with `+`, and turn other values into strings with `str`."
        }
        RefusalCode::L3 => {
            "Write a whole number in decimal, and count in a smaller unit instead of a fraction."
        }
        RefusalCode::L4 => "Choose a plain name.",
        RefusalCode::L5 => "Close each bracket with one of its own kind.",
        RefusalCode::L6 => "Drop needless brackets, or give names to inner parts.",
        RefusalCode::L7 => "Indent with spaces.",
        RefusalCode::L8 => "Compute it from smaller numbers.",
        RefusalCode::I1 => "Indent it exactly like the lines that it belongs with.",
        RefusalCode::I2 => "Indent it like the line before it, or add the missing colon.",
        RefusalCode::I3 => {
            "Combine conditions with `and`, return early, or move the inner part into a function of its own."
        }
        RefusalCode::N1 => {
            "Write one of the forms that the page of codes names for this keyword, such as `assert` for `raise`."
        }
        RefusalCode::N2 => {
            "Write `total = total + n` for `+=`, `//` for `/`, a loop for `**`, and one statement on each line."
        }
        RefusalCode::N3 => "Move it to the top level, and pass it what it needs.",
        RefusalCode::N4 => "Move it to the top level.",
        RefusalCode::N5 => {
            "Write `@dataclass` alone, or a method or a function that is called by its name."
        }
        RefusalCode::G1 => "Write the form that the page of codes names in its place.",
        RefusalCode::G2 => {
            "Give names to parts of it, or put the operands in a list and loop over them."
        }
    }
}
