//! The result of a check, in a form that C reads.

ghost use Rattle.std.specs.Prelude.{◌≡◌, ◌∷◌, [], length};
ghost use Rattle.pc_source.specs.Refusals.{code_text};
ghost use Rattle.pc_report.specs.Report.{errors_of, dynamic_count};

use pc_report::Report;
use pc_source::{Refusal, RefusalCode};

/// The result of a check. A number that a kind does not have is 0. Own rule of the profile.
#[repr(C)]
#[derive(Clone, Copy, Debug, PartialEq, Eq)]
pub struct CheckAnswer {
    /// 0 with a report, or with a listing of types; 1 after a refusal; 2 where an allocation failed; 3 where the number
    /// names no format.
    pub kind: u32,
    /// The letter of the code of a refusal, in ASCII.
    pub letter: u8,
    /// The digit of the code of a refusal, in ASCII.
    pub digit: u8,
    /// The byte that a refusal names.
    pub byte: u64,
    /// How many bytes the report, or the listing, has.
    pub length: u64,
    /// How many errors the report of the module lists.
    pub errors: u64,
    /// How many dynamic places the report of the module lists.
    pub dynamic: u64,
}

/// The answer of this kind, whose other numbers are 0.
pub(crate) fn of_kind(kind: u32) -> CheckAnswer
    ensures { result.kind ≡ kind }
{
    CheckAnswer {
        kind,
        letter: 0,
        digit: 0,
        byte: 0,
        length: 0,
        errors: 0,
        dynamic: 0,
    }
}

/// The letter and the digit of the code of a refusal.
#[tactic(auto, using(crate::proofs::Signs::two_signs))]
fn signs_of(code: RefusalCode) -> (u8, u8)
    ensures { result.0 ∷ result.1 ∷ [] ≡ code_text code }
{
    let text = code.text().as_bytes();
    (text[0], text[1])
}

/// The answer with a refusal.
pub(crate) fn refusal_answer(refusal: Refusal) -> CheckAnswer
    ensures kind { result.kind ≡ 1 }
    ensures code { result.letter ∷ result.digit ∷ [] ≡ code_text refusal.code }
    ensures byte { result.byte ≡ refusal.byte }
{
    let (letter, digit) = signs_of(refusal.code);
    CheckAnswer {
        letter,
        digit,
        byte: refusal.byte as u64,
        ..of_kind(1)
    }
}

/// The answer with a report, whose text has so many bytes.
pub(crate) fn reported(report: &Report, length: usize) -> CheckAnswer
    ensures kind { result.kind ≡ 0 }
    ensures length { result.length ≡ «length» }
    ensures errors { result.errors ≡ errors_of report.now }
    ensures dynamic { result.dynamic ≡ dynamic_count report.now }
{
    CheckAnswer {
        length: length as u64,
        errors: report.errors(),
        dynamic: report.dynamic(),
        ..of_kind(0)
    }
}
