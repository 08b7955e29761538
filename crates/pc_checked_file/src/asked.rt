//! The answer that is asked for.

ghost use Rattle.std.specs.Prelude.{◌≡◌};
ghost use Rattle.pc_checked_file.specs.Answers.{answer_of};

use pc_top::Format;

/// The kind of an answer. Own rule of the profile.
#[derive(Clone, Copy, Debug, PartialEq, Eq)]
pub enum AnswerKind {
    /// The report in a format.
    Report(Format),
    /// The report with the details of its findings.
    Details,
    /// The listing of types.
    Types,
}

impl AnswerKind {
    /// Returns the kind of answer for the words of a command line: `details` and `types` say whether these are asked
    /// for, of which details come first, and `format` is that of a report. Own rule of the profile.
    pub fn asked_by(details: bool, types: bool, format: Format) -> AnswerKind
        ensures { result ≡ answer_of details types format }
    {
        if details {
            AnswerKind::Details
        } else if types {
            AnswerKind::Types
        } else {
            AnswerKind::Report(format)
        }
    }
}

/// The form of an answer: its kind, as JSON or as text. Own rule of the profile.
#[derive(Clone, Copy, Debug, PartialEq, Eq)]
pub struct Asked {
    /// The kind of the answer.
    pub answer: AnswerKind,
    /// Whether the answer is JSON.
    pub json: bool,
}
