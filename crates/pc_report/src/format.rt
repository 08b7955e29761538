//! The formats of a report.

ghost use Rattle.std.specs.Prelude.{◌≡◌};
ghost use Rattle.pc_report.specs.Format.{format_number};

/// A format of a report. Own rule of the profile.
#[derive(Clone, Copy, Debug, PartialEq, Eq)]
pub enum Format {
    /// Findings only.
    One,
    /// Each flow through `Any` with its two types.
    Two,
}

impl Format {
    /// Returns the number that names the format.
    pub fn number(self) -> u64
        ensures { result ≡ format_number self }
    {
        match self {
            Format::One => 1,
            Format::Two => 2,
        }
    }
}
