//! Refusals and other faults of a call.

ghost use Rattle.std.specs.Prelude.{◌≡◌, Some, IfOk, OnErr};
ghost use Rattle.pc_source.specs.Refusals.{code_text};
ghost use Rattle.pc_source.specs.declared.fault.Fault.TheVariants as fault;
ghost use Rattle.pc_source.specs.declared.fault.OutOfMemory.{OutOfMemory};

use std::alloc::{AllocError, AllocFailed};
use std::fmt;
use thiserror::Error;

/// The reason for a refusal. Own rule of the profile.
#[derive(Clone, Copy, Debug, PartialEq, Eq)]
pub enum RefusalCode {
    /// The source is longer than 1,048,576 bytes.
    S1,
    /// The source is not UTF-8.
    S2,
    /// The source begins with the byte order mark.
    S3,
    /// A NUL, a form feed, or a carriage return that no line feed follows.
    S4,
    /// Line 1 or 2 has a comment that names a coding other than `utf-8`.
    S5,
    /// A character that begins no token.
    L1,
    /// A string that is not of the profile's form.
    L2,
    /// A number that is not of the profile's form, or a `.` followed by a digit.
    L3,
    /// A name that the profile excludes.
    L4,
    /// A closing bracket that matches none, or a bracket open at the end.
    L5,
    /// The 65th open bracket.
    L6,
    /// A tab in the indentation.
    L7,
    /// A number of more than 1,000 digits.
    L8,
    /// A line returns to a column that no open suite has.
    I1,
    /// A line is indented where it may not be.
    I2,
    /// More than 50 nested suites.
    I3,
    /// A keyword that the profile excludes.
    N1,
    /// An operator that the profile excludes.
    N2,
    /// A `def` inside a `def`.
    N3,
    /// A `class` inside a suite.
    N4,
    /// A decorator other than `@dataclass`.
    N5,
    /// Not a module of the grammar: a token that cannot follow here, or an early end.
    G1,
    /// An expression or annotation of depth over 64.
    G2,
}

impl RefusalCode {
    /// Returns the code as it is printed.
    pub fn text(self) -> &'static str
        ensures { result.now ≡ code_text self }
    {
        match self {
            RefusalCode::S1 => "S1",
            RefusalCode::S2 => "S2",
            RefusalCode::S3 => "S3",
            RefusalCode::S4 => "S4",
            RefusalCode::S5 => "S5",
            RefusalCode::L1 => "L1",
            RefusalCode::L2 => "L2",
            RefusalCode::L3 => "L3",
            RefusalCode::L4 => "L4",
            RefusalCode::L5 => "L5",
            RefusalCode::L6 => "L6",
            RefusalCode::L7 => "L7",
            RefusalCode::L8 => "L8",
            RefusalCode::I1 => "I1",
            RefusalCode::I2 => "I2",
            RefusalCode::I3 => "I3",
            RefusalCode::N1 => "N1",
            RefusalCode::N2 => "N2",
            RefusalCode::N3 => "N3",
            RefusalCode::N4 => "N4",
            RefusalCode::N5 => "N5",
            RefusalCode::G1 => "G1",
            RefusalCode::G2 => "G2",
        }
    }
}

impl fmt::Display for RefusalCode {
    ghost output = { λ c. Some (code_text c) };

    fn fmt<W: fmt::Write>(&self, f: &mut fmt::Formatter<W>) -> fmt::Result {
        f.write_str(self.text())
    }
}

/// A refusal: its code, and a byte from 0 to the input's length. Own rule of the profile.
#[derive(Clone, Copy, Debug, PartialEq, Eq, Error)]
#[error("refused {code} at byte {byte}")]
pub struct Refusal {
    pub code: RefusalCode,
    pub byte: usize,
}

/// An allocation failed. Other crates get one only from the error of the allocation, or from a fault that has it.
#[derive(Clone, Copy, Debug, PartialEq, Eq, Error)]
#[error("out of memory")]
pub struct OutOfMemory {
    failed: (),
}

/// Why a call gives no answer: the input is refused, or an allocation failed.
#[derive(Clone, Copy, Debug, PartialEq, Eq, Error)]
pub enum Fault {
    #[error("{0}")]
    Refused(Refusal),
    #[error("out of memory")]
    OutOfMemory,
}

impl Fault {
    /// Returns the refusal with this code at this byte, as a fault.
    pub fn refused_at(code: RefusalCode, byte: usize) -> Fault
        ensures { result ≡ fault.Refused (record { code = code; byte = byte }) }
    {
        Fault::Refused(Refusal { code, byte })
    }

    /// Returns the refusal.
    ///
    /// # Errors
    ///
    /// `OutOfMemory` if the fault is that an allocation failed.
    pub fn refusal(self) -> Result<Refusal, OutOfMemory>
        ensures refusal { IfOk result (λ refusal. self ≡ fault.Refused refusal) }
        ensures memory { OnErr result (self ≡ fault.OutOfMemory) }
    {
        match self {
            Fault::Refused(refusal) => Ok(refusal),
            Fault::OutOfMemory => Err(OutOfMemory { failed: () }),
        }
    }
}

impl From<AllocError> for OutOfMemory {
    fn from(_error: AllocError) -> OutOfMemory {
        OutOfMemory { failed: () }
    }
}

impl<T: Drop> From<AllocFailed<T>> for OutOfMemory {
    fn from(_error: AllocFailed<T>) -> OutOfMemory {
        OutOfMemory { failed: () }
    }
}

impl From<OutOfMemory> for Fault {
    ghost from_gives = { λ _ e. e ≡ fault.OutOfMemory };

    fn from(_error: OutOfMemory) -> Fault {
        Fault::OutOfMemory
    }
}

impl From<AllocError> for Fault {
    ghost from_gives = { λ _ e. e ≡ fault.OutOfMemory };

    fn from(_error: AllocError) -> Fault {
        Fault::OutOfMemory
    }
}

impl<T: Drop> From<AllocFailed<T>> for Fault {
    ghost from_gives = { λ _ e. e ≡ fault.OutOfMemory };

    fn from(_error: AllocFailed<T>) -> Fault {
        Fault::OutOfMemory
    }
}

impl From<Refusal> for Fault {
    ghost from_gives = { λ r e. e ≡ fault.Refused r };

    fn from(refusal: Refusal) -> Fault {
        Fault::Refused(refusal)
    }
}
