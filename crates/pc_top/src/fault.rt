//! The reason that a stream gets no report.

ghost use Rattle.std.specs.Prelude.{◌≡◌};
ghost use Rattle.pc_top.specs.Streaming.{check_fault_of, read_checked, write_checked};

use pc_report::{ReadFault, WriteFault};
use pc_source::{Fault, Refusal};
use thiserror::Error;

/// The reason that a stream gets no report, or no listing of types. Own rule of the profile.
#[derive(Clone, Copy, Debug, PartialEq, Eq, Error)]
pub enum CheckFault {
    /// The bytes spell no module.
    #[error("{0}")]
    Refused(Refusal),
    /// An allocation failed.
    #[error("out of memory")]
    OutOfMemory,
    /// The reader failed.
    #[error("the input could not be read")]
    Read,
    /// The writer failed.
    #[error("the report could not be written")]
    Write,
}

impl From<Fault> for CheckFault {
    ghost from_gives = { λ f e. e ≡ check_fault_of f };

    fn from(fault: Fault) -> CheckFault {
        match fault {
            Fault::Refused(refusal) => CheckFault::Refused(refusal),
            Fault::OutOfMemory => CheckFault::OutOfMemory,
        }
    }
}

impl From<ReadFault> for CheckFault {
    ghost from_gives = { λ f e. e ≡ read_checked f };

    fn from(fault: ReadFault) -> CheckFault {
        match fault {
            ReadFault::OutOfMemory => CheckFault::OutOfMemory,
            ReadFault::Read => CheckFault::Read,
        }
    }
}

impl From<WriteFault> for CheckFault {
    ghost from_gives = { λ f e. e ≡ write_checked f };

    fn from(fault: WriteFault) -> CheckFault {
        match fault {
            WriteFault::Write => CheckFault::Write,
        }
    }
}
