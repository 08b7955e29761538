//! The reason that there is no trace.

ghost use Rattle.std.specs.Prelude.{◌≡◌};
ghost use Rattle.pc_traced_file.specs.Faults.{run_fault_of, fault_of_read};

use pc_report::ReadFault;
use pc_source::{Fault, Refusal};
use thiserror::Error;

/// The reason that there is no trace. Own rule of the profile.
#[derive(Clone, Copy, Debug, PartialEq, Eq, Error)]
pub enum RunFault {
    /// The bytes spell no module.
    #[error("{0}")]
    Refused(Refusal),
    /// An allocation failed.
    #[error("out of memory")]
    OutOfMemory,
    /// The reader failed.
    #[error("the input could not be read")]
    Read,
    /// The writer failed.
    #[error("the trace could not be written")]
    Write,
}

impl From<Fault> for RunFault {
    ghost from_gives = { λ f e. e ≡ run_fault_of f };

    fn from(fault: Fault) -> RunFault {
        match fault {
            Fault::Refused(refusal) => RunFault::Refused(refusal),
            Fault::OutOfMemory => RunFault::OutOfMemory,
        }
    }
}

impl From<ReadFault> for RunFault {
    ghost from_gives = { λ f e. e ≡ fault_of_read f };

    fn from(fault: ReadFault) -> RunFault {
        match fault {
            ReadFault::OutOfMemory => RunFault::OutOfMemory,
            ReadFault::Read => RunFault::Read,
        }
    }
}
