//! The reason that the words of a command line are no request.
ghost use Rattle.std.specs.Prelude.{◌≡◌, true};
ghost use Rattle.clap.specs.Words.{kind_of};
ghost use Rattle.pc_commands.specs.Faults.{OnFault, is_mistake, is_request};
ghost use Rattle.pc_commands.specs.declared.faults.OptionFault.TheVariants as option_fault;

use clap::error::ErrorKind;
use std::alloc::{AllocError, Global};
use thiserror::Error;

/// The reason that the words are no request.
#[derive(Debug, PartialEq, Eq, Drop, Error)]
pub enum OptionFault {
    /// The words are mistaken; the text for standard error says so.
    #[error("{0}")]
    Usage(String),
    /// The words ask for help or for the version; the text is for standard output.
    #[error("{0}")]
    Help(String),
    /// An allocation failed.
    #[error("out of memory\n")]
    OutOfMemory,
}

impl From<AllocError> for OptionFault {
    ghost from_gives = { λ _ e. e ≡ option_fault.OutOfMemory };

    fn from(_error: AllocError) -> OptionFault {
        OptionFault::OutOfMemory
    }
}

/// Returns the fault for an error of `clap`.
pub fn fault_of(alloc: Global, error: &clap::Error) -> OptionFault
    ensures { OnFault (is_mistake (kind_of error.now) ≡ true) (is_request (kind_of error.now) ≡ true) result }
{
    if error.kind() == ErrorKind::OutOfMemory {
        return OptionFault::OutOfMemory;
    }
    let Ok(text) = format!(in alloc; "{error}") else {
        return OptionFault::OutOfMemory;
    };
    if error.use_stderr() {
        OptionFault::Usage(text)
    } else {
        OptionFault::Help(text)
    }
}
