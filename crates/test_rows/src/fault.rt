//! The reason that a table has no answer.

use std::alloc::{AllocError, AllocFailed};
use thiserror::Error;

/// The reason that a table has no answer.
#[derive(Clone, Copy, Debug, PartialEq, Eq, Error)]
pub enum TableFault {
    /// An allocation failed.
    #[error("out of memory")]
    OutOfMemory,
    /// The table's file could not be read.
    #[error("it cannot be read")]
    Read,
    /// The file's name does not end in a kind of table.
    #[error("no table is of this kind")]
    Kind,
    /// A part of the table is no case.
    #[error("a part of it is no case")]
    Form,
}

impl From<AllocError> for TableFault {
    fn from(_error: AllocError) -> TableFault {
        TableFault::OutOfMemory
    }
}

impl<T: Drop> From<AllocFailed<T>> for TableFault {
    fn from(_error: AllocFailed<T>) -> TableFault {
        TableFault::OutOfMemory
    }
}
