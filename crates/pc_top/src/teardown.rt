//! The release of a check's memory before its report is made.

use std::mem;

/// The greatest number of findings for which memory is left allocated. A longer report is made in the memory that the
/// module occupied, so that both together take no more than the module did.
const FEW_FINDINGS: usize = 4096;

/// Treatment of memory that is no longer needed.
#[derive(Clone, Copy)]
pub(crate) enum Teardown {
    /// It is freed, piece by piece.
    Free,
    /// It stays allocated to the end of the program, which frees all of it at once.
    LeaveToExit,
}

impl Teardown {
    /// Releases the memory that a check with this number of findings took.
    pub(crate) fn let_go<T: Drop>(self, taken: T, findings: usize) {
        match self {
            Teardown::LeaveToExit if findings <= FEW_FINDINGS => mem::forget(taken),
            Teardown::Free | Teardown::LeaveToExit => drop(taken),
        }
    }
}
