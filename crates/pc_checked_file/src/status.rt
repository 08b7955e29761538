//! The exit status of a check.

ghost use Rattle.std.specs.Prelude.{◌≡◌};
ghost use Rattle.pc_checked_file.specs.Status.{status};

use pc_top::{CheckFault, FindingCounts};

/// Returns the exit status of an outcome, the numbers of errors and of dynamic places: 0 without errors, 1 with errors,
/// 2 after a refusal, and 3 if memory or a device failed. Own rule of the profile.
pub fn status_of(outcome: &Result<FindingCounts, CheckFault>) -> u8
    ensures { result ≡ status outcome.now }
{
    match outcome {
        Ok(FindingCounts { errors: 0, .. }) => 0,
        Ok(_) => 1,
        Err(CheckFault::Refused(_)) => 2,
        Err(CheckFault::OutOfMemory | CheckFault::Read | CheckFault::Write) => 3,
    }
}
