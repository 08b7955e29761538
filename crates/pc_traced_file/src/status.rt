//! The exit status of a run.

ghost use Rattle.std.specs.Prelude.{◌≡◌};
ghost use Rattle.pc_traced_file.specs.Status.{status};

use crate::fault::RunFault;

/// Returns the exit status of an outcome: 0 with a trace, 2 after a refusal, and 3 if memory or a device failed. Own
/// rule of the profile.
pub fn status_of(outcome: &Result<(), RunFault>) -> u8
    ensures { result ≡ status outcome.now }
{
    match outcome {
        Ok(()) => 0,
        Err(RunFault::Refused(_)) => 2,
        Err(RunFault::OutOfMemory | RunFault::Read | RunFault::Write) => 3,
    }
}
