//! The exit status of the server.

ghost use Rattle.std.specs.Prelude.{◌≡◌};
ghost use Rattle.pc_checked_session.specs.Status.{status};

use pc_message_loop::ServingEnd;

/// Returns the exit status: that of `exit`; 0 at the end of the input; 1 if it breaks off inside a message or is not
/// framed; 3 if a device failed. Own rule of the server.
pub fn status_of(end: &ServingEnd) -> u8
    ensures { result ≡ status end.now }
{
    match end {
        ServingEnd::Exited(status) => *status,
        ServingEnd::Ended => 0,
        ServingEnd::Broken(_) => 1,
        ServingEnd::Failed => 3,
    }
}
