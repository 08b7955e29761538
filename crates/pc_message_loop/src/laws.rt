//! The law of the bytes written in whole sessions, over any checker and any devices.

ghost use Rattle.pc_message_loop.specs.Sessions.{SessionsAreWritten};

use pc_documents::Checker;
use std::io::{Read, Write};

/// The law that at each end the output took the frames of the replies to the messages that the input gave, in a session
/// from its beginning: all of them, or a beginning of them if a device failed.
pub fn sessions_are_written<C: Checker, R: Read + Drop, W: Write + Drop>()
    ensures { (checker : C) → SessionsAreWritten (C.answers checker) R.remaining W.contents }
{}
