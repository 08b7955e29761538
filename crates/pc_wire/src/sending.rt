//! Writing messages to a device.

ghost use Rattle.std.specs.Prelude.{◌≡◌, IfOk};
ghost use Rattle.pc_wire.specs.Frames.{frame};
ghost use Rattle.pc_wire.specs.Writing.{IsSent};

use crate::fault::SendFault;
use pc_source::Counted;
use std::alloc::{AllocError, Global};
use std::io::Write;

/// Returns a message with its header before it.
pub fn framed(alloc: Global, message: &[u8]) -> Result<Vec<u8>, AllocError>
    ensures { IfOk result (λ v. v.items ≡ frame message.now) }
{
    let length = message.len();
    let mut framed = format!(in alloc; "Content-Length: {length}\r\n\r\n")?.into_bytes();
    framed.extend_from_slice(message)?;
    Ok(framed)
}

/// Writes all bytes, in as many calls as the device needs. Fails at the first call that fails.
pub fn write_whole<W: Write + Drop>(device: &mut Counted<W>, bytes: &[u8]) -> Result<(), SendFault>
    ensures { IsSent W.contents bytes.now device.old device.new result }
{
    if device.write_whole(bytes) {
        Ok(())
    } else {
        Err(SendFault::Write)
    }
}

/// Writes a message with its header. Does not flush the device. Language Server Protocol 3.17, "Base Protocol".
///
/// # Errors
///
/// `OutOfMemory` if the frame cannot be allocated, and nothing was written; `Write` if a call of the device fails, and
/// only a proper prefix of the frame was written.
pub fn write_message<W: Write + Drop>(
    alloc: Global,
    device: &mut Counted<W>,
    message: &[u8],
) -> Result<(), SendFault>
    ensures { IsSent W.contents (frame message.now) device.old device.new result }
{
    let framed = framed(alloc, message)?;
    write_whole(device, &framed)
}
