//! Bytes read from a device, up to a limit.

ghost use Rattle.std.specs.Prelude.{◌≡◌, IfOk, IfErr};
ghost use Rattle.pc_report.specs.Reading.{IsRead, OnReadFault};
ghost use Rattle.pc_report.specs.declared.reading.ReadFault.TheVariants as read_fault;
ghost use Rattle.pc_source.specs.Devices.{failures_after};
ghost use Rattle.std.specs.Prelude.{true};

use pc_source::{Counted, OutOfMemory};
use std::alloc::{AllocError, Global};
use std::io::Read;
use thiserror::Error;

/// The reason that bytes were not read. Own rule of the profile.
#[derive(Clone, Copy, Debug, PartialEq, Eq, Error)]
pub enum ReadFault {
    /// An allocation failed.
    #[error("out of memory")]
    OutOfMemory,
    /// The device failed.
    #[error("the input could not be read")]
    Read,
}

impl From<AllocError> for ReadFault {
    ghost from_gives = { λ _ e. e ≡ read_fault.OutOfMemory };

    fn from(_error: AllocError) -> ReadFault {
        ReadFault::OutOfMemory
    }
}

/// The greatest number of bytes requested from a device at once.
const PIECE: usize = 8192;

/// Reads the bytes of a device, to its end or to a limit, with as many calls as it needs, and none after one that
/// failed. Own rule of the profile.
///
/// # Errors
///
/// `Read` if a call of the device failed, even by an interruption; `OutOfMemory` only if an allocation failed.
pub fn read_at_most<R: Read + Drop>(
    alloc: Global,
    device: &mut Counted<R>,
    most: usize,
) -> Result<Vec<u8>, ReadFault>
    ensures read { IfOk result (λ bytes. IsRead R.remaining most bytes.items device.old device.new) }
    ensures fault { IfErr result (λ e. OnReadFault e
        (device.new.failures ≡ device.old.failures)
        (device.new.failures ≡ failures_after true device.old.failures)) }
{
    let mut bytes = Vec::new(alloc);
    let mut piece = [0; PIECE];
    while bytes.len() < most {
        let room = PIECE.min(most - bytes.len());
        match device.read(&mut piece[..room]) {
            Err(_) => return Err(ReadFault::Read),
            Ok(0) => return Ok(bytes),
            Ok(count) => bytes.extend_from_slice(&piece[..count])?,
        }
    }
    Ok(bytes)
}
