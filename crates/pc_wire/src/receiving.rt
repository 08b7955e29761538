//! Reading messages from a device.

ghost use Rattle.std.specs.Prelude.{◌≡◌, ◌≤◌, [], IfOk, IfErr, OnOk, option_map, vec_capacity};
ghost use Rattle.pc_wire.specs.Faults.{IsBroken, IsFound};
ghost use Rattle.pc_wire.specs.Reading.{IsHeaderRead, OnHeaderFault, IsBodyRead, OnBodyFault, IsSkipped, OnSkipFault};

use crate::fault::FrameFault;
use crate::fields::length_in;
use arrayvec::ArrayVec;
use pc_source::Counted;
use std::alloc::Global;
use std::io::Read;

/// The greatest length of a header, in bytes.
pub const HEADER_LIMIT: usize = 8192;

/// The greatest length of a message, in bytes.
pub const MESSAGE_LIMIT: usize = 16_777_216;

/// The number of bytes requested from a device at once.
const PIECE: usize = 8192;

/// Reads a header into an empty list, byte by byte, without allocating. Returns false if the device has no byte left.
/// Fails if a call fails, the device ends inside the header, or the header is over the limit.
fn read_header<R: Read + Drop>(
    device: &mut Counted<R>,
    header: &mut ArrayVec<u8, HEADER_LIMIT>,
) -> Result<bool, FrameFault>
    requires { header.old.items ≡ [] }
    ensures read { IfOk result (λ some. IsHeaderRead R.remaining some header.new.items device.old device.new) }
    ensures fault { IfErr result (OnHeaderFault R.remaining header.new.items device.old device.new) }
{
    let mut byte = [0; 1];
    'bytes: while !header.ends_with(b"\r\n\r\n") {
        if header.len() >= HEADER_LIMIT {
            return Err(FrameFault::LongHeader);
        }
        match device.read(&mut byte) {
            Err(_) => return Err(FrameFault::Read),
            Ok(0) if header.is_empty() => return Ok(false),
            Ok(0) => return Err(FrameFault::Cut),
            Ok(_) => header.push(byte[0]),
        }
    }
    Ok(true)
}

/// Reads `len` bytes into an empty list with capacity for them. Fails if a call fails or the device ends before.
fn read_body<R: Read + Drop>(
    device: &mut Counted<R>,
    message: &mut Vec<u8>,
    len: usize,
) -> Result<(), FrameFault>
    requires empty { message.old.items ≡ [] }
    requires room { len ≤ vec_capacity message.old }
    ensures read { OnOk result (IsBodyRead R.remaining len message.new.items device.old device.new) }
    ensures fault { IfErr result (OnBodyFault R.remaining len message.new.items device.old device.new) }
{
    let mut piece = [0; PIECE];
    'pieces: while message.len() < len {
        let room = PIECE.min(len - message.len());
        match device.read(&mut piece[..room]) {
            Err(_) => return Err(FrameFault::Read),
            Ok(0) => return Err(FrameFault::Cut),
            // The capacity suffices, so this cannot fail.
            Ok(count) => message.extend_from_slice(&piece[..count])?,
        }
    }
    Ok(())
}

/// Reads `len` bytes and discards them. Fails if a call fails or the device ends before.
fn skip_body<R: Read + Drop>(device: &mut Counted<R>, len: usize) -> Result<(), FrameFault>
    ensures read { OnOk result (IsSkipped R.remaining len device.old device.new) }
    ensures fault { IfErr result (OnSkipFault R.remaining len device.old device.new) }
{
    let mut piece = [0; PIECE];
    let mut left = len;
    'pieces: while 0 < left {
        let room = PIECE.min(left);
        match device.read(&mut piece[..room]) {
            Err(_) => return Err(FrameFault::Read),
            Ok(0) => return Err(FrameFault::Cut),
            Ok(count) => left -= count,
        }
    }
    Ok(())
}

/// Reads the next framed message from a device. `None` if the device ends before one begins. Language Server Protocol
/// 3.17, "Base Protocol".
///
/// # Errors
///
/// `Cut` if the device ends inside a message, `LongHeader` if a header is over the limit, `Header` if a header gives no
/// length, `Read` if a call of the device fails, an interruption included; no call follows it. `LongMessage` if a
/// message is over the limit, and `OutOfMemory` only if an allocation fails: then the message was read whole and is
/// lost, and the next one can be read.
pub fn read_message<R: Read + Drop>(
    alloc: Global,
    device: &mut Counted<R>,
) -> Result<Option<Vec<u8>>, FrameFault>
    ensures found { IfOk result
        (λ message. IsFound R.remaining (option_map (λ v. v.items) message) device.old device.new) }
    ensures fault { IfErr result (λ fault. IsBroken R.remaining fault device.old device.new) }
{
    let mut header = ArrayVec::new();
    if !read_header(device, &mut header)? {
        return Ok(None);
    }
    let len = length_in(&header)?;
    if len > MESSAGE_LIMIT {
        skip_body(device, len)?;
        return Err(FrameFault::LongMessage);
    }
    let Ok(mut message) = Vec::with_capacity(alloc, len) else {
        skip_body(device, len)?;
        return Err(FrameFault::OutOfMemory);
    };
    read_body(device, &mut message, len)?;
    Ok(Some(message))
}
